//! Makes the contents of the report of a refused line, from the cause for which the line is refused.
ghost use Rattle.std.specs.Prelude.{◌≡◌, ◌≤◌, ◌&&◌, [], Some, drop, length, option_map};
ghost use Rattle.ixdtf_explanations.specs.declared.part.WrongPart.{WrongPart};
ghost use Rattle.ixdtf_explanations.specs.Messages.{message_text};
ghost use Rattle.ixdtf_explanations.specs.Parts.{IsPart, extent_of};
ghost use Rattle.ixdtf_checks.specs.Csv.{quoting_message, quoting_name};
ghost use Rattle.ixdtf_checks.specs.Parts.{seen_part};
ghost use Rattle.ixdtf_checks.specs.Seen.{lines_at, lines_in, seen_cause, seen_refusal, why_name};
ghost use Rattle.ixdtf_checks.specs.Reports.{IsHintIn};
ghost use Rattle.ixdtf_checks.specs.Spaced.{HasHint, is_spaced};
ghost use Rattle.ixdtf_checks.specs.Verdicts.{Explains, IsHintAbout, Tells, refusal_at};

use crate::cause::{Cause, Unread, WholeText};
use crate::csv::Quoting;
use crate::refusal::{Marked, Refusal, Why};
use crate::verdict::LINE_LIMIT;
use ixdtf::{Message, Shown, WrongPart};

/// Returns what a report says about a line that is refused for this cause.
///
/// The function is inlined, so that the compiler can leave out the fields of `Refusal` that the caller does not use. For example, a
/// report as a text does not use `end` and `why`: only an object of JSON does.
#[inline(always)]
pub fn refusal_of(cause: Cause<'_>) -> Refusal<'_>
    ensures { Tells (seen_cause cause.entry) (seen_refusal result) }
{
    match cause {
        Cause::TooLong => refused_whole(LINE_LIMIT + 1, Why::LineTooLong, "line too long"),
        Cause::NoField(column) => refused_whole(column, Why::NoSuchField, "no such field"),
        Cause::Broken(quoting, column) => {
            refused_whole(column, Why::Quotes(quoting), message_of_quoting(quoting))
        }
        Cause::Untimed(text) => refused_text(text, Why::NoInstant, "no instant"),
        Cause::Early(_, text) => refused_text(text, Why::Earlier, "earlier than the line before"),
        Cause::Unread(unread) => refused_by_reader(unread),
    }
}

/// Returns the hint about a line that is refused for this cause, if there is one. There is none if the line or its text is refused as a
/// whole.
pub fn hint_of(cause: Cause<'_>) -> Option<Message<'_>>
    ensures { IsHintAbout (seen_cause cause.entry) (option_map message_text result) }
{
    match cause {
        Cause::Unread(unread) => hint_about(unread),
        Cause::TooLong
        | Cause::NoField(_)
        | Cause::Broken(_, _)
        | Cause::Untimed(_)
        | Cause::Early(_, _) => None,
    }
}

/// Returns the hint that the report of a refused line shows. If `has_hint` is `true`, this is the result of `hint_of`. Otherwise it is
/// `None`.
pub fn shown_hint(cause: Cause<'_>, has_hint: bool) -> Option<Message<'_>>
    ensures { IsHintIn has_hint (seen_cause cause.entry) (option_map message_text result) }
{
    if has_hint {
        return hint_of(cause);
    }
    None
}

/// Returns what a report says about a line that has no text.
fn refused_whole<'a>(column: usize, why: Why, message: &'static str) -> Refusal<'a>
    ensures { seen_refusal result ≡ refusal_at column (why_name why) message.now [] }
{
    Refusal {
        column,
        end: column,
        why,
        message: words(message),
        marked: None,
    }
}

/// Returns what a report says about a text that is refused as a whole.
fn refused_text<'a>(text: WholeText<'a>, why: Why, message: &'static str) -> Refusal<'a>
    ensures { seen_refusal result ≡ refusal_at text.entry.column (why_name why) message.now (lines_at 0 0 text.entry.text.now) }
{
    Refusal {
        column: text.column,
        end: text.column,
        why,
        message: words(message),
        marked: Some(first_marked(text.text)),
    }
}

/// Returns what a report says about a text that a reader refuses. If texts of this kind can have an offset, and the part that is wrong
/// begins with a space before an offset, this space is the reason, and the message is about it. Otherwise the reason and the message are
/// those of the error.
fn refused_by_reader(unread: Unread<'_>) -> Refusal<'_>
    ensures { Explains unread.entry.has_offset (seen_part unread.entry.part) unread.entry.error (seen_refusal result) }
{
    let text = unread.part.text;
    let wrong = unread.error.part_in(text);
    let column = unread.column_of(wrong.begin);
    let end = unread.column_of(wrong.end);
    let marked = Some(Marked { text, part: wrong });
    if has_space(&unread, wrong) {
        Refusal {
            column,
            end,
            why: Why::SpaceBeforeOffset,
            message: words("a space stands before the offset"),
            marked,
        }
    } else {
        Refusal {
            column,
            end,
            why: Why::Unread(unread.error.reason),
            message: unread.error.message_in(text),
            marked,
        }
    }
}

/// Returns the hint about a text that a reader refuses, if there is one. If `has_space` is `true` for the part that is wrong, the hint is
/// about the space. Otherwise it is that of the error.
fn hint_about(unread: Unread<'_>) -> Option<Message<'_>>
    ensures { (part : WrongPart) × IsPart (extent_of unread.entry.error.reason) unread.entry.part.text.now unread.entry.error.at part
        × HasHint unread.entry.has_offset unread.entry.part.text.now unread.entry.error part (option_map message_text result) }
{
    let text = unread.part.text;
    let wrong = unread.error.part_in(text);
    if has_space(&unread, wrong) {
        return Some(words("remove the space before the offset"));
    }
    unread.error.hint_in(text)
}

/// Returns `true` if both conditions are met:
///
/// - Texts of the kind can have an offset after their time (`unread.has_offset`).
/// - The text has a space where the part that is wrong begins. Directly after this space, the text has the beginning of an offset.
#[inline(always)]
pub fn has_space(unread: &Unread<'_>, wrong: WrongPart) -> bool
    requires { wrong.begin ≤ length unread.now.part.text.now }
    ensures { result ≡ (unread.now.has_offset && is_spaced (drop wrong.begin unread.now.part.text.now)) }
{
    unread.has_offset && is_spaced(&unread.part.text[wrong.begin..])
}

/// Returns whether the bytes begin with a space and the beginning of an offset: `Z`, `z`, or a sign and a digit.
fn is_spaced(bytes: &[u8]) -> bool
    ensures { result ≡ is_spaced bytes.now }
{
    match bytes {
        [b' ', b'Z' | b'z', ..] => true,
        [b' ', b'+' | b'-', digit, ..] => digit.is_ascii_digit(),
        _ => false,
    }
}

/// Returns a message that has only these words.
fn words(words: &'static str) -> Message<'static>
    ensures { message_text result ≡ words.now }
{
    Message {
        before: words,
        shown: Shown::Nothing,
        after: "",
    }
}

/// Marks the first byte of a text, which is refused as a whole.
fn first_marked(text: &[u8]) -> Marked<'_>
    ensures { lines_in (Some result) ≡ lines_at 0 0 text.now }
{
    Marked {
        text,
        part: WrongPart { begin: 0, end: 0 },
    }
}

/// Returns the message about a line that is no record of RFC 4180.
fn message_of_quoting(quoting: Quoting) -> &'static str
    ensures { result.now ≡ quoting_message quoting }
{
    match quoting {
        Quoting::NotClosed => "a quote is not closed in this line",
        Quoting::TextAfter => "text after a closing quote",
        Quoting::Stray => "a quote in a field without quotes",
    }
}

/// Returns the name of the reason. A report as an object of JSON contains this name. For `Why::Unread`, it is the name that
/// `Reason::name` returns. This crate defines the names of the other variants of `Why`, such as `line_too_long`.
pub fn name_of(why: Why) -> &'static str
    ensures { result.now ≡ why_name why }
{
    match why {
        Why::LineTooLong => "line_too_long",
        Why::NoSuchField => "no_such_field",
        Why::Quotes(quoting) => name_of_quoting(quoting),
        Why::NoInstant => "no_instant",
        Why::Earlier => "earlier",
        Why::SpaceBeforeOffset => "space_before_offset",
        Why::Unread(reason) => reason.name(),
    }
}

/// Returns the name of the reason why a line is no record of RFC 4180.
fn name_of_quoting(quoting: Quoting) -> &'static str
    ensures { result.now ≡ quoting_name quoting }
{
    match quoting {
        Quoting::NotClosed => "quote_not_closed",
        Quoting::TextAfter => "text_after_quote",
        Quoting::Stray => "stray_quote",
    }
}
