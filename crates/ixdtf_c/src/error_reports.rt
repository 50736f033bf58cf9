//! The report of an error: its message, the text, marks under the part of the text that is wrong, and a hint.

ghost use Rattle.std.specs.Prelude.{◌≡◌, ◌≢◌, take, IfSome, IfNone};
ghost use Rattle.std.specs.Str.Lossy.{utf8_valid_len};
ghost use Rattle.ixdtf_grammar.specs.declared.reason.Reason.{Reason as AnyReason};
ghost use Rattle.ixdtf_c.specs.Adding.{Adds};
ghost use Rattle.ixdtf_c.specs.Reasons.{reason_number};
ghost use Rattle.ixdtf_c.specs.Reported.{Describes, Hints, hint_text, report_text};

use crate::explanations::Explanation;
use crate::reason_numbers::reason_by_number;
use crate::report_bytes::add;
use crate::report_marks::add_pointed;
use crate::report_messages::add_message;
use ixdtf::{LocatedError, Message, ParseError, WrongPart};
use std::str::from_utf8;

/// What is written in a report.
#[derive(Clone, Copy)]
struct Report<'a> {
    /// What is wrong in the text.
    message: Message<'a>,
    /// The complete text that was refused.
    text: &'a [u8],
    /// The part of the text that is wrong.
    part: WrongPart,
    /// What to change in the text.
    hint: Option<Message<'a>>,
}

/// Returns the error that has the reason and the position of the explanation, or `None` if no reason has its number.
///
/// The message, the part and the hint do not depend on the field `error`.
fn error_of(explanation: &Explanation) -> Option<LocatedError>
    ensures reason { IfSome result (λ error. reason_number error.reason ≡ explanation.now.reason) }
    ensures place { IfSome result (λ error. error.at ≡ explanation.now.place) }
    ensures none { IfNone result ((reason : AnyReason) → explanation.now.reason ≢ reason_number reason) }
{
    match reason_by_number(explanation.reason) {
        None => None,
        Some(reason) => Some(LocatedError {
            error: ParseError::InvalidEnd,
            at: explanation.place,
            reason,
        }),
    }
}

/// Returns the characters before the first byte that is not UTF-8.
fn valid_front(bytes: &[u8]) -> &str
    ensures { result.now ≡ take (utf8_valid_len bytes.now) bytes.now }
{
    match from_utf8(bytes) {
        Ok(text) => text,
        Err(error) => from_utf8(&bytes[..error.valid_up_to().min(bytes.len())]).unwrap_or(""),
    }
}

/// Writes a report to the beginning of the array, as far as it fits. Returns the length of the report, also if it does not fit.
fn add_report(out: &mut [u8], report: &Report<'_>) -> usize
    ensures { Adds out.old out.new 0 result (report_text report.now.message report.now.part report.now.hint report.now.text.now) }
{
    let newline = add_message(out, 0, &report.message);
    let lines = add(out, newline, b"\n");
    let end = add_pointed(out, lines, valid_front(report.text), report.part);
    match &report.hint {
        None => end,
        Some(hint) => {
            let words = add(out, end, b"\nhint: ");
            add_message(out, words, hint)
        }
    }
}

/// Writes a hint to the beginning of the array, as far as it fits. Returns the length of the hint, which is 0 if there is none.
fn add_hint(out: &mut [u8], hint: &Option<Message<'_>>) -> usize
    ensures { Adds out.old out.new 0 result (hint_text hint.now) }
{
    match hint {
        None => 0,
        Some(hint) => add_message(out, 0, hint),
    }
}

/// Writes the report of an error to the first bytes of `out`, and its length to `count`. Returns 0.
///
/// The first three lines of the report are the message of the error, the text, and marks under the part of the text that is wrong. The
/// report does not end with a newline. If there is a hint, the last line is `hint: ` and the hint. Only the fields `reason` and `place`
/// of the explanation are used. `text` must be the complete text that was refused. If the text has 16-bit code units, `text` must be this
/// text, converted to UTF-8.
///
/// Returns 102 if `out` is too short. Then `out` is unchanged, and `count` is the length of the report. Returns 101 if the
/// explanation has no reason. Then `out` and `count` are unchanged.
#[unsafe(no_mangle)]
pub extern "C" fn ixdtf_describe(
    explanation: &Explanation,
    text: &[u8],
    out: &mut [u8],
    count: &mut usize,
) -> u32
    ensures describes { (reason : AnyReason) → explanation.now.reason ≡ reason_number reason →
        Describes reason text.now explanation.now.place out.old out.new count.new result }
    ensures none { ((reason : AnyReason) → explanation.now.reason ≢ reason_number reason) →
        (result ≡ 101) × (out.new ≡ out.old) × (count.new ≡ count.old) }
{
    let Some(error) = error_of(explanation) else {
        return 101;
    };
    let report = Report {
        message: error.message_in(text),
        text,
        part: error.part_in(text),
        hint: error.hint_in(text),
    };
    *count = add_report(&mut [], &report);
    if out.len() < *count {
        return 102;
    }
    let _end = add_report(out, &report);
    0
}

/// Writes the hint about an error to the first bytes of `out`, and its length to `count`. Returns 0. If there is no hint, the length is 0.
///
/// The arguments are those of `ixdtf_describe`. The function also returns 101 and 102 in the same cases as `ixdtf_describe`: 102 if `out`
/// is too short (here `count` is the length of the hint), and 101 if the explanation has no reason.
#[unsafe(no_mangle)]
pub extern "C" fn ixdtf_hint(
    explanation: &Explanation,
    text: &[u8],
    out: &mut [u8],
    count: &mut usize,
) -> u32
    ensures hints { (reason : AnyReason) → explanation.now.reason ≡ reason_number reason →
        Hints reason text.now explanation.now.place out.old out.new count.new result }
    ensures none { ((reason : AnyReason) → explanation.now.reason ≢ reason_number reason) →
        (result ≡ 101) × (out.new ≡ out.old) × (count.new ≡ count.old) }
{
    let Some(error) = error_of(explanation) else {
        return 101;
    };
    let hint = error.hint_in(text);
    *count = add_hint(&mut [], &hint);
    if out.len() < *count {
        return 102;
    }
    let _end = add_hint(out, &hint);
    0
}
