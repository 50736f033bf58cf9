//! Writes the report of a line.
ghost use Rattle.std.specs.Prelude.{◌≡◌, ◌≤◌, ◌++◌, ◌∷◌, ◌+◌, ℕ, List, [], take, None, Some, IfSome, option_map};
ghost use Rattle.ixdtf_explanations.specs.Messages.{message_text, shown_text};
ghost use Rattle.ixdtf_buffers.specs.Adding.{Adds};
ghost use Rattle.ixdtf_buffers.specs.Lines.{newline};
ghost use Rattle.ixdtf_buffers.specs.Output.{Puts};
ghost use Rattle.ixdtf_checks.specs.Verdicts.{Refusal as Told, Tells, hint_line};
ghost use Rattle.ixdtf_checks.specs.Reports.{IsRefusalReport, IsReport};
ghost use Rattle.ixdtf_checks.specs.Seen.{seen, seen_cause, lines_in, lines_behind};
ghost use Rattle.ixdtf_checks.specs.Texts.{line_and_column, text_of};

use crate::cause::Cause;
use crate::coloured::put_coloured;
use crate::json::put_object;
use crate::marked_text::{ROOM, add_lines};
use crate::printed_line::PrintedText;
use crate::refusal::{Marked, Refusal};
use crate::report_contents::{has_space, hint_of, refusal_of, shown_hint};
use crate::report_room::ReportRoom;
use crate::request::{Format, Request};
use crate::shown::{add_byte_number, add_character, put_message};
use crate::verdict::Verdict;
use ixdtf::{Message, Shown};
use ixdtf_buffers::adding::{add_byte, add_bytes, add_number};
use ixdtf_buffers::error::RunError;
use ixdtf_buffers::output::Output;
use ixdtf_buffers::sink::Sink;

/// The greatest length in bytes of a canonical text with its newline that is written to the output as one slice.
const MOST_AT_ONCE: usize = 4096;

/// The greatest length in bytes of the name of a file that is written to the output together with the other bytes of a report.
const MOST_NAME: usize = 256;

/// The greatest length in bytes of each of the three parts of a message that is written to the output together with the other bytes of
/// its report.
const MOST_PART: usize = 120;

/// The number of refused lines of a file whose reports as texts have hints.
///
/// A person reads the first reports. There are only a few hundred different hints, so the hints of later reports would tell nothing new.
/// They would take a fifth of the time.
const MOST_HINTS: u64 = 1000;

/// Writes the report of the line to the output. `number` is the number of the line, from 1. `refusals` is the number of refused lines
/// so far. If this line is refused, it is included. If the verdict is `Verdict::Printed`, `printed` contains the canonical text of the
/// line.
///
/// The function is inlined, so that no call is made for an accepted line. Most lines are accepted, and only the task `Task::Print`
/// writes something for them.
#[inline(always)]
pub fn put_report<K: Sink>(
    output: &mut Output<'_, K>,
    room: &mut ReportRoom,
    request: &Request<'_>,
    number: u64,
    refusals: u64,
    printed: &PrintedText,
    verdict: &Verdict<'_>,
) -> Result<(), RunError>
    ensures { (report : List ℕ) × IsReport request.now number refusals (seen printed.now verdict.now) report
        × Puts K.contents K.failed output.old output.new result report }
{
    match verdict {
        Verdict::Accepted | Verdict::Timed(_) | Verdict::Skipped => Ok(()),
        Verdict::Printed => put_printed(output, printed.as_line()),
        Verdict::Refused(cause) => {
            if request.is_quiet || refusals > request.most_reports {
                return Ok(());
            }
            let has_hint = refusals <= MOST_HINTS;
            match request.format {
                Format::Text => put_refusal(output, room, request.name, number, cause, has_hint),
                Format::Coloured => {
                    put_coloured(output, room, request.name, number, cause, has_hint)
                }
                Format::Json => put_object(output, request.name, number, cause),
            }
        }
    }
}

/// Makes the parts of the report of the line, but writes nothing. The function is needed only for the proof. The contract of the
/// function states that a report of the line exists, whatever the request and the number of the line are. If nothing is written about
/// the line, its report is empty.
pub fn explain(verdict: &Verdict<'_>)
    ensures { (request : Request) (number refusals : ℕ) (printed : List ℕ)
        → (report : List ℕ) × IsReport request number refusals (seen printed verdict.now) report }
{
    match verdict {
        Verdict::Accepted | Verdict::Timed(_) | Verdict::Skipped => {}
        Verdict::Printed => {}
        Verdict::Refused(cause) => {
            let _refusal = refusal_of(*cause);
            let _hint = hint_of(*cause);
        }
    }
}

/// Writes a canonical text and its newline to the output. If both together are longer than the buffer of the output, they are
/// two slices. The newline then waits in the buffer, and can go to the sink together with the bytes that follow it.
fn put_printed<K: Sink>(output: &mut Output<'_, K>, line: &[u8]) -> Result<(), RunError>
    ensures { Puts K.contents K.failed output.old output.new result line.now }
{
    if line.len() <= MOST_AT_ONCE {
        return output.put(line);
    }
    let (text, newline) = line.split_at(line.len() - 1);
    output.put_all(&[text, newline])
}

/// Writes the report of a line that is refused for this cause to the output, as a text. If the name of the file is short, the report
/// is made in the array, and is written as one slice. If `has_hint` is `true`, the report has the hint about the line, if there is one.
///
/// The function is not inlined, because it is called only for refused lines, and most lines are accepted. But the functions that make
/// the report of most refused lines are inlined into it. Each call would take about 20 instructions, and would pass the parts of the
/// refusal in memory.
#[inline(never)]
fn put_refusal<K: Sink>(
    output: &mut Output<'_, K>,
    room: &mut ReportRoom,
    name: &str,
    number: u64,
    cause: &Cause<'_>,
    has_hint: bool,
) -> Result<(), RunError>
    ensures { (report : List ℕ) × IsRefusalReport Format.Text name.now number has_hint (seen_cause cause.now) report
        × Puts K.contents K.failed output.old output.new result report }
{
    let bytes = name.as_bytes();
    if bytes.len() > MOST_NAME {
        return put_long_named(output, room, bytes, number, cause, has_hint);
    }
    let end = add_bytes(&mut room.bytes, 0, bytes);
    if has_hint {
        return put_any(output, room, end, number, cause, has_hint);
    }
    match add_unread(room, end, number, cause) {
        Some(filled) => output.put(&room.bytes[..filled]),
        None => put_any(output, room, end, number, cause, has_hint),
    }
}

/// Does the work of `put_refusal`. The name of the file is a slice of its own.
#[cold]
#[inline(never)]
fn put_long_named<K: Sink>(
    output: &mut Output<'_, K>,
    room: &mut ReportRoom,
    name: &[u8],
    number: u64,
    cause: &Cause<'_>,
    has_hint: bool,
) -> Result<(), RunError>
    ensures { (report : List ℕ) × IsRefusalReport Format.Text name.now number has_hint (seen_cause cause.now) report
        × Puts K.contents K.failed output.old output.new result report }
{
    let refusal = refusal_of(*cause);
    let hint = shown_hint(*cause, has_hint);
    output.put(name)?;
    put_after(output, room, 0, number, &refusal, hint)
}

/// Writes to the output what is in the array before `at`, and the report after the name of the file, for any cause.
#[cold]
#[inline(never)]
fn put_any<K: Sink>(
    output: &mut Output<'_, K>,
    room: &mut ReportRoom,
    at: usize,
    number: u64,
    cause: &Cause<'_>,
    has_hint: bool,
) -> Result<(), RunError>
    requires { at ≤ 256 }
    ensures { (report : List ℕ) × IsRefusalReport Format.Text [] number has_hint (seen_cause cause.now) report
        × Puts K.contents K.failed output.old output.new result (take at room.old.bytes ++ report) }
{
    let refusal = refusal_of(*cause);
    let hint = shown_hint(*cause, has_hint);
    put_after(output, room, at, number, &refusal, hint)
}

/// Adds the report after the name of the file, without a hint, if a reader refuses the text. Returns the index after the added bytes.
///
/// Returns `None` if the line is refused for another cause, if the part that is wrong begins with a space before an offset, or if a
/// part of the message is longer than `MOST_PART` bytes.
///
/// The function makes no `Refusal`: to copy the message into one takes 14 instructions.
#[inline(always)]
fn add_unread(room: &mut ReportRoom, at: usize, number: u64, cause: &Cause<'_>) -> Option<usize>
    requires { at ≤ 256 }
    ensures place { IfSome result (λ end. end ≤ 1030) }
    ensures text { IfSome result (λ end. (told : Told) × Tells (seen_cause cause.now) told
        × Adds room.old.bytes room.new.bytes at end (text_of [] number told.column told.message told.lines)) }
    ensures none { result ≡ None → take at room.new.bytes ≡ take at room.old.bytes }
{
    let Cause::Unread(unread) = cause else {
        return None;
    };
    let text = unread.part.text;
    let wrong = unread.error.part_in(text);
    if has_space(unread, wrong) {
        return None;
    }
    let place = add_place(room, at, number, unread.column_of(wrong.begin));
    let message = unread.error.message_in(text);
    let end = add_message(&mut room.bytes, place, &message)?;
    let marked = Marked { text, part: wrong };
    Some(add_marked(&mut room.bytes, end, Some(marked)))
}

/// Writes to the output what is in the array before `at`, and the report after the name of the file. These bytes are one slice, if
/// the message fits into the array. All messages that a reader causes fit, but this is not proved.
#[inline(always)]
fn put_after<K: Sink>(
    output: &mut Output<'_, K>,
    room: &mut ReportRoom,
    at: usize,
    number: u64,
    refusal: &Refusal<'_>,
    hint: Option<Message<'_>>,
) -> Result<(), RunError>
    requires { at ≤ 256 }
    ensures { Puts K.contents K.failed output.old output.new result
        (take at room.old.bytes
        ++ text_of [] number refusal.now.column (message_text refusal.now.message) (lines_behind refusal.now.marked hint.entry)) }
{
    let place = add_place(room, at, number, refusal.column);
    match add_message(&mut room.bytes, place, &refusal.message) {
        Some(end) => put_lines(output, &mut room.bytes, end, refusal.marked, hint),
        None => {
            output.put(&room.bytes[..place])?;
            put_message(output, &refusal.message)?;
            put_lines(output, &mut room.bytes, 0, refusal.marked, hint)
        }
    }
}

/// Adds the number of a refused line, and the column of the error. Returns the index after the added bytes.
#[inline(always)]
fn add_place(room: &mut ReportRoom, at: usize, number: u64, column: usize) -> usize
    requires { at ≤ 256 }
    ensures place { result ≤ at + 45 }
    ensures text { Adds room.old.bytes room.new.bytes at result (line_and_column number column) }
{
    let line = add_byte(&mut room.bytes, at, b':');
    let second_colon = room.numbers.add_number(&mut room.bytes, line, number);
    let place = add_byte(&mut room.bytes, second_colon, b':');
    let third_colon = add_number(&mut room.bytes, place, column as u64);
    add_bytes(&mut room.bytes, third_colon, b": ")
}

/// Adds a message. Returns the index after the added bytes, or `None` if a part of the message is longer than `MOST_PART` bytes.
#[inline(always)]
fn add_message(room: &mut [u8; ROOM], at: usize, message: &Message<'_>) -> Option<usize>
    requires { at + 360 ≤ 1397 }
    ensures place { IfSome result (λ end. end ≤ at + 360) }
    ensures text { IfSome result (λ end. Adds room.old room.new at end (message_text message.now)) }
    ensures none { result ≡ None → take at room.new ≡ take at room.old }
{
    let before = message.before.as_bytes();
    let after = message.after.as_bytes();
    if before.len() > MOST_PART || after.len() > MOST_PART {
        return None;
    }
    let first = add_bytes(room, at, before);
    let second = add_shown(room, first, message.shown)?;
    if after.is_empty() {
        return Some(second);
    }
    Some(add_bytes(room, second, after))
}

/// Adds what a message shows of the text. Returns the index after the added bytes, or `None` if it is a part of more than `MOST_PART`
/// bytes.
#[inline(always)]
fn add_shown(room: &mut [u8; ROOM], at: usize, shown: Shown<'_>) -> Option<usize>
    requires { at + 120 ≤ 1397 }
    ensures place { IfSome result (λ end. end ≤ at + 120) }
    ensures text { IfSome result (λ end. Adds room.old room.new at end (shown_text shown.entry)) }
    ensures none { result ≡ None → room.new ≡ room.old }
{
    match shown {
        Shown::Nothing => Some(at),
        Shown::Part(text) => {
            if text.len() > MOST_PART {
                return None;
            }
            Some(add_bytes(room, at, text.as_bytes()))
        }
        Shown::Character(character) => Some(add_character(room, at, character)),
        Shown::Byte(byte) => Some(add_byte_number(room, at, byte)),
    }
}

/// Writes to the output what is in the array before `at`, a newline, the lines that show a text and the part that is wrong, and the
/// hint.
#[inline(always)]
fn put_lines<K: Sink>(
    output: &mut Output<'_, K>,
    room: &mut [u8; ROOM],
    at: usize,
    marked: Option<Marked<'_>>,
    hint: Option<Message<'_>>,
) -> Result<(), RunError>
    requires { at ≤ 661 }
    ensures { Puts K.contents K.failed output.old output.new result
        (take at room.old ++ newline ∷ lines_behind marked.entry hint.entry) }
{
    let end = add_marked(room, at, marked);
    match hint {
        None => output.put(&room[..end]),
        Some(hint) => put_hint(output, room, end, &hint),
    }
}

/// Adds a newline, and the lines that show a text and the part that is wrong. Returns the index after them.
#[inline(always)]
fn add_marked(room: &mut [u8; ROOM], at: usize, marked: Option<Marked<'_>>) -> usize
    requires { at ≤ 661 }
    ensures place { result ≤ 1030 }
    ensures text { Adds room.old room.new at result (newline ∷ lines_in marked.entry) }
{
    let lines = add_byte(room, at, b'\n');
    match marked {
        None => lines,
        Some(marked) => add_lines(room, lines, marked.text, marked.part),
    }
}

/// Writes to the output what is in the array before `at`, and the line with the hint.
fn put_hint<K: Sink>(
    output: &mut Output<'_, K>,
    room: &mut [u8; ROOM],
    at: usize,
    hint: &Message<'_>,
) -> Result<(), RunError>
    requires { at ≤ 1030 }
    ensures { Puts K.contents K.failed output.old output.new result
        (take at room.old ++ hint_line (Some (message_text hint.now))) }
{
    let words = add_bytes(room, at, b"hint: ");
    match add_message(room, words, hint) {
        Some(end) => {
            let filled = add_byte(room, end, b'\n');
            output.put(&room[..filled])
        }
        None => {
            output.put(&room[..words])?;
            put_message(output, hint)?;
            output.put(b"\n")
        }
    }
}
