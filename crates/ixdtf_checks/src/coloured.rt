//! Writes the report of a refused line with colours, for a terminal.
//!
//! A person reads these reports, and they are few. So this code is plain: it writes each part of a report with a call of its own.
ghost use Rattle.std.specs.Prelude.{◌<◌, ◌++◌, ℕ, List, length, option_map};
ghost use Rattle.ixdtf_explanations.specs.Messages.{message_text};
ghost use Rattle.ixdtf_buffers.specs.Output.{Puts};
ghost use Rattle.ixdtf_checks.specs.Coloured.{IsColoured, bold, bold_red, but_last, coloured_hint, coloured_lines, coloured_marks};
ghost use Rattle.ixdtf_checks.specs.declared.request.Format.TheVariants.{Coloured, Text};
ghost use Rattle.ixdtf_checks.specs.Reports.{IsRefusalReport};
ghost use Rattle.ixdtf_checks.specs.Seen.{lines_in, seen_cause};
ghost use Rattle.ixdtf_checks.specs.Texts.{line_and_column};

use crate::cause::Cause;
use crate::marked_text::{ROOM, add_lines};
use crate::refusal::Marked;
use crate::report_contents::{refusal_of, shown_hint};
use crate::report_room::ReportRoom;
use crate::shown::put_message;
use ixdtf::Message;
use ixdtf_buffers::adding::{add_byte, add_bytes, add_number};
use ixdtf_buffers::error::RunError;
use ixdtf_buffers::output::Output;
use ixdtf_buffers::place::place_of;
use ixdtf_buffers::sink::Sink;

/// The escape sequence after which a text is bold.
const BOLD: &[u8] = b"\x1b[1m";

/// The escape sequence after which a text is bold and red.
const BOLD_RED: &[u8] = b"\x1b[1;31m";

/// The escape sequence that ends a colour.
const OFF: &[u8] = b"\x1b[0m";

/// The word before a hint, which is bold, and a space.
const HINT: &[u8] = b"\x1b[1mhint:\x1b[0m ";

/// The size in bytes of the array for the number of a line and a column. Each of them has at most 20 digits. There are two colons
/// before and after the number of the line, and a colon and a space after the column.
const PLACE_ROOM: usize = 44;

/// Writes the report of a refused line to the output, with colours. `cause` says why the line is refused. If `has_hint` is `true`, the
/// report has the hint about the line, if there is one. Without its escape sequences, it is the report as a text.
///
/// The function is not inlined, because it is called only for refused lines, and most lines are accepted.
#[cold]
#[inline(never)]
pub fn put_coloured<K: Sink>(
    output: &mut Output<'_, K>,
    room: &mut ReportRoom,
    name: &str,
    number: u64,
    cause: &Cause<'_>,
    has_hint: bool,
) -> Result<(), RunError>
    ensures { (report : List ℕ) × (text : List ℕ) × IsRefusalReport Coloured name.now number has_hint (seen_cause cause.now) report
        × IsRefusalReport Text name.now number has_hint (seen_cause cause.now) text × IsColoured report text
        × Puts K.contents K.failed output.old output.new result report }
{
    let refusal = refusal_of(*cause);
    let hint = shown_hint(*cause, has_hint);
    put_head(output, name, number, refusal.column)?;
    put_message(output, &refusal.message)?;
    output.put(b"\n")?;
    put_lines(output, &mut room.bytes, refusal.marked)?;
    put_hint(output, hint)
}

/// Writes the name of the file, the number of the line and the column to the output. They are bold.
fn put_head<K: Sink>(
    output: &mut Output<'_, K>,
    name: &str,
    number: u64,
    column: usize,
) -> Result<(), RunError>
    ensures { Puts K.contents K.failed output.old output.new result
        (bold (name.now ++ line_and_column number column)) }
{
    output.put(BOLD)?;
    put_name_and_place(output, name, number, column)?;
    output.put(OFF)
}

/// Writes the name of the file, the number of the line and the column to the output.
fn put_name_and_place<K: Sink>(
    output: &mut Output<'_, K>,
    name: &str,
    number: u64,
    column: usize,
) -> Result<(), RunError>
    ensures { Puts K.contents K.failed output.old output.new result (name.now ++ line_and_column number column) }
{
    output.put(name.as_bytes())?;
    put_place(output, number, column)
}

/// Writes the number of a line and a column to the output.
fn put_place<K: Sink>(
    output: &mut Output<'_, K>,
    number: u64,
    column: usize,
) -> Result<(), RunError>
    ensures { Puts K.contents K.failed output.old output.new result (line_and_column number column) }
{
    let mut room = [0; PLACE_ROOM];
    let line = add_byte(&mut room, 0, b':');
    let second_colon = add_number(&mut room, line, number);
    let place = add_byte(&mut room, second_colon, b':');
    let third_colon = add_number(&mut room, place, column as u64);
    let end = add_bytes(&mut room, third_colon, b": ");
    output.put(&room[..end])
}

/// Writes to the output the lines that show a text and the part that is wrong.
fn put_lines<K: Sink>(
    output: &mut Output<'_, K>,
    room: &mut [u8; ROOM],
    marked: Option<Marked<'_>>,
) -> Result<(), RunError>
    ensures { Puts K.contents K.failed output.old output.new result
        (coloured_lines bold_red (lines_in marked.entry)) }
{
    match marked {
        None => Ok(()),
        Some(marked) => {
            let end = add_lines(room, 0, marked.text, marked.part);
            put_marked(output, &room[..end])
        }
    }
}

/// Writes to the output the lines under a message: the text, and the line with the marks.
fn put_marked<K: Sink>(output: &mut Output<'_, K>, lines: &[u8]) -> Result<(), RunError>
    ensures { Puts K.contents K.failed output.old output.new result (coloured_lines bold_red lines.now) }
{
    match place_of(b'\n', lines) {
        None => output.put(lines),
        Some(place) => {
            let (text, marks) = lines.split_at(place + 1);
            output.put(text)?;
            put_marks(output, marks)
        }
    }
}

/// Writes the line with the marks to the output. The marks are bold and red.
fn put_marks<K: Sink>(output: &mut Output<'_, K>, line: &[u8]) -> Result<(), RunError>
    ensures { Puts K.contents K.failed output.old output.new result (coloured_marks bold_red line.now) }
{
    match place_of(b'^', line) {
        None => output.put(line),
        Some(start) => {
            let (spaces, marks) = line.split_at(start);
            output.put(spaces)?;
            put_last(output, marks)
        }
    }
}

/// Writes marks and the newline after them to the output. The marks are bold and red.
fn put_last<K: Sink>(output: &mut Output<'_, K>, marks: &[u8]) -> Result<(), RunError>
    requires { 0 < length marks.now }
    ensures { Puts K.contents K.failed output.old output.new result (but_last bold_red marks.now) }
{
    let (marks, newline) = marks.split_at(marks.len() - 1);
    put_red(output, marks)?;
    output.put(newline)
}

/// Writes a text to the output. It is bold and red.
fn put_red<K: Sink>(output: &mut Output<'_, K>, text: &[u8]) -> Result<(), RunError>
    ensures { Puts K.contents K.failed output.old output.new result (bold_red text.now) }
{
    output.put(BOLD_RED)?;
    output.put(text)?;
    output.put(OFF)
}

/// Writes to the output the line with the hint, if there is one. The word before the hint is bold.
fn put_hint<K: Sink>(output: &mut Output<'_, K>, hint: Option<Message<'_>>) -> Result<(), RunError>
    ensures { Puts K.contents K.failed output.old output.new result
        (coloured_hint bold (option_map message_text hint.entry)) }
{
    match hint {
        None => Ok(()),
        Some(hint) => {
            output.put(HINT)?;
            put_message(output, &hint)?;
            output.put(b"\n")
        }
    }
}
