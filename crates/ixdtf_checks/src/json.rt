//! Writes the report of a refused line as an object of JSON (RFC 8259).
//!
//! Most reports are written as a text, and not as an object of JSON. So this code is plain: it writes each part of an object, and each
//! byte of a string, with a call of its own.
ghost use Rattle.std.specs.Prelude.{◌++◌, ◌∷◌, ℕ, List, [], true, option_map};
ghost use Rattle.std.specs.List.{flat_map};
ghost use Rattle.ixdtf_explanations.specs.Messages.{message_text};
ghost use Rattle.ixdtf_buffers.specs.Lines.{newline};
ghost use Rattle.ixdtf_buffers.specs.Output.{Puts};
ghost use Rattle.ixdtf_checks.specs.Json.{json_byte, json_control, json_hint, json_object, json_place, json_string};
ghost use Rattle.ixdtf_checks.specs.declared.request.Format.TheVariants.{Json};
ghost use Rattle.ixdtf_checks.specs.Reports.{IsRefusalReport};
ghost use Rattle.ixdtf_checks.specs.Seen.{seen_cause, seen_refusal};

use crate::cause::Cause;
use crate::refusal::Refusal;
use crate::report_contents::{hint_of, name_of, refusal_of};
use crate::shown::{SHOWN_ROOM, shown_bytes};
use ixdtf::{Message, byte_digits};
use ixdtf_buffers::adding::{add_bytes, add_number};
use ixdtf_buffers::error::RunError;
use ixdtf_buffers::output::Output;
use ixdtf_buffers::sink::Sink;

/// The size in bytes of the array in which the numbers of an object are made. These are three numbers of at most 20 digits, and the
/// 25 bytes of the names before them.
const PLACE_ROOM: usize = 85;

/// Writes the report of a refused line to the output, as an object. `cause` says why the line is refused. `name` is the name of the
/// file, and `number` is the number of the line, from 1.
///
/// The function is not inlined, because it is called only for refused lines, and most lines are accepted.
#[cold]
#[inline(never)]
pub fn put_object<K: Sink>(
    output: &mut Output<'_, K>,
    name: &str,
    number: u64,
    cause: &Cause<'_>,
) -> Result<(), RunError>
    ensures { (report : List ℕ) × IsRefusalReport Json name.now number true (seen_cause cause.now) report
        × Puts K.contents K.failed output.old output.new result report }
{
    let refusal = refusal_of(*cause);
    let hint = hint_of(*cause);
    put_members(output, name, number, &refusal, hint)
}

/// Writes an object with its members to the output, and a newline.
fn put_members<K: Sink>(
    output: &mut Output<'_, K>,
    name: &str,
    number: u64,
    refusal: &Refusal<'_>,
    hint: Option<Message<'_>>,
) -> Result<(), RunError>
    ensures { Puts K.contents K.failed output.old output.new result
        (json_object name.now number (seen_refusal refusal.now) (option_map message_text hint.entry) ++ newline ∷ []) }
{
    put_member(output, b"{\"file\":", name.as_bytes())?;
    put_place(output, number, refusal.column, refusal.end)?;
    put_member(output, b",\"reason\":", name_of(refusal.why).as_bytes())?;
    output.put(b",\"text\":")?;
    put_message(output, &refusal.message)?;
    put_hint(output, hint)?;
    output.put(b"}\n")
}

/// Writes the numbers of an object to the output: the number of the line, the column, and the column after the part that is wrong.
fn put_place<K: Sink>(
    output: &mut Output<'_, K>,
    number: u64,
    column: usize,
    end: usize,
) -> Result<(), RunError>
    ensures { Puts K.contents K.failed output.old output.new result (json_place number column end) }
{
    let mut room = [0; PLACE_ROOM];
    let line = add_bytes(&mut room, 0, b",\"line\":");
    let column_name = add_number(&mut room, line, number);
    let begin = add_bytes(&mut room, column_name, b",\"column\":");
    let end_name = add_number(&mut room, begin, column as u64);
    let last = add_bytes(&mut room, end_name, b",\"end\":");
    let filled = add_number(&mut room, last, end as u64);
    output.put(&room[..filled])
}

/// Writes the member with the hint to the output, if there is a hint.
fn put_hint<K: Sink>(output: &mut Output<'_, K>, hint: Option<Message<'_>>) -> Result<(), RunError>
    ensures { Puts K.contents K.failed output.old output.new result (json_hint (option_map message_text hint.entry)) }
{
    match hint {
        None => Ok(()),
        Some(hint) => {
            output.put(b",\"hint\":")?;
            put_message(output, &hint)
        }
    }
}

/// Writes a message to the output as a string of JSON.
fn put_message<K: Sink>(output: &mut Output<'_, K>, message: &Message<'_>) -> Result<(), RunError>
    ensures { Puts K.contents K.failed output.old output.new result (json_string (message_text message.now)) }
{
    let mut array = [0; SHOWN_ROOM];
    let shown = shown_bytes(message.shown, &mut array);
    output.put(b"\"")?;
    put_escaped(output, message.before.as_bytes())?;
    put_escaped(output, shown)?;
    put_escaped(output, message.after.as_bytes())?;
    output.put(b"\"")
}

/// Writes a member of an object to the output. Its value is a string of JSON with these bytes, and `name` is what is before it.
fn put_member<K: Sink>(
    output: &mut Output<'_, K>,
    name: &[u8],
    bytes: &[u8],
) -> Result<(), RunError>
    ensures { Puts K.contents K.failed output.old output.new result (name.now ++ json_string bytes.now) }
{
    output.put(name)?;
    put_string(output, bytes)
}

/// Writes the bytes to the output as a string of JSON.
fn put_string<K: Sink>(output: &mut Output<'_, K>, bytes: &[u8]) -> Result<(), RunError>
    ensures { Puts K.contents K.failed output.old output.new result (json_string bytes.now) }
{
    output.put(b"\"")?;
    put_escaped(output, bytes)?;
    output.put(b"\"")
}

/// Writes what is between the quotes of a string of JSON.
fn put_escaped<K: Sink>(output: &mut Output<'_, K>, bytes: &[u8]) -> Result<(), RunError>
    ensures { Puts K.contents K.failed output.old output.new result (flat_map json_byte bytes.now) }
{
    for byte in bytes {
        put_byte(output, *byte)?;
    }
    Ok(())
}

/// Writes one byte of a string of JSON. RFC 8259, section 7, says which bytes have to be escaped.
fn put_byte<K: Sink>(output: &mut Output<'_, K>, byte: u8) -> Result<(), RunError>
    ensures { Puts K.contents K.failed output.old output.new result (json_byte byte) }
{
    match byte {
        b'"' => output.put(b"\\\""),
        b'\\' => output.put(b"\\\\"),
        0..32 => put_control(output, byte),
        _ => output.put(&[byte]),
    }
}

/// Writes a control character by its number.
fn put_control<K: Sink>(output: &mut Output<'_, K>, byte: u8) -> Result<(), RunError>
    ensures { Puts K.contents K.failed output.old output.new result (json_control byte) }
{
    let mut room = [0; SHOWN_ROOM];
    let digits = add_bytes(&mut room, 0, b"\\u00");
    let end = add_bytes(&mut room, digits, &byte_digits(byte));
    output.put(&room[..end])
}
