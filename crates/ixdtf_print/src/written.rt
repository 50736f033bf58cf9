//! Functions that write the parts of a canonical text into a formatter.
ghost use Rattle.std.specs.Prelude.{◌≡◌, ◌≤◌, length, map, take, option_map};
ghost use Rattle.std.specs.Char.{encode_utf8};
ghost use Rattle.std.specs.Fmt.{WritesStyledOnOk};
ghost use Rattle.std.specs.Str.{encode_utf8_all};
ghost use Rattle.ixdtf.specs.Views.{note_of, zone_of};
ghost use Rattle.ixdtf_print.specs.Canonical.{zone_text, bracket_text, calendar_text, brackets_text, minute_offset_text};
ghost use Rattle.ixdtf_print.specs.Printable.{record_of};
ghost use Rattle.ixdtf_print.specs.Shown.{bytes_of};

use crate::fields::{opening_of, put_minute_offset};
use ixdtf::encoding::Utf8;
use ixdtf::records::{IxdtfParseRecord, MinutePrecisionOffset, TimeZoneAnnotation, TimeZoneRecord};
use std::fmt;

/// Writes the zone and the calendar, in their brackets.
pub fn write_brackets<W: fmt::Write>(
    f: &mut fmt::Formatter<W>,
    parsed: &IxdtfParseRecord<'_, Utf8>,
) -> fmt::Result
    ensures { WritesStyledOnOk W.write_str_gives f.old result
        (bytes_of (brackets_text (record_of parsed.now))) f.new }
{
    write_bracket(f, &parsed.tz)?;
    write_calendar(f, parsed.calendar)
}

/// Returns the first `count` bytes.
pub fn front_of(bytes: &[u8], count: usize) -> &[u8]
    requires { count ≤ length bytes.now }
    ensures { result.now ≡ take count bytes.now }
{
    // `bytes` always has `count` bytes, as the proof shows. The compiler does not know the proof: because of this test,
    // it compiles no code for a panic.
    match bytes.get(..count) {
        Some(front) => front,
        None => bytes,
    }
}

/// Writes the zone in its bracket, if there is a zone.
fn write_bracket<W: fmt::Write>(
    f: &mut fmt::Formatter<W>,
    note: &Option<TimeZoneAnnotation<'_, Utf8>>,
) -> fmt::Result
    ensures { WritesStyledOnOk W.write_str_gives f.old result
        (bytes_of (bracket_text (option_map (note_of (λ byte. byte)) note.now))) f.new }
{
    match note {
        None => Ok(()),
        Some(note) => {
            write_bytes(f, opening_of(note.critical))?;
            write_zone(f, &note.tz)?;
            f.write_str("]")
        }
    }
}

/// Writes the zone.
pub fn write_zone<W: fmt::Write>(
    f: &mut fmt::Formatter<W>,
    zone: &TimeZoneRecord<'_, Utf8>,
) -> fmt::Result
    ensures { WritesStyledOnOk W.write_str_gives f.old result
        (bytes_of (zone_text (zone_of (λ byte. byte) zone.now))) f.new }
{
    match zone {
        TimeZoneRecord::Name(name) => write_bytes(f, name),
        TimeZoneRecord::Offset(offset) => write_minute_offset(f, *offset),
    }
}

/// Writes an offset with hours and minutes.
fn write_minute_offset<W: fmt::Write>(
    f: &mut fmt::Formatter<W>,
    offset: MinutePrecisionOffset,
) -> fmt::Result
    ensures { WritesStyledOnOk W.write_str_gives f.old result
        (bytes_of (minute_offset_text offset)) f.new }
{
    let mut bytes = [0; 6];
    put_minute_offset(&mut bytes, 0, offset);
    write_bytes(f, &bytes)
}

/// Writes the calendar in its bracket, if there is a calendar.
fn write_calendar<W: fmt::Write>(f: &mut fmt::Formatter<W>, calendar: Option<&[u8]>) -> fmt::Result
    ensures { WritesStyledOnOk W.write_str_gives f.old result
        (bytes_of (calendar_text (option_map (λ units. map (λ byte. byte) units.now) calendar.entry))) f.new }
{
    match calendar {
        None => Ok(()),
        Some(value) => {
            f.write_str("[u-ca=")?;
            write_bytes(f, value)?;
            f.write_str("]")
        }
    }
}

/// Writes, for each byte, the character whose code point is the value of the byte. If a record has a canonical text, the
/// bytes of its names are ASCII. So for such a name, the function writes exactly the bytes of the name.
pub fn write_bytes<W: fmt::Write>(f: &mut fmt::Formatter<W>, bytes: &[u8]) -> fmt::Result
    ensures { WritesStyledOnOk W.write_str_gives f.old result (encode_utf8_all bytes.now) f.new }
{
    for byte in bytes {
        write_byte(f, *byte)?;
    }
    Ok(())
}

/// Writes the character whose code point is the value of the byte.
fn write_byte<W: fmt::Write>(f: &mut fmt::Formatter<W>, byte: u8) -> fmt::Result
    ensures { WritesStyledOnOk W.write_str_gives f.old result (encode_utf8 byte) f.new }
{
    let mut bytes = [0; 4];
    f.write_str(char::from(byte).encode_utf8(&mut bytes))
}
