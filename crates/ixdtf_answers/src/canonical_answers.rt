//! Reads texts, and prints their canonical texts. There is one function for each kind of canonical text.
//!
//! None of these functions is inlined. So each function has a stack frame of its own, and the value that its reader returns is in this
//! frame. With Rattle's compiler, each call of such a function begins with setting the memory for this value to zero. If all readers
//! were in one function, this would be done for the values of all readers at each line. With separate functions, the program calls at
//! most one of them for each line. So only the memory for the value of this one function is set to zero.
ghost use Rattle.std.specs.Prelude.{◌≡◌, ◌≤◌, length, IfOk};
ghost use Rattle.ixdtf_answers.specs.Parts.{IsPrinted};
ghost use Rattle.ixdtf_answers.specs.declared.word.Word.TheVariants.{Canonical, CanonicalTime, CanonicalYearMonth, CanonicalMonthDay};
ghost use Rattle.ixdtf_answers.specs.declared.word.Word.TheVariants.{CanonicalOffset, CanonicalZone, CanonicalDuration};

use ixdtf::ParserResult;
use ixdtf::encoding::Utf8;
use ixdtf::parsers::{IsoDurationParser, IxdtfParser, TimeZoneParser};
use ixdtf_print::{
    PrintError, print_duration, print_month_day, print_offset, print_time, print_with_room,
    print_year_month, print_zone,
};

/// The size in bytes of the array to which the functions of this module print. If a value was read from a text of at most 4,096 bytes,
/// its canonical text has fewer bytes than this array. So a newline fits after the canonical text.
pub const MOST_PRINTED: usize = 4352;

/// Reads the text by `parse`, and prints the canonical text to the beginning of the array. Returns the number of bytes of the
/// canonical text, or the error of the reader.
#[inline(never)]
pub fn canonical_record(text: &[u8], room: &mut [u8; MOST_PRINTED]) -> ParserResult<usize>
    requires { length text.now ≤ 4096 }
    ensures { IsPrinted Canonical text.now room.new result }
{
    let read = IxdtfParser::from_utf8(text).parse();
    match &read {
        Ok(record) => Ok(print_with_room(record, room)),
        Err(error) => Err(*error),
    }
}

/// Reads the text as a time, and prints the canonical text to the beginning of the array. Returns the number of bytes of the
/// canonical text, or the error of the reader.
#[inline(never)]
pub fn canonical_time(text: &[u8], room: &mut [u8; MOST_PRINTED]) -> ParserResult<usize>
    requires { length text.now ≤ 4096 }
    ensures { IsPrinted CanonicalTime text.now room.new result }
{
    let read = IxdtfParser::from_utf8(text).parse_time();
    match &read {
        Ok(record) => Ok(count_of(print_time(record, room))),
        Err(error) => Err(*error),
    }
}

/// Reads the text as a year and a month, and prints the canonical text to the beginning of the array. Returns the number of
/// bytes of the canonical text, or the error of the reader.
#[inline(never)]
pub fn canonical_year_month(text: &[u8], room: &mut [u8; MOST_PRINTED]) -> ParserResult<usize>
    requires { length text.now ≤ 4096 }
    ensures { IsPrinted CanonicalYearMonth text.now room.new result }
{
    let read = IxdtfParser::from_utf8(text).parse_year_month();
    match &read {
        Ok(record) => Ok(count_of(print_year_month(record, room))),
        Err(error) => Err(*error),
    }
}

/// Reads the text as a month and a day, and prints the canonical text to the beginning of the array. Returns the number of
/// bytes of the canonical text, or the error of the reader.
#[inline(never)]
pub fn canonical_month_day(text: &[u8], room: &mut [u8; MOST_PRINTED]) -> ParserResult<usize>
    requires { length text.now ≤ 4096 }
    ensures { IsPrinted CanonicalMonthDay text.now room.new result }
{
    let read = IxdtfParser::from_utf8(text).parse_month_day();
    match &read {
        Ok(record) => Ok(count_of(print_month_day(record, room))),
        Err(error) => Err(*error),
    }
}

/// Reads the text as an offset, and prints the canonical text to the beginning of the array. Returns the number of bytes of the
/// canonical text, or the error of the reader.
#[inline(never)]
pub fn canonical_offset(text: &[u8], room: &mut [u8; MOST_PRINTED]) -> ParserResult<usize>
    requires { length text.now ≤ 4096 }
    ensures { IsPrinted CanonicalOffset text.now room.new result }
{
    let read = TimeZoneParser::from_utf8(text).parse_offset();
    match &read {
        Ok(offset) => Ok(count_of(print_offset(offset, room))),
        Err(error) => Err(*error),
    }
}

/// Reads the text as a time zone, and prints the canonical text to the beginning of the array. Returns the number of bytes of
/// the canonical text, or the error of the reader.
#[inline(never)]
pub fn canonical_zone(text: &[u8], room: &mut [u8; MOST_PRINTED]) -> ParserResult<usize>
    requires { length text.now ≤ 4096 }
    ensures { IsPrinted CanonicalZone text.now room.new result }
{
    let read = TimeZoneParser::from_utf8(text).parse_identifier();
    match &read {
        Ok(zone) => Ok(count_of(print_zone(zone, room))),
        Err(error) => Err(*error),
    }
}

/// Reads the text as a duration, and prints the canonical text to the beginning of the array. Returns the number of bytes of
/// the canonical text, or the error of the reader.
#[inline(never)]
pub fn canonical_duration(text: &[u8], room: &mut [u8; MOST_PRINTED]) -> ParserResult<usize>
    requires { length text.now ≤ 4096 }
    ensures { IsPrinted CanonicalDuration text.now room.new result }
{
    let read = IsoDurationParser::<Utf8>::from_utf8(text).parse();
    match &read {
        Ok(duration) => Ok(count_of(print_duration(duration, room))),
        Err(error) => Err(*error),
    }
}

/// Returns how many bytes the printer wrote. A print cannot fail here, because the values that readers return are printable, and
/// the array is long enough.
fn count_of(printed: Result<usize, PrintError>) -> usize
    ensures { IfOk printed (λ count. result ≡ count) }
{
    printed.unwrap_or(0)
}
