//! Writes the answers to `explain`: why the reader of a word refuses a text.
//!
//! None of the functions that call a reader is inlined, for the reason that the module `reader_answers` gives.
ghost use Rattle.std.specs.Prelude.{◌≡◌, ◌+◌, ◌≤◌, ◌++◌, codes, length};
ghost use Rattle.std.specs.Fmt.{decimal};
ghost use Rattle.ixdtf.specs.language.Readers.{parse, parse_rfc9557, parse_year_month, parse_month_day, parse_time};
ghost use Rattle.ixdtf.specs.language.Readers.Reader.{parse_rfc3339, parse_offset, parse_identifier, parse_iana_identifier, parse_duration};
ghost use Rattle.ixdtf_buffers.specs.Adding.{Adds};
ghost use Rattle.ixdtf_answers.specs.Parts.{IsLocated, PutsExplanation, PutsRefusal};
ghost use Rattle.ixdtf_answers.specs.Word.{reader_of};

use crate::canonical_answers::MOST_PRINTED;
use crate::outcome::put_front_and_name;
use crate::reader_answers::{answer_text, parser};
use crate::word::Word;
use ixdtf::encoding::Utf8;
use ixdtf::parsers::{IsoDurationParser, IxdtfParser, Profile, TimeZoneParser};
use ixdtf::{LocatedError, WrongPart};
use ixdtf_buffers::adding::{ROOM, add_array, add_number};
use ixdtf_buffers::error::RunError;
use ixdtf_buffers::output::Output;
use ixdtf_buffers::sink::Sink;

/// Writes why the reader of the word refuses the text. If the reader accepts the text, writes the answer of the word.
///
/// An accepted text is read twice. So the answer of the word has only one home, and the other words do not become slower.
pub fn explain_text<K: Sink>(
    output: &mut Output<'_, K>,
    room: &mut [u8; ROOM],
    printed: &mut [u8; MOST_PRINTED],
    word: Word,
    text: &[u8],
) -> Result<(), RunError>
    requires { length text.now ≤ 4096 }
    ensures { PutsExplanation K.contents K.failed output.old output.new result word text.now }
{
    match read(word, text) {
        Ok(()) => answer_text(output, room, printed, word, text),
        Err(error) => put_refusal(output, room, error, text),
    }
}

/// Writes the position of the error, the part of the text that is wrong, the name of the reason, and a newline.
fn put_refusal<K: Sink>(
    output: &mut Output<'_, K>,
    room: &mut [u8; ROOM],
    error: LocatedError,
    text: &[u8],
) -> Result<(), RunError>
    requires { error.at ≤ length text.now }
    ensures { PutsRefusal K.contents K.failed output.old output.new result error text.now }
{
    let first = add_array(room, 0, b"error at=");
    let second = add_number(room, first, error.at as u64);
    let third = add_part(room, second, error.part_in(text));
    let front = add_array(room, third, b" reason=");
    put_front_and_name(output, room, front, error.reason.name().as_bytes())
}

/// Adds the part of the text that is wrong: where it begins and where it ends.
fn add_part(room: &mut [u8; ROOM], at: usize, part: WrongPart) -> usize
    requires { at + 48 ≤ ROOM }
    ensures place { result ≤ at + 48 }
    ensures text { Adds room.old room.new at result
        (codes " part=" ++ (decimal part.begin ++ (codes ".." ++ decimal part.end))) }
{
    let begin = add_array(room, at, b" part=");
    let points = add_number(room, begin, part.begin as u64);
    let end = add_array(room, points, b"..");
    add_number(room, end, part.end as u64)
}

/// Reads the text by the reader of the word. Returns the error with its position and its reason, if the text is refused.
fn read(word: Word, text: &[u8]) -> Result<(), LocatedError>
    ensures { IsLocated (reader_of word) text.now result }
{
    match word {
        Word::Parse => read_parse(text),
        Word::YearMonth => read_year_month(text),
        Word::MonthDay => read_month_day(Profile::Crate, text),
        Word::Time => read_time(Profile::Crate, text),
        Word::Offset => read_offset(text),
        Word::Zone => read_zone(text),
        Word::Iana => read_zone_name(text),
        Word::Duration => read_duration(Profile::Crate, text),
        Word::StrictMonthDay => read_month_day(Profile::Strict, text),
        Word::StrictTime => read_time(Profile::Strict, text),
        Word::StrictDuration => read_duration(Profile::Strict, text),
        Word::Canonical => read_parse(text),
        Word::Rfc3339 => read_rfc3339(text),
        Word::ZoneName => read_zone_name(text),
        Word::Rfc9557 => read_rfc9557(text),
        Word::CanonicalOffset => read_offset(text),
        Word::CanonicalZone => read_zone(text),
        Word::CanonicalDuration => read_duration(Profile::Crate, text),
        Word::Instant => read_parse(text),
        Word::CanonicalTime => read_time(Profile::Crate, text),
        Word::CanonicalYearMonth => read_year_month(text),
        Word::CanonicalMonthDay => read_month_day(Profile::Crate, text),
    }
}

/// Reads the text by `parse_located`. Returns the error, if the text is refused.
#[inline(never)]
fn read_parse(text: &[u8]) -> Result<(), LocatedError>
    ensures { IsLocated parse text.now result }
{
    match IxdtfParser::from_utf8(text).parse_located() {
        Ok(_record) => Ok(()),
        Err(error) => Err(error),
    }
}

/// Reads the text by `parse_year_month_located`. Returns the error, if the text is refused.
#[inline(never)]
fn read_year_month(text: &[u8]) -> Result<(), LocatedError>
    ensures { IsLocated parse_year_month text.now result }
{
    match IxdtfParser::from_utf8(text).parse_year_month_located() {
        Ok(_record) => Ok(()),
        Err(error) => Err(error),
    }
}

/// Reads the text by `parse_month_day_located`. Returns the error, if the text is refused.
#[inline(never)]
fn read_month_day(profile: Profile, text: &[u8]) -> Result<(), LocatedError>
    ensures { IsLocated (parse_month_day profile) text.now result }
{
    match parser(profile, text).parse_month_day_located() {
        Ok(_record) => Ok(()),
        Err(error) => Err(error),
    }
}

/// Reads the text by `parse_time_located`. Returns the error, if the text is refused.
#[inline(never)]
fn read_time(profile: Profile, text: &[u8]) -> Result<(), LocatedError>
    ensures { IsLocated (parse_time profile) text.now result }
{
    match parser(profile, text).parse_time_located() {
        Ok(_record) => Ok(()),
        Err(error) => Err(error),
    }
}

/// Reads the text by `parse_offset_located`. Returns the error, if the text is refused.
#[inline(never)]
fn read_offset(text: &[u8]) -> Result<(), LocatedError>
    ensures { IsLocated parse_offset text.now result }
{
    match TimeZoneParser::from_utf8(text).parse_offset_located() {
        Ok(_offset) => Ok(()),
        Err(error) => Err(error),
    }
}

/// Reads the text by `parse_identifier_located`. Returns the error, if the text is refused.
#[inline(never)]
fn read_zone(text: &[u8]) -> Result<(), LocatedError>
    ensures { IsLocated parse_identifier text.now result }
{
    match TimeZoneParser::from_utf8(text).parse_identifier_located() {
        Ok(_zone) => Ok(()),
        Err(error) => Err(error),
    }
}

/// Reads the text by `parse_iana_identifier_located`. Returns the error, if the text is refused.
#[inline(never)]
fn read_zone_name(text: &[u8]) -> Result<(), LocatedError>
    ensures { IsLocated parse_iana_identifier text.now result }
{
    match TimeZoneParser::from_utf8(text).parse_iana_identifier_located() {
        Ok(_name) => Ok(()),
        Err(error) => Err(error),
    }
}

/// Reads the text by `parse_rfc3339_located`. Returns the error, if the text is refused.
#[inline(never)]
fn read_rfc3339(text: &[u8]) -> Result<(), LocatedError>
    ensures { IsLocated parse_rfc3339 text.now result }
{
    match IxdtfParser::from_utf8(text).parse_rfc3339_located() {
        Ok(_record) => Ok(()),
        Err(error) => Err(error),
    }
}

/// Reads the text by `parse_rfc9557_located`. Returns the error, if the text is refused.
#[inline(never)]
fn read_rfc9557(text: &[u8]) -> Result<(), LocatedError>
    ensures { IsLocated parse_rfc9557 text.now result }
{
    match IxdtfParser::from_utf8(text).parse_rfc9557_located() {
        Ok(_record) => Ok(()),
        Err(error) => Err(error),
    }
}

/// Reads the text by `IsoDurationParser::parse_located`. Returns the error, if the text is refused.
#[inline(never)]
fn read_duration(profile: Profile, text: &[u8]) -> Result<(), LocatedError>
    ensures { IsLocated (parse_duration profile) text.now result }
{
    let mut reader = IsoDurationParser::<Utf8>::from_utf8(text).with_profile(profile);
    match reader.parse_located() {
        Ok(_duration) => Ok(()),
        Err(error) => Err(error),
    }
}
