//! Writes the answers of the readers.
//!
//! A line begins with a word. Some words, such as `canonical-time`, ask for the canonical text of a value. For these words, the
//! function that reads the text of the line is in the module `canonical_answers`. For the other words, this module has functions that read the
//! text and write the answer. Some of these functions serve two words, such as `time` and `strict-time`.
//!
//! None of these functions is inlined. So each has a stack frame of its own, and the value that its reader returns is in this frame.
//! With Rattle's compiler, each call of such a function begins with setting the memory for this value to zero. If all readers were in
//! one function, this would be done for the values of all readers at each line. With separate functions, the program calls at most one
//! of them for each line. So only the memory for the value of this one function is set to zero. A record is passed by reference, so
//! that it is not moved.
ghost use Rattle.std.specs.Prelude.{◌≡◌, ◌≤◌, length};
ghost use Rattle.ixdtf.specs.Views.{parsed_of};
ghost use Rattle.ixdtf.specs.language.Languages.Found.{parsed};
ghost use Rattle.ixdtf.specs.language.Readers.{parse_month_day, parse_time};
ghost use Rattle.ixdtf.specs.language.Readers.Reader.{parse_iana_identifier, parse_duration};
ghost use Rattle.ixdtf_answers.specs.Word.{reader_of};
ghost use Rattle.ixdtf_answers.specs.Parts.{IsPrinted, IsReturned, PutsOutcome, ShowsFields};

use crate::canonical_answers::{
    MOST_PRINTED, canonical_duration, canonical_month_day, canonical_offset, canonical_record,
    canonical_time, canonical_year_month, canonical_zone,
};
use crate::outcome::{put_duration, put_error, put_instant, put_offset, put_record, put_zone};
use crate::word::Word;
use ixdtf::ParserResult;
use ixdtf::encoding::Utf8;
use ixdtf::parsers::{IsoDurationParser, IxdtfParser, Profile, TimeZoneParser};
use ixdtf::records::{IxdtfParseRecord, TimeZoneRecord};
use ixdtf_buffers::adding::{ROOM, add_byte};
use ixdtf_buffers::error::RunError;
use ixdtf_buffers::output::Output;
use ixdtf_buffers::sink::Sink;

/// Writes the answer for the text. The word decides which reader reads the text, and what the answer says about the value.
pub fn answer_text<K: Sink>(
    output: &mut Output<'_, K>,
    room: &mut [u8; ROOM],
    printed: &mut [u8; MOST_PRINTED],
    word: Word,
    text: &[u8],
) -> Result<(), RunError>
    requires { length text.now ≤ 4096 }
    ensures { PutsOutcome K.contents K.failed output.old output.new result word text.now }
{
    match word {
        Word::Parse => answer_parse(output, room, text),
        Word::YearMonth => answer_year_month(output, room, text),
        Word::MonthDay => answer_month_day(output, room, word, Profile::Crate, text),
        Word::Time => answer_time(output, room, word, Profile::Crate, text),
        Word::Offset => answer_offset(output, room, text),
        Word::Zone => answer_zone(output, room, text),
        Word::Iana => answer_zone_name(output, room, word, text),
        Word::Duration => answer_duration(output, room, word, Profile::Crate, text),
        Word::StrictMonthDay => answer_month_day(output, room, word, Profile::Strict, text),
        Word::StrictTime => answer_time(output, room, word, Profile::Strict, text),
        Word::StrictDuration => answer_duration(output, room, word, Profile::Strict, text),
        Word::Canonical => put_canonical(
            output,
            room,
            word,
            text,
            canonical_record(text, printed),
            printed,
        ),
        Word::Rfc3339 => answer_rfc3339(output, room, text),
        Word::ZoneName => answer_zone_name(output, room, word, text),
        Word::Rfc9557 => answer_rfc9557(output, room, text),
        Word::CanonicalOffset => put_canonical(
            output,
            room,
            word,
            text,
            canonical_offset(text, printed),
            printed,
        ),
        Word::CanonicalZone => put_canonical(
            output,
            room,
            word,
            text,
            canonical_zone(text, printed),
            printed,
        ),
        Word::CanonicalDuration => put_canonical(
            output,
            room,
            word,
            text,
            canonical_duration(text, printed),
            printed,
        ),
        Word::Instant => answer_instant(output, room, text),
        Word::CanonicalTime => put_canonical(
            output,
            room,
            word,
            text,
            canonical_time(text, printed),
            printed,
        ),
        Word::CanonicalYearMonth => put_canonical(
            output,
            room,
            word,
            text,
            canonical_year_month(text, printed),
            printed,
        ),
        Word::CanonicalMonthDay => put_canonical(
            output,
            room,
            word,
            text,
            canonical_month_day(text, printed),
            printed,
        ),
    }
}

/// Writes the fields of the record that the reader returned, or the error that it returned.
#[inline(always)]
fn put_found<K: Sink>(
    output: &mut Output<'_, K>,
    room: &mut [u8; ROOM],
    word: Word,
    text: &[u8],
    outcome: &ParserResult<IxdtfParseRecord<'_, Utf8>>,
) -> Result<(), RunError>
    requires fields { ShowsFields word }
    requires returned { IsReturned (λ parts. parsed (parsed_of (λ byte. byte) parts)) word text.now
        outcome.now }
    ensures { PutsOutcome K.contents K.failed output.old output.new result word text.now }
{
    match outcome {
        Ok(parts) => put_record(output, room, parts),
        Err(error) => put_error(output, room, *error),
    }
}

/// Writes the answer of `parse`.
#[inline(never)]
fn answer_parse<K: Sink>(
    output: &mut Output<'_, K>,
    room: &mut [u8; ROOM],
    text: &[u8],
) -> Result<(), RunError>
    ensures { PutsOutcome K.contents K.failed output.old output.new result Word.Parse text.now }
{
    let outcome = IxdtfParser::from_utf8(text).parse();
    put_found(output, room, Word::Parse, text, &outcome)
}

/// Writes the answer of `year-month`.
#[inline(never)]
fn answer_year_month<K: Sink>(
    output: &mut Output<'_, K>,
    room: &mut [u8; ROOM],
    text: &[u8],
) -> Result<(), RunError>
    ensures { PutsOutcome K.contents K.failed output.old output.new result Word.YearMonth text.now }
{
    let outcome = IxdtfParser::from_utf8(text).parse_year_month();
    put_found(output, room, Word::YearMonth, text, &outcome)
}

/// Writes the answer of `month-day`, or of `strict-month-day`.
#[inline(never)]
fn answer_month_day<K: Sink>(
    output: &mut Output<'_, K>,
    room: &mut [u8; ROOM],
    word: Word,
    profile: Profile,
    text: &[u8],
) -> Result<(), RunError>
    requires fields { ShowsFields word }
    requires reader { reader_of word ≡ parse_month_day profile }
    ensures { PutsOutcome K.contents K.failed output.old output.new result word text.now }
{
    let outcome = parser(profile, text).parse_month_day();
    put_found(output, room, word, text, &outcome)
}

/// Writes the answer of `time`, or of `strict-time`.
#[inline(never)]
fn answer_time<K: Sink>(
    output: &mut Output<'_, K>,
    room: &mut [u8; ROOM],
    word: Word,
    profile: Profile,
    text: &[u8],
) -> Result<(), RunError>
    requires fields { ShowsFields word }
    requires reader { reader_of word ≡ parse_time profile }
    ensures { PutsOutcome K.contents K.failed output.old output.new result word text.now }
{
    let outcome = parser(profile, text).parse_time();
    put_found(output, room, word, text, &outcome)
}

/// Writes the answer of `offset`.
#[inline(never)]
fn answer_offset<K: Sink>(
    output: &mut Output<'_, K>,
    room: &mut [u8; ROOM],
    text: &[u8],
) -> Result<(), RunError>
    ensures { PutsOutcome K.contents K.failed output.old output.new result Word.Offset text.now }
{
    match TimeZoneParser::from_utf8(text).parse_offset() {
        Ok(offset) => put_offset(output, room, offset),
        Err(error) => put_error(output, room, error),
    }
}

/// Writes the answer of `zone`.
#[inline(never)]
fn answer_zone<K: Sink>(
    output: &mut Output<'_, K>,
    room: &mut [u8; ROOM],
    text: &[u8],
) -> Result<(), RunError>
    ensures { PutsOutcome K.contents K.failed output.old output.new result Word.Zone text.now }
{
    let outcome = TimeZoneParser::from_utf8(text).parse_identifier();
    match &outcome {
        Ok(zone) => put_zone(output, room, zone),
        Err(error) => put_error(output, room, *error),
    }
}

/// Writes the answer of `iana`, or of `zone-name`.
#[inline(never)]
fn answer_zone_name<K: Sink>(
    output: &mut Output<'_, K>,
    room: &mut [u8; ROOM],
    word: Word,
    text: &[u8],
) -> Result<(), RunError>
    requires fields { ShowsFields word }
    requires reader { reader_of word ≡ parse_iana_identifier }
    ensures { PutsOutcome K.contents K.failed output.old output.new result word text.now }
{
    match TimeZoneParser::from_utf8(text).parse_iana_identifier() {
        Ok(name) => put_zone(output, room, &TimeZoneRecord::Name(name)),
        Err(error) => put_error(output, room, error),
    }
}

/// Writes the answer of `rfc3339`.
#[inline(never)]
fn answer_rfc3339<K: Sink>(
    output: &mut Output<'_, K>,
    room: &mut [u8; ROOM],
    text: &[u8],
) -> Result<(), RunError>
    ensures { PutsOutcome K.contents K.failed output.old output.new result Word.Rfc3339 text.now }
{
    let outcome = IxdtfParser::from_utf8(text).parse_rfc3339();
    match &outcome {
        Ok(date_time) => put_record(output, room, date_time),
        Err(error) => put_error(output, room, *error),
    }
}

/// Writes the answer of `rfc9557`.
#[inline(never)]
fn answer_rfc9557<K: Sink>(
    output: &mut Output<'_, K>,
    room: &mut [u8; ROOM],
    text: &[u8],
) -> Result<(), RunError>
    ensures { PutsOutcome K.contents K.failed output.old output.new result Word.Rfc9557 text.now }
{
    let outcome = IxdtfParser::from_utf8(text).parse_rfc9557();
    put_found(output, room, Word::Rfc9557, text, &outcome)
}

/// Writes the answer of `duration`, or of `strict-duration`.
#[inline(never)]
fn answer_duration<K: Sink>(
    output: &mut Output<'_, K>,
    room: &mut [u8; ROOM],
    word: Word,
    profile: Profile,
    text: &[u8],
) -> Result<(), RunError>
    requires fields { ShowsFields word }
    requires reader { reader_of word ≡ parse_duration profile }
    ensures { PutsOutcome K.contents K.failed output.old output.new result word text.now }
{
    let mut reader = IsoDurationParser::<Utf8>::from_utf8(text).with_profile(profile);
    match reader.parse() {
        Ok(duration) => put_duration(output, room, duration),
        Err(error) => put_error(output, room, error),
    }
}

/// Writes the answer of `instant`.
#[inline(never)]
fn answer_instant<K: Sink>(
    output: &mut Output<'_, K>,
    room: &mut [u8; ROOM],
    text: &[u8],
) -> Result<(), RunError>
    ensures { PutsOutcome K.contents K.failed output.old output.new result Word.Instant text.now }
{
    let dated = IxdtfParser::from_utf8(text).parse();
    match &dated {
        Ok(parts) => put_instant(output, room, parts),
        Err(error) => put_error(output, room, *error),
    }
}

/// Writes the canonical text that was printed to the beginning of the array, or the error that the reader returned.
#[inline(always)]
fn put_canonical<K: Sink>(
    output: &mut Output<'_, K>,
    room: &mut [u8; ROOM],
    word: Word,
    text: &[u8],
    count: ParserResult<usize>,
    printed: &mut [u8; MOST_PRINTED],
) -> Result<(), RunError>
    requires { IsPrinted word text.now printed.old count }
    ensures { PutsOutcome K.contents K.failed output.old output.new result word text.now }
{
    match count {
        Ok(count) => {
            let end = add_byte(printed, count, b'\n');
            output.put(b"ok ")?;
            output.put(&printed[..end])
        }
        Err(error) => put_error(output, room, error),
    }
}

/// Creates a parser of the text under the profile.
pub fn parser(profile: Profile, text: &[u8]) -> IxdtfParser<'_, Utf8>
    ensures rest { result.rest ≡ text.now }
    ensures profile { result.profile ≡ profile }
{
    IxdtfParser::from_utf8(text).with_profile(profile)
}
