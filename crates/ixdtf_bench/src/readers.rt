//! The job `readers`. Texts of all kinds are read as 8-bit and 16-bit text, with and without a handler, and by `*_located` and
//! other variants.

use crate::digest::Digest;
use crate::mix::Mix;
use crate::records::{
    add_duration, add_error, add_found, add_located_verdict, add_offset, add_record, add_units,
    add_verdict, add_wide_record, add_zone,
};
use ixdtf::encoding::Utf8;
use ixdtf::parsers::{IsoDurationParser, IxdtfParser, TimeZoneParser};
use std::alloc::{AllocError, Global};

/// The size of the array for 16-bit text. No text of this job is longer.
const TEXT_SIZE: usize = 96;

/// The calls of the readers.
#[derive(Clone, Copy)]
enum Call {
    Parse,
    ParseWide,
    ParseLocated,
    ParseHandled,
    Verdict,
    LocatedVerdict,
    YearMonth,
    MonthDay,
    Time,
    Offset,
    Identifier,
    Name,
    Duration,
}

/// The texts of this job. Each row has the number of parts of the mix that have the text, the call that reads it, the text, and
/// its mask (`Kept::new`).
#[rattlefmt::skip]
const TEXTS: &[(usize, Call, &[u8], &[u8])] = &[
    (100, Call::Parse, b"2024-03-02T08:48:00-05:00[America/New_York][u-ca=hebrew]", b"dddd-.n-qe.bd:md:md"),
    (60, Call::ParseLocated, b"2024-03-02T08:48:00-05:00[America/New_York]", b"dddd-.n-qe.bd:md:md"),
    (60, Call::ParseHandled, b"2024-03-02T08:48:00.25Z[Europe/Berlin][u-ca=gregory][x-source=import]", b"dddd-.n-qe.bd:md:md.dd"),
    (120, Call::Parse, b"2024-03-02", b"dddd-.n-qe"),
    (30, Call::Parse, b"+002024-03-02", b"...dddd-.n-qe"),
    (100, Call::Parse, b"2024-03-02T08:48:00Z", b"dddd-.n-qe.bd:md:md"),
    (60, Call::Parse, b"2024-03-02T08:48:00.123456Z", b"dddd-.n-qe.bd:md:md.dddddd"),
    (40, Call::ParseLocated, b"20240302T084800+0100", b"dddd.nqe.bdmdmd"),
    // These texts are read as 16-bit text.
    (60, Call::ParseWide, b"2024-03-02T08:48:00-05:00[America/New_York][u-ca=hebrew]", b"dddd-.n-qe.bd:md:md"),
    (40, Call::ParseWide, b"2024-03-02", b"dddd-.n-qe"),
    (40, Call::ParseWide, b"2024-03-02T08:48:00.123Z", b"dddd-.n-qe.bd:md:md.ddd"),
    // Some of these texts have only a part of a date. The others have no date.
    (30, Call::YearMonth, b"+002020-01", b".dddddd-.n"),
    (6, Call::YearMonth, b"2020-01", b"dddd-.n"),
    (20, Call::MonthDay, b"01-07[u-ca=gregory]", b".n-qe......lllll"),
    (30, Call::Time, b"T15:23:30.123", b".bd:md:md.ddd"),
    (10, Call::Time, b"15:23:30-05:00", b"bd:md:md-.n:md"),
    (10, Call::Offset, b"-05:30:15.5", b".bd:md:md.d"),
    (16, Call::Offset, b"+05:30:15.123", b".bd:md:md.ddd"),
    (30, Call::Identifier, b"Europe/Berlin", b"........lllll"),
    (20, Call::Name, b"America/Argentina/Buenos_Aires", b".............llll.......lll"),
    // These texts are durations.
    (20, Call::Duration, b"P1234567D", b".ndddddd"),
    (20, Call::Duration, b"PT12H30M15S", b"..nd.md.md"),
    (32, Call::Duration, b"P1Y2M3DT4H5M6.25S", b".n.n.n..n.n.n.dd"),
    (10, Call::Duration, b"-P12W3DT4H15M", b"..dd.d..d.md"),
    // If one of these texts is accepted, only the number 1 is added to the digest. If it is refused, its error is added, and for
    // `LocatedVerdict` also the position of the error. Eight of these ten texts are refused.
    (20, Call::Verdict, b"2024-03-02T08:48", b"dddd-.n-qe.bd:md"),
    (20, Call::LocatedVerdict, b"20240302T084800Z", b"dddd.nqe.bdmdmd"),
    (2, Call::Verdict, b"2024-13-02T08:48", b"dddd....qe.bd:md"),
    (2, Call::Verdict, b"2024-03-0xT08:48", b"dddd-.n....bd:md"),
    (2, Call::Verdict, b"2024-3-02T08:48:00Z", b"dddd-n-qe.bd:md:md"),
    (2, Call::LocatedVerdict, b"2024-03-02T08:61:00Z", b"dddd-.n-qe.bd....md"),
    (2, Call::LocatedVerdict, b"2024-03-02T08:48:0", b"dddd-.n-qe.bd:md:d"),
    (2, Call::LocatedVerdict, b"2024-03-02T08:48:00+5:00", b"dddd-.n-qe.bd:md:md"),
    (4, Call::Verdict, b"2024-03-02T08:48:00Z[Europe/]", b"dddd-.n-qe.bd:md:md"),
    (4, Call::LocatedVerdict, b"2024-03-02T08:48:00Z[u-ca=]", b"dddd-.n-qe.bd:md:md"),
];

/// Texts, and the call that reads each of them.
#[derive(Drop)]
struct Texts {
    mix: Mix,
    calls: Vec<Call>,
}

impl Texts {
    fn new(alloc: Global, seed: u64) -> Result<Texts, AllocError> {
        let mut mix = Mix::new(alloc, seed);
        let mut calls = Vec::new(alloc);
        for (parts, call, text, mask) in TEXTS {
            calls.push(*call)?;
            mix.add(*parts, text, mask)?;
        }
        Ok(Texts { mix, calls })
    }

    fn next_call(&mut self) -> Call {
        let shape = self.mix.choose();
        match self.calls.get(shape) {
            Some(call) => *call,
            None => Call::Verdict,
        }
    }
}

/// Reads `count` texts, and returns a digest of the records and errors.
pub fn readers(alloc: Global, seed: u64, count: u64) -> Result<u64, AllocError> {
    let mut texts = Texts::new(alloc, seed)?;
    let mut digest = Digest::new();
    let mut wide = [0; TEXT_SIZE];
    for _ in 0..count {
        let call = texts.next_call();
        call_reader(&mut digest, call, texts.mix.text(), &mut wide);
    }
    Ok(digest.value())
}

/// Reads the text by the call. Each call has a function of its own that is not inlined, as in a caller's program. If all records
/// were in one stack frame, they would all be cleared at each call.
fn call_reader(digest: &mut Digest, call: Call, text: &[u8], wide: &mut [u16; TEXT_SIZE]) {
    match call {
        Call::Parse => parse(digest, text),
        Call::ParseWide => parse_wide(digest, widened(text, wide)),
        Call::ParseLocated => parse_located(digest, text),
        Call::ParseHandled => parse_handled(digest, text),
        Call::Verdict => judge(digest, text),
        Call::LocatedVerdict => judge_located(digest, text),
        Call::YearMonth => parse_year_month(digest, text),
        Call::MonthDay => parse_month_day(digest, text),
        Call::Time => parse_time(digest, text),
        Call::Offset => parse_offset(digest, text),
        Call::Identifier => parse_identifier(digest, text),
        Call::Name => parse_name(digest, text),
        Call::Duration => parse_duration(digest, text),
    }
}

#[inline(never)]
fn parse(digest: &mut Digest, text: &[u8]) {
    add_record(digest, &IxdtfParser::from_utf8(text).parse());
}

#[inline(never)]
fn parse_wide(digest: &mut Digest, units: &[u16]) {
    add_wide_record(digest, &IxdtfParser::from_utf16(units).parse());
}

#[inline(never)]
fn parse_located(digest: &mut Digest, text: &[u8]) {
    match IxdtfParser::from_utf8(text).parse_located() {
        Ok(record) => add_found(digest, &record),
        Err(error) => add_error(digest, error.error, error.at),
    }
}

#[inline(never)]
fn parse_handled(digest: &mut Digest, text: &[u8]) {
    let mut keys = 0u64;
    let result = IxdtfParser::from_utf8(text).parse_with_annotation_handler(|annotation| {
        keys = keys.wrapping_add(annotation.key.len() as u64);
        Some(annotation)
    });
    add_record(digest, &result);
    digest.add(keys);
}

#[inline(never)]
fn judge(digest: &mut Digest, text: &[u8]) {
    add_verdict(digest, &IxdtfParser::from_utf8(text).parse());
}

#[inline(never)]
fn judge_located(digest: &mut Digest, text: &[u8]) {
    add_located_verdict(digest, &IxdtfParser::from_utf8(text).parse_located());
}

#[inline(never)]
fn parse_year_month(digest: &mut Digest, text: &[u8]) {
    add_record(digest, &IxdtfParser::from_utf8(text).parse_year_month());
}

#[inline(never)]
fn parse_month_day(digest: &mut Digest, text: &[u8]) {
    add_record(digest, &IxdtfParser::from_utf8(text).parse_month_day());
}

#[inline(never)]
fn parse_time(digest: &mut Digest, text: &[u8]) {
    add_record(digest, &IxdtfParser::from_utf8(text).parse_time());
}

#[inline(never)]
fn parse_offset(digest: &mut Digest, text: &[u8]) {
    match TimeZoneParser::from_utf8(text).parse_offset() {
        Ok(offset) => add_offset(digest, offset),
        Err(error) => add_error(digest, error, 0),
    }
}

#[inline(never)]
fn parse_identifier(digest: &mut Digest, text: &[u8]) {
    match TimeZoneParser::from_utf8(text).parse_identifier() {
        Ok(zone) => add_zone(digest, &zone),
        Err(error) => add_error(digest, error, 0),
    }
}

#[inline(never)]
fn parse_name(digest: &mut Digest, text: &[u8]) {
    match TimeZoneParser::from_utf8(text).parse_iana_identifier() {
        Ok(name) => add_units(digest, name),
        Err(error) => add_error(digest, error, 0),
    }
}

#[inline(never)]
fn parse_duration(digest: &mut Digest, text: &[u8]) {
    add_duration(digest, &IsoDurationParser::<Utf8>::from_utf8(text).parse());
}

/// Copies the text to `room` as 16-bit code units, and returns them. If the text is longer than `room`, returns its first N code
/// units.
pub fn widened<'w, const N: usize>(text: &[u8], room: &'w mut [u16; N]) -> &'w [u16] {
    let count = text.len().min(N);
    for at in 0..count {
        room[at] = u16::from(text[at]);
    }
    &room[..count]
}
