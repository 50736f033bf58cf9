//! The job `awkward`: texts with many annotations, long names, long fractions, repeated duration units, and long lines.

use crate::digest::Digest;
use crate::mix::{LongRow, Mix};
use crate::programs::{DATE_TIMES, PRINTED, checked};
use crate::readers::widened;
use crate::records::{add_duration, add_error, add_located_verdict, add_record, add_wide_record};
use ixdtf::encoding::Utf8;
use ixdtf::parsers::{IsoDurationParser, IxdtfParser, TimeZoneParser};
use std::alloc::{AllocError, Global};

/// The size of the array for 16-bit text. No text that a reader of this job reads is longer.
const TEXT_SIZE: usize = 4500;

/// The date and time at the beginning of the texts. `MASK` says which of its digits change from text to text.
const FRONT: &[u8] = b"2024-03-02T08:48:00Z";

const MASK: &[u8] = b"dddd-.n-qe.bd:md:md";

/// Reads `count` long texts with brackets and `count` with long numbers or names. Then checks `count / 10` long lines, and prints
/// as many. Returns a digest of all results.
pub fn awkward(alloc: Global, seed: u64, count: u64) -> Result<u64, AllocError> {
    let mut digest = Digest::new();
    read_brackets(&mut digest, Mix::of_long(alloc, seed, BRACKETS)?, count);
    read_numbers(&mut digest, Mix::of_long(alloc, seed, NUMBERS)?, count);
    let mut lines = Mix::of_long(alloc, seed, LINES)?;
    digest.add(checked(&mut lines, count / 10, &DATE_TIMES));
    digest.add(checked(&mut lines, count / 10, &PRINTED));
    Ok(digest.value())
}

#[rattlefmt::skip]
const LINES: &[LongRow] = &[
    (256, FRONT, MASK, (7_200, b"[ab=cdef]"), b"\n"),
    (256, b"2024-03-02[Etc/x", b"dddd-.n-qe", (6_000, b"/Abcdefg_h"), b"]\n"),
    (256, FRONT, MASK, (50, b"[!u-ca=iso8601]"), b"x\n"),
    (256, FRONT, MASK, (6_560, b"[ab=cdefg]"), b"\n"),
];

/// Texts with many brackets, and texts with long names in brackets.
#[rattlefmt::skip]
const BRACKETS: &[LongRow] = &[
    (200, FRONT, MASK, (40, b"[x-key=some-value]"), b"[u-ca=hebrew]"),
    (200, FRONT, MASK, (300, b"[a=b]"), b""),
    (100, FRONT, MASK, (120, b"[u-ca=iso8601][x_y=12345678]"), b"[!x=1]"),
    (100, b"2024-03-02[u-ca=gregory]", b"dddd-.n-qe", (80, b"[foo=bar-baz]"), b"]"),
    (124, b"2024-03-02[America", b"dddd-.n-qe", (120, b"/Long_name"), b"]"),
    (150, b"2024-03-02[u-ca=a", b"dddd-.n-qe", (120, b"bcdefgh-j"), b"]"),
    (150, b"2024-03-02[k", b"dddd-.n-qe", (120, b"ey_of-ma9"), b"=1]"),
];

fn read_brackets(digest: &mut Digest, mut texts: Mix, count: u64) {
    let mut wide = [0; TEXT_SIZE];
    for number in 0..count {
        let _ = texts.choose();
        read_long(digest, number, texts.text(), &mut wide);
    }
}

/// Reads the text by one of four calls. `number` decides which one.
fn read_long(digest: &mut Digest, number: u64, text: &[u8], wide: &mut [u16; TEXT_SIZE]) {
    match number % 4 {
        0 => add_record(digest, &IxdtfParser::from_utf8(text).parse()),
        1 => add_located_verdict(digest, &IxdtfParser::from_utf8(text).parse_located()),
        2 => {
            let units = widened(text, wide);
            add_wide_record(digest, &IxdtfParser::from_utf16(units).parse());
        }
        _ => read_handled(digest, text),
    }
}

/// Reads the text with a handler that drops every second annotation.
fn read_handled(digest: &mut Digest, text: &[u8]) {
    let mut calls = 0u64;
    let result = IxdtfParser::from_utf8(text).parse_with_annotation_handler(|annotation| {
        calls = calls.wrapping_add(1);
        if calls % 2 == 0 {
            None
        } else {
            Some(annotation)
        }
    });
    add_record(digest, &result);
    digest.add(calls);
}

/// Texts with long numbers, durations with many duration units, and long names of zones.
#[rattlefmt::skip]
const NUMBERS: &[LongRow] = &[
    (200, b"-002024-03-02T08:48:00.123456789012345678901234567890Z", b"...dddd-.n-qe.bd:md:md.dddddd", (0, b""), b""),
    (300, b"+002024-03-02 08:48:60,123456789012345678-05:30:15.123456789012345678[+01:00]",
        b"...dddd-.n-qe.bd:md.....dddddd", (0, b""), b""),
    (100, b"P1234Y", b".dddd", (1000, b"12Y"), b""),
    (100, b"PT1234H", b"..dddd", (500, b"7M8S"), b""),
    (100, b"PT123456789S", b"..dddddd", (900, b"00000"), b""),
    (124, b"P1Y2M3W4DT5H6M7.123456", b".d.d.d.d..d.d.d.dddddd", (1, b"789S"), b""),
    (100, b"Europe", b".lllll", (200, b"/Xyz-1_2"), b""),
];

fn read_numbers(digest: &mut Digest, mut texts: Mix, count: u64) {
    for number in 0..count {
        let shape = texts.choose();
        read_number(digest, number, shape, texts.text());
    }
}

/// Reads the text by a reader for its shape: a date and time, a duration, or a zone.
fn read_number(digest: &mut Digest, number: u64, shape: usize, text: &[u8]) {
    if shape < 2 {
        add_record(digest, &IxdtfParser::from_utf8(text).parse());
    } else if shape < 6 {
        add_duration(digest, &IsoDurationParser::<Utf8>::from_utf8(text).parse());
    } else if number % 2 == 0 {
        match TimeZoneParser::from_utf8(text).parse_identifier_located() {
            Ok(_) => digest.add(3),
            Err(error) => add_error(digest, error.error, error.at),
        }
    } else {
        match TimeZoneParser::from_utf8(text).parse_iana_identifier() {
            Ok(name) => digest.add(name.len() as u64),
            Err(error) => add_error(digest, error, 0),
        }
    }
}
