//! Tests of the two encodings. The 16-bit code units from 1 to 126 are read as ASCII characters, and every other one is bad.

use super::check;
use ixdtf::ParseError;
use ixdtf::encoding::{EncodingType, Utf8, Utf16};
use ixdtf::parsers::{IsoDurationParser, IxdtfParser, Profile, TimeZoneParser};
use std::test::Fail;

// Texts, and what `Debug` writes for their parser.
const SHOWN: &[(&str, &str)] = &[
    ("\"\\\"", "TimeZoneParser { cursor: \"\\\"\\\\\\\"\" }"),
    ("\n\u{7f}", "TimeZoneParser { cursor: \"\\x0a\\x7f\" }"),
    (
        "\u{2212}1",
        "TimeZoneParser { cursor: \"\\xe2\\x88\\x921\" }",
    ),
];

#[test]
fn debug_shows_the_text_of_a_parser(rt: HostRuntime) -> Result<(), Fail> {
    for (text, shown) in SHOWN {
        let parser = TimeZoneParser::from_str(text);
        let written = format!(in rt.alloc(); "{parser:?}")?;
        check(&rt, text, written.as_str() == *shown);
    }
    let parser = TimeZoneParser::from_utf16(&[0x2212, 48, 49]);
    let written = format!(in rt.alloc(); "{parser:?}")?;
    let shown = "TimeZoneParser { cursor: \"\\u{2212}01\" }";
    check(&rt, "wide", written.as_str() == shown);
    Ok(())
}

// Returns whether a code unit from 1 to 126 is read as its ASCII character, and any other one as bad.
fn is_seen(unit: u16) -> bool {
    let letter = Utf16::get_ascii(&[unit], 0);
    match u8::try_from(unit) {
        Ok(byte) if byte > 0 && byte < 127 => letter == Ok(Some(byte)),
        _ => letter == Err(ParseError::NonAsciiCodePoint),
    }
}

#[test]
fn sees_each_unit(rt: HostRuntime) {
    for unit in 0..=u16::MAX {
        assert!(rt; is_seen(unit), "at {unit}");
    }
}

const UNITS: [u16; 3] = [97, 306, 99];

#[test]
fn slices_lie_within(rt: HostRuntime) {
    let front = Utf8::slice(b"abc", 0, 2);
    check(&rt, "a front", front == Some(b"ab".as_slice()));
    check(&rt, "too long", Utf8::slice(b"abc", 0, 4) == None);
    let rest = Utf16::slice(&UNITS, 1, 3);
    check(&rt, "units", rest == Some([306u16, 99].as_slice()));
    check(&rt, "units backwards", Utf16::slice(&UNITS, 2, 1) == None);
    check(&rt, "too many units", Utf16::slice(&UNITS, 0, 4) == None);
    check(&rt, "the end", Utf16::get_ascii(&UNITS, 3) == Ok(None));
}

const OTHER_KEYS: &[&str] = &["u-cA", "u-c", "u-ca-", ""];

#[test]
fn one_key_is_of_calendars(rt: HostRuntime) {
    check(&rt, "u-ca", Utf8::check_calendar_key(b"u-ca"));
    for key in OTHER_KEYS {
        check(&rt, key, !Utf8::check_calendar_key(key.as_bytes()));
    }
    let key: [u16; 4] = [117, 45, 99, 97];
    check(&rt, "u-ca in units", Utf16::check_calendar_key(&key));
    let other: [u16; 4] = [373, 45, 99, 97];
    check(&rt, "another", !Utf16::check_calendar_key(&other));
}

#[test]
fn parsers_are_as_large_as_a_slice_and_a_profile(rt: HostRuntime) {
    let slice = size_of::<&'static [u8]>();
    let size = size_of::<(&'static [u8], Profile)>();
    check(&rt, "a profile", size == slice.saturating_mul(3) / 2);
    let wide_dates = size_of::<IxdtfParser<'static, Utf16>>();
    check(&rt, "a wide parser", wide_dates == size);
    let durations = size_of::<IsoDurationParser<'static, Utf8>>();
    check(&rt, "a parser of durations", durations == size);
    let zones = size_of::<TimeZoneParser<'static, Utf16>>();
    check(&rt, "a parser of zones", zones == slice);
}
