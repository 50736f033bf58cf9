//! Names every public item of `ixdtf`, with its fields, variants and traits. If one is missing, this file does not compile.
//!
//! The variants of `ParseError` are named in `errors.rt` of `ixdtf_tests`, the laws in `laws.rt` there, and `in_text` in
//! `located.rt` there.

use super::check;
use ixdtf::encoding::{EncodingType, Utf8, Utf16};
use ixdtf::parsers::{IsoDurationParser, IxdtfParser, Profile, TimeZoneParser};
use ixdtf::records::{
    Annotation, DateDurationRecord, DateRecord, DurationParseRecord, Fraction, FullPrecisionOffset,
    IxdtfParseRecord, MinutePrecisionOffset, Sign, TimeDurationRecord, TimeRecord,
    TimeZoneAnnotation, TimeZoneRecord, UtcOffsetRecord, UtcOffsetRecordOrZ,
};
use ixdtf::{LocatedError, ParseError, ParserResult, PointedText, Reason};
use std::error::Error;
use std::fmt::{Debug, Display};
use std::hash::Hash;

fn is_shown<X: Debug>() {}

fn is_default<X: Default>() {}

fn is_copied<X: Copy + Debug + PartialEq>() {}

fn is_hashed<X: Copy + Debug + Eq + Hash>() {}

fn is_error<X: Copy + Debug + Display + Error + PartialEq>() {}

fn is_displayed<X: Copy + Debug + Display>() {}

// Compiles only if the types with an encoding, and the encoding, have these traits.
fn has_traits<T: EncodingType>() {
    is_hashed::<IxdtfParseRecord<'static, Utf8>>();
    is_default::<IxdtfParseRecord<'static, Utf16>>();
    is_hashed::<Annotation<'static, Utf8>>();
    is_hashed::<TimeZoneAnnotation<'static, Utf16>>();
    is_hashed::<TimeZoneRecord<'static, Utf8>>();
    is_shown::<IxdtfParser<'static, Utf16>>();
    is_shown::<TimeZoneParser<'static, Utf8>>();
    is_shown::<IsoDurationParser<'static, Utf16>>();
    is_hashed::<T::CodeUnit>();
}

#[test]
fn has_every_trait() {
    has_traits::<Utf8>();
    has_traits::<Utf16>();
    is_hashed::<Utf8>();
    is_hashed::<Utf16>();
    is_error::<ParseError>();
    is_error::<LocatedError>();
    is_displayed::<PointedText<'static>>();
    is_hashed::<DateRecord>();
    is_default::<DateRecord>();
    is_hashed::<TimeRecord>();
    is_default::<TimeRecord>();
    is_hashed::<Sign>();
    is_hashed::<MinutePrecisionOffset>();
    is_hashed::<FullPrecisionOffset>();
    is_hashed::<UtcOffsetRecord>();
    is_hashed::<UtcOffsetRecordOrZ>();
    is_hashed::<Fraction>();
    is_hashed::<DurationParseRecord>();
    is_hashed::<DateDurationRecord>();
    is_default::<DateDurationRecord>();
    is_hashed::<TimeDurationRecord>();
    is_copied::<Profile>();
}

// Returns whether the functions of an encoding find no code unit, no slice and no calendar in an empty text.
fn sees_nothing<T: EncodingType>(units: &[T::CodeUnit]) -> bool {
    let letter: ParserResult<Option<u8>> = T::get_ascii(units, 0);
    let part = T::slice(units, 1, 0);
    letter == Ok(None) && part.is_none() && !T::check_calendar_key(units)
}

// Returns whether the methods of an offset agree with its parts.
fn has_parts(offset: UtcOffsetRecord, parts: MinutePrecisionOffset) -> bool {
    offset.sign() == parts.sign
        && offset.hour() == parts.hour
        && offset.minute() == parts.minute
        && offset.second().is_none() == offset.is_minute_precision()
        && UtcOffsetRecordOrZ::Offset(offset).resolve_rfc_9557() == offset
}

// Returns how many digits the fraction of an offset has, and the number that its first digits are.
fn digits_of(offset: UtcOffsetRecord) -> Option<(u8, u64)> {
    let fraction = offset.fraction()?;
    Some((fraction.digit_count(), fraction.leading_value()))
}

// Returns the nanoseconds of an offset from both methods of its fraction.
fn nanoseconds_of(offset: UtcOffsetRecord) -> Option<(Option<u32>, u32)> {
    match offset.fraction() {
        Some(fraction) => Some((
            fraction.to_nanoseconds(),
            fraction.to_truncated_nanoseconds(),
        )),
        None => None,
    }
}

#[test]
fn has_every_call(rt: HostRuntime) {
    assert!(rt; sees_nothing::<Utf8>(&[]) && sees_nothing::<Utf16>(&[]));
    assert!(rt; has_parts(UtcOffsetRecord::zero(), MinutePrecisionOffset::zero()));
    let sign = Sign::from(false);
    let offset = TimeZoneParser::from_utf8(b"-01:02:03.5").parse_offset();
    let parts = MinutePrecisionOffset {
        sign,
        hour: 1,
        minute: 2,
    };
    if let Ok(offset) = offset {
        assert!(rt; has_parts(offset, parts));
        let nanoseconds = nanoseconds_of(offset);
        assert_eq!(rt; nanoseconds, Some((Some(500_000_000), 500_000_000)));
        assert_eq!(rt; digits_of(offset), Some((1, 5)));
    }
    assert_eq!(rt; ParseError::ParseFloat.to_static_string().len(), 42);
}

#[test]
fn makes_every_parser_of_dates(rt: HostRuntime) {
    let empty: [u16; 0] = [];
    let units: IxdtfParser<'_, Utf8> = IxdtfParser::new(b"2020-01-01");
    let bytes = IxdtfParser::from_utf8(b"2020-01");
    let text = IxdtfParser::from_str("01-01");
    let wide = IxdtfParser::from_utf16(&empty);
    let are_there = has_the_readers_of_dates(units, bytes, text, wide);
    check(&rt, "readers of dates", are_there);
}

// Returns whether the readers accept a date, a year-month and a month-day, and refuse an empty text.
fn has_the_readers_of_dates(
    mut date: IxdtfParser<'_, Utf8>,
    mut year_month: IxdtfParser<'_, Utf8>,
    mut month_day: IxdtfParser<'_, Utf8>,
    mut empty: IxdtfParser<'_, Utf16>,
) -> bool {
    date.parse().is_ok()
        && year_month.parse_year_month().is_ok()
        && month_day.parse_month_day().is_ok()
        && empty.parse_time().is_err()
}

// Returns whether the readers with a handler accept a date and a year-month.
fn reads_with_a_handler() -> bool {
    let mut date = IxdtfParser::from_str("2020-01-01");
    let mut year_month = IxdtfParser::from_str("2020-01");
    date.parse_with_annotation_handler(|_annotation| None)
        .is_ok()
        && year_month
            .parse_year_month_with_annotation_handler(|_annotation| None)
            .is_ok()
}

#[test]
fn has_every_reader_with_a_handler(rt: HostRuntime) {
    check(&rt, "handlers", reads_with_a_handler());
}

// Returns whether the other readers with a handler accept a month-day and a time.
fn reads_parts_with_a_handler() -> bool {
    let mut month_day = IxdtfParser::from_str("01-01");
    let mut time = IxdtfParser::from_str("T12");
    month_day
        .parse_month_day_with_annotation_handler(|_annotation| None)
        .is_ok()
        && time
            .parse_time_with_annotation_handler(|_annotation| None)
            .is_ok()
}

#[test]
fn has_every_further_reader_with_a_handler(rt: HostRuntime) {
    check(&rt, "handlers", reads_parts_with_a_handler());
}

// Returns whether each `*_located` reader of dates accepts a text.
fn reads_located() -> bool {
    IxdtfParser::from_str("2020-01-01").parse_located().is_ok()
        && IxdtfParser::from_str("2020-01")
            .parse_year_month_located()
            .is_ok()
        && IxdtfParser::from_str("01-01")
            .parse_month_day_located()
            .is_ok()
        && IxdtfParser::from_str("T12").parse_time_located().is_ok()
}

// Returns whether the readers of date-times of RFC 3339 accept one.
fn reads_date_times() -> bool {
    IxdtfParser::from_str("2020-01-01T00:00:00Z")
        .parse_rfc3339()
        .is_ok()
        && IxdtfParser::from_str("2020-01-01T00:00:00Z")
            .parse_rfc3339_located()
            .is_ok()
}

#[test]
fn has_the_readers_of_date_times(rt: HostRuntime) {
    check(&rt, "date-times", reads_date_times());
}

// Returns whether the readers of date-times of RFC 9557 accept a text.
fn reads_extended() -> bool {
    IxdtfParser::from_str("2020-01-01T00:00:00Z[UTC]")
        .parse_rfc9557()
        .is_ok()
        && IxdtfParser::from_str("2020-01-01T00:00:00Z[UTC]")
            .parse_rfc9557_located()
            .is_ok()
}

// Returns whether the variants of these readers with a handler accept a text.
fn reads_extended_with_handler() -> bool {
    IxdtfParser::from_str("2020-01-01T00:00:00Z[a=b]")
        .parse_rfc9557_with_annotation_handler(|annotation| Some(annotation))
        .is_ok()
        && IxdtfParser::from_str("2020-01-01T00:00:00Z[a=b]")
            .parse_rfc9557_with_annotation_handler_located(|annotation| Some(annotation))
            .is_ok()
}

#[test]
fn has_the_readers_of_extended_date_times(rt: HostRuntime) {
    check(&rt, "extended", reads_extended());
    check(&rt, "with handler", reads_extended_with_handler());
}

// Returns whether each `*_located` reader of zones accepts a text.
fn reads_located_zones() -> bool {
    TimeZoneParser::from_str("+01")
        .parse_offset_located()
        .is_ok()
        && TimeZoneParser::from_str("UTC")
            .parse_identifier_located()
            .is_ok()
        && TimeZoneParser::from_str("UTC")
            .parse_iana_identifier_located()
            .is_ok()
}

#[test]
fn has_every_located_reader(rt: HostRuntime) {
    check(&rt, "dates", reads_located());
    check(&rt, "zones", reads_located_zones());
    let duration = IsoDurationParser::<Utf8>::from_str("P1D").parse_located();
    check(&rt, "durations", duration.is_ok());
}

// Returns whether the `*_located` readers with a handler accept a date and a year-month.
fn reads_located_with_a_handler() -> bool {
    let mut date = IxdtfParser::from_str("2020-01-01");
    let mut year_month = IxdtfParser::from_str("2020-01");
    date.parse_with_annotation_handler_located(|_annotation| None)
        .is_ok()
        && year_month
            .parse_year_month_with_annotation_handler_located(|_annotation| None)
            .is_ok()
}

#[test]
fn has_every_located_reader_with_a_handler(rt: HostRuntime) {
    check(&rt, "handlers", reads_located_with_a_handler());
}

// Returns whether the other `*_located` readers with a handler accept a month-day and a time.
fn reads_located_parts_with_a_handler() -> bool {
    let mut month_day = IxdtfParser::from_str("01-01");
    let mut time = IxdtfParser::from_str("T12");
    month_day
        .parse_month_day_with_annotation_handler_located(|_annotation| None)
        .is_ok()
        && time
            .parse_time_with_annotation_handler_located(|_annotation| None)
            .is_ok()
}

#[test]
fn has_every_further_located_reader_with_a_handler(rt: HostRuntime) {
    check(&rt, "handlers", reads_located_parts_with_a_handler());
}

// Names the position of an error, the error and its reason.
#[test]
fn has_an_error_with_its_place(rt: HostRuntime) {
    let located = LocatedError {
        error: ParseError::InvalidEnd,
        at: 10,
        reason: Reason::AfterDate,
    };
    let LocatedError { error, at, reason } = located;
    let is_same = error == ParseError::InvalidEnd && at == 10;
    check(&rt, "its parts", is_same && reason == Reason::AfterDate);
    let plain = ParseError::from(located);
    check(&rt, "its error", plain == error);
}

#[test]
fn has_every_reader_of_zones(rt: HostRuntime) {
    let empty: [u16; 0] = [];
    let zone: TimeZoneParser<'_, Utf8> = TimeZoneParser::new(b"UTC");
    let nothing = TimeZoneParser::from_str("");
    let offset = TimeZoneParser::from_utf8(b"+01");
    let wide = TimeZoneParser::from_utf16(&empty);
    let are_there = has_the_readers_of_zones(zone, nothing, offset, wide);
    check(&rt, "readers of zones", are_there);
}

// Returns whether the readers accept a name and an offset, and refuse an empty text.
fn has_the_readers_of_zones(
    mut zone: TimeZoneParser<'_, Utf8>,
    mut nothing: TimeZoneParser<'_, Utf8>,
    mut offset: TimeZoneParser<'_, Utf8>,
    mut wide: TimeZoneParser<'_, Utf16>,
) -> bool {
    zone.parse_iana_identifier() == Ok(b"UTC".as_slice())
        && nothing.parse_identifier().is_err()
        && offset.parse_offset().is_ok()
        && wide.parse_offset().is_err()
}

// Returns the record of a text that has all parts. Each field is named.
fn fullest_record() -> IxdtfParseRecord<'static, Utf8> {
    let minute_precision_offset = MinutePrecisionOffset {
        sign: Sign::Positive,
        hour: 7,
        minute: 8,
    };
    let offset = FullPrecisionOffset {
        minute_precision_offset,
        second: 9,
        fraction: None,
    };
    IxdtfParseRecord {
        date: Some(DateRecord {
            year: 1,
            month: 2,
            day: 3,
        }),
        time: Some(TimeRecord {
            hour: 4,
            minute: 5,
            second: 6,
            fraction: None,
        }),
        offset: Some(UtcOffsetRecordOrZ::Offset(UtcOffsetRecord::FullPrecisionOffset(offset))),
        tz: Some(TimeZoneAnnotation {
            critical: true,
            tz: TimeZoneRecord::Offset(minute_precision_offset),
        }),
        calendar: Some(b"iso8601"),
    }
}

// Returns whether `parse` returns the record of `fullest_record` for its text.
fn reads_the_fullest_record() -> bool {
    let text = "0001-02-03T04:05:06+07:08:09[!+07:08][u-ca=iso8601]";
    IxdtfParser::from_str(text).parse() == Ok(fullest_record())
}

#[test]
fn has_every_field(rt: HostRuntime) {
    check(&rt, "a record", reads_the_fullest_record());
    let annotation: Annotation<'_, Utf8> = Annotation {
        critical: true,
        key: b"a",
        value: b"b",
    };
    let has_fields = annotation.critical && annotation.key != annotation.value;
    check(&rt, "an annotation", has_fields);
}

// Names the variants of an offset and of a zone, and checks that they differ.
#[test]
fn has_every_variant(rt: HostRuntime) {
    let zero = MinutePrecisionOffset::zero();
    let offset = UtcOffsetRecordOrZ::Offset(UtcOffsetRecord::MinutePrecision(zero));
    check(&rt, "an offset", offset != UtcOffsetRecordOrZ::Z);
    let zone: TimeZoneRecord<'_, Utf8> = TimeZoneRecord::Offset(zero);
    check(&rt, "a zone", zone != TimeZoneRecord::Name(b"UTC"));
    let hours = TimeDurationRecord::Hours {
        hours: 1,
        fraction: None,
    };
    let minutes = TimeDurationRecord::Minutes {
        hours: 1,
        minutes: 0,
        fraction: None,
    };
    check(&rt, "a duration", hours != minutes);
}

// Returns a duration with all fields of its records. Each field is named.
fn longest_duration() -> DurationParseRecord {
    DurationParseRecord {
        sign: Sign::Negative,
        date: Some(DateDurationRecord {
            years: 1,
            months: 2,
            weeks: 3,
            days: 4,
        }),
        time: Some(TimeDurationRecord::Seconds {
            hours: 5,
            minutes: 6,
            seconds: 7,
            fraction: None,
        }),
    }
}

// Returns whether the parser returns the duration of `longest_duration`.
fn reads_the_longest(mut parser: IsoDurationParser<'_, Utf8>) -> bool {
    parser.parse() == Ok(longest_duration())
}

#[test]
fn has_the_reader_of_durations(rt: HostRuntime) {
    let empty: [u16; 0] = [];
    let text = IsoDurationParser::new(b"-P1Y2M3W4DT5H6M7S");
    check(&rt, "a duration", reads_the_longest(text));
    let nothing = IsoDurationParser::from_str("").parse();
    check(&rt, "no text", nothing.is_err());
    let bytes = IsoDurationParser::<Utf8>::from_utf8(b"").parse();
    check(&rt, "no bytes", bytes.is_err());
    let units = IsoDurationParser::<Utf16>::from_utf8(&empty).parse();
    check(&rt, "no units", units.is_err());
    let wide = IsoDurationParser::from_utf16(&empty).parse();
    check(&rt, "no wide units", wide.is_err());
}

#[test]
fn has_each_profile(rt: HostRuntime) {
    check(&rt, "profiles", Profile::Crate != Profile::Strict);
    let mut text = IxdtfParser::from_str("11-00").with_profile(Profile::Strict);
    check(&rt, "day zero", text.parse_month_day().is_err());
    let mut duration = IsoDurationParser::from_str("P1Y2Y").with_profile(Profile::Crate);
    check(&rt, "two years", duration.parse().is_ok());
}
