ghost use Rattle.std.specs.Prelude.{◌≡◌, [], ◌∷◌, ◌++◌, map, All, Err, IfSome, IsOk, IsTrue, None, pos};
ghost use Rattle.ixdtf.specs.Widths.{is_shared};
ghost use Rattle.ixdtf.specs.Laws.{IsDateParts};
ghost use Rattle.ixdtf.specs.language.Letters.{Text, byte_letter};
ghost use Rattle.ixdtf.specs.language.Letters.Letter.{Plain};
ghost use Rattle.ixdtf.specs.language.Readers.{parse as reader_parse};
ghost use Rattle.ixdtf.specs.language.Rfc3339.{IsRfcDateTime};
ghost use Rattle.ixdtf.specs.table.Rows.{Row, Fits};
ghost use Rattle.ixdtf.specs.table.Faults.Fault.{DateSeparator};
ghost use Rattle.ixdtf.specs.Views.{returned, parsed_of};

use super::{Record, check, dated, fraction_of};
use ixdtf::encoding::{EncodingType, Utf8, Utf16};
use ixdtf::laws::instants::{
    instants_are_in_order, next_day_is_a_day_later, offsets_make_up, second_60_is_59,
    text_is_read_back,
};
use ixdtf::laws::{
    clones_are_equal, defaults_are_zero, equality_is_of_what_is_seen, every_name_is_an_identifier,
    every_rfc3339_date_time_is_read, exact_nanoseconds_are_the_truncated_ones, hyphens_say_nothing,
    languages_disjoint, offsets_agree, one_outcome, parse_unanswered,
    rfc3339_date_times_are_read_alike, rfc9557_texts_are_read_alike, widths_agree,
};
use ixdtf::parsers::{IsoDurationParser, IxdtfParser, TimeZoneParser};
use ixdtf::records::{
    DateDurationRecord, DateRecord, DurationParseRecord, Fraction, IxdtfParseRecord, TimeRecord,
    TimeZoneAnnotation, TimeZoneRecord,
};
use ixdtf::{Instant, ParseError, ParserResult};

// A caller concludes from the law: the reader returns no error for a date-time of RFC 3339.
fn read_date_time<'a>(bytes: &'a [u8]) -> ParserResult<IxdtfParseRecord<'a, Utf8>>
    ensures { IsRfcDateTime (map byte_letter bytes.now) → IsOk result }
{
    every_rfc3339_date_time_is_read();
    IxdtfParser::from_utf8(bytes).parse()
}

// A caller concludes from the law: the reader of zones returns no error for a name.
fn read_named_zone<'a>(bytes: &'a [u8]) -> Option<TimeZoneRecord<'a, Utf8>> {
    match TimeZoneParser::from_utf8(bytes).parse_iana_identifier() {
        Ok(_name) => {
            every_name_is_an_identifier();
            match TimeZoneParser::from_utf8(bytes).parse_identifier() {
                Ok(zone) => Some(zone),
                Err(_) => unreachable!(),
            }
        }
        Err(_) => None,
    }
}

// A caller concludes from the law: if a row of the fault table fits the bytes, and no annotation comes before it, the reader
// returns its error.
fn read_by_the_table<'a>(bytes: &'a [u8]) -> ParserResult<IxdtfParseRecord<'a, Utf8>>
    ensures { (row : Row) → Fits reader_parse row [] (map byte_letter bytes.now) →
        returned (λ it. it) result ≡ Err row.error }
{
    one_outcome();
    IxdtfParser::from_utf8(bytes).parse()
}

// A caller concludes from the law: with a handler that drops every annotation, two calls for a text have the same result.
fn reads_twice<'a>(
    bytes: &'a [u8],
) -> (
    ParserResult<IxdtfParseRecord<'a, Utf8>>,
    ParserResult<IxdtfParseRecord<'a, Utf8>>,
)
    ensures { returned (parsed_of (λ unit. unit)) result.0 ≡
        returned (parsed_of (λ unit. unit)) result.1 }
{
    one_outcome();
    let mut first = IxdtfParser::from_utf8(bytes);
    let mut second = IxdtfParser::from_utf8(bytes);
    let found = parse_unanswered(&mut first, |_annotation| None);
    let again = parse_unanswered(&mut second, |_annotation| None);
    (found, again)
}

// A caller concludes from the law: if bytes are an offset and a zone, both have the same hours.
fn hours_of_both(bytes: &[u8]) -> Option<(u8, u8)>
    ensures { IfSome result (λ hours. hours.0 ≡ hours.1) }
{
    match TimeZoneParser::from_utf8(bytes).parse_offset() {
        Ok(offset) => match TimeZoneParser::from_utf8(bytes).parse_identifier() {
            Ok(zone) => {
                offsets_agree();
                match zone {
                    TimeZoneRecord::Offset(minutes) => Some((offset.hour(), minutes.hour)),
                    TimeZoneRecord::Name(_) => unreachable!(),
                }
            }
            Err(_) => None,
        },
        Err(_) => None,
    }
}

// A caller concludes from the laws: the reader returns the same record or the same error for a date without hyphens and for the
// same date with both hyphens. The same bytes follow both dates.
fn read_both_forms<'a>(
    plain: &'a [u8],
    hyphened: &'a [u8],
) -> (
    ParserResult<IxdtfParseRecord<'a, Utf8>>,
    ParserResult<IxdtfParseRecord<'a, Utf8>>,
)
    ensures { (years months days rest : Text) → IsDateParts years months days →
        map byte_letter plain.now ≡ years ++ (months ++ (days ++ rest)) →
        map byte_letter hyphened.now ≡
        years ++ (Plain 45 ∷ (months ++ (Plain 45 ∷ (days ++ rest)))) →
        returned (parsed_of (λ unit. unit)) result.0 ≡
        returned (parsed_of (λ unit. unit)) result.1 }
{
    hyphens_say_nothing();
    widths_agree();
    let found = IxdtfParser::from_utf8(plain).parse();
    let same = IxdtfParser::from_utf8(hyphened).parse();
    (found, same)
}

// A caller concludes from the laws: if there is a hyphen only before the month, the error is `DateSeparator`.
fn refuses_one_hyphen<'a>(bytes: &'a [u8]) -> ParserResult<IxdtfParseRecord<'a, Utf8>>
    ensures { (years months days rest : Text) → IsDateParts years months days →
        map byte_letter bytes.now ≡ years ++ (Plain 45 ∷ (months ++ (days ++ rest))) →
        returned (parsed_of (λ unit. unit)) result ≡ Err DateSeparator }
{
    hyphens_say_nothing();
    widths_agree();
    IxdtfParser::from_utf8(bytes).parse()
}

// A caller concludes from the law which values the defaults have.
fn defaults() -> (DateRecord, TimeRecord, DateDurationRecord)
    ensures date { result.0 ≡ record { year = pos 0; month = 0; day = 0 } }
    ensures time { result.1 ≡ record { hour = 0; minute = 0; second = 0; fraction = None } }
    ensures days { result.2 ≡ record { years = 0; months = 0; weeks = 0; days = 0 } }
{
    defaults_are_zero();
    (
        DateRecord::default(),
        TimeRecord::default(),
        DateDurationRecord::default(),
    )
}

// A caller concludes from the law: bytes that are a date, or a date and a time, are not a year-month.
fn is_read_by_one(bytes: &[u8]) -> bool {
    match IxdtfParser::from_utf8(bytes).parse() {
        Ok(_date) => {
            languages_disjoint();
            match IxdtfParser::from_utf8(bytes).parse_year_month() {
                Ok(_month) => unreachable!(),
                Err(_) => true,
            }
        }
        Err(_) => false,
    }
}

// A caller concludes from the laws, in every encoding: a zone is equal to its clone.
fn equals_its_clone<'a, T: EncodingType>(zone: &TimeZoneAnnotation<'a, T>) -> bool
    ensures { IsTrue result }
{
    clones_are_equal::<T>();
    equality_is_of_what_is_seen::<T>();
    match zone.clone() {
        Ok(copy) => copy == *zone,
        Err(_) => unreachable!(),
    }
}

// A caller concludes from the laws: a duration is equal to its clone.
fn duration_equals_its_clone(duration: &DurationParseRecord) -> bool
    ensures { IsTrue result }
{
    clones_are_equal::<Utf8>();
    equality_is_of_what_is_seen::<Utf8>();
    match duration.clone() {
        Ok(copy) => copy == *duration,
        Err(_) => unreachable!(),
    }
}

// A caller concludes from the law: if there are exact nanoseconds, no digit was dropped.
fn drops_nothing(fraction: &Fraction) -> bool
    ensures { IsTrue result }
{
    exact_nanoseconds_are_the_truncated_ones(fraction);
    match fraction.to_nanoseconds() {
        Some(exact) => exact == fraction.to_truncated_nanoseconds(),
        None => true,
    }
}

// A caller concludes from the law: for the same numbers from 1 to 126, the reader returns the same offset or the same error for
// 8-bit and 16-bit text.
fn gives_one_offset(bytes: &[u8], units: &[u16]) -> bool
    ensures { All (λ n. IsTrue (is_shared n)) bytes.now → units.now ≡ bytes.now → IsTrue result }
{
    widths_agree();
    equality_is_of_what_is_seen::<Utf8>();
    let narrow = TimeZoneParser::from_utf8(bytes).parse_offset();
    match TimeZoneParser::from_utf16(units).parse_offset() {
        Ok(wide) => match narrow {
            Ok(offset) => offset == wide,
            Err(_) => false,
        },
        Err(wide) => match narrow {
            Ok(_) => false,
            Err(error) => error == wide,
        },
    }
}

// A caller concludes from the law: for the same numbers from 1 to 126, the error has the same position in 8-bit and 16-bit text.
fn places_of_both(bytes: &[u8], units: &[u16]) -> Option<(usize, usize)>
    ensures { All (λ n. IsTrue (is_shared n)) bytes.now → units.now ≡ bytes.now →
        IfSome result (λ places. places.0 ≡ places.1) }
{
    widths_agree();
    match IxdtfParser::from_utf8(bytes).parse_located() {
        Ok(_) => None,
        Err(narrow) => match IxdtfParser::from_utf16(units).parse_located() {
            Ok(_) => None,
            Err(wide) => Some((narrow.at, wide.at)),
        },
    }
}

#[test]
fn finds_clones_and_nanoseconds_equal(rt: HostRuntime) {
    let name: [u16; 3] = [85, 84, 67];
    let zone: TimeZoneAnnotation<'_, Utf16> = TimeZoneAnnotation {
        critical: true,
        tz: TimeZoneRecord::Name(&name),
    };
    check(&rt, "a zone", equals_its_clone(&zone));
    if let Some(fraction) = fraction_of("+00:00:00.25") {
        check(&rt, "a fraction", drops_nothing(&fraction));
    }
    if let Ok(duration) = IsoDurationParser::from_str("P1YT0.25S").parse() {
        check(&rt, "a duration", duration_equals_its_clone(&duration));
    }
}

#[test]
fn reads_both_widths_as_one(rt: HostRuntime) {
    let offset: [u16; 6] = [43, 48, 53, 58, 51, 48];
    check(&rt, "+05:30", gives_one_offset(b"+05:30", &offset));
    check(&rt, "+05:3", gives_one_offset(b"+05:3", &offset[..5]));
}

#[test]
fn finds_one_place_in_both_widths(rt: HostRuntime) {
    let month: [u16; 7] = [50, 48, 50, 48, 45, 49, 51];
    let places = places_of_both(b"2020-13", &month);
    check(&rt, "2020-13", places == Some((7, 7)));
    let places = places_of_both(b"2020-1", &month[..6]);
    check(&rt, "2020-1", places == Some((6, 6)));
}

#[test]
fn reads_date_times(rt: HostRuntime) {
    let found = read_date_time(b"2024-02-29t23:59:60.25-05:30");
    let is_read = matches!(found, Ok(IxdtfParseRecord { calendar: None, .. }));
    check(&rt, "a date-time", is_read);
}

#[test]
fn reads_date_times_alike(rt: HostRuntime) {
    rfc3339_date_times_are_read_alike();
    let text = b"2024-03-02T08:48:00.25-05:30";
    let exact = IxdtfParser::from_utf8(text).parse_rfc3339();
    check(&rt, "a date-time", exact.is_ok());
    let found = IxdtfParser::from_utf8(text).parse();
    check(&rt, "the same date-time", exact == found);
}

#[test]
fn reads_texts_with_brackets_alike(rt: HostRuntime) {
    rfc9557_texts_are_read_alike();
    let text = b"2024-03-02T08:48:00Z[Europe/Paris][u-ca=hebrew]";
    let exact = IxdtfParser::from_utf8(text).parse_rfc9557();
    check(&rt, "a text with brackets", exact.is_ok());
    let found = IxdtfParser::from_utf8(text).parse();
    check(&rt, "the same text", exact == found);
}

#[test]
fn reads_the_text_of_an_instant(rt: HostRuntime) {
    text_is_read_back();
    let wanted = Some(Instant {
        seconds: 1_709_369_280,
        nanoseconds: 250_000_000,
    });
    let found = IxdtfParser::from_utf8(b"2024-03-02T08:48:00.25Z").parse();
    let is_read = matches!(found, Ok(found) if found.instant() == wanted);
    check(&rt, "an instant", is_read);
}

#[test]
fn reads_names_as_zones(rt: HostRuntime) {
    let name = b"Europe/Berlin".as_slice();
    let is_named = read_named_zone(name) == Some(TimeZoneRecord::Name(name));
    check(&rt, "Europe/Berlin", is_named);
    check(&rt, "+01:00", read_named_zone(b"+01:00") == None);
}

#[test]
fn reads_faults_by_the_table(rt: HostRuntime) {
    let found = read_by_the_table(b"2024-13-02");
    let is_refused = matches!(found, Err(ParseError::InvalidMonthRange));
    check(&rt, "2024-13-02", is_refused);
}

#[test]
fn reads_by_one_reader(rt: HostRuntime) {
    check(&rt, "2024-03-02", is_read_by_one(b"2024-03-02"));
    check(&rt, "2024-03", !is_read_by_one(b"2024-03"));
}

#[test]
fn reads_a_text_twice(rt: HostRuntime) {
    let (found, again) = reads_twice(b"2024-03-02[!a=b][u-ca=c]");
    check(&rt, "once more", found == again);
    let is_read = matches!(found, Ok(IxdtfParseRecord { calendar: None, .. }));
    check(&rt, "no calendar", is_read);
}

#[test]
fn reads_offsets_of_both_readers(rt: HostRuntime) {
    check(&rt, "-05:30", hours_of_both(b"-05:30") == Some((5, 5)));
    check(&rt, "-05:30:15", hours_of_both(b"-05:30:15") == None);
}

// Returns whether both forms of a date have the same result. If `error` is an error, it is this result.
fn reads_forms_alike(plain: &[u8], hyphened: &[u8], error: Option<ParseError>) -> bool {
    let (found, same) = read_both_forms(plain, hyphened);
    let as_wanted = match &found {
        Ok(_record) => error == None,
        Err(fault) => error == Some(*fault),
    };
    as_wanted && found == same
}

#[test]
fn reads_dates_by_their_hyphens(rt: HostRuntime) {
    let is_read = reads_forms_alike(b"20240302T12[a=b]", b"2024-03-02T12[a=b]", None);
    check(&rt, "20240302T12[a=b]", is_read);
    let fault = Some(ParseError::InvalidDayRange);
    check(
        &rt,
        "20240399",
        reads_forms_alike(b"20240399", b"2024-03-99", fault),
    );
    let refused = refuses_one_hyphen(b"2024-0302");
    let is_refused = matches!(refused, Err(ParseError::DateSeparator));
    check(&rt, "2024-0302", is_refused);
}

#[test]
fn defaults_are_zero_in_each_field(rt: HostRuntime) {
    let (date, time, days) = defaults();
    let is_zero = date.year == 0 && date.month == 0 && date.day == 0;
    check(&rt, "a date", is_zero);
    let is_zero = time.hour == 0 && time.minute == 0 && time.second == 0;
    check(&rt, "a time", is_zero && time.fraction == None);
    let is_zero = days.years == 0 && days.months == 0 && days.weeks == 0 && days.days == 0;
    check(&rt, "a duration", is_zero);
}

// Returns the result for a text, with a handler that drops every annotation.
fn unanswered(text: &'static str) -> ParserResult<Record> {
    let mut parser = IxdtfParser::from_str(text);
    parse_unanswered(&mut parser, |_annotation| None)
}

#[test]
fn leaves_no_calendar_unanswered(rt: HostRuntime) {
    let is_read = unanswered("2020-01-01[u-ca=a][!u-ca=b][!c=d]") == Ok(dated(2020, 1, 1, None));
    check(&rt, "pairs", is_read);
    let is_refused = unanswered("2020-01-01[!c=d]junk") == Err(ParseError::InvalidEnd);
    check(&rt, "an end", is_refused);
}

#[test]
fn instants_have_laws() {
    next_day_is_a_day_later();
    instants_are_in_order();
    offsets_make_up();
    second_60_is_59();
}
