//! Tests of the printer, in the way in which callers use it. The canonical texts are in the rows of `tests/accepted.tsv`.

ghost use Rattle.std.specs.Prelude.{IsTrue};

use super::{Record, check, check_displayed, dated, named};
use ixdtf::encoding::Utf8;
use ixdtf::laws::equality_is_of_what_is_seen;
use ixdtf::parsers::{IsoDurationParser, IxdtfParser, TimeZoneParser};
use ixdtf::records::TimeZoneAnnotation;
use ixdtf_print::{
    Canonical, PrintError, duration_length, month_day_length, month_day_length_utf16,
    offset_length, print, print_duration, print_duration_utf16, print_month_day,
    print_month_day_utf16, print_offset, print_offset_utf16, print_time, print_time_utf16,
    print_utf16, print_with_room, print_year_month, print_year_month_utf16, print_zone,
    print_zone_utf16, printed_length, printed_length_utf16, time_length, time_length_utf16,
    year_month_length, year_month_length_utf16, zone_length, zone_length_utf16,
};
use std::process::Abort;
use std::test::Fail;

// ==== Calls, as `docs/CALLING.md` shows them ====

// Returns the canonical text of a text, in the slice `out`. Returns `None` if the text is refused, or if `out` is too short.
fn canonical_of<'a>(text: &str, out: &'a mut [u8]) -> Option<&'a [u8]> {
    let Ok(parsed) = IxdtfParser::from_str(text).parse() else {
        return None;
    };
    match print(&parsed, out) {
        Ok(count) => Some(&out[..count]),
        Err(_) => None,
    }
}

// A caller concludes from the contracts: a record that was read is printable, and its canonical text is read as an equal record.
fn is_read_back(bytes: &[u8], out: &mut [u8]) -> bool
    ensures { IsTrue result }
{
    equality_is_of_what_is_seen::<Utf8>();
    let Ok(parsed) = IxdtfParser::from_utf8(bytes).parse() else {
        return true;
    };
    match print(&parsed, out) {
        Ok(count) => match IxdtfParser::from_utf8(&out[..count]).parse() {
            Ok(again) => again == parsed,
            Err(_) => unreachable!(),
        },
        Err(PrintError::TooShort) => true,
        Err(PrintError::NotPrintable) => unreachable!(),
    }
}

// Returns whether this is the canonical text of a text.
fn is_canonical(text: &str, out: &mut [u8], canonical: &str) -> bool {
    canonical_of(text, out) == Some(canonical.as_bytes())
}

// Returns whether this is the canonical text of a text, printed to a slice that is long enough.
fn is_put_with_room(text: &str, out: &mut [u8], canonical: &str) -> bool {
    let Ok(parsed) = IxdtfParser::from_str(text).parse() else {
        return false;
    };
    match printed_length(&parsed) {
        Some(length) if length <= out.len() => {
            let count = print_with_room(&parsed, out);
            &out[..count] == canonical.as_bytes()
        }
        _ => false,
    }
}

// Returns whether a text has no canonical text, or `out` is too short for it.
fn prints_nothing(text: &str, out: &mut [u8]) -> bool {
    canonical_of(text, out) == None
}

#[test]
fn prints_for_callers(rt: HostRuntime) {
    let text = "20240302 084800z[u-ca=hebrew][a=b]";
    let canonical = "2024-03-02T08:48:00Z[u-ca=hebrew]";
    let mut out = [0; 64];
    check(&rt, text, is_canonical(text, &mut out, canonical));
    let mut short = [0; 32];
    check(&rt, "too few bytes", prints_nothing(text, &mut short));
    check(
        &rt,
        "with room",
        is_put_with_room(text, &mut out, canonical),
    );
    check(
        &rt,
        "no room",
        !is_put_with_room(text, &mut short, canonical),
    );
    check(&rt, "month 13", prints_nothing("2024-13-02", &mut out));
    check(&rt, "read back", is_read_back(text.as_bytes(), &mut out));
}

// ==== One call of each other printer ====

#[test]
fn calls_each_printer(rt: HostRuntime) {
    let mut out = [0; 64];
    if let Ok(it) = IxdtfParser::from_str("T12").parse_time() {
        let count = print_time(&it, &mut out);
        check(&rt, "T12", count == Ok(8) && time_length(&it) == Some(8));
    }
    if let Ok(it) = IxdtfParser::from_str("202011").parse_year_month() {
        let count = print_year_month(&it, &mut out);
        check(
            &rt,
            "202011",
            count == Ok(7) && year_month_length(&it) == Some(7),
        );
    }
    if let Ok(it) = IxdtfParser::from_str("1107").parse_month_day() {
        let count = print_month_day(&it, &mut out);
        check(
            &rt,
            "1107",
            count == Ok(5) && month_day_length(&it) == Some(5),
        );
    }
    if let Ok(it) = TimeZoneParser::from_str("UTC").parse_identifier() {
        let count = print_zone(&it, &mut out);
        check(&rt, "UTC", count == Ok(3) && zone_length(&it) == Some(3));
    }
    if let Ok(it) = TimeZoneParser::from_str("+01").parse_offset() {
        let count = print_offset(&it, &mut out);
        check(&rt, "+01", count == Ok(6) && offset_length(&it) == Some(6));
    }
    if let Ok(it) = IsoDurationParser::from_str("p1d").parse() {
        let count = print_duration(&it, &mut out);
        check(
            &rt,
            "p1d",
            count == Ok(3) && duration_length(&it) == Some(3),
        );
    }
}

#[test]
fn calls_each_printer_of_code_units(rt: HostRuntime) {
    let mut out = [0u16; 64];
    if let Ok(it) = IxdtfParser::from_utf16(&[50, 48, 50, 48, 48, 49, 48, 49]).parse() {
        let count = print_utf16(&it, &mut out);
        check(
            &rt,
            "20200101",
            count == Ok(10) && printed_length_utf16(&it) == Some(10),
        );
    }
    if let Ok(it) = IxdtfParser::from_utf16(&[84, 49, 50]).parse_time() {
        let count = print_time_utf16(&it, &mut out);
        check(
            &rt,
            "T12",
            count == Ok(8) && time_length_utf16(&it) == Some(8),
        );
    }
    if let Ok(it) = IxdtfParser::from_utf16(&[50, 48, 50, 48, 49, 49]).parse_year_month() {
        let count = print_year_month_utf16(&it, &mut out);
        check(
            &rt,
            "202011",
            count == Ok(7) && year_month_length_utf16(&it) == Some(7),
        );
    }
    if let Ok(it) = IxdtfParser::from_utf16(&[49, 49, 48, 55]).parse_month_day() {
        let count = print_month_day_utf16(&it, &mut out);
        check(
            &rt,
            "1107",
            count == Ok(5) && month_day_length_utf16(&it) == Some(5),
        );
    }
    if let Ok(it) = TimeZoneParser::from_utf16(&[85, 84, 67]).parse_identifier() {
        let count = print_zone_utf16(&it, &mut out);
        check(
            &rt,
            "UTC",
            count == Ok(3) && zone_length_utf16(&it) == Some(3),
        );
    }
    if let Ok(it) = TimeZoneParser::from_str("+01").parse_offset() {
        check(&rt, "+01", print_offset_utf16(&it, &mut out) == Ok(6));
    }
    if let Ok(it) = IsoDurationParser::from_str("p1d").parse() {
        check(&rt, "p1d", print_duration_utf16(&it, &mut out) == Ok(3));
    }
}

// ==== What is displayed ====

#[test]
fn displays_canonical_texts(rt: HostRuntime) -> Result<(), Fail> {
    let canonical = "2024-03-02T08:48:00Z";
    if let Ok(parsed) = IxdtfParser::from_str("20240302 0848z").parse() {
        match Canonical::of(&parsed) {
            Some(shown) => check_displayed(&rt, rt.alloc(), &shown, canonical)?,
            None => check(&rt, canonical, false),
        }
    }
    Ok(())
}

#[rattlefmt::skip]
const ERROR_TEXTS: &[(PrintError, &str)] = &[
    (PrintError::NotPrintable, "No text stands for the record."),
    (PrintError::TooShort, "There is less room than the text takes."),
];

#[test]
fn displays_errors(rt: HostRuntime) -> Result<(), Fail> {
    for (error, text) in ERROR_TEXTS {
        let plain = format!(in rt.alloc(); "{error}")?;
        check(&rt, text, plain.as_str() == *text);
    }
    Ok(())
}

// ==== What is not printed ====

/// Asserts that the record is not printed, even to an empty slice, and that the bytes are unchanged.
fn check_not_printable(rt: &impl Abort, what: &str, parsed: &Record) {
    let mut out = [7; 64];
    let is_refused = print(parsed, &mut out) == Err(PrintError::NotPrintable);
    check(rt, what, is_refused && out.iter().all(|byte| *byte == 7));
    let is_nothing = printed_length(parsed) == None && Canonical::of(parsed).is_none();
    check(rt, what, is_nothing);
    let is_refused = print(parsed, &mut out[..0]) == Err(PrintError::NotPrintable);
    assert!(rt; is_refused, "{what} into no bytes");
}

#[test]
fn prints_no_other_records(rt: HostRuntime) {
    check_not_printable(&rt, "nothing", &Record::default());
    check_not_printable(&rt, "month 13", &dated(2020, 13, 1, None));
    let first = dated(1900, 2, 29, None);
    check_not_printable(&rt, "29 February 1900", &first);
    let mut zoned = dated(2020, 1, 1, None);
    let tz = named("a//b");
    let critical = true;
    zoned.tz = Some(TimeZoneAnnotation { critical, tz });
    check_not_printable(&rt, "a//b", &zoned);
}
