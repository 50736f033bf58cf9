//! Tests of the printers.

use super::DURATION;
use super::narrow::RECORD;
use super::wide::{self, Units};
use crate::computed_fields::ixdtf_printed_length;
use crate::exports::{ixdtf_parse, ixdtf_parse_duration, ixdtf_parse_offset, ixdtf16_parse};
use crate::narrow::Record;
use crate::narrow_printers::{
    ixdtf_print, ixdtf_print_duration, ixdtf_print_month_day, ixdtf_print_offset, ixdtf_print_time,
    ixdtf_print_year_month, ixdtf_print_zone, ixdtf_printed_duration_length,
    ixdtf_printed_offset_length,
};
use crate::wide_printers::{ixdtf16_print, ixdtf16_printed_length};
use std::process::Abort;

/// Checks that a record is printed as `canonical`, and that it is not printed if the array is one byte too short.
fn check_printed(rt: &impl Abort, given: &Record<'_>, canonical: &[u8]) {
    let mut out = [7; 128];
    let mut count = 9;
    assert_eq!(rt; ixdtf_print(given, &mut out, &mut count), 0);
    assert_eq!(rt; count, canonical.len());
    let (front, rest) = out.split_at(count.min(128));
    assert!(rt; *front == *canonical);
    assert!(rt; rest.iter().all(|byte| *byte == 7));
    let mut out = [7; 128];
    let less = canonical.len().saturating_sub(1).min(128);
    assert_eq!(rt; ixdtf_print(given, &mut out[..less], &mut count), 102);
    assert_eq!(rt; count, canonical.len());
    assert!(rt; out.iter().all(|byte| *byte == 7));
}

#[test]
fn prints_what_was_read(rt: HostRuntime) {
    let mut record = RECORD;
    let text = b"20240302 084800,50-053010[!etc/utc]".as_slice();
    assert_eq!(rt; ixdtf_parse(text, &mut record), 0);
    check_printed(&rt, &record, b"2024-03-02T08:48:00.50-05:30:10[!etc/utc]");
}

#[test]
fn prints_no_record_without_a_text(rt: HostRuntime) {
    let mut record = RECORD;
    record.date.month = 13;
    let mut out = [7; 128];
    let mut count = 9;
    assert_eq!(rt; ixdtf_print(&record, &mut out, &mut count), 101);
    assert_eq!(rt; (count, out[0]), (9, 7));
    assert_eq!(rt; ixdtf_printed_length(&record), 0);
}

#[test]
fn prints_a_duration(rt: HostRuntime) {
    let mut duration = DURATION;
    assert_eq!(rt; ixdtf_parse_duration(b"+p1y0m03dt04,50m", &mut duration), 0);
    assert_eq!(rt; ixdtf_printed_duration_length(&duration), 11);
    let mut out = [7; 16];
    let mut count = 9;
    assert_eq!(rt;
        ixdtf_print_duration(&duration, &mut out[..3], &mut count),
        102
    );
    assert_eq!(rt; (count, out[0]), (11, 7));
    assert_eq!(rt; ixdtf_print_duration(&duration, &mut out, &mut count), 0);
    assert_eq!(rt; &out[..count.min(16)], b"P1Y3DT4.50M".as_slice());
}

#[test]
fn prints_an_offset_and_no_zone(rt: HostRuntime) {
    let mut record = RECORD;
    let mut out = [7; 16];
    let mut count = 9;
    assert_eq!(rt; ixdtf_parse_offset(b"-0530", &mut record), 0);
    assert_eq!(rt; ixdtf_printed_offset_length(&record.offset), 6);
    assert_eq!(rt; ixdtf_print_offset(&record.offset, &mut out, &mut count), 0);
    assert_eq!(rt; &out[..count.min(16)], b"-05:30".as_slice());
    assert_eq!(rt; ixdtf_print_zone(&record.zone, &mut out, &mut count), 101);
    assert_eq!(rt; ixdtf_print_time(&record, &mut out, &mut count), 101);
    assert_eq!(rt; ixdtf_print_year_month(&record, &mut out, &mut count), 101);
    assert_eq!(rt; ixdtf_print_month_day(&record, &mut out, &mut count), 101);
}

/// A text with a name and a calendar.
const NAMED: &[u8] = b"20240302 0848z[Europe/Paris][u-ca=hebrew]";

/// The canonical text of the record of `NAMED`. It has 47 code units.
const CANONICAL_NAMED: &[u8] = b"2024-03-02T08:48:00Z[Europe/Paris][u-ca=hebrew]";

#[test]
fn prints_16_bit_code_units(rt: HostRuntime) {
    let text = Units::of(NAMED);
    let mut record = wide::RECORD;
    assert_eq!(rt; ixdtf16_parse(text.as_slice(), &mut record), 0);
    assert_eq!(rt; ixdtf16_printed_length(&record), 47);
    let mut out = [0; 64];
    let mut count = 9;
    assert_eq!(rt; ixdtf16_print(&record, &mut out[..46], &mut count), 102);
    assert_eq!(rt; (count, out[0]), (47, 0));
    assert_eq!(rt; ixdtf16_print(&record, &mut out, &mut count), 0);
    assert_eq!(rt; count, 47);
    assert_eq!(rt; out, Units::of(CANONICAL_NAMED).units);
}
