//! Tests of the functions for C: what is written and what is left, calls with handlers, and values that no text has. The texts with their
//! answers are in the tables of the folder `tests`, and `tests/run.py` asks the library for C about them.

mod explaining;
mod narrow;
mod printing;
mod wide;

use crate::duration_struct::Duration;
use crate::error_constants::ixdtf_error_constant;
use crate::error_numbers::{Text, ixdtf_error_text};
use crate::part_structs::{Date, Offset, Time};
use crate::version::ixdtf_interface_version;

/// A date in which no field is 0 or false.
const DATE: Date = Date {
    year: 1,
    month: 1,
    day: 1,
    is_there: true,
};

/// A time in which no field is 0 or false.
const TIME: Time = Time {
    fraction: 1,
    fraction_digits: 1,
    hour: 1,
    minute: 1,
    second: 1,
    is_there: true,
};

/// An offset in which no field is 0 or false.
const OFFSET: Offset = Offset {
    fraction: 1,
    fraction_digits: 1,
    form: 3,
    is_negative: true,
    hour: 1,
    minute: 1,
    second: 1,
};

/// A duration in which no field is 0, false or empty.
const DURATION: Duration<'static> = Duration {
    days: 9,
    hours: 9,
    minutes: 9,
    seconds: 9,
    fraction: 9,
    years: 9,
    months: 9,
    weeks: 9,
    fraction_digits: 9,
    time_form: 9,
    has_date: true,
    is_negative: true,
    location: &[9],
    place: 9,
};

#[test]
fn tells_texts_names_and_the_version(rt: HostRuntime) {
    assert_eq!(rt; ixdtf_interface_version(), 2);
    let mut text = Text { bytes: &[] };
    ixdtf_error_text(46, &mut text);
    assert_eq!(rt; text.bytes, b"MonthDay was not valid.".as_slice());
    ixdtf_error_text(47, &mut text);
    assert_eq!(rt; text.bytes, b"".as_slice());
    ixdtf_error_constant(104, &mut text);
    assert_eq!(rt; text.bytes, b"IXDTF_NOT_EXACT".as_slice());
    ixdtf_error_constant(47, &mut text);
    assert_eq!(rt; text.bytes, b"".as_slice());
}
