//! Functions that write the fields of a record into a slice.
ghost use Rattle.std.specs.Prelude.{◌≡◌, ◌∷◌, ◌++◌, map, nat_abs, option_map};
ghost use Rattle.ixdtf.specs.Views.{note_of, zone_of};
ghost use Rattle.ixdtf_print.specs.Printable.{record_of};
ghost use Rattle.ixdtf.specs.language.Letters.{Plain};
ghost use Rattle.ixdtf_print.specs.Canonical.{two_digits, year_text, date_text, minutes_text, seconds_text, clock_text, time_text, minute_offset_text};
ghost use Rattle.ixdtf_print.specs.Canonical.{offset_text, zone_text, opening_text, bracket_text, calendar_text, brackets_text};
ghost use Rattle.ixdtf_print.specs.Canonical.{optional_date_text, core_text, mark_of};
ghost use Rattle.ixdtf_print.specs.Prints.{HasRoom, Prints};

use crate::digits::{ones_digit, put_digits, put_four, put_fraction, tens_digit};
use crate::put::{put, put_byte, put_each};
use ixdtf::encoding::Utf8;
use ixdtf::records::{
    DateRecord, Fraction, IxdtfParseRecord, MinutePrecisionOffset, Sign, TimeRecord,
    TimeZoneAnnotation, TimeZoneRecord, UtcOffsetRecord, UtcOffsetRecordOrZ,
};

/// Returns the absolute value of the year.
fn distance_of(date: DateRecord) -> u64
    ensures { result ≡ nat_abs date.year }
{
    u64::from(date.year.unsigned_abs())
}

/// Writes the year at index `at`. Returns the index after it.
#[inline(always)]
#[tactic(auto, using(crate::proofs::code::PutBytes::putting, crate::proofs::code::YearSigns::years))]
pub fn put_year(out: &mut [u8], at: usize, date: DateRecord) -> usize
    requires { HasRoom out.old at (year_text date.year) }
    ensures { Prints out.old out.new at result (year_text date.year) }
{
    let distance = distance_of(date);
    if date.year < 0 {
        let digits = put_byte(out, at, b'-');
        return put_digits(out, digits, 6, distance);
    }
    if distance <= 9999 {
        return put_four(out, at, distance);
    }
    let digits = put_byte(out, at, b'+');
    put_digits(out, digits, 6, distance)
}

/// Writes the date at index `at`. Returns the index after it.
#[tactic(auto, using(crate::proofs::code::PutBytes::putting), unfolding(crate::specs::Canonical::date_text))]
fn put_date(out: &mut [u8], at: usize, date: DateRecord) -> usize
    requires { HasRoom out.old at (date_text date) }
    ensures { Prints out.old out.new at result (date_text date) }
{
    let after_year = put_year(out, at, date);
    put_days(out, after_year, date.month, date.day)
}

/// Writes a month and a day at index `at`, each after a `-`. Returns the index after them.
fn put_days(out: &mut [u8], at: usize, month: u8, day: u8) -> usize
    requires { HasRoom out.old at (Plain 45 ∷ (two_digits month ++ (Plain 45 ∷ two_digits day))) }
    ensures { Prints out.old out.new at result
        (Plain 45 ∷ (two_digits month ++ (Plain 45 ∷ two_digits day))) }
{
    put(
        out,
        at,
        &[
            b'-',
            tens_digit(month),
            ones_digit(month),
            b'-',
            tens_digit(day),
            ones_digit(day),
        ],
    )
}

/// Writes the date at index `at`, if there is one. Returns the index after it.
fn put_optional_date(out: &mut [u8], at: usize, date: Option<DateRecord>) -> usize
    requires { HasRoom out.old at (optional_date_text date) }
    ensures { Prints out.old out.new at result (optional_date_text date) }
{
    match date {
        None => at,
        Some(date) => put_date(out, at, date),
    }
}

/// Writes a separator, an hour and a minute at index `at`. Returns the index after them.
#[inline(always)]
pub fn put_minutes(out: &mut [u8], at: usize, mark: u8, hour: u8, minute: u8) -> usize
    requires { HasRoom out.old at (Plain mark ∷ minutes_text hour minute) }
    ensures { Prints out.old out.new at result (Plain mark ∷ minutes_text hour minute) }
{
    put(
        out,
        at,
        &[
            mark,
            tens_digit(hour),
            ones_digit(hour),
            b':',
            tens_digit(minute),
            ones_digit(minute),
        ],
    )
}

/// Writes a separator, an hour, a minute and a second at index `at`. Returns the index after them.
fn put_seconds(out: &mut [u8], at: usize, mark: u8, hour: u8, minute: u8, second: u8) -> usize
    requires { HasRoom out.old at (Plain mark ∷ seconds_text hour minute second) }
    ensures { Prints out.old out.new at result (Plain mark ∷ seconds_text hour minute second) }
{
    put(
        out,
        at,
        &[
            mark,
            tens_digit(hour),
            ones_digit(hour),
            b':',
            tens_digit(minute),
            ones_digit(minute),
            b':',
            tens_digit(second),
            ones_digit(second),
        ],
    )
}

/// Writes a separator, an hour, a minute, a second and, if there is one, a fraction at index `at`. Returns the index
/// after them.
fn put_clock(
    out: &mut [u8],
    at: usize,
    mark: u8,
    hour: u8,
    minute: u8,
    second: u8,
    fraction: Option<Fraction>,
) -> usize
    requires { HasRoom out.old at (Plain mark ∷ clock_text hour minute second fraction) }
    ensures { Prints out.old out.new at result (Plain mark ∷ clock_text hour minute second fraction) }
{
    let point = put_seconds(out, at, mark, hour, minute, second);
    put_fraction(out, point, fraction)
}

/// Writes the time at index `at`, if there is one. Returns the index after it.
fn put_time(out: &mut [u8], at: usize, time: Option<TimeRecord>) -> usize
    requires { HasRoom out.old at (time_text time) }
    ensures { Prints out.old out.new at result (time_text time) }
{
    match time {
        None => at,
        Some(time) => put_clock(
            out,
            at,
            b'T',
            time.hour,
            time.minute,
            time.second,
            time.fraction,
        ),
    }
}

/// Returns the byte of a sign.
fn mark_of(sign: Sign) -> u8
    ensures { result ≡ mark_of sign }
{
    match sign {
        Sign::Positive => b'+',
        Sign::Negative => b'-',
    }
}

/// Writes an offset with hours and minutes at index `at`. Returns the index after it.
pub fn put_minute_offset(out: &mut [u8], at: usize, offset: MinutePrecisionOffset) -> usize
    requires { HasRoom out.old at (minute_offset_text offset) }
    ensures { Prints out.old out.new at result (minute_offset_text offset) }
{
    put_minutes(out, at, mark_of(offset.sign), offset.hour, offset.minute)
}

/// Writes the offset at index `at`, if there is one. Returns the index after it.
#[inline(always)]
pub fn put_offset(out: &mut [u8], at: usize, offset: Option<UtcOffsetRecordOrZ>) -> usize
    requires { HasRoom out.old at (offset_text offset) }
    ensures { Prints out.old out.new at result (offset_text offset) }
{
    match offset {
        None => at,
        Some(UtcOffsetRecordOrZ::Z) => put_byte(out, at, b'Z'),
        Some(UtcOffsetRecordOrZ::Offset(UtcOffsetRecord::MinutePrecision(offset))) => {
            put_minute_offset(out, at, offset)
        }
        Some(UtcOffsetRecordOrZ::Offset(UtcOffsetRecord::FullPrecisionOffset(offset))) => {
            let minutes = offset.minute_precision_offset;
            let mark = mark_of(minutes.sign);
            put_clock(
                out,
                at,
                mark,
                minutes.hour,
                minutes.minute,
                offset.second,
                offset.fraction,
            )
        }
    }
}

/// Returns what comes before a zone: `[` or `[!`.
pub fn opening_of(critical: bool) -> &'static [u8]
    ensures { map Plain result.now ≡ opening_text critical }
{
    if critical {
        b"[!".as_slice()
    } else {
        b"[".as_slice()
    }
}

/// Writes the beginning of the bracket of a zone at index `at`: `[!` if the zone is critical, and otherwise `[`. The
/// two bytes of `[!` are written in one step. Returns the index after the beginning.
fn put_opening(out: &mut [u8], at: usize, critical: bool) -> usize
    requires { HasRoom out.old at (opening_text critical) }
    ensures { Prints out.old out.new at result (opening_text critical) }
{
    if critical {
        return put(out, at, b"[!");
    }
    put(out, at, b"[")
}

/// Writes the zone at index `at`. Returns the index after it.
#[inline(always)]
pub fn put_zone(out: &mut [u8], at: usize, zone: &TimeZoneRecord<'_, Utf8>) -> usize
    requires { HasRoom out.old at (zone_text (zone_of (λ byte. byte) zone.now)) }
    ensures { Prints out.old out.new at result (zone_text (zone_of (λ byte. byte) zone.now)) }
{
    match zone {
        TimeZoneRecord::Name(name) => put_each(out, at, name),
        TimeZoneRecord::Offset(offset) => put_minute_offset(out, at, *offset),
    }
}

/// Writes the zone in its bracket at index `at`, if there is one. Returns the index after it.
#[inline(always)]
#[tactic(auto, using(crate::proofs::code::PutBytes::putting))]
fn put_bracket(out: &mut [u8], at: usize, note: &Option<TimeZoneAnnotation<'_, Utf8>>) -> usize
    requires { HasRoom out.old at (bracket_text (option_map (note_of (λ byte. byte)) note.now)) }
    ensures { Prints out.old out.new at result
        (bracket_text (option_map (note_of (λ byte. byte)) note.now)) }
{
    match note {
        None => at,
        Some(note) => {
            let inside = put_opening(out, at, note.critical);
            let end = put_zone(out, inside, &note.tz);
            put_byte(out, end, b']')
        }
    }
}

/// Writes the calendar in its bracket at index `at`, if there is one. Returns the index after it.
#[inline(always)]
fn put_calendar(out: &mut [u8], at: usize, calendar: Option<&[u8]>) -> usize
    requires { HasRoom out.old at
        (calendar_text (option_map (λ units. map (λ byte. byte) units.now) calendar)) }
    ensures { Prints out.old out.new at result
        (calendar_text (option_map (λ units. map (λ byte. byte) units.now) calendar.entry)) }
{
    match calendar {
        None => at,
        Some(value) => {
            let inside = put(out, at, b"[u-ca=");
            let end = put_each(out, inside, value);
            put_byte(out, end, b']')
        }
    }
}

/// Writes the zone and the calendar, in their brackets, at index `at`. Returns the index after them.
#[inline(always)]
#[tactic(auto, using(crate::proofs::code::PutBytes::putting))]
pub fn put_brackets(out: &mut [u8], at: usize, parsed: &IxdtfParseRecord<'_, Utf8>) -> usize
    requires { HasRoom out.old at (brackets_text (record_of parsed.now)) }
    ensures { Prints out.old out.new at result (brackets_text (record_of parsed.now)) }
{
    let after_bracket = put_bracket(out, at, &parsed.tz);
    put_calendar(out, after_bracket, parsed.calendar)
}

/// Writes the date, the time and the offset at index `at`. Returns the index after them.
#[tactic(auto, using(crate::proofs::code::PutBytes::putting), unfolding(crate::specs::Canonical::core_text))]
pub fn put_core(out: &mut [u8], at: usize, parsed: &IxdtfParseRecord<'_, Utf8>) -> usize
    requires { HasRoom out.old at (core_text (record_of parsed.now)) }
    ensures { Prints out.old out.new at result (core_text (record_of parsed.now)) }
{
    let after_date = put_optional_date(out, at, parsed.date);
    let after_time = put_time(out, after_date, parsed.time);
    put_offset(out, after_time, parsed.offset)
}
