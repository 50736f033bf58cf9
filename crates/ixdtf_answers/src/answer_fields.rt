//! Functions that add fields to the text of an answer. The fields show the value that a reader returned.
//!
//! Each function that adds bytes writes them to the array at the index `at`, and returns the index after them.
ghost use Rattle.std.specs.Prelude.{◌≡◌, ◌+◌, ◌≤◌, [], ◌∷◌, option_map};
ghost use Rattle.ixdtf.specs.Views.{note_of, zone_of};
ghost use Rattle.ixdtf_buffers.specs.Adding.{Adds};
ghost use Rattle.ixdtf_answers.specs.Fields.{comma, date_field_of, time_field_of, clock_text_of};
ghost use Rattle.ixdtf_answers.specs.Fields.{fraction_text_of, sign_text_of, minute_offset_text_of};
ghost use Rattle.ixdtf_answers.specs.Fields.{full_offset_text_of, offset_text_of, offset_field_of};
ghost use Rattle.ixdtf_answers.specs.Fields.{zone_label_of, sign_field_of};
ghost use Rattle.ixdtf_answers.specs.Fields.{date_duration_field_of, time_numbers_of};
ghost use Rattle.ixdtf_answers.specs.Fields.{last_fraction_of, time_duration_field_of, duration_text_of};
ghost use Rattle.ixdtf_answers.specs.Parts.{zone_front_of, zone_field_front_of};
ghost use Rattle.ixdtf_answers.specs.Fields.{seconds_text_of};
ghost use Rattle.std.specs.Fmt.{decimal, signed_decimal};

use ixdtf::Instant;
use ixdtf::encoding::Utf8;
use ixdtf::records::{
    DateDurationRecord, DateRecord, DurationParseRecord, Fraction, FullPrecisionOffset,
    MinutePrecisionOffset, Sign, TimeDurationRecord, TimeRecord, TimeZoneAnnotation,
    TimeZoneRecord, UtcOffsetRecord, UtcOffsetRecordOrZ,
};
use ixdtf_buffers::adding::{ROOM, add_array, add_byte, add_number, add_signed, add_small};
use ixdtf_print::put_digits;

/// Adds a comma and a number below 256.
fn add_small_behind_comma(room: &mut [u8; ROOM], at: usize, number: u8) -> usize
    requires { at + 4 ≤ ROOM }
    ensures place { result ≤ at + 4 }
    ensures text { Adds room.old room.new at result (comma ∷ decimal number) }
{
    let digits = add_byte(room, at, b',');
    add_small(room, digits, number)
}

/// Adds a comma and a number.
fn add_number_behind_comma(room: &mut [u8; ROOM], at: usize, number: u64) -> usize
    requires { at + 21 ≤ ROOM }
    ensures place { result ≤ at + 21 }
    ensures text { Adds room.old room.new at result (comma ∷ decimal number) }
{
    let digits = add_byte(room, at, b',');
    add_number(room, digits, number)
}

/// Adds the year, month and day, if there is a date.
pub fn add_date_field(room: &mut [u8; ROOM], at: usize, date: Option<DateRecord>) -> usize
    requires { at + 25 ≤ ROOM }
    ensures place { result ≤ at + 25 }
    ensures text { Adds room.old room.new at result (date_field_of date) }
{
    let Some(date) = date else {
        return at;
    };
    let year = add_array(room, at, b" date=");
    let month = add_signed(room, year, date.year);
    let day = add_small_behind_comma(room, month, date.month);
    add_small_behind_comma(room, day, date.day)
}

/// Adds the time and its fraction, if there is a time.
pub fn add_time_field(room: &mut [u8; ROOM], at: usize, time: Option<TimeRecord>) -> usize
    requires { at + 27 ≤ ROOM }
    ensures place { result ≤ at + 27 }
    ensures text { Adds room.old room.new at result (time_field_of time) }
{
    let Some(time) = time else {
        return at;
    };
    let fraction = time.fraction;
    let point = add_clock(room, at, time);
    add_fraction(room, point, fraction)
}

/// Adds the hour, minute and second.
fn add_clock(room: &mut [u8; ROOM], at: usize, time: TimeRecord) -> usize
    requires { at + 17 ≤ ROOM }
    ensures place { result ≤ at + 17 }
    ensures text { Adds room.old room.new at result (clock_text_of time) }
{
    let hour = add_array(room, at, b" time=");
    let minute = add_small(room, hour, time.hour);
    let second = add_small_behind_comma(room, minute, time.minute);
    add_small_behind_comma(room, second, time.second)
}

/// Adds a point and the nanoseconds of the fraction in nine digits, if there is a fraction.
fn add_fraction(room: &mut [u8; ROOM], at: usize, fraction: Option<Fraction>) -> usize
    requires { at + 10 ≤ ROOM }
    ensures place { result ≤ at + 10 }
    ensures text { Adds room.old room.new at result (fraction_text_of fraction) }
{
    match fraction {
        None => at,
        Some(fraction) => {
            let digits = add_byte(room, at, b'.');
            let nanoseconds = u64::from(fraction.to_truncated_nanoseconds());
            put_digits(room, digits, 9, nanoseconds)
        }
    }
}

/// If there is an offset, adds it. The offset is `Z`, or has a sign, hours, minutes, and perhaps seconds and a fraction.
pub fn add_offset_field(
    room: &mut [u8; ROOM],
    at: usize,
    offset: Option<UtcOffsetRecordOrZ>,
) -> usize
    requires { at + 30 ≤ ROOM }
    ensures place { result ≤ at + 30 }
    ensures text { Adds room.old room.new at result (offset_field_of offset) }
{
    match offset {
        None => at,
        Some(UtcOffsetRecordOrZ::Offset(offset)) => add_offset(room, at, offset),
        Some(UtcOffsetRecordOrZ::Z) => add_array(room, at, b" offset=Z"),
    }
}

/// Adds the field of an offset that is not `Z`.
pub fn add_offset(room: &mut [u8; ROOM], at: usize, offset: UtcOffsetRecord) -> usize
    requires { at + 30 ≤ ROOM }
    ensures place { result ≤ at + 30 }
    ensures text { Adds room.old room.new at result (offset_text_of offset) }
{
    let sign = add_array(room, at, b" offset=");
    match offset {
        UtcOffsetRecord::MinutePrecision(offset) => add_minute_offset(room, sign, offset),
        UtcOffsetRecord::FullPrecisionOffset(offset) => add_full_offset(room, sign, offset),
    }
}

/// Adds the sign, hours and minutes.
fn add_minute_offset(room: &mut [u8; ROOM], at: usize, offset: MinutePrecisionOffset) -> usize
    requires { at + 8 ≤ ROOM }
    ensures place { result ≤ at + 8 }
    ensures text { Adds room.old room.new at result (minute_offset_text_of offset) }
{
    let hour = add_byte(room, at, mark_of(offset.sign));
    let minute = add_small(room, hour, offset.hour);
    add_small_behind_comma(room, minute, offset.minute)
}

/// Adds the sign, hours, minutes and seconds, with the fraction.
fn add_full_offset(room: &mut [u8; ROOM], at: usize, offset: FullPrecisionOffset) -> usize
    requires { at + 22 ≤ ROOM }
    ensures place { result ≤ at + 22 }
    ensures text { Adds room.old room.new at result (full_offset_text_of offset) }
{
    let second = offset.second;
    let fraction = offset.fraction;
    let comma = add_minute_offset(room, at, offset.minute_precision_offset);
    let point = add_small_behind_comma(room, comma, second);
    add_fraction(room, point, fraction)
}

/// If the zone has a name, adds the label of its field, such as ` tz=`, but not the name. The caller writes the name. If the zone is
/// an offset, adds the complete field.
pub fn add_zone_field_front(
    room: &mut [u8; ROOM],
    at: usize,
    note: &Option<TimeZoneAnnotation<'_, Utf8>>,
) -> usize
    requires { at + 13 ≤ ROOM }
    ensures place { result ≤ at + 13 }
    ensures text { Adds room.old room.new at result
        (zone_field_front_of (option_map (note_of (λ byte. byte)) note.now)) }
{
    match note {
        None => at,
        Some(note) => add_zone_front(room, at, note.critical, &note.tz),
    }
}

/// If the zone has a name, adds the label of its field, such as ` tz=`, but not the name. The caller writes the name. If the zone is
/// an offset, adds the complete field.
pub fn add_zone_front(
    room: &mut [u8; ROOM],
    at: usize,
    critical: bool,
    zone: &TimeZoneRecord<'_, Utf8>,
) -> usize
    requires { at + 13 ≤ ROOM }
    ensures place { result ≤ at + 13 }
    ensures text { Adds room.old room.new at result
        (zone_front_of critical (zone_of (λ byte. byte) zone.now)) }
{
    let label = add_zone_label(room, at, critical);
    match zone {
        TimeZoneRecord::Name(_) => label,
        TimeZoneRecord::Offset(offset) => add_minute_offset(room, label, *offset),
    }
}

/// Adds the label of the field of a zone, with `!` if the zone is critical.
fn add_zone_label(room: &mut [u8; ROOM], at: usize, critical: bool) -> usize
    requires { at + 5 ≤ ROOM }
    ensures place { result ≤ at + 5 }
    ensures text { Adds room.old room.new at result (zone_label_of critical) }
{
    if critical {
        add_array(room, at, b" tz=!")
    } else {
        add_array(room, at, b" tz=")
    }
}

/// Adds the seconds and the nanoseconds of an instant.
pub fn add_instant(room: &mut [u8; ROOM], at: usize, instant: Instant) -> usize
    requires { at + 63 ≤ ROOM }
    ensures place { result ≤ at + 63 }
    ensures text { Adds room.old room.new at result (seconds_text_of instant.seconds instant.nanoseconds) }
{
    let seconds = add_array(room, at, b" seconds=");
    let label = add_seconds(room, seconds, instant.seconds);
    let nanoseconds = add_array(room, label, b" nanoseconds=");
    add_number(room, nanoseconds, u64::from(instant.nanoseconds))
}

/// Adds a number of seconds, with a `-` if it is below zero.
fn add_seconds(room: &mut [u8; ROOM], at: usize, seconds: i64) -> usize
    requires { at + 21 ≤ ROOM }
    ensures place { result ≤ at + 21 }
    ensures text { Adds room.old room.new at result (signed_decimal seconds) }
{
    let number = seconds.unsigned_abs();
    if seconds < 0 {
        let magnitude = add_byte(room, at, b'-');
        add_number(room, magnitude, number)
    } else {
        add_number(room, at, number)
    }
}

/// Adds the sign of a duration. If the duration has a date part, adds the years, months, weeks and days. If the duration has a time
/// part, adds the hours of this part. A time part can also have minutes, seconds and a fraction. The function adds each of these if
/// the time part has it.
pub fn add_duration(room: &mut [u8; ROOM], at: usize, duration: DurationParseRecord) -> usize
    requires { at + 174 ≤ ROOM }
    ensures place { result ≤ at + 174 }
    ensures text { Adds room.old room.new at result (duration_text_of duration) }
{
    let date = duration.date;
    let time = duration.time;
    let after_sign = add_sign_field(room, at, duration.sign);
    let after_date = add_date_duration_field(room, after_sign, date);
    add_time_duration_field(room, after_date, time)
}

/// Adds the sign of a duration.
fn add_sign_field(room: &mut [u8; ROOM], at: usize, sign: Sign) -> usize
    requires { at + 7 ≤ ROOM }
    ensures place { result ≤ at + 7 }
    ensures text { Adds room.old room.new at result (sign_field_of sign) }
{
    let mark = add_array(room, at, b" sign=");
    add_byte(room, mark, mark_of(sign))
}

/// Adds the years, months, weeks and days of a duration, if it has a date.
fn add_date_duration_field(
    room: &mut [u8; ROOM],
    at: usize,
    date: Option<DateDurationRecord>,
) -> usize
    requires { at + 89 ≤ ROOM }
    ensures place { result ≤ at + 89 }
    ensures text { Adds room.old room.new at result (date_duration_field_of date) }
{
    let Some(date) = date else {
        return at;
    };
    let years = add_array(room, at, b" date=");
    let months = add_number(room, years, u64::from(date.years));
    let weeks = add_number_behind_comma(room, months, u64::from(date.months));
    let days = add_number_behind_comma(room, weeks, u64::from(date.weeks));
    add_number_behind_comma(room, days, date.days)
}

/// Adds the time of a duration, if it has one.
fn add_time_duration_field(
    room: &mut [u8; ROOM],
    at: usize,
    time: Option<TimeDurationRecord>,
) -> usize
    requires { at + 78 ≤ ROOM }
    ensures place { result ≤ at + 78 }
    ensures text { Adds room.old room.new at result (time_duration_field_of time) }
{
    let Some(time) = time else {
        return at;
    };
    let fraction = last_fraction(&time);
    let point = add_time_numbers(room, at, &time);
    add_fraction(room, point, fraction)
}

/// Adds the hours of a duration, and the minutes and seconds that it has.
fn add_time_numbers(room: &mut [u8; ROOM], at: usize, time: &TimeDurationRecord) -> usize
    requires { at + 68 ≤ ROOM }
    ensures place { result ≤ at + 68 }
    ensures text { Adds room.old room.new at result (time_numbers_of time.now) }
{
    let first = add_array(room, at, b" time=");
    match time {
        TimeDurationRecord::Hours { hours, .. } => add_number(room, first, *hours),
        TimeDurationRecord::Minutes { hours, minutes, .. } => {
            let second = add_number(room, first, *hours);
            add_number_behind_comma(room, second, *minutes)
        }
        TimeDurationRecord::Seconds {
            hours,
            minutes,
            seconds,
            ..
        } => {
            let second = add_number(room, first, *hours);
            let third = add_number_behind_comma(room, second, *minutes);
            add_number_behind_comma(room, third, *seconds)
        }
    }
}

/// Returns the fraction of the last number of a duration's time, if it has a fraction.
fn last_fraction(time: &TimeDurationRecord) -> Option<Fraction>
    ensures { result ≡ last_fraction_of time.now }
{
    match time {
        TimeDurationRecord::Hours { fraction, .. } => *fraction,
        TimeDurationRecord::Minutes { fraction, .. } => *fraction,
        TimeDurationRecord::Seconds { fraction, .. } => *fraction,
    }
}

/// Returns the byte `-` or `+` of the sign.
fn mark_of(sign: Sign) -> u8
    ensures { result ∷ [] ≡ sign_text_of sign }
{
    match sign {
        Sign::Negative => b'-',
        Sign::Positive => b'+',
    }
}
