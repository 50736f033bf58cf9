//! Adds the results of readers to a digest.
ghost use Rattle.std.specs.Prelude.{◌≤◌};

use crate::digest::Digest;
use ixdtf::encoding::{EncodingType, Utf8, Utf16};
use ixdtf::records::{
    DateRecord, DurationParseRecord, Fraction, IxdtfParseRecord, MinutePrecisionOffset, Sign,
    TimeDurationRecord, TimeRecord, TimeZoneRecord, UtcOffsetRecord, UtcOffsetRecordOrZ,
};
use ixdtf::{LocatedError, ParseError, ParserResult};

/// Adds an error to the digest: the length of its text, and its position. The position is 0 if the error has none.
pub fn add_error(digest: &mut Digest, error: ParseError, at: usize) {
    digest.add(error.to_static_string().len() as u64 + (at as u64 & 0xffff_ffff) * 256);
}

/// Adds 1 to the digest if the text is accepted, and otherwise the error.
pub fn add_verdict(digest: &mut Digest, outcome: &ParserResult<IxdtfParseRecord<'_, Utf8>>) {
    match outcome {
        Ok(_) => digest.add(1),
        Err(error) => add_error(digest, *error, 0),
    }
}

/// Adds 1 to the digest if the text is accepted, and otherwise the error with its position.
pub fn add_located_verdict(
    digest: &mut Digest,
    outcome: &Result<IxdtfParseRecord<'_, Utf8>, LocatedError>,
) {
    match outcome {
        Ok(_) => digest.add(1),
        Err(error) => add_error(digest, error.error, error.at),
    }
}

/// Adds a record of 8-bit text, or the error, to the digest.
pub fn add_record(digest: &mut Digest, outcome: &ParserResult<IxdtfParseRecord<'_, Utf8>>) {
    match outcome {
        Ok(record) => add_found(digest, record),
        Err(error) => add_error(digest, *error, 0),
    }
}

/// Adds a record of 8-bit text to the digest.
pub fn add_found(digest: &mut Digest, record: &IxdtfParseRecord<'_, Utf8>) {
    add_parts(digest, record);
    if let Some(name) = record.calendar {
        add_units(digest, name);
    }
    if let Some(zone) = &record.tz {
        add_zone(digest, &zone.tz);
    }
}

/// Adds a record of 16-bit text, or the error, to the digest.
pub fn add_wide_record(digest: &mut Digest, outcome: &ParserResult<IxdtfParseRecord<'_, Utf16>>) {
    match outcome {
        Ok(record) => {
            add_parts(digest, record);
            if let Some(name) = record.calendar {
                add_wide_units(digest, name);
            }
            if let Some(zone) = &record.tz {
                match &zone.tz {
                    TimeZoneRecord::Name(name) => add_wide_units(digest, name),
                    TimeZoneRecord::Offset(offset) => add_minutes(digest, *offset),
                }
            }
        }
        Err(error) => add_error(digest, *error, 0),
    }
}

/// Adds a zone to the digest.
pub fn add_zone(digest: &mut Digest, zone: &TimeZoneRecord<'_, Utf8>) {
    match zone {
        TimeZoneRecord::Name(name) => add_units(digest, name),
        TimeZoneRecord::Offset(offset) => add_minutes(digest, *offset),
    }
}

/// Adds a name to the digest: its length, and its first and last code units.
pub fn add_units(digest: &mut Digest, units: &[u8]) {
    digest.add(units.len() as u64);
    if let (Some(first), Some(last)) = (units.first(), units.last()) {
        digest.add(u64::from(*first) * 256 + u64::from(*last));
    }
}

fn add_wide_units(digest: &mut Digest, units: &[u16]) {
    digest.add(units.len() as u64);
    if let (Some(first), Some(last)) = (units.first(), units.last()) {
        digest.add(u64::from(*first) * 256 + u64::from(*last));
    }
}

fn add_parts<T: EncodingType>(digest: &mut Digest, record: &IxdtfParseRecord<'_, T>) {
    if let Some(date) = record.date {
        add_date(digest, date);
    }
    if let Some(time) = record.time {
        add_time(digest, time);
    }
    if let Some(offset) = record.offset {
        match offset {
            UtcOffsetRecordOrZ::Z => digest.add(7),
            UtcOffsetRecordOrZ::Offset(offset) => add_offset(digest, offset),
        }
    }
}

fn add_date(digest: &mut Digest, date: DateRecord) {
    let sign = u64::from(date.year < 0);
    let year = u64::from(date.year.unsigned_abs());
    digest.add(sign + year * 131_072 + u64::from(date.month) * 256 + u64::from(date.day));
}

fn add_time(digest: &mut Digest, time: TimeRecord) {
    let minutes = u64::from(time.hour) * 256 + u64::from(time.minute);
    digest.add(minutes * 256 + u64::from(time.second));
    if let Some(fraction) = time.fraction {
        add_fraction(digest, fraction);
    }
}

fn add_fraction(digest: &mut Digest, fraction: Fraction) {
    digest.add(u64::from(fraction.digit_count()));
    digest.add(fraction.leading_value());
}

/// Adds an offset to the digest.
pub fn add_offset(digest: &mut Digest, offset: UtcOffsetRecord) {
    match offset {
        UtcOffsetRecord::MinutePrecision(minutes) => add_minutes(digest, minutes),
        UtcOffsetRecord::FullPrecisionOffset(full) => {
            let fraction = full.fraction;
            digest.add(u64::from(full.second));
            add_minutes(digest, full.minute_precision_offset);
            if let Some(fraction) = fraction {
                add_fraction(digest, fraction);
            }
        }
    }
}

fn add_minutes(digest: &mut Digest, offset: MinutePrecisionOffset) {
    let sign = sign_number(offset.sign);
    digest.add(sign * 65_536 + u64::from(offset.hour) * 256 + u64::from(offset.minute));
}

fn sign_number(sign: Sign) -> u64
    ensures { result ≤ 1 }
{
    match sign {
        Sign::Positive => 0,
        Sign::Negative => 1,
    }
}

/// Adds a duration, or the error, to the digest.
pub fn add_duration(digest: &mut Digest, outcome: &ParserResult<DurationParseRecord>) {
    match outcome {
        Ok(duration) => {
            digest.add(sign_number(duration.sign));
            if let Some(date) = duration.date {
                digest.add(u64::from(date.years));
                digest.add(u64::from(date.months));
                digest.add(u64::from(date.weeks));
                digest.add(date.days);
            }
            if let Some(time) = duration.time {
                add_duration_time(digest, time);
            }
        }
        Err(error) => add_error(digest, *error, 0),
    }
}

fn add_duration_time(digest: &mut Digest, time: TimeDurationRecord) {
    let fraction = match time {
        TimeDurationRecord::Hours { hours, fraction } => {
            digest.add(hours);
            fraction
        }
        TimeDurationRecord::Minutes {
            hours,
            minutes,
            fraction,
        } => {
            digest.add(hours);
            digest.add(minutes);
            fraction
        }
        TimeDurationRecord::Seconds {
            hours,
            minutes,
            seconds,
            fraction,
        } => {
            digest.add(hours);
            digest.add(minutes);
            digest.add(seconds);
            fraction
        }
    };
    if let Some(fraction) = fraction {
        add_fraction(digest, fraction);
    }
}
