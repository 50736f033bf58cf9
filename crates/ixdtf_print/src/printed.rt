//! An array for the canonical text that a program printed last.
ghost use Rattle.std.specs.Prelude.{◌≡◌, ◌<◌, ◌++◌, ◌∷◌, ℕ, List, [], length, map, take, slice_index};
ghost use Rattle.ixdtf.specs.language.Letters.{byte_letter};
ghost use Rattle.ixdtf_print.specs.Canonical.{canonical_text, zone_text};
ghost use Rattle.ixdtf_print.specs.Durations.{IsPrintableDuration, duration_text};
ghost use Rattle.ixdtf_print.specs.MonthDays.{IsPrintableMonthDay, month_day_text};
ghost use Rattle.ixdtf_print.specs.Offsets.{IsPrintableOffset, utc_offset_text};
ghost use Rattle.ixdtf_print.specs.Printable.{record_of};
ghost use Rattle.ixdtf_print.specs.Printed.{FitsArray};
ghost use Rattle.ixdtf_print.specs.Times.{IsPrintableTime, lone_time_text};
ghost use Rattle.ixdtf_print.specs.YearMonths.{IsPrintableYearMonth, year_month_text};
ghost use Rattle.ixdtf_print.specs.Zones.{IsPrintableZone, zone_in};

use crate::canonical::print_with_room;
use crate::durations::print_duration;
use crate::month_days::print_month_day;
use crate::offsets::print_offset;
use crate::times::print_time;
use crate::year_months::print_year_month;
use crate::zones::print_zone;
use ixdtf::encoding::Utf8;
use ixdtf::records::{DurationParseRecord, IxdtfParseRecord, TimeZoneRecord, UtcOffsetRecord};
use std::marker::Model;

/// A canonical text and a newline after it, in an array of `SIZE` bytes.
///
/// A program uses one such array for all its lines, because to clear an array for each line would take longer than to
/// write the line.
#[derive(Drop)]
pub struct PrintedText<const SIZE: usize> {
    bytes: [u8; SIZE],
    count: usize,
}

impl<const SIZE: usize> Model for PrintedText<SIZE> {
    ghost Value = { List ℕ };

    ghost view = { λ text. take text.count text.bytes };

    // A newline follows the text in the array.
    ghost invariant = { λ text. (text.count < SIZE) × (slice_index text.bytes text.count ≡ 10) };
}

impl<const SIZE: usize> PrintedText<SIZE> {
    /// Creates an empty text, with a newline after it.
    pub fn empty() -> PrintedText<SIZE>
        requires { 0 < SIZE }
        ensures { result ≡ [] }
    {
        let mut bytes = [0; SIZE];
        bytes[0] = b'\n';
        PrintedText { bytes, count: 0 }
    }

    /// Prints the record. Its text replaces the previous text.
    pub fn print(&mut self, parts: &IxdtfParseRecord<'_, Utf8>)
        requires { FitsArray SIZE (record_of parts.now) }
        ensures { map byte_letter self.new ≡ canonical_text (record_of parts.now) }
    {
        let count = print_with_room(parts, &mut self.bytes);
        self.bytes[count] = b'\n';
        self.count = count;
    }

    /// Prints a duration that a reader returned. Its text replaces the previous text.
    pub fn print_duration(&mut self, duration: &DurationParseRecord)
        requires printable { IsPrintableDuration duration.now }
        requires fits { length (duration_text duration.now) < SIZE }
        ensures { map byte_letter self.new ≡ duration_text duration.now }
    {
        if let Ok(count) = print_duration(duration, &mut self.bytes) {
            self.bytes[count] = b'\n';
            self.count = count;
        }
    }

    /// Prints an offset that a reader returned. Its text replaces the previous text.
    pub fn print_offset(&mut self, offset: &UtcOffsetRecord)
        requires printable { IsPrintableOffset offset.now }
        requires fits { length (utc_offset_text offset.now) < SIZE }
        ensures { map byte_letter self.new ≡ utc_offset_text offset.now }
    {
        if let Ok(count) = print_offset(offset, &mut self.bytes) {
            self.bytes[count] = b'\n';
            self.count = count;
        }
    }

    /// Prints a zone that a reader returned. Its text replaces the previous text.
    pub fn print_zone(&mut self, zone: &TimeZoneRecord<'_, Utf8>)
        requires printable { IsPrintableZone (zone_in zone.now) }
        requires fits { length (zone_text (zone_in zone.now)) < SIZE }
        ensures { map byte_letter self.new ≡ zone_text (zone_in zone.now) }
    {
        if let Ok(count) = print_zone(zone, &mut self.bytes) {
            self.bytes[count] = b'\n';
            self.count = count;
        }
    }

    /// Prints a time that a reader returned. Its text replaces the previous text.
    pub fn print_time(&mut self, parts: &IxdtfParseRecord<'_, Utf8>)
        requires printable { IsPrintableTime (record_of parts.now) }
        requires fits { length (lone_time_text (record_of parts.now)) < SIZE }
        ensures { map byte_letter self.new ≡ lone_time_text (record_of parts.now) }
    {
        if let Ok(count) = print_time(parts, &mut self.bytes) {
            self.bytes[count] = b'\n';
            self.count = count;
        }
    }

    /// Prints a record of a year and a month that a reader returned. Its text replaces the previous text.
    pub fn print_year_month(&mut self, parts: &IxdtfParseRecord<'_, Utf8>)
        requires printable { IsPrintableYearMonth (record_of parts.now) }
        requires fits { length (year_month_text (record_of parts.now)) < SIZE }
        ensures { map byte_letter self.new ≡ year_month_text (record_of parts.now) }
    {
        if let Ok(count) = print_year_month(parts, &mut self.bytes) {
            self.bytes[count] = b'\n';
            self.count = count;
        }
    }

    /// Prints a record of a month and a day that a reader returned. Its text replaces the previous text.
    pub fn print_month_day(&mut self, parts: &IxdtfParseRecord<'_, Utf8>)
        requires printable { IsPrintableMonthDay (record_of parts.now) }
        requires fits { length (month_day_text (record_of parts.now)) < SIZE }
        ensures { map byte_letter self.new ≡ month_day_text (record_of parts.now) }
    {
        if let Ok(count) = print_month_day(parts, &mut self.bytes) {
            self.bytes[count] = b'\n';
            self.count = count;
        }
    }

    /// Returns the bytes of the text and the newline after it.
    pub fn as_line(&self) -> &[u8]
        ensures { result.now ≡ self.now ++ 10 ∷ [] }
    {
        &self.bytes[..self.count + 1]
    }
}
