//! The functions for C that print canonical texts in 16-bit code units.

ghost use Rattle.std.specs.Prelude.{◌≡◌, ◌≤◌, length, IsSomeAnd};
ghost use Rattle.ixdtf.specs.language.Letters.{wide_letter};
ghost use Rattle.ixdtf_c.specs.Lasting.{contents as duration_contents};
ghost use Rattle.ixdtf_c.specs.Printing.{GivesText, text_where};
ghost use Rattle.ixdtf_c.specs.Standing.{duration_by, utc_offset_by, time_zone_by, record_by};
ghost use Rattle.ixdtf_c.specs.Wide.{contents, zone_contents};
ghost use Rattle.ixdtf_print.specs.Canonical.{canonical_text, zone_text};
ghost use Rattle.ixdtf_print.specs.Durations.{duration_text, IsPrintableDuration, IsDurationReadBack};
ghost use Rattle.ixdtf_print.specs.MonthDays.{month_day_text, IsPrintableMonthDay, IsMonthDayReadBack};
ghost use Rattle.ixdtf_print.specs.Offsets.{utc_offset_text, IsPrintableOffset, IsOffsetReadBack};
ghost use Rattle.ixdtf_print.specs.Printable.{IsPrintable, IsReadBack};
ghost use Rattle.ixdtf_print.specs.Times.{lone_time_text, IsPrintableTime, IsTimeReadBack};
ghost use Rattle.ixdtf_print.specs.YearMonths.{year_month_text, IsPrintableYearMonth, IsYearMonthReadBack};
ghost use Rattle.ixdtf_print.specs.Zones.{IsPrintableZone, IsZoneReadBack};

use crate::duration_struct::Duration;
use crate::part_structs::Offset;
use crate::value_texts::{
    AsDateTime, AsMonthDay, AsTime, AsYearMonth, AsZone, length_into, print_into,
};
use crate::wide::{Record, Zone};
use ixdtf::encoding::Utf16;

/// Prints a date, or a date and a time, with its offset, its zone and its calendar, in 16-bit code units. An example is
/// `2024-03-02T08:48:00Z`.
///
/// Writes the text to the first code units of `out`, and its length to `count`. Returns 0 if the text is written. Returns 101
/// if there is no text for which `ixdtf16_parse` writes this record. Returns 102 if `out` is too short. Then `count` is the
/// length of the text, or `usize::MAX` if the length is greater.
#[unsafe(no_mangle)]
pub extern "C" fn ixdtf16_print(given: &Record<'_>, out: &mut [u16], count: &mut usize) -> u32
    ensures prints { GivesText wide_letter (IsSomeAnd (record_by (contents given.now)) IsPrintable)
        (text_where canonical_text (record_by (contents given.now))) out.old out.new count.old count.new result }
    ensures read_back { result ≡ 0 → IsSomeAnd (record_by (contents given.now)) IsReadBack }
{
    print_into::<Utf16, _>(&AsDateTime { record: given }, out, count)
}

/// Returns the length, in code units, of the canonical text that `ixdtf16_print` writes.
///
/// Returns 0 if the record cannot be printed, or if the length is greater than `usize::MAX`.
#[unsafe(no_mangle)]
pub extern "C" fn ixdtf16_printed_length(given: &Record<'_>) -> usize
    ensures length { IsSomeAnd (record_by (contents given.now)) IsPrintable →
        length (text_where canonical_text (record_by (contents given.now))) ≤ usize.MAX →
        result ≡ length (text_where canonical_text (record_by (contents given.now))) }
    ensures none { ¬ (IsSomeAnd (record_by (contents given.now)) IsPrintable ×
        (length (text_where canonical_text (record_by (contents given.now))) ≤ usize.MAX)) → result ≡ 0 }
{
    length_into::<Utf16, _>(&AsDateTime { record: given })
}

/// Prints a time with its offset, its zone and its calendar, in 16-bit code units, such as `08:48:00Z[u-ca=hebrew]`.
///
/// Writes the text to the first code units of `out`, and its length to `count`. Returns 0 if the text is written. Returns 101
/// if there is no text for which `ixdtf16_parse_time` writes this record. Returns 102 if `out` is too short. Then `count` is
/// the length of the text, or `usize::MAX` if the length is greater.
#[unsafe(no_mangle)]
pub extern "C" fn ixdtf16_print_time(given: &Record<'_>, out: &mut [u16], count: &mut usize) -> u32
    ensures prints { GivesText wide_letter (IsSomeAnd (record_by (contents given.now)) IsPrintableTime)
        (text_where lone_time_text (record_by (contents given.now))) out.old out.new count.old count.new result }
    ensures read_back { result ≡ 0 → IsSomeAnd (record_by (contents given.now)) IsTimeReadBack }
{
    print_into::<Utf16, _>(&AsTime { record: given }, out, count)
}

/// Returns the length, in code units, of the canonical text that `ixdtf16_print_time` writes.
///
/// Returns 0 if the record cannot be printed, or if the length is greater than `usize::MAX`.
#[unsafe(no_mangle)]
pub extern "C" fn ixdtf16_printed_time_length(given: &Record<'_>) -> usize
    ensures length { IsSomeAnd (record_by (contents given.now)) IsPrintableTime →
        length (text_where lone_time_text (record_by (contents given.now))) ≤ usize.MAX →
        result ≡ length (text_where lone_time_text (record_by (contents given.now))) }
    ensures none { ¬ (IsSomeAnd (record_by (contents given.now)) IsPrintableTime ×
        (length (text_where lone_time_text (record_by (contents given.now))) ≤ usize.MAX)) → result ≡ 0 }
{
    length_into::<Utf16, _>(&AsTime { record: given })
}

/// Prints a year and a month with their zone and their calendar, in 16-bit code units, such as `2024-03[Europe/Berlin]`.
///
/// Writes the text to the first code units of `out`, and its length to `count`. Returns 0 if the text is written. Returns 101
/// if there is no text for which `ixdtf16_parse_year_month` writes this record. Returns 102 if `out` is too short. Then `count`
/// is the length of the text, or `usize::MAX` if the length is greater.
#[unsafe(no_mangle)]
pub extern "C" fn ixdtf16_print_year_month(
    given: &Record<'_>,
    out: &mut [u16],
    count: &mut usize,
) -> u32
    ensures prints { GivesText wide_letter (IsSomeAnd (record_by (contents given.now)) IsPrintableYearMonth)
        (text_where year_month_text (record_by (contents given.now))) out.old out.new count.old count.new result }
    ensures read_back { result ≡ 0 → IsSomeAnd (record_by (contents given.now)) IsYearMonthReadBack }
{
    print_into::<Utf16, _>(&AsYearMonth { record: given }, out, count)
}

/// Returns the length, in code units, of the canonical text that `ixdtf16_print_year_month` writes.
///
/// Returns 0 if the record cannot be printed, or if the length is greater than `usize::MAX`.
#[unsafe(no_mangle)]
pub extern "C" fn ixdtf16_printed_year_month_length(given: &Record<'_>) -> usize
    ensures length { IsSomeAnd (record_by (contents given.now)) IsPrintableYearMonth →
        length (text_where year_month_text (record_by (contents given.now))) ≤ usize.MAX →
        result ≡ length (text_where year_month_text (record_by (contents given.now))) }
    ensures none { ¬ (IsSomeAnd (record_by (contents given.now)) IsPrintableYearMonth ×
        (length (text_where year_month_text (record_by (contents given.now))) ≤ usize.MAX)) → result ≡ 0 }
{
    length_into::<Utf16, _>(&AsYearMonth { record: given })
}

/// Prints a month and a day with their zone and their calendar, in 16-bit code units, such as `03-02[u-ca=iso8601]`.
///
/// Writes the text to the first code units of `out`, and its length to `count`. Returns 0 if the text is written. Returns 101
/// if there is no text for which `ixdtf16_parse_month_day` writes this record. Returns 102 if `out` is too short. Then `count`
/// is the length of the text, or `usize::MAX` if the length is greater.
#[unsafe(no_mangle)]
pub extern "C" fn ixdtf16_print_month_day(
    given: &Record<'_>,
    out: &mut [u16],
    count: &mut usize,
) -> u32
    ensures prints { GivesText wide_letter (IsSomeAnd (record_by (contents given.now)) IsPrintableMonthDay)
        (text_where month_day_text (record_by (contents given.now))) out.old out.new count.old count.new result }
    ensures read_back { result ≡ 0 → IsSomeAnd (record_by (contents given.now)) IsMonthDayReadBack }
{
    print_into::<Utf16, _>(&AsMonthDay { record: given }, out, count)
}

/// Returns the length, in code units, of the canonical text that `ixdtf16_print_month_day` writes.
///
/// Returns 0 if the record cannot be printed, or if the length is greater than `usize::MAX`.
#[unsafe(no_mangle)]
pub extern "C" fn ixdtf16_printed_month_day_length(given: &Record<'_>) -> usize
    ensures length { IsSomeAnd (record_by (contents given.now)) IsPrintableMonthDay →
        length (text_where month_day_text (record_by (contents given.now))) ≤ usize.MAX →
        result ≡ length (text_where month_day_text (record_by (contents given.now))) }
    ensures none { ¬ (IsSomeAnd (record_by (contents given.now)) IsPrintableMonthDay ×
        (length (text_where month_day_text (record_by (contents given.now))) ≤ usize.MAX)) → result ≡ 0 }
{
    length_into::<Utf16, _>(&AsMonthDay { record: given })
}

/// Prints a time zone without brackets in 16-bit code units, such as `Europe/Berlin`.
///
/// Writes the text to the first code units of `out`, and its length to `count`. Returns 0 if the text is written. Returns 101
/// if there is no text for which `ixdtf16_parse_identifier` writes this name or this offset. Returns 102 if `out` is too short.
/// Then `count` is the length of the text. `is_critical` does not matter.
#[unsafe(no_mangle)]
pub extern "C" fn ixdtf16_print_zone(given: &Zone<'_>, out: &mut [u16], count: &mut usize) -> u32
    ensures prints { GivesText wide_letter (IsSomeAnd (time_zone_by (zone_contents given.now)) IsPrintableZone)
        (text_where zone_text (time_zone_by (zone_contents given.now))) out.old out.new count.old count.new result }
    ensures read_back { result ≡ 0 → IsSomeAnd (time_zone_by (zone_contents given.now)) IsZoneReadBack }
{
    print_into::<Utf16, _>(&AsZone { zone: given }, out, count)
}

/// Returns the length, in code units, of the canonical text that `ixdtf16_print_zone` writes.
///
/// Returns 0 if the zone cannot be printed. No zone has a text that is longer than `usize::MAX`.
#[unsafe(no_mangle)]
pub extern "C" fn ixdtf16_printed_zone_length(given: &Zone<'_>) -> usize
    ensures length { IsSomeAnd (time_zone_by (zone_contents given.now)) IsPrintableZone →
        length (text_where zone_text (time_zone_by (zone_contents given.now))) ≤ usize.MAX →
        result ≡ length (text_where zone_text (time_zone_by (zone_contents given.now))) }
    ensures none { ¬ (IsSomeAnd (time_zone_by (zone_contents given.now)) IsPrintableZone ×
        (length (text_where zone_text (time_zone_by (zone_contents given.now))) ≤ usize.MAX)) → result ≡ 0 }
{
    length_into::<Utf16, _>(&AsZone { zone: given })
}

/// Prints a duration in 16-bit code units, such as `P1Y2DT3H`.
///
/// Writes the text to the first code units of `out`, and its length to `count`. Returns 0 if the text is written. Returns 101
/// if there is no text for which `ixdtf16_parse_duration` writes this duration. Returns 102 if `out` is too short. Then `count`
/// is the length of the text.
#[unsafe(no_mangle)]
pub extern "C" fn ixdtf16_print_duration(
    given: &Duration<'_>,
    out: &mut [u16],
    count: &mut usize,
) -> u32
    ensures prints { GivesText wide_letter (IsSomeAnd (duration_by (duration_contents given.now)) IsPrintableDuration)
        (text_where duration_text (duration_by (duration_contents given.now))) out.old out.new count.old count.new result }
    ensures read_back { result ≡ 0 → IsSomeAnd (duration_by (duration_contents given.now)) IsDurationReadBack }
{
    print_into::<Utf16, _>(given, out, count)
}

/// Prints an offset in 16-bit code units, such as `-05:00`.
///
/// Writes the text to the first code units of `out`, and its length to `count`. Returns 0 if the text is written. Returns 101
/// if there is no text for which `ixdtf16_parse_offset` writes this offset. Returns 102 if `out` is too short. Then `count` is
/// the length of the text.
#[unsafe(no_mangle)]
pub extern "C" fn ixdtf16_print_offset(given: &Offset, out: &mut [u16], count: &mut usize) -> u32
    ensures prints { GivesText wide_letter (IsSomeAnd (utc_offset_by given.now) IsPrintableOffset)
        (text_where utc_offset_text (utc_offset_by given.now)) out.old out.new count.old count.new result }
    ensures read_back { result ≡ 0 → IsSomeAnd (utc_offset_by given.now) IsOffsetReadBack }
{
    print_into::<Utf16, _>(given, out, count)
}
