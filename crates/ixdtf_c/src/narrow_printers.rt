//! The functions for C that print canonical texts in 8-bit code units. The functions of `wide_printers` print them in 16-bit code
//! units.

ghost use Rattle.std.specs.Prelude.{◌≡◌, ◌≢◌, ◌↔◌, ◌<◌, ◌≤◌, length, map, min, take, drop, IsSomeAnd};
ghost use Rattle.ixdtf.specs.language.Letters.{byte_letter};
ghost use Rattle.ixdtf_c.specs.Lasting.{contents as duration_contents};
ghost use Rattle.ixdtf_c.specs.Narrow.{contents, zone_contents};
ghost use Rattle.ixdtf_c.specs.Printing.{GivesText, text_where};
ghost use Rattle.ixdtf_c.specs.Standing.{duration_by, utc_offset_by, time_zone_by, record_by};
ghost use Rattle.ixdtf_print.specs.Canonical.{canonical_text, zone_text};
ghost use Rattle.ixdtf_print.specs.Durations.{duration_text, IsPrintableDuration, IsDurationReadBack};
ghost use Rattle.ixdtf_print.specs.MonthDays.{month_day_text, IsPrintableMonthDay, IsMonthDayReadBack};
ghost use Rattle.ixdtf_print.specs.Offsets.{utc_offset_text, IsPrintableOffset, IsOffsetReadBack};
ghost use Rattle.ixdtf_print.specs.Printable.{IsPrintable, IsReadBack};
ghost use Rattle.ixdtf_print.specs.Times.{lone_time_text, IsPrintableTime, IsTimeReadBack};
ghost use Rattle.ixdtf_print.specs.YearMonths.{year_month_text, IsPrintableYearMonth, IsYearMonthReadBack};
ghost use Rattle.ixdtf_print.specs.Zones.{IsPrintableZone, IsZoneReadBack};

use crate::duration_struct::Duration;
use crate::narrow::{Record, Zone};
use crate::part_structs::Offset;
use crate::value_texts::{
    AsDateTime, AsMonthDay, AsTime, AsYearMonth, AsZone, length_into, print_into,
};
use ixdtf::encoding::Utf8;

/// Prints a date, or a date and a time, with its offset, its zone and its calendar, such as `2024-03-02T08:48:00Z`.
///
/// Writes the text to the first bytes of `out`, and its length to `count`. Returns 0 if the text is written. Returns 101 if
/// there is no text for which `ixdtf_parse` writes this record. Returns 102 if `out` is too short. Then `count` is the length of
/// the text, or `usize::MAX` if the length is greater.
#[unsafe(no_mangle)]
pub extern "C" fn ixdtf_print(given: &Record<'_>, out: &mut [u8], count: &mut usize) -> u32
    // For each record and each length of `out`, exactly one of these three numbers is returned.
    ensures printed { (result ≡ 0) ↔ IsSomeAnd (record_by (contents given.now)) (λ found.
        IsPrintable found × (length (canonical_text found) ≤ length out.old)) }
    ensures not_printable { (result ≡ 101) ↔
        ¬ (IsSomeAnd (record_by (contents given.now)) IsPrintable) }
    ensures too_short { (result ≡ 102) ↔ IsSomeAnd (record_by (contents given.now)) (λ found.
        IsPrintable found × (length out.old < length (canonical_text found))) }
    // After 0, the first bytes of `out` are the canonical text of the record, and the other bytes are unchanged. `parse` reads
    // the same record from this text.
    ensures count { result ≡ 0 → IsSomeAnd (record_by (contents given.now))
        (λ found. count.new ≡ length (canonical_text found)) }
    ensures fits { result ≡ 0 → count.new ≤ length out.new }
    ensures text { result ≡ 0 → IsSomeAnd (record_by (contents given.now))
        (λ found. map byte_letter (take count.new out.new) ≡ canonical_text found) }
    ensures read_back { result ≡ 0 → IsSomeAnd (record_by (contents given.now)) IsReadBack }
    ensures rest { result ≡ 0 → drop count.new out.new ≡ drop count.new out.old }
    // After 101 or 102, `out` is unchanged. After 101, `count` is unchanged too. After 102, `count` is the length of the text,
    // or the greatest `usize` if the length is greater.
    ensures unchanged { result ≢ 0 → out.new ≡ out.old }
    ensures uncounted { result ≡ 101 → count.new ≡ count.old }
    ensures needed { result ≡ 102 → IsSomeAnd (record_by (contents given.now))
        (λ found. count.new ≡ min (length (canonical_text found)) usize.MAX) }
{
    print_into::<Utf8, _>(&AsDateTime { record: given }, out, count)
}

/// Prints a duration, such as `P1Y2DT3H`.
///
/// Writes the text to the first bytes of `out`, and its length to `count`. Returns 0 if the text is written. Returns 101 if
/// there is no text for which `ixdtf_parse_duration` writes this duration. Returns 102 if `out` is too short. Then `count` is
/// the length of the text.
#[unsafe(no_mangle)]
pub extern "C" fn ixdtf_print_duration(
    given: &Duration<'_>,
    out: &mut [u8],
    count: &mut usize,
) -> u32
    ensures prints { GivesText byte_letter (IsSomeAnd (duration_by (duration_contents given.now)) IsPrintableDuration)
        (text_where duration_text (duration_by (duration_contents given.now))) out.old out.new count.old count.new result }
    ensures read_back { result ≡ 0 → IsSomeAnd (duration_by (duration_contents given.now)) IsDurationReadBack }
{
    print_into::<Utf8, _>(given, out, count)
}

/// Returns the length, in bytes, of the canonical text of a duration.
///
/// Returns 0 if the duration cannot be printed.
#[unsafe(no_mangle)]
pub extern "C" fn ixdtf_printed_duration_length(given: &Duration<'_>) -> usize
    ensures length { IsSomeAnd (duration_by (duration_contents given.now)) IsPrintableDuration →
        result ≡ length (text_where duration_text (duration_by (duration_contents given.now))) }
    ensures none { ¬ (IsSomeAnd (duration_by (duration_contents given.now)) IsPrintableDuration) → result ≡ 0 }
{
    length_into::<Utf8, _>(given)
}

/// Prints an offset, such as `-05:00`.
///
/// Writes the text to the first bytes of `out`, and its length to `count`. Returns 0 if the text is written. Returns 101 if
/// there is no text for which `ixdtf_parse_offset` writes this offset. Returns 102 if `out` is too short. Then `count` is the
/// length of the text.
#[unsafe(no_mangle)]
pub extern "C" fn ixdtf_print_offset(given: &Offset, out: &mut [u8], count: &mut usize) -> u32
    ensures prints { GivesText byte_letter (IsSomeAnd (utc_offset_by given.now) IsPrintableOffset)
        (text_where utc_offset_text (utc_offset_by given.now)) out.old out.new count.old count.new result }
    ensures read_back { result ≡ 0 → IsSomeAnd (utc_offset_by given.now) IsOffsetReadBack }
{
    print_into::<Utf8, _>(given, out, count)
}

/// Returns the length, in bytes, of the canonical text of an offset.
///
/// Returns 0 if the offset cannot be printed. No offset has a text that is longer than `usize::MAX`.
#[unsafe(no_mangle)]
pub extern "C" fn ixdtf_printed_offset_length(given: &Offset) -> usize
    ensures length { IsSomeAnd (utc_offset_by given.now) IsPrintableOffset →
        length (text_where utc_offset_text (utc_offset_by given.now)) ≤ usize.MAX →
        result ≡ length (text_where utc_offset_text (utc_offset_by given.now)) }
    ensures none { ¬ (IsSomeAnd (utc_offset_by given.now) IsPrintableOffset ×
        (length (text_where utc_offset_text (utc_offset_by given.now)) ≤ usize.MAX)) → result ≡ 0 }
{
    length_into::<Utf8, _>(given)
}

/// Prints a time zone without brackets, such as `Europe/Berlin`.
///
/// Writes the text to the first bytes of `out`, and its length to `count`. Returns 0 if the text is written. Returns 101 if
/// there is no text for which `ixdtf_parse_identifier` writes this name or this offset. Returns 102 if `out` is too short. Then
/// `count` is the length of the text. `is_critical` does not matter.
#[unsafe(no_mangle)]
pub extern "C" fn ixdtf_print_zone(given: &Zone<'_>, out: &mut [u8], count: &mut usize) -> u32
    ensures prints { GivesText byte_letter (IsSomeAnd (time_zone_by (zone_contents given.now)) IsPrintableZone)
        (text_where zone_text (time_zone_by (zone_contents given.now))) out.old out.new count.old count.new result }
    ensures read_back { result ≡ 0 → IsSomeAnd (time_zone_by (zone_contents given.now)) IsZoneReadBack }
{
    print_into::<Utf8, _>(&AsZone { zone: given }, out, count)
}

/// Returns the length, in bytes, of the canonical text of a time zone without brackets.
///
/// Returns 0 if the zone cannot be printed. No zone has a text that is longer than `usize::MAX`.
#[unsafe(no_mangle)]
pub extern "C" fn ixdtf_printed_zone_length(given: &Zone<'_>) -> usize
    ensures length { IsSomeAnd (time_zone_by (zone_contents given.now)) IsPrintableZone →
        length (text_where zone_text (time_zone_by (zone_contents given.now))) ≤ usize.MAX →
        result ≡ length (text_where zone_text (time_zone_by (zone_contents given.now))) }
    ensures none { ¬ (IsSomeAnd (time_zone_by (zone_contents given.now)) IsPrintableZone ×
        (length (text_where zone_text (time_zone_by (zone_contents given.now))) ≤ usize.MAX)) → result ≡ 0 }
{
    length_into::<Utf8, _>(&AsZone { zone: given })
}

/// Prints a time with its offset, its zone and its calendar, such as `08:48:00Z[u-ca=hebrew]`.
///
/// Writes the text to the first bytes of `out`, and its length to `count`. Returns 0 if the text is written. Returns 101 if
/// there is no text for which `ixdtf_parse_time` writes this record. Returns 102 if `out` is too short. Then `count` is the
/// length of the text, or `usize::MAX` if the length is greater.
#[unsafe(no_mangle)]
pub extern "C" fn ixdtf_print_time(given: &Record<'_>, out: &mut [u8], count: &mut usize) -> u32
    ensures prints { GivesText byte_letter (IsSomeAnd (record_by (contents given.now)) IsPrintableTime)
        (text_where lone_time_text (record_by (contents given.now))) out.old out.new count.old count.new result }
    ensures read_back { result ≡ 0 → IsSomeAnd (record_by (contents given.now)) IsTimeReadBack }
{
    print_into::<Utf8, _>(&AsTime { record: given }, out, count)
}

/// Returns the length, in bytes, of the canonical text of a time with its offset, its zone and its calendar.
///
/// Returns 0 if the record cannot be printed, or if the length is greater than `usize::MAX`.
#[unsafe(no_mangle)]
pub extern "C" fn ixdtf_printed_time_length(given: &Record<'_>) -> usize
    ensures length { IsSomeAnd (record_by (contents given.now)) IsPrintableTime →
        length (text_where lone_time_text (record_by (contents given.now))) ≤ usize.MAX →
        result ≡ length (text_where lone_time_text (record_by (contents given.now))) }
    ensures none { ¬ (IsSomeAnd (record_by (contents given.now)) IsPrintableTime ×
        (length (text_where lone_time_text (record_by (contents given.now))) ≤ usize.MAX)) → result ≡ 0 }
{
    length_into::<Utf8, _>(&AsTime { record: given })
}

/// Prints a year and a month with their zone and their calendar, such as `2024-03[Europe/Berlin]`.
///
/// Writes the text to the first bytes of `out`, and its length to `count`. Returns 0 if the text is written. Returns 101 if
/// there is no text for which `ixdtf_parse_year_month` writes this record. Returns 102 if `out` is too short. Then `count` is
/// the length of the text, or `usize::MAX` if the length is greater.
#[unsafe(no_mangle)]
pub extern "C" fn ixdtf_print_year_month(
    given: &Record<'_>,
    out: &mut [u8],
    count: &mut usize,
) -> u32
    ensures prints { GivesText byte_letter (IsSomeAnd (record_by (contents given.now)) IsPrintableYearMonth)
        (text_where year_month_text (record_by (contents given.now))) out.old out.new count.old count.new result }
    ensures read_back { result ≡ 0 → IsSomeAnd (record_by (contents given.now)) IsYearMonthReadBack }
{
    print_into::<Utf8, _>(&AsYearMonth { record: given }, out, count)
}

/// Returns the length, in bytes, of the canonical text of a year and a month with their zone and their calendar.
///
/// Returns 0 if the record cannot be printed, or if the length is greater than `usize::MAX`.
#[unsafe(no_mangle)]
pub extern "C" fn ixdtf_printed_year_month_length(given: &Record<'_>) -> usize
    ensures length { IsSomeAnd (record_by (contents given.now)) IsPrintableYearMonth →
        length (text_where year_month_text (record_by (contents given.now))) ≤ usize.MAX →
        result ≡ length (text_where year_month_text (record_by (contents given.now))) }
    ensures none { ¬ (IsSomeAnd (record_by (contents given.now)) IsPrintableYearMonth ×
        (length (text_where year_month_text (record_by (contents given.now))) ≤ usize.MAX)) → result ≡ 0 }
{
    length_into::<Utf8, _>(&AsYearMonth { record: given })
}

/// Prints a month and a day with their zone and their calendar, such as `03-02[u-ca=iso8601]`.
///
/// Writes the text to the first bytes of `out`, and its length to `count`. Returns 0 if the text is written. Returns 101 if
/// there is no text for which `ixdtf_parse_month_day` writes this record. Returns 102 if `out` is too short. Then `count` is the
/// length of the text, or `usize::MAX` if the length is greater.
#[unsafe(no_mangle)]
pub extern "C" fn ixdtf_print_month_day(
    given: &Record<'_>,
    out: &mut [u8],
    count: &mut usize,
) -> u32
    ensures prints { GivesText byte_letter (IsSomeAnd (record_by (contents given.now)) IsPrintableMonthDay)
        (text_where month_day_text (record_by (contents given.now))) out.old out.new count.old count.new result }
    ensures read_back { result ≡ 0 → IsSomeAnd (record_by (contents given.now)) IsMonthDayReadBack }
{
    print_into::<Utf8, _>(&AsMonthDay { record: given }, out, count)
}

/// Returns the length, in bytes, of the canonical text of a month and a day with their zone and their calendar.
///
/// Returns 0 if the record cannot be printed, or if the length is greater than `usize::MAX`.
#[unsafe(no_mangle)]
pub extern "C" fn ixdtf_printed_month_day_length(given: &Record<'_>) -> usize
    ensures length { IsSomeAnd (record_by (contents given.now)) IsPrintableMonthDay →
        length (text_where month_day_text (record_by (contents given.now))) ≤ usize.MAX →
        result ≡ length (text_where month_day_text (record_by (contents given.now))) }
    ensures none { ¬ (IsSomeAnd (record_by (contents given.now)) IsPrintableMonthDay ×
        (length (text_where month_day_text (record_by (contents given.now))) ≤ usize.MAX)) → result ≡ 0 }
{
    length_into::<Utf8, _>(&AsMonthDay { record: given })
}
