//! The functions that print each kind of value, for 8-bit and for 16-bit text. The functions of the modules `narrow_printers` and
//! `wide_printers` call them.

ghost use Rattle.std.specs.Prelude.{◌≡◌, ◌≤◌, length, None, IfSome, OnOk, IsSomeAnd};
ghost use Rattle.ixdtf.specs.language.Letters.{Text};
ghost use Rattle.ixdtf_c.specs.Lasting.{contents as duration_contents};
ghost use Rattle.ixdtf_c.specs.Printing.{GivesText, PrintsText, text_where};
ghost use Rattle.ixdtf_c.specs.Standing.{duration_by, utc_offset_by, time_zone_by, record_by};
ghost use Rattle.ixdtf_print.specs.Canonical.{canonical_text, zone_text};
ghost use Rattle.ixdtf_print.specs.Durations.{duration_text, IsPrintableDuration, IsDurationReadBack};
ghost use Rattle.ixdtf_print.specs.MonthDays.{month_day_text, IsPrintableMonthDay, IsMonthDayReadBack};
ghost use Rattle.ixdtf_print.specs.Offsets.{utc_offset_text, IsPrintableOffset, IsOffsetReadBack};
ghost use Rattle.ixdtf_print.specs.Printable.{IsPrintable, IsReadBack};
ghost use Rattle.ixdtf_print.specs.Times.{lone_time_text, IsPrintableTime, IsTimeReadBack};
ghost use Rattle.ixdtf_print.specs.YearMonths.{year_month_text, IsPrintableYearMonth, IsYearMonthReadBack};
ghost use Rattle.ixdtf_print.specs.Zones.{IsPrintableZone, IsZoneReadBack};

use crate::duration_conversion::duration_of;
use crate::duration_struct::Duration;
use crate::part_conversion::{time_zone_of, utc_offset_of};
use crate::part_structs::Offset;
use crate::printer_trait::Printers;
use crate::record_conversion::record_of;
use crate::struct_traits::{RecordOf, ZoneOf};
use ixdtf::encoding::EncodingType;
use ixdtf_print::{PrintError, duration_length, offset_length};

/// A value from C that the library can print in the encoding `T`. It is a duration, an offset, a zone or a record. A record can
/// be printed as four kinds of text. For each of these kinds there is a struct that contains the record, such as [`AsTime`].
pub trait HasText<T: EncodingType> {
    /// States that there is a text for which the reader returns this value. The reader is the one for values of this kind.
    ghost printable: { Self → Type 0 };

    /// The canonical text of the value.
    ghost canonical: { Self → Text };

    /// The value of C is converted to a value of the library. States two facts about that value: the reader returns it for
    /// the canonical text, and no other value of this kind has this canonical text.
    ghost reads_back: { Self → Type 0 };

    /// Prints the value, and returns the length of the text in code units.
    fn print(&self, out: &mut [T::CodeUnit]) -> Result<usize, PrintError>
        ensures prints { PrintsText (λ unit. T.letter (T.number unit)) (printable self.now) (canonical self.now) out.old out.new result }
        ensures printable { OnOk result (printable self.now) }
        ensures read_back { OnOk result (reads_back self.now) };

    /// Returns the length of the canonical text in code units.
    ///
    /// Returns `None` if the value cannot be printed, or if the length is greater than `usize::MAX`.
    fn needs(&self) -> Option<usize>
        ensures count { IfSome result (λ n. n ≡ length (canonical self.now)) }
        ensures none { result ≡ None → ¬ (printable self.now × (length (canonical self.now) ≤ usize.MAX)) }
        ensures not_printable { ¬ (printable self.now) → result ≡ None };
}

/// A record that is printed as a date, or as a date and a time. Its offset, its zone and its calendar are printed too, if they
/// are present. `ixdtf_parse` and `ixdtf16_parse` read such texts.
#[derive(Clone, Copy)]
pub struct AsDateTime<'a, R> {
    pub record: &'a R,
}

/// A record that is printed as a time. Its offset, its zone and its calendar are printed too, if they are present.
/// `ixdtf_parse_time` and `ixdtf16_parse_time` read such texts.
#[derive(Clone, Copy)]
pub struct AsTime<'a, R> {
    pub record: &'a R,
}

/// A record that is printed as a year and a month. Its zone and its calendar are printed too, if they are present.
/// `ixdtf_parse_year_month` and `ixdtf16_parse_year_month` read such texts.
#[derive(Clone, Copy)]
pub struct AsYearMonth<'a, R> {
    pub record: &'a R,
}

/// A record that is printed as a month and a day. Its zone and its calendar are printed too, if they are present.
/// `ixdtf_parse_month_day` and `ixdtf16_parse_month_day` read such texts.
#[derive(Clone, Copy)]
pub struct AsMonthDay<'a, R> {
    pub record: &'a R,
}

/// A zone that is printed without its brackets and without its `!`. `ixdtf_parse_identifier` and `ixdtf16_parse_identifier`
/// read such texts.
#[derive(Clone, Copy)]
pub struct AsZone<'a, Z> {
    pub zone: &'a Z,
}

impl<'a, T: Printers> HasText<T> for Duration<'a> {
    ghost printable = { λ given. IsSomeAnd (duration_by (duration_contents given)) IsPrintableDuration };

    ghost canonical = { λ given. text_where duration_text (duration_by (duration_contents given)) };

    ghost reads_back = { λ given. IsSomeAnd (duration_by (duration_contents given)) IsDurationReadBack };

    #[inline(always)]
    fn print(&self, out: &mut [T::CodeUnit]) -> Result<usize, PrintError> {
        match duration_of(self) {
            None => Err(PrintError::NotPrintable),
            Some(found) => T::print_duration(&found, out),
        }
    }

    #[inline(always)]
    fn needs(&self) -> Option<usize> {
        match duration_of(self) {
            None => None,
            Some(found) => duration_length(&found),
        }
    }
}

impl<T: Printers> HasText<T> for Offset {
    ghost printable = { λ given. IsSomeAnd (utc_offset_by given) IsPrintableOffset };

    ghost canonical = { λ given. text_where utc_offset_text (utc_offset_by given) };

    ghost reads_back = { λ given. IsSomeAnd (utc_offset_by given) IsOffsetReadBack };

    #[inline(always)]
    fn print(&self, out: &mut [T::CodeUnit]) -> Result<usize, PrintError> {
        match utc_offset_of(self) {
            None => Err(PrintError::NotPrintable),
            Some(found) => T::print_offset(&found, out),
        }
    }

    #[inline(always)]
    fn needs(&self) -> Option<usize> {
        match utc_offset_of(self) {
            None => None,
            Some(found) => offset_length(&found),
        }
    }
}

impl<'a, T: Printers, Z: ZoneOf<'a, T>> HasText<T> for AsZone<'a, Z>
where
    T::CodeUnit: 'a,
{
    ghost printable = { λ given. IsSomeAnd (time_zone_by (Z.contents given.zone.now)) IsPrintableZone };

    ghost canonical = { λ given. text_where zone_text (time_zone_by (Z.contents given.zone.now)) };

    ghost reads_back = { λ given. IsSomeAnd (time_zone_by (Z.contents given.zone.now)) IsZoneReadBack };

    #[inline(always)]
    fn print(&self, out: &mut [T::CodeUnit]) -> Result<usize, PrintError> {
        match time_zone_of(self.zone) {
            None => Err(PrintError::NotPrintable),
            Some(found) => T::print_zone(&found, out),
        }
    }

    #[inline(always)]
    fn needs(&self) -> Option<usize> {
        match time_zone_of(self.zone) {
            None => None,
            Some(found) => T::zone_length(&found),
        }
    }
}

impl<'a, T: Printers, R: RecordOf<'a, T>> HasText<T> for AsDateTime<'a, R>
where
    T::CodeUnit: 'a,
{
    ghost printable = { λ given. IsSomeAnd (record_by (R.contents given.record.now)) IsPrintable };

    ghost canonical = { λ given. text_where canonical_text (record_by (R.contents given.record.now)) };

    ghost reads_back = { λ given. IsSomeAnd (record_by (R.contents given.record.now)) IsReadBack };

    #[inline(always)]
    fn print(&self, out: &mut [T::CodeUnit]) -> Result<usize, PrintError> {
        match record_of(self.record) {
            None => Err(PrintError::NotPrintable),
            Some(found) => T::print_date_time(&found, out),
        }
    }

    #[inline(always)]
    fn needs(&self) -> Option<usize> {
        match record_of(self.record) {
            None => None,
            Some(found) => T::date_time_length(&found),
        }
    }
}

impl<'a, T: Printers, R: RecordOf<'a, T>> HasText<T> for AsTime<'a, R>
where
    T::CodeUnit: 'a,
{
    ghost printable = { λ given. IsSomeAnd (record_by (R.contents given.record.now)) IsPrintableTime };

    ghost canonical = { λ given. text_where lone_time_text (record_by (R.contents given.record.now)) };

    ghost reads_back = { λ given. IsSomeAnd (record_by (R.contents given.record.now)) IsTimeReadBack };

    #[inline(always)]
    fn print(&self, out: &mut [T::CodeUnit]) -> Result<usize, PrintError> {
        match record_of(self.record) {
            None => Err(PrintError::NotPrintable),
            Some(found) => T::print_time(&found, out),
        }
    }

    #[inline(always)]
    fn needs(&self) -> Option<usize> {
        match record_of(self.record) {
            None => None,
            Some(found) => T::time_length(&found),
        }
    }
}

impl<'a, T: Printers, R: RecordOf<'a, T>> HasText<T> for AsYearMonth<'a, R>
where
    T::CodeUnit: 'a,
{
    ghost printable = { λ given. IsSomeAnd (record_by (R.contents given.record.now)) IsPrintableYearMonth };

    ghost canonical = { λ given. text_where year_month_text (record_by (R.contents given.record.now)) };

    ghost reads_back = { λ given. IsSomeAnd (record_by (R.contents given.record.now)) IsYearMonthReadBack };

    #[inline(always)]
    fn print(&self, out: &mut [T::CodeUnit]) -> Result<usize, PrintError> {
        match record_of(self.record) {
            None => Err(PrintError::NotPrintable),
            Some(found) => T::print_year_month(&found, out),
        }
    }

    #[inline(always)]
    fn needs(&self) -> Option<usize> {
        match record_of(self.record) {
            None => None,
            Some(found) => T::year_month_length(&found),
        }
    }
}

impl<'a, T: Printers, R: RecordOf<'a, T>> HasText<T> for AsMonthDay<'a, R>
where
    T::CodeUnit: 'a,
{
    ghost printable = { λ given. IsSomeAnd (record_by (R.contents given.record.now)) IsPrintableMonthDay };

    ghost canonical = { λ given. text_where month_day_text (record_by (R.contents given.record.now)) };

    ghost reads_back = { λ given. IsSomeAnd (record_by (R.contents given.record.now)) IsMonthDayReadBack };

    #[inline(always)]
    fn print(&self, out: &mut [T::CodeUnit]) -> Result<usize, PrintError> {
        match record_of(self.record) {
            None => Err(PrintError::NotPrintable),
            Some(found) => T::print_month_day(&found, out),
        }
    }

    #[inline(always)]
    fn needs(&self) -> Option<usize> {
        match record_of(self.record) {
            None => None,
            Some(found) => T::month_day_length(&found),
        }
    }
}

/// Prints a value to the first code units of `out`, and writes the length of the text to `count`. Returns 0.
///
/// Returns 101 if the value cannot be printed. Returns 102 if `out` is too short. Then `count` is the length of the text, or
/// `usize::MAX` if the length is greater.
#[inline(always)]
pub fn print_into<T: EncodingType, P: HasText<T>>(
    found: &P,
    out: &mut [T::CodeUnit],
    count: &mut usize,
) -> u32
    ensures prints { GivesText (λ unit. T.letter (T.number unit)) (P.printable found.now) (P.canonical found.now)
        out.old out.new count.old count.new result }
    ensures read_back { result ≡ 0 → P.reads_back found.now }
{
    match found.print(out) {
        Ok(written) => {
            *count = written;
            0
        }
        Err(PrintError::NotPrintable) => 101,
        Err(PrintError::TooShort) => {
            *count = found.needs().unwrap_or(usize::MAX);
            102
        }
    }
}

/// Returns the length of the canonical text in code units.
///
/// Returns 0 if the value cannot be printed, or if the length is greater than `usize::MAX`.
#[inline(always)]
pub fn length_into<T: EncodingType, P: HasText<T>>(found: &P) -> usize
    ensures length { P.printable found.now → length (P.canonical found.now) ≤ usize.MAX → result ≡ length (P.canonical found.now) }
    ensures none { ¬ (P.printable found.now × (length (P.canonical found.now) ≤ usize.MAX)) → result ≡ 0 }
{
    found.needs().unwrap_or(0)
}
