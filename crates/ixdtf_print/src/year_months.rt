//! Years and months printed as their canonical texts.
ghost use Rattle.std.specs.Prelude.{◌≡◌, ◌↔◌, ◌<◌, ◌≤◌, ◌^◌, IsTrue, length, map, IfSome, OnSome, OnOk, None, take, IfOk};
ghost use Rattle.ixdtf.specs.Widths.{wide_text};
ghost use Rattle.ixdtf.specs.language.Letters.{byte_letter};
ghost use Rattle.ixdtf_print.specs.Printable.{record_of};
ghost use Rattle.ixdtf_print.specs.Printing.{PrintsOrRefuses};
ghost use Rattle.ixdtf_print.specs.Prints.{HasRoom, Prints};
ghost use Rattle.ixdtf_print.specs.Shown.{bytes_of};
ghost use Rattle.ixdtf_print.specs.SpelledCores.{IsFirstDay, HasLoneMonth, IsSpelledAs};
ghost use Rattle.ixdtf_print.specs.YearMonths.{month_text, optional_month_text, year_month_text, IsPrintableYearMonth, IsYearMonthReadBack};

use crate::check::has_brackets;
use crate::digits::put_two;
use crate::error::PrintError;
use crate::fields::put_year;
use crate::put::put_byte;
use crate::text::{self, CanonicalText, Tail};
use crate::wide_names::{self, print_bracketed, without_names};
use ixdtf::encoding::{Utf8, Utf16};
use ixdtf::records::{DateRecord, IxdtfParseRecord, TimeRecord, UtcOffsetRecordOrZ};
use std::fmt;

/// Writes the canonical text of a year and a month, such as `2020-11[u-ca=hebrew]`, to the beginning of the slice.
///
/// The record is one that [`IxdtfParser::parse_year_month`](ixdtf::parsers::IxdtfParser::parse_year_month) returns. The
/// canonical text has the year, with four digits or with a sign and six digits, and the month. If the record has a
/// zone or a calendar, they follow the month, as [`print`](crate::print) writes them.
///
/// The record of the date `2020-11-01` is equal to the record of `2020-11`. `print` writes both as `2020-11-01`, and this
/// function writes both as `2020-11`.
///
/// Returns the number of bytes that were written. The canonical text has at most 4 bytes more than the text that was
/// parsed.
///
/// # Examples
///
/// ```rust
/// use ixdtf::parsers::IxdtfParser;
/// use ixdtf_print::{PrintError, print_year_month};
///
/// let mut out = [0; 64];
/// for (text, canonical) in [
///     ("202011", "2020-11"),
///     ("+002020-11[u-ca=hebrew]", "2020-11[u-ca=hebrew]"),
///     ("-00000112[+01]", "-000001-12[+01:00]"),
/// ] {
///     let record = IxdtfParser::from_str(text).parse_year_month().unwrap();
///     let count = print_year_month(&record, &mut out).unwrap();
///     assert_eq!(&out[..count], canonical.as_bytes());
///     assert_eq!(print_year_month(&record, &mut [0; 6]), Err(PrintError::TooShort));
/// }
/// let record = IxdtfParser::from_str("2020-11-08").parse().unwrap();
/// assert_eq!(print_year_month(&record, &mut out), Err(PrintError::NotPrintable));
/// ```
///
/// # Errors
///
/// After an error, the slice is unchanged.
///
/// - [`PrintError::NotPrintable`]: the record has no canonical text: it has no date, its day is not 1, it has a time or
///   an offset, or it has a value that `parse_year_month` never returns, such as the month 13.
/// - [`PrintError::TooShort`]: the slice is shorter than the canonical text.
pub fn print_year_month(
    parsed: &IxdtfParseRecord<'_, Utf8>,
    out: &mut [u8],
) -> Result<usize, PrintError>
    ensures prints { PrintsOrRefuses (IsPrintableYearMonth (record_of parsed.now)) (year_month_text (record_of parsed.now)) out.old out.new result }
    ensures read_back { OnOk result (IsYearMonthReadBack (record_of parsed.now)) }
{
    text::print(CanonicalYearMonth { parsed }, out)
}

/// Writes the canonical text of a year and a month as 16-bit code units, like [`print_year_month`](crate::print_year_month).
///
/// The record is one that [`IxdtfParser::parse_year_month`](ixdtf::parsers::IxdtfParser::parse_year_month) returns for
/// 16-bit text. Each code unit that was written is the number of an ASCII character. To read the code units, make a
/// parser with `from_utf16`. The number of code units is the number of bytes that `print_year_month` writes for the
/// same fields.
///
/// # Examples
///
/// ```rust
/// use ixdtf::parsers::IxdtfParser;
/// use ixdtf_print::{PrintError, print_year_month_utf16};
///
/// let text: Vec<u16> = "-00000112[+01]".encode_utf16().collect();
/// let record = IxdtfParser::from_utf16(&text).parse_year_month().unwrap();
/// let mut out = [0; 64];
/// let count = print_year_month_utf16(&record, &mut out).unwrap();
/// assert_eq!(String::from_utf16(&out[..count]).unwrap(), "-000001-12[+01:00]");
/// assert_eq!(print_year_month_utf16(&record, &mut [0; 6]), Err(PrintError::TooShort));
/// ```
///
/// # Errors
///
/// After an error, the slice is unchanged.
///
/// - [`PrintError::NotPrintable`]: the record has no canonical text: it has no date, its day is not 1, it has a time or
///   an offset, or it has a value that `parse_year_month` never returns for 16-bit text.
/// - [`PrintError::TooShort`]: the slice is shorter than the canonical text.
#[inline]
pub fn print_year_month_utf16(
    parsed: &IxdtfParseRecord<'_, Utf16>,
    out: &mut [u16],
) -> Result<usize, PrintError>
    ensures prints { PrintsOrRefuses (IsPrintableYearMonth (record_of parsed.now)) (year_month_text (record_of parsed.now)) out.old out.new result }
    ensures wide { IfOk result (λ n. wide_text (take n out.new) ≡ year_month_text (record_of parsed.now)) }
    ensures read_back { OnOk result (IsYearMonthReadBack (record_of parsed.now)) }
{
    let core = without_names(parsed);
    print_bracketed(CanonicalYearMonth { parsed: &core }, parsed, out)
}

/// Returns the number of bytes of the canonical text of a year and a month.
///
/// A slice of this length is long enough for [`print_year_month`](crate::print_year_month). Returns `None` if the record has no
/// canonical text, or if a `usize` cannot hold its length.
///
/// # Examples
///
/// ```rust
/// use ixdtf::parsers::IxdtfParser;
/// use ixdtf_print::year_month_length;
///
/// let record = IxdtfParser::from_str("202011[u-ca=hebrew]").parse_year_month().unwrap();
/// assert_eq!(year_month_length(&record), Some("2020-11[u-ca=hebrew]".len()));
/// ```
pub fn year_month_length(parsed: &IxdtfParseRecord<'_, Utf8>) -> Option<usize>
    ensures length { IfSome result (λ n. n ≡ length (year_month_text (record_of parsed.now))) }
    ensures printable { OnSome result (IsPrintableYearMonth (record_of parsed.now)) }
    ensures none { (result ≡ None) ↔ ¬ (IsPrintableYearMonth (record_of parsed.now) ×
        (length (year_month_text (record_of parsed.now)) < 2 ^ 64)) }
{
    text::printed_length(CanonicalYearMonth { parsed })
}

/// Returns the number of code units of the canonical text of a year and a month, for a record that was read from 16-bit
/// text.
///
/// A slice of this length is long enough for [`print_year_month_utf16`](crate::print_year_month_utf16). Returns `None`
/// if the record has no canonical text, or if a `usize` cannot hold its length.
///
/// # Examples
///
/// ```rust
/// use ixdtf::parsers::IxdtfParser;
/// use ixdtf_print::year_month_length_utf16;
///
/// let text: Vec<u16> = "202011[u-ca=hebrew]".encode_utf16().collect();
/// let record = IxdtfParser::from_utf16(&text).parse_year_month().unwrap();
/// assert_eq!(year_month_length_utf16(&record), Some("2020-11[u-ca=hebrew]".len()));
/// ```
#[inline]
pub fn year_month_length_utf16(parsed: &IxdtfParseRecord<'_, Utf16>) -> Option<usize>
    ensures length { IfSome result (λ n. n ≡ length (year_month_text (record_of parsed.now))) }
    ensures printable { OnSome result (IsPrintableYearMonth (record_of parsed.now)) }
    ensures none { (result ≡ None) ↔ ¬ (IsPrintableYearMonth (record_of parsed.now) ×
        (length (year_month_text (record_of parsed.now)) < 2 ^ 64)) }
{
    let core = without_names(parsed);
    wide_names::printed_length(CanonicalYearMonth { parsed: &core }, parsed)
}

/// A value that displays the canonical text of a year and a month, such as `2020-11`.
///
/// This is the text that [`print_year_month`](crate::print_year_month) writes into a slice. `Display` does not allocate, and ignores
/// width and fill.
///
/// # Examples
///
/// ```rust
/// use ixdtf::parsers::IxdtfParser;
/// use ixdtf_print::CanonicalYearMonth;
///
/// let record = IxdtfParser::from_str("202011[u-ca=hebrew]").parse_year_month().unwrap();
/// assert_eq!(CanonicalYearMonth::of(&record).unwrap().to_string(), "2020-11[u-ca=hebrew]");
/// ```
#[derive(Clone, Copy, Debug)]
pub struct CanonicalYearMonth<'a> {
    pub(crate) parsed: &'a IxdtfParseRecord<'a, Utf8>,
}

impl<'a> CanonicalYearMonth<'a> {
    /// Creates a value that displays the record. Returns `None` if the record has no canonical text as a year and a month.
    pub fn of(parsed: &'a IxdtfParseRecord<'a, Utf8>) -> Option<CanonicalYearMonth<'a>>
        ensures shows { IfSome result
            (λ canonical. record_of canonical.parsed.now ≡ record_of parsed.now) }
        ensures text { IfSome result
            (λ canonical. map byte_letter (bytes_of (year_month_text (record_of canonical.parsed.now)))
            ≡ year_month_text (record_of parsed.now)) }
        ensures read_back { OnSome result (IsYearMonthReadBack (record_of parsed.now)) }
        ensures none { (result ≡ None) ↔ ¬ (IsPrintableYearMonth (record_of parsed.now)) }
    {
        text::checked(CanonicalYearMonth { parsed })
    }
}

impl<'a> CanonicalText for CanonicalYearMonth<'a> {
    ghost text = { λ c. year_month_text (record_of c.parsed.now) };

    ghost core = { λ c. optional_month_text c.parsed.now.date };

    ghost IsPrintable = { λ c. IsPrintableYearMonth (record_of c.parsed.now) };

    ghost IsReadBack = { λ c. IsYearMonthReadBack (record_of c.parsed.now) };

    fn is_printable(self) -> bool {
        is_spelled(self.parsed)
    }

    fn core_length(self) -> u16 {
        optional_month_length(self.parsed.date)
    }

    fn put_core(self, out: &mut [u8]) -> usize {
        put_optional_month(out, 0, self.parsed.date)
    }

    #[tactic(auto, unfolding(crate::specs::YearMonths::year_month_text))]
    fn tail(&self) -> Tail<'_> {
        Tail::Brackets(self.parsed)
    }
}

// `Display` ignores width and fill.
impl<'a> fmt::Display for CanonicalYearMonth<'a> {
    ghost use Rattle.std.specs.Prelude.{Some};
    ghost use Rattle.ixdtf_print.specs.Printable.{record_of};
    ghost use Rattle.ixdtf_print.specs.Shown.{bytes_of};
    ghost use Rattle.ixdtf_print.specs.YearMonths.{year_month_text};

    ghost output = { λ c. Some (bytes_of (year_month_text (record_of c.parsed.now))) };

    ghost styled_output = { λ c _. Some (bytes_of (year_month_text (record_of c.parsed.now))) };

    fn fmt<W: fmt::Write>(&self, f: &mut fmt::Formatter<W>) -> fmt::Result {
        text::write(*self, f)
    }
}

/// Returns whether each field has a text, and the record has the fields of a year and a month.
fn is_spelled(parsed: &IxdtfParseRecord<'_, Utf8>) -> bool
    ensures { IsTrue result ↔ IsSpelledAs HasLoneMonth (record_of parsed.now) }
{
    has_lone_month(parsed.date, parsed.time, parsed.offset) && has_brackets(parsed)
}

/// Returns whether the date is the first day of a month, and there is neither a time nor an offset.
fn has_lone_month(
    date: Option<DateRecord>,
    time: Option<TimeRecord>,
    offset: Option<UtcOffsetRecordOrZ>,
) -> bool
    ensures { IsTrue result ↔ HasLoneMonth date time offset }
{
    match (date, time, offset) {
        (None, _, _) => false,
        (Some(date), None, None) => is_first_day(date),
        (Some(_), None, Some(_)) => false,
        (Some(_), Some(_), _) => false,
    }
}

/// Returns whether the date is the first day of a month, in a year with at most six digits.
fn is_first_day(date: DateRecord) -> bool
    ensures { IsTrue result ↔ IsFirstDay date }
{
    date.year.unsigned_abs() <= 999_999 && 1 <= date.month && date.month <= 12 && date.day == 1
}

// ---- Lengths

/// Returns the number of bytes of the year and the month.
#[tactic(auto, using(crate::proofs::code::LoneLengths::lone_lengths))]
fn optional_month_length(date: Option<DateRecord>) -> u16
    ensures length { result ≡ length (optional_month_text date) }
    ensures small { result ≤ 10 }
{
    match date {
        None => 0,
        Some(date) => {
            if 0 <= date.year && date.year <= 9999 {
                7
            } else {
                10
            }
        }
    }
}

// ---- Bytes

/// Writes the year and the month at index `at`, if there is a date. Returns the index after them.
fn put_optional_month(out: &mut [u8], at: usize, date: Option<DateRecord>) -> usize
    requires { HasRoom out.old at (optional_month_text date) }
    ensures { Prints out.old out.new at result (optional_month_text date) }
{
    match date {
        None => at,
        Some(date) => put_month(out, at, date),
    }
}

/// Writes the year and the month at index `at`. Returns the index after them.
#[tactic(auto, using(crate::proofs::code::PutBytes::putting), unfolding(crate::specs::YearMonths::month_text))]
fn put_month(out: &mut [u8], at: usize, date: DateRecord) -> usize
    requires { HasRoom out.old at (month_text date) }
    ensures { Prints out.old out.new at result (month_text date) }
{
    let hyphen = put_year(out, at, date);
    let month = put_byte(out, hyphen, b'-');
    put_two(out, month, date.month)
}
