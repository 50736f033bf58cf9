//! Months and days printed as their canonical texts.
ghost use Rattle.std.specs.Prelude.{◌≡◌, ◌↔◌, ◌<◌, ◌≤◌, ◌^◌, IsTrue, length, map, IfSome, OnSome, OnOk, None, take, IfOk};
ghost use Rattle.ixdtf_grammar.specs.declared.profile.Profile.TheVariants.{Crate};
ghost use Rattle.ixdtf.specs.Widths.{wide_text};
ghost use Rattle.ixdtf.specs.language.Letters.{byte_letter};
ghost use Rattle.ixdtf_print.specs.Printable.{record_of};
ghost use Rattle.ixdtf_print.specs.Printing.{PrintsOrRefuses};
ghost use Rattle.ixdtf_print.specs.Prints.{HasRoom, Prints};
ghost use Rattle.ixdtf_print.specs.Shown.{bytes_of};
ghost use Rattle.ixdtf_print.specs.SpelledCores.{IsDayOfAnyYear, HasLoneDay, IsSpelledAs};
ghost use Rattle.ixdtf_print.specs.MonthDays.{day_text, optional_day_text, month_day_text, IsPrintableMonthDay, IsMonthDayReadBack};

use crate::check::has_brackets;
use crate::digits::put_two;
use crate::error::PrintError;
use crate::put::put_byte;
use crate::text::{self, CanonicalText, Tail};
use crate::wide_names::{self, print_bracketed, without_names};
use ixdtf::encoding::{Utf8, Utf16};
use ixdtf::parsers::days_in_month;
use ixdtf::records::{DateRecord, IxdtfParseRecord, TimeRecord, UtcOffsetRecordOrZ};
use std::fmt;

/// Writes the canonical text of a month and a day, such as `11-07[u-ca=hebrew]`, to the beginning of the slice.
///
/// The record is one that [`IxdtfParser::parse_month_day`](ixdtf::parsers::IxdtfParser::parse_month_day) returns. The
/// canonical text has the month, a hyphen and the day. If the text began with two hyphens, such as `--11-07`, they are
/// not written. If the record has a zone or a calendar, they follow the day, as [`print`](crate::print) writes them.
/// The day can be 00, because `parse_month_day` returns such a record under the default profile.
///
/// The record of the date `0000-11-07` is equal to the record of `11-07`. `print` writes both as `0000-11-07`, and this
/// function writes both as `11-07`.
///
/// Returns the number of bytes that were written. The canonical text has at most 4 bytes more than the text that was
/// parsed.
///
/// # Examples
///
/// ```rust
/// use ixdtf::parsers::IxdtfParser;
/// use ixdtf_print::{PrintError, print_month_day};
///
/// let mut out = [0; 64];
/// for (text, canonical) in [
///     ("--11-07", "11-07"),
///     ("0229[u-ca=hebrew]", "02-29[u-ca=hebrew]"),
///     ("1100[+01]", "11-00[+01:00]"),
/// ] {
///     let record = IxdtfParser::from_str(text).parse_month_day().unwrap();
///     let count = print_month_day(&record, &mut out).unwrap();
///     assert_eq!(&out[..count], canonical.as_bytes());
///     assert_eq!(print_month_day(&record, &mut [0; 4]), Err(PrintError::TooShort));
/// }
/// let record = IxdtfParser::from_str("2020-11-08").parse().unwrap();
/// assert_eq!(print_month_day(&record, &mut out), Err(PrintError::NotPrintable));
/// ```
///
/// # Errors
///
/// After an error, the slice is unchanged.
///
/// - [`PrintError::NotPrintable`]: the record has no canonical text: it has no date, its year is not 0, it has a time
///   or an offset, or it has a value that `parse_month_day` never returns, such as the month 13.
/// - [`PrintError::TooShort`]: the slice is shorter than the canonical text.
pub fn print_month_day(
    parsed: &IxdtfParseRecord<'_, Utf8>,
    out: &mut [u8],
) -> Result<usize, PrintError>
    ensures prints { PrintsOrRefuses (IsPrintableMonthDay (record_of parsed.now)) (month_day_text (record_of parsed.now)) out.old out.new result }
    ensures read_back { OnOk result (IsMonthDayReadBack (record_of parsed.now)) }
{
    text::print(CanonicalMonthDay { parsed }, out)
}

/// Writes the canonical text of a month and a day as 16-bit code units, like [`print_month_day`](crate::print_month_day).
///
/// The record is one that [`IxdtfParser::parse_month_day`](ixdtf::parsers::IxdtfParser::parse_month_day) returns for
/// 16-bit text. Each code unit that was written is the number of an ASCII character. To read the code units, make a
/// parser with `from_utf16`. The number of code units is the number of bytes that `print_month_day` writes for the same
/// fields.
///
/// # Examples
///
/// ```rust
/// use ixdtf::parsers::IxdtfParser;
/// use ixdtf_print::{PrintError, print_month_day_utf16};
///
/// let text: Vec<u16> = "--1107[!Europe/Paris]".encode_utf16().collect();
/// let record = IxdtfParser::from_utf16(&text).parse_month_day().unwrap();
/// let mut out = [0; 64];
/// let count = print_month_day_utf16(&record, &mut out).unwrap();
/// assert_eq!(String::from_utf16(&out[..count]).unwrap(), "11-07[!Europe/Paris]");
/// assert_eq!(print_month_day_utf16(&record, &mut [0; 4]), Err(PrintError::TooShort));
/// ```
///
/// # Errors
///
/// After an error, the slice is unchanged.
///
/// - [`PrintError::NotPrintable`]: the record has no canonical text: it has no date, its year is not 0, it has a time
///   or an offset, or it has a value that `parse_month_day` never returns for 16-bit text.
/// - [`PrintError::TooShort`]: the slice is shorter than the canonical text.
#[inline]
pub fn print_month_day_utf16(
    parsed: &IxdtfParseRecord<'_, Utf16>,
    out: &mut [u16],
) -> Result<usize, PrintError>
    ensures prints { PrintsOrRefuses (IsPrintableMonthDay (record_of parsed.now)) (month_day_text (record_of parsed.now)) out.old out.new result }
    ensures wide { IfOk result (λ n. wide_text (take n out.new) ≡ month_day_text (record_of parsed.now)) }
    ensures read_back { OnOk result (IsMonthDayReadBack (record_of parsed.now)) }
{
    let core = without_names(parsed);
    print_bracketed(CanonicalMonthDay { parsed: &core }, parsed, out)
}

/// Returns the number of bytes of the canonical text of a month and a day.
///
/// A slice of this length is long enough for [`print_month_day`](crate::print_month_day). Returns `None` if the record has no
/// canonical text, or if a `usize` cannot hold its length.
///
/// # Examples
///
/// ```rust
/// use ixdtf::parsers::IxdtfParser;
/// use ixdtf_print::month_day_length;
///
/// let record = IxdtfParser::from_str("--1107[u-ca=hebrew]").parse_month_day().unwrap();
/// assert_eq!(month_day_length(&record), Some("11-07[u-ca=hebrew]".len()));
/// ```
pub fn month_day_length(parsed: &IxdtfParseRecord<'_, Utf8>) -> Option<usize>
    ensures length { IfSome result (λ n. n ≡ length (month_day_text (record_of parsed.now))) }
    ensures printable { OnSome result (IsPrintableMonthDay (record_of parsed.now)) }
    ensures none { (result ≡ None) ↔ ¬ (IsPrintableMonthDay (record_of parsed.now) ×
        (length (month_day_text (record_of parsed.now)) < 2 ^ 64)) }
{
    text::printed_length(CanonicalMonthDay { parsed })
}

/// Returns the number of code units of the canonical text of a month and a day, for a record that was read from 16-bit
/// text.
///
/// A slice of this length is long enough for [`print_month_day_utf16`](crate::print_month_day_utf16). Returns `None` if
/// the record has no canonical text, or if a `usize` cannot hold its length.
///
/// # Examples
///
/// ```rust
/// use ixdtf::parsers::IxdtfParser;
/// use ixdtf_print::month_day_length_utf16;
///
/// let text: Vec<u16> = "--1107[u-ca=hebrew]".encode_utf16().collect();
/// let record = IxdtfParser::from_utf16(&text).parse_month_day().unwrap();
/// assert_eq!(month_day_length_utf16(&record), Some("11-07[u-ca=hebrew]".len()));
/// ```
#[inline]
pub fn month_day_length_utf16(parsed: &IxdtfParseRecord<'_, Utf16>) -> Option<usize>
    ensures length { IfSome result (λ n. n ≡ length (month_day_text (record_of parsed.now))) }
    ensures printable { OnSome result (IsPrintableMonthDay (record_of parsed.now)) }
    ensures none { (result ≡ None) ↔ ¬ (IsPrintableMonthDay (record_of parsed.now) ×
        (length (month_day_text (record_of parsed.now)) < 2 ^ 64)) }
{
    let core = without_names(parsed);
    wide_names::printed_length(CanonicalMonthDay { parsed: &core }, parsed)
}

/// A value that displays the canonical text of a month and a day, such as `11-07`.
///
/// This is the text that [`print_month_day`](crate::print_month_day) writes into a slice. `Display` does not allocate, and ignores
/// width and fill.
///
/// # Examples
///
/// ```rust
/// use ixdtf::parsers::IxdtfParser;
/// use ixdtf_print::CanonicalMonthDay;
///
/// let record = IxdtfParser::from_str("--1107[u-ca=hebrew]").parse_month_day().unwrap();
/// assert_eq!(CanonicalMonthDay::of(&record).unwrap().to_string(), "11-07[u-ca=hebrew]");
/// ```
#[derive(Clone, Copy, Debug)]
pub struct CanonicalMonthDay<'a> {
    pub(crate) parsed: &'a IxdtfParseRecord<'a, Utf8>,
}

impl<'a> CanonicalMonthDay<'a> {
    /// Creates a value that displays the record. Returns `None` if the record has no canonical text as a month and a day.
    pub fn of(parsed: &'a IxdtfParseRecord<'a, Utf8>) -> Option<CanonicalMonthDay<'a>>
        ensures shows { IfSome result
            (λ canonical. record_of canonical.parsed.now ≡ record_of parsed.now) }
        ensures text { IfSome result
            (λ canonical. map byte_letter (bytes_of (month_day_text (record_of canonical.parsed.now)))
            ≡ month_day_text (record_of parsed.now)) }
        ensures read_back { OnSome result (IsMonthDayReadBack (record_of parsed.now)) }
        ensures none { (result ≡ None) ↔ ¬ (IsPrintableMonthDay (record_of parsed.now)) }
    {
        text::checked(CanonicalMonthDay { parsed })
    }
}

impl<'a> CanonicalText for CanonicalMonthDay<'a> {
    ghost text = { λ c. month_day_text (record_of c.parsed.now) };

    ghost core = { λ c. optional_day_text c.parsed.now.date };

    ghost IsPrintable = { λ c. IsPrintableMonthDay (record_of c.parsed.now) };

    ghost IsReadBack = { λ c. IsMonthDayReadBack (record_of c.parsed.now) };

    fn is_printable(self) -> bool {
        is_spelled(self.parsed)
    }

    fn core_length(self) -> u16 {
        optional_day_length(self.parsed.date)
    }

    fn put_core(self, out: &mut [u8]) -> usize {
        put_optional_day(out, 0, self.parsed.date)
    }

    #[tactic(auto, unfolding(crate::specs::MonthDays::month_day_text))]
    fn tail(&self) -> Tail<'_> {
        Tail::Brackets(self.parsed)
    }
}

// `Display` ignores width and fill.
impl<'a> fmt::Display for CanonicalMonthDay<'a> {
    ghost use Rattle.std.specs.Prelude.{Some};
    ghost use Rattle.ixdtf_print.specs.Printable.{record_of};
    ghost use Rattle.ixdtf_print.specs.Shown.{bytes_of};
    ghost use Rattle.ixdtf_print.specs.MonthDays.{month_day_text};

    ghost output = { λ c. Some (bytes_of (month_day_text (record_of c.parsed.now))) };

    ghost styled_output = { λ c _. Some (bytes_of (month_day_text (record_of c.parsed.now))) };

    fn fmt<W: fmt::Write>(&self, f: &mut fmt::Formatter<W>) -> fmt::Result {
        text::write(*self, f)
    }
}

/// Returns whether each field has a text, and the record has the fields of a month and a day.
fn is_spelled(parsed: &IxdtfParseRecord<'_, Utf8>) -> bool
    ensures { IsTrue result ↔ IsSpelledAs (HasLoneDay Crate) (record_of parsed.now) }
{
    has_lone_day(parsed.date, parsed.time, parsed.offset) && has_brackets(parsed)
}

/// Returns whether the date is a day of the year 0, and there is neither a time nor an offset. The day may be 0.
fn has_lone_day(
    date: Option<DateRecord>,
    time: Option<TimeRecord>,
    offset: Option<UtcOffsetRecordOrZ>,
) -> bool
    ensures { IsTrue result ↔ HasLoneDay Crate date time offset }
{
    match (date, time, offset) {
        (None, _, _) => false,
        (Some(date), None, None) => is_day_of_any_year(date),
        (Some(_), None, Some(_)) => false,
        (Some(_), Some(_), _) => false,
    }
}

/// Returns whether the year of the date is 0, its month is 1 to 12, and its day is 0 or a day that this month has in
/// some year.
fn is_day_of_any_year(date: DateRecord) -> bool
    ensures { IsTrue result ↔ IsDayOfAnyYear Crate date }
{
    date.year == 0
        && 1 <= date.month
        && date.month <= 12
        && date.day <= days_in_month(0, date.month)
}

// ---- Lengths

/// Returns the number of bytes of the month and the day.
#[tactic(auto, using(crate::proofs::code::LoneLengths::lone_lengths))]
fn optional_day_length(date: Option<DateRecord>) -> u16
    ensures length { result ≡ length (optional_day_text date) }
    ensures small { result ≤ 5 }
{
    match date {
        None => 0,
        Some(_) => 5,
    }
}

// ---- Bytes

/// Writes the month and the day at index `at`, if there is a date. Returns the index after them.
fn put_optional_day(out: &mut [u8], at: usize, date: Option<DateRecord>) -> usize
    requires { HasRoom out.old at (optional_day_text date) }
    ensures { Prints out.old out.new at result (optional_day_text date) }
{
    match date {
        None => at,
        Some(date) => put_day(out, at, date),
    }
}

/// Writes the month and the day at index `at`. Returns the index after them.
#[tactic(auto, using(crate::proofs::code::PutBytes::putting), unfolding(crate::specs::MonthDays::day_text))]
fn put_day(out: &mut [u8], at: usize, date: DateRecord) -> usize
    requires { HasRoom out.old at (day_text date) }
    ensures { Prints out.old out.new at result (day_text date) }
{
    let hyphen = put_two(out, at, date.month);
    let day = put_byte(out, hyphen, b'-');
    put_two(out, day, date.day)
}
