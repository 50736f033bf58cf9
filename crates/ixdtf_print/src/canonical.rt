//! Date-times printed as their canonical texts.
ghost use Rattle.std.specs.Prelude.{◌≡◌, ◌↔◌, ◌<◌, ◌≤◌, ◌^◌, length, map, take, drop, IfOk, IfSome, OnErr, OnOk, OnSome, Err, None};
ghost use Rattle.ixdtf.specs.Widths.{wide_text};
ghost use Rattle.ixdtf.specs.language.Letters.{byte_letter};
ghost use Rattle.ixdtf_print.specs.Canonical.{canonical_text};
ghost use Rattle.ixdtf_print.specs.Printable.{IsPrintable, IsReadBack, record_of};
ghost use Rattle.ixdtf_print.specs.Printing.{PrintsOrRefuses};
ghost use Rattle.ixdtf_print.specs.Shown.{shown_text};

use crate::check::is_spelled;
use crate::error::PrintError;
use crate::fields::put_core;
use crate::length::{core_length, has_plenty};
use crate::text::{self, CanonicalText, Tail, length_of_parts};
use crate::wide_names::{self, print_bracketed, without_names};
use ixdtf::encoding::{Utf8, Utf16};
use ixdtf::records::IxdtfParseRecord;
use std::fmt;

/// Writes the canonical text of the record, such as `2024-03-02T08:48:00Z`, to the beginning of the slice.
///
/// The canonical text has these parts, if the record has them:
///
/// - the date;
/// - the time, with its seconds;
/// - the offset, with seconds only if the record has them;
/// - the zone, with its `!` if it is critical;
/// - the calendar.
///
/// Some parts of a parsed text are not in the record, and so not in the canonical text: the `!` of a calendar, and all
/// annotations except the one that gives the record its calendar. Digits of a fraction after the first 18 are written as
/// zeros.
///
/// A record of `parse_year_month` has the first day of the month, so this function writes `2020-11-01` for `2020-11`. A
/// record of `parse_month_day` has the year 0, so this function writes `0000-11-07` for `11-07`. If the day of such a
/// record is 00, this function refuses the record. A record of `parse_time` has no date, so this function refuses it.
/// To print these records in their own forms, call [`print_year_month`](crate::print_year_month),
/// [`print_month_day`](crate::print_month_day) and [`print_time`](crate::print_time).
///
/// Returns the number of bytes that were written.
///
/// # Examples
///
/// ```rust
/// use ixdtf::parsers::IxdtfParser;
/// use ixdtf_print::{PrintError, print};
///
/// let record = IxdtfParser::from_str("20240302 084800z[!u-ca=hebrew][a=b]").parse().unwrap();
/// let mut out = [0; 64];
/// let count = print(&record, &mut out).unwrap();
/// assert_eq!(&out[..count], b"2024-03-02T08:48:00Z[u-ca=hebrew]");
/// assert_eq!(print(&record, &mut [0; 8]), Err(PrintError::TooShort));
///
/// let record = IxdtfParser::from_str("2020-11").parse_year_month().unwrap();
/// let count = print(&record, &mut out).unwrap();
/// assert_eq!(&out[..count], b"2020-11-01");
/// let record = IxdtfParser::from_str("11-07").parse_month_day().unwrap();
/// let count = print(&record, &mut out).unwrap();
/// assert_eq!(&out[..count], b"0000-11-07");
/// let record = IxdtfParser::from_str("T12:00").parse_time().unwrap();
/// assert_eq!(print(&record, &mut out), Err(PrintError::NotPrintable));
/// ```
///
/// # Errors
///
/// After an error, the slice is unchanged.
///
/// - [`PrintError::NotPrintable`]: the record has no canonical text as a date-time: it has no date, it has an offset
///   without a time, or it has a value that `parse` never returns, such as the month 13 or February 30.
/// - [`PrintError::TooShort`]: the slice is shorter than the canonical text.
pub fn print(parsed: &IxdtfParseRecord<'_, Utf8>, out: &mut [u8]) -> Result<usize, PrintError>
    ensures count { IfOk result
        (λ n. n ≡ length (canonical_text (record_of parsed.now))) }
    ensures fits { IfOk result (λ n. n ≤ length out.new) }
    ensures text { IfOk result
        (λ n. map byte_letter (take n out.new) ≡ canonical_text (record_of parsed.now)) }
    ensures read_back { OnOk result (IsReadBack (record_of parsed.now)) }
    ensures rest { IfOk result (λ n. drop n out.new ≡ drop n out.old) }
    ensures not_printable { (result ≡ Err PrintError.NotPrintable) ↔
        ¬ (IsPrintable (record_of parsed.now)) }
    ensures too_short { (result ≡ Err PrintError.TooShort) ↔
        (IsPrintable (record_of parsed.now) ×
        (length out.old < length (canonical_text (record_of parsed.now)))) }
    ensures unchanged { OnErr result (out.new ≡ out.old) }
{
    text::print(Canonical { parsed }, out)
}

/// Writes the canonical text of the record as 16-bit code units, like [`print`](crate::print).
///
/// The record is one that [`IxdtfParser::parse`](ixdtf::parsers::IxdtfParser::parse) returns for 16-bit text. Each code
/// unit that was written is the number of an ASCII character. To read the code units, make a parser with `from_utf16`.
/// The number of code units is the number of bytes that `print` writes for the same fields.
///
/// # Examples
///
/// ```rust
/// use ixdtf::parsers::IxdtfParser;
/// use ixdtf_print::{PrintError, print_utf16};
///
/// let text = "20240302 084800z[!Europe/Paris][!u-ca=hebrew][a=b]";
/// let text: Vec<u16> = text.encode_utf16().collect();
/// let record = IxdtfParser::from_utf16(&text).parse().unwrap();
/// let mut out = [0; 64];
/// let count = print_utf16(&record, &mut out).unwrap();
/// let printed = String::from_utf16(&out[..count]).unwrap();
/// assert_eq!(printed, "2024-03-02T08:48:00Z[!Europe/Paris][u-ca=hebrew]");
/// assert_eq!(print_utf16(&record, &mut [0; 8]), Err(PrintError::TooShort));
/// ```
///
/// # Errors
///
/// After an error, the slice is unchanged.
///
/// - [`PrintError::NotPrintable`]: the record has no canonical text as a date-time: it has no date, it has an offset
///   without a time, or it has a value that `parse` never returns for 16-bit text, such as a name with a code unit that
///   is not ASCII.
/// - [`PrintError::TooShort`]: the slice is shorter than the canonical text.
#[inline]
pub fn print_utf16(
    parsed: &IxdtfParseRecord<'_, Utf16>,
    out: &mut [u16],
) -> Result<usize, PrintError>
    ensures prints { PrintsOrRefuses (IsPrintable (record_of parsed.now)) (canonical_text (record_of parsed.now)) out.old out.new result }
    ensures wide { IfOk result (λ n. wide_text (take n out.new) ≡ canonical_text (record_of parsed.now)) }
    ensures read_back { OnOk result (IsReadBack (record_of parsed.now)) }
{
    let core = without_names(parsed);
    print_bracketed(Canonical { parsed: &core }, parsed, out)
}

/// Writes the canonical text of the record to the beginning of a slice that is long enough, like [`print`]. Returns the
/// number of bytes.
///
/// The function tests neither the record nor the length of the slice. A caller can use it for a record that `parse` has
/// just returned. The canonical text of such a record has at most 14 bytes more than the text that was parsed. So a
/// slice that is 14 bytes longer than the parsed text is long enough.
// Only other crates of this repository use this item. It is not part of the public interface.
#[doc(hidden)]
pub fn print_with_room(parsed: &IxdtfParseRecord<'_, Utf8>, room: &mut [u8]) -> usize
    requires { length (canonical_text (record_of parsed.now)) ≤ length room.old }
    ensures count { result ≡ length (canonical_text (record_of parsed.now)) }
    ensures text { map byte_letter (take result room.new) ≡ canonical_text (record_of parsed.now) }
    ensures rest { drop result room.new ≡ drop result room.old }
{
    text::put_in_room(Canonical { parsed }, room)
}

/// Returns the number of bytes of the canonical text of the record.
///
/// A slice of this length is long enough for [`print`](crate::print). Returns `None` if the record has no canonical
/// text, or if a `usize` cannot hold its length.
///
/// # Examples
///
/// ```rust
/// use ixdtf::parsers::IxdtfParser;
/// use ixdtf_print::{print, printed_length};
///
/// let record = IxdtfParser::from_str("20240302 084800z[u-ca=hebrew]").parse().unwrap();
/// let length = printed_length(&record).unwrap();
/// let mut out = vec![0; length];
/// assert_eq!(print(&record, &mut out), Ok(length));
/// ```
pub fn printed_length(parsed: &IxdtfParseRecord<'_, Utf8>) -> Option<usize>
    ensures length { IfSome result
        (λ n. n ≡ length (canonical_text (record_of parsed.now))) }
    ensures printable { OnSome result (IsPrintable (record_of parsed.now)) }
    ensures none { (result ≡ None) ↔ ¬ (IsPrintable (record_of parsed.now) ×
        (length (canonical_text (record_of parsed.now)) < 2 ^ 64)) }
{
    text::printed_length(Canonical { parsed })
}

/// Returns the number of code units of the canonical text of a record that was read from 16-bit text.
///
/// A slice of this length is long enough for [`print_utf16`](crate::print_utf16). Returns `None` if the record has no
/// canonical text, or if a `usize` cannot hold its length.
///
/// # Examples
///
/// ```rust
/// use ixdtf::parsers::IxdtfParser;
/// use ixdtf_print::printed_length_utf16;
///
/// let text: Vec<u16> = "20240302 084800z[u-ca=hebrew]".encode_utf16().collect();
/// let record = IxdtfParser::from_utf16(&text).parse().unwrap();
/// assert_eq!(printed_length_utf16(&record), Some("2024-03-02T08:48:00Z[u-ca=hebrew]".len()));
/// ```
#[inline]
pub fn printed_length_utf16(parsed: &IxdtfParseRecord<'_, Utf16>) -> Option<usize>
    ensures length { IfSome result (λ n. n ≡ length (canonical_text (record_of parsed.now))) }
    ensures printable { OnSome result (IsPrintable (record_of parsed.now)) }
    ensures none { (result ≡ None) ↔ ¬ (IsPrintable (record_of parsed.now) ×
        (length (canonical_text (record_of parsed.now)) < 2 ^ 64)) }
{
    let core = without_names(parsed);
    wide_names::printed_length(Canonical { parsed: &core }, parsed)
}

/// Returns the number of bytes of the canonical text of the record.
// Only other crates of this repository use this item. It is not part of the public interface.
#[doc(hidden)]
pub fn length_of(parsed: &IxdtfParseRecord<'_, Utf8>) -> u128
    ensures { result ≡ length (canonical_text (record_of parsed.now)) }
{
    text::length(Canonical { parsed })
}

/// A value that displays the canonical text of a record, such as `2024-03-02T08:48:00Z`.
///
/// This is the text that [`print`](crate::print) writes into a slice. `Display` does not allocate, and ignores width
/// and fill.
///
/// # Examples
///
/// ```rust
/// use ixdtf::parsers::IxdtfParser;
/// use ixdtf_print::Canonical;
///
/// let record = IxdtfParser::from_str("20240302 084800z[u-ca=hebrew]").parse().unwrap();
/// let canonical = Canonical::of(&record).unwrap();
/// assert_eq!(canonical.to_string(), "2024-03-02T08:48:00Z[u-ca=hebrew]");
/// ```
#[derive(Clone, Copy, Debug)]
pub struct Canonical<'a> {
    pub(crate) parsed: &'a IxdtfParseRecord<'a, Utf8>,
}

impl<'a> Canonical<'a> {
    /// Creates a value that displays the record.
    ///
    /// Returns `None` if the record has no canonical text as a date-time. For example, a record of `parse_time` has no
    /// date, and so no canonical text as a date-time.
    pub fn of(parsed: &'a IxdtfParseRecord<'a, Utf8>) -> Option<Canonical<'a>>
        ensures shows { IfSome result
            (λ canonical. record_of canonical.parsed.now ≡ record_of parsed.now) }
        ensures text { IfSome result
            (λ canonical. map byte_letter (shown_text (record_of canonical.parsed.now))
            ≡ canonical_text (record_of parsed.now)) }
        ensures read_back { OnSome result (IsReadBack (record_of parsed.now)) }
        ensures none { (result ≡ None) ↔ ¬ (IsPrintable (record_of parsed.now)) }
    {
        text::checked(Canonical { parsed })
    }
}

impl<'a> CanonicalText for Canonical<'a> {
    ghost use Rattle.ixdtf_print.specs.Canonical.{core_text};

    ghost text = { λ c. canonical_text (record_of c.parsed.now) };

    ghost core = { λ c. core_text (record_of c.parsed.now) };

    ghost IsPrintable = { λ c. IsPrintable (record_of c.parsed.now) };

    ghost IsReadBack = { λ c. IsReadBack (record_of c.parsed.now) };

    fn is_printable(self) -> bool {
        is_spelled(self.parsed)
    }

    fn core_length(self) -> u16 {
        core_length(self.parsed)
    }

    fn put_core(self, out: &mut [u8]) -> usize {
        put_core(out, 0, self.parsed)
    }

    #[tactic(auto, unfolding(crate::specs::Canonical::canonical_text))]
    fn tail(&self) -> Tail<'_> {
        Tail::Brackets(self.parsed)
    }

    fn is_too_short(self, room: usize) -> bool {
        !has_plenty(self.parsed, room)
            && (room as u128) < length_of_parts(self.core_length(), self.tail())
    }
}

// `Display` ignores width and fill.
impl<'a> fmt::Display for Canonical<'a> {
    ghost use Rattle.std.specs.Prelude.{Some};
    ghost use Rattle.ixdtf_print.specs.Printable.{record_of};
    ghost use Rattle.ixdtf_print.specs.Shown.{shown_text};

    ghost output = { λ c. Some (shown_text (record_of c.parsed.now)) };

    ghost styled_output = { λ c _. Some (shown_text (record_of c.parsed.now)) };

    fn fmt<W: fmt::Write>(&self, f: &mut fmt::Formatter<W>) -> fmt::Result {
        text::write(*self, f)
    }
}
