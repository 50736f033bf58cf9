//! Time zones printed as their canonical texts.
ghost use Rattle.std.specs.Prelude.{◌≡◌, ◌↔◌, [], length, map, IfSome, OnSome, OnOk, None, take, IfOk};
ghost use Rattle.ixdtf.specs.Widths.{wide_text};
ghost use Rattle.ixdtf.specs.language.Letters.{byte_letter};
ghost use Rattle.ixdtf_print.specs.Canonical.{zone_text};
ghost use Rattle.ixdtf_print.specs.Printing.{PrintsOrRefuses};
ghost use Rattle.ixdtf_print.specs.Shown.{bytes_of};
ghost use Rattle.ixdtf_print.specs.Zones.{zone_in, IsPrintableZone, IsZoneReadBack};

use crate::check::is_zone;
use crate::error::PrintError;
use crate::length::length_of_zone;
use crate::text::{self, CanonicalText, Tail};
use crate::wide_names;
use ixdtf::encoding::{Utf8, Utf16};
use ixdtf::records::TimeZoneRecord;
use std::fmt;

/// Writes the canonical text of a time zone, such as `Europe/Paris` or `+05:30`, to the beginning of the slice.
///
/// The zone is a record that [`TimeZoneParser::parse_identifier`](ixdtf::parsers::TimeZoneParser::parse_identifier)
/// returns. A name is written as it is. An offset has a sign, an hour and a minute. The canonical text has no brackets.
///
/// The name that [`TimeZoneParser::parse_iana_identifier`](ixdtf::parsers::TimeZoneParser::parse_iana_identifier) returns
/// is its own canonical text. To print this name, pass it as `TimeZoneRecord::Name(name)`.
///
/// Returns the number of bytes that were written. The canonical text has at most 3 bytes more than the text that was
/// parsed.
///
/// # Examples
///
/// ```rust
/// use ixdtf::parsers::TimeZoneParser;
/// use ixdtf_print::{PrintError, print_zone};
///
/// let mut out = [0; 16];
/// for (text, canonical) in [
///     ("Europe/Paris", "Europe/Paris"),
///     ("-05", "-05:00"),
///     ("+0530", "+05:30"),
/// ] {
///     let zone = TimeZoneParser::from_str(text).parse_identifier().unwrap();
///     let count = print_zone(&zone, &mut out).unwrap();
///     assert_eq!(&out[..count], canonical.as_bytes());
///     assert_eq!(print_zone(&zone, &mut [0; 5]), Err(PrintError::TooShort));
/// }
/// ```
///
/// # Errors
///
/// After an error, the slice is unchanged.
///
/// - [`PrintError::NotPrintable`]: the zone has no canonical text: its name is one that `parse_iana_identifier`
///   refuses, or the hour or the minute of its offset is out of range.
/// - [`PrintError::TooShort`]: the slice is shorter than the canonical text.
pub fn print_zone(zone: &TimeZoneRecord<'_, Utf8>, out: &mut [u8]) -> Result<usize, PrintError>
    ensures prints { PrintsOrRefuses (IsPrintableZone (zone_in zone.now)) (zone_text (zone_in zone.now)) out.old out.new result }
    ensures read_back { OnOk result (IsZoneReadBack (zone_in zone.now)) }
{
    text::print(CanonicalZone { zone }, out)
}

/// Writes the canonical text of a time zone as 16-bit code units, like [`print_zone`](crate::print_zone).
///
/// The zone is a record that [`TimeZoneParser::parse_identifier`](ixdtf::parsers::TimeZoneParser::parse_identifier)
/// returns for 16-bit text. Each code unit is the number of an ASCII character, so
/// [`TimeZoneParser::from_utf16`](ixdtf::parsers::TimeZoneParser::from_utf16) makes a parser that reads the text. The
/// number of code units is the number of bytes that `print_zone` writes for the same zone.
///
/// # Examples
///
/// ```rust
/// use ixdtf::parsers::TimeZoneParser;
/// use ixdtf::records::TimeZoneRecord;
/// use ixdtf_print::{PrintError, print_zone_utf16};
///
/// let mut out = [0; 16];
/// for (text, canonical) in [("Europe/Paris", "Europe/Paris"), ("-05", "-05:00")] {
///     let text: Vec<u16> = text.encode_utf16().collect();
///     let zone = TimeZoneParser::from_utf16(&text).parse_identifier().unwrap();
///     let count = print_zone_utf16(&zone, &mut out).unwrap();
///     assert_eq!(String::from_utf16(&out[..count]).unwrap(), canonical);
///     assert_eq!(print_zone_utf16(&zone, &mut [0; 5]), Err(PrintError::TooShort));
/// }
/// let no_name: Vec<u16> = "Z\u{fc}rich".encode_utf16().collect();
/// let zone = TimeZoneRecord::Name(&no_name);
/// assert_eq!(print_zone_utf16(&zone, &mut out), Err(PrintError::NotPrintable));
/// ```
///
/// # Errors
///
/// After an error, the slice is unchanged.
///
/// - [`PrintError::NotPrintable`]: the zone has no canonical text: its name is one that `parse_iana_identifier`
///   refuses, or the hour or the minute of its offset is out of range.
/// - [`PrintError::TooShort`]: the slice is shorter than the canonical text.
#[inline]
pub fn print_zone_utf16(
    zone: &TimeZoneRecord<'_, Utf16>,
    out: &mut [u16],
) -> Result<usize, PrintError>
    ensures prints { PrintsOrRefuses (IsPrintableZone (zone_in zone.now)) (zone_text (zone_in zone.now)) out.old out.new result }
    ensures wide { IfOk result (λ n. wide_text (take n out.new) ≡ zone_text (zone_in zone.now)) }
    ensures read_back { OnOk result (IsZoneReadBack (zone_in zone.now)) }
{
    wide_names::print_zone(zone, out)
}

/// Returns the number of bytes of the canonical text of a time zone.
///
/// A slice of this length is long enough for [`print_zone`](crate::print_zone). Returns `None` if the zone has no
/// canonical text.
///
/// # Examples
///
/// ```rust
/// use ixdtf::parsers::TimeZoneParser;
/// use ixdtf_print::zone_length;
///
/// let zone = TimeZoneParser::from_str("+0530").parse_identifier().unwrap();
/// assert_eq!(zone_length(&zone), Some("+05:30".len()));
/// ```
pub fn zone_length(zone: &TimeZoneRecord<'_, Utf8>) -> Option<usize>
    ensures length { IfSome result (λ n. n ≡ length (zone_text (zone_in zone.now))) }
    ensures none { (result ≡ None) ↔ ¬ (IsPrintableZone (zone_in zone.now)) }
{
    text::checked(CanonicalZone { zone })?;
    Some(length_of_zone(zone) as usize)
}

/// Returns the number of code units of the canonical text of a time zone that was read from 16-bit text.
///
/// A slice of this length is long enough for [`print_zone_utf16`](crate::print_zone_utf16). Returns `None` if the zone has no
/// canonical text.
///
/// # Examples
///
/// ```rust
/// use ixdtf::parsers::TimeZoneParser;
/// use ixdtf_print::zone_length_utf16;
///
/// let text: Vec<u16> = "+0530".encode_utf16().collect();
/// let zone = TimeZoneParser::from_utf16(&text).parse_identifier().unwrap();
/// assert_eq!(zone_length_utf16(&zone), Some("+05:30".len()));
/// ```
#[inline]
pub fn zone_length_utf16(zone: &TimeZoneRecord<'_, Utf16>) -> Option<usize>
    ensures length { IfSome result (λ n. n ≡ length (zone_text (zone_in zone.now))) }
    ensures none { (result ≡ None) ↔ ¬ (IsPrintableZone (zone_in zone.now)) }
{
    wide_names::zone_length(zone)
}

/// A value that displays the canonical text of a time zone, such as `Europe/Paris` or `+05:30`.
///
/// This is the text that [`print_zone`](crate::print_zone) writes into a slice. `Display` does not allocate, and ignores
/// width and fill.
///
/// # Examples
///
/// ```rust
/// use ixdtf::parsers::TimeZoneParser;
/// use ixdtf_print::CanonicalZone;
///
/// let zone = TimeZoneParser::from_str("+0530").parse_identifier().unwrap();
/// assert_eq!(CanonicalZone::of(&zone).unwrap().to_string(), "+05:30");
/// ```
#[derive(Clone, Copy, Debug)]
pub struct CanonicalZone<'a> {
    pub(crate) zone: &'a TimeZoneRecord<'a, Utf8>,
}

impl<'a> CanonicalZone<'a> {
    /// Creates a value that displays the zone. Returns `None` if the zone has no canonical text.
    pub fn of(zone: &'a TimeZoneRecord<'a, Utf8>) -> Option<CanonicalZone<'a>>
        ensures shows { IfSome result (λ canonical. zone_in canonical.zone.now ≡ zone_in zone.now) }
        ensures text { IfSome result
            (λ canonical. map byte_letter (bytes_of (zone_text (zone_in canonical.zone.now))) ≡ zone_text (zone_in zone.now)) }
        ensures read_back { OnSome result (IsZoneReadBack (zone_in zone.now)) }
        ensures none { (result ≡ None) ↔ ¬ (IsPrintableZone (zone_in zone.now)) }
    {
        text::checked(CanonicalZone { zone })
    }
}

impl<'a> CanonicalText for CanonicalZone<'a> {
    ghost text = { λ c. zone_text (zone_in c.zone.now) };

    ghost core = { λ c. [] };

    ghost IsPrintable = { λ c. IsPrintableZone (zone_in c.zone.now) };

    ghost IsReadBack = { λ c. IsZoneReadBack (zone_in c.zone.now) };

    fn is_printable(self) -> bool {
        is_zone(self.zone)
    }

    fn core_length(self) -> u16 {
        0
    }

    fn put_core(self, _out: &mut [u8]) -> usize {
        0
    }

    fn tail(&self) -> Tail<'_> {
        Tail::Zone(self.zone)
    }
}

// `Display` ignores width and fill.
impl<'a> fmt::Display for CanonicalZone<'a> {
    ghost use Rattle.std.specs.Prelude.{Some};
    ghost use Rattle.ixdtf_print.specs.Canonical.{zone_text};
    ghost use Rattle.ixdtf_print.specs.Shown.{bytes_of};
    ghost use Rattle.ixdtf_print.specs.Zones.{zone_in};

    ghost output = { λ c. Some (bytes_of (zone_text (zone_in c.zone.now))) };

    ghost styled_output = { λ c _. Some (bytes_of (zone_text (zone_in c.zone.now))) };

    fn fmt<W: fmt::Write>(&self, f: &mut fmt::Formatter<W>) -> fmt::Result {
        text::write(*self, f)
    }
}
