//! Functions for all kinds of canonical texts.
ghost use Rattle.std.specs.Prelude.{◌≡◌, ◌↔◌, ◌+◌, ◌<◌, ◌≤◌, ◌^◌, ◌++◌, IsTrue, length, map, take, drop, None, IfSome, OnSome, OnOk};
ghost use Rattle.std.specs.Fmt.{WritesStyledOnOk};
ghost use Rattle.ixdtf.specs.language.Letters.{Text, Plain};
ghost use Rattle.ixdtf_print.specs.Printing.{TestsText, PrintsOrRefuses};
ghost use Rattle.ixdtf_print.specs.Prints.{HasRoom, Prints};
ghost use Rattle.ixdtf_print.specs.Shown.{bytes_of};
ghost use Rattle.ixdtf_print.specs.Tails.{tail_text};

use crate::error::PrintError;
use crate::fields::{put_brackets, put_zone};
use crate::length::{brackets_length, length_of_zone};
use crate::wide::put_wide;
use crate::written::{front_of, write_brackets, write_bytes, write_zone};
use ixdtf::encoding::Utf8;
use ixdtf::records::{IxdtfParseRecord, TimeZoneRecord};
use std::fmt;

/// The greatest number of bytes of a core. The core of a date-time is the longest one. Its date has at most 13 bytes. Its
/// time and its offset have at most 265 bytes each, because a fraction has at most 255 digits.
const MOST_OF_CORE: usize = 543;

/// The end of a canonical text. A canonical text has two parts: the core, whose length is limited, and the tail. The tail
/// can have names, and a name can have any length.
pub enum Tail<'a> {
    /// There is nothing after the core.
    Nothing,
    /// A zone without brackets. It is the whole canonical text, and the core is empty.
    Zone(&'a TimeZoneRecord<'a, Utf8>),
    /// The zone and the calendar of a record, in their brackets.
    Brackets(&'a IxdtfParseRecord<'a, Utf8>),
}

/// A record of one kind, such as a time or a duration, that can be printed.
///
/// An implementation says what the canonical texts of its kind are. The functions of this module write, count and display
/// these texts.
pub trait CanonicalText: Copy {
    // The canonical text of the record.
    ghost text: { Self → Text };

    // The core: the part of the canonical text before the tail.
    ghost core: { Self → Text };

    // A reader returns this record for some text.
    ghost IsPrintable: { Self → Type 0 };

    // The reader returns this record for its canonical text too.
    ghost IsReadBack: { Self → Type 0 };

    /// Returns whether the record has a canonical text.
    fn is_printable(self) -> bool
        ensures { TestsText result (IsPrintable self) (IsReadBack self) (text self) };

    /// Returns the number of bytes of the core.
    fn core_length(self) -> u16
        ensures length { result ≡ length (core self) }
        ensures small { result ≤ 543 };

    /// Writes the core at the beginning of the slice. Returns the index after it.
    fn put_core(self, out: &mut [u8]) -> usize
        requires { HasRoom out.old 0 (core self) }
        ensures { Prints out.old out.new 0 result (core self) };

    /// Returns what follows the core.
    fn tail(&self) -> Tail<'_>
        ensures { text self.now ≡ core self.now ++ tail_text result };

    /// Returns whether the canonical text has more than `room` bytes.
    #[inline(always)]
    fn is_too_short(self, room: usize) -> bool
        requires { IsPrintable self }
        ensures { IsTrue result ↔ room < length (text self) }
    {
        (room as u128) < length_of_parts(self.core_length(), self.tail())
    }
}

/// Returns the number of bytes of the canonical text.
#[inline(always)]
pub fn length<T: CanonicalText>(text: T) -> u128
    ensures { result ≡ length (T.text text) }
{
    length_of_parts(text.core_length(), text.tail())
}

/// Returns the number of bytes of a core and a tail.
///
/// The default method `is_too_short` of the trait calls this function, and not `length`, because `length` has the bound
/// `CanonicalText`. Rattle makes no proof of a default method that passes `Self` to a function with a bound on the same
/// trait.
#[inline(always)]
pub fn length_of_parts(core_length: u16, tail: Tail<'_>) -> u128
    ensures { result ≡ core_length + length (tail_text tail.entry) }
{
    u128::from(core_length) + tail_length(tail)
}

/// Writes the canonical text at the beginning of the slice. Returns the index after it.
#[inline(always)]
fn put<T: CanonicalText>(text: T, out: &mut [u8]) -> usize
    requires { HasRoom out.old 0 (T.text text) }
    ensures { Prints out.old out.new 0 result (T.text text) }
{
    let rest = text.tail();
    let after_core = text.put_core(out);
    put_tail(out, after_core, rest)
}

/// Writes the canonical text to the beginning of a slice that is long enough. Returns the number of bytes of the text.
#[inline(always)]
pub fn put_in_room<T: CanonicalText>(text: T, room: &mut [u8]) -> usize
    requires { length (T.text text) ≤ length room.old }
    ensures count { result ≡ length (T.text text) }
    ensures text { map Plain (take result room.new) ≡ T.text text }
    ensures rest { drop result room.new ≡ drop result room.old }
{
    put(text, room)
}

/// Writes the canonical text to the beginning of the slice. Returns the number of bytes of the text. Returns an error
/// if there is no canonical text, or if the slice is shorter than the text.
#[inline(always)]
pub fn print<T: CanonicalText>(text: T, out: &mut [u8]) -> Result<usize, PrintError>
    ensures prints { PrintsOrRefuses (T.IsPrintable text) (T.text text) out.old out.new result }
    ensures read_back { OnOk result (T.IsReadBack text) }
{
    if !text.is_printable() {
        return Err(PrintError::NotPrintable);
    }
    if text.is_too_short(out.len()) {
        return Err(PrintError::TooShort);
    }
    Ok(put(text, out))
}

/// Writes the canonical text as 16-bit code units, like `print`. The text must have no tail.
pub fn print_utf16<T: CanonicalText>(text: T, out: &mut [u16]) -> Result<usize, PrintError>
    requires { T.text text ≡ T.core text }
    ensures prints { PrintsOrRefuses (T.IsPrintable text) (T.text text) out.old out.new result }
    ensures read_back { OnOk result (T.IsReadBack text) }
{
    if !text.is_printable() {
        Err(PrintError::NotPrintable)
    } else if text.is_too_short(out.len()) {
        Err(PrintError::TooShort)
    } else {
        Ok(put_core_utf16(text, out))
    }
}

/// Writes the core as 16-bit code units at the beginning of the slice. Returns the index after it.
pub fn put_core_utf16<T: CanonicalText>(text: T, out: &mut [u16]) -> usize
    requires { HasRoom out.old 0 (T.core text) }
    ensures { Prints out.old out.new 0 result (T.core text) }
{
    let count = usize::from(text.core_length());
    let mut bytes = [0; MOST_OF_CORE];
    text.put_core(&mut bytes);
    put_wide(out, 0, front_of(&bytes, count))
}

/// Returns the length of the canonical text, if there is one and a `usize` can hold its length.
pub fn printed_length<T: CanonicalText>(text: T) -> Option<usize>
    ensures length { IfSome result (λ n. n ≡ length (T.text text)) }
    ensures printable { OnSome result (T.IsPrintable text) }
    ensures none { (result ≡ None) ↔ ¬ (T.IsPrintable text × (length (T.text text) < 2 ^ 64)) }
{
    if text.is_printable() {
        usize::try_from(length(text)).ok()
    } else {
        None
    }
}

/// Returns the record unchanged if it has a canonical text, and `None` otherwise.
pub fn checked<T: CanonicalText>(text: T) -> Option<T>
    ensures same { IfSome result (λ canonical. canonical ≡ text) }
    ensures shown { OnSome result (map Plain (bytes_of (T.text text)) ≡ T.text text) }
    ensures read_back { OnSome result (T.IsReadBack text) }
    ensures none { (result ≡ None) ↔ ¬ (T.IsPrintable text) }
{
    if !text.is_printable() {
        return None;
    }
    Some(text)
}

/// Writes the canonical text into a formatter.
pub fn write<T: CanonicalText, W: fmt::Write>(text: T, f: &mut fmt::Formatter<W>) -> fmt::Result
    ensures { WritesStyledOnOk W.write_str_gives f.old result (bytes_of (T.text text)) f.new }
{
    write_core(text, f)?;
    write_tail(f, text.tail())
}

/// Writes the core into a formatter.
fn write_core<T: CanonicalText, W: fmt::Write>(text: T, f: &mut fmt::Formatter<W>) -> fmt::Result
    ensures { WritesStyledOnOk W.write_str_gives f.old result (bytes_of (T.core text)) f.new }
{
    let count = usize::from(text.core_length());
    let mut bytes = [0; MOST_OF_CORE];
    text.put_core(&mut bytes);
    write_bytes(f, front_of(&bytes, count))
}

/// Returns the number of bytes of the tail.
#[inline(always)]
fn tail_length(tail: Tail<'_>) -> u128
    ensures length { result ≡ length (tail_text tail.entry) }
    ensures small { result < 2 ^ 66 }
{
    match tail {
        Tail::Nothing => 0,
        Tail::Zone(zone) => length_of_zone(zone),
        Tail::Brackets(parsed) => brackets_length(parsed),
    }
}

/// Writes the tail at index `at`. Returns the index after it.
#[inline(always)]
fn put_tail(out: &mut [u8], at: usize, tail: Tail<'_>) -> usize
    requires { HasRoom out.old at (tail_text tail) }
    ensures { Prints out.old out.new at result (tail_text tail.entry) }
{
    match tail {
        Tail::Nothing => at,
        Tail::Zone(zone) => put_zone(out, at, zone),
        Tail::Brackets(parsed) => put_brackets(out, at, parsed),
    }
}

/// Writes the tail into a formatter.
fn write_tail<W: fmt::Write>(f: &mut fmt::Formatter<W>, tail: Tail<'_>) -> fmt::Result
    ensures { WritesStyledOnOk W.write_str_gives f.old result (bytes_of (tail_text tail.entry)) f.new }
{
    match tail {
        Tail::Nothing => Ok(()),
        Tail::Zone(zone) => write_zone(f, zone),
        Tail::Brackets(parsed) => write_brackets(f, parsed),
    }
}
