//! The encodings that a source can have.
//!
//! The readers are generic in the encoding. For each code unit, the encoding gives a byte, or says that the code unit
//! stands for no character. The readers use only these bytes.

ghost use Rattle.std.specs.Prelude.{◌≡◌, ℕ, ◌<◌, ◌≤◌, ◌↔◌, ◌^◌, map, length, All, IsTrue, IsSome, IfSome, slice_range, codes};
ghost use Rattle.std.specs.Cmp.{unsigned_Decides};
ghost use Rattle.ixdtf_grammar.specs.language.Letters.{Letter, Plain, byte_letter, wide_letter, byte_letter-faithful, wide_letter-faithful};
ghost use Rattle.ixdtf_grammar.specs.Views.{Returns, ascii_at};

use crate::{ParseError, ParserResult};
use std::hash::Hash;

mod private {
    /// Only the encodings of this crate can implement this trait.
    pub trait Sealed {}
}

/// An encoding of a text in code units: [`Utf8`] or [`Utf16`].
///
/// Each code unit is a number. A code unit from 1 to 126 stands for the ASCII character with this number. No reader accepts
/// a text in which a code unit is 0, or is 127 or more. No other crate can implement this trait.
///
/// # Examples
///
/// ```rust
/// use ixdtf::ParseError;
/// use ixdtf::encoding::{EncodingType, Utf8, Utf16};
///
/// assert_eq!(Utf8::get_ascii(b"2024", 0), Ok(Some(b'2')));
/// assert_eq!(Utf16::get_ascii(&[0x2212], 0), Err(ParseError::NonAsciiCodePoint));
/// ```
pub trait EncodingType: private::Sealed {
    /// The type of a code unit: `u8` or `u16`.
    type CodeUnit: Eq + Hash + std::fmt::Debug + Copy + Into<u32>;

    /// The number of a code unit.
    ghost number: { Self.CodeUnit → ℕ };

    /// Says what a code unit with this number stands for: a byte, or no character.
    ghost letter: { ℕ → Letter };

    /// The number of every code unit is below this limit.
    ghost limit: { ℕ };

    /// Returns the code units from `start` up to, but not including, `end`.
    ///
    /// Returns `None` if an index is out of range, or if `start` is after `end`.
    fn slice(source: &[Self::CodeUnit], start: usize, end: usize) -> Option<&[Self::CodeUnit]>
        ensures within { IsSome result ↔ ((start ≤ end) × (end ≤ length source.now)) }
        ensures units { IfSome result (λ units. units.now ≡ slice_range source.now start end) };

    /// Returns the code unit at an index of the source, as a byte. Returns `None` if the index is not less than the length
    /// of the source.
    ///
    /// For [`Utf8`], this can be a byte of 128 or more, which is not ASCII. No reader accepts such a byte.
    ///
    /// # Errors
    ///
    /// - `NonAsciiCodePoint`: the code unit at the index stands for no character. In [`Utf16`], 0 and the code units of 127
    ///   or more stand for no character. [`Utf8`] never returns this error.
    fn get_ascii(source: &[Self::CodeUnit], index: usize) -> ParserResult<Option<u8>>
        ensures letter { Returns (λ found. found) result
            (ascii_at letter index (map number source.now)) }
        ensures small { All (λ unit. number unit < limit) source.now };

    /// Returns whether the key is `u-ca`, the key of calendars (RFC 9557, section 4.1).
    fn check_calendar_key(key: &[Self::CodeUnit]) -> bool
        ensures { IsTrue result ↔ (map number key.now ≡ codes "u-ca") };

    /// If a code unit stands for a byte, this byte is the number of the code unit.
    ghost faithful: { (unit letter_number : ℕ) →
        letter unit ≡ Plain letter_number → letter_number ≡ unit };

    /// Two code units with the same number are the same.
    ghost injective: { (a b : Self.CodeUnit) → number a ≡ number b → a ≡ b };

    /// The comparison `==` of two code units is true exactly if their numbers are equal.
    ghost equal: { (a b : Self.CodeUnit) → IsTrue (Self.CodeUnit.eq a b) ↔ (number a ≡ number b) };
}

/// The encoding of sources with 8-bit code units, such as UTF-8.
///
/// Each code unit is a byte, and `get_ascii` returns this byte even if it is not ASCII. The readers refuse a text that contains the
/// byte 0 or a byte of 127 or more. The readers do not check that the source is UTF-8.
#[derive(Clone, Copy, Debug, PartialEq, Eq, Hash)]
pub struct Utf8;

impl private::Sealed for Utf8 {}

impl EncodingType for Utf8 {
    type CodeUnit = u8;

    ghost number = { λ unit. unit };

    ghost letter = { byte_letter };

    ghost limit = { 2 ^ 8 };

    fn slice(source: &[u8], start: usize, end: usize) -> Option<&[u8]> {
        source.get(start..end)
    }

    #[inline(always)]
    fn get_ascii(source: &[u8], index: usize) -> ParserResult<Option<u8>> {
        Ok(source.get(index).copied())
    }

    #[inline(always)]
    fn check_calendar_key(key: &[u8]) -> bool {
        matches!(key, [b'u', b'-', b'c', b'a'])
    }

    ghost faithful = { byte_letter-faithful };

    ghost injective = { λ a b same. same };

    ghost equal = { unsigned_Decides };
}

/// The encoding of sources with 16-bit code units, such as UTF-16.
///
/// A code unit from 1 to 126 stands for the ASCII character with this number. Every other code unit, including 0 and 127,
/// stands for no character. The readers do not check that the source is UTF-16.
#[derive(Clone, Copy, Debug, PartialEq, Eq, Hash)]
pub struct Utf16;

impl private::Sealed for Utf16 {}

impl EncodingType for Utf16 {
    type CodeUnit = u16;

    ghost number = { λ unit. unit };

    ghost letter = { wide_letter };

    ghost limit = { 2 ^ 16 };

    fn slice(source: &[u16], start: usize, end: usize) -> Option<&[u16]> {
        source.get(start..end)
    }

    #[inline(always)]
    fn get_ascii(source: &[u16], index: usize) -> ParserResult<Option<u8>> {
        match source.get(index) {
            None => Ok(None),
            Some(unit) if *unit < 1 || *unit > 126 => Err(ParseError::NonAsciiCodePoint),
            Some(unit) => Ok(Some(*unit as u8)),
        }
    }

    #[inline(always)]
    fn check_calendar_key(key: &[u16]) -> bool {
        matches!(key, [0x75, 0x2d, 0x63, 0x61])
    }

    ghost faithful = { wide_letter-faithful };

    ghost injective = { λ a b same. same };

    ghost equal = { unsigned_Decides };
}
