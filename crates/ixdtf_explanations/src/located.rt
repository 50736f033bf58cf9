//! An error with its position in the text.

ghost use Rattle.std.specs.Prelude.{◌≡◌, length, min, take};
ghost use Rattle.std.specs.Str.Lossy.{utf8_valid_len};
ghost use Rattle.ixdtf_explanations.specs.Parts.{IsPart, extent_of};

use crate::pointed::PointedText;
use ixdtf_grammar::{ParseError, Reason};
use ixdtf_reading::stop::{FromStop, StopAt};
use std::error::Error;
use std::fmt;
use std::str::from_utf8;

/// An error, its position in the text and its reason. The `*_located` readers return a `LocatedError`.
///
/// `Display` writes the message of the error, ` at ` and the position, as in
/// `Invalid character while parsing month value. at 5`.
///
/// # Examples
///
/// ```rust
/// use ixdtf::parsers::IxdtfParser;
///
/// let error = IxdtfParser::from_str("2020-x1").parse_located().unwrap_err();
/// assert_eq!(error.to_string(), "Invalid character while parsing month value. at 5");
/// ```
#[derive(Clone, Copy, Debug)]
pub struct LocatedError {
    /// The error.
    pub error: ParseError,
    /// The position of the error: the number of code units of the input that come before it. If a code unit does not fit, the
    /// position is the index of this code unit. For some errors, the position is after the part that is wrong. For example, it
    /// is 10 for the day of `2024-02-30`, which begins at 8. [`part_in`](LocatedError::part_in) returns the part itself.
    pub at: usize,
    /// The reason: the line of the fault table that fits the text, or the refusal of an annotation.
    pub reason: Reason,
}

/// The reason of an error, and the position of the error. All that a report says about a refused text follows from these two.
///
/// This type has fewer bytes than a [`LocatedError`]. A program that only reports an error keeps this type.
#[derive(Clone, Copy)]
pub struct LocatedReason {
    /// The position, as in [`LocatedError::at`].
    pub at: usize,
    /// The reason, as in [`LocatedError::reason`].
    pub reason: Reason,
}

impl LocatedError {
    /// Returns the reason and the position.
    #[doc(hidden)]
    #[inline(always)]
    pub fn located_reason(self) -> LocatedReason
        ensures at { result.at ≡ self.at }
        ensures reason { result.reason ≡ self.reason }
    {
        LocatedReason {
            at: self.at,
            reason: self.reason,
        }
    }

    /// Returns the text with a mark under each byte of the part that is wrong, so that people can see this part.
    ///
    /// `text` must be the complete source of the parser that returned this error. This parser must not have returned
    /// `Ok` before. A call that returns `Ok` consumes the source, and a later call does not count positions from the
    /// beginning of the source.
    ///
    /// If the source has 16-bit code units, `text` must be this source, converted to a `str`. In such a source, all code
    /// units before the error are from 1 to 126, and each of them is one byte of `text`. So the position is also a number
    /// of bytes in `text`.
    ///
    /// The `Display` of the result writes two lines, without a newline at the end. [`PointedText`] describes what it
    /// writes for a long text, and for control characters.
    ///
    /// # Examples
    ///
    /// ```rust
    /// use ixdtf::parsers::IxdtfParser;
    ///
    /// let text = "2020-13-01";
    /// let error = IxdtfParser::from_str(text).parse_located().unwrap_err();
    /// assert_eq!(error.in_text(text).to_string(), "2020-13-01\n     ^^");
    /// ```
    pub fn in_text<'a>(&self, text: &'a str) -> PointedText<'a>
        ensures text { result.text.now ≡ text.now }
        ensures part { IsPart (extent_of self.now.reason) text.now (min self.now.at (length text.now)) result.part }
    {
        PointedText::new(text, self.part_in(text.as_bytes()))
    }

    /// Returns the text with marks, as [`in_text`](LocatedError::in_text) does, for a source that need not be valid UTF-8.
    ///
    /// `bytes` must be the complete source of the parser, under the same conditions as `text` in `in_text`. The result
    /// shows only the characters before the first byte that is not UTF-8. If the part that is wrong begins at or after this
    /// byte, the first mark is one column after the last of these characters.
    ///
    /// # Examples
    ///
    /// ```rust
    /// use ixdtf::parsers::IxdtfParser;
    ///
    /// let bytes = b"2020-1\xE9-01";
    /// let error = IxdtfParser::from_utf8(bytes).parse_located().unwrap_err();
    /// assert_eq!(error.in_bytes(bytes).to_string(), "2020-1\n      ^");
    /// ```
    pub fn in_bytes<'a>(&self, bytes: &'a [u8]) -> PointedText<'a>
        ensures text { result.text.now ≡ take (utf8_valid_len bytes.now) bytes.now }
        ensures part { IsPart (extent_of self.now.reason) bytes.now (min self.now.at (length bytes.now)) result.part }
    {
        PointedText::new(valid_front(bytes), self.part_in(bytes))
    }
}

impl FromStop for LocatedError {
    ghost use Rattle.ixdtf_explanations.specs.LocatedFaults.{fault_of_located, stands_behind};

    ghost fault = { fault_of_located };

    ghost stands = { stands_behind };

    /// Makes the error with its position and its reason.
    #[inline(always)]
    fn of_stop(why: StopAt) -> LocatedError {
        LocatedError {
            error: why.code.error(),
            at: why.at,
            reason: why.reason,
        }
    }
}

/// Returns the characters before the first byte that is not UTF-8.
pub(crate) fn valid_front(bytes: &[u8]) -> &str
    ensures { result.now ≡ take (utf8_valid_len bytes.now) bytes.now }
{
    match from_utf8(bytes) {
        Ok(text) => text,
        Err(error) => from_utf8(&bytes[..error.valid_up_to().min(bytes.len())]).unwrap_or(""),
    }
}

impl PartialEq for LocatedError {
    ghost use Rattle.std.specs.Prelude.{◌≡◌, ◌↔◌, IsTrue};
    ghost use Rattle.ixdtf_grammar.specs.table.Faults.{fault_of};
    ghost use Rattle.ixdtf_explanations.specs.LocatedEquality.{same_located, same_located-laws};

    ghost eq = { same_located };

    ghost laws = { same_located-laws };

    /// Returns whether the errors, the positions and the reasons are equal.
    fn eq(&self, other: &LocatedError) -> bool
        ensures computes { result ≡ same_located self.now other.now }
        ensures equal { IsTrue result
            ↔ ((self.now.at ≡ other.now.at) × (self.now.reason ≡ other.now.reason) × (fault_of self.now.error ≡ fault_of other.now.error)) }
    {
        self.at == other.at && self.reason == other.reason && self.error == other.error
    }
}

// `Display` writes the message of the error, ` at ` and the position as a decimal number. It ignores width and fill.
impl fmt::Display for LocatedError {
    ghost use Rattle.std.specs.Prelude.{Some};
    ghost use Rattle.ixdtf_grammar.specs.table.Faults.{fault_of};
    ghost use Rattle.ixdtf_explanations.specs.LocatedTexts.{located_text};

    ghost output = { λ e. Some (located_text (fault_of e.error) e.at) };

    fn fmt<W: fmt::Write>(&self, f: &mut fmt::Formatter<W>) -> fmt::Result {
        let error = self.error;
        let at = self.at;
        write!(f, "{error} at {at}")
    }
}

impl Error for LocatedError {}

impl From<LocatedError> for ParseError {
    ghost use Rattle.std.specs.Prelude.{◌≡◌};

    ghost from_gives = { λ located error. error ≡ located.error };

    /// Returns the error without its position.
    fn from(located: LocatedError) -> ParseError {
        located.error
    }
}
