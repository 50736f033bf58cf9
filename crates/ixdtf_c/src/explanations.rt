//! The explanation of an error: its reason, and the part of the text that is wrong.

ghost use Rattle.std.specs.Prelude.{◌≡◌, length, map, min, IfSome, IfNone};
ghost use Rattle.ixdtf.specs.language.Letters.{byte_letter, wide_letter};
ghost use Rattle.ixdtf.specs.LocatedFaults.{fault_of_located};
ghost use Rattle.ixdtf_explanations.specs.declared.part.WrongPart.{WrongPart as Part};
ghost use Rattle.ixdtf_explanations.specs.Parts.{IsPart, extent_of};
ghost use Rattle.ixdtf_c.specs.Asked.{asked_by};
ghost use Rattle.ixdtf_c.specs.Explained.{Explains, explanation_for};

use crate::error_numbers::number_and_location;
use crate::reader_errors::refusal;
use crate::reader_numbers::reader_by_number;
use crate::reason_numbers::number_of;
use ixdtf::encoding::{Utf8, Utf16};
use ixdtf::{LocatedError, Numbered, part_of};

/// Why a reader refuses a text, and where.
#[derive(Clone, Copy)]
#[repr(C)]
pub struct Explanation {
    /// The position of the error: the number of code units before it.
    pub place: usize,
    /// The index of the first code unit of the part of the text that is wrong.
    pub begin: usize,
    /// The index after the last code unit of this part.
    pub end: usize,
    /// The number of the error, or 0 if the text is accepted.
    pub error: u32,
    /// The number of the reason, or 0 if the text is accepted.
    pub reason: u32,
}

/// Explains an error.
fn explanation_of<T: Numbered>(error: &LocatedError, text: &[T::CodeUnit]) -> Explanation
    ensures { (part : Part)
        × IsPart (extent_of error.now.reason) (map T.number text.now) (min error.now.at (length (map T.number text.now))) part
        × (result ≡ explanation_for (fault_of_located error.now) error.now.at error.now.reason part) }
{
    let (number, _) = number_and_location(error.error);
    let part = part_of::<T>(error.reason, error.at, text);
    Explanation {
        place: error.at,
        begin: part.begin,
        end: part.end,
        error: number,
        reason: number_of(error.reason),
    }
}

/// Reads a text with the reader that has the number. Writes why this reader refuses the text. If it accepts the text, writes 0 to
/// each field. Returns what the reader returns, or 105 if no reader has the number. Then nothing is written.
#[inline(always)]
fn explain_into<T: Numbered>(number: u32, text: &[T::CodeUnit], out: &mut Explanation) -> u32
    ensures explains { IfSome (asked_by number) (λ asked. Explains asked (map (λ unit. T.letter (T.number unit)) text.now)
        (map T.number text.now) result out.new) }
    ensures unknown { IfNone (asked_by number) ((result ≡ 105) × (out.new ≡ out.old)) }
{
    let Some(reader) = reader_by_number(number) else {
        return 105;
    };
    match refusal::<T>(reader, text) {
        None => {
            *out = Explanation {
                place: 0,
                begin: 0,
                end: 0,
                error: 0,
                reason: 0,
            };
            0
        }
        Some(error) => {
            *out = explanation_of::<T>(&error, text);
            out.error
        }
    }
}

/// Writes why the reader with the number `reader` refuses a text. If it accepts the text, writes 0 to each field.
///
/// Returns what the reader returns: 0, or the number of the error. Returns 105 if no reader has the number. Then nothing is written.
#[unsafe(no_mangle)]
pub extern "C" fn ixdtf_explain(reader: u32, text: &[u8], out: &mut Explanation) -> u32
    ensures explains { IfSome (asked_by reader) (λ asked. Explains asked (map byte_letter text.now) (map (λ unit. unit) text.now) result out.new) }
    ensures unknown { IfNone (asked_by reader) ((result ≡ 105) × (out.new ≡ out.old)) }
{
    explain_into::<Utf8>(reader, text, out)
}

/// Writes why the reader with the number `reader` refuses a text. If it accepts the text, writes 0 to each field.
///
/// Returns what the reader returns: 0, or the number of the error. Returns 105 if no reader has the number. Then nothing is written.
#[unsafe(no_mangle)]
pub extern "C" fn ixdtf16_explain(reader: u32, text: &[u16], out: &mut Explanation) -> u32
    ensures explains { IfSome (asked_by reader) (λ asked. Explains asked (map wide_letter text.now) (map (λ unit. unit) text.now) result out.new) }
    ensures unknown { IfNone (asked_by reader) ((result ≡ 105) × (out.new ≡ out.old)) }
{
    explain_into::<Utf16>(reader, text, out)
}
