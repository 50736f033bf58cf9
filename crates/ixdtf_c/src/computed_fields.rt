//! Functions for C that compute something from the fields of a record.

ghost use Rattle.std.specs.Prelude.{◌≡◌, ◌<◌, ◌≤◌, ◌^◌, length, min, IsSomeAnd};
ghost use Rattle.ixdtf.specs.language.Fractions.{nanoseconds_of};
ghost use Rattle.ixdtf_c.specs.Computed.{offset_seconds, seconds_ahead};
ghost use Rattle.ixdtf_c.specs.Narrow.{contents};
ghost use Rattle.ixdtf_c.specs.Standing.{record_by};
ghost use Rattle.ixdtf_print.specs.Canonical.{canonical_text};
ghost use Rattle.ixdtf_print.specs.Printable.{IsPrintable};

use crate::narrow::Record;
use crate::part_structs::Offset;
use crate::value_texts::{AsDateTime, length_into};
use ixdtf::encoding::Utf8;
use ixdtf::records::Fraction;

/// Returns the nanoseconds of a fraction of a second, such as 250000000 for `fraction` 25 and `digits` 2.
///
/// Drops all digits after the ninth. Returns 0 if `digits` is 0. Also returns 0 if `fraction` has more digits than `digits`
/// says, or if `fraction` has more than 18 digits.
#[unsafe(no_mangle)]
pub extern "C" fn ixdtf_nanoseconds(fraction: u64, digits: u8) -> u32
    ensures value { (1 ≤ digits) × (fraction < 10 ^ min digits 18) →
        result ≡ nanoseconds_of (record { count = digits; value = fraction }) }
    ensures none { ¬ ((1 ≤ digits) × (fraction < 10 ^ min digits 18)) → result ≡ 0 }
    ensures small { result < 10 ^ 9 }
{
    match Fraction::of_parts(digits, fraction) {
        None => 0,
        Some(it) => it.to_truncated_nanoseconds(),
    }
}

/// Returns the whole seconds of an offset, without its sign. Returns 0 if `form` is neither 2 nor 3.
fn whole_seconds(offset: &Offset) -> u32
    ensures value { result ≡ offset_seconds offset.now }
    ensures small { result < 10 ^ 6 }
{
    let minutes = u32::from(offset.hour) * 3600 + u32::from(offset.minute) * 60;
    if offset.form == 2 {
        return minutes;
    }
    if offset.form == 3 {
        return minutes + u32::from(offset.second);
    }
    0
}

/// Returns how many seconds local time is ahead of UTC, such as -18000 for `-05:00`.
///
/// Drops a fraction of a second. Returns 0 if `form` is neither 2 nor 3, for example for `Z`.
#[unsafe(no_mangle)]
pub extern "C" fn ixdtf_offset_seconds(offset: &Offset) -> i32
    ensures seconds { result ≡ seconds_ahead offset.now }
{
    let seconds = whole_seconds(offset) as i32;
    if offset.is_negative {
        -seconds
    } else {
        seconds
    }
}

/// Returns the length, in bytes, of the canonical text that `ixdtf_print` writes.
///
/// Returns 0 if the record cannot be printed, or if the length is greater than `usize::MAX`.
#[unsafe(no_mangle)]
pub extern "C" fn ixdtf_printed_length(given: &Record<'_>) -> usize
    ensures length { IsSomeAnd (record_by (contents given.now))
        (λ found. IsPrintable found × (length (canonical_text found) ≤ usize.MAX)) →
        IsSomeAnd (record_by (contents given.now)) (λ found. result ≡ length (canonical_text found)) }
    ensures none { ¬ (IsSomeAnd (record_by (contents given.now))
        (λ found. IsPrintable found × (length (canonical_text found) ≤ usize.MAX))) → result ≡ 0 }
{
    length_into::<Utf8, _>(&AsDateTime { record: given })
}
