//! The conversion of an offset alone, or of a time zone alone, from the struct of C into the record that the library prints.

ghost use Rattle.std.specs.Prelude.{◌≡◌, Some, None, IfSome, IfNone, IsSomeAnd};
ghost use Rattle.ixdtf.specs.Views.{zone_of as time_zone_seen};
ghost use Rattle.ixdtf_c.specs.Standing.{utc_offset_by, time_zone_by};
ghost use Rattle.ixdtf_print.specs.Offsets.{IsPrintableOffset};

use crate::part_structs::Offset;
use crate::record_conversion::offset_of;
use crate::struct_traits::ZoneOf;
use ixdtf::encoding::EncodingType;
use ixdtf::records::{TimeZoneRecord, UtcOffsetRecord, UtcOffsetRecordOrZ};

/// Returns the offset. Returns `None` if `form` is neither 2 nor 3, or if the fraction is not valid.
pub fn utc_offset_of(given: &Offset) -> Option<UtcOffsetRecord>
    ensures found { IfSome result (λ found. utc_offset_by given.now ≡ Some found) }
    ensures none { IfNone result (¬ (IsSomeAnd (utc_offset_by given.now) IsPrintableOffset)) }
{
    let Some(found) = offset_of(given) else {
        return None;
    };
    match found {
        None => None,
        Some(UtcOffsetRecordOrZ::Z) => None,
        Some(UtcOffsetRecordOrZ::Offset(offset)) => Some(offset),
    }
}

/// Returns the time zone. Returns `None` if `form` is neither 1 nor 2.
pub fn time_zone_of<'a, T: EncodingType, Z: ZoneOf<'a, T>>(
    given: &Z,
) -> Option<TimeZoneRecord<'a, T>>
    ensures found { IfSome result
        (λ found. time_zone_by (Z.contents given.now) ≡ Some (time_zone_seen T.number found)) }
    ensures none { IfNone result (time_zone_by (Z.contents given.now) ≡ None) }
{
    let Some(found) = given.read() else {
        return None;
    };
    match found {
        None => None,
        Some(it) => Some(it.tz),
    }
}
