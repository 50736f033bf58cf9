//! The conversion of the structs of C into records of the library, which prints them.

ghost use Rattle.std.specs.Prelude.{◌≡◌, Some, None, map, option_map, IfSome, IfNone, OnSome, IsSomeAnd};
ghost use Rattle.ixdtf.specs.Views.{parsed_of, note_of};
ghost use Rattle.ixdtf_c.specs.Instants.{offset_fraction};
ghost use Rattle.ixdtf_c.specs.Printing.{HaveDigits};
ghost use Rattle.ixdtf_c.specs.Standing.{fraction_by, date_by, time_by, minutes_by, offset_by, zone_by, record_by};
ghost use Rattle.ixdtf_print.specs.Printable.{IsPrintable};
ghost use Rattle.ixdtf_print.specs.Spelled.{HasDigits};

use crate::part_structs::{Date, Offset, Time};
use crate::slices::{Slice, from_c};
use crate::struct_traits::RecordOf;
use ixdtf::encoding::EncodingType;
use ixdtf::records::{
    DateRecord, Fraction, FullPrecisionOffset, IxdtfParseRecord, MinutePrecisionOffset, Sign,
    TimeRecord, TimeZoneAnnotation, TimeZoneRecord, UtcOffsetRecord, UtcOffsetRecordOrZ,
};

/// Returns the fraction with `digits` digits, whose first 18 digits are the number `value`.
///
/// Returns `Some(None)` if `digits` is 0. Otherwise returns `None` if `value` has more digits than `digits` says, or if
/// `value` has more than 18 digits.
pub fn fraction_of(digits: u8, value: u64) -> Option<Option<Fraction>>
    ensures found { IfSome result (λ fraction. fraction ≡ fraction_by digits value) }
    ensures digits { OnSome result (HasDigits (fraction_by digits value)) }
    ensures none { IfNone result (¬ (HasDigits (fraction_by digits value))) }
{
    if digits == 0 {
        return Some(None);
    }
    match Fraction::of_parts(digits, value) {
        None => None,
        Some(fraction) => Some(Some(fraction)),
    }
}

/// Returns the date, or `None` if it is absent.
pub fn date_of(date: &Date) -> Option<DateRecord>
    ensures { result ≡ date_by date.now }
{
    if !date.is_there {
        return None;
    }
    Some(DateRecord {
        year: date.year,
        month: date.month,
        day: date.day,
    })
}

/// Returns the time, or `Some(None)` if it is absent. Returns `None` if its fraction is not valid: see [`fraction_of`].
pub fn time_of(time: &Time) -> Option<Option<TimeRecord>>
    ensures found { IfSome result (λ found. found ≡ time_by time.now) }
    ensures digits { OnSome result (IfSome (time_by time.now) (λ it. HasDigits it.fraction)) }
    ensures none { IfNone result (¬ (IfSome (time_by time.now) (λ it. HasDigits it.fraction))) }
{
    if !time.is_there {
        return Some(None);
    }
    match fraction_of(time.fraction_digits, time.fraction) {
        None => None,
        Some(fraction) => Some(Some(TimeRecord {
            hour: time.hour,
            minute: time.minute,
            second: time.second,
            fraction,
        })),
    }
}

/// Returns the offset with this sign, this hour and this minute.
fn minutes_of(is_negative: bool, hour: u8, minute: u8) -> MinutePrecisionOffset
    ensures { result ≡ minutes_by is_negative hour minute }
{
    MinutePrecisionOffset {
        sign: Sign::from(!is_negative),
        hour,
        minute,
    }
}

/// Returns the offset, or `Some(None)` if it is absent.
///
/// Returns `None` if `form` is not 0 to 3, or if the fraction is not valid: see [`fraction_of`].
pub fn offset_of(offset: &Offset) -> Option<Option<UtcOffsetRecordOrZ>>
    ensures found { IfSome result (λ found. offset_by offset.now ≡ Some found) }
    ensures digits { OnSome result
        (IsSomeAnd (offset_by offset.now) (λ it. IfSome it (λ shift. HasDigits (offset_fraction shift)))) }
    ensures none { IfNone result
        (¬ (IsSomeAnd (offset_by offset.now) (λ it. IfSome it (λ shift. HasDigits (offset_fraction shift))))) }
{
    if offset.form == 0 {
        return Some(None);
    }
    if offset.form == 1 {
        return Some(Some(UtcOffsetRecordOrZ::Z));
    }
    let minutes = minutes_of(offset.is_negative, offset.hour, offset.minute);
    if offset.form == 2 {
        let shift = UtcOffsetRecord::MinutePrecision(minutes);
        return Some(Some(UtcOffsetRecordOrZ::Offset(shift)));
    }
    if offset.form != 3 {
        return None;
    }
    match fraction_of(offset.fraction_digits, offset.fraction) {
        None => None,
        Some(fraction) => {
            let shift = UtcOffsetRecord::FullPrecisionOffset(FullPrecisionOffset {
                minute_precision_offset: minutes,
                second: offset.second,
                fraction,
            });
            Some(Some(UtcOffsetRecordOrZ::Offset(shift)))
        }
    }
}

/// Returns the time zone with these fields, or `Some(None)` if it is absent. Returns `None` if `form` is not 0 to 2.
pub fn zone_of<'a, T: EncodingType>(
    name: Slice<'a, T::CodeUnit>,
    form: u8,
    is_critical: bool,
    is_negative: bool,
    hour: u8,
    minute: u8,
) -> Option<Option<TimeZoneAnnotation<'a, T>>>
    ensures found { IfSome result (λ found. zone_by (record {
      name = map T.number name.now;
      form = form;
      is_critical = is_critical;
      is_negative = is_negative;
      hour = hour;
      minute = minute;
    }) ≡ Some (option_map (note_of T.number) found)) }
    ensures none { IfNone result (zone_by (record {
      name = map T.number name.now;
      form = form;
      is_critical = is_critical;
      is_negative = is_negative;
      hour = hour;
      minute = minute;
    }) ≡ None) }
{
    if form == 0 {
        return Some(None);
    }
    if form == 1 {
        return Some(Some(TimeZoneAnnotation {
            critical: is_critical,
            tz: TimeZoneRecord::Name(from_c(name)),
        }));
    }
    if form != 2 {
        return None;
    }
    Some(Some(TimeZoneAnnotation {
        critical: is_critical,
        tz: TimeZoneRecord::Offset(minutes_of(is_negative, hour, minute)),
    }))
}

/// Returns the record of the library with the parts of `given`.
///
/// Returns `None` if a `form` or a fraction is not valid. There is no text for which a reader writes such a record.
pub fn record_of<'a, T: EncodingType, R: RecordOf<'a, T>>(
    given: &R,
) -> Option<IxdtfParseRecord<'a, T>>
    ensures found { IfSome result
        (λ found. record_by (R.contents given.now) ≡ Some (parsed_of T.number found)) }
    ensures digits { IfNone result (¬ (IsSomeAnd (record_by (R.contents given.now)) HaveDigits)) }
    ensures none { IfNone result (¬ (IsSomeAnd (record_by (R.contents given.now)) IsPrintable)) }
{
    let Some(time) = time_of(given.time_part()) else {
        return None;
    };
    let Some(offset) = offset_of(given.offset_part()) else {
        return None;
    };
    let Some(tz) = given.zone_part() else {
        return None;
    };
    Some(IxdtfParseRecord {
        date: date_of(given.date_part()),
        time,
        offset,
        tz,
        calendar: given.calendar_part(),
    })
}
