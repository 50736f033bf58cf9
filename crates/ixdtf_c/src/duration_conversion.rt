//! The conversion of the durations of C into durations of the library, which prints them.

ghost use Rattle.std.specs.Prelude.{◌≡◌, Some, IfSome, IfNone, IsSomeAnd};
ghost use Rattle.ixdtf_c.specs.Lasting.{contents};
ghost use Rattle.ixdtf_c.specs.Standing.{date_units_by, time_units_by, duration_by};
ghost use Rattle.ixdtf_print.specs.Durations.{IsPrintableDuration};
ghost use Rattle.ixdtf_print.specs.SpelledDurations.{HasTimeUnits};

use crate::duration_struct::Duration;
use crate::record_conversion::fraction_of;
use ixdtf::records::{DateDurationRecord, DurationParseRecord, Sign, TimeDurationRecord};

/// Returns the years, months, weeks and days, or `None` if they are absent.
fn date_units_of(given: &Duration<'_>) -> Option<DateDurationRecord>
    ensures { result ≡ date_units_by (contents given.now) }
{
    if !given.has_date {
        return None;
    }
    Some(DateDurationRecord {
        years: given.years,
        months: given.months,
        weeks: given.weeks,
        days: given.days,
    })
}

/// Returns the hours, minutes and seconds, or `Some(None)` if they are absent.
///
/// Returns `None` if `time_form` is not 0 to 3, or if the fraction is not valid: see [`fraction_of`].
pub fn time_units_of(given: &Duration<'_>) -> Option<Option<TimeDurationRecord>>
    ensures found { IfSome result (λ found. time_units_by (contents given.now) ≡ Some found) }
    ensures none { IfNone result (¬ (IsSomeAnd (time_units_by (contents given.now)) HasTimeUnits)) }
{
    if given.time_form == 0 {
        return Some(None);
    }
    let Some(fraction) = fraction_of(given.fraction_digits, given.fraction) else {
        return None;
    };
    let (hours, minutes, seconds) = (given.hours, given.minutes, given.seconds);
    match given.time_form {
        1 => Some(Some(TimeDurationRecord::Hours { hours, fraction })),
        2 => Some(Some(TimeDurationRecord::Minutes {
            hours,
            minutes,
            fraction,
        })),
        3 => Some(Some(TimeDurationRecord::Seconds {
            hours,
            minutes,
            seconds,
            fraction,
        })),
        _ => None,
    }
}

/// Returns the duration. Returns `None` if `time_form` is not 0 to 3, or if the fraction is not valid: see [`fraction_of`].
pub fn duration_of(given: &Duration<'_>) -> Option<DurationParseRecord>
    ensures found { IfSome result (λ found. duration_by (contents given.now) ≡ Some found) }
    ensures none { IfNone result (¬ (IsSomeAnd (duration_by (contents given.now)) IsPrintableDuration)) }
{
    let Some(time) = time_units_of(given) else {
        return None;
    };
    Some(DurationParseRecord {
        sign: Sign::from(!given.is_negative),
        date: date_units_of(given),
        time,
    })
}
