//! The numbers and the names that the reasons of the library have in C.

ghost use Rattle.std.specs.Prelude.{◌≡◌, ◌≢◌, ◌≤◌, ◌++◌, ◌∷◌, [], IfSome, IfNone};
ghost use Rattle.ixdtf_grammar.specs.declared.reason.Reason.{Reason as AnyReason};
ghost use Rattle.ixdtf_grammar.specs.ReasonNames.{reason_name};
ghost use Rattle.ixdtf_c.specs.Reasons.{reason_number, line_of};

use crate::error_numbers::Text;
use crate::slices::to_c;
use ixdtf::Reason;

/// The number of reasons.
const REASONS: usize = 126;

/// The reasons with the numbers 1 to 126, in order.
static BY_NUMBER: [Reason; REASONS] = [
    Reason::YearStart,
    Reason::YearDigits,
    Reason::ExtendedYearDigits,
    Reason::MinusZeroYear,
    Reason::AfterYear,
    Reason::MonthDigits,
    Reason::MonthRange,
    Reason::AfterHyphenedMonth,
    Reason::AfterBasicMonth,
    Reason::DayDigits,
    Reason::DayRange,
    Reason::AfterDate,
    Reason::AfterYearInYearMonth,
    Reason::AfterYearMonth,
    Reason::MonthDayStart,
    Reason::MonthDayHyphen,
    Reason::MonthDayMonthDigits,
    Reason::MonthDayMonthRange,
    Reason::AfterMonthDayMonth,
    Reason::MonthDayDayDigits,
    Reason::MonthDayRange,
    Reason::AfterMonthDay,
    Reason::TimeStart,
    Reason::TimeReadsAsMonthDay,
    Reason::TimeReadsAsYearMonth,
    Reason::HourStart,
    Reason::HourDigit,
    Reason::HourRange,
    Reason::AfterHour,
    Reason::MinuteDigits,
    Reason::MinuteRange,
    Reason::AfterBasicMinute,
    Reason::AfterColonMinute,
    Reason::SecondDigits,
    Reason::SecondRange,
    Reason::AfterSecond,
    Reason::FractionStart,
    Reason::AfterFraction,
    Reason::OffsetHourStart,
    Reason::OffsetHourDigit,
    Reason::OffsetHourRange,
    Reason::OffsetAfterHour,
    Reason::OffsetMinuteDigits,
    Reason::OffsetMinuteRange,
    Reason::OffsetAfterBasicMinute,
    Reason::OffsetAfterColonMinute,
    Reason::OffsetSecondDigits,
    Reason::OffsetSecondRange,
    Reason::OffsetAfterSecond,
    Reason::OffsetFractionStart,
    Reason::OffsetAfterFraction,
    Reason::ZoneOffsetHourStart,
    Reason::ZoneOffsetHourDigit,
    Reason::ZoneOffsetHourRange,
    Reason::ZoneOffsetAfterHour,
    Reason::ZoneOffsetMinuteDigits,
    Reason::ZoneOffsetMinuteRange,
    Reason::ZoneOffsetAfterBasicMinute,
    Reason::ZoneOffsetAfterColonMinute,
    Reason::ZoneOffsetSecondDigits,
    Reason::ZoneOffsetSecondRange,
    Reason::ZoneOffsetAfterSecond,
    Reason::ZoneOffsetFractionStart,
    Reason::ZoneOffsetAfterFraction,
    Reason::OffsetStart,
    Reason::AfterZulu,
    Reason::FourDigits,
    Reason::AfterFourDigits,
    Reason::MonthFieldDigits,
    Reason::DayFieldDigits,
    Reason::HourFieldDigits,
    Reason::MinuteFieldDigits,
    Reason::SecondFieldDigits,
    Reason::OffsetHourFieldDigits,
    Reason::OffsetMinuteFieldDigits,
    Reason::MonthFieldRange,
    Reason::DayFieldRange,
    Reason::HourFieldRange,
    Reason::MinuteFieldRange,
    Reason::SecondFieldRange,
    Reason::OffsetHourFieldRange,
    Reason::OffsetMinuteFieldRange,
    Reason::AfterMonthField,
    Reason::AfterDayField,
    Reason::AfterHourField,
    Reason::AfterMinuteField,
    Reason::AfterSecondField,
    Reason::AfterOffsetHourField,
    Reason::AfterOffsetMinuteField,
    Reason::AfterPoint,
    Reason::AfterSecfrac,
    Reason::AfterUtc,
    Reason::IdentifierStart,
    Reason::ZoneNameStart,
    Reason::InZoneName,
    Reason::AfterZoneSlash,
    Reason::FirstBracketStart,
    Reason::FirstCriticalStart,
    Reason::FirstBracketScan,
    Reason::FirstNameForm,
    Reason::FirstOffsetForm,
    Reason::AfterBracket,
    Reason::KeyStart,
    Reason::CriticalKeyStart,
    Reason::InKey,
    Reason::ValueStart,
    Reason::InValue,
    Reason::AfterValueHyphen,
    Reason::DurationStart,
    Reason::AfterDurationSign,
    Reason::AfterDurationDesignator,
    Reason::AfterDateGroups,
    Reason::AfterTimeDesignator,
    Reason::AfterTimeGroups,
    Reason::AfterFractionGroup,
    Reason::DateGroupDigits,
    Reason::TimeGroupDigits,
    Reason::DateGroupRange,
    Reason::TimeGroupRange,
    Reason::DateUnitOrder,
    Reason::TimeUnitOrder,
    Reason::DateUnitRange,
    Reason::GroupFractionStart,
    Reason::GroupFractionDigits,
    Reason::UnrecognizedCritical,
    Reason::CriticalDuplicateCalendar,
];

/// The names of the reasons with the numbers 1 to 126, in order. A NUL follows each name.
static NAMES: [&[u8]; REASONS] = [
    b"year_start\0",
    b"year_digits\0",
    b"extended_year_digits\0",
    b"minus_zero_year\0",
    b"after_year\0",
    b"month_digits\0",
    b"month_range\0",
    b"after_hyphened_month\0",
    b"after_basic_month\0",
    b"day_digits\0",
    b"day_range\0",
    b"after_date\0",
    b"after_year_in_year_month\0",
    b"after_year_month\0",
    b"month_day_start\0",
    b"month_day_hyphen\0",
    b"month_day_month_digits\0",
    b"month_day_month_range\0",
    b"after_month_day_month\0",
    b"month_day_day_digits\0",
    b"month_day_range\0",
    b"after_month_day\0",
    b"time_start\0",
    b"time_reads_as_month_day\0",
    b"time_reads_as_year_month\0",
    b"hour_start\0",
    b"hour_digit\0",
    b"hour_range\0",
    b"after_hour\0",
    b"minute_digits\0",
    b"minute_range\0",
    b"after_basic_minute\0",
    b"after_colon_minute\0",
    b"second_digits\0",
    b"second_range\0",
    b"after_second\0",
    b"fraction_start\0",
    b"after_fraction\0",
    b"offset_hour_start\0",
    b"offset_hour_digit\0",
    b"offset_hour_range\0",
    b"offset_after_hour\0",
    b"offset_minute_digits\0",
    b"offset_minute_range\0",
    b"offset_after_basic_minute\0",
    b"offset_after_colon_minute\0",
    b"offset_second_digits\0",
    b"offset_second_range\0",
    b"offset_after_second\0",
    b"offset_fraction_start\0",
    b"offset_after_fraction\0",
    b"zone_offset_hour_start\0",
    b"zone_offset_hour_digit\0",
    b"zone_offset_hour_range\0",
    b"zone_offset_after_hour\0",
    b"zone_offset_minute_digits\0",
    b"zone_offset_minute_range\0",
    b"zone_offset_after_basic_minute\0",
    b"zone_offset_after_colon_minute\0",
    b"zone_offset_second_digits\0",
    b"zone_offset_second_range\0",
    b"zone_offset_after_second\0",
    b"zone_offset_fraction_start\0",
    b"zone_offset_after_fraction\0",
    b"offset_start\0",
    b"after_zulu\0",
    b"four_digits\0",
    b"after_four_digits\0",
    b"month_field_digits\0",
    b"day_field_digits\0",
    b"hour_field_digits\0",
    b"minute_field_digits\0",
    b"second_field_digits\0",
    b"offset_hour_field_digits\0",
    b"offset_minute_field_digits\0",
    b"month_field_range\0",
    b"day_field_range\0",
    b"hour_field_range\0",
    b"minute_field_range\0",
    b"second_field_range\0",
    b"offset_hour_field_range\0",
    b"offset_minute_field_range\0",
    b"after_month_field\0",
    b"after_day_field\0",
    b"after_hour_field\0",
    b"after_minute_field\0",
    b"after_second_field\0",
    b"after_offset_hour_field\0",
    b"after_offset_minute_field\0",
    b"after_point\0",
    b"after_secfrac\0",
    b"after_utc\0",
    b"identifier_start\0",
    b"zone_name_start\0",
    b"in_zone_name\0",
    b"after_zone_slash\0",
    b"first_bracket_start\0",
    b"first_critical_start\0",
    b"first_bracket_scan\0",
    b"first_name_form\0",
    b"first_offset_form\0",
    b"after_bracket\0",
    b"key_start\0",
    b"critical_key_start\0",
    b"in_key\0",
    b"value_start\0",
    b"in_value\0",
    b"after_value_hyphen\0",
    b"duration_start\0",
    b"after_duration_sign\0",
    b"after_duration_designator\0",
    b"after_date_groups\0",
    b"after_time_designator\0",
    b"after_time_groups\0",
    b"after_fraction_group\0",
    b"date_group_digits\0",
    b"time_group_digits\0",
    b"date_group_range\0",
    b"time_group_range\0",
    b"date_unit_order\0",
    b"time_unit_order\0",
    b"date_unit_range\0",
    b"group_fraction_start\0",
    b"group_fraction_digits\0",
    b"unrecognized_critical\0",
    b"critical_duplicate_calendar\0",
];

/// Returns the number of a reason. The numbers begin at 1 and follow the order in which `Reason` declares the reasons.
#[inline(always)]
pub fn number_of(reason: Reason) -> u32
    ensures number { result ≡ reason_number reason }
    ensures some { result ≢ 0 }
{
    reason as u32 + 1
}

/// Returns the reason with this number, or `None` if no reason has it.
pub fn reason_by_number(number: u32) -> Option<Reason>
    ensures some { IfSome result (λ reason. reason_number reason ≡ number) }
    ensures none { IfNone result ((reason : AnyReason) → reason_number reason ≢ number) }
{
    if number < 1 || number > 126 {
        return None;
    }
    Some(BY_NUMBER[number as usize - 1])
}

/// Returns the name of the reason with this number, with a NUL after it. If no reason has the number, returns only the NUL.
fn name_and_zero(number: u32) -> &'static [u8]
    ensures { result.now ≡ line_of number ++ (0 ∷ []) }
{
    if number < 1 || number > 126 {
        return b"\0";
    }
    NAMES[number as usize - 1]
}

/// Writes the name of a reason, such as `month_range` for the number 7. It is the name of the variant of `Reason` in
/// lowercase letters, with a `_` between two words. The comment of the variant says which line of the fault table
/// (docs/FAULTS.md) the reason belongs to. The part of an offset after the sign is written like a time. So the table has the
/// same lines for times and for offsets. Each of these lines has three reasons: one for times, one for offsets, and one for
/// offsets that are time zones.
///
/// If no reason has the number, the name is empty. A NUL follows the name in memory. The length of the slice does not count it.
#[unsafe(no_mangle)]
pub extern "C" fn ixdtf_reason_line(number: u32, out: &mut Text<'_>)
    ensures name { (reason : AnyReason) → number ≡ reason_number reason → out.new.bytes.now ≡ reason_name reason }
    ensures none { ((reason : AnyReason) → number ≢ reason_number reason) → out.new.bytes.now ≡ [] }
{
    let name = name_and_zero(number);
    out.bytes = to_c(&name[..name.len() - 1]);
}
