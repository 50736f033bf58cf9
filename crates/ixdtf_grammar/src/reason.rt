//! The reasons why a reader refuses a text.

ghost use Rattle.std.specs.Prelude.{◌≡◌};
ghost use Rattle.ixdtf_grammar.specs.ReasonNames.{reason_name};

/// The reason why a reader refused a text: a line of the fault table, or the refusal of an annotation.
///
/// The fault table is in `docs/FAULTS.md` of the repository. A line of the table says what the text has before the position
/// of the error, and what may follow there. The comment of each variant names its line, if the variant has one. Several
/// reasons can have the same [`ParseError`](crate::ParseError). One reason can have several errors: one if the text ends at
/// the position, and others that depend on the code unit at the position.
///
/// If the name of a line has two words, such as `field_digits month_field`, the second word names the part of the text that
/// the line is about. Times, offsets, and offsets that are time zones have lines with the same names. Each of these three
/// has its own variants. In the comments of the variants, *has to begin* and *has to follow* are about the position of the
/// error: the required part is missing there.
///
/// # Examples
///
/// ```rust
/// use ixdtf::Reason;
/// use ixdtf::parsers::IxdtfParser;
///
/// let error = IxdtfParser::from_str("2024-02-30").parse_located().unwrap_err();
/// assert_eq!(error.reason, Reason::DayRange);
/// let error = IxdtfParser::from_str("2024-2-30").parse_located().unwrap_err();
/// assert_eq!(error.reason, Reason::MonthDigits);
/// ```
#[derive(Clone, Copy, Debug, PartialEq, Eq, Hash)]
pub enum Reason {
    // Dates
    /// Line `year_start`: a year has to begin.
    YearStart,
    /// Line `year_digits`: a digit of a year of four digits has to follow.
    YearDigits,
    /// Line `extended_year_digits`: a digit of a year with a sign and six digits has to follow.
    ExtendedYearDigits,
    /// Line `minus_zero_year`: the year is `-000000`.
    MinusZeroYear,
    /// Line `after_year`: what follows the year of a date does not fit.
    AfterYear,
    /// Line `month_digits`: a digit of the month has to follow.
    MonthDigits,
    /// Line `month_range`: the month is not 01 to 12.
    MonthRange,
    /// Line `after_hyphened_month`: a `-` has to follow the month, because there is a `-` before the month.
    AfterHyphenedMonth,
    /// Line `after_basic_month`: a digit of the day has to follow the month, because there is no `-` before the month.
    AfterBasicMonth,
    /// Line `day_digits`: a digit of the day has to follow.
    DayDigits,
    /// Line `day_range`: the month does not have this day.
    DayRange,
    /// Line `after_date`: what follows the date does not fit.
    AfterDate,
    // Year-months
    /// Line `after_year_in_year_month`: what follows the year of a year-month does not fit.
    AfterYearInYearMonth,
    /// Line `after_year_month`: what follows the year-month does not fit.
    AfterYearMonth,
    // Month-days
    /// Line `month_day_start`: a month-day has to begin.
    MonthDayStart,
    /// Line `month_day_hyphen`: the second `-` of a month-day has to follow.
    MonthDayHyphen,
    /// Line `month_day_month_digits`: a digit of the month of a month-day has to follow.
    MonthDayMonthDigits,
    /// Line `month_day_month_range`: the month of a month-day is not 01 to 12.
    MonthDayMonthRange,
    /// Line `after_month_day_month`: what follows the month of a month-day does not fit.
    AfterMonthDayMonth,
    /// Line `month_day_day_digits`: a digit of the day of a month-day has to follow.
    MonthDayDayDigits,
    /// Line `month_day_range`: the month of a month-day does not have this day in any year.
    MonthDayRange,
    /// Line `after_month_day`: what follows the month-day does not fit.
    AfterMonthDay,
    // Times without a date
    /// Line `time_start`: a time has to begin.
    TimeStart,
    /// Line `time_reads_as_month_day`: the time begins like a month-day.
    TimeReadsAsMonthDay,
    /// Line `time_reads_as_year_month`: the time begins like a year-month.
    TimeReadsAsYearMonth,
    // Times of day
    /// Line `hour_start` of times: the hour has to begin.
    HourStart,
    /// Line `hour_digit` of times: the second digit of the hour has to follow.
    HourDigit,
    /// Line `hour_range` of times: the hour is greater than 23.
    HourRange,
    /// Line `after_hour` of times: what follows the hour does not fit.
    AfterHour,
    /// Line `minute_digits` of times: a digit of the minute has to follow.
    MinuteDigits,
    /// Line `minute_range` of times: the minute is greater than 59.
    MinuteRange,
    /// Line `after_basic_minute` of times: what follows the minute does not fit. There is no `:` before the minute.
    AfterBasicMinute,
    /// Line `after_colon_minute` of times: what follows the minute does not fit. There is a `:` before the minute.
    AfterColonMinute,
    /// Line `second_digits` of times: a digit of the second has to follow.
    SecondDigits,
    /// Line `second_range` of times: the second is greater than 60.
    SecondRange,
    /// Line `after_second` of times: what follows the second does not fit.
    AfterSecond,
    /// Line `fraction_start` of times: a digit of the fraction has to follow.
    FractionStart,
    /// Line `after_fraction` of times: what follows the fraction does not fit.
    AfterFraction,
    // Offsets after a time, and offsets without a time
    /// Line `hour_start` of offsets: the hour has to begin.
    OffsetHourStart,
    /// Line `hour_digit` of offsets: the second digit of the hour has to follow.
    OffsetHourDigit,
    /// Line `hour_range` of offsets: the hour is greater than 23.
    OffsetHourRange,
    /// Line `after_hour` of offsets: what follows the hour does not fit.
    OffsetAfterHour,
    /// Line `minute_digits` of offsets: a digit of the minute has to follow.
    OffsetMinuteDigits,
    /// Line `minute_range` of offsets: the minute is greater than 59.
    OffsetMinuteRange,
    /// Line `after_basic_minute` of offsets: what follows the minute does not fit. There is no `:` before the minute.
    OffsetAfterBasicMinute,
    /// Line `after_colon_minute` of offsets: what follows the minute does not fit. There is a `:` before the minute.
    OffsetAfterColonMinute,
    /// Line `second_digits` of offsets: a digit of the second has to follow.
    OffsetSecondDigits,
    /// Line `second_range` of offsets: the second is greater than 59.
    OffsetSecondRange,
    /// Line `after_second` of offsets: what follows the second does not fit.
    OffsetAfterSecond,
    /// Line `fraction_start` of offsets: a digit of the fraction has to follow.
    OffsetFractionStart,
    /// Line `after_fraction` of offsets: what follows the fraction does not fit.
    OffsetAfterFraction,
    // Offsets that are time zones
    /// Line `hour_start` of offsets that are time zones: the hour has to begin.
    ZoneOffsetHourStart,
    /// Line `hour_digit` of offsets that are time zones: the second digit of the hour has to follow.
    ZoneOffsetHourDigit,
    /// Line `hour_range` of offsets that are time zones: the hour is greater than 23.
    ZoneOffsetHourRange,
    /// Line `after_hour` of offsets that are time zones: what follows the hour does not fit.
    ZoneOffsetAfterHour,
    /// Line `minute_digits` of offsets that are time zones: a digit of the minute has to follow.
    ZoneOffsetMinuteDigits,
    /// Line `minute_range` of offsets that are time zones: the minute is greater than 59.
    ZoneOffsetMinuteRange,
    /// Line `after_basic_minute` of offsets that are time zones: what follows the minute does not fit. There is no `:` before the
    /// minute.
    ZoneOffsetAfterBasicMinute,
    /// Line `after_colon_minute` of offsets that are time zones: what follows the minute does not fit. There is a `:` before the
    /// minute.
    ZoneOffsetAfterColonMinute,
    /// Line `second_digits` of offsets that are time zones. No text has this reason, because such an offset has no seconds.
    ZoneOffsetSecondDigits,
    /// Line `second_range` of offsets that are time zones. No text has this reason, because such an offset has no seconds.
    ZoneOffsetSecondRange,
    /// Line `after_second` of offsets that are time zones. No text has this reason, because such an offset has no seconds.
    ZoneOffsetAfterSecond,
    /// Line `fraction_start` of offsets that are time zones. No text has this reason, because such an offset has no seconds.
    ZoneOffsetFractionStart,
    /// Line `after_fraction` of offsets that are time zones. No text has this reason, because such an offset has no seconds.
    ZoneOffsetAfterFraction,
    // The other lines of offsets
    /// Line `offset_start`: an offset has to begin.
    OffsetStart,
    /// Line `after_zulu`: what follows the `Z` does not fit.
    AfterZulu,
    // Date-times of RFC 3339
    /// Line `four_digits`, in `parse_rfc3339` and `parse_rfc9557`: one of the four digits of the year has to follow.
    FourDigits,
    /// Line `after_four_digits`, in `parse_rfc3339` and `parse_rfc9557`: a `-` has to follow the year.
    AfterFourDigits,
    /// Line `field_digits month_field`, in `parse_rfc3339` and `parse_rfc9557`: a digit of the month has to follow.
    MonthFieldDigits,
    /// Line `field_digits day_field`, in `parse_rfc3339` and `parse_rfc9557`: a digit of the day has to follow.
    DayFieldDigits,
    /// Line `field_digits hour_field`, in `parse_rfc3339` and `parse_rfc9557`: a digit of the hour has to follow.
    HourFieldDigits,
    /// Line `field_digits minute_field`, in `parse_rfc3339` and `parse_rfc9557`: a digit of the minute has to follow.
    MinuteFieldDigits,
    /// Line `field_digits second_field`, in `parse_rfc3339` and `parse_rfc9557`: a digit of the second has to follow.
    SecondFieldDigits,
    /// Line `field_digits offset_hour_field`, in `parse_rfc3339` and `parse_rfc9557`: a digit of the hour of the offset has to
    /// follow.
    OffsetHourFieldDigits,
    /// Line `field_digits offset_minute_field`, in `parse_rfc3339` and `parse_rfc9557`: a digit of the minute of the offset
    /// has to follow.
    OffsetMinuteFieldDigits,
    /// Line `field_range month_field`, in `parse_rfc3339` and `parse_rfc9557`: the month is not 01 to 12.
    MonthFieldRange,
    /// Line `field_range day_field`, in `parse_rfc3339` and `parse_rfc9557`: the day is not a day of the month.
    DayFieldRange,
    /// Line `field_range hour_field`, in `parse_rfc3339` and `parse_rfc9557`: the hour is greater than 23.
    HourFieldRange,
    /// Line `field_range minute_field`, in `parse_rfc3339` and `parse_rfc9557`: the minute is greater than 59.
    MinuteFieldRange,
    /// Line `field_range second_field`, in `parse_rfc3339` and `parse_rfc9557`: the second is greater than 60.
    SecondFieldRange,
    /// Line `field_range offset_hour_field`, in `parse_rfc3339` and `parse_rfc9557`: the hour of the offset is greater than 23.
    OffsetHourFieldRange,
    /// Line `field_range offset_minute_field`, in `parse_rfc3339` and `parse_rfc9557`: the minute of the offset is greater
    /// than 59.
    OffsetMinuteFieldRange,
    /// Line `after_field month_field`, in `parse_rfc3339` and `parse_rfc9557`: a `-` has to follow the month.
    AfterMonthField,
    /// Line `after_field day_field`, in `parse_rfc3339` and `parse_rfc9557`: a `T` has to follow the day.
    AfterDayField,
    /// Line `after_field hour_field`, in `parse_rfc3339` and `parse_rfc9557`: a `:` has to follow the hour.
    AfterHourField,
    /// Line `after_field minute_field`, in `parse_rfc3339` and `parse_rfc9557`: a `:` has to follow the minute.
    AfterMinuteField,
    /// Line `after_field second_field`, in `parse_rfc3339` and `parse_rfc9557`: a fraction or an offset has to follow the second.
    AfterSecondField,
    /// Line `after_field offset_hour_field`, in `parse_rfc3339` and `parse_rfc9557`: a `:` has to follow the hour of the offset.
    AfterOffsetHourField,
    /// Line `after_field offset_minute_field`, in `parse_rfc3339` and `parse_rfc9557`: what follows the minute of the offset does
    /// not fit.
    AfterOffsetMinuteField,
    /// Line `after_point`, in `parse_rfc3339` and `parse_rfc9557`: a digit of the fraction has to follow.
    AfterPoint,
    /// Line `after_secfrac`, in `parse_rfc3339` and `parse_rfc9557`: either an offset or another digit of the fraction has to
    /// follow.
    AfterSecfrac,
    /// Line `after_utc`, in `parse_rfc3339` and `parse_rfc9557`: what follows the `Z` does not fit.
    AfterUtc,
    // Names of time zones
    /// Line `identifier_start`: a time zone, which is a name or an offset, has to begin.
    IdentifierStart,
    /// Line `zone_name_start`: the name of a time zone has to begin.
    ZoneNameStart,
    /// Line `in_zone_name`: what follows the beginning of the name of a time zone does not fit.
    InZoneName,
    /// Line `after_zone_slash`: a character of a name has to follow the `/` in the name of a time zone.
    AfterZoneSlash,
    // Brackets
    /// Line `first_bracket_start`: what follows the `[` of the first bracket does not fit.
    FirstBracketStart,
    /// Line `first_critical_start`: what follows the `[!` of the first bracket does not fit.
    FirstCriticalStart,
    /// Line `first_bracket_scan`: the content of the first bracket begins with a lowercase letter or `_`. After it, the text ends, or
    /// has a 16-bit code unit outside 1 to 126, before any `=` or `]`.
    FirstBracketScan,
    /// Lines `first_dots_form` and `first_name_form`, in `parse_rfc9557`: the grammar of RFC 9557, section 4.1, does not allow
    /// this name of a time zone. Slashes divide the name into parts. A part must not be `.` or `..`, and it must begin with an ASCII
    /// letter, `.` or `_`. At least one part does not meet these two conditions.
    FirstNameForm,
    /// Line `first_offset_form`, in `parse_rfc9557`: the offset in the first bracket has no minutes, or no `:` before them.
    FirstOffsetForm,
    /// Line `after_bracket`: what follows a bracket does not fit.
    AfterBracket,
    // Annotations
    /// Line `key_start`: a key or a `!` has to follow the `[`.
    KeyStart,
    /// Line `critical_key_start`: a key has to follow the `[!`.
    CriticalKeyStart,
    /// Line `in_key`: after the beginning of the key, a key character or `=` has to follow.
    InKey,
    /// Line `value_start`: a value has to follow the `=`.
    ValueStart,
    /// Line `in_value`: after the beginning of the value, a letter, a digit, a `-` or `]` has to follow.
    InValue,
    /// Line `after_value_hyphen`: a letter or a digit has to follow the `-` in the value.
    AfterValueHyphen,
    // Durations
    /// Line `duration_start`: a duration has to begin.
    DurationStart,
    /// Line `after_duration_sign`: a `P` has to follow the sign.
    AfterDurationSign,
    /// Line `after_duration_designator`: a number or a `T` has to follow the `P`.
    AfterDurationDesignator,
    /// Line `after_date_groups`: what follows the years, months, weeks and days does not fit.
    AfterDateGroups,
    /// Line `after_time_designator`: a number has to follow the `T`.
    AfterTimeDesignator,
    /// Line `after_time_groups`: what follows the hours, minutes and seconds does not fit.
    AfterTimeGroups,
    /// Line `after_fraction_group`: the text has to end after the unit of a number with a fraction, as after `PT1.5H`.
    AfterFractionGroup,
    /// Line `group_digits date`: another digit or a unit has to follow the number of years, months, weeks or days.
    DateGroupDigits,
    /// Line `group_digits time`: another digit, a fraction or a unit has to follow the number of hours, minutes or seconds.
    TimeGroupDigits,
    /// Line `group_value_range date`: the number of years, months, weeks or days is 2^64 or greater.
    DateGroupRange,
    /// Line `group_value_range time`: the number of hours, minutes or seconds is 2^64 or greater.
    TimeGroupRange,
    /// Line `unit_order date`: the years, months, weeks and days are not in this order. Under the strict profile, a
    /// repeated unit also has this reason.
    DateUnitOrder,
    /// Line `unit_order time`: the hours, minutes and seconds are not in this order. Under the strict profile, a repeated
    /// unit also has this reason.
    TimeUnitOrder,
    /// Line `date_unit_range`: the number of years, months or weeks is 2^32 or greater.
    DateUnitRange,
    /// Line `group_fraction_start`: a digit of the fraction has to follow.
    GroupFractionStart,
    /// Line `group_fraction_digits`: another digit or a unit has to follow the fraction.
    GroupFractionDigits,
    // Refused annotations
    /// An annotation is critical, and its key is not `u-ca`. This variant has no line.
    UnrecognizedCritical,
    /// The first annotation with the key `u-ca` and a later one have different values, and at least one of the two is
    /// critical. This variant has no line.
    CriticalDuplicateCalendar,
}

const _: () = prove!(size_of::<Reason>() == 1);

impl Reason {
    /// Returns the name of the reason, such as `month_range`.
    ///
    /// It is the name of the variant in lowercase letters, with a `_` between two words. No two reasons have the same name. A program
    /// can write the name into a report, so that other programs can read it. `docs/FAULTS.md` of the repository lists the reasons by
    /// the names of their variants.
    ///
    /// # Examples
    ///
    /// ```rust
    /// use ixdtf::parsers::IxdtfParser;
    ///
    /// let error = IxdtfParser::from_str("2024-13-01").parse_located().unwrap_err();
    /// assert_eq!(error.reason.name(), "month_range");
    /// ```
    pub fn name(self) -> &'static str
        ensures { result.now ≡ reason_name self }
    {
        match self {
            Reason::YearStart => "year_start",
            Reason::YearDigits => "year_digits",
            Reason::ExtendedYearDigits => "extended_year_digits",
            Reason::MinusZeroYear => "minus_zero_year",
            Reason::AfterYear => "after_year",
            Reason::MonthDigits => "month_digits",
            Reason::MonthRange => "month_range",
            Reason::AfterHyphenedMonth => "after_hyphened_month",
            Reason::AfterBasicMonth => "after_basic_month",
            Reason::DayDigits => "day_digits",
            Reason::DayRange => "day_range",
            Reason::AfterDate => "after_date",
            Reason::AfterYearInYearMonth => "after_year_in_year_month",
            Reason::AfterYearMonth => "after_year_month",
            Reason::MonthDayStart => "month_day_start",
            Reason::MonthDayHyphen => "month_day_hyphen",
            Reason::MonthDayMonthDigits => "month_day_month_digits",
            Reason::MonthDayMonthRange => "month_day_month_range",
            Reason::AfterMonthDayMonth => "after_month_day_month",
            Reason::MonthDayDayDigits => "month_day_day_digits",
            Reason::MonthDayRange => "month_day_range",
            Reason::AfterMonthDay => "after_month_day",
            Reason::TimeStart => "time_start",
            Reason::TimeReadsAsMonthDay => "time_reads_as_month_day",
            Reason::TimeReadsAsYearMonth => "time_reads_as_year_month",
            Reason::HourStart => "hour_start",
            Reason::HourDigit => "hour_digit",
            Reason::HourRange => "hour_range",
            Reason::AfterHour => "after_hour",
            Reason::MinuteDigits => "minute_digits",
            Reason::MinuteRange => "minute_range",
            Reason::AfterBasicMinute => "after_basic_minute",
            Reason::AfterColonMinute => "after_colon_minute",
            Reason::SecondDigits => "second_digits",
            Reason::SecondRange => "second_range",
            Reason::AfterSecond => "after_second",
            Reason::FractionStart => "fraction_start",
            Reason::AfterFraction => "after_fraction",
            Reason::OffsetHourStart => "offset_hour_start",
            Reason::OffsetHourDigit => "offset_hour_digit",
            Reason::OffsetHourRange => "offset_hour_range",
            Reason::OffsetAfterHour => "offset_after_hour",
            Reason::OffsetMinuteDigits => "offset_minute_digits",
            Reason::OffsetMinuteRange => "offset_minute_range",
            Reason::OffsetAfterBasicMinute => "offset_after_basic_minute",
            Reason::OffsetAfterColonMinute => "offset_after_colon_minute",
            Reason::OffsetSecondDigits => "offset_second_digits",
            Reason::OffsetSecondRange => "offset_second_range",
            Reason::OffsetAfterSecond => "offset_after_second",
            Reason::OffsetFractionStart => "offset_fraction_start",
            Reason::OffsetAfterFraction => "offset_after_fraction",
            Reason::ZoneOffsetHourStart => "zone_offset_hour_start",
            Reason::ZoneOffsetHourDigit => "zone_offset_hour_digit",
            Reason::ZoneOffsetHourRange => "zone_offset_hour_range",
            Reason::ZoneOffsetAfterHour => "zone_offset_after_hour",
            Reason::ZoneOffsetMinuteDigits => "zone_offset_minute_digits",
            Reason::ZoneOffsetMinuteRange => "zone_offset_minute_range",
            Reason::ZoneOffsetAfterBasicMinute => "zone_offset_after_basic_minute",
            Reason::ZoneOffsetAfterColonMinute => "zone_offset_after_colon_minute",
            Reason::ZoneOffsetSecondDigits => "zone_offset_second_digits",
            Reason::ZoneOffsetSecondRange => "zone_offset_second_range",
            Reason::ZoneOffsetAfterSecond => "zone_offset_after_second",
            Reason::ZoneOffsetFractionStart => "zone_offset_fraction_start",
            Reason::ZoneOffsetAfterFraction => "zone_offset_after_fraction",
            Reason::OffsetStart => "offset_start",
            Reason::AfterZulu => "after_zulu",
            Reason::FourDigits => "four_digits",
            Reason::AfterFourDigits => "after_four_digits",
            Reason::MonthFieldDigits => "month_field_digits",
            Reason::DayFieldDigits => "day_field_digits",
            Reason::HourFieldDigits => "hour_field_digits",
            Reason::MinuteFieldDigits => "minute_field_digits",
            Reason::SecondFieldDigits => "second_field_digits",
            Reason::OffsetHourFieldDigits => "offset_hour_field_digits",
            Reason::OffsetMinuteFieldDigits => "offset_minute_field_digits",
            Reason::MonthFieldRange => "month_field_range",
            Reason::DayFieldRange => "day_field_range",
            Reason::HourFieldRange => "hour_field_range",
            Reason::MinuteFieldRange => "minute_field_range",
            Reason::SecondFieldRange => "second_field_range",
            Reason::OffsetHourFieldRange => "offset_hour_field_range",
            Reason::OffsetMinuteFieldRange => "offset_minute_field_range",
            Reason::AfterMonthField => "after_month_field",
            Reason::AfterDayField => "after_day_field",
            Reason::AfterHourField => "after_hour_field",
            Reason::AfterMinuteField => "after_minute_field",
            Reason::AfterSecondField => "after_second_field",
            Reason::AfterOffsetHourField => "after_offset_hour_field",
            Reason::AfterOffsetMinuteField => "after_offset_minute_field",
            Reason::AfterPoint => "after_point",
            Reason::AfterSecfrac => "after_secfrac",
            Reason::AfterUtc => "after_utc",
            Reason::IdentifierStart => "identifier_start",
            Reason::ZoneNameStart => "zone_name_start",
            Reason::InZoneName => "in_zone_name",
            Reason::AfterZoneSlash => "after_zone_slash",
            Reason::FirstBracketStart => "first_bracket_start",
            Reason::FirstCriticalStart => "first_critical_start",
            Reason::FirstBracketScan => "first_bracket_scan",
            Reason::FirstNameForm => "first_name_form",
            Reason::FirstOffsetForm => "first_offset_form",
            Reason::AfterBracket => "after_bracket",
            Reason::KeyStart => "key_start",
            Reason::CriticalKeyStart => "critical_key_start",
            Reason::InKey => "in_key",
            Reason::ValueStart => "value_start",
            Reason::InValue => "in_value",
            Reason::AfterValueHyphen => "after_value_hyphen",
            Reason::DurationStart => "duration_start",
            Reason::AfterDurationSign => "after_duration_sign",
            Reason::AfterDurationDesignator => "after_duration_designator",
            Reason::AfterDateGroups => "after_date_groups",
            Reason::AfterTimeDesignator => "after_time_designator",
            Reason::AfterTimeGroups => "after_time_groups",
            Reason::AfterFractionGroup => "after_fraction_group",
            Reason::DateGroupDigits => "date_group_digits",
            Reason::TimeGroupDigits => "time_group_digits",
            Reason::DateGroupRange => "date_group_range",
            Reason::TimeGroupRange => "time_group_range",
            Reason::DateUnitOrder => "date_unit_order",
            Reason::TimeUnitOrder => "time_unit_order",
            Reason::DateUnitRange => "date_unit_range",
            Reason::GroupFractionStart => "group_fraction_start",
            Reason::GroupFractionDigits => "group_fraction_digits",
            Reason::UnrecognizedCritical => "unrecognized_critical",
            Reason::CriticalDuplicateCalendar => "critical_duplicate_calendar",
        }
    }
}
