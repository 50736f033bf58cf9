//! Hints that say what to change in a text that a reader refused.

ghost use Rattle.std.specs.Prelude.{◌≡◌, length, min};
ghost use Rattle.ixdtf_explanations.specs.Hints.{IsHint, tip_of, or_else, hint, at_end, at_bracket, at_start};

mod brackets;
mod dates;
mod durations;
mod offsets;
mod shapes;
mod times;

use crate::hint::brackets::{
    after_slash, after_zone, at_first_key, at_key, at_zone_name, in_key, in_zone_name,
};
use crate::hint::dates::{
    after_date, after_date_field, after_four_digits, after_month, after_year, at_date,
    before_hyphen, in_day, in_four_digits, in_month, in_year, month_range, unix_time,
};
use crate::hint::durations::{
    after_designator, after_group, at_duration, in_date_number, in_time_number, unit_order,
};
use crate::hint::offsets::{
    after_offset, after_offset_field, after_offset_hour, after_offset_minute, after_rfc3339,
    at_offset, before_offset,
};
use crate::hint::shapes::{after_space, byte_at, is_blank, is_white_space};
use crate::hint::times::{
    after_minute, after_minute_field, after_second, at_hour, date_before_time, hour_range,
    in_clock, in_hour,
};
use crate::located::{LocatedError, LocatedReason};
use crate::message::{Message, Shown, shown_first, shown_part};
use ixdtf_grammar::Reason;

/// The words of a hint, and what it shows of the text.
#[derive(Clone, Copy)]
enum Hint {
    /// There is no hint.
    Nothing,
    /// Words alone.
    Fixed(&'static str),
    /// Words, and then all bytes before the position of the error.
    BeforeFront(&'static str),
    /// Words, and then the character at the position, or after the space at the position.
    BeforeNext(&'static str),
    /// The byte before the position, between two fixed parts of the hint.
    AroundLast(&'static str, &'static str),
}

impl LocatedError {
    /// Returns a hint that says what to change in the text, or `None` if there is no hint for this text.
    ///
    /// The message of [`message_in`](LocatedError::message_in) says what the reader expected. A hint also looks at the bytes
    /// around the position of the error, and says which mistake the text has. Many texts have no hint. `docs/FAULTS.md` has
    /// the condition and the words of each hint.
    ///
    /// `text` must be the complete source of the parser that returned this error. This parser must not have returned `Ok`
    /// before. [`in_text`](LocatedError::in_text) has the same two conditions. If the source has 8-bit code units, `text` is
    /// the source itself, which need not be valid UTF-8. If the source has 16-bit code units, `text` must be this source,
    /// converted to UTF-8.
    ///
    /// # Examples
    ///
    /// ```rust
    /// use ixdtf::parsers::IxdtfParser;
    ///
    /// let text = "2024-3-02";
    /// let error = IxdtfParser::from_str(text).parse_located().unwrap_err();
    /// let hint = error.hint_in(text.as_bytes()).map(|hint| hint.to_string());
    /// assert_eq!(hint.as_deref(), Some("write the month as `03`"));
    ///
    /// let text = "2024-13-02";
    /// let error = IxdtfParser::from_str(text).parse_located().unwrap_err();
    /// assert!(error.hint_in(text.as_bytes()).is_none());
    /// ```
    pub fn hint_in<'a>(&self, text: &'a [u8]) -> Option<Message<'a>>
        ensures hint { IsHint self.now.reason text.now (min self.now.at (length text.now)) result }
    {
        self.located_reason().hint_in(text)
    }
}

impl LocatedReason {
    /// Returns the hint about an error with this reason and this position, as [`LocatedError::hint_in`] does.
    pub fn hint_in(self, text: &[u8]) -> Option<Message<'_>>
        ensures hint { IsHint self.reason text.now (min self.at (length text.now)) result }
    {
        let at = self.at.min(text.len());
        let (front, rest) = text.split_at(at);
        match hint_of(self.reason, text, front, rest) {
            Hint::Nothing => None,
            Hint::Fixed(words) => Some(Message {
                before: words,
                shown: Shown::Nothing,
                after: "",
            }),
            Hint::BeforeFront(words) => Some(Message {
                before: words,
                shown: shown_part(front),
                after: "",
            }),
            Hint::BeforeNext(words) => Some(Message {
                before: words,
                shown: shown_first(after_space(rest)),
                after: "",
            }),
            Hint::AroundLast(before, after) => {
                let (_, last) = front.split_at(front.len().saturating_sub(1));
                Some(Message {
                    before,
                    shown: shown_part(last),
                    after,
                })
            }
        }
    }
}

impl Hint {
    /// Returns this hint, or the other one if this one says nothing.
    fn or_else(self, other: Hint) -> Hint
        ensures { tip_of result ≡ or_else (tip_of self) (tip_of other) }
    {
        match self {
            Hint::Nothing => other,
            Hint::Fixed(_) | Hint::BeforeFront(_) | Hint::BeforeNext(_) | Hint::AroundLast(_, _) =>
                self,
        }
    }
}

/// Returns the hint for a reason. The position of the error is between the last two parts of the text.
fn hint_of(reason: Reason, text: &[u8], front: &[u8], rest: &[u8]) -> Hint
    ensures { tip_of result ≡ hint reason text.now front.now rest.now }
{
    match reason {
        Reason::YearStart => at_date(rest),
        Reason::YearDigits => in_year(front, rest),
        Reason::ExtendedYearDigits => Hint::Fixed("write a year with a sign like +012024"),
        Reason::AfterYear | Reason::AfterYearInYearMonth => after_year(rest),
        Reason::MonthDigits | Reason::MonthDayMonthDigits | Reason::MonthFieldDigits => in_month(
            front, rest,
        ),
        Reason::MonthRange | Reason::MonthFieldRange => month_range(text, front, rest),
        Reason::AfterHyphenedMonth | Reason::AfterMonthField => after_month(rest),
        Reason::DayDigits | Reason::MonthDayDayDigits | Reason::DayFieldDigits => in_day(
            front, rest,
        ),
        Reason::DayRange => unix_time(text),
        Reason::AfterDate => after_date(text, rest),
        Reason::AfterYearMonth | Reason::AfterMonthDay | Reason::AfterZulu | Reason::AfterBracket =>
            at_bracket(rest),
        Reason::MonthDayStart | Reason::TimeStart => at_start(rest),
        Reason::DurationStart => at_duration(rest),
        Reason::MonthDayHyphen | Reason::AfterMonthDayMonth => before_hyphen(rest),
        Reason::HourStart => at_hour(front, rest),
        Reason::HourDigit | Reason::HourFieldDigits => in_hour(front, rest),
        Reason::HourRange | Reason::HourFieldRange => hour_range(text, front, rest),
        Reason::AfterHour | Reason::AfterBasicMinute | Reason::AfterColonMinute => after_minute(
            rest,
        ),
        Reason::MinuteDigits | Reason::MinuteFieldDigits => in_clock(
            "write the minute as `0",
            front,
            rest,
        ),
        Reason::MinuteRange => date_before_time(text, front),
        Reason::SecondDigits | Reason::SecondFieldDigits => in_clock(
            "write the second as `0",
            front,
            rest,
        ),
        Reason::AfterSecond | Reason::AfterFraction => after_second(rest),
        Reason::OffsetHourDigit | Reason::ZoneOffsetHourDigit | Reason::OffsetHourFieldDigits =>
            in_clock("write the offset's hour as `0", front, rest),
        Reason::OffsetAfterHour => after_offset_hour(text, front, rest),
        Reason::OffsetMinuteDigits
        | Reason::ZoneOffsetMinuteDigits
        | Reason::OffsetMinuteFieldDigits => in_clock(
            "write the offset's minute as `0",
            front,
            rest,
        ),
        Reason::OffsetAfterBasicMinute | Reason::OffsetAfterColonMinute => after_offset_minute(
            front, rest,
        ),
        Reason::OffsetSecondDigits => in_clock("write the offset's second as `0", front, rest),
        Reason::OffsetAfterSecond | Reason::OffsetAfterFraction => after_offset(front, rest),
        Reason::ZoneOffsetAfterHour
        | Reason::ZoneOffsetAfterBasicMinute
        | Reason::ZoneOffsetAfterColonMinute => after_zone(front, rest),
        Reason::OffsetStart | Reason::IdentifierStart => at_offset(rest),
        Reason::FourDigits => in_four_digits(front, rest),
        Reason::AfterFourDigits => after_four_digits(text, rest),
        Reason::AfterDayField => after_date_field(rest),
        Reason::AfterHourField | Reason::AfterMinuteField => after_minute_field(rest),
        Reason::AfterSecondField | Reason::AfterSecfrac => before_offset(rest),
        Reason::AfterOffsetMinuteField => after_offset_field(rest),
        Reason::AfterUtc => after_rfc3339(rest),
        Reason::AfterFractionGroup => at_end(rest),
        Reason::ZoneNameStart => at_zone_name(rest),
        Reason::InZoneName => in_zone_name(front, rest),
        Reason::AfterZoneSlash => after_slash(rest),
        Reason::FirstBracketStart | Reason::FirstCriticalStart => at_first_key(rest),
        Reason::KeyStart | Reason::CriticalKeyStart => at_key(rest),
        Reason::InKey => in_key(front, rest),
        Reason::AfterDurationDesignator | Reason::AfterTimeDesignator => after_designator(rest),
        Reason::AfterDateGroups | Reason::AfterTimeGroups => after_group(rest),
        Reason::DateGroupDigits => in_date_number(rest),
        Reason::TimeGroupDigits => in_time_number(rest),
        Reason::DateUnitOrder => unit_order(front),
        Reason::UnrecognizedCritical => Hint::Fixed("remove `!` if the annotation may be ignored"),
        // The reasons without a hint: of dates, of times, of offsets, of brackets and of durations. Nothing is sure that the message
        // does not say.
        Reason::MinusZeroYear
        | Reason::AfterBasicMonth
        | Reason::MonthDayMonthRange
        | Reason::MonthDayRange
        | Reason::DayFieldRange => Hint::Nothing,
        Reason::TimeReadsAsMonthDay | Reason::TimeReadsAsYearMonth => Hint::Nothing,
        Reason::SecondRange
        | Reason::MinuteFieldRange
        | Reason::SecondFieldRange
        | Reason::FractionStart
        | Reason::AfterPoint => Hint::Nothing,
        Reason::OffsetHourStart
        | Reason::OffsetHourRange
        | Reason::OffsetMinuteRange
        | Reason::OffsetSecondRange
        | Reason::OffsetFractionStart
        | Reason::OffsetHourFieldRange
        | Reason::OffsetMinuteFieldRange
        | Reason::AfterOffsetHourField => Hint::Nothing,
        Reason::ZoneOffsetHourStart
        | Reason::ZoneOffsetHourRange
        | Reason::ZoneOffsetMinuteRange
        | Reason::ZoneOffsetSecondDigits
        | Reason::ZoneOffsetSecondRange
        | Reason::ZoneOffsetAfterSecond
        | Reason::ZoneOffsetFractionStart
        | Reason::ZoneOffsetAfterFraction => Hint::Nothing,
        Reason::FirstBracketScan
        | Reason::FirstNameForm
        | Reason::FirstOffsetForm
        | Reason::ValueStart
        | Reason::InValue
        | Reason::AfterValueHyphen
        | Reason::CriticalDuplicateCalendar => Hint::Nothing,
        Reason::AfterDurationSign
        | Reason::DateGroupRange
        | Reason::TimeGroupRange
        | Reason::TimeUnitOrder
        | Reason::DateUnitRange
        | Reason::GroupFractionStart
        | Reason::GroupFractionDigits => Hint::Nothing,
    }
}

/// Returns the hint where the text may end.
fn at_end(rest: &[u8]) -> Hint
    ensures { tip_of result ≡ at_end rest.now }
{
    if is_white_space(rest) {
        Hint::Fixed("remove the white space at the end")
    } else if byte_at(rest, 0) == b'/'
        && (byte_at(rest, 1).is_ascii_digit() || matches!(byte_at(rest, 1), b'P' | b'p'))
    {
        Hint::Fixed("an interval is not read; read the texts before and after the `/`")
    } else {
        Hint::Nothing
    }
}

/// Returns the hint where the text may end, or a bracket may begin.
fn at_bracket(rest: &[u8]) -> Hint
    ensures { tip_of result ≡ at_bracket rest.now }
{
    if byte_at(rest, 0) == b' ' && byte_at(rest, 1) == b'[' {
        Hint::BeforeNext("remove the space before ")
    } else {
        at_end(rest)
    }
}

/// Returns the hint at the beginning of a text.
fn at_start(rest: &[u8]) -> Hint
    ensures { tip_of result ≡ at_start rest.now }
{
    if is_blank(byte_at(rest, 0)) {
        Hint::Fixed("remove the white space at the start")
    } else {
        Hint::Nothing
    }
}
