//! Functions that read times of day, and offsets after their sign. Both are written in the same way.

#![tactic(auto, unfolding(ixdtf_reading::specs::reading::Times::time_readings))]

ghost use Rattle.std.specs.Prelude.{◌≡◌, ◌+◌, ◌≤◌, ◌∷◌, [], map, nat_le, false, true, None, IsTrue, option_map};
ghost use Rattle.ixdtf_grammar.specs.language.Letters.{Text, digit};
ghost use Rattle.ixdtf_grammar.specs.language.Letters.Letter.{Plain};
ghost use Rattle.ixdtf_grammar.specs.language.Fractions.{fraction_of};
ghost use Rattle.ixdtf_grammar.specs.language.Times.{Clock as GrammarClock, Clock as clocks, greatest_second, writes_seconds};
ghost use Rattle.ixdtf_grammar.specs.table.LineNames.ClockLine.{hour_digit, hour_range, minute_digits, second_digits};
ghost use Rattle.ixdtf_grammar.specs.table.LineNames.LineName.{of_clock};
ghost use Rattle.ixdtf_grammar.specs.table.Lines.{seconds_after};
ghost use Rattle.ixdtf_reading.specs.reading.Clauses.{Reads, Spends, SpendsOr, Checks, YieldsAt, clock_by, end_look, fraction_by, more_digits_at, number_at_most};
ghost use Rattle.ixdtf_times.specs.TimeTypes.{clock_of, clock_line_of, shape_of, open_time_of, time_to_second};
ghost use Rattle.ixdtf_reading.specs.reading.FixedPlaces.{time_place};
ghost use Rattle.ixdtf_reading.specs.reading.Looks.{error_of, peek_by, seen};
ghost use Rattle.ixdtf_reading.specs.reading.Stops.{reason_of};
ghost use Rattle.ixdtf_reading.specs.reading.Times.{time_of, second_start, clock_at, fraction_at, line_after, minute_at, minutes_shape, minute_past, number_at, second_at, second_past, after_second_at};

use ixdtf_grammar::Reason;
use ixdtf_grammar::encoding::EncodingType;
use ixdtf_grammar::records::{Fraction, LeadingDigits, TimeRecord};
use ixdtf_reading::classes::{is_decimal_separator, is_time_separator};
use ixdtf_reading::cursor::Cursor;

/// What a function reads: a time, or one of two kinds of offsets. After its sign, an offset is written like a time.
#[derive(Clone, Copy)]
pub enum Clock {
    /// A time of day.
    Time,
    /// An offset from UTC, after its sign.
    Offset,
    /// An offset without seconds, after its sign.
    MinuteOffset,
}

impl Clock {
    /// Returns whether a second begins at the byte after a minute: at a colon if the time has colons, and otherwise at
    /// a digit. An offset without seconds has no second, so the result is `false` for it.
    #[inline(always)]
    fn starts_second(self, colons: bool, byte: u8) -> bool
        ensures { result ≡ seconds_after (clock_of self) (second_start colons) byte }
    {
        match self {
            Clock::Time | Clock::Offset if colons => is_time_separator(byte),
            Clock::Time | Clock::Offset => byte.is_ascii_digit(),
            Clock::MinuteOffset => false,
        }
    }

    /// Returns the greatest second.
    #[inline(always)]
    fn greatest_second(self) -> u8
        ensures { result ≡ greatest_second (clock_of self) }
    {
        match self {
            Clock::Time => 60,
            Clock::Offset | Clock::MinuteOffset => 59,
        }
    }

    /// Returns the `Reason` for an error directly after a time or an offset. `shape` says which parts the time or the
    /// offset has. `self` says which of the two it is.
    #[inline(always)]
    pub fn stop_after(self, shape: TimeShape) -> Reason
        ensures { result ≡ reason_of (line_after (clock_of self) (shape_of shape)) }
    {
        match shape {
            TimeShape::Hours => self.stop(ClockLine::AfterHour),
            TimeShape::BasicMinutes => self.stop(ClockLine::AfterBasicMinute),
            TimeShape::ColonMinutes => self.stop(ClockLine::AfterColonMinute),
            TimeShape::Seconds => self.stop(ClockLine::AfterSecond),
            TimeShape::Fractions => self.stop(ClockLine::AfterFraction),
        }
    }

    /// Returns the `Reason` of the table line after a minute. `colons` says whether a colon is before the minute.
    #[inline(always)]
    fn stop_after_minute(self, colons: bool) -> Reason
        ensures { result ≡ reason_of (line_after (clock_of self) (minutes_shape colons)) }
    {
        if colons {
            self.stop(ClockLine::AfterColonMinute)
        } else {
            self.stop(ClockLine::AfterBasicMinute)
        }
    }

    /// Returns the `Reason` of the table line `line` for this clock.
    #[inline(always)]
    pub fn stop(self, line: ClockLine) -> Reason
        ensures { result ≡ reason_of (of_clock (clock_of self) (clock_line_of line)) }
    {
        match self {
            Clock::Time => line.time_reason(),
            Clock::Offset => line.offset_reason(),
            Clock::MinuteOffset => line.zone_offset_stop(),
        }
    }
}

/// A line of the fault table (docs/FAULTS.md) about times, and about offsets after their sign. Each of these lines has one
/// `Reason` for each `Clock`.
#[derive(Clone, Copy)]
pub enum ClockLine {
    HourStart,
    HourDigit,
    HourRange,
    AfterHour,
    MinuteDigits,
    MinuteRange,
    AfterBasicMinute,
    AfterColonMinute,
    SecondDigits,
    SecondRange,
    AfterSecond,
    FractionStart,
    AfterFraction,
}

impl ClockLine {
    /// Returns the `Reason` of the line of times.
    #[inline(always)]
    fn time_reason(self) -> Reason
        ensures { result ≡ reason_of (of_clock clocks.Time (clock_line_of self)) }
    {
        match self {
            ClockLine::HourStart => Reason::HourStart,
            ClockLine::HourDigit => Reason::HourDigit,
            ClockLine::HourRange => Reason::HourRange,
            ClockLine::AfterHour => Reason::AfterHour,
            ClockLine::MinuteDigits => Reason::MinuteDigits,
            ClockLine::MinuteRange => Reason::MinuteRange,
            ClockLine::AfterBasicMinute => Reason::AfterBasicMinute,
            ClockLine::AfterColonMinute => Reason::AfterColonMinute,
            ClockLine::SecondDigits => Reason::SecondDigits,
            ClockLine::SecondRange => Reason::SecondRange,
            ClockLine::AfterSecond => Reason::AfterSecond,
            ClockLine::FractionStart => Reason::FractionStart,
            ClockLine::AfterFraction => Reason::AfterFraction,
        }
    }

    /// Returns the `Reason` of the line of offsets.
    #[inline(always)]
    fn offset_reason(self) -> Reason
        ensures { result ≡ reason_of (of_clock clocks.Offset (clock_line_of self)) }
    {
        match self {
            ClockLine::HourStart => Reason::OffsetHourStart,
            ClockLine::HourDigit => Reason::OffsetHourDigit,
            ClockLine::HourRange => Reason::OffsetHourRange,
            ClockLine::AfterHour => Reason::OffsetAfterHour,
            ClockLine::MinuteDigits => Reason::OffsetMinuteDigits,
            ClockLine::MinuteRange => Reason::OffsetMinuteRange,
            ClockLine::AfterBasicMinute => Reason::OffsetAfterBasicMinute,
            ClockLine::AfterColonMinute => Reason::OffsetAfterColonMinute,
            ClockLine::SecondDigits => Reason::OffsetSecondDigits,
            ClockLine::SecondRange => Reason::OffsetSecondRange,
            ClockLine::AfterSecond => Reason::OffsetAfterSecond,
            ClockLine::FractionStart => Reason::OffsetFractionStart,
            ClockLine::AfterFraction => Reason::OffsetAfterFraction,
        }
    }

    /// Returns the `Reason` of the line of offsets without seconds.
    #[inline(always)]
    fn zone_offset_stop(self) -> Reason
        ensures { result ≡ reason_of (of_clock clocks.MinuteOffset (clock_line_of self)) }
    {
        match self {
            ClockLine::HourStart => Reason::ZoneOffsetHourStart,
            ClockLine::HourDigit => Reason::ZoneOffsetHourDigit,
            ClockLine::HourRange => Reason::ZoneOffsetHourRange,
            ClockLine::AfterHour => Reason::ZoneOffsetAfterHour,
            ClockLine::MinuteDigits => Reason::ZoneOffsetMinuteDigits,
            ClockLine::MinuteRange => Reason::ZoneOffsetMinuteRange,
            ClockLine::AfterBasicMinute => Reason::ZoneOffsetAfterBasicMinute,
            ClockLine::AfterColonMinute => Reason::ZoneOffsetAfterColonMinute,
            ClockLine::SecondDigits => Reason::ZoneOffsetSecondDigits,
            ClockLine::SecondRange => Reason::ZoneOffsetSecondRange,
            ClockLine::AfterSecond => Reason::ZoneOffsetAfterSecond,
            ClockLine::FractionStart => Reason::ZoneOffsetFractionStart,
            ClockLine::AfterFraction => Reason::ZoneOffsetAfterFraction,
        }
    }
}

/// The parts that a time has.
#[derive(Clone, Copy)]
pub enum TimeShape {
    /// Only an hour.
    Hours,
    /// An hour and a minute, without a colon between them.
    BasicMinutes,
    /// An hour and a minute, with a colon between them.
    ColonMinutes,
    /// An hour, a minute and a second.
    Seconds,
    /// An hour, a minute, a second and a fraction.
    Fractions,
}

impl TimeShape {
    /// Returns whether the time has a second.
    #[inline(always)]
    pub fn writes_seconds(self) -> bool
        ensures { result ≡ writes_seconds (shape_of self) }
    {
        match self {
            TimeShape::Seconds | TimeShape::Fractions => true,
            TimeShape::Hours | TimeShape::BasicMinutes | TimeShape::ColonMinutes => false,
        }
    }
}

// ==== The time in its fixed columns after a date ====

/// A time with hour, minute and second.
#[derive(Clone, Copy)]
pub struct WholeTime {
    pub hour: u8,
    pub minute: u8,
    pub second: u8,
}

impl WholeTime {
    /// Returns the record of the time, with the fraction, if there is one.
    #[inline(always)]
    pub fn with_fraction(self, fraction: Option<Fraction>) -> TimeRecord
        ensures { result ≡ time_of self.hour self.minute self.second fraction }
    {
        TimeRecord {
            hour: self.hour,
            minute: self.minute,
            second: self.second,
            fraction,
        }
    }
}

/// Returns the time in the eight columns after a date and a separator. Returns `None` if a column does not fit, or if a number is
/// out of its range.
///
/// Each number is compared with its limit where it is read, so that the compiled code makes one test for the digits and the range.
#[inline(always)]
#[tactic(auto, unfolding(ixdtf_reading::specs::reading::FixedPlaces::fixed_readings))]
pub fn fixed_time<'a, T: EncodingType>(cursor: &mut Cursor<'a, T>) -> Option<WholeTime>
    ensures there { option_map time_to_second result ≡ time_place (map T.letter cursor.old.rest) }
    ensures rest { cursor.new.rest ≡ cursor.old.rest }
    ensures few { cursor.new.looks ≤ cursor.old.looks + 8 }
    ensures counted { cursor.old.looks ≤ cursor.new.looks }
{
    let hour = cursor.fixed_number_up_to(11, 23)?;
    cursor.fixed_letter(13, b':')?;
    let minute = cursor.fixed_number_up_to(14, 59)?;
    cursor.fixed_letter(16, b':')?;
    let second = cursor.fixed_number_up_to(17, 60)?;
    Some(WholeTime {
        hour,
        minute,
        second,
    })
}

// ==== Times digit by digit ====

/// Writes the parts of a time into a record.
#[inline(always)]
fn write_time(time: &mut TimeRecord, hour: u8, minute: u8, second: u8, fraction: Option<Fraction>)
    ensures { time.new ≡ time_of hour minute second fraction }
{
    *time = TimeRecord {
        hour,
        minute,
        second,
        fraction,
    };
}

/// Returns the number if it is at most `greatest`, and otherwise `stop`.
#[inline(always)]
fn check_most(number: u8, greatest: u8, stop: Reason) -> Result<u8, Reason>
    ensures { Checks (λ number. number) result number (nat_le number greatest) stop }
{
    if number > greatest {
        return Err(stop);
    }
    Ok(number)
}

/// Consumes two digits, and returns their number, which is at most `greatest`.
///
/// Returns `first` if the first digit is missing, `second` if the second one is missing, and `past` for a greater number.
#[inline(always)]
#[tactic(auto, unfolding(ixdtf_reading::specs::reading::Looks::in_range))]
pub fn next_number<'a, T: EncodingType>(
    cursor: &mut Cursor<'a, T>,
    greatest: u8,
    first: Reason,
    second: Reason,
    past: Reason,
) -> Result<u8, Reason>
    ensures number { Reads T.letter (λ number. number) cursor.old result cursor.new
        (number_at_most first second greatest past) }
    ensures looks { SpendsOr 2 0 cursor.old result cursor.new }
{
    let number = cursor.two_digits(first, second)?;
    check_most(number, greatest, past)
}

/// Reads a time or an offset, and writes it to `time`. Returns which parts it has.
///
/// Other code units can follow the time or the offset. A bad code unit is an error there. It is also an error if a colon or
/// a digit follows a minute, and does not begin a second.
#[inline(always)]
#[tactic(auto, using(crate::proofs::code::HourDigits::hour_is_number))]
pub fn parse_clock<'a, T: EncodingType>(
    cursor: &mut Cursor<'a, T>,
    clock: Clock,
    time: &mut TimeRecord,
) -> Result<TimeShape, Reason>
    ensures time { Reads T.letter (open_time_of time.new) cursor.old result cursor.new
        (clock_at error_of (clock_of clock)) }
    ensures looks { Spends 5 cursor.old cursor.new }
{
    parse_clock_from(cursor, clock, clock.stop(ClockLine::HourStart), time)
}

/// Does the work of `parse_clock`. Returns `first` if the first digit is missing.
#[inline(always)]
pub fn parse_clock_from<'a, T: EncodingType>(
    cursor: &mut Cursor<'a, T>,
    clock: Clock,
    first: Reason,
    time: &mut TimeRecord,
) -> Result<TimeShape, Reason>
    ensures time { Reads T.letter (open_time_of time.new) cursor.old result cursor.new
        (clock_by first (clock_of clock)) }
    ensures looks { Spends 5 cursor.old cursor.new }
{
    let hour = next_hour(cursor, clock, first)?;
    match look_after(cursor, clock, TimeShape::Hours)? {
        Some(byte) if is_time_separator(byte) => {
            cursor.advance();
            parse_minute(cursor, clock, true, hour, time)
        }
        Some(byte) if byte.is_ascii_digit() => parse_minute(cursor, clock, false, hour, time),
        _ => {
            write_time(time, hour, 0, 0, None);
            Ok(TimeShape::Hours)
        }
    }
}

/// Reads the minute, and the parts of the time after it. If the time has colons, the colon before the minute has been
/// consumed.
///
/// A second can follow the minute, if the clock has seconds. It has a colon before it exactly if the minute has one.
/// Any other colon or digit after the minute is an error.
#[inline(always)]
fn parse_minute<'a, T: EncodingType>(
    cursor: &mut Cursor<'a, T>,
    clock: Clock,
    colons: bool,
    hour: u8,
    time: &mut TimeRecord,
) -> Result<TimeShape, Reason>
    ensures time { Reads T.letter (open_time_of time.new) cursor.old result cursor.new
        (minute_at error_of (clock_of clock) colons hour) }
    ensures looks { Spends 4 cursor.old cursor.new }
{
    let minute = next_minute(cursor, clock)?;
    match look_after_minute(cursor, clock, colons)? {
        Some(byte) if clock.starts_second(colons, byte) => {
            if colons {
                cursor.advance();
            }
            parse_second(cursor, clock, hour, minute, time)
        }
        Some(byte) if is_time_separator(byte) || byte.is_ascii_digit() => {
            Err(clock.stop_after_minute(colons))
        }
        _ => {
            write_time(time, hour, minute, 0, None);
            Ok(if colons {
                TimeShape::ColonMinutes
            } else {
                TimeShape::BasicMinutes
            })
        }
    }
}

/// Returns the code unit after a time of this shape, without consuming it.
#[inline(always)]
fn look_after<'a, T: EncodingType>(
    cursor: &mut Cursor<'a, T>,
    clock: Clock,
    shape: TimeShape,
) -> Result<Option<u8>, Reason>
    ensures letter { YieldsAt (λ found. found) result (map T.letter cursor.old.rest)
        (seen (reason_of (line_after (clock_of clock) (shape_of shape))) (map T.letter cursor.old.rest)) }
    ensures rest { cursor.new.rest ≡ cursor.old.rest }
    ensures looks { cursor.new.looks ≡ cursor.old.looks + 1 }
{
    cursor.look(clock.stop_after(shape))
}

/// Expects the end of the input after a time of this shape.
#[inline(always)]
pub fn close_after<'a, T: EncodingType>(
    cursor: &mut Cursor<'a, T>,
    clock: Clock,
    shape: TimeShape,
) -> Result<(), Reason>
    ensures end { Reads T.letter (λ _. None) cursor.old result cursor.new
        (peek_by (end_look (reason_of (line_after (clock_of clock) (shape_of shape))))) }
    ensures rest { cursor.new.rest ≡ cursor.old.rest }
    ensures looks { Spends 1 cursor.old cursor.new }
{
    cursor.close(clock.stop_after(shape))
}

/// Returns the code unit after a minute, without consuming it. `colons` says whether a colon is before the minute.
#[inline(always)]
fn look_after_minute<'a, T: EncodingType>(
    cursor: &mut Cursor<'a, T>,
    clock: Clock,
    colons: bool,
) -> Result<Option<u8>, Reason>
    ensures letter { YieldsAt (λ found. found) result (map T.letter cursor.old.rest)
        (seen (reason_of (line_after (clock_of clock) (minutes_shape colons))) (map T.letter cursor.old.rest)) }
    ensures rest { cursor.new.rest ≡ cursor.old.rest }
    ensures looks { cursor.new.looks ≡ cursor.old.looks + 1 }
{
    cursor.look(clock.stop_after_minute(colons))
}

/// Reads the digits of a fraction after its `.` or `,`.
#[inline(always)]
fn parse_clock_fraction<'a, T: EncodingType>(
    cursor: &mut Cursor<'a, T>,
    clock: Clock,
) -> Result<Fraction, Reason>
    ensures fraction { Reads T.letter (λ fraction. fraction) cursor.old result cursor.new
        (fraction_at error_of (clock_of clock)) }
    ensures looks { Spends 2 cursor.old cursor.new }
{
    let start = clock.stop(ClockLine::FractionStart);
    let digits = clock.stop(ClockLine::AfterFraction);
    parse_fraction(cursor, start, digits)
}

/// Consumes the two digits of an hour, and returns their number. Returns `first` if the first digit is missing.
#[inline(always)]
fn next_hour<'a, T: EncodingType>(
    cursor: &mut Cursor<'a, T>,
    clock: Clock,
    first: Reason,
) -> Result<u8, Reason>
    ensures hour { Reads T.letter (λ number. number) cursor.old result cursor.new
        (number_at_most first (reason_of (of_clock (clock_of clock) hour_digit)) 23 (reason_of (of_clock (clock_of clock) hour_range))) }
    ensures looks { SpendsOr 2 0 cursor.old result cursor.new }
{
    let second = clock.stop(ClockLine::HourDigit);
    let past = clock.stop(ClockLine::HourRange);
    next_number(cursor, 23, first, second, past)
}

/// Consumes the two digits of a minute, and returns their number.
#[inline(always)]
fn next_minute<'a, T: EncodingType>(cursor: &mut Cursor<'a, T>, clock: Clock) -> Result<u8, Reason>
    ensures minute { Reads T.letter (λ number. number) cursor.old result cursor.new
        (number_at error_of (of_clock (clock_of clock) minute_digits) 59 (minute_past (clock_of clock))) }
    ensures looks { SpendsOr 2 0 cursor.old result cursor.new }
{
    let digits = clock.stop(ClockLine::MinuteDigits);
    let past = clock.stop(ClockLine::MinuteRange);
    next_number(cursor, 59, digits, digits, past)
}

/// Consumes the two digits of a second, and returns their number: at most 60 in a time, and 59 in an offset.
#[inline(always)]
fn next_second<'a, T: EncodingType>(cursor: &mut Cursor<'a, T>, clock: Clock) -> Result<u8, Reason>
    ensures second { Reads T.letter (λ number. number) cursor.old result cursor.new
        (number_at error_of (of_clock (clock_of clock) second_digits) (greatest_second (clock_of clock)) (second_past (clock_of clock))) }
    ensures looks { SpendsOr 2 0 cursor.old result cursor.new }
{
    let digits = clock.stop(ClockLine::SecondDigits);
    let past = clock.stop(ClockLine::SecondRange);
    next_number(cursor, clock.greatest_second(), digits, digits, past)
}

/// Reads the second, and a fraction if it follows.
#[inline(always)]
fn parse_second<'a, T: EncodingType>(
    cursor: &mut Cursor<'a, T>,
    clock: Clock,
    hour: u8,
    minute: u8,
    time: &mut TimeRecord,
) -> Result<TimeShape, Reason>
    ensures time { Reads T.letter (open_time_of time.new) cursor.old result cursor.new
        (second_at error_of (clock_of clock) hour minute) }
    ensures looks { Spends 3 cursor.old cursor.new }
{
    let second = next_second(cursor, clock)?;
    parse_after_second(cursor, clock, hour, minute, second, time)
}

/// Reads a fraction after a second, if there is one.
#[inline(always)]
pub fn parse_after_second<'a, T: EncodingType>(
    cursor: &mut Cursor<'a, T>,
    clock: Clock,
    hour: u8,
    minute: u8,
    second: u8,
    time: &mut TimeRecord,
) -> Result<TimeShape, Reason>
    ensures time { Reads T.letter (open_time_of time.new) cursor.old result cursor.new
        (after_second_at error_of (clock_of clock) hour minute second) }
    ensures looks { Spends 3 cursor.old cursor.new }
{
    match look_after(cursor, clock, TimeShape::Seconds)? {
        Some(byte) if is_decimal_separator(byte) => {
            cursor.advance();
            let fraction = parse_clock_fraction(cursor, clock)?;
            write_time(time, hour, minute, second, Some(fraction));
            Ok(TimeShape::Fractions)
        }
        _ => {
            write_time(time, hour, minute, second, None);
            Ok(TimeShape::Seconds)
        }
    }
}

/// Reads the digits of a fraction after its `.` or `,`.
///
/// Returns `start` if there is no digit, and `digits` if a bad code unit follows the digits.
#[inline(always)]
pub fn parse_fraction<'a, T: EncodingType>(
    cursor: &mut Cursor<'a, T>,
    start: Reason,
    digits: Reason,
) -> Result<Fraction, Reason>
    ensures fraction { Reads T.letter (λ fraction. fraction) cursor.old result cursor.new
        (fraction_by start digits) }
    ensures looks { Spends 2 cursor.old cursor.new }
{
    let mut here = cursor.fork();
    let read = parse_digits(&mut here, start, digits);
    *cursor = here;
    read
}

/// Reads the digits of a fraction. The function is not inlined, because few texts have a fraction.
#[inline(never)]
#[tactic(auto, unfolding(ixdtf_reading::specs::reading::Clauses::fraction_by, ixdtf_reading::specs::reading::Looks::look_readings))]
fn parse_digits<'a, T: EncodingType>(
    cursor: &mut Cursor<'a, T>,
    start: Reason,
    digits: Reason,
) -> Result<Fraction, Reason>
    ensures fraction { Reads T.letter (λ fraction. fraction) cursor.old result cursor.new
        (fraction_by start digits) }
    ensures looks { Spends 2 cursor.old cursor.new }
{
    let mut here = cursor.fork();
    let read = match here.look(start) {
        Ok(Some(byte)) if byte.is_ascii_digit() => {
            here.advance();
            parse_more_digits(&mut here, byte, digits)
        }
        Ok(_) => Err(start),
        Err(stop) => Err(stop),
    };
    *cursor = here;
    read
}

/// Reads the digits of a fraction after the first one. The first 18 digits give the value. Later digits are only
/// counted. Returns `stop` at a bad code unit.
#[inline(always)]
fn parse_more_digits<'a, T: EncodingType>(
    cursor: &mut Cursor<'a, T>,
    first: u8,
    stop: Reason,
) -> Result<Fraction, Reason>
    requires digit { IsTrue (digit first) }
    ensures fraction { Reads T.letter (λ fraction. fraction) cursor.old result cursor.new
        (more_digits_at stop (Plain first ∷ [])) }
    ensures looks { Spends 1 cursor.old cursor.new }
{
    let mut digits = LeadingDigits::start(first);
    while digits.is_short() {
        match cursor.look(stop)? {
            Some(byte) if byte.is_ascii_digit() => {
                cursor.advance();
                digits = digits.with_digit(byte);
            }
            _ => return Ok(digits.fraction()),
        }
    }
    count_more_digits(cursor, digits.fraction(), stop)
}

/// Counts the digits of a fraction after the first 18. Returns `stop` at a bad code unit.
#[inline(always)]
fn count_more_digits<'a, T: EncodingType>(
    cursor: &mut Cursor<'a, T>,
    leading: Fraction,
    stop: Reason,
) -> Result<Fraction, Reason>
    requires long { 18 ≤ leading.count }
    ensures fraction { (front : Text) → leading ≡ fraction_of front →
        Reads T.letter (λ fraction. fraction) cursor.old result cursor.new
        (more_digits_at stop front) }
    ensures looks { Spends 1 cursor.old cursor.new }
{
    let mut fraction = leading;
    while let Some(byte) = cursor.look(stop)? {
        if !byte.is_ascii_digit() {
            break;
        }
        cursor.advance();
        fraction = fraction.with_more();
    }
    Ok(fraction)
}
