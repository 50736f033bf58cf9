//! Functions that read year-months and month-days.

#![tactic(auto, unfolding(ixdtf_reading::specs::reading::Months::month_readings, ixdtf_reading::specs::reading::FixedPlaces::fixed_readings))]

ghost use Rattle.std.specs.Prelude.{◌≡◌, ◌+◌, ◌<◌, ◌≤◌, ◌&&◌, nat_le, pos, map, drop, length, Some, None, IfSome};
ghost use Rattle.ixdtf_grammar.specs.language.Letters.{Text};
ghost use Rattle.ixdtf_grammar.specs.language.Months.{greatest_day, least_day};
ghost use Rattle.ixdtf_grammar.specs.table.LineNames.{of_month_day};
ghost use Rattle.ixdtf_grammar.specs.table.LineNames.MonthDayLine.{month_day_range};
ghost use Rattle.ixdtf_reading.specs.reading.Clauses.{Reads, Checks, YieldsAt, Spends, SpendsInAll};
ghost use Rattle.ixdtf_reading.specs.reading.Looks.{error_of};
ghost use Rattle.ixdtf_reading.specs.reading.Stops.{reason_of};
ghost use Rattle.ixdtf_reading.specs.reading.Dates.{date_of};
ghost use Rattle.ixdtf_reading.specs.reading.Months.{year_month_at, marks_at, month_day_at, lone_day_at};
ghost use Rattle.ixdtf_reading.specs.reading.FixedPlaces.{number_place, month_of_year_place, ranged_month, unmarked_at};

use crate::dates::{
    check_month, days_in_month, first_day, fixed_year, parse_date_year, parse_month, take_hyphen,
};
use ixdtf_grammar::Reason;
use ixdtf_grammar::encoding::EncodingType;
use ixdtf_grammar::profile::Profile;
use ixdtf_grammar::records::DateRecord;
use ixdtf_reading::classes::is_hyphen;
use ixdtf_reading::cursor::Cursor;

// ==== Year-months ====

/// Reads a year-month, and returns it as a date with day 1.
///
/// The function first tries to read seven or six fixed columns. If a column does not fit, the function reads the
/// year-month part by part.
#[inline(always)]
pub fn parse_year_month_date<'a, T: EncodingType>(
    cursor: &mut Cursor<'a, T>,
) -> Result<DateRecord, Reason>
    ensures date { Reads T.letter (λ date. date) cursor.old result cursor.new
        (year_month_at error_of) }
    ensures looks { Spends 12 cursor.old cursor.new }
{
    match take_fixed_year_month(cursor) {
        Some(first) => check_year_month(first),
        None => parse_year_month_parts(cursor),
    }
}

/// Returns the first day of a year-month if its month is 1 to 12, and otherwise `MonthRange`.
#[inline(always)]
fn check_year_month(first: DateRecord) -> Result<DateRecord, Reason>
    ensures { (rest : Text) → YieldsAt (λ date. (date, rest)) result rest
        (ranged_month first rest) }
{
    check_month(first.month, Reason::MonthRange)?;
    Ok(first)
}

/// Consumes the year-month in the first seven columns, or in the first six if it has no hyphen, as a date with day 1.
///
/// Returns `None`, and consumes nothing, if a column does not fit. The month is not checked.
#[inline(always)]
fn take_fixed_year_month<'a, T: EncodingType>(cursor: &mut Cursor<'a, T>) -> Option<DateRecord>
    ensures read { IfSome result (λ first. year_month_at error_of (map T.letter cursor.old.rest) ≡
        ranged_month first (map T.letter cursor.new.rest)) }
    ensures rest { result ≡ None → cursor.new.rest ≡ cursor.old.rest }
    ensures shorter { length cursor.new.rest ≤ length cursor.old.rest }
    ensures few { cursor.new.looks ≤ cursor.old.looks + 7 }
    ensures counted { cursor.old.looks ≤ cursor.new.looks }
{
    if cursor.remaining() < 6 {
        return None;
    }
    let year = fixed_year(cursor)?;
    if is_hyphen(cursor.byte_at(4)) {
        if cursor.remaining() < 7 {
            return None;
        }
        let first = fixed_month_of(cursor, year, 5)?;
        cursor.advance_by(7);
        return Some(first);
    }
    let first = fixed_month_of(cursor, year, 4)?;
    cursor.advance_by(6);
    Some(first)
}

/// Returns the first day of a month of the year. The two digits of the month are at index `place` and at the next
/// index. Returns `None` if they are not digits. The month is not checked.
#[inline(always)]
fn fixed_month_of<'a, T: EncodingType>(
    cursor: &mut Cursor<'a, T>,
    year: u16,
    place: usize,
) -> Option<DateRecord>
    requires early { place < 18 }
    ensures there { result ≡ month_of_year_place year place (map T.letter cursor.old.rest) }
    ensures rest { cursor.new.rest ≡ cursor.old.rest }
    ensures few { cursor.new.looks ≤ cursor.old.looks + 2 }
    ensures counted { cursor.old.looks ≤ cursor.new.looks }
{
    let month = cursor.fixed_number(place)?;
    Some(first_day(year, month))
}

/// Reads a year-month part by part.
#[inline(always)]
pub fn parse_year_month_parts<'a, T: EncodingType>(
    cursor: &mut Cursor<'a, T>,
) -> Result<DateRecord, Reason>
    ensures date { Reads T.letter (λ date. date) cursor.old result cursor.new
        (year_month_at error_of) }
    ensures looks { SpendsInAll 5 10 cursor.old cursor.new }
{
    let year = parse_date_year(cursor)?;
    let (month, _) = parse_month(cursor, Reason::AfterYearInYearMonth)?;
    Ok(DateRecord {
        year,
        month,
        day: 1,
    })
}

// ==== Month-days ====

/// Reads a month-day, and returns it as a date with year 0. Two hyphens can be before the month-day.
///
/// The function first tries to read five or four fixed columns. If a column does not fit, the function reads the
/// month-day part by part.
#[inline(always)]
pub fn parse_month_day_date<'a, T: EncodingType>(
    cursor: &mut Cursor<'a, T>,
    profile: Profile,
) -> Result<DateRecord, Reason>
    ensures date { Reads T.letter (λ date. date) cursor.old result cursor.new
        (month_day_at error_of profile) }
    ensures looks { Spends 10 cursor.old cursor.new }
{
    if cursor.remaining() < 4 {
        return parse_month_day_parts(cursor, profile);
    }
    if !is_hyphen(cursor.byte_at(0)) {
        return parse_month_day_at(cursor, profile, 0, Reason::MonthDayStart);
    }
    if is_hyphen(cursor.byte_at(1)) {
        return parse_month_day_at(cursor, profile, 2, Reason::MonthDayMonthDigits);
    }
    parse_month_day_parts(cursor, profile)
}

/// Reads the month-day whose month begins at index `start`, in fixed columns if they fit. If the month does not fit,
/// everything from `start` on is read part by part. If only the day does not fit, the text after the month is read part
/// by part.
#[inline(always)]
fn parse_month_day_at<'a, T: EncodingType>(
    cursor: &mut Cursor<'a, T>,
    profile: Profile,
    start: usize,
    first: Reason,
) -> Result<DateRecord, Reason>
    requires early { start ≤ 2 }
    requires long { start + 2 ≤ length cursor.old.rest }
    ensures date { YieldsAt (λ date. (date, map T.letter cursor.new.rest)) result (map T.letter cursor.new.rest)
        (unmarked_at first profile (drop start (map T.letter cursor.old.rest))) }
    ensures looks { Spends 8 cursor.old cursor.new }
{
    let Some(month) = cursor.fixed_number(start) else {
        cursor.advance_by(start);
        return parse_unmarked(cursor, profile, first);
    };
    if let Err(stop) = check_month(month, Reason::MonthDayMonthRange) {
        cursor.advance_by(start + 2);
        return Err(stop);
    }
    if is_hyphen(cursor.byte_at(start + 2)) {
        if let Some(day) = fixed_day(cursor, start + 3) {
            cursor.advance_by(start + 5);
            return check_month_day(profile, month, day);
        }
    } else if let Some(day) = fixed_day(cursor, start + 2) {
        cursor.advance_by(start + 4);
        return check_month_day(profile, month, day);
    }
    cursor.advance_by(start + 2);
    parse_day_of_month(cursor, profile, month)
}

/// Returns the number of the two digits of a day at index `place` and at the next index, or `None` if they are not
/// digits. The day is not checked.
#[inline(always)]
fn fixed_day<'a, T: EncodingType>(cursor: &mut Cursor<'a, T>, place: usize) -> Option<u8>
    requires early { place < 18 }
    ensures there { IfSome result (λ day. number_place place (map T.letter cursor.old.rest) ≡ Some day) }
    ensures long { IfSome result (λ _. place + 2 ≤ length cursor.old.rest) }
    ensures rest { cursor.new.rest ≡ cursor.old.rest }
    ensures few { cursor.new.looks ≤ cursor.old.looks + 2 }
    ensures counted { cursor.old.looks ≤ cursor.new.looks }
{
    if cursor.remaining() < place + 2 {
        return None;
    }
    cursor.fixed_number(place)
}

/// Reads a month-day part by part.
#[inline(always)]
pub fn parse_month_day_parts<'a, T: EncodingType>(
    cursor: &mut Cursor<'a, T>,
    profile: Profile,
) -> Result<DateRecord, Reason>
    ensures date { Reads T.letter (λ date. date) cursor.old result cursor.new
        (month_day_at error_of profile) }
    ensures looks { SpendsInAll 7 7 cursor.old cursor.new }
{
    take_marks(cursor)?;
    parse_unmarked(cursor, profile, Reason::MonthDayMonthDigits)
}

/// Reads a month-day part by part, after the two hyphens that can be before its month.
#[inline(always)]
fn parse_unmarked<'a, T: EncodingType>(
    cursor: &mut Cursor<'a, T>,
    profile: Profile,
    first: Reason,
) -> Result<DateRecord, Reason>
    ensures date { Reads T.letter (λ date. date) cursor.old result cursor.new (unmarked_at first profile) }
    ensures looks { SpendsInAll 5 5 cursor.old cursor.new }
{
    let month = cursor.two_digits(first, Reason::MonthDayMonthDigits)?;
    check_month(month, Reason::MonthDayMonthRange)?;
    parse_day_of_month(cursor, profile, month)
}

/// Reads the day after a month. A hyphen can be before it.
#[inline(always)]
fn parse_day_of_month<'a, T: EncodingType>(
    cursor: &mut Cursor<'a, T>,
    profile: Profile,
    month: u8,
) -> Result<DateRecord, Reason>
    ensures date { Reads T.letter (λ date. date) cursor.old result cursor.new
        (lone_day_at error_of profile month) }
    ensures looks { SpendsInAll 3 3 cursor.old cursor.new }
{
    take_hyphen(cursor, Reason::AfterMonthDayMonth)?;
    let day = cursor.two_digits(Reason::MonthDayDayDigits, Reason::MonthDayDayDigits)?;
    check_month_day(profile, month, day)
}

/// If a hyphen is next, consumes it and a second hyphen, and returns `true`. If a digit is next, consumes nothing, and
/// returns `false`.
///
/// Returns `MonthDayStart` if neither a hyphen nor a digit is next. Returns `MonthDayHyphen` if a hyphen is next, and no
/// second hyphen follows it.
#[inline(always)]
fn take_marks<'a, T: EncodingType>(cursor: &mut Cursor<'a, T>) -> Result<bool, Reason>
    ensures marks { Reads T.letter (λ stand. stand) cursor.old result cursor.new
        (marks_at error_of) }
    ensures looks { SpendsInAll 2 2 cursor.old cursor.new }
{
    if !take_hyphen(cursor, Reason::MonthDayStart)? {
        return Ok(false);
    }
    match cursor.look(Reason::MonthDayHyphen)? {
        Some(byte) if is_hyphen(byte) => {
            cursor.advance();
            Ok(true)
        }
        _ => Err(Reason::MonthDayHyphen),
    }
}

/// Returns the month-day if its month has the day in some year, and otherwise `MonthDayRange`. Day 0 is accepted too,
/// but not under the strict profile.
#[inline(always)]
pub fn check_month_day(profile: Profile, month: u8, day: u8) -> Result<DateRecord, Reason>
    ensures { Checks (λ date. date) result (date_of (pos 0) month day)
        (nat_le (least_day profile) day && nat_le day (greatest_day month)) (reason_of (of_month_day (month_day_range profile))) }
{
    if !has_month_day(profile, month, day) {
        return Err(Reason::MonthDayRange);
    }
    Ok(DateRecord {
        year: 0,
        month,
        day,
    })
}

/// Returns whether the month has the day in some year. This is so exactly if it has the day in a leap year, such as the
/// year 0. Returns true for day 0 too, but not under the strict profile. Every month has the days 1 to 28.
#[inline(always)]
fn has_month_day(profile: Profile, month: u8, day: u8) -> bool
    ensures { result ≡ (nat_le (least_day profile) day && nat_le day (greatest_day month)) }
{
    day >= profile.least_day() && (day <= 28 || day <= days_in_month(0, month))
}
