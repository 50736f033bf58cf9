//! Functions that read date-times of RFC 3339, section 5.6.
//!
//! The date and the time are read in fixed columns. If they do not fit these columns, the text has an error. Then it is
//! read again, number by number, to find the first error.
//!
//! The readers of the library allow different things after a date-time. So [`parse_internet_date_time`] does not test
//! what follows, and [`parse_rfc3339_text`] expects the end of the input.

#![tactic(auto, unfolding(ixdtf_reading::specs::reading::DateTimes::date_time_line_readings, ixdtf_reading::specs::reading::Looks::number_by, crate::specs::ThroughSecond::through_second_readings))]

ghost use Rattle.std.specs.Prelude.{◌≡◌, ◌+◌, ◌<◌, ◌≤◌, map, length, Some, None, Err, IfOk, IfSome, OnOk, IsTrue, pos};
ghost use Rattle.ixdtf_grammar.specs.declared.records.DateRecord.{DateRecord};
ghost use Rattle.ixdtf_grammar.specs.declared.records.TimeRecord.{TimeRecord};
ghost use Rattle.ixdtf_grammar.specs.language.Languages.{parsed_with};
ghost use Rattle.ixdtf_grammar.specs.language.Letters.{hyphen, colon, time_letter};
ghost use Rattle.ixdtf_grammar.specs.table.DateTimeFronts.Field.{month_field, day_field};
ghost use Rattle.ixdtf_grammar.specs.table.LineNames.LineName.{of_date_time};
ghost use Rattle.ixdtf_grammar.specs.table.LineNames.DateTimeLine.{four_digits, after_secfrac};
ghost use Rattle.ixdtf_reading.specs.reading.Clauses.{Reads, Spends, SpendsOr, KeepsBrackets, core_in};
ghost use Rattle.ixdtf_reading.specs.reading.Looks.{error_of, as_number, digit_look, digits_by, look_for, next_by, letter_at};
ghost use Rattle.ixdtf_reading.specs.reading.DateTimes.{field_at, is_month, is_day, numeric_core, secfrac_digits_at, num_offset_at, time_offset_at, secfrac_at, after_whole_second_at};
ghost use Rattle.ixdtf_reading.specs.reading.DateTimes.{open_end, date_time_by, line_after_offset, rfc_3339_at};
ghost use Rattle.ixdtf_reading.specs.reading.Stops.{reason_of};
ghost use Rattle.ixdtf_times.specs.ThroughSecond.{time_through_second, day_through_second, date_time_through_second, NoDateTime};

use crate::date_times::take_fixed_date_time;
use crate::dates::{check_month, has_day};
use crate::offsets::{sign_from, take_numeric_offset};
use crate::time::{WholeTime, next_number, parse_fraction};
use ixdtf_grammar::Reason;
use ixdtf_grammar::encoding::EncodingType;
use ixdtf_grammar::records::{
    DateRecord, Fraction, IxdtfParseRecord, MinutePrecisionOffset, UtcOffsetRecord,
    UtcOffsetRecordOrZ,
};
use ixdtf_reading::classes::{
    is_ascii_sign, is_hyphen, is_time_designator, is_time_separator, is_utc_designator,
};
use ixdtf_reading::cursor::Cursor;

/// Consumes a colon. Returns `stop` if no colon is next.
#[inline(always)]
fn take_colon<'a, T: EncodingType>(cursor: &mut Cursor<'a, T>, stop: Reason) -> Result<u8, Reason>
    ensures colon { Reads T.letter (λ byte. byte) cursor.old result cursor.new
        (next_by (look_for colon stop)) }
    ensures looks { Spends 1 cursor.old cursor.new }
{
    match cursor.look(stop)? {
        Some(byte) if is_time_separator(byte) => {
            cursor.advance();
            Ok(byte)
        }
        _ => Err(stop),
    }
}

/// Consumes a hyphen of a date. Returns `stop` if no hyphen is next.
#[inline(always)]
fn take_date_hyphen<'a, T: EncodingType>(
    cursor: &mut Cursor<'a, T>,
    stop: Reason,
) -> Result<u8, Reason>
    ensures hyphen { Reads T.letter (λ byte. byte) cursor.old result cursor.new
        (next_by (look_for hyphen stop)) }
    ensures looks { Spends 1 cursor.old cursor.new }
{
    match cursor.look(stop)? {
        Some(byte) if is_hyphen(byte) => {
            cursor.advance();
            Ok(byte)
        }
        _ => Err(stop),
    }
}

/// Consumes `T` or `t`. Returns `AfterDayField` if neither of them is next.
#[inline(always)]
fn take_time_letter<'a, T: EncodingType>(cursor: &mut Cursor<'a, T>) -> Result<u8, Reason>
    ensures letter { Reads T.letter (λ byte. byte) cursor.old result cursor.new
        (next_by (look_for time_letter Reason.AfterDayField)) }
    ensures looks { Spends 1 cursor.old cursor.new }
{
    match cursor.look(Reason::AfterDayField)? {
        Some(byte) if is_time_designator(byte) => {
            cursor.advance();
            Ok(byte)
        }
        _ => Err(Reason::AfterDayField),
    }
}

/// Reads the four digits of a year, and returns their number. Returns `FourDigits` if a digit is missing.
#[inline(always)]
fn parse_year<'a, T: EncodingType>(cursor: &mut Cursor<'a, T>) -> Result<u16, Reason>
    ensures number { Reads T.letter (λ number. number) cursor.old result cursor.new
        (λ text. as_number (digits_by (digit_look (reason_of (of_date_time four_digits))) 4 text)) }
    ensures looks { SpendsOr 1 0 cursor.old result cursor.new }
{
    let thousands = cursor.next_digit(Reason::FourDigits)?;
    let hundreds = cursor.next_digit(Reason::FourDigits)?;
    let tens = cursor.next_digit(Reason::FourDigits)?;
    let ones = cursor.next_digit(Reason::FourDigits)?;
    Ok(
        1000 * u16::from(thousands - b'0')
            + 100 * u16::from(hundreds - b'0')
            + 10 * u16::from(tens - b'0')
            + u16::from(ones - b'0'),
    )
}

/// Reads a month. Returns `MonthFieldDigits` if a digit is missing, and `MonthFieldRange` if the month is not 01 to 12.
#[inline(always)]
fn parse_month<'a, T: EncodingType>(cursor: &mut Cursor<'a, T>) -> Result<u8, Reason>
    ensures month { Reads T.letter (λ month. month) cursor.old result cursor.new
        (field_at error_of month_field is_month) }
    ensures looks { SpendsOr 2 0 cursor.old result cursor.new }
{
    let month = cursor.two_digits(Reason::MonthFieldDigits, Reason::MonthFieldDigits)?;
    check_month(month, Reason::MonthFieldRange)
}

/// Reads a day. Returns `DayFieldDigits` if a digit is missing, and `DayFieldRange` if the month of the year does not have
/// the day.
#[inline(always)]
fn parse_day<'a, T: EncodingType>(
    cursor: &mut Cursor<'a, T>,
    year: u16,
    month: u8,
) -> Result<u8, Reason>
    ensures day { Reads T.letter (λ day. day) cursor.old result cursor.new
        (field_at error_of day_field (is_day (pos year) month)) }
    ensures looks { SpendsOr 2 0 cursor.old result cursor.new }
{
    let day = cursor.two_digits(Reason::DayFieldDigits, Reason::DayFieldDigits)?;
    if !has_day(i32::from(year), month, day) {
        return Err(Reason::DayFieldRange);
    }
    Ok(day)
}

/// Reads the hour and the minute of an offset, and writes the offset into the record. The sign has been consumed: it is `sign`.
#[inline(always)]
fn parse_numeric_offset<'a, T: EncodingType>(
    cursor: &mut Cursor<'a, T>,
    sign: u8,
    found: &mut IxdtfParseRecord<'a, T>,
) -> Result<(), Reason>
    ensures offset { (date : DateRecord) (time : TimeRecord) → found.old.date ≡ Some date → found.old.time ≡ Some time →
        Reads T.letter (λ _. core_in found.new) cursor.old result cursor.new
        (num_offset_at error_of open_end date time sign) }
    ensures kept { KeepsBrackets found.old found.new }
    ensures looks { Spends 8 cursor.old cursor.new }
{
    if let Some(minutes) = take_numeric_offset(cursor, sign) {
        found.offset = Some(UtcOffsetRecordOrZ::Offset(UtcOffsetRecord::MinutePrecision(minutes)));
        return Ok(());
    }
    let mut here = cursor.fork();
    let read = parse_offset_by_numbers(&mut here, sign);
    *cursor = here;
    let minutes = read?;
    found.offset = Some(UtcOffsetRecordOrZ::Offset(UtcOffsetRecord::MinutePrecision(minutes)));
    Ok(())
}

/// Reads the digits of a fraction after its `.`.
#[inline(always)]
fn parse_secfrac<'a, T: EncodingType>(cursor: &mut Cursor<'a, T>) -> Result<Fraction, Reason>
    ensures fraction { Reads T.letter (λ fraction. fraction) cursor.old result cursor.new
        (secfrac_digits_at error_of) }
    ensures looks { Spends 2 cursor.old cursor.new }
{
    parse_fraction(cursor, Reason::AfterPoint, Reason::AfterSecfrac)
}

/// Reads the digits of a fraction after its `.`, and the offset after the fraction. Writes the time and the offset into the
/// record.
#[inline(always)]
fn parse_fractional<'a, T: EncodingType>(
    cursor: &mut Cursor<'a, T>,
    whole: WholeTime,
    found: &mut IxdtfParseRecord<'a, T>,
) -> Result<(), Reason>
    ensures rest { (date : DateRecord) → found.old.date ≡ Some date →
        Reads T.letter (λ _. core_in found.new) cursor.old result cursor.new
        (secfrac_at error_of open_end date whole.hour whole.minute whole.second) }
    ensures kept { KeepsBrackets found.old found.new }
    ensures looks { Spends 11 cursor.old cursor.new }
{
    let fraction = parse_secfrac(cursor)?;
    found.time = Some(whole.with_fraction(Some(fraction)));
    match cursor.look(Reason::AfterSecfrac)? {
        // `parse_secfrac` has consumed all digits, so `lead` is not a digit. The code tests for a digit because the definition
        // `secfrac_at` also goes on after a digit. Without this test, the proof would have to show that no digit follows.
        Some(lead) if is_ascii_sign(lead) || lead.is_ascii_digit() => {
            cursor.advance();
            parse_numeric_offset(cursor, lead, found)
        }
        Some(lead) if is_utc_designator(lead) => {
            cursor.advance();
            found.offset = Some(UtcOffsetRecordOrZ::Z);
            Ok(())
        }
        _ => Err(Reason::AfterSecfrac),
    }
}

/// Reads what follows the seconds: an optional fraction, and an offset. Writes the date, the time and the offset into the
/// record.
#[inline(always)]
fn parse_after_seconds<'a, T: EncodingType>(
    cursor: &mut Cursor<'a, T>,
    date: DateRecord,
    whole: WholeTime,
    found: &mut IxdtfParseRecord<'a, T>,
) -> Result<(), Reason>
    ensures rest { Reads T.letter (λ _. core_in found.new) cursor.old result cursor.new
        (after_whole_second_at error_of open_end date whole.hour whole.minute whole.second) }
    ensures kept { KeepsBrackets found.old found.new }
    ensures looks { Spends 12 cursor.old cursor.new }
{
    found.date = Some(date);
    match cursor.look(Reason::AfterSecondField)? {
        Some(byte) if byte == b'.' => {
            cursor.advance();
            parse_fractional(cursor, whole, found)
        }
        Some(byte) if is_ascii_sign(byte) => {
            cursor.advance();
            found.time = Some(whole.with_fraction(None));
            parse_numeric_offset(cursor, byte, found)
        }
        Some(byte) if is_utc_designator(byte) => {
            cursor.advance();
            found.time = Some(whole.with_fraction(None));
            found.offset = Some(UtcOffsetRecordOrZ::Z);
            Ok(())
        }
        _ => Err(Reason::AfterSecondField),
    }
}

/// Consumes a date, `T` or `t`, and a time in the first nineteen columns. Returns `None`, and consumes nothing, if they
/// do not fit. Then the text has an error.
#[inline(always)]
fn take_fixed_rfc3339<'a, T: EncodingType>(
    cursor: &mut Cursor<'a, T>,
) -> Option<(DateRecord, WholeTime)>
    ensures read { IfSome result (λ found. date_time_by error_of open_end (map T.letter cursor.old.rest) ≡
        after_whole_second_at error_of open_end found.0 found.1.hour found.1.minute found.1.second (map T.letter cursor.new.rest)) }
    ensures none { result ≡ None → NoDateTime (map T.letter cursor.old.rest) }
    ensures rest { result ≡ None → cursor.new.rest ≡ cursor.old.rest }
    ensures looks { Spends 20 cursor.old cursor.new }
{
    // The only other separator that `take_fixed_date_time` accepts is a space.
    if cursor.remaining() < 19 || cursor.byte_at(10) == b' ' {
        return None;
    }
    take_fixed_date_time(cursor)
}

// ==== Number by number ====

/// Reads the hour and the minute of an offset after its sign, number by number, and returns the offset.
///
/// The function is not inlined, because it is called only for a text with an error.
#[cold]
#[inline(never)]
fn parse_offset_by_numbers<'a, T: EncodingType>(
    cursor: &mut Cursor<'a, T>,
    sign: u8,
) -> Result<MinutePrecisionOffset, Reason>
    ensures offset { (date : DateRecord) (time : TimeRecord) →
        Reads T.letter (λ offset. numeric_core date time offset) cursor.old result cursor.new
        (num_offset_at error_of open_end date time sign) }
    ensures looks { Spends 3 cursor.old cursor.new }
{
    let hour_digits = Reason::OffsetHourFieldDigits;
    let offset_hour = next_number(
        cursor,
        23,
        hour_digits,
        hour_digits,
        Reason::OffsetHourFieldRange,
    )?;
    take_colon(cursor, Reason::AfterOffsetHourField)?;
    let minute_digits = Reason::OffsetMinuteFieldDigits;
    let offset_minute = next_number(
        cursor,
        59,
        minute_digits,
        minute_digits,
        Reason::OffsetMinuteFieldRange,
    )?;
    Ok(MinutePrecisionOffset {
        sign: sign_from(sign),
        hour: offset_hour,
        minute: offset_minute,
    })
}

/// Consumes a time, and returns the second of this time. The `T` or `t` before it has been consumed.
#[inline(always)]
fn pass_time<'a, T: EncodingType>(cursor: &mut Cursor<'a, T>) -> Result<u8, Reason>
    ensures time { Reads T.letter (λ second. second) cursor.old result cursor.new
        time_through_second }
    ensures looks { Spends 4 cursor.old cursor.new }
{
    let hour_digits = Reason::HourFieldDigits;
    next_number(cursor, 23, hour_digits, hour_digits, Reason::HourFieldRange)?;
    take_colon(cursor, Reason::AfterHourField)?;
    let minute_digits = Reason::MinuteFieldDigits;
    next_number(
        cursor,
        59,
        minute_digits,
        minute_digits,
        Reason::MinuteFieldRange,
    )?;
    take_colon(cursor, Reason::AfterMinuteField)?;
    let second_digits = Reason::SecondFieldDigits;
    next_number(
        cursor,
        60,
        second_digits,
        second_digits,
        Reason::SecondFieldRange,
    )
}

/// Consumes a day, then `T` or `t`, and then a time. Returns the second of the time. The month and the hyphen before the
/// day have been consumed.
#[inline(always)]
fn pass_day_and_time<'a, T: EncodingType>(
    cursor: &mut Cursor<'a, T>,
    year: u16,
    month: u8,
) -> Result<u8, Reason>
    ensures day { Reads T.letter (λ second. second) cursor.old result cursor.new
        (day_through_second (pos year) month) }
    ensures looks { Spends 5 cursor.old cursor.new }
{
    parse_day(cursor, year, month)?;
    take_time_letter(cursor)?;
    pass_time(cursor)
}

/// Consumes a date, then `T` or `t`, and then a time. They are read number by number. Returns the second of the time.
#[inline(always)]
fn pass_date_and_time<'a, T: EncodingType>(cursor: &mut Cursor<'a, T>) -> Result<u8, Reason>
    ensures date_time { Reads T.letter (λ second. second) cursor.old result cursor.new
        date_time_through_second }
    ensures looks { Spends 7 cursor.old cursor.new }
{
    let year = parse_year(cursor)?;
    take_date_hyphen(cursor, Reason::AfterFourDigits)?;
    let month = parse_month(cursor)?;
    take_date_hyphen(cursor, Reason::AfterMonthField)?;
    pass_day_and_time(cursor, year, month)
}

/// Returns the `Reason` for the first error of a text that does not begin with a date, then `T` or `t`, and then a time.
/// The text is read number by number. The function is not inlined, because it is called only for a text with an error.
#[inline(never)]
fn first_stop<'a, T: EncodingType>(cursor: &mut Cursor<'a, T>) -> Reason
    requires no_date_time { NoDateTime (map T.letter cursor.old.rest) }
    ensures stop { date_time_by error_of open_end (map T.letter cursor.old.rest) ≡
        Err (result, map T.letter cursor.new.rest) }
    ensures looks { Spends 7 cursor.old cursor.new }
{
    match pass_date_and_time(cursor) {
        // This does not happen: it is proved that such a text has an error.
        Ok(_) => Reason::AfterSecondField,
        Err(stop) => stop,
    }
}

/// Reads a date-time of RFC 3339, section 5.6, into the record. Anything can follow it.
#[inline(always)]
pub fn parse_internet_date_time<'a, T: EncodingType>(
    cursor: &mut Cursor<'a, T>,
    found: &mut IxdtfParseRecord<'a, T>,
) -> Result<(), Reason>
    ensures date_time { Reads T.letter (λ _. core_in found.new) cursor.old result cursor.new
        (date_time_by error_of open_end) }
    ensures kept { KeepsBrackets found.old found.new }
    ensures looks { Spends 37 cursor.old cursor.new }
{
    match take_fixed_rfc3339(cursor) {
        Some((date, whole)) => {
            let mut here = cursor.fork();
            let read = parse_after_seconds(&mut here, date, whole, found);
            *cursor = here;
            read
        }
        None => {
            let mut here = cursor.fork();
            let stop = first_stop(&mut here);
            *cursor = here;
            Err(stop)
        }
    }
}

/// Reads a date-time of RFC 3339, section 5.6, into the record, and expects the end of the input.
#[inline(always)]
#[tactic(auto, using(ixdtf_reading::proofs::code::OpenDateTimes::rfc_3339_open))]
pub fn parse_rfc3339_text<'a, T: EncodingType>(
    cursor: &mut Cursor<'a, T>,
    found: &mut IxdtfParseRecord<'a, T>,
) -> Result<(), Reason>
    ensures date_time { Reads T.letter (λ _. parsed_with (core_in found.new) None) cursor.old result cursor.new
        (rfc_3339_at error_of) }
    ensures kept { KeepsBrackets found.old found.new }
    ensures looks { Spends 38 cursor.old cursor.new }
{
    parse_internet_date_time(cursor, found)?;
    cursor.close(stop_after_offset(found.offset))
}

/// Returns the `Reason` for an error directly after a date-time with this offset.
#[inline(always)]
pub fn stop_after_offset(offset: Option<UtcOffsetRecordOrZ>) -> Reason
    ensures { result ≡ reason_of (line_after_offset offset) }
{
    match offset {
        Some(UtcOffsetRecordOrZ::Z) => Reason::AfterUtc,
        Some(UtcOffsetRecordOrZ::Offset(_)) | None => Reason::AfterOffsetMinuteField,
    }
}
