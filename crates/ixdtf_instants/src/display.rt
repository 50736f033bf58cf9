//! The text of an instant: a date and a time in UTC.

ghost use Rattle.std.specs.Prelude.{◌≡◌, ◌+◌, ◌*◌, ◌/◌, ◌%◌, ◌<◌, ◌≤◌, ◌^◌, [], ◌∷◌, ◌++◌, pos, neg_ℤ, nat_abs, ◌≤ℤ◌};
ghost use Rattle.std.specs.Fmt.{WritesStyledOnOk};
ghost use Rattle.std.specs.Int.{int_rem_euclid};
ghost use Rattle.ixdtf_instants.specs.Counts.{count_of};
ghost use Rattle.ixdtf_instants.specs.Texts.{clock_digits, days_of, digits_in, fraction_digits, long_year, seconds_of, trimmed_digits, year_digits};

use crate::civil::{CivilDate, date_of};
use crate::instant::Instant;
use std::fmt;

// The number of seconds in a day.
const DAY: i64 = 86_400;

// The number of nanoseconds in a second.
const BILLION: u32 = 1_000_000_000;

// `Display` ignores width and fill.
impl fmt::Display for Instant {
    ghost use Rattle.std.specs.Prelude.{Some};
    ghost use Rattle.ixdtf_instants.specs.Texts.{instant_text};

    ghost output = { λ instant. Some (instant_text instant) };

    ghost styled_output = { λ instant _. Some (instant_text instant) };

    fn fmt<W: fmt::Write>(&self, f: &mut fmt::Formatter<W>) -> fmt::Result {
        let moment = moment_of(*self);
        write_date(f, date_of(moment.day))?;
        f.write_str("T")?;
        write_clock(f, moment.second)?;
        write_fraction(f, moment.nanoseconds)?;
        f.write_str("Z")
    }
}

// A day, and a time on this day.
#[derive(Clone, Copy)]
struct Moment {
    // The day number: 0 is 1970-01-01.
    day: i64,
    // The number of complete seconds since midnight.
    second: u32,
    nanoseconds: u32,
}

// Returns the day and the time of an instant. If the nanoseconds are 1,000,000,000 or more, they are carried over to the
// seconds.
fn moment_of(instant: Instant) -> Moment
    ensures day { result.day ≡ days_of (seconds_of (count_of instant)) }
    ensures second { result.second ≡ nat_abs (int_rem_euclid (seconds_of (count_of instant)) (pos 86_400)) }
    ensures nanoseconds { result.nanoseconds ≡ nat_abs (int_rem_euclid (count_of instant) (pos (10 ^ 9))) }
    ensures in_day { result.second < 86_400 }
    ensures in_second { result.nanoseconds < 10 ^ 9 }
    ensures low { neg_ℤ (pos 110_000_000_000_000) ≤ℤ result.day }
    ensures high { result.day ≤ℤ pos 110_000_000_000_000 }
{
    let second = instant.seconds.rem_euclid(DAY) as u32 + instant.nanoseconds / BILLION;
    Moment {
        day: instant.seconds.div_euclid(DAY) + i64::from(second / 86_400),
        second: second % 86_400,
        nanoseconds: instant.nanoseconds % BILLION,
    }
}

// Writes a date as `Year-Month-Day`.
fn write_date<W: fmt::Write>(f: &mut fmt::Formatter<W>, date: CivilDate) -> fmt::Result
    ensures { WritesStyledOnOk W.write_str_gives f.old result
        (year_digits date.year ++ (45 ∷ (digits_in 2 date.month ++ (45 ∷ digits_in 2 date.day)))) f.new }
{
    write_year(f, date.year)?;
    f.write_str("-")?;
    write_digits(f, 2, u64::from(date.month))?;
    f.write_str("-")?;
    write_digits(f, 2, u64::from(date.day))
}

// Writes a year: four digits if it is from 0 to 9999, and otherwise a sign and six or twelve digits.
fn write_year<W: fmt::Write>(f: &mut fmt::Formatter<W>, year: i64) -> fmt::Result
    ensures { WritesStyledOnOk W.write_str_gives f.old result (year_digits year) f.new }
{
    let number = year.unsigned_abs();
    if year < 0 {
        f.write_str("-")?;
        write_long_year(f, number)
    } else if number <= 9999 {
        write_digits(f, 4, number)
    } else {
        f.write_str("+")?;
        write_long_year(f, number)
    }
}

// Writes the digits of a year after its sign: six digits, or twelve if six are too few.
fn write_long_year<W: fmt::Write>(f: &mut fmt::Formatter<W>, number: u64) -> fmt::Result
    ensures { WritesStyledOnOk W.write_str_gives f.old result (long_year number) f.new }
{
    if number <= 999_999 {
        write_digits(f, 6, number)
    } else {
        write_digits(f, 12, number)
    }
}

// Writes the time that is `seconds` seconds after midnight, as `Hour:Min:Sec`.
fn write_clock<W: fmt::Write>(f: &mut fmt::Formatter<W>, seconds: u32) -> fmt::Result
    ensures { WritesStyledOnOk W.write_str_gives f.old result (clock_digits seconds) f.new }
{
    write_digits(f, 2, u64::from(seconds / 3600))?;
    f.write_str(":")?;
    write_digits(f, 2, u64::from(seconds / 60 % 60))?;
    f.write_str(":")?;
    write_digits(f, 2, u64::from(seconds % 60))
}

// Writes `.` and the nine digits of the nanoseconds without the zeros at their end. Writes nothing if the nanoseconds are 0.
fn write_fraction<W: fmt::Write>(f: &mut fmt::Formatter<W>, nanoseconds: u32) -> fmt::Result
    ensures { WritesStyledOnOk W.write_str_gives f.old result (fraction_digits nanoseconds) f.new }
{
    if nanoseconds == 0 {
        return Ok(());
    }
    f.write_str(".")?;
    let (count, number) = trimmed(nanoseconds);
    write_digits(f, count, u64::from(number))
}

// Removes the zeros at the end of the nine digits of the nanoseconds. Returns the number of digits that are left, and the
// number that these digits stand for.
fn trimmed(nanoseconds: u32) -> (u32, u32)
    ensures digits { digits_in result.0 result.1 ≡ trimmed_digits 9 nanoseconds }
    ensures bound { result.0 ≤ 9 }
{
    let mut count = 9;
    let mut number = nanoseconds;
    while count > 0 && number % 10 == 0 {
        count -= 1;
        number /= 10;
    }
    (count, number)
}

// Writes the last `count` digits of a number, with leading zeros.
fn write_digits<W: fmt::Write>(f: &mut fmt::Formatter<W>, count: u32, number: u64) -> fmt::Result
    requires { count ≤ 19 }
    ensures { WritesStyledOnOk W.write_str_gives f.old result (digits_in count number) f.new }
{
    let mut left = count;
    while left > 0 {
        left -= 1;
        write_digit(f, (number / 10u64.pow(left) % 10) as u8)?;
    }
    Ok(())
}

// Writes one digit.
fn write_digit<W: fmt::Write>(f: &mut fmt::Formatter<W>, digit: u8) -> fmt::Result
    requires { digit < 10 }
    ensures { WritesStyledOnOk W.write_str_gives f.old result ((48 + digit) ∷ []) f.new }
{
    let mut bytes = [0; 4];
    f.write_str(char::from(b'0' + digit).encode_utf8(&mut bytes))
}
