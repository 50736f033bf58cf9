//! The date that has a given day number.

ghost use Rattle.std.specs.Prelude.{◌≡◌, ◌+◌, ◌-◌, ◌*◌, ◌/◌, ◌<◌, ◌≤◌, pos, neg_ℤ, ◌+ℤ◌, ◌≤ℤ◌};
ghost use Rattle.ixdtf_instants.specs.Calendar.{IsCivilDate, day_number_of};

// A number of years. It is a multiple of 400, so that leap years stay leap years, and it is greater than the number of years
// before year 0 of any instant.
const SHIFT: i64 = 400_000_000_000;

// The number of days from 1 March of the year -SHIFT to 1 January 1970.
const EPOCH: i64 = 146_097_000_719_468;

/// A date of the proleptic Gregorian calendar. Year 0 is the year before year 1.
#[derive(Clone, Copy, Debug, PartialEq, Eq)]
pub struct CivilDate {
    /// The year.
    pub year: i64,
    /// The month: January is 1.
    pub month: u8,
    /// The day of the month, from 1 on.
    pub day: u8,
}

/// Returns the date that has the day number `days`: day 0 is 1970-01-01, and day -1 is 1969-12-31.
///
/// `days` must be from -110,000,000,000,000 to 110,000,000,000,000. The day number of every instant is in this range.
pub fn date_of(days: i64) -> CivilDate
    requires low { neg_ℤ (pos 110_000_000_000_000) ≤ℤ days }
    requires high { days ≤ℤ pos 110_000_000_000_000 }
    ensures date { IsCivilDate result.year result.month result.day }
    ensures number { day_number_of result.year result.month result.day ≡ days }
{
    let count = days_from_first(days);
    let year = march_year_of(count);
    let day_of_year = (count - days_before(year)) as u32;
    let month = march_month_of(day_of_year);
    let day = (day_of_year - (153 * month + 2) / 5 + 1) as u8;
    if month < 10 {
        CivilDate {
            year: year as i64 - SHIFT,
            month: month as u8 + 3,
            day,
        }
    } else {
        CivilDate {
            year: year as i64 - SHIFT + 1,
            month: month as u8 - 9,
            day,
        }
    }
}

// Returns the number of days from 1 March of the year -SHIFT to the day with a day number.
fn days_from_first(days: i64) -> u64
    requires low { neg_ℤ (pos 110_000_000_000_000) ≤ℤ days }
    requires high { days ≤ℤ pos 110_000_000_000_000 }
    ensures count { pos result ≡ days +ℤ pos 146_097_000_719_468 }
    ensures bound { result ≤ 300_000_000_000_000 }
{
    (days + EPOCH) as u64
}

// Returns the year that contains a day, if each year begins on 1 March and year 0 begins on day 0.
fn march_year_of(count: u64) -> u64
    requires { count ≤ 300_000_000_000_000 }
    ensures begun { 365 * result + result / 4 - result / 100 + result / 400 ≤ count }
    ensures next { count < 365 * (result + 1) + (result + 1) / 4 - (result + 1) / 100 + (result + 1) / 400 }
    ensures bound { result ≤ 900_000_000_000 }
{
    let century = (4 * count + 3) / 146_097;
    let day_of_century = count - 146_097 * century / 4;
    100 * century + (4 * day_of_century + 3) / 1_461
}

// Returns the number of days in the first `year` years, if each year begins on 1 March.
fn days_before(year: u64) -> u64
    requires { year ≤ 900_000_000_000 }
    ensures { result ≡ 365 * year + year / 4 - year / 100 + year / 400 }
{
    365 * year + year / 4 - year / 100 + year / 400
}

// Returns the month that contains a day of a year, if the year begins on 1 March. March is month 0, and its first day is
// day 0.
fn march_month_of(day_of_year: u32) -> u32
    requires { day_of_year ≤ 365 }
    ensures begun { (153 * result + 2) / 5 ≤ day_of_year }
    ensures next { day_of_year < (153 * (result + 1) + 2) / 5 }
    ensures bound { result ≤ 11 }
{
    (5 * day_of_year + 2) / 153
}
