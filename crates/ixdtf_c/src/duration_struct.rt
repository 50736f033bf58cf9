//! The struct of durations that is passed between C and Rust, and the reader that writes it.

ghost use Rattle.std.specs.Prelude.{◌≡◌, ◌≢◌, map};
ghost use Rattle.ixdtf_c.specs.Crossing.{duration_for, with_date, with_time, no_duration, digits_for, value_for};
ghost use Rattle.ixdtf_c.specs.Lasting.{contents, SameButError};
ghost use Rattle.ixdtf_c.specs.Outcomes.{GivesLasting};

use crate::error_numbers::number_and_location;
use crate::part_structs::{Digits, is_negative};
use crate::slices::{Slice, to_c};
use ixdtf::encoding::EncodingType;
use ixdtf::parsers::{IsoDurationParser, Profile};
use ixdtf::records::{DateDurationRecord, DurationParseRecord, Fraction, TimeDurationRecord};

/// A duration. Years, months, weeks and days are its date, and hours, minutes and seconds are its time.
#[derive(Clone, Copy)]
#[repr(C)]
pub struct Duration<'a> {
    /// The days.
    pub days: u64,
    /// The hours.
    pub hours: u64,
    /// The minutes.
    pub minutes: u64,
    /// The seconds.
    pub seconds: u64,
    /// The first 18 digits of the fraction of the last duration unit, as one number: 25 for `PT1.25H`.
    pub fraction: u64,
    /// The years.
    pub years: u32,
    /// The months.
    pub months: u32,
    /// The weeks.
    pub weeks: u32,
    /// The number of digits of the fraction, at most 255. It is 0 if there is no fraction.
    pub fraction_digits: u8,
    /// The last duration unit of the time. 0: there is no time. 1: hours. 2: minutes. 3: seconds.
    pub time_form: u8,
    /// Whether the text has years, months, weeks or days.
    pub has_date: bool,
    /// Whether the sign is `-`.
    pub is_negative: bool,
    /// What was being parsed when the text ended, if the error is `AbruptEnd`. Otherwise the slice is empty.
    pub location: Slice<'a, u8>,
    /// The position of the error: the number of code units before it. It is 0 if there is no error.
    pub place: usize,
}

impl<'a> Duration<'a> {
    // Returns a duration that has only a sign. All other fields are 0, false or empty.
    #[inline(always)]
    fn of_sign(is_negative: bool) -> Duration<'a>
        ensures { contents result ≡ no_duration is_negative }
    {
        Duration {
            days: 0,
            hours: 0,
            minutes: 0,
            seconds: 0,
            fraction: 0,
            years: 0,
            months: 0,
            weeks: 0,
            fraction_digits: 0,
            time_form: 0,
            has_date: false,
            is_negative,
            location: to_c(&[]),
            place: 0,
        }
    }

    // Writes the years, months, weeks and days, if they are present.
    #[inline(always)]
    fn put_date(&mut self, date: Option<DateDurationRecord>)
        ensures { contents self.new ≡ with_date (contents self.old) date }
    {
        match date {
            None => {}
            Some(it) => {
                self.has_date = true;
                self.years = it.years;
                self.months = it.months;
                self.weeks = it.weeks;
                self.days = it.days;
            }
        }
    }

    // Writes the hours, minutes and seconds, if they are present.
    #[inline(always)]
    fn put_time(&mut self, time: Option<TimeDurationRecord>)
        ensures { contents self.new ≡ with_time (contents self.old) time }
    {
        match time {
            None => {}
            Some(TimeDurationRecord::Hours { hours, fraction }) => {
                self.time_form = 1;
                self.hours = hours;
                self.put_fraction(fraction);
            }
            Some(
                TimeDurationRecord::Minutes {
                    hours,
                    minutes,
                    fraction,
                },
            ) => {
                self.time_form = 2;
                self.hours = hours;
                self.minutes = minutes;
                self.put_fraction(fraction);
            }
            Some(
                TimeDurationRecord::Seconds {
                    hours,
                    minutes,
                    seconds,
                    fraction,
                },
            ) => {
                self.time_form = 3;
                self.hours = hours;
                self.minutes = minutes;
                self.seconds = seconds;
                self.put_fraction(fraction);
            }
        }
    }

    // Writes the two numbers of the fraction. Both are 0 if there is no fraction.
    #[inline(always)]
    fn put_fraction(&mut self, fraction: Option<Fraction>)
        ensures { self.new ≡ record (self.old) {
          fraction = value_for fraction;
          fraction_digits = digits_for fraction;
        } }
    {
        let digits = Digits::of(fraction);
        self.fraction = digits.value;
        self.fraction_digits = digits.count;
    }

    // Writes every field of the duration. The fields of a part that is absent become 0 or false.
    #[inline(always)]
    fn fill(&mut self, found: &DurationParseRecord)
        ensures { contents self.new ≡ duration_for found.now }
    {
        *self = Duration::of_sign(is_negative(found.sign));
        self.put_date(found.date);
        self.put_time(found.time);
    }
}

/// Reads a duration under the profile. Writes it, or the location and the position of the error. Returns 0 or the error's number.
#[inline(always)]
pub fn duration_into<T: EncodingType>(
    text: &[T::CodeUnit],
    profile: Profile,
    out: &mut Duration<'_>,
) -> u32
    ensures read { GivesLasting profile (map (λ unit. T.letter (T.number unit)) text.now) result
        (contents out.old) (contents out.new) }
    ensures unchanged { result ≢ 0 → SameButError out.old out.new }
{
    let mut parser = IsoDurationParser::<T>::new(text).with_profile(profile);
    match parser.parse_located() {
        Ok(found) => {
            out.fill(&found);
            0
        }
        Err(located) => {
            let (number, location) = number_and_location(located.error);
            out.location = to_c(location);
            out.place = located.at;
            number
        }
    }
}
