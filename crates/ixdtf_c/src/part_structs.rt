//! The structs of dates, times and offsets that are passed between C and Rust.

ghost use Rattle.std.specs.Prelude.{◌≡◌};
ghost use Rattle.ixdtf_c.specs.Crossing.{digits_for, value_for, date_for, time_for, offset_of_form, utc_offset_for, offset_for};
ghost use Rattle.ixdtf_c.specs.Crossing.{is_negative as has_minus};

use ixdtf::records::{DateRecord, Fraction, Sign, TimeRecord, UtcOffsetRecord, UtcOffsetRecordOrZ};

/// A date. If `is_there` is false, a reader writes 0 to the other fields.
#[derive(Clone, Copy)]
#[repr(C)]
pub struct Date {
    /// The year, -999999 to 999999. It is 0 if the text has only a month and a day.
    pub year: i32,
    /// The month, 1 to 12.
    pub month: u8,
    /// The day, 1 to 31. It is 1 if the text has only a year and a month, and 0 if the day in the text is `00`.
    pub day: u8,
    /// Whether a date is present.
    pub is_there: bool,
}

/// A time. If `is_there` is false, a reader writes 0 to the other fields.
#[derive(Clone, Copy)]
#[repr(C)]
pub struct Time {
    /// The first 18 digits of the fraction, as one number: 250 for `.250`.
    pub fraction: u64,
    /// The number of digits of the fraction, at most 255. It is 0 if there is no fraction.
    pub fraction_digits: u8,
    /// The hour, 0 to 23.
    pub hour: u8,
    /// The minute, 0 to 59.
    pub minute: u8,
    /// The second, 0 to 60.
    pub second: u8,
    /// Whether a time is present.
    pub is_there: bool,
}

/// An offset from UTC, or `Z`. A reader writes 0 or false to each field that does not belong to `form`.
#[derive(Clone, Copy)]
#[repr(C)]
pub struct Offset {
    /// The first 18 digits of the fraction, as one number: 250 for `.250`.
    pub fraction: u64,
    /// The number of digits of the fraction, at most 255. It is 0 if there is no fraction.
    pub fraction_digits: u8,
    /// 0: there is no offset. 1: the offset is `Z`. 2: it has hours and minutes. 3: it has hours, minutes and seconds.
    pub form: u8,
    /// Whether the sign is `-`. This is also true for `-00:00`.
    pub is_negative: bool,
    /// The hours, 0 to 23.
    pub hour: u8,
    /// The minutes, 0 to 59.
    pub minute: u8,
    /// The seconds, 0 to 59.
    pub second: u8,
}

/// Tests whether the sign is `-`.
#[inline(always)]
pub fn is_negative(sign: Sign) -> bool
    ensures { result ≡ has_minus sign }
{
    match sign {
        Sign::Negative => true,
        Sign::Positive => false,
    }
}

/// The two numbers that C gets for a fraction. Both are 0 if there is no fraction.
#[derive(Clone, Copy)]
pub struct Digits {
    /// The number of digits of the fraction.
    pub count: u8,
    /// The first 18 digits, as one number.
    pub value: u64,
}

impl Digits {
    /// Returns the two numbers of the fraction. Both are 0 if there is no fraction.
    #[inline(always)]
    pub fn of(fraction: Option<Fraction>) -> Digits
        ensures count { result.count ≡ digits_for fraction }
        ensures value { result.value ≡ value_for fraction }
    {
        match fraction {
            None => Digits { count: 0, value: 0 },
            Some(it) => Digits {
                count: it.digit_count(),
                value: it.leading_value(),
            },
        }
    }
}

impl Date {
    /// Writes the date to `self`. If there is none, each field becomes 0 or false.
    #[inline(always)]
    pub(crate) fn put(&mut self, date: Option<DateRecord>)
        ensures { self.new ≡ date_for date }
    {
        match date {
            None => {
                *self = Date {
                    year: 0,
                    month: 0,
                    day: 0,
                    is_there: false,
                }
            }
            Some(it) => {
                self.year = it.year;
                self.month = it.month;
                self.day = it.day;
                self.is_there = true;
            }
        }
    }
}

impl Time {
    /// Writes the time to `self`. If there is none, each field becomes 0 or false.
    #[inline(always)]
    pub(crate) fn put(&mut self, time: Option<TimeRecord>)
        ensures { self.new ≡ time_for time }
    {
        match time {
            None => {
                *self = Time {
                    fraction: 0,
                    fraction_digits: 0,
                    hour: 0,
                    minute: 0,
                    second: 0,
                    is_there: false,
                }
            }
            Some(it) => {
                let digits = Digits::of(it.fraction);
                self.fraction = digits.value;
                self.fraction_digits = digits.count;
                self.hour = it.hour;
                self.minute = it.minute;
                self.second = it.second;
                self.is_there = true;
            }
        }
    }
}

impl Offset {
    /// Writes the offset to `self`. If there is none, each field becomes 0 or false.
    #[inline(always)]
    pub(crate) fn put(&mut self, offset: Option<UtcOffsetRecordOrZ>)
        ensures { self.new ≡ offset_for offset }
    {
        match offset {
            None => self.put_form(0),
            Some(UtcOffsetRecordOrZ::Z) => self.put_form(1),
            Some(UtcOffsetRecordOrZ::Offset(it)) => self.put_shift(it),
        }
    }

    // Writes `form`. Each other field becomes 0 or false.
    #[inline(always)]
    fn put_form(&mut self, form: u8)
        ensures { self.new ≡ offset_of_form form }
    {
        *self = Offset {
            fraction: 0,
            fraction_digits: 0,
            form,
            is_negative: false,
            hour: 0,
            minute: 0,
            second: 0,
        };
    }

    /// Writes an offset that is not `Z` to `self`.
    #[inline(always)]
    pub(crate) fn put_shift(&mut self, offset: UtcOffsetRecord)
        ensures { self.new ≡ utc_offset_for offset }
    {
        match offset {
            UtcOffsetRecord::MinutePrecision(it) => {
                self.fraction = 0;
                self.fraction_digits = 0;
                self.form = 2;
                self.is_negative = is_negative(it.sign);
                self.hour = it.hour;
                self.minute = it.minute;
                self.second = 0;
            }
            UtcOffsetRecord::FullPrecisionOffset(it) => {
                let minutes = it.minute_precision_offset;
                let digits = Digits::of(it.fraction);
                self.fraction = digits.value;
                self.fraction_digits = digits.count;
                self.form = 3;
                self.is_negative = is_negative(minutes.sign);
                self.hour = minutes.hour;
                self.minute = minutes.minute;
                self.second = it.second;
            }
        }
    }
}
