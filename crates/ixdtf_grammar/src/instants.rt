//! The instants of records.

ghost use Rattle.std.specs.Prelude.{◌≡◌, ◌+◌, ◌*◌, ◌<◌, ◌≤◌, ◌^◌, pos, neg_ℤ, ◌-ℤ◌, ◌≤ℤ◌, IfSome, IfNone};
ghost use Rattle.ixdtf_instants.specs.{Calendar.IsMonth, Counts.count_of};
ghost use Rattle.ixdtf_grammar.specs.Instants.{HasInstant, IsInstantOf, clock_count, fraction_nanoseconds, offset_count, seconds_ahead};
ghost use Rattle.ixdtf_grammar.specs.declared.records.UtcOffsetRecordOrZ.TheVariants.{Offset};

use crate::encoding::EncodingType;
use crate::records::{
    DateRecord, Fraction, IxdtfParseRecord, Sign, TimeRecord, UtcOffsetRecord, UtcOffsetRecordOrZ,
};
use ixdtf_instants::Instant;
use ixdtf_instants::days::day_number;

impl<'a, T: EncodingType> IxdtfParseRecord<'a, T> {
    /// Returns the instant of the record: the local time minus the offset (RFC 3339, section 4.2).
    ///
    /// For a record that a reader returned, the result is `Some` exactly if the record has a date, a time, and an offset
    /// or `Z`.
    ///
    /// - The nanoseconds of the local time are the first nine digits of the fraction of the time. If the offset has a
    ///   fraction, the nanoseconds of the offset are the first nine digits of this fraction. They are subtracted if the
    ///   offset is positive, and added if the offset is negative.
    /// - The second 60 counts as the second 59, as in `ParseISODateTime` of the Temporal proposal. So, for the same date
    ///   and the same offset, `23:59:60.5` and `23:59:59.5` are the same instant.
    /// - The time zone in brackets and the calendar do not change the instant. If the record has an offset and a zone, this
    ///   method does not check that the zone has this offset at this time. If the zone is critical, the caller must check
    ///   it (RFC 9557, section 3.4).
    /// - A program can also make a record that no reader returns. If the month is not from 1 to 12, the result is `None`. If
    ///   the month does not have the day, the days are counted from the first day of the month: 31 February is 30 days
    ///   after 1 February, so it counts as 3 March, or as 2 March in a leap year. In the same way, hours above 23 are
    ///   counted from the beginning of the day, and minutes above 59 from the beginning of the hour. A second above 59
    ///   counts as 59.
    ///
    /// # Examples
    ///
    /// ```rust
    /// use ixdtf::Instant;
    /// use ixdtf::parsers::IxdtfParser;
    ///
    /// let text = "2024-03-02T08:48:00.25-05:00[America/New_York]";
    /// let record = IxdtfParser::from_str(text).parse().unwrap();
    /// let instant = Instant { seconds: 1_709_387_280, nanoseconds: 250_000_000 };
    /// assert_eq!(record.instant(), Some(instant));
    ///
    /// let record = IxdtfParser::from_str("2024-03-02T08:48:00[America/New_York]").parse().unwrap();
    /// assert_eq!(record.instant(), None);
    /// ```
    pub fn instant(&self) -> Option<Instant>
        ensures some { IfSome result (λ instant. IsInstantOf self.now instant) }
        ensures none { IfNone result (¬ (HasInstant self.now)) }
    {
        if let (Some(date), Some(time), Some(UtcOffsetRecordOrZ::Z)) = (
            &self.date,
            &self.time,
            &self.offset,
        ) {
            // A record in UTC without a fraction is frequent. Without function calls, its instant takes half as many
            // instructions.
            if time.fraction.is_none() && time.second < 60 {
                let days = day_number(date.year, date.month, date.day)?;
                let seconds = seconds_in(time.hour, time.minute, time.second);
                return Some(Instant {
                    seconds: days * 86_400 + i64::from(seconds),
                    nanoseconds: 0,
                });
            }
        }
        self.instant_of_parts()
    }

    // Returns the instant of any record. It takes more instructions than the case in `instant`.
    #[inline(never)]
    fn instant_of_parts(&self) -> Option<Instant>
        ensures some { IfSome result (λ instant. IsInstantOf self.now instant) }
        ensures none { IfNone result (¬ (HasInstant self.now)) }
    {
        let date = self.date.as_ref()?;
        let time = self.time.as_ref()?;
        let offset = self.offset.as_ref()?;
        let clock = clock_at(date, time)?;
        match *offset {
            UtcOffsetRecordOrZ::Z => Some(clock),
            UtcOffsetRecordOrZ::Offset(offset) => Some(in_utc(clock, offset)),
        }
    }
}

impl UtcOffsetRecord {
    /// Returns how many seconds local time is ahead of UTC. The number is below zero if local time is behind UTC.
    ///
    /// A fraction of a second is dropped. Call [`fraction`](Self::fraction) to get it. The result is 0 for `+00:00` and for
    /// `-00:00`, although these two offsets have different meanings (RFC 9557, section 2).
    ///
    /// # Examples
    ///
    /// ```rust
    /// use ixdtf::parsers::TimeZoneParser;
    ///
    /// assert_eq!(TimeZoneParser::from_str("+05:30").parse_offset()?.to_seconds(), 19_800);
    /// assert_eq!(TimeZoneParser::from_str("-05:00:30.5").parse_offset()?.to_seconds(), -18_030);
    /// # Ok::<(), ixdtf::ParseError>(())
    /// ```
    pub fn to_seconds(&self) -> i32
        ensures { result ≡ seconds_ahead self.now }
    {
        let seconds = seconds_in(self.hour(), self.minute(), self.second().unwrap_or(0)) as i32;
        match self.sign() {
            Sign::Positive => seconds,
            Sign::Negative => -seconds,
        }
    }
}

// Returns the instant at which a clock in UTC shows the date and the time. Returns `None` if the month is not from 1 to 12.
#[inline(always)]
fn clock_at(date: &DateRecord, time: &TimeRecord) -> Option<Instant>
    ensures some { IfSome result (λ clock. IsMonth date.now.month) }
    ensures none { IfNone result (¬ (IsMonth date.now.month)) }
    ensures value { IfSome result (λ clock. count_of clock ≡ clock_count date.now time.now) }
    ensures fits { IfSome result (λ clock. clock.nanoseconds < 10 ^ 9) }
    ensures near { IfSome result (λ clock. (neg_ℤ (pos (10 ^ 17)) ≤ℤ clock.seconds) × (clock.seconds ≤ℤ pos (10 ^ 17))) }
{
    let days = day_number(date.year, date.month, date.day)?;
    let seconds = seconds_in(time.hour, time.minute, time.second.min(59));
    Some(Instant {
        seconds: days * 86_400 + i64::from(seconds),
        nanoseconds: nanoseconds_in(time.fraction),
    })
}

// Returns the instant at which a clock at the offset shows the date and the time that a clock in UTC shows at the instant
// `clock`.
#[inline(never)]
fn in_utc(clock: Instant, offset: UtcOffsetRecord) -> Instant
    requires small { clock.nanoseconds < 10 ^ 9 }
    requires near { (neg_ℤ (pos (10 ^ 17)) ≤ℤ clock.seconds) × (clock.seconds ≤ℤ pos (10 ^ 17)) }
    ensures value { count_of result ≡ count_of clock -ℤ offset_count (Offset offset) }
    ensures fits { result.nanoseconds < 10 ^ 9 }
{
    let seconds = seconds_in(offset.hour(), offset.minute(), offset.second().unwrap_or(0));
    let nanoseconds = nanoseconds_in(offset.fraction());
    match offset.sign() {
        Sign::Positive => clock.earlier_by(seconds, nanoseconds),
        Sign::Negative => clock.later_by(seconds, nanoseconds),
    }
}

// Returns the number of seconds in the hours, the minutes and the seconds together.
#[inline(always)]
fn seconds_in(hour: u8, minute: u8, second: u8) -> u32
    ensures value { result ≡ (hour * 60 + minute) * 60 + second }
    ensures bound { result ≤ 1_000_000 }
{
    (u32::from(hour) * 60 + u32::from(minute)) * 60 + u32::from(second)
}

// Returns the nanoseconds of the fraction, which are its first nine digits. Returns 0 if there is no fraction.
#[inline(always)]
fn nanoseconds_in(fraction: Option<Fraction>) -> u32
    ensures value { result ≡ fraction_nanoseconds fraction }
    ensures small { result < 10 ^ 9 }
{
    match fraction {
        Some(fraction) => fraction.to_truncated_nanoseconds(),
        None => 0,
    }
}
