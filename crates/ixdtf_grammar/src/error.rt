//! The errors of the readers, and their messages.

ghost use Rattle.std.specs.Prelude.{◌≡◌};
ghost use Rattle.ixdtf_grammar.specs.table.Faults.{fault_of};
ghost use Rattle.ixdtf_grammar.specs.table.ErrorTexts.{text_of};
ghost use Rattle.ixdtf_grammar.specs.table.ErrorEquality.{variant_index_of, location_of};

use std::error::Error;
use std::fmt;

/// The error that a reader returns when it refuses a text, such as `InvalidMonthRange` for `2021-13-01`.
///
/// A caller can pass a *handler* to a reader: a function that gets each annotation, and returns an annotation or `None`.
/// The errors `CriticalDuplicateCalendar` and `UnrecognizedCritical` are about the annotations that the handler returned.
/// Without a handler, these two errors are about all annotations of the text. The fault table, `docs/FAULTS.md` of the
/// repository, has every other error that a reader returns, and its position in the text.
///
/// The names of the errors and their messages are those of another crate, `ixdtf` 0.6.7 of the project ICU4X. They keep the
/// spelling mistakes of that crate, such as `DurationDisgnator`.
///
/// # Examples
///
/// ```rust
/// use ixdtf::ParseError;
/// use ixdtf::parsers::IxdtfParser;
///
/// fn advice(error: ParseError) -> &'static str {
///     match error {
///         ParseError::InvalidMonthRange => "there is no such month",
///         ParseError::AbruptEnd { location } => location,
///         other => other.to_static_string(),
///     }
/// }
///
/// let error = IxdtfParser::from_str("2021-13-01").parse().unwrap_err();
/// assert_eq!(advice(error), "there is no such month");
/// let error = IxdtfParser::from_str("2021").parse().unwrap_err();
/// assert_eq!(advice(error), "Date");
/// ```
#[derive(Clone, Copy, Debug)]
pub enum ParseError {
    /// An internal error. No reader returns this error.
    ImplAssert,
    /// The code unit at the position of the error is a 16-bit code unit outside 1 to 126. 8-bit text never has this error.
    NonAsciiCodePoint,
    /// No reader returns this error.
    ParseFloat,
    /// The text ends too early. In a duration, this is also the error if a wrong character follows a number or its
    /// fraction. `location` says what was being parsed:
    ///
    /// - `digit`: a digit must follow, as in `2020-1`.
    /// - `Date`: the text ends after the year of a date, as in `2020`.
    /// - `AmbiguousAnnotation`: the first bracket is not closed, and it can be a zone or an annotation. There are two
    ///   cases. In the first case, the text ends after `[` or `[!`. In the second case, a lowercase letter or `_` follows
    ///   the `[` or `[!`, and the text ends before the first `=` or `]`, as in `2020-01-01[cet`.
    /// - `MonthDay`: the text for `parse_month_day` is empty, or is one hyphen.
    /// - `time-numoffset`: the text for `parse_offset` is empty, or the text for `parse_rfc3339` or `parse_rfc9557`
    ///   ends where the offset must begin.
    /// - `TimeZoneAnnotation`: the text for `parse_identifier` is empty.
    /// - `DurationStart`: the text for a duration is empty.
    /// - `DurationDesignator`: a duration ends after its sign.
    /// - `Duration`: a duration ends after its `P`.
    /// - `DateDurationDesignator`: in the date part of a duration, the text ends after a number, or the character after the
    ///   number is not the letter of a date unit.
    /// - `TimeDurationDesignator`: in the time part of a duration, the text ends after a number or after its fraction, or
    ///   the character there is not the letter of a time unit. A `.` or `,` after the number begins its fraction.
    AbruptEnd {
        /// What was being parsed.
        location: &'static str,
    },
    /// A complete part of the text is followed by a character that must not follow this part. The part is a date, a
    /// year-month such as `2020-11`, a month-day such as `11-07`, a time, an offset, a bracket or a duration. Some of these
    /// cases have another error: if a digit follows the time `12:00`, the error is `TimeSeparator`, and not `InvalidEnd`.
    ///
    /// In `parse_identifier` and `parse_iana_identifier`, this is also the error if a `]` follows a name. In a duration,
    /// this is also the error if the character after the `P` is neither a digit nor `T` or `t`.
    InvalidEnd,
    /// The month is not 01 to 12.
    InvalidMonthRange,
    /// The day of a date is 00, or is greater than the number of days in its month.
    InvalidDayRange,
    /// The text must begin with a year, but its first character is neither a digit nor a sign. Or one of the four
    /// characters of a year without a sign is not a digit. In `parse_rfc3339` and `parse_rfc9557`, this is also the error if
    /// the text begins with a sign.
    DateYear,
    /// One of the six characters after the sign of a year is not a digit, or the year is `-000000`.
    DateExtendedYear,
    /// In `parse` and `parse_year_month`, a year is followed by a character that is neither a hyphen nor a digit. Or a month
    /// contains a character that is not a digit. Or the text for `parse_month_day` begins with a character that is neither a
    /// digit nor a hyphen.
    DateMonth,
    /// A day contains a character that is not a digit. Or, in a month-day, the month is followed by a character that is
    /// neither a hyphen nor a digit.
    DateDay,
    /// No reader returns this error.
    DateUnexpectedEnd,
    /// No reader returns this error.
    TimeRequired,
    /// The hour of a time or of an offset contains a character that is not a digit, or is greater than 23. In
    /// `parse_time`, this is also the error if the text begins with a character that is neither a digit nor `T` or `t`.
    TimeHour,
    /// The minute of a time, or the minute or the second of an offset, contains a character that is not a digit, or is
    /// greater than 59.
    TimeMinuteSecond,
    /// The second of a time contains a character that is not a digit, or is greater than 60.
    TimeSecond,
    /// No digit follows the `.` or `,` of a fraction. This is also the error if the text ends there. In `parse_rfc3339`
    /// and `parse_rfc9557`, this is also the error if a comma follows the second.
    FractionPart,
    /// A date has only one of its two hyphens: no hyphen follows `2020-01`, or a hyphen follows `202001`. This is also the
    /// error if the text ends after `2020-01`. In `parse_rfc3339` and `parse_rfc9557`, this is the error if the character
    /// after the year is not a hyphen, or if no hyphen follows the month.
    DateSeparator,
    /// A time has only one of its two colons: a digit follows `12:00`, or a colon follows `1200`. In `parse_rfc3339` and
    /// `parse_rfc9557`, this is the error if no `T` or `t` follows the date, or if no colon follows the hour or the
    /// minute.
    TimeSeparator,
    /// No reader returns this error.
    DecimalSeparator,
    /// No reader returns this error.
    InvalidAnnotation,
    /// No reader returns this error.
    AnnotationOpen,
    /// A `]` is missing. In a bracket, the text ends after the value of an annotation, after an offset, or after the name of
    /// a time zone. Or the character after an offset in a bracket is none of `]`, a colon and a digit.
    ///
    /// If the text ends after a name that begins with a lowercase letter or `_`, the error is `AbruptEnd`.
    AnnotationClose,
    /// No reader returns this error.
    AnnotationChar,
    /// In a bracket that is not the first one, the text ends in the key, before the `=`.
    AnnotationKeyValueSeparator,
    /// In a bracket that is not the first one, the key begins with a character that cannot begin a key. This is also
    /// the error if the text ends there.
    AnnotationKeyLeadingChar,
    /// A key is followed by a character other than `=`. A key can contain lowercase letters, digits, `_` and `-`.
    AnnotationKeyChar,
    /// In the value of an annotation, no ASCII letter or digit follows a hyphen. This is also the error if the text
    /// ends there.
    AnnotationValueCharPostHyphen,
    /// The value of an annotation is followed by a character other than `]`. A value can contain ASCII letters, digits and
    /// hyphens. This is also the error if no ASCII letter or digit follows the `=`, or if the text ends after the `=`.
    AnnotationValueChar,
    /// A colon or a digit follows the minute of an offset that must not have seconds. Offsets in brackets, and offsets that
    /// `parse_identifier` reads, must not have seconds. In `parse_rfc9557`, this is also the error if an offset in brackets
    /// does not have the form `+05:30`.
    InvalidMinutePrecisionOffset,
    /// An annotation with the key `u-ca` has another value than the first annotation with this key, and at least one of
    /// these two annotations is critical. With a handler, this error is about the annotations that the handler returned.
    CriticalDuplicateCalendar,
    /// An annotation is critical, and its key is not `u-ca`. With a handler, this error is about the annotations that the
    /// handler returned.
    UnrecognizedCritical,
    /// A time zone begins with a character that cannot begin a time zone. This is also the error if the content of the
    /// first bracket, after its `!` if it has one, begins with such a character. For `parse_iana_identifier`, this is also
    /// the error if the text is empty.
    TzLeadingChar,
    /// In the name of a time zone, a `/` is followed by another `/`, by a character that a name cannot contain, or by the
    /// end of the text.
    IanaCharPostSeparator,
    /// The name of a time zone is followed by a character that a name cannot contain, and that is not a `]`. In
    /// `parse_rfc9557`, this is also the error if RFC 9557 does not allow the name, as for `a/1` or `..`.
    IanaChar,
    /// In an offset that can have seconds, one of the two colons is missing: a digit follows `+05:00`, or a colon follows
    /// `+0500`. In `parse_rfc3339` and `parse_rfc9557`, offsets have no seconds. There, this is the error if no colon follows
    /// the hour of the offset after the time.
    UtcTimeSeparator,
    /// The text for `parse_offset` begins with a character that is not a sign. In `parse_rfc3339` and `parse_rfc9557`, this
    /// is the error if the offset is missing, and another character follows the second or its fraction. If this character
    /// is a comma directly after the second, the error is `FractionPart`.
    OffsetNeedsSign,
    /// A month-day begins with a hyphen, and the next character is not a hyphen. A month-day can begin with two hyphens
    /// or with none.
    MonthDayHyphen,
    /// A duration begins with a character other than a sign, `P` or `p`. This is also the error if the character after the
    /// sign is not `P` or `p`.
    DurationDisgnator,
    /// A number of a duration is 2^64 or more, or its number of years, months or weeks is 2^32 or more.
    DurationValueExceededRange,
    /// The years, months, weeks and days of a duration are not in this order. Under the strict profile, this is also
    /// the error if one of these units occurs twice.
    DateDurationPartOrder,
    /// The hours, minutes and seconds of a duration are not in this order. Under the strict profile, this is also the
    /// error if one of these units occurs twice.
    TimeDurationPartOrder,
    /// No digit follows the `T` of a duration. This is also the error if the text ends there.
    TimeDurationDesignator,
    /// The text for `parse_time` is ambiguous. If its brackets are taken away, the rest is a time, but this rest also begins
    /// with a month-day. For example, `1200` is the time 12:00. It is also the month 12 with the day 00, and
    /// [`Profile::Crate`](crate::parsers::Profile::Crate) allows the day 00.
    AmbiguousTimeMonthDay,
    /// The text for `parse_time` is ambiguous. If its brackets are taken away, the rest is a time, but this rest also begins
    /// with a year-month. For example, `200112` is the time 20:01:12, and also the year 2001 with the month 12. If the text also
    /// begins with a month-day, the error is `AmbiguousTimeMonthDay`.
    AmbiguousTimeYearMonth,
    /// In the text for `parse_month_day`, the day is greater than the number of days in the month. February has 29 days
    /// here. Under the strict profile, this is also the error if the day is 00.
    InvalidMonthDay,
}

impl ParseError {
    /// Returns the message of the error, such as `Parsing ended abruptly.`.
    ///
    /// The message is the same for every `AbruptEnd`. `Display` also writes the location of an `AbruptEnd`.
    ///
    /// # Examples
    ///
    /// ```rust
    /// use ixdtf::ParseError;
    ///
    /// let error = ParseError::AbruptEnd { location: "Date" };
    /// assert_eq!(error.to_static_string(), "Parsing ended abruptly.");
    /// assert_eq!(error.to_string(), "Parsing ended abruptly while parsing Date");
    /// ```
    pub fn to_static_string(&self) -> &'static str
        ensures { result.now ≡ text_of (fault_of self.now) }
    {
        match *self {
            ParseError::ImplAssert => "Implementation error: this error must not throw.",
            ParseError::NonAsciiCodePoint => "Code point was not ASCII",
            ParseError::ParseFloat => "Invalid float while parsing fraction part.",
            ParseError::AbruptEnd { .. } => "Parsing ended abruptly.",
            ParseError::InvalidEnd => "Unexpected character found after parsing was completed.",
            ParseError::InvalidMonthRange => "Parsed month value not in a valid range.",
            ParseError::InvalidDayRange => "Parsed day value not in a valid range.",
            ParseError::DateYear => "Invalid chracter while parsing year value.",
            ParseError::DateExtendedYear => "Invalid character while parsing extended year value.",
            ParseError::DateMonth => "Invalid character while parsing month value.",
            ParseError::DateDay => "Invalid character while parsing day value.",
            ParseError::DateUnexpectedEnd => "Unexpected end while parsing a date value.",
            ParseError::TimeRequired => "Time is required.",
            ParseError::TimeHour => "Invalid character while parsing hour value.",
            ParseError::TimeMinuteSecond =>
                "Invalid character while parsing minute/second value in (0, 59] range.",
            ParseError::TimeSecond =>
                "Invalid character while parsing second value in (0, 60] range.",
            ParseError::FractionPart => "Invalid character while parsing fraction part value.",
            ParseError::DateSeparator => "Invalid character while parsing date separator.",
            ParseError::TimeSeparator => "Invalid character while parsing time separator.",
            ParseError::DecimalSeparator => "Invalid character while parsing decimal separator.",
            ParseError::InvalidAnnotation => "Invalid annotation.",
            ParseError::AnnotationOpen => "Invalid annotation open character.",
            ParseError::AnnotationClose => "Invalid annotation close character.",
            ParseError::AnnotationChar => "Invalid annotation character.",
            ParseError::AnnotationKeyValueSeparator =>
                "Invalid annotation key-value separator character.",
            ParseError::AnnotationKeyLeadingChar => "Invalid annotation key leading character.",
            ParseError::AnnotationKeyChar => "Invalid annotation key character.",
            ParseError::AnnotationValueCharPostHyphen =>
                "Expected annotation value character must exist after hyphen.",
            ParseError::AnnotationValueChar => "Invalid annotation value character.",
            ParseError::InvalidMinutePrecisionOffset => "Offset must be minute precision",
            ParseError::CriticalDuplicateCalendar =>
                "Duplicate calendars cannot be provided when one is critical.",
            ParseError::UnrecognizedCritical => "Unrecognized annoation is marked as critical.",
            ParseError::TzLeadingChar => "Invalid time zone leading character.",
            ParseError::IanaCharPostSeparator => "Expected time zone character after '/'.",
            ParseError::IanaChar => "Invalid IANA time zone character after '/'.",
            ParseError::UtcTimeSeparator => "Invalid time zone character after '/'.",
            ParseError::OffsetNeedsSign => "UTC offset needs a sign",
            ParseError::MonthDayHyphen => "MonthDay must begin with a month or '--'",
            ParseError::DurationDisgnator => "Invalid duration designator.",
            ParseError::DurationValueExceededRange =>
                "Provided Duration field value exceeds supported range.",
            ParseError::DateDurationPartOrder => "Invalid date duration part order.",
            ParseError::TimeDurationPartOrder => "Invalid time duration part order.",
            ParseError::TimeDurationDesignator => "Invalid time duration designator.",
            ParseError::AmbiguousTimeMonthDay => "Time is ambiguous with MonthDay",
            ParseError::AmbiguousTimeYearMonth => "Time is ambiguous with YearMonth",
            ParseError::InvalidMonthDay => "MonthDay was not valid.",
        }
    }
}

impl ParseError {
    /// Returns the index of the variant in the list of variants.
    fn variant_index(&self) -> u8
        ensures { result ≡ variant_index_of (fault_of self.now) }
    {
        match *self {
            ParseError::ImplAssert => 0,
            ParseError::NonAsciiCodePoint => 1,
            ParseError::ParseFloat => 2,
            ParseError::AbruptEnd { .. } => 3,
            ParseError::InvalidEnd => 4,
            ParseError::InvalidMonthRange => 5,
            ParseError::InvalidDayRange => 6,
            ParseError::DateYear => 7,
            ParseError::DateExtendedYear => 8,
            ParseError::DateMonth => 9,
            ParseError::DateDay => 10,
            ParseError::DateUnexpectedEnd => 11,
            ParseError::TimeRequired => 12,
            ParseError::TimeHour => 13,
            ParseError::TimeMinuteSecond => 14,
            ParseError::TimeSecond => 15,
            ParseError::FractionPart => 16,
            ParseError::DateSeparator => 17,
            ParseError::TimeSeparator => 18,
            ParseError::DecimalSeparator => 19,
            ParseError::InvalidAnnotation => 20,
            ParseError::AnnotationOpen => 21,
            ParseError::AnnotationClose => 22,
            ParseError::AnnotationChar => 23,
            ParseError::AnnotationKeyValueSeparator => 24,
            ParseError::AnnotationKeyLeadingChar => 25,
            ParseError::AnnotationKeyChar => 26,
            ParseError::AnnotationValueCharPostHyphen => 27,
            ParseError::AnnotationValueChar => 28,
            ParseError::InvalidMinutePrecisionOffset => 29,
            ParseError::CriticalDuplicateCalendar => 30,
            ParseError::UnrecognizedCritical => 31,
            ParseError::TzLeadingChar => 32,
            ParseError::IanaCharPostSeparator => 33,
            ParseError::IanaChar => 34,
            ParseError::UtcTimeSeparator => 35,
            ParseError::OffsetNeedsSign => 36,
            ParseError::MonthDayHyphen => 37,
            ParseError::DurationDisgnator => 38,
            ParseError::DurationValueExceededRange => 39,
            ParseError::DateDurationPartOrder => 40,
            ParseError::TimeDurationPartOrder => 41,
            ParseError::TimeDurationDesignator => 42,
            ParseError::AmbiguousTimeMonthDay => 43,
            ParseError::AmbiguousTimeYearMonth => 44,
            ParseError::InvalidMonthDay => 45,
        }
    }
}

impl ParseError {
    /// Returns the location of an `AbruptEnd`, and the empty string for every other error.
    fn location(&self) -> &'static str
        ensures { result.now ≡ location_of (fault_of self.now) }
    {
        match *self {
            ParseError::AbruptEnd { location } => location,
            _ => "",
        }
    }
}

impl PartialEq for ParseError {
    ghost use Rattle.std.specs.Prelude.{◌≡◌, ◌↔◌, IsTrue};
    ghost use Rattle.ixdtf_grammar.specs.table.Faults.{fault_of};
    ghost use Rattle.ixdtf_grammar.specs.table.ErrorEquality.{same_error, same_error-laws};

    ghost eq = { same_error };

    ghost laws = { same_error-laws };

    /// Returns whether the errors are the same variant, and their locations have equal bytes.
    fn eq(&self, other: &ParseError) -> bool
        ensures computes { result ≡ same_error self.now other.now }
        ensures equal { IsTrue result ↔ (fault_of self.now ≡ fault_of other.now) }
    {
        self.variant_index() == other.variant_index() && self.location() == other.location()
    }
}

// `Display` writes the message of the error. For an `AbruptEnd`, it writes `Parsing ended abruptly while parsing ` and
// the location. It ignores width and fill.
impl fmt::Display for ParseError {
    ghost use Rattle.std.specs.Prelude.{Some};
    ghost use Rattle.ixdtf_grammar.specs.table.Faults.{fault_of};
    ghost use Rattle.ixdtf_grammar.specs.table.ErrorTexts.{message_of};

    ghost output = { λ e. Some (message_of (fault_of e)) };

    ghost styled_output = { λ e _. Some (message_of (fault_of e)) };

    fn fmt<W: fmt::Write>(&self, f: &mut fmt::Formatter<W>) -> fmt::Result {
        if let ParseError::AbruptEnd { location } = *self {
            f.write_str("Parsing ended abruptly while parsing ")?;
            f.write_str(location)
        } else {
            f.write_str(self.to_static_string())
        }
    }
}

impl Error for ParseError {}
