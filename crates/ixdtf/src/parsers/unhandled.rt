//! The readers of [`IxdtfParser`] without a handler.

ghost use Rattle.std.specs.Prelude.{◌≡◌, is_some, not};
ghost use Rattle.ixdtf_grammar.specs.table.Faults.{fault_of};
ghost use Rattle.ixdtf_grammar.specs.language.Readers.{parse as reader_parse, parse_year_month as reader_parse_year_month};
ghost use Rattle.ixdtf_grammar.specs.language.Readers.{parse_rfc9557 as reader_parse_rfc9557};
ghost use Rattle.ixdtf_grammar.specs.language.Readers.{parse_month_day as reader_parse_month_day, parse_time as reader_parse_time};
ghost use Rattle.ixdtf_grammar.specs.language.Readers.Reader.{bracketed};
ghost use Rattle.ixdtf_grammar.specs.Views.{IsEmptyRecord, parsed_of};
ghost use Rattle.ixdtf_grammar.specs.Promises.{ReadsText};
ghost use Rattle.ixdtf_explanations.specs.LocatedPromises.{ReadsTextAt};
ghost use Rattle.ixdtf.specs.Readings.{ReadsUnhandled};

use crate::parsers::{
    CoreReader, DateTimes, InternetDateTimes, IxdtfParser, MonthDays, Times, YearMonths,
};
use crate::{LocatedError, ParserResult};
use ixdtf_grammar::encoding::EncodingType;
use ixdtf_grammar::records::IxdtfParseRecord;
use ixdtf_reading::stop::StopAt;

impl<'a, T: EncodingType> IxdtfParser<'a, T> {
    /// Parses the remaining input as a date, or as a date and a time, such as `2024-03-02T08:48:00Z[Europe/Paris]`.
    ///
    /// A text consists of these parts, in this order. Only the date is required.
    ///
    /// 1. A date: `2020-11-08` or `20201108`. The year has four digits, or a sign and six digits.
    /// 2. `T`, `t` or a space, and a time: `12`, `12:30`, `1230`, `12:30:45` or `123045`. The last two can have a
    ///    fraction, such as `.25` or `,25`.
    /// 3. `Z`, `z` or an offset, only if there is a time. An offset is as in [`TimeZoneParser::parse_offset`].
    /// 4. A time zone in brackets: `[`, an optional `!`, a zone as in [`TimeZoneParser::parse_identifier`], and `]`.
    /// 5. Any number of annotations: `[`, an optional `!`, a key, `=`, a value and `]`. A key consists of lowercase
    ///    ASCII letters, digits, `_` and `-`. Its first character is a letter or `_`. A value consists of groups of ASCII
    ///    letters and digits, with a single `-` between two groups.
    ///
    /// The forms of dates and times come from RFC 3339, section 5.6, and from ISO 8601. The brackets come from RFC
    /// 9557, section 4.1 (`suffix`).
    ///
    /// The record has the fields `date`, `time`, `offset` and `tz` for the parts that the text has. `calendar` is the
    /// value of the first annotation with the key `u-ca`. An annotation is *critical* if it has the `!`. A critical
    /// annotation whose key is not `u-ca` is refused. Any other annotation whose key is not `u-ca` is ignored. To decide
    /// about annotations yourself, call [`parse_with_annotation_handler`](Self::parse_with_annotation_handler).
    ///
    /// If the call succeeds, no input remains, and a second call returns the error of the empty text. If it fails, the
    /// input is unchanged, and a second call returns the same error.
    ///
    /// # Examples
    ///
    /// ```rust
    /// use ixdtf::ParseError;
    /// use ixdtf::parsers::IxdtfParser;
    /// use ixdtf::records::{Sign, TimeZoneRecord};
    ///
    /// let record = IxdtfParser::from_str("2024-03-02T08:48:00-05:00[America/New_York]").parse()?;
    /// let date = record.date.unwrap();
    /// assert_eq!((date.year, date.month, date.day), (2024, 3, 2));
    /// let time = record.time.unwrap();
    /// assert_eq!((time.hour, time.minute, time.second, time.fraction), (8, 48, 0, None));
    /// let offset = record.offset.unwrap().resolve_rfc_9557();
    /// assert_eq!((offset.sign(), offset.hour(), offset.minute()), (Sign::Negative, 5, 0));
    /// assert_eq!(record.tz.unwrap().tz, TimeZoneRecord::Name(b"America/New_York"));
    ///
    /// let record = IxdtfParser::from_str("2024-03-02[UTC][u-ca=hebrew][a=b]").parse()?;
    /// assert_eq!(record.calendar, Some(b"hebrew".as_slice()));
    /// assert_eq!(IxdtfParser::from_str("+002024-03-02").parse()?.date, Some(date));
    /// let record = IxdtfParser::from_str("2024-03-02T08:48:00.25").parse()?;
    /// assert_eq!(record.time.unwrap().fraction.unwrap().to_nanoseconds(), Some(250_000_000));
    ///
    /// for (text, error) in [
    ///     ("2021-02-29", ParseError::InvalidDayRange),
    ///     ("2024-03-02T08:4800", ParseError::TimeSeparator),
    ///     ("2024-03-02[+01:00:00]", ParseError::InvalidMinutePrecisionOffset),
    ///     ("2024-03-02[!a=b]", ParseError::UnrecognizedCritical),
    /// ] {
    ///     assert_eq!(IxdtfParser::from_str(text).parse(), Err(error));
    /// }
    /// # Ok::<(), ParseError>(())
    /// ```
    ///
    /// # Errors
    ///
    /// The first wrong part of the text decides the error. A month, day, hour, minute or second out of its range is an
    /// error, whatever follows this number. To get the position of the error, call
    /// [`parse_located`](Self::parse_located).
    ///
    /// - `AbruptEnd`: the text ends too early. The field `location` is `Date` if the text ends after the year, and
    ///   `digit` if the text ends where a digit is required. The location is `AmbiguousAnnotation` if the text ends
    ///   after the `[` or `[!` of the first bracket. The location is also `AmbiguousAnnotation` if a lowercase letter
    ///   or `_` follows this `[` or `[!`, and no `=` or `]` comes later.
    /// - `DateYear`: another character occurs instead of a digit of the year.
    /// - `DateExtendedYear`: another character occurs instead of a digit of a year with a sign, or the year is
    ///   `-000000`.
    /// - `DateMonth`, `DateDay`: another character occurs instead of a digit of the month, or of the day.
    /// - `InvalidMonthRange`: the month is not 01 to 12.
    /// - `InvalidDayRange`: the month does not have this day in this year.
    /// - `DateSeparator`: the date has only one of its two hyphens.
    /// - `TimeHour`: another character occurs instead of a digit of the hour, or the hour is greater than 23.
    /// - `TimeMinuteSecond`: another character occurs instead of a digit of the minute, or the minute is greater than
    ///   59. The second of an offset has this error too.
    /// - `TimeSecond`: another character occurs instead of a digit of the second of the time, or this second is greater
    ///   than 60.
    /// - `TimeSeparator`: a digit follows a time such as `12:30`, or a colon follows a time such as `1230`.
    /// - `UtcTimeSeparator`: outside brackets, a digit follows an offset such as `+05:30`, or a colon follows an offset
    ///   such as `+0530`.
    /// - `FractionPart`: no digit follows the `.` or `,`. This is also the error if the text ends there.
    /// - `InvalidMinutePrecisionOffset`: a colon or a digit follows the minute of an offset in brackets.
    /// - `TzLeadingChar`: the first bracket begins with a character that can begin neither a zone nor a key.
    /// - `IanaChar`: the name of a zone contains a character that a name cannot contain. If the name begins with a
    ///   lowercase letter or `_`, and neither `=` nor `]` comes later, the text has another error: see `AbruptEnd`.
    /// - `IanaCharPostSeparator`: in the name of a zone, a `/` is followed by another `/`, by a character that a name
    ///   cannot contain, or by the end of the text. If the name begins with a lowercase letter or `_`, and neither `=`
    ///   nor `]` comes later, the text has another error: see `AbruptEnd`.
    /// - `AnnotationKeyLeadingChar`: a bracket that is not the first one does not begin with a key.
    /// - `AnnotationKeyChar`: a key contains a character that a key cannot contain.
    /// - `AnnotationKeyValueSeparator`: in a bracket that is not the first one, the text ends in the key.
    /// - `AnnotationValueChar`: no value begins after the `=`, or a value contains a character that a value cannot
    ///   contain.
    /// - `AnnotationValueCharPostHyphen`: in a value, a `-` is not followed by an ASCII letter or digit.
    /// - `AnnotationClose`: a bracket is not closed. This is the error if the text ends after the value in a bracket,
    ///   or after the offset in a bracket. This is also the error if an offset in a bracket is followed by a character
    ///   that is neither a `]`, nor a colon, nor a digit. This is also the error if the text ends after the name of a
    ///   zone, and the name does not begin with a lowercase letter or `_`.
    /// - `UnrecognizedCritical`: an annotation is critical, and its key is not `u-ca`. What follows this annotation is
    ///   not read.
    /// - `CriticalDuplicateCalendar`: an annotation with the key `u-ca` has another value than the first annotation
    ///   with this key, and at least one of these two annotations is critical. What follows this annotation is not
    ///   read.
    /// - `InvalidEnd`: a date, a time, an offset or a bracket is followed by a character that must not follow it, and no
    ///   other error of this list is about this character.
    /// - `NonAsciiCodePoint`: 16-bit text has a code unit outside 1 to 126. 8-bit text never has this error.
    #[inline(always)]
    pub fn parse(&mut self) -> ParserResult<IxdtfParseRecord<'a, T>>
        ensures reads { ReadsText T.letter fault_of (parsed_of T.number) reader_parse self.old result self.new }
    {
        // The error is returned in an arm of its own. If both arms ended in one value, a caller that takes the record apart
        // would read all its fields before it knows whether there is a record (docs/PERF.md).
        let mut found = IxdtfParseRecord::default();
        match self.read_unhandled::<DateTimes>(&mut found) {
            Ok(()) => Ok(found),
            Err(why) => return Err(why.code.error()),
        }
    }

    /// Parses the remaining input as a text of RFC 9557 (`date-time-ext` of section 4.1), and accepts no other text.
    ///
    /// So this method can validate a text that must be in the Internet Extended Date/Time Format, such as
    /// `2024-03-02T08:48:00-05:00[America/New_York][u-ca=hebrew]`. A text of this format is a date-time of RFC 3339, as in
    /// [`parse_rfc3339`](Self::parse_rfc3339). Brackets can follow it (`suffix`). The first bracket can have a time zone.
    /// All other brackets have annotations.
    ///
    /// [`parse`](Self::parse) accepts each of these texts too, and returns an equal record. `parse_rfc9557` accepts each
    /// text that [`parse_rfc3339`](Self::parse_rfc3339) accepts. The record has `date`, `time` and `offset`. The
    /// fields `tz` and `calendar` are as in [`parse`](Self::parse). The profile does not matter.
    ///
    /// If the call succeeds, no input remains, and a second call returns the error of the empty text. If it fails, the
    /// input is unchanged, and a second call returns the same error.
    ///
    /// # Examples
    ///
    /// ```rust
    /// use ixdtf::ParseError;
    /// use ixdtf::parsers::IxdtfParser;
    ///
    /// let text = "2024-03-02T08:48:00-05:00[America/New_York][u-ca=hebrew]";
    /// let record = IxdtfParser::from_str(text).parse_rfc9557()?;
    /// assert_eq!(record, IxdtfParser::from_str(text).parse()?);
    /// assert_eq!(record.calendar, Some(b"hebrew".as_slice()));
    ///
    /// for (text, error) in [
    ///     ("2024-03-02[America/New_York]", ParseError::TimeSeparator),
    ///     ("2024-03-02T08:48-05:00[America/New_York]", ParseError::TimeSeparator),
    ///     ("2024-03-02T08:48:00[America/New_York]", ParseError::OffsetNeedsSign),
    ///     ("2024-03-02T08:48:00Z[Europe/../Paris]", ParseError::IanaChar),
    ///     ("2024-03-02T08:48:00Z[u-ca=hebrew][UTC]", ParseError::AnnotationKeyLeadingChar),
    ///     ("2024-03-02T08:48:00Z[!a=b]", ParseError::UnrecognizedCritical),
    /// ] {
    ///     assert_eq!(IxdtfParser::from_str(text).parse_rfc9557(), Err(error));
    /// }
    /// # Ok::<(), ParseError>(())
    /// ```
    ///
    /// # Errors
    ///
    /// The first wrong part of the text decides the error. To get the position of the error, call
    /// [`parse_rfc9557_located`](Self::parse_rfc9557_located). Before the brackets, the text has the errors that it has in
    /// [`parse_rfc3339`](Self::parse_rfc3339), but a `[` can follow the offset. If any other character follows the offset,
    /// the error is `InvalidEnd`. Brackets have the errors that they have in [`parse`](Self::parse). In addition, a zone
    /// that [`parse`](Self::parse) accepts has one of these errors if RFC 9557 does not allow the zone:
    ///
    /// - `IanaChar`: a part of the name begins with a digit, with `+` or with `-`, or is `.` or `..`. A `/` separates two
    ///   parts.
    /// - `InvalidMinutePrecisionOffset`: the offset of the zone does not have the form `+05:30`.
    #[inline(always)]
    pub fn parse_rfc9557(&mut self) -> ParserResult<IxdtfParseRecord<'a, T>>
        ensures reads { ReadsText T.letter fault_of (parsed_of T.number) reader_parse_rfc9557 self.old result self.new }
    {
        let mut found = IxdtfParseRecord::default();
        match self.read_unhandled::<InternetDateTimes>(&mut found) {
            Ok(()) => Ok(found),
            Err(why) => return Err(why.code.error()),
        }
    }

    /// Parses the remaining input as a year and a month, such as `2020-11[u-ca=hebrew]`.
    ///
    /// A year and a month have the form `2020-11` or `202011`. These forms come from ISO 8601, and from
    /// `DateSpecYearMonth` in the grammar of Temporal, a proposal for dates and times in JavaScript. The year has the
    /// forms that it has in [`parse`](Self::parse). The same brackets as in [`parse`](Self::parse) can follow the
    /// month.
    ///
    /// The record has the field `date`, with the day 1. The fields `tz` and `calendar` are as in
    /// [`parse`](Self::parse).
    ///
    /// If the call succeeds, no input remains, and a second call returns the error of the empty text. If it fails, the
    /// input is unchanged, and a second call returns the same error.
    ///
    /// # Examples
    ///
    /// ```rust
    /// use ixdtf::ParseError;
    /// use ixdtf::parsers::IxdtfParser;
    ///
    /// for text in ["2020-11", "+00202011", "202011[u-ca=hebrew]"] {
    ///     let date = IxdtfParser::from_str(text).parse_year_month()?.date.unwrap();
    ///     assert_eq!((date.year, date.month, date.day), (2020, 11, 1));
    /// }
    /// for (text, error) in [
    ///     ("2020", ParseError::AbruptEnd { location: "digit" }),
    ///     ("2020-13", ParseError::InvalidMonthRange),
    ///     ("2020-11-08", ParseError::InvalidEnd),
    /// ] {
    ///     assert_eq!(IxdtfParser::from_str(text).parse_year_month(), Err(error));
    /// }
    /// # Ok::<(), ParseError>(())
    /// ```
    ///
    /// # Errors
    ///
    /// The first wrong part of the text decides the error. To get the position of the error, call
    /// [`parse_year_month_located`](Self::parse_year_month_located). Brackets have the errors that they have in
    /// [`parse`](Self::parse). These are the errors before the brackets:
    ///
    /// - `AbruptEnd`: the text ends after the year, or where a digit is required. The location is `digit` in both
    ///   cases.
    /// - `DateYear`: another character occurs instead of a digit of the year.
    /// - `DateExtendedYear`: another character occurs instead of a digit of a year with a sign, or the year is
    ///   `-000000`.
    /// - `DateMonth`: another character occurs instead of a digit of the month.
    /// - `InvalidMonthRange`: the month is not 01 to 12.
    /// - `InvalidEnd`: another character than `[` follows the month.
    /// - `NonAsciiCodePoint`: 16-bit text has a code unit outside 1 to 126. 8-bit text never has this error.
    #[inline(always)]
    pub fn parse_year_month(&mut self) -> ParserResult<IxdtfParseRecord<'a, T>>
        ensures reads { ReadsText T.letter fault_of (parsed_of T.number) reader_parse_year_month self.old result self.new }
    {
        let mut found = IxdtfParseRecord::default();
        match self.read_unhandled::<YearMonths>(&mut found) {
            Ok(()) if lacks_date(&mut found) => return Ok(found),
            Ok(()) => Ok(found),
            Err(why) => return Err(why.code.error()),
        }
    }

    /// Parses the remaining input as a month and a day, such as `11-07`.
    ///
    /// A month and a day have one of the forms `11-07`, `1107`, `--11-07` and `--1107`. These forms come from ISO 8601,
    /// and from `DateSpecMonthDay` in the grammar of Temporal, a proposal for dates and times in JavaScript. The least
    /// day is 0, or 1 under [`Profile::Strict`]. The greatest day is the last day of the month. For February, it is 29.
    /// The same brackets as in [`parse`](Self::parse) can follow.
    ///
    /// The record has the field `date`, with the year 0. The fields `tz` and `calendar` are as in
    /// [`parse`](Self::parse).
    ///
    /// If the call succeeds, no input remains, and a second call returns the error of the empty text. If it fails, the
    /// input is unchanged, and a second call returns the same error.
    ///
    /// # Examples
    ///
    /// ```rust
    /// use ixdtf::ParseError;
    /// use ixdtf::parsers::{IxdtfParser, Profile};
    ///
    /// for (text, month, day) in [
    ///     ("11-07", 11, 7),
    ///     ("--1107[+04:00]", 11, 7),
    ///     ("02-29", 2, 29),
    ///     ("11-00", 11, 0),
    /// ] {
    ///     let date = IxdtfParser::from_str(text).parse_month_day()?.date.unwrap();
    ///     assert_eq!((date.year, date.month, date.day), (0, month, day));
    /// }
    /// let mut strict = IxdtfParser::from_str("11-00").with_profile(Profile::Strict);
    /// assert_eq!(strict.parse_month_day(), Err(ParseError::InvalidMonthDay));
    /// for (text, error) in [
    ///     ("02-30", ParseError::InvalidMonthDay),
    ///     ("-11-07", ParseError::MonthDayHyphen),
    ///     ("-", ParseError::AbruptEnd { location: "MonthDay" }),
    /// ] {
    ///     assert_eq!(IxdtfParser::from_str(text).parse_month_day(), Err(error));
    /// }
    /// # Ok::<(), ParseError>(())
    /// ```
    ///
    /// # Errors
    ///
    /// The first wrong part of the text decides the error. To get the position of the error, call
    /// [`parse_month_day_located`](Self::parse_month_day_located). Brackets have the errors that they have in
    /// [`parse`](Self::parse). These are the errors before the brackets:
    ///
    /// - `AbruptEnd`: the text is empty or is one hyphen (location `MonthDay`), or it ends where a digit is required
    ///   (location `digit`).
    /// - `MonthDayHyphen`: the text begins with a hyphen, and another character than a hyphen follows it.
    /// - `DateMonth`, `DateDay`: another character occurs instead of a digit of the month, or of the day.
    /// - `InvalidMonthRange`: the month is not 01 to 12.
    /// - `InvalidMonthDay`: the day is after the last day of the month (29 for February). Under [`Profile::Strict`], this
    ///   is also the error of the day 00.
    /// - `InvalidEnd`: another character than `[` follows the day.
    /// - `NonAsciiCodePoint`: 16-bit text has a code unit outside 1 to 126. 8-bit text never has this error.
    #[inline(always)]
    pub fn parse_month_day(&mut self) -> ParserResult<IxdtfParseRecord<'a, T>>
        ensures reads { ReadsText T.letter fault_of (parsed_of T.number) (reader_parse_month_day self.old.profile) self.old result self.new }
    {
        let mut found = IxdtfParseRecord::default();
        match self.read_unhandled::<MonthDays>(&mut found) {
            Ok(()) if lacks_date(&mut found) => return Ok(found),
            Ok(()) => Ok(found),
            Err(why) => return Err(why.code.error()),
        }
    }

    /// Parses the remaining input as a time, such as `12:30:45.25` or `T1200`.
    ///
    /// A time has the forms that it has in [`parse`](Self::parse), with or without a `T` or `t` before it. `Z`, `z` or
    /// an offset can follow, and then the same brackets as in [`parse`](Self::parse).
    ///
    /// If a text does not begin with `T` or `t`, it must not begin with a month and a day that
    /// [`parse_month_day`](Self::parse_month_day) accepts, or with a year and a month that
    /// [`parse_year_month`](Self::parse_year_month) accepts. For example, `1214Z` is refused, because `1214` is also
    /// month 12, day 14. The profile decides which texts are a month and a day.
    ///
    /// The record has the field `time`. If the text has `Z`, `z` or an offset, the record also has the field `offset`.
    /// The fields `tz` and `calendar` are as in [`parse`](Self::parse).
    ///
    /// If the call succeeds, no input remains, and a second call returns the error of the empty text. If it fails, the
    /// input is unchanged, and a second call returns the same error.
    ///
    /// # Examples
    ///
    /// ```rust
    /// use ixdtf::ParseError;
    /// use ixdtf::parsers::{IxdtfParser, Profile};
    ///
    /// let time = IxdtfParser::from_str("12:30:45.25").parse_time()?.time.unwrap();
    /// assert_eq!((time.hour, time.minute, time.second), (12, 30, 45));
    /// assert_eq!(time.fraction.unwrap().digit_count(), 2);
    /// let time = IxdtfParser::from_str("T1200").parse_time()?.time.unwrap();
    /// assert_eq!((time.hour, time.minute, time.second), (12, 0, 0));
    /// // 20:21, 13 hours behind UTC: there is no month 13
    /// let record = IxdtfParser::from_str("2021-13").parse_time()?;
    /// assert_eq!(record.time.unwrap().minute, 21);
    /// assert_eq!(record.offset.unwrap().resolve_rfc_9557().hour(), 13);
    /// // under the strict profile, 1200 is not a month and a day
    /// assert!(IxdtfParser::from_str("1200").with_profile(Profile::Strict).parse_time().is_ok());
    /// for (text, error) in [
    ///     ("1200", ParseError::AmbiguousTimeMonthDay),
    ///     ("1214Z", ParseError::AmbiguousTimeMonthDay),
    ///     ("2021-12", ParseError::AmbiguousTimeYearMonth),
    ///     ("202112[UTC]", ParseError::AmbiguousTimeYearMonth),
    ///     ("20240801", ParseError::InvalidEnd),
    ///     ("T19:12-089", ParseError::AbruptEnd { location: "digit" }),
    /// ] {
    ///     assert_eq!(IxdtfParser::from_str(text).parse_time(), Err(error));
    /// }
    /// # Ok::<(), ParseError>(())
    /// ```
    ///
    /// # Errors
    ///
    /// The first wrong part of the text decides the error. To get the position of the error, call
    /// [`parse_time_located`](Self::parse_time_located). Times, offsets and brackets have the errors that they have in
    /// [`parse`](Self::parse). The error of the empty text is `AbruptEnd` (location `digit`). If the text begins with a
    /// character that is neither a digit nor `T` nor `t`, the error is `TimeHour`. But if this character is a 16-bit code
    /// unit outside 1 to 126, the error is `NonAsciiCodePoint`.
    ///
    /// Two more errors are about an ambiguous text. Such a text does not begin with `T` or `t`. Its part before the first
    /// `[`, or the complete text if it has no `[`, is a time, with or without an offset. But the text also begins like a
    /// month and a day, or like a year and a month. The brackets of an ambiguous text are not read.
    /// These are the two errors:
    ///
    /// - `AmbiguousTimeMonthDay`: the text begins like a month and a day.
    /// - `AmbiguousTimeYearMonth`: the text begins like a year and a month, and not like a month and a day.
    #[inline(always)]
    pub fn parse_time(&mut self) -> ParserResult<IxdtfParseRecord<'a, T>>
        ensures reads { ReadsText T.letter fault_of (parsed_of T.number) (reader_parse_time self.old.profile) self.old result self.new }
    {
        // Build the record inside `outcome`. A record that is built on its own and then put into `Ok` is copied once
        // more.
        let mut outcome = Ok(IxdtfParseRecord::default());
        if let Ok(found) = &mut outcome {
            if let Err(why) = self.read_unhandled::<Times>(found) {
                outcome = Err(why.code.error());
            }
        }
        outcome
    }

    /// Parses the remaining input as a date, or as a date and a time, like [`parse`](Self::parse). An error includes its
    /// position.
    ///
    /// The position is the number of code units before the error. It is the index of the code unit that does not fit,
    /// or the end of the input if the input ends too early. For a number out of its range, the position is after the
    /// number. For a refused annotation, the position is after its bracket.
    ///
    /// # Examples
    ///
    /// ```rust
    /// use ixdtf::ParseError;
    /// use ixdtf::parsers::IxdtfParser;
    ///
    /// for (text, error, at) in [
    ///     ("2021-02-29", ParseError::InvalidDayRange, 10), // after the day
    ///     ("2024-03-02T08:4800", ParseError::TimeSeparator, 16), // at the next digit
    ///     ("2024-03-02[!a=b][c=d]", ParseError::UnrecognizedCritical, 16), // after the bracket
    ///     ("2024-03-02T08:", ParseError::AbruptEnd { location: "digit" }, 14), // the end
    /// ] {
    ///     let located = IxdtfParser::from_str(text).parse_located().unwrap_err();
    ///     assert_eq!((located.error, located.at), (error, at));
    /// }
    /// ```
    ///
    /// # Errors
    ///
    /// Returns the errors of [`parse`](Self::parse), each with its position.
    #[inline(always)]
    pub fn parse_located(&mut self) -> Result<IxdtfParseRecord<'a, T>, LocatedError>
        ensures reads { ReadsTextAt T.letter (parsed_of T.number) reader_parse self.old result self.new }
    {
        let mut parsed = IxdtfParseRecord::default();
        match self.read_unhandled::<DateTimes>(&mut parsed) {
            Ok(()) => Ok(parsed),
            Err(why) => return Err(LocatedError {
                error: why.code.error(),
                at: why.at,
                reason: why.reason,
            }),
        }
    }

    /// Parses the remaining input as a text of RFC 9557, like [`parse_rfc9557`](Self::parse_rfc9557). An error includes its
    /// position.
    ///
    /// The position is the number of code units before the error. It is the index of the code unit that does not fit,
    /// or the end of the input if the input ends too early. For a number out of its range, the position is after the
    /// number. For a refused annotation, the position is after its bracket. If [`parse`](Self::parse) accepts the zone,
    /// but RFC 9557 does not allow it, the position is after the bracket of the zone.
    ///
    /// # Examples
    ///
    /// ```rust
    /// use ixdtf::ParseError;
    /// use ixdtf::parsers::IxdtfParser;
    ///
    /// for (text, error, at) in [
    ///     // at the space
    ///     ("2024-03-02 08:48:00Z", ParseError::TimeSeparator, 10),
    ///     // at the bracket
    ///     ("2024-03-02T08:48:00[UTC]", ParseError::OffsetNeedsSign, 19),
    ///     // at the end of the text
    ///     ("2024-03-02T08:48:00Z[UTC", ParseError::AnnotationClose, 24),
    ///     // after the bracket
    ///     ("2024-03-02T08:48:00Z[+05]", ParseError::InvalidMinutePrecisionOffset, 25),
    ///     ("2024-03-02T08:48:00Z[!a=b]", ParseError::UnrecognizedCritical, 26),
    /// ] {
    ///     let located = IxdtfParser::from_str(text).parse_rfc9557_located().unwrap_err();
    ///     assert_eq!((located.error, located.at), (error, at));
    /// }
    /// ```
    ///
    /// # Errors
    ///
    /// Returns the errors of [`parse_rfc9557`](Self::parse_rfc9557), each with its position.
    #[inline(always)]
    pub fn parse_rfc9557_located(&mut self) -> Result<IxdtfParseRecord<'a, T>, LocatedError>
        ensures reads { ReadsTextAt T.letter (parsed_of T.number) reader_parse_rfc9557 self.old result self.new }
    {
        let mut parsed = IxdtfParseRecord::default();
        match self.read_unhandled::<InternetDateTimes>(&mut parsed) {
            Ok(()) => Ok(parsed),
            Err(why) => return Err(LocatedError {
                error: why.code.error(),
                at: why.at,
                reason: why.reason,
            }),
        }
    }

    /// Parses the remaining input as a year and a month, like [`parse_year_month`](Self::parse_year_month). An error
    /// includes its position.
    ///
    /// The position is the number of code units before the error. It is the index of the code unit that does not fit,
    /// or the end of the input if the input ends too early. For a number out of its range, the position is after the
    /// number. For a refused annotation, the position is after its bracket.
    ///
    /// # Examples
    ///
    /// ```rust
    /// use ixdtf::ParseError;
    /// use ixdtf::parsers::IxdtfParser;
    ///
    /// for (text, error, at) in [
    ///     ("2020-13", ParseError::InvalidMonthRange, 7), // after the month
    ///     ("2020-11-08", ParseError::InvalidEnd, 7), // at the second hyphen
    /// ] {
    ///     let located = IxdtfParser::from_str(text).parse_year_month_located().unwrap_err();
    ///     assert_eq!((located.error, located.at), (error, at));
    /// }
    /// ```
    ///
    /// # Errors
    ///
    /// Returns the errors of [`parse_year_month`](Self::parse_year_month), each with its position.
    #[inline(always)]
    pub fn parse_year_month_located(&mut self) -> Result<IxdtfParseRecord<'a, T>, LocatedError>
        ensures reads { ReadsTextAt T.letter (parsed_of T.number) reader_parse_year_month self.old result self.new }
    {
        let mut parsed = IxdtfParseRecord::default();
        match self.read_unhandled::<YearMonths>(&mut parsed) {
            Ok(()) => Ok(parsed),
            Err(why) => return Err(LocatedError {
                error: why.code.error(),
                at: why.at,
                reason: why.reason,
            }),
        }
    }

    /// Parses the remaining input as a month and a day, like [`parse_month_day`](Self::parse_month_day). An error includes
    /// its position.
    ///
    /// The position is the number of code units before the error. It is the index of the code unit that does not fit,
    /// or the end of the input if the input ends too early. For a number out of its range, the position is after the
    /// number. For a refused annotation, the position is after its bracket.
    ///
    /// # Examples
    ///
    /// ```rust
    /// use ixdtf::ParseError;
    /// use ixdtf::parsers::IxdtfParser;
    ///
    /// for (text, error, at) in [
    ///     ("02-30", ParseError::InvalidMonthDay, 5), // after the day
    ///     ("11-8", ParseError::AbruptEnd { location: "digit" }, 4), // the end
    /// ] {
    ///     let located = IxdtfParser::from_str(text).parse_month_day_located().unwrap_err();
    ///     assert_eq!((located.error, located.at), (error, at));
    /// }
    /// ```
    ///
    /// # Errors
    ///
    /// Returns the errors of [`parse_month_day`](Self::parse_month_day), each with its position.
    #[inline(always)]
    pub fn parse_month_day_located(&mut self) -> Result<IxdtfParseRecord<'a, T>, LocatedError>
        ensures reads { ReadsTextAt T.letter (parsed_of T.number) (reader_parse_month_day self.old.profile) self.old result self.new }
    {
        let mut parsed = IxdtfParseRecord::default();
        match self.read_unhandled::<MonthDays>(&mut parsed) {
            Ok(()) => Ok(parsed),
            Err(why) => return Err(LocatedError {
                error: why.code.error(),
                at: why.at,
                reason: why.reason,
            }),
        }
    }

    /// Parses the remaining input as a time, like [`parse_time`](Self::parse_time). An error includes its position.
    ///
    /// The position is the number of code units before the error. It is the index of the code unit that does not fit,
    /// or the end of the input if the input ends too early. For a number out of its range, the position is after the
    /// number. For a refused annotation, the position is after its bracket. For an ambiguous text, the position is after
    /// the month and the day, or after the year and the month, with which the text begins.
    ///
    /// # Examples
    ///
    /// ```rust
    /// use ixdtf::ParseError;
    /// use ixdtf::parsers::IxdtfParser;
    ///
    /// for (text, error, at) in [
    ///     ("1214Z", ParseError::AmbiguousTimeMonthDay, 4), // after the month and the day
    ///     ("12:60", ParseError::TimeMinuteSecond, 5), // after the minute
    /// ] {
    ///     let located = IxdtfParser::from_str(text).parse_time_located().unwrap_err();
    ///     assert_eq!((located.error, located.at), (error, at));
    /// }
    /// ```
    ///
    /// # Errors
    ///
    /// Returns the errors of [`parse_time`](Self::parse_time), each with its position.
    #[inline(always)]
    pub fn parse_time_located(&mut self) -> Result<IxdtfParseRecord<'a, T>, LocatedError>
        ensures reads { ReadsTextAt T.letter (parsed_of T.number) (reader_parse_time self.old.profile) self.old result self.new }
    {
        let mut parsed = IxdtfParseRecord::default();
        match self.read_unhandled::<Times>(&mut parsed) {
            Ok(()) => Ok(parsed),
            Err(why) => return Err(LocatedError {
                error: why.code.error(),
                at: why.at,
                reason: why.reason,
            }),
        }
    }

    /// Calls [`read_into`](Self::read_into) with a handler that returns each annotation.
    #[inline(always)]
    fn read_unhandled<C: CoreReader>(
        &mut self,
        found: &mut IxdtfParseRecord<'a, T>,
    ) -> Result<(), StopAt>
        requires { IsEmptyRecord found.old }
        ensures reads { ReadsUnhandled T.letter (parsed_of T.number found.new) (bracketed (C.kind self.old.profile)) self.old result self.new }
    {
        self.read_into::<C, _>(&mut |annotation| Some(annotation), found)
    }
}

/// Returns whether the record has no date. Does not change the record.
///
/// Only `parse_year_month` and `parse_month_day` call this function, and they call it only for speed. Each record that
/// they return has a date, so the result is always `false` there. The compiler does not know this.
///
/// A compiler can store in one number which of three cases a result is: an error, a record with a date, or a record
/// without a date. Without the call, the compiled program would test at run time whether the result is an error. With the
/// call, each of these two readers returns `Ok` at two places. At one place, the compiler knows that the record has no
/// date. At the other place, it knows that the record has a date. So at each of the two places, the compiler knows that
/// the result is not an error, and the program does not need the test.
#[inline(always)]
fn lacks_date<'a, T: EncodingType>(found: &mut IxdtfParseRecord<'a, T>) -> bool
    ensures none { is_some found.old.date ≡ not result }
    ensures same { found.new ≡ found.old }
{
    if found.date.is_none() {
        found.date = None;
        return true;
    }
    false
}
