//! The readers of [`IxdtfParser`] that accept exactly the date-times of RFC 3339.

ghost use Rattle.std.specs.Prelude.{◌≡◌};
ghost use Rattle.ixdtf_grammar.specs.table.Faults.{fault_of};
ghost use Rattle.ixdtf_grammar.specs.language.Readers.Reader.{parse_rfc3339 as reader_rfc3339};
ghost use Rattle.ixdtf_grammar.specs.language.Languages.Found.{dated};
ghost use Rattle.ixdtf_grammar.specs.Views.{unread_of, parsed_of};
ghost use Rattle.ixdtf_grammar.specs.Promises.{ReadsPart};
ghost use Rattle.ixdtf_explanations.specs.LocatedPromises.{ReadsPartAt};

use crate::parsers::IxdtfParser;
use crate::{LocatedError, ParserResult};
use ixdtf_grammar::encoding::EncodingType;
use ixdtf_grammar::records::IxdtfParseRecord;
use ixdtf_reading::cursor::error_at;
use ixdtf_times::rfc3339::parse_rfc3339_text;

impl<'a, T: EncodingType> IxdtfParser<'a, T> {
    /// Parses the remaining input as a date-time of RFC 3339 (`date-time` of section 5.6), and accepts no other text.
    ///
    /// So this method can validate a text that has to be in this format, such as `2024-03-02T08:48:00.25-05:00`. The parts
    /// of a date-time are, in this order:
    ///
    /// - a year of four digits, `-`, a month, `-`, and a day that this month has;
    /// - `T` or `t`;
    /// - an hour, `:`, a minute, `:`, and a second;
    /// - a fraction, which is `.` and one or more digits. It may be left out;
    /// - `Z` or `z`, or a sign, an hour, `:` and a minute.
    ///
    /// The second 60 is accepted in every minute. Only a table of leap seconds could say in which minutes it exists
    /// (section 5.7). A note of section 5.6 allows a space instead of the `T`. This method refuses it.
    ///
    /// [`parse`](Self::parse) accepts each of these texts too, and returns an equal record. The record has `date`, `time`
    /// and `offset`. It has neither `tz` nor `calendar`. The profile does not matter.
    ///
    /// If the call succeeds, no input remains, and a second call returns the error of the empty text. If it fails, the
    /// input is unchanged, and a second call returns the same error.
    ///
    /// # Examples
    ///
    /// ```rust
    /// use ixdtf::ParseError;
    /// use ixdtf::parsers::IxdtfParser;
    ///
    /// let text = "2024-03-02T08:48:00.25-05:00";
    /// let record = IxdtfParser::from_str(text).parse_rfc3339()?;
    /// assert_eq!(record, IxdtfParser::from_str(text).parse()?);
    ///
    /// for (text, error) in [
    ///     ("20240302T084800Z", ParseError::DateSeparator),
    ///     ("2024-03-02", ParseError::TimeSeparator),
    ///     ("2024-03-02 08:48:00Z", ParseError::TimeSeparator),
    ///     ("2024-03-02T08:48Z", ParseError::TimeSeparator),
    ///     ("2024-03-02T08:48:00", ParseError::AbruptEnd { location: "time-numoffset" }),
    ///     ("2024-03-02T08:48:00,25Z", ParseError::FractionPart),
    ///     ("2024-03-02T08:48:00-05", ParseError::UtcTimeSeparator),
    ///     ("2024-03-02T08:48:00Z[UTC]", ParseError::InvalidEnd),
    /// ] {
    ///     assert_eq!(IxdtfParser::from_str(text).parse_rfc3339(), Err(error));
    /// }
    /// # Ok::<(), ParseError>(())
    /// ```
    ///
    /// # Errors
    ///
    /// The first wrong part of the text decides the error. A number out of its range is an error, whatever follows this
    /// number. To get the position of the error, call [`parse_rfc3339_located`](Self::parse_rfc3339_located).
    ///
    /// - `AbruptEnd`: the text ends where a digit has to follow (location `digit`), after the year (location `Date`), or
    ///   where an offset has to begin (location `time-numoffset`).
    /// - `DateYear`: the year has another character than a digit.
    /// - `DateMonth`: the month has another character than a digit.
    /// - `DateDay`: the day has another character than a digit.
    /// - `TimeHour`: the hour of the time or of the offset has another character than a digit, or is greater than 23.
    /// - `TimeMinuteSecond`: the minute of the time or of the offset has another character than a digit, or is greater
    ///   than 59.
    /// - `TimeSecond`: the second has another character than a digit, or is greater than 60.
    /// - `InvalidMonthRange`: the month is not 01 to 12.
    /// - `InvalidDayRange`: the month does not have this day.
    /// - `DateSeparator`: no `-` follows the month, or another character than `-` follows the year.
    /// - `TimeSeparator`: neither `T` nor `t` follows the date, or no `:` follows the hour or the minute of the time.
    /// - `FractionPart`: no digit follows the `.`. This is also the error if the text ends there, or if a `,` follows
    ///   the second.
    /// - `OffsetNeedsSign`: an offset has to begin, but the next character is not a sign, `Z` or `z`. There are two
    ///   exceptions. A `.` directly after the second begins a fraction. For a `,` directly after the second, the error
    ///   is `FractionPart`.
    /// - `UtcTimeSeparator`: no `:` follows the hour of the offset.
    /// - `InvalidEnd`: any character follows the offset.
    /// - `NonAsciiCodePoint`: 16-bit text has a code unit outside 1 to 126. 8-bit text never has this error.
    #[inline(always)]
    pub fn parse_rfc3339(&mut self) -> ParserResult<IxdtfParseRecord<'a, T>>
        ensures reads { ReadsPart T.letter fault_of (parsed_of T.number) dated reader_rfc3339 (unread_of self.old) result (unread_of self.new) }
        ensures profile { self.new.profile ≡ self.old.profile }
    {
        let mut here = self.cursor.fork();
        // The error is returned in an arm of its own, as in `parse`.
        let mut found = IxdtfParseRecord::default();
        match parse_rfc3339_text(&mut here, &mut found) {
            Ok(()) => {
                self.cursor = here;
                Ok(found)
            }
            Err(stop) => {
                let error = error_at(&mut here, false, stop, 0);
                self.cursor.keep_looks(here);
                return Err(error);
            }
        }
    }

    /// Parses the remaining input as a date-time of RFC 3339, like [`parse_rfc3339`](Self::parse_rfc3339). An error includes its
    /// position.
    ///
    /// The position is the number of code units before the error. It is the index of the code unit that does not fit, or
    /// the end of the input if the input ends too early. For a number out of its range, the position is after the number.
    ///
    /// # Examples
    ///
    /// ```rust
    /// use ixdtf::ParseError;
    /// use ixdtf::parsers::IxdtfParser;
    ///
    /// for (text, error, at) in [
    ///     ("2024-03-02T08:48", ParseError::TimeSeparator, 16), // the end
    ///     ("2024-03-02 08:48:00Z", ParseError::TimeSeparator, 10), // at the space
    ///     ("2023-02-29T08:48:00Z", ParseError::InvalidDayRange, 10), // after the day
    /// ] {
    ///     let located = IxdtfParser::from_str(text).parse_rfc3339_located().unwrap_err();
    ///     assert_eq!((located.error, located.at), (error, at));
    /// }
    /// ```
    ///
    /// # Errors
    ///
    /// Returns the errors of [`parse_rfc3339`](Self::parse_rfc3339), each with its position.
    #[inline(always)]
    pub fn parse_rfc3339_located(&mut self) -> Result<IxdtfParseRecord<'a, T>, LocatedError>
        ensures reads { ReadsPartAt T.letter (parsed_of T.number) dated reader_rfc3339 (unread_of self.old) result (unread_of self.new) }
        ensures profile { self.new.profile ≡ self.old.profile }
    {
        let mut here = self.cursor.fork();
        // These two arms do what `settle` does. The borrow checker has no rule for a call of `settle` with a record.
        let mut found = IxdtfParseRecord::default();
        match parse_rfc3339_text(&mut here, &mut found) {
            Ok(()) => {
                self.cursor = here;
                Ok(found)
            }
            Err(stop) => {
                let at = self.cursor.remaining().saturating_sub(here.remaining());
                let error = error_at(&mut here, false, stop, at);
                self.cursor.keep_looks(here);
                return Err(error);
            }
        }
    }
}
