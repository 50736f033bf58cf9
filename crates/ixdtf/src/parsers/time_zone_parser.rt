//! The parser of texts that are only an offset or a time zone.

ghost use Rattle.std.specs.Prelude.{◌≡◌, map};
ghost use Rattle.ixdtf_grammar.specs.table.Faults.{fault_of};
ghost use Rattle.ixdtf_grammar.specs.language.Readers.Reader.{parse_offset, parse_identifier, parse_iana_identifier};
ghost use Rattle.ixdtf_grammar.specs.language.Languages.{shifted, identified, named};
ghost use Rattle.ixdtf_grammar.specs.Views.{Unread, zone_of};
ghost use Rattle.ixdtf_grammar.specs.Promises.{ReadsPart};
ghost use Rattle.ixdtf_explanations.specs.LocatedPromises.{ReadsPartAt};

use crate::ParserResult;
use ixdtf_brackets::zone::{parse_iana_identifier_text, parse_identifier_text};
use ixdtf_explanations::LocatedError;
use ixdtf_grammar::encoding::{EncodingType, Utf8, Utf16};
use ixdtf_grammar::records::{TimeZoneRecord, UtcOffsetRecord};
use ixdtf_reading::cursor::{Cursor, error_at};
use ixdtf_times::offsets::parse_offset_text;
use std::marker::Model;

/// A parser of texts that are only an offset from UTC, or only a time zone.
///
/// The parser borrows the text that it parses. It contains only a slice of this text.
///
/// # Examples
///
/// ```rust
/// use ixdtf::parsers::TimeZoneParser;
///
/// assert_eq!(TimeZoneParser::from_str("+05:30").parse_offset().unwrap().hour(), 5);
/// assert_eq!(TimeZoneParser::from_str("UTC").parse_iana_identifier(), Ok(b"UTC".as_slice()));
/// ```
#[derive(Drop)]
#[derive_where(Debug)]
pub struct TimeZoneParser<'a, T: EncodingType> {
    cursor: Cursor<'a, T>,
}

impl<'a, T: EncodingType> Model for TimeZoneParser<'a, T> {
    // In a contract, a parser is the numbers of the remaining code units, and the count of accesses to code units.
    ghost Value = { Unread };

    ghost view = { λ p. p.cursor };
}

impl<'a> TimeZoneParser<'a, Utf8> {
    /// Creates a parser of the UTF-8 bytes of a text.
    pub fn from_str(source: &'a str) -> Self
        ensures rest { result.rest ≡ source.now }
        ensures looks { result.looks ≡ 0 }
    {
        TimeZoneParser::new(source.as_bytes())
    }

    /// Creates a parser of bytes. They need not be UTF-8.
    pub fn from_utf8(source: &'a [u8]) -> Self
        ensures rest { result.rest ≡ source.now }
        ensures looks { result.looks ≡ 0 }
    {
        TimeZoneParser::new(source)
    }
}

impl<'a> TimeZoneParser<'a, Utf16> {
    /// Creates a parser of 16-bit code units. They need not be UTF-16.
    ///
    /// # Examples
    ///
    /// ```rust
    /// use ixdtf::parsers::TimeZoneParser;
    ///
    /// let text: Vec<u16> = "Europe/Berlin".encode_utf16().collect();
    /// assert_eq!(TimeZoneParser::from_utf16(&text).parse_iana_identifier(), Ok(text.as_slice()));
    /// ```
    pub fn from_utf16(source: &'a [u16]) -> Self
        ensures rest { result.rest ≡ source.now }
        ensures looks { result.looks ≡ 0 }
    {
        Self::new(source)
    }
}

impl<'a, T: EncodingType> TimeZoneParser<'a, T> {
    /// Creates a parser of code units of any encoding.
    pub fn new(source: &'a [T::CodeUnit]) -> Self
        ensures rest { result.rest ≡ map T.number source.now }
        ensures looks { result.looks ≡ 0 }
    {
        let cursor = Cursor::new(source);
        TimeZoneParser { cursor }
    }

    /// Parses the remaining input as a time zone, such as `Europe/Berlin` or `+05:30`.
    ///
    /// A time zone is a name, or an offset without seconds.
    ///
    /// - A name consists of ASCII letters, digits, `_`, `.`, `+`, `-` and `/`. Its first character is a letter, `_` or
    ///   `.`. Its last character is not a `/`, and no `/` directly follows another `/`. The result is a slice of the
    ///   text. The parser does not check that a zone with this name exists.
    /// - An offset is as in [`parse_offset`](Self::parse_offset), but without seconds.
    ///
    /// Some of these names are not allowed by RFC 9557, section 4.1 (`time-zone-name`). A `/` separates two parts of a
    /// name. In RFC 9557, no part can be `.` or `..`, and no part can begin with a digit, `+` or `-`. This method accepts
    /// a part that is `.` or `..`. After a `/`, it also accepts a part that begins with a digit, `+` or `-`.
    ///
    /// If the call succeeds, no input remains, and a second call returns the error of the empty text. If it fails, the
    /// input is unchanged, and a second call returns the same error.
    ///
    /// # Examples
    ///
    /// ```rust
    /// use ixdtf::ParseError;
    /// use ixdtf::parsers::TimeZoneParser;
    /// use ixdtf::records::{Sign, TimeZoneRecord};
    ///
    /// let zone = TimeZoneParser::from_str("Europe/Berlin").parse_identifier()?;
    /// assert_eq!(zone, TimeZoneRecord::Name(b"Europe/Berlin"));
    /// let zone = TimeZoneParser::from_str("-0430").parse_identifier()?;
    /// let TimeZoneRecord::Offset(offset) = zone else { panic!("the zone is a name") };
    /// assert_eq!((offset.sign, offset.hour, offset.minute), (Sign::Negative, 4, 30));
    /// for (text, error) in [
    ///     ("+04:30:15", ParseError::InvalidMinutePrecisionOffset),
    ///     ("Europe//Berlin", ParseError::IanaCharPostSeparator),
    /// ] {
    ///     assert_eq!(TimeZoneParser::from_str(text).parse_identifier(), Err(error));
    /// }
    /// # Ok::<(), ParseError>(())
    /// ```
    ///
    /// # Errors
    ///
    /// The first wrong part of the text decides the error. To get the position of the error, call
    /// [`parse_identifier_located`](Self::parse_identifier_located).
    ///
    /// - `AbruptEnd`: the text is empty (location `TimeZoneAnnotation`), or it ends where a digit is required (location
    ///   `digit`).
    /// - `TzLeadingChar`: the text begins with a character that can begin neither a name nor an offset.
    /// - `IanaChar`: a name contains a character that a name cannot contain.
    /// - `IanaCharPostSeparator`: in a name, a `/` is followed by another `/`, by a character that a name cannot contain,
    ///   or by the end of the text.
    /// - `TimeHour`: the hour of an offset contains a character that is not a digit, or is greater than 23.
    /// - `TimeMinuteSecond`: the minute of an offset contains a character that is not a digit, or is greater than 59.
    /// - `InvalidMinutePrecisionOffset`: a colon or a digit follows the minute of an offset.
    /// - `InvalidEnd`: a `]` follows a name. This is also the error if a character that is neither a colon nor a digit
    ///   follows the hour or the minute of an offset.
    /// - `NonAsciiCodePoint`: 16-bit text has a code unit outside 1 to 126. 8-bit text never has this error.
    pub fn parse_identifier(&mut self) -> ParserResult<TimeZoneRecord<'a, T>>
        ensures reads { ReadsPart T.letter fault_of (zone_of T.number) identified parse_identifier self.old result self.new }
    {
        let mut here = self.cursor.fork();
        let read = parse_identifier_text(&mut here);
        self.cursor.settle(here, false, read)
    }

    /// Parses the remaining input as an offset from UTC, such as `+05:30`.
    ///
    /// Nothing may come before or after the offset. An offset is a sign (`+` or `-`) and one of these:
    ///
    /// | Form | Example | Result |
    /// |---|---|---|
    /// | hour | `+05` | `MinutePrecision`, with minute 0 |
    /// | hour and minute | `+05:30`, `+0530` | `MinutePrecision` |
    /// | hour, minute and second | `-05:30:45`, `-053045` | `FullPrecisionOffset` |
    /// | hour, minute, second and fraction | `-05:30:45.25`, `-053045,25` | `FullPrecisionOffset` |
    ///
    /// The hour is 00 to 23. The minute and the second are 00 to 59. RFC 3339 has only the form `+05:30`
    /// (`time-numoffset`, section 5.6). The other forms come from ISO 8601 and from the grammar of Temporal, a proposal for
    /// dates and times in JavaScript.
    ///
    /// If the call succeeds, no input remains, and a second call returns the error of the empty text. If it fails, the
    /// input is unchanged, and a second call returns the same error.
    ///
    /// # Examples
    ///
    /// ```rust
    /// use ixdtf::ParseError;
    /// use ixdtf::parsers::TimeZoneParser;
    /// use ixdtf::records::Sign;
    ///
    /// let offset = TimeZoneParser::from_str("-05:00").parse_offset()?;
    /// assert_eq!((offset.sign(), offset.hour(), offset.minute()), (Sign::Negative, 5, 0));
    /// assert_eq!(offset.second(), None);
    ///
    /// let offset = TimeZoneParser::from_str("+05:30:15.5").parse_offset()?;
    /// assert_eq!((offset.hour(), offset.minute(), offset.second()), (5, 30, Some(15)));
    /// assert_eq!(offset.fraction().unwrap().to_nanoseconds(), Some(500_000_000));
    ///
    /// for (text, error) in [
    ///     ("05:00", ParseError::OffsetNeedsSign),
    ///     ("+24", ParseError::TimeHour),
    ///     ("+0530:15", ParseError::UtcTimeSeparator),
    ///     ("+05:30Z", ParseError::InvalidEnd),
    /// ] {
    ///     assert_eq!(TimeZoneParser::from_str(text).parse_offset(), Err(error));
    /// }
    /// # Ok::<(), ParseError>(())
    /// ```
    ///
    /// # Errors
    ///
    /// The first wrong part of the text decides the error. To get the position of the error, call
    /// [`parse_offset_located`](Self::parse_offset_located).
    ///
    /// - `AbruptEnd`: the text is empty (location `time-numoffset`), or it ends where a digit is required (location
    ///   `digit`).
    /// - `OffsetNeedsSign`: the text does not begin with `+` or `-`.
    /// - `TimeHour`: the hour contains a character that is not a digit, or is greater than 23.
    /// - `TimeMinuteSecond`: the minute or the second contains a character that is not a digit, or is greater than 59.
    /// - `UtcTimeSeparator`: a digit follows an offset such as `+05:30`, or a colon follows an offset such as `+0530`.
    /// - `FractionPart`: no digit follows the `.` or `,`. This is also the error if the text ends there.
    /// - `InvalidEnd`: the offset is followed by a character that must not follow it, and no other error of this list is
    ///   about this character.
    /// - `NonAsciiCodePoint`: 16-bit text has a code unit outside 1 to 126. 8-bit text never has this error.
    pub fn parse_offset(&mut self) -> ParserResult<UtcOffsetRecord>
        ensures reads { ReadsPart T.letter fault_of (λ offset. offset) shifted parse_offset self.old result self.new }
    {
        let mut here = self.cursor.fork();
        let read = parse_offset_text(&mut here);
        self.cursor.settle(here, false, read)
    }

    /// Parses the remaining input as the name of a time zone, such as `Europe/Berlin`.
    ///
    /// A name has the form that it has in [`parse_identifier`](Self::parse_identifier). The result is the slice with
    /// all code units of the remaining input. The parser does not check that a zone with this name exists.
    ///
    /// If the call succeeds, no input remains, and a second call returns the error of the empty text. If it fails, the
    /// input is unchanged, and a second call returns the same error.
    ///
    /// # Examples
    ///
    /// ```rust
    /// use ixdtf::ParseError;
    /// use ixdtf::parsers::TimeZoneParser;
    ///
    /// let name = TimeZoneParser::from_str("Europe/Berlin").parse_iana_identifier();
    /// assert_eq!(name, Ok(b"Europe/Berlin".as_slice()));
    /// for (text, error) in [
    ///     ("+05:00", ParseError::TzLeadingChar),
    ///     ("UTC!", ParseError::IanaChar),
    ///     ("America/", ParseError::IanaCharPostSeparator),
    /// ] {
    ///     assert_eq!(TimeZoneParser::from_str(text).parse_iana_identifier(), Err(error));
    /// }
    /// ```
    ///
    /// # Errors
    ///
    /// The first wrong part of the text decides the error. To get the position of the error, call
    /// [`parse_iana_identifier_located`](Self::parse_iana_identifier_located).
    ///
    /// - `TzLeadingChar`: the text is empty, or begins with a character that cannot begin a name.
    /// - `IanaChar`: the name contains a character that a name cannot contain.
    /// - `IanaCharPostSeparator`: in the name, a `/` is followed by another `/`, by a character that a name cannot contain,
    ///   or by the end of the text.
    /// - `InvalidEnd`: a `]` follows the name.
    /// - `NonAsciiCodePoint`: 16-bit text has a code unit outside 1 to 126. 8-bit text never has this error.
    pub fn parse_iana_identifier(&mut self) -> ParserResult<&'a [T::CodeUnit]>
        ensures reads { ReadsPart T.letter fault_of (λ units. map T.number units.now) named parse_iana_identifier self.old result self.new }
    {
        let mut here = self.cursor.fork();
        // This is `settle`, written out. By `rustc`, a call of it takes three instructions more here.
        match parse_iana_identifier_text(&mut here) {
            Ok(name) => {
                self.cursor = here;
                Ok(name)
            }
            Err(stop) => {
                let error = error_at(&mut here, false, stop, 0);
                self.cursor.keep_looks(here);
                Err(error)
            }
        }
    }

    /// Parses the remaining input as an offset from UTC, like [`parse_offset`](Self::parse_offset). An error includes its
    /// position.
    ///
    /// The position is the number of code units before the error. It is the index of the code unit that does not fit,
    /// or the end of the input if the input ends too early. For a number out of its range, the position is after its
    /// second digit.
    ///
    /// # Examples
    ///
    /// ```rust
    /// use ixdtf::ParseError;
    /// use ixdtf::parsers::TimeZoneParser;
    ///
    /// for (text, error, at) in [
    ///     ("+05:30x", ParseError::InvalidEnd, 6), // at the x
    ///     ("+05:60", ParseError::TimeMinuteSecond, 6), // after the 60
    ///     ("+05:", ParseError::AbruptEnd { location: "digit" }, 4), // the end
    /// ] {
    ///     let located = TimeZoneParser::from_str(text).parse_offset_located().unwrap_err();
    ///     assert_eq!((located.error, located.at), (error, at));
    /// }
    /// ```
    ///
    /// # Errors
    ///
    /// Returns the errors of [`parse_offset`](Self::parse_offset), each with its position.
    pub fn parse_offset_located(&mut self) -> Result<UtcOffsetRecord, LocatedError>
        ensures reads { ReadsPartAt T.letter (λ offset. offset) shifted parse_offset self.old result self.new }
    {
        let mut here = self.cursor.fork();
        let outcome = parse_offset_text(&mut here);
        self.cursor.settle(here, false, outcome)
    }

    /// Parses the remaining input as the name of a time zone, like
    /// [`parse_iana_identifier`](Self::parse_iana_identifier). An error includes its position.
    ///
    /// The position is the number of code units before the error. It is the index of the code unit that does not fit,
    /// or the end of the input if the input ends too early.
    ///
    /// # Examples
    ///
    /// ```rust
    /// use ixdtf::ParseError;
    /// use ixdtf::parsers::TimeZoneParser;
    ///
    /// for (text, error, at) in [
    ///     ("America/!", ParseError::IanaCharPostSeparator, 8), // at the !
    ///     ("America/", ParseError::IanaCharPostSeparator, 8), // the end
    /// ] {
    ///     let located = TimeZoneParser::from_str(text).parse_iana_identifier_located().unwrap_err();
    ///     assert_eq!((located.error, located.at), (error, at));
    /// }
    /// ```
    ///
    /// # Errors
    ///
    /// Returns the errors of [`parse_iana_identifier`](Self::parse_iana_identifier), each with its position.
    pub fn parse_iana_identifier_located(&mut self) -> Result<&'a [T::CodeUnit], LocatedError>
        ensures reads { ReadsPartAt T.letter (λ units. map T.number units.now) named parse_iana_identifier self.old result self.new }
    {
        let mut here = self.cursor.fork();
        let outcome = parse_iana_identifier_text(&mut here);
        self.cursor.settle(here, false, outcome)
    }

    /// Parses the remaining input as a time zone, like [`parse_identifier`](Self::parse_identifier). An error includes its
    /// position.
    ///
    /// The position is the number of code units before the error. It is the index of the code unit that does not fit,
    /// or the end of the input if the input ends too early. For a number out of its range, the position is after its
    /// second digit.
    ///
    /// # Examples
    ///
    /// ```rust
    /// use ixdtf::ParseError;
    /// use ixdtf::parsers::TimeZoneParser;
    ///
    /// for (text, error, at) in [
    ///     ("+04:30:15", ParseError::InvalidMinutePrecisionOffset, 6), // at the second colon
    ///     ("Europe//Berlin", ParseError::IanaCharPostSeparator, 7), // at the second /
    /// ] {
    ///     let located = TimeZoneParser::from_str(text).parse_identifier_located().unwrap_err();
    ///     assert_eq!((located.error, located.at), (error, at));
    /// }
    /// ```
    ///
    /// # Errors
    ///
    /// Returns the errors of [`parse_identifier`](Self::parse_identifier), each with its position.
    pub fn parse_identifier_located(&mut self) -> Result<TimeZoneRecord<'a, T>, LocatedError>
        ensures reads { ReadsPartAt T.letter (zone_of T.number) identified parse_identifier self.old result self.new }
    {
        let mut here = self.cursor.fork();
        let outcome = parse_identifier_text(&mut here);
        self.cursor.settle(here, false, outcome)
    }
}
