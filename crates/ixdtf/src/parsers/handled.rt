//! The readers of [`IxdtfParser`] with a handler.

ghost use Rattle.std.specs.Prelude.{◌≡◌, [], ◌∷◌, option_map, IfOk, IfErr};
ghost use Rattle.std.specs.Option.{option_or};
ghost use Rattle.ixdtf_grammar.specs.table.Faults.{Fault, fault_of};
ghost use Rattle.ixdtf_explanations.specs.LocatedFaults.{fault_of_located, stands_behind};
ghost use Rattle.ixdtf_grammar.specs.Handlers.{RefusedBeside, first_calendar, pair_of};
ghost use Rattle.ixdtf_grammar.specs.language.Readers.{parse as reader_parse, parse_year_month as reader_parse_year_month};
ghost use Rattle.ixdtf_grammar.specs.language.Readers.{parse_rfc9557 as reader_parse_rfc9557};
ghost use Rattle.ixdtf_grammar.specs.language.Readers.{parse_month_day as reader_parse_month_day, parse_time as reader_parse_time};
ghost use Rattle.ixdtf_grammar.specs.language.Readers.Reader.{bracketed};
ghost use Rattle.ixdtf_grammar.specs.Views.{parsed_of};
ghost use Rattle.ixdtf_grammar.specs.Promises.{HandlesText, HandlesTextAt};
ghost use Rattle.ixdtf.specs.Readings.{HandlesTextTo};

use crate::parsers::replies::keep_first_calendar;
use crate::parsers::{
    CoreReader, DateTimes, FromStop, InternetDateTimes, IxdtfParser, MonthDays, Times, YearMonths,
};
use crate::{LocatedError, ParseError, ParserResult};
use ixdtf_grammar::encoding::EncodingType;
use ixdtf_grammar::records::{Annotation, IxdtfParseRecord};
use ixdtf_reading::codes::{Next, code_of};
use ixdtf_reading::stop::{StopAt, error_of_stop};

impl<'a, T: EncodingType> IxdtfParser<'a, T> {
    /// Parses the remaining input like [`parse`](Self::parse), and lets a handler decide about each annotation.
    ///
    /// The handler is called with each annotation, in order, up to the first error. It is called when the bracket of
    /// the annotation has been read completely. The handler returns a *reply*. The reader then uses the reply instead of
    /// the annotation:
    ///
    /// - `Some` with the same annotation keeps it.
    /// - `Some` with another annotation replaces it.
    /// - `None` drops it, even if it is critical.
    ///
    /// The reader then tests the reply: see the errors below. With the handler `|annotation| Some(annotation)`, the
    /// result is the same as the result of [`parse`](Self::parse).
    ///
    /// `calendar` is the value of the first reply with the key `u-ca`. So this value comes from the handler. It need
    /// not be a part of the source.
    ///
    /// If the call succeeds, no input remains, and a second call returns the error of the empty text. If it fails, the
    /// input is unchanged. Calls of the handler are not undone.
    ///
    /// # Examples
    ///
    /// ```rust
    /// use ixdtf::ParseError;
    /// use ixdtf::parsers::IxdtfParser;
    ///
    /// // The handler keeps each annotation. The second one is critical, so it is refused.
    /// let mut calls = 0;
    /// let mut parser = IxdtfParser::from_str("2020-01-01[a=b][!c=d][e=f]");
    /// let read = parser.parse_with_annotation_handler(|annotation| {
    ///     calls += 1;
    ///     Some(annotation)
    /// });
    /// assert_eq!((read, calls), (Err(ParseError::UnrecognizedCritical), 2));
    ///
    /// // The handler drops each annotation.
    /// let mut keys = Vec::new();
    /// let mut parser = IxdtfParser::from_str("2020-01-01[a=b][!c=d][e=f]");
    /// let read = parser.parse_with_annotation_handler(|annotation| {
    ///     keys.push(annotation.key);
    ///     None
    /// });
    /// assert!(read.is_ok());
    /// assert_eq!(keys, [b"a", b"c", b"e"]);
    ///
    /// // The reader calls the handler for both annotations. Then it reads the wrong text after them.
    /// let mut calls = 0;
    /// let mut parser = IxdtfParser::from_str("2020-01-01[a=b][c=d]junk");
    /// let read = parser.parse_with_annotation_handler(|_| {
    ///     calls += 1;
    ///     None
    /// });
    /// assert_eq!((read, calls), (Err(ParseError::InvalidEnd), 2));
    /// ```
    ///
    /// A function that passes its handler on to this method needs the same bound on the type of the handler:
    ///
    /// ```rust
    /// use ixdtf::ParserResult;
    /// use ixdtf::encoding::Utf8;
    /// use ixdtf::parsers::IxdtfParser;
    /// use ixdtf::records::Annotation;
    ///
    /// fn calendar_of<'a, F>(text: &'a str, handler: F) -> ParserResult<Option<&'a [u8]>>
    /// where
    ///     F: FnMut(Annotation<'a, Utf8>) -> Option<Annotation<'a, Utf8>>,
    /// {
    ///     Ok(IxdtfParser::from_str(text).parse_with_annotation_handler(handler)?.calendar)
    /// }
    ///
    /// assert_eq!(calendar_of("2024-03-02[u-ca=hebrew]", Some), Ok(Some(b"hebrew".as_slice())));
    /// assert_eq!(calendar_of("2024-03-02[u-ca=hebrew]", |_| None), Ok(None));
    /// ```
    ///
    /// # Errors
    ///
    /// Returns the errors of [`parse`](Self::parse). `CriticalDuplicateCalendar` and `UnrecognizedCritical` are about the
    /// annotations that the handler returns, and not about those in the text. After one of these two errors, the rest of
    /// the text is not read.
    pub fn parse_with_annotation_handler<F>(
        &mut self,
        handler: F,
    ) -> ParserResult<IxdtfParseRecord<'a, T>>
    where
        F: FnMut(Annotation<'a, T>) -> Option<Annotation<'a, T>>,
        // The handler can be called at any time, in any state that it has reached, with any annotation.
        requires callable { F.IsAlwaysCallable handler }
        ensures handles { HandlesText T.letter T.number F.step handler fault_of (parsed_of T.number) reader_parse self.old result self.new }
    {
        self.read_as::<ParseError, DateTimes, F>(handler)
    }

    /// Parses the remaining input as a text of RFC 9557, like [`parse_rfc9557`](Self::parse_rfc9557), and lets a handler
    /// decide about each annotation.
    ///
    /// [`parse_with_annotation_handler`](Self::parse_with_annotation_handler) describes the handler.
    ///
    /// # Examples
    ///
    /// ```rust
    /// use ixdtf::parsers::IxdtfParser;
    ///
    /// let text = "2024-03-02T08:48:00Z[!a=b][u-ca=hebrew]";
    /// let record = IxdtfParser::from_str(text).parse_rfc9557_with_annotation_handler(|annotation| {
    ///     if annotation.key == b"u-ca" { Some(annotation) } else { None }
    /// });
    /// assert_eq!(record.unwrap().calendar, Some(b"hebrew".as_slice()));
    /// ```
    ///
    /// # Errors
    ///
    /// Returns the errors of [`parse_rfc9557`](Self::parse_rfc9557). `CriticalDuplicateCalendar` and `UnrecognizedCritical`
    /// are about the annotations that the handler returns.
    pub fn parse_rfc9557_with_annotation_handler<F>(
        &mut self,
        handler: F,
    ) -> ParserResult<IxdtfParseRecord<'a, T>>
    where
        F: FnMut(Annotation<'a, T>) -> Option<Annotation<'a, T>>,
        // The handler can be called at any time, in any state that it has reached, with any annotation.
        requires callable { F.IsAlwaysCallable handler }
        ensures handles { HandlesText T.letter T.number F.step handler fault_of (parsed_of T.number) reader_parse_rfc9557 self.old result self.new }
    {
        self.read_as::<ParseError, InternetDateTimes, F>(handler)
    }

    /// Parses the remaining input as a year and a month, like [`parse_year_month`](Self::parse_year_month), and lets a
    /// handler decide about each annotation.
    ///
    /// [`parse_with_annotation_handler`](Self::parse_with_annotation_handler) describes the handler.
    ///
    /// # Examples
    ///
    /// ```rust
    /// use ixdtf::parsers::IxdtfParser;
    ///
    /// let mut parser = IxdtfParser::from_str("2020-11[!a=b][u-ca=hebrew]");
    /// let record = parser.parse_year_month_with_annotation_handler(|annotation| {
    ///     if annotation.key == b"u-ca" { Some(annotation) } else { None }
    /// });
    /// assert_eq!(record.unwrap().calendar, Some(b"hebrew".as_slice()));
    /// ```
    ///
    /// # Errors
    ///
    /// Returns the errors of [`parse_year_month`](Self::parse_year_month). `CriticalDuplicateCalendar` and
    /// `UnrecognizedCritical` are about the annotations that the handler returns.
    pub fn parse_year_month_with_annotation_handler<F>(
        &mut self,
        handler: F,
    ) -> ParserResult<IxdtfParseRecord<'a, T>>
    where
        F: FnMut(Annotation<'a, T>) -> Option<Annotation<'a, T>>,
        // The handler can be called at any time, in any state that it has reached, with any annotation.
        requires callable { F.IsAlwaysCallable handler }
        ensures handles { HandlesText T.letter T.number F.step handler fault_of (parsed_of T.number) reader_parse_year_month self.old result self.new }
    {
        self.read_as::<ParseError, YearMonths, F>(handler)
    }

    /// Parses the remaining input as a month and a day, like [`parse_month_day`](Self::parse_month_day), and lets a
    /// handler decide about each annotation.
    ///
    /// [`parse_with_annotation_handler`](Self::parse_with_annotation_handler) describes the handler.
    ///
    /// # Examples
    ///
    /// ```rust
    /// use ixdtf::parsers::IxdtfParser;
    ///
    /// let mut parser = IxdtfParser::from_str("11-07[!a=b][u-ca=hebrew]");
    /// let record = parser.parse_month_day_with_annotation_handler(|annotation| {
    ///     if annotation.key == b"u-ca" { Some(annotation) } else { None }
    /// });
    /// assert_eq!(record.unwrap().calendar, Some(b"hebrew".as_slice()));
    /// ```
    ///
    /// # Errors
    ///
    /// Returns the errors of [`parse_month_day`](Self::parse_month_day). `CriticalDuplicateCalendar` and
    /// `UnrecognizedCritical` are about the annotations that the handler returns.
    pub fn parse_month_day_with_annotation_handler<F>(
        &mut self,
        handler: F,
    ) -> ParserResult<IxdtfParseRecord<'a, T>>
    where
        F: FnMut(Annotation<'a, T>) -> Option<Annotation<'a, T>>,
        // The handler can be called at any time, in any state that it has reached, with any annotation.
        requires callable { F.IsAlwaysCallable handler }
        ensures handles { HandlesText T.letter T.number F.step handler fault_of (parsed_of T.number) (reader_parse_month_day self.old.profile) self.old result self.new }
    {
        self.read_as::<ParseError, MonthDays, F>(handler)
    }

    /// Parses the remaining input as a time, like [`parse_time`](Self::parse_time), and lets a handler decide about
    /// each annotation.
    ///
    /// [`parse_with_annotation_handler`](Self::parse_with_annotation_handler) describes the handler.
    ///
    /// # Examples
    ///
    /// ```rust
    /// use ixdtf::parsers::IxdtfParser;
    ///
    /// let mut parser = IxdtfParser::from_str("T1200[!a=b][u-ca=hebrew]");
    /// let record = parser.parse_time_with_annotation_handler(|annotation| {
    ///     if annotation.key == b"u-ca" { Some(annotation) } else { None }
    /// });
    /// assert_eq!(record.unwrap().calendar, Some(b"hebrew".as_slice()));
    /// ```
    ///
    /// # Errors
    ///
    /// Returns the errors of [`parse_time`](Self::parse_time). `CriticalDuplicateCalendar` and `UnrecognizedCritical` are
    /// about the annotations that the handler returns.
    pub fn parse_time_with_annotation_handler<F>(
        &mut self,
        handler: F,
    ) -> ParserResult<IxdtfParseRecord<'a, T>>
    where
        F: FnMut(Annotation<'a, T>) -> Option<Annotation<'a, T>>,
        // The handler can be called at any time, in any state that it has reached, with any annotation.
        requires callable { F.IsAlwaysCallable handler }
        ensures handles { HandlesText T.letter T.number F.step handler fault_of (parsed_of T.number) (reader_parse_time self.old.profile) self.old result self.new }
    {
        self.read_as::<ParseError, Times, F>(handler)
    }

    /// Parses the remaining input as a date, or as a date and a time, with a handler. An error includes its position.
    ///
    /// The handler and the record are as in [`parse_with_annotation_handler`](Self::parse_with_annotation_handler). The
    /// position of an error is as in [`parse_located`](Self::parse_located).
    ///
    /// # Examples
    ///
    /// ```rust
    /// use ixdtf::ParseError;
    /// use ixdtf::parsers::IxdtfParser;
    ///
    /// let mut parser = IxdtfParser::from_str("2020-11-08[!a=b]");
    /// let located = parser.parse_with_annotation_handler_located(Some).unwrap_err();
    /// assert_eq!((located.error, located.at), (ParseError::UnrecognizedCritical, 16));
    /// ```
    ///
    /// # Errors
    ///
    /// Returns the errors of [`parse_with_annotation_handler`](Self::parse_with_annotation_handler), each with its
    /// position. If a reply is refused, the position is after the bracket of its annotation.
    pub fn parse_with_annotation_handler_located<F>(
        &mut self,
        handler: F,
    ) -> Result<IxdtfParseRecord<'a, T>, LocatedError>
    where
        F: FnMut(Annotation<'a, T>) -> Option<Annotation<'a, T>>,
        // The handler can be called at any time, in any state that it has reached, with any annotation.
        requires callable { F.IsAlwaysCallable handler }
        ensures handles { HandlesTextAt T.letter T.number F.step handler fault_of_located stands_behind (parsed_of T.number) reader_parse self.old result self.new }
    {
        self.read_as::<LocatedError, DateTimes, F>(handler)
    }

    /// Parses the remaining input as a text of RFC 9557, with a handler. An error includes its position.
    ///
    /// The handler and the record are as in
    /// [`parse_rfc9557_with_annotation_handler`](Self::parse_rfc9557_with_annotation_handler). The position of an error
    /// is as in [`parse_rfc9557_located`](Self::parse_rfc9557_located).
    ///
    /// # Examples
    ///
    /// ```rust
    /// use ixdtf::ParseError;
    /// use ixdtf::parsers::IxdtfParser;
    ///
    /// let mut parser = IxdtfParser::from_str("2024-03-02T08:48:00Z[!a=b]");
    /// let located = parser.parse_rfc9557_with_annotation_handler_located(Some).unwrap_err();
    /// assert_eq!((located.error, located.at), (ParseError::UnrecognizedCritical, 26));
    /// ```
    ///
    /// # Errors
    ///
    /// Returns the errors of [`parse_rfc9557_with_annotation_handler`](Self::parse_rfc9557_with_annotation_handler), each
    /// with its position. If a reply is refused, the position is after the bracket of its annotation.
    pub fn parse_rfc9557_with_annotation_handler_located<F>(
        &mut self,
        handler: F,
    ) -> Result<IxdtfParseRecord<'a, T>, LocatedError>
    where
        F: FnMut(Annotation<'a, T>) -> Option<Annotation<'a, T>>,
        // The handler can be called at any time, in any state that it has reached, with any annotation.
        requires callable { F.IsAlwaysCallable handler }
        ensures handles { HandlesTextAt T.letter T.number F.step handler fault_of_located stands_behind (parsed_of T.number) reader_parse_rfc9557 self.old result self.new }
    {
        self.read_as::<LocatedError, InternetDateTimes, F>(handler)
    }

    /// Parses the remaining input as a year and a month, with a handler. An error includes its position.
    ///
    /// The handler and the record are as in
    /// [`parse_year_month_with_annotation_handler`](Self::parse_year_month_with_annotation_handler). The position of an
    /// error is as in [`parse_year_month_located`](Self::parse_year_month_located).
    ///
    /// # Examples
    ///
    /// ```rust
    /// use ixdtf::ParseError;
    /// use ixdtf::parsers::IxdtfParser;
    ///
    /// let mut parser = IxdtfParser::from_str("2020-11[!a=b]");
    /// let located = parser.parse_year_month_with_annotation_handler_located(Some).unwrap_err();
    /// assert_eq!((located.error, located.at), (ParseError::UnrecognizedCritical, 13));
    /// ```
    ///
    /// # Errors
    ///
    /// Returns the errors of [`parse_year_month_with_annotation_handler`](Self::parse_year_month_with_annotation_handler),
    /// each with its position. If a reply is refused, the position is after the bracket of its annotation.
    pub fn parse_year_month_with_annotation_handler_located<F>(
        &mut self,
        handler: F,
    ) -> Result<IxdtfParseRecord<'a, T>, LocatedError>
    where
        F: FnMut(Annotation<'a, T>) -> Option<Annotation<'a, T>>,
        // The handler can be called at any time, in any state that it has reached, with any annotation.
        requires callable { F.IsAlwaysCallable handler }
        ensures handles { HandlesTextAt T.letter T.number F.step handler fault_of_located stands_behind (parsed_of T.number) reader_parse_year_month self.old result self.new }
    {
        self.read_as::<LocatedError, YearMonths, F>(handler)
    }

    /// Parses the remaining input as a month and a day, with a handler. An error includes its position.
    ///
    /// The handler and the record are as in
    /// [`parse_month_day_with_annotation_handler`](Self::parse_month_day_with_annotation_handler). The position of an
    /// error is as in [`parse_month_day_located`](Self::parse_month_day_located).
    ///
    /// # Examples
    ///
    /// ```rust
    /// use ixdtf::ParseError;
    /// use ixdtf::parsers::IxdtfParser;
    ///
    /// let mut parser = IxdtfParser::from_str("11-07[!a=b]");
    /// let located = parser.parse_month_day_with_annotation_handler_located(Some).unwrap_err();
    /// assert_eq!((located.error, located.at), (ParseError::UnrecognizedCritical, 11));
    /// ```
    ///
    /// # Errors
    ///
    /// Returns the errors of [`parse_month_day_with_annotation_handler`](Self::parse_month_day_with_annotation_handler),
    /// each with its position. If a reply is refused, the position is after the bracket of its annotation.
    pub fn parse_month_day_with_annotation_handler_located<F>(
        &mut self,
        handler: F,
    ) -> Result<IxdtfParseRecord<'a, T>, LocatedError>
    where
        F: FnMut(Annotation<'a, T>) -> Option<Annotation<'a, T>>,
        // The handler can be called at any time, in any state that it has reached, with any annotation.
        requires callable { F.IsAlwaysCallable handler }
        ensures handles { HandlesTextAt T.letter T.number F.step handler fault_of_located stands_behind (parsed_of T.number) (reader_parse_month_day self.old.profile) self.old result self.new }
    {
        self.read_as::<LocatedError, MonthDays, F>(handler)
    }

    /// Parses the remaining input as a time, with a handler. An error includes its position.
    ///
    /// The handler and the record are as in
    /// [`parse_time_with_annotation_handler`](Self::parse_time_with_annotation_handler). The position of an error is as
    /// in [`parse_time_located`](Self::parse_time_located).
    ///
    /// # Examples
    ///
    /// ```rust
    /// use ixdtf::ParseError;
    /// use ixdtf::parsers::IxdtfParser;
    ///
    /// let mut parser = IxdtfParser::from_str("T1200[!a=b]");
    /// let located = parser.parse_time_with_annotation_handler_located(Some).unwrap_err();
    /// assert_eq!((located.error, located.at), (ParseError::UnrecognizedCritical, 11));
    /// ```
    ///
    /// # Errors
    ///
    /// Returns the errors of [`parse_time_with_annotation_handler`](Self::parse_time_with_annotation_handler), each with
    /// its position. If a reply is refused, the position is after the bracket of its annotation.
    pub fn parse_time_with_annotation_handler_located<F>(
        &mut self,
        handler: F,
    ) -> Result<IxdtfParseRecord<'a, T>, LocatedError>
    where
        F: FnMut(Annotation<'a, T>) -> Option<Annotation<'a, T>>,
        // The handler can be called at any time, in any state that it has reached, with any annotation.
        requires callable { F.IsAlwaysCallable handler }
        ensures handles { HandlesTextAt T.letter T.number F.step handler fault_of_located stands_behind (parsed_of T.number) (reader_parse_time self.old.profile) self.old result self.new }
    {
        self.read_as::<LocatedError, Times, F>(handler)
    }

    /// Reads a text with a core of the kind that `C` reads, like
    /// [`parse_with_annotation_handler`](Self::parse_with_annotation_handler).
    ///
    /// `E` is the type of the error. The error is made from a `Reason`, the error type that the library uses inside.
    #[inline(always)]
    pub(crate) fn read_as<E: FromStop, C: CoreReader, F>(
        &mut self,
        mut handler: F,
    ) -> Result<IxdtfParseRecord<'a, T>, E>
    where
        F: FnMut(Annotation<'a, T>) -> Option<Annotation<'a, T>>,
        // The handler can be called at any time, in any state that it has reached, with any annotation.
        requires callable { F.IsAlwaysCallable handler }
        ensures handles { HandlesText T.letter T.number F.step handler E.fault (parsed_of T.number) (bracketed (C.kind self.old.profile)) self.old result self.new }
        ensures places { HandlesTextAt T.letter T.number F.step handler E.fault E.stands (parsed_of T.number) (bracketed (C.kind self.old.profile)) self.old result self.new }
    {
        self.read_handled::<E, C, F>(&mut handler)
    }

    /// Reads a text with a core of the kind that `C` reads, like
    /// [`parse_with_annotation_handler`](Self::parse_with_annotation_handler).
    ///
    /// The handler is left in the state after its last call, so the caller can use it. `E` is the type of the error. The
    /// error is made from a `Reason`, the error type that the library uses inside.
    ///
    /// This function is only for crates of this repository, and not a part of the public interface.
    ///
    /// # Errors
    ///
    /// Returns the errors of the public reader that has a handler and reads the cores that `C` reads.
    #[doc(hidden)]
    #[inline(always)]
    pub fn read_lending_handler<E: FromStop, C: CoreReader, F>(
        &mut self,
        handler: &mut F,
    ) -> Result<IxdtfParseRecord<'a, T>, E>
    where
        F: FnMut(Annotation<'a, T>) -> Option<Annotation<'a, T>>,
        // The handler can be called at any time, in any state that it has reached, with any annotation.
        requires callable { F.IsAlwaysCallable handler.old }
        ensures handles { HandlesTextTo T.letter T.number F.step handler.old handler.new E.fault E.stands (parsed_of T.number) (bracketed (C.kind self.old.profile)) self.old result self.new }
    {
        self.read_handled::<E, C, F>(handler)
    }

    /// Stores a reply in `calendar`, as the readers do, if the reply has the key `u-ca` and `calendar` is `None`.
    ///
    /// This function is only for crates of this repository, and not a part of the public interface.
    ///
    /// # Errors
    ///
    /// - `UnrecognizedCritical`, `CriticalDuplicateCalendar`: the reply is refused.
    #[doc(hidden)]
    #[inline(always)]
    pub fn keep_first_calendar(
        &mut self,
        calendar: &mut Option<Annotation<'a, T>>,
        reply: Option<Annotation<'a, T>>,
    ) -> ParserResult<()>
        ensures accepted { IfOk result (λ _. (fault : Fault) →
            ¬ (RefusedBeside (option_map (pair_of T.number) calendar.old)
            (option_map (pair_of T.number) reply.entry) fault)) }
        ensures kept { IfOk result (λ _.
            option_map (pair_of T.number) calendar.new ≡
            option_or (option_map (pair_of T.number) calendar.old)
            (first_calendar (option_map (pair_of T.number) reply.entry ∷ []))) }
        ensures err { IfErr result (λ e.
            RefusedBeside (option_map (pair_of T.number) calendar.old)
            (option_map (pair_of T.number) reply.entry) (fault_of e)) }
        ensures rest { self.new.rest ≡ self.old.rest }
        ensures profile { self.new.profile ≡ self.old.profile }
    {
        if let Err(stop) = keep_first_calendar::<T>(&mut self.cursor, calendar, reply) {
            // The error of a refusal does not depend on what follows.
            return Err(error_of_stop(StopAt {
                reason: stop,
                code: code_of(stop, true, Next::End),
                at: 0,
            }));
        }
        Ok(())
    }
}
