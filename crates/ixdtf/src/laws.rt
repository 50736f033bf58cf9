//! Theorems for callers, which follow from the contracts of the readers.
//!
//! A law is a function whose contract states the theorem. To use a law, call the function: after the call, the prover
//! knows what the function ensures. At run time, a law without parameters does nothing. [`parse_unanswered`] is the
//! only law that parses a text. A contract consists of *clauses*: each `requires` is a clause, and each `ensures` is
//! one. The contract of `parse_unanswered` has the clauses of [`IxdtfParser::parse_with_annotation_handler`] and four
//! more. The clause `unanswered` requires that the handler returns only `None`. The clauses `calendar`, `unrecognized`
//! and `duplicate` state the theorem.

pub mod instants;

ghost use Rattle.std.specs.Prelude.{◌≡◌, ◌≢◌, map, IfOk, IfErr, IfSome, None, pos};
ghost use Rattle.ixdtf_grammar.specs.table.Faults.{fault_of};
ghost use Rattle.ixdtf_grammar.specs.table.Faults.Fault.{CriticalDuplicateCalendar, UnrecognizedCritical};
ghost use Rattle.ixdtf_grammar.specs.language.Readers.{parse as reader_parse};
ghost use Rattle.ixdtf_grammar.specs.Handlers.{pair_of};
ghost use Rattle.ixdtf_grammar.specs.Laws.{EveryDateTimeIsRead, EveryNameIsAnIdentifier, LanguagesDisjoint};
ghost use Rattle.ixdtf_grammar.specs.Laws.{OffsetsAgree, HyphensSayNothing, OneHyphenIsRefused, OneResult, OnePlace, OneChain};
ghost use Rattle.ixdtf_grammar.specs.Laws.{DefaultIs, ClonesAreEqual, IsEqualityBy};
ghost use Rattle.ixdtf_grammar.specs.Rfc3339Laws.{DerivesDateTimesAlone, ParseReadsTheSame};
ghost use Rattle.ixdtf_grammar.specs.Rfc9557Laws.{Rfc9557ReadsTheSame, ParseGivesTheSame};
ghost use Rattle.ixdtf_grammar.specs.Widths.{OneUnhandledOutcome, SameWhereShared, FaultWhereNotShared};
ghost use Rattle.ixdtf_grammar.specs.Widths.{SamePlaceWhereShared, PlaceWhereNotShared, NonAsciiIsFirst, NonAsciiIsWide};
ghost use Rattle.ixdtf_grammar.specs.table.Outcomes.{OneOutcome, FrontsBegin};
ghost use Rattle.ixdtf_grammar.specs.language.Fractions.{exact_nanoseconds_of, nanoseconds_of};
ghost use Rattle.ixdtf_grammar.specs.Views.{zone_of, note_of, parsed_of};
ghost use Rattle.ixdtf_grammar.specs.Promises.{HandlesText};

use crate::parsers::{DateTimes, IxdtfParser};
use crate::{ParseError, ParserResult};
use ixdtf_grammar::encoding::EncodingType;
use ixdtf_grammar::records::{
    Annotation, DateDurationRecord, DateRecord, DurationParseRecord, Fraction, FullPrecisionOffset,
    IxdtfParseRecord, MinutePrecisionOffset, Sign, TimeDurationRecord, TimeRecord,
    TimeZoneAnnotation, TimeZoneRecord, UtcOffsetRecord, UtcOffsetRecordOrZ,
};
use ixdtf_reading::stop::FromStop;

/// States that [`IxdtfParser::parse`] accepts every date-time of RFC 3339, section 5.6. Its `T` and `Z` may be
/// lowercase.
///
/// The law is about texts in every encoding. It states that the grammar derives a record from each date-time. By the
/// clause `reads` in the contract of `parse`, `parse` then returns this record.
pub fn every_rfc3339_date_time_is_read()
    ensures { EveryDateTimeIsRead }
{}

/// States that `parse_rfc3339` accepts exactly the date-times of RFC 3339, and that `parse` returns equal records.
///
/// - `alone`: [`IxdtfParser::parse_rfc3339`] accepts a text exactly if the text is a `date-time` by the productions of
///   RFC 3339, section 5.6, with a day that the month has.
/// - `same`: [`IxdtfParser::parse`] accepts each of these texts too, and returns an equal record.
pub fn rfc3339_date_times_are_read_alike()
    ensures alone { DerivesDateTimesAlone }
    ensures same { ParseReadsTheSame }
{}

/// States that `parse_rfc9557` accepts every text of `parse_rfc3339`, and that `parse` accepts every text of
/// `parse_rfc9557`.
///
/// - `dated`: [`IxdtfParser::parse_rfc9557`] accepts each text that [`IxdtfParser::parse_rfc3339`] accepts, and returns an
///   equal record.
/// - `same`: [`IxdtfParser::parse`] accepts each text that [`IxdtfParser::parse_rfc9557`] accepts, and returns an equal
///   record. This is also true for the readers with a handler, if the handler returns the same replies to both readers.
pub fn rfc9557_texts_are_read_alike()
    ensures dated { Rfc9557ReadsTheSame }
    ensures same { ParseGivesTheSame }
{}

/// States that `parse_identifier` accepts every name that `parse_iana_identifier` accepts, and returns the same name.
///
/// If [`TimeZoneParser::parse_iana_identifier`](crate::parsers::TimeZoneParser::parse_iana_identifier) accepts a text,
/// its result is the complete text. For this text,
/// [`TimeZoneParser::parse_identifier`](crate::parsers::TimeZoneParser::parse_identifier) returns a `Name` with the
/// same code units.
pub fn every_name_is_an_identifier()
    ensures { EveryNameIsAnIdentifier }
{}

/// States that `parse_offset` and `parse_identifier` return the same offset, if both accept a text.
///
/// If [`TimeZoneParser::parse_offset`](crate::parsers::TimeZoneParser::parse_offset) and
/// [`TimeZoneParser::parse_identifier`](crate::parsers::TimeZoneParser::parse_identifier) both accept a text, the text
/// is a sign and an hour, with or without a minute. Then both return this offset: `parse_offset` as `MinutePrecision`,
/// and `parse_identifier` as `Offset`.
pub fn offsets_agree()
    ensures { OffsetsAgree }
{}

/// States that the two hyphens of a date do not change the result of [`IxdtfParser::parse`].
///
/// A date here is a year, a month from 01 to 12, and two digits for the day.
///
/// - `same`: for a date without hyphens, and for the same date with both hyphens, `parse` returns the same record or
///   error, whatever follows the date.
/// - `one`: for a date with only one of the two hyphens, the error is `DateSeparator`, whatever follows the date.
pub fn hyphens_say_nothing()
    ensures same { HyphensSayNothing }
    ensures one { OneHyphenIsRefused }
{}

/// States that each text has exactly one outcome in each reader.
///
/// There are two cases. In the first case, the grammar derives exactly one value from the text, and no row of the table
/// of errors (`docs/FAULTS.md`) fits the text. In the second case, exactly one row of this table fits the text, and the
/// grammar derives no value from the text. A row also says the position of the error, so the error has exactly one
/// position.
///
/// The outcome contains annotations. If the grammar derives a value, these are the annotations of the text. Otherwise
/// they are the complete annotations before the position of the error. The outcome does not contain the replies of a
/// handler. So a reader can refuse a text although the grammar derives a value from it: the reason is a refused reply.
///
/// - `outcome`: each text has exactly one outcome in each reader.
/// - `begins`: if the grammar derives a value from a prefix of the text, the annotations of this prefix are the first
///   annotations in the outcome of the text.
/// - `chain`: if the annotations of a text and the replies to them are given, there is at most one result: a record or
///   an error.
/// - `place`: if the annotations of a text and one reply for each of them are given, there is at most one position of
///   an error.
/// - `replied`: suppose that each reply of a handler depends only on the annotation of this call and on the annotations of
///   the earlier calls. Then, for each text, there is exactly one list of annotations for which the handler
///   is called, and exactly one result.
///
/// The law is about all texts. The contract of each reader is about the text of one call. It says that after `Ok`, no
/// row fits this text, and that after an error, no other error is possible for this text.
pub fn one_outcome()
    ensures outcome { OneOutcome }
    ensures begins { FrontsBegin }
    ensures chain { OneResult }
    ensures place { OnePlace }
    ensures replied { OneChain }
{}

/// States that, under one profile, at most one of these five readers accepts a text.
///
/// The five readers are [`IxdtfParser::parse`], [`IxdtfParser::parse_year_month`], [`IxdtfParser::parse_month_day`],
/// [`IxdtfParser::parse_time`] and [`IsoDurationParser::parse`](crate::parsers::IsoDurationParser::parse).
///
/// The law is about what the grammar derives from a text. So it is also true for the readers with a handler, whatever
/// the handler replies. The contract of each of these readers is about one call. It says that after `Ok`, the grammar
/// derives no value from the text for any of the other four readers.
pub fn languages_disjoint()
    ensures { LanguagesDisjoint }
{}

/// States when a reader without a handler has the same outcome for 8-bit text and for 16-bit text.
///
/// The law is about a list of numbers. *The 8-bit text* is the text whose 8-bit code units are these numbers, and *the
/// 16-bit text* is the text whose 16-bit code units are these numbers. A *bad* number is one outside 1 to 126.
///
/// - A text has exactly one outcome: a value or an error. If the value contains a slice, the law compares the numbers
///   of the code units of this slice.
/// - If no number is bad, the 8-bit text and the 16-bit text have the same outcome, and the same errors at the same
///   positions.
/// - If a number is bad, the 16-bit text has an error. If this error is not `NonAsciiCodePoint`, replace each bad number by
///   128, and read the new list as 8-bit text. This 8-bit text has the same error, at the same position.
/// - The position of `NonAsciiCodePoint` is the position of the first bad number. No 8-bit text has this error.
pub fn widths_agree()
    ensures one { OneUnhandledOutcome }
    ensures same { SameWhereShared }
    ensures fault { FaultWhereNotShared }
    ensures same_place { SamePlaceWhereShared }
    ensures place { PlaceWhereNotShared }
    ensures first { NonAsciiIsFirst }
    ensures wide { NonAsciiIsWide }
{}

/// States that [`Fraction::to_nanoseconds`] returns `None`, or `Some` with the number that
/// [`Fraction::to_truncated_nanoseconds`] returns.
pub fn exact_nanoseconds_are_the_truncated_ones(fraction: &Fraction)
    ensures { IfSome (exact_nanoseconds_of fraction.now) (λ n. nanoseconds_of fraction.now ≡ n) }
{
    let _ = fraction.to_nanoseconds();
}

/// States that `==` of two values is true exactly if the two values have the same content.
///
/// The law is about slices of code units, records and errors, in every encoding. The content of a slice is the list of
/// the numbers of its code units. The content of a record is the content of its fields. The content of an error is its
/// variant and, for `AbruptEnd`, the bytes of its `location`. So `==` is reflexive, symmetric and transitive.
pub fn equality_is_of_what_is_seen<'a, T: EncodingType>()
where
    T::CodeUnit: 'a,
    ensures units { IsEqualityBy (λ units. map T.number units.now)
        ⟦<&'a [T::CodeUnit] as PartialEq>⟧.eq }
    ensures record { IsEqualityBy (parsed_of T.number)
        ⟦<IxdtfParseRecord<'a, T> as PartialEq>⟧.eq }
    ensures annotation { IsEqualityBy (pair_of T.number)
        ⟦<Annotation<'a, T> as PartialEq>⟧.eq }
    ensures zone_annotation { IsEqualityBy (note_of T.number)
        ⟦<TimeZoneAnnotation<'a, T> as PartialEq>⟧.eq }
    ensures zone { IsEqualityBy (zone_of T.number) ⟦<TimeZoneRecord<'a, T> as PartialEq>⟧.eq }
    ensures date { IsEqualityBy (λ it. it) ⟦<DateRecord as PartialEq>⟧.eq }
    ensures time { IsEqualityBy (λ it. it) ⟦<TimeRecord as PartialEq>⟧.eq }
    ensures fraction { IsEqualityBy (λ it. it) ⟦<Fraction as PartialEq>⟧.eq }
    ensures sign { IsEqualityBy (λ it. it) ⟦<Sign as PartialEq>⟧.eq }
    ensures minute_offset { IsEqualityBy (λ it. it) ⟦<MinutePrecisionOffset as PartialEq>⟧.eq }
    ensures full_offset { IsEqualityBy (λ it. it) ⟦<FullPrecisionOffset as PartialEq>⟧.eq }
    ensures offset { IsEqualityBy (λ it. it) ⟦<UtcOffsetRecord as PartialEq>⟧.eq }
    ensures offset_or_z { IsEqualityBy (λ it. it) ⟦<UtcOffsetRecordOrZ as PartialEq>⟧.eq }
    ensures duration { IsEqualityBy (λ it. it) ⟦<DurationParseRecord as PartialEq>⟧.eq }
    ensures date_duration { IsEqualityBy (λ it. it) ⟦<DateDurationRecord as PartialEq>⟧.eq }
    ensures time_duration { IsEqualityBy (λ it. it) ⟦<TimeDurationRecord as PartialEq>⟧.eq }
    ensures error { IsEqualityBy fault_of ⟦<ParseError as PartialEq>⟧.eq }
{}

/// States that each number of the default `DateRecord`, `TimeRecord` and `DateDurationRecord` is 0. The default time has
/// no fraction.
///
/// The law does not mention [`IxdtfParseRecord`], because the contract of `IxdtfParseRecord::default` already says that
/// the default record is empty.
pub fn defaults_are_zero()
    ensures date { DefaultIs ⟦<DateRecord as Default>⟧.is_default
        (record { year = pos 0; month = 0; day = 0 }) }
    ensures time { DefaultIs ⟦<TimeRecord as Default>⟧.is_default
        (record { hour = 0; minute = 0; second = 0; fraction = None }) }
    ensures date_duration { DefaultIs ⟦<DateDurationRecord as Default>⟧.is_default
        (record { years = 0; months = 0; weeks = 0; days = 0 }) }
{}

/// States that `clone` of a record or of an error succeeds, and returns the same value, in every encoding.
///
/// In Rattle, `clone` returns a `Result`. By this law, the result is `Ok` for these types.
pub fn clones_are_equal<'a, T: EncodingType>()
where
    T::CodeUnit: 'a,
    ensures record { ClonesAreEqual ⟦<IxdtfParseRecord<'a, T> as Clone>⟧.is_clone
        ⟦<IxdtfParseRecord<'a, T> as Clone>⟧.is_infallible }
    ensures annotation { ClonesAreEqual ⟦<Annotation<'a, T> as Clone>⟧.is_clone
        ⟦<Annotation<'a, T> as Clone>⟧.is_infallible }
    ensures zone_annotation { ClonesAreEqual ⟦<TimeZoneAnnotation<'a, T> as Clone>⟧.is_clone
        ⟦<TimeZoneAnnotation<'a, T> as Clone>⟧.is_infallible }
    ensures zone { ClonesAreEqual ⟦<TimeZoneRecord<'a, T> as Clone>⟧.is_clone
        ⟦<TimeZoneRecord<'a, T> as Clone>⟧.is_infallible }
    ensures date { ClonesAreEqual ⟦<DateRecord as Clone>⟧.is_clone
        ⟦<DateRecord as Clone>⟧.is_infallible }
    ensures time { ClonesAreEqual ⟦<TimeRecord as Clone>⟧.is_clone
        ⟦<TimeRecord as Clone>⟧.is_infallible }
    ensures fraction { ClonesAreEqual ⟦<Fraction as Clone>⟧.is_clone
        ⟦<Fraction as Clone>⟧.is_infallible }
    ensures sign { ClonesAreEqual ⟦<Sign as Clone>⟧.is_clone
        ⟦<Sign as Clone>⟧.is_infallible }
    ensures minute_offset { ClonesAreEqual ⟦<MinutePrecisionOffset as Clone>⟧.is_clone
        ⟦<MinutePrecisionOffset as Clone>⟧.is_infallible }
    ensures full_offset { ClonesAreEqual ⟦<FullPrecisionOffset as Clone>⟧.is_clone
        ⟦<FullPrecisionOffset as Clone>⟧.is_infallible }
    ensures offset { ClonesAreEqual ⟦<UtcOffsetRecord as Clone>⟧.is_clone
        ⟦<UtcOffsetRecord as Clone>⟧.is_infallible }
    ensures offset_or_z { ClonesAreEqual ⟦<UtcOffsetRecordOrZ as Clone>⟧.is_clone
        ⟦<UtcOffsetRecordOrZ as Clone>⟧.is_infallible }
    ensures duration { ClonesAreEqual ⟦<DurationParseRecord as Clone>⟧.is_clone
        ⟦<DurationParseRecord as Clone>⟧.is_infallible }
    ensures date_duration { ClonesAreEqual ⟦<DateDurationRecord as Clone>⟧.is_clone
        ⟦<DateDurationRecord as Clone>⟧.is_infallible }
    ensures time_duration { ClonesAreEqual ⟦<TimeDurationRecord as Clone>⟧.is_clone
        ⟦<TimeDurationRecord as Clone>⟧.is_infallible }
    ensures error { ClonesAreEqual ⟦<ParseError as Clone>⟧.is_clone
        ⟦<ParseError as Clone>⟧.is_infallible }
{}

/// Calls [`IxdtfParser::parse_with_annotation_handler`] with a handler of the caller that returns only `None`.
///
/// The law states that the record then has no calendar, and that no reply is refused.
///
/// # Errors
///
/// Returns the errors of [`IxdtfParser::parse`], except `CriticalDuplicateCalendar` and `UnrecognizedCritical`.
pub fn parse_unanswered<'a, T: EncodingType, F>(
    parser: &mut IxdtfParser<'a, T>,
    handler: F,
) -> ParserResult<IxdtfParseRecord<'a, T>>
where
    F: FnMut(Annotation<'a, T>) -> Option<Annotation<'a, T>>,
    requires callable { F.IsAlwaysCallable handler }
    requires unanswered { (state : F) (annotation : _) (reply : _) (next : F) →
        F.step state annotation reply next → reply ≡ None }
    ensures calendar { IfOk result (λ found. found.calendar ≡ None) }
    ensures unrecognized { IfErr result (λ e. fault_of e ≢ UnrecognizedCritical) }
    ensures duplicate { IfErr result (λ e. fault_of e ≢ CriticalDuplicateCalendar) }

    ensures handles { HandlesText T.letter T.number F.step handler fault_of (parsed_of T.number) reader_parse parser.old result parser.new }
{
    parse_unanswered_as::<T, ParseError, F>(parser, handler)
}

/// Does the work of [`parse_unanswered`].
///
/// `E` is the type of the error. The error is made from a `Reason`, the error type that the library uses inside.
#[inline(always)]
fn parse_unanswered_as<'a, T: EncodingType, E: FromStop, F>(
    parser: &mut IxdtfParser<'a, T>,
    handler: F,
) -> Result<IxdtfParseRecord<'a, T>, E>
where
    F: FnMut(Annotation<'a, T>) -> Option<Annotation<'a, T>>,
    requires callable { F.IsAlwaysCallable handler }
    requires unanswered { (state : F) (annotation : _) (reply : _) (next : F) → F.step state annotation reply next → reply ≡ None }
    ensures calendar { IfOk result (λ found. found.calendar ≡ None) }
    ensures unrecognized { IfErr result (λ e. E.fault e ≢ UnrecognizedCritical) }
    ensures duplicate { IfErr result (λ e. E.fault e ≢ CriticalDuplicateCalendar) }

    ensures handles { HandlesText T.letter T.number F.step handler E.fault (parsed_of T.number) reader_parse parser.old result parser.new }
{
    parser.read_as::<E, DateTimes, F>(handler)
}
