//! Functions that return the error with which a reader refuses a text. The error has a position and a reason.

ghost use Rattle.std.specs.Prelude.{map};
ghost use Rattle.ixdtf.specs.language.Readers.Reader.{bracketed, parse_duration, parse_iana_identifier, parse_identifier, parse_offset, parse_rfc3339};
ghost use Rattle.ixdtf.specs.LocatedFaults.{fault_of_located, stands_behind};
ghost use Rattle.ixdtf_c.specs.Asked.{asked_of, IsOutcome};
ghost use Rattle.ixdtf_c.specs.Asked.Asked.{unhandled, listing};

use crate::reader_numbers::Reader;
use ixdtf::LocatedError;
use ixdtf::encoding::EncodingType;
use ixdtf::parsers::{
    CoreReader, DateTimes, FromStop, InternetDateTimes, IsoDurationParser, IxdtfParser, MonthDays,
    Profile, TimeZoneParser, Times, YearMonths,
};

/// Returns the error of a text in the reader of the kind `C`, or `None` if the reader accepts the text.
///
/// The library is written in Rattle, which is Rust with contracts. Rattle's borrow checker refuses a function that has
/// `'static` in the types of its signature, and that also uses a bound with a lifetime. With `LocatedError` as its error, this
/// function would have both: `LocatedError` contains `'static`, and a handler has such a bound. So the function is generic in
/// the error.
fn keeping<E: FromStop, T: EncodingType, C: CoreReader>(
    text: &[T::CodeUnit],
    profile: Profile,
) -> Option<E>
    ensures { IsOutcome E.fault E.stands (unhandled (bracketed (C.kind profile)))
        (map (λ unit. T.letter (T.number unit)) text.now) result }
{
    let mut parser = IxdtfParser::<T>::new(text).with_profile(profile);
    let mut handler = |annotation| Some(annotation);
    match parser.read_lending_handler::<E, C, _>(&mut handler) {
        Ok(_) => None,
        Err(error) => Some(error),
    }
}

/// Does what [`keeping`] does, for the reader that lists annotations. Its handler drops each annotation.
fn dropping<E: FromStop, T: EncodingType, C: CoreReader>(
    text: &[T::CodeUnit],
    profile: Profile,
) -> Option<E>
    ensures { IsOutcome E.fault E.stands (listing (bracketed (C.kind profile)))
        (map (λ unit. T.letter (T.number unit)) text.now) result }
{
    let mut parser = IxdtfParser::<T>::new(text).with_profile(profile);
    let mut handler = |_| None;
    match parser.read_lending_handler::<E, C, _>(&mut handler) {
        Ok(_) => None,
        Err(error) => Some(error),
    }
}

/// Returns the error of a text in the reader of RFC 3339, or `None` if the reader accepts the text.
fn of_rfc3339<T: EncodingType>(text: &[T::CodeUnit]) -> Option<LocatedError>
    ensures { IsOutcome fault_of_located stands_behind (unhandled parse_rfc3339)
        (map (λ unit. T.letter (T.number unit)) text.now) result }
{
    match IxdtfParser::<T>::new(text).parse_rfc3339_located() {
        Ok(_) => None,
        Err(error) => Some(error),
    }
}

/// Returns the error of a text in the reader of offsets, or `None` if the reader accepts the text.
fn of_offset<T: EncodingType>(text: &[T::CodeUnit]) -> Option<LocatedError>
    ensures { IsOutcome fault_of_located stands_behind (unhandled parse_offset)
        (map (λ unit. T.letter (T.number unit)) text.now) result }
{
    match TimeZoneParser::<T>::new(text).parse_offset_located() {
        Ok(_) => None,
        Err(error) => Some(error),
    }
}

/// Returns the error of a text in the reader of time zones, or `None` if the reader accepts the text.
fn of_zone<T: EncodingType>(text: &[T::CodeUnit]) -> Option<LocatedError>
    ensures { IsOutcome fault_of_located stands_behind (unhandled parse_identifier)
        (map (λ unit. T.letter (T.number unit)) text.now) result }
{
    match TimeZoneParser::<T>::new(text).parse_identifier_located() {
        Ok(_) => None,
        Err(error) => Some(error),
    }
}

/// Returns the error of a text in the reader of names of time zones, or `None` if the reader accepts the text.
fn of_name<T: EncodingType>(text: &[T::CodeUnit]) -> Option<LocatedError>
    ensures { IsOutcome fault_of_located stands_behind (unhandled parse_iana_identifier)
        (map (λ unit. T.letter (T.number unit)) text.now) result }
{
    match TimeZoneParser::<T>::new(text).parse_iana_identifier_located() {
        Ok(_) => None,
        Err(error) => Some(error),
    }
}

/// Returns the error of a text in the reader of durations, or `None` if the reader accepts the text.
fn of_duration<T: EncodingType>(text: &[T::CodeUnit], profile: Profile) -> Option<LocatedError>
    ensures { IsOutcome fault_of_located stands_behind (unhandled (parse_duration profile))
        (map (λ unit. T.letter (T.number unit)) text.now) result }
{
    let mut parser = IsoDurationParser::<T>::new(text).with_profile(profile);
    match parser.parse_located() {
        Ok(_) => None,
        Err(error) => Some(error),
    }
}

/// Returns the error of a text in the reader, or `None` if the reader accepts the text.
pub fn refusal<T: EncodingType>(reader: Reader, text: &[T::CodeUnit]) -> Option<LocatedError>
    ensures { IsOutcome fault_of_located stands_behind (asked_of reader)
        (map (λ unit. T.letter (T.number unit)) text.now) result }
{
    match reader {
        Reader::Parse => keeping::<_, T, DateTimes>(text, Profile::Crate),
        Reader::YearMonth => keeping::<_, T, YearMonths>(text, Profile::Crate),
        Reader::MonthDay => keeping::<_, T, MonthDays>(text, Profile::Crate),
        Reader::Time => keeping::<_, T, Times>(text, Profile::Crate),
        Reader::Rfc3339 => of_rfc3339::<T>(text),
        Reader::Rfc9557 => keeping::<_, T, InternetDateTimes>(text, Profile::Crate),
        Reader::Offset => of_offset::<T>(text),
        Reader::Identifier => of_zone::<T>(text),
        Reader::IanaIdentifier => of_name::<T>(text),
        Reader::Duration => of_duration::<T>(text, Profile::Crate),
        Reader::StrictMonthDay => keeping::<_, T, MonthDays>(text, Profile::Strict),
        Reader::StrictTime => keeping::<_, T, Times>(text, Profile::Strict),
        Reader::StrictDuration => of_duration::<T>(text, Profile::Strict),
        Reader::Listing => dropping::<_, T, DateTimes>(text, Profile::Crate),
        Reader::ListingYearMonth => dropping::<_, T, YearMonths>(text, Profile::Crate),
        Reader::ListingMonthDay => dropping::<_, T, MonthDays>(text, Profile::Crate),
        Reader::ListingTime => dropping::<_, T, Times>(text, Profile::Crate),
        Reader::ListingRfc9557 => dropping::<_, T, InternetDateTimes>(text, Profile::Crate),
        Reader::ListingStrictMonthDay => dropping::<_, T, MonthDays>(text, Profile::Strict),
        Reader::ListingStrictTime => dropping::<_, T, Times>(text, Profile::Strict),
    }
}
