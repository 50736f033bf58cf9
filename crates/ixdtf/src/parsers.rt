//! The parsers: [`IxdtfParser`] for dates and times, [`TimeZoneParser`] for offsets and time zones, and
//! [`IsoDurationParser`] for durations.
//!
//! A parsing method accepts its complete input, or returns an error:
//!
//! - It returns `Ok` exactly if the grammar derives the input, and no annotation is refused.
//! - If it returns an error, there is one of two reasons. Either the table of errors has this error for the input, or
//!   an annotation is refused with this error.
//!
//! A *handler* is a closure that the caller passes to a method `*_with_annotation_handler`. The method calls the
//! handler with each annotation up to the first error. The handler returns an annotation, or nothing. If a method has a
//! handler, an annotation is refused only if the handler returned it. In the repository, `docs/GRAMMAR.md` describes
//! the grammar, and `docs/FAULTS.md` has the table of errors.

ghost use Rattle.ixdtf_grammar.specs.Views.{UnreadUnder, under};

mod constructors;
mod cores;
mod exact;
mod handled;
mod replies;
mod texts;
mod time_zone_parser;
mod unhandled;

// Only crates of this repository use these types. They are not part of the public interface. `read_lending_handler` is
// generic in them.
#[doc(hidden)]
pub use self::cores::{CoreReader, DateTimes, InternetDateTimes, MonthDays, Times, YearMonths};
pub use self::time_zone_parser::TimeZoneParser;
pub use ixdtf_durations::duration::IsoDurationParser;
use ixdtf_grammar::encoding::EncodingType;
pub use ixdtf_grammar::profile::Profile;
use ixdtf_reading::cursor::Cursor;
// The printer uses this function. It is not part of the public interface.
#[doc(hidden)]
pub use ixdtf_reading::classes::is_annotation_value_component;
#[doc(hidden)]
pub use ixdtf_reading::stop::FromStop;
// The printer uses this function. It is not part of the public interface.
#[doc(hidden)]
pub use ixdtf_times::dates::days_in_month;
use std::marker::Model;

/// A parser of dates and times, with an offset, a time zone and annotations.
///
/// The parser borrows the text that it parses. It contains only a slice of this text and a profile.
///
/// # Examples
///
/// ```rust
/// use ixdtf::parsers::IxdtfParser;
///
/// let mut parser = IxdtfParser::from_str("2024-03-02");
/// assert_eq!(parser.parse().unwrap().date.unwrap().year, 2024);
/// ```
#[derive(Drop)]
#[derive_where(Debug)]
pub struct IxdtfParser<'a, T: EncodingType> {
    cursor: Cursor<'a, T>,
    profile: Profile,
}

impl<'a, T: EncodingType> Model for IxdtfParser<'a, T> {
    // In a contract, a parser is the numbers of the remaining code units, the count of accesses to code units, and the
    // profile.
    ghost Value = { UnreadUnder };

    ghost view = { λ p. under p.profile p.cursor };
}
