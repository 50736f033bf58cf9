//! A parser of the Internet Extended Date/Time Format (RFC 9557). It is written in Rattle, which is Rust with contracts. A
//! *contract* says what a function requires and what it ensures. A program, the *prover*, has checked a proof that every
//! function meets its contract.
//!
//! [`parsers::IxdtfParser::parse`] parses a date, or a date and a time. An offset can follow the time. Brackets can
//! follow at the end. A text has 8-bit or 16-bit code units. The forms of dates and times come from RFC 3339 and from
//! ISO 8601. The brackets are those of RFC 9557, section 4.1 (`suffix`): a time zone, and annotations
//! with a key and a value, such as `[u-ca=hebrew]`.
//!
//! - `parse_rfc9557` of the same parser accepts only the texts of RFC 9557. `parse_rfc3339` accepts only the date-times
//!   of RFC 3339.
//! - `parse_year_month` parses a year and a month, such as `2020-11`. `parse_month_day` parses a month and a day, such
//!   as `11-07`. `parse_time` parses a time. The same brackets can follow each of them.
//! - Each parsing method of this parser except `parse_rfc3339` has a variant `*_with_annotation_handler`. The variant
//!   calls a closure of the caller, the *handler*, with each annotation.
//! - [`parsers::TimeZoneParser`] parses a text that is only an offset, or only a time zone.
//! - [`parsers::IsoDurationParser`] parses a duration, such as `P1Y2M3DT4H`.
//! - Each parsing method of the three parsers has a variant `*_located`, whose error has a position.
//! - [`parsers::Profile`] chooses the rules for a month and a day, and for a duration. `Profile::Strict` is stricter than
//!   `Profile::Crate`, which a new parser has. `parse_time` refuses a text that begins like a month and a day. So the rules
//!   for a month and a day also decide which texts `parse_time` refuses.
//!
//! A *reader* is one of these parsing methods. Each reader has a grammar. A reader accepts a text of its grammar,
//! unless an annotation of the text must be refused. It accepts no other text. If a reader does not accept a text, it
//! returns one error: the error that the table of errors has for this text, or the error of a refused annotation. A
//! reader without a handler does not allocate, and returns on every input. In a reader with a handler, only the calls
//! of the handler can allocate, and the reader returns if these calls return.
//!
//! - [`parsers`]: the parsers.
//! - [`records`]: what the parsers return.
//! - [`ParseError`]: the errors of the parsers.
//! - [`encoding`]: the code units of a text.
//! - [`laws`]: theorems for callers, which follow from the contracts of the parsers.
//!
//! In the repository, `docs/GRAMMAR.md` describes the grammar, and `docs/FAULTS.md` has the table of errors. The
//! definitions are in the folder `crates/ixdtf_grammar/specs`. There, the folder `language` has the grammar, and the
//! folder `table` has the table of errors. The file `Handlers.antt` says how the result depends on what a handler
//! returns.
#![tactic(auto)]

pub mod laws;
pub mod parsers;

// These items are `pub` because other crates of this repository use them. They are not part of the interface for callers.
#[doc(hidden)]
pub use ixdtf_explanations::hexadecimal::{byte_digits, character_digits};
// This item is `pub` because other crates of this repository use it. It is not part of the interface for callers.
#[doc(hidden)]
pub use ixdtf_explanations::located::LocatedReason;
// This item is `pub` because other crates of this repository use it. It is not part of the interface for callers.
#[doc(hidden)]
pub use ixdtf_explanations::message::look_alike;
// These items are `pub` because other crates of this repository use them. They are not part of the interface for callers.
#[doc(hidden)]
pub use ixdtf_explanations::part::{Numbered, part_of};
// These items are `pub` because other crates of this repository use them. They are not part of the interface for callers.
#[doc(hidden)]
pub use ixdtf_explanations::pointed::{
    BEFORE_PLACE, FROM_PLACE, column_of, cut_mark, indent_of, marks_of,
};
pub use ixdtf_explanations::{LocatedError, Message, PointedText, Shown, WrongPart};
pub use ixdtf_grammar::{Instant, ParseError, ParserResult, Reason, encoding, records};
