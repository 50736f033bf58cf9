//! The definitions of the grammar of the Internet Extended Date/Time Format (RFC 9557) and of the *fault table*. This crate
//! also has the types that these definitions use: encodings, records, errors, reasons and profiles. A *reader* is a parsing method
//! of the library, such as `IxdtfParser::parse`. The fault table says which error a reader returns for a text that is not
//! in the grammar of the reader.
//!
//! The library `ixdtf` consists of crates, which are called *layers*. This crate is the second layer from below. The only
//! layer below it is `ixdtf_instants`. Callers use the crate `ixdtf`, which re-exports the items that callers need.
//!
//! - `specs/language` has the grammar (RFC 3339, section 5.6; RFC 9557, section 4.1; ISO 8601; the Temporal grammar).
//! - `specs/table` has the fault table.
//! - `specs/Handlers` says how the replies of a handler change the result of a reader. A *handler* is a function of the
//!   caller that gets each annotation of a text. A *reply* is what the handler returns for one annotation.
//!
//! The *text readers* are five of the readers: `parse`, `parse_year_month`, `parse_month_day` and `parse_time` of
//! `IxdtfParser`, and `parse` of `IsoDurationParser`. They read dates, times and durations. The fault table has
//! *lines*. Each line is about one kind of prefix of a text, and has one or more *rows*. Each row gives one error. Some rows
//! are about what follows the prefix, such as the end of the text. Other rows are about the prefix itself, such as a prefix in
//! which the month is 13. A *bad code unit* is a 16-bit code unit outside 1 to 126.
//!
//! For the layers above, this crate also proves three facts about the definitions:
//!
//! - If a text is in the grammar of a reader, no row of the fault table for this reader fits the text.
//! - For each profile, no text is in the grammars of two text readers.
//! - Suppose that a row of a line fits a text with a bad code unit. There are two cases. In the first case, the error of
//!   the row is `NonAsciiCodePoint`, at the position of the first bad code unit. In the second case, the code units before
//!   the first bad code unit are enough to decide the error: every text that begins with these code units has the same
//!   error. For each of these texts, a row of the same line fits, but it need not be the same row.
#![tactic(auto)]

pub mod encoding;
mod error;
mod instants;
pub mod packed;
pub mod profile;
mod reason;
pub mod records;

pub use error::ParseError;
pub use ixdtf_instants::Instant;
pub use reason::Reason;

/// The result of a reader: the value that it found, or the error.
pub type ParserResult<T> = Result<T, ParseError>;
