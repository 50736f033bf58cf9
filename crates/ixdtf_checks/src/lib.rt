//! Checks lines of text: which lines are wrong, at which column, and why.
//!
//! The function `check` reads lines from a value with the trait `Read`, and writes the reports about them to a value with the
//! trait `Write`. The program `ixdtf_check` does the same with files. In the rest of these pages, a *reader* is a function of
//! the crate `ixdtf` that parses one kind of text. If a reader accepts a text, the reader returns a value with the parts of this
//! text. The *canonical text* is the text that the crate `ixdtf_print` prints for this value.
#![tactic(auto)]

pub mod arguments;
mod cause;
pub mod checker;
mod checking;
mod coloured;
mod csv;
pub mod exit_status;
mod instant_reading;
mod json;
mod judge;
pub mod kind;
pub mod laws;
mod line_part;
mod marked_text;
pub mod named_column;
mod nearest;
mod option_name;
mod option_value;
mod printed_line;
mod printing;
mod reading;
mod refusal;
mod report;
mod report_contents;
mod report_room;
pub mod request;
mod second_output;
pub mod shown;
mod skipped;
pub mod tally;
mod verdict;
