//! The code that all readers share. A *reader* is a parsing method of the library `ixdtf`, such as `IxdtfParser::parse`.
//!
//! - `cursor` has the cursor on the remaining input. `looks` has the count of accesses to code units.
//! - `classes` has the classes of characters. `letters` consumes the code units of one class.
//! - `annotations` reads keys, values and annotations.
//! - `error_code` has a code of one byte for each error, and `codes` has the tables of the codes. `stop` makes the errors.
//!
//! Some words of the comments of this crate come from `ixdtf_grammar`:
//!
//! - The *fault table* says which error a reader returns for a text. It consists of *lines*, and each line has one or more *rows*. Each
//!   row has one error.
//! - A `Reason` says why a reader refuses a text. Most reasons are named after a line of the fault table.
//! - A *bad code unit* is a 16-bit code unit outside 1 to 126.
//! - A *bracket* is a `[`, the `]` that closes it, and the code units between them. It has a time zone or an annotation.
//!
//! This is a layer of the library `ixdtf`, above `ixdtf_grammar`. `specs/reading` has the *reading functions*. A reading
//! function is not code, but a definition: it says which result a function of the code must have for each list of code
//! units. This crate proves three things about the reading functions:
//!
//! - If the grammar derives a value from a text, the reading function returns this value (`proofs/to_reading`). If the
//!   reading function returns a value for a text, the grammar derives this value from the text (`proofs/to_grammar`).
//! - If the grammar derives no value from a text, exactly one row of the fault table of `ixdtf_grammar` fits the text,
//!   and the reading function returns the error of this row (`proofs/theorems`).
//! - If all code units are 1 to 126, the result is the same for 8-bit and for 16-bit text (`proofs/widths`).
//!
//! So the layers above only have to prove that their functions do what the reading functions do.
#![tactic(auto)]

pub mod annotations;
pub mod classes;
pub mod codes;
pub mod cursor;
pub mod error_code;
pub mod letters;
pub mod looks;
pub mod stop;
