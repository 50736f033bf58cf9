//! This crate reads lines, and writes one answer for each line. A line is a word, a space and a text. The word names a
//! *reader*: a function of the crate `ixdtf` that parses one kind of text. The word also decides what the answer shows: the
//! value that the reader returns for the text, the canonical text of this value, or its instant. If the reader refuses the
//! text, the answer has the error of the reader.
//!
//! The function `run` reads lines from any `Read`, and writes the answers to any `Write`. The program `ixdtf_lines` does the same
//! with standard input and standard output.
#![tactic(auto)]

mod answer;
mod answer_fields;
mod canonical_answers;
mod explanations;
pub mod laws;
pub mod no_arguments;
mod outcome;
mod reader_answers;
pub mod runner;
mod word;
