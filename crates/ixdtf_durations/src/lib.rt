//! Durations, such as `P1Y2M3DT4H`: the parser [`duration::IsoDurationParser`].
//!
//! This is a layer of the library `ixdtf`, above `ixdtf_grammar`, `ixdtf_reading` and `ixdtf_times`. It uses
//! `ixdtf_times`, because a duration can have a fraction. A *group* is a number and the letter of its unit. There can
//! be any number of groups. So the definitions in `specs/reading` of `ixdtf_reading` describe them with a state
//! machine, and the code reads them with loops.
//!
//! - `date_groups` reads the date part, and `time_groups` the time part. Both use `group_numbers`.
//! - `duration` puts the two parts together.
//!
//! For callers, this crate proves what the reader returns. The result is `Ok` exactly if the grammar derives a value
//! from the text. Otherwise exactly one row of the fault table fits the text, and the result is the error of this row.
//! The fault table is the table of all errors and their positions (`specs/table` of `ixdtf_grammar`).
#![tactic(auto)]

mod date_groups;
pub mod duration;
mod group_numbers;
mod time_groups;
