//! Functions that read dates, year-months, month-days, times and offsets.
//!
//! This is a layer of the library `ixdtf`, above `ixdtf_grammar` and `ixdtf_reading`. The code first tries to read a date
//! or a time in *fixed columns*: each digit and each separator must be at a fixed index. If the text does not fit these
//! columns, the code reads one number after another.
//!
//! The contract of a function promises two things to the layers above. First, the function does what its reading
//! function does. A *reading function* is a definition in `specs/reading` of `ixdtf_reading`. Second, the function
//! accesses code units at most a certain number of times.
#![tactic(auto)]

pub mod date_times;
pub mod dates;
pub mod months;
pub mod offsets;
pub mod rfc3339;
pub mod time;
