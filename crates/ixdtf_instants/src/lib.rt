//! Instants, and the conversion between dates and numbers of days since 1970-01-01.
//!
//! The library `ixdtf` consists of several crates. This crate is the lowest of them, and it uses only the standard library.
//! Callers use the crate `ixdtf`, which re-exports [`Instant`].
//!
//! - `specs/Calendar` defines the day number of a date. The definition adds up the lengths of the years and the months
//!   before the date.
//! - `specs/CivilDates` defines the date that has a given day number. The definition counts day by day from
//!   1 January 1970 to this date.
//! - `specs/Counts` defines the number of nanoseconds from 1970-01-01T00:00:00Z to an instant.
//! - `specs/Texts` defines the text of an instant.
#![tactic(auto)]

pub mod civil;
pub mod days;
mod display;
mod instant;

pub use instant::Instant;
