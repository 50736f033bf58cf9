//! Functions that read names of time zones, and the first bracket after a date or a time. The first bracket is a zone
//! or an annotation.
//!
//! This is a layer of the library `ixdtf`, above `ixdtf_grammar`, `ixdtf_reading` and `ixdtf_times`. It uses
//! `ixdtf_times`, because an offset can be in a bracket. The module `zone` reads a name or an offset without seconds.
//! The module `brackets` reads the first bracket. The module `exact_zones` tests whether the zone in the first bracket
//! has the form of RFC 9557. `ixdtf_reading::annotations` reads the later brackets.
//!
//! A *reading function* is a definition in `specs/reading` of `ixdtf_reading`: it says which result a function of the
//! code must have for each list of code units. This crate proves that the functions do what their reading functions do.
//! It also proves, for each function that reads code units, a limit for the number of its accesses to code units.
#![tactic(auto)]

pub mod brackets;
pub mod exact_zones;
pub mod zone;
