//! Tests of the crates that the programs `ixdtf_lines` and `ixdtf_check` use.
//!
//! The tests are in a crate of their own. So `rt check` uses the contracts of those crates for the tests, and does not prove these
//! contracts again.
#![tactic(auto)]

#[cfg(test)]
mod check;
#[cfg(test)]
mod lines;
