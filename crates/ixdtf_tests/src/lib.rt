//! Tests of `ixdtf` from a crate above it, which calls it like any other caller. The folder `proofs` has examples, in which the
//! prover computes with the definitions of `ixdtf`.
//!
//! The tests are in a crate of their own. So `rt check` uses the contracts of `ixdtf` for the tests, and does not prove these
//! contracts again.
#![tactic(auto)]

#[cfg(test)]
mod tests;
