//! Calls `ixdtf` from a crate above it. The crate has the calls that the README and `docs/CALLING.md` show, and names every public
//! item.
#![tactic(auto)]

#[cfg(test)]
mod callers;
