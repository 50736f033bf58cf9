//! Calls the readers in the way in which code of another repository calls them.

mod calling;
mod surface;

use std::process::Abort;

/// Asserts the condition of a test. `what` is shown if it is false.
fn check(rt: &impl Abort, what: &str, is_so: bool) {
    assert!(rt; is_so, "{what}");
}
