//! The exit status of the program.
ghost use Rattle.std.specs.Prelude.{◌≡◌};
ghost use Rattle.ixdtf_checks.specs.Statuses.{status_of};

/// Returns the exit status: 2 if something failed, otherwise 1 if at least one line was refused, otherwise 0.
pub fn status_of(has_failed: bool, refused: u64) -> u8
    ensures { result ≡ status_of has_failed refused }
{
    if has_failed {
        2
    } else if refused == 0 {
        0
    } else {
        1
    }
}
