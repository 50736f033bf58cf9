//! The verdict on a line.
ghost use Rattle.std.specs.Prelude.{◌≡◌, ℕ, List, if◌then◌else◌};

use crate::cause::Cause;
use crate::request::Task;
use ixdtf::Instant;

/// The greatest length of a line that is read, in bytes.
pub const LINE_LIMIT: usize = 65536;

/// The verdict on a line.
#[derive(Clone, Copy)]
pub enum Verdict<'a> {
    /// The text of the line is accepted.
    Accepted,
    /// The text of the line is accepted, and names this instant. The instant is not before the previous instant. The previous
    /// instant is that of the nearest preceding line whose text names an instant.
    Timed(Instant),
    /// The text of the line is accepted, and its canonical text is printed.
    Printed,
    /// The line has no text, and is skipped.
    Skipped,
    /// The line is refused for this cause.
    Refused(Cause<'a>),
}

impl Verdict<'_> {
    ghost use Rattle.ixdtf_checks.specs.Order.{latest};
    ghost use Rattle.ixdtf_checks.specs.Reports.{goes_to_second, instant_in, refusal_count};
    ghost use Rattle.ixdtf_checks.specs.Seen.{seen};

    /// Returns whether the line is refused.
    pub fn is_refused(&self) -> bool
        ensures { (printed : List ℕ) → refusal_count (seen printed self.now) ≡ (if result then 1 else 0) }
    {
        matches!(self, Verdict::Refused(_))
    }

    /// Returns whether the report of the line goes to the second output: the line is refused, and the task prints canonical texts.
    pub fn goes_to_second(&self, task: Task) -> bool
        ensures { (printed : List ℕ) → goes_to_second task (seen printed self.now) ≡ result }
    {
        matches!((self, task), (Verdict::Refused(_), Task::Print(_)))
    }

    /// If the verdict has an instant, writes it to `last`. Otherwise `last` is unchanged.
    pub fn keep_instant(&self, last: &mut Option<Instant>)
        ensures { (printed : List ℕ) → last.new ≡ latest (instant_in (seen printed self.now)) last.old }
    {
        match self {
            Verdict::Timed(instant) => *last = Some(*instant),
            Verdict::Refused(Cause::Early(instant, _)) => *last = Some(*instant),
            Verdict::Refused(
                Cause::TooLong
                | Cause::NoField(_)
                | Cause::Broken(_, _)
                | Cause::Untimed(_)
                | Cause::Unread(_),
            ) => {}
            Verdict::Accepted | Verdict::Printed | Verdict::Skipped => {}
        }
    }
}
