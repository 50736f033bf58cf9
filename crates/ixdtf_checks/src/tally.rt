//! The counts of a check.
ghost use Rattle.std.specs.Prelude.{◌≡◌, ◌+◌, ◌-◌, ◌^◌, min, if◌then◌else◌};

/// The number of lines, the number of refused lines, and the number of bytes that were read.
#[derive(Clone, Copy, Debug, PartialEq)]
pub struct Tally {
    /// The number of lines.
    pub lines: u64,
    /// The number of refused lines.
    pub refused: u64,
    /// The number of bytes that were read.
    pub bytes: u64,
}

impl Tally {
    /// Returns counts of zero.
    pub fn new() -> Tally
        ensures lines { result.lines ≡ 0 }
        ensures refused { result.refused ≡ 0 }
        ensures bytes { result.bytes ≡ 0 }
    {
        Tally {
            lines: 0,
            refused: 0,
            bytes: 0,
        }
    }

    /// Counts one more line. A count that would overflow stays at `u64::MAX`.
    pub fn add_line(&mut self, is_refused: bool)
        ensures lines { self.new.lines ≡ min (self.old.lines + 1) (2 ^ 64 - 1) }
        ensures refused { self.new.refused
            ≡ min (self.old.refused + (if is_refused then 1 else 0)) (2 ^ 64 - 1) }
        ensures bytes { self.new.bytes ≡ self.old.bytes }
    {
        self.lines = self.lines.saturating_add(1);
        self.refused = self.refused.saturating_add(u64::from(is_refused));
    }

    /// Adds the counts of another file. A count that would overflow becomes `u64::MAX`.
    pub fn add(&mut self, other: Tally)
        ensures lines { self.new.lines ≡ min (self.old.lines + other.lines) (2 ^ 64 - 1) }
        ensures refused { self.new.refused ≡ min (self.old.refused + other.refused) (2 ^ 64 - 1) }
        ensures bytes { self.new.bytes ≡ min (self.old.bytes + other.bytes) (2 ^ 64 - 1) }
    {
        self.lines = self.lines.saturating_add(other.lines);
        self.refused = self.refused.saturating_add(other.refused);
        self.bytes = self.bytes.saturating_add(other.bytes);
    }
}
