//! Whether the program accepts the number of words after its name. It accepts none.
ghost use Rattle.std.specs.Prelude.{◌≡◌, ◌↔◌, IsTrue};

/// Returns whether the program accepts this number of words after its name. It accepts only 0.
pub fn arguments_allowed(count: usize) -> bool
    ensures { IsTrue result ↔ (count ≡ 0) }
{
    count == 0
}
