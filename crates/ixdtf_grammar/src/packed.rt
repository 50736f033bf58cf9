//! Numbers that need no alignment.

ghost use Rattle.std.specs.Prelude.{◌≡◌, ℕ, nat_eq};
ghost use Rattle.std.specs.Cmp.Rules.{comparing, hashing};
ghost use Rattle.std.specs.Hash as fed;
ghost use Rattle.std.proofs.Common.{rules};

use std::fmt;
use std::hash::{Hash, Hasher};
use std::marker::Model;

/// A number below 2^64, stored as its eight bytes, the lowest byte first.
///
/// A packed number needs no alignment. So a record has no padding before a packed number.
#[derive(Clone, Copy)]
pub struct PackedNumber {
    bytes: [u8; 8],
}

impl Model for PackedNumber {
    ghost use Rattle.std.specs.Prelude.{◌≡◌, ℕ};
    ghost use Rattle.std.specs.Int.{w64, to_le_bytes, from_le_bytes};

    ghost Value = { ℕ };

    ghost view = { λ n. from_le_bytes w64 n.bytes };

    ghost invariant = { λ n. to_le_bytes w64 (from_le_bytes w64 n.bytes) ≡ n.bytes };

    ghost inverse = { λ n. record { bytes = to_le_bytes w64 n } };

    ghost inverse_ok = { λ n whole i. record { bytes = whole i } };
}

impl PackedNumber {
    /// Packs a number.
    #[inline(always)]
    pub fn of(number: u64) -> PackedNumber
        ensures { result ≡ number }
    {
        PackedNumber {
            bytes: number.to_le_bytes(),
        }
    }

    /// Returns the number.
    #[inline(always)]
    pub fn number(self) -> u64
        ensures { result ≡ self }
    {
        u64::from_le_bytes(self.bytes)
    }
}

impl PartialEq for PackedNumber {
    ghost eq = { nat_eq };

    ghost laws = { Prim.search (comparing, rules) };

    /// Returns whether the numbers are equal.
    #[inline(always)]
    fn eq(&self, other: &PackedNumber) -> bool {
        self.number() == other.number()
    }
}

impl Eq for PackedNumber {
    ghost laws = { Prim.search (comparing, rules) };
}

impl Hash for PackedNumber {
    ghost hash_input = { fed.u64 };

    ghost respects_eq = { Prim.search (hashing, rules) };

    /// Hashes the number like a `u64`.
    fn hash<H: Hasher>(&self, state: &mut H) {
        self.number().hash(state);
    }
}

impl fmt::Debug for PackedNumber {
    /// Writes the number like a `u64`.
    fn fmt<W: fmt::Write>(&self, f: &mut fmt::Formatter<W>) -> fmt::Result {
        fmt::Debug::fmt(&self.number(), f)
    }
}
