//! Functions that write 16-bit code units into a slice.
ghost use Rattle.std.specs.Prelude.{◌∷◌, [], map};
ghost use Rattle.ixdtf.specs.language.Letters.{Plain};
ghost use Rattle.ixdtf_print.specs.Prints.{HasRoom, Prints};

/// Writes each byte as a 16-bit code unit, from index `at` on. Returns the index after them.
pub fn put_wide(out: &mut [u16], at: usize, bytes: &[u8]) -> usize
    requires { HasRoom out.old at (map Plain bytes.now) }
    ensures { Prints out.old out.new at result (map Plain bytes.now) }
{
    let mut place = at;
    for byte in bytes {
        place = put_unit(out, place, u16::from(*byte));
    }
    place
}

/// Writes the code units from index `at` on. Returns the index after them.
#[inline]
pub fn put_units(out: &mut [u16], at: usize, units: &[u16]) -> usize
    requires { HasRoom out.old at (map Plain units.now) }
    ensures { Prints out.old out.new at result (map Plain units.now) }
{
    let mut place = at;
    for unit in units {
        place = put_unit(out, place, *unit);
    }
    place
}

/// Writes the code unit at index `at`. Returns the index after it.
#[tactic(auto, using(crate::proofs::code::PutBytes::puts_byte))]
pub fn put_unit(out: &mut [u16], at: usize, unit: u16) -> usize
    requires { HasRoom out.old at (Plain unit ∷ []) }
    ensures { Prints out.old out.new at result (Plain unit ∷ []) }
{
    // The index is always in the slice, as the proof shows. The compiler does not know the proof: because of this test,
    // it compiles no code for a panic.
    if at < out.len() {
        out[at] = unit;
    }
    at + 1
}
