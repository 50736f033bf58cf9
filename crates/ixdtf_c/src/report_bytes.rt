//! A function that adds bytes to a text in an array of the caller.

ghost use Rattle.ixdtf_c.specs.Adding.{Adds};

/// Writes `bytes` to the array, from index `at` on, if they fit. Returns `at` plus the number of the bytes, even if the bytes do
/// not fit.
///
/// A function can add the parts of a text one after the other. The `at` of each call is then the number that the call before it
/// returned. If the first call gets 0, the last call returns the length of the whole text, even if the array is empty.
pub fn add(out: &mut [u8], at: usize, bytes: &[u8]) -> usize
    ensures { Adds out.old out.new at result bytes.now }
{
    let end = at.saturating_add(bytes.len());
    if at > out.len() || bytes.len() > out.len() - at {
        return end;
    }
    out[at..end].copy_from_slice(bytes);
    end
}
