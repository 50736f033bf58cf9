//! Slices in the structs that are passed between C and Rust.

ghost use Rattle.std.specs.Prelude.{◌≡◌};

/// A slice in a struct. In C it is a pointer and a length.
pub type Slice<'a, U> = &'a [U];

/// Converts a slice of Rust into a slice for a struct that is passed to C.
#[inline(always)]
pub fn to_c<'a, U>(slice: &'a [U]) -> Slice<'a, U>
    ensures { result ≡ slice.entry }
{
    slice
}

/// Returns the slice that C passed in a struct.
///
/// If the slice is empty, C may pass `NULL` as its pointer. So for an empty slice, this function returns an empty slice of Rust
/// instead of the slice that C passed.
#[inline(always)]
pub fn from_c<'a, U>(given: Slice<'a, U>) -> &'a [U]
    ensures { result.now ≡ given.now }
{
    if given.is_empty() {
        return &[];
    }
    given
}
