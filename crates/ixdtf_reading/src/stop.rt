//! Makes the error of a reader from a `Reason`, a code and a position.

ghost use Rattle.std.specs.Prelude.{◌≡◌, ℕ, Err};
ghost use Rattle.ixdtf_grammar.specs.table.Faults.{Fault};
ghost use Rattle.ixdtf_grammar.specs.declared.reason.Reason.{Reason};
ghost use Rattle.ixdtf_reading.specs.reading.Stops.{fault_of_code};

use crate::error_code::Code;
use ixdtf_grammar::{ParseError, Reason};

/// Returns `Err(stop)`.
///
/// The attribute `cold` tells the compiler that errors are rare. Without this attribute, the compiled code prepares the value of the
/// `Reason` before it tests a code unit, even if the text has no error.
#[cold]
#[inline(always)]
pub fn stopped<R>(stop: Reason) -> Result<R, Reason>
    ensures { result ≡ Err stop }
{
    Err(stop)
}

/// A reason, the code of the error of this reason, and the position of this error.
#[derive(Clone, Copy)]
pub struct StopAt {
    /// The reason.
    pub reason: Reason,
    /// The code of the error.
    pub code: Code,
    /// The position: the number of code units before the error.
    pub at: usize,
}

/// An error that can be made from a `StopAt`: `ParseError`, or `LocatedError` with the position and the reason.
///
/// A function that can return a `ParseError` or a `LocatedError` is generic in the type of its error. This trait is the bound of that
/// type.
pub trait FromStop {
    /// Returns the `Fault` that describes an error. The type `Fault` exists only in the proof, and contracts use it to describe errors.
    ghost fault: { Self → Fault };

    /// A statement about a reason, a position and an error. For a `LocatedError` it says that the error has this reason and this
    /// position. For a `ParseError`, which has no reason and no position, it is always true.
    ghost stands: { Reason → ℕ → Self → Type 0 };

    /// Makes the error.
    fn of_stop(why: StopAt) -> Self
        ensures fault { fault result ≡ fault_of_code why.code }
        ensures place { stands why.reason why.at result };
}

impl FromStop for ParseError {
    ghost use Rattle.ixdtf_grammar.specs.table.Faults.{fault_of, stands_anywhere};

    ghost fault = { fault_of };

    ghost stands = { stands_anywhere };

    /// Makes the error, without its position and its reason.
    #[inline(always)]
    fn of_stop(why: StopAt) -> ParseError {
        why.code.error()
    }
}

/// Makes the error.
///
/// The function is not inlined, so that the code of its callers stays small. The function is generic, so the compiler knows the
/// body of the function when it compiles a caller. If the caller does not use the error, the compiler can remove the call.
#[cold]
#[inline(never)]
pub fn error_of_stop<E: FromStop>(why: StopAt) -> E
    ensures fault { E.fault result ≡ fault_of_code why.code }
    ensures place { E.stands why.reason why.at result }
{
    E::of_stop(why)
}
