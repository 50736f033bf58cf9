//! The function that consumes code units of one class.

ghost use Rattle.std.specs.Prelude.{◌≡◌, ◌+◌, ◌≤◌, length, drop, IfOk, IsSome};
ghost use Rattle.ixdtf_grammar.specs.language.Letters.{Class};
ghost use Rattle.ixdtf_reading.specs.reading.Clauses.{Spends};
ghost use Rattle.ixdtf_reading.specs.reading.Runs.{PassesOver, found_in};

use crate::cursor::Cursor;
use ixdtf_grammar::Reason;
use ixdtf_grammar::encoding::EncodingType;

/// A class of code units, such as the class of the code units that a key can contain.
pub trait Letters {
    /// The class. It exists only in the proof.
    ghost class: { Class };

    /// Returns whether the class contains the code unit `byte`.
    fn has(byte: u8) -> bool
        ensures { result ≡ class byte };
}

/// Consumes code units as long as they are in the class.
///
/// Returns the next code unit, which is not consumed. Returns `None` at the end of the input, and `stop` at a bad code unit.
#[inline(always)]
pub fn pass_letters<'a, T: EncodingType, S: Letters>(
    cursor: &mut Cursor<'a, T>,
    stop: Reason,
) -> Result<Option<u8>, Reason>
    ensures letters { PassesOver T.letter stop cursor.old result cursor.new S.class }
    ensures looks { Spends 1 cursor.old cursor.new }
    ensures stays { IfOk result (λ next. IsSome next →
        length (drop 1 cursor.new.rest) + 1 ≡ length cursor.new.rest) }
    ensures shorter { length cursor.new.rest ≤ length cursor.old.rest }
{
    let mut here = cursor.fork();
    // Each round has up to four accesses. They need only one test of the length, and the compiled code moves the cursor
    // once.
    let found = loop {
        if here.remaining() >= 4 {
            let first = here.look(stop);
            if !goes_on::<S>(first) {
                break first;
            }
            here.advance();
            let second = here.look(stop);
            if !goes_on::<S>(second) {
                break second;
            }
            here.advance();
            let third = here.look(stop);
            if !goes_on::<S>(third) {
                break third;
            }
            here.advance();
            let fourth = here.look(stop);
            if !goes_on::<S>(fourth) {
                break fourth;
            }
            here.advance();
            continue;
        }
        let last = here.look(stop);
        if !goes_on::<S>(last) {
            break last;
        }
        here.advance();
    };
    *cursor = here;
    found
}

/// Returns whether a code unit was read, and is in the class.
#[inline(always)]
fn goes_on<S: Letters>(found: Result<Option<u8>, Reason>) -> bool
    ensures { result ≡ found_in S.class found }
{
    match found {
        Ok(Some(byte)) => S::has(byte),
        Ok(None) | Err(_) => false,
    }
}
