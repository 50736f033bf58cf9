//! Functions that read the number of a group, and store it.

ghost use Rattle.std.specs.Prelude.{◌≡◌, ◌+◌, ◌-◌, ◌*◌, ◌≤◌, ◌<◌, length, nat_le, slice_set, OnOk, IfOk, IsTrue};
ghost use Rattle.ixdtf_grammar.specs.language.Letters.{digit};
ghost use Rattle.ixdtf_grammar.specs.language.Durations.{greatest_value};
ghost use Rattle.ixdtf_reading.specs.reading.Clauses.{Spends, Checks};
ghost use Rattle.ixdtf_durations.specs.reading.DurationClauses.{ReadsNumber};

use ixdtf_grammar::Reason;
use ixdtf_grammar::encoding::EncodingType;
use ixdtf_reading::cursor::Cursor;
use std::marker::Model;

/// A number, and the code unit after it, which is not a digit and has not been consumed.
#[derive(Clone, Copy)]
pub struct Number {
    pub value: u64,
    pub next: u8,
}

/// Returns the number with one more digit, or `past` if it overflows.
#[inline(always)]
#[tactic(auto, unfolding(ixdtf_grammar::specs::language::Durations::greatest_value))]
fn add_digit(value: u64, byte: u8, past: Reason) -> Result<u64, Reason>
    requires digit { IsTrue (digit byte) }
    ensures { Checks (λ sum. sum) result (value * 10 + (byte - 48))
        (nat_le (value * 10 + (byte - 48)) greatest_value) past }
{
    match value.checked_mul(10) {
        None => Err(past),
        Some(tens) => match tens.checked_add(u64::from(byte - b'0')) {
            None => Err(past),
            Some(sum) => Ok(sum),
        },
    }
}

/// Consumes the digits of a number after the first one.
///
/// Returns the number, and the code unit after it, which is not consumed. Returns `digits` at the end of the input and at
/// a bad code unit, and `past` after the digit with which the number becomes 2^64 or more.
#[inline(always)]
pub fn parse_number<'a, T: EncodingType>(
    cursor: &mut Cursor<'a, T>,
    first: u8,
    digits: Reason,
    past: Reason,
) -> Result<Number, Reason>
    requires digit { IsTrue (digit first) }
    ensures number { ReadsNumber T.letter first digits past cursor.old result cursor.new }
    ensures small { IfOk result (λ number. IsTrue (nat_le number.value greatest_value)) }
    ensures more { OnOk result (1 ≤ length cursor.new.rest) }
    ensures looks { Spends 1 cursor.old cursor.new }
{
    let mut value = u64::from(first - b'0');
    while let Some(byte) = cursor.look(digits)? {
        if !byte.is_ascii_digit() {
            return Ok(Number { value, next: byte });
        }
        let grown = add_digit(value, byte, past);
        cursor.advance();
        value = grown?;
    }
    Err(digits)
}

/// Stores the number of a group in `values`. The index is the rank of the unit of the group.
#[inline(always)]
pub fn keep_number(values: &mut [u64], rank: u8, number: u64)
    requires { rank < length values.old }
    ensures { values.new ≡ slice_set values.old rank number }
{
    let place = usize::from(rank);
    // The index is always in range, as the proof shows. The compiler does not know the proof: because of this test, it
    // compiles no code for a panic.
    if place < values.len() {
        values[place] = number;
    }
}
