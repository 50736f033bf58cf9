//! Functions that read `YYYY-MM-DDTHH:MM:SS` in the first nineteen columns of a text. The separator can also be `t` or
//! a space. Most texts begin in this form.

#![tactic(auto, unfolding(ixdtf_reading::specs::reading::FixedPlaces::fixed_readings))]

ghost use Rattle.std.specs.Prelude.{◌≡◌, ◌+◌, ◌<◌, ◌≤◌, map, length, option_map, None, IfSome};
ghost use Rattle.ixdtf_grammar.specs.declared.records.DateRecord.{DateRecord};
ghost use Rattle.ixdtf_grammar.specs.declared.records.TimeRecord.{TimeRecord};
ghost use Rattle.ixdtf_grammar.specs.language.Letters.{Text, date_time_separator};
ghost use Rattle.ixdtf_grammar.specs.language.FixedPlaces.{FixedDateTime};
ghost use Rattle.ixdtf_reading.specs.reading.Clauses.{Spends};
ghost use Rattle.ixdtf_reading.specs.reading.FixedPlaces.{letter_place, date_time_place};
ghost use Rattle.ixdtf_times.specs.TimeTypes.{time_to_second};

use crate::dates::{fixed_date, is_date};
use crate::time::{WholeTime, fixed_time};
use ixdtf_grammar::Reason;
use ixdtf_grammar::encoding::EncodingType;
use ixdtf_grammar::records::DateRecord;
use ixdtf_reading::classes::is_date_time_separator;
use ixdtf_reading::cursor::Cursor;

/// Consumes a date, a separator and a time in the first nineteen columns.
///
/// Returns `None`, and consumes nothing, if a column does not fit, if the date does not exist, or if a number of the
/// time is out of range. If fewer than nineteen code units remain, none of them is read.
#[inline(always)]
#[tactic(auto, using(ixdtf_reading::proofs::code::FixedPlaces::date_time_at_place, ixdtf_reading::proofs::code::FixedPlaces::date_time_stands))]
pub fn take_fixed_date_time<'a, T: EncodingType>(
    cursor: &mut Cursor<'a, T>,
) -> Option<(DateRecord, WholeTime)>
    ensures at_place { IfSome result (λ found. FixedDateTime (map T.letter cursor.old.rest)
        found.0 (time_to_second found.1) (map T.letter cursor.new.rest)) }
    ensures none { result ≡ None → (date : DateRecord) (time : TimeRecord) (rest : Text) →
        FixedDateTime (map T.letter cursor.old.rest) date time rest → ⊥ }
    ensures rest { result ≡ None → cursor.new.rest ≡ cursor.old.rest }
    ensures shorter { length cursor.new.rest ≤ length cursor.old.rest }
    ensures few { cursor.new.looks ≤ cursor.old.looks + 19 }
    ensures short { length cursor.old.rest < 19 → cursor.new.looks ≡ cursor.old.looks }
    ensures looks { Spends (length cursor.old.rest) cursor.old cursor.new }
{
    let found = fixed_date_time(cursor)?;
    cursor.advance_by(19);
    Some(found)
}

/// Reads a date, a separator and a time in the first nineteen columns, and consumes nothing. Returns `None` if they do
/// not fit.
#[inline(always)]
#[tactic(auto, unfolding(ixdtf_reading::specs::reading::FixedPlaces::date_time_place))]
fn fixed_date_time<'a, T: EncodingType>(
    cursor: &mut Cursor<'a, T>,
) -> Option<(DateRecord, WholeTime)>
    ensures there { option_map (λ found. (found.0, time_to_second found.1)) result ≡
        date_time_place (map T.letter cursor.old.rest) }
    ensures long { IfSome result (λ _. 19 ≤ length cursor.old.rest) }
    ensures rest { cursor.new.rest ≡ cursor.old.rest }
    ensures few { cursor.new.looks ≤ cursor.old.looks + 19 }
    ensures short { length cursor.old.rest < 19 → cursor.new.looks ≡ cursor.old.looks }
    ensures counted { cursor.old.looks ≤ cursor.new.looks }
{
    if cursor.remaining() < 19 {
        return None;
    }
    let date = fixed_date(cursor)?;
    fixed_separator(cursor, 10)?;
    let time = fixed_time(cursor)?;
    if !is_date(date) {
        return None;
    }
    Some((date, time))
}

/// Returns the code unit at index `place`, if it can separate a date from a time, and otherwise `None`.
#[inline(always)]
#[tactic(auto, using(ixdtf_reading::proofs::code::FixedPlaces::place_looked))]
fn fixed_separator<'a, T: EncodingType>(cursor: &mut Cursor<'a, T>, place: usize) -> Option<u8>
    ensures there { result ≡
        letter_place date_time_separator place (map T.letter cursor.old.rest) }
    ensures rest { cursor.new.rest ≡ cursor.old.rest }
    ensures looks { cursor.new.looks ≡ cursor.old.looks + 1 }
{
    match cursor.look_at(place, Reason::AfterDate) {
        Ok(Some(byte)) if is_date_time_separator(byte) => Some(byte),
        _ => None,
    }
}
