//! The date part of a duration: groups of years, months, weeks and days.

ghost use Rattle.std.specs.Prelude.{◌≡◌, ◌+◌, ◌≤◌, [], ◌∷◌, map, length, nat_le, Err, OnOk, IfOk, IfErr, IsTrue};
ghost use Rattle.ixdtf_grammar.specs.language.Letters.{digit};
ghost use Rattle.ixdtf_grammar.specs.language.Letters.Letter.{Plain};
ghost use Rattle.ixdtf_grammar.specs.language.Durations.{greatest_value};
ghost use Rattle.ixdtf_grammar.specs.language.Durations.Half.{date};
ghost use Rattle.ixdtf_grammar.specs.declared.records.Sign.{Sign};
ghost use Rattle.ixdtf_grammar.specs.table.DurationFronts.Context.{in_dates};
ghost use Rattle.ixdtf_reading.specs.reading.Clauses.{Spends, Yields};
ghost use Rattle.ixdtf_reading.specs.reading.Durations.State.{in_number};
ghost use Rattle.ixdtf_durations.specs.reading.DurationClauses.{run_from, AreDates, HasSmallDates, IsDateRecord, rank_seen, date_rank_from, behind_unit};

use crate::group_numbers::{Number, keep_number, parse_number};
use ixdtf_grammar::Reason;
use ixdtf_grammar::encoding::EncodingType;
use ixdtf_grammar::profile::Profile;
use ixdtf_grammar::records::DateDurationRecord;
use ixdtf_reading::classes::is_time_designator;
use ixdtf_reading::cursor::Cursor;
use std::marker::Model;

// The greatest number of years, of months and of weeks.
const MOST_OF_LONG_UNITS: u64 = 0xffff_ffff;

// The rank of the date unit that a letter names: years have 1, months 2, weeks 3 and days 4. Any other code unit has 0.
#[rattlefmt::skip]
static DATE_RANKS: [u8; 256] = [
    0, 0, 0, 0, 0, 0, 0, 0, 0, 0, 0, 0, 0, 0, 0, 0,
    0, 0, 0, 0, 0, 0, 0, 0, 0, 0, 0, 0, 0, 0, 0, 0,
    0, 0, 0, 0, 0, 0, 0, 0, 0, 0, 0, 0, 0, 0, 0, 0,
    0, 0, 0, 0, 0, 0, 0, 0, 0, 0, 0, 0, 0, 0, 0, 0,
    0, 0, 0, 0, 4, 0, 0, 0, 0, 0, 0, 0, 0, 2, 0, 0, // @ to O
    0, 0, 0, 0, 0, 0, 0, 3, 0, 1, 0, 0, 0, 0, 0, 0, // P to _
    0, 0, 0, 0, 4, 0, 0, 0, 0, 0, 0, 0, 0, 2, 0, 0, // ` to o
    0, 0, 0, 0, 0, 0, 0, 3, 0, 1, 0, 0, 0, 0, 0, 0, // p to the last
    0, 0, 0, 0, 0, 0, 0, 0, 0, 0, 0, 0, 0, 0, 0, 0,
    0, 0, 0, 0, 0, 0, 0, 0, 0, 0, 0, 0, 0, 0, 0, 0,
    0, 0, 0, 0, 0, 0, 0, 0, 0, 0, 0, 0, 0, 0, 0, 0,
    0, 0, 0, 0, 0, 0, 0, 0, 0, 0, 0, 0, 0, 0, 0, 0,
    0, 0, 0, 0, 0, 0, 0, 0, 0, 0, 0, 0, 0, 0, 0, 0,
    0, 0, 0, 0, 0, 0, 0, 0, 0, 0, 0, 0, 0, 0, 0, 0,
    0, 0, 0, 0, 0, 0, 0, 0, 0, 0, 0, 0, 0, 0, 0, 0,
    0, 0, 0, 0, 0, 0, 0, 0, 0, 0, 0, 0, 0, 0, 0, 0,
];

/// Returns the rank of the date unit that the code unit names: 1 for years, 2 for months, 3 for weeks and 4 for days.
/// Returns 0 for any other code unit.
#[inline(always)]
fn date_rank(letter: u8) -> u8
    ensures rank { result ≡ rank_seen date letter }
    ensures small { result ≤ 4 }
{
    DATE_RANKS[letter as usize]
}

/// Consumes the letter of a date unit after a number, and returns the rank of the unit.
///
/// Returns `DateGroupDigits` at any other code unit, which is not consumed. Returns `DateUnitOrder` if the rank is less
/// than `least`, and `DateUnitRange` if the number is too great for the unit.
#[inline(always)]
#[tactic(auto, using(crate::proofs::code::DurationSteps::letters_left))]
fn take_date_unit<'a, T: EncodingType>(
    cursor: &mut Cursor<'a, T>,
    number: Number,
    least: u8,
) -> Result<u8, Reason>
    requires least { 1 ≤ least }
    requires small { IsTrue (nat_le number.value greatest_value) }
    requires more { 1 ≤ length cursor.old.rest }
    ensures rank { Yields (λ rank. rank) result (date_rank_from least number) }
    ensures small { IfOk result (λ rank. rank ≤ 4) }
    ensures left { map T.letter cursor.new.rest ≡
        behind_unit date number.next (map T.letter cursor.old.rest) }
    ensures taken { OnOk result (length cursor.new.rest + 1 ≡ length cursor.old.rest) }
    ensures shorter { length cursor.new.rest ≤ length cursor.old.rest }
    ensures looks { cursor.new.looks ≡ cursor.old.looks }
{
    let rank = date_rank(number.next);
    if rank < least {
        if rank == 0 {
            return Err(Reason::DateGroupDigits);
        }
        cursor.advance_by(1);
        return Err(Reason::DateUnitOrder);
    }
    cursor.advance_by(1);
    if number.value > MOST_OF_LONG_UNITS && rank < 4 {
        return Err(Reason::DateUnitRange);
    }
    Ok(rank)
}

/// Returns the record of the numbers of date groups. The index of a number is the rank of its unit.
#[inline(always)]
fn date_record(values: [u64; 5]) -> DateDurationRecord
    requires small { HasSmallDates values }
    ensures { IsDateRecord values result }
{
    DateDurationRecord {
        years: values[1] as u32,
        months: values[2] as u32,
        weeks: values[3] as u32,
        days: values[4],
    }
}

/// The date groups that were read, and whether a `T` followed them. The `T` has been consumed.
#[derive(Clone, Copy)]
pub struct Dates {
    pub record: DateDurationRecord,
    pub timed: bool,
}

/// Reads date groups after their first digit, and then the end of the input or a `T`.
#[inline(always)]
pub fn parse_dates<'a, T: EncodingType>(
    cursor: &mut Cursor<'a, T>,
    first: u8,
    profile: Profile,
) -> Result<Dates, Reason>
    requires digit { IsTrue (digit first) }
    ensures dates { IfOk result
        (λ dates. AreDates profile T.letter first cursor.old.rest dates cursor.new.rest) }
    ensures refused { IfErr result (λ e. (s : Sign) →
        run_from profile (in_number (in_dates s []) (Plain first ∷ []))
        (map T.letter cursor.old.rest)
        ≡ Err (e, map T.letter cursor.new.rest)) }
    ensures looks { Spends 1 cursor.old cursor.new }
{
    let mut values = [0; 5];
    let mut least = 1;
    let mut digit = first;
    loop {
        let number = parse_number(
            cursor,
            digit,
            Reason::DateGroupDigits,
            Reason::DateGroupRange,
        )?;
        let rank = take_date_unit(cursor, number, least)?;
        keep_number(&mut values, rank, number.value);
        least = rank + profile.least_step();
        match cursor.look(Reason::AfterDateGroups)? {
            None => {
                return Ok(Dates {
                    record: date_record(values),
                    timed: false,
                });
            }
            Some(byte) if byte.is_ascii_digit() => {
                cursor.advance();
                digit = byte;
            }
            Some(byte) if is_time_designator(byte) => {
                cursor.advance();
                return Ok(Dates {
                    record: date_record(values),
                    timed: true,
                });
            }
            Some(_) => return Err(Reason::AfterDateGroups),
        }
    }
}
