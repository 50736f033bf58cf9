//! The time part of a duration: groups of hours, minutes and seconds. The last group can have a fraction.

ghost use Rattle.std.specs.Prelude.{◌≡◌, ◌+◌, ◌≤◌, List, [], ◌∷◌, map, length, Ok, Some, OnOk, IfOk, IsTrue, IsSome};
ghost use Rattle.ixdtf_grammar.specs.declared.profile.Profile.{Profile};
ghost use Rattle.ixdtf_grammar.specs.language.Letters.{Text, digit};
ghost use Rattle.ixdtf_grammar.specs.language.Letters.Letter.{Plain};
ghost use Rattle.ixdtf_grammar.specs.language.Digits.{decimal};
ghost use Rattle.ixdtf_grammar.specs.language.Durations.{Group, date_duration};
ghost use Rattle.ixdtf_grammar.specs.language.Durations.Half.{time};
ghost use Rattle.ixdtf_grammar.specs.declared.records.Sign.{Sign};
ghost use Rattle.ixdtf_grammar.specs.table.DurationFronts.Context.{in_times};
ghost use Rattle.ixdtf_reading.specs.reading.Clauses.{Spends, Yields};
ghost use Rattle.ixdtf_reading.specs.reading.Durations.State.{in_number, at_mark};
ghost use Rattle.ixdtf_durations.specs.reading.DurationClauses.{ReadsOn, IsTimeRecord, rank_seen, time_rank_from, after_time_group, behind_unit, dated};

use crate::group_numbers::{keep_number, parse_number};
use ixdtf_grammar::Reason;
use ixdtf_grammar::encoding::EncodingType;
use ixdtf_grammar::profile::Profile;
use ixdtf_grammar::records::{Fraction, TimeDurationRecord};
use ixdtf_reading::classes::is_decimal_separator;
use ixdtf_reading::cursor::Cursor;
use ixdtf_times::time::parse_fraction;
use std::marker::Model;

// The rank of the time unit that a letter names: hours have 1, minutes 2 and seconds 3. Any other code unit has 0.
#[rattlefmt::skip]
static TIME_RANKS: [u8; 256] = [
    0, 0, 0, 0, 0, 0, 0, 0, 0, 0, 0, 0, 0, 0, 0, 0,
    0, 0, 0, 0, 0, 0, 0, 0, 0, 0, 0, 0, 0, 0, 0, 0,
    0, 0, 0, 0, 0, 0, 0, 0, 0, 0, 0, 0, 0, 0, 0, 0,
    0, 0, 0, 0, 0, 0, 0, 0, 0, 0, 0, 0, 0, 0, 0, 0,
    0, 0, 0, 0, 0, 0, 0, 0, 1, 0, 0, 0, 0, 2, 0, 0, // @ to O
    0, 0, 0, 3, 0, 0, 0, 0, 0, 0, 0, 0, 0, 0, 0, 0, // P to _
    0, 0, 0, 0, 0, 0, 0, 0, 1, 0, 0, 0, 0, 2, 0, 0, // ` to o
    0, 0, 0, 3, 0, 0, 0, 0, 0, 0, 0, 0, 0, 0, 0, 0, // p to the last
    0, 0, 0, 0, 0, 0, 0, 0, 0, 0, 0, 0, 0, 0, 0, 0,
    0, 0, 0, 0, 0, 0, 0, 0, 0, 0, 0, 0, 0, 0, 0, 0,
    0, 0, 0, 0, 0, 0, 0, 0, 0, 0, 0, 0, 0, 0, 0, 0,
    0, 0, 0, 0, 0, 0, 0, 0, 0, 0, 0, 0, 0, 0, 0, 0,
    0, 0, 0, 0, 0, 0, 0, 0, 0, 0, 0, 0, 0, 0, 0, 0,
    0, 0, 0, 0, 0, 0, 0, 0, 0, 0, 0, 0, 0, 0, 0, 0,
    0, 0, 0, 0, 0, 0, 0, 0, 0, 0, 0, 0, 0, 0, 0, 0,
    0, 0, 0, 0, 0, 0, 0, 0, 0, 0, 0, 0, 0, 0, 0, 0,
];

/// Returns the rank of the time unit that the code unit names: 1 for hours, 2 for minutes and 3 for seconds. Returns 0
/// for any other code unit.
#[inline(always)]
fn time_rank(letter: u8) -> u8
    ensures rank { result ≡ rank_seen time letter }
    ensures small { result ≤ 3 }
{
    TIME_RANKS[letter as usize]
}

/// A time group: a number, its fraction, and the code unit after them, which has not been consumed.
#[derive(Clone, Copy)]
pub struct TimeGroup {
    pub value: u64,
    pub fraction: Option<Fraction>,
    pub letter: u8,
}

/// Consumes the letter of a time unit, and returns the rank of the unit.
///
/// Returns `digits` at any other code unit, which is not consumed. Returns `TimeUnitOrder` if the rank is less than
/// `least`.
#[inline(always)]
#[tactic(auto, using(crate::proofs::code::DurationSteps::letters_left))]
fn take_time_unit<'a, T: EncodingType>(
    cursor: &mut Cursor<'a, T>,
    letter: u8,
    least: u8,
    digits: Reason,
) -> Result<u8, Reason>
    requires least { 1 ≤ least }
    requires more { 1 ≤ length cursor.old.rest }
    ensures rank { Yields (λ rank. rank) result (time_rank_from digits least letter) }
    ensures small { IfOk result (λ rank. rank ≤ 3) }
    ensures left { map T.letter cursor.new.rest ≡
        behind_unit time letter (map T.letter cursor.old.rest) }
    ensures taken { OnOk result (length cursor.new.rest + 1 ≡ length cursor.old.rest) }
    ensures shorter { length cursor.new.rest ≤ length cursor.old.rest }
    ensures looks { cursor.new.looks ≡ cursor.old.looks }
{
    let rank = time_rank(letter);
    if rank < least {
        if rank == 0 {
            return Err(digits);
        }
        cursor.advance_by(1);
        return Err(Reason::TimeUnitOrder);
    }
    cursor.advance_by(1);
    Ok(rank)
}

/// Returns the record of the numbers of time groups. The index of a number is the rank of its unit. The rank of the
/// unit of the last group decides the variant.
#[inline(always)]
fn time_record(values: [u64; 4], rank: u8, fraction: Option<Fraction>) -> TimeDurationRecord
    requires rank { 1 ≤ rank }
    ensures { IsTimeRecord values rank fraction result }
{
    match rank {
        1 => TimeDurationRecord::Hours {
            hours: values[1],
            fraction,
        },
        2 => TimeDurationRecord::Minutes {
            hours: values[1],
            minutes: values[2],
            fraction,
        },
        _ => TimeDurationRecord::Seconds {
            hours: values[1],
            minutes: values[2],
            seconds: values[3],
            fraction,
        },
    }
}

/// Reads the digits of a fraction after its `.` or `,`. Returns the fraction, and the code unit after it, which is not
/// consumed.
#[inline(always)]
fn parse_fraction_group<'a, T: EncodingType>(
    cursor: &mut Cursor<'a, T>,
    value: u64,
) -> Result<TimeGroup, Reason>
    ensures group { (profile : Profile) (s : Sign) (dates times : List Group) (ds : Text) →
        value ≡ decimal ds → ReadsOn T.letter profile (at_mark s dates times ds)
        cursor.old result cursor.new (after_time_group profile s dates times) }
    ensures fraction { IfOk result (λ g. IsSome g.fraction) }
    ensures more { OnOk result (1 ≤ length cursor.new.rest) }
    ensures looks { Spends 3 cursor.old cursor.new }
{
    let fraction = parse_fraction(
        cursor,
        Reason::GroupFractionStart,
        Reason::GroupFractionDigits,
    )?;
    match cursor.look(Reason::GroupFractionDigits)? {
        None => Err(Reason::GroupFractionDigits),
        Some(letter) => Ok(TimeGroup {
            value,
            fraction: Some(fraction),
            letter,
        }),
    }
}

/// Reads time groups after their first digit, and expects the end of the input.
///
/// No group can follow a group with a fraction. So only the last group can have a fraction. For a group without a
/// fraction, the function does not make a `TimeGroup`. So it does not have to copy the field for the fraction.
#[inline(always)]
pub fn parse_time_groups<'a, T: EncodingType>(
    cursor: &mut Cursor<'a, T>,
    first: u8,
    profile: Profile,
) -> Result<TimeDurationRecord, Reason>
    requires digit { IsTrue (digit first) }
    ensures times { (s : Sign) (dates : List Group) →
        ReadsOn T.letter profile (in_number (in_times s dates []) (Plain first ∷ []))
        cursor.old result cursor.new
        (λ time text. Ok (dated s (date_duration dates) (Some time), text)) }
    ensures looks { Spends 4 cursor.old cursor.new }
{
    let mut values = [0; 4];
    let mut least = 1;
    let mut digit = first;
    loop {
        let whole = parse_number(
            cursor,
            digit,
            Reason::TimeGroupDigits,
            Reason::TimeGroupRange,
        )?;
        if is_decimal_separator(whole.next) {
            cursor.advance_by(1);
            let group = parse_fraction_group(cursor, whole.value)?;
            let rank = take_time_unit(cursor, group.letter, least, Reason::GroupFractionDigits)?;
            keep_number(&mut values, rank, group.value);
            match cursor.look(Reason::AfterFractionGroup)? {
                None => return Ok(time_record(values, rank, group.fraction)),
                Some(_after_fraction) => return Err(Reason::AfterFractionGroup),
            }
        }
        let rank = take_time_unit(cursor, whole.next, least, Reason::TimeGroupDigits)?;
        keep_number(&mut values, rank, whole.value);
        least = rank + profile.least_step();
        match cursor.look(Reason::AfterTimeGroups)? {
            None => return Ok(time_record(values, rank, None)),
            Some(byte) if byte.is_ascii_digit() => {
                cursor.advance();
                digit = byte;
            }
            Some(_) => return Err(Reason::AfterTimeGroups),
        }
    }
}
