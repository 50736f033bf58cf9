//! Functions that read names of time zones, and offsets without seconds that are time zones. Some of them expect the
//! end of the text after the zone, and some expect the `]` of a bracket.

#![tactic(auto, unfolding(ixdtf_reading::specs::reading::Brackets::bracket_readings))]

ghost use Rattle.std.specs.Prelude.{◌≡◌, ◌≤◌, map, length, true, Ok, IfOk};
ghost use Rattle.ixdtf_grammar.specs.language.Letters.{slash, zone_char};
ghost use Rattle.ixdtf_grammar.specs.Views.{zone_of};
ghost use Rattle.ixdtf_reading.specs.reading.Clauses.{Reads, Spends, closing_look};
ghost use Rattle.ixdtf_reading.specs.reading.Looks.{error_of, next_by, seen};
ghost use Rattle.ixdtf_reading.specs.reading.Runs.{letters_by};
ghost use Rattle.ixdtf_reading.specs.reading.Zones.{name_run, name_alone_at, iana_identifier_at, identifier_at};
ghost use Rattle.ixdtf_brackets.specs.BracketTypes.{Passes, name_after, stop_by};
ghost use Rattle.ixdtf_reading.specs.reading.Stops.{reason_of};
ghost use Rattle.ixdtf_reading.specs.reading.Times.{line_after};
ghost use Rattle.ixdtf_times.specs.TimeTypes.{shape_of};
ghost use Rattle.ixdtf_grammar.specs.language.Times.{Clock as clocks};
ghost use Rattle.ixdtf_reading.specs.reading.Brackets.{name_stop, next_is, name_in_bracket_at, offset_in_bracket_at};

use ixdtf_grammar::Reason;
use ixdtf_grammar::encoding::EncodingType;
use ixdtf_grammar::records::{TimeRecord, TimeZoneRecord};
use ixdtf_reading::classes::{
    is_annotation_close, is_ascii_sign, is_tz_char, is_tz_leading_char, is_tz_name_separator,
};
use ixdtf_reading::cursor::Cursor;
use ixdtf_reading::letters::{Letters, pass_letters};
use ixdtf_times::offsets::{minute_offset, take_last_offset};
use ixdtf_times::time::{Clock, TimeShape, close_after, parse_clock};

// ==== Names ====

/// The class of the code units that a part of a name can contain.
pub struct PartLetters;

impl Letters for PartLetters {
    ghost class = { zone_char };

    #[inline(always)]
    fn has(byte: u8) -> bool {
        is_tz_char(byte)
    }
}

/// The state while a name is read: whether the name can end here. It cannot end after a `/`.
#[derive(Clone, Copy)]
pub struct NameState {
    pub may_end: bool,
}

impl NameState {
    /// Returns the `Reason` for a code unit that cannot follow here: `AfterZoneSlash` if the name cannot end here, and
    /// otherwise `InZoneName`.
    #[inline(always)]
    pub fn stop(self) -> Reason
        ensures { result ≡ name_stop self.may_end }
    {
        if self.may_end {
            Reason::InZoneName
        } else {
            Reason::AfterZoneSlash
        }
    }
}

/// The state at the end of a name that was consumed, and the code unit after it.
#[derive(Clone, Copy)]
pub struct PassedName {
    pub state: NameState,
    pub next: Option<u8>,
}

/// Returns whether the code unit is the `/` after a part of a name.
#[inline(always)]
fn ends_part(next: Option<u8>) -> bool
    ensures { result ≡ next_is slash next }
{
    matches!(next, Some(byte) if is_tz_name_separator(byte))
}

/// Returns whether a part of a name can contain the code unit.
#[inline(always)]
fn starts_part(next: Option<u8>) -> bool
    ensures { result ≡ next_is zone_char next }
{
    matches!(next, Some(byte) if is_tz_char(byte))
}

/// Consumes the code units of a name, part by part. A `/` separates two parts.
///
/// At a bad code unit, returns `after_slash` if a `/` is directly before it, and otherwise `in_name`.
#[inline(always)]
pub fn pass_name<'a, T: EncodingType>(
    cursor: &mut Cursor<'a, T>,
    in_name: Reason,
    after_slash: Reason,
) -> Result<PassedName, Reason>
    ensures letters { Passes T.letter cursor.old result cursor.new
        (letters_by (stop_by in_name after_slash) name_after (record { may_end = true })) }
    ensures looks { Spends 1 cursor.old cursor.new }
    ensures shorter { length cursor.new.rest ≤ length cursor.old.rest }
{
    let mut here = cursor.fork();
    let passed = pass_parts(&mut here, in_name, after_slash);
    *cursor = here;
    passed
}

/// Does the work of `pass_name`, on the second cursor that `pass_name` makes. The second cursor can stay in registers.
#[inline(always)]
fn pass_parts<'a, T: EncodingType>(
    cursor: &mut Cursor<'a, T>,
    in_name: Reason,
    after_slash: Reason,
) -> Result<PassedName, Reason>
    ensures letters { Passes T.letter cursor.old result cursor.new
        (letters_by (stop_by in_name after_slash) name_after (record { may_end = true })) }
    ensures looks { Spends 1 cursor.old cursor.new }
    ensures shorter { length cursor.new.rest ≤ length cursor.old.rest }
{
    loop {
        let behind = pass_letters::<T, PartLetters>(cursor, in_name)?;
        if !ends_part(behind) {
            return Ok(PassedName {
                state: NameState { may_end: true },
                next: behind,
            });
        }
        cursor.advance();
        let next = cursor.look(after_slash)?;
        if !starts_part(next) {
            return Ok(PassedName {
                state: NameState { may_end: false },
                next,
            });
        }
        cursor.advance();
    }
}

/// A name, and the code unit after it.
#[derive(Drop)]
pub struct ReadName<'a, T: EncodingType> {
    pub units: &'a [T::CodeUnit],
    pub next: Option<u8>,
}

/// Reads a name, and returns its code units and the code unit after it. The caller has tested the first code unit.
#[inline(always)]
pub fn parse_tz_name<'a, T: EncodingType>(
    cursor: &mut Cursor<'a, T>,
) -> Result<ReadName<'a, T>, Reason>
    ensures name { Reads T.letter (λ name. map T.number name.units.now) cursor.old result cursor.new
        (name_run error_of true) }
    ensures next { IfOk result (λ name. seen Reason.InZoneName (map T.letter cursor.new.rest) ≡ Ok name.next) }
    ensures looks { Spends 1 cursor.old cursor.new }
{
    let start = cursor.rest();
    let name = pass_name(cursor, Reason::InZoneName, Reason::AfterZoneSlash)?;
    if !name.state.may_end {
        return Err(Reason::AfterZoneSlash);
    }
    let count = start.len().saturating_sub(cursor.rest().len());
    Ok(ReadName {
        units: &start[..count],
        next: name.next,
    })
}

/// Reads a name, and expects the end of the input. The caller has tested the first code unit of the name.
#[inline]
fn parse_name_alone<'a, T: EncodingType>(
    cursor: &mut Cursor<'a, T>,
) -> Result<&'a [T::CodeUnit], Reason>
    ensures name { Reads T.letter (λ units. map T.number units.now) cursor.old result cursor.new
        (name_alone_at error_of) }
    ensures looks { Spends 2 cursor.old cursor.new }
{
    let name = parse_tz_name(cursor)?;
    match name.next {
        None => Ok(name.units),
        Some(_) => Err(Reason::InZoneName),
    }
}

/// Reads a name, and expects the end of the input.
// Because of `#[inline]` here and at `parse_name_alone`, `rustc` inlines both into the printer. Otherwise the printer takes a tenth
// more instructions for a record with the name of a zone.
#[inline]
pub fn parse_iana_identifier_text<'a, T: EncodingType>(
    cursor: &mut Cursor<'a, T>,
) -> Result<&'a [T::CodeUnit], Reason>
    ensures name { Reads T.letter (λ units. map T.number units.now) cursor.old result cursor.new
        (iana_identifier_at error_of) }
    ensures looks { Spends 3 cursor.old cursor.new }
{
    match cursor.look(Reason::ZoneNameStart)? {
        Some(byte) if is_tz_leading_char(byte) => parse_name_alone(cursor),
        _ => Err(Reason::ZoneNameStart),
    }
}

/// Reads a name, or an offset without seconds, and expects the end of the input.
pub fn parse_identifier_text<'a, T: EncodingType>(
    cursor: &mut Cursor<'a, T>,
) -> Result<TimeZoneRecord<'a, T>, Reason>
    ensures zone { Reads T.letter (zone_of T.number) cursor.old result cursor.new
        (identifier_at error_of) }
    ensures looks { Spends 15 cursor.old cursor.new }
{
    match cursor.look(Reason::IdentifierStart)? {
        Some(byte) if is_ascii_sign(byte) => {
            cursor.advance();
            if let Some(offset) = take_last_offset(cursor, byte) {
                return Ok(TimeZoneRecord::Offset(offset));
            }
            let mut time = TimeRecord::default();
            let shape = parse_clock(cursor, Clock::MinuteOffset, &mut time)?;
            close_after(cursor, Clock::MinuteOffset, shape)?;
            Ok(TimeZoneRecord::Offset(minute_offset(byte, time)))
        }
        Some(byte) if is_tz_leading_char(byte) => {
            let name = parse_name_alone(cursor)?;
            Ok(TimeZoneRecord::Name(name))
        }
        _ => Err(Reason::IdentifierStart),
    }
}

// ==== Brackets ====

/// Consumes the `]` after an offset without seconds. `shape` says which parts the offset has. If no `]` is next, returns
/// the `Reason` that `Clock::stop_after` returns for this shape.
#[inline(always)]
fn close_bracket<'a, T: EncodingType>(
    cursor: &mut Cursor<'a, T>,
    shape: TimeShape,
) -> Result<(), Reason>
    ensures end { Reads T.letter (λ _. 93) cursor.old result cursor.new
        (next_by (closing_look (reason_of (line_after clocks.MinuteOffset (shape_of shape))))) }
    ensures looks { Spends 1 cursor.old cursor.new }
{
    let stop = Clock::MinuteOffset.stop_after(shape);
    match cursor.look(stop)? {
        Some(byte) if is_annotation_close(byte) => {
            cursor.advance();
            Ok(())
        }
        _ => Err(stop),
    }
}

/// Reads an offset without seconds after its sign, and the `]` of its bracket.
pub fn parse_offset_in_bracket<'a, T: EncodingType>(
    cursor: &mut Cursor<'a, T>,
    sign: u8,
) -> Result<TimeZoneRecord<'a, T>, Reason>
    ensures offset { Reads T.letter (zone_of T.number) cursor.old result cursor.new
        (offset_in_bracket_at error_of sign) }
    ensures looks { Spends 14 cursor.old cursor.new }
{
    let mut time = TimeRecord::default();
    let shape = parse_clock(cursor, Clock::MinuteOffset, &mut time)?;
    close_bracket(cursor, shape)?;
    Ok(TimeZoneRecord::Offset(minute_offset(sign, time)))
}

/// Reads a name and the `]` of its bracket. The caller has tested the first code unit of the name.
#[inline(always)]
pub fn parse_name_in_bracket<'a, T: EncodingType>(
    cursor: &mut Cursor<'a, T>,
) -> Result<&'a [T::CodeUnit], Reason>
    ensures name { Reads T.letter (λ units. map T.number units.now) cursor.old result cursor.new
        (name_in_bracket_at error_of) }
    ensures looks { Spends 2 cursor.old cursor.new }
{
    let name = parse_tz_name(cursor)?;
    match name.next {
        Some(byte) if is_annotation_close(byte) => {
            cursor.advance();
            Ok(name.units)
        }
        _ => Err(Reason::InZoneName),
    }
}
