//! Functions that read annotations: a key and a value in brackets.
//!
//! Most of these functions begin at the code unit before the part that they read, for example at the `[` before a key. The function
//! or its caller tests the first code unit of the part. If the test succeeds, the function consumes two code units in one step: the
//! one before the part, and the first one of the part.

#![tactic(auto, unfolding(crate::specs::reading::Pairs::pair_readings))]

ghost use Rattle.std.specs.Prelude.{◌≡◌, ◌+◌, ◌≤◌, ◌<◌, ◌*◌, map, length, drop, option_map, true, OnOk, IfOk, IfSome, IsSome};
ghost use Rattle.ixdtf_grammar.specs.language.Letters.{equals, key_char, value_char};
ghost use Rattle.ixdtf_reading.specs.reading.Brackets.{next_is};
ghost use Rattle.ixdtf_reading.specs.reading.Clauses.{Reads, ReadsBetween, Spends, SpendsOr, behind};
ghost use Rattle.ixdtf_reading.specs.reading.Looks.{error_of, mark_by};
ghost use Rattle.ixdtf_reading.specs.reading.Pairs.{AtStart, BeginsKey, key_run, component_look, value_run, pair_at, critical_pair_at, later_pair_at, next_pair_at};
ghost use Rattle.ixdtf_grammar.specs.Handlers.{pair_of};

use crate::classes::{
    is_a_key_char, is_a_key_leading_char, is_annotation_close, is_annotation_key_value_separator,
    is_annotation_open, is_annotation_value_component, is_critical_flag, is_hyphen,
};
use crate::cursor::Cursor;
use crate::letters::{Letters, pass_letters};
use crate::stop::stopped;
use ixdtf_grammar::Reason;
use ixdtf_grammar::encoding::EncodingType;
use ixdtf_grammar::records::Annotation;

// ==== Keys and values ====

/// The class of the code units that a key can contain.
pub struct KeyLetters;

impl Letters for KeyLetters {
    ghost class = { key_char };

    #[inline(always)]
    fn has(byte: u8) -> bool {
        is_a_key_char(byte)
    }
}

/// Consumes the code unit before a key, and the key. Returns the code units of the key. Returns `InKey` if no `=` follows the key. The
/// `=` is not consumed.
///
/// The caller has tested the first code unit of the key.
#[inline(always)]
pub fn parse_annotation_key<'a, T: EncodingType>(
    cursor: &mut Cursor<'a, T>,
) -> Result<&'a [T::CodeUnit], Reason>
    requires first { BeginsKey (drop 1 (map T.letter cursor.old.rest)) }
    ensures key { ReadsBetween T.letter (λ units. map T.number units.now) cursor.old result cursor.new
        (key_run error_of) }
    ensures looks { SpendsOr 1 0 cursor.old result cursor.new }
    ensures shorter { OnOk result (length cursor.new.rest + 2 ≤ length cursor.old.rest) }
{
    let start = cursor.rest_behind();
    if !cursor.advance_two() {
        return Err(Reason::InKey);
    }
    let next = pass_letters::<T, KeyLetters>(cursor, Reason::InKey)?;
    if !ends_key(next) {
        return stopped(Reason::InKey);
    }
    Ok(&start[..start.len().saturating_sub(cursor.remaining())])
}

/// Returns whether the code unit is the `=` after a key.
#[inline(always)]
pub fn ends_key(next: Option<u8>) -> bool
    ensures { result ≡ next_is equals next }
{
    matches!(next, Some(byte) if is_annotation_key_value_separator(byte))
}

/// The class of the code units that a component of a value can contain. The components of a value are its parts between hyphens.
pub struct ComponentLetters;

impl Letters for ComponentLetters {
    ghost class = { value_char };

    #[inline(always)]
    fn has(byte: u8) -> bool {
        is_annotation_value_component(byte)
    }
}

/// Consumes the code unit before a component, and the first code unit of the component. If there is no component, consumes only the
/// code unit before it, and returns `stop`.
#[inline(always)]
fn start_component<'a, T: EncodingType>(
    cursor: &mut Cursor<'a, T>,
    stop: Reason,
) -> Result<(), Reason>
    ensures letter { Reads T.letter (λ _. true) cursor.old result cursor.new
        (behind (mark_by (component_look stop) value_char)) }
    ensures rest { OnOk result (cursor.new.rest ≡ drop 2 cursor.old.rest) }
    ensures shorter { OnOk result (length cursor.new.rest + 2 ≤ length cursor.old.rest) }
    ensures no_longer { length cursor.new.rest ≤ length cursor.old.rest }
    ensures looks { cursor.new.looks ≡ cursor.old.looks + 1 }
{
    if is_annotation_value_component(cursor.byte_at(1)) {
        if !cursor.advance_two() {
            return Err(stop);
        }
        return Ok(());
    }
    cursor.advance();
    stopped(stop)
}

/// Reads the `=` before a value, the value, and the `]` after it. Returns the code units of the value.
///
/// A value consists of components. One hyphen separates each component from the next one.
#[inline(always)]
pub fn parse_annotation_value<'a, T: EncodingType>(
    cursor: &mut Cursor<'a, T>,
) -> Result<&'a [T::CodeUnit], Reason>
    ensures value { Reads T.letter (λ units. map T.number units.now) cursor.old result cursor.new
        (behind (value_run error_of AtStart)) }
    ensures looks { SpendsOr 1 0 cursor.old result cursor.new }
    ensures shorter { IfOk result (λ value.
        length value.now + 2 + length cursor.new.rest ≤ length cursor.old.rest) }
{
    let start = cursor.rest_behind();
    start_component(cursor, Reason::ValueStart)?;
    loop {
        let next = pass_letters::<T, ComponentLetters>(cursor, Reason::InValue)?;
        match next {
            None => return stopped(Reason::InValue),
            Some(byte) if is_annotation_close(byte) => {
                let value = &start[..start.len().saturating_sub(cursor.remaining())];
                cursor.advance();
                return Ok(value);
            }
            Some(byte) if is_hyphen(byte) => {}
            Some(_) => return stopped(Reason::InValue),
        }
        start_component(cursor, Reason::AfterValueHyphen)?;
    }
}

// ==== Annotations ====

/// Consumes one code unit, and reads an annotation after it: a key, `=`, a value and `]`. The caller has tested the first code unit of
/// the key.
#[inline(always)]
fn parse_pair<'a, T: EncodingType>(
    cursor: &mut Cursor<'a, T>,
    critical: bool,
) -> Result<Annotation<'a, T>, Reason>
    requires first { BeginsKey (drop 1 (map T.letter cursor.old.rest)) }
    ensures pair { Reads T.letter (pair_of T.number) cursor.old result cursor.new
        (behind (pair_at error_of critical)) }
    ensures looks { SpendsOr 2 0 cursor.old result cursor.new }
    ensures shorter { IfOk result (λ pair.
        length pair.value.now + 4 + length cursor.new.rest ≤ length cursor.old.rest) }
{
    let key = parse_annotation_key(cursor)?;
    let value = parse_annotation_value(cursor)?;
    Ok(Annotation {
        critical,
        key,
        value,
    })
}

/// Reads an annotation at its `[`. The annotation is not in the first bracket of the text.
#[inline(always)]
fn parse_later_pair<'a, T: EncodingType>(
    cursor: &mut Cursor<'a, T>,
) -> Result<Annotation<'a, T>, Reason>
    ensures pair { Reads T.letter (pair_of T.number) cursor.old result cursor.new
        (behind (later_pair_at error_of)) }
    ensures looks { SpendsOr 4 2 cursor.old result cursor.new }
    ensures shorter { IfOk result (λ pair.
        length pair.value.now + 4 + length cursor.new.rest ≤ length cursor.old.rest) }
{
    let lead = cursor.byte_at(1);
    if is_a_key_leading_char(lead) {
        return parse_pair(cursor, false);
    }
    cursor.advance();
    if is_critical_flag(lead) {
        return call_critical_pair(cursor);
    }
    stopped(Reason::KeyStart)
}

/// Does the work of `parse_critical_pair`, with a cursor of its own.
///
/// Rattle sets the variables of an inlined function to zero where its code begins. In a function of its own, `here` and `read` are
/// set to zero for critical annotations only. In `parse_later_pair`, each annotation took five instructions more.
#[inline(always)]
fn call_critical_pair<'a, T: EncodingType>(
    cursor: &mut Cursor<'a, T>,
) -> Result<Annotation<'a, T>, Reason>
    ensures pair { Reads T.letter (pair_of T.number) cursor.old result cursor.new
        (behind (critical_pair_at error_of)) }
    ensures looks { SpendsOr 3 1 cursor.old result cursor.new }
    ensures shorter { IfOk result (λ pair.
        length pair.value.now + 4 + length cursor.new.rest ≤ length cursor.old.rest) }
{
    let mut here = cursor.fork();
    let read = parse_critical_pair(&mut here);
    *cursor = here;
    read
}

/// Reads an annotation at its `!`. The annotation is not in the first bracket of the text.
///
/// The function is not inlined, because critical annotations are rare. Otherwise `parse_later_pair` would have the code
/// for an annotation twice, and Rattle would not inline it: it ignores `inline(always)` on a function that is too large.
#[inline(never)]
fn parse_critical_pair<'a, T: EncodingType>(
    cursor: &mut Cursor<'a, T>,
) -> Result<Annotation<'a, T>, Reason>
    ensures pair { Reads T.letter (pair_of T.number) cursor.old result cursor.new
        (behind (critical_pair_at error_of)) }
    ensures looks { SpendsOr 3 1 cursor.old result cursor.new }
    ensures shorter { IfOk result (λ pair.
        length pair.value.now + 4 + length cursor.new.rest ≤ length cursor.old.rest) }
{
    if is_a_key_leading_char(cursor.byte_at(1)) {
        return parse_pair(cursor, true);
    }
    cursor.advance();
    stopped(Reason::CriticalKeyStart)
}

/// Reads the next annotation, after a bracket that is completely consumed. Returns `None` at the end of the input.
#[inline(always)]
pub fn next_annotation<'a, T: EncodingType>(
    cursor: &mut Cursor<'a, T>,
) -> Result<Option<Annotation<'a, T>>, Reason>
    ensures pair { Reads T.letter (option_map (pair_of T.number)) cursor.old result cursor.new
        (next_pair_at error_of) }
    ensures looks { Spends 6 cursor.old cursor.new }
    ensures paid { IfOk result (λ next. IfSome next (λ pair.
        cursor.new.looks + 3 * length cursor.new.rest + 2 * length pair.value.now + 4 ≤
        cursor.old.looks + 3 * length cursor.old.rest)) }
    ensures shorter { IfOk result (λ next. IsSome next →
        length cursor.new.rest < length cursor.old.rest) }
{
    match cursor.look(Reason::AfterBracket)? {
        None => Ok(None),
        Some(byte) if is_annotation_open(byte) => {
            let annotation = parse_later_pair(cursor)?;
            Ok(Some(annotation))
        }
        Some(_) => Err(Reason::AfterBracket),
    }
}
