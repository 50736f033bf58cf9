//! A cursor: the remaining code units of a source.
//!
//! A cursor has no index. It keeps the remaining code units as one slice, so it cannot point past the end. If a function fails
//! after it has read a part of a text, the cursor that it works on is at the position of the error.
//!
//! A parser, such as `IxdtfParser`, keeps a cursor in a field. A reader of the parser works on a second cursor, which begins
//! at the same position. If the reader fails, the cursor of the parser is unchanged.

#![tactic(auto, unfolding(crate::specs::reading::Looks::look_readings))]

ghost use Rattle.std.specs.Prelude.{◌≡◌, ℕ, ◌+◌, ◌-◌, ◌<◌, ◌≤◌, map, length, drop, Option, Result, Ok, Err, Some, None, IfOk, IfErr, IfSome, OnOk, OnErr, IsTrue, IsFalse, nat_eq, ◌*◌, ◌↔◌, min, codes, true};
ghost use Rattle.ixdtf_grammar.specs.language.Letters.{digit};
ghost use Rattle.ixdtf_grammar.specs.language.Digits.{decimal};
ghost use Rattle.ixdtf_grammar.specs.Views.{Unread, ascii_at};
ghost use Rattle.ixdtf_reading.specs.reading.Clauses.{Reads, Settles, StandsAt, Spends, SpendsOr, Yields, YieldsAt, end_look, stopped_by};
ghost use Rattle.ixdtf_reading.specs.reading.Stops.{IsNext, fault_at};
ghost use Rattle.ixdtf_reading.specs.reading.FixedPlaces.{letter_place, byte_place, number_place, number_up_to};
ghost use Rattle.ixdtf_reading.specs.reading.Looks.{seen, next_by, peek_by, digit_look, two_digits_by, two_digits_of};

use crate::classes::two_digit_number;
use crate::codes::{Next, code_of};
use crate::looks::Looks;
use crate::stop::{FromStop, StopAt};
use ixdtf_grammar::Reason;
use ixdtf_grammar::encoding::EncodingType;
use std::fmt;
use std::marker::Model;

/// The remaining code units of a source, and the count of accesses to code units.
#[derive(Drop)]
pub struct Cursor<'a, T: EncodingType> {
    rest: &'a [T::CodeUnit],
    // The count of accesses to code units. It has a size of 0 bytes.
    looks: Looks,
}

impl<'a, T: EncodingType> Model for Cursor<'a, T> {
    ghost Value = { Unread };

    ghost view = { λ c. record { rest = map T.number c.rest.now; looks = c.looks.count } };
}

// `Debug` writes the remaining input in quotation marks. A `"` and a `\` have a `\` before them. Any other code unit
// that is not a printable ASCII character is written by its number, as `\x0a` or `\u{2212}`.
impl<'a, T: EncodingType> fmt::Debug for Cursor<'a, T> {
    fn fmt<W: fmt::Write>(&self, f: &mut fmt::Formatter<W>) -> fmt::Result {
        f.write_str("\"")?;
        for unit in self.rest.iter() {
            write_unit(f, (*unit).into())?;
        }
        f.write_str("\"")
    }
}

/// Writes a code unit. A `"` and a `\` have a `\` before them. Any other printable ASCII character is written as it is,
/// and any other code unit by its number.
fn write_unit<W: fmt::Write>(f: &mut fmt::Formatter<W>, number: u32) -> fmt::Result {
    match u8::try_from(number) {
        Err(_) => write!(f, "\\u{{{:x}}}", number),
        Ok(b'"') => f.write_str("\\\""),
        Ok(b'\\') => f.write_str("\\\\"),
        Ok(byte) if byte.is_ascii_graphic() || byte == b' ' => write!(f, "{}", char::from(byte)),
        Ok(byte) => write!(f, "\\x{:02x}", byte),
    }
}

impl<'a, T: EncodingType> Cursor<'a, T> {
    /// Creates a cursor at the beginning of a source.
    pub fn new(source: &'a [T::CodeUnit]) -> Self
        ensures rest { result.rest ≡ map T.number source.now }
        ensures looks { result.looks ≡ 0 }
    {
        Cursor {
            rest: source,
            looks: Looks::none(),
        }
    }

    /// Returns the remaining code units. They are borrowed from the source, so they can outlive the cursor.
    #[inline(always)]
    pub fn rest(&self) -> &'a [T::CodeUnit]
        ensures { map T.number result.now ≡ self.now.rest }
    {
        self.rest
    }

    /// Returns the number of remaining code units.
    #[inline(always)]
    pub fn remaining(&self) -> usize
        ensures { result ≡ length self.now.rest }
    {
        self.rest.len()
    }

    /// Returns a second cursor at the same position. `self` keeps its remaining input.
    ///
    /// There are three uses of the second cursor:
    ///
    /// - A function that must consume nothing on failure works on the second cursor. It stores the second cursor in `self` only
    ///   if it succeeds.
    /// - Some functions with a loop, such as `pass_letters`, work on the second cursor, because the compiler can keep this local
    ///   variable in registers. After the loop, such a function always stores the second cursor in `self`.
    /// - Some functions call a function that the compiler does not inline, and pass the second cursor to it. The compiler can then
    ///   keep the first cursor in registers. After the call, such a function always stores the second cursor in `self`.
    #[inline(always)]
    pub fn fork(&mut self) -> Self
        // The count of accesses moves to the second cursor.
        ensures same { result ≡ self.old }
        ensures rest { self.new.rest ≡ self.old.rest }
    {
        Cursor {
            rest: self.rest,
            // The count of accesses moves to the second cursor.
            looks: std::mem::replace(&mut self.looks, Looks::none()),
        }
    }

    /// Returns a second cursor whose remaining input is `rest`. `self` keeps its own remaining input.
    #[inline(always)]
    pub fn fork_at(&mut self, rest: &'a [T::CodeUnit]) -> Self
        // The count of accesses moves to the second cursor.
        ensures there { result.rest ≡ map T.number rest.now }
        ensures looks { result.looks ≡ self.old.looks }
        ensures rest { self.new.rest ≡ self.old.rest }
    {
        Cursor {
            rest,
            // The count of accesses moves to the second cursor.
            looks: std::mem::replace(&mut self.looks, Looks::none()),
        }
    }

    /// Replaces the count of accesses by that of a second cursor. The remaining input does not change.
    #[inline(always)]
    pub fn keep_looks(&mut self, here: Self)
        ensures rest { self.new.rest ≡ self.old.rest }
        ensures looks { self.new.looks ≡ here.entry.looks }
    {
        self.looks = here.looks;
    }

    /// Does the last step of a function that worked on a second cursor. `here` is the second cursor.
    ///
    /// If `read` is `Ok`, `self` moves to the position of `here`. If `read` is a `Reason`, `self` keeps its remaining input,
    /// and `settle` returns the error of the `Reason`. The position of this error is the number of code units from `self`
    /// to `here`. `brackets` says whether the reader reads brackets.
    #[inline(always)]
    pub fn settle<R, E: FromStop>(
        &mut self,
        here: Self,
        brackets: bool,
        read: Result<R, Reason>,
    ) -> Result<R, E>
        ensures settled { Settles E.fault brackets (map T.letter here.entry.rest) read result }
        ensures place { StandsAt E.stands (length self.old.rest - length here.entry.rest) read result }
        ensures ended { OnOk result (self.new.rest ≡ here.entry.rest) }
        ensures unchanged { OnErr result (self.new.rest ≡ self.old.rest) }
        ensures looks { (here.entry.looks ≤ self.new.looks) × (self.new.looks ≤ here.entry.looks + 1) }
        ensures exact { OnOk result (self.new.looks ≡ here.entry.looks) }
    {
        match read {
            Ok(found) => {
                *self = here;
                Ok(found)
            }
            Err(stop) => {
                let at = self.remaining().saturating_sub(here.remaining());
                let mut here = here;
                let error = error_at(&mut here, brackets, stop, at);
                self.keep_looks(here);
                Err(error)
            }
        }
    }

    /// Returns what is next: the end of the text, a bad code unit, or another code unit. It consumes nothing.
    ///
    /// One `Reason` can have several errors. The result of `next` decides between them.
    #[inline(always)]
    pub fn next(&mut self) -> Next
        ensures next { IsNext result (map T.letter self.old.rest) }
        ensures rest { self.new.rest ≡ self.old.rest }
        ensures looks { self.new.looks ≡ self.old.looks + 1 }
    {
        match self.look_at(0, Reason::YearStart) {
            Ok(None) => Next::End,
            Ok(Some(byte)) => Next::Byte(byte),
            Err(_) => Next::Bad,
        }
    }

    /// Returns the code unit at an index of the remaining input, as a byte.
    ///
    /// Returns `None` if the input is too short, and `stop` for a bad code unit. In the library, only this function calls
    /// `EncodingType::get_ascii`, the method that reads one code unit of a source.
    #[inline(always)]
    pub fn look_at(&mut self, index: usize, stop: Reason) -> Result<Option<u8>, Reason>
        ensures letter { Yields (λ found. found) result (stopped_by stop (ascii_at T.letter index self.old.rest)) }
        ensures rest { self.new.rest ≡ self.old.rest }
        ensures looks { self.new.looks ≡ self.old.looks + 1 }
    {
        self.looks.tick();
        match T::get_ascii(self.rest, index) {
            Ok(found) => Ok(found),
            Err(_) => Err(stop),
        }
    }

    /// Returns the first code unit of the remaining input, as a byte, without consuming it.
    ///
    /// Returns `None` at the end of the input, and `stop` for a bad code unit.
    #[inline(always)]
    #[tactic(auto, using(crate::proofs::code::Units::first_look))]
    pub fn look(&mut self, stop: Reason) -> Result<Option<u8>, Reason>
        ensures letter { YieldsAt (λ found. found) result
            (map T.letter self.old.rest) (seen stop (map T.letter self.old.rest)) }
        ensures rest { self.new.rest ≡ self.old.rest }
        ensures looks { self.new.looks ≡ self.old.looks + 1 }
    {
        self.look_at(0, stop)
    }

    /// Returns the remaining code units after the first one. Returns an empty slice if the remaining input is empty.
    #[inline(always)]
    pub fn rest_behind(&self) -> &'a [T::CodeUnit]
        ensures { map T.number result.now ≡ drop 1 self.now.rest }
    {
        if let [_, rest @ ..] = self.rest {
            return rest;
        }
        self.rest
    }

    /// Consumes the first code unit, if there is one.
    #[inline(always)]
    #[tactic(auto, using(crate::proofs::code::Units::texts))]
    pub fn advance(&mut self)
        ensures rest { self.new.rest ≡ drop 1 self.old.rest }
        ensures shorter { length self.new.rest ≤ length self.old.rest }
        ensures letters { map T.letter self.new.rest ≡ drop 1 (map T.letter self.old.rest) }
        ensures looks { self.new.looks ≡ self.old.looks }
    {
        if let [_, rest @ ..] = self.rest {
            self.rest = rest;
        }
    }

    /// Consumes the first two code units. Returns `true`.
    ///
    /// The caller has looked at the second code unit, so there are two, as the proof shows. The compiler does not know the proof: it
    /// compiles a test. If the test fails, the function returns `false`, and the caller returns an error. So there is no code for a
    /// panic.
    #[inline(always)]
    pub fn advance_two(&mut self) -> bool
        requires { 2 ≤ length self.old.rest }
        ensures yes { result ≡ true }
        ensures rest { self.new.rest ≡ drop 2 self.old.rest }
        ensures shorter { length self.new.rest + 2 ≡ length self.old.rest }
        ensures looks { self.new.looks ≡ self.old.looks }
    {
        if let [_, _, rest @ ..] = self.rest {
            self.rest = rest;
            return true;
        }
        false
    }

    /// Consumes one digit, and returns it as an ASCII byte. If there is no digit, returns `stop` and consumes nothing.
    #[inline(always)]
    pub fn next_digit(&mut self, stop: Reason) -> Result<u8, Reason>
        ensures digit { Reads T.letter (λ byte. byte) self.old result self.new
            (next_by (digit_look stop)) }
        ensures is_digit { IfOk result (λ byte. IsTrue (digit byte)) }
        ensures looks { SpendsOr 1 0 self.old result self.new }
        ensures few { self.new.looks ≤ self.old.looks + 1 }
    {
        let byte = self.byte_at(0);
        if byte.is_ascii_digit() {
            self.advance();
            return Ok(byte);
        }
        Err(stop)
    }

    /// Consumes two digits, and returns the number that they form, 0 to 99.
    ///
    /// One test of the length finds whether two code units remain. One comparison finds whether both are digits. Returns
    /// `first` if the first digit is missing, and `second` if the second one is missing. The cursor is then at the missing
    /// digit.
    #[inline(always)]
    pub fn two_digits(&mut self, first: Reason, second: Reason) -> Result<u8, Reason>
        ensures digits { Reads T.letter two_digits_of self.old result self.new
            (two_digits_by first second) }
        ensures value { IfOk result (λ number. decimal (two_digits_of number) ≡ number) }
        ensures small { IfOk result (λ number. number < 100) }
        ensures looks { SpendsOr 2 0 self.old result self.new }
        ensures few { self.new.looks ≤ self.old.looks + 2 }
    {
        if self.rest.len() < 2 {
            if !self.byte_at(0).is_ascii_digit() {
                return Err(first);
            }
            self.advance();
            return Err(second);
        }
        let tens = self.byte_at(0);
        let ones = self.byte_at(1);
        let number = two_digit_number(tens, ones);
        if number <= 99 {
            self.advance_by(2);
            return Ok(number);
        }
        if !tens.is_ascii_digit() {
            return Err(first);
        }
        self.advance();
        Err(second)
    }

    /// Consumes `count` code units.
    #[inline(always)]
    pub fn advance_by(&mut self, count: usize)
        requires { count ≤ length self.old.rest }
        ensures rest { self.new.rest ≡ drop count self.old.rest }
        ensures shorter { length self.new.rest + count ≡ length self.old.rest }
        ensures looks { self.new.looks ≡ self.old.looks }
    {
        self.rest = &self.rest[count..];
    }

    /// Returns the code unit at `index` of the remaining input as a byte.
    ///
    /// Returns 0 if the input is too short, or if the code unit is bad. Callers need not test for this, because no class of
    /// characters contains 0.
    #[inline(always)]
    #[tactic(auto, using(crate::proofs::code::FixedPlaces::byte_looked))]
    pub fn byte_at(&mut self, index: usize) -> u8
        ensures there { result ≡ byte_place index (map T.letter self.old.rest) }
        ensures rest { self.new.rest ≡ self.old.rest }
        ensures looks { self.new.looks ≡ self.old.looks + 1 }
    {
        match self.look_at(index, Reason::YearStart) {
            Ok(Some(byte)) => byte,
            _ => 0,
        }
    }

    /// Returns `letter` if it is the code unit at `index` of the remaining input, and otherwise `None`.
    #[inline(always)]
    #[tactic(auto, using(crate::proofs::code::FixedPlaces::place_looked))]
    pub fn fixed_letter(&mut self, index: usize, letter: u8) -> Option<u8>
        ensures there { result ≡
            letter_place (λ c. nat_eq c letter) index (map T.letter self.old.rest) }
        ensures rest { self.new.rest ≡ self.old.rest }
        ensures looks { self.new.looks ≡ self.old.looks + 1 }
    {
        match self.look_at(index, Reason::YearStart) {
            Ok(Some(byte)) if byte == letter => Some(byte),
            _ => None,
        }
    }

    /// Returns the number, 0 to 99, that two digits form. The tens digit is at `index` of the remaining input, and the ones digit is
    /// at the next index.
    ///
    /// Returns `None` if there is no digit at one of these two indexes. The function reads the code unit at the second index even if
    /// there is no digit at the first index.
    #[inline(always)]
    #[tactic(auto, unfolding(crate::specs::reading::FixedPlaces::number_place))]
    pub fn fixed_number(&mut self, index: usize) -> Option<u8>
        requires early { index < 18 }
        ensures there { result ≡ number_place index (map T.letter self.old.rest) }
        ensures small { IfSome result (λ number. number < 100) }
        ensures rest { self.new.rest ≡ self.old.rest }
        ensures few { self.new.looks ≤ self.old.looks + 2 }
        ensures counted { self.old.looks ≤ self.new.looks }
    {
        let tens = self.byte_at(index);
        let ones = self.byte_at(index + 1);
        let number = two_digit_number(tens, ones);
        if number > 99 {
            return None;
        }
        Some(number)
    }

    /// Returns the number that the digit at `index` and the digit at the next index form. Returns `None` if one of these two code
    /// units is not a digit, or if the number is greater than `most`.
    #[inline(always)]
    #[tactic(auto, unfolding(crate::specs::reading::FixedPlaces::number_up_to))]
    pub fn fixed_number_up_to(&mut self, index: usize, most: u8) -> Option<u8>
        requires early { index < 18 }
        ensures there { result ≡ number_up_to most index (map T.letter self.old.rest) }
        ensures rest { self.new.rest ≡ self.old.rest }
        ensures few { self.new.looks ≤ self.old.looks + 2 }
        ensures counted { self.old.looks ≤ self.new.looks }
    {
        let number = self.fixed_number(index)?;
        if number > most {
            return None;
        }
        Some(number)
    }

    /// Tests whether two slices have equal code units.
    ///
    /// In this crate and in the layers above it, only this function compares code units of texts with each other.
    #[inline(always)]
    pub fn has_same_units(&mut self, left: &[T::CodeUnit], right: &[T::CodeUnit]) -> bool
        ensures same { IsTrue result ↔ (map T.number left.now ≡ map T.number right.now) }
        ensures rest { self.new.rest ≡ self.old.rest }
        // At each index that both slices have, one code unit of each is accessed.
        ensures looks { self.new.looks ≡
            self.old.looks + 2 * min (length left.now) (length right.now) }
    {
        let common = left.len().min(right.len());
        // One call for each slice: `2 * common` could overflow.
        self.looks.tick_by(common);
        self.looks.tick_by(common);
        are_equal::<T>(left, right)
    }

    /// Returns whether a key is `u-ca`, the key of calendars.
    #[inline(always)]
    pub fn is_calendar_key(&mut self, key: &[T::CodeUnit]) -> bool
        ensures calendar { IsTrue result ↔ (map T.number key.now ≡ codes "u-ca") }
        ensures rest { self.new.rest ≡ self.old.rest }
        // At most the four code units of `u-ca` are accessed.
        ensures looks { self.new.looks ≡ self.old.looks + 4 }
    {
        self.looks.tick_by(4);
        T::check_calendar_key(key)
    }

    /// Expects the end of the input. Returns `stop` at any code unit.
    #[inline(always)]
    pub fn close(&mut self, stop: Reason) -> Result<(), Reason>
        ensures end { Reads T.letter (λ _. None) self.old result self.new (peek_by (end_look stop)) }
        ensures rest { self.new.rest ≡ self.old.rest }
        ensures looks { Spends 1 self.old self.new }
    {
        match self.look(stop)? {
            None => Ok(()),
            Some(_) => Err(stop),
        }
    }
}

/// Tests whether two slices have equal code units. Only `has_same_units` calls this.
fn are_equal<T: EncodingType>(left: &[T::CodeUnit], right: &[T::CodeUnit]) -> bool
    ensures { IsTrue result ↔ (map T.number left.now ≡ map T.number right.now) }
{
    left == right
}

/// Makes the error of the reason `stop`. The cursor `here` is where the error is. A `LocatedError` has the position `at`. A
/// `ParseError` has no position, so `at` is not used. `brackets` says whether the reader reads brackets.
#[inline(always)]
pub fn error_at<'a, T: EncodingType, E: FromStop>(
    here: &mut Cursor<'a, T>,
    brackets: bool,
    stop: Reason,
    at: usize,
) -> E
    ensures fault { E.fault result ≡ fault_at brackets stop (map T.letter here.old.rest) }
    ensures place { E.stands stop at result }
    ensures looks { here.new.looks ≡ here.old.looks + 1 }
{
    let next = here.next();
    let code = code_of(stop, brackets, next);
    E::of_stop(StopAt {
        reason: stop,
        code,
        at,
    })
}
