//! Functions that read complete texts: a core, a first bracket, and the brackets after it.

ghost use Rattle.std.specs.Prelude.{◌≡◌, ℕ, ◌+◌, ◌-◌, ◌*◌, ◌≤◌, [], true, map, length, OnOk, Err, None, option_map};
ghost use Rattle.ixdtf_grammar.specs.language.Readers.Reader.{bracketed};
ghost use Rattle.ixdtf_grammar.specs.language.Languages.{parsed_with};
ghost use Rattle.ixdtf_grammar.specs.Handlers.{with_calendar, calendar_value, pair_of};
ghost use Rattle.ixdtf_grammar.specs.Views.{IsEmptyRecord, parsed_of, most_looks};
ghost use Rattle.ixdtf_reading.specs.reading.Brackets.{zone_in, pairs_in};
ghost use Rattle.ixdtf_reading.specs.reading.Chains.{TextRead, TextReadAfter, Counting, first_pairs};
ghost use Rattle.ixdtf_reading.specs.reading.Clauses.{Spends, SpendsOr, HasNoBrackets, yielded_at, core_in};
ghost use Rattle.ixdtf_brackets.specs.BracketTypes.{bracket_of, exact_looks};
ghost use Rattle.ixdtf.specs.Readings.{ReadsInto, ReadsHandled, ReadsFront, ReadsOpenBracket, after_front, PairsReadInto};
ghost use Rattle.ixdtf_reading.specs.reading.Stops.{fault_of_code, fault_at};

use crate::parsers::cores::CoreReader;
use crate::parsers::replies::parse_annotations;
use crate::parsers::{FromStop, IxdtfParser};
use ixdtf_brackets::brackets::Bracket;
use ixdtf_brackets::exact_zones::parse_bracket_by;
use ixdtf_grammar::Reason;
use ixdtf_grammar::encoding::EncodingType;
use ixdtf_grammar::profile::Profile;
use ixdtf_grammar::records::{Annotation, IxdtfParseRecord};
use ixdtf_reading::codes::code_of;
use ixdtf_reading::cursor::Cursor;
use ixdtf_reading::stop::StopAt;
use ixdtf_times::offsets::AfterCore;

impl<'a, T: EncodingType> IxdtfParser<'a, T> {
    /// Reads all of the remaining input into an empty record. After an error, the remaining input is unchanged.
    ///
    /// All public readers of `IxdtfParser` without a handler call this function through `read_unhandled`, except
    /// `parse_rfc3339` and `parse_rfc3339_located`. The readers with a handler call `read_handled`.
    ///
    /// Most of these readers make the record as a local variable, and then have a `match` on the result of the call.
    /// For speed, one arm of this `match` gives the record, and the arm of the error has its own `return`. The arm of
    /// the error could also give the value of the `match`, without a `return`. Or a function could return the record in
    /// its result, and the reader could pass this result on. In both cases, the record would be copied once more.
    #[inline(always)]
    pub(crate) fn read_into<C: CoreReader, F>(
        &mut self,
        handler: &mut F,
        found: &mut IxdtfParseRecord<'a, T>,
    ) -> Result<(), StopAt>
    where
        F: FnMut(Annotation<'a, T>) -> Option<Annotation<'a, T>>,
        requires callable { F.IsAlwaysCallable handler.old }
        requires empty { IsEmptyRecord found.old }
        ensures reads { ReadsInto T.letter T.number F.step handler.old handler.new (parsed_of T.number found.new) (bracketed (C.kind self.old.profile)) self.old result self.new }
    {
        let mut here = self.cursor.fork();
        match parse_text::<T, C, F>(&mut here, self.profile, handler, found) {
            Ok(()) => {
                self.cursor = here;
                Ok(())
            }
            Err(stop) => {
                let at = self.cursor.remaining().saturating_sub(here.remaining());
                let next = here.next();
                self.cursor.keep_looks(here);
                Err(StopAt {
                    reason: stop,
                    code: code_of(stop, true, next),
                    at,
                })
            }
        }
    }

    /// Reads all of the remaining input with a handler. After an error, the remaining input is unchanged.
    ///
    /// `read_as` and `read_lending_handler` call this function. It is compiled once for each handler. So that the compiled
    /// code is small, it has little more than what depends on the handler. It calls the function `parse_front`, which reads the
    /// core and the first bracket, and is compiled once for all handlers.
    #[inline(always)]
    pub(crate) fn read_handled<E: FromStop, C: CoreReader, F>(
        &mut self,
        handler: &mut F,
    ) -> Result<IxdtfParseRecord<'a, T>, E>
    where
        F: FnMut(Annotation<'a, T>) -> Option<Annotation<'a, T>>,
        requires callable { F.IsAlwaysCallable handler.old }
        ensures reads { ReadsHandled T.letter T.number F.step handler.old handler.new E.fault E.stands (bracketed (C.kind self.old.profile)) self.old result self.new }
    {
        let mut text = OpenText {
            here: self.cursor.fork(),
            found: IxdtfParseRecord::default(),
            first: None,
        };
        match parse_handled_text::<T, C, F>(&mut text, self.profile, handler) {
            Ok(()) => {
                self.cursor = text.here;
                Ok(text.found)
            }
            Err(stop) => {
                let refused = refuse(&mut text, self.cursor.remaining(), stop);
                self.cursor.keep_looks(text.here);
                return refused;
            }
        }
    }
}

/// Reads a core of the kind that `C` reads under the profile. Then reads the brackets after it, up to the end of the
/// input. Writes both into an empty record. Calls the handler with each annotation.
fn parse_text<'a, T: EncodingType, C: CoreReader, F>(
    cursor: &mut Cursor<'a, T>,
    profile: Profile,
    handler: &mut F,
    found: &mut IxdtfParseRecord<'a, T>,
) -> Result<(), Reason>
where
    F: FnMut(Annotation<'a, T>) -> Option<Annotation<'a, T>>,
    requires empty { IsEmptyRecord found.old }
    requires callable { F.IsAlwaysCallable handler.old }
    ensures replied { (spent : ℕ) ×
        TextRead T.number (Counting F.step) (handler.old, 0) (handler.new, spent)
        (bracketed (C.kind profile)) (map T.letter cursor.old.rest)
        (yielded_at (λ _. parsed_of T.number found.new) result (map T.letter cursor.new.rest)) ×
        (cursor.new.looks + 1 ≤ cursor.old.looks + (most_looks cursor.old.rest + spent)) }
    ensures empty { OnOk result (cursor.new.rest ≡ []) }
    ensures counted { cursor.old.looks ≤ cursor.new.looks }
{
    let mut here = cursor.fork();
    let read = C::parse_core(&mut here, profile, found);
    *cursor = here;
    if read?.opens_bracket() {
        return parse_brackets(cursor, C::has_exact_zones(), found, handler);
    }
    Ok(())
}

/// Reads all brackets of a text, up to the end of the input: the first bracket, and the annotations after it. The core
/// and the first `[` have already been read. If `is_exact`, a zone in the first bracket must have the form of RFC 9557,
/// section 4.1.
#[inline(never)]
fn parse_brackets<'a, T: EncodingType, F>(
    cursor: &mut Cursor<'a, T>,
    is_exact: bool,
    found: &mut IxdtfParseRecord<'a, T>,
    handler: &mut F,
) -> Result<(), Reason>
where
    F: FnMut(Annotation<'a, T>) -> Option<Annotation<'a, T>>,
    requires callable { F.IsAlwaysCallable handler.old }
    requires unbracketed { HasNoBrackets found.old }
    ensures replied { (spent : ℕ) ×
        TextReadAfter T.number (Counting F.step) (handler.old, 0) (handler.new, spent)
        is_exact (core_in found.old) true (map T.letter cursor.old.rest)
        (yielded_at (λ _. parsed_of T.number found.new) result (map T.letter cursor.new.rest)) ×
        Spends (2 * length cursor.old.rest + exact_looks is_exact (length cursor.old.rest) + 26 + spent) cursor.old cursor.new }
    ensures empty { OnOk result (cursor.new.rest ≡ []) }
{
    let mut here = cursor.fork();
    let bracket = parse_bracket_by(&mut here, is_exact);
    *cursor = here;
    let first = place_bracket(bracket?, found);
    let mut here = cursor.fork();
    let calendar = parse_annotations::<T, F>(&mut here, first, handler);
    *cursor = here;
    place_calendar(calendar?, found);
    Ok(())
}

/// A text of which a part was read. All that a reader with a handler knows about its text is in one value, so it is passed
/// on with one reference.
#[derive(Drop)]
struct OpenText<'a, T: EncodingType> {
    /// The cursor after the part that was read.
    here: Cursor<'a, T>,
    /// The record of what was found.
    found: IxdtfParseRecord<'a, T>,
    /// The annotation of the first bracket, if it has one.
    first: Option<Annotation<'a, T>>,
}

/// Reads a core of the kind that `C` reads under the profile, and the brackets after it, up to the end of the input. Calls
/// the handler with each annotation.
#[inline(always)]
fn parse_handled_text<'a, T: EncodingType, C: CoreReader, F>(
    text: &mut OpenText<'a, T>,
    profile: Profile,
    handler: &mut F,
) -> Result<(), Reason>
where
    F: FnMut(Annotation<'a, T>) -> Option<Annotation<'a, T>>,
    requires empty { IsEmptyRecord text.old.found }
    requires no_pair { text.old.first ≡ None }
    requires callable { F.IsAlwaysCallable handler.old }
    ensures replied { (spent : ℕ) ×
        TextRead T.number (Counting F.step) (handler.old, 0) (handler.new, spent)
        (bracketed (C.kind profile)) (map T.letter text.old.here.rest)
        (yielded_at (λ _. parsed_of T.number text.new.found) result (map T.letter text.new.here.rest)) ×
        (text.new.here.looks + 1 ≤ text.old.here.looks + (most_looks text.old.here.rest + spent)) }
    ensures empty { OnOk result (text.new.here.rest ≡ []) }
    ensures counted { text.old.here.looks ≤ text.new.here.looks }
{
    match parse_front::<T, C>(text.here.fork(), profile, text)? {
        AfterCore::End => {
            text.here.advance_by(text.here.remaining());
            Ok(())
        }
        AfterCore::Bracket => parse_later_brackets(text, handler),
    }
}

/// Reads the *front* of a text: a core of the kind that `C` reads under the profile, and the first bracket, if the text has
/// brackets. `start` is the cursor at the beginning of the text. Returns what follows the core.
///
/// The function is not inlined, so it is compiled once for all handlers. `start` is passed by value, so that it stays in
/// registers. After a bracket or an error, the function stores the cursor in the text. If the text ends after its core, nothing
/// remains, and the function does not store the cursor.
#[inline(never)]
fn parse_front<'a, T: EncodingType, C: CoreReader>(
    start: Cursor<'a, T>,
    profile: Profile,
    text: &mut OpenText<'a, T>,
) -> Result<AfterCore, Reason>
    requires empty { IsEmptyRecord text.old.found }
    requires no_pair { text.old.first ≡ None }
    ensures front { ReadsFront T.letter T.number (C.kind profile) start.entry result text.new.first text.new.found
        (after_front result text.new.here) }
    ensures looks { SpendsOr (3 * length start.entry.rest + 54) (length start.entry.rest + 54) start.entry result
        (after_front result text.new.here) }
{
    let mut here = start;
    match C::parse_core(&mut here, profile, &mut text.found) {
        Ok(AfterCore::End) => {
            text.here.keep_looks(here);
            Ok(AfterCore::End)
        }
        Ok(AfterCore::Bracket) => parse_open_bracket(here, C::has_exact_zones(), text),
        Err(stop) => {
            text.here = here;
            Err(stop)
        }
    }
}

/// Reads the first bracket of a text after its `[`. Returns `Bracket`. If `is_exact`, a zone in the bracket must have the form of
/// RFC 9557, section 4.1.
///
/// The function has a cursor of its own. If `parse_front` used one cursor for the core and for the bracket, each text would take
/// about 20 instructions more.
#[inline(always)]
fn parse_open_bracket<'a, T: EncodingType>(
    start: Cursor<'a, T>,
    is_exact: bool,
    text: &mut OpenText<'a, T>,
) -> Result<AfterCore, Reason>
    requires unbracketed { HasNoBrackets text.old.found }
    requires no_pair { text.old.first ≡ None }
    ensures bracket { ReadsOpenBracket T.letter T.number is_exact (core_in text.old.found) start.entry result text.new.first text.new.found text.new.here }
    ensures looks { SpendsOr (2 * length start.entry.rest + 18) (exact_looks is_exact (length start.entry.rest) + 16) start.entry result text.new.here }
{
    let mut here = start;
    let bracket = parse_bracket_by(&mut here, is_exact);
    text.here = here;
    if let Some(annotation) = place_bracket(bracket?, &mut text.found) {
        text.first = Some(annotation);
    }
    Ok(AfterCore::Bracket)
}

/// Reads the annotations after the front of a text, up to the end of the input, and writes the calendar into the record.
/// Calls the handler with each annotation, also with that of the first bracket.
#[inline(never)]
fn parse_later_brackets<'a, T: EncodingType, F>(
    text: &mut OpenText<'a, T>,
    handler: &mut F,
) -> Result<(), Reason>
where
    F: FnMut(Annotation<'a, T>) -> Option<Annotation<'a, T>>,
    requires callable { F.IsAlwaysCallable handler.old }
    ensures replied { (spent : ℕ) ×
        PairsReadInto T.number (Counting F.step) (handler.old, 0) (handler.new, spent)
        (first_pairs (option_map (pair_of T.number) text.old.first)) (map T.letter text.old.here.rest)
        (parsed_of T.number text.old.found) (parsed_of T.number text.new.found) result (map T.letter text.new.here.rest) ×
        Spends (2 * length text.old.here.rest + 10 + spent) text.old.here text.new.here }
    ensures empty { OnOk result (text.new.here.rest ≡ []) }
{
    // If the annotation were taken out of the text, the code would be larger.
    let first = match &text.first {
        Some(pair) => Some(copied(pair)),
        None => None,
    };
    let mut here = text.here.fork();
    let calendar = parse_annotations::<T, F>(&mut here, first, handler);
    text.here = here;
    place_calendar(calendar?, &mut text.found);
    Ok(())
}

/// Returns a copy of an annotation.
///
/// A `Copy` of an annotation needs a `T` that is `Copy` in Rust.
#[inline(always)]
fn copied<'a, T: EncodingType>(pair: &Annotation<'a, T>) -> Annotation<'a, T>
    ensures { result ≡ pair.now }
{
    Annotation {
        critical: pair.critical,
        key: pair.key,
        value: pair.value,
    }
}

/// Returns the error of a `Reason`. The cursor of the text is at the position of the error, and `start` is the number of
/// code units that remained before the text was read.
///
/// The function is inlined, although it is then compiled once for each handler: a call would take 10 instructions. The function
/// returns the error as the result of a reader, so the error is written where the reader returns it, and is not copied.
#[inline(always)]
fn refuse<'a, T: EncodingType, E: FromStop>(
    text: &mut OpenText<'a, T>,
    start: usize,
    stop: Reason,
) -> Result<IxdtfParseRecord<'a, T>, E>
    ensures refused { (why : StopAt) × (e : E) × (result ≡ Err e) × (E.fault e ≡ fault_of_code why.code) × E.stands why.reason why.at e ×
        (why.reason ≡ stop) × (why.at ≡ start - length text.old.here.rest) ×
        (fault_of_code why.code ≡ fault_at true stop (map T.letter text.old.here.rest)) }
    ensures rest { text.new.here.rest ≡ text.old.here.rest }
    ensures looks { text.new.here.looks ≡ text.old.here.looks + 1 }
{
    let at = start.saturating_sub(text.here.remaining());
    let next = text.here.next();
    Err(E::of_stop(StopAt {
        reason: stop,
        code: code_of(stop, true, next),
        at,
    }))
}

/// Writes the zone of a first bracket into the record. If the bracket is an annotation, returns it.
#[inline(always)]
fn place_bracket<'a, T: EncodingType>(
    bracket: Bracket<'a, T>,
    found: &mut IxdtfParseRecord<'a, T>,
) -> Option<Annotation<'a, T>>
    requires { HasNoBrackets found.old }
    ensures pair { first_pairs (option_map (pair_of T.number) result) ≡
        pairs_in (bracket_of T.number bracket.entry) }
    ensures zone { parsed_of T.number found.new ≡
        parsed_with (core_in found.old) (zone_in (bracket_of T.number bracket.entry)) }
{
    match bracket {
        Bracket::Zone(zone) => {
            found.tz = Some(zone);
            None
        }
        Bracket::Pair(annotation) => Some(annotation),
    }
}

/// Writes the value of the kept calendar into the record. `parse_annotations` returned this calendar.
#[inline(always)]
fn place_calendar<'a, T: EncodingType>(
    calendar: Option<Annotation<'a, T>>,
    found: &mut IxdtfParseRecord<'a, T>,
)
    ensures { parsed_of T.number found.new ≡
        with_calendar (parsed_of T.number found.old)
        (calendar_value (option_map (pair_of T.number) calendar.entry)) }
{
    found.calendar = calendar.map(|kept| kept.value);
}
