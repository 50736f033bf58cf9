//! Functions that call the handler, and keep the first of its replies with the key `u-ca`.

#![tactic(auto, unfolding(ixdtf_reading::specs::reading::Pairs::pair_readings))]

ghost use Rattle.std.specs.Prelude.{◌≡◌, ℕ, ◌+◌, ◌*◌, ◌≤◌, [], ◌∷◌, map, length, None, option_map, OnOk, IfOk, IfErr};
ghost use Rattle.std.specs.Option.{option_or};
ghost use Rattle.ixdtf_grammar.specs.table.Faults.{Fault};
ghost use Rattle.ixdtf_reading.specs.reading.Clauses.{Spends, yielded_at};
ghost use Rattle.ixdtf_grammar.specs.Handlers.{RefusedBeside, first_calendar, pair_of};
ghost use Rattle.ixdtf_reading.specs.reading.Stops.{Refuses};
ghost use Rattle.ixdtf_reading.specs.reading.Chains.{PairsRead, Counting, reply_units, first_pairs};

use ixdtf_grammar::Reason;
use ixdtf_grammar::encoding::EncodingType;
use ixdtf_grammar::records::Annotation;
use ixdtf_reading::annotations::next_annotation;
use ixdtf_reading::cursor::Cursor;

/// Calls the handler with an annotation. This is the only function that calls it.
#[inline(always)]
fn ask<'a, T: EncodingType, F>(
    handler: &mut F,
    annotation: Annotation<'a, T>,
) -> Option<Annotation<'a, T>>
where
    F: FnMut(Annotation<'a, T>) -> Option<Annotation<'a, T>>,
    requires callable { F.IsAlwaysCallable handler.old }
    ensures again { F.IsAlwaysCallable handler.new }
    ensures step { F.step handler.old annotation.entry result handler.new }
{
    handler(annotation)
}

/// A *calendar* is an annotation with the key `u-ca`. If the reply is a calendar, and no earlier reply was one, keeps it.
///
/// Returns `UnrecognizedCritical` if the reply is critical and is not a calendar. Returns `CriticalDuplicateCalendar`
/// if it is a calendar, its value differs from that of the first one, and at least one of the two is critical. If none
/// of the two is critical, the values are not compared. The cursor counts the code units that are compared, and does not
/// move.
#[inline(always)]
pub(crate) fn keep_first_calendar<'a, T: EncodingType>(
    cursor: &mut Cursor<'a, T>,
    calendar: &mut Option<Annotation<'a, T>>,
    reply: Option<Annotation<'a, T>>,
) -> Result<(), Reason>
    ensures accepted { IfOk result (λ _. (fault : Fault) →
        ¬ (RefusedBeside (option_map (pair_of T.number) calendar.old)
        (option_map (pair_of T.number) reply.entry) fault)) }
    ensures kept { IfOk result (λ _.
        option_map (pair_of T.number) calendar.new ≡
        option_or (option_map (pair_of T.number) calendar.old)
        (first_calendar (option_map (pair_of T.number) reply.entry ∷ []))) }
    ensures err { IfErr result (λ stop. (fault : Fault) × Refuses stop fault ×
        RefusedBeside (option_map (pair_of T.number) calendar.old)
        (option_map (pair_of T.number) reply.entry) fault) }
    ensures rest { cursor.new.rest ≡ cursor.old.rest }
    ensures counted { cursor.old.looks ≤ cursor.new.looks }
    ensures few { cursor.new.looks ≤ cursor.old.looks + 4 + 2 * reply_units reply.entry }
    ensures alone { calendar.old ≡ None → cursor.new.looks ≤ cursor.old.looks + 4 }
{
    let Some(found) = reply else {
        return Ok(());
    };
    if !cursor.is_calendar_key(found.key) {
        if found.critical {
            return Err(Reason::UnrecognizedCritical);
        }
        return Ok(());
    }
    match calendar {
        None => {
            *calendar = Some(found);
            Ok(())
        }
        Some(first) => {
            if (first.critical || found.critical)
                && !cursor.has_same_units(first.value, found.value)
            {
                return Err(Reason::CriticalDuplicateCalendar);
            }
            Ok(())
        }
    }
}

/// Reads the annotations up to the end of the input, and calls the handler with each after its bracket has been read.
///
/// Returns the calendar that is kept. `first` is an annotation that has already been read, if there is one.
#[inline(always)]
pub fn parse_annotations<'a, T: EncodingType, F>(
    cursor: &mut Cursor<'a, T>,
    first: Option<Annotation<'a, T>>,
    handler: &mut F,
) -> Result<Option<Annotation<'a, T>>, Reason>
where
    F: FnMut(Annotation<'a, T>) -> Option<Annotation<'a, T>>,
    requires callable { F.IsAlwaysCallable handler.old }
    ensures pairs { (spent : ℕ) ×
        PairsRead T.number (Counting F.step) (handler.old, 0) (handler.new, spent)
        (first_pairs (option_map (pair_of T.number) first.entry))
        (map T.letter cursor.old.rest)
        (yielded_at (option_map (pair_of T.number)) result (map T.letter cursor.new.rest)) ×
        Spends (2 * length cursor.old.rest + 10 + spent) cursor.old cursor.new }
    ensures empty { OnOk result (cursor.new.rest ≡ []) }
{
    let mut calendar = None;
    if let Some(annotation) = first {
        let reply = ask::<T, F>(handler, annotation);
        keep_first_calendar::<T>(cursor, &mut calendar, reply)?;
    }
    while let Some(annotation) = next_annotation(cursor)? {
        let reply = ask::<T, F>(handler, annotation);
        keep_first_calendar::<T>(cursor, &mut calendar, reply)?;
    }
    Ok(calendar)
}
