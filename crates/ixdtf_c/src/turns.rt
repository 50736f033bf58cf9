//! A caller that has a handler, but calls only functions of the library for C. It shows that a program does not need a reader
//! with a handler: a reader that lists the annotations, and a function that checks replies, are enough.

ghost use Rattle.std.specs.Prelude.{◌≡◌, ◌≢◌, ◌≤◌, ◌<◌, None, length, map, option_map, Result};
ghost use Rattle.ixdtf_grammar.specs.declared.profile.Profile.TheVariants.{Crate};
ghost use Rattle.ixdtf.specs.Handlers.{Handled, calendar_value, pair_of};
ghost use Rattle.ixdtf.specs.language.Letters.{byte_letter};
ghost use Rattle.ixdtf.specs.language.Readers.{parse};
ghost use Rattle.ixdtf.specs.language.Languages.{Parsed};
ghost use Rattle.ixdtf_c.specs.Crossing.{Gives, units_for};
ghost use Rattle.ixdtf_c.specs.Listing.{Lists, ListsRecord};
ghost use Rattle.ixdtf_c.specs.Located.{FaultAt, unplaced};
ghost use Rattle.ixdtf_c.specs.Narrow.{annotation_by, calendar_by, contents, SameButError};
ghost use Rattle.ixdtf_c.specs.Turns.{HandsOver, InTurn, StandsAs};

use crate::exports::{ixdtf_parse_with_annotations, ixdtf_reply};
use crate::narrow::{Annotation, Calendar, Record};
use ixdtf::encoding::Utf8;
use ixdtf::records;

/// Calls the handler for an annotation.
#[inline(always)]
fn ask<'a, F>(
    handler: &mut F,
    annotation: records::Annotation<'a, Utf8>,
) -> Option<records::Annotation<'a, Utf8>>
where
    F: FnMut(records::Annotation<'a, Utf8>) -> Option<records::Annotation<'a, Utf8>>,
    requires callable { F.IsAlwaysCallable handler.old }
    ensures again { F.IsAlwaysCallable handler.new }
    ensures step { F.step handler.old annotation.entry result handler.new }
{
    handler(annotation)
}

/// Passes a reply to [`ixdtf_reply`], if the handler returned one. Returns 0 or the number of the error.
fn hand_over<'a>(calendar: &mut Calendar<'a>, reply: Option<records::Annotation<'a, Utf8>>) -> u32
    ensures { HandsOver (calendar_by calendar.old) (calendar_by calendar.new)
        (option_map (pair_of (λ unit. unit)) reply.entry) result }
{
    match reply {
        None => 0,
        Some(it) => {
            let reply = Annotation {
                key: it.key,
                value: it.value,
                is_critical: it.critical,
            };
            ixdtf_reply(calendar, &reply)
        }
    }
}

/// Calls the handler for each annotation in order, and passes each reply to [`ixdtf_reply`]. Stops at the first reply that is
/// refused, and returns the number of its error. Returns 0 if no reply is refused.
fn reply_in_turn<'a, F>(
    annotations: &[Annotation<'a>],
    calendar: &mut Calendar<'a>,
    handler: &mut F,
) -> u32
where
    F: FnMut(records::Annotation<'a, Utf8>) -> Option<records::Annotation<'a, Utf8>>,
    requires callable { F.IsAlwaysCallable handler.old }
    requires none { calendar_by calendar.old ≡ None }
    ensures { InTurn (λ unit. unit) F.step handler.old handler.new
        (map annotation_by annotations.now) (calendar_by calendar.new) result }
{
    for annotation in annotations {
        let asked = records::Annotation {
            key: annotation.key,
            value: annotation.value,
            critical: annotation.is_critical,
        };
        let number = hand_over(calendar, ask(handler, asked));
        if number != 0 {
            return number;
        }
    }
    0
}

/// Returns the code units of the calendar that was kept. The slice is empty if none was kept.
fn units_of<'a>(calendar: &Calendar<'a>) -> &'a [u8]
    ensures { map (λ unit. unit) result.now ≡ units_for (calendar_value (calendar_by calendar.now)) }
{
    if calendar.is_there {
        calendar.value
    } else {
        &[]
    }
}

/// Reads a date, or a date and a time, and calls the handler for the annotations, in order. The functions for C read the text
/// and check the replies.
///
/// This function calls [`ixdtf_parse_with_annotations`]. That function lists the annotations, and writes their number to `count`.
/// If the array is too short for all annotations, the handler is not called, and the function returns the number that
/// [`ixdtf_parse_with_annotations`] returned. If this number is 0, the record has no calendar.
///
/// If the array is long enough, this function calls the handler for each annotation, and passes each reply to
/// [`ixdtf_reply`]. It stops at the first reply that is refused, and returns the number of the error. If no reply is
/// refused, it returns the number that [`ixdtf_parse_with_annotations`] returned. If this number is 0, the record has the
/// calendar that was kept, if there is one. If the array is long enough, the outcome is that of
/// `parse_with_annotation_handler`, except for the position of an error. The field `place` always has the value that
/// [`ixdtf_parse_with_annotations`] wrote. This is so even if a reply is refused.
///
/// After an error, the record is unchanged, except for `location` and `place`.
pub fn parse_in_turn<'a, F>(
    text: &'a [u8],
    annotations: &mut [Annotation<'a>],
    count: &mut usize,
    out: &mut Record<'a>,
    mut handler: F,
) -> u32
where
    F: FnMut(records::Annotation<'a, Utf8>) -> Option<records::Annotation<'a, Utf8>>,
    requires callable { F.IsAlwaysCallable handler }
    ensures handled { count.new ≤ length annotations.old → (listed outcome : Result Parsed FaultAt)
        × Lists annotation_by Crate parse (map byte_letter text.now) annotations.old annotations.new count.new listed
        × Handled (λ unit. unit) F.step handler parse (map byte_letter text.now) (unplaced outcome)
        × StandsAs listed outcome
        × Gives (λ found. found) outcome result (contents out.old) (contents out.new) }
    ensures short { length annotations.old < count.new → ListsRecord annotation_by Crate parse (map byte_letter text.now)
        annotations.old annotations.new count.new result (contents out.old) (contents out.new) }
    ensures unchanged { result ≢ 0 → SameButError out.old out.new }
{
    let before = *out;
    let read = ixdtf_parse_with_annotations(text, annotations, count, out);
    if *count > annotations.len() {
        return read;
    }
    let mut calendar = Calendar {
        value: &[],
        is_critical: false,
        is_there: false,
    };
    let refused = reply_in_turn(&annotations[..*count], &mut calendar, &mut handler);
    if refused != 0 {
        let place = out.place;
        *out = before;
        out.location = &[];
        out.place = place;
        return refused;
    }
    if read == 0 {
        out.calendar = units_of(&calendar);
        out.has_calendar = calendar.is_there;
    }
    read
}
