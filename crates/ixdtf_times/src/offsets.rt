//! Functions that read offsets from UTC.

#![tactic(auto, unfolding(ixdtf_reading::specs::reading::Zones::zone_readings))]

ghost use Rattle.std.specs.Prelude.{◌≡◌, ◌+◌, ◌≤◌, map, length, Option, Ok, Some, None, IfSome};
ghost use Rattle.ixdtf_grammar.specs.declared.records.DateRecord.{DateRecord};
ghost use Rattle.ixdtf_grammar.specs.declared.records.TimeRecord.{TimeRecord};
ghost use Rattle.ixdtf_grammar.specs.declared.records.UtcOffsetRecord.TheVariants.{MinutePrecision};
ghost use Rattle.ixdtf_grammar.specs.language.Cores.{core_of};
ghost use Rattle.ixdtf_grammar.specs.language.ZoneNames.{Zone};
ghost use Rattle.ixdtf_grammar.specs.language.Offsets.{sign_of, minutes_of, offset_of};
ghost use Rattle.ixdtf_grammar.specs.language.Times.{writes_seconds};
ghost use Rattle.ixdtf_reading.specs.reading.Clauses.{Reads, Spends};
ghost use Rattle.ixdtf_times.specs.TimeTypes.{opens_bracket, shape_of};
ghost use Rattle.ixdtf_reading.specs.reading.Looks.{error_of};
ghost use Rattle.ixdtf_reading.specs.reading.FixedPlaces.{hour_place, minute_place};
ghost use Rattle.ixdtf_reading.specs.reading.Cores.{offset_core_at};
ghost use Rattle.ixdtf_reading.specs.reading.DateTimes.{num_offset_at, open_end, numeric_core};
ghost use Rattle.ixdtf_reading.specs.reading.Zones.{offset_at, offset_alone_at, minute_offset_alone_at};

use crate::time::{Clock, TimeShape, close_after, parse_clock};
use ixdtf_grammar::Reason;
use ixdtf_grammar::encoding::EncodingType;
use ixdtf_grammar::records::{
    FullPrecisionOffset, MinutePrecisionOffset, Sign, TimeRecord, UtcOffsetRecord,
    UtcOffsetRecordOrZ,
};
use ixdtf_reading::classes::{is_annotation_open, is_ascii_sign, is_hyphen};
use ixdtf_reading::cursor::Cursor;

/// What follows the core of a text. The core is the part of a text before its first `[`.
#[derive(Clone, Copy)]
pub enum AfterCore {
    /// The end of the text.
    End,
    /// A `[`, which has been consumed.
    Bracket,
}

impl AfterCore {
    /// Returns whether a `[` follows the core.
    #[inline(always)]
    pub fn opens_bracket(self) -> bool
        ensures { result ≡ opens_bracket self }
    {
        match self {
            AfterCore::End => false,
            AfterCore::Bracket => true,
        }
    }
}

/// Returns the sign for a `+` or a `-`.
#[inline(always)]
pub fn sign_from(byte: u8) -> Sign
    ensures { result ≡ sign_of byte }
{
    if is_hyphen(byte) {
        Sign::Negative
    } else {
        Sign::Positive
    }
}

/// Returns the offset with this sign, and with the hour and the minute of `time`.
#[inline(always)]
pub fn minute_offset(sign: u8, time: TimeRecord) -> MinutePrecisionOffset
    ensures { result ≡ minutes_of sign time }
{
    MinutePrecisionOffset {
        sign: sign_from(sign),
        hour: time.hour,
        minute: time.minute,
    }
}

/// Returns the hour of an offset in the first two columns. Returns `None` if they do not fit, or if the hour is too
/// great.
#[inline(always)]
#[tactic(auto, unfolding(ixdtf_reading::specs::reading::FixedPlaces::hour_place))]
fn fixed_hour<'a, T: EncodingType>(cursor: &mut Cursor<'a, T>) -> Option<u8>
    ensures there { result ≡ hour_place (map T.letter cursor.old.rest) }
    ensures rest { cursor.new.rest ≡ cursor.old.rest }
    ensures few { cursor.new.looks ≤ cursor.old.looks + 2 }
    ensures counted { cursor.old.looks ≤ cursor.new.looks }
{
    cursor.fixed_number_up_to(0, 23)
}

/// Returns the minute of an offset after a colon at index 2. Returns `None` if a column does not fit, or if the minute
/// is too great.
#[inline(always)]
#[tactic(auto, unfolding(ixdtf_reading::specs::reading::FixedPlaces::minute_place))]
fn fixed_minute<'a, T: EncodingType>(cursor: &mut Cursor<'a, T>) -> Option<u8>
    ensures there { result ≡ minute_place (map T.letter cursor.old.rest) }
    ensures rest { cursor.new.rest ≡ cursor.old.rest }
    ensures few { cursor.new.looks ≤ cursor.old.looks + 3 }
    ensures counted { cursor.old.looks ≤ cursor.new.looks }
{
    cursor.fixed_letter(2, b':')?;
    cursor.fixed_number_up_to(3, 59)
}

/// Consumes an offset `HH:MM` after its sign, if the text ends after it or continues with `[`.
///
/// Writes the offset to `found`. Returns `End` if the text ends after the offset. Returns `Bracket` if a `[` follows the
/// offset, and then consumes the `[` too. Returns `None`, and consumes nothing, if the input has another form or a
/// number is out of range.
#[inline(always)]
pub fn take_fixed_offset<'a, T: EncodingType>(
    cursor: &mut Cursor<'a, T>,
    sign: u8,
    found: &mut Option<UtcOffsetRecordOrZ>,
) -> Option<AfterCore>
    ensures read { IfSome result (λ after. (date : Option DateRecord) (time : TimeRecord) →
        offset_core_at error_of date time sign (map T.letter cursor.old.rest) ≡
        Ok ((core_of date (Some time) found.new, opens_bracket after), map T.letter cursor.new.rest)) }
    ensures rest { result ≡ None → cursor.new.rest ≡ cursor.old.rest }
    ensures shorter { length cursor.new.rest ≤ length cursor.old.rest }
    ensures few { cursor.new.looks ≤ cursor.old.looks + 6 }
    ensures counted { cursor.old.looks ≤ cursor.new.looks }
{
    if cursor.remaining() < 5 {
        return None;
    }
    let hour = fixed_hour(cursor)?;
    let minute = fixed_minute(cursor)?;
    let offset = MinutePrecisionOffset {
        sign: sign_from(sign),
        hour,
        minute,
    };
    if cursor.remaining() == 5 {
        cursor.advance_by(5);
        *found = Some(UtcOffsetRecordOrZ::Offset(UtcOffsetRecord::MinutePrecision(offset)));
        return Some(AfterCore::End);
    }
    let next = cursor.byte_at(5);
    if !is_annotation_open(next) {
        return None;
    }
    cursor.advance_by(6);
    *found = Some(UtcOffsetRecordOrZ::Offset(UtcOffsetRecord::MinutePrecision(offset)));
    Some(AfterCore::Bracket)
}

/// Consumes an offset `HH:MM` after its sign, if it is the complete remaining input.
///
/// Returns `None`, and consumes nothing, if the input has another length or another form, or if a number is out of
/// range.
#[inline(always)]
pub fn take_last_offset<'a, T: EncodingType>(
    cursor: &mut Cursor<'a, T>,
    sign: u8,
) -> Option<MinutePrecisionOffset>
    ensures offset { IfSome result (λ offset. offset_alone_at error_of sign (map T.letter cursor.old.rest) ≡
        Ok (MinutePrecision offset, map T.letter cursor.new.rest)) }
    ensures zone { IfSome result (λ offset. minute_offset_alone_at error_of sign (map T.letter cursor.old.rest) ≡
        Ok (Zone.Offset offset, map T.letter cursor.new.rest)) }
    ensures rest { result ≡ None → cursor.new.rest ≡ cursor.old.rest }
    ensures shorter { length cursor.new.rest ≤ length cursor.old.rest }
    ensures few { cursor.new.looks ≤ cursor.old.looks + 5 }
    ensures counted { cursor.old.looks ≤ cursor.new.looks }
{
    if cursor.remaining() != 5 {
        return None;
    }
    let hour = fixed_hour(cursor)?;
    let minute = fixed_minute(cursor)?;
    let offset = MinutePrecisionOffset {
        sign: sign_from(sign),
        hour,
        minute,
    };
    cursor.advance_by(5);
    Some(offset)
}

/// Consumes an offset `HH:MM` after its sign, whatever follows it.
///
/// Returns `None`, and consumes nothing, if the input has another form, or if a number is out of range.
#[inline(always)]
pub fn take_numeric_offset<'a, T: EncodingType>(
    cursor: &mut Cursor<'a, T>,
    sign: u8,
) -> Option<MinutePrecisionOffset>
    ensures offset { IfSome result (λ offset. (date : DateRecord) (time : TimeRecord) →
        num_offset_at error_of open_end date time sign (map T.letter cursor.old.rest) ≡
        Ok (numeric_core date time offset, map T.letter cursor.new.rest)) }
    ensures rest { result ≡ None → cursor.new.rest ≡ cursor.old.rest }
    ensures shorter { length cursor.new.rest ≤ length cursor.old.rest }
    ensures few { cursor.new.looks ≤ cursor.old.looks + 5 }
    ensures counted { cursor.old.looks ≤ cursor.new.looks }
{
    if cursor.remaining() < 5 {
        return None;
    }
    let hour = fixed_hour(cursor)?;
    let minute = fixed_minute(cursor)?;
    let offset = MinutePrecisionOffset {
        sign: sign_from(sign),
        hour,
        minute,
    };
    cursor.advance_by(5);
    Some(offset)
}

/// Returns the record of an offset: a `FullPrecisionOffset` if it has seconds, and otherwise a `MinutePrecision`.
#[inline(always)]
pub fn offset_from(sign: u8, shape: TimeShape, time: TimeRecord) -> UtcOffsetRecord
    ensures { result ≡ offset_of sign (writes_seconds (shape_of shape)) time }
{
    let second = time.second;
    let fraction = time.fraction;
    let minute_precision_offset = minute_offset(sign, time);
    if !shape.writes_seconds() {
        return UtcOffsetRecord::MinutePrecision(minute_precision_offset);
    }
    UtcOffsetRecord::FullPrecisionOffset(FullPrecisionOffset {
        minute_precision_offset,
        second,
        fraction,
    })
}

/// Reads an offset, and expects the end of the input.
#[inline(always)]
pub fn parse_offset_text<'a, T: EncodingType>(
    cursor: &mut Cursor<'a, T>,
) -> Result<UtcOffsetRecord, Reason>
    ensures offset { Reads T.letter (λ offset. offset) cursor.old result cursor.new
        (offset_at error_of) }
    ensures looks { Spends 15 cursor.old cursor.new }
{
    match cursor.look(Reason::OffsetStart)? {
        Some(byte) if is_ascii_sign(byte) => {
            cursor.advance();
            if let Some(offset) = take_last_offset(cursor, byte) {
                return Ok(UtcOffsetRecord::MinutePrecision(offset));
            }
            let mut time = TimeRecord::default();
            let shape = parse_clock(cursor, Clock::Offset, &mut time)?;
            close_after(cursor, Clock::Offset, shape)?;
            Ok(offset_from(byte, shape, time))
        }
        _ => Err(Reason::OffsetStart),
    }
}
