//! Laws of instants. They follow from the contract of
//! [`IxdtfParseRecord::instant`](crate::records::IxdtfParseRecord::instant).
//!
//! The laws are about dates, times and offsets, and about the *count* of an instant: the number of nanoseconds from
//! 1970-01-01T00:00:00Z to the instant.

ghost use Rattle.ixdtf_instants.specs.Order.{ComparesInstants};
ghost use Rattle.ixdtf_grammar.specs.InstantLaws.{CountsAreInOrder, CountsBeginIn1970, InstantsAreInOrder, NextDayIsADayLater, OffsetsMakeUp, Second60Is59, TextIsReadBack};

use ixdtf_instants::Instant;

/// States that the next day, at the same time and offset, is 86,400 seconds later.
///
/// The count of an instant is computed from the *day number* of a date. This is the number of days from 1 January 1970
/// to the date.
///
/// - `first`: the day number of 1 January 1970 is 0.
/// - `next`: if a date that exists is replaced by the next day, the instant is 86,400 seconds later.
pub fn next_day_is_a_day_later()
    ensures first { CountsBeginIn1970 }
    ensures next { NextDayIsADayLater }
{}

/// States that a later date and time, at the same offset, has an instant with a larger count, and that a greater instant
/// has a larger count.
///
/// - `counts`: suppose that two dates exist, and that each has a time. The hours are at most 23, the minutes are at
///   most 59, and the seconds are at most 60. Second 60 counts as second 59. Then, at the same offset, one date and
///   time comes before the other exactly if the count of its instant is smaller.
/// - `compared`: `Ord` compares two instants by their seconds, and then by their nanoseconds.
/// - `instants`: suppose that the nanoseconds of two instants are below 1,000,000,000. One instant is less than the other
///   in this order exactly if its count is smaller.
pub fn instants_are_in_order()
    ensures counts { InstantsAreInOrder }
    ensures compared { ComparesInstants ⟦<Instant as Ord>⟧.cmp }
    ensures instants { CountsAreInOrder }
{}

/// States when two local times are the same instant. A local time here is a date and a time, and has an offset.
///
/// Let `a` and `b` be local times with the offsets `x` and `y`. The difference `b - a` is computed from the dates and
/// times only, without the offsets. The local times are the same instant exactly if `b - a` is equal to `y - x`. For
/// example, on one date, `12:00+01:00` and `13:00+02:00` are the same instant: both differences are one hour.
pub fn offsets_make_up()
    ensures { OffsetsMakeUp }
{}

/// States that second 60 is the same instant as second 59 with the same fraction.
pub fn second_60_is_59()
    ensures { Second60Is59 }
{}

/// States that `parse` accepts the text that `Display` writes for an instant, and that the record has this instant.
///
/// The law is about each instant that is not before -999999-01-01T00:00:00Z, and is before +1000000-01-01T00:00:00Z. It
/// states that the grammar derives a record from the text of this instant. This record has a date, a time and `Z`, and
/// nothing else. By the clause `reads` in the contract of [`IxdtfParser::parse`](crate::parsers::IxdtfParser::parse),
/// `parse` then returns this record.
pub fn text_is_read_back()
    ensures { TextIsReadBack }
{}
