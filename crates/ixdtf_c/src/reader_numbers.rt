//! The readers, by the numbers that a program in C passes to `ixdtf_explain`.

ghost use Rattle.std.specs.Prelude.{◌≡◌, Some, None, IfSome, IfNone};
ghost use Rattle.ixdtf_c.specs.Asked.{asked_by, asked_of};

/// A reader of the library for C.
#[derive(Clone, Copy)]
pub enum Reader {
    /// `ixdtf_parse`.
    Parse,
    /// `ixdtf_parse_year_month`.
    YearMonth,
    /// `ixdtf_parse_month_day`.
    MonthDay,
    /// `ixdtf_parse_time`.
    Time,
    /// `ixdtf_parse_rfc3339`.
    Rfc3339,
    /// `ixdtf_parse_rfc9557`.
    Rfc9557,
    /// `ixdtf_parse_offset`.
    Offset,
    /// `ixdtf_parse_identifier`.
    Identifier,
    /// `ixdtf_parse_iana_identifier`.
    IanaIdentifier,
    /// `ixdtf_parse_duration`.
    Duration,
    /// `ixdtf_parse_month_day_strict`.
    StrictMonthDay,
    /// `ixdtf_parse_time_strict`.
    StrictTime,
    /// `ixdtf_parse_duration_strict`.
    StrictDuration,
    /// `ixdtf_parse_with_annotations`.
    Listing,
    /// `ixdtf_parse_year_month_with_annotations`.
    ListingYearMonth,
    /// `ixdtf_parse_month_day_with_annotations`.
    ListingMonthDay,
    /// `ixdtf_parse_time_with_annotations`.
    ListingTime,
    /// `ixdtf_parse_rfc9557_with_annotations`.
    ListingRfc9557,
    /// `ixdtf_parse_month_day_with_annotations_strict`.
    ListingStrictMonthDay,
    /// `ixdtf_parse_time_with_annotations_strict`.
    ListingStrictTime,
}

/// Returns the reader with this number, or `None` if no reader has it. The C header names the numbers.
pub fn reader_by_number(number: u32) -> Option<Reader>
    ensures some { IfSome result (λ reader. asked_by number ≡ Some (asked_of reader)) }
    ensures none { IfNone result (asked_by number ≡ None) }
{
    match number {
        1 => Some(Reader::Parse),
        2 => Some(Reader::YearMonth),
        3 => Some(Reader::MonthDay),
        4 => Some(Reader::Time),
        5 => Some(Reader::Rfc3339),
        6 => Some(Reader::Rfc9557),
        7 => Some(Reader::Offset),
        8 => Some(Reader::Identifier),
        9 => Some(Reader::IanaIdentifier),
        10 => Some(Reader::Duration),
        11 => Some(Reader::StrictMonthDay),
        12 => Some(Reader::StrictTime),
        13 => Some(Reader::StrictDuration),
        14 => Some(Reader::Listing),
        15 => Some(Reader::ListingYearMonth),
        16 => Some(Reader::ListingMonthDay),
        17 => Some(Reader::ListingTime),
        18 => Some(Reader::ListingRfc9557),
        19 => Some(Reader::ListingStrictMonthDay),
        20 => Some(Reader::ListingStrictTime),
        _ => None,
    }
}
