//! Tests of errors, of errors with their positions, and of texts with a mark under the position. The messages and the hints are in the rows
//! of `tests/refused.tsv`.

ghost use Rattle.std.specs.Prelude.{◌≡◌, ◌+◌, IfOk, length, min};
ghost use Rattle.std.specs.String.{string_bytes};
ghost use Rattle.ixdtf.specs.LocatedTexts.{pointed_text};

use super::{AT_DIGIT, check, check_displayed};
use ixdtf::ParseError::{self, AbruptEnd, InvalidEnd, InvalidMonthRange};
use ixdtf::{LocatedError, Reason, WrongPart};
use std::alloc::{AllocError, Global};
use std::test::Fail;

const AT_FIVE: LocatedError = LocatedError {
    error: InvalidMonthRange,
    at: 5,
    reason: Reason::MonthRange,
};

const AT_THE_END: LocatedError = LocatedError {
    error: AT_DIGIT,
    at: 1234,
    reason: Reason::DayDigits,
};

#[test]
fn displays_the_error_and_its_place(rt: HostRuntime) -> Result<(), Fail> {
    let month = "Parsed month value not in a valid range. at 5";
    check_displayed(&rt, rt.alloc(), &AT_FIVE, month)?;
    let end = "Parsing ended abruptly while parsing digit at 1234";
    check_displayed(&rt, rt.alloc(), &AT_THE_END, end)
}

#[test]
fn errors_are_equal_by_all_parts(rt: HostRuntime) {
    let at_digits = AbruptEnd {
        location: &"digits"[..5],
    };
    check(&rt, "digit", AT_DIGIT == at_digits);
    let at_date = AbruptEnd { location: "Date" };
    check(&rt, "Date", AT_DIGIT != at_date);
    check(&rt, "another error", AT_DIGIT != InvalidEnd);
    check(&rt, "an error with its position", AT_FIVE != AT_THE_END);
    let copy: Result<LocatedError, _> = AT_FIVE.clone();
    check(&rt, "a clone", copy == Ok(AT_FIVE));
    let error: ParseError = ParseError::from(AT_FIVE);
    check(&rt, "its error", error == InvalidMonthRange);
}

#[test]
fn says_what_is_wrong(rt: HostRuntime) -> Result<(), Fail> {
    let text = b"2024-3-02".as_slice();
    let error = LocatedError {
        error: InvalidEnd,
        at: 6,
        reason: Reason::MonthDigits,
    };
    let said = "expected a digit of the month, which has two, found `-`";
    check_displayed(&rt, rt.alloc(), &error.message_in(text), said)?;
    let is_wrong = error.part_in(text) == WrongPart { begin: 6, end: 7 };
    check(&rt, "its part", is_wrong && AT_FIVE.hint_in(text).is_none());
    match error.hint_in(text) {
        Some(hint) => check_displayed(&rt, rt.alloc(), &hint, "write the month as `03`")?,
        None => check(&rt, "a hint", false),
    }
    Ok(())
}

// Returns the two lines for a text and a position in it.
fn pointed(alloc: Global, text: &str, at: usize) -> Result<String, AllocError>
    ensures { IfOk result (λ lines. string_bytes lines ≡
        pointed_text text.now (min at (length text.now)) (min (min at (length text.now) + 1) (length text.now))) }
{
    let error = LocatedError {
        error: InvalidEnd,
        at,
        reason: Reason::AfterDate,
    };
    let lines = error.in_text(text);
    format!(in alloc; "{lines}")
}

// A text of 72 characters.
const FULL: &str = "000000000011111111112222222222333333333344444444555555555566666666667777";

#[rattlefmt::skip]
const MARKS: &[(&str, usize, &str)] = &[
    ("2020-13-01", 7, "2020-13-01\n       ^"),
    ("2020-", 5, "2020-\n     ^"),
    ("", 1, "\n^"),
    // Columns are counted in characters.
    ("\u{e9}1\u{1f600}2", 7, "\u{e9}1\u{1f600}2\n   ^"),
    // These positions are inside a character.
    ("\u{e9}1\u{1f600}2", 6, "\u{e9}1\u{1f600}2\n  ^"),
    // Control characters are shown as dots.
    ("2020\n-01", 4, "2020.-01\n    ^"),
    ("\t\0\r\u{7f}x", 4, "....x\n    ^"),
    // At most 48 characters before the position and 24 from it on are shown.
    (FULL, 48, "000000000011111111112222222222333333333344444444555555555566666666667777\n                                                ^"),
    (FULL, 47, "00000000001111111111222222222233333333334444444455555555556666666666777..\n                                               ^"),
    (FULL, 49, "..00000000011111111112222222222333333333344444444555555555566666666667777\n                                                  ^"),
];

#[test]
fn marks_the_place(rt: HostRuntime) -> Result<(), Fail> {
    for (text, at, lines) in MARKS {
        let written = pointed(rt.alloc(), text, *at)?;
        check(&rt, lines, written.as_str() == *lines);
    }
    Ok(())
}

#[test]
fn marks_each_byte_of_the_part(rt: HostRuntime) -> Result<(), Fail> {
    let month = LocatedError {
        error: InvalidMonthRange,
        at: 7,
        reason: Reason::MonthRange,
    };
    let lines = "2020-13-01\n     ^^";
    check_displayed(&rt, rt.alloc(), &month.in_text("2020-13-01"), lines)?;
    check_displayed(&rt, rt.alloc(), &month.in_bytes(b"2020-13-01"), lines)?;
    let front = "2020-13\n     ^^";
    check_displayed(&rt, rt.alloc(), &month.in_bytes(b"2020-13\xE9"), front)
}
