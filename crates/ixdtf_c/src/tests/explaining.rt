//! Tests of the functions that explain an error.

use super::wide::Units;
use crate::error_numbers::Text;
use crate::error_reports::{ixdtf_describe, ixdtf_hint};
use crate::explanations::{Explanation, ixdtf_explain, ixdtf16_explain};
use crate::reason_numbers::ixdtf_reason_line;

/// An explanation in which no field is 0.
const EXPLANATION: Explanation = Explanation {
    place: 1,
    begin: 1,
    end: 1,
    error: 1,
    reason: 1,
};

/// The number of a reader, a text, and the explanation. It has the number of the error, the number of the reason, the position, and the
/// part that is wrong.
type Row = (u32, &'static [u8], (u32, u32, usize, usize, usize));

/// Texts of the readers without a handler, of two readers that list annotations, and one that is accepted.
const ROWS: [Row; 6] = [
    (1, b"2024-13-01", (6, 7, 7, 5, 7)),
    (1, b"2024-03-02[!a=b]", (32, 125, 16, 10, 16)),
    (13, b"P1Y2Y", (41, 120, 5, 3, 5)),
    (14, b"2024-03-02[!a=b]-", (5, 102, 16, 16, 17)),
    (20, b"1200-", (4, 39, 5, 5, 5)),
    (14, b"2024-03-02[!a=b]", (0, 0, 0, 0, 0)),
];

/// Returns the fields of an explanation, in the order of a row.
fn fields(it: &Explanation) -> (u32, u32, usize, usize, usize) {
    (it.error, it.reason, it.place, it.begin, it.end)
}

#[test]
fn explains_errors(rt: HostRuntime) {
    for (reader, text, wanted) in ROWS {
        let mut narrow = EXPLANATION;
        assert_eq!(rt; ixdtf_explain(reader, text, &mut narrow), wanted.0);
        assert_eq!(rt; fields(&narrow), wanted);
        let mut wide = EXPLANATION;
        let units = Units::of(text);
        assert_eq!(rt;
            ixdtf16_explain(reader, units.as_slice(), &mut wide),
            wanted.0
        );
        assert_eq!(rt; fields(&wide), wanted);
    }
}

#[test]
fn refuses_numbers_that_no_reader_has(rt: HostRuntime) {
    for number in [0, 21, u32::MAX] {
        let mut out = EXPLANATION;
        assert_eq!(rt; ixdtf_explain(number, b"2024", &mut out), 105);
        assert_eq!(rt; ixdtf16_explain(number, &[50], &mut out), 105);
        assert_eq!(rt; fields(&out), (1, 1, 1, 1, 1));
    }
}

#[test]
fn names_reasons(rt: HostRuntime) {
    let mut text = Text { bytes: &[1] };
    ixdtf_reason_line(126, &mut text);
    assert_eq!(rt; text.bytes, b"critical_duplicate_calendar".as_slice());
    ixdtf_reason_line(127, &mut text);
    assert_eq!(rt; text.bytes, b"".as_slice());
}

/// The report about `2024-3-02`. The last 23 bytes are the hint.
const REPORT: &[u8] =
    b"expected a digit of the month, which has two, found `-`\n2024-3-02\n      ^\nhint: write the month as `03`";

#[test]
fn describes_errors(rt: HostRuntime) {
    let text = b"2024-3-02".as_slice();
    let mut why = EXPLANATION;
    let mut count = 0;
    assert_eq!(rt; ixdtf_explain(1, text, &mut why), 10);
    let mut short = [0u8; 102];
    assert_eq!(rt; ixdtf_describe(&why, text, &mut short, &mut count), 102);
    assert_eq!(rt; (short[0], count), (0, 103));
    let mut report = [0u8; 104];
    assert_eq!(rt; ixdtf_describe(&why, text, &mut report, &mut count), 0);
    assert_eq!(rt; report.get(..103), Some(REPORT));
    assert_eq!(rt; (report[103], count), (0, 103));
}

#[test]
fn writes_hints(rt: HostRuntime) {
    let text = b"2024-3-02".as_slice();
    let mut why = EXPLANATION;
    let mut count = 0;
    assert_eq!(rt; ixdtf_explain(1, text, &mut why), 10);
    let mut short = [0u8; 22];
    assert_eq!(rt; ixdtf_hint(&why, text, &mut short, &mut count), 102);
    let mut hint = [0u8; 24];
    assert_eq!(rt; ixdtf_hint(&why, text, &mut hint, &mut count), 0);
    assert_eq!(rt; hint.get(..23), Some(b"write the month as `03`".as_slice()));
    assert_eq!(rt; (hint[23], count), (0, 23));
}

#[test]
fn describes_nothing_without_a_reason(rt: HostRuntime) {
    for reason in [0, 127, u32::MAX] {
        let mut why = EXPLANATION;
        why.reason = reason;
        let mut out = [7u8; 8];
        let mut count = 7;
        assert_eq!(rt; ixdtf_describe(&why, b"2024", &mut out, &mut count), 101);
        assert_eq!(rt; ixdtf_hint(&why, b"2024", &mut out, &mut count), 101);
        assert_eq!(rt; (out[0], count), (7, 7));
    }
}
