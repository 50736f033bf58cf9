//! Tests for `ixdtf_check` of what no contract states: the counts of complete runs, and readers and writers that fail. The reports, the arguments
//! and the options are in the cases of the folder `tests`.

mod faults;

use ixdtf::parsers::Profile;
use ixdtf_buffers::place::pass_many;
use ixdtf_checks::checker::check;
use ixdtf_checks::exit_status::status_of;
use ixdtf_checks::kind::Kind;
use ixdtf_checks::request::{Format, Request, Task};
use ixdtf_checks::tally::Tally;
use std::alloc::Global;
use std::process::Abort;
use std::test::Fail;

/// A request that checks date-times.
const DATE_TIMES: Request<'static> = Request {
    name: "f",
    task: Task::Check(Kind::DateTime),
    profile: Profile::Crate,
    field: None,
    skips: None,
    most_reports: u64::MAX,
    format: Format::Text,
    is_quiet: false,
};

/// Asserts that a check of the input writes the bytes, and nothing to the second output, and that it counts all bytes of the input.
/// `counts` has the number of lines, and the number of refused lines.
fn check_written(
    rt: &impl Abort,
    alloc: Global,
    request: &Request<'_>,
    input: &[u8],
    bytes: &[u8],
    counts: (u64, u64),
) -> Result<(), Fail> {
    check_both(rt, alloc, request, input, (bytes, b""), counts)
}

/// Asserts that a check of the input writes the first bytes to the first output, and the others to the second, and that it counts
/// all bytes of the input. `counts` has the number of lines, and the number of refused lines.
fn check_both(
    rt: &impl Abort,
    alloc: Global,
    request: &Request<'_>,
    input: &[u8],
    bytes: (&[u8], &[u8]),
    counts: (u64, u64),
) -> Result<(), Fail> {
    let mut reader = input;
    let mut written = Vec::new(alloc);
    let mut reports = Vec::new(alloc);
    let checked = check(&mut reader, &mut written, &mut reports, request);
    assert_eq!(rt; checked.end, Ok(()));
    assert_eq!(rt; written.as_slice(), bytes.0);
    assert_eq!(rt; reports.as_slice(), bytes.1);
    assert_eq!(rt; checked.tally.lines, counts.0);
    assert_eq!(rt; checked.tally.refused, counts.1);
    assert_eq!(rt; checked.tally.bytes, input.len() as u64);
    Ok(())
}

const MIXED: &[u8] = b"2024-03-02T08:48:00Z\n2020-W01-1\n\n2021-02-29\r\n2020-01-01\r\n2020-13-01";

const MIXED_REPORTS: &[u8] = b"f:2:6: expected a digit of the month, which has two, found `W`\n\
2020-W01-1\n     ^\nhint: a week is not read; write the month instead\n\
f:3:1: the text is empty; expected a year of four digits\n\n^\n\
f:4:9: the day is 29, and has to be 01 to 28\n2021-02-29\n        ^^\n\
f:6:6: the month is 13, and has to be 01 to 12\n2020-13-01\n     ^^\n";

#[test]
fn reports_the_lines_that_are_refused(rt: HostRuntime) -> Result<(), Fail> {
    check_written(&rt, rt.alloc(), &DATE_TIMES, MIXED, MIXED_REPORTS, (6, 4))?;
    check_written(&rt, rt.alloc(), &DATE_TIMES, b"", b"", (0, 0))?;
    check_written(&rt, rt.alloc(), &DATE_TIMES, b"2020-01-01", b"", (1, 0))
}

#[test]
fn counts_in_quiet(rt: HostRuntime) -> Result<(), Fail> {
    let mut request = DATE_TIMES;
    request.is_quiet = true;
    check_written(&rt, rt.alloc(), &request, MIXED, b"", (6, 4))
}

#[test]
fn reports_no_more_lines_than_asked(rt: HostRuntime) -> Result<(), Fail> {
    let mut request = DATE_TIMES;
    request.most_reports = 4;
    check_written(&rt, rt.alloc(), &request, MIXED, MIXED_REPORTS, (6, 4))?;
    request.most_reports = 1;
    let first =
        b"f:2:6: expected a digit of the month, which has two, found `W`\n2020-W01-1\n     ^\nhint: a week is not read; write the month instead\n";
    check_written(&rt, rt.alloc(), &request, MIXED, first, (6, 4))?;
    request.most_reports = 0;
    check_written(&rt, rt.alloc(), &request, MIXED, b"", (6, 4))
}

#[test]
fn passes_over_sixteen_bytes(rt: HostRuntime) {
    let fields = b"a,b,c,d,e,f,g,h,i,j";
    let passed = pass_many(b',', 9, fields);
    assert_eq!(rt; passed.place, 16);
    assert_eq!(rt; passed.left, 1);
    let stayed = pass_many(b',', 8, fields);
    assert_eq!(rt; stayed.place, 0);
    assert_eq!(rt; stayed.left, 8);
}

#[test]
fn writes_canonical_texts_and_reports_apart(rt: HostRuntime) -> Result<(), Fail> {
    let mut request = DATE_TIMES;
    request.task = Task::Print(Kind::DateTime);
    let input = b"2020-13-01\n20200101T00+00[+00]\n2020-01-00\n";
    let canonical = b"2020-01-01T00:00:00+00:00[+00:00]\n";
    let reports = b"f:1:6: the month is 13, and has to be 01 to 12\n2020-13-01\n     ^^\n\
f:3:9: the day is 00, and has to be 01 to 31\n2020-01-00\n        ^^\n";
    let alloc = rt.alloc();
    check_both(&rt, alloc, &request, input, (canonical, reports), (3, 2))?;
    request.most_reports = 1;
    let first = &reports[..66];
    check_both(&rt, alloc, &request, input, (canonical, first), (3, 2))?;
    request.is_quiet = true;
    check_written(&rt, alloc, &request, input, canonical, (3, 2))
}

#[test]
fn adds_up(rt: HostRuntime) {
    let mut total = Tally::new();
    let one = Tally {
        lines: 3,
        refused: 1,
        bytes: 40,
    };
    total.add(one);
    total.add(one);
    assert_eq!(rt;
        total,
        Tally {
            lines: 6,
            refused: 2,
            bytes: 80
        }
    );
    assert_eq!(rt; status_of(false, total.refused), 1);
    assert_eq!(rt; status_of(true, 0), 2);
    assert_eq!(rt; status_of(false, 0), 0);
}
