//! Tests of what no contract states about `ixdtf_lines`: complete runs, and failing readers and writers. The texts with their answers are in the
//! tables of the folder `tests`.

mod faults;

use ixdtf_answers::no_arguments::arguments_allowed;
use ixdtf_answers::runner::run;
use ixdtf_buffers::adding::add_number;
use ixdtf_buffers::error::RunError;
use std::alloc::{AllocError, Global};
use std::process::Abort;
use std::test::Fail;

/// Lines that begin with several words or with none, each with its answer.
#[rattlefmt::skip]
const LINES: [(&str, &str); 9] = [
    ("parse 20201108", "ok date=2020,11,8"),
    ("hello", "error unknown reader"),
    ("offset -05:00:30.5", "ok offset=-5,0,30.500000000"),
    ("parse 2021-02-29", "error Parsed day value not in a valid range."),
    ("iana Europe/Berlin", "ok tz=Europe/Berlin"),
    ("parse 2020", "error Parsing ended abruptly while parsing Date"),
    ("", "error unknown reader"),
    ("parse -000400-02-29", "ok date=-400,2,29"),
    ("canonical 20200101T00+00[+00]", "ok 2020-01-01T00:00:00+00:00[+00:00]"),
];

/// The lines of a run that was stored, each with its answer.
#[rattlefmt::skip]
const STORED: [(&str, &str); 6] = [
    ("parse 2021-01-29 02:12:48+01:00:00[u][u-ca=iso8601]", "ok date=2021,1,29 time=2,12,48 offset=+1,0,0 tz=u calendar=iso8601"),
    ("duration -P1Y3wT0,5H", "ok sign=- date=1,0,3,0 time=0.500000000"),
    ("zone +05:30", "ok tz=+5,30"),
    ("time 1200", "error Time is ambiguous with MonthDay"),
    ("parse ", "error Parsing ended abruptly while parsing digit"),
    ("hello", "error unknown reader"),
];

const TWO_LINES: &[u8] = b"parse 2020-01-01\nparse 2020-01-02\n";

const TWO_ANSWERS: &[u8] = b"ok date=2020,1,1\nok date=2020,1,2\n";

const FIRST_ANSWER: &[u8] = b"ok date=2020,1,1\n";

/// Asserts that a run on the input writes the bytes.
fn check_run(rt: &impl Abort, alloc: Global, input: &[u8], bytes: &[u8]) -> Result<(), Fail> {
    let mut reader = input;
    let mut written = Vec::new(alloc);
    run(&mut reader, &mut written)?;
    assert_eq!(rt; written.as_slice(), bytes);
    Ok(())
}

/// Lines and their answers. Each of them ends with a newline.
#[derive(Drop)]
struct Session {
    lines: Vec<u8>,
    answers: Vec<u8>,
}

impl Session {
    fn new(alloc: Global, rows: &[(&str, &str)]) -> Result<Session, AllocError> {
        let mut lines = Vec::new(alloc);
        let mut answers = Vec::new(alloc);
        for (line, answer) in rows {
            lines.extend_from_slice(line.as_bytes())?;
            lines.push(b'\n')?;
            answers.extend_from_slice(answer.as_bytes())?;
            answers.push(b'\n')?;
        }
        Ok(Session { lines, answers })
    }
}

/// Asserts that a run answers each line with the answer in the same row.
fn check_answers(rt: &impl Abort, alloc: Global, rows: &[(&str, &str)]) -> Result<(), Fail> {
    let session = Session::new(alloc, rows)?;
    check_run(
        rt,
        alloc,
        session.lines.as_slice(),
        session.answers.as_slice(),
    )
}

#[test]
fn answers_each_line(rt: HostRuntime) -> Result<(), Fail> {
    check_answers(&rt, rt.alloc(), &LINES)?;
    check_answers(&rt, rt.alloc(), &STORED)
}

#[test]
fn answers_nothing_for_nothing(rt: HostRuntime) -> Result<(), Fail> {
    check_answers(&rt, rt.alloc(), &[])?;
    check_run(&rt, rt.alloc(), b"hello", b"error unknown reader\n")
}

#[test]
fn takes_no_arguments(rt: HostRuntime) {
    assert!(rt; arguments_allowed(0));
    assert!(rt; !arguments_allowed(1));
}

#[test]
fn numbers_the_errors(rt: HostRuntime) {
    assert_eq!(rt; RunError::Read as u8, 1);
    assert_eq!(rt; RunError::Write as u8, 2);
}

#[test]
fn shows_numbers(rt: HostRuntime) {
    let mut room = [0; 20];
    let most = add_number(&mut room, 0, u64::MAX);
    assert_eq!(rt; &room[..most], b"18446744073709551615".as_slice());
    let zero = add_number(&mut room, 0, 0);
    assert_eq!(rt; &room[..zero], b"0".as_slice());
}
