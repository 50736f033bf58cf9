//! Answers each line of standard input by a line on standard output.
#![tactic(auto)]

use ixdtf_answers::no_arguments::arguments_allowed;
use ixdtf_answers::runner::answer_lines;
use ixdtf_buffers::error::RunError;
use std::env;
use std::io::Eprint;
use std::process::ExitCode;

fn main(rt: HostRuntime) -> ExitCode {
    let Ok(words) = env::args(&rt) else {
        return refuse(&rt);
    };
    if !arguments_allowed(words.skip(1).count()) {
        return refuse(&rt);
    }
    match answer_lines(&mut rt.stdin(), &mut rt.stdout()) {
        Ok(()) => ExitCode::SUCCESS,
        Err(RunError::Read) => failed(&rt, "read"),
        Err(RunError::Write) => failed(&rt, "write"),
    }
}

/// The usage, which says what a line of the input is.
const USAGE: &str =
    "usage: a line of standard input is a word, a space and a text, and the words are \
    parse, year-month, month-day, time, offset, zone, iana, duration, strict-month-day, \
    strict-time, strict-duration, rfc3339, rfc9557, zone-name, instant, canonical, canonical-time, \
    canonical-year-month, canonical-month-day, canonical-offset, canonical-zone, canonical-duration; \
    explain and a space can be before the word";

fn refuse(rt: &impl Eprint) -> ExitCode {
    let _ = eprintln!(rt; "ixdtf_lines: takes no arguments");
    let _ = eprintln!(rt; "{USAGE}");
    ExitCode::from(2)
}

fn failed(rt: &impl Eprint, what: &str) -> ExitCode {
    let _ = eprintln!(rt; "ixdtf_lines: {what} failed");
    ExitCode::from(1)
}
