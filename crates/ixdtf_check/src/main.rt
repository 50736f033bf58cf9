//! Checks the lines of files: which lines are wrong, at which column, and why.
#![tactic(auto)]

mod front;
mod watched;

use front::Front;
use ixdtf_buffers::error::RunError;
use ixdtf_checks::arguments::{FieldName, Options, Word, Wrong, meant_by};
use ixdtf_checks::checker::check_lines;
use ixdtf_checks::exit_status::status_of;
use ixdtf_checks::named_column::{ColumnError, column_in_record, column_named};
use ixdtf_checks::request::{Extent, Request};
use ixdtf_checks::tally::Tally;
use std::env::VarError;
use std::fs::File;
use std::io::{Eprint, ErrorKind, IsTerminal, Read};
use std::process::ExitCode;
use std::{env, fmt};
use watched::Watched;

const USAGE: &str = "\
usage: ixdtf_check [OPTION..] [FILE..]\n\
Reports the lines of the files, or of standard input, that are no valid dates, times or\n\
durations.\n\
\n\
What is read:\n\
\x20 --kind KIND      the kind of the texts: date-time (the default), year-month, month-day,\n\
\x20                  time, offset, zone, zone-name or iana, duration, rfc3339, rfc9557\n\
\x20 --strict         the strict profile: a month-day does not have the day 00,\n\
\x20                  a duration does not repeat a unit, and 1200 is a time\n\
\x20 --ordered        also the order: no instant may be earlier than that of the line before\n\
\x20 ixdtf_check --kind rfc3339 times.txt\n\
\x20 ixdtf_check --kind=duration --strict durations.txt\n\
\n\
Which lines are read:\n\
\x20 --header         not the first line of each file, which has the names of the fields\n\
\x20 --skip-blank     not the lines that have only spaces and tabs, or no byte\n\
\x20 --comment C      not the lines that begin with the byte C\n\
\x20 ixdtf_check --skip-blank --comment '#' times.txt\n\
\n\
Which part of a line is read:\n\
\x20 --field N        field N of each line, counted from 1, and not the complete line\n\
\x20 --field NAME     the field that has this name in the first line; needs --header\n\
\x20 --fields A-B     fields A to B as one text; in each line, a space separates two fields\n\
\x20 --csv            with --field: lines are records of RFC 4180; fields may be in quotes\n\
\x20 --separator C    the byte between two fields; without this option, it is a tab,\n\
\x20                  or a comma with --csv, or a space with --fields\n\
\x20 ixdtf_check --field 3 --separator , table.csv\n\
\x20 ixdtf_check --header --field time --separator , table.csv\n\
\x20 ixdtf_check --fields 1-2 server.log\n\
\x20 ixdtf_check --csv --header --field time table.csv\n\
\n\
What is written:\n\
\x20 --canonical      the canonical text of each accepted text; then the reports go to\n\
\x20                  standard error\n\
\x20 --max-reports N  at most N reports, and the number of the others\n\
\x20 --format FORMAT  the form of the reports: text (the default), or json\n\
\x20 --color WHEN     colours in the reports: auto (the default), always or never\n\
\x20 --quiet          no reports about refused lines; the counts are still written\n\
\x20 ixdtf_check --canonical --quiet dates.txt\n\
\n\
Other:\n\
\x20 --help, -h       this text\n\
\x20 --version, -V    the version of the program\n\
\x20 --               every word after it is the name of a file\n\
\x20 The file - is standard input.\n\
\n\
Exit status: 0 if every line was accepted, 1 if a line was refused, and 2 if an\n\
argument is wrong, a file could not be checked, or something could not be written.";

/// The number of bytes of the longest line that is checked.
const LONGEST_LINE: usize = 65536;

const VERSION: &str = "ixdtf_check 0.6.7+rattle";

/// The result of the checks of all files.
#[derive(Drop)]
struct Outcome {
    total: Tally,
    has_failed: bool,
    /// The greatest number of reports about all files together. `limit_reports` copies it from each request.
    most_reports: u64,
    /// Whether refused lines are reported.
    shows_refusals: bool,
    /// Whether standard output accepts no more bytes, or a write of a report to standard error failed.
    is_closed: bool,
    /// Whether standard output is a pipe that nobody reads, or a write of a report to standard error failed. Then the program also
    /// writes nothing more to standard error.
    is_quiet: bool,
}

impl Outcome {
    /// Reduces the greatest number of reports about the next file by the number of lines refused in the files before it.
    fn limit_reports(&mut self, request: &mut Request<'_>) {
        self.most_reports = request.most_reports;
        self.shows_refusals = !request.is_quiet;
        request.most_reports = request.most_reports.saturating_sub(self.total.refused);
    }

    /// Returns how many refused lines have no report because there are too many of them.
    fn unreported(&self) -> u64 {
        if self.shows_refusals {
            self.total.refused.saturating_sub(self.most_reports)
        } else {
            0
        }
    }
}

fn main(rt: HostRuntime) -> ExitCode {
    let Ok(words) = env::args(&rt) else {
        return refuse(&rt, "an argument is not UTF-8");
    };
    let mut options = Options::new();
    let mut has_files = false;
    for word in words.skip(1) {
        match options.take(word.as_str()) {
            Word::Option => {}
            Word::File => has_files = true,
            Word::Help => return show(&rt, USAGE),
            Word::Version => return show(&rt, VERSION),
            Word::Wrong(wrong) => return refuse_word(&rt, word.as_str(), wrong),
        }
    }
    let mut outcome = Outcome {
        total: Tally::new(),
        has_failed: false,
        is_closed: false,
        most_reports: u64::MAX,
        shows_refusals: false,
        is_quiet: false,
    };
    if let Some(wrong) = options.wrong() {
        return refuse(&rt, wrong.message());
    }
    let is_terminal = if options.has_two_outputs() {
        rt.stderr().is_terminal()
    } else {
        rt.stdout().is_terminal()
    };
    options.settle_color(is_terminal && shows_colors(&rt));
    if has_files {
        check_files(&rt, &options, &mut outcome);
    } else {
        check_file(&rt, &options, "-", &mut outcome);
    }
    let Tally {
        lines,
        refused,
        bytes,
    } = outcome.total;
    if !outcome.is_quiet && options.has_counts() {
        let more = outcome.unreported();
        if more > 0 {
            let of_more = plural_ending(more);
            let _ = eprintln!(rt; "{more} more refused line{of_more}");
        }
        let of_lines = plural_ending(lines);
        let of_bytes = plural_ending(bytes);
        let _ = eprintln!(rt; "{lines} line{of_lines}, {refused} refused, {bytes} byte{of_bytes}");
    }
    ExitCode::from(status_of(outcome.has_failed, refused))
}

/// Returns the ending of the word for what is counted: `1 line`, but `2 lines`.
fn plural_ending(count: u64) -> &'static str {
    if count == 1 { "" } else { "s" }
}

/// Returns whether a terminal shows colours, and the user does not forbid them: `NO_COLOR` is not set or is empty, and `TERM` is not
/// `dumb`.
fn shows_colors(rt: &HostRuntime) -> bool {
    let is_forbidden = match env::var(rt, "NO_COLOR") {
        Ok(value) => !value.as_str().is_empty(),
        Err(VarError::NotPresent) => false,
        Err(VarError::NotUnicode | VarError::OutOfMemory) => true,
    };
    let is_dumb = match env::var(rt, "TERM") {
        Ok(value) => value.as_str() == "dumb",
        Err(VarError::NotPresent | VarError::NotUnicode | VarError::OutOfMemory) => false,
    };
    !is_forbidden && !is_dumb
}

/// Writes a text that an option asks for, such as the usage, to standard output. If it cannot be written, says why, unless nobody reads
/// standard output.
fn show(rt: &HostRuntime, text: &str) -> ExitCode {
    match println!(rt; "{text}") {
        Ok(()) => ExitCode::SUCCESS,
        Err(error) => {
            if error.kind() != ErrorKind::BrokenPipe {
                let _ = eprintln!(rt; "ixdtf_check: standard output: {error}");
            }
            ExitCode::from(2)
        }
    }
}

/// Writes to standard error what is wrong with a word, and which word the user probably meant.
fn refuse_word(rt: &impl Eprint, word: &str, wrong: Wrong) -> ExitCode {
    let _ = eprintln!(rt; "ixdtf_check: {word}: {}", wrong.message());
    if let Some(meant) = meant_by(word, wrong) {
        let _ = eprintln!(rt; "Did you mean {meant}?");
    }
    point_to_help(rt)
}

/// Writes to standard error what is wrong with the combination of arguments.
fn refuse(rt: &impl Eprint, message: &str) -> ExitCode {
    let _ = eprintln!(rt; "ixdtf_check: {message}");
    point_to_help(rt)
}

/// Writes to standard error how to see the usage, and returns exit status 2.
fn point_to_help(rt: &impl Eprint) -> ExitCode {
    let _ = eprintln!(rt; "ixdtf_check --help shows the options.");
    ExitCode::from(2)
}

/// Checks the files that the arguments name, in order, until a write fails.
fn check_files(rt: &HostRuntime, options: &Options, outcome: &mut Outcome) {
    let Ok(words) = env::args(rt) else {
        outcome.has_failed = true;
        return;
    };
    let mut options_again = Options::new();
    for word in words.skip(1) {
        if options_again.take(word.as_str()) == Word::File && !outcome.is_closed {
            check_file(rt, options, word.as_str(), outcome);
        }
    }
}

/// Checks the file with this name. The name `-` means standard input.
fn check_file(rt: &HostRuntime, options: &Options, name: &str, outcome: &mut Outcome) {
    if name == "-" {
        return check_reader(rt, &mut rt.stdin(), options, name, outcome);
    }
    match File::open(rt, name) {
        Ok(mut file) => check_reader(rt, &mut file, options, name, outcome),
        Err(error) => complain(rt, name, error, outcome),
    }
}

/// Checks the bytes of the reader. Reports use this name for the file.
fn check_reader<R: Read>(
    rt: &HostRuntime,
    reader: &mut R,
    options: &Options,
    name: &str,
    outcome: &mut Outcome,
) {
    let Some(request) = options.request(name) else {
        return;
    };
    match options.field_name() {
        None => check_request(rt, reader, request, outcome),
        Some(field_name) => check_named(rt, reader, options, field_name, request, outcome),
    }
}

/// Checks the bytes that `reader` returns. The first line of these bytes says which field has the name that `--field` asks for.
fn check_named<R: Read>(
    rt: &HostRuntime,
    reader: &mut R,
    options: &Options,
    field_name: FieldName,
    mut request: Request<'_>,
    outcome: &mut Outcome,
) {
    let name = request.name;
    let Some(word) = argument(rt, field_name.word) else {
        return complain(rt, name, "the name of --field cannot be read", outcome);
    };
    let wanted = field_name.in_word(word.as_str());
    let mut front = Front::new(reader);
    match front.first_line() {
        Err(error) => complain(rt, name, error, outcome),
        Ok(line) => match column_of(options, wanted, line) {
            Err(error) => {
                let why = format_args!("--field {wanted}: {}", error.message());
                complain(rt, name, why, outcome);
            }
            Ok(before) => {
                request.field = Some(options.field_after(before));
                check_request(rt, &mut front, request, outcome);
            }
        },
    }
}

/// Returns the argument after the first `before` arguments, or `None` if there is none. The name of the program does not count as
/// an argument.
fn argument(rt: &HostRuntime, before: usize) -> Option<String> {
    match env::args(rt) {
        Ok(words) => words.skip(1).nth(before),
        Err(_) => None,
    }
}

/// Returns the number of fields before the field that has the name in the first line of a file.
fn column_of(options: &Options, wanted: &str, first: &[u8]) -> Result<usize, ColumnError> {
    let field = options.field_after(0);
    let wanted = wanted.as_bytes();
    if field.extent == Extent::Csv {
        column_in_record(field.separator, wanted, first, &mut [0; LONGEST_LINE])
    } else {
        column_named(field.separator, wanted, first)
    }
}

/// Checks the bytes of the reader as the request says, and adds the result to `outcome`.
fn check_request<R: Read>(
    rt: &HostRuntime,
    reader: &mut R,
    request: Request<'_>,
    outcome: &mut Outcome,
) {
    let name = request.name;
    let mut request = request;
    outcome.limit_reports(&mut request);
    let mut watched = Watched::new(reader);
    let mut output = rt.stdout();
    let mut watched_output = Watched::new(&mut output);
    let mut reports = rt.stderr();
    let mut watched_reports = Watched::new(&mut reports);
    let checked = check_lines(
        &mut watched,
        &mut watched_output,
        &mut watched_reports,
        &request,
    );
    outcome.total.add(checked.tally);
    match checked.end {
        Ok(()) => {}
        Err(RunError::Read) => match watched.error() {
            Some(error) => complain(rt, name, error, outcome),
            None => complain(rt, name, "too many bytes", outcome),
        },
        Err(RunError::Write) => {
            outcome.is_closed = true;
            outcome.has_failed = true;
            outcome.is_quiet = watched_reports.error().is_some() || watched_output.is_closed_pipe();
            if !outcome.is_quiet {
                complain(rt, "standard output", "cannot be written", outcome);
            }
        }
    }
}

/// Writes to standard error what failed, and why.
fn complain<D: fmt::Display + Drop>(rt: &impl Eprint, name: &str, why: D, outcome: &mut Outcome) {
    outcome.has_failed = true;
    let _ = eprintln!(rt; "ixdtf_check: {name}: {why}");
}
