//! The jobs of the programs. In these jobs, lines are checked, printed or answered.

use crate::digest::DigestWriter;
use crate::mix::{Feed, Mix, Row};
use ixdtf::parsers::Profile;
use ixdtf_answers::runner::run;
use ixdtf_checks::checker::check;
use ixdtf_checks::kind::Kind;
use ixdtf_checks::request::{Extent, Field, Format, Request, Task};
use std::alloc::{AllocError, Global};

/// A request that checks complete lines as date-times.
pub const DATE_TIMES: Request<'static> = Request {
    name: "times.txt",
    task: Task::Check(Kind::DateTime),
    profile: Profile::Crate,
    field: None,
    skips: None,
    most_reports: u64::MAX,
    format: Format::Text,
    is_quiet: false,
};

/// A request that prints the canonical texts of lines.
pub const PRINTED: Request<'static> = Request {
    task: Task::Print(Kind::DateTime),
    ..DATE_TIMES
};

/// A request that checks the third field of each line.
const THIRD_FIELD: Request<'static> = Request {
    name: "table.csv",
    field: Some(Field {
        before: 2,
        separator: b',',
        extent: Extent::One,
    }),
    ..DATE_TIMES
};

/// Checks `count` lines of the mix, and returns a digest of the counts, of what is written, and of the reports that go to the second
/// output. Only a request that prints canonical texts uses the second output. The digest of no bytes is 0.
pub fn checked(mix: &mut Mix, count: u64, request: &Request<'_>) -> u64 {
    let mut writer = DigestWriter::new();
    let mut reports = DigestWriter::new();
    let checked = check(
        &mut Feed::new(mix, count),
        &mut writer,
        &mut reports,
        request,
    );
    let counts = checked.tally;
    let digest = writer.finish().wrapping_add(reports.finish());
    digest
        .wrapping_mul(31)
        .wrapping_add(counts.lines)
        .wrapping_mul(31)
        .wrapping_add(counts.refused)
        .wrapping_mul(31)
        .wrapping_add(counts.bytes)
        .wrapping_add(u64::from(checked.end.is_err()))
}

/// Runs the job `log`: checks `count` lines of a log, and one column of `count / 2` rows of a table. About one text in a thousand
/// is refused. Returns a digest of the results.
pub fn log(alloc: Global, seed: u64, count: u64) -> Result<u64, AllocError> {
    let mut lines = Mix::of(alloc, seed, LOG_LINES)?;
    let log = checked(&mut lines, count, &DATE_TIMES);
    let mut rows = Mix::of(alloc, seed, TABLE_ROWS)?;
    let table = checked(&mut rows, count / 2, &THIRD_FIELD);
    Ok(log.wrapping_mul(31).wrapping_add(table))
}

#[rattlefmt::skip]
const LOG_LINES: &[Row] = &[
    (823, b"2024-03-02T08:48:00.123456Z\n", b"..dd-.n-qe.bd:md:md.dddddd"),
    (100, b"2024-03-02T08:48:00Z\n", b".ddd-.n-qe.bd:md:md"),
    (100, b"2024-03-02T08:48:00.123+01:00\n", b".ddd-.n-qe.bd:md:md.ddd"),
    (1, b"2024-03-02T08:48:0\n", b".ddd-.n-qe.bd:md"),
];

#[rattlefmt::skip]
const TABLE_ROWS: &[Row] = &[
    (400, b"1000000,alice,2024-03-02T08:48:00.123456Z,GET,/index.html,200,5120\n", b".dddddd,.....,..dd-.n-qe.bd:md:md.dddddd"),
    (400, b"1000000,bob.example.org,2024-03-02T08:48:00Z,POST,/api/v1/orders?page=3&limit=20,201,77,\
          \"Mozilla/5.0 (X11; Linux x86_64) AppleWebKit/537.36\",-\n",
        b".dddddd,...............,.ddd-.n-qe.bd:md:md"),
    (223, b"1000000,eu-central-1,2024-03-02 08:48:00+01:00,\"the quick brown fox jumps over the lazy dog, \
          and the lazy dog sleeps on\",b2f8fdee9aafc14a63f7ad33c4917e20d2e20b8a,\
          https://www.example.com/a/rather/long/path/with/many/parts?and=a&query=of&some=length,0,0,0,true\n",
        b".dddddd,............,.ddd-.n-qe.bd:md:md"),
    (1, b"1000000,carol,2024-03-02T24:48:00Z,GET,/favicon.ico,404,0\n", b".dddddd,.....,.ddd-.n-qe...:md:md"),
];

/// Runs the job `refused`: checks `count` lines of an import that goes wrong. About four of five lines are refused and reported.
/// Returns a digest of the results.
pub fn refused(alloc: Global, seed: u64, count: u64) -> Result<u64, AllocError> {
    let mut lines = Mix::of(alloc, seed, IMPORTED_LINES)?;
    Ok(checked(&mut lines, count, &DATE_TIMES))
}

#[rattlefmt::skip]
const IMPORTED_LINES: &[Row] = &[
    (150, b"02/03/2024\n", b"n./q./dddd"),
    (120, b"2024-3-2\n", b"dddd-n-n"),
    (120, b"2024-03-02T8:48\n", b"dddd-.n-qe.n:md"),
    (100, b"2024-02-30\n", b".ddd"),
    (70, b"N/A\n", b""),
    (50, b"\n", b""),
    (80, b"P1DT12H30M\n", b".d...d...d"),
    (60, b"08:48:00\n", b"bd:md:md"),
    (60, b"2024-03-02T08:48:00Z[Europe/]\n", b"dddd-.n-qe.bd:md:md"),
    (40, b"2024-03-02 um acht Uhr \xc3\xbcber\n", b"dddd-.n-qe"),
    (174, b"2024-03-02T08:48:00.123456Z\n", b"..dd-.n-qe.bd:md:md.dddddd"),
];

/// Runs the job `canonical`: prints the canonical texts of `count` lines. Returns a digest of the results.
pub fn canonical(alloc: Global, seed: u64, count: u64) -> Result<u64, AllocError> {
    let mut lines = Mix::of(alloc, seed, PRINTED_LINES)?;
    Ok(checked(&mut lines, count, &PRINTED))
}

#[rattlefmt::skip]
const PRINTED_LINES: &[Row] = &[
    (200, b"2024-03-02\n", b"dddd-.n-qe"),
    (80, b"20240302\n", b"dddd.nqe"),
    (144, b"20240302T084800Z\n", b"dddd.nqe.bdmdmd"),
    (150, b"2024-03-02t08:48:00,123456z\n", b"dddd-.n-qe.bd:md:md.dddddd"),
    (150, b"2024-03-02 08:48:00+01\n", b"dddd-.n-qe.bd:md:md..."),
    (150, b"2024-03-02T08:48:00-05:00[America/New_York][u-ca=hebrew]\n", b"dddd-.n-qe.bd:md:md"),
    (100, b"2024-03-02T08:48:00.25Z[!Asia/Kolkata]\n", b"dddd-.n-qe.bd:md:md.dd"),
    (40, b"2024-03-02T08:48[+05:30][u-ca=iso8601][x=1]\n", b"dddd-.n-qe.bd:md"),
    (10, b"2024-13-02\n", b"dddd....qe"),
];

/// Runs the job `lines`: answers `count` lines of another program. Returns a digest of the answers.
pub fn answers(alloc: Global, seed: u64, count: u64) -> Result<u64, AllocError> {
    let mut lines = Mix::of(alloc, seed, ANSWERED_LINES)?;
    let mut writer = DigestWriter::new();
    let end = run(&mut Feed::new(&mut lines, count), &mut writer);
    Ok(writer.finish().wrapping_add(u64::from(end.is_err())))
}

#[rattlefmt::skip]
const ANSWERED_LINES: &[Row] = &[
    (200, b"parse 2024-03-02T08:48:00.25-05:00[America/New_York][u-ca=hebrew]\n", b"......dddd-.n-qe.bd:md:md.dd"),
    (80, b"parse 2024-03-02\n", b"......dddd-.n-qe"),
    (100, b"parse 2024-03-02T08:48:00Z\n", b"......dddd-.n-qe.bd:md:md"),
    (40, b"parse 2024-02-30\n", b"......dddd"),
    (60, b"year-month 2020-01\n", b"...........dddd-.n"),
    (40, b"month-day --01-07\n", b".............n-qe"),
    (30, b"strict-month-day 01-07[u-ca=gregory]\n", b"..................n-qe"),
    (100, b"canonical 20240302 084800,5+01[Europe/Berlin]\n", b"..........dddd.nqe.bdmdmd.d"),
    (20, b"canonical 2024-03\n", b"..........dddd-.n"),
    (50, b"time 15:23:30.123456789\n", b".....bd:md:md.ddddddddd"),
    (34, b"strict-time T12:30\n", b".............bd:md"),
    (50, b"offset -05:30:15.5\n", b"........bd:md:md.d"),
    (30, b"zone Europe/Berlin\n", b".............lllll"),
    (20, b"zone +05:30\n", b"......bd:md"),
    (30, b"iana America/Chicago\n", b"...............lllll"),
    (70, b"duration P1Y2M3DT4H5M6.25S\n", b"..........d.d.d..d.d.d.dd"),
    (30, b"strict-duration -PT1H30M\n", b"...................d.md"),
    (20, b"duration P1W2X\n", b"..........d.d"),
    (20, b"when 2024-03-02\n", b".....dddd-.n-qe"),
];
