//! Tests with readers and writers that fail, and that read or write only few bytes at a time.
ghost use Rattle.std.specs.Prelude.{◌≤◌};

use super::{FIRST_ANSWER, LINES, STORED, Session, TWO_ANSWERS, TWO_LINES};
use ixdtf_answers::runner::run;
use ixdtf_buffers::error::RunError;
use std::io;
use std::io::{ErrorKind, Read, Write};
use std::process::Abort;
use std::test::Fail;

/// A reader that returns few bytes at a time, fails at one of its reads, and then goes on.
#[derive(Drop)]
struct FaultyReader<'a> {
    rest: &'a [u8],
    /// The greatest number of bytes that one read returns.
    most: usize,
    /// The number of reads before the one that fails.
    good_reads: usize,
    /// The number of reads so far.
    reads: usize,
}

impl FaultyReader<'_> {
    fn new(rest: &[u8], most: usize, good_reads: usize) -> FaultyReader<'_> {
        FaultyReader {
            rest,
            most,
            good_reads,
            reads: 0,
        }
    }
}

impl Read for FaultyReader<'_> {
    fn read(&mut self, buf: &mut [u8]) -> io::Result<usize> {
        let earlier = self.reads;
        self.reads = earlier.saturating_add(1);
        if earlier == self.good_reads {
            return Err(io::Error::from(ErrorKind::Other));
        }
        let count = self.rest.len().min(self.most).min(buf.len());
        let (front, rest) = self.rest.split_at(count);
        buf[..count].copy_from_slice(front);
        self.rest = rest;
        Ok(count)
    }
}

/// A writer that accepts few bytes at a time, and fails when it is full.
#[derive(Drop)]
struct FaultyWriter {
    bytes: [u8; 512],
    length: usize,
    /// The greatest number of bytes that one write accepts.
    most: usize,
    /// The number of bytes that the writer accepts before it fails.
    room: usize,
    takes_none_when_full: bool,
    flush_fails: bool,
    ghost within: { length ≤ 512 },
}

impl FaultyWriter {
    fn new() -> FaultyWriter {
        FaultyWriter {
            bytes: [0; 512],
            length: 0,
            most: 512,
            room: 512,
            takes_none_when_full: false,
            flush_fails: false,
        }
    }

    fn written(&self) -> &[u8] {
        &self.bytes[..self.length]
    }
}

impl Write for FaultyWriter {
    fn write(&mut self, buf: &[u8]) -> io::Result<usize> {
        let count = buf
            .len()
            .min(self.most)
            .min(self.room)
            .min(512 - self.length);
        if count == 0 && !self.takes_none_when_full {
            return Err(io::Error::from(ErrorKind::Other));
        }
        let length = self.length;
        self.bytes[length..length + count].copy_from_slice(&buf[..count]);
        self.length = length + count;
        self.room -= count;
        Ok(count)
    }

    fn flush(&mut self) -> io::Result<()> {
        if self.flush_fails {
            Err(io::Error::from(ErrorKind::Other))
        } else {
            Ok(())
        }
    }
}

/// Asserts which bytes a run on the two lines has written, if the reader fails once, after `good_reads` reads. The run must not
/// read again.
fn check_reader(rt: &impl Abort, most: usize, good_reads: usize, bytes: &[u8]) {
    let mut reader = FaultyReader::new(TWO_LINES, most, good_reads);
    let mut writer = FaultyWriter::new();
    let outcome = run(&mut reader, &mut writer);
    assert_eq!(rt; outcome, Err(RunError::Read));
    assert_eq!(rt; reader.reads, good_reads.saturating_add(1));
    assert_eq!(rt; writer.written(), bytes);
}

#[test]
fn stops_at_a_read_that_fails(rt: HostRuntime) {
    check_reader(&rt, 17, 1, FIRST_ANSWER);
    check_reader(&rt, 20, 1, FIRST_ANSWER);
    check_reader(&rt, 1, 16, b"");
    check_reader(&rt, 1, 17, FIRST_ANSWER);
    check_reader(&rt, 1, 20, FIRST_ANSWER);
    check_reader(&rt, 512, 1, TWO_ANSWERS);
}

#[test]
fn reads_no_more_after_a_read_that_fails(rt: HostRuntime) {
    let mut reader = FaultyReader::new(TWO_LINES, 17, 0);
    let mut writer = FaultyWriter::new();
    let outcome = run(&mut reader, &mut writer);
    assert_eq!(rt; outcome, Err(RunError::Read));
    assert_eq!(rt; reader.reads, 1);
    assert_eq!(rt; reader.rest, TWO_LINES);
    assert_eq!(rt; writer.written(), b"".as_slice());
}

/// Asserts that a run has written the answers to the lines that ended, if the read after `good_reads` reads fails. Each read
/// returns one byte.
fn check_fault(rt: &impl Abort, lines: &[u8], answers: &[u8], good_reads: usize) {
    let mut reader = FaultyReader::new(lines, 1, good_reads);
    let mut writer = FaultyWriter::new();
    let outcome = run(&mut reader, &mut writer);
    assert_eq!(rt; outcome, Err(RunError::Read));
    let ended = lines
        .iter()
        .take(good_reads)
        .filter(|byte| **byte == b'\n')
        .count();
    let answered = writer
        .written()
        .iter()
        .filter(|byte| **byte == b'\n')
        .count();
    assert_eq!(rt; answered, ended);
    assert!(rt; answers.starts_with(writer.written()));
}

/// Asserts the same as `check_fault` for each read that can fail.
fn check_faults(rt: &impl Abort, lines: &[u8], answers: &[u8]) {
    for good_reads in 0..=lines.len() {
        check_fault(rt, lines, answers, good_reads);
    }
}

#[test]
fn answers_the_lines_before_each_fault(rt: HostRuntime) -> Result<(), Fail> {
    let session = Session::new(rt.alloc(), &LINES)?;
    check_faults(&rt, session.lines.as_slice(), session.answers.as_slice());
    let stored = Session::new(rt.alloc(), &STORED)?;
    check_faults(&rt, stored.lines.as_slice(), stored.answers.as_slice());
    Ok(())
}

/// Asserts that a run writes the answers, if each read returns one byte and no read fails.
fn check_bytes(rt: &impl Abort, lines: &[u8], answers: &[u8]) {
    let mut reader = FaultyReader::new(lines, 1, lines.len().saturating_add(1));
    let mut writer = FaultyWriter::new();
    let outcome = run(&mut reader, &mut writer);
    assert_eq!(rt; outcome, Ok(()));
    assert_eq!(rt; writer.written(), answers);
}

#[test]
fn reads_to_the_end_byte_by_byte(rt: HostRuntime) -> Result<(), Fail> {
    let session = Session::new(rt.alloc(), &LINES)?;
    check_bytes(&rt, session.lines.as_slice(), session.answers.as_slice());
    if let Some((_newline, unended)) = session.lines.as_slice().split_last() {
        check_bytes(&rt, unended, session.answers.as_slice());
    }
    let stored = Session::new(rt.alloc(), &STORED)?;
    check_bytes(&rt, stored.lines.as_slice(), stored.answers.as_slice());
    Ok(())
}

/// Asserts the result of a run on the two lines, and the bytes that it has written.
fn check_writer(
    rt: &impl Abort,
    mut writer: FaultyWriter,
    wanted: Result<(), RunError>,
    bytes: &[u8],
) {
    let mut reader = TWO_LINES;
    let outcome = run(&mut reader, &mut writer);
    assert_eq!(rt; outcome, wanted);
    assert_eq!(rt; writer.written(), bytes);
}

#[test]
fn writes_byte_by_byte(rt: HostRuntime) {
    let mut writer = FaultyWriter::new();
    writer.most = 1;
    check_writer(&rt, writer, Ok(()), TWO_ANSWERS);
}

#[test]
fn stops_at_a_write_that_fails(rt: HostRuntime) {
    let mut writer = FaultyWriter::new();
    writer.room = 5;
    check_writer(&rt, writer, Err(RunError::Write), b"ok da");
}

#[test]
fn stops_at_whichever_write_fails(rt: HostRuntime) -> Result<(), Fail> {
    let session = Session::new(rt.alloc(), &LINES)?;
    let answers = session.answers.as_slice();
    for room in 0..answers.len() {
        let mut reader = session.lines.as_slice();
        let mut writer = FaultyWriter::new();
        writer.most = 1;
        writer.room = room;
        let outcome = run(&mut reader, &mut writer);
        assert_eq!(rt; outcome, Err(RunError::Write));
        assert_eq!(rt; writer.written().len(), room);
        assert!(rt; answers.starts_with(writer.written()));
    }
    Ok(())
}

#[test]
fn stops_at_a_write_that_takes_no_byte(rt: HostRuntime) {
    let mut writer = FaultyWriter::new();
    writer.room = 0;
    writer.takes_none_when_full = true;
    check_writer(&rt, writer, Err(RunError::Write), b"");
}

#[test]
fn tells_that_the_flush_failed(rt: HostRuntime) {
    let mut writer = FaultyWriter::new();
    writer.flush_fails = true;
    check_writer(&rt, writer, Err(RunError::Write), TWO_ANSWERS);
}
