//! Tests with readers and writers that fail.

ghost use Rattle.std.specs.Prelude.{◌<◌};

use super::DATE_TIMES;
use ixdtf_buffers::error::RunError;
use ixdtf_buffers::output::Output;
use ixdtf_checks::checker::{Checked, check};
use ixdtf_checks::kind::Kind;
use ixdtf_checks::request::{Request, Task};
use ixdtf_checks::tally::Tally;
use std::io;
use std::io::{ErrorKind, Read, Write};
use std::test::Fail;

const TWO_LINES: &[u8] = b"2020-13-01\n2020-W01-1\n";

const FIRST_REPORT: &[u8] =
    b"f:1:6: the month is 13, and has to be 01 to 12\n2020-13-01\n     ^^\n";

/// A request that prints the canonical texts of date-times.
const PRINTED: Request<'static> = Request {
    task: Task::Print(Kind::DateTime),
    ..DATE_TIMES
};

/// A reader that returns some bytes, and then fails.
#[derive(Drop)]
struct BrokenReader<'a> {
    rest: &'a [u8],
}

impl Read for BrokenReader<'_> {
    fn read(&mut self, buf: &mut [u8]) -> io::Result<usize> {
        let count = self.rest.len().min(buf.len());
        if count == 0 {
            return Err(io::Error::from(ErrorKind::Other));
        }
        let (front, rest) = self.rest.split_at(count);
        buf[..count].copy_from_slice(front);
        self.rest = rest;
        Ok(count)
    }
}

/// A writer that fails at each write.
#[derive(Drop)]
struct ClosedWriter;

impl Write for ClosedWriter {
    fn write(&mut self, _buf: &[u8]) -> io::Result<usize> {
        Err(io::Error::from(ErrorKind::Other))
    }

    fn flush(&mut self) -> io::Result<()> {
        Ok(())
    }
}

#[test]
fn stops_at_a_read_that_fails(rt: HostRuntime) -> Result<(), Fail> {
    let mut reader = BrokenReader {
        rest: &TWO_LINES[..20],
    };
    let mut written = Vec::new(rt.alloc());
    let checked = check(&mut reader, &mut written, &mut ClosedWriter, &DATE_TIMES);
    assert_eq!(rt;
        checked,
        Checked {
            tally: Tally {
                lines: 1,
                refused: 1,
                bytes: 20,
            },
            end: Err(RunError::Read),
        }
    );
    assert_eq!(rt; written.as_slice(), FIRST_REPORT);
    Ok(())
}

#[test]
fn stops_at_a_write_that_fails(rt: HostRuntime) {
    let mut reader = TWO_LINES;
    let checked = check(
        &mut reader,
        &mut ClosedWriter,
        &mut ClosedWriter,
        &DATE_TIMES,
    );
    assert_eq!(rt;
        checked,
        Checked {
            tally: Tally {
                lines: 2,
                refused: 2,
                bytes: 22,
            },
            end: Err(RunError::Write),
        }
    );
}

/// Two lines are accepted, and the others are refused.
const MIXED: &[u8] = b"2020-01-01\n2020-13-01\n20200101\n2020-W01-1\n";

#[test]
fn stops_at_a_read_that_fails_with_two_outputs(rt: HostRuntime) -> Result<(), Fail> {
    let mut reader = BrokenReader { rest: MIXED };
    let mut written = Vec::new(rt.alloc());
    let mut reports = Vec::new(rt.alloc());
    let checked = check(&mut reader, &mut written, &mut reports, &PRINTED);
    assert_eq!(rt; checked.end, Err(RunError::Read));
    assert_eq!(rt; checked.tally.lines, 4);
    assert_eq!(rt; written.as_slice(), b"2020-01-01\n2020-01-01\n".as_slice());
    assert!(rt; reports.as_slice().starts_with(SECOND_LINE_REPORT));
    Ok(())
}

const SECOND_LINE_REPORT: &[u8] =
    b"f:2:6: the month is 13, and has to be 01 to 12\n2020-13-01\n     ^^\n";

#[test]
fn stops_at_a_report_that_cannot_be_written(rt: HostRuntime) -> Result<(), Fail> {
    let mut reader = MIXED;
    let mut written = Vec::new(rt.alloc());
    let checked = check(&mut reader, &mut written, &mut ClosedWriter, &PRINTED);
    assert_eq!(rt; checked.end, Err(RunError::Write));
    assert_eq!(rt; checked.tally.lines, 2);
    assert_eq!(rt; checked.tally.refused, 1);
    Ok(())
}

#[test]
fn writes_reports_although_the_texts_cannot_be_written(rt: HostRuntime) -> Result<(), Fail> {
    let mut reader = MIXED;
    let mut reports = Vec::new(rt.alloc());
    let checked = check(&mut reader, &mut ClosedWriter, &mut reports, &PRINTED);
    assert_eq!(rt; checked.end, Err(RunError::Write));
    assert!(rt; reports.as_slice().starts_with(SECOND_LINE_REPORT));
    Ok(())
}

/// A writer that accepts all bytes, and fails to flush.
#[derive(Drop)]
struct UnflushedWriter;

impl Write for UnflushedWriter {
    fn write(&mut self, buf: &[u8]) -> io::Result<usize> {
        Ok(buf.len())
    }

    fn flush(&mut self) -> io::Result<()> {
        Err(io::Error::from(ErrorKind::Other))
    }
}

#[test]
fn tells_that_the_flush_failed(rt: HostRuntime) {
    let mut reader = TWO_LINES;
    let checked = check(
        &mut reader,
        &mut UnflushedWriter,
        &mut ClosedWriter,
        &DATE_TIMES,
    );
    assert_eq!(rt; checked.end, Err(RunError::Write));
    let mut reader = TWO_LINES;
    let mut written = Vec::new(rt.alloc());
    let checked = check(&mut reader, &mut written, &mut UnflushedWriter, &PRINTED);
    assert_eq!(rt; checked.end, Err(RunError::Write));
}

/// A writer that accepts at most `most` bytes in each write, and fails after `writes` writes. `taken` is the number of accepted
/// bytes.
#[derive(Clone, Copy)]
struct ShortWriter {
    most: usize,
    writes: u64,
    taken: u64,
}

impl ShortWriter {
    /// Returns how many of `count` bytes the writer accepts. Returns `None` if it fails.
    fn take(&mut self, count: usize) -> Option<usize> {
        if self.writes == 0 {
            return None;
        }
        self.writes -= 1;
        let taken = count.min(self.most);
        self.taken = self.taken.wrapping_add(taken as u64);
        Some(taken)
    }
}

impl Write for ShortWriter {
    fn write(&mut self, buf: &[u8]) -> io::Result<usize> {
        match self.take(buf.len()) {
            Some(taken) => Ok(taken.min(buf.len())),
            None => Err(io::Error::from(ErrorKind::Other)),
        }
    }

    fn flush(&mut self) -> io::Result<()> {
        Ok(())
    }
}

/// The greatest number of bytes that a writer accepts in each write, and a range of numbers of writes after which it fails.
const WRITERS: &[(usize, u64, u64)] = &[
    (1, 4090, 4100),
    (7, 575, 600),
    (7, 1160, 1180),
    (100, 38, 90),
    (1000, 0, 14),
    (1365, 0, 12),
    (4095, 0, 8),
    (4096, 0, 6),
    (20000, 0, 6),
];

/// The number of slices that are written to the output.
const PIECES: u64 = 400;

/// The bytes of these slices.
static BYTES: [u8; 4096] = [7; 4096];

/// Returns the length of the slice with this number: about one slice in fifty has 300 bytes, and the others have at most 60.
fn length_of(number: u64) -> usize {
    let mixed = number.wrapping_mul(2_654_435_761) >> 9;
    if mixed % 53 == 0 {
        300
    } else {
        (mixed % 61) as usize
    }
}

/// Writes the slices to the output, `together` of them as one slice, and then writes the complete buffer to the sink.
fn put_together(output: &mut Output<'_, ShortWriter>, together: u64) -> Result<(), RunError>
    requires { 0 < together }
{
    let mut length = 0usize;
    for number in 0..PIECES {
        length = length.saturating_add(length_of(number));
        if number % together == together - 1 {
            output.put(&BYTES[..length.min(BYTES.len())])?;
            length = 0;
        }
    }
    output.hand_on()
}

/// Returns how many bytes the writer accepts, if five slices at a time are written as one.
fn taken_together(writer: ShortWriter) -> u64 {
    let mut writer = writer;
    let _end = put_together(&mut Output::new(&mut writer), 5);
    writer.taken
}

/// A model of a simple output, which has only numbers of bytes. It writes the complete buffer before each slice that does not fit
/// into the rest of the buffer.
#[derive(Clone, Copy)]
struct PlainOutput {
    writer: ShortWriter,
    waiting: usize,
}

impl PlainOutput {
    /// Writes a slice of `count` bytes to the buffer. Returns `None` if a write failed.
    fn put(&mut self, count: usize) -> Option<()> {
        if count > BYTES.len().saturating_sub(self.waiting) {
            self.hand_on()?;
        }
        self.waiting = self.waiting.saturating_add(count);
        Some(())
    }

    /// Writes the complete buffer. Returns `None` if a write failed.
    fn hand_on(&mut self) -> Option<()> {
        for _ in 0..BYTES.len() {
            if self.waiting == 0 {
                break;
            }
            let taken = self.writer.take(self.waiting)?;
            self.waiting = self.waiting.saturating_sub(taken);
        }
        Some(())
    }

    /// Writes each slice on its own, and then the complete buffer.
    fn put_pieces(&mut self) -> Option<()> {
        for number in 0..PIECES {
            self.put(length_of(number))?;
        }
        self.hand_on()
    }
}

/// Returns how many bytes the writer accepts, if each slice is written on its own to the simple output.
fn taken_apart(writer: ShortWriter) -> u64 {
    let mut output = PlainOutput { writer, waiting: 0 };
    let _end = output.put_pieces();
    output.writer.taken
}

/// Writes slices of 4,000, 200 and 3,900 bytes to the output. Does not write the rest of the buffer to the sink.
fn put_pieces(output: &mut Output<'_, ShortWriter>) -> Result<(), RunError> {
    output.put([1; 4000].as_slice())?;
    output.put([2; 200].as_slice())?;
    output.put([3; 3900].as_slice())
}

#[test]
fn writes_are_full(rt: HostRuntime) -> Result<(), Fail> {
    for (most, taken) in [(20_000, 4096), (1000, 6000), (4000, 8000)] {
        let mut writer = ShortWriter {
            most,
            writes: 9,
            taken: 0,
        };
        put_pieces(&mut Output::new(&mut writer))?;
        assert_eq!(rt; writer.taken, taken);
    }
    Ok(())
}

/// A writer that accepts one byte in each write, and keeps it.
#[derive(Drop)]
struct ByteWriter {
    bytes: Vec<u8>,
}

impl Write for ByteWriter {
    fn write(&mut self, buf: &[u8]) -> io::Result<usize> {
        let taken = buf.len().min(1);
        match self.bytes.extend_from_slice(&buf[..taken]) {
            Ok(()) => Ok(taken),
            Err(_) => Err(io::Error::from(ErrorKind::OutOfMemory)),
        }
    }

    fn flush(&mut self) -> io::Result<()> {
        Ok(())
    }
}

/// Writes slices of seven bytes to the output, enough to fill the buffer several times. Then writes the complete buffer to the
/// sink.
fn put_sevens(output: &mut Output<'_, ByteWriter>) -> Result<(), RunError> {
    for _ in 0..SEVENS {
        output.put(b"a piece".as_slice())?;
    }
    output.hand_on()
}

/// The number of slices of seven bytes.
const SEVENS: usize = 2000;

#[test]
fn writes_byte_by_byte(rt: HostRuntime) -> Result<(), Fail> {
    let mut writer = ByteWriter {
        bytes: Vec::new(rt.alloc()),
    };
    put_sevens(&mut Output::new(&mut writer))?;
    assert_eq!(rt; writer.bytes.len(), SEVENS * 7);
    for piece in writer.bytes.as_slice().chunks(7) {
        assert_eq!(rt; piece, b"a piece".as_slice());
    }
    Ok(())
}

#[test]
fn takes_no_less_from_a_writer_that_fails(rt: HostRuntime) {
    for (most, first, last) in WRITERS {
        for writes in *first..*last {
            let writer = ShortWriter {
                most: *most,
                writes,
                taken: 0,
            };
            let apart = taken_apart(writer);
            let together = taken_together(writer);
            assert!(rt;
                apart <= together,
                "{most} bytes at each of {writes} writes"
            );
        }
    }
}
