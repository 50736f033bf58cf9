//! A reader that can show its first line, and still returns this line to later reads.
ghost use Rattle.std.specs.Prelude.{◌≤◌};

use ixdtf_buffers::place::place_of;
use std::io;
use std::io::{ErrorKind, Read};

/// The greatest number of bytes that are read ahead. A longer line is not accepted in any case.
const ROOM: usize = 65536;

/// A reader around another reader. The method `first_line` returns the first line of the other reader. After this call, `read`
/// still returns all bytes of the other reader, from the beginning of the first line.
#[derive(Drop)]
pub struct Front<'r, R> {
    inner: &'r mut R,
    bytes: [u8; ROOM],
    /// The number of bytes in `bytes` that `read` has returned.
    start: usize,
    /// The number of bytes in `bytes` that were read ahead.
    end: usize,
    ghost order: { start ≤ end },
    ghost within: { end ≤ 65536 },
}

impl<'r, R: Read> Front<'r, R> {
    /// Creates a reader that has read nothing ahead.
    pub fn new(inner: &'r mut R) -> Front<'r, R> {
        Front {
            inner,
            bytes: [0; ROOM],
            start: 0,
            end: 0,
        }
    }

    /// Reads the first line of the other reader, and returns it without its newline. If the line has more than 65,536 bytes, returns
    /// its first 65,536 bytes. If a signal interrupts a read, the read is tried again.
    pub fn first_line(&mut self) -> io::Result<&[u8]> {
        for _ in 0..u64::MAX {
            if self.end == ROOM || place_of(b'\n', &self.bytes[..self.end]).is_some() {
                break;
            }
            match self.inner.read(&mut self.bytes[self.end..]) {
                Ok(0) => break,
                Ok(count) => self.end = ROOM.min(self.end.saturating_add(count)),
                Err(error) if error.kind() == ErrorKind::Interrupted => {}
                Err(error) => return Err(error),
            }
        }
        let read = &self.bytes[..self.end];
        match place_of(b'\n', read) {
            Some(place) => Ok(&read[..place]),
            None => Ok(read),
        }
    }
}

impl<R: Read> Read for Front<'_, R> {
    fn read(&mut self, buf: &mut [u8]) -> io::Result<usize> {
        if self.start == self.end {
            return self.inner.read(buf);
        }
        let count = buf.len().min(self.end - self.start);
        buf[..count].copy_from_slice(&self.bytes[self.start..self.start + count]);
        self.start += count;
        Ok(count)
    }
}
