//! Digests of results.
ghost use Rattle.std.specs.Prelude.{◌≤◌};

use std::io;
use std::io::Write;

/// A digest of numbers that depends on their order: the sum of the numbers, and the sum of these sums.
#[derive(Clone, Copy)]
pub struct Digest {
    sum: u64,
    sums: u64,
}

impl Digest {
    /// Creates a digest of no numbers.
    pub fn new() -> Digest {
        Digest { sum: 0, sums: 0 }
    }

    /// Adds one more number to the digest.
    pub fn add(&mut self, number: u64) {
        self.sum = self.sum.wrapping_add(number);
        self.sums = self.sums.wrapping_add(self.sum);
    }

    /// Adds the bytes, and then their count, to the digest. Eight bytes are one number, and each of the last bytes is one number.
    pub fn add_bytes(&mut self, bytes: &[u8]) {
        let mut words = bytes.chunks_exact(8);
        while let Some(word) = words.next() {
            if let [a, b, c, d, e, f, g, h] = word {
                self.add(u64::from_le_bytes([*a, *b, *c, *d, *e, *f, *g, *h]));
            }
        }
        for byte in words.remainder() {
            self.add(u64::from(*byte));
        }
        self.add(bytes.len() as u64);
    }

    /// Returns the digest as one number.
    pub fn value(&self) -> u64 {
        self.sum ^ self.sums.rotate_left(32)
    }
}

/// The size of the buffer: the greatest number of bytes that are not in the digest yet.
const ROOM: usize = 16384;

/// A writer that makes a digest of the bytes that are written to it. The digest does not depend on how the bytes are divided into
/// writes.
#[derive(Drop)]
pub struct DigestWriter {
    digest: Digest,
    bytes: [u8; ROOM],
    count: usize,
    ghost within: { count ≤ 16384 },
}

impl DigestWriter {
    /// Creates a writer to which nothing was written.
    pub fn new() -> DigestWriter {
        DigestWriter {
            digest: Digest::new(),
            bytes: [0; ROOM],
            count: 0,
        }
    }

    /// Returns the digest of all bytes that were written.
    pub fn finish(&mut self) -> u64 {
        self.fold();
        self.digest.value()
    }

    fn fold(&mut self) {
        let mut digest = self.digest;
        digest.add_bytes(&self.bytes[..self.count]);
        self.digest = digest;
        self.count = 0;
    }
}

impl Write for DigestWriter {
    fn write(&mut self, buf: &[u8]) -> io::Result<usize> {
        if self.count == ROOM {
            self.fold();
        }
        let taken = buf.len().min(ROOM - self.count);
        let start = self.count;
        let end = start + taken;
        let room = &mut self.bytes[..];
        room[start..end].copy_from_slice(&buf[..taken]);
        self.count = end;
        Ok(taken)
    }

    fn flush(&mut self) -> io::Result<()> {
        Ok(())
    }
}
