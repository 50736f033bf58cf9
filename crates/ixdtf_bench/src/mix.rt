//! A mix of texts of many shapes.
ghost use Rattle.std.specs.Prelude.{◌≤◌, length};

use crate::kept::Kept;
use crate::random::Random;
use std::alloc::{AllocError, Global};
use std::io;
use std::io::Read;

/// The number of parts of a mix.
const PARTS: usize = 1024;

/// A row for a text: how many parts of the mix have this text, the text itself, and its mask (`Kept::new`).
pub type Row = (usize, &'static [u8], &'static [u8]);

/// A row for a long text: the number of parts, the beginning of the text, the mask of the beginning, the number of repetitions of
/// a piece, the piece, and the end of the text.
pub type LongRow = (
    usize,
    &'static [u8],
    &'static [u8],
    (usize, &'static [u8]),
    &'static [u8],
);

/// Texts of several shapes. A text of a shape is kept, and changes when its shape is chosen again.
#[derive(Drop)]
pub struct Mix {
    alloc: Global,
    shapes: Vec<Kept>,
    /// The number of the shape for each part.
    parts: Vec<usize>,
    random: Random,
    chosen: usize,
}

impl Mix {
    /// Creates a mix without texts. Its random numbers begin with this seed.
    pub fn new(alloc: Global, seed: u64) -> Mix {
        Mix {
            alloc,
            shapes: Vec::new(alloc),
            parts: Vec::new(alloc),
            random: Random::new(seed),
            chosen: 0,
        }
    }

    /// Creates a mix of the texts of these rows.
    pub fn of(alloc: Global, seed: u64, rows: &[Row]) -> Result<Mix, AllocError> {
        let mut mix = Mix::new(alloc, seed);
        for (parts, text, mask) in rows {
            mix.add(*parts, text, mask)?;
        }
        Ok(mix)
    }

    /// Creates a mix of the long texts of these rows.
    pub fn of_long(alloc: Global, seed: u64, rows: &[LongRow]) -> Result<Mix, AllocError> {
        let mut mix = Mix::new(alloc, seed);
        for (parts, front, mask, pieces, end) in rows {
            mix.add_long(*parts, front, mask, *pieces, end)?;
        }
        Ok(mix)
    }

    /// Adds a text to `parts` of the 1,024 parts of the mix. The mask says which of its bytes change (`Kept::new`).
    pub fn add(&mut self, parts: usize, text: &[u8], mask: &[u8]) -> Result<(), AllocError> {
        let kept = Kept::new(self.alloc, text, mask, &mut self.random)?;
        self.add_kept(parts, kept)
    }

    /// Adds a text that has a beginning, a repeated piece, and an end. The mask says which bytes of the beginning change. `pieces`
    /// is the number of repetitions, and the piece.
    fn add_long(
        &mut self,
        parts: usize,
        front: &[u8],
        mask: &[u8],
        pieces: (usize, &[u8]),
        end: &[u8],
    ) -> Result<(), AllocError> {
        let mut kept = Kept::new(self.alloc, front, mask, &mut self.random)?;
        for _ in 0..pieces.0 {
            kept.push(pieces.1)?;
        }
        kept.push(end)?;
        self.add_kept(parts, kept)
    }

    fn add_kept(&mut self, parts: usize, kept: Kept) -> Result<(), AllocError> {
        let shape = self.shapes.len();
        self.shapes.push(kept)?;
        for _ in 0..parts {
            self.parts.push(shape)?;
        }
        Ok(())
    }

    /// Chooses a shape at random, changes its text to the next one, and returns the number of the shape.
    pub fn choose(&mut self) -> usize {
        let number = (self.random.next() >> 20) as usize % PARTS;
        if let Some(shape) = self.parts.get(number) {
            self.chosen = *shape;
        }
        if let Some(kept) = self.shapes.get_mut(self.chosen) {
            kept.turn();
        }
        self.chosen
    }

    /// Returns the text that was chosen last.
    pub fn text(&self) -> &[u8] {
        match self.shapes.get(self.chosen) {
            Some(kept) => kept.as_slice(),
            None => b"".as_slice(),
        }
    }
}

/// A reader that returns the bytes of a number of texts of a mix.
#[derive(Drop)]
pub struct Feed<'m> {
    mix: &'m mut Mix,
    left: u64,
    /// The number of bytes of the present text that were read.
    at: usize,
}

impl<'m> Feed<'m> {
    /// Creates a reader of `count` texts.
    pub fn new(mix: &'m mut Mix, count: u64) -> Feed<'m> {
        Feed {
            mix,
            left: count,
            at: usize::MAX,
        }
    }

    /// Copies bytes of one text to `room`, and returns how many. The result is 0 at the end of the last text, or if `room` is
    /// empty.
    fn move_some(&mut self, room: &mut [u8]) -> usize
        ensures { result ≤ length room.old }
    {
        if self.at >= self.mix.text().len() {
            if self.left == 0 {
                return 0;
            }
            self.left -= 1;
            let _ = self.mix.choose();
            self.at = 0;
        }
        let text = self.mix.text();
        if self.at > text.len() {
            return 0;
        }
        let rest = &text[self.at..];
        let count = rest.len().min(room.len());
        room[..count].copy_from_slice(&rest[..count]);
        self.at += count;
        count
    }
}

impl Read for Feed<'_> {
    fn read(&mut self, buf: &mut [u8]) -> io::Result<usize> {
        let mut count = 0;
        'texts: for _ in 0..buf.len() {
            let moved = self.move_some(&mut buf[count..]);
            if moved == 0 {
                return Ok(count);
            }
            count += moved;
        }
        Ok(count)
    }
}
