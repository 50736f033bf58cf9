//! Texts that change from turn to turn, like an odometer.

use crate::random::Random;
use std::alloc::{AllocError, Global};

/// A byte of a text that changes at a turn, from `first` to `last`.
#[derive(Clone, Copy)]
struct Wheel {
    at: usize,
    first: u8,
    last: u8,
}

/// A text in which some bytes change. The last of them changes at each turn. If it begins again at its first value, the one before
/// it changes too, and so on.
#[derive(Drop)]
pub struct Kept {
    bytes: Vec<u8>,
    wheels: Vec<Wheel>,
}

impl Kept {
    /// Creates a text. The letters of the mask say which bytes of the text change, and between which values:
    ///
    /// `d` is a digit, `n` a digit from 1 to 9, `e` from 1 to 8, `m` from 0 to 5, `q` from 0 to 2, `b` from 0 to 1, and `l` is a
    /// lowercase letter. Under any other byte of the mask, the byte of the text does not change.
    ///
    /// In the first text, these bytes have random values.
    pub fn new(
        alloc: Global,
        text: &[u8],
        mask: &[u8],
        random: &mut Random,
    ) -> Result<Kept, AllocError> {
        let mut kept = Kept {
            bytes: text.to_vec(alloc)?,
            wheels: Vec::new(alloc),
        };
        for at in (0..mask.len()).rev() {
            if let Some((first, last)) = range_of(mask[at]) {
                kept.add_wheel(Wheel { at, first, last }, random)?;
            }
        }
        Ok(kept)
    }

    /// Appends the bytes to the text. They do not change.
    pub fn push(&mut self, bytes: &[u8]) -> Result<(), AllocError> {
        self.bytes.extend_from_slice(bytes)
    }

    /// Adds one more byte that changes, and gives it a random value.
    fn add_wheel(&mut self, wheel: Wheel, random: &mut Random) -> Result<(), AllocError> {
        if let Some(byte) = self.bytes.get_mut(wheel.at) {
            *byte = random.byte_within(wheel.first, wheel.last);
        }
        self.wheels.push(wheel)?;
        Ok(())
    }

    /// Changes the text to the next one.
    pub fn turn(&mut self) {
        for wheel in self.wheels.as_slice() {
            if let Some(byte) = self.bytes.get_mut(wheel.at) {
                if *byte < wheel.last {
                    *byte += 1;
                    return;
                }
                *byte = wheel.first;
            }
        }
    }

    /// Returns the present text.
    pub fn as_slice(&self) -> &[u8] {
        self.bytes.as_slice()
    }
}

/// Returns the first and the last byte that a letter of a mask stands for. Returns `None` for any other byte.
fn range_of(letter: u8) -> Option<(u8, u8)> {
    match letter {
        b'd' => Some((b'0', b'9')),
        b'n' => Some((b'1', b'9')),
        b'e' => Some((b'1', b'8')),
        b'm' => Some((b'0', b'5')),
        b'q' => Some((b'0', b'2')),
        b'b' => Some((b'0', b'1')),
        b'l' => Some((b'a', b'z')),
        _ => None,
    }
}
