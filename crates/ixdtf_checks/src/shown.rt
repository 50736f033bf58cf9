//! Writes messages about refused texts. A message can show a part of the text, a character, or a byte. This module makes the bytes of
//! what a message shows, such as `U+202F (narrow no-break space)` for a character, or `the byte 0xE9` for a byte.
//!
//! `Display` of [`Shown`] writes the same bytes. The program makes them without `core::fmt`, because that is faster.
ghost use Rattle.std.specs.Prelude.{◌≡◌, ◌≤◌, ◌+◌, ◌∷◌, ◌++◌, codes};
ghost use Rattle.ixdtf_explanations.specs.Messages.{message_text, shown_text, character_text, look_alike, hex_text};
ghost use Rattle.ixdtf_buffers.specs.Adding.{Adds};
ghost use Rattle.ixdtf_buffers.specs.Output.{Puts};

use ixdtf::{Message, Shown, byte_digits, character_digits, look_alike};
use ixdtf_buffers::adding::{add_byte, add_bytes};
use ixdtf_buffers::error::RunError;
use ixdtf_buffers::output::Output;
use ixdtf_buffers::sink::Sink;

/// The size in bytes of the array in which `shown_bytes` writes.
///
/// The longest text that the function writes is `U+202F (narrow no-break space)`, which has 30 bytes.
pub const SHOWN_ROOM: usize = 40;

/// Returns what a message shows of the text, as `Display` of `Shown` writes it.
///
/// If `shown` is a character or a byte, the function writes it into `room`, and returns a prefix of `room`. If `shown` is a part of
/// the text, the function returns this part without a copy.
pub fn shown_bytes<'b>(shown: Shown<'b>, room: &'b mut [u8; SHOWN_ROOM]) -> &'b [u8]
    ensures { result.now ≡ shown_text shown.entry }
{
    match shown {
        Shown::Nothing => b"",
        Shown::Part(text) => text.as_bytes(),
        Shown::Character(character) => {
            let end = add_character(room, 0, character);
            &room[..end]
        }
        Shown::Byte(byte) => {
            let end = add_byte_number(room, 0, byte);
            &room[..end]
        }
    }
}

/// Writes a message to the output.
#[cold]
#[inline(never)]
pub fn put_message<K: Sink>(
    output: &mut Output<'_, K>,
    message: &Message<'_>,
) -> Result<(), RunError>
    ensures { Puts K.contents K.failed output.old output.new result (message_text message.now) }
{
    let mut array = [0; SHOWN_ROOM];
    let shown = shown_bytes(message.shown, &mut array);
    output.put(message.before.as_bytes())?;
    output.put(shown)?;
    output.put(message.after.as_bytes())
}

/// Adds the character in backticks, or its name, or its number. Returns the index after the added bytes. Most characters are added
/// in backticks, so the function tests for these characters first.
#[inline(always)]
pub fn add_character<const SIZE: usize>(room: &mut [u8; SIZE], at: usize, character: char) -> usize
    requires { at + 40 ≤ SIZE }
    ensures place { result ≤ at + 40 }
    ensures text { Adds room.old room.new at result (character_text character) }
{
    match character {
        '!'..='_' | 'a'..='~' => add_quoted(room, at, character as u8),
        ' ' => add_bytes(room, at, b"a space"),
        '\t' => add_bytes(room, at, b"a tab"),
        '\n' => add_bytes(room, at, b"a newline"),
        '\r' => add_bytes(room, at, b"a carriage return"),
        '`' => add_bytes(room, at, b"a backtick"),
        _ => add_named_number(room, at, character),
    }
}

/// Adds the byte in backticks.
#[inline(always)]
fn add_quoted<const SIZE: usize>(room: &mut [u8; SIZE], at: usize, byte: u8) -> usize
    requires { at + 3 ≤ SIZE }
    ensures place { result ≡ at + 3 }
    ensures text { Adds room.old room.new at result (codes "`" ++ byte ∷ codes "`") }
{
    let quoted = add_byte(room, at, b'`');
    let last = add_byte(room, quoted, byte);
    add_byte(room, last, b'`')
}

/// Adds the number of the character, and its name if people confuse it with another character.
///
/// The function is not inlined, because few characters are shown by their number.
#[cold]
#[inline(never)]
fn add_named_number<const SIZE: usize>(room: &mut [u8; SIZE], at: usize, character: char) -> usize
    requires { at + 40 ≤ SIZE }
    ensures place { result ≤ at + 40 }
    ensures text { Adds room.old room.new at result (codes "U+" ++ (hex_text 4 character ++ look_alike character)) }
{
    let number = add_bytes(room, at, b"U+");
    let mut digits = [0; 6];
    let name = add_bytes(room, number, character_digits(character, &mut digits));
    add_bytes(room, name, look_alike(character).as_bytes())
}

/// Adds the value of a byte, such as `the byte 0xE9`. A message shows a byte if no character in UTF-8 begins at the position that the
/// message is about.
#[cold]
#[inline(never)]
pub fn add_byte_number<const SIZE: usize>(room: &mut [u8; SIZE], at: usize, byte: u8) -> usize
    requires { at + 40 ≤ SIZE }
    ensures place { result ≤ at + 40 }
    ensures text { Adds room.old room.new at result (codes "the byte 0x" ++ hex_text 2 byte) }
{
    let number = add_bytes(room, at, b"the byte 0x");
    add_bytes(room, number, &byte_digits(byte))
}
