//! Adds a message to a report. A message can show a part of the refused text, a character or a byte.
//!
//! `Display` of [`Message`] and of [`Shown`] writes the same bytes. But the contract of `Display` does not say when `Display`
//! succeeds. The functions of this file always succeed.

ghost use Rattle.std.specs.Prelude.{◌++◌, codes};
ghost use Rattle.ixdtf_explanations.specs.Messages.{message_text, shown_text, character_text, look_alike, hex_text};
ghost use Rattle.ixdtf_c.specs.Adding.{Adds};

use crate::report_bytes::add;
use ixdtf::{Message, Shown, byte_digits, character_digits, look_alike};

/// Adds a message.
pub fn add_message(out: &mut [u8], at: usize, message: &Message<'_>) -> usize
    ensures { Adds out.old out.new at result (message_text message.now) }
{
    let shown = add(out, at, message.before.as_bytes());
    let after = add_shown(out, shown, message.shown);
    add(out, after, message.after.as_bytes())
}

/// Adds what a message shows of the text.
fn add_shown(out: &mut [u8], at: usize, shown: Shown<'_>) -> usize
    ensures { Adds out.old out.new at result (shown_text shown.entry) }
{
    match shown {
        Shown::Nothing => at,
        Shown::Part(text) => add(out, at, text.as_bytes()),
        Shown::Character(character) => add_character(out, at, character),
        Shown::Byte(byte) => add_byte(out, at, byte),
    }
}

/// Adds the character in backticks, or its name, or its number.
fn add_character(out: &mut [u8], at: usize, character: char) -> usize
    ensures { Adds out.old out.new at result (character_text character) }
{
    match character {
        ' ' => add(out, at, b"a space"),
        '\t' => add(out, at, b"a tab"),
        '\n' => add(out, at, b"a newline"),
        '\r' => add(out, at, b"a carriage return"),
        '`' => add(out, at, b"a backtick"),
        '!'..='~' => add(out, at, &[b'`', character as u8, b'`']),
        _ => add_number(out, at, character),
    }
}

/// Adds the number of the character, and its name if people confuse it with another character.
fn add_number(out: &mut [u8], at: usize, character: char) -> usize
    ensures { Adds out.old out.new at result (codes "U+" ++ (hex_text 4 character ++ look_alike character)) }
{
    let number = add(out, at, b"U+");
    let mut room = [0; 6];
    let name = add(out, number, character_digits(character, &mut room));
    add(out, name, look_alike(character).as_bytes())
}

/// Adds the number of a byte with which no character begins.
fn add_byte(out: &mut [u8], at: usize, byte: u8) -> usize
    ensures { Adds out.old out.new at result (codes "the byte 0x" ++ hex_text 2 byte) }
{
    let number = add(out, at, b"the byte 0x");
    add(out, number, &byte_digits(byte))
}
