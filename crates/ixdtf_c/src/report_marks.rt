//! Adds two lines to a report: the refused text, and below it a line of `^` signs under the part that is wrong.
//!
//! `Display` of `PointedText` writes the same bytes. But the contract of `Display` does not say when `Display` succeeds. The
//! functions of this file always succeed.

ghost use Rattle.std.specs.Prelude.{◌≤◌, length, map, take, drop, replicate};
ghost use Rattle.std.specs.Str.{chars, encode_utf8_all};
ghost use Rattle.std.specs.Char.{encode_utf8};
ghost use Rattle.ixdtf_explanations.specs.LocatedTexts.{shown, line_of, pointed_text};
ghost use Rattle.ixdtf_c.specs.Adding.{Adds};

use crate::report_bytes::add;
use ixdtf::{BEFORE_PLACE, FROM_PLACE, WrongPart, column_of, cut_mark, indent_of, marks_of};

/// Adds the text, and under it a mark for each byte of the part: at least one mark and at most 24.
pub fn add_pointed(out: &mut [u8], at: usize, text: &str, part: WrongPart) -> usize
    ensures { Adds out.old out.new at result (pointed_text text.now part.begin part.end) }
{
    let column = column_of(text, part.begin);
    let newline = add_line(out, at, text, column);
    let spaces = add(out, newline, b"\n");
    let marks = add_repeated(out, spaces, b' ', indent_of(column));
    add_repeated(out, marks, b'^', marks_of(part))
}

/// Adds the line of the text: at most 48 characters before the column, and at most 24 characters from the column on.
fn add_line(out: &mut [u8], at: usize, text: &str, column: usize) -> usize
    requires { column ≤ length (chars text.now) }
    ensures { Adds out.old out.new at result (encode_utf8_all (line_of (chars text.now) column)) }
{
    let last = column + FROM_PLACE;
    let is_longer = last < text.chars().count();
    let front = add(out, at, cut_mark(BEFORE_PLACE < column).as_bytes());
    let behind = add_characters(out, front, text, column.saturating_sub(BEFORE_PLACE), last);
    add(out, behind, cut_mark(is_longer).as_bytes())
}

/// Adds the characters from index `first` up to, but not including, index `last`.
fn add_characters(out: &mut [u8], at: usize, text: &str, first: usize, last: usize) -> usize
    ensures { Adds out.old out.new at result (encode_utf8_all (map shown (drop first (take last (chars text.now))))) }
{
    let mut end = at;
    for character in text.chars().take(last).skip(first) {
        end = add_character(out, end, character);
    }
    end
}

/// Adds the character, or `.` for a control character.
fn add_character(out: &mut [u8], at: usize, character: char) -> usize
    ensures { Adds out.old out.new at result (encode_utf8 (shown character)) }
{
    if character.is_control() {
        return add(out, at, b".");
    }
    let mut bytes = [0; 4];
    add(out, at, character.encode_utf8(&mut bytes).as_bytes())
}

/// Adds a byte `count` times.
fn add_repeated(out: &mut [u8], at: usize, byte: u8, count: usize) -> usize
    ensures { Adds out.old out.new at result (replicate count byte) }
{
    let mut end = at;
    for _ in 0..count {
        end = add(out, end, &[byte]);
    }
    end
}
