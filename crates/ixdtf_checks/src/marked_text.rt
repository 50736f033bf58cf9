//! Makes the lines under a message: a text, and marks under the part that is wrong.
//!
//! The complete text is tested for UTF-8. Apart from this test, only the part that is shown is read. In these comments, the *position*
//! is the index at which the part that is wrong begins. At most 48 characters before the position are shown, and at most 24 from the
//! position on. Each character has at most four bytes.
ghost use Rattle.std.specs.Prelude.{◌≡◌, ◌<◌, ◌≤◌, ◌+◌, ◌∷◌, ℕ, length, map, take, drop, replicate, slice_index, IsTrue, IsUtf8, false};
ghost use Rattle.std.specs.Str.{IsAscii, chars};
ghost use Rattle.ixdtf_explanations.specs.LocatedTexts.{column_of, cut_mark, marks_of};
ghost use Rattle.ixdtf_buffers.specs.Adding.{Adds};
ghost use Rattle.ixdtf_buffers.specs.Lines.{newline};
ghost use Rattle.ixdtf_checks.specs.Pointed.{Fits, IsNear, IsWindow, begins_character, behind_shown, bytes_in, mask, masked, starts, window_lines};
ghost use Rattle.ixdtf_checks.specs.Seen.{lines_at};

use ixdtf::WrongPart;
use ixdtf_buffers::adding::{add_byte, add_bytes};
use ixdtf_buffers::place::place_of;

/// The greatest number of characters that are shown before the position of an error.
const BEFORE_PLACE: usize = 48;

/// The greatest number of characters that are shown from the position on.
const FROM_PLACE: usize = 24;

/// The size in bytes of the array in which a report is made.
///
/// The name of a file that is written into the array has at most 256 bytes. The numbers of the line and of the column have at most 45
/// bytes, with the colons and the space. A message that is written into the array has three parts of at most 120 bytes, and a newline
/// follows it. The two lines under the message have at most 368 bytes: `..`, 72 characters of four bytes, `..`, a newline, 50 spaces,
/// 24 marks and a newline. The line with the hint has `hint: `, three parts of at most 120 bytes, and a newline.
pub const ROOM: usize = 1397;

/// The greatest number of marks.
const MARKS: &[u8; 24] = b"^^^^^^^^^^^^^^^^^^^^^^^^";

/// A newline, and the greatest number of spaces before a mark.
const SPACES: &[u8; 51] = b"\n                                                  ";

/// The part of a text that is shown.
#[derive(Clone, Copy)]
pub struct Window {
    /// The index at which the part begins.
    pub start: usize,
    /// The index at which the part ends.
    pub end: usize,
    /// The number of columns before the mark.
    pub indent: usize,
}

/// The first byte of the control characters of two bytes, and of some other characters. The second byte of such a control character
/// is 0x80 to 0x9F.
const LEAD: u8 = 0xC2;

/// Adds the lines under a message, if the bytes are UTF-8. Returns the index after the added bytes.
///
/// First adds the bytes near the position: at most 48 bytes before it, and at most 24 from it on. If they are all ASCII, they are the
/// part that is shown. Otherwise the function begins again, and `add_any` writes over these bytes.
#[inline(always)]
pub fn add_lines(room: &mut [u8; ROOM], at: usize, bytes: &[u8], part: WrongPart) -> usize
    requires { at + 368 ≤ 1030 }
    ensures place { result ≤ 1030 }
    ensures text { Adds room.old room.new at result (lines_at part.begin part.end bytes.now) }
{
    let near = near_window(bytes, part.begin);
    let first = add_cut_mark(room, at, near.start > 0);
    let part_near = &bytes[near.start..near.end];
    if !add_run(room, first, part_near) {
        add_any(room, at, bytes, part)
    } else if is_text(bytes, near) {
        add_behind(room, first + part_near.len(), bytes, near, marks_of(part))
    } else {
        at
    }
}

/// Returns the window of the bytes near the position: at most 48 before it, and at most 24 from it on.
#[inline(always)]
fn near_window(bytes: &[u8], place: usize) -> Window
    ensures fits { Fits bytes.now result }
    ensures near { IsNear bytes.now place result }
{
    let mark = place.min(bytes.len());
    let start = mark.saturating_sub(BEFORE_PLACE);
    Window {
        start,
        end: bytes.len().min(mark + FROM_PLACE),
        indent: indent_behind(start, mark),
    }
}

/// Returns the number of columns before the mark. `start` is the index at which the shown part of the text begins.
///
/// If `start` is 0, `count` is the number of characters before the mark, and there is one column for each of them. If `start`
/// is greater than 0, `..` and 48 characters are shown before the mark. These are always 50 columns, and `count` is not used.
fn indent_behind(start: usize, count: usize) -> usize
    ensures cut { 0 < start → result ≡ 50 }
    ensures whole { start ≡ 0 → result ≡ count }
{
    if start > 0 { BEFORE_PLACE + 2 } else { count }
}

/// Returns whether the bytes are UTF-8. The bytes in the window are known to be ASCII. So the function tests nothing if the
/// window contains the complete text.
#[inline(always)]
fn is_text(bytes: &[u8], window: Window) -> bool
    requires { IsAscii (bytes_in window bytes.now) }
    ensures yes { IsTrue result → IsUtf8 bytes.now }
    ensures no { result ≡ false → ¬ (IsUtf8 bytes.now) }
{
    if window.start == 0 && window.end >= bytes.len() {
        return true;
    }
    str::from_utf8(bytes).is_ok()
}

/// Adds the lines for bytes that can contain non-ASCII bytes near the position. Adds nothing if the bytes are not UTF-8.
#[cold]
#[inline(never)]
fn add_any(room: &mut [u8; ROOM], at: usize, bytes: &[u8], part: WrongPart) -> usize
    requires { at + 368 ≤ 1030 }
    ensures place { result ≤ 1030 }
    ensures text { Adds room.old room.new at result (lines_at part.begin part.end bytes.now) }
{
    match str::from_utf8(bytes) {
        Ok(_) => add_shown(
            room,
            at,
            bytes,
            window_of(bytes, part.begin),
            marks_of(part),
        ),
        Err(_) => at,
    }
}

/// Adds the part of a text that is shown, and the marks under it.
fn add_shown(room: &mut [u8; ROOM], at: usize, bytes: &[u8], window: Window, marks: usize) -> usize
    requires room { at + 368 ≤ 1030 }
    requires fits { Fits bytes.now window }
    requires few { marks ≤ 24 }
    ensures place { result ≤ 1030 }
    ensures text { Adds room.old room.new at result
        (window_lines bytes.now window marks (masked (bytes_in window bytes.now))) }
{
    let first = add_cut_mark(room, at, window.start > 0);
    let second = add_masked(room, first, &bytes[window.start..window.end]);
    add_behind(room, second, bytes, window, marks)
}

/// Adds what follows the shown part of a text: `..` if the text continues, and the line with the marks.
#[inline(always)]
fn add_behind(room: &mut [u8; ROOM], at: usize, bytes: &[u8], window: Window, marks: usize) -> usize
    requires room { at + 78 ≤ 1030 }
    requires narrow { window.indent ≤ 50 }
    requires few { marks ≤ 24 }
    ensures place { result ≤ 1030 }
    ensures text { Adds room.old room.new at result (behind_shown bytes.now window marks) }
{
    let third = add_cut_mark(room, at, window.end < bytes.len());
    let first = add_spaces(room, third, window.indent);
    let last = add_marks(room, first, marks);
    add_byte(room, last, b'\n')
}

/// Returns the number of marks under a part: one for each byte, but at least one, and at most 24.
#[inline(always)]
fn marks_of(part: WrongPart) -> usize
    ensures marks { result ≡ marks_of part.begin part.end }
    ensures few { result ≤ 24 }
{
    if part.end <= part.begin {
        return 1;
    }
    FROM_PLACE.min(part.end - part.begin)
}

/// Returns the part of a text that is shown: at most 48 characters before the position, and at most 24 from it on.
fn window_of(bytes: &[u8], place: usize) -> Window
    requires { IsUtf8 bytes.now }
    ensures fits { Fits bytes.now result }
    ensures characters { IsWindow bytes.now place result }
{
    let mark = character_at(bytes, place);
    let before = last_characters(&bytes[..mark]);
    let end = mark + first_characters(&bytes[mark..]);
    Window {
        start: before.start,
        end,
        indent: indent_behind(before.start, before.count),
    }
}

/// The last characters of a text, at most 48.
#[derive(Clone, Copy)]
struct LastCharacters {
    /// The index at which they begin.
    start: usize,
    /// The number of these characters.
    count: usize,
}

/// Returns the index of the first byte of the character that contains the byte at `place`. Returns the length of the text if
/// `place` is not in the text.
fn character_at(bytes: &[u8], place: usize) -> usize
    requires { IsUtf8 bytes.now }
    ensures within { result ≤ length bytes.now }
    ensures front { IsUtf8 (take result bytes.now) }
    ensures rest { IsUtf8 (drop result bytes.now) }
    ensures column { column_of (chars bytes.now) place ≡ length (chars (take result bytes.now)) }
{
    if place >= bytes.len() {
        return bytes.len();
    }
    let mut start = place;
    while start > 0 && !begins_character(bytes[start]) {
        start -= 1;
    }
    start
}

/// Returns the last characters of a text, at most 48.
fn last_characters(bytes: &[u8]) -> LastCharacters
    requires { IsUtf8 bytes.now }
    ensures within { result.start ≤ length bytes.now }
    ensures front { IsUtf8 (take result.start bytes.now) }
    ensures rest { IsUtf8 (drop result.start bytes.now) }
    ensures count { length (chars (drop result.start bytes.now)) ≡ result.count }
    ensures few { result.count ≤ 48 }
    ensures cut { 0 < result.start → result.count ≡ 48 }
{
    let mut start = bytes.len().saturating_sub(BEFORE_PLACE);
    let mut count = characters_in(&bytes[start..]);
    while start > 0 && count < BEFORE_PLACE {
        start -= 1;
        count += usize::from(begins_character(bytes[start]));
    }
    LastCharacters { start, count }
}

/// Returns the index at which the first 24 characters of a text end. Returns the length of the text if it has fewer.
fn first_characters(bytes: &[u8]) -> usize
    requires { IsUtf8 bytes.now }
    ensures within { result ≤ length bytes.now }
    ensures front { IsUtf8 (take result bytes.now) }
    ensures rest { IsUtf8 (drop result bytes.now) }
    ensures few { length (chars (take result bytes.now)) ≤ 24 }
    ensures cut { result < length bytes.now → length (chars (take result bytes.now)) ≡ 24 }
{
    let mut end = bytes.len().min(FROM_PLACE);
    let mut count = characters_in(&bytes[..end]);
    while end < bytes.len() {
        count += usize::from(begins_character(bytes[end]));
        if count > FROM_PLACE {
            return end;
        }
        end += 1;
    }
    end
}

/// Returns how many characters begin in the bytes. There are at most 48 bytes, so the count fits into a `u8`. With a count of
/// this type, the compiled code can test many bytes at once.
fn characters_in(bytes: &[u8]) -> usize
    requires { length bytes.now ≤ 48 }
    ensures { result ≡ starts bytes.now }
{
    let mut count = 0u8;
    for byte in bytes {
        count += u8::from(begins_character(*byte));
    }
    usize::from(count)
}

/// Returns whether the byte is the first byte of a character in UTF-8.
fn begins_character(byte: u8) -> bool
    ensures { result ≡ begins_character byte }
{
    byte < 0x80 || byte >= 0xC0
}

/// Adds `..` if a part of the text is left out.
#[inline(always)]
fn add_cut_mark(room: &mut [u8; ROOM], at: usize, is_cut: bool) -> usize
    requires { at + 2 ≤ 1030 }
    ensures place { result ≤ at + 2 }
    ensures text { Adds room.old room.new at result (cut_mark is_cut) }
{
    if is_cut {
        add_bytes(room, at, b"..")
    } else {
        at
    }
}

/// Adds the bytes of a text, with `.` instead of each control character. Control characters are U+0000 to U+001F and U+007F, which
/// are one byte, and U+0080 to U+009F, which are two bytes.
fn add_masked(room: &mut [u8; ROOM], at: usize, bytes: &[u8]) -> usize
    requires { at + length bytes.now ≤ 1030 }
    ensures place { result ≤ at + length bytes.now }
    ensures text { Adds room.old room.new at result (masked bytes.now) }
{
    let mut end = at;
    let mut rest = bytes;
    'leads: while let Some(place) = place_of(LEAD, rest) {
        add_run(room, end, &rest[..place]);
        let middle = end + place;
        if begins_control(rest, place) {
            end = add_byte(room, middle, b'.');
            rest = &rest[place + 2..];
        } else {
            end = add_byte(room, middle, LEAD);
            rest = &rest[place + 1..];
        }
    }
    add_run(room, end, rest);
    end + rest.len()
}

/// Adds the bytes, with `.` instead of each control character of one byte. Returns whether all the bytes are ASCII.
#[inline(always)]
fn add_run(room: &mut [u8; ROOM], at: usize, bytes: &[u8]) -> bool
    requires { at + length bytes.now ≤ 1030 }
    ensures text { Adds room.old room.new at (at + length bytes.now) (map mask bytes.now) }
    ensures ascii { IsTrue result → IsAscii bytes.now }
{
    let whole = &mut room[..];
    copy_masked(&mut whole[at..at + bytes.len()], bytes) < 0x80
}

/// Writes each byte of `bytes` as `masked` returns it. Returns the greatest byte, or 0 if there are no bytes.
///
/// Both slices are cut to the same length, so that the compiled code can write many bytes at once. The loop also finds the greatest
/// byte. In a loop of its own, this would make the processor mispredict about one branch more for each report.
#[inline(always)]
fn copy_masked(room: &mut [u8], bytes: &[u8]) -> u8
    requires { length room.old ≡ length bytes.now }
    ensures shown { room.new ≡ map mask bytes.now }
    ensures greatest { (index : ℕ) → slice_index bytes.now index ≤ result }
{
    let bytes = &bytes[..room.len()];
    let mut greatest = 0;
    for index in 0..room.len() {
        let byte = bytes[index];
        greatest = byte.max(greatest);
        room[index] = masked(byte);
    }
    greatest
}

/// Returns `.` for a control character of one byte, and any other byte unchanged.
fn masked(byte: u8) -> u8
    ensures { result ≡ mask byte }
{
    if byte < b' ' || byte == 0x7F {
        b'.'
    } else {
        byte
    }
}

/// Returns whether the `LEAD` at `place` begins a control character of two bytes.
fn begins_control(bytes: &[u8], place: usize) -> bool
    requires { place < length bytes.now }
    ensures on { IsTrue result → (place + 1 < length bytes.now) × (slice_index bytes.now (place + 1) < 160) }
    ensures off { result ≡ false → place + 1 < length bytes.now → 160 ≤ slice_index bytes.now (place + 1) }
{
    place + 1 < bytes.len() && bytes[place + 1] < 0xA0
}

/// Adds a newline and the spaces before the mark.
///
/// The function always writes the greatest number of spaces, because the compiled code can copy a fixed number of bytes without
/// a call of another function. The next bytes overwrite the spaces after the position of the mark.
#[inline(always)]
fn add_spaces(room: &mut [u8; ROOM], at: usize, indent: usize) -> usize
    requires few { indent ≤ 50 }
    requires room { at + 51 ≤ 1030 }
    ensures place { result ≤ at + 51 }
    ensures text { Adds room.old room.new at result (newline ∷ replicate indent 32) }
{
    let _end = add_bytes(room, at, SPACES);
    at + indent + 1
}

/// Adds the marks.
///
/// Like `add_spaces`, the function always writes the greatest number of them. The next bytes overwrite those that are too many.
#[inline(always)]
fn add_marks(room: &mut [u8; ROOM], at: usize, count: usize) -> usize
    requires few { count ≤ 24 }
    requires room { at + 24 ≤ 1030 }
    ensures place { result ≤ at + 24 }
    ensures text { Adds room.old room.new at result (replicate count 94) }
{
    let _end = add_bytes(room, at, MARKS);
    at + count
}
