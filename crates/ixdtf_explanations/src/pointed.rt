//! A text with marks under one of its parts.

ghost use Rattle.std.specs.Prelude.{◌≡◌, ◌≤◌, length, map, take, drop, replicate};
ghost use Rattle.std.specs.Str.{chars, encode_utf8_all};
ghost use Rattle.std.specs.Char.{encode_utf8};
ghost use Rattle.std.specs.Fmt.{WritesStyledOnOk};
ghost use Rattle.ixdtf_explanations.specs.LocatedTexts.{shown, column_of, cut_mark, line_of, indent_of, marks_of};

use crate::part::WrongPart;
use std::fmt;

/// The greatest number of characters that are written before the marks.
pub const BEFORE_PLACE: usize = 48;

/// The greatest number of characters that are written from the first mark on, and the greatest number of marks.
pub const FROM_PLACE: usize = 24;

/// A text with marks under the part that is wrong. [`LocatedError::in_text`](crate::LocatedError::in_text) and
/// [`LocatedError::in_bytes`](crate::LocatedError::in_bytes) return it.
///
/// `Display` writes two lines. The first line is the text. The second line has spaces, and then a `^` for each byte of the
/// part that is wrong. There is a newline between the two lines, and none at the end. `Display` does not allocate.
///
/// - The first mark is under the character that contains the first byte of the part. If the part begins at or after the end
///   of the shown text, the first mark is one column after the last character. A column is one code point.
/// - There is at least one mark, and there are at most 24.
/// - A control character, U+0000 to U+001F or U+007F to U+009F, is written as `.`.
/// - At most 48 characters before the first mark are written, and at most 24 characters from the first mark on. If
///   characters are left out on one of these two sides, `..` is written instead of them. So a line has at most 76 columns.
///
/// # Examples
///
/// ```rust
/// use ixdtf::parsers::IxdtfParser;
///
/// let text = "2024-03-02T08:48:00-05:00[America/New_York][u-ca=hebrew][key=a_b]";
/// let error = IxdtfParser::from_str(text).parse_located().unwrap_err();
/// assert_eq!(error.at, 62);
/// assert_eq!(error.in_text(text).to_string(), "\
/// ..48:00-05:00[America/New_York][u-ca=hebrew][key=a_b]
///                                                   ^");
/// ```
#[derive(Clone, Copy, Debug)]
pub struct PointedText<'a> {
    text: &'a str,
    part: WrongPart,
}

impl<'a> PointedText<'a> {
    /// Creates a text with marks under this part.
    pub(crate) fn new(text: &'a str, part: WrongPart) -> PointedText<'a>
        ensures text { result.text.now ≡ text.now }
        ensures part { result.part ≡ part }
    {
        PointedText { text, part }
    }
}

// `Display` ignores width and fill.
impl<'a> fmt::Display for PointedText<'a> {
    ghost use Rattle.std.specs.Prelude.{Some};
    ghost use Rattle.ixdtf_explanations.specs.LocatedTexts.{pointed_text};

    ghost output = { λ p. Some (pointed_text p.text.now p.part.begin p.part.end) };

    ghost styled_output = { λ p _. Some (pointed_text p.text.now p.part.begin p.part.end) };

    fn fmt<W: fmt::Write>(&self, f: &mut fmt::Formatter<W>) -> fmt::Result {
        let column = column_of(self.text, self.part.begin);
        write_line(f, self.text, column)?;
        f.write_str("\n")?;
        write_spaces(f, indent_of(column))?;
        write_marks(f, marks_of(self.part))
    }
}

/// Returns the number of complete characters in the first `at` bytes of the text.
pub fn column_of(text: &str, at: usize) -> usize
    ensures column { result ≡ column_of (chars text.now) at }
    ensures within { result ≤ length (chars text.now) }
{
    let mut column = 0;
    let mut left = at;
    for character in text.chars() {
        let length = character.len_utf8();
        if left < length {
            return column;
        }
        left -= length;
        column += 1;
    }
    column
}

/// Returns the number of columns of the first line that are before the position.
pub fn indent_of(column: usize) -> usize
    ensures { result ≡ indent_of column }
{
    if BEFORE_PLACE < column {
        BEFORE_PLACE + 2
    } else {
        column
    }
}

/// Returns the number of marks under a part.
pub fn marks_of(part: WrongPart) -> usize
    ensures { result ≡ marks_of part.begin part.end }
{
    if part.end <= part.begin {
        return 1;
    }
    FROM_PLACE.min(part.end - part.begin)
}

/// Returns `..` if something is cut, and otherwise the empty string.
pub fn cut_mark(is_cut: bool) -> &'static str
    ensures { result.now ≡ cut_mark is_cut }
{
    if is_cut { ".." } else { "" }
}

/// Writes the first line: at most 48 characters before the column, and at most 24 characters from the column on.
fn write_line<W: fmt::Write>(f: &mut fmt::Formatter<W>, text: &str, column: usize) -> fmt::Result
    requires { column ≤ length (chars text.now) }
    ensures { WritesStyledOnOk W.write_str_gives f.old result (encode_utf8_all (line_of (chars text.now) column)) f.new }
{
    let end = column + FROM_PLACE;
    let is_longer = end < text.chars().count();
    f.write_str(cut_mark(BEFORE_PLACE < column))?;
    write_characters(f, text, column.saturating_sub(BEFORE_PLACE), end)?;
    f.write_str(cut_mark(is_longer))
}

/// Writes the characters from index `first` up to, but not including, index `end`.
fn write_characters<W: fmt::Write>(
    f: &mut fmt::Formatter<W>,
    text: &str,
    first: usize,
    end: usize,
) -> fmt::Result
    ensures { WritesStyledOnOk W.write_str_gives f.old result
        (encode_utf8_all (map shown (drop first (take end (chars text.now))))) f.new }
{
    for character in text.chars().take(end).skip(first) {
        write_character(f, character)?;
    }
    Ok(())
}

/// Writes the character, or `.` for a control character.
fn write_character<W: fmt::Write>(f: &mut fmt::Formatter<W>, character: char) -> fmt::Result
    ensures { WritesStyledOnOk W.write_str_gives f.old result (encode_utf8 (shown character)) f.new }
{
    if character.is_control() {
        f.write_str(".")
    } else {
        let mut bytes = [0; 4];
        f.write_str(character.encode_utf8(&mut bytes))
    }
}

/// Writes `count` spaces.
fn write_spaces<W: fmt::Write>(f: &mut fmt::Formatter<W>, count: usize) -> fmt::Result
    ensures { WritesStyledOnOk W.write_str_gives f.old result (replicate count 32) f.new }
{
    for _ in 0..count {
        f.write_str(" ")?;
    }
    Ok(())
}

/// Writes `count` marks.
fn write_marks<W: fmt::Write>(f: &mut fmt::Formatter<W>, count: usize) -> fmt::Result
    ensures { WritesStyledOnOk W.write_str_gives f.old result (replicate count 94) f.new }
{
    for _ in 0..count {
        f.write_str("^")?;
    }
    Ok(())
}
