//! What a report says about a refused line.

use crate::csv::Quoting;
use ixdtf::{Message, Reason, WrongPart};

/// What a report says about a refused line.
#[derive(Clone, Copy)]
pub struct Refusal<'a> {
    /// The column at which the line is refused. Columns are counted in bytes, from 1.
    pub column: usize,
    /// The column after the last byte of the part that is wrong. It is equal to `column` if this part is empty, or if the line or
    /// its text is refused as a whole.
    pub end: usize,
    /// The reason.
    pub why: Why,
    /// The message that says why the line is refused.
    pub message: Message<'a>,
    /// The text of the line and the part of it that is wrong, or `None` if the line has no text.
    pub marked: Option<Marked<'a>>,
}

/// The reason why a line is refused.
#[derive(Clone, Copy)]
pub enum Why {
    /// The line is longer than `LINE_LIMIT`.
    LineTooLong,
    /// The line has too few fields.
    NoSuchField,
    /// The line is no record of RFC 4180.
    Quotes(Quoting),
    /// The text names no instant.
    NoInstant,
    /// The instant of the text is before the previous instant.
    Earlier,
    /// A space stands before an offset.
    SpaceBeforeOffset,
    /// A reader refuses the text for this reason.
    Unread(Reason),
}

/// A text, and the part of it that is wrong.
#[derive(Clone, Copy)]
pub struct Marked<'a> {
    /// The text. It can be invalid UTF-8.
    pub text: &'a [u8],
    /// The part that is wrong.
    pub part: WrongPart,
}
