//! What can be said about a text that a reader refuses: the position and the reason of the error, the part of the text that is wrong, a
//! message, the text with marks under this part, and a hint.
//!
//! The library `ixdtf` consists of crates, which are called *layers*. This crate is above `ixdtf_reading`. No reader needs it to read a
//! text: the readers whose error has a position return a [`LocatedError`], and the rest of this crate is made from this error and
//! the text. Callers use the crate `ixdtf`, which re-exports the items that callers need.
//!
//! - `specs/LocatedPromises` has the clauses of the readers whose errors have a position.
//! - `specs/Parts` says which part of a text is wrong.
//! - `specs/Messages` has the messages, and `specs/Hints` the hints.
//! - `specs/LocatedTexts` has the text with marks.
#![tactic(auto)]

pub mod hexadecimal;
mod hint;
pub mod located;
pub mod message;
pub mod part;
pub mod pointed;
mod wording;

pub use located::LocatedError;
pub use message::{Message, Shown};
pub use part::WrongPart;
pub use pointed::PointedText;
