//! The buffer for the canonical text of a line.

/// The size of the buffer in bytes. The canonical text of a line has fewer bytes than this.
pub const MOST_PRINTED: usize = 65792;

/// A buffer for one canonical text and the newline after it.
pub type PrintedText = ixdtf_print::PrintedText<MOST_PRINTED>;
