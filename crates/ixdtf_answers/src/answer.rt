//! Writes the answer for a line.
ghost use Rattle.std.specs.Prelude.{◌≡◌, [], ◌∷◌, ◌++◌, ◌≤◌, length};
ghost use Rattle.ixdtf_answers.specs.Answer.{too_long, unknown_reader};
ghost use Rattle.ixdtf_answers.specs.Parts.{PutsAnswer, PutsExplained, PutsReaderAnswer};
ghost use Rattle.ixdtf_answers.specs.Word.{IsNoWord};
ghost use Rattle.ixdtf_buffers.specs.Lines.{newline};
ghost use Rattle.ixdtf_buffers.specs.Output.{Puts};

use crate::canonical_answers::MOST_PRINTED;
use crate::explanations::explain_text;
use crate::reader_answers::answer_text;
use crate::word::Word;
use ixdtf_buffers::adding::ROOM;
use ixdtf_buffers::driver::LineTask;
use ixdtf_buffers::error::RunError;
use ixdtf_buffers::output::Output;
use ixdtf_buffers::place::place_of;
use ixdtf_buffers::sink::Sink;

/// The greatest length of a line that is read, in bytes.
pub const LINE_LIMIT: usize = 4096;

/// The values that the run keeps from one line to the next.
#[derive(Drop)]
pub struct Answering {
    /// The array in which an answer is made. It is kept between lines, because clearing it for each line would take time.
    room: [u8; ROOM],
    /// An array for canonical texts. It is kept between lines, because clearing it for each line would take longer than filling it.
    printed: [u8; MOST_PRINTED],
}

impl Answering {
    /// Creates the state before the first line.
    pub fn new() -> Answering {
        Answering {
            room: [0; ROOM],
            printed: [0; MOST_PRINTED],
        }
    }
}

impl LineTask<LINE_LIMIT> for Answering {
    ghost use Rattle.ixdtf_answers.specs.Run.{Answers};

    ghost step = { λ _ line bytes _. Answers line bytes };

    // The task writes to its output only. So it never ends the run itself.
    ghost ended = { λ _. ⊥ };

    /// Writes the answer for the line, and a newline, to the output.
    fn take_line<K: Sink>(
        &mut self,
        output: &mut Output<'_, K>,
        line: Option<&[u8]>,
    ) -> Result<(), RunError> {
        match line {
            None => put_too_long(output),
            Some(line) => answer_short(output, &mut self.room, &mut self.printed, line),
        }
    }
}

/// Writes the answer for a line that is not too long.
fn answer_short<K: Sink>(
    output: &mut Output<'_, K>,
    room: &mut [u8; ROOM],
    printed: &mut [u8; MOST_PRINTED],
    line: &[u8],
) -> Result<(), RunError>
    requires { length line.now ≤ LINE_LIMIT }
    ensures { PutsAnswer K.contents K.failed output.old output.new result line.now }
{
    let Some(place) = place_of(b' ', line) else {
        return put_no_such_reader(output);
    };
    let Some(word) = Word::named(&line[..place]) else {
        return answer_no_word(output, room, printed, &line[..place], &line[place + 1..]);
    };
    answer_text(output, room, printed, word, &line[place + 1..])
}

/// Writes the answer for a line that does not begin with a word and a space. It can begin with `explain` and a space.
#[cold]
#[inline(never)]
fn answer_no_word<K: Sink>(
    output: &mut Output<'_, K>,
    room: &mut [u8; ROOM],
    printed: &mut [u8; MOST_PRINTED],
    name: &[u8],
    text: &[u8],
) -> Result<(), RunError>
    requires short { length text.now ≤ LINE_LIMIT }
    requires unnamed { IsNoWord name.now }
    ensures { PutsReaderAnswer K.contents K.failed output.old output.new result name.now text.now }
{
    if name == b"explain".as_slice() {
        answer_explain(output, room, printed, text)
    } else {
        put_no_such_reader(output)
    }
}

/// Writes the answer for a line that begins with `explain` and a space. `bytes` are the bytes after them: a word, a space and a text.
fn answer_explain<K: Sink>(
    output: &mut Output<'_, K>,
    room: &mut [u8; ROOM],
    printed: &mut [u8; MOST_PRINTED],
    bytes: &[u8],
) -> Result<(), RunError>
    requires { length bytes.now ≤ LINE_LIMIT }
    ensures { PutsExplained K.contents K.failed output.old output.new result bytes.now }
{
    let Some(place) = place_of(b' ', bytes) else {
        return put_no_such_reader(output);
    };
    let Some(word) = Word::named(&bytes[..place]) else {
        return put_no_such_reader(output);
    };
    explain_text(output, room, printed, word, &bytes[place + 1..])
}

/// Writes the answer for a line that is longer than `LINE_LIMIT`.
fn put_too_long<K: Sink>(output: &mut Output<'_, K>) -> Result<(), RunError>
    ensures { Puts K.contents K.failed output.old output.new result (too_long ++ newline ∷ []) }
{
    output.put(b"error line too long\n")
}

/// Writes the answer for a line that does not begin with the word of a reader and a space.
fn put_no_such_reader<K: Sink>(output: &mut Output<'_, K>) -> Result<(), RunError>
    ensures { Puts K.contents K.failed output.old output.new result (unknown_reader ++ newline ∷ []) }
{
    output.put(b"error unknown reader\n")
}
