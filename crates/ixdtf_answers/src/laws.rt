//! The run with a source and a sink in memory. If `run_in_memory` returns `Ok`, the sink has the answers to all lines of the input,
//! each with a newline, and nothing more. The contract of `run_in_memory` says this.
ghost use Rattle.std.specs.Prelude.{◌≡◌, ℕ, List, [], ◌++◌, length, Some, Err, OnOk, IfErr};
ghost use Rattle.ixdtf_buffers.specs.Lines.{lines_of};
ghost use Rattle.ixdtf_answers.specs.Run.{AreAnswers, WritesFront};

use crate::runner::answer_lines;
use ixdtf_buffers::error::RunError;
use ixdtf_buffers::memory::{MemorySink, MemorySource};

/// Answers each line of the bytes, and writes the answers to an empty sink in memory.
///
/// The only possible error is that of a write. After this error, the sink is full. Until the error, a prefix of the input was read.
/// The answers to all lines of this prefix, one after the other, are one text. The bytes in the sink are the beginning of this text.
/// So the last answer in the sink can be incomplete.
pub fn run_in_memory<const SIZE: usize>(
    bytes: &[u8],
    sink: &mut MemorySink<SIZE>,
) -> Result<(), RunError>
    requires { sink.old ≡ [] }
    ensures ok { OnOk result (AreAnswers (lines_of bytes.now) sink.new) }
    ensures err { IfErr result (λ error. (error ≡ RunError.Write) × (length sink.new ≡ SIZE)) }
    ensures front { result ≡ Err RunError.Write → (read : List ℕ) × (rest : List ℕ)
        × (bytes.now ≡ read ++ rest)
        × WritesFront (Some []) (Some sink.new) (lines_of read) }
{
    answer_lines(&mut MemorySource { rest: bytes }, sink)
}
