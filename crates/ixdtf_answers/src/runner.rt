//! Answers all lines of an input.
ghost use Rattle.std.specs.Prelude.{◌≡◌, ◌⊎◌, ◌+◌, ◌^◌, ◌≤◌, ℕ, List, length, Err, OnOk, IfSome};
ghost use Rattle.std.specs.Io.KnownBytes.{Consumes};
ghost use Rattle.ixdtf_buffers.specs.Lines.{lines_of, ended_lines_of};
ghost use Rattle.ixdtf_answers.specs.Run.{WritesAnswers, WritesFront};

use crate::answer::{Answering, LINE_LIMIT};
use ixdtf_buffers::driver::drive;
use ixdtf_buffers::error::RunError;
use ixdtf_buffers::sink::Sink;
use ixdtf_buffers::source::Source;
use std::io::{Read, Write};

/// Answers each line that is read from `reader`, and writes the answers to `writer`.
pub fn run<R: Read, W: Write>(reader: &mut R, writer: &mut W) -> Result<(), RunError>
    // The complete input was read, and each line was answered.
    ensures ok { OnOk result (IfSome (R.remaining reader.old) (λ bytes.
        WritesAnswers (W.contents writer.old) (W.contents writer.new) (lines_of bytes))) }

    // The lines that ended with a newline before the error were answered.
    ensures read { result ≡ Err RunError.Read → (bytes : List ℕ)
        × Consumes (R.remaining reader.old) (R.remaining reader.new) bytes
        × WritesAnswers (W.contents writer.old) (W.contents writer.new) (ended_lines_of bytes) }

    // A prefix of the answers to all lines of the bytes that were read was written.
    ensures write { result ≡ Err RunError.Write → (bytes : List ℕ)
        × Consumes (R.remaining reader.old) (R.remaining reader.new) bytes
        × WritesFront (W.contents writer.old) (W.contents writer.new) (lines_of bytes) }
{
    answer_lines(reader, writer)
}

/// Answers each line of the source, and writes the answers to the sink.
pub fn answer_lines<S: Source, K: Sink>(source: &mut S, sink: &mut K) -> Result<(), RunError>
    // The complete input was read, and each line was answered.
    ensures ok { OnOk result (IfSome (S.remaining source.old) (λ bytes.
        WritesAnswers (K.contents sink.old) (K.contents sink.new) (lines_of bytes))) }
    ensures flushed { OnOk result (K.flushed sink.new) }

    // The lines that ended with a newline before the error were answered.
    ensures read { result ≡ Err RunError.Read → (bytes : List ℕ)
        × Consumes (S.remaining source.old) (S.remaining source.new) bytes
        × WritesAnswers (K.contents sink.old) (K.contents sink.new) (ended_lines_of bytes)
        × (S.failed source.new ⊎ (2 ^ 64 ≤ length bytes + LINE_LIMIT)) }

    // A prefix of the answers to all lines of the bytes that were read was written.
    ensures write { result ≡ Err RunError.Write → (bytes : List ℕ)
        × Consumes (S.remaining source.old) (S.remaining source.new) bytes
        × WritesFront (K.contents sink.old) (K.contents sink.new) (lines_of bytes) }
    ensures unwritten { result ≡ Err RunError.Write → K.failed sink.new }
{
    drive::<S, K, Answering, LINE_LIMIT>(source, sink, &mut Answering::new()).end
}
