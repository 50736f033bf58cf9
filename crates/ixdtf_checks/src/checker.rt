//! Checks all lines of an input.
ghost use Rattle.std.specs.Prelude.{◌≡◌, ◌⊎◌, ◌+◌, ◌^◌, ◌≤◌, ℕ, List, [], length, Err, None, OnOk, IfSome, false};
ghost use Rattle.std.specs.Io.KnownBytes.{Consumes};
ghost use Rattle.ixdtf_buffers.specs.Lines.{lines_of, ended_lines_of};
ghost use Rattle.ixdtf_checks.specs.Checks.{Reports, ReportsFront};

use crate::checking::Checking;
use crate::printed_line::PrintedText;
use crate::report_room::ReportRoom;
use crate::request::Request;
use crate::second_output::SecondOutput;
use crate::tally::Tally;
use crate::verdict::LINE_LIMIT;
use ixdtf_buffers::driver::drive;
use ixdtf_buffers::error::RunError;
use ixdtf_buffers::output::Output;
use ixdtf_buffers::sink::Sink;
use ixdtf_buffers::source::Source;
use std::io::{Read, Write};

/// The result of a check: the counts, and how it ended.
#[derive(Clone, Copy, Debug, PartialEq)]
pub struct Checked {
    /// The number of lines, of refused lines, and of bytes.
    pub tally: Tally,
    /// `Ok` if the complete input was read and all reports were written. Otherwise the error that ended the check.
    pub end: Result<(), RunError>,
}

/// Checks each line that is read from `reader`. Writes the reports to `writer`. If the task of the request is [`Task::Print`],
/// writes the canonical texts to `writer`, and the reports to `reports`.
///
/// [`Task::Print`]: crate::request::Task::Print
pub fn check<R: Read, W: Write, E: Write>(
    reader: &mut R,
    writer: &mut W,
    reports: &mut E,
    request: &Request<'_>,
) -> Checked
    // The complete input was read. Each line was reported and counted, and each byte was counted.
    ensures ok { OnOk result.end (IfSome (R.remaining reader.old) (λ bytes.
        Reports (W.contents writer.old) (W.contents writer.new) (E.contents reports.old) (E.contents reports.new)
        request.now result.tally (lines_of bytes)
        × (result.tally.bytes ≡ length bytes))) }

    // The lines that ended with a newline before the error were reported and counted. Each byte before the error was counted.
    ensures read { result.end ≡ Err RunError.Read → (bytes : List ℕ)
        × Consumes (R.remaining reader.old) (R.remaining reader.new) bytes
        × Reports (W.contents writer.old) (W.contents writer.new) (E.contents reports.old) (E.contents reports.new)
        request.now result.tally (ended_lines_of bytes)
        × (result.tally.bytes ≡ length bytes) }

    // A write to `writer` or to `reports` failed. The first lines that were read were counted. A prefix of what is written about them
    // was written to each of the two.
    ensures write { result.end ≡ Err RunError.Write → (bytes : List ℕ)
        × Consumes (R.remaining reader.old) (R.remaining reader.new) bytes
        × ReportsFront (W.contents writer.old) (W.contents writer.new) (E.contents reports.old) (E.contents reports.new)
        request.now result.tally (lines_of bytes)
        × (result.tally.bytes ≡ length bytes) }
{
    check_lines(reader, writer, reports, request)
}

/// Checks each line of the source. Writes the reports to `sink`. If the task of the request is [`Task::Print`], writes the canonical
/// texts to `sink`, and the reports to `reports`.
///
/// [`Task::Print`]: crate::request::Task::Print
pub fn check_lines<S: Source, K: Sink, E: Sink>(
    source: &mut S,
    sink: &mut K,
    reports: &mut E,
    request: &Request<'_>,
) -> Checked
    // The complete input was read. Each line was reported and counted, and each byte was counted.
    ensures ok { OnOk result.end (IfSome (S.remaining source.old) (λ bytes.
        Reports (K.contents sink.old) (K.contents sink.new) (E.contents reports.old) (E.contents reports.new)
        request.now result.tally (lines_of bytes)
        × (result.tally.bytes ≡ length bytes))) }
    ensures flushed { OnOk result.end (K.flushed sink.new × E.flushed reports.new) }

    // The lines that ended with a newline before the error were reported and counted. Each byte before the error was counted.
    ensures read { result.end ≡ Err RunError.Read → (bytes : List ℕ)
        × Consumes (S.remaining source.old) (S.remaining source.new) bytes
        × Reports (K.contents sink.old) (K.contents sink.new) (E.contents reports.old) (E.contents reports.new)
        request.now result.tally (ended_lines_of bytes)
        × (result.tally.bytes ≡ length bytes)
        × (S.failed source.new ⊎ (2 ^ 64 ≤ length bytes + 65536)) }

    // A write to `sink` or to `reports` failed. The first lines that were read were counted. A prefix of what is written about them was
    // written to each of the two.
    ensures write { result.end ≡ Err RunError.Write → (bytes : List ℕ)
        × Consumes (S.remaining source.old) (S.remaining source.new) bytes
        × ReportsFront (K.contents sink.old) (K.contents sink.new) (E.contents reports.old) (E.contents reports.new)
        request.now result.tally (lines_of bytes)
        × (result.tally.bytes ≡ length bytes) }
    ensures unwritten { result.end ≡ Err RunError.Write → K.failed sink.new ⊎ E.failed reports.new }
{
    let mut checking = Checking {
        request: *request,
        printed: PrintedText::empty(),
        room: ReportRoom::new(),
        unquoted: [0; LINE_LIMIT],
        last: None,
        tally: Tally::new(),
        second: SecondOutput {
            output: Output::new(reports),
            has_failed: false,
        },
    };
    let end = check_all(source, sink, &mut checking);
    Checked {
        tally: checking.tally,
        end,
    }
}

/// Does the work of `check_lines`. The values in `checking` must be those before the first line.
fn check_all<S: Source, K: Sink, E: Sink>(
    source: &mut S,
    sink: &mut K,
    checking: &mut Checking<'_, '_, E>,
) -> Result<(), RunError>
    requires counts { (checking.old.tally.lines ≡ 0) × (checking.old.tally.refused ≡ 0) }
    requires unseen { checking.old.last ≡ None }
    requires works { (checking.old.second.has_failed ≡ false) × (checking.old.second.output.waiting ≡ []) }
    ensures same { checking.new.second.output.sink.ghost_name ≡ checking.old.second.output.sink.ghost_name }
    ensures ok { OnOk result (IfSome (S.remaining source.old) (λ bytes.
        Reports (K.contents sink.old) (K.contents sink.new) (E.contents checking.old.second.output.sink.now)
        (E.contents checking.new.second.output.sink.now) checking.old.request checking.new.tally (lines_of bytes)
        × (checking.new.tally.bytes ≡ length bytes))) }
    ensures flushed { OnOk result (K.flushed sink.new × E.flushed checking.new.second.output.sink.now) }
    ensures read { result ≡ Err RunError.Read → (bytes : List ℕ)
        × Consumes (S.remaining source.old) (S.remaining source.new) bytes
        × Reports (K.contents sink.old) (K.contents sink.new) (E.contents checking.old.second.output.sink.now)
        (E.contents checking.new.second.output.sink.now) checking.old.request checking.new.tally (ended_lines_of bytes)
        × (checking.new.tally.bytes ≡ length bytes)
        × (S.failed source.new ⊎ (2 ^ 64 ≤ length bytes + 65536)) }
    ensures write { result ≡ Err RunError.Write → (bytes : List ℕ)
        × Consumes (S.remaining source.old) (S.remaining source.new) bytes
        × ReportsFront (K.contents sink.old) (K.contents sink.new) (E.contents checking.old.second.output.sink.now)
        (E.contents checking.new.second.output.sink.now) checking.old.request checking.new.tally (lines_of bytes)
        × (checking.new.tally.bytes ≡ length bytes) }
    ensures unwritten { result ≡ Err RunError.Write → K.failed sink.new ⊎ E.failed checking.new.second.output.sink.now }
{
    let driven = drive::<S, K, Checking<'_, '_, E>, LINE_LIMIT>(source, sink, checking);
    checking.tally.bytes = driven.bytes;
    checking.second.finish(driven.end)
}
