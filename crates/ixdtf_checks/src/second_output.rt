//! The second output of a check: reports go to it, if the canonical texts go to the first.
ghost use Rattle.std.specs.Prelude.{◌≡◌, ◌⊎◌, ℕ, List, [], true, false, Ok, Err, OnOk, IfErr};
ghost use Rattle.std.specs.Io.KnownBytes.{Appends};
ghost use Rattle.ixdtf_buffers.specs.Output.{Puts, written};
ghost use Rattle.ixdtf_checks.specs.Reports.{IsReport};
ghost use Rattle.ixdtf_checks.specs.Second.{AddsReports};
ghost use Rattle.ixdtf_checks.specs.Seen.{seen};

use crate::printed_line::PrintedText;
use crate::report::{explain, put_report};
use crate::report_room::ReportRoom;
use crate::request::Request;
use crate::verdict::Verdict;
use ixdtf_buffers::error::RunError;
use ixdtf_buffers::output::Output;
use ixdtf_buffers::sink::Sink;

/// The second output of a check. Each report is written to the sink at once, so that a user sees it before the next line is read.
#[derive(Drop)]
pub struct SecondOutput<'k, E> {
    /// The sink to which the reports are written, and a buffer, in which a report is made. The buffer is empty between two reports.
    pub output: Output<'k, E>,
    /// Whether a write has failed. After this, nothing more is written.
    pub has_failed: bool,
}

impl<E: Sink> SecondOutput<'_, E> {
    /// Writes the report of the line to the sink. The arguments are those of `put_report`.
    ///
    /// The function is not inlined, because it is called only for refused lines, and most lines are accepted.
    #[cold]
    #[inline(never)]
    pub fn put(
        &mut self,
        room: &mut ReportRoom,
        request: &Request<'_>,
        number: u64,
        refusals: u64,
        printed: &PrintedText,
        verdict: &Verdict<'_>,
    ) -> Result<(), RunError>
        ensures adds { (report : List ℕ) × IsReport request.now number refusals (seen printed.now verdict.now) report
            × AddsReports E.contents E.failed self.old self.new report }
        ensures err { IfErr result (λ error. (error ≡ RunError.Write) × E.failed self.new.output.sink.now) }
    {
        if self.has_failed {
            // Nothing is written, but the contract names a report of the line.
            explain(verdict);
            return Ok(());
        }
        let result = put_whole(
            &mut self.output,
            room,
            request,
            number,
            refusals,
            printed,
            verdict,
        );
        self.has_failed = result.is_err();
        result
    }

    /// Flushes the sink, if `end` is not an error and no write to this output has failed. `end` says how the work on the lines ended,
    /// before the flush of this output. The function returns how the complete check ended. If a write to this output has failed, the
    /// returned value is `RunError::Write`. Otherwise, if `end` is an error, the returned value is this error. Otherwise, the returned
    /// value is the result of the flush.
    pub fn finish(&mut self, end: Result<(), RunError>) -> Result<(), RunError>
        ensures same { self.new.output.sink.ghost_name ≡ self.old.output.sink.ghost_name }
        ensures keeps { self.old.output.waiting ≡ []
            → Appends (written E.contents self.old.output) (written E.contents self.new.output) [] }
        ensures still { self.old.has_failed ≡ true
            → written E.contents self.new.output ≡ written E.contents self.old.output }
        ensures ok { OnOk result ((end ≡ Ok tt) × (self.old.has_failed ≡ false) × E.flushed self.new.output.sink.now) }
        ensures read { result ≡ Err RunError.Read → (end ≡ Err RunError.Read) × (self.old.has_failed ≡ false) }
        ensures write { result ≡ Err RunError.Write → E.failed self.new.output.sink.now
            ⊎ ((self.new ≡ self.old) × ((self.old.has_failed ≡ true) ⊎ (end ≡ Err RunError.Write))) }
    {
        if self.has_failed {
            return Err(RunError::Write);
        }
        end?;
        self.output.finish()
    }
}

/// Writes the report of the line to the output, and then the complete buffer of the output to the sink.
fn put_whole<E: Sink>(
    output: &mut Output<'_, E>,
    room: &mut ReportRoom,
    request: &Request<'_>,
    number: u64,
    refusals: u64,
    printed: &PrintedText,
    verdict: &Verdict<'_>,
) -> Result<(), RunError>
    ensures empty { OnOk result (output.new.waiting ≡ []) }
    ensures puts { (report : List ℕ) × IsReport request.now number refusals (seen printed.now verdict.now) report
        × Puts E.contents E.failed output.old output.new result report }
{
    put_report(output, room, request, number, refusals, printed, verdict)?;
    output.hand_on()
}
