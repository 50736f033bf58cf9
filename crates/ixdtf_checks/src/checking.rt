//! The work of a check for one line.

use crate::judge::judge;
use crate::printed_line::PrintedText;
use crate::report::put_report;
use crate::report_room::ReportRoom;
use crate::request::Request;
use crate::second_output::SecondOutput;
use crate::tally::Tally;
use crate::verdict::{LINE_LIMIT, Verdict};
use ixdtf::Instant;
use ixdtf_buffers::driver::LineTask;
use ixdtf_buffers::error::RunError;
use ixdtf_buffers::output::Output;
use ixdtf_buffers::sink::Sink;

/// The options of a check, and the values that the check keeps from one line to the next.
#[derive(Drop)]
pub struct Checking<'n, 'k, E> {
    /// The options of the check.
    pub request: Request<'n>,
    /// The canonical text that the check printed last.
    pub printed: PrintedText,
    /// The array in which a report is made. It is kept between lines.
    pub room: ReportRoom,
    /// A buffer for the text of a field in quotes, if the field has doubled quotes. The text of the field is copied into this buffer,
    /// and each doubled quote becomes one quote.
    pub unquoted: [u8; LINE_LIMIT],
    /// The instant of the last line whose text names an instant. It is kept only if the task is `Task::Order`.
    pub last: Option<Instant>,
    /// The counts so far, without the bytes. `check_lines` adds the number of bytes at the end.
    pub tally: Tally,
    /// The output of the reports, if the task prints canonical texts.
    pub second: SecondOutput<'k, E>,
}

impl<E: Sink> LineTask<LINE_LIMIT> for Checking<'_, '_, E> {
    ghost use Rattle.std.specs.Prelude.{◌≡◌, ℕ, List};
    ghost use Rattle.ixdtf_checks.specs.Checks.{ReportsLine};
    ghost use Rattle.ixdtf_checks.specs.Second.{AddsReports};

    ghost step = { λ old line first new. (new.request ≡ old.request) × ((second : List ℕ)
        × ReportsLine old.request old.tally new.tally old.last new.last line first second
        × AddsReports E.contents E.failed old.second new.second second) };

    // A write to the second output failed.
    ghost ended = { λ checking. E.failed checking.second.output.sink.now };

    /// Writes the report of the line to one of the outputs, and counts the line.
    #[inline(always)]
    fn take_line<K: Sink>(
        &mut self,
        output: &mut Output<'_, K>,
        line: Option<&[u8]>,
    ) -> Result<(), RunError> {
        let mut verdict = Verdict::Accepted;
        let is_first = self.tally.lines == 0;
        judge(
            &self.request,
            is_first,
            &mut self.last,
            line,
            &mut self.printed,
            &mut self.unquoted,
            &mut verdict,
        );
        self.tally.add_line(verdict.is_refused());
        let number = self.tally.lines;
        let refusals = self.tally.refused;
        if verdict.goes_to_second(self.request.task) {
            return self.second.put(
                &mut self.room,
                &self.request,
                number,
                refusals,
                &self.printed,
                &verdict,
            );
        }
        put_report(
            output,
            &mut self.room,
            &self.request,
            number,
            refusals,
            &self.printed,
            &verdict,
        )
    }
}
