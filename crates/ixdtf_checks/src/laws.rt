//! Theorems for callers about the reports, and the check with a source and two sinks in memory. The contract of this check says
//! exactly which reports are written.
ghost use Rattle.std.specs.Prelude.{◌≡◌, ◌⊎◌, ℕ, List, [], ◌++◌, length, Some, Err, OnOk, IfErr};
ghost use Rattle.ixdtf_buffers.specs.Lines.{lines_of};
ghost use Rattle.ixdtf_checks.specs.Checks.{ReportsFront, ReportsWhole};
ghost use Rattle.ixdtf_checks.specs.JsonStrings.{HasNoControl, IsReadBack};
ghost use Rattle.ixdtf_checks.specs.Reports.{ColoursOnlyAdd};

use crate::checker::{Checked, check_lines};
use crate::request::Request;
use ixdtf_buffers::error::RunError;
use ixdtf_buffers::memory::{MemorySink, MemorySource};

/// States that a reader of JSON gets the text back from each string of a report.
///
/// - `text`: a reader that follows RFC 8259, section 7, gets the text for which the string is written. The string ends where this
///   reader stops, whatever follows it.
/// - `bare`: no control character (U+0000 to U+001F) is in the string. Each one is escaped.
pub fn json_strings_are_read_back()
    ensures text { IsReadBack }
    ensures bare { HasNoControl }
{}

/// States that a report with colours is the report as a text, if its escape sequences are left out.
pub fn colours_only_add()
    ensures { ColoursOnlyAdd }
{}

/// Checks each line of the bytes. Writes to two sinks in memory, which must be empty. If the task is `Task::Print`, the canonical
/// texts go to `sink`, and the reports go to `reports`. Otherwise the reports go to `sink`, and nothing goes to `reports`.
///
/// The only possible error is that of a write. After this error, at least one of the two sinks is full. Each sink contains a prefix of
/// what would be written to it if no sink became full.
pub fn check_in_memory<const SIZE: usize, const ROOM: usize>(
    bytes: &[u8],
    sink: &mut MemorySink<SIZE>,
    reports: &mut MemorySink<ROOM>,
    request: &Request<'_>,
) -> Checked
    requires { (sink.old ≡ []) × (reports.old ≡ []) }
    ensures ok { OnOk result.end (ReportsWhole sink.new reports.new request.now result.tally (lines_of bytes.now)
        × (result.tally.bytes ≡ length bytes.now)) }
    ensures err { IfErr result.end (λ error. (error ≡ RunError.Write)
        × ((length sink.new ≡ SIZE) ⊎ (length reports.new ≡ ROOM))) }
    ensures front { result.end ≡ Err RunError.Write → (read : List ℕ) × (rest : List ℕ)
        × (bytes.now ≡ read ++ rest)
        × ReportsFront (Some []) (Some sink.new) (Some []) (Some reports.new) request.now result.tally (lines_of read) }
{
    check_lines(&mut MemorySource { rest: bytes }, sink, reports, request)
}
