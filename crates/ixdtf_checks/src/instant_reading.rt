//! Reads the instant that a text names.
ghost use Rattle.std.specs.Prelude.{IfErr, IfOk};
ghost use Rattle.ixdtf_grammar.specs.Widths.{byte_text};
ghost use Rattle.ixdtf_checks.specs.Errors.{HasError};
ghost use Rattle.ixdtf_checks.specs.Kinds.{instant_reader_of};
ghost use Rattle.ixdtf_checks.specs.Order.{HasInstant};

use crate::kind::InstantKind;
use ixdtf::parsers::IxdtfParser;
use ixdtf::{Instant, LocatedError};

/// Reads the text as a text of the kind, and returns the instant that the text names. The instant is `None` if the text has no
/// date, no time, or neither an offset nor `Z`. Returns the error with its position, if the text is refused.
pub fn read_instant(kind: InstantKind, text: &[u8]) -> Result<Option<Instant>, LocatedError>
    ensures ok { IfOk result (λ instant. HasInstant (instant_reader_of kind) text.now instant) }
    ensures err { IfErr result (λ error. HasError (instant_reader_of kind) (byte_text text.now) error) }
{
    match kind {
        InstantKind::DateTime => match IxdtfParser::from_utf8(text).parse_located() {
            Ok(record) => Ok(record.instant()),
            Err(error) => Err(error),
        },
        InstantKind::Rfc3339 => match IxdtfParser::from_utf8(text).parse_rfc3339_located() {
            Ok(record) => Ok(record.instant()),
            Err(error) => Err(error),
        },
        InstantKind::Rfc9557 => match IxdtfParser::from_utf8(text).parse_rfc9557_located() {
            Ok(record) => Ok(record.instant()),
            Err(error) => Err(error),
        },
    }
}
