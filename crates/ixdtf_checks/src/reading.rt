//! Reads a text to decide whether it is accepted. If it is refused, the error is returned with its position. The parts of the
//! text are not returned.
ghost use Rattle.std.specs.Prelude.{◌≡◌, IfErr, OnOk};
ghost use Rattle.ixdtf_grammar.specs.Widths.{byte_text};
ghost use Rattle.ixdtf_grammar.specs.language.Readers.{parse, parse_rfc9557};
ghost use Rattle.ixdtf_grammar.specs.language.Readers.Reader.{parse_iana_identifier, parse_rfc3339};
ghost use Rattle.ixdtf_checks.specs.Errors.{HasError};
ghost use Rattle.ixdtf_checks.specs.Kinds.{reader_of};
ghost use Rattle.ixdtf_checks.specs.Verdicts.{IsRead};

use crate::kind::Kind;
use ixdtf::LocatedError;
use ixdtf::encoding::Utf8;
use ixdtf::parsers::{IsoDurationParser, IxdtfParser, Profile, TimeZoneParser};

/// Reads the text as a text of the kind. Returns the error with its position, if the text is refused.
pub fn read(kind: Kind, profile: Profile, text: &[u8]) -> Result<(), LocatedError>
    ensures ok { OnOk result (IsRead (reader_of kind profile) text.now) }
    ensures err { IfErr result (λ error. HasError (reader_of kind profile) (byte_text text.now) error) }
{
    match kind {
        Kind::DateTime => read_date_time(text),
        Kind::YearMonth => match IxdtfParser::from_utf8(text).parse_year_month_located() {
            Ok(_record) => Ok(()),
            Err(error) => Err(error),
        },
        Kind::MonthDay => match parser(profile, text).parse_month_day_located() {
            Ok(_record) => Ok(()),
            Err(error) => Err(error),
        },
        Kind::Time => match parser(profile, text).parse_time_located() {
            Ok(_record) => Ok(()),
            Err(error) => Err(error),
        },
        Kind::Offset => match TimeZoneParser::from_utf8(text).parse_offset_located() {
            Ok(_offset) => Ok(()),
            Err(error) => Err(error),
        },
        Kind::Zone => match TimeZoneParser::from_utf8(text).parse_identifier_located() {
            Ok(_zone) => Ok(()),
            Err(error) => Err(error),
        },
        Kind::ZoneName => read_zone_name(text),
        Kind::Iana => read_zone_name(text),
        Kind::Rfc9557 => read_rfc9557(text),
        Kind::Rfc3339 => read_rfc3339(text),
        Kind::Duration => match duration_parser(profile, text).parse_located() {
            Ok(_duration) => Ok(()),
            Err(error) => Err(error),
        },
    }
}

/// Reads the text as a text of the kind `date-time`, with `IxdtfParser::parse_located`. Returns the error with its position, if the
/// text is refused.
#[inline(always)]
pub fn read_date_time(text: &[u8]) -> Result<(), LocatedError>
    ensures ok { OnOk result (IsRead parse text.now) }
    ensures err { IfErr result (λ error. HasError parse (byte_text text.now) error) }
{
    match IxdtfParser::from_utf8(text).parse_located() {
        Ok(_record) => Ok(()),
        Err(error) => Err(error),
    }
}

/// Reads the text as a date-time of RFC 3339. Returns the error with its position, if the text is refused.
fn read_rfc3339(text: &[u8]) -> Result<(), LocatedError>
    ensures ok { OnOk result (IsRead parse_rfc3339 text.now) }
    ensures err { IfErr result (λ error. HasError parse_rfc3339 (byte_text text.now) error) }
{
    match IxdtfParser::from_utf8(text).parse_rfc3339_located() {
        Ok(_record) => Ok(()),
        Err(error) => Err(error),
    }
}

/// Reads the text as a date-time of RFC 9557. Returns the error with its position, if the text is refused.
fn read_rfc9557(text: &[u8]) -> Result<(), LocatedError>
    ensures ok { OnOk result (IsRead parse_rfc9557 text.now) }
    ensures err { IfErr result (λ error. HasError parse_rfc9557 (byte_text text.now) error) }
{
    match IxdtfParser::from_utf8(text).parse_rfc9557_located() {
        Ok(_record) => Ok(()),
        Err(error) => Err(error),
    }
}

/// Reads the text as the name of a time zone. Returns the error with its position, if the text is refused.
fn read_zone_name(text: &[u8]) -> Result<(), LocatedError>
    ensures ok { OnOk result (IsRead parse_iana_identifier text.now) }
    ensures err { IfErr result (λ error. HasError parse_iana_identifier (byte_text text.now) error) }
{
    match TimeZoneParser::from_utf8(text).parse_iana_identifier_located() {
        Ok(_name) => Ok(()),
        Err(error) => Err(error),
    }
}

/// Creates a parser for the text. The profile is the set of rules that the parser applies.
pub fn parser(profile: Profile, text: &[u8]) -> IxdtfParser<'_, Utf8>
    ensures rest { result.rest ≡ text.now }
    ensures profile { result.profile ≡ profile }
{
    IxdtfParser::from_utf8(text).with_profile(profile)
}

/// Creates a parser that reads the text as a duration. The profile is the set of rules that the parser applies.
pub fn duration_parser(profile: Profile, text: &[u8]) -> IsoDurationParser<'_, Utf8>
    ensures rest { result.rest ≡ text.now }
    ensures profile { result.profile ≡ profile }
{
    IsoDurationParser::<Utf8>::from_utf8(text).with_profile(profile)
}
