//! Laws about canonical texts. A caller can use them in its proofs.
ghost use Rattle.ixdtf_print.specs.Durations.{DurationFits, DurationIsReadBack};
ghost use Rattle.ixdtf_print.specs.Laws.{CanonicalFits, CanonicalIsReadBack, Rfc9557IsReadBack};
ghost use Rattle.ixdtf_print.specs.MonthDays.{MonthDayFits, MonthDayIsReadBack};
ghost use Rattle.ixdtf_print.specs.Offsets.{OffsetFits, OffsetIsReadBack};
ghost use Rattle.ixdtf_print.specs.Times.{TimeFits, TimeIsReadBack};
ghost use Rattle.ixdtf_print.specs.YearMonths.{YearMonthFits, YearMonthIsReadBack};
ghost use Rattle.ixdtf_print.specs.Zones.{ZoneFits, ZoneIsReadBack};

/// States that a canonical text has at most 14 bytes more than the text that was parsed.
///
/// The law is about the records that [`IxdtfParser::parse`](ixdtf::parsers::IxdtfParser::parse) returns. To use the law
/// in a proof, call the function: after the call, the prover knows the law. The function does nothing when the program
/// runs.
pub fn canonical_fits()
    ensures { CanonicalFits }
{}

/// States that a canonical text is parsed as the record that was printed.
///
/// Suppose that [`IxdtfParser::parse`](ixdtf::parsers::IxdtfParser::parse) returns a record for some text. Then it also
/// returns this record for the canonical text of the record. Two records that are not equal have different canonical
/// texts, if `parse` returns each of them for some text.
pub fn canonical_is_read_back()
    ensures { CanonicalIsReadBack }
{}

/// States that a canonical text is a text of RFC 9557 if the parsed text was one.
///
/// Suppose that [`IxdtfParser::parse_rfc9557`](ixdtf::parsers::IxdtfParser::parse_rfc9557) returns a record for some
/// text. Then it also returns this record for the canonical text of the record. Two records that are not equal have
/// different canonical texts, if `parse_rfc9557` returns each of them for some text.
pub fn rfc9557_is_read_back()
    ensures { Rfc9557IsReadBack }
{}

/// States that the canonical text of a duration is at most as long as the text that was parsed.
///
/// The law is about the durations that [`IsoDurationParser::parse`](ixdtf::parsers::IsoDurationParser::parse) returns,
/// under either profile. To use the law in a proof, call the function: after the call, the prover knows the law. The
/// function does nothing when the program runs.
pub fn duration_fits()
    ensures { DurationFits }
{}

/// States that the canonical text of a duration is parsed as this duration.
///
/// Suppose that [`IsoDurationParser::parse`](ixdtf::parsers::IsoDurationParser::parse) returns a duration for some
/// text, under some profile. Then it also returns this duration for the canonical text of the duration, under either
/// profile. Two durations that are not equal have different canonical texts, if `parse` returns each of them for some
/// text, under some profile.
pub fn duration_is_read_back()
    ensures { DurationIsReadBack }
{}

/// States that the canonical text of an offset has at most 3 bytes more than the text that was parsed.
///
/// The law is about the offsets that [`TimeZoneParser::parse_offset`](ixdtf::parsers::TimeZoneParser::parse_offset)
/// returns. To use the law in a proof, call the function: after the call, the prover knows the law. The function does
/// nothing when the program runs.
pub fn offset_fits()
    ensures { OffsetFits }
{}

/// States that the canonical text of an offset is parsed as this offset.
///
/// Suppose that [`TimeZoneParser::parse_offset`](ixdtf::parsers::TimeZoneParser::parse_offset) returns an offset for
/// some text. Then it also returns this offset for the canonical text of the offset. Two offsets that are not equal have
/// different canonical texts, if `parse_offset` returns each of them for some text.
pub fn offset_is_read_back()
    ensures { OffsetIsReadBack }
{}

/// States that the canonical text of a zone has at most 3 bytes more than the text that was parsed.
///
/// The law is about the zones that
/// [`TimeZoneParser::parse_identifier`](ixdtf::parsers::TimeZoneParser::parse_identifier) returns. To use the law in a
/// proof, call the function: after the call, the prover knows the law. The function does nothing when the program runs.
pub fn zone_fits()
    ensures { ZoneFits }
{}

/// States that the canonical text of a zone is parsed as this zone.
///
/// Suppose that [`TimeZoneParser::parse_identifier`](ixdtf::parsers::TimeZoneParser::parse_identifier) returns a zone
/// for some text. Then it also returns this zone for the canonical text of the zone. Two zones that are not equal have
/// different canonical texts, if `parse_identifier` returns each of them for some text.
pub fn zone_is_read_back()
    ensures { ZoneIsReadBack }
{}

/// States that the canonical text of a time has at most 12 bytes more than the text that was parsed.
///
/// The law is about the records that [`IxdtfParser::parse_time`](ixdtf::parsers::IxdtfParser::parse_time) returns,
/// under either profile. To use the law in a proof, call the function: after the call, the prover knows the law. The
/// function does nothing when the program runs.
pub fn time_fits()
    ensures { TimeFits }
{}

/// States that the canonical text of a time is parsed as the record that was printed.
///
/// Suppose that [`IxdtfParser::parse_time`](ixdtf::parsers::IxdtfParser::parse_time) returns a record for some text,
/// under some profile. Then it also returns this record for the canonical text of the record, under either profile. Two
/// records that are not equal have different canonical texts, if `parse_time` returns each of them for some text, under
/// some profile.
pub fn time_is_read_back()
    ensures { TimeIsReadBack }
{}

/// States that the canonical text of a year and a month has at most 4 bytes more than the text that was parsed.
///
/// The law is about the records that [`IxdtfParser::parse_year_month`](ixdtf::parsers::IxdtfParser::parse_year_month)
/// returns. To use the law in a proof, call the function: after the call, the prover knows the law. The function does
/// nothing when the program runs.
pub fn year_month_fits()
    ensures { YearMonthFits }
{}

/// States that the canonical text of a year and a month is parsed as the record that was printed.
///
/// Suppose that [`IxdtfParser::parse_year_month`](ixdtf::parsers::IxdtfParser::parse_year_month) returns a record for
/// some text. Then it also returns this record for the canonical text of the record. Two records that are not equal have
/// different canonical texts, if `parse_year_month` returns each of them for some text.
pub fn year_month_is_read_back()
    ensures { YearMonthIsReadBack }
{}

/// States that the canonical text of a month and a day has at most 4 bytes more than the text that was parsed.
///
/// The law is about the records that [`IxdtfParser::parse_month_day`](ixdtf::parsers::IxdtfParser::parse_month_day)
/// returns, under either profile. To use the law in a proof, call the function: after the call, the prover knows the
/// law. The function does nothing when the program runs.
pub fn month_day_fits()
    ensures { MonthDayFits }
{}

/// States that the canonical text of a month and a day is parsed as the record that was printed.
///
/// Suppose that [`IxdtfParser::parse_month_day`](ixdtf::parsers::IxdtfParser::parse_month_day) returns a record for
/// some text, under a profile. Then it also returns this record for the canonical text of the record, under this
/// profile. Two records that are not equal have different canonical texts, if `parse_month_day` returns each of them for
/// some text, under this profile.
pub fn month_day_is_read_back()
    ensures { MonthDayIsReadBack }
{}
