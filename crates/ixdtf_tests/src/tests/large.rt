//! Tests with texts that are longer than any real one.

use super::{AT_BRACKET, check, dated, fraction_of, timed};
use ixdtf::ParseError;
use ixdtf::encoding::Utf8;
use ixdtf::parsers::IxdtfParser;
use ixdtf::records::{Annotation, Fraction};
use std::alloc::{AllocError, Global};
use std::process::Abort;
use std::test::Fail;

/// Returns a text: a prefix, then a part `count` times, and then an end.
fn repeated(
    alloc: Global,
    front: &str,
    part: &str,
    count: usize,
    end: &str,
) -> Result<String, AllocError> {
    let mut text = String::new(alloc);
    text.push_str(front)?;
    for _ in 0..count {
        text.push_str(part)?;
    }
    text.push_str(end)?;
    Ok(text)
}

/// A handler that counts its calls and the code units of the keys, and returns each annotation.
#[derive(Drop)]
struct Counter {
    calls: usize,
    key_units: usize,
}

impl Counter {
    fn reply<'a>(&mut self, annotation: Annotation<'a, Utf8>) -> Option<Annotation<'a, Utf8>> {
        self.calls = self.calls.saturating_add(1);
        self.key_units = self.key_units.saturating_add(annotation.key.len());
        Some(annotation)
    }
}

/// Asserts that a text is 1 January 2020, or is refused with this error. Also asserts the number of calls of the handler, and the
/// number of code units of all keys together.
fn check_calls(
    rt: &impl Abort,
    text: &str,
    refused: Option<ParseError>,
    calls: usize,
    key_units: usize,
) {
    let mut counter = Counter {
        calls: 0,
        key_units: 0,
    };
    let mut parser = IxdtfParser::from_str(text);
    let found = parser.parse_with_annotation_handler(|annotation| counter.reply(annotation));
    let is_so = match refused {
        None => found == Ok(dated(2020, 1, 1, None)),
        Some(error) => found == Err(error),
    };
    check(rt, "what a text gives", is_so);
    check(rt, "its calls", counter.calls == calls);
    check(rt, "its keys", counter.key_units == key_units);
}

// Returns whether a text is refused because its bracket is not closed.
fn is_open(text: &str) -> bool {
    IxdtfParser::from_str(text).parse() == Err(AT_BRACKET)
}

// Returns whether a text has a zone with this name, without a `!`.
fn has_zone(text: &str, name: &str) -> bool {
    match IxdtfParser::from_str(text).parse() {
        Ok(record) => match record.tz {
            Some(zone) => !zone.critical && zone.tz.name() == Some(name),
            None => false,
        },
        Err(_) => false,
    }
}

#[test]
fn reads_names_and_keys_of_a_million_units(rt: HostRuntime) -> Result<(), Fail> {
    let name = repeated(rt.alloc(), "", "a", 1_000_000, "")?;
    let open = repeated(rt.alloc(), "2020-01-01[", name.as_str(), 1, "")?;
    check(&rt, "an open bracket", is_open(open.as_str()));
    let closed = repeated(rt.alloc(), open.as_str(), "]", 1, "")?;
    check(&rt, "a name", has_zone(closed.as_str(), name.as_str()));
    let pair = repeated(rt.alloc(), open.as_str(), "=b]", 1, "")?;
    check_calls(&rt, pair.as_str(), None, 1, 1_000_000);
    Ok(())
}

#[test]
fn asks_about_a_hundred_thousand_annotations(rt: HostRuntime) -> Result<(), Fail> {
    let text = repeated(rt.alloc(), "2020-01-01", "[a=b]", 100_000, "")?;
    check_calls(&rt, text.as_str(), None, 100_000, 100_000);
    let critical = repeated(rt.alloc(), text.as_str(), "[!c=d]", 1, "")?;
    let refused = Some(ParseError::UnrecognizedCritical);
    check_calls(&rt, critical.as_str(), refused, 100_001, 100_001);
    Ok(())
}

// Returns whether a text is the first second of 2020, with this fraction.
fn has_fraction(text: &str, fraction: Option<Fraction>) -> bool {
    IxdtfParser::from_str(text).parse() == Ok(dated(2020, 1, 1, timed(0, 0, 0, fraction)))
}

// The count of digits is at most 255, and the value has the first 18 digits.
#[test]
fn reads_a_fraction_of_a_million_digits(rt: HostRuntime) -> Result<(), Fail> {
    let text = repeated(rt.alloc(), "2020-01-01T00:00:00.", "1", 1_000_000, "")?;
    let counted = repeated(rt.alloc(), "+00:00:00.111111111111111111", "0", 237, "")?;
    let fraction = fraction_of(counted.as_str());
    check(&rt, "255 digits", fraction.is_some());
    let fewer = repeated(rt.alloc(), "+00:00:00.111111111111111111", "0", 236, "")?;
    check(&rt, "254 digits", fraction != fraction_of(fewer.as_str()));
    check(&rt, "all digits", has_fraction(text.as_str(), fraction));
    Ok(())
}
