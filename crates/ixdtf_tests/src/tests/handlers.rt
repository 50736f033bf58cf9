//! Tests of handlers with a state.

use super::{Record, check, dated, morning, short};
use ixdtf::ParserResult;
use ixdtf::encoding::Utf8;
use ixdtf::parsers::IxdtfParser;
use ixdtf::records::{Annotation, Sign, UtcOffsetRecordOrZ};

// Returns the result for a text, if the reply to an annotation with the key `x` is a calendar that is not in the text.
fn with_a_foreign_calendar(text: &'static str) -> ParserResult<Record> {
    let mut parser = IxdtfParser::from_str(text);
    parser.parse_with_annotation_handler(|annotation| {
        if annotation.key == b"x".as_slice() {
            Some(Annotation {
                critical: false,
                key: b"u-ca",
                value: b"\xff\x00 foreign",
            })
        } else {
            Some(annotation)
        }
    })
}

#[test]
fn takes_a_calendar_that_is_not_of_the_source(rt: HostRuntime) {
    let text = "2020-01-01[x=y][u-ca=iso8601]";
    let mut record = dated(2020, 1, 1, None);
    record.calendar = Some(b"\xff\x00 foreign".as_slice());
    check(&rt, text, with_a_foreign_calendar(text) == Ok(record));
}

/// What a handler has seen so far.
#[derive(Drop)]
struct Seen {
    calls: u32,
    second_is_known: bool,
}

impl Seen {
    // Returns the result for a text. The handler is `reply`.
    fn parse(&mut self, text: &'static str) -> ParserResult<Record> {
        let mut parser = IxdtfParser::from_str(text);
        parser.parse_with_annotation_handler(|annotation| self.reply(annotation))
    }

    // Drops the annotation `answer-to-universe`, and returns any other annotation.
    fn reply<'a>(&mut self, annotation: Annotation<'a, Utf8>) -> Option<Annotation<'a, Utf8>> {
        self.calls = self.calls.saturating_add(1);
        if annotation.key != "answer-to-universe".as_bytes() {
            return Some(annotation);
        }
        self.second_is_known = self.calls == 2
            && annotation.critical
            && annotation.value == "fortytwo".as_bytes();
        None
    }
}

#[test]
fn passes_over_the_answer_to_the_universe(rt: HostRuntime) {
    let text = "2024-03-02T08:48:00-05:00[u-ca=iso8601][!answer-to-universe=fortytwo]";
    let mut seen = Seen {
        calls: 0,
        second_is_known: false,
    };
    let found = seen.parse(text);
    let offset = UtcOffsetRecordOrZ::Offset(short(Sign::Negative, 5, 0));
    let record = morning(Some(offset), None, Some("iso8601"));
    check(&rt, text, found == Ok(record));
    check(&rt, "its calls", seen.second_is_known && seen.calls == 2);
}
