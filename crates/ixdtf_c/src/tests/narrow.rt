//! Tests of the functions for 8-bit text.

use super::{DATE, DURATION, OFFSET, TIME};
use crate::exports::*;
use crate::narrow::{Annotation, Calendar, Record, Zone};
use crate::turns::parse_in_turn;

/// A record in which no field is 0, false or empty.
pub(super) const RECORD: Record<'static> = Record {
    date: DATE,
    time: TIME,
    offset: OFFSET,
    zone: Zone {
        name: &[1],
        form: 2,
        is_critical: true,
        is_negative: true,
        hour: 1,
        minute: 1,
    },
    calendar: &[1],
    has_calendar: true,
    location: &[1],
    place: 1,
};

/// An annotation whose key and value are empty.
const ANNOTATION: Annotation<'static> = Annotation {
    key: &[],
    value: &[],
    is_critical: false,
};

#[test]
fn writes_a_record(rt: HostRuntime) {
    let mut record = RECORD;
    let text = b"2024-03-02T08:48:00.25-05:00[America/New_York][u-ca=hebrew]".as_slice();
    assert_eq!(rt; ixdtf_parse(text, &mut record), 0);
    let numbers = (record.date.year, record.time.fraction, record.offset.hour);
    assert_eq!(rt; numbers, (2024, 25, 5));
    let lengths = (record.zone.name.len(), record.calendar.len());
    assert_eq!(rt; lengths, (16, 6));
    assert_eq!(rt; ixdtf_parse_time(b"T1330Z[+05:30]", &mut record), 0);
    assert!(rt; !record.date.is_there && record.date.year == 0);
    assert!(rt; !record.has_calendar && record.calendar.is_empty());
    assert_eq!(rt; (record.zone.form, record.zone.name.len()), (2, 0));
}

#[test]
fn leaves_a_record_after_an_error(rt: HostRuntime) {
    let mut record = RECORD;
    assert_eq!(rt; ixdtf_parse(b"2021-02-2", &mut record), 4);
    assert_eq!(rt; (record.location.len(), record.place), (5, 9));
    assert_eq!(rt; ixdtf_parse_month_day_strict(b"12-00", &mut record), 46);
    assert_eq!(rt; (record.location.len(), record.place), (0, 5));
    let numbers = (record.date.year, record.time.hour, record.offset.hour);
    assert_eq!(rt; numbers, (1, 1, 1));
    assert_eq!(rt; (record.zone.name.len(), record.calendar.len()), (1, 1));
}

#[test]
fn leaves_a_duration_after_an_error(rt: HostRuntime) {
    let mut duration = DURATION;
    assert_eq!(rt; ixdtf_parse_duration_strict(b"P1Y2Y", &mut duration), 41);
    assert_eq!(rt; (duration.place, duration.location.len()), (5, 0));
    assert_eq!(rt; (duration.years, duration.hours), (9, 9));
    assert_eq!(rt; ixdtf_parse_duration(b"P1Y2Y", &mut duration), 0);
    assert_eq!(rt; (duration.years, duration.hours, duration.place), (2, 0, 0));
}

#[test]
fn lists_annotations(rt: HostRuntime) {
    let mut record = RECORD;
    let mut slots = [ANNOTATION, ANNOTATION];
    let mut count = 9;
    let text = b"2024-03-02[a=b][!c=de][u-ca=x]".as_slice();
    let number = ixdtf_parse_with_annotations(text, &mut slots, &mut count, &mut record);
    assert_eq!(rt; (number, count, record.has_calendar), (0, 3, false));
    assert!(rt; slots[1].is_critical && slots[1].value.len() == 2);
    let text = b"2024-03[a=b]junk".as_slice();
    let number = ixdtf_parse_year_month_with_annotations(text, &mut slots, &mut count, &mut record);
    assert_eq!(rt; (number, count, record.place), (5, 1, 12));
    assert!(rt; slots[1].is_critical);
}

/// Replies, the number that is returned for each, and whether a calendar is kept after it.
const REPLIES: [(&[u8], &[u8], bool, u32, bool); 5] = [
    (b"x", b"y", false, 0, false),
    (b"u-ca", b"hebrew", false, 0, true),
    (b"u-ca", b"hebrew", true, 0, true),
    (b"u-ca", b"iso8601", true, 31, true),
    (b"x", b"y", true, 32, true),
];

#[test]
fn takes_replies(rt: HostRuntime) {
    let mut calendar = Calendar {
        value: &[],
        is_critical: false,
        is_there: false,
    };
    for (key, value, is_critical, number, is_kept) in REPLIES {
        let reply = Annotation {
            key,
            value,
            is_critical,
        };
        assert_eq!(rt; ixdtf_reply(&mut calendar, &reply), number);
        assert_eq!(rt; calendar.is_there, is_kept);
    }
    assert_eq!(rt; calendar.value, b"hebrew".as_slice());
}

#[test]
fn asks_a_handler_in_turn(rt: HostRuntime) {
    let mut record = RECORD;
    let mut slots = [ANNOTATION, ANNOTATION];
    let mut count = 0;
    let text = b"2024-03-02[u-ca=hebrew][!c=de]".as_slice();
    let refused = parse_in_turn(text, &mut slots, &mut count, &mut record, |it| {
        if it.critical { None } else { Some(it) }
    });
    assert_eq!(rt; refused, 0);
    assert_eq!(rt;
        (count, record.has_calendar, record.calendar.len()),
        (2, true, 6)
    );
}

#[test]
fn leaves_the_record_after_a_refused_reply(rt: HostRuntime) {
    let mut record = RECORD;
    let mut slots = [ANNOTATION, ANNOTATION];
    let mut count = 0;
    let text = b"2024-03-02[a=b][!c=de]".as_slice();
    let refused = parse_in_turn(text, &mut slots, &mut count, &mut record, |it| Some(it));
    assert_eq!(rt; (refused, count), (32, 2));
    assert_eq!(rt;
        (
            record.date.year,
            record.calendar.len(),
            record.location.len(),
            record.place
        ),
        (RECORD.date.year, 1, 0, 0)
    );
}
