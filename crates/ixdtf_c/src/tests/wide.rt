//! Tests of the functions for 16-bit text.

use super::{DATE, OFFSET, TIME};
use crate::exports::*;
use crate::wide::{Record, Zone};

/// A record in which no field is 0, false or empty.
pub(super) const RECORD: Record<'static> = Record {
    date: DATE,
    time: TIME,
    offset: OFFSET,
    zone: Zone {
        name: &[1],
        form: 2,
        is_critical: true,
        is_negative: true,
        hour: 1,
        minute: 1,
    },
    calendar: &[1],
    has_calendar: true,
    location: &[1],
    place: 1,
};

/// A text of 16-bit code units.
#[derive(Clone, Copy)]
pub(super) struct Units {
    /// The code units of the text. The code units after them are 0.
    pub units: [u16; 64],
    length: usize,
}

impl Units {
    /// Returns the bytes as 16-bit code units. If there are more than 64 bytes, the text has the first 64.
    pub(super) fn of(bytes: &[u8]) -> Units {
        let mut units = [0u16; 64];
        for (unit, byte) in units.iter_mut().zip(bytes) {
            *unit = u16::from(*byte);
        }
        Units {
            units,
            length: bytes.len(),
        }
    }

    /// Returns the code units of the text.
    pub(super) fn as_slice(&self) -> &[u16] {
        &self.units[..self.length.min(64)]
    }
}

#[test]
fn writes_a_record(rt: HostRuntime) {
    let mut record = RECORD;
    let text = Units::of(b"2024-03-02T08:48:00.25-05:00[America/New_York][u-ca=hebrew]");
    assert_eq!(rt; ixdtf16_parse(text.as_slice(), &mut record), 0);
    let numbers = (record.date.year, record.time.fraction, record.offset.hour);
    assert_eq!(rt; numbers, (2024, 25, 5));
    let lengths = (record.zone.name.len(), record.calendar.len());
    assert_eq!(rt; lengths, (16, 6));
    assert_eq!(rt; ixdtf16_parse(&[50, 0x130], &mut record), 2);
    assert_eq!(rt; (record.date.year, record.place), (2024, 1));
}
