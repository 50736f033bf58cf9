//! The structs for 16-bit text that are passed between C and Rust, and a function that writes a calendar into a record.
//!
//! In C, a `Slice` is a pointer and a length.

ghost use Rattle.std.specs.Prelude.{◌≡◌, map, option_map};
ghost use Rattle.ixdtf.specs.Handlers.{pair_of};
ghost use Rattle.ixdtf_c.specs.Fielded.{keyed};
ghost use Rattle.ixdtf_c.specs.Wide.{contents as record_contents, zone_contents, SameButError, annotation_by, calendar_by};
ghost use Rattle.ixdtf_c.specs.Standing.{units_where};

use crate::error_numbers::number_and_location;
use crate::part_structs::{Date, Offset, Time};
use crate::record_conversion::zone_of;
use crate::slices::{Slice, from_c, to_c};
use crate::struct_traits::{AnnotationOf, CalendarOf, RecordOf, ZoneOf, put_zone};
use ixdtf::LocatedError;
use ixdtf::encoding::Utf16;
use ixdtf::records::{self, IxdtfParseRecord, TimeZoneAnnotation};

/// A time zone. A reader writes 0, false or an empty slice to each field that does not belong to its `form`.
#[derive(Clone, Copy)]
#[repr(C)]
pub struct Zone<'a> {
    /// The code units of the name. The slice is empty if `form` is not 1.
    pub name: Slice<'a, u16>,
    /// 0: there is no zone. 1: the zone is a name. 2: the zone is an offset.
    pub form: u8,
    /// Whether the zone is critical: its bracket begins with `[!`.
    pub is_critical: bool,
    /// Whether the sign of the offset is `-`. This is also true for `-00:00`.
    pub is_negative: bool,
    /// The hours of the offset, 0 to 23.
    pub hour: u8,
    /// The minutes of the offset, 0 to 59.
    pub minute: u8,
}

/// The record that a reader of dates, times, offsets or zones writes.
#[derive(Clone, Copy)]
#[repr(C)]
pub struct Record<'a> {
    /// The date.
    pub date: Date,
    /// The time.
    pub time: Time,
    /// The offset.
    pub offset: Offset,
    /// The time zone.
    pub zone: Zone<'a>,
    /// The code units of the calendar, such as `hebrew`. The slice is empty if there is no calendar.
    pub calendar: Slice<'a, u16>,
    /// Whether a calendar is present.
    pub has_calendar: bool,
    /// What was being parsed when the text ended, if the error is `AbruptEnd`. Otherwise the slice is empty.
    pub location: Slice<'a, u8>,
    /// The position of the error: the number of code units before it. It is 0 if there is no error.
    pub place: usize,
}

/// An annotation of a text, such as `[u-ca=hebrew]`, or the reply to an annotation.
///
/// A *reply* is the annotation that a program passes to `ixdtf16_reply` for an annotation of the text. It is this annotation
/// itself, or another annotation that replaces it.
#[derive(Clone, Copy)]
#[repr(C)]
pub struct Annotation<'a> {
    /// The code units of the key, such as `u-ca`.
    pub key: Slice<'a, u16>,
    /// The code units of the value, such as `hebrew`.
    pub value: Slice<'a, u16>,
    /// Whether the annotation is critical, as in `[!u-ca=hebrew]`.
    pub is_critical: bool,
}

/// The calendar that was kept from the replies up to now.
#[derive(Clone, Copy)]
#[repr(C)]
pub struct Calendar<'a> {
    /// The value of the calendar. It has no meaning if `is_there` is false.
    pub value: Slice<'a, u16>,
    /// Whether the calendar is critical. It has no meaning if `is_there` is false.
    pub is_critical: bool,
    /// Whether a calendar was kept.
    pub is_there: bool,
}

/// The key of an annotation that names a calendar.
const CALENDAR_KEY: &[u16] = &[0x75, 0x2d, 0x63, 0x61];

impl<'a> ZoneOf<'a, Utf16> for Zone<'a> {
    ghost contents = { zone_contents };

    #[inline(always)]
    fn put(
        &mut self,
        name: &'a [u16],
        form: u8,
        is_critical: bool,
        is_negative: bool,
        hour: u8,
        minute: u8,
    ) {
        self.name = to_c(name);
        self.form = form;
        self.is_critical = is_critical;
        self.is_negative = is_negative;
        self.hour = hour;
        self.minute = minute;
    }

    #[inline(always)]
    fn read(&self) -> Option<Option<TimeZoneAnnotation<'a, Utf16>>> {
        zone_of(
            self.name,
            self.form,
            self.is_critical,
            self.is_negative,
            self.hour,
            self.minute,
        )
    }
}

impl<'a> RecordOf<'a, Utf16> for Record<'a> {
    ghost contents = { record_contents };

    ghost same_but_error = { SameButError };

    #[inline(never)]
    fn write(&mut self, found: &IxdtfParseRecord<'a, Utf16>) {
        self.date.put(found.date);
        self.time.put(found.time);
        self.offset.put(found.offset);
        put_zone::<Utf16, Zone<'a>>(&mut self.zone, &found.tz);
        match found.calendar {
            None => {
                self.calendar = to_c(&[]);
                self.has_calendar = false;
            }
            Some(units) => {
                self.calendar = to_c(units);
                self.has_calendar = true;
            }
        }
        self.location = to_c(&[]);
        self.place = 0;
    }

    #[inline(always)]
    fn refuse(&mut self, located: LocatedError) -> u32 {
        let (number, location) = number_and_location(located.error);
        self.location = to_c(location);
        self.place = located.at;
        number
    }

    #[inline(always)]
    fn date_part(&self) -> &Date {
        &self.date
    }

    #[inline(always)]
    fn time_part(&self) -> &Time {
        &self.time
    }

    #[inline(always)]
    fn offset_part(&self) -> &Offset {
        &self.offset
    }

    #[inline(always)]
    fn zone_part(&self) -> Option<Option<TimeZoneAnnotation<'a, Utf16>>> {
        self.zone.read()
    }

    #[inline(always)]
    fn calendar_part(&self) -> Option<&'a [u16]> {
        if self.has_calendar {
            Some(from_c(self.calendar))
        } else {
            None
        }
    }
}

impl<'a> AnnotationOf<'a, Utf16> for Annotation<'a> {
    ghost pair = { annotation_by };

    #[inline(always)]
    fn read(&self) -> records::Annotation<'a, Utf16> {
        records::Annotation {
            critical: self.is_critical,
            key: from_c(self.key),
            value: from_c(self.value),
        }
    }
}

impl<'a> CalendarOf<'a, Utf16> for Calendar<'a> {
    ghost kept_of = { calendar_by };

    #[inline(always)]
    fn read(&self) -> Option<records::Annotation<'a, Utf16>> {
        if self.is_there {
            Some(records::Annotation {
                critical: self.is_critical,
                key: CALENDAR_KEY,
                value: from_c(self.value),
            })
        } else {
            None
        }
    }

    #[inline(always)]
    fn write(&mut self, kept: Option<records::Annotation<'a, Utf16>>)
        ensures { calendar_by self.new ≡ option_map (λ it. keyed (pair_of (λ unit. unit) it)) kept.entry }
    {
        match kept {
            None => self.is_there = false,
            Some(it) => {
                self.value = to_c(it.value);
                self.is_critical = it.critical;
                self.is_there = true;
            }
        }
    }
}

/// Writes into a record the calendar that `ixdtf16_reply` kept. If it kept none, the record then has no calendar.
#[unsafe(no_mangle)]
pub extern "C" fn ixdtf16_keep_calendar<'a>(out: &mut Record<'a>, calendar: &Calendar<'a>)
    ensures units { map (λ unit. unit) out.new.calendar.now ≡
        units_where calendar.now.is_there (map (λ unit. unit) calendar.now.value.now) }
    ensures rest { out.new ≡ record out.old {
      calendar = out.new.calendar;
      has_calendar = calendar.now.is_there;
    } }
{
    out.has_calendar = calendar.is_there;
    out.calendar = if calendar.is_there {
        to_c(from_c(calendar.value))
    } else {
        to_c(&[])
    };
}
