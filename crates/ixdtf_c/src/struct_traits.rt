//! Traits of the structs for 8-bit and for 16-bit text. Code that is generic in the encoding uses them.

ghost use Rattle.std.specs.Prelude.{◌≡◌, ◌≢◌, Option, Some, None, map, option_map, IfSome, IfNone};
ghost use Rattle.ixdtf.specs.Handlers.{calendar_key, pair_of};
ghost use Rattle.ixdtf.specs.language.Brackets.{Pair};
ghost use Rattle.ixdtf.specs.table.ErrorEquality.{location_of};
ghost use Rattle.ixdtf.specs.LocatedFaults.{fault_of_located};
ghost use Rattle.ixdtf.specs.Views.{note_of, parsed_of};
ghost use Rattle.ixdtf_c.specs.Crossing.{Contents, ZoneContents, record_for, zone_for};
ghost use Rattle.ixdtf_c.specs.Fielded.{keyed};
ghost use Rattle.ixdtf_c.specs.Numbers.{number_for};
ghost use Rattle.ixdtf_c.specs.Standing.{where_there, zone_by};

use crate::part_structs::{Date, Offset, Time, is_negative};
use ixdtf::LocatedError;
use ixdtf::encoding::EncodingType;
use ixdtf::records::{self, IxdtfParseRecord, TimeZoneAnnotation, TimeZoneRecord};

/// A time zone whose name has code units of the encoding `T`.
pub trait ZoneOf<'a, T: EncodingType> {
    /// The fields of the zone. The name is a list with the value of each of its code units.
    ghost contents: { Self → ZoneContents };

    /// Writes every field of the zone.
    fn put(
        &mut self,
        name: &'a [T::CodeUnit],
        form: u8,
        is_critical: bool,
        is_negative: bool,
        hour: u8,
        minute: u8,
    )
        ensures { contents self.new ≡ record {
          name = map T.number name.now;
          form = form;
          is_critical = is_critical;
          is_negative = is_negative;
          hour = hour;
          minute = minute;
        } };

    /// Returns the zone in the type of the library, or `Some(None)` if it is absent. Returns `None` if `form` is not 0 to 2.
    fn read(&self) -> Option<Option<TimeZoneAnnotation<'a, T>>>
        ensures found { IfSome result (λ found.
            zone_by (contents self.now) ≡ Some (option_map (note_of T.number) found)) }
        ensures none { IfNone result (zone_by (contents self.now) ≡ None) };
}

/// Writes a zone. If there is none, each field becomes 0, false or empty.
#[inline(always)]
pub fn put_zone<'a, T: EncodingType, Z: ZoneOf<'a, T>>(
    out: &mut Z,
    zone: &Option<TimeZoneAnnotation<'a, T>>,
)
    ensures { Z.contents out.new ≡ zone_for (option_map (note_of T.number) zone.now) }
{
    match zone {
        None => out.put(&[], 0, false, false, 0, 0),
        Some(it) => match &it.tz {
            TimeZoneRecord::Name(name) => out.put(name, 1, it.critical, false, 0, 0),
            TimeZoneRecord::Offset(offset) => out.put(
                &[],
                2,
                it.critical,
                is_negative(offset.sign),
                offset.hour,
                offset.minute,
            ),
        },
    }
}

/// A record whose slices have code units of the encoding `T`.
pub trait RecordOf<'a, T: EncodingType> {
    /// The fields of the record. Each slice is a list with the value of each of its code units.
    ghost contents: { Self → Contents };

    /// States that the second record is equal to the first, except for `location` and `place`.
    ghost same_but_error: { Self → Self → Type 0 };

    /// Writes every field of the record. If a part is absent, its fields become 0, false or empty. `location` becomes empty, and
    /// `place` becomes 0.
    ///
    /// The parts are written directly to the record of the caller. It took sixty instructions more to build a record first and
    /// then to copy it.
    fn write(&mut self, found: &IxdtfParseRecord<'a, T>)
        ensures { contents self.new ≡ record_for (parsed_of T.number found.now) };

    /// Writes the location and the position of an error, and returns the number of the error.
    fn refuse(&mut self, located: LocatedError) -> u32
        ensures number { result ≡ number_for (fault_of_located located) }
        ensures some { result ≢ 0 }
        ensures error { contents self.new ≡ record (contents self.old) {
          location = location_of (fault_of_located located);
          place = located.at;
        } }
        ensures unchanged { same_but_error self.old self.new };

    /// Returns the date as C has it.
    fn date_part(&self) -> &Date
        ensures { result.now ≡ (contents self.now).date };

    /// Returns the time as C has it.
    fn time_part(&self) -> &Time
        ensures { result.now ≡ (contents self.now).time };

    /// Returns the offset as C has it.
    fn offset_part(&self) -> &Offset
        ensures { result.now ≡ (contents self.now).offset };

    /// Returns the zone in the type of the library, or `Some(None)` if it is absent. Returns `None` if its `form` is not 0 to 2.
    fn zone_part(&self) -> Option<Option<TimeZoneAnnotation<'a, T>>>
        ensures found { IfSome result (λ found.
            zone_by (contents self.now).zone ≡ Some (option_map (note_of T.number) found)) }
        ensures none { IfNone result (zone_by (contents self.now).zone ≡ None) };

    /// Returns the code units of the calendar, or `None` if it is absent.
    fn calendar_part(&self) -> Option<&'a [T::CodeUnit]>
        ensures { option_map (λ units. map T.number units.now) result ≡
            where_there (contents self.now).has_calendar (contents self.now).calendar };
}

/// An annotation whose key and value have code units of the encoding `T`.
pub trait AnnotationOf<'a, T: EncodingType> {
    /// The annotation, as a key and a value that are lists of numbers.
    ghost pair: { Self → Pair };

    /// Returns the annotation in the type of the library.
    fn read(&self) -> records::Annotation<'a, T>
        ensures { pair_of T.number result ≡ pair self.now };
}

/// The calendar that was kept. Its value has code units of the encoding `T`.
pub trait CalendarOf<'a, T: EncodingType> {
    /// The annotation that was kept, or `None`. Its key is `u-ca`.
    ghost kept_of: { Self → Option Pair };

    /// Returns the annotation that was kept, or `None`. Its key is `u-ca`.
    fn read(&self) -> Option<records::Annotation<'a, T>>
        ensures kept { kept_of self.now ≡ option_map (pair_of T.number) result }
        ensures key { IfSome result (λ it. map T.number it.key.now ≡ calendar_key) };

    /// Keeps the value of an annotation, and whether it is critical. The key is not stored, because it is always `u-ca`. For
    /// `None`, no calendar is kept.
    fn write(&mut self, kept: Option<records::Annotation<'a, T>>)
        ensures { kept_of self.new ≡ option_map (λ it. keyed (pair_of T.number it)) kept.entry };
}
