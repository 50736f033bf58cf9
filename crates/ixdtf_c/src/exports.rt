//! The functions for C that read texts, for 8-bit text and for 16-bit text, with and without a list of annotations, and the
//! functions that check replies. Each function only calls a function of another module, which does the work.
//!
//! These clauses are in the contracts of the readers:
//!
//! - `read`: Each text has one outcome: the record that the grammar gives for the text, or an error with its position. The
//!   outcome decides the number that is returned. If this number is 0, the outcome also decides every field of the record.
//!   After an error, it decides only the fields `location` and `place`. Five readers are called the *text readers*:
//!   `ixdtf_parse`, and the readers of a year and a month, of a month and a day, of a time, and of a duration. If these five
//!   readers follow the same profile, at most one of them accepts a text. So if one of them returns 0, the other four refuse
//!   the text.
//! - `lists`: In Rust, a reader can call a function of the caller, a *handler*, for each annotation. The outcome here is
//!   that of such a reader, with a handler that drops each annotation. As in `read`, this outcome decides the number that
//!   is returned, and the fields of the record. The clause also says that `count` is the number of annotations before the
//!   end of the text, or before its error. The array has these annotations, in order. If the array is too short for all
//!   of them, it has only as many as fit, from the first one on.
//! - `few`: Five times the number of annotations is at most the length of the text. So an array of `length / 5` elements is
//!   always long enough.
//! - `unchanged`: After an error, only the fields `location` and `place` of the record can be different. Every other field
//!   has its old value. This is so for slices too.

ghost use Rattle.std.specs.Prelude.{◌≡◌, ◌≢◌, ◌+◌, ◌*◌, ◌≤◌, length, map, IsSomeAnd};
ghost use Rattle.ixdtf.specs.language.Languages.Found.{dated, shifted, identified, named};
ghost use Rattle.ixdtf.specs.language.Letters.{byte_letter, wide_letter};
ghost use Rattle.ixdtf.specs.language.Readers.{parse, parse_rfc9557, parse_year_month, parse_month_day, parse_time};
ghost use Rattle.ixdtf.specs.language.Readers.Reader.{parse_rfc3339, parse_offset, parse_identifier, parse_iana_identifier};
ghost use Rattle.ixdtf_c.specs.Crossing.{offset_alone, zone_alone, name_alone};
ghost use Rattle.ixdtf_c.specs.Lasting.{contents as lasting_contents, SameButError as SameLastingButError};
ghost use Rattle.ixdtf_c.specs.Listing.{ListsRecord};
ghost use Rattle.ixdtf_c.specs.Narrow.{contents, SameButError, annotation_by, calendar_by};
ghost use Rattle.ixdtf_c.specs.Outcomes.{GivesRecord, GivesPart, GivesLasting};
ghost use Rattle.ixdtf_c.specs.Replying.{TakesReply};
ghost use Rattle.ixdtf_c.specs.Standing.{record_by};
ghost use Rattle.ixdtf_c.specs.Wide.{contents as wide_contents, SameButError as SameWideButError};
ghost use Rattle.ixdtf_c.specs.Wide.{annotation_by as wide_annotation_by, calendar_by as wide_calendar_by};
ghost use Rattle.ixdtf_print.specs.Canonical.{canonical_text};
ghost use Rattle.ixdtf_print.specs.Printable.{IsPrintable};

use crate::duration_struct::{Duration, duration_into};
use crate::narrow::{Annotation, Calendar, Record};
use crate::readers::{name_into, offset_into, read_into, rfc3339_into, take_reply, zone_into};
use crate::{narrow_annotations, wide, wide_annotations};
use ixdtf::encoding::{Utf8, Utf16};
use ixdtf::parsers::{DateTimes, InternetDateTimes, MonthDays, Profile, Times, YearMonths};

/// Reads a date, such as `2024-03-02`, or a date and a time, such as `2024-03-02T08:48:00-05:00`.
/// A zone and annotations may follow in brackets.
#[unsafe(no_mangle)]
pub extern "C" fn ixdtf_parse<'a>(text: &'a [u8], out: &mut Record<'a>) -> u32
    ensures read { GivesRecord Profile.Crate parse (map byte_letter text.now) result (contents out.old) (contents out.new) }
    // After 0, `ixdtf_print` can print the record. Its canonical text has at most 14 bytes more than the text.
    ensures printable { result ≡ 0 → IsSomeAnd (record_by (contents out.new)) IsPrintable }
    ensures fits { result ≡ 0 → IsSomeAnd (record_by (contents out.new))
        (λ found. length (canonical_text found) ≤ length text.now + 14) }
    ensures unchanged { result ≢ 0 → SameButError out.old out.new }
{
    read_into::<Utf8, DateTimes, _>(text, Profile::Crate, out)
}

/// Reads a year and a month, such as `2024-03`. A zone and annotations may follow in brackets.
#[unsafe(no_mangle)]
pub extern "C" fn ixdtf_parse_year_month<'a>(text: &'a [u8], out: &mut Record<'a>) -> u32
    ensures read { GivesRecord Profile.Crate parse_year_month (map byte_letter text.now) result (contents out.old) (contents out.new) }
    ensures unchanged { result ≢ 0 → SameButError out.old out.new }
{
    read_into::<Utf8, YearMonths, _>(text, Profile::Crate, out)
}

/// Reads a month and a day, such as `11-07`. A zone and annotations may follow in brackets.
#[unsafe(no_mangle)]
pub extern "C" fn ixdtf_parse_month_day<'a>(text: &'a [u8], out: &mut Record<'a>) -> u32
    ensures read { GivesRecord Profile.Crate (parse_month_day Profile.Crate) (map byte_letter text.now) result (contents out.old) (contents out.new) }
    ensures unchanged { result ≢ 0 → SameButError out.old out.new }
{
    read_into::<Utf8, MonthDays, _>(text, Profile::Crate, out)
}

/// Reads a time, such as `T12:30`. A zone and annotations may follow in brackets.
#[unsafe(no_mangle)]
pub extern "C" fn ixdtf_parse_time<'a>(text: &'a [u8], out: &mut Record<'a>) -> u32
    ensures read { GivesRecord Profile.Crate (parse_time Profile.Crate) (map byte_letter text.now) result (contents out.old) (contents out.new) }
    ensures unchanged { result ≢ 0 → SameButError out.old out.new }
{
    read_into::<Utf8, Times, _>(text, Profile::Crate, out)
}

/// Reads a month and a day, such as `11-07`, under the strict profile. A zone and annotations may follow in brackets.
#[unsafe(no_mangle)]
pub extern "C" fn ixdtf_parse_month_day_strict<'a>(text: &'a [u8], out: &mut Record<'a>) -> u32
    ensures read { GivesRecord Profile.Strict (parse_month_day Profile.Strict) (map byte_letter text.now) result (contents out.old) (contents out.new) }
    ensures unchanged { result ≢ 0 → SameButError out.old out.new }
{
    read_into::<Utf8, MonthDays, _>(text, Profile::Strict, out)
}

/// Reads a time, such as `T12:30`, under the strict profile. A zone and annotations may follow in brackets.
#[unsafe(no_mangle)]
pub extern "C" fn ixdtf_parse_time_strict<'a>(text: &'a [u8], out: &mut Record<'a>) -> u32
    ensures read { GivesRecord Profile.Strict (parse_time Profile.Strict) (map byte_letter text.now) result (contents out.old) (contents out.new) }
    ensures unchanged { result ≢ 0 → SameButError out.old out.new }
{
    read_into::<Utf8, Times, _>(text, Profile::Strict, out)
}

/// Reads a date-time of RFC 3339, section 5.6, such as `2024-03-02T08:48:00-05:00`.
#[unsafe(no_mangle)]
pub extern "C" fn ixdtf_parse_rfc3339<'a>(text: &'a [u8], out: &mut Record<'a>) -> u32
    ensures read { GivesPart parse_rfc3339 dated (λ found. found) (map byte_letter text.now) result (contents out.old) (contents out.new) }
    ensures unchanged { result ≢ 0 → SameButError out.old out.new }
{
    rfc3339_into::<Utf8, _>(text, out)
}

/// Reads a date-time-ext of RFC 9557, section 4.1, such as `2024-03-02T08:48:00-05:00[America/New_York]`.
#[unsafe(no_mangle)]
pub extern "C" fn ixdtf_parse_rfc9557<'a>(text: &'a [u8], out: &mut Record<'a>) -> u32
    ensures read { GivesRecord Profile.Crate parse_rfc9557 (map byte_letter text.now) result (contents out.old) (contents out.new) }
    ensures unchanged { result ≢ 0 → SameButError out.old out.new }
{
    read_into::<Utf8, InternetDateTimes, _>(text, Profile::Crate, out)
}

/// Reads an offset from UTC, such as `+05:30`.
#[unsafe(no_mangle)]
pub extern "C" fn ixdtf_parse_offset<'a>(text: &'a [u8], out: &mut Record<'a>) -> u32
    ensures read { GivesPart parse_offset shifted offset_alone (map byte_letter text.now) result (contents out.old) (contents out.new) }
    ensures unchanged { result ≢ 0 → SameButError out.old out.new }
{
    offset_into::<Utf8, _>(text, out)
}

/// Reads a time zone without brackets. It is a name or an offset, such as `Europe/Berlin` or `+05:30`.
#[unsafe(no_mangle)]
pub extern "C" fn ixdtf_parse_identifier<'a>(text: &'a [u8], out: &mut Record<'a>) -> u32
    ensures read { GivesPart parse_identifier identified zone_alone (map byte_letter text.now) result (contents out.old) (contents out.new) }
    ensures unchanged { result ≢ 0 → SameButError out.old out.new }
{
    zone_into::<Utf8, _>(text, out)
}

/// Reads the name of a time zone, such as `Europe/Berlin`.
#[unsafe(no_mangle)]
pub extern "C" fn ixdtf_parse_iana_identifier<'a>(text: &'a [u8], out: &mut Record<'a>) -> u32
    ensures read { GivesPart parse_iana_identifier named name_alone (map byte_letter text.now) result (contents out.old) (contents out.new) }
    ensures unchanged { result ≢ 0 → SameButError out.old out.new }
{
    name_into::<Utf8, _>(text, out)
}

/// Reads a duration, such as `P1Y2M3DT4H`.
#[unsafe(no_mangle)]
pub extern "C" fn ixdtf_parse_duration(text: &[u8], out: &mut Duration<'_>) -> u32
    ensures read { GivesLasting Profile.Crate (map byte_letter text.now) result (lasting_contents out.old) (lasting_contents out.new) }
    ensures unchanged { result ≢ 0 → SameLastingButError out.old out.new }
{
    duration_into::<Utf8>(text, Profile::Crate, out)
}

/// Reads a duration, such as `P1Y2M3DT4H`, under the strict profile.
#[unsafe(no_mangle)]
pub extern "C" fn ixdtf_parse_duration_strict(text: &[u8], out: &mut Duration<'_>) -> u32
    ensures read { GivesLasting Profile.Strict (map byte_letter text.now) result (lasting_contents out.old) (lasting_contents out.new) }
    ensures unchanged { result ≢ 0 → SameLastingButError out.old out.new }
{
    duration_into::<Utf8>(text, Profile::Strict, out)
}

/// Reads a date, such as `2024-03-02`, or a date and a time, such as `2024-03-02T08:48:00-05:00`.
/// A zone and annotations may follow in brackets.
/// Lists the annotations in `annotations`. Refuses none of them, and writes no calendar.
#[unsafe(no_mangle)]
pub extern "C" fn ixdtf_parse_with_annotations<'a>(
    text: &'a [u8],
    annotations: &mut [Annotation<'a>],
    count: &mut usize,
    out: &mut Record<'a>,
) -> u32
    ensures lists { ListsRecord annotation_by Profile.Crate parse (map byte_letter text.now)
        annotations.old annotations.new count.new result (contents out.old) (contents out.new) }
    ensures few { 5 * count.new ≤ length text.now }
    ensures unchanged { result ≢ 0 → SameButError out.old out.new }
{
    narrow_annotations::list_into::<DateTimes>(text, Profile::Crate, annotations, count, out)
}

/// Reads a year and a month, such as `2024-03`. A zone and annotations may follow in brackets.
/// Lists the annotations in `annotations`. Refuses none of them, and writes no calendar.
#[unsafe(no_mangle)]
pub extern "C" fn ixdtf_parse_year_month_with_annotations<'a>(
    text: &'a [u8],
    annotations: &mut [Annotation<'a>],
    count: &mut usize,
    out: &mut Record<'a>,
) -> u32
    ensures lists { ListsRecord annotation_by Profile.Crate parse_year_month (map byte_letter text.now)
        annotations.old annotations.new count.new result (contents out.old) (contents out.new) }
    ensures few { 5 * count.new ≤ length text.now }
    ensures unchanged { result ≢ 0 → SameButError out.old out.new }
{
    narrow_annotations::list_into::<YearMonths>(text, Profile::Crate, annotations, count, out)
}

/// Reads a month and a day, such as `11-07`. A zone and annotations may follow in brackets.
/// Lists the annotations in `annotations`. Refuses none of them, and writes no calendar.
#[unsafe(no_mangle)]
pub extern "C" fn ixdtf_parse_month_day_with_annotations<'a>(
    text: &'a [u8],
    annotations: &mut [Annotation<'a>],
    count: &mut usize,
    out: &mut Record<'a>,
) -> u32
    ensures lists { ListsRecord annotation_by Profile.Crate (parse_month_day Profile.Crate) (map byte_letter text.now)
        annotations.old annotations.new count.new result (contents out.old) (contents out.new) }
    ensures few { 5 * count.new ≤ length text.now }
    ensures unchanged { result ≢ 0 → SameButError out.old out.new }
{
    narrow_annotations::list_into::<MonthDays>(text, Profile::Crate, annotations, count, out)
}

/// Reads a time, such as `T12:30`. A zone and annotations may follow in brackets.
/// Lists the annotations in `annotations`. Refuses none of them, and writes no calendar.
#[unsafe(no_mangle)]
pub extern "C" fn ixdtf_parse_time_with_annotations<'a>(
    text: &'a [u8],
    annotations: &mut [Annotation<'a>],
    count: &mut usize,
    out: &mut Record<'a>,
) -> u32
    ensures lists { ListsRecord annotation_by Profile.Crate (parse_time Profile.Crate) (map byte_letter text.now)
        annotations.old annotations.new count.new result (contents out.old) (contents out.new) }
    ensures few { 5 * count.new ≤ length text.now }
    ensures unchanged { result ≢ 0 → SameButError out.old out.new }
{
    narrow_annotations::list_into::<Times>(text, Profile::Crate, annotations, count, out)
}

/// Reads a date-time-ext of RFC 9557, section 4.1, such as `2024-03-02T08:48:00-05:00[America/New_York]`.
/// Lists the annotations in `annotations`. Refuses none of them, and writes no calendar.
#[unsafe(no_mangle)]
pub extern "C" fn ixdtf_parse_rfc9557_with_annotations<'a>(
    text: &'a [u8],
    annotations: &mut [Annotation<'a>],
    count: &mut usize,
    out: &mut Record<'a>,
) -> u32
    ensures lists { ListsRecord annotation_by Profile.Crate parse_rfc9557 (map byte_letter text.now)
        annotations.old annotations.new count.new result (contents out.old) (contents out.new) }
    ensures few { 5 * count.new ≤ length text.now }
    ensures unchanged { result ≢ 0 → SameButError out.old out.new }
{
    narrow_annotations::list_into::<InternetDateTimes>(
        text,
        Profile::Crate,
        annotations,
        count,
        out,
    )
}

/// Reads a month and a day, such as `11-07`, under the strict profile. A zone and annotations may follow in brackets.
/// Lists the annotations in `annotations`. Refuses none of them, and writes no calendar.
#[unsafe(no_mangle)]
pub extern "C" fn ixdtf_parse_month_day_with_annotations_strict<'a>(
    text: &'a [u8],
    annotations: &mut [Annotation<'a>],
    count: &mut usize,
    out: &mut Record<'a>,
) -> u32
    ensures lists { ListsRecord annotation_by Profile.Strict (parse_month_day Profile.Strict) (map byte_letter text.now)
        annotations.old annotations.new count.new result (contents out.old) (contents out.new) }
    ensures few { 5 * count.new ≤ length text.now }
    ensures unchanged { result ≢ 0 → SameButError out.old out.new }
{
    narrow_annotations::list_into::<MonthDays>(text, Profile::Strict, annotations, count, out)
}

/// Reads a time, such as `T12:30`, under the strict profile. A zone and annotations may follow in brackets.
/// Lists the annotations in `annotations`. Refuses none of them, and writes no calendar.
#[unsafe(no_mangle)]
pub extern "C" fn ixdtf_parse_time_with_annotations_strict<'a>(
    text: &'a [u8],
    annotations: &mut [Annotation<'a>],
    count: &mut usize,
    out: &mut Record<'a>,
) -> u32
    ensures lists { ListsRecord annotation_by Profile.Strict (parse_time Profile.Strict) (map byte_letter text.now)
        annotations.old annotations.new count.new result (contents out.old) (contents out.new) }
    ensures few { 5 * count.new ≤ length text.now }
    ensures unchanged { result ≢ 0 → SameButError out.old out.new }
{
    narrow_annotations::list_into::<Times>(text, Profile::Strict, annotations, count, out)
}

/// Checks a reply. For a listed annotation, a caller replies with this annotation itself, or with another one.
///
/// Returns 0 if the reply is accepted, and otherwise the number of the error. If the key of an accepted reply is `u-ca`, and no
/// calendar was kept before, the reply is kept in `calendar`.
#[unsafe(no_mangle)]
pub extern "C" fn ixdtf_reply<'a>(calendar: &mut Calendar<'a>, reply: &Annotation<'a>) -> u32
    // Two things decide whether the library refuses the reply: the reply, and the calendar that was kept before. The result is
    // an error exactly if the library refuses the reply. It is the error of the library. After 0, the calendar that was kept
    // before is still kept. If none was kept before, and the key of the reply is `u-ca`, the reply is kept.
    ensures takes { TakesReply (calendar_by calendar.old) (calendar_by calendar.new) (annotation_by reply.now) result }
    // After an error, the calendar is unchanged.
    ensures unchanged { result ≢ 0 → calendar.new ≡ calendar.old }
{
    take_reply::<Utf8, _, _>(calendar, reply)
}

/// Reads a date, such as `2024-03-02`, or a date and a time, such as `2024-03-02T08:48:00-05:00`.
/// A zone and annotations may follow in brackets.
#[unsafe(no_mangle)]
pub extern "C" fn ixdtf16_parse<'a>(text: &'a [u16], out: &mut wide::Record<'a>) -> u32
    ensures read { GivesRecord Profile.Crate parse (map wide_letter text.now) result (wide_contents out.old) (wide_contents out.new) }
    ensures unchanged { result ≢ 0 → SameWideButError out.old out.new }
{
    read_into::<Utf16, DateTimes, _>(text, Profile::Crate, out)
}

/// Reads a year and a month, such as `2024-03`. A zone and annotations may follow in brackets.
#[unsafe(no_mangle)]
pub extern "C" fn ixdtf16_parse_year_month<'a>(text: &'a [u16], out: &mut wide::Record<'a>) -> u32
    ensures read { GivesRecord Profile.Crate parse_year_month (map wide_letter text.now) result (wide_contents out.old) (wide_contents out.new) }
    ensures unchanged { result ≢ 0 → SameWideButError out.old out.new }
{
    read_into::<Utf16, YearMonths, _>(text, Profile::Crate, out)
}

/// Reads a month and a day, such as `11-07`. A zone and annotations may follow in brackets.
#[unsafe(no_mangle)]
pub extern "C" fn ixdtf16_parse_month_day<'a>(text: &'a [u16], out: &mut wide::Record<'a>) -> u32
    ensures read { GivesRecord Profile.Crate (parse_month_day Profile.Crate) (map wide_letter text.now) result (wide_contents out.old) (wide_contents out.new) }
    ensures unchanged { result ≢ 0 → SameWideButError out.old out.new }
{
    read_into::<Utf16, MonthDays, _>(text, Profile::Crate, out)
}

/// Reads a time, such as `T12:30`. A zone and annotations may follow in brackets.
#[unsafe(no_mangle)]
pub extern "C" fn ixdtf16_parse_time<'a>(text: &'a [u16], out: &mut wide::Record<'a>) -> u32
    ensures read { GivesRecord Profile.Crate (parse_time Profile.Crate) (map wide_letter text.now) result (wide_contents out.old) (wide_contents out.new) }
    ensures unchanged { result ≢ 0 → SameWideButError out.old out.new }
{
    read_into::<Utf16, Times, _>(text, Profile::Crate, out)
}

/// Reads a month and a day, such as `11-07`, under the strict profile. A zone and annotations may follow in brackets.
#[unsafe(no_mangle)]
pub extern "C" fn ixdtf16_parse_month_day_strict<'a>(
    text: &'a [u16],
    out: &mut wide::Record<'a>,
) -> u32
    ensures read { GivesRecord Profile.Strict (parse_month_day Profile.Strict) (map wide_letter text.now) result (wide_contents out.old) (wide_contents out.new) }
    ensures unchanged { result ≢ 0 → SameWideButError out.old out.new }
{
    read_into::<Utf16, MonthDays, _>(text, Profile::Strict, out)
}

/// Reads a time, such as `T12:30`, under the strict profile. A zone and annotations may follow in brackets.
#[unsafe(no_mangle)]
pub extern "C" fn ixdtf16_parse_time_strict<'a>(text: &'a [u16], out: &mut wide::Record<'a>) -> u32
    ensures read { GivesRecord Profile.Strict (parse_time Profile.Strict) (map wide_letter text.now) result (wide_contents out.old) (wide_contents out.new) }
    ensures unchanged { result ≢ 0 → SameWideButError out.old out.new }
{
    read_into::<Utf16, Times, _>(text, Profile::Strict, out)
}

/// Reads a date-time of RFC 3339, section 5.6, such as `2024-03-02T08:48:00-05:00`.
#[unsafe(no_mangle)]
pub extern "C" fn ixdtf16_parse_rfc3339<'a>(text: &'a [u16], out: &mut wide::Record<'a>) -> u32
    ensures read { GivesPart parse_rfc3339 dated (λ found. found) (map wide_letter text.now) result (wide_contents out.old) (wide_contents out.new) }
    ensures unchanged { result ≢ 0 → SameWideButError out.old out.new }
{
    rfc3339_into::<Utf16, _>(text, out)
}

/// Reads a date-time-ext of RFC 9557, section 4.1, such as `2024-03-02T08:48:00-05:00[America/New_York]`.
#[unsafe(no_mangle)]
pub extern "C" fn ixdtf16_parse_rfc9557<'a>(text: &'a [u16], out: &mut wide::Record<'a>) -> u32
    ensures read { GivesRecord Profile.Crate parse_rfc9557 (map wide_letter text.now) result (wide_contents out.old) (wide_contents out.new) }
    ensures unchanged { result ≢ 0 → SameWideButError out.old out.new }
{
    read_into::<Utf16, InternetDateTimes, _>(text, Profile::Crate, out)
}

/// Reads an offset from UTC, such as `+05:30`.
#[unsafe(no_mangle)]
pub extern "C" fn ixdtf16_parse_offset<'a>(text: &'a [u16], out: &mut wide::Record<'a>) -> u32
    ensures read { GivesPart parse_offset shifted offset_alone (map wide_letter text.now) result (wide_contents out.old) (wide_contents out.new) }
    ensures unchanged { result ≢ 0 → SameWideButError out.old out.new }
{
    offset_into::<Utf16, _>(text, out)
}

/// Reads a time zone without brackets. It is a name or an offset, such as `Europe/Berlin` or `+05:30`.
#[unsafe(no_mangle)]
pub extern "C" fn ixdtf16_parse_identifier<'a>(text: &'a [u16], out: &mut wide::Record<'a>) -> u32
    ensures read { GivesPart parse_identifier identified zone_alone (map wide_letter text.now) result (wide_contents out.old) (wide_contents out.new) }
    ensures unchanged { result ≢ 0 → SameWideButError out.old out.new }
{
    zone_into::<Utf16, _>(text, out)
}

/// Reads the name of a time zone, such as `Europe/Berlin`.
#[unsafe(no_mangle)]
pub extern "C" fn ixdtf16_parse_iana_identifier<'a>(
    text: &'a [u16],
    out: &mut wide::Record<'a>,
) -> u32
    ensures read { GivesPart parse_iana_identifier named name_alone (map wide_letter text.now) result (wide_contents out.old) (wide_contents out.new) }
    ensures unchanged { result ≢ 0 → SameWideButError out.old out.new }
{
    name_into::<Utf16, _>(text, out)
}

/// Reads a duration, such as `P1Y2M3DT4H`.
#[unsafe(no_mangle)]
pub extern "C" fn ixdtf16_parse_duration(text: &[u16], out: &mut Duration<'_>) -> u32
    ensures read { GivesLasting Profile.Crate (map wide_letter text.now) result (lasting_contents out.old) (lasting_contents out.new) }
    ensures unchanged { result ≢ 0 → SameLastingButError out.old out.new }
{
    duration_into::<Utf16>(text, Profile::Crate, out)
}

/// Reads a duration, such as `P1Y2M3DT4H`, under the strict profile.
#[unsafe(no_mangle)]
pub extern "C" fn ixdtf16_parse_duration_strict(text: &[u16], out: &mut Duration<'_>) -> u32
    ensures read { GivesLasting Profile.Strict (map wide_letter text.now) result (lasting_contents out.old) (lasting_contents out.new) }
    ensures unchanged { result ≢ 0 → SameLastingButError out.old out.new }
{
    duration_into::<Utf16>(text, Profile::Strict, out)
}

/// Reads a date, such as `2024-03-02`, or a date and a time, such as `2024-03-02T08:48:00-05:00`.
/// A zone and annotations may follow in brackets.
/// Lists the annotations in `annotations`. Refuses none of them, and writes no calendar.
#[unsafe(no_mangle)]
pub extern "C" fn ixdtf16_parse_with_annotations<'a>(
    text: &'a [u16],
    annotations: &mut [wide::Annotation<'a>],
    count: &mut usize,
    out: &mut wide::Record<'a>,
) -> u32
    ensures lists { ListsRecord wide_annotation_by Profile.Crate parse (map wide_letter text.now)
        annotations.old annotations.new count.new result (wide_contents out.old) (wide_contents out.new) }
    ensures few { 5 * count.new ≤ length text.now }
    ensures unchanged { result ≢ 0 → SameWideButError out.old out.new }
{
    wide_annotations::list_into::<DateTimes>(text, Profile::Crate, annotations, count, out)
}

/// Reads a year and a month, such as `2024-03`. A zone and annotations may follow in brackets.
/// Lists the annotations in `annotations`. Refuses none of them, and writes no calendar.
#[unsafe(no_mangle)]
pub extern "C" fn ixdtf16_parse_year_month_with_annotations<'a>(
    text: &'a [u16],
    annotations: &mut [wide::Annotation<'a>],
    count: &mut usize,
    out: &mut wide::Record<'a>,
) -> u32
    ensures lists { ListsRecord wide_annotation_by Profile.Crate parse_year_month (map wide_letter text.now)
        annotations.old annotations.new count.new result (wide_contents out.old) (wide_contents out.new) }
    ensures few { 5 * count.new ≤ length text.now }
    ensures unchanged { result ≢ 0 → SameWideButError out.old out.new }
{
    wide_annotations::list_into::<YearMonths>(text, Profile::Crate, annotations, count, out)
}

/// Reads a month and a day, such as `11-07`. A zone and annotations may follow in brackets.
/// Lists the annotations in `annotations`. Refuses none of them, and writes no calendar.
#[unsafe(no_mangle)]
pub extern "C" fn ixdtf16_parse_month_day_with_annotations<'a>(
    text: &'a [u16],
    annotations: &mut [wide::Annotation<'a>],
    count: &mut usize,
    out: &mut wide::Record<'a>,
) -> u32
    ensures lists { ListsRecord wide_annotation_by Profile.Crate (parse_month_day Profile.Crate) (map wide_letter text.now)
        annotations.old annotations.new count.new result (wide_contents out.old) (wide_contents out.new) }
    ensures few { 5 * count.new ≤ length text.now }
    ensures unchanged { result ≢ 0 → SameWideButError out.old out.new }
{
    wide_annotations::list_into::<MonthDays>(text, Profile::Crate, annotations, count, out)
}

/// Reads a time, such as `T12:30`. A zone and annotations may follow in brackets.
/// Lists the annotations in `annotations`. Refuses none of them, and writes no calendar.
#[unsafe(no_mangle)]
pub extern "C" fn ixdtf16_parse_time_with_annotations<'a>(
    text: &'a [u16],
    annotations: &mut [wide::Annotation<'a>],
    count: &mut usize,
    out: &mut wide::Record<'a>,
) -> u32
    ensures lists { ListsRecord wide_annotation_by Profile.Crate (parse_time Profile.Crate) (map wide_letter text.now)
        annotations.old annotations.new count.new result (wide_contents out.old) (wide_contents out.new) }
    ensures few { 5 * count.new ≤ length text.now }
    ensures unchanged { result ≢ 0 → SameWideButError out.old out.new }
{
    wide_annotations::list_into::<Times>(text, Profile::Crate, annotations, count, out)
}

/// Reads a date-time-ext of RFC 9557, section 4.1, such as `2024-03-02T08:48:00-05:00[America/New_York]`.
/// Lists the annotations in `annotations`. Refuses none of them, and writes no calendar.
#[unsafe(no_mangle)]
pub extern "C" fn ixdtf16_parse_rfc9557_with_annotations<'a>(
    text: &'a [u16],
    annotations: &mut [wide::Annotation<'a>],
    count: &mut usize,
    out: &mut wide::Record<'a>,
) -> u32
    ensures lists { ListsRecord wide_annotation_by Profile.Crate parse_rfc9557 (map wide_letter text.now)
        annotations.old annotations.new count.new result (wide_contents out.old) (wide_contents out.new) }
    ensures few { 5 * count.new ≤ length text.now }
    ensures unchanged { result ≢ 0 → SameWideButError out.old out.new }
{
    wide_annotations::list_into::<InternetDateTimes>(text, Profile::Crate, annotations, count, out)
}

/// Reads a month and a day, such as `11-07`, under the strict profile. A zone and annotations may follow in brackets.
/// Lists the annotations in `annotations`. Refuses none of them, and writes no calendar.
#[unsafe(no_mangle)]
pub extern "C" fn ixdtf16_parse_month_day_with_annotations_strict<'a>(
    text: &'a [u16],
    annotations: &mut [wide::Annotation<'a>],
    count: &mut usize,
    out: &mut wide::Record<'a>,
) -> u32
    ensures lists { ListsRecord wide_annotation_by Profile.Strict (parse_month_day Profile.Strict) (map wide_letter text.now)
        annotations.old annotations.new count.new result (wide_contents out.old) (wide_contents out.new) }
    ensures few { 5 * count.new ≤ length text.now }
    ensures unchanged { result ≢ 0 → SameWideButError out.old out.new }
{
    wide_annotations::list_into::<MonthDays>(text, Profile::Strict, annotations, count, out)
}

/// Reads a time, such as `T12:30`, under the strict profile. A zone and annotations may follow in brackets.
/// Lists the annotations in `annotations`. Refuses none of them, and writes no calendar.
#[unsafe(no_mangle)]
pub extern "C" fn ixdtf16_parse_time_with_annotations_strict<'a>(
    text: &'a [u16],
    annotations: &mut [wide::Annotation<'a>],
    count: &mut usize,
    out: &mut wide::Record<'a>,
) -> u32
    ensures lists { ListsRecord wide_annotation_by Profile.Strict (parse_time Profile.Strict) (map wide_letter text.now)
        annotations.old annotations.new count.new result (wide_contents out.old) (wide_contents out.new) }
    ensures few { 5 * count.new ≤ length text.now }
    ensures unchanged { result ≢ 0 → SameWideButError out.old out.new }
{
    wide_annotations::list_into::<Times>(text, Profile::Strict, annotations, count, out)
}

/// Checks a reply. For a listed annotation, a caller replies with this annotation itself, or with another one.
///
/// Returns 0 if the reply is accepted, and otherwise the number of the error. If the key of an accepted reply is `u-ca`, and no
/// calendar was kept before, the reply is kept in `calendar`.
#[unsafe(no_mangle)]
pub extern "C" fn ixdtf16_reply<'a>(
    calendar: &mut wide::Calendar<'a>,
    reply: &wide::Annotation<'a>,
) -> u32
    // Two things decide whether the library refuses the reply: the reply, and the calendar that was kept before. The result is
    // an error exactly if the library refuses the reply. It is the error of the library. After 0, the calendar that was kept
    // before is still kept. If none was kept before, and the key of the reply is `u-ca`, the reply is kept.
    ensures takes { TakesReply (wide_calendar_by calendar.old) (wide_calendar_by calendar.new) (wide_annotation_by reply.now) result }
    // After an error, the calendar is unchanged.
    ensures unchanged { result ≢ 0 → calendar.new ≡ calendar.old }
{
    take_reply::<Utf16, _, _>(calendar, reply)
}
