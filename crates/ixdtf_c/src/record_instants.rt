//! Functions for C that return the instant of a record.

ghost use Rattle.std.specs.Prelude.{◌≡◌, ◌≢◌, ◌↔◌, IfSome, IfNone};
ghost use Rattle.ixdtf_c.specs.Instants.{HaveInstant, AreInstant, HasInstant, IsInstantOf};
ghost use Rattle.ixdtf_c.specs.Narrow.{contents};
ghost use Rattle.ixdtf_c.specs.Wide.{contents as wide_contents};

use crate::narrow::Record;
use crate::part_structs::{Date, Offset, Time};
use crate::record_conversion::{date_of, offset_of, time_of};
use crate::wide;
use ixdtf::Instant;
use ixdtf::encoding::Utf8;
use ixdtf::records::IxdtfParseRecord;

/// Returns the instant of a date, a time and an offset, or `None` if they have no instant.
fn instant_of(date: &Date, time: &Time, offset: &Offset) -> Option<Instant>
    ensures some { IfSome result (λ instant.
        AreInstant date.now time.now offset.now instant.seconds instant.nanoseconds) }
    ensures none { IfNone result (¬ (HaveInstant date.now time.now offset.now)) }
{
    let Some(time) = time_of(time) else {
        return None;
    };
    let Some(offset) = offset_of(offset) else {
        return None;
    };
    let record: IxdtfParseRecord<'_, Utf8> = IxdtfParseRecord {
        date: date_of(date),
        time,
        offset,
        tz: None,
        calendar: None,
    };
    record.instant()
}

/// Writes the instant of a date, a time and an offset, and returns 0. Returns 103 if they have no instant.
fn put_instant(
    date: &Date,
    time: &Time,
    offset: &Offset,
    seconds: &mut i64,
    nanoseconds: &mut u32,
) -> u32
    ensures there { (result ≡ 0) ↔ HaveInstant date.now time.now offset.now }
    ensures none { (result ≡ 103) ↔ ¬ (HaveInstant date.now time.now offset.now) }
    ensures instant { result ≡ 0 → AreInstant date.now time.now offset.now seconds.new nanoseconds.new }
    ensures unchanged { result ≢ 0 → (seconds.new ≡ seconds.old) × (nanoseconds.new ≡ nanoseconds.old) }
{
    match instant_of(date, time, offset) {
        None => 103,
        Some(instant) => {
            *seconds = instant.seconds;
            *nanoseconds = instant.nanoseconds;
            0
        }
    }
}

/// Writes the instant of a record, and returns 0. Returns 103, and writes nothing, if the record has no instant.
///
/// The instant is the number of seconds since 1970-01-01T00:00:00Z, rounded down, and the nanoseconds after these seconds.
#[unsafe(no_mangle)]
pub extern "C" fn ixdtf_instant(given: &Record<'_>, seconds: &mut i64, nanoseconds: &mut u32) -> u32
    // The result is 0 exactly if the record has an instant. Otherwise it is 103.
    ensures there { (result ≡ 0) ↔ HasInstant (contents given.now) }
    ensures none { (result ≡ 103) ↔ ¬ (HasInstant (contents given.now)) }
    ensures instant { result ≡ 0 → IsInstantOf (contents given.now) seconds.new nanoseconds.new }
    ensures unchanged { result ≢ 0 → (seconds.new ≡ seconds.old) × (nanoseconds.new ≡ nanoseconds.old) }
{
    put_instant(
        &given.date,
        &given.time,
        &given.offset,
        seconds,
        nanoseconds,
    )
}

/// Writes the instant of a record, and returns 0. Returns 103, and writes nothing, if the record has no instant.
///
/// The instant is the number of seconds since 1970-01-01T00:00:00Z, rounded down, and the nanoseconds after these seconds.
#[unsafe(no_mangle)]
pub extern "C" fn ixdtf16_instant(
    given: &wide::Record<'_>,
    seconds: &mut i64,
    nanoseconds: &mut u32,
) -> u32
    ensures there { (result ≡ 0) ↔ HasInstant (wide_contents given.now) }
    ensures none { (result ≡ 103) ↔ ¬ (HasInstant (wide_contents given.now)) }
    ensures instant { result ≡ 0 → IsInstantOf (wide_contents given.now) seconds.new nanoseconds.new }
    ensures unchanged { result ≢ 0 → (seconds.new ≡ seconds.old) × (nanoseconds.new ≡ nanoseconds.old) }
{
    put_instant(
        &given.date,
        &given.time,
        &given.offset,
        seconds,
        nanoseconds,
    )
}
