//! The kinds of texts.
ghost use Rattle.std.specs.Prelude.{◌≡◌, ◌≢◌, true, false};
ghost use Rattle.ixdtf_checks.specs.Kinds.{IsNamed, has_offset, instant_kind};

/// The kind of a text. It decides which reader reads the text.
#[derive(Clone, Copy, Debug, PartialEq)]
pub enum Kind {
    /// `date-time`: a date, or a date and a time. An offset may follow the time, and there may be a zone and a calendar.
    DateTime,
    /// `year-month`: a year and a month. There may be a zone and a calendar.
    YearMonth,
    /// `month-day`: a month and a day. There may be a zone and a calendar.
    MonthDay,
    /// `time`: a time. There may be an offset, a zone and a calendar.
    Time,
    /// `offset`: an offset from UTC.
    Offset,
    /// `zone`: a time zone, which is a name or an offset.
    Zone,
    /// `zone-name`: the name of a time zone.
    ZoneName,
    /// `duration`: a duration.
    Duration,
    /// `rfc3339`: a date-time of RFC 3339, section 5.6.
    Rfc3339,
    /// `iana`: the same as `zone-name`.
    Iana,
    /// `rfc9557`: a date-time of RFC 9557, section 4.1. There may be a zone and a calendar.
    Rfc9557,
}

impl Kind {
    /// Returns the kind with this name. Returns `None` if there is no such kind.
    pub fn named(name: &[u8]) -> Option<Kind>
        ensures { IsNamed name.now result }
    {
        if name == b"date-time".as_slice() {
            Some(Kind::DateTime)
        } else if name == b"year-month".as_slice() {
            Some(Kind::YearMonth)
        } else if name == b"month-day".as_slice() {
            Some(Kind::MonthDay)
        } else if name == b"time".as_slice() {
            Some(Kind::Time)
        } else if name == b"offset".as_slice() {
            Some(Kind::Offset)
        } else if name == b"zone".as_slice() {
            Some(Kind::Zone)
        } else if name == b"zone-name".as_slice() {
            Some(Kind::ZoneName)
        } else if name == b"duration".as_slice() {
            Some(Kind::Duration)
        } else if name == b"rfc3339".as_slice() {
            Some(Kind::Rfc3339)
        } else if name == b"iana".as_slice() {
            Some(Kind::Iana)
        } else if name == b"rfc9557".as_slice() {
            Some(Kind::Rfc9557)
        } else {
            None
        }
    }

    /// Returns whether the kind is `Kind::DateTime`. Most texts are of this kind.
    #[inline(always)]
    pub fn is_date_time(self) -> bool
        ensures yes { result ≡ true → self ≡ Kind.DateTime }
        ensures no { result ≡ false → self ≢ Kind.DateTime }
    {
        self == Kind::DateTime
    }

    /// Returns whether a text of the kind can have a time, and an offset after it.
    pub fn has_offset(self) -> bool
        ensures { result ≡ has_offset self }
    {
        match self {
            Kind::DateTime | Kind::Time | Kind::Rfc3339 | Kind::Rfc9557 => true,
            Kind::YearMonth
            | Kind::MonthDay
            | Kind::Offset
            | Kind::Zone
            | Kind::ZoneName
            | Kind::Duration
            | Kind::Iana => false,
        }
    }
}

/// A kind whose texts can name an instant.
#[derive(Clone, Copy, Debug, PartialEq)]
pub enum InstantKind {
    /// `date-time`: see `Kind::DateTime`.
    DateTime,
    /// `rfc3339`: see `Kind::Rfc3339`.
    Rfc3339,
    /// `rfc9557`: see `Kind::Rfc9557`.
    Rfc9557,
}

impl InstantKind {
    /// Converts the kind into an `InstantKind`. Returns `None` if no text of the kind can name an instant.
    pub fn of(kind: Kind) -> Option<InstantKind>
        ensures { result ≡ instant_kind kind }
    {
        match kind {
            Kind::DateTime => Some(InstantKind::DateTime),
            Kind::Rfc3339 => Some(InstantKind::Rfc3339),
            Kind::Rfc9557 => Some(InstantKind::Rfc9557),
            Kind::YearMonth
            | Kind::MonthDay
            | Kind::Time
            | Kind::Offset
            | Kind::Zone
            | Kind::ZoneName
            | Kind::Duration
            | Kind::Iana => None,
        }
    }
}
