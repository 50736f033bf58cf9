//! The profile of a parser.

ghost use Rattle.std.specs.Prelude.{◌≡◌};
ghost use Rattle.ixdtf_grammar.specs.language.Months.{least_day};
ghost use Rattle.ixdtf_grammar.specs.language.Durations.{least_step};

/// The rules of a parser: the rules of `ixdtf` 0.6.7 of ICU4X, or stricter rules for month-days and for durations.
///
/// A month-day is a month and a day without a year. A new parser has [`Profile::Crate`]. For dates, year-months, offsets
/// and zones, both profiles have the same rules.
///
/// # Examples
///
/// ```rust
/// use ixdtf::ParseError;
/// use ixdtf::parsers::{IsoDurationParser, IxdtfParser, Profile};
///
/// assert!(IxdtfParser::from_str("11-00").parse_month_day().is_ok());
/// let mut strict = IxdtfParser::from_str("11-00").with_profile(Profile::Strict);
/// assert_eq!(strict.parse_month_day(), Err(ParseError::InvalidMonthDay));
///
/// let time = IxdtfParser::from_str("1200").parse_time();
/// assert_eq!(time, Err(ParseError::AmbiguousTimeMonthDay));
/// assert!(IxdtfParser::from_str("1200").with_profile(Profile::Strict).parse_time().is_ok());
///
/// assert!(IsoDurationParser::from_str("P1Y2Y").parse().is_ok());
/// assert!(IsoDurationParser::from_str("P1Y2Y").with_profile(Profile::Strict).parse().is_err());
/// ```
#[derive(Clone, Copy, Debug, PartialEq)]
pub enum Profile {
    /// The rules of `ixdtf` 0.6.7 of ICU4X: a month-day may have the day 0, and a unit of a duration may be repeated.
    Crate,
    /// Stricter rules: the day of a month-day must be at least 1, and each unit of a duration must be shorter than the unit
    /// before it. Under this profile, `parse_time` accepts some texts that are ambiguous under [`Profile::Crate`], such as
    /// `1200`.
    Strict,
}

impl Profile {
    /// Returns the smallest day that a month-day can have: 0 for `Crate`, and 1 for `Strict`.
    #[inline(always)]
    #[doc(hidden)]
    pub fn least_day(self) -> u8
        ensures { result ≡ least_day self }
    {
        match self {
            Profile::Crate => 0,
            Profile::Strict => 1,
        }
    }

    /// Returns 1 if each duration unit must be shorter than the unit directly before it, and 0 if a unit may also be
    /// repeated.
    ///
    /// Each duration unit has a *rank*. In each part of a duration, the longest unit has the rank 1, the next shorter
    /// unit has the rank 2, and so on. If a unit has the rank `r`, the unit directly after it must have at least the rank
    /// `r + least_step()`.
    #[inline(always)]
    #[doc(hidden)]
    pub fn least_step(self) -> u8
        ensures { result ≡ least_step self }
    {
        match self {
            Profile::Crate => 0,
            Profile::Strict => 1,
        }
    }
}
