//! The options of the program `ixdtf_check`: their names, and what each of them means.
ghost use Rattle.std.specs.Prelude.{◌≡◌};
ghost use Rattle.ixdtf_checks.specs.Arguments.{IsOption, meaning_of};

use crate::option_value::{Setting, Valued};

/// An option that the program knows, by its name.
#[derive(Clone, Copy, Debug, PartialEq)]
pub enum OptionName {
    Kind,
    Strict,
    Ordered,
    Field,
    Fields,
    Csv,
    Separator,
    Header,
    SkipBlank,
    Comment,
    Canonical,
    MaxReports,
    Format,
    Color,
    Quiet,
    Help,
    /// `-h`, which means the same as `--help`.
    HelpLetter,
    Version,
    /// `-V`, which means the same as `--version`.
    VersionLetter,
    /// `--`: each word after it is the name of a file.
    Files,
}

impl OptionName {
    /// Returns the option with this name. Returns `None` if there is no such option.
    pub fn named(name: &[u8]) -> Option<OptionName>
        ensures { IsOption name.now result }
    {
        if name == b"--kind".as_slice() {
            Some(OptionName::Kind)
        } else if name == b"--strict".as_slice() {
            Some(OptionName::Strict)
        } else if name == b"--ordered".as_slice() {
            Some(OptionName::Ordered)
        } else if name == b"--field".as_slice() {
            Some(OptionName::Field)
        } else if name == b"--fields".as_slice() {
            Some(OptionName::Fields)
        } else if name == b"--csv".as_slice() {
            Some(OptionName::Csv)
        } else if name == b"--separator".as_slice() {
            Some(OptionName::Separator)
        } else if name == b"--header".as_slice() {
            Some(OptionName::Header)
        } else if name == b"--skip-blank".as_slice() {
            Some(OptionName::SkipBlank)
        } else if name == b"--comment".as_slice() {
            Some(OptionName::Comment)
        } else if name == b"--canonical".as_slice() {
            Some(OptionName::Canonical)
        } else if name == b"--max-reports".as_slice() {
            Some(OptionName::MaxReports)
        } else if name == b"--format".as_slice() {
            Some(OptionName::Format)
        } else if name == b"--color".as_slice() {
            Some(OptionName::Color)
        } else if name == b"--quiet".as_slice() {
            Some(OptionName::Quiet)
        } else if name == b"--help".as_slice() {
            Some(OptionName::Help)
        } else if name == b"-h".as_slice() {
            Some(OptionName::HelpLetter)
        } else if name == b"--version".as_slice() {
            Some(OptionName::Version)
        } else if name == b"-V".as_slice() {
            Some(OptionName::VersionLetter)
        } else if name == b"--".as_slice() {
            Some(OptionName::Files)
        } else {
            None
        }
    }

    /// Returns what the option means.
    pub fn meaning(self) -> Meaning
        ensures { result ≡ meaning_of self }
    {
        match self {
            OptionName::Kind => Meaning::Takes(Valued::Kind),
            OptionName::Strict => Meaning::Sets(Setting::Strict),
            OptionName::Ordered => Meaning::Sets(Setting::Ordered),
            OptionName::Field => Meaning::Takes(Valued::Field),
            OptionName::Fields => Meaning::Takes(Valued::Fields),
            OptionName::Csv => Meaning::Sets(Setting::Csv),
            OptionName::Separator => Meaning::Takes(Valued::Separator),
            OptionName::Header => Meaning::Sets(Setting::Header),
            OptionName::SkipBlank => Meaning::Sets(Setting::SkipBlank),
            OptionName::Comment => Meaning::Takes(Valued::Comment),
            OptionName::Canonical => Meaning::Sets(Setting::Canonical),
            OptionName::MaxReports => Meaning::Takes(Valued::MaxReports),
            OptionName::Format => Meaning::Takes(Valued::Format),
            OptionName::Color => Meaning::Takes(Valued::Color),
            OptionName::Quiet => Meaning::Sets(Setting::Quiet),
            OptionName::Help | OptionName::HelpLetter => Meaning::Help,
            OptionName::Version | OptionName::VersionLetter => Meaning::Version,
            OptionName::Files => Meaning::Files,
        }
    }
}

/// What an option means.
#[derive(Clone, Copy, Debug, PartialEq)]
pub enum Meaning {
    /// The user asks for the usage.
    Help,
    /// The user asks for the version.
    Version,
    /// Each word after the option is the name of a file.
    Files,
    /// The option has no value, and means this setting.
    Sets(Setting),
    /// The option has a value, which is a part of the same word or the next word.
    Takes(Valued),
}
