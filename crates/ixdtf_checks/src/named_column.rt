//! Finds the field that has a given name in the first line of a file.
ghost use Rattle.std.specs.Prelude.{◌≡◌, ◌≢◌, ◌≤◌, ℕ, true, false, length, IfOk, IfErr, MatchOption};
ghost use Rattle.ixdtf_checks.specs.Columns.{AreFound, HasNoColumn, HasNoRecordColumn, IsColumn, IsNamedIn, IsRecordColumn, TellsOneField, cell_text, found_with};
ghost use Rattle.ixdtf_checks.specs.Csv.{Cell, IsBad, IsCell, IsRecord, spelled};
ghost use Rattle.ixdtf_checks.specs.declared.csv.Broken.{Broken};
ghost use Rattle.ixdtf_checks.specs.Parts.{line_in};

use crate::csv::{Ending, first_ending, part_in};
use crate::line_part::{front_field, line_in};
use crate::verdict::LINE_LIMIT;
use ixdtf_buffers::place::place_of;

/// The reason why `column_named` or `column_in_record` returns an error.
#[derive(Clone, Copy, Debug, PartialEq)]
pub enum ColumnError {
    /// The line is too long. Or no field has the name, and the line is empty or has a separator.
    Missing,
    /// No field has the name. The line is not empty and has no separator, so the complete line is one field.
    NoSeparator,
    /// Two or more fields have the name.
    Twice,
    /// The line is no record of RFC 4180.
    NoRecord,
}

impl ColumnError {
    /// Returns the message for the user: what was expected, and what was found.
    pub fn message(self) -> &'static str {
        match self {
            ColumnError::Missing => {
                "expected a field with this name in the first line, but no field there has it"
            }
            ColumnError::NoSeparator => {
                "expected a field with this name in the first line, but that line has only one field; --separator C says which byte separates fields"
            }
            ColumnError::Twice => {
                "expected one field with this name in the first line, but two fields there have it"
            }
            ColumnError::NoRecord => {
                "expected names in the first line, but a quote there is not closed, or is at a wrong place"
            }
        }
    }
}

/// Which of the fields so far have the name.
#[derive(Clone, Copy)]
enum Found {
    /// No field has it.
    Nothing,
    /// Only the field that has this number of fields before it.
    One(usize),
    /// At least two fields have it.
    Several,
}

/// Returns the number of fields before the field that has this name in the first line of a file.
///
/// # Errors
///
/// - `ColumnError::Missing`: no field of the line has the name, and the line is empty or has a separator.
/// - `ColumnError::NoSeparator`: no field of the line has the name, and the line is not empty and has no separator.
/// - `ColumnError::Twice`: two or more fields of the line have the name.
pub fn column_named(separator: u8, name: &[u8], first: &[u8]) -> Result<usize, ColumnError>
    ensures ok { IfOk result (λ before. IsColumn separator name.now (line_in true first.now) before) }
    ensures err { IfErr result (λ error. HasNoColumn error separator name.now (line_in true first.now)) }
{
    let line = line_in(true, first);
    let mut found = Found::Nothing;
    let mut start = 0;
    let mut before = 0;
    'fields: while let Some(place) = place_of(separator, &line[start..]) {
        let is_named = is_named(front_field(separator, &line[start..]), name);
        found = found_with(found, before, is_named);
        start += place + 1;
        before += 1;
    }
    let is_named = is_named(front_field(separator, &line[start..]), name);
    match found_with(found, before, is_named) {
        Found::Nothing => Err(missing_in(separator, line)),
        Found::One(column) => Ok(column),
        Found::Several => Err(ColumnError::Twice),
    }
}

/// Returns the number of fields before the field that has this name in the first line of a file. The line must be a record of
/// RFC 4180, in which some fields may be in quotes. `unquoted` is a buffer for the texts of these fields.
///
/// # Errors
///
/// - `ColumnError::Missing`: the line is too long. This is also the error if no field of the line has the name, and the line is
///   empty or has a separator.
/// - `ColumnError::NoSeparator`: no field of the line has the name, and the line is not empty and has no separator.
/// - `ColumnError::Twice`: two or more fields of the line have the name.
/// - `ColumnError::NoRecord`: the line is no record.
pub fn column_in_record(
    separator: u8,
    name: &[u8],
    first: &[u8],
    unquoted: &mut [u8; LINE_LIMIT],
) -> Result<usize, ColumnError>
    ensures ok { IfOk result (λ before. IsRecordColumn separator name.now (line_in true first.now) before) }
    ensures err { IfErr result (λ error. HasNoRecordColumn error separator name.now (line_in true first.now)) }
{
    let line = line_in(true, first);
    if line.len() > LINE_LIMIT {
        return Err(ColumnError::Missing);
    }
    match found_in_record(separator, name, line, unquoted) {
        None => Err(ColumnError::NoRecord),
        Some(Found::Nothing) => Err(missing_in(separator, line)),
        Some(Found::One(column)) => Ok(column),
        Some(Found::Several) => Err(ColumnError::Twice),
    }
}

/// Returns which fields of the line have the name. Returns `None` if the line is no record of RFC 4180.
fn found_in_record(
    separator: u8,
    name: &[u8],
    line: &[u8],
    unquoted: &mut [u8; LINE_LIMIT],
) -> Option<Found>
    requires { length line.now ≤ 65536 }
    ensures { MatchOption result ((broken : Broken) × IsBad separator line.now broken)
        (λ found. (is : IsRecord separator line.now) × AreFound (IsNamedIn is name.now) found) }
{
    let mut found = Found::Nothing;
    let mut start = 0;
    'fields: for before in 0..=line.len() {
        match first_ending(separator, &line[start..]) {
            Ending::Bad(_) => return None,
            Ending::Last => {
                let is_named = is_cell_named(&line[start..], name, unquoted);
                return Some(found_with(found, before, is_named));
            }
            Ending::At(place) => {
                let is_named = is_cell_named(&line[start..start + place], name, unquoted);
                found = found_with(found, before, is_named);
                start += place + 1;
            }
        }
    }
    None
}

/// Returns whether the field of a record has the name. `bytes` are the bytes of the field in the line, with the quotes around it if
/// there are any.
fn is_cell_named(bytes: &[u8], name: &[u8], unquoted: &mut [u8; LINE_LIMIT]) -> bool
    requires { length bytes.now ≤ 65536 }
    ensures yes { (separator : ℕ) (cell : Cell) → IsCell separator cell → bytes.now ≡ spelled cell → result ≡ true → cell_text cell ≡ name.now }
    ensures no { (separator : ℕ) (cell : Cell) → IsCell separator cell → bytes.now ≡ spelled cell → result ≡ false → cell_text cell ≢ name.now }
{
    is_named(part_in(0, bytes, unquoted).text, name)
}

/// Returns the error about a line in which no field has the name. A line that is not empty and has no separator has an error of its
/// own, because the user has probably forgotten `--separator`.
fn missing_in(separator: u8, line: &[u8]) -> ColumnError
    ensures { TellsOneField result separator line.now }
{
    match place_of(separator, line) {
        None if !line.is_empty() => ColumnError::NoSeparator,
        Some(_) | None => ColumnError::Missing,
    }
}

/// Returns whether the field has the name.
fn is_named(field: &[u8], name: &[u8]) -> bool
    ensures yes { result ≡ true → field.now ≡ name.now }
    ensures no { result ≡ false → field.now ≢ name.now }
{
    field == name
}

/// Returns which fields have the name if one more field is looked at. `found` is this result for the fields before the present
/// field, and `before` is the number of these fields. `is_named` says whether the present field has the name.
fn found_with(found: Found, before: usize, is_named: bool) -> Found
    ensures { result ≡ found_with found before is_named }
{
    match (found, is_named) {
        (_, false) => found,
        (Found::Nothing, true) => Found::One(before),
        (Found::One(_) | Found::Several, true) => Found::Several,
    }
}
