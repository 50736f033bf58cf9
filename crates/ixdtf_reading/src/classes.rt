//! Classes of characters, and the values of digits.

ghost use Rattle.std.specs.Prelude.{◌≡◌, ◌+◌, ◌<◌, ◌≤◌, ◌∷◌, [], IsTrue, IsFalse};
ghost use Rattle.ixdtf_grammar.specs.language.Letters.{digit, sign, hyphen, colon, decimal_mark, date_time_separator, time_letter, duration_designator, zulu};
ghost use Rattle.ixdtf_grammar.specs.language.Letters.{opening, closing, exclamation, equals, slash, zone_lead, zone_char, key_lead, key_char, value_char};
ghost use Rattle.ixdtf_grammar.specs.language.Letters.Letter.{Plain};
ghost use Rattle.ixdtf_grammar.specs.language.Digits.{decimal};
ghost use Rattle.ixdtf_reading.specs.reading.FixedPlaces.{tens_value, ones_value};

// Each class has one bit. There are three classes of the characters that a key, the name of a zone and a value can
// contain. Two other classes have the characters with which a key and the name of a zone can begin.
const KEY_CHAR: u8 = 1;

const TZ_CHAR: u8 = 2;

const VALUE_CHAR: u8 = 4;

const KEY_LEAD: u8 = 8;

const TZ_LEAD: u8 = 16;

// The classes of each byte, as bits.
#[rattlefmt::skip]
static CLASSES: [u8; 256] = [
    0, 0, 0, 0, 0, 0, 0, 0, 0, 0, 0, 0, 0, 0, 0, 0,
    0, 0, 0, 0, 0, 0, 0, 0, 0, 0, 0, 0, 0, 0, 0, 0,
    0, 0, 0, 0, 0, 0, 0, 0, 0, 0, 0, 2, 0, 3, 18, 0,
    7, 7, 7, 7, 7, 7, 7, 7, 7, 7, 0, 0, 0, 0, 0, 0,
    0, 22, 22, 22, 22, 22, 22, 22, 22, 22, 22, 22, 22, 22, 22, 22,
    22, 22, 22, 22, 22, 22, 22, 22, 22, 22, 22, 0, 0, 0, 0, 27,
    0, 31, 31, 31, 31, 31, 31, 31, 31, 31, 31, 31, 31, 31, 31, 31,
    31, 31, 31, 31, 31, 31, 31, 31, 31, 31, 31, 0, 0, 0, 0, 0,
    0, 0, 0, 0, 0, 0, 0, 0, 0, 0, 0, 0, 0, 0, 0, 0,
    0, 0, 0, 0, 0, 0, 0, 0, 0, 0, 0, 0, 0, 0, 0, 0,
    0, 0, 0, 0, 0, 0, 0, 0, 0, 0, 0, 0, 0, 0, 0, 0,
    0, 0, 0, 0, 0, 0, 0, 0, 0, 0, 0, 0, 0, 0, 0, 0,
    0, 0, 0, 0, 0, 0, 0, 0, 0, 0, 0, 0, 0, 0, 0, 0,
    0, 0, 0, 0, 0, 0, 0, 0, 0, 0, 0, 0, 0, 0, 0, 0,
    0, 0, 0, 0, 0, 0, 0, 0, 0, 0, 0, 0, 0, 0, 0, 0,
    0, 0, 0, 0, 0, 0, 0, 0, 0, 0, 0, 0, 0, 0, 0, 0,
];

// For each byte, `tens` has ten times its value as a digit, and `ones` has its value. For a byte that is not a digit,
// both have 100. Both are in one static variable, so that the code needs only one address.
struct DigitValues {
    tens: [u8; 256],
    ones: [u8; 256],
}

#[rattlefmt::skip]
static DIGIT_VALUES: DigitValues = DigitValues {
    tens: [
        100, 100, 100, 100, 100, 100, 100, 100, 100, 100, 100, 100, 100, 100, 100, 100,
        100, 100, 100, 100, 100, 100, 100, 100, 100, 100, 100, 100, 100, 100, 100, 100,
        100, 100, 100, 100, 100, 100, 100, 100, 100, 100, 100, 100, 100, 100, 100, 100,
        0, 10, 20, 30, 40, 50, 60, 70, 80, 90, 100, 100, 100, 100, 100, 100,
        100, 100, 100, 100, 100, 100, 100, 100, 100, 100, 100, 100, 100, 100, 100, 100,
        100, 100, 100, 100, 100, 100, 100, 100, 100, 100, 100, 100, 100, 100, 100, 100,
        100, 100, 100, 100, 100, 100, 100, 100, 100, 100, 100, 100, 100, 100, 100, 100,
        100, 100, 100, 100, 100, 100, 100, 100, 100, 100, 100, 100, 100, 100, 100, 100,
        100, 100, 100, 100, 100, 100, 100, 100, 100, 100, 100, 100, 100, 100, 100, 100,
        100, 100, 100, 100, 100, 100, 100, 100, 100, 100, 100, 100, 100, 100, 100, 100,
        100, 100, 100, 100, 100, 100, 100, 100, 100, 100, 100, 100, 100, 100, 100, 100,
        100, 100, 100, 100, 100, 100, 100, 100, 100, 100, 100, 100, 100, 100, 100, 100,
        100, 100, 100, 100, 100, 100, 100, 100, 100, 100, 100, 100, 100, 100, 100, 100,
        100, 100, 100, 100, 100, 100, 100, 100, 100, 100, 100, 100, 100, 100, 100, 100,
        100, 100, 100, 100, 100, 100, 100, 100, 100, 100, 100, 100, 100, 100, 100, 100,
        100, 100, 100, 100, 100, 100, 100, 100, 100, 100, 100, 100, 100, 100, 100, 100,
    ],
    ones: [
        100, 100, 100, 100, 100, 100, 100, 100, 100, 100, 100, 100, 100, 100, 100, 100,
        100, 100, 100, 100, 100, 100, 100, 100, 100, 100, 100, 100, 100, 100, 100, 100,
        100, 100, 100, 100, 100, 100, 100, 100, 100, 100, 100, 100, 100, 100, 100, 100,
        0, 1, 2, 3, 4, 5, 6, 7, 8, 9, 100, 100, 100, 100, 100, 100,
        100, 100, 100, 100, 100, 100, 100, 100, 100, 100, 100, 100, 100, 100, 100, 100,
        100, 100, 100, 100, 100, 100, 100, 100, 100, 100, 100, 100, 100, 100, 100, 100,
        100, 100, 100, 100, 100, 100, 100, 100, 100, 100, 100, 100, 100, 100, 100, 100,
        100, 100, 100, 100, 100, 100, 100, 100, 100, 100, 100, 100, 100, 100, 100, 100,
        100, 100, 100, 100, 100, 100, 100, 100, 100, 100, 100, 100, 100, 100, 100, 100,
        100, 100, 100, 100, 100, 100, 100, 100, 100, 100, 100, 100, 100, 100, 100, 100,
        100, 100, 100, 100, 100, 100, 100, 100, 100, 100, 100, 100, 100, 100, 100, 100,
        100, 100, 100, 100, 100, 100, 100, 100, 100, 100, 100, 100, 100, 100, 100, 100,
        100, 100, 100, 100, 100, 100, 100, 100, 100, 100, 100, 100, 100, 100, 100, 100,
        100, 100, 100, 100, 100, 100, 100, 100, 100, 100, 100, 100, 100, 100, 100, 100,
        100, 100, 100, 100, 100, 100, 100, 100, 100, 100, 100, 100, 100, 100, 100, 100,
        100, 100, 100, 100, 100, 100, 100, 100, 100, 100, 100, 100, 100, 100, 100, 100,
    ],
};

/// Returns whether the byte is `+` or `-`.
#[inline(always)]
pub fn is_ascii_sign(byte: u8) -> bool
    ensures { result ≡ sign byte }
{
    byte == b'+' || byte == b'-'
}

/// Returns whether the byte is `-`.
#[inline(always)]
pub fn is_hyphen(byte: u8) -> bool
    ensures { result ≡ hyphen byte }
{
    byte == b'-'
}

/// Returns whether the byte is `:`.
#[inline(always)]
pub fn is_time_separator(byte: u8) -> bool
    ensures { result ≡ colon byte }
{
    byte == b':'
}

/// Returns whether the byte is `.` or `,`.
#[inline(always)]
pub fn is_decimal_separator(byte: u8) -> bool
    ensures { result ≡ decimal_mark byte }
{
    byte == b'.' || byte == b','
}

/// Returns whether the byte is `T`, `t` or a space.
#[inline(always)]
pub fn is_date_time_separator(byte: u8) -> bool
    ensures { result ≡ date_time_separator byte }
{
    byte == b'T' || byte == b't' || byte == b' '
}

/// Returns whether the byte is `T` or `t`.
#[inline(always)]
pub fn is_time_designator(byte: u8) -> bool
    ensures { result ≡ time_letter byte }
{
    byte == b'T' || byte == b't'
}

/// Returns whether the byte is `P` or `p`.
#[inline(always)]
pub fn is_duration_designator(byte: u8) -> bool
    ensures { result ≡ duration_designator byte }
{
    byte == b'P' || byte == b'p'
}

/// Returns whether the byte is `Z` or `z`.
#[inline(always)]
pub fn is_utc_designator(byte: u8) -> bool
    ensures { result ≡ zulu byte }
{
    byte == b'Z' || byte == b'z'
}

/// Returns whether the byte is `[`.
#[inline(always)]
pub fn is_annotation_open(byte: u8) -> bool
    ensures { result ≡ opening byte }
{
    byte == b'['
}

/// Returns whether the byte is `]`.
#[inline(always)]
pub fn is_annotation_close(byte: u8) -> bool
    ensures { result ≡ closing byte }
{
    byte == b']'
}

/// Returns whether the byte is `!`.
#[inline(always)]
pub fn is_critical_flag(byte: u8) -> bool
    ensures { result ≡ exclamation byte }
{
    byte == b'!'
}

/// Returns whether the byte is `=`.
#[inline(always)]
pub fn is_annotation_key_value_separator(byte: u8) -> bool
    ensures { result ≡ equals byte }
{
    byte == b'='
}

/// Returns whether the byte is `/`.
#[inline(always)]
pub fn is_tz_name_separator(byte: u8) -> bool
    ensures { result ≡ slash byte }
{
    byte == b'/'
}

/// Returns whether the name of a zone can begin with the byte: an ASCII letter, `_` or `.`.
#[inline(always)]
pub fn is_tz_leading_char(byte: u8) -> bool
    ensures { result ≡ zone_lead byte }
{
    CLASSES[byte as usize] & TZ_LEAD != 0
}

/// Returns whether the name of a zone can contain the byte: an ASCII letter, `_`, `.`, a digit, `+` or `-`.
#[inline(always)]
pub fn is_tz_char(byte: u8) -> bool
    ensures { result ≡ zone_char byte }
{
    CLASSES[byte as usize] & TZ_CHAR != 0
}

/// Returns whether a key can begin with the byte: a lowercase ASCII letter or `_`.
#[inline(always)]
pub fn is_a_key_leading_char(byte: u8) -> bool
    ensures { result ≡ key_lead byte }
{
    CLASSES[byte as usize] & KEY_LEAD != 0
}

/// Returns whether a key can contain the byte: a lowercase ASCII letter, `_`, a digit or `-`.
#[inline(always)]
pub fn is_a_key_char(byte: u8) -> bool
    ensures { result ≡ key_char byte }
{
    CLASSES[byte as usize] & KEY_CHAR != 0
}

/// Returns whether a component of a value can contain the byte: an ASCII letter or a digit.
#[inline(always)]
pub fn is_annotation_value_component(byte: u8) -> bool
    ensures { result ≡ value_char byte }
{
    CLASSES[byte as usize] & VALUE_CHAR != 0
}

/// Returns the number that two digits form, 0 to 99. Returns at least 100 if one of the bytes is not a digit.
#[inline(always)]
pub fn two_digit_number(tens: u8, ones: u8) -> u8
    ensures value { result ≡ tens_value tens + ones_value ones }
    ensures number { IsTrue (digit tens) → IsTrue (digit ones) → result ≡ decimal (Plain tens ∷ Plain ones ∷ []) }
    ensures digits { result ≤ 99 → IsTrue (digit tens) × IsTrue (digit ones) }
    ensures other { 99 < result → IsTrue (digit tens) → IsFalse (digit ones) }
{
    tens_of(tens) + ones_of(ones)
}

/// Returns ten times the value of a digit, or 100 for any other byte.
#[inline(always)]
fn tens_of(byte: u8) -> u8
    ensures value { result ≡ tens_value byte }
    ensures small { result ≤ 100 }
{
    DIGIT_VALUES.tens[byte as usize]
}

/// Returns the value of a digit, or 100 for any other byte.
#[inline(always)]
fn ones_of(byte: u8) -> u8
    ensures value { result ≡ ones_value byte }
    ensures small { result ≤ 100 }
{
    DIGIT_VALUES.ones[byte as usize]
}
