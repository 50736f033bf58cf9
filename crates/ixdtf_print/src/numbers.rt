//! Functions that write a number into a slice, and a function that counts the digits of a number. A number is written
//! without leading zeros. Only the last eight digits of a longer number can begin with zeros.
ghost use Rattle.std.specs.Prelude.{◌≡◌, ◌<◌, ◌≤◌, length};
ghost use Rattle.ixdtf.specs.language.Digits.{padded_digits};
ghost use Rattle.ixdtf_print.specs.Durations.{number_text};
ghost use Rattle.ixdtf_print.specs.Prints.{HasRoom, Prints};

use crate::digits::{next_pair, ones_digit, put_four, tens_digit};
use crate::put::{put, put_byte};

/// Returns the number of digits of the number, without leading zeros.
///
/// The function computes a logarithm only if the number has more than one digit.
#[inline(always)]
pub fn digit_count(number: u64) -> u16
    ensures length { result ≡ length (number_text number) }
    ensures small { result ≤ 20 }
{
    if number < 10 {
        return 1;
    }
    number.ilog10() as u16 + 1
}

/// Writes the number without leading zeros at index `at`. Returns the index after it.
///
/// Most numbers are small, so numbers below 10,000 are tested first. The function is not inlined. With a copy of it for
/// each duration unit, the printer of durations would take more instructions.
#[inline(never)]
pub fn put_number(out: &mut [u8], at: usize, number: u64) -> usize
    requires { HasRoom out.old at (number_text number) }
    ensures { Prints out.old out.new at result (number_text number) }
{
    if number < 10_000 {
        return put_below_10_000(out, at, number);
    }
    put_long(out, at, number)
}

/// Writes any number at index `at`, eight digits at a time. Returns the index after it.
#[inline(never)]
fn put_long(out: &mut [u8], at: usize, number: u64) -> usize
    requires { HasRoom out.old at (number_text number) }
    ensures { Prints out.old out.new at result (number_text number) }
{
    if number < 100_000_000 {
        return put_below_100_000_000(out, at, number);
    }
    if number < 10_000_000_000_000_000 {
        return put_two_parts(out, at, number);
    }
    put_three_parts(out, at, number)
}

/// Writes a number of 9 to 16 digits at index `at`. Returns the index after it.
fn put_two_parts(out: &mut [u8], at: usize, number: u64) -> usize
    requires room { HasRoom out.old at (number_text number) }
    requires great { 100000000 ≤ number }
    requires small { number < 10000000000000000 }
    ensures { Prints out.old out.new at result (number_text number) }
{
    let last = put_below_100_000_000(out, at, number / 100_000_000);
    put_eight(out, last, number % 100_000_000)
}

/// Writes a number of at least 17 digits at index `at`. Returns the index after it.
///
/// The function is not inlined. Otherwise `put_long` would save more registers, also for smaller numbers.
#[inline(never)]
fn put_three_parts(out: &mut [u8], at: usize, number: u64) -> usize
    requires room { HasRoom out.old at (number_text number) }
    requires great { 10000000000000000 ≤ number }
    ensures { Prints out.old out.new at result (number_text number) }
{
    let middle = put_below_10_000(out, at, number / 10_000_000_000_000_000);
    let rest = number % 10_000_000_000_000_000;
    let last = put_eight(out, middle, rest / 100_000_000);
    put_eight(out, last, rest % 100_000_000)
}

/// Writes a number below 100,000,000 as eight digits, with leading zeros, at index `at`. Returns the index after them. The
/// digits are the last eight digits of a longer number.
///
/// The number is multiplied by `2^32 / 1,000,000`, rounded up.
fn put_eight(out: &mut [u8], at: usize, number: u64) -> usize
    requires room { HasRoom out.old at (padded_digits 8 number) }
    requires small { number < 100000000 }
    ensures { Prints out.old out.new at result (padded_digits 8 number) }
{
    let (first, rest) = next_pair(number * 281_474_977 / 65_536 + 1);
    let (second, rest) = next_pair(rest);
    let (third, rest) = next_pair(rest);
    let (fourth, _) = next_pair(rest);
    put(
        out,
        at,
        &[
            tens_digit(first),
            ones_digit(first),
            tens_digit(second),
            ones_digit(second),
            tens_digit(third),
            ones_digit(third),
            tens_digit(fourth),
            ones_digit(fourth),
        ],
    )
}

/// Writes a number of at most eight digits at index `at`. Returns the index after it.
#[inline(always)]
fn put_below_100_000_000(out: &mut [u8], at: usize, number: u64) -> usize
    requires room { HasRoom out.old at (number_text number) }
    requires small { number < 100000000 }
    ensures { Prints out.old out.new at result (number_text number) }
{
    if number < 10_000 {
        return put_below_10_000(out, at, number);
    }
    let last = put_below_10_000(out, at, number / 10_000);
    put_four(out, last, number % 10_000)
}

/// Writes a number of at most four digits at index `at`. Returns the index after it.
#[inline(always)]
fn put_below_10_000(out: &mut [u8], at: usize, number: u64) -> usize
    requires room { HasRoom out.old at (number_text number) }
    requires small { number < 10000 }
    ensures { Prints out.old out.new at result (number_text number) }
{
    if number < 100 {
        return put_below_100(out, at, number as u8);
    }
    if number >= 1000 {
        return put_four(out, at, number);
    }
    let rest = (number % 100) as u8;
    let last = put_byte(out, at, ones_digit((number / 100) as u8));
    put(out, last, &[tens_digit(rest), ones_digit(rest)])
}

/// Writes a number of one or two digits at index `at`. Returns the index after it.
#[inline(always)]
fn put_below_100(out: &mut [u8], at: usize, number: u8) -> usize
    requires room { HasRoom out.old at (number_text number) }
    requires small { number < 100 }
    ensures { Prints out.old out.new at result (number_text number) }
{
    if number < 10 {
        return put_byte(out, at, ones_digit(number));
    }
    put(out, at, &[tens_digit(number), ones_digit(number)])
}
