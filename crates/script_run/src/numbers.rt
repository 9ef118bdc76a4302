//! Numbers as a script writes them.

ghost use Rattle.std.specs.Prelude.{◌≡◌, ◌<◌, ◌≤◌, IfSome, IfNone, true, false, length, slice_index, take};
ghost use Rattle.std.specs.Char.{digit_value};
ghost use Rattle.std.specs.List.{position_or_len};
ghost use Rattle.std.specs.Option.{option_map};
ghost use Rattle.script_run.specs.Numbers.{number_written, below, decimal_number, hexadecimal_number};
ghost use Rattle.script_run.specs.Operands.{IsWorth, first_by, worth};
ghost use Rattle.script_run.specs.Tokens.{is_space, tokens_of};

use super::tokens::{ends_at, first_token, trimmed};

/// What each byte is worth as a digit, a letter of either case behind the nine; 36 where it is neither.
const DIGITS: [u8; 256] = [
    36, 36, 36, 36, 36, 36, 36, 36, 36, 36, 36, 36, 36, 36, 36, 36, 36, 36, 36, 36, 36, 36, 36, 36,
    36, 36, 36, 36, 36, 36, 36, 36, 36, 36, 36, 36, 36, 36, 36, 36, 36, 36, 36, 36, 36, 36, 36, 36,
    0, 1, 2, 3, 4, 5, 6, 7, 8, 9, 36, 36, 36, 36, 36, 36, 36, 10, 11, 12, 13, 14, 15, 16, 17, 18,
    19, 20, 21, 22, 23, 24, 25, 26, 27, 28, 29, 30, 31, 32, 33, 34, 35, 36, 36, 36, 36, 36, 36, 10,
    11, 12, 13, 14, 15, 16, 17, 18, 19, 20, 21, 22, 23, 24, 25, 26, 27, 28, 29, 30, 31, 32, 33, 34,
    35, 36, 36, 36, 36, 36, 36, 36, 36, 36, 36, 36, 36, 36, 36, 36, 36, 36, 36, 36, 36, 36, 36, 36,
    36, 36, 36, 36, 36, 36, 36, 36, 36, 36, 36, 36, 36, 36, 36, 36, 36, 36, 36, 36, 36, 36, 36, 36,
    36, 36, 36, 36, 36, 36, 36, 36, 36, 36, 36, 36, 36, 36, 36, 36, 36, 36, 36, 36, 36, 36, 36, 36,
    36, 36, 36, 36, 36, 36, 36, 36, 36, 36, 36, 36, 36, 36, 36, 36, 36, 36, 36, 36, 36, 36, 36, 36,
    36, 36, 36, 36, 36, 36, 36, 36, 36, 36, 36, 36, 36, 36, 36, 36, 36, 36, 36, 36, 36, 36, 36, 36,
    36, 36, 36, 36, 36, 36, 36, 36, 36, 36, 36, 36, 36, 36,
];

/// More than eight hexadecimal digits are worth.
const NONE: u64 = 4_294_967_296;

/// What each byte is worth as a hexadecimal digit, of either case; `NONE` where it is none.
const HEXADECIMAL: [u64; 256] = [
    NONE, NONE, NONE, NONE, NONE, NONE, NONE, NONE, NONE, NONE, NONE, NONE, NONE, NONE, NONE, NONE,
    NONE, NONE, NONE, NONE, NONE, NONE, NONE, NONE, NONE, NONE, NONE, NONE, NONE, NONE, NONE, NONE,
    NONE, NONE, NONE, NONE, NONE, NONE, NONE, NONE, NONE, NONE, NONE, NONE, NONE, NONE, NONE, NONE,
    0, 1, 2, 3, 4, 5, 6, 7, 8, 9, NONE, NONE, NONE, NONE, NONE, NONE, NONE, 10, 11, 12, 13, 14, 15,
    NONE, NONE, NONE, NONE, NONE, NONE, NONE, NONE, NONE, NONE, NONE, NONE, NONE, NONE, NONE, NONE,
    NONE, NONE, NONE, NONE, NONE, NONE, NONE, NONE, NONE, NONE, 10, 11, 12, 13, 14, 15, NONE, NONE,
    NONE, NONE, NONE, NONE, NONE, NONE, NONE, NONE, NONE, NONE, NONE, NONE, NONE, NONE, NONE, NONE,
    NONE, NONE, NONE, NONE, NONE, NONE, NONE, NONE, NONE, NONE, NONE, NONE, NONE, NONE, NONE, NONE,
    NONE, NONE, NONE, NONE, NONE, NONE, NONE, NONE, NONE, NONE, NONE, NONE, NONE, NONE, NONE, NONE,
    NONE, NONE, NONE, NONE, NONE, NONE, NONE, NONE, NONE, NONE, NONE, NONE, NONE, NONE, NONE, NONE,
    NONE, NONE, NONE, NONE, NONE, NONE, NONE, NONE, NONE, NONE, NONE, NONE, NONE, NONE, NONE, NONE,
    NONE, NONE, NONE, NONE, NONE, NONE, NONE, NONE, NONE, NONE, NONE, NONE, NONE, NONE, NONE, NONE,
    NONE, NONE, NONE, NONE, NONE, NONE, NONE, NONE, NONE, NONE, NONE, NONE, NONE, NONE, NONE, NONE,
    NONE, NONE, NONE, NONE, NONE, NONE, NONE, NONE, NONE, NONE, NONE, NONE, NONE, NONE, NONE, NONE,
    NONE, NONE, NONE, NONE, NONE, NONE, NONE, NONE, NONE, NONE, NONE, NONE, NONE, NONE, NONE, NONE,
    NONE, NONE, NONE, NONE, NONE, NONE, NONE,
];

/// What a table of 256 bytes has at a byte.
fn look_up(table: &[u8; 256], byte: u8) -> u8
    ensures { result ≡ slice_index table.now byte }
{
    table[byte as usize]
}

/// Returns the value of a byte as a digit, from a table, so that no digit needs a branch.
pub fn digit_of(byte: u8) -> u8
    ensures value { result ≡ digit_value byte }
    ensures bound { result ≤ 36 }
{
    look_up(&DIGITS, byte)
}

/// Returns the number in one to `most` digits of this radix, leading zeros included; None for any other token. It reads
/// all bytes before it checks them, so that no digit needs a branch.
#[tactic(auto, using(crate::proofs::NumberLemmas::number_steps))]
fn number(token: &[u8], radix: u32, most: usize) -> Option<u64>
    requires radix { (2 ≤ radix) × (radix ≤ 16) }
    requires most { most ≤ 10 }
    ensures { result ≡ number_written radix most token.now }
{
    if token.is_empty() || token.len() > most {
        return None;
    }
    let mut value: u64 = 0;
    let mut all_digits = true;
    for byte in token {
        let digit = digit_of(*byte);
        value = value * u64::from(radix) + u64::from(digit);
        all_digits &= u32::from(digit) < radix;
    }
    if all_digits { Some(value) } else { None }
}

/// What a table of 256 numbers has at a byte.
fn number_at(table: &[u64; 256], byte: u8) -> u64
    ensures { result ≡ slice_index table.now byte }
{
    table[byte as usize]
}

/// What a byte is worth as a hexadecimal digit: so much where it is none that the number shows it.
fn worth_of(byte: u8) -> u64
    ensures value { result ≡ worth byte }
    ensures bound { result ≤ 4294967296 }
{
    number_at(&HEXADECIMAL, byte)
}

/// Returns the value of the bytes up to the first space as hexadecimal digits, and how many they are; None if they are
/// more than eight. It reads each byte once.
#[inline(always)]
fn short_token(line: &[u8]) -> Option<(u64, usize)>
    ensures short { IfSome result (λ found. found.1 ≤ 8) }
    ensures end { IfSome result (λ found. found.1 ≡ position_or_len is_space line.now) }
    ensures worth { IfSome result (λ found. IsWorth (take found.1 line.now) found.0) }
    ensures long { IfNone result (8 < position_or_len is_space line.now) }
{
    let mut value: u64 = 0;
    for place in 0..8 {
        if ends_at(line, place) {
            return Some((value, place));
        }
        value = value * 16 + worth_of(line[place]);
    }
    if ends_at(line, 8) {
        Some((value, 8))
    } else {
        None
    }
}

/// The number that the first token writes in one to eight hexadecimal digits, of either case, and the
/// bytes after it, wherever it begins.
#[inline(always)]
pub fn any_hexadecimal(line: &[u8]) -> Option<(u32, &[u8])>
    ensures { option_map (λ found. (found.0, tokens_of found.1.now)) result
        ≡ first_by hexadecimal_number (tokens_of line.now) }
{
    let line = trimmed(line);
    let (value, end) = short_token(line)?;
    if end == 0 || value >= NONE {
        return None;
    }
    Some((value as u32, &line[end..]))
}

/// What so many bytes in front are worth as hexadecimal digits.
#[inline(always)]
fn worth_in_front(line: &[u8], digits: usize) -> u64
    requires { (digits ≤ 8) × (digits ≤ length line.now) }
    ensures { IsWorth (take digits line.now) result }
{
    let mut value: u64 = 0;
    for place in 0..digits {
        value = value * 16 + worth_of(line[place]);
    }
    value
}

/// The number of a token in front of just so many hexadecimal digits, and the bytes after it; None where the
/// token in front is another.
#[inline(always)]
fn hexadecimal_of(line: &[u8], digits: usize) -> Option<(u32, &[u8])>
    requires { (0 < digits) × (digits ≤ 8) }
    ensures { IfSome result (λ found. Some (found.0, tokens_of found.1.now)
        ≡ first_by hexadecimal_number (tokens_of line.now)) }
{
    if line.len() < digits || !ends_at(line, digits) {
        return None;
    }
    let value = worth_in_front(line, digits);
    if value >= NONE {
        return None;
    }
    Some((value as u32, &line[digits..]))
}

/// The number that the first token writes in one to eight hexadecimal digits, of either case, and the bytes after it. A
/// token of just so many digits is read in one pass.
#[inline(always)]
pub fn hexadecimal(line: &[u8], digits: usize) -> Option<(u32, &[u8])>
    requires { (0 < digits) × (digits ≤ 8) }
    ensures { option_map (λ found. (found.0, tokens_of found.1.now)) result
        ≡ first_by hexadecimal_number (tokens_of line.now) }
{
    let line = trimmed(line);
    match hexadecimal_of(line, digits) {
        Some(found) => Some(found),
        None => any_hexadecimal(line),
    }
}

/// Returns the number in the first token, of one to ten decimal digits, and the bytes after it. One or two digits that
/// a space follows take one pass.
#[inline(always)]
fn decimal(line: &[u8]) -> Option<(u64, &[u8])>
    ensures { option_map (λ found. (found.0, tokens_of found.1.now)) result
        ≡ first_by decimal_number (tokens_of line.now) }
{
    let line = trimmed(line);
    match line {
        [byte, b' ', rest @ ..] if digit_of(*byte) < 10 => {
            Some((u64::from(digit_of(*byte)), rest))
        }
        _ => longer_decimal(line),
    }
}

/// Returns the number that the first token writes in one to ten decimal digits, and the bytes after it, for a token of
/// any length.
#[inline(never)]
#[tactic(auto, unfolding(crate::specs::Numbers::decimal_number, crate::specs::Operands::first_by))]
fn long_decimal(line: &[u8]) -> Option<(u64, &[u8])>
    ensures { option_map (λ found. (found.0, tokens_of found.1.now)) result
        ≡ first_by decimal_number (tokens_of line.now) }
{
    let (token, rest) = first_token(line)?;
    let value = number(token, 10, 10)?;
    Some((value, rest))
}

/// Returns the number that the first token writes in one to ten decimal digits, and the bytes after it, for a token
/// that may have more than one digit.
#[inline(always)]
fn longer_decimal(line: &[u8]) -> Option<(u64, &[u8])>
    ensures { option_map (λ found. (found.0, tokens_of found.1.now)) result
        ≡ first_by decimal_number (tokens_of line.now) }
{
    match line {
        [tens, ones, b' ', rest @ ..] if digit_of(*tens) < 10 && digit_of(*ones) < 10 => {
            let value = u64::from(digit_of(*tens)) * 10 + u64::from(digit_of(*ones));
            Some((value, rest))
        }
        _ => long_decimal(line),
    }
}

/// A decimal number below a limit, and the bytes after it.
#[inline(always)]
pub fn number_below(line: &[u8], limit: u64) -> Option<(u64, &[u8])>
    ensures bound { IfSome result (λ found. found.0 < limit) }
    ensures number { option_map (λ found. (found.0, tokens_of found.1.now)) result
        ≡ first_by (λ token. below limit (decimal_number token)) (tokens_of line.now) }
{
    let (number, rest) = decimal(line)?;
    if number < limit {
        Some((number, rest))
    } else {
        None
    }
}
