//! The parts of a number that is parsed as a whole: a sign, digits, and the byte that ends it.
ghost use Rattle.std.specs.Char.{is_ascii_digit};
ghost use Rattle.std.specs.Prelude.{◌≡◌, ◌≤◌, ◌<◌, ◌+◌, ◌-◌, ◌^◌, true, drop, length, IfSome};
ghost use Rattle.qh_read.specs.{contract.Tokens.signed, steps.Numbers.IsBegun, steps.Numbers.IsContinued, steps.Numbers.IsEnd, steps.Signs.is_minus};

use crate::coordinate::Coordinate;
use crate::token::blank;
use qh_model::COORDINATE_LIMIT;

/// The greatest length of a number that is parsed as a whole: a sign, nine digits and the byte after them.
pub const LONGEST: usize = 11;

/// The sign of a number. A number without a sign has `Plus`.
#[derive(Clone, Copy)]
pub enum Sign {
    Plus,
    Minus,
}

/// Returns the digit that this byte denotes, or more than 9 if it is not a digit.
#[inline(always)]
fn digit_of(byte: u8) -> u32
    ensures digit { result ≤ 9 → is_ascii_digit byte ≡ true }
    ensures value { result ≤ 9 → result ≡ byte - 48 }
{
    (byte as u32).wrapping_sub(48)
}

/// Parses an optional sign and a digit. Returns the sign, the digit, and the offset of the next byte.
#[inline(always)]
pub fn first_digit(bytes: &[u8], at: usize) -> Option<(Sign, u32, usize)>
    requires { at + 2 ≤ length bytes.now }
    ensures held { IfSome result (λ r. IsBegun (drop at bytes.now) (is_minus r.0) r.1 (drop r.2 bytes.now)) }
    ensures small { IfSome result (λ r. r.1 ≤ 9) }
    ensures least { IfSome result (λ r. at + 1 ≤ r.2) }
    ensures most { IfSome result (λ r. r.2 ≤ at + 2) }
{
    let minus = bytes[at] == b'-';
    let start = if minus || bytes[at] == b'+' {
        at + 1
    } else {
        at
    };
    let digit = digit_of(bytes[start]);
    if digit > 9 {
        return None;
    }
    let sign = if minus { Sign::Minus } else { Sign::Plus };
    Some((sign, digit, start + 1))
}

/// Parses up to eight more digits. Returns the magnitude, and the offset of the next byte.
///
/// The limit of eight digits avoids a loop and keeps the magnitude in the range of coordinates.
#[inline(always)]
pub fn few_digits(first: u32, bytes: &[u8], at: usize) -> (u32, usize)
    requires small { first ≤ 9 }
    requires left { at + 8 ≤ length bytes.now }
    ensures held { IsContinued first (drop at bytes.now) result.0 (drop result.1 bytes.now) }
    ensures small { result.0 ≤ COORDINATE_LIMIT }
    ensures least { at ≤ result.1 }
    ensures most { result.1 ≤ at + 8 }
{
    let mut magnitude = first;
    for i in 0..8 {
        let digit = digit_of(bytes[at + i]);
        if digit > 9 {
            return (magnitude, at + i);
        }
        magnitude = 10 * magnitude + digit;
    }
    (magnitude, at + 8)
}

/// Returns the coordinate with this magnitude and sign.
#[inline(always)]
pub fn signed_coordinate(sign: Sign, magnitude: u32) -> Coordinate
    requires { magnitude ≤ COORDINATE_LIMIT }
    ensures { result.value ≡ signed (is_minus sign) magnitude }
{
    let value = magnitude as i32;
    Coordinate {
        value: match sign {
            Sign::Plus => value,
            Sign::Minus => -value,
        },
    }
}

/// Returns the line after the byte that ends a number, if it is a separator.
#[inline(always)]
pub fn line_after(line: u32, end: u8) -> Option<u32>
    requires { line < 2 ^ 31 }
    ensures held { IfSome result (λ r. IsEnd line end r) }
    ensures lines { IfSome result (λ r. r ≤ line + 1) }
{
    // In most cases it is a space.
    if end == b' ' {
        Some(line)
    } else if end == b'\n' {
        Some(line + 1)
    } else if blank(end) {
        Some(line)
    } else {
        None
    }
}
