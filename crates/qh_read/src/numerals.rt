//! The words of a text, one by one, as numbers.
//!
//! Words and comments have the syntax of OFF files, whose faces consist of such numbers.
ghost use Rattle.std.specs.Prelude.{◌≡◌, ◌≤◌, ◌<◌, ◌+◌, [], ◌∷◌, ℕ, List, true, false, None, Some, length, MatchOption};
ghost use Rattle.qh_model.specs.declared.limits.TheConstants.{BYTE_LIMIT};
ghost use Rattle.qh_read.specs.contract.{Numerals.IsElsewhere, Numerals.numerals_in, Tokens.grown};
ghost use Rattle.qh_read.specs.steps.{Arriving.BeginsWord, Arriving.arriving, Arriving.ends_word, Arriving.told, SmallTokens.IsSmall};

use crate::token::{Token, blank};
use qh_model::{BYTE_LIMIT, COORDINATE_LIMIT};
use std::marker::Model;

/// A word of a text.
#[derive(Clone, Copy, Debug, PartialEq, Eq)]
pub struct Numeral {
    /// The number that the word denotes, if it is from 0 to `COORDINATE_LIMIT`.
    pub number: Option<u32>,
    /// The line of the word, counted from 1.
    pub line: u32,
}

/// The remaining words of a text.
///
/// A contract sees them as a list.
#[derive(Drop)]
pub struct Numerals<'a> {
    head: Option<Numeral>,
    line: u32,
    rest: &'a [u8],
}

impl<'a> Model for Numerals<'a> {
    ghost use Rattle.std.specs.Prelude.{List};
    ghost use Rattle.qh_read.specs.declared.numerals.Numeral.{Numeral};

    ghost Value = { List Numeral };

    ghost use Rattle.qh_read.specs.steps.Arriving.{to_come, IsAhead};

    ghost view = { to_come };

    ghost invariant = { IsAhead };
}

/// Skips blanks, line ends and comments. Returns the line after them, and the remaining bytes.
fn after_gap(line: u32, bytes: &[u8]) -> (u32, &[u8])
    requires { line + length bytes.now ≤ BYTE_LIMIT + 1 }
    ensures told { arriving None false line bytes.now ≡ arriving None false result.0 result.1.now }
    ensures begins { BeginsWord result.1.now }
    ensures lines { result.0 + length result.1.now ≤ line + length bytes.now }
{
    let mut later = line;
    let mut comment = false;
    for (i, byte) in bytes.iter().enumerate() {
        if *byte == b'\n' {
            comment = false;
            later += 1;
        } else if !comment && !blank(*byte) {
            if *byte != b'#' {
                return (later, &bytes[i..]);
            }
            comment = true;
        }
    }
    (later, &[])
}

/// Returns true if a byte ends a word.
fn ends_word(byte: u8) -> bool
    ensures { result ≡ ends_word byte }
{
    byte == b'\n' || byte == b'#' || blank(byte)
}

/// Returns the word extended by a byte.
#[inline]
fn grow(token: Token, byte: u8) -> Token
    requires { IsSmall token }
    ensures grown { result ≡ grown token byte }
    ensures small { IsSmall result }
{
    if byte.is_ascii_digit() {
        token.grow_digit(byte)
    } else {
        token.grow_other(byte)
    }
}

/// Parses the rest of a word. Returns the whole word, and the remaining bytes.
fn after_word(begun: Token, bytes: &[u8]) -> (Token, &[u8])
    requires { IsSmall begun }
    ensures told { (line : ℕ) → arriving (Some begun) false line bytes.now
        ≡ told result.0 line ∷ arriving None false line result.1.now }
    ensures small { IsSmall result.0 }
    ensures left { length result.1.now ≤ length bytes.now }
{
    let mut token = begun;
    for (i, byte) in bytes.iter().enumerate() {
        if ends_word(*byte) {
            return (token, &bytes[i..]);
        }
        token = grow(token, *byte);
    }
    (token, &[])
}

/// Returns a word that ends on this line.
fn numeral_of(token: Token, line: u32) -> Numeral
    requires { IsSmall token }
    ensures { result ≡ told token line }
{
    let number = match token {
        Token::Digits(false, magnitude) if magnitude <= COORDINATE_LIMIT => Some(magnitude),
        Token::Digits(true, 0) => Some(0),
        _ => None,
    };
    Numeral { number, line }
}

impl<'a> Numerals<'a> {
    /// Returns the words of a text, which has at most `BYTE_LIMIT` bytes.
    pub fn of(bytes: &'a [u8]) -> Numerals<'a>
        requires { length bytes.now ≤ BYTE_LIMIT }
        ensures { result ≡ numerals_in bytes.now }
    {
        Numerals::from_line(1, bytes)
    }

    /// Returns the words of these bytes, which begin on this line.
    fn from_line(line: u32, bytes: &'a [u8]) -> Numerals<'a>
        requires { line + length bytes.now ≤ BYTE_LIMIT + 1 }
        ensures { result ≡ arriving None false line bytes.now }
    {
        let (line, word) = after_gap(line, bytes);
        let Some((first, after)) = word.split_first() else {
            return Numerals {
                head: None,
                line,
                rest: word,
            };
        };
        let (token, rest) = after_word(grow(Token::Empty, *first), after);
        Numerals {
            head: Some(numeral_of(token, line)),
            line,
            rest,
        }
    }

    /// Takes the next word, if there is one.
    pub fn take(&mut self) -> Option<Numeral>
        ensures { MatchOption result ((self.old ≡ []) × (self.new ≡ [])) (λ w. self.old ≡ w ∷ self.new) }
    {
        let head = self.head;
        if head.is_some() {
            *self = Numerals::from_line(self.line, self.rest);
        }
        head
    }

    /// Takes the next word if it is on this line.
    pub fn take_on(&mut self, line: u32) -> Option<Numeral>
        ensures { MatchOption result ((self.new ≡ self.old) × IsElsewhere line self.old)
            (λ w. (self.old ≡ w ∷ self.new) × (w.line ≡ line)) }
    {
        match self.head {
            Some(head) if head.line == line => self.take(),
            _ => None,
        }
    }
}
