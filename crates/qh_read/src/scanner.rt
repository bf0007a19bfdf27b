//! Splits bytes into words, for pieces that may be cut anywhere.
ghost use Rattle.std.specs.Prelude.{ℕ, ◌≡◌, ◌≤◌, ◌<◌, ◌+◌, ◌^◌, false, length, OnOk};
ghost use Rattle.std.specs.Char.{is_ascii_digit};
ghost use Rattle.qh_read.specs.contract.Holding.{held_at_start, ended_held, held_marked, next_held, held_by};
ghost use Rattle.qh_read.specs.steps.{SmallTokens.IsSmall, Scanning.held, Scanning.under_way, Scanning.HasRoom};

use crate::builder::Builder;
use crate::cursor::Cursor;
use crate::known_points::KnownPoints;
use crate::token::{Token, begins_data, blank, with_digit};
use qh_model::Form;
use std::alloc::{AllocError, Global};

/// The state after the bytes so far, except for the unfinished word, whose token is kept separately.
#[derive(Drop)]
pub struct Scanner {
    pub builder: Builder,
    /// Builds points from the words.
    pub form: Form,
    /// True inside a comment, which ends with the line.
    pub comment: bool,
    /// The number of the line, from 1.
    pub line: u32,
}

impl Scanner {
    /// Creates a scanner that has read no byte yet.
    pub fn new(alloc: Global, form: Form) -> Scanner
        ensures held { held result Token.Empty ≡ held_at_start form }
        ensures line { result.line ≡ 1 }
        ensures room { HasRoom result Token.Empty 0 }
    {
        Scanner {
            builder: Builder::new(alloc, form),
            form,
            comment: false,
            line: 1,
        }
    }

    /// Reserves room for all points that `bytes` more bytes can complete.
    ///
    /// A coordinate takes at least two bytes, one of them a blank.
    pub fn reserve(&mut self, bytes: usize) -> Result<(), AllocError>
        ensures held { (t : Token) → held self.new t ≡ held self.old t }
        ensures line { self.new.line ≡ self.old.line }
        ensures room { OnOk result ((t : Token) → HasRoom self.new t bytes) }
        ensures kept { (t : Token) → HasRoom self.old t 0 → HasRoom self.new t 0 }
    {
        self.builder.reserve(bytes / 6 + 1)
    }

    /// Ends the unfinished word, if there is one.
    #[inline(always)]
    pub fn end_word(&mut self, token: Token)
        requires small { IsSmall token }
        requires room { HasRoom self.old token 0 }
        ensures held { held self.new Token.Empty ≡ ended_held (held self.old token) }
        ensures line { self.new.line ≡ self.old.line }
        ensures room { (bytes : ℕ) → HasRoom self.old token (bytes + 1)
            → HasRoom self.new Token.Empty bytes }
    {
        if !token.is_empty() {
            self.builder.take(token, self.line);
        }
    }

    /// Processes a byte outside comments that is neither a digit nor a separator. Returns the unfinished word after it.
    #[inline]
    fn mark(&mut self, token: Token, byte: u8) -> Token
        requires small { IsSmall token }
        requires room { HasRoom self.old token 1 }
        requires quiet { self.old.comment ≡ false }
        requires other { is_ascii_digit byte ≡ false }
        ensures held { held self.new result
            ≡ held_marked self.old.form (held self.old token) byte }
        ensures small { IsSmall result }
        ensures line { self.new.line ≡ self.old.line }
        ensures room { (bytes : ℕ) → HasRoom self.old token (bytes + 1)
            → HasRoom self.new result bytes }
    {
        match self.form {
            Form::Qhull => {
                if !token.is_empty() || begins_data(byte) {
                    return token.grow_other(byte);
                }
                self.comment = true;
                token
            }
            Form::Off => {
                if byte != b'#' {
                    return token.grow_other(byte);
                }
                self.end_word(token);
                self.comment = true;
                Token::Empty
            }
        }
    }

    /// Processes one byte. Returns the unfinished word after it.
    #[inline]
    fn step(&mut self, token: Token, byte: u8) -> Token
        requires small { IsSmall token }
        requires room { HasRoom self.old token 1 }
        requires line { self.old.line < 2 ^ 31 }
        ensures held { held self.new result ≡ next_held (held self.old token) byte }
        ensures small { IsSmall result }
        ensures line { self.new.line ≤ self.old.line + 1 }
        ensures room { (bytes : ℕ) → HasRoom self.old token (bytes + 1)
            → HasRoom self.new result bytes }
    {
        if byte == b'\n' || (!self.comment && blank(byte)) {
            self.end_word(token);
            if byte == b'\n' {
                self.comment = false;
                self.line += 1;
            }
            Token::Empty
        } else if self.comment {
            token
        } else if byte.is_ascii_digit() {
            token.grow_digit(byte)
        } else {
            self.mark(token, byte)
        }
    }

    /// Parses the leading digits while a number is unfinished. Returns the unfinished word after them, and the
    /// remaining bytes.
    #[inline]
    fn digits<'a>(&self, token: Token, bytes: &'a [u8]) -> (Token, &'a [u8])
        requires { IsSmall token }
        ensures held { held_by (held self.now result.0) result.1.now
            ≡ held_by (held self.now token) bytes.now }
        ensures small { IsSmall result.0 }
        ensures under_way { under_way result.0 ≡ under_way token }
        ensures left { length result.1.now ≤ length bytes.now }
    {
        let Token::Digits(minus, mut magnitude) = token else {
            return (token, bytes);
        };
        if self.comment {
            return (token, bytes);
        }
        for (i, byte) in bytes.iter().enumerate() {
            if !byte.is_ascii_digit() {
                return (Token::Digits(minus, magnitude), &bytes[i..]);
            }
            magnitude = with_digit(magnitude, *byte - b'0');
        }
        (Token::Digits(minus, magnitude), &[])
    }

    /// Parses the leading points and the separators after them. There is no unfinished word or comment, and coordinates
    /// are expected. Returns the remaining bytes.
    #[inline]
    fn points<'a>(&mut self, token: Token, bytes: &'a [u8]) -> &'a [u8]
        requires room { HasRoom self.old token (length bytes.now) }
        requires line { self.old.line + length bytes.now < 2 ^ 31 }
        ensures held { held_by (held self.new token) result.now
            ≡ held_by (held self.old token) bytes.now }
        ensures room { HasRoom self.new token (length result.now) }
        ensures line { self.new.line + length result.now ≤ self.old.line + length bytes.now }
        ensures left { length result.now ≤ length bytes.now }
    {
        if self.comment || !token.is_empty() {
            return bytes;
        }
        let start = Cursor {
            bytes,
            at: 0,
            line: self.line,
        };
        let cursor = self.builder.take_points(start);
        self.line = cursor.line;
        cursor.rest()
    }

    /// Appends the points of a piece if there is no unfinished word or comment and the builder expects all of them.
    /// Returns the remaining bytes: the whole piece if no point was appended.
    pub fn take_known<'a>(&mut self, token: Token, known: &KnownPoints<'a>) -> &'a [u8]
        requires room { HasRoom self.old token (length known.now.piece.now) }
        requires line { self.old.line + length known.now.piece.now < 2 ^ 31 }
        ensures held { held_by (held self.new token) result.now
            ≡ held_by (held self.old token) known.now.piece.now }
        ensures room { HasRoom self.new token (length result.now) }
        ensures line { self.new.line + length result.now
            ≤ self.old.line + length known.now.piece.now }
    {
        if !token.is_empty() || self.comment {
            return known.piece;
        }
        let Some(next) = self.builder.after_points(known.points.len()) else {
            return known.piece;
        };
        self.builder.append(next, known.points);
        self.line += known.lines;
        known.rest
    }

    /// Processes the next bytes. Returns the unfinished word after them.
    pub fn scan(&mut self, token: Token, piece: &[u8]) -> Token
        requires small { IsSmall token }
        requires room { HasRoom self.old token (length piece.now) }
        requires line { self.old.line + length piece.now < 2 ^ 31 }
        ensures held { held self.new result ≡ held_by (held self.old token) piece.now }
        ensures small { IsSmall result }
        ensures line { self.new.line ≤ self.old.line + length piece.now }
        ensures room { HasRoom self.new result 0 }
    {
        let mut token = token;
        let mut rest = piece;
        while let Some((byte, after)) = rest.split_first() {
            let grown = self.step(token, *byte);
            let (digits, left) = self.digits(grown, after);
            token = digits;
            rest = self.points(digits, left);
        }
        token
    }
}
