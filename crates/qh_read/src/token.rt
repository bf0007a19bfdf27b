//! The token of an unfinished word, which keeps only its value so far.
ghost use Rattle.std.specs.Char.{is_ascii_digit};
ghost use Rattle.std.specs.Prelude.{◌≡◌, ◌≤◌, ◌<◌, ◌+◌, ◌*◌, ◌↔◌, [], ◌∷◌, true, false, IsTrue};
ghost use Rattle.qh_read.specs.{contract.Tokens.cap, contract.Tokens.grown, contract.Tokens.value_of, contract.Tokens.is_keyword, steps.SmallTokens.IsSmall};
ghost use Rattle.qh_model.specs.headline.Words.{is_blank, is_data};

use qh_model::COORDINATE_LIMIT;

/// The cap of magnitudes. Greater magnitudes count as this one, which is out of range for every number of a file.
pub const MAGNITUDE_CAP: u32 = COORDINATE_LIMIT + 1;

/// The state of an unfinished word.
#[derive(Clone, Copy, Debug)]
pub enum Token {
    /// No byte yet.
    Empty,
    /// A sign; true if it is a minus.
    Sign(bool),
    /// Digits, perhaps after a sign: true if there is a minus, and their value up to the cap.
    Digits(bool, u32),
    /// A prefix of the keyword `OFF`, by its length from 1 to 3, and nothing else.
    Keyword(u8),
    /// A word that is neither a number nor the keyword.
    Other,
}

/// Returns true if the byte separates words within a line.
pub fn blank(byte: u8) -> bool
    ensures { result ≡ is_blank byte }
{
    matches!(byte, 9 | 11 | 12 | 13 | 32)
}

/// Returns true if a word that begins with this byte is a data word.
pub fn begins_data(byte: u8) -> bool
    ensures { result ≡ is_data (byte ∷ []) }
{
    byte.is_ascii_digit() || matches!(byte, b'+' | b'-' | b'.')
}

/// Returns the magnitude after one more digit, up to the cap.
#[inline]
pub fn with_digit(magnitude: u32, digit: u8) -> u32
    requires small { magnitude ≤ MAGNITUDE_CAP }
    requires digit { digit < 10 }
    ensures { result ≡ cap (10 * magnitude + digit) }
{
    // Ten times the cap exceeds 32 bits.
    if magnitude < MAGNITUDE_CAP / 10 {
        10 * magnitude + digit as u32
    } else if magnitude == MAGNITUDE_CAP / 10 && digit < (MAGNITUDE_CAP % 10) as u8 {
        MAGNITUDE_CAP / 10 * 10 + digit as u32
    } else {
        MAGNITUDE_CAP
    }
}

impl Token {
    /// Returns true if there is no unfinished word.
    pub fn is_empty(self) -> bool
        ensures { IsTrue result ↔ (self ≡ Token.Empty) }
    {
        matches!(self, Token::Empty)
    }

    /// Returns the word extended by a digit.
    #[inline]
    pub fn grow_digit(self, byte: u8) -> Token
        requires small { IsSmall self }
        requires digit { is_ascii_digit byte ≡ true }
        ensures grown { result ≡ grown self byte }
        ensures small { IsSmall result }
    {
        let digit = byte - b'0';
        match self {
            Token::Digits(minus, magnitude) => Token::Digits(minus, with_digit(magnitude, digit)),
            Token::Sign(minus) => Token::Digits(minus, digit as u32),
            Token::Empty => Token::Digits(false, digit as u32),
            Token::Keyword(_) | Token::Other => Token::Other,
        }
    }

    /// Returns the word extended by a byte that is not a digit.
    pub fn grow_other(self, byte: u8) -> Token
        requires { is_ascii_digit byte ≡ false }
        ensures grown { result ≡ grown self byte }
        ensures small { IsSmall result }
    {
        match (self, byte) {
            (Token::Empty, b'+') => Token::Sign(false),
            (Token::Empty, b'-') => Token::Sign(true),
            (Token::Empty, b'O') => Token::Keyword(1),
            (Token::Keyword(1), b'F') => Token::Keyword(2),
            (Token::Keyword(2), b'F') => Token::Keyword(3),
            _ => Token::Other,
        }
    }

    /// Returns true if the word is the keyword `OFF`.
    pub fn is_keyword(self) -> bool
        ensures { result ≡ is_keyword self }
    {
        matches!(self, Token::Keyword(3))
    }

    /// Returns the number that the word denotes, up to the cap, if it is a number.
    pub fn value(self) -> Option<i32>
        requires { IsSmall self }
        ensures { result ≡ value_of self }
    {
        match self {
            Token::Digits(false, magnitude) => Some(magnitude as i32),
            Token::Digits(true, magnitude) => Some(-(magnitude as i32)),
            _ => None,
        }
    }
}
