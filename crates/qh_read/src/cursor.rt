//! A position in a text, and a fast parser for the points that follow it.
//!
//! This is the fast path for most bytes of a point file. It handles plain numbers between blanks only; everything else
//! is processed by the scanner, byte by byte.
ghost use Rattle.std.specs.Prelude.{◌≤◌, ◌<◌, ◌+◌, ◌^◌, length};

use crate::coordinate::Coordinate;
use crate::numbers::{LONGEST, few_digits, first_digit, line_after, signed_coordinate};
use crate::token::blank;
use qh_model::Point;

/// A position in a text, between words.
///
/// The line numbers up to the end of the text fit 31 bits.
#[derive(Clone, Copy)]
pub struct Cursor<'a> {
    /// The whole text.
    pub bytes: &'a [u8],
    /// The offset of the next byte.
    pub at: usize,
    /// The line of the next byte.
    pub line: u32,
    ghost within: { at ≤ length bytes.now },
    ghost lines: { line + length bytes.now < 2 ^ 31 + at },
}

impl<'a> Cursor<'a> {
    ghost use Rattle.std.specs.Prelude.{◌≡◌, ◌≤◌, ◌<◌, ◌+◌, ◌*◌, drop, length, vec_len, vec_capacity, IfSome};
    ghost use Rattle.qh_read.specs.steps.Cursors.{IsParted, IsNumber, ArePoint, ArePushed};

    /// Returns the bytes from this position on.
    #[inline(always)]
    pub fn rest(self) -> &'a [u8]
        ensures { result.now ≡ drop self.entry.at self.entry.bytes.now }
    {
        &self.bytes[self.at..]
    }

    /// Skips the separators that follow.
    fn after_blanks(self) -> Cursor<'a>
        ensures { IsParted self.entry result }
    {
        let mut line = self.line;
        for i in self.at..self.bytes.len() {
            if self.bytes[i] == b'\n' {
                line += 1;
            } else if !blank(self.bytes[i]) {
                return Cursor {
                    bytes: self.bytes,
                    at: i,
                    line,
                };
            }
        }
        Cursor {
            bytes: self.bytes,
            at: self.bytes.len(),
            line,
        }
    }

    /// Skips the separators that follow. In most cases there is no separator.
    #[inline(always)]
    fn skip_blanks(self) -> Cursor<'a>
        ensures { IsParted self.entry result }
    {
        if self.at < self.bytes.len() && self.bytes[self.at] > b' ' {
            self
        } else {
            self.after_blanks()
        }
    }

    /// Parses a number of at most nine digits and the byte that ends it, if they come next.
    #[inline(always)]
    fn next_number(self) -> Option<(Coordinate, Cursor<'a>)>
        requires { self.at + LONGEST ≤ length self.bytes.now }
        ensures { IfSome result (λ r. IsNumber self.entry r.0.value r.1) }
    {
        let (sign, digit, second) = first_digit(self.bytes, self.at)?;
        let (magnitude, end) = few_digits(digit, self.bytes, second);
        let line = line_after(self.line, self.bytes[end])?;
        let after = Cursor {
            bytes: self.bytes,
            at: end + 1,
            line,
        };
        Some((signed_coordinate(sign, magnitude), after))
    }

    /// Skips the separators that follow. Returns `None` if fewer than `count` bytes are left after them.
    #[inline(always)]
    fn before_word(self, count: usize) -> Option<Cursor<'a>>
        requires some { 0 < count }
        requires left { self.at + count ≤ length self.bytes.now }
        ensures parted { IfSome result (λ c. IsParted self.entry c) }
        ensures left { IfSome result (λ c. c.at + count ≤ length c.bytes.now) }
    {
        if self.bytes[self.at] > b' ' {
            return Some(self);
        }
        let word = self.after_blanks();
        if word.bytes.len() - word.at < count {
            return None;
        }
        Some(word)
    }

    /// Parses three numbers. Returns `None` if numbers of the greatest length could pass the end of the text.
    #[inline(always)]
    fn next_point(self) -> Option<(Coordinate, Coordinate, Coordinate, Cursor<'a>)>
        ensures { IfSome result (λ r. ArePoint self.entry r.0.value r.1.value r.2.value r.3) }
    {
        if self.bytes.len() - self.at < 3 * LONGEST {
            return None;
        }
        let (x, after_x) = self.next_number()?;
        let word_y = after_x.before_word(2 * LONGEST)?;
        let (y, after_y) = word_y.next_number()?;
        let word_z = after_y.before_word(LONGEST)?;
        let (z, after_z) = word_z.next_number()?;
        Some((x, y, z, after_z))
    }

    /// Pushes the points that follow, until the vector has `limit` points. Returns the position after them.
    pub fn push_points(self, points: &mut Vec<Point>, limit: usize) -> Cursor<'a>
        requires fewer { vec_len points.old ≤ limit }
        requires room { limit ≤ vec_capacity points.old }
        ensures pushed { ArePushed points.old.items points.new.items self.entry result }
        ensures limit { vec_len points.new ≤ limit }
        ensures kept { vec_capacity points.old ≤ vec_capacity points.new }
    {
        let mut cursor = self;
        while points.len() < limit {
            // The separators are skipped even if no point follows, so that they are scanned only once.
            cursor = cursor.skip_blanks();
            let Some((x, y, z, after)) = cursor.next_point() else {
                return cursor;
            };
            points.push_reserved(Point::new(x.value, y.value, z.value));
            cursor = after;
        }
        cursor
    }
}
