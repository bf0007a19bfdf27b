//! Reads a file in pieces.
ghost use Rattle.std.specs.Prelude.{◌≡◌, ◌≤◌, ◌<◌, ◌+◌, ◌++◌, ◌↔◌, List, ℕ, [], length, IfOk, IfErr, OnOk, OnErr, Err};
ghost use Rattle.qh_model.specs.declared.form.Form.{Form};
ghost use Rattle.qh_model.specs.declared.form.Form.TheVariants as forms;
ghost use Rattle.qh_model.specs.headline.Forms.{ReadsIn, IsFirstFault};
ghost use Rattle.qh_read.specs.{contract.ReadFaults.IsTextFault, contract.Holding.Fed, steps.Segments.IsSegment};

use crate::fault::FeedFault;
use crate::known_points::KnownPoints;
use crate::scanner::Scanner;
use crate::segment::Segment;
use crate::token::Token;
use qh_model::{BYTE_LIMIT, Form, Point, ReadFault};
use std::alloc::Global;
use std::marker::Model;

/// Reads a point file, or an OFF file, in pieces that may be cut anywhere.
///
/// It keeps the points so far and the value of the unfinished word, but no bytes. After a fault of the text it accepts
/// the remaining bytes, and `finish` returns the fault. A contract sees the state and the number of bytes, and
/// describes the bytes fed by `Fed`.
#[derive(Drop)]
pub struct Reader {
    scanner: Scanner,
    token: Token,
    count: u32,
}

impl Model for Reader {
    ghost use Rattle.qh_read.specs.contract.Holding.{Reading};

    ghost Value = { Reading };

    ghost use Rattle.qh_read.specs.steps.Reader.{reading_shown, IsSound};

    ghost view = { reading_shown };

    ghost invariant = { IsSound };
}

impl Reader {
    /// Creates a reader of a point file, before its first byte. It allocates nothing yet, and grows with `alloc`.
    pub fn new(alloc: Global) -> Reader
        ensures { Fed forms.Qhull result [] }
    {
        Reader::of_form(alloc, Form::Qhull)
    }

    /// Creates a reader of an OFF file, before its first byte. It allocates nothing yet, and grows with `alloc`.
    pub fn new_off(alloc: Global) -> Reader
        ensures { Fed forms.Off result [] }
    {
        Reader::of_form(alloc, Form::Off)
    }

    /// Returns a reader for files of this form.
    pub(crate) fn of_form(alloc: Global, form: Form) -> Reader
        ensures { Fed form result [] }
    {
        Reader {
            scanner: Scanner::new(alloc, form),
            token: Token::Empty,
            count: 0,
        }
    }

    /// Returns the number of bytes fed.
    pub(crate) fn fed(&self) -> u32
        ensures count { result ≡ self.now.count }
        ensures limit { result ≤ BYTE_LIMIT }
    {
        self.count
    }

    /// Reads the next bytes of the file.
    ///
    /// # Errors
    ///
    /// `Big` exactly if more than `BYTE_LIMIT` bytes would have been fed, before any allocation; `Memory` if an
    /// allocation failed. All allocations come before the first change, so the reader is unchanged after either error.
    pub fn feed(&mut self, piece: &[u8]) -> Result<(), FeedFault>
        ensures fed { OnOk result
            ((form : Form) (before : List ℕ)
            → Fed form self.old before → Fed form self.new (before ++ piece.now)) }
        ensures count { OnOk result (self.new.count ≡ self.old.count + length piece.now) }
        ensures big { (result ≡ Err FeedFault.Big)
            ↔ (BYTE_LIMIT < self.old.count + length piece.now) }
        ensures refused { OnErr result (self.new ≡ self.old) }
    {
        self.feed_known(&KnownPoints::none(piece))
    }

    /// Reads the next bytes of the file, whose first points may be parsed already. The errors are those of `feed`.
    fn feed_known(&mut self, known: &KnownPoints<'_>) -> Result<(), FeedFault>
        ensures fed { OnOk result
            ((form : Form) (before : List ℕ)
            → Fed form self.old before → Fed form self.new (before ++ known.now.piece.now)) }
        ensures count { OnOk result (self.new.count ≡ self.old.count + length known.now.piece.now) }
        ensures big { (result ≡ Err FeedFault.Big)
            ↔ (BYTE_LIMIT < self.old.count + length known.now.piece.now) }
        ensures refused { OnErr result (self.new ≡ self.old) }
    {
        let length = known.piece.len();
        if length > (BYTE_LIMIT - self.count) as usize {
            return Err(FeedFault::Big);
        }
        self.scanner.reserve(length)?;
        self.count += length as u32;
        let rest = self.scanner.take_known(self.token, known);
        self.token = self.scanner.scan(self.token, rest);
        Ok(())
    }

    /// Reads the next bytes of the file, which are the text of this segment.
    ///
    /// The first line is fed byte by byte, since a word, a point or a comment may be unfinished.
    pub(crate) fn feed_segment(&mut self, segment: &Segment, text: &[u8]) -> Result<(), FeedFault>
        requires { IsSegment segment.now text.now }
        ensures fed { OnOk result
            ((form : Form) (before : List ℕ)
            → Fed form self.old before → Fed form self.new (before ++ text.now)) }
        ensures count { OnOk result (self.new.count ≡ self.old.count + length text.now) }
        ensures big { result ≡ Err FeedFault.Big → BYTE_LIMIT < self.old.count + length text.now }
    {
        let (first, piece) = text.split_at(segment.head);
        self.feed(first)?;
        self.feed_known(&KnownPoints {
            piece,
            points: segment.points.as_slice(),
            lines: segment.lines,
            rest: &text[segment.taken..],
        })
    }

    /// Returns the points of the bytes fed, or their first fault, from `NoHeader` to `Short` or `NotOff`.
    ///
    /// It allocates nothing.
    pub fn finish(self) -> Result<Vec<Point>, ReadFault>
        ensures read { IfOk result
            (λ points. (form : Form) (bytes : List ℕ)
            → Fed form self bytes → ReadsIn form bytes points.items) }
        ensures fault { IfErr result
            (λ e. (form : Form) (bytes : List ℕ)
            → Fed form self bytes → IsFirstFault form bytes e) }
        ensures text { IfErr result IsTextFault }
    {
        let Reader {
            mut scanner,
            token,
            ..
        } = self;
        scanner.end_word(token);
        scanner.builder.finish()
    }
}
