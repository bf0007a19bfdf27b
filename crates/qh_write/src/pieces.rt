//! Texts in pieces.
ghost use Rattle.std.specs.Prelude.{◌≡◌, ◌++◌, IfOk, OnOk, List, Result, Vec, Ok, map, reverse};
ghost use Rattle.qh_write.specs.steps.Parts.{AreParts};

use qh_model::Memory;
use std::alloc::{AllocError, Global};
use std::mem;

/// A text in consecutive pieces. The output of several threads is sent from these pieces, without copying them
/// together.
#[derive(Debug, Drop)]
pub struct Pieces {
    /// The pieces before the last one.
    pub(crate) done: Vec<Vec<u8>>,
    /// The last piece, to which bytes are appended.
    pub(crate) last: Vec<u8>,
}

/// Returns the results of all parts, in their order, if none failed.
fn all_pieces(
    alloc: Global,
    parts: Vec<Result<Vec<u8>, AllocError>>,
) -> Result<Vec<Vec<u8>>, AllocError>
    ensures { IfOk result (λ v. map Ok v.items ≡ parts.items) }
{
    let mut left = parts;
    let mut pieces = Vec::with_capacity(alloc, left.len())?;
    while let Some(part) = left.pop() {
        pieces.push(part?)?;
    }
    pieces.reverse();
    Ok(pieces)
}

impl Pieces {
    ghost use Rattle.std.specs.Prelude.{ℕ, []};
    ghost use Rattle.qh_write.specs.contract.Pieces.{bytes_in};

    /// Creates an empty text, with room for `room` bytes in one piece.
    ///
    /// # Errors
    ///
    /// `AllocError` if the allocation failed.
    pub(crate) fn with_room(alloc: Global, room: usize) -> Result<Pieces, AllocError>
        ensures { IfOk result (λ text. bytes_in text ≡ []) }
    {
        Ok(Pieces {
            done: Vec::new(alloc),
            last: Vec::with_capacity(alloc, room)?,
        })
    }

    /// Returns a text of one piece.
    pub fn of(alloc: Global, bytes: Vec<u8>) -> Pieces
        ensures { bytes_in result ≡ bytes.items }
    {
        Pieces {
            done: Vec::new(alloc),
            last: bytes,
        }
    }

    /// Appends parts that threads created, if none failed.
    pub(crate) fn append_parts(
        &mut self,
        alloc: Global,
        parts: Vec<Result<Vec<u8>, AllocError>>,
    ) -> Result<(), AllocError>
        ensures { OnOk result ((bytes : List ℕ) → AreParts parts.items bytes → bytes_in self.new ≡ bytes_in self.old ++ bytes) }
    {
        let mut pieces = all_pieces(alloc, parts)?;
        let last = mem::replace(&mut self.last, Vec::new(alloc));
        self.done.push(last)?;
        self.done.append(&mut pieces)
    }

    /// Returns the bytes of all pieces in one list. A single piece is not copied.
    ///
    /// # Errors
    ///
    /// `Memory` if an allocation failed.
    pub fn joined(self, alloc: Global) -> Result<Vec<u8>, Memory>
        ensures { IfOk result (λ v. v.items ≡ bytes_in self) }
    {
        let Pieces { done, last } = self;
        if done.is_empty() {
            return Ok(last);
        }
        let mut all = Vec::new(alloc);
        for piece in &done {
            all.extend_from_slice(piece)?;
        }
        all.extend_from_slice(&last)?;
        Ok(all)
    }
}
