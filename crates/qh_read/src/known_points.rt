//! Pieces whose first points are already parsed.
ghost use Rattle.std.specs.Prelude.{◌≡◌, ◌≤◌, ◌+◌, ◌*◌, length};
ghost use Rattle.qh_read.specs.steps.Numbers.{ArePoints};

use qh_model::Point;

/// A piece, and its first points, which are valid if a point begins at the start of the piece.
#[derive(Clone, Copy)]
pub struct KnownPoints<'a> {
    pub piece: &'a [u8],
    /// The first points of the piece.
    pub points: &'a [Point],
    /// The number of line ends among these points.
    pub lines: u32,
    /// The bytes after the points.
    pub rest: &'a [u8],
    ghost told: { ArePoints 0 piece.now points.now lines rest.now },
    ghost room: { 6 * length points.now + length rest.now ≤ length piece.now },
    ghost within: { lines + length rest.now ≤ length piece.now },
}

impl<'a> KnownPoints<'a> {
    /// Returns a piece without parsed points.
    pub fn none(piece: &'a [u8]) -> KnownPoints<'a>
        ensures { result.piece.now ≡ piece.now }
    {
        KnownPoints {
            piece,
            points: &[],
            lines: 0,
            rest: piece,
        }
    }
}
