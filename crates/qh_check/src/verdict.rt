//! The verdict on a surface.
ghost use Rattle.std.specs.Prelude.{Some};
ghost use Rattle.qh_check.specs.contract.Texts.{verdict_text};

use crate::fault::FaceFault;
use qh_model::Id;
use std::fmt;

/// The verdict on a surface of pieces.
#[derive(Clone, Copy, Debug, PartialEq, Eq)]
pub enum SurfaceVerdict {
    /// The polygons are the surface of the hull.
    Right,
    /// The set is not solid or there is no polygon; the polygons are not those of the set.
    OtherPolygons,
    /// The polygon at this position is no piece of a face of the set.
    NoPiece(usize, FaceFault),
    /// The polygons do not take the step from the first id to the second as often as the step back: this edge is open.
    Open(Id, Id),
    /// The polygons take the step from the first id to the second, a higher one, more than once.
    Twice(Id, Id),
}

impl fmt::Display for SurfaceVerdict {
    ghost output = { λ x. Some (verdict_text x) };

    fn fmt<W: fmt::Write>(&self, f: &mut fmt::Formatter<W>) -> fmt::Result {
        match self {
            SurfaceVerdict::Right => write!(f, "all right"),
            SurfaceVerdict::OtherPolygons => write!(f, "the polygons are others"),
            SurfaceVerdict::NoPiece(position, fault) => write!(f, "face {position}: {fault}"),
            SurfaceVerdict::Open(from, to) => {
                let (u, v) = (from.number(), to.number());
                write!(f, "the side from point {u} to point {v} is open")
            }
            SurfaceVerdict::Twice(from, to) => {
                let (u, v) = (from.number(), to.number());
                write!(
                    f,
                    "more than one face has the side from point {u} to point {v}"
                )
            }
        }
    }
}
