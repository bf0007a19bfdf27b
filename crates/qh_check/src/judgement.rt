//! The judgement on faces.
ghost use Rattle.std.specs.Prelude.{Some};
ghost use Rattle.qh_check.specs.contract.Texts.{judgement_text};

use crate::verdict::SurfaceVerdict;
use std::fmt;

/// A judgement on faces.
#[derive(Clone, Copy, Debug, PartialEq, Eq)]
pub enum Judgement {
    /// The verdict on the surface.
    Told(SurfaceVerdict),
    /// The face at this position has a corner that is not one of the points.
    Stranger(usize),
}

impl fmt::Display for Judgement {
    ghost output = { λ x. Some (judgement_text x) };

    fn fmt<W: fmt::Write>(&self, f: &mut fmt::Formatter<W>) -> fmt::Result {
        match self {
            Judgement::Told(verdict) => write!(f, "{verdict}"),
            Judgement::Stranger(position) => {
                write!(
                    f,
                    "face {position}: one of its corners is not a point of the set"
                )
            }
        }
    }
}
