//! The faults of one polygon.
ghost use Rattle.std.specs.Prelude.{Some};
ghost use Rattle.qh_check.specs.contract.Texts.{face_fault_text};

use qh_model::Id;
use std::fmt;

/// A fault of one polygon, by the plane through its first three corners.
#[derive(Clone, Copy, Debug, PartialEq, Eq)]
pub enum FaceFault {
    /// The plane does not exist: the polygon has fewer than three corners, one of the first three is no id of the set,
    /// or they lie in one line.
    NoPlane,
    /// This id of the set lies above the plane, on the side from which the three corners are counterclockwise.
    Above(Id),
    /// The plane supports the set, but the polygon does not go round corners of its face.
    OtherFace,
}

impl fmt::Display for FaceFault {
    ghost output = { λ x. Some (face_fault_text x) };

    fn fmt<W: fmt::Write>(&self, f: &mut fmt::Formatter<W>) -> fmt::Result {
        match self {
            FaceFault::NoPlane => write!(f, "its first three corners are no points in a plane"),
            FaceFault::Above(id) => {
                let number = id.number();
                write!(f, "point {number} is above its plane")
            }
            FaceFault::OtherFace => write!(f, "the polygon of its plane is another"),
        }
    }
}
