//! The forms in which faces are written: as a whole, or as a fan of triangles.
ghost use Rattle.std.specs.{List.flat_map, Prelude.◌≡◌, Prelude.◌++◌, Prelude.OnOk, Prelude.All, Prelude.length, Prelude.decimal};
ghost use Rattle.qh_model.specs.headline.Text.{line, spaced};
ghost use Rattle.qh_write.specs.steps.{Forms.shown, Forms.edges_shown, Numberings.AreNumbered, Numberings.face_by_numbers};

use super::fans::{push_fan_counts, push_fans};
use super::numbering::VertexNumbers;
use super::off::{push_counts, push_faces};
use super::room::{faces_room, fans_room};
use qh_model::{Body, Polygon};
use std::alloc::{AllocError, Global};

/// A form of faces.
#[derive(Clone, Copy, Debug, PartialEq, Eq)]
pub enum FaceForm {
    /// Each face with all its corners.
    Whole,
    /// Each face as triangles that share its first corner.
    Fans,
}

impl FaceForm {
    /// Appends faces in this form, each vertex by its number.
    pub fn push(
        self,
        text: &mut Vec<u8>,
        numbers: &VertexNumbers,
        faces: &[Polygon],
    ) -> Result<(), AllocError>
        requires { All (AreNumbered numbers.now) faces.now }
        ensures { OnOk result (text.new.items ≡ text.old.items ++ flat_map (face_by_numbers numbers.now) (shown self faces.now)) }
    {
        match self {
            FaceForm::Whole => push_faces(text, numbers, faces),
            FaceForm::Fans => push_fans(text, numbers, faces),
        }
    }

    /// Appends the numbers of vertices, of faces in this form, and of their edges.
    pub fn push_counts(
        self,
        text: &mut Vec<u8>,
        alloc: Global,
        body: &Body,
    ) -> Result<(), AllocError>
        ensures { OnOk result (text.new.items ≡ text.old.items ++ line (decimal (length body.now.extremes)
            ++ spaced (length (shown self body.now.polygons)) ++ spaced (edges_shown self body.now))) }
    {
        match self {
            FaceForm::Whole => push_counts(text, body),
            FaceForm::Fans => push_fan_counts(text, alloc, body),
        }
    }

    /// Returns an upper bound of the number of bytes that the lines of faces take in this form.
    pub fn room(self, faces: &[Polygon]) -> usize {
        match self {
            FaceForm::Whole => faces_room(faces),
            FaceForm::Fans => fans_room(faces),
        }
    }
}
