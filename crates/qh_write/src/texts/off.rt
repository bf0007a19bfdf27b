//! The texts of `Fx` and of OFF files.
ghost use Rattle.std.specs.{List.flat_map, Prelude.◌≡◌, Prelude.◌++◌, Prelude.◌<◌, Prelude.OnOk, Prelude.All, Prelude.length, Prelude.decimal};
ghost use Rattle.qh_model.specs.{contract.IdSets.AreIndices, headline.Predicates.place};
ghost use Rattle.qh_model.specs.headline.Text.{line, spaced, extremes_text, vertex_text, off_text};
ghost use Rattle.qh_write.specs.{contract.Pieces.bytes_in, steps.Forms.body_shown};
ghost use Rattle.qh_write.specs.steps.Numberings.{AreNumbered, face_by_numbers};

use super::forms::FaceForm;
use super::lines::{push_line_end, push_number, push_signed, push_spaced};
use super::numbering::{VertexNumbers, vertex_numbers};
use super::scribes::{NumberedFaces, Scribe, Vertices};
use crate::pieces::Pieces;
use qh_model::{Body, Id, Point, Polygon};
use std::alloc::{AllocError, Global};

/// Appends the number of extreme points and their ids.
pub fn push_extremes(text: &mut Vec<u8>, body: &Body) -> Result<(), AllocError>
    ensures { OnOk result (text.new.items ≡ text.old.items ++ extremes_text body.now) }
{
    push_number(text, body.extremes.len() as u64)?;
    push_line_end(text)?;
    for id in &body.extremes {
        push_number(text, u64::from(id.number()))?;
        push_line_end(text)?;
    }
    Ok(())
}

#[tactic(auto, using(std::proofs::Common::append_assoc))]
fn push_vertex(text: &mut Vec<u8>, point: Point) -> Result<(), AllocError>
    ensures { OnOk result (text.new.items ≡ text.old.items ++ vertex_text point) }
{
    push_signed(text, point.x())?;
    text.push(b' ')?;
    push_signed(text, point.y())?;
    text.push(b' ')?;
    push_signed(text, point.z())?;
    push_line_end(text)
}

/// Appends the points with these ids.
#[tactic(auto, unfolding(qh_model::specs::headline::Predicates::place))]
pub fn push_vertices(text: &mut Vec<u8>, pts: &[Point], ids: &[Id]) -> Result<(), AllocError>
    requires { All (λ i. i < length pts.now) ids.now }
    ensures { OnOk result (text.new.items ≡ text.old.items ++ flat_map (λ i. vertex_text (place pts.now i)) ids.now) }
{
    for id in ids {
        push_vertex(text, pts[id.index()])?;
    }
    Ok(())
}

/// Appends a face, each vertex by its number.
pub fn push_face(text: &mut Vec<u8>, numbers: &VertexNumbers, face: &[Id]) -> Result<(), AllocError>
    requires { AreNumbered numbers.now face.now }
    ensures { OnOk result (text.new.items ≡ text.old.items ++ face_by_numbers numbers.now face.now) }
{
    push_number(text, face.len() as u64)?;
    for id in face {
        push_spaced(text, numbers.number(*id))?;
    }
    push_line_end(text)
}

/// Appends faces, each vertex by its number.
pub fn push_faces(
    text: &mut Vec<u8>,
    numbers: &VertexNumbers,
    faces: &[Polygon],
) -> Result<(), AllocError>
    requires { All (AreNumbered numbers.now) faces.now }
    ensures { OnOk result (text.new.items ≡ text.old.items ++ flat_map (face_by_numbers numbers.now) faces.now) }
{
    for face in faces {
        push_face(text, numbers, face.ids())?;
    }
    Ok(())
}

/// Appends the numbers of vertices, faces and edges.
pub fn push_counts(text: &mut Vec<u8>, body: &Body) -> Result<(), AllocError>
    ensures { OnOk result (text.new.items ≡ text.old.items ++ line (decimal (length body.now.extremes)
        ++ spaced (length body.now.polygons) ++ spaced body.now.edges)) }
{
    push_number(text, body.extremes.len() as u64)?;
    push_spaced(text, body.polygons.len() as u64)?;
    push_spaced(text, body.edges)?;
    push_line_end(text)
}

/// Appends the OFF text of a hull, with its faces in a form.
pub fn push_off<S: Scribe>(
    scribe: &S,
    text: &mut Pieces,
    alloc: Global,
    form: FaceForm,
    body: &Body,
    pts: &[Point],
) -> Result<(), AllocError>
    requires indices { AreIndices pts.now body.now.extremes }
    requires ready { S.ready scribe.now }
    ensures { OnOk result (bytes_in text.new ≡ bytes_in text.old ++ off_text (body_shown form body.now) pts.now) }
{
    text.last.extend_from_slice(b"OFF\n")?;
    form.push_counts(&mut text.last, alloc, body)?;
    let ids = &body.extremes;
    scribe.push_vertices(text, alloc, Vertices { pts, ids })?;
    let numbers = vertex_numbers(alloc, ids, pts.len())?;
    let faces = NumberedFaces {
        form,
        numbers: &numbers,
        polygons: &body.polygons,
    };
    scribe.push_faces(text, alloc, faces)?;
    Ok(())
}
