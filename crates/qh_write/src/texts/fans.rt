//! Fans of triangles in place of the faces.
ghost use Rattle.std.specs.{List.flat_map, Prelude.◌≡◌, Prelude.◌++◌, Prelude.◌<◌, Prelude.OnOk, Prelude.IfOk, Prelude.All, Prelude.length, Prelude.decimal};
ghost use Rattle.qh_model.specs.headline.{Fan.fan, Fan.fans, Fan.edge_count, Text.line, Text.spaced};
ghost use Rattle.qh_write.specs.steps.Numberings.{AreNumbered, face_by_numbers};

use super::edges::fan_edges;
use super::lines::{push_line_end, push_number, push_spaced};
use super::numbering::VertexNumbers;
use super::off::push_face;
use qh_model::{Body, Id, Polygon};
use std::alloc::{AllocError, Global};

/// Appends a face as a fan of triangles, or unchanged if it has fewer than three corners.
fn push_fan(text: &mut Vec<u8>, numbers: &VertexNumbers, face: &Polygon) -> Result<(), AllocError>
    requires { AreNumbered numbers.now face.now }
    ensures { OnOk result (text.new.items ≡ text.old.items ++ flat_map (face_by_numbers numbers.now) (fan face.now)) }
{
    if face.ids().len() < 3 {
        return push_face(text, numbers, face.ids());
    }
    for triangle in face.fan() {
        push_face(text, numbers, &triangle)?;
    }
    Ok(())
}

/// Appends faces as fans of triangles.
pub fn push_fans(
    text: &mut Vec<u8>,
    numbers: &VertexNumbers,
    faces: &[Polygon],
) -> Result<(), AllocError>
    requires { All (AreNumbered numbers.now) faces.now }
    ensures { OnOk result (text.new.items ≡ text.old.items ++ flat_map (face_by_numbers numbers.now) (fans faces.now)) }
{
    for face in faces {
        push_fan(text, numbers, face)?;
    }
    Ok(())
}

/// Returns the number of faces in the fan of a face.
#[tactic(auto, using(crate::proofs::FanLemmas::fan_length))]
pub fn fan_size(face: &[Id]) -> usize
    ensures { result ≡ length (fan face.now) }
{
    if face.len() < 3 { 1 } else { face.len() - 2 }
}

/// Returns the number of faces in the fans of faces.
fn fan_faces(faces: &[Polygon]) -> Result<usize, AllocError>
    ensures { IfOk result (λ n. n ≡ length (fans faces.now)) }
{
    let mut count: usize = 0;
    for face in faces {
        // A sum out of range would need more ids than fit into memory.
        count = count.checked_add(fan_size(face.ids())).ok_or(AllocError)?;
    }
    Ok(count)
}

/// Appends the numbers of vertices, of triangles and of their edges.
pub fn push_fan_counts(text: &mut Vec<u8>, alloc: Global, body: &Body) -> Result<(), AllocError>
    ensures { OnOk result (text.new.items ≡ text.old.items ++ line (decimal (length body.now.extremes)
        ++ spaced (length (fans body.now.polygons)) ++ spaced (edge_count (fans body.now.polygons)))) }
{
    let faces = fan_faces(&body.polygons)?;
    let edges = fan_edges(alloc, &body.polygons, faces)?;
    push_number(text, body.extremes.len() as u64)?;
    push_spaced(text, faces as u64)?;
    push_spaced(text, edges as u64)?;
    push_line_end(text)
}
