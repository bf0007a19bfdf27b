//! The faces of a hull as fans of triangles, in flat lists.
ghost use Rattle.std.specs.Prelude.{◌≡◌, ◌++◌, ◌∷◌, [], ◌<◌, All, IfOk, OnOk};
ghost use Rattle.std.specs.List.{flat_map};
ghost use Rattle.qh_model.specs.{contract.IdSets.AreIndices, headline.Predicates.place};
ghost use Rattle.qconvex_c.specs.steps.FaceFans.{face_corners, face_normals};

use qh_model::{Body, Point, Polygon};
use qh_pred::{Normal, cross, point_at};
use std::alloc::{AllocError, Global};

/// Appends the corners of the triangles of a face.
fn push_corners(numbers: &mut Vec<u32>, face: &Polygon) -> Result<(), AllocError>
    ensures { OnOk result (numbers.new.items ≡ numbers.old.items ++ face_corners face.now) }
{
    for [u, v, w] in face.fan() {
        numbers.extend_from_slice(&[u.number(), v.number(), w.number()])?;
    }
    Ok(())
}

/// Returns the corners of the triangles of faces.
fn fan_corners(alloc: Global, faces: &[Polygon]) -> Result<Vec<u32>, AllocError>
    ensures { IfOk result (λ v. v.items ≡ flat_map face_corners faces.now) }
{
    let mut numbers = Vec::new(alloc);
    for face in faces {
        push_corners(&mut numbers, face)?;
    }
    Ok(numbers)
}

/// Appends the components of a normal, which have 64 bits.
fn push_normal(components: &mut Vec<i64>, normal: Normal) -> Result<(), AllocError>
    ensures { OnOk result (components.new.items ≡ components.old.items ++ normal.x ∷ normal.y ∷ normal.z ∷ []) }
{
    components.push(normal.x() as i64)?;
    components.push(normal.y() as i64)?;
    components.push(normal.z() as i64)?;
    Ok(())
}

/// Appends the normals of the triangles of a face.
fn push_normals(components: &mut Vec<i64>, pts: &[Point], face: &Polygon) -> Result<(), AllocError>
    requires { AreIndices pts.now face.now }
    ensures { OnOk result (components.new.items ≡ components.old.items ++ face_normals (place pts.now) face.now) }
{
    for [u, v, w] in face.fan() {
        let normal = cross(point_at(pts, u), point_at(pts, v), point_at(pts, w));
        push_normal(components, normal)?;
    }
    Ok(())
}

/// Returns the normals of the triangles of faces.
fn fan_normals(alloc: Global, pts: &[Point], faces: &[Polygon]) -> Result<Vec<i64>, AllocError>
    requires { All (AreIndices pts.now) faces.now }
    ensures { IfOk result (λ v. v.items ≡ flat_map (face_normals (place pts.now)) faces.now) }
{
    let mut components = Vec::new(alloc);
    for face in faces {
        push_normals(&mut components, pts, face)?;
    }
    Ok(components)
}

/// Returns the corners of the triangles of a hull.
pub fn body_corners(alloc: Global, body: &Body) -> Result<Vec<u32>, AllocError>
    ensures { IfOk result (λ v. v.items ≡ flat_map face_corners body.now.polygons) }
{
    fan_corners(alloc, &body.polygons)
}

/// Returns the normals of the triangles of a hull.
pub fn body_normals(alloc: Global, pts: &[Point], body: &Body) -> Result<Vec<i64>, AllocError>
    requires { AreIndices pts.now body.now.extremes }
    ensures { IfOk result (λ v. v.items ≡ flat_map (face_normals (place pts.now)) body.now.polygons) }
{
    fan_normals(alloc, pts, &body.polygons)
}
