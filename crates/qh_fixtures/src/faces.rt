//! Faces by the numbers of their corners.
use crate::ids::are;
use qh_model::{Id, Memory, Polygon};
use std::alloc::Global;

/// The faces with these corners, as `faces_of![0 1 3 2, 0 2 6 4]`.
#[macro_export]
macro_rules! faces_of {
    ($($($corner:literal)+),*) => { [$(&[$($corner),+]),*] };
}

/// The faces of `points::cube`, in their order.
pub const CUBE_FACES: [&[u32]; 6] = faces_of![0 1 3 2, 0 2 6 4, 0 4 5 1, 1 5 7 3, 2 3 7 6, 4 6 7 5];

/// Returns true if the polygons have these corners, in this order.
pub fn are_round(polygons: &[Polygon], faces: &[&[u32]]) -> bool {
    polygons.len() == faces.len()
        && polygons
            .iter()
            .zip(faces)
            .all(|(polygon, face)| are(polygon.ids(), face))
}

/// Returns the polygons with these corners.
///
/// # Errors
///
/// `Memory` if an allocation fails.
pub fn polygons_of(alloc: Global, faces: &[&[u32]]) -> Result<Vec<Polygon>, Memory> {
    let mut polygons = Vec::new(alloc);
    for face in faces {
        let ids = face.iter().map(|number| Id::new(*number)).collect(alloc)?;
        polygons.push(Polygon::of(ids))?;
    }
    Ok(polygons)
}
