//! The faces of a caller, cut from one list of corners.
ghost use Rattle.std.specs.Prelude.{◌≡◌, IfOk, length};
ghost use Rattle.qconvex_c.specs.contract.{Checked.AreFacesIn, Sets.AreStarts};

use crate::sets::set_at;
use qh_model::{Id, Polygon};
use std::alloc::{AllocError, Global};

/// Returns the polygon with these corners.
fn polygon_of(alloc: Global, corners: &[u32]) -> Result<Polygon, AllocError>
    ensures { IfOk result (λ q. q ≡ corners.now) }
{
    let mut ids = Vec::with_capacity(alloc, corners.len())?;
    for corner in corners {
        ids.push(Id::new(*corner))?;
    }
    Ok(Polygon::of(ids))
}

/// Returns the faces whose corners are in one list, each from its offset to before the next one.
pub fn cut_faces(
    alloc: Global,
    offsets: &[usize],
    corners: &[u32],
) -> Result<Vec<Polygon>, AllocError>
    requires { AreStarts (length corners.now) offsets.now }
    ensures { IfOk result (λ v. AreFacesIn offsets.now corners.now v.items) }
{
    let mut faces = Vec::with_capacity(alloc, offsets.len())?;
    for number in 0..offsets.len() - 1 {
        let part = set_at(offsets, number);
        faces.push(polygon_of(alloc, &corners[part.begin..part.end])?)?;
    }
    Ok(faces)
}
