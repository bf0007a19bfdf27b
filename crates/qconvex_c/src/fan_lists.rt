//! The fans of the hull of points, and the buffers to which they are written.
ghost use Rattle.std.specs.Prelude.{◌≡◌, ◌≤◌, ◌<◌, ◌⊎◌, length, take, drop, true, false, IfOk};
ghost use Rattle.std.specs.List.{All};
ghost use Rattle.qh_model.specs.{contract.Places.IsPlace, declared.limits.TheConstants.POINT_LIMIT};
ghost use Rattle.qh_model.specs.headline.Hull.{IsHull};
ghost use Rattle.qconvex_c.specs.contract.Triangles.{AreFans};

use crate::buffers::put;
use crate::fans::{body_corners, body_normals};
use crate::given::{CPoint, points_of};
use qh_model::{Hull, Memory, Point};
use qh_run::hull_alone;
use std::alloc::Global;

/// Triangles, by their corners and their normals.
#[derive(Drop)]
pub struct FanLists {
    pub count: usize,
    pub triangles: Vec<u32>,
    pub normals: Vec<i64>,
}

/// Returns the fans of a hull.
fn fan_lists(alloc: Global, pts: &[Point], hull: &Hull) -> Result<FanLists, Memory>
    requires { IsHull pts.now hull.now }
    ensures { IfOk result (λ f. AreFans pts.now f.count f.triangles.items f.normals.items) }
{
    let triangles = body_corners(alloc, &hull.body)?;
    let normals = body_normals(alloc, pts, &hull.body)?;
    Ok(FanLists {
        count: triangles.len() / 3,
        triangles,
        normals,
    })
}

/// Returns the fans of the hull of valid points.
///
/// # Errors
///
/// `Memory` if an allocation failed.
pub fn fan_lists_of(alloc: Global, points: &[CPoint]) -> Result<FanLists, Memory>
    requires some { 0 < length points.now }
    requires few { length points.now ≤ POINT_LIMIT }
    requires places { All IsPlace points.now }
    ensures { IfOk result (λ f. AreFans points.now f.count f.triangles.items f.normals.items) }
{
    let pts = points_of(alloc, points)?;
    let hull = hull_alone(alloc, &pts)?;
    fan_lists(alloc, &pts, &hull)
}

/// Writes fans to buffers and returns true if each is long enough. Else leaves them unchanged and returns false.
pub fn fill_fans(fans: &FanLists, triangles: &mut [u32], normals: &mut [i64]) -> bool
    ensures done { result ≡ true → (take (length fans.now.triangles.items) triangles.new ≡ fans.now.triangles.items)
        × (take (length fans.now.normals.items) normals.new ≡ fans.now.normals.items) }
    ensures rest { result ≡ true → (drop (length fans.now.triangles.items) triangles.new ≡ drop (length fans.now.triangles.items) triangles.old)
        × (drop (length fans.now.normals.items) normals.new ≡ drop (length fans.now.normals.items) normals.old) }
    ensures short { result ≡ false → (length triangles.old < length fans.now.triangles.items) ⊎ (length normals.old < length fans.now.normals.items) }
    ensures kept { result ≡ false → (triangles.new ≡ triangles.old) × (normals.new ≡ normals.old) }
{
    if triangles.len() < fans.triangles.len() || normals.len() < fans.normals.len() {
        return false;
    }
    put(triangles, &fans.triangles);
    put(normals, &fans.normals);
    true
}
