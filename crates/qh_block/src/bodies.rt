//! Bodies of sets in a point, a line or a plane.
ghost use Rattle.std.specs.Prelude.{◌≡◌, IfOk};
ghost use Rattle.qh_block.specs.steps.FlatBodies.{IsFlatBody};

use qh_model::{Body, Id, Memory, Polygon};
use qh_polygon::rising_ids;
use std::alloc::Global;

/// Returns the polygon of a few ids.
pub fn polygon_of(alloc: Global, ids: &[Id]) -> Result<Polygon, Memory>
    ensures { IfOk result (λ q. q ≡ ids.now) }
{
    Ok(Polygon::of(Vec::from_slice(alloc, ids)?))
}

/// Returns the hull of a set with one polygon, of this dimension and with this number of edges.
pub fn flat_body(alloc: Global, dim: u8, polygon: Polygon, edges: u64) -> Result<Body, Memory>
    ensures { IfOk result (λ b. IsFlatBody dim polygon edges b) }
{
    let extremes = rising_ids(alloc, polygon.ids())?;
    let mut polygons = Vec::new(alloc);
    polygons.push(polygon)?;
    Ok(Body {
        dim,
        extremes,
        polygons,
        edges,
    })
}
