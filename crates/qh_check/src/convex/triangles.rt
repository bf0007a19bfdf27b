//! Polygons of three ids.
ghost use Rattle.std.specs.Prelude.{◌≡◌, IfOk, IfSome};
ghost use Rattle.qh_model.specs.contract.ClosedSurface.{Triple};
ghost use Rattle.qh_check.specs.steps.Triangles.{AreTriangles, IsBelow, corners};

use qh_model::{Id, Point, Polygon};
use std::alloc::{AllocError, Global};
use std::marker::Model;

/// A triangle of ids, counterclockwise seen from outside.
///
/// A contract sees it as three ids in order.
#[derive(Clone, Copy)]
pub struct Triangle {
    i: Id,
    j: Id,
    k: Id,
}

impl Model for Triangle {
    ghost use Rattle.qh_model.specs.contract.ClosedSurface.{Triple};
    ghost use Rattle.qh_check.specs.steps.Triangles.{triple_code};

    ghost Value = { Triple };

    ghost coded = { triple_code };

    ghost view = { λ t. record { i = t.i; j = t.j; k = t.k } };

    ghost inverse = { λ t. record { i = t.i; j = t.j; k = t.k } };
}

impl Triangle {
    /// Returns the triangle of a polygon, if it has three corners, each below a number.
    fn of(polygon: &Polygon, count: usize) -> Option<Triangle>
        ensures { IfSome result (λ t. (polygon.now ≡ corners t) × IsBelow count t) }
    {
        let &[i, j, k] = polygon.ids() else {
            return None;
        };
        let are_below = i.index() < count && j.index() < count && k.index() < count;
        are_below.then_some(Triangle { i, j, k })
    }

    /// Returns the first corner.
    pub fn i(self) -> Id
        ensures { result ≡ self.i }
    {
        self.i
    }

    /// Returns the second corner.
    pub fn j(self) -> Id
        ensures { result ≡ self.j }
    {
        self.j
    }

    /// Returns the third corner.
    pub fn k(self) -> Id
        ensures { result ≡ self.k }
    {
        self.k
    }
}

/// Returns the triangles of polygons, or `None` if one is no triangle of indices of points.
pub fn triangles_of(
    alloc: Global,
    pts: &[Point],
    polygons: &[Polygon],
) -> Result<Option<Vec<Triangle>>, AllocError>
    ensures { IfOk result (λ r. IfSome r (λ ts. AreTriangles pts.now polygons.now ts.items)) }
{
    let mut triangles = Vec::with_capacity(alloc, polygons.len())?;
    for polygon in polygons {
        match Triangle::of(polygon, pts.len()) {
            Some(triangle) => triangles.push(triangle)?,
            None => return Ok(None),
        }
    }
    Ok(Some(triangles))
}
