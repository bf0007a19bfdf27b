//! The planes of triangles.
ghost use Rattle.std.specs.Prelude.{◌≡◌, ◌≤◌, ◌↔◌, IsTrue, pos, ◌<ℤ◌, unsigned_abs};
ghost use Rattle.qh_model.specs.headline.{Vector.Vector, Vector.dot, Predicates.vol};
ghost use Rattle.qh_pred.specs.{contract.Planes.PlaneValue, contract.Planes.height, steps.Differences.offset_limit};

use crate::components::Components;
use crate::normal::Normal;
use crate::predicates::product;
use qh_model::Point;
use std::marker::Model;

/// The plane of a triangle: its normal, and the scalar product of the normal with each point of the plane. The normal
/// is computed once, so a side test of a point costs three products of 64 bits.
///
/// A contract sees it as these whole numbers, without bound.
///
/// Source: Barber, Dobkin and Huhdanpaa 1996 (a facet keeps its hyperplane).
#[derive(Clone, Copy)]
pub struct Plane {
    x: i64,
    y: i64,
    z: i64,
    offset: i128,
}

impl Model for Plane {
    ghost use Rattle.qh_pred.specs.contract.Planes.{PlaneValue};
    ghost use Rattle.qh_pred.specs.steps.StoredPlanes.{plane_code, IsPlane};

    ghost Value = { PlaneValue };

    ghost coded = { plane_code };

    ghost view = { λ p. record { normal = record { x = p.x; y = p.y; z = p.z }; offset = p.offset } };

    ghost invariant = { λ p. IsPlane (record { normal = record { x = p.x; y = p.y; z = p.z }; offset = p.offset }) };

    ghost inverse = { λ p. record { x = p.normal.x; y = p.normal.y; z = p.normal.z; offset = p.offset } };
}

impl Plane {
    /// Returns the plane of the triangle a, b, c. The triangle is counterclockwise seen from the side above.
    pub fn through(a: Point, b: Point, c: Point) -> Plane
        ensures { (p : Vector) → height result p ≡ vol a b c p }
    {
        let normal = product(a, b, c);
        Plane {
            x: normal.x(),
            y: normal.y(),
            z: normal.z(),
            offset: normal.dot(Components::of_point(a)),
        }
    }

    /// Returns its normal, which points to the side above.
    pub fn normal(&self) -> Normal
        ensures { result ≡ self.now.normal }
    {
        Normal::of_product(Components::new(self.x, self.y, self.z))
    }

    /// Returns the scalar product of the normal and each point of the plane.
    pub fn offset(&self) -> i128
        ensures { result ≡ self.now.offset }
    {
        self.offset
    }

    /// Returns the scalar product of the normal and a point.
    fn reach(&self, p: Point) -> i128
        ensures value { result ≡ dot self.now.normal p }
        ensures limit { unsigned_abs result ≤ offset_limit }
    {
        Components::new(self.x, self.y, self.z).dot(Components::of_point(p))
    }

    /// Returns six times the volume of the triangle's tetrahedron with `p`: above 0 if `p` is above the plane, 0 if it
    /// is on it.
    pub fn height(&self, p: Point) -> i128
        ensures { result ≡ height self.now p }
    {
        self.reach(p) - self.offset
    }

    /// Returns true if `p` is above the plane, so that the triangle strictly sees it.
    pub fn sees(&self, p: Point) -> bool
        ensures { IsTrue result ↔ (pos 0 <ℤ height self.now p) }
    {
        self.reach(p) > self.offset
    }
}
