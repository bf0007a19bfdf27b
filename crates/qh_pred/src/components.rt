//! Differences of points and their products, in 64 bits; only the last product of a volume has 128 bits.
ghost use Rattle.std.specs.Prelude.{◌≡◌, ◌≤◌, ◌*ℤ◌, ◌-ℤ◌, ◌↔◌, IsTrue, unsigned_abs};
ghost use Rattle.qh_model.specs.headline.Vector.{Vector, origin, minus, cross_product, dot};
ghost use Rattle.qh_model.specs.headline.Limits.{IsCoordinate};
ghost use Rattle.qh_model.specs.contract.Places.{IsPlace};
ghost use Rattle.qh_pred.specs.contract.Bounds.{difference_limit, normal_limit, IsNormal};
ghost use Rattle.qh_pred.specs.steps.Differences.{offset_limit, IsDifference};
ghost use Rattle.qh_pred.specs.contract.Turns.{sign, first_product};

use qh_model::Point;
use std::cmp::Ordering;
use std::marker::Model;

/// A difference of two points.
#[derive(Clone, Copy)]
pub struct Difference {
    x: i64,
    y: i64,
    z: i64,
}

impl Model for Difference {
    ghost use Rattle.qh_model.specs.{contract.Places.vector_code, headline.Vector.Vector};
    ghost use Rattle.qh_pred.specs.steps.Differences.{IsDifference};

    ghost Value = { Vector };

    ghost coded = { vector_code };

    ghost view = { λ d. record { x = d.x; y = d.y; z = d.z } };

    ghost invariant = { λ d. IsDifference (record { x = d.x; y = d.y; z = d.z }) };

    ghost inverse = { λ d. record { x = d.x; y = d.y; z = d.z } };
}

/// A difference of two points or a cross product of two differences.
#[derive(Clone, Copy)]
pub struct Components {
    x: i64,
    y: i64,
    z: i64,
}

impl Model for Components {
    ghost use Rattle.qh_model.specs.{contract.Places.vector_code, headline.Vector.Vector};
    ghost use Rattle.qh_pred.specs.contract.Bounds.{IsNormal};

    ghost Value = { Vector };

    ghost coded = { vector_code };

    ghost view = { λ v. record { x = v.x; y = v.y; z = v.z } };

    ghost invariant = { λ v. IsNormal (record { x = v.x; y = v.y; z = v.z }) };

    ghost inverse = { λ v. record { x = v.x; y = v.y; z = v.z } };
}

/// Returns the difference of two coordinates.
fn coordinate_difference(b: i32, a: i32) -> i64
    requires b_within { IsCoordinate b }
    requires a_within { IsCoordinate a }
    ensures value { result ≡ b -ℤ a }
    ensures limit { unsigned_abs result ≤ difference_limit }
{
    i64::from(b) - i64::from(a)
}

/// Returns a component of a cross product, a b - c d: twice the area of the triangle whose sides from one corner are
/// (a, c) and (d, b), in a square of side `difference_limit`.
fn minor(a: i64, b: i64, c: i64, d: i64) -> i64
    requires a_within { unsigned_abs a ≤ difference_limit }
    requires b_within { unsigned_abs b ≤ difference_limit }
    requires c_within { unsigned_abs c ≤ difference_limit }
    requires d_within { unsigned_abs d ≤ difference_limit }
    requires wide { unsigned_abs (a -ℤ d) ≤ difference_limit }
    requires high { unsigned_abs (c -ℤ b) ≤ difference_limit }
    ensures value { result ≡ a *ℤ b -ℤ c *ℤ d }
    ensures limit { unsigned_abs result ≤ normal_limit }
{
    a * b - c * d
}

/// Returns the sign of the product of two numbers without computing the product.
fn product_sign(a: i64, b: i64) -> Ordering
    ensures { result ≡ sign (a *ℤ b) }
{
    match a.cmp(&0) {
        Ordering::Less => 0.cmp(&b),
        Ordering::Equal => Ordering::Equal,
        Ordering::Greater => b.cmp(&0),
    }
}

/// Returns the product of two numbers of 64 bits, in 128.
fn wide_product(a: i64, b: i64) -> i128
    ensures { result ≡ a *ℤ b }
{
    i128::from(a) * i128::from(b)
}

impl Difference {
    /// Returns the vector from a to b.
    pub fn between(a: Point, b: Point) -> Difference
        ensures value { result ≡ minus b a }
        ensures from { IsPlace a }
        ensures to { IsPlace b }
    {
        Difference {
            x: coordinate_difference(b.x(), a.x()),
            y: coordinate_difference(b.y(), a.y()),
            z: coordinate_difference(b.z(), a.z()),
        }
    }

    /// Returns the cross product of two differences that start at one point. The difference between their ends is a
    /// difference of points, too.
    pub fn cross(self, other: Difference) -> Components
        requires { IsDifference (minus self other) }
        ensures { result ≡ cross_product self other }
    {
        Components {
            x: minor(self.y, other.z, self.z, other.y),
            y: minor(self.z, other.x, self.x, other.z),
            z: minor(self.x, other.y, self.y, other.x),
        }
    }

    /// Returns the same vector in a type that products fit.
    pub fn components(self) -> Components
        ensures { result ≡ self }
    {
        Components {
            x: self.x,
            y: self.y,
            z: self.z,
        }
    }
}

impl Components {
    /// Returns the vector with these components. The caller keeps them within the limit.
    pub fn new(x: i64, y: i64, z: i64) -> Components
        requires { IsNormal (record { x = x; y = y; z = z }) }
        ensures { result ≡ record { x = x; y = y; z = z } }
    {
        Components { x, y, z }
    }

    /// Returns the vector from the origin to a point.
    pub fn of_point(p: Point) -> Components
        ensures { result ≡ p }
    {
        Components {
            x: i64::from(p.x()),
            y: i64::from(p.y()),
            z: i64::from(p.z()),
        }
    }

    /// Returns the first component.
    pub fn x(self) -> i64
        ensures value { result ≡ self.x }
        ensures limit { IsNormal self }
    {
        self.x
    }

    /// Returns the second component.
    pub fn y(self) -> i64
        ensures value { result ≡ self.y }
        ensures limit { IsNormal self }
    {
        self.y
    }

    /// Returns the third component.
    pub fn z(self) -> i64
        ensures value { result ≡ self.z }
        ensures limit { IsNormal self }
    {
        self.z
    }

    /// Returns true if each component is 0.
    pub fn is_zero(self) -> bool
        ensures { IsTrue result ↔ (self ≡ origin) }
    {
        self.x == 0 && self.y == 0 && self.z == 0
    }

    /// Returns the sign of the first component that is not 0, times the same component of another vector.
    pub fn first_sign(self, other: Components) -> Ordering
        ensures { result ≡ sign (first_product self other) }
    {
        if self.x != 0 {
            product_sign(self.x, other.x)
        } else if self.y != 0 {
            product_sign(self.y, other.y)
        } else {
            product_sign(self.z, other.z)
        }
    }

    /// Returns the scalar product of two vectors.
    pub fn dot(self, other: Components) -> i128
        ensures value { result ≡ dot self other }
        ensures limit { unsigned_abs result ≤ offset_limit }
    {
        wide_product(self.x, other.x)
            + wide_product(self.y, other.y)
            + wide_product(self.z, other.z)
    }
}
