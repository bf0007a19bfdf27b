//! Planes with normals of few bits, whose heights take 64 bits.
//!
//! The normal of three points that are far apart has components of 62 bits, so a height takes 128 bits. A plane with a
//! shorter normal is enough to show that points are strictly below a plane, if it lies a little below that plane
//! wherever points are.
ghost use Rattle.std.specs.Prelude.{◌≡◌, ◌≤◌, ◌<◌, ◌*◌, ◌^◌, ◌↔◌, pos, ◌+ℤ◌, ◌-ℤ◌, ◌*ℤ◌, ◌≤ℤ◌, ◌<ℤ◌, IfSome, IsTrue};
ghost use Rattle.std.specs.Prelude.{unsigned_abs};
ghost use Rattle.qh_model.specs.{contract.Places.IsPlace, declared.limits.TheConstants.COORDINATE_LIMIT};
ghost use Rattle.qh_model.specs.headline.{Limits.IsCoordinate, Vector.Vector, Vector.dot};
ghost use Rattle.qh_pred.specs.contract.{Bounds.normal_limit, Planes.height};
ghost use Rattle.qh_block.specs.contract.CoarsePlanes.{IsOffset, IsUnder};
ghost use Rattle.qh_block.specs.steps.CoarsePlanes.{IsLowered, IsRest, IsRoomFor};

use qh_model::{COORDINATE_LIMIT, Point};
use qh_pred::{Normal, Plane};
use std::marker::Model;

/// The bits of the components of a coarse plane's normal.
const COMPONENT_BITS: u32 = 30;

/// A plane whose normal has components within the coordinate limit.
///
/// A contract sees it as its normal and offset, whole numbers without bound.
#[derive(Clone, Copy)]
pub struct CoarsePlane {
    /// The point to which the normal leads from the origin.
    tip: Point,
    offset: i64,
}

impl Model for CoarsePlane {
    ghost use Rattle.qh_pred.specs.{contract.Planes.PlaneValue, steps.StoredPlanes.plane_code};
    ghost use Rattle.qh_block.specs.contract.CoarsePlanes.{IsCoarse};

    ghost Value = { PlaneValue };

    ghost coded = { plane_code };

    ghost view = { λ p. record { normal = p.tip; offset = p.offset } };

    ghost invariant = { λ p. IsCoarse (record { normal = p.tip; offset = p.offset }) };

    ghost inverse = { λ p. record { tip = p.normal; offset = p.offset } };
}

/// Returns the product of two coordinates.
fn product(a: i32, b: i32) -> i64
    requires a { IsCoordinate a }
    requires b { IsCoordinate b }
    ensures value { result ≡ a *ℤ b }
    ensures limit { unsigned_abs result ≤ COORDINATE_LIMIT * COORDINATE_LIMIT }
{
    i64::from(a) * i64::from(b)
}

/// Returns the sum of three products of coordinates.
fn sum(a: i64, b: i64, c: i64) -> i64
    requires a { unsigned_abs a ≤ COORDINATE_LIMIT * COORDINATE_LIMIT }
    requires b { unsigned_abs b ≤ COORDINATE_LIMIT * COORDINATE_LIMIT }
    requires c { unsigned_abs c ≤ COORDINATE_LIMIT * COORDINATE_LIMIT }
    ensures { result ≡ a +ℤ b +ℤ c }
{
    a + b + c
}

/// Returns the length of a number of steps.
fn length(steps: i64, step: i64) -> i128
    ensures value { result ≡ steps *ℤ step }
    ensures limit { unsigned_abs result ≤ 2 ^ 126 }
{
    i128::from(steps) * i128::from(step)
}

/// Returns the step by which components of a normal are divided: a power of 2, and 1 if they are small.
fn step_of(normal: &Normal) -> i64 {
    let greatest = normal
        .x()
        .unsigned_abs()
        .max(normal.y().unsigned_abs())
        .max(normal.z().unsigned_abs());
    let bits = u128::BITS.saturating_sub(greatest.leading_zeros());
    1i64.wrapping_shl(bits.saturating_sub(COMPONENT_BITS))
}

/// Returns the number of whole steps in a component of a normal, if it is within the coordinate limit.
fn steps_in(component: i128, step: i64) -> Option<i32>
    requires { unsigned_abs component ≤ normal_limit }
    ensures { IfSome result IsCoordinate }
{
    let quotient = (component as i64).checked_div_euclid(step)?;
    let steps = i32::try_from(quotient).ok()?;
    if steps.unsigned_abs() > COORDINATE_LIMIT {
        None
    } else {
        Some(steps)
    }
}

/// Returns a component of a normal minus a part of it.
fn left_of(component: i128, part: i128) -> i128
    requires component { unsigned_abs component ≤ normal_limit }
    requires part { unsigned_abs part ≤ 2 ^ 126 }
    ensures value { result ≡ component -ℤ part }
    ensures limit { unsigned_abs result < 2 ^ 127 }
{
    component - part
}

/// Returns a number if it is not below 0 and fits 64 bits.
fn small(number: i128) -> Option<i128>
    ensures same { IfSome result (λ found. found ≡ number) }
    ensures low { IfSome result (λ found. pos 0 ≤ℤ found) }
    ensures limit { IfSome result (λ found. unsigned_abs found ≤ 2 ^ 64) }
{
    if number < 0 || number > i128::from(u64::MAX) {
        None
    } else {
        Some(number)
    }
}

/// Returns a component of a normal minus a number of steps, if the rest is not below 0 and fits 64 bits.
fn rest_of(component: i128, steps: i32, step: i64) -> Option<i128>
    requires { unsigned_abs component ≤ normal_limit }
    ensures rest { IfSome result (IsRest component steps step) }
    ensures limit { IfSome result (λ rest. unsigned_abs rest ≤ 2 ^ 64) }
{
    let left = left_of(component, length(i64::from(steps), step));
    let rest = small(left)?;
    Some(rest)
}

/// Returns the sum of three rests.
fn total(x: i128, y: i128, z: i128) -> i128
    requires x { unsigned_abs x ≤ 2 ^ 64 }
    requires y { unsigned_abs y ≤ 2 ^ 64 }
    requires z { unsigned_abs z ≤ 2 ^ 64 }
    ensures value { result ≡ x +ℤ y +ℤ z }
    ensures limit { unsigned_abs result ≤ 2 ^ 66 }
{
    x + y + z
}

/// Returns the bound for rests with this sum: the greatest scalar product of the rests and a point.
fn room(total: i128) -> i128
    requires { unsigned_abs total ≤ 2 ^ 66 }
    ensures value { result ≡ total *ℤ pos COORDINATE_LIMIT }
    ensures limit { unsigned_abs result ≤ 2 ^ 96 }
{
    total * i128::from(COORDINATE_LIMIT)
}

/// Returns the normal in whole steps, as a point.
fn tip_of(normal: &Normal, step: i64) -> Option<Point>
    ensures { IfSome result IsPlace }
{
    let x = steps_in(normal.x(), step)?;
    let y = steps_in(normal.y(), step)?;
    let z = steps_in(normal.z(), step)?;
    Some(Point::new(x, y, z))
}

/// Returns the bound for the rests of the components of a normal after the steps.
fn room_for(normal: &Normal, tip: Point, step: i64) -> Option<i128>
    ensures room { IfSome result (IsRoomFor normal.now tip step) }
    ensures limit { IfSome result (λ r. unsigned_abs r ≤ 2 ^ 96) }
{
    let x = rest_of(normal.x(), tip.x(), step)?;
    let y = rest_of(normal.y(), tip.y(), step)?;
    let z = rest_of(normal.z(), tip.z(), step)?;
    Some(room(total(x, y, z)))
}

/// Returns the greatest offset found, in steps, that is below the offset of a plane by at least `room`.
fn lowered(plane: &Plane, room: i128, step: i64) -> Option<i64>
    requires { unsigned_abs room ≤ 2 ^ 96 }
    ensures low { IfSome result (IsLowered plane.now.offset room step) }
    ensures range { IfSome result IsOffset }
{
    let offset = plane.offset();
    let quotient = offset
        .wrapping_sub(room)
        .checked_div_euclid(i128::from(step))?;
    let steps = i64::try_from(quotient).ok()?;
    if length(steps, step) + room > offset {
        None
    } else {
        Some(steps)
    }
}

impl CoarsePlane {
    /// Returns the plane with a normal, by its tip, and an offset.
    fn new(tip: Point, offset: i64) -> CoarsePlane
        requires { IsPlace tip }
        ensures { result ≡ record { normal = tip; offset = offset } }
    {
        CoarsePlane { tip, offset }
    }

    /// Returns a plane with no point strictly below it.
    fn below_all() -> CoarsePlane
        ensures { (p : Vector) → height result p ≡ pos 0 }
    {
        CoarsePlane::new(Point::new(0, 0, 0), 0)
    }

    /// Returns the plane below another one whose normal is that of the other, divided by a step.
    fn with_step(plane: &Plane, step: i64) -> Option<CoarsePlane>
        ensures { IfSome result (IsUnder plane.now) }
    {
        if step <= 0 {
            return None;
        }
        let normal = plane.normal();
        let tip = tip_of(&normal, step)?;
        let room = room_for(&normal, tip, step)?;
        let offset = lowered(plane, room, step)?;
        Some(CoarsePlane::new(tip, offset))
    }

    /// Returns a plane below another one, as near to it as the few bits allow. A point that is strictly below the
    /// returned plane is strictly below the other.
    pub fn under(plane: &Plane) -> CoarsePlane
        ensures { IsUnder plane.now result }
    {
        match CoarsePlane::with_step(plane, step_of(&plane.normal())) {
            Some(coarse) => coarse,
            None => CoarsePlane::below_all(),
        }
    }

    /// Returns the normal, as the point to which it leads from the origin.
    pub fn tip(&self) -> Point
        ensures { result ≡ self.now.normal }
    {
        self.tip
    }

    /// Returns the scalar product of the normal and each point of the plane.
    pub fn offset(&self) -> i64
        ensures { result ≡ self.now.offset }
    {
        self.offset
    }

    /// Returns the scalar product of the normal and a point.
    fn reach(&self, p: Point) -> i64
        ensures value { result ≡ dot self.now.normal p }
        ensures place { IsPlace p }
    {
        let tip = self.tip();
        sum(
            product(tip.x(), p.x()),
            product(tip.y(), p.y()),
            product(tip.z(), p.z()),
        )
    }

    /// Returns true if a point is strictly below the plane.
    pub fn is_above(&self, p: Point) -> bool
        ensures below { IsTrue result ↔ (height self.now p <ℤ pos 0) }
        ensures place { IsPlace p }
    {
        self.reach(p) < self.offset()
    }
}
