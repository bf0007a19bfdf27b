//! Bundles of planes with similar normals. One test of a block of points decides for the whole bundle.
//!
//! A normal of the bundle is a multiple of the direction of the block, plus a rest. The rest is small if both are
//! nearly parallel, so the length of the box matters little.
ghost use Rattle.std.specs.Prelude.{◌≡◌, ◌<◌, ◌≤◌, ◌^◌, ◌+ℤ◌, ◌*ℤ◌, ◌-ℤ◌, ◌≤ℤ◌, ◌<ℤ◌, ℤ, pos, IsTrue, unsigned_abs};
ghost use Rattle.qh_model.specs.headline.Vector.{Vector, minus, dot};
ghost use Rattle.qh_pred.specs.contract.{Planes.PlaneValue, Planes.height, Bounds.normal_limit};
ghost use Rattle.qh_places.specs.contract.Bundles.{IsOfBundle, IsInSpans};
ghost use Rattle.qh_places.specs.steps.Boxes.{IsWithin};
ghost use Rattle.qh_places.specs.steps.Slabs.{vector_of, less_times, IsInBlock};

use crate::boxes::PointBox;
use crate::slabs::{Block, Direction};
use crate::spans::{END_LIMIT, Span, TIMES_LIMIT};
use qh_model::Point;
use qh_pred::{Normal, Plane};

/// The size to which smaller normals are scaled: 2^58.
const SCALE: u64 = 288230376151711744;

/// The number of bits by which a product is shifted before it is multiplied by a block's inverse, so that the result
/// fits 64 bits. The product lacks the 28 bits that a middle product omits, and the inverse is 2^58 times too large:
/// the result has 30 bits too many, and the remaining ones are shifted off afterwards.
const SHIFT_BEFORE: u32 = 16;

/// The number of bits by which the product with a block's inverse is shifted.
const SHIFT_AFTER: u32 = 14;

/// Bounds of the normals of planes, each scaled by a whole number, and the depth of a point below each of the scaled
/// planes.
#[derive(Clone, Copy, Drop)]
pub(crate) struct Bundle {
    pub origin: Point,
    pub x: Span,
    pub y: Span,
    pub z: Span,
    pub depth: i128,
}

/// Returns the difference from one coordinate to another.
fn way(from: i32, to: i32) -> i64
    ensures value { result ≡ to -ℤ from }
    ensures limit { unsigned_abs result ≤ 2 ^ 32 }
{
    i64::from(to) - i64::from(from)
}

/// Returns the sum of three products.
fn sum(a: i128, b: i128, c: i128) -> i128
    requires a { unsigned_abs a ≤ 2 ^ 95 }
    requires b { unsigned_abs b ≤ 2 ^ 95 }
    requires c { unsigned_abs c ≤ 2 ^ 95 }
    ensures value { result ≡ a +ℤ b +ℤ c }
    ensures limit { unsigned_abs result ≤ 2 ^ 97 }
{
    a + b + c
}

/// Returns the product of a number and a factor.
fn taken(number: i128, times: i64) -> i128
    requires number { unsigned_abs number ≤ 2 ^ 64 }
    requires times { unsigned_abs times ≤ 2 ^ 46 }
    ensures value { result ≡ times *ℤ number }
    ensures limit { unsigned_abs result ≤ 2 ^ 110 }
{
    i128::from(times) * number
}

/// Returns the difference of two reaches.
fn reach_beyond(reach: i64, own: i64) -> i128
    requires { unsigned_abs own ≤ 2 ^ 48 }
    ensures value { result ≡ reach -ℤ own }
    ensures limit { unsigned_abs result ≤ 2 ^ 64 }
{
    i128::from(reach) - i128::from(own)
}

/// Returns the number as an end of a span.
fn narrow(number: i128) -> i64
    ensures { unsigned_abs result ≤ 2 ^ 62 }
{
    let end = i64::try_from(number).unwrap_or(0);
    end.clamp(-END_LIMIT, END_LIMIT)
}

/// Returns the factor that scales a normal to about the size of `SCALE`.
fn scale_of(normal: &Normal) -> u64
    ensures some { 0 < result }
    ensures limit { result ≤ SCALE }
{
    let flat = normal.x().unsigned_abs().max(normal.y().unsigned_abs());
    let size = u64::try_from(flat.max(normal.z().unsigned_abs())).unwrap_or(SCALE);
    (SCALE / size.max(1)).max(1)
}

/// Returns a component of a normal, multiplied by a factor.
fn scaled(component: i128, times: u64) -> i128
    requires component { unsigned_abs component ≤ normal_limit }
    requires times { times ≤ SCALE }
    ensures { result ≡ component *ℤ pos times }
{
    component * i128::from(times)
}

/// Returns true if a point, given its height above a plane, is at least `depth` below the plane, after scaling by a
/// factor.
fn is_deep(height: i128, times: u64, depth: i128) -> bool
    ensures { IsTrue result → (height *ℤ pos times +ℤ depth) ≤ℤ pos 0 }
{
    let Some(risen) = height.checked_mul(i128::from(times)) else {
        return false;
    };
    match risen.checked_add(depth) {
        Some(sum) => sum <= 0,
        None => false,
    }
}

impl Bundle {
    /// Returns an empty bundle.
    fn none(origin: Point) -> Bundle {
        let none = Span {
            low: END_LIMIT,
            high: -END_LIMIT,
        };
        Bundle {
            origin,
            x: none,
            y: none,
            z: none,
            depth: i128::MAX,
        }
    }

    /// Returns the bundle extended by a plane.
    fn with(self, plane: &Plane) -> Bundle {
        let normal = plane.normal();
        let times = scale_of(&normal);
        let risen = plane.height(self.origin).checked_mul(i128::from(times));
        let depth = match risen {
            Some(height) => height.checked_neg().unwrap_or(i128::MIN),
            None => i128::MIN,
        };
        Bundle {
            origin: self.origin,
            x: self.x.with(narrow(scaled(normal.x(), times))),
            y: self.y.with(narrow(scaled(normal.y(), times))),
            z: self.z.with(narrow(scaled(normal.z(), times))),
            depth: self.depth.min(depth),
        }
    }

    /// Returns the bundle of planes, relative to a point.
    pub fn of_planes(origin: Point, planes: &[Plane]) -> Bundle {
        let mut bundle = Bundle::none(origin);
        for plane in planes {
            bundle = bundle.with(plane);
        }
        bundle
    }

    /// Returns true if a plane is known to be in the bundle.
    pub fn has(&self, plane: &Plane) -> bool
        ensures { IsTrue result → IsOfBundle self.now plane.now }
    {
        let normal = plane.normal();
        let times = scale_of(&normal);
        self.x.has(scaled(normal.x(), times))
            && self.y.has(scaled(normal.y(), times))
            && self.z.has(scaled(normal.z(), times))
            && is_deep(plane.height(self.origin), times, self.depth)
    }

    /// Returns the approximate quotient of the normals and the direction of a block, or 0 if they point in opposite
    /// directions. It is only a guess, computed from the upper bits of the products without division.
    fn times_along(&self, block: &Block) -> i64
        ensures some { pos 0 ≤ℤ result }
        ensures limit { unsigned_abs result ≤ 2 ^ 46 }
    {
        let along = block.along;
        let product = self
            .x
            .middle_product(along.x)
            .wrapping_add(self.y.middle_product(along.y))
            .wrapping_add(self.z.middle_product(along.z));
        let times = product
            .wrapping_shr(SHIFT_BEFORE)
            .wrapping_mul(block.inverse)
            .wrapping_shr(SHIFT_AFTER);
        times.clamp(0, TIMES_LIMIT)
    }

    /// Returns an upper bound of the products of two vectors: a normal minus a multiple of the direction, and the
    /// vector from the origin to a point of a box.
    fn far_rest(&self, bounds: &PointBox, along: Direction, times: i64) -> i128
        requires { unsigned_abs times ≤ 2 ^ 46 }
        ensures value { (n p : Vector) → IsInSpans self.now n → IsWithin bounds.now p
            → dot (less_times n times (vector_of along)) (minus p self.now.origin) ≤ℤ result }
        ensures limit { unsigned_abs result ≤ 2 ^ 97 }
    {
        let (o, low, high) = (self.origin, bounds.low, bounds.high);
        sum(
            self.x
                .far_rest(times, along.x, way(o.x(), low.x()), way(o.x(), high.x())),
            self.y
                .far_rest(times, along.y, way(o.y(), low.y()), way(o.y(), high.y())),
            self.z
                .far_rest(times, along.z, way(o.z(), low.z()), way(o.z(), high.z())),
        )
    }

    /// Returns how far the points of a block reach beyond the origin along a multiple of its direction.
    fn far_share(&self, block: &Block, times: i64) -> i128
        requires { unsigned_abs times ≤ 2 ^ 46 }
        ensures value { result ≡ times *ℤ (block.now.reach -ℤ dot (vector_of block.now.along) self.now.origin) }
        ensures limit { unsigned_abs result ≤ 2 ^ 110 }
    {
        taken(
            reach_beyond(block.reach, block.along.reach(self.origin)),
            times,
        )
    }

    /// Returns true if a sum is below the depth.
    fn is_deeper(&self, share: i128, rest: i128) -> bool
        requires share { unsigned_abs share ≤ 2 ^ 110 }
        requires rest { unsigned_abs rest ≤ 2 ^ 97 }
        ensures { IsTrue result → (share +ℤ rest) <ℤ self.now.depth }
    {
        share + rest < self.depth
    }

    /// Returns true if all planes of the bundle are strictly above a block, as shown by the direction of the block.
    pub fn is_above(&self, block: &Block) -> bool
        ensures { IsTrue result → (plane : PlaneValue) → IsOfBundle self.now plane
            → (p : Vector) → IsInBlock block.now p → height plane p <ℤ pos 0 }
    {
        let times = self.times_along(block);
        let share = self.far_share(block, times);
        let rest = self.far_rest(&block.bounds, block.along, times);
        self.is_deeper(share, rest)
    }
}
