//! Points as C passes them.
ghost use Rattle.std.specs.Prelude.{◌≡◌, ◌<◌, ◌↔◌, length, IsTrue, IfOk};
ghost use Rattle.std.specs.List.{All};
ghost use Rattle.qh_model.specs.{contract.Places.IsPlace, headline.Limits.IsCoordinate, headline.Predicates.place};

use qh_model::{COORDINATE_LIMIT, Memory, Point};
use std::alloc::Global;
use std::marker::Model;

/// A point as C passes it, with coordinates of any size.
///
/// A contract sees it as its three whole numbers.
#[repr(C)]
#[derive(Clone, Copy, Debug)]
pub struct CPoint {
    x: i32,
    y: i32,
    z: i32,
}

impl Model for CPoint {
    ghost use Rattle.qh_model.specs.{contract.Places.vector_code, headline.Vector.Vector};

    ghost Value = { Vector };

    ghost coded = { vector_code };

    ghost view = { λ p. record { x = p.x; y = p.y; z = p.z } };

    ghost inverse = { λ p. record { x = p.x; y = p.y; z = p.z } };
}

impl CPoint {
    /// Returns the point with these coordinates.
    pub fn new(x: i32, y: i32, z: i32) -> CPoint
        ensures { result ≡ record { x = x; y = y; z = z } }
    {
        CPoint { x, y, z }
    }
}

/// Returns true if a coordinate is in range.
fn is_coordinate(coordinate: i32) -> bool
    ensures { IsTrue result ↔ IsCoordinate coordinate }
{
    coordinate.unsigned_abs() <= COORDINATE_LIMIT
}

/// Returns true if each coordinate of a point is in range.
fn is_place(point: CPoint) -> bool
    ensures { IsTrue result ↔ IsPlace point }
{
    is_coordinate(point.x) && is_coordinate(point.y) && is_coordinate(point.z)
}

/// Returns true if each point is in range.
pub fn are_places(points: &[CPoint]) -> bool
    ensures { IsTrue result ↔ All IsPlace points.now }
{
    points.iter().all(|point| is_place(*point))
}

/// Returns the same points, in the type that hulls use.
///
/// # Errors
///
/// `Memory` if an allocation failed.
pub fn points_of(alloc: Global, given: &[CPoint]) -> Result<Vec<Point>, Memory>
    requires { All IsPlace given.now }
    ensures { IfOk result (λ v. v.items ≡ given.now) }
{
    let mut points = Vec::with_capacity(alloc, given.len())?;
    for point in given {
        points.push_reserved(Point::new(point.x, point.y, point.z));
    }
    Ok(points)
}

/// Returns one of the points, in the type that volumes use.
#[tactic(auto, unfolding(qh_model::specs::headline::Predicates::place))]
pub fn point_of(given: &[CPoint], index: u32) -> Point
    requires places { All IsPlace given.now }
    requires index { index < length given.now }
    ensures { result ≡ place given.now index }
{
    let point = given[index as usize];
    Point::new(point.x, point.y, point.z)
}
