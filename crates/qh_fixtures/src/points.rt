//! Sets of points that the tests of several libraries use.
use qh_model::{COORDINATE_LIMIT, Point};
use std::alloc::{AllocError, Global};

/// The greatest coordinate.
pub const LIMIT: i32 = COORDINATE_LIMIT as i32;

/// Returns the point with these coordinates, each clamped to the limit.
pub fn point(x: i32, y: i32, z: i32) -> Point {
    Point::new(
        x.clamp(-LIMIT, LIMIT),
        y.clamp(-LIMIT, LIMIT),
        z.clamp(-LIMIT, LIMIT),
    )
}

/// Returns the point with all coordinates multiplied by a factor, clamped to the limit.
pub fn times(p: Point, factor: i32) -> Point {
    point(
        p.x().wrapping_mul(factor),
        p.y().wrapping_mul(factor),
        p.z().wrapping_mul(factor),
    )
}

/// The points with these coordinates, as `points_at![0 0 0, -1 2 0]`.
#[macro_export]
macro_rules! points_at {
    ($($x:literal $y:literal $z:literal),*) => { [$($crate::points::point($x, $y, $z)),*] };
}

/// Returns the corners of a square, and its centre.
pub fn square() -> [Point; 5] {
    points_at![0 0 0, 2 0 0, 2 2 0, 0 2 0, 1 1 0]
}

/// Returns the origin and its neighbours along x, y and z.
pub fn tetrahedron() -> [Point; 4] {
    points_at![0 0 0, 1 0 0, 0 1 0, 0 0 1]
}

/// Returns the corners of a cube along the axes, in rising order of their coordinates, each clamped to the limit.
pub fn cube(low: i32, high: i32) -> [Point; 8] {
    [
        point(low, low, low),
        point(low, low, high),
        point(low, high, low),
        point(low, high, high),
        point(high, low, low),
        point(high, low, high),
        point(high, high, low),
        point(high, high, high),
    ]
}

/// Returns the corners of a regular octahedron and the middles of its edges.
pub fn octahedron() -> [Point; 18] {
    points_at![
        2 0 0, 1 1 0, 0 2 0, -2 0 0, -1 -1 0, 0 -2 0, 0 0 2, 1 0 1, 0 1 1,
        0 0 -2, -1 0 -1, 0 -1 -1, 1 -1 0, -1 1 0, -1 0 1, 1 0 -1, 0 -1 1, 0 1 -1
    ]
}

/// Returns the corners of the unit cube, each twice in a row.
///
/// # Errors
///
/// `AllocError` if an allocation fails.
pub fn doubled_cube(alloc: Global) -> Result<Vec<Point>, AllocError> {
    let mut pts = Vec::new(alloc);
    for corner in cube(0, 1) {
        pts.push(corner)?;
        pts.push(corner)?;
    }
    Ok(pts)
}

/// Returns the lattice points of a cuboid with these numbers of points along x, y and z, in rising order.
///
/// # Errors
///
/// `AllocError` if an allocation fails.
pub fn grid(alloc: Global, sides: [i32; 3]) -> Result<Vec<Point>, AllocError> {
    let [width, depth, height] = sides;
    let mut pts = Vec::new(alloc);
    for x in 0..width {
        for y in 0..depth {
            for z in 0..height {
                pts.push(point(x, y, z))?;
            }
        }
    }
    Ok(pts)
}

/// Returns the points (x, y, x^2 + y^2) with x below `width` and y below `depth`. Each is extreme.
///
/// # Errors
///
/// `AllocError` if an allocation fails.
pub fn paraboloid(alloc: Global, width: i32, depth: i32) -> Result<Vec<Point>, AllocError> {
    let mut pts = Vec::new(alloc);
    for x in 0..width {
        for y in 0..depth {
            let height = x.wrapping_mul(x).wrapping_add(y.wrapping_mul(y));
            pts.push(point(x, y, height))?;
        }
    }
    Ok(pts)
}
