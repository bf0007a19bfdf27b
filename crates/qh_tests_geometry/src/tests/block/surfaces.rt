//! The surfaces of solid sets: each edge has its opposite, each triangle supports all points, the counts are Euler's.

use crate::tests::distinct_ids;
use qh_block::surface;
use qh_fixtures::points::{LIMIT, cube, grid, octahedron, paraboloid, point, tetrahedron};
use qh_fixtures::{Host, table};
use qh_mesh::Mesh;
use qh_model::{Memory, Point};
use qh_polygon::{Shape, rank};
use qh_pred::Plane;
use std::alloc::{AllocError, Global};
use std::test::Fail;

/// The corners of a triangle, counterclockwise seen from outside.
type Triangle = (u32, u32, u32);

/// Returns the surface of the distinct points of a list, if they are solid.
pub fn solid_surface(alloc: Global, pts: &[Point]) -> Result<Option<Mesh>, Memory> {
    let ids = distinct_ids(alloc, pts)?;
    if ids.is_empty() {
        return Ok(None);
    }
    match rank(pts, &ids) {
        Shape::Solid(_, _, _, _) => Ok(Some(surface(alloc, pts, &ids)?)),
        _ => Ok(None),
    }
}

/// Returns the triangles of a mesh.
pub fn triangles(alloc: Global, mesh: &Mesh) -> Result<Vec<Triangle>, AllocError> {
    let mut triangles = Vec::new(alloc);
    for f in mesh.live() {
        let [a, b, c] = mesh.facet(f);
        triangles.push((a.number(), b.number(), c.number()))?;
    }
    Ok(triangles)
}

/// Returns true if the edges of triangles are all different, and each has its opposite.
fn closes(alloc: Global, triangles: &[Triangle]) -> Result<bool, AllocError> {
    let mut edges = Vec::new(alloc);
    let mut opposites = Vec::new(alloc);
    for (a, b, c) in triangles {
        for (from, to) in [(*a, *b), (*b, *c), (*c, *a)] {
            edges.push((from, to))?;
            opposites.push((to, from))?;
        }
    }
    edges.sort_unstable();
    edges.dedup();
    opposites.sort_unstable();
    Ok(edges.as_slice() == opposites.as_slice())
}

/// Returns true if a triangle strictly sees none of the points.
fn supports(pts: &[Point], triangle: Triangle) -> bool {
    let (a, b, c) = triangle;
    let points = [a, b, c].map(|corner| pts.get(corner as usize).copied());
    let [Some(a), Some(b), Some(c)] = points else {
        return false;
    };
    let plane = Plane::through(a, b, c);
    pts.iter().all(|p| !plane.sees(*p))
}

/// Returns the number of different corners.
fn corner_count(alloc: Global, triangles: &[Triangle]) -> Result<usize, AllocError> {
    let mut used = Vec::new(alloc);
    for (a, b, c) in triangles {
        for corner in [*a, *b, *c] {
            used.push(corner)?;
        }
    }
    used.sort_unstable();
    used.dedup();
    Ok(used.len())
}

/// Returns true if the triangles close up, support all points, and their number is 2 V - 4, as on a sphere.
pub fn is_surface(alloc: Global, pts: &[Point], list: &[Triangle]) -> Result<bool, AllocError> {
    let is_sphere = list.len().checked_add(4) == corner_count(alloc, list)?.checked_mul(2);
    Ok(is_sphere && closes(alloc, list)? && list.iter().all(|t| supports(pts, *t)))
}

/// Returns the numbers of triangles and of corners of the surface of a solid set, and asserts that it is a surface.
fn counts_of(rt: &impl Host, pts: &[Point]) -> Result<(usize, usize), Fail> {
    let mesh = solid_surface(rt.alloc(), pts)?.ok_or("a flat set")?;
    let triangles = triangles(rt.alloc(), &mesh)?;
    let counts = (triangles.len(), corner_count(rt.alloc(), &triangles)?);
    let is_sound = is_surface(rt.alloc(), pts, &triangles)?;
    assert!(rt; is_sound, "{counts:?} triangles and corners");
    Ok(counts)
}

#[test]
fn corner_tetrahedron(rt: HostRuntime) -> Result<(), Fail> {
    assert_eq!(rt; counts_of(&rt, &tetrahedron())?, (4, 4));
    Ok(())
}

#[test]
fn cubes(rt: HostRuntime) -> Result<(), Fail> {
    let rows = table![(0, 1, 1); (0, 1, 2); (-1048576, 1048576, 1); (-LIMIT, LIMIT, 1);];
    for (low, high, times) in rows {
        let mut pts = Vec::new(rt.alloc());
        for _ in 0..times {
            pts.extend_from_slice(&cube(low, high))?;
        }
        let counts = counts_of(&rt, &pts)?;
        assert_eq!(rt; counts, (12, 8), "{times} times {low} to {high}");
    }
    Ok(())
}

#[test]
fn points_within_faces(rt: HostRuntime) -> Result<(), Fail> {
    assert!(rt; counts_of(&rt, &grid(rt.alloc(), [3; 3])?)?.1 >= 8);
    assert!(rt; counts_of(&rt, &octahedron())?.1 >= 6);
    Ok(())
}

#[test]
fn points_of_a_paraboloid(rt: HostRuntime) -> Result<(), Fail> {
    assert_eq!(rt; counts_of(&rt, &paraboloid(rt.alloc(), 50, 40)?)?.1, 2000);
    Ok(())
}

/// Returns the corners of a prism over a polygon with many sides: the corners (t, t^2) of the polygon, with t from
/// -24000 to 24000, below and then above.
fn prism(alloc: Global) -> Result<Vec<Point>, AllocError> {
    let mut corners = Vec::new(alloc);
    for z in [-1_000_000_000, 1_000_000_000] {
        for t in -24000..=24000i32 {
            corners.push(point(t, t.wrapping_mul(t), z))?;
        }
    }
    Ok(corners)
}

/// In the beginning, each end of the prism has a facet for each side. A run that gave all points to the first facet
/// that sees them would repeatedly make a cone over all sides, two thousand million facets in total, which takes longer
/// than a test may. A search distributes the points over the facets.
#[test]
fn prism_of_many_sides(rt: HostRuntime) -> Result<(), Fail> {
    let mesh = solid_surface(rt.alloc(), &prism(rt.alloc())?)?.ok_or("a flat set")?;
    // By Euler's formula, of 96,002 corners.
    assert_eq!(rt; triangles(rt.alloc(), &mesh)?.len(), 192000usize);
    Ok(())
}
