//! The text of a hull with few vertices among many points, whose numbers are found by search.
ghost use Rattle.std.specs.Prelude.{◌≡◌, ◌<◌, [], ◌∷◌, IfOk, length};

use qh_fixtures::files::TETRAHEDRON_OFF;
use qh_model::{Body, Hull, Id, Memory, Point, Polygon};
use qh_write::{Out, text};
use std::alloc::{AllocError, Global};
use std::test::Fail;

/// The number of points.
const COUNT: usize = 600;

/// Returns the ids of the corners.
fn corners() -> [Id; 4]
    ensures { result ≡ 5 ∷ 130 ∷ 131 ∷ 599 ∷ [] }
{
    [Id::new(5), Id::new(130), Id::new(131), Id::new(599)]
}

/// Returns points among which those with these ids are the tetrahedron with three corners on the axes.
fn points(alloc: Global) -> Result<Vec<Point>, AllocError>
    ensures { IfOk result (λ v. length v.items ≡ 600) }
{
    let mut pts = vec![in alloc; Point::new(0, 0, 0); COUNT]?;
    pts[130] = Point::new(1, 0, 0);
    pts[131] = Point::new(0, 1, 0);
    pts[599] = Point::new(0, 0, 1);
    Ok(pts)
}

/// Returns the faces of that tetrahedron.
fn faces(alloc: Global) -> Result<Vec<Polygon>, Memory>
    ensures { IfOk result (λ v. v.items ≡ (5 ∷ 130 ∷ 599 ∷ []) ∷ (5 ∷ 131 ∷ 130 ∷ []) ∷ (5 ∷ 599 ∷ 131 ∷ []) ∷ (130 ∷ 131 ∷ 599 ∷ []) ∷ []) }
{
    let [i, j, k, l] = corners();
    let (a, b) = (Polygon::triangle(i, j, l), Polygon::triangle(i, k, j));
    let (c, d) = (Polygon::triangle(i, l, k), Polygon::triangle(j, k, l));
    Ok(Vec::from_array(alloc, [a, b, c, d])?)
}

/// Returns the hull of those points.
fn hull(alloc: Global) -> Result<Hull, Memory>
    ensures { IfOk result (λ h. h.body.extremes ≡ 5 ∷ 130 ∷ 131 ∷ 599 ∷ []) }
{
    let extremes = Vec::from_array(alloc, corners())?;
    Ok(hull!(600, 4; 3, extremes, faces(alloc)?, 6))
}

#[test]
fn numbers_few_vertices_of_many_points(rt: HostRuntime) -> Result<(), Fail> {
    let (hull, pts) = (hull(rt.alloc())?, points(rt.alloc())?);
    let texts = text(rt.alloc(), &hull, &pts, &[Out::Off])?;
    assert_eq!(rt; texts.as_slice(), TETRAHEDRON_OFF.as_bytes());
    Ok(())
}
