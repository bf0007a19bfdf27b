//! Meshes of seven and of five points, step by step.
ghost use Rattle.std.specs.Prelude.{◌≡◌, IfOk, true};
ghost use Rattle.qh_mesh.specs.contract.Replacement.{AreFacets};

use qh_fixtures::{Host, points_at, table};
use qh_mesh::{FacetNo, Mesh};
use qh_model::{Id, Memory, Point};
use qh_pred::{point_at, vol};
use std::alloc::{AllocError, Global};
use std::test::Fail;

mod refusals;

/// A triangle by its ids, beginning with the least.
type Triangle = (u32, u32, u32);

/// Returns the triangle at a place, if there is one.
fn triangle(mesh: &Mesh, f: FacetNo) -> Option<Triangle> {
    if f.index() >= mesh.places() || !mesh.is_live(f) {
        return None;
    }
    let [a, b, c] = mesh.facet(f);
    let (a, b, c) = (a.number(), b.number(), c.number());
    if a < b && a < c {
        Some((a, b, c))
    } else if b < c {
        Some((b, c, a))
    } else {
        Some((c, a, b))
    }
}

/// Returns true if the triangle at a place strictly sees a point.
fn sees(mesh: &Mesh, pts: &[Point], f: FacetNo, apex: u32) -> bool {
    let Some((a, b, c)) = triangle(mesh, f) else {
        return false;
    };
    match [a, b, c, apex].map(|number| pts.get(number as usize).copied()) {
        [Some(a), Some(b), Some(c), Some(p)] => vol(a, b, c, p) > 0,
        _ => false,
    }
}

/// Returns true if the facets of a list are live, with rising numbers.
fn are_facets(mesh: &Mesh, list: &[FacetNo]) -> bool
    ensures { result ≡ true → AreFacets mesh.now list.now }
{
    let mut next = 0;
    for f in list {
        if f.index() < next || f.index() >= mesh.places() || !mesh.is_live(*f) {
            return false;
        }
        next = f.index() + 1;
    }
    true
}

/// Returns the facets that a point sees.
fn seen_by(alloc: Global, mesh: &Mesh, pts: &[Point], apex: u32) -> Result<Vec<FacetNo>, AllocError>
    ensures { IfOk result (λ list. AreFacets mesh.now list.items) }
{
    let mut list = Vec::new(alloc);
    for f in 0..mesh.places() {
        if sees(mesh, pts, FacetNo::new(f), apex) {
            list.push(FacetNo::new(f))?;
        }
    }
    if are_facets(mesh, list.as_slice()) {
        Ok(list)
    } else {
        Err(AllocError)
    }
}

/// Returns the triangles of a list, sorted.
fn triangles(alloc: Global, mesh: &Mesh, list: &[FacetNo]) -> Result<Vec<Triangle>, AllocError> {
    let found = list.iter().filter_map(|f| triangle(mesh, *f));
    let mut out = found.collect::<Vec<Triangle>>(alloc)?;
    out.sort()?;
    Ok(out)
}

/// Returns true if the twin of each side of a facet runs in the opposite direction, and has the side as its twin.
fn has_twins(mesh: &Mesh, f: FacetNo) -> bool {
    for side in 0..3 {
        if f.index() >= mesh.places() || !mesh.is_live(f) {
            return false;
        }
        let e = mesh.edge(f, side);
        let t = mesh.twin(e);
        let (u, v) = mesh.ends(e);
        let (x, y) = mesh.ends(t);
        if mesh.twin(t) != e || u != y || v != x {
            return false;
        }
    }
    true
}

/// Returns the simplex of the first four points. `Err` means that an allocation failed, or that they are in one plane.
fn first_simplex(alloc: Global, pts: &[Point]) -> Result<Mesh, Memory> {
    let (a, b, c, d) = (Id::new(0), Id::new(1), Id::new(2), Id::new(3));
    if pts.len() < 4 {
        return Err(Memory);
    }
    let (p, q) = (point_at(pts, a), point_at(pts, b));
    let (r, s) = (point_at(pts, c), point_at(pts, d));
    if vol(p, q, r, s) == 0 {
        return Err(Memory);
    }
    Mesh::simplex(alloc, pts, a, b, c, d)
}

/// Returns seven points, each of which after the fourth is outside the hull of those before it.
fn seven() -> [Point; 7] {
    points_at![0 0 0, 1 0 0, 0 1 0, 0 0 1, 1 1 1, 3 1 1, 100 100 100]
}

/// A step: its apex, the triangles that it sees, those of its cone, and the live facets and places after it.
type Row = (u32, &'static [Triangle], &'static [Triangle], usize, usize);

/// The steps from the simplex of the first four of the seven points.
const ROWS: [Row; 3] = table![
    (4, &[(1, 2, 3)], &[(1, 2, 4), (1, 4, 3), (2, 3, 4)], 6, 6);
    (5, &[(1, 2, 4), (1, 4, 3)], &[(1, 2, 5), (1, 5, 3), (2, 4, 5), (3, 5, 4)], 8, 8);
    (6, &[(2, 3, 4), (2, 4, 5), (3, 5, 4)], &[(2, 3, 6), (2, 6, 5), (3, 5, 6)], 8, 8);
];

/// Asserts the numbers of live facets and of places after the step to an apex, and that each side has its twin.
fn assert_counts(rt: &impl Host, mesh: &Mesh, want: [usize; 2], apex: u32) -> Result<(), Fail> {
    let all = mesh.live().collect::<Vec<FacetNo>>(rt.alloc())?;
    let have_twins = all.iter().all(|f| has_twins(mesh, *f));
    let found = ([all.len(), mesh.places()], have_twins);
    assert_eq!(rt; found, (want, true), "{apex}");
    Ok(())
}

/// Makes a step, asserts that its result is that of its row, and returns its cone.
fn step(rt: &impl Host, mesh: &mut Mesh, pts: &[Point], row: Row) -> Result<Vec<FacetNo>, Fail> {
    let (apex, seen, cone, facets, places) = row;
    let visible = seen_by(rt.alloc(), mesh, pts, apex)?;
    let found = triangles(rt.alloc(), mesh, &visible)?;
    assert_eq!(rt; found.as_slice(), seen, "{apex}");
    let made = mesh.replace(rt.alloc(), pts, &visible, Id::new(apex))?;
    let found = triangles(rt.alloc(), mesh, &made)?;
    assert_eq!(rt; found.as_slice(), cone, "{apex}");
    assert_counts(rt, mesh, [facets, places], apex)?;
    Ok(made)
}

/// Asserts the triangles of all live facets after the step to an apex, in any order.
fn assert_live(rt: &impl Host, mesh: &Mesh, want: &[Triangle], apex: u32) -> Result<(), Fail> {
    let all = mesh.live().collect::<Vec<FacetNo>>(rt.alloc())?;
    let found = triangles(rt.alloc(), mesh, &all)?;
    assert_eq!(rt; found.as_slice(), want, "{apex}");
    Ok(())
}

/// The triangles of the simplex.
const SIMPLEX: [Triangle; 4] = [(0, 1, 3), (0, 2, 1), (0, 3, 2), (1, 2, 3)];

#[test]
fn replaces(rt: HostRuntime) -> Result<(), Fail> {
    let pts = seven();
    let mut mesh = first_simplex(rt.alloc(), &pts)?;
    mesh.ask_for_room(16);
    assert_live(&rt, &mesh, &SIMPLEX, 3)?;
    assert_counts(&rt, &mesh, [4, 4], 3)?;
    for row in ROWS {
        let made = step(&rt, &mut mesh, &pts, row)?;
        // The next step's list reuses the memory of this one's.
        mesh.take_room(made);
    }
    Ok(())
}

/// The step to the fifth of the five points.
const LEVEL_ROW: Row = (4, &[(1, 2, 3)], &[(1, 2, 4), (1, 4, 3), (2, 3, 4)], 6, 6);

/// The triangles after this step.
const LEVEL_TRIANGLES: [Triangle; 6] = table![
    (0, 1, 3); (0, 2, 1); (0, 3, 2); (1, 2, 4); (1, 4, 3); (2, 3, 4);
];

#[test]
fn keeps_a_facet_in_one_plane_with_the_apex(rt: HostRuntime) -> Result<(), Fail> {
    // The corner of the unit cube, and a point in one plane with three of its points.
    let pts = points_at![0 0 0, 1 0 0, 0 1 0, 0 0 1, 1 1 0];
    assert_eq!(rt; vol(pts[0], pts[2], pts[1], pts[4]), 0i128);
    let mut mesh = first_simplex(rt.alloc(), &pts)?;
    step(&rt, &mut mesh, &pts, LEVEL_ROW)?;
    assert_live(&rt, &mesh, &LEVEL_TRIANGLES, 4)
}
