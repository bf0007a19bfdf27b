//! The steps of the seven points, where one allocation fails. Each call that fails leaves the mesh unchanged, and is
//! repeated. `scripts/trials/refusals.py` makes each allocation fail in turn.
use super::{ROWS, first_simplex, has_twins, seen_by, seven, triangles};
use qh_fixtures::again;
use qh_mesh::{EdgeNo, FacetNo, Mesh};
use qh_model::{Id, Memory};
use std::alloc::{AllocError, Global};
use std::test::Fail;

/// The content of a place: the corners of its facet and the twins of its sides, or nothing.
type Place = Option<([u32; 3], [EdgeNo; 3])>;

fn place(mesh: &Mesh, f: FacetNo) -> Place {
    if f.index() >= mesh.places() || !mesh.is_live(f) {
        return None;
    }
    let [a, b, c] = mesh.facet(f);
    let (ab, bc, ca) = (mesh.edge(f, 0), mesh.edge(f, 1), mesh.edge(f, 2));
    let twins = [mesh.twin(ab), mesh.twin(bc), mesh.twin(ca)];
    Some(([a.number(), b.number(), c.number()], twins))
}

/// Returns the number of places, and the contents of the first eight.
fn places(mesh: &Mesh) -> (usize, [Place; 8]) {
    let mut places = [None; 8];
    for f in 0..8 {
        places[f] = place(mesh, FacetNo::new(f));
    }
    (mesh.places(), places)
}

/// Returns true if each step, repeated if it fails, gives its row, and each failure leaves the mesh unchanged.
fn steps(alloc: Global) -> Result<bool, Fail> {
    let pts = seven();
    let mut mesh = again!(first_simplex(alloc, &pts), Memory)?;
    let mut right = mesh.places() == 4;
    for (apex, _, cone, _, count) in ROWS {
        let visible = again!(seen_by(alloc, &mesh, &pts, apex), AllocError)?;
        let before = places(&mesh);
        let made = match mesh.replace(alloc, &pts, visible.as_slice(), Id::new(apex)) {
            Ok(made) => made,
            Err(Memory) => {
                right = right && places(&mesh) == before;
                mesh.replace(alloc, &pts, visible.as_slice(), Id::new(apex))?
            }
        };
        let found = again!(triangles(alloc, &mesh, &made), AllocError)?;
        let have_twins = made.iter().all(|f| has_twins(&mesh, *f));
        right = right && found.as_slice() == cone && have_twins && mesh.places() == count;
    }
    Ok(right)
}

#[test]
fn tries_again(rt: HostRuntime) -> Result<(), Fail> {
    assert!(rt; steps(rt.alloc())?);
    Ok(())
}
