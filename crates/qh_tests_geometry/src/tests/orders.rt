//! Along an axis the points of the curve rise, from the least coordinate to the greatest.
use qh_fixtures::ids::{are, ids_of};
use qh_fixtures::points::{LIMIT, point};
use qh_fixtures::table;
use qh_model::{Id, Memory, Point};
use qh_surface::starts::{ends_of, morton_order};
use std::alloc::Global;
use std::test::Fail;

/// The ends of points along the axes, and their order along the curve; `None` if there are no points.
type Found = Option<([Id; 6], Vec<Id>)>;

/// Returns the ends and the order of some of the points.
fn ends_and_order(alloc: Global, pts: &[Point], numbers: &[u32]) -> Result<Found, Memory> {
    let ids = ids_of(alloc, pts, numbers)?;
    if ids.is_empty() {
        return Ok(None);
    }
    let ends = ends_of(pts, &ids);
    Ok(Some((ends, morton_order(alloc, pts, &ids, &ends)?)))
}

/// Places on axes. Along the curve, the opposite point comes first, the middle of both second, and the place last.
const ON_AXES: [(i32, i32, i32); 7] = table![
    (3, 0, 0); (1048576, 0, 0); (0, 1048576, 0); (0, 0, 1048577); (LIMIT, 0, 0); (0, LIMIT, 0); (0, 0, LIMIT);
];

#[test]
fn ends_are_least_and_greatest(rt: HostRuntime) -> Result<(), Fail> {
    for (x, y, z) in ON_AXES {
        let opposite = point(x.wrapping_neg(), y.wrapping_neg(), z.wrapping_neg());
        let pts = [point(x, y, z), opposite, point(0, 0, 0)];
        let (_, order) = ends_and_order(rt.alloc(), &pts, &[0, 1, 2])?.ok_or("no points")?;
        assert!(rt; are(&order, &[1, 2, 0]), "{pts:?}");
    }
    Ok(())
}

/// Points of which several have the least or the greatest coordinate along an axis.
const WITH_EQUAL_ENDS: [(i32, i32, i32); 6] = table![
    (0, 0, 0); (-LIMIT, 5, 1); (LIMIT, -5, 1); (-LIMIT, LIMIT, -7); (1, -LIMIT, LIMIT); (LIMIT, LIMIT, -LIMIT);
];

#[test]
fn ends_are_first_ids_of_least_and_greatest(rt: HostRuntime) -> Result<(), Fail> {
    let pts = WITH_EQUAL_ENDS.map(|(x, y, z)| point(x, y, z));
    let rows = table![([0, 1, 2, 3, 4, 5].as_slice(), [1, 2, 4, 3, 5, 4]); (&[3], [3; 6]);];
    for (numbers, wanted) in rows {
        let (ends, _) = ends_and_order(rt.alloc(), &pts, numbers)?.ok_or("no points")?;
        assert!(rt; are(&ends, &wanted), "{ends:?}");
    }
    Ok(())
}
