//! Volumes of the unit corner, of the cube at the limit, and of a tetrahedron whose volume does not fit 64 bits; turns
//! across two axes. The contract of each predicate states its value for all points.
use qh_fixtures::points::{LIMIT, tetrahedron, times};
use qh_fixtures::{points_at, table};
use qh_model::Point;
use qh_pred::{cross, left, vol};
use std::cmp::Ordering;

/// Returns the volume of four points, whose coordinates are multiplied by a factor.
fn volume(pts: [Point; 4], factor: i32) -> i128 {
    let [a, b, c, d] = pts.map(|p| times(p, factor));
    vol(a, b, c, d)
}

/// Limits with the volumes at them of the cube and of the tetrahedron.
const VOLUMES: [(i32, i128, i128); 2] = table![
    (1048576, 9223372036854775808, -18446744073709551616);
    (LIMIT, 9903520314283042199192993792, -19807040628566084398385987584);
];

#[test]
fn volumes(rt: HostRuntime) {
    assert_eq!(rt; volume(tetrahedron(), 1), 1i128);
    // The corner of a cube that has the least coordinates, and its neighbours along x, y and z.
    let corner = points_at![-1 -1 -1, 1 -1 -1, -1 1 -1, -1 -1 1];
    // Four corners of the cube, no two of them neighbours. Their volume is a power of two.
    let wrapping = points_at![-1 -1 -1, 1 1 -1, 1 -1 1, -1 1 1];
    for (limit, of_corner, of_wrapping) in VOLUMES {
        let found = (volume(corner, limit), volume(wrapping, limit));
        assert_eq!(rt; found, (of_corner, of_wrapping), "at {limit}");
    }
}

#[test]
fn turns(rt: HostRuntime) {
    let [o, x, y, z] = tetrahedron();
    let down = cross(o, x, y).opposite();
    let across = cross(o, x, z);
    let found = (left(&down, o, x, y), left(&across, o, x, z));
    assert_eq!(rt; found, (Ordering::Less, Ordering::Greater));
}
