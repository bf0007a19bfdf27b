//! The worked rows of sets that are not flat.
use super::{assert_answered, assert_rows};
use crate::tests::outcomes::{Asked, FX, OFF, SUMMARY};
use qh_fixtures::files::{
    COMMENTED_TETRAHEDRON, CUBE, CUBE_OFF, OCTAHEDRON, OCTAHEDRON_OFF, TETRAHEDRON, TETRAHEDRON_OFF,
};
use qh_fixtures::table;
use qh_write::Out;
use std::test::Fail;

/// The corners of a cube, each twice.
const DOUBLED_CUBE: &str =
    "3\n16\n0 0 0\n0 0 0\n0 0 1\n0 0 1\n0 1 0\n0 1 0\n0 1 1\n0 1 1\n1 0 0\n1 0 0\n1 0 1\n1 0 1\n1 1 0\n1 1 0\n1 1 1\n1 1 1\n";

const LATTICE: &str =
    "3\n27\n0 0 0\n0 0 1\n0 0 2\n0 1 0\n0 1 1\n0 1 2\n0 2 0\n0 2 1\n0 2 2\n1 0 0\n1 0 1\n1 0 2\n1 1 0\n1 1 1\n1 1 2\n1 2 0\n1 2 1\n1 2 2\n2 0 0\n2 0 1\n2 0 2\n2 1 0\n2 1 1\n2 1 2\n2 2 0\n2 2 1\n2 2 2\n";

pub(super) const LATTICE_OFF: &str =
    "OFF\n8 6 12\n0 0 0\n0 0 2\n0 2 0\n0 2 2\n2 0 0\n2 0 2\n2 2 0\n2 2 2\n4 0 1 3 2\n4 0 2 6 4\n4 0 4 5 1\n4 1 5 7 3\n4 2 3 7 6\n4 4 6 7 5\n";

const WIDE_CUBE: &str =
    "3\n8\n-1048576 -1048576 -1048576\n-1048576 -1048576 1048576\n-1048576 1048576 -1048576\n-1048576 1048576 1048576\n1048576 -1048576 -1048576\n1048576 -1048576 1048576\n1048576 1048576 -1048576\n1048576 1048576 1048576\n";

pub(super) const WIDE_CUBE_OFF: &str =
    "OFF\n8 6 12\n-1048576 -1048576 -1048576\n-1048576 -1048576 1048576\n-1048576 1048576 -1048576\n-1048576 1048576 1048576\n1048576 -1048576 -1048576\n1048576 -1048576 1048576\n1048576 1048576 -1048576\n1048576 1048576 1048576\n4 0 1 3 2\n4 0 2 6 4\n4 0 4 5 1\n4 1 5 7 3\n4 2 3 7 6\n4 4 6 7 5\n";

const LIMIT_CUBE: &str =
    "3\n8\n-1073741824 -1073741824 -1073741824\n-1073741824 -1073741824 1073741824\n-1073741824 1073741824 -1073741824\n-1073741824 1073741824 1073741824\n1073741824 -1073741824 -1073741824\n1073741824 -1073741824 1073741824\n1073741824 1073741824 -1073741824\n1073741824 1073741824 1073741824\n";

pub(super) const LIMIT_CUBE_OFF: &str =
    "OFF\n8 6 12\n-1073741824 -1073741824 -1073741824\n-1073741824 -1073741824 1073741824\n-1073741824 1073741824 -1073741824\n-1073741824 1073741824 1073741824\n1073741824 -1073741824 -1073741824\n1073741824 -1073741824 1073741824\n1073741824 1073741824 -1073741824\n1073741824 1073741824 1073741824\n4 0 1 3 2\n4 0 2 6 4\n4 0 4 5 1\n4 1 5 7 3\n4 2 3 7 6\n4 4 6 7 5\n";

const OCTAHEDRON_SUMMARY: &str =
    "Convex hull of 18 points in 3-d:\n  dimension: 3\n  distinct points: 18\n  extreme points: 6\n  facets: 8\n  edges: 12\n";

/// Four points far apart, with coordinates up to 2^20, whose volume is -1.
pub(super) const NEAR_FLAT: &str =
    "3\n4\n0 0 0\n1048576 1048575 0\n1048575 1048574 0\n1048576 1048576 1\n";

const NEAR_FLAT_OFF: &str =
    "OFF\n4 4 6\n0 0 0\n1048576 1048575 0\n1048575 1048574 0\n1048576 1048576 1\n3 0 1 2\n3 0 2 3\n3 0 3 1\n3 1 3 2\n";

/// Four points far apart, with coordinates up to the limit, whose volume is -1.
pub(super) const LIMIT_NEAR_FLAT: &str =
    "3\n4\n0 0 0\n1073741824 1073741823 0\n1073741823 1073741822 0\n1073741824 1073741824 1\n";

const LIMIT_NEAR_FLAT_OFF: &str =
    "OFF\n4 4 6\n0 0 0\n1073741824 1073741823 0\n1073741823 1073741822 0\n1073741824 1073741824 1\n3 0 1 2\n3 0 2 3\n3 0 3 1\n3 1 3 2\n";

/// Four points, the last of which is one lattice step above the middle of the others. The volume is 9.
const SLIVER: &str = "3\n4\n0 0 0\n900000 899997 0\n0 900000 899997\n300001 600001 300000\n";

const SLIVER_OFF: &str =
    "OFF\n4 4 6\n0 0 0\n900000 899997 0\n0 900000 899997\n300001 600001 300000\n3 0 1 3\n3 0 2 1\n3 0 3 2\n3 1 2 3\n";

/// The same with coordinates up to the limit.
const LIMIT_SLIVER: &str =
    "3\n4\n0 0 0\n1073741823 1073741820 0\n0 1073741823 1073741820\n357913942 715827883 357913941\n";

const LIMIT_SLIVER_OFF: &str =
    "OFF\n4 4 6\n0 0 0\n1073741823 1073741820 0\n0 1073741823 1073741820\n357913942 715827883 357913941\n3 0 1 3\n3 0 2 1\n3 0 3 2\n3 1 2 3\n";

/// Settings, an input and its text.
const ROWS: [(Asked, &str, &str); 23] = table![
    (OFF, TETRAHEDRON, TETRAHEDRON_OFF);
    (OFF, "4 3\n0 0 0\n1 0 0\n0 1 0\n0 0 1\n", TETRAHEDRON_OFF);
    (OFF, COMMENTED_TETRAHEDRON, TETRAHEDRON_OFF);
    (OFF, CUBE, CUBE_OFF);
    (Asked { workers: 1, block: 1, ..OFF }, CUBE, CUBE_OFF);
    (Asked { outs: &[Out::Rank, Out::Fx], ..SUMMARY }, DOUBLED_CUBE, "16 8 3\n8\n0\n2\n4\n6\n8\n10\n12\n14\n");
    (OFF, DOUBLED_CUBE, CUBE_OFF);
    (FX, LATTICE, "8\n0\n2\n6\n8\n18\n20\n24\n26\n");
    (OFF, LATTICE, LATTICE_OFF);
    (Asked { block: 1, workers: 64, ..OFF }, LATTICE, LATTICE_OFF);
    (Asked { block: 7, workers: 3, ..OFF }, LATTICE, LATTICE_OFF);
    (OFF, WIDE_CUBE, WIDE_CUBE_OFF);
    (OFF, LIMIT_CUBE, LIMIT_CUBE_OFF);
    (OFF, OCTAHEDRON, OCTAHEDRON_OFF);
    (Asked { block: 3, ..OFF }, OCTAHEDRON, OCTAHEDRON_OFF);
    (Asked { block: 3, workers: 2, ..FX }, OCTAHEDRON, "6\n0\n2\n3\n5\n6\n9\n");
    (SUMMARY, OCTAHEDRON, OCTAHEDRON_SUMMARY);
    (OFF, NEAR_FLAT, NEAR_FLAT_OFF);
    (OFF, LIMIT_NEAR_FLAT, LIMIT_NEAR_FLAT_OFF);
    (OFF, SLIVER, SLIVER_OFF);
    (OFF, LIMIT_SLIVER, LIMIT_SLIVER_OFF);
    // One point three times, and three others: the lowest index represents the equal ones.
    (Asked { outs: &[Out::Rank, Out::Fx], ..SUMMARY }, "3\n6\n1 0 0\n0 0 0\n0 1 0\n0 0 0\n0 0 1\n0 0 0\n", "6 4 3\n4\n0\n1\n2\n4\n");
    // Each corner is in its own block.
    (
        Asked { block: 1, ..SUMMARY },
        CUBE,
        "Convex hull of 8 points in 3-d:\n  dimension: 3\n  distinct points: 8\n  extreme points: 8\n  facets: 6\n  edges: 12\n",
    );
];

#[test]
fn answers_solid_rows(rt: HostRuntime) -> Result<(), Fail> {
    assert_rows(&rt, &ROWS)
}

#[test]
fn gives_the_same_each_time(rt: HostRuntime) -> Result<(), Fail> {
    for (workers, block) in [(2, 1), (4, 2), (8, 5), (64, 3)] {
        for _ in 0..8 {
            let asked = OFF.by(workers, block);
            assert_answered(&rt, asked, OCTAHEDRON.as_bytes(), (OCTAHEDRON_OFF, "", 0))?;
        }
    }
    Ok(())
}
