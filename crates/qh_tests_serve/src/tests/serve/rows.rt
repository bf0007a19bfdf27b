//! Point files with their texts: of points in one plane, of faces as fans of triangles, and of ranks.
use super::assert_rows;
use super::solids::{LIMIT_NEAR_FLAT, NEAR_FLAT};
use crate::tests::outcomes::{Asked, OFF, OFFT, RANK, SUMMARY};
use qh_fixtures::files::{
    COMMENTED_TETRAHEDRON, CUBE, OCTAHEDRON, OCTAHEDRON_OFF, ONE_POINT, SQUARE, SQUARE_OFF,
    TETRAHEDRON, TETRAHEDRON_OFF,
};
use qh_fixtures::table;
use qh_write::Out;
use std::test::Fail;

const FIVE_IN_LINE: &str = "3\n5\n1 1 1\n0 0 0\n4 4 4\n2 2 2\n3 3 3\n";

/// Settings, an input and its text, for points in one plane.
const ROWS: [(Asked, &str, &str); 13] = table![
    (Asked { outs: &[Out::Rank, Out::Fx, Out::Off, Out::Rank], ..SUMMARY }, ONE_POINT, "1 1 0\n1\n0\nOFF\n1 1 0\n5 5 5\n1 0\n1 1 0\n");
    (SUMMARY, ONE_POINT,
        "Convex hull of 1 points in 3-d:\n  dimension: 0\n  distinct points: 1\n  extreme points: 1\n  facets: 1\n  edges: 0\n");
    (OFF, "3 2\n0 0 0\n2 2 2\n", "OFF\n2 1 1\n0 0 0\n2 2 2\n2 0 1\n");
    (Asked { outs: &[Out::Fx, Out::Off], ..SUMMARY }, FIVE_IN_LINE, "2\n1\n2\nOFF\n2 1 1\n0 0 0\n4 4 4\n2 0 1\n");
    (SUMMARY, FIVE_IN_LINE,
        "Convex hull of 5 points in 3-d:\n  dimension: 1\n  distinct points: 5\n  extreme points: 2\n  facets: 1\n  edges: 1\n");
    (OFF, "+3 01\n-0 +0 0005\n", "OFF\n1 1 0\n0 0 5\n1 0\n");
    (Asked { outs: &[Out::Rank, Out::Fx], ..SUMMARY }, "3\n3\n7 7 7\n7 7 7\n7 7 7\n", "3 1 0\n1\n0\n");
    (OFF, SQUARE, SQUARE_OFF);
    (OFF, "3\n4\n5 0 0\n5 0 2\n5 2 2\n5 2 0\n", "OFF\n4 1 4\n5 0 0\n5 0 2\n5 2 2\n5 2 0\n4 0 3 2 1\n");
    // Repeats: the lowest index represents equal points, here 1 and 3 among others.
    (Asked { outs: &[Out::Rank, Out::Fx], ..SUMMARY }, "3\n6\n1 1 0\n0 0 0\n0 0 0\n2 0 0\n2 0 0\n0 2 0\n", "6 4 2\n3\n1\n3\n5\n");
    // A triangle with points on its edges and inside it.
    (OFF, "3\n6\n0 0 7\n4 0 7\n2 0 7\n0 4 7\n2 2 7\n1 1 7\n", "OFF\n3 1 3\n0 0 7\n4 0 7\n0 4 7\n3 0 1 2\n");
    (OFF, "3\n2\n-1048576 1048576 0\n1048576 -1048576 0\n", "OFF\n2 1 1\n-1048576 1048576 0\n1048576 -1048576 0\n2 0 1\n");
    (
        OFF,
        "3\n2\n-1073741824 1073741824 0\n1073741824 -1073741824 0\n",
        "OFF\n2 1 1\n-1073741824 1073741824 0\n1073741824 -1073741824 0\n2 0 1\n",
    );
];

/// The unit cube: each of its six squares as two triangles.
const CUBE_OFFT: &str = "OFF\n8 12 18\n0 0 0\n0 0 1\n0 1 0\n0 1 1\n1 0 0\n1 0 1\n1 1 0\n1 1 1\n\
    3 0 1 3\n3 0 3 2\n3 0 2 6\n3 0 6 4\n3 0 4 5\n3 0 5 1\n3 1 5 7\n3 1 7 3\n3 2 3 7\n3 2 7 6\n3 4 6 7\n3 4 7 5\n";

const SQUARE_OFFT: &str = "OFF\n4 2 5\n0 0 0\n2 0 0\n2 2 0\n0 2 0\n3 0 1 2\n3 0 2 3\n";

/// Settings, an input and its text, for faces as fans of triangles.
const FANS: [(Asked, &str, &str); 10] = table![
    (OFFT, ONE_POINT, "OFF\n1 1 0\n5 5 5\n1 0\n");
    (OFFT, "3 2\n0 0 0\n2 2 2\n", "OFF\n2 1 1\n0 0 0\n2 2 2\n2 0 1\n");
    (OFFT, SQUARE, SQUARE_OFFT);
    (
        Asked { outs: &[Out::Off, Out::OffTriangles, Out::Rank], ..SUMMARY },
        "3\n4\n5 0 0\n5 0 2\n5 2 2\n5 2 0\n",
        "OFF\n4 1 4\n5 0 0\n5 0 2\n5 2 2\n5 2 0\n4 0 3 2 1\nOFF\n4 2 5\n5 0 0\n5 0 2\n5 2 2\n5 2 0\n3 0 3 2\n3 0 2 1\n4 4 2\n",
    );
    // A hexagon: four triangles, three edges of which are inside it.
    (
        OFFT,
        "3\n6\n0 0 0\n2 0 0\n3 1 0\n2 2 0\n0 2 0\n-1 1 0\n",
        "OFF\n6 4 9\n0 0 0\n2 0 0\n3 1 0\n2 2 0\n0 2 0\n-1 1 0\n3 0 1 2\n3 0 2 3\n3 0 3 4\n3 0 4 5\n",
    );
    (OFFT, TETRAHEDRON, TETRAHEDRON_OFF);
    (OFFT, CUBE, CUBE_OFFT);
    (Asked { workers: 2, block: 1, ..OFFT }, CUBE, CUBE_OFFT);
    (OFFT, OCTAHEDRON, OCTAHEDRON_OFF);
    (Asked { block: 3, ..OFFT }, OCTAHEDRON, OCTAHEDRON_OFF);
];

/// The settings for `rank`, an input and its text.
const RANKS: [(Asked, &str, &str); 19] = table![
    (RANK, ONE_POINT, "1 1 0\n");
    (RANK, "3 2\n0 0 0\n2 2 2\n", "2 2 1\n");
    (RANK, "4 3\n0 0 0\n1 0 0\n0 1 0\n0 0 1\n", "4 4 3\n");
    (RANK, COMMENTED_TETRAHEDRON, "4 4 3\n");
    (RANK, "+3 01\n-0 +0 0005\n", "1 1 0\n");
    (RANK, "3\n3\n7 7 7\n7 7 7\n7 7 7\n", "3 1 0\n");
    (RANK, FIVE_IN_LINE, "5 5 1\n");
    (RANK, SQUARE, "5 5 2\n");
    // The magnitude of the volume is 2^64, which wraps to 0 in 64 bits.
    (RANK, "3\n4\n-1048576 -1048576 -1048576\n1048576 1048576 -1048576\n1048576 -1048576 1048576\n-1048576 1048576 1048576\n", "4 4 3\n");
    // The volume is -1, with points far apart.
    (RANK, NEAR_FLAT, "4 4 3\n");
    // The same with coordinates up to 2^30.
    (
        RANK,
        "3\n4\n-1073741824 -1073741824 -1073741824\n1073741824 1073741824 -1073741824\n1073741824 -1073741824 1073741824\n-1073741824 1073741824 1073741824\n",
        "4 4 3\n",
    );
    (RANK, LIMIT_NEAR_FLAT, "4 4 3\n");
    (RANK, "3\n1\n0 0 1048577\n", "1 1 0\n");
    (RANK, "3\n4\n9 9 9\n1 2 3\n9 9 9\n4 5 6\n", "4 3 2\n");
    // Byte 13 is a blank, and so are bytes 11 and 12.
    (RANK, "3\n1\n5 5\r5\n", "1 1 0\n");
    (RANK, "3\n1\n5\x0b5\x0c5\n", "1 1 0\n");
    (RANK, "3\n1\n5\t5\t5\n", "1 1 0\n");
    // Comments: byte 0 begins a comment, and a comment in the middle hides the rest of its line.
    (RANK, "3\n1\n0 0 0 \0 9", "1 1 0\n");
    (RANK, "3\n4\n0 0 0\n1 x 0\n0 1 0\n0 0 1 5 5\n", "4 3 2\n");
];

#[test]
fn answers_rows(rt: HostRuntime) -> Result<(), Fail> {
    assert_rows(&rt, &ROWS)?;
    assert_rows(&rt, &FANS)?;
    assert_rows(&rt, &RANKS)
}
