//! Sets with corners one lattice step above a face, for which floating-point programs lose corners: with coordinates up
//! to 2^20, and with the same faces and coordinates up to 2^30. Their numbers of corners and facets are those that
//! programs with exact arithmetic find.
use super::assert_answered;
use crate::tests::outcomes::{SUMMARY, push_point};
use qh_fixtures::Host;
use std::alloc::{AllocError, Global};
use std::test::Fail;

/// Returns the combination i u + j v + k w of three edges of a lattice cell of volume 1 and of sides about m.
fn combined(m: i64, i: i64, j: i64, k: i64) -> [i64; 3] {
    let by = |a: i64, b: i64| a.wrapping_mul(b);
    let less = m.wrapping_sub(1);
    [
        by(i, m).wrapping_add(k),
        by(i, less).wrapping_add(by(j, m)).wrapping_add(by(2, k)),
        by(j, less).wrapping_add(k),
    ]
}

/// Returns two triangles that meet in a roof one step high, and its foot.
fn roof(alloc: Global, m: i64) -> Result<String, AllocError> {
    let mut text = String::from_str(alloc, "3\n5\n")?;
    for (i, j, k) in [(0, 0, 0), (3, 0, 0), (0, 3, 0), (1, 1, 1)] {
        push_point(&mut text, alloc, combined(m, i, j, k))?;
    }
    push_point(&mut text, alloc, [0, m.wrapping_mul(3), 0])?;
    Ok(text)
}

/// Returns a bowl of 121 points on a paraboloid over a wide lattice, and a point far above.
fn bowl(alloc: Global, m: i64) -> Result<String, AllocError> {
    let mut text = String::from_str(alloc, "3\n122\n")?;
    for i in -5..=5i64 {
        for j in -5..=5i64 {
            let rise = i.wrapping_mul(i).wrapping_add(j.wrapping_mul(j));
            push_point(&mut text, alloc, combined(m, i, j, rise))?;
        }
    }
    let far = m.wrapping_mul(5);
    push_point(&mut text, alloc, [far, far.wrapping_neg(), far])?;
    Ok(text)
}

/// Returns the scalar product of a row of a matrix and three coordinates, times a factor.
fn row_product(row: [i64; 3], p: [i64; 3], factor: i64) -> i64 {
    let [a, b, c] = row;
    let [x, y, z] = p;
    let sum = a.wrapping_mul(x).wrapping_add(b.wrapping_mul(y));
    sum.wrapping_add(c.wrapping_mul(z)).wrapping_mul(factor)
}

/// A matrix of determinant 1.
const MATRIX: [[i64; 3]; 3] = [[1, 166, 147], [-176, -29215, -26084], [47, 7991, -33158]];

/// Returns the lattice points of a ball of radius 3, mapped by the matrix and scaled by a factor.
fn basis(alloc: Global, factor: i64) -> Result<String, AllocError> {
    let mut text = String::from_str(alloc, "3\n123\n")?;
    for x in -3..=3i64 {
        for y in -3..=3i64 {
            for z in -3..=3i64 {
                if row_product([x, y, z], [x, y, z], 1) <= 9 {
                    let image = MATRIX.map(|row| row_product(row, [x, y, z], factor));
                    push_point(&mut text, alloc, image)?;
                }
            }
        }
    }
    Ok(text)
}

const ROOF: &str =
    "Convex hull of 5 points in 3-d:\n  dimension: 3\n  distinct points: 5\n  extreme points: 5\n  facets: 6\n  edges: 9\n";

const BOWL: &str =
    "Convex hull of 122 points in 3-d:\n  dimension: 3\n  distinct points: 122\n  extreme points: 122\n  facets: 124\n  edges: 244\n";

const BASIS: &str =
    "Convex hull of 123 points in 3-d:\n  dimension: 3\n  distinct points: 123\n  extreme points: 30\n  facets: 56\n  edges: 84\n";

/// Asserts the summary of each set.
fn assert_summaries(rt: &impl Host, texts: [String; 2], summary: &str) -> Result<(), Fail> {
    for text in &texts {
        for asked in [SUMMARY, SUMMARY.by(3, 5)] {
            assert_answered(rt, asked, text.as_bytes(), (summary, "", 0))?;
        }
    }
    Ok(())
}

#[test]
fn keeps_all_corners_of_a_roof(rt: HostRuntime) -> Result<(), Fail> {
    let (small, great) = (roof(rt.alloc(), 300_000)?, roof(rt.alloc(), 357_913_941)?);
    assert_summaries(&rt, [small, great], ROOF)
}

#[test]
fn keeps_all_corners_of_a_bowl(rt: HostRuntime) -> Result<(), Fail> {
    let (small, great) = (bowl(rt.alloc(), 100_000)?, bowl(rt.alloc(), 107_374_172)?);
    assert_summaries(&rt, [small, great], BOWL)
}

#[test]
fn keeps_all_corners_of_a_basis(rt: HostRuntime) -> Result<(), Fail> {
    let (small, great) = (basis(rt.alloc(), 1)?, basis(rt.alloc(), 9_693)?);
    assert_summaries(&rt, [small, great], BASIS)
}
