//! The 20,000 points of a paraboloid, all of them extreme, with four settings, and 70,000 points whose hull is computed
//! by several threads.
use crate::tests::outcomes::{Asked, OFFT, SUMMARY, push_point};
use qh_run::NoGate;
use qh_serve::Threaded;
use qh_write::Out;
use std::alloc::{AllocError, Global};
use std::test::Fail;

/// The greatest number of points that are created: their coordinates fit.
const COUNT_LIMIT: u32 = 70000;

const BEGINNING: &str =
    "Convex hull of 20000 points in 3-d:\n  dimension: 3\n  distinct points: 20000\n  extreme points: 20000\n  facets: 19706\n  edges: 39704\n";

/// The outputs whose text begins with the summary.
pub const OUTPUTS: Asked<'static> = Asked {
    outs: &[Out::Summary, Out::Fx, Out::Off],
    ..SUMMARY
};

/// Returns the first points (x, y, x x + y y) for y below 100.
pub fn points(alloc: Global, count: u32) -> Result<String, AllocError> {
    let mut text = format!(in alloc; "3\n{count}\n")?;
    for number in 0..count.min(COUNT_LIMIT) {
        let (x, y) = (number / 100, number % 100);
        push_point(&mut text, alloc, [x, y, x * x + y * y].map(i64::from))?;
    }
    Ok(text)
}

#[test]
fn has_one_text_in_all_settings(rt: HostRuntime) -> Result<(), Fail> {
    let input = points(rt.alloc(), 20000)?;
    let asked = OUTPUTS.by(1, 20000);
    let whole = asked.answered(&rt, input.as_bytes(), &NoGate)?;
    assert!(rt; whole.output.starts_with(BEGINNING));
    for (workers, block) in [(2, 4096), (7, 4), (64, 4096)] {
        let asked = OUTPUTS.by(workers, block);
        let outcome = asked.answered(&rt, input.as_bytes(), &NoGate)?;
        assert!(rt; outcome.output == whole.output, "{workers} workers");
    }
    Ok(())
}

/// The beginning of `offt`: one vertex for each point, 39,996 triangles, and their edges.
const TRIANGLES: &str = "OFF\n20000 39996 59994\n";

#[test]
fn has_its_triangles(rt: HostRuntime) -> Result<(), Fail> {
    let input = points(rt.alloc(), 20000)?;
    let outcome = OFFT.answered(&rt, input.as_bytes(), &NoGate)?;
    assert!(rt; outcome.output.starts_with(TRIANGLES));
    // Two lines of counts and one line for each vertex are skipped; all lines after them are triangles.
    let faces = outcome.output.lines().skip(2 + 20000);
    let count = faces.filter(|line| line.starts_with("3 ")).count();
    assert_eq!(rt; count, 39996);
    Ok(())
}

const LARGE_BEGINNING: &str =
    "Convex hull of 70000 points in 3-d:\n  dimension: 3\n  distinct points: 70000\n  extreme points: 70000\n";

#[test]
fn has_the_same_text_by_parts(rt: HostRuntime) -> Result<(), Fail> {
    let input = points(rt.alloc(), 70000)?;
    let asked = OUTPUTS.by(4, 4096);
    let whole = asked.answered(&rt, input.as_bytes(), &NoGate)?;
    assert!(rt; whole.output.starts_with(LARGE_BEGINNING));
    let (rt, threads) = (&rt, 4);
    let by_parts = asked.answered(rt, input.as_bytes(), &Threaded { rt, threads })?;
    assert!(rt; by_parts.output == whole.output);
    Ok(())
}
