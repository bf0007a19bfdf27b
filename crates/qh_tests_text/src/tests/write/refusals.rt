//! Calls during which one allocation fails: the result is right, or the call is out of memory and returns the right
//! result when it is repeated. `scripts/trials/refusals.py` makes each allocation fail in turn.
ghost use Rattle.std.specs.Prelude.{◌≡◌, [], ◌∷◌, IfOk};

use qh_fixtures::{again, points, table};
use qh_model::{Body, Hull, Id, Memory, Polygon};
use qh_write::{MemSink, Out, Sink, send, text};
use std::alloc::Global;
use std::test::Fail;

/// Returns the hull of the corners of a square and of its centre.
fn square(alloc: Global) -> Result<Hull, Memory>
    ensures { IfOk result (λ h. h.body.extremes ≡ 0 ∷ 1 ∷ 2 ∷ 3 ∷ []) }
{
    let corners = [Id::new(0), Id::new(1), Id::new(2), Id::new(3)];
    let extremes = Vec::from_array(alloc, corners)?;
    let face = Vec::from_array(alloc, corners)?;
    let mut polygons = Vec::new(alloc);
    polygons.push(Polygon::of(face))?;
    Ok(hull!(5, 5; 2, extremes, polygons, 4))
}

const OUTS: [Out; 5] = table![Out::Rank; Out::Summary; Out::Fx; Out::Off; Out::OffTriangles;];

const SQUARE_TEXT: &str =
    "5 5 2\nConvex hull of 5 points in 3-d:\n  dimension: 2\n  distinct points: 5\n  extreme points: 4\n  facets: 1\n  edges: 4\n4\n0\n1\n2\n3\nOFF\n4 1 4\n0 0 0\n2 0 0\n2 2 0\n0 2 0\n4 0 1 2 3\nOFF\n4 2 5\n0 0 0\n2 0 0\n2 2 0\n0 2 0\n3 0 1 2\n3 0 2 3\n";

#[test]
fn tries_again_for_texts(rt: HostRuntime) -> Result<(), Fail> {
    let hull = again!(square(rt.alloc()), Memory)?;
    let texts = again!(text(rt.alloc(), &hull, &points::square(), &OUTS), Memory)?;
    assert_eq!(rt; texts.as_slice(), SQUARE_TEXT.as_bytes());
    Ok(())
}

/// Returns true if a memory sink receives all bytes; a failed allocation counts once, and the call is repeated.
fn sends_again(alloc: Global, bytes: &[u8]) -> bool {
    let mut sink = MemSink::new(alloc);
    if send(&mut sink, bytes).is_err() {
        let as_before = sink.failures() == 1 && sink.bytes().is_empty();
        if !as_before || send(&mut sink, bytes).is_err() {
            return false;
        }
    }
    sink.bytes() == bytes
}

#[test]
fn tries_again_to_send(rt: HostRuntime) {
    assert!(rt; sends_again(rt.alloc(), SQUARE_TEXT.as_bytes()));
}
