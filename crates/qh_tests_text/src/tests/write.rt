//! Texts of small hulls, and the bytes that sinks receive.
ghost use Rattle.std.specs.Prelude.{◌≡◌, [], ◌∷◌, IfOk};

use qh_fixtures::files::TETRAHEDRON_OFF;
use qh_fixtures::{Host, table};
use qh_model::{Body, Hull, Id, Memory, Point, Polygon};
use qh_write::fakes::{FailSink, SinkPlan};
use qh_write::{MemSink, Out, SendFault, Sink, StdSink, send, text};
use std::alloc::Global;
use std::test::Fail;

/// A hull: the numbers of its points and distinct points; the dimension, extreme ids, faces and number of edges.
macro_rules! hull {
    ($given:expr, $distinct:expr; $dim:expr, $extremes:expr, $polygons:expr, $edges:expr) => {
        Hull {
            given: $given,
            distinct: $distinct,
            body: Body { dim: $dim, extremes: $extremes, polygons: $polygons, edges: $edges },
        }
    };
}

mod many_points;
mod refusals;
mod writers;

/// Returns the hull of a single point.
fn one_point(alloc: Global) -> Result<Hull, Memory>
    ensures { IfOk result (λ h. h.body.extremes ≡ 0 ∷ []) }
{
    let extremes = Vec::from_array(alloc, [Id::new(0)])?;
    let face = Vec::from_array(alloc, [Id::new(0)])?;
    let mut polygons = Vec::new(alloc);
    polygons.push(Polygon::of(face))?;
    Ok(hull!(1, 1; 0, extremes, polygons, 0))
}

/// The texts of the hull of the point (5, 5, 5).
const TEXTS: [(&[Out], &str); 2] = table![
    (&[Out::Rank, Out::Fx, Out::Off, Out::OffTriangles, Out::Rank], "1 1 0\n1\n0\nOFF\n1 1 0\n5 5 5\n1 0\nOFF\n1 1 0\n5 5 5\n1 0\n1 1 0\n");
    (&[Out::Summary],
        "Convex hull of 1 points in 3-d:\n  dimension: 0\n  distinct points: 1\n  extreme points: 1\n  facets: 1\n  edges: 0\n");
];

#[test]
fn texts_of_one_point(rt: HostRuntime) -> Result<(), Fail> {
    let hull = one_point(rt.alloc())?;
    for (outs, want) in TEXTS {
        let texts = text(rt.alloc(), &hull, &[Point::new(5, 5, 5)], outs)?;
        assert_eq!(rt; texts.as_slice(), want.as_bytes());
    }
    Ok(())
}

/// The plan of a sink with this greatest piece and this room, whose write with a number fails, or whose flush.
macro_rules! plan {
    ($piece:expr, $room:expr, $failing_write:expr, $flush_fails:expr) => {
        SinkPlan { greatest_piece: $piece, room: $room, failing_write: $failing_write, flush_fails: $flush_fails }
    };
}

/// Asserts the result of sending the tetrahedron to a device that fails according to a plan: `send` returns `want`, the
/// device received the first `length` bytes, and it failed once if `want` is an error, else never.
fn assert_sent(rt: &impl Host, plan: SinkPlan, want: Result<(), SendFault>, length: usize) {
    let bytes = TETRAHEDRON_OFF.as_bytes();
    let mut sink = FailSink::new(rt.alloc(), plan);
    let answer = send(&mut sink, bytes);
    let kept = (sink.bytes().len(), bytes.starts_with(sink.bytes()));
    let found = (answer, kept, sink.failures());
    let want = (want, (length, true), u64::from(want.is_err()));
    assert_eq!(rt; found, want, "{plan:?}");
}

#[test]
fn sends_all(rt: HostRuntime) {
    for piece in [1usize, 7, 65, 66, 100] {
        assert_sent(&rt, plan!(piece, 66, None, false), Ok(()), 66);
    }
}

#[test]
fn sends_a_beginning(rt: HostRuntime) {
    for k in 1..67usize {
        let plan = plan!(1, 66, Some(k as u64), false);
        assert_sent(&rt, plan, Err(SendFault), k - 1);
    }
    assert_sent(&rt, plan!(100, 7, None, false), Err(SendFault), 7);
    assert_sent(&rt, plan!(100, 66, None, true), Err(SendFault), 66);
}

#[test]
fn sends_to_memory(rt: HostRuntime) {
    let bytes = TETRAHEDRON_OFF.as_bytes();
    let mut sink = MemSink::new(rt.alloc());
    let answer = send(&mut sink, bytes);
    assert!(rt; answer == Ok(()) && sink.bytes() == bytes, "{answer:?}");
}

#[test]
fn sends_to_a_writer(rt: HostRuntime) {
    let mut sink = StdSink::new(Vec::new(rt.alloc()));
    let answer = send(&mut sink, TETRAHEDRON_OFF.as_bytes());
    assert_eq!(rt; (answer, sink.failures()), (Ok(()), 0));
}
