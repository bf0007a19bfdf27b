//! Readings during which one allocation fails: the points are right, or the call is out of memory and returns the right
//! points when it is repeated. `scripts/trials/refusals.py` makes each allocation fail in turn.
use super::{Outcome, Place, Way, assert_gave, read};
use qh_fixtures::files::{CUBE, OCTAHEDRON, SQUARE};
use qh_fixtures::points::{cube, octahedron, square};
use qh_fixtures::{again, table};
use qh_model::{Form, Point};
use qh_read::{FeedFault, ReadFault, Reader, Sizes};
use std::alloc::Global;

/// Feeds each byte separately. Repeats a call that fails.
fn feed_again(reader: &mut Reader, bytes: &[u8]) -> Result<(), FeedFault> {
    for piece in bytes.chunks(1) {
        if reader.feed(piece) == Err(FeedFault::Memory) {
            reader.feed(piece)?;
        }
    }
    Ok(())
}

/// Returns the result of reading these bytes one by one.
fn fed(alloc: Global, bytes: &[u8]) -> Outcome {
    let mut reader = Reader::new(alloc);
    feed_again(&mut reader, bytes)?;
    reader.finish()
}

/// Returns the coordinates of a point.
fn place(point: Point) -> Place {
    (point.x(), point.y(), point.z())
}

#[test]
fn tries_again(rt: HostRuntime) {
    let (square, cube) = (square().map(place), cube(0, 1).map(place));
    let octahedron = octahedron().map(place);
    let rows = table![(SQUARE, square.as_slice()); (CUBE, &cube); (OCTAHEDRON, &octahedron);];
    for (text, places) in rows {
        let bytes = text.as_bytes();
        for way in [Way::Whole, Way::Source, Way::Threads(sizes!(8, 40, 2, 3))] {
            let outcome = again!(read(&rt, Form::Qhull, bytes, way), ReadFault::Memory);
            assert_gave(&rt, outcome, Ok(places), text, way);
        }
        let outcome = fed(rt.alloc(), bytes);
        assert_gave(&rt, outcome, Ok(places), text, Way::Pieces(1));
    }
}
