//! Segments of a file, parsed before the content in front of them is known.
ghost use Rattle.std.specs.Prelude.{◌≤◌, ◌<◌, ◌^◌, ℕ, List, length};
ghost use Rattle.qh_read.specs.steps.Segments.{IsSegment};

use crate::cursor::Cursor;
use qh_model::Point;
use std::alloc::Global;

/// A segment of a file, and the points after its first line, which are valid if a point begins there.
///
/// A file may be cut into segments anywhere. Only the reader knows whether a point begins after the first line: that
/// line may end in a comment, or a point may have begun on it.
#[derive(Drop)]
pub struct Segment {
    /// The points after the first line.
    pub points: Vec<Point>,
    /// The length of the first line with its end, or 0 if no line ends.
    pub head: usize,
    /// The number of line ends among the points.
    pub lines: u32,
    /// The offset of the first byte after the points.
    pub taken: usize,
}

/// Returns the length of the first line with its end, or 0 if no line ends.
fn after_line(bytes: &[u8]) -> usize
    ensures { result ≤ length bytes.now }
{
    for (i, byte) in bytes.iter().enumerate() {
        if *byte == b'\n' {
            return i + 1;
        }
    }
    0
}

impl Segment {
    /// Returns a segment without points, which is one of any text.
    pub fn none(alloc: Global) -> Segment
        ensures { (text : List ℕ) → IsSegment result text }
    {
        Segment {
            points: Vec::new(alloc),
            head: 0,
            lines: 0,
            taken: 0,
        }
    }

    /// Parses the points of this text after its first line, all of them, or none if the allocation fails.
    pub fn of(alloc: Global, text: &[u8]) -> Segment
        requires { length text.now < 2 ^ 31 }
        ensures { IsSegment result text.now }
    {
        // A point takes at least six bytes.
        let mut points = match Vec::with_capacity(alloc, text.len() / 6 + 1) {
            Ok(points) => points,
            Err(_) => Vec::new(alloc),
        };
        let head = after_line(text);
        let start = Cursor {
            bytes: text,
            at: head,
            line: 0,
        };
        let limit = points.capacity();
        let end = start.push_points(&mut points, limit);
        Segment {
            points,
            head,
            lines: end.line,
            taken: end.at,
        }
    }
}
