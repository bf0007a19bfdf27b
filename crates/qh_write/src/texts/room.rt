//! Upper bounds for the lengths of texts, so that their memory is allocated once.

use super::fans::fan_size;
use qh_model::{Body, Out, Polygon};

/// The greatest number of bytes of a number with a blank or a line end.
const NUMBER: usize = 12;

/// The greatest number of bytes of the texts of `rank` and `s`.
const SUMMARY: usize = 256;

/// Returns an upper bound of the number of bytes of the lines of faces: of their lengths and the numbers of their corners.
pub fn faces_room(faces: &[Polygon]) -> usize {
    let corners = faces.iter().map(|face| face.ids().len());
    corners
        .fold(faces.len(), |numbers, count| numbers.saturating_add(count))
        .saturating_mul(NUMBER)
}

/// Returns an upper bound of the number of bytes of the lines of the fans of faces, each of at most four numbers.
pub fn fans_room(faces: &[Polygon]) -> usize {
    let triangles = faces.iter().map(|face| fan_size(face.ids()));
    triangles
        .fold(0usize, |all, count| all.saturating_add(count))
        .saturating_mul(4 * NUMBER)
}

/// Returns an upper bound of the number of bytes of the lines of vertices.
pub fn vertices_room(count: usize) -> usize {
    count.saturating_mul(3 * NUMBER)
}

fn output_room(body: &Body, out: Out) -> usize {
    let vertices = vertices_room(body.extremes.len());
    let lists = match out {
        Out::Rank | Out::Summary => 0,
        Out::Fx => body.extremes.len().saturating_mul(NUMBER),
        Out::Off => vertices.saturating_add(faces_room(&body.polygons)),
        Out::OffTriangles => vertices.saturating_add(fans_room(&body.polygons)),
    };
    SUMMARY.saturating_add(lists)
}

/// Returns an upper bound of the number of bytes of the outputs.
pub fn room_for(body: &Body, outs: &[Out]) -> usize {
    outs.iter().fold(
        0usize,
        |room, out| room.saturating_add(output_room(body, *out)),
    )
}
