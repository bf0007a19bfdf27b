//! Directed edges of polygons, as keys that can be sorted.
use qh_model::keys::Packed;
use qh_model::{Memory, Polygon};
use std::alloc::{AllocError, Global};

/// Appends the keys of the edges of a polygon.
pub(crate) fn list_edges(polygon: &Polygon, edges: &mut Vec<Packed>) -> Result<(), AllocError> {
    for (from, to) in polygon.sides() {
        edges.push(Packed::new(from.number(), to.number()))?;
    }
    Ok(())
}

/// The border of the faces of a part that stay, given by the removed faces.
#[derive(Drop)]
pub struct Border {
    /// The edges of removed faces, sorted.
    edges: Vec<Packed>,
    /// True if no face stays.
    pub(crate) is_empty: bool,
}

/// Returns the border between the faces of a part that stay and those that are removed. `stay` has a mark for each
/// facet, set if it stays.
///
/// # Errors
///
/// `Memory` if an allocation failed.
pub fn border_of(alloc: Global, stay: &[bool], go: &[Polygon]) -> Result<Border, Memory> {
    let mut edges = Vec::new(alloc);
    for polygon in go {
        list_edges(polygon, &mut edges)?;
    }
    edges.sort_unstable();
    Ok(Border {
        edges: unmatched(alloc, &edges)?,
        is_empty: !stay.contains(&true),
    })
}

/// Returns how often an edge occurs in a sorted list.
fn count_of(edges: &[Packed], edge: Packed) -> usize {
    let before = edges.partition_point(|other| *other < edge);
    let up_to = edges.partition_point(|other| *other <= edge);
    up_to.saturating_sub(before)
}

/// Returns the edges of a sorted list that occur more often than their opposites, each as often as the excess.
fn unmatched(alloc: Global, edges: &[Packed]) -> Result<Vec<Packed>, AllocError> {
    let mut open = Vec::new(alloc);
    let mut last = None;
    let mut back = 0;
    for edge in edges {
        if last != Some(*edge) {
            last = Some(*edge);
            back = count_of(edges, edge.swapped());
        }
        if back > 0 {
            back -= 1;
        } else {
            open.push(*edge)?;
        }
    }
    Ok(open)
}

/// Returns the sorted edges of removed faces that no other removed face has in the opposite direction. Polygons that
/// close the gap have these edges.
pub(crate) fn open_edges(alloc: Global, borders: &[Border]) -> Result<Vec<Packed>, AllocError> {
    let mut edges = Vec::new(alloc);
    for border in borders {
        edges.extend_from_slice(&border.edges)?;
    }
    edges.sort_unstable();
    unmatched(alloc, &edges)
}
