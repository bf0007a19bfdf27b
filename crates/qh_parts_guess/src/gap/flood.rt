//! The polygons of a hull that are reachable from open edges.
ghost use Rattle.std.specs.Prelude.{IfOk};
ghost use Rattle.qh_model.specs.contract.IdSets.{AreIndices};

use crate::gap::edges::{Border, list_edges, open_edges};
use qh_model::keys::Packed;
use qh_model::{Id, Point, Polygon};
use std::alloc::{AllocError, Global};

/// The number of values of a position in a side's key: 2^64.
const POSITION_ROOM: u128 = 18446744073709551616;

/// The edges of polygons, sorted, each with the position of its polygon.
#[derive(Drop)]
struct EdgeIndex {
    keys: Vec<u128>,
}

/// Returns a key that combines an edge and the position of a polygon.
fn side_key(edge: Packed, position: u64) -> u128 {
    u128::from(edge.high()) << 96 | u128::from(edge.low()) << 64 | u128::from(position)
}

impl EdgeIndex {
    /// Returns the edges of polygons.
    fn of(alloc: Global, polygons: &[Polygon]) -> Result<EdgeIndex, AllocError> {
        let mut keys = Vec::new(alloc);
        let mut edges = Vec::new(alloc);
        for (position, polygon) in polygons.iter().enumerate() {
            edges.clear();
            list_edges(polygon, &mut edges)?;
            for edge in &edges {
                keys.push(side_key(*edge, position as u64))?;
            }
        }
        keys.sort_unstable();
        Ok(EdgeIndex { keys })
    }

    /// Returns the position of a polygon that has an edge.
    fn polygon_of(&self, edge: Packed) -> Option<usize> {
        let least = side_key(edge, 0);
        let place = self.keys.partition_point(|key| *key < least);
        let key = *self.keys.get(place)?;
        (key >> 64 == least >> 64).then_some((key % POSITION_ROOM) as usize)
    }
}

/// A hull to be flooded from open edges, with marks of its polygons that are taken, and their positions in the order in
/// which they were taken.
#[derive(Drop)]
struct Flood<'a> {
    polygons: &'a [Polygon],
    sides: EdgeIndex,
    open: &'a [Packed],
    taken: Vec<bool>,
    order: Vec<usize>,
    /// Edges whose polygons have to be taken.
    wanted: Vec<Packed>,
}

impl Flood<'_> {
    /// Takes the polygon at a position, unless it is taken already. The opposites of its edges become wanted, except
    /// for edges that are open.
    fn take(&mut self, position: usize, edges: &mut Vec<Packed>) -> Result<(), AllocError> {
        let polygon = self.polygons.get(position);
        let (Some(polygon), Some(taken)) = (polygon, self.taken.get_mut(position)) else {
            return Ok(());
        };
        if *taken {
            return Ok(());
        }
        *taken = true;
        self.order.push(position)?;
        edges.clear();
        list_edges(polygon, edges)?;
        for edge in &*edges {
            if self.open.binary_search(edge).is_err() {
                self.wanted.push(edge.swapped())?;
            }
        }
        Ok(())
    }

    /// Takes polygons until no edge is wanted. Returns false if no polygon has a wanted edge.
    fn run(&mut self, alloc: Global) -> Result<bool, AllocError> {
        let mut edges = Vec::new(alloc);
        let most = self.open.len().saturating_add(self.sides.keys.len());
        for _ in 0..most {
            let Some(edge) = self.wanted.pop() else {
                return Ok(true);
            };
            let Some(position) = self.sides.polygon_of(edge) else {
                return Ok(false);
            };
            self.take(position, &mut edges)?;
        }
        Ok(self.wanted.is_empty())
    }
}

/// Returns the positions of the polygons that are reachable from the open edges, in an order in which neighbours mostly
/// follow each other; `None` if an edge is reached that no polygon has.
fn reached(
    alloc: Global,
    polygons: &[Polygon],
    open: &[Packed],
) -> Result<Option<Vec<usize>>, AllocError> {
    let mut flood = Flood {
        polygons,
        sides: EdgeIndex::of(alloc, polygons)?,
        open,
        taken: vec![in alloc; false; polygons.len()]?,
        order: Vec::new(alloc),
        wanted: Vec::from_slice(alloc, open)?,
    };
    let is_closed = flood.run(alloc)?;
    Ok(if is_closed { Some(flood.order) } else { None })
}

/// Returns the ids of a list that are indices of points.
pub fn indices_among(alloc: Global, pts: &[Point], ids: &[Id]) -> Result<Vec<Id>, AllocError>
    ensures { IfOk result (λ v. AreIndices pts.now v.items) }
{
    let mut indices = Vec::with_capacity(alloc, ids.len())?;
    for id in ids {
        if id.index() < pts.len() {
            indices.push(*id)?;
        }
    }
    Ok(indices)
}

/// Returns copies of the polygons at positions, in the order of the positions.
fn polygons_at(
    alloc: Global,
    polygons: &[Polygon],
    order: &[usize],
) -> Result<Vec<Polygon>, AllocError> {
    let mut copies = Vec::with_capacity(alloc, order.len())?;
    for position in order {
        if let Some(polygon) = polygons.get(*position) {
            copies.push(Polygon::of(Vec::from_slice(alloc, polygon.ids())?))?;
        }
    }
    Ok(copies)
}

/// Returns the polygons that close the gap between borders, from those of the hull of the ids of the seam, which are all
/// corners beside the gap. They begin at their least ids, and neighbours mostly follow each other. Returns `None` if the
/// open edges lead to an edge that no polygon of that hull has. If no border has a polygon, all polygons of that hull
/// are taken.
///
/// # Errors
///
/// `AllocError` if an allocation failed.
pub fn bridge_over(
    alloc: Global,
    polygons: Vec<Polygon>,
    borders: &[Border],
) -> Result<Option<Vec<Polygon>>, AllocError> {
    if borders.iter().all(|border| border.is_empty) {
        return Ok(Some(polygons));
    }
    let open = open_edges(alloc, borders)?;
    let Some(order) = reached(alloc, &polygons, &open)? else {
        return Ok(None);
    };
    Ok(Some(polygons_at(alloc, &polygons, &order)?))
}
