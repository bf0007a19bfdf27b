//! The facets below recent points: most nearby points are above one of these facets, too.
use qh_mesh::FacetNo;
use qh_model::Point;
use qh_places::PointBox;
use qh_pred::Plane;
use std::alloc::{AllocError, Global};

/// The greatest number of facets that are kept.
const KEPT: usize = 4;

/// A few removed facets with their planes, the most recent one first.
#[derive(Drop)]
pub(crate) struct Recent {
    seeing: Vec<(FacetNo, Plane)>,
}

impl Recent {
    /// Creates an empty list of recent facets.
    pub fn none(alloc: Global) -> Recent {
        Recent {
            seeing: Vec::new(alloc),
        }
    }

    /// Inserts a facet at the front.
    pub fn put(&mut self, facet: FacetNo, plane: Plane) -> Result<(), AllocError> {
        self.seeing.truncate(KEPT - 1);
        Ok(self.seeing.insert(0, (facet, plane))?)
    }

    /// Swaps the facet at a position with the one before it, and returns its number; `None` if the position is past
    /// the end.
    fn moved_up(&mut self, position: usize) -> Option<FacetNo> {
        let (facet, _) = *self.seeing.get(position)?;
        if position > 0 && position < self.seeing.len() {
            self.seeing.swap(position, position - 1);
        }
        Some(facet)
    }

    /// Returns a facet that is below a point.
    pub fn under(&mut self, point: Point) -> Option<FacetNo> {
        let position = self.seeing.iter().position(|(_, plane)| plane.sees(point))?;
        self.moved_up(position)
    }

    /// Returns a facet that is below all points of a block.
    pub fn under_all(&mut self, block: &PointBox) -> Option<FacetNo> {
        let position = self
            .seeing
            .iter()
            .position(|(_, plane)| block.is_above(plane))?;
        self.moved_up(position)
    }
}
