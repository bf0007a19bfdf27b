//! Witnesses for the corners of another part.
use crate::cut::cutting::Cutting;
use crate::cut::facets::Facets;
use crate::cut::rays::Rays;
use crate::cut::recent::Recent;
use qh_mesh::FacetNo;
use qh_model::Point;
use qh_parts_join::Run;
use qh_places::{Places, PointBox};
use std::alloc::{AllocError, Global};

/// Finds, for each point of the others, a facet that proves its position: a removed one below the point, or the one
/// through which the ray to the point leaves.
#[derive(Drop)]
pub(crate) struct Cover<'a> {
    alloc: Global,
    facets: Facets<'a>,
    rays: Rays<'a>,
    recent: Recent,
}

/// Adds a facet as the witness for the next points.
fn add(runs: &mut Vec<Run>, facet: FacetNo, count: usize) -> Result<(), AllocError> {
    match runs.last_mut() {
        Some(last) if last.facet == facet => last.count = last.count.saturating_add(count),
        _ => runs.push(Run { facet, count })?,
    }
    Ok(())
}

impl<'a> Cover<'a> {
    /// Returns a cover by facets, with rays from the middle of four points; `None` if there is no facet.
    pub fn start(alloc: Global, facets: Facets<'a>, four: [Point; 4]) -> Option<Cover<'a>> {
        let Some(rays) = Rays::from_middle(facets, four) else {
            return None;
        };
        Some(Cover {
            alloc,
            facets,
            rays,
            recent: Recent::none(alloc),
        })
    }

    /// Returns the facet through which the ray to a point leaves. If the point is above it, it is removed; if the
    /// point is in its plane, it is tested.
    fn met(&mut self, cutting: &mut Cutting, point: Point) -> Result<FacetNo, AllocError> {
        let f = self.rays.leaves(point, &mut cutting.budget);
        let Some(plane) = self.facets.plane(f) else {
            return Ok(f);
        };
        if plane.sees(point) {
            cutting.drop_facet(f)?;
            self.recent.put(f, plane)?;
        } else if plane.height(point) == 0 {
            cutting.ask(f)?;
        }
        Ok(f)
    }

    /// Returns a removed facet that is below all points of a block, if one is found. `own` has the points.
    fn witness_of_all(
        &mut self,
        cutting: &mut Cutting,
        block: &PointBox,
        own: &[Point],
    ) -> Result<Option<FacetNo>, AllocError> {
        if let Some(f) = self.recent.under_all(block) {
            return Ok(Some(f));
        }
        if let Some(point) = own.get(own.len() / 2) {
            self.met(cutting, *point)?;
        }
        Ok(self.recent.under_all(block))
    }

    /// Adds the witness of each point of a block.
    fn add_each(
        &mut self,
        cutting: &mut Cutting,
        own: &[Point],
        runs: &mut Vec<Run>,
    ) -> Result<(), AllocError> {
        for point in own {
            let f = match self.recent.under(*point) {
                Some(f) => f,
                None => self.met(cutting, *point)?,
            };
            add(runs, f, 1)?;
        }
        Ok(())
    }

    /// Adds the witnesses of the points of a block that begins at a position: of the largest block with one witness for
    /// all of its points, or else of the smallest block. Returns the number of points.
    fn add_block(
        &mut self,
        cutting: &mut Cutting,
        places: &Places,
        from: usize,
        runs: &mut Vec<Run>,
    ) -> Result<usize, AllocError> {
        let mut own: &[Point] = &[];
        for level in 0..places.level_count() {
            let Some((block, points)) = places.block(level, from) else {
                continue;
            };
            own = points;
            if !cutting.budget.spend(1) {
                return Ok(own.len());
            }
            if let Some(f) = self.witness_of_all(cutting, block, own)? {
                add(runs, f, own.len())?;
                return Ok(own.len());
            }
        }
        self.add_each(cutting, own, runs)?;
        Ok(own.len())
    }

    /// Returns the witnesses for the points of another part, in their order. If the budget is exhausted, some are missing.
    pub fn witnesses(
        &mut self,
        cutting: &mut Cutting,
        places: &Places,
    ) -> Result<Vec<Run>, AllocError> {
        let mut runs = Vec::new(self.alloc);
        let mut from = 0usize;
        for _ in 0..places.points.len() {
            if from >= places.points.len() || cutting.budget.is_spent() {
                break;
            }
            let count = self.add_block(cutting, places, from, &mut runs)?;
            from = from.saturating_add(count);
        }
        Ok(runs)
    }
}
