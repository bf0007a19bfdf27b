//! The state of the facets of a part: those that are removed and those that stay.
use crate::cut::facets::Facets;
use qh_mesh::FacetNo;
use qh_parts_join::Part;
use qh_places::{Budget, Tangent};
use qh_pred::Plane;
use std::alloc::{AllocError, Global};

/// The state of a facet.
#[derive(Clone, Copy, PartialEq, Eq, Drop)]
pub(crate) enum State {
    /// Not tested: the facet stays unless it is found to be removed.
    Unasked,
    /// All points of the others are strictly below it.
    Stays,
    /// The facet is removed: a point of the others is above it or in its plane, or all parts have it.
    Goes,
}

/// All parts of a set, with the number of the one whose facets are tested.
#[derive(Clone, Copy, Drop)]
pub(crate) struct Others<'a> {
    pub parts: &'a [Part],
    pub number: usize,
}

/// The number of positions, points and facets to test, for each facet of a part, after which its guess is given up. Of
/// 150,000 points a sphere takes 3, a dome 7, and a million take a third of that; an ellipsoid of the axes 9, 6 and 2
/// takes 5. The hull by one thread takes as long as 19.
const LOOKED_FOR_EACH: u32 = 16;

/// The facets of a part, with the state of each.
#[derive(Drop)]
pub(crate) struct Cutting<'a> {
    facets: Facets<'a>,
    others: Others<'a>,
    states: Vec<State>,
    /// The facets that are removed.
    pub gone: Vec<FacetNo>,
    /// Neighbours of removed facets, still to be tested.
    waiting: Vec<FacetNo>,
    /// The facets of a plane.
    plane: Vec<FacetNo>,
    /// The remaining budget. If it is exhausted, the guess is of no use.
    pub budget: Budget,
}

impl Others<'_> {
    /// Returns true if the corners of all other parts are strictly below a plane. Also returns false if the budget is
    /// exhausted.
    pub fn are_below(&self, tangent: &Tangent, budget: &mut Budget) -> bool {
        let mut parts = self.parts.iter().enumerate();
        parts.all(|(other, part)| other == self.number || part.places.is_below(tangent, budget))
    }
}

impl<'a> Cutting<'a> {
    /// Returns the facets of a part, all in the initial state.
    pub fn start(
        alloc: Global,
        facets: Facets<'a>,
        others: Others<'a>,
    ) -> Result<Cutting<'a>, AllocError> {
        Ok(Cutting {
            facets,
            others,
            states: vec![in alloc; State::Unasked; facets.places()]?,
            gone: Vec::new(alloc),
            waiting: Vec::new(alloc),
            plane: Vec::new(alloc),
            budget: Budget::for_each(facets.places(), LOOKED_FOR_EACH),
        })
    }

    /// Returns the state of a facet.
    pub fn state(&self, f: FacetNo) -> State {
        let state = self.states.get(f.index());
        state.copied().unwrap_or(State::Unasked)
    }

    /// Sets the state of a facet, and adds it to the facets of the plane.
    fn enter(&mut self, f: FacetNo, state: State) -> Result<(), AllocError> {
        if let Some(known) = self.states.get_mut(f.index()) {
            *known = state;
        }
        if state == State::Goes {
            self.gone.push(f)?;
        }
        self.plane.push(f)?;
        Ok(())
    }

    /// Visits the neighbours of a facet: those in the plane get the state; the others are queued for a test if the
    /// plane is removed.
    fn spread(&mut self, f: FacetNo, plane: &Plane, state: State) -> Result<(), AllocError> {
        for side in 0..3 {
            let Some(next) = self.facets.next(f, side) else {
                continue;
            };
            let known = self.state(next);
            if known == state {
                continue;
            }
            let opposite = self.facets.opposite(f, side);
            if opposite.is_some_and(|point| plane.height(point) == 0) {
                self.enter(next, state)?;
            } else if state == State::Goes && known == State::Unasked {
                self.waiting.push(next)?;
            }
        }
        Ok(())
    }

    /// Sets the state of all facets in the plane of one.
    fn settle(&mut self, f: FacetNo, plane: &Plane, state: State) -> Result<(), AllocError> {
        self.plane.clear();
        self.enter(f, state)?;
        for place in 0..self.states.len() {
            let Some(next) = self.plane.get(place).copied() else {
                break;
            };
            self.spread(next, plane, state)?;
        }
        Ok(())
    }

    /// Removes a facet, with all facets of its plane, unless it is removed already.
    pub fn drop_facet(&mut self, f: FacetNo) -> Result<(), AllocError> {
        if self.state(f) == State::Goes {
            return Ok(());
        }
        match self.facets.plane(f) {
            Some(plane) => self.settle(f, &plane, State::Goes),
            None => Ok(()),
        }
    }

    /// Tests whether a facet stays, unless that is known.
    pub fn ask(&mut self, f: FacetNo) -> Result<(), AllocError> {
        if self.state(f) != State::Unasked {
            return Ok(());
        }
        let Some(tangent) = self.facets.tangent(f) else {
            return Ok(());
        };
        let state = if self.others.are_below(&tangent, &mut self.budget) {
            State::Stays
        } else {
            State::Goes
        };
        self.settle(f, &tangent.plane, state)
    }

    /// Tests the queued facets, and those that are queued meanwhile, until the budget is exhausted.
    pub fn ask_waiting(&mut self) -> Result<(), AllocError> {
        for _ in 0..self.states.len().saturating_mul(4) {
            if self.budget.is_spent() {
                break;
            }
            let Some(f) = self.waiting.pop() else {
                break;
            };
            self.ask(f)?;
        }
        Ok(())
    }

    /// Returns a mark for each place: true if a facet stays there.
    pub fn marks(&self, alloc: Global) -> Result<Vec<bool>, AllocError> {
        let mut stay = Vec::with_capacity(alloc, self.states.len())?;
        for (place, state) in self.states.iter().enumerate() {
            stay.push(*state != State::Goes && self.facets.is_live(FacetNo::new(place)))?;
        }
        Ok(stay)
    }
}
