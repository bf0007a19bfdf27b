//! The outside sets of the facets, and the points that wait for one.
//!
//! A point is identified by its position among the points of one run. Each point is in at most one list: in the outside
//! set of a facet that it sees, or among the orphans, whose facet was removed or which never had a facet. A point in no
//! list is settled.
//!
//! The lists are chains over one vector of links, one for each position. So only [`OutsideSets::new`],
//! [`OutsideSets::make_room`] and the calls that reserve allocate memory, and no other call has a loop.
//!
//! Source: Barber, Dobkin and Huhdanpaa 1996 (each facet has an outside set; the points of removed facets are
//! partitioned among the new facets).
ghost use Rattle.std.specs.Prelude.{◌≡◌, ◌+◌, ◌-◌, ◌<◌, ◌≤◌, ◌↔◌, ℕ, IsTrue, IfSome, IsNone, IfOk, OnOk, OnErr};
ghost use Rattle.std.specs.Prelude.{length, drop, [], ◌∷◌, ◌++◌, slice_set, slice_index, replicate, false, ◌≢◌};
ghost use Rattle.std.specs.List.{range_with_len};
ghost use Rattle.qh_surface.specs.contract.OutsideSets.{set_of, listed, joined};

use qh_model::{FacetNo, Id, Memory};
use std::alloc::{AllocError, Global};
use std::marker::Model;

/// The number that is not a position.
const NONE: u32 = u32::MAX;

/// The first and the last position of an outside set. In an empty set neither is a position of the set.
#[derive(Clone, Copy, Drop)]
struct Ends {
    first: u32,
    last: u32,
}

impl Ends {
    /// Returns the ends after a position is put in front. In an empty set the first is not below `positions`.
    fn with_front(self, position: u32, positions: usize) -> Ends
        ensures first { result.first ≡ position }
        ensures only { positions ≤ self.first → result.last ≡ position }
        ensures last { self.first < positions → result.last ≡ self.last }
    {
        let is_empty = self.first as usize >= positions;
        Ends {
            first: position,
            last: if is_empty { position } else { self.last },
        }
    }

    /// Returns the ends after a position is put behind the first, which exists.
    fn with_second(self, position: u32) -> Ends
        ensures first { result.first ≡ self.first }
        ensures second { self.first ≡ self.last → result.last ≡ position }
        ensures last { self.first ≢ self.last → result.last ≡ self.last }
    {
        let is_alone = self.first == self.last;
        Ends {
            first: self.first,
            last: if is_alone { position } else { self.last },
        }
    }
}

/// The outside sets of a run of Quickhull, by facet, and its orphans. Each is a list of positions.
///
/// A contract sees the number of positions, the orphans and the sets, in their orders.
#[derive(Drop)]
pub struct OutsideSets {
    /// By position, the next position in its list. A number that is not a position ends the list.
    links: Vec<u32>,
    /// By the place of a facet, the ends of its outside set.
    ends: Vec<Ends>,
    /// The first orphan, or a number that is not a position.
    orphan: u32,
}

impl Model for OutsideSets {
    ghost use Rattle.qh_surface.specs.contract.OutsideSets.{OutsideValue};

    ghost Value = { OutsideValue };

    ghost use Rattle.qh_surface.specs.steps.PositionChains.{value_of, AreKept};

    ghost view = { λ s. value_of s.links.items s.ends.items s.orphan };

    ghost invariant = { λ s. AreKept s.links.items s.ends.items s.orphan };
}

/// Returns a list with the next number for each position.
fn rising_links(alloc: Global, positions: u32) -> Result<Vec<u32>, AllocError>
    ensures len { IfOk result (λ v. length v.items ≡ positions) }
    ensures next { IfOk result (λ v. (k : ℕ) → k < positions → slice_index v.items k ≡ k + 1) }
{
    let mut links = Vec::with_capacity(alloc, positions as usize)?;
    for position in 0..positions {
        links.push_reserved(position + 1);
    }
    Ok(links)
}

#[tactic(auto, using(crate::proofs::Steps::field_facts))]
impl OutsideSets {
    /// Creates the sets of a run. All positions are orphans, in rising order, and there is no facet.
    ///
    /// Returns `Err` if an allocation failed.
    pub fn new(alloc: Global, positions: u32) -> Result<OutsideSets, Memory>
        ensures positions { IfOk result (λ s. s.positions ≡ positions) }
        ensures orphans { IfOk result (λ s. s.orphans ≡ range_with_len 0 positions) }
        ensures sets { IfOk result (λ s. s.sets ≡ []) }
        ensures listed { IfOk result (λ s. listed s ≡ positions) }
    {
        let links = rising_links(alloc, positions)?;
        Ok(OutsideSets {
            links,
            ends: Vec::new(alloc),
            orphan: 0,
        })
    }

    /// Tries to allocate memory for the sets of `facets` more facets. If that fails, the memory grows step by step
    /// later.
    pub fn ask_for_room(&mut self, facets: usize)
        ensures { self.new ≡ self.old }
    {
        let _ = self.ends.reserve(facets);
    }

    /// Reserves memory for the sets of more facets; nothing else changes.
    ///
    /// Returns `Err` if an allocation failed.
    pub fn reserve(&mut self, facets: usize) -> Result<(), Memory>
        ensures { self.new ≡ self.old }
    {
        self.ends.reserve(facets)?;
        Ok(())
    }

    /// Ensures that the facets below `places` have sets. New sets are empty; existing sets and the orphans do not
    /// change.
    ///
    /// Returns `Err` if an allocation failed. Nothing changes then.
    pub fn make_room(&mut self, places: usize) -> Result<(), Memory>
        ensures sets { OnOk result (self.new.sets ≡ self.old.sets ++ replicate (places - length self.old.sets) []) }
        ensures places { OnOk result (places ≤ length self.new.sets) }
        ensures orphans { self.new.orphans ≡ self.old.orphans }
        ensures positions { self.new.positions ≡ self.old.positions }
        ensures listed { listed self.new ≡ listed self.old }
        ensures memory { OnErr result (self.new ≡ self.old) }
    {
        if self.ends.len() < places {
            let empty = Ends {
                first: NONE,
                last: NONE,
            };
            self.ends.resize(places, empty)?;
        }
        Ok(())
    }

    /// Returns the number of places that have a set.
    pub fn places(&self) -> usize
        ensures { result ≡ length self.now.sets }
    {
        self.ends.len()
    }

    /// Returns true if the number is a position.
    fn is_position(&self, position: u32) -> bool
        ensures { IsTrue result ↔ (position < self.now.positions) }
    {
        (position as usize) < self.links.len()
    }

    /// Returns the first orphan, if there is one.
    pub fn first_orphan(&self) -> Option<Id>
        ensures none { IsNone result ↔ (self.now.orphans ≡ []) }
        ensures first { IfSome result (λ p. self.now.orphans ≡ p ∷ drop 1 self.now.orphans) }
        ensures position { IfSome result (λ p. p < self.now.positions) }
    {
        if self.is_position(self.orphan) {
            Some(Id::new(self.orphan))
        } else {
            None
        }
    }

    /// Removes the first orphan from all lists for good.
    pub fn drop_orphan(&mut self)
        requires { 0 < length self.old.orphans }
        ensures orphans { self.new.orphans ≡ drop 1 self.old.orphans }
        ensures sets { self.new.sets ≡ self.old.sets }
        ensures positions { self.new.positions ≡ self.old.positions }
        ensures listed { listed self.new + 1 ≡ listed self.old }
    {
        self.orphan = self.links[self.orphan as usize];
    }

    /// Puts the first orphan in front of the outside set of a facet.
    pub fn assign_in_front(&mut self, facet: FacetNo)
        requires some { 0 < length self.old.orphans }
        requires place { facet < length self.old.sets }
        ensures orphans { self.new.orphans ≡ drop 1 self.old.orphans }
        ensures sets { self.new.sets
            ≡ slice_set self.old.sets facet (slice_index self.old.orphans 0 ∷ set_of self.old facet) }
        ensures positions { self.new.positions ≡ self.old.positions }
        ensures listed { listed self.new ≡ listed self.old }
    {
        let orphan = self.orphan;
        let place = facet.index();
        let ends = self.ends[place];
        self.ends[place] = ends.with_front(orphan, self.links.len());
        self.orphan = self.links[orphan as usize];
        self.links[orphan as usize] = ends.first;
    }

    /// Puts the first orphan after the first position of the outside set of a facet, or in front if the set is empty.
    pub fn assign_second(&mut self, facet: FacetNo)
        requires some { 0 < length self.old.orphans }
        requires place { facet < length self.old.sets }
        ensures orphans { self.new.orphans ≡ drop 1 self.old.orphans }
        ensures sets { self.new.sets
            ≡ slice_set self.old.sets facet (joined false (slice_index self.old.orphans 0) (set_of self.old facet)) }
        ensures positions { self.new.positions ≡ self.old.positions }
        ensures listed { listed self.new ≡ listed self.old }
    {
        if self.first(facet).is_none() {
            self.assign_in_front(facet);
        } else {
            self.put_second(facet);
        }
    }

    /// Puts the first orphan after the first position of the outside set of a facet. The set is not empty.
    fn put_second(&mut self, facet: FacetNo)
        requires some { 0 < length self.old.orphans }
        requires place { facet < length self.old.sets }
        requires first { 0 < length (set_of self.old facet) }
        ensures orphans { self.new.orphans ≡ drop 1 self.old.orphans }
        ensures sets { self.new.sets
            ≡ slice_set self.old.sets facet (joined false (slice_index self.old.orphans 0) (set_of self.old facet)) }
        ensures positions { self.new.positions ≡ self.old.positions }
        ensures listed { listed self.new ≡ listed self.old }
    {
        let second = self.orphan;
        let place = facet.index();
        let ends = self.ends[place];
        self.ends[place] = ends.with_second(second);
        self.orphan = self.links[second as usize];
        self.links[second as usize] = self.links[ends.first as usize];
        self.links[ends.first as usize] = second;
    }

    /// Returns the first position of the outside set of a facet, if it has one.
    pub fn first(&self, facet: FacetNo) -> Option<Id>
        requires { facet < length self.now.sets }
        ensures none { IsNone result ↔ (set_of self.now facet ≡ []) }
        ensures first { IfSome result (λ p. set_of self.now facet ≡ p ∷ drop 1 (set_of self.now facet)) }
        ensures position { IfSome result (λ p. p < self.now.positions) }
    {
        let first = self.ends[facet.index()].first;
        if self.is_position(first) {
            Some(Id::new(first))
        } else {
            None
        }
    }

    /// Removes the first position of the outside set of a facet from all lists for good, and returns it. An empty set
    /// does not change.
    pub fn take_first(&mut self, facet: FacetNo) -> Option<Id>
        requires { facet < length self.old.sets }
        ensures none { IsNone result ↔ (set_of self.old facet ≡ []) }
        ensures first { IfSome result (λ p. set_of self.old facet ≡ p ∷ drop 1 (set_of self.old facet)) }
        ensures position { IfSome result (λ p. p < self.old.positions) }
        ensures sets { self.new.sets ≡ slice_set self.old.sets facet (drop 1 (set_of self.old facet)) }
        ensures orphans { self.new.orphans ≡ self.old.orphans }
        ensures positions { self.new.positions ≡ self.old.positions }
        ensures listed { IfSome result (λ _. listed self.new + 1 ≡ listed self.old) }
        ensures listed_still { IsNone result → listed self.new ≡ listed self.old }
    {
        let first = self.first(facet)?;
        let place = facet.index();
        self.ends[place].first = self.links[first.index()];
        Some(first)
    }

    /// Makes the positions of the outside set of a facet orphans, in front of the others. The set becomes empty.
    pub fn release(&mut self, facet: FacetNo)
        requires { facet < length self.old.sets }
        ensures orphans { self.new.orphans ≡ set_of self.old facet ++ self.old.orphans }
        ensures sets { self.new.sets ≡ slice_set self.old.sets facet [] }
        ensures positions { self.new.positions ≡ self.old.positions }
        ensures listed { listed self.new ≡ listed self.old }
    {
        if let Some(first) = self.first(facet) {
            let place = facet.index();
            let last = self.ends[place].last;
            self.links[last as usize] = self.orphan;
            self.orphan = first.number();
            self.ends[place].first = NONE;
        }
    }
}
