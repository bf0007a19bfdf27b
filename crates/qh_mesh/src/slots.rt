//! The order of the horizon's sides, by a table indexed by corners.
ghost use Rattle.std.specs.Prelude.{◌≡◌, ◌+◌, ◌<◌, length, true};
ghost use Rattle.qh_mesh.specs.steps.Horizons.{AreNoted, IsBalanced, IsMate, corner, other, rank, side_at, noted};

use crate::facets::FacetSide;

/// The sides of a horizon at a corner, by their positions in its list: the last entered side that starts there, and the
/// last that ends there. Entries from earlier calls are stale.
#[derive(Clone, Copy, Drop)]
pub struct Slot {
    pub starting: u32,
    pub ending: u32,
}

/// The table of the corners, after the sides of a horizon were entered.
#[derive(Clone, Copy, Drop)]
pub struct Table<'a> {
    /// A slot for each corner.
    pub slots: &'a [Slot],
    /// True if the table names each side at both of its corners.
    pub is_complete: bool,
}

/// An end of a side.
#[derive(Clone, Copy, Drop)]
pub enum End {
    /// Where the side starts.
    Start,
    /// Where it ends.
    Finish,
}

impl End {
    /// Returns the other end.
    fn other(self) -> End
        ensures { result ≡ other self }
    {
        match self {
            End::Start => End::Finish,
            End::Finish => End::Start,
        }
    }
}

/// Returns the corner at an end of a side.
fn corner(side: FacetSide, end: End) -> u32
    ensures { result ≡ corner end side }
{
    match end {
        End::Start => side.from,
        End::Finish => side.to,
    }
}

/// Enters a side at its corners.
pub fn note(slots: &mut [Slot], side: FacetSide, j: u32) {
    if let Some(slot) = slots.get_mut(side.from as usize) {
        slot.starting = j;
    }
    if let Some(slot) = slots.get_mut(side.to as usize) {
        slot.ending = j;
    }
}

/// Returns the side that the table has for a corner: the one that starts there, or the one that ends there.
fn noted(slots: &[Slot], end: End, at: usize) -> usize
    requires { at < length slots.now }
    ensures { result ≡ noted slots.now end at }
{
    match end {
        End::Start => slots[at].starting as usize,
        End::Finish => slots[at].ending as usize,
    }
}

/// Returns true if the table has room for the corner at an end of a side and names the side there.
pub fn is_noted(slots: &[Slot], side: FacetSide, end: End, j: usize) -> bool
    ensures { result ≡ true → (corner end side < length slots.now) × (noted slots.now end (corner end side) ≡ j) }
{
    let at = corner(side, end) as usize;
    at < slots.len() && noted(slots, end, at) == j
}

/// Returns how many of the sides before the j-th start where it starts, or end where it ends.
fn rank(horizon: &[FacetSide], end: End, j: usize) -> usize
    requires { j < length horizon.now }
    ensures { result ≡ rank horizon.now end (corner end (side_at horizon.now j)) j }
{
    let at = corner(horizon[j], end);
    let mut count = 0;
    for i in 0..j {
        if corner(horizon[i], end) == at {
            count += 1;
        }
    }
    count
}

/// Returns the side that meets side j at an end, found without the table.
#[tactic(auto, using(crate::proofs::Mates::rank_below))]
fn find_mate(horizon: &[FacetSide], end: End, j: usize) -> usize
    requires inside { j < length horizon.now }
    requires balanced { IsBalanced horizon.now }
    ensures { IsMate horizon.now end j result }
{
    let at = corner(horizon[j], end);
    let mut left = rank(horizon, end, j);
    for i in 0..horizon.len() {
        if corner(horizon[i], end.other()) == at {
            if left == 0 {
                return i;
            }
            left -= 1;
        }
    }
    unreachable!()
}

/// Returns the side of the horizon that meets side j at an end: the one that starts where side j ends, or
/// the one that ends where it starts.
#[tactic(auto, using(crate::proofs::Mates::mate_noted))]
pub fn mate(table: Table, horizon: &[FacetSide], end: End, j: usize) -> usize
    requires inside { j < length horizon.now }
    requires balanced { IsBalanced horizon.now }
    requires are_noted { table.is_complete ≡ true → AreNoted table.slots.now horizon.now }
    ensures { IsMate horizon.now end j result }
{
    if table.is_complete {
        noted(table.slots, end.other(), corner(horizon[j], end) as usize)
    } else {
        find_mate(horizon, end, j)
    }
}
