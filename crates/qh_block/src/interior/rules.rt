//! The rules of when the filter runs and over how much of a set: every number and rule, with its reason.
//!
//! These rules affect the time and never an answer, since the ids that the filter keeps have the same hull.
//! docs/PERFORMANCE.md has the measurements.
ghost use Rattle.std.specs.Prelude.{◌<◌};

/// A round of the interior filter: the sets that it takes, and its sample.
#[derive(Clone, Copy, Drop)]
pub struct Round {
    /// The round takes sets of at least this many ids. Of fewer, the sample would be a large part.
    pub from: usize,
    /// The round's sample has about this many ids, spread evenly over the set.
    pub sample: usize,
    /// The round's grid has 2 to this power columns along each axis; many planes double it.
    pub side_bits: u32,
}

impl Round {
    /// Returns the distance between consecutive ids of the sample in a set of this length.
    pub fn stride(&self, count: usize) -> usize
        ensures { 0 < result }
    {
        count.checked_div(self.sample).unwrap_or(1).max(1)
    }
}

/// The only round of a set that is too small for two rounds.
///
/// Its sample and its grid are small, so that they cost little for a small set, too.
pub const SMALL_ROUND: Round = Round {
    from: 8_192,
    sample: 128,
    side_bits: 3,
};

/// The first round tests all ids. The hull of even a small sample has most of them inside, if most are inside at all.
pub const FIRST_ROUND: Round = Round {
    from: 50_000,
    sample: 2_048,
    side_bits: 5,
};

/// The second round tests the ids that the first keeps, which lie near the surface of the hull.
///
/// Its sample is larger, since a point near the surface is outside the hull of a small sample. The hull of a still
/// larger sample costs as much time as the tree above the filter saves.
pub const SECOND_ROUND: Round = Round {
    from: 32_768,
    sample: 8_192,
    side_bits: 5,
};

/// Returns the round that tests all ids of a set of this length.
pub fn round_of_all(count: usize) -> Round {
    if count < FIRST_ROUND.from {
        SMALL_ROUND
    } else {
        FIRST_ROUND
    }
}

/// The least number of ids of a set whose corner box `cull_alone` uses.
///
/// The box of fewer points holds few of them.
pub const BOX_FROM: usize = 256;

/// About this many ids, spread over a set, decide if most of its points are in a region.
pub const PROBES: usize = 128;

/// Returns true if the hull of the interior filter's sample has few enough facets.
///
/// A hull of n points has at most 2 n - 4 facets. If there are more than half of these, most of the sample is extreme,
/// so few points of the set are inside.
pub fn sample_pays(facets: usize, sample: usize) -> bool {
    facets <= sample
}

/// Returns 1 if a grid of twice the columns along each axis pays, or else 0. Of many planes, many lie near each point.
pub fn finer_by(planes: usize, sample: usize) -> u32 {
    u32::from(planes > sample / 8 * 5)
}

/// Returns true if the interior filter finds at least half of its sample inside, so that it pays to
/// filter the whole set.
pub fn filter_pays(inside: usize, sample: usize) -> bool {
    inside >= sample / 2
}
