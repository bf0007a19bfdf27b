//! The rule that decides whether joining the hulls of parts at their seams pays.
use crate::cut::{Facets, Others};
use qh_parts_join::{Divided, Part};
use qh_places::Budget;

/// The greatest number of corners of all parts whose hull is computed so quickly that joining at seams does not pay.
const FEW_CORNERS: usize = 40_000;

/// The least number of facets for each removed one, on average, for joining to pay. One thread computes another hull of
/// the removed ones.
const GONE_SHARE: usize = 4;

/// The number of facets of each part that are tested, spread over all.
const ASKED: usize = 64;

/// The greatest number of positions and points that the test of a facet examines, on average, for joining to pay. A round
/// set takes 50, an ellipsoid of the axes 9, 6 and 2 takes 84, and a slanted thin plate most of its corners.
const LOOKED_FOR_EACH: u32 = 384;

/// The number of tested facets, and the number of removed ones among them.
#[derive(Clone, Copy, Drop)]
struct FacetTally {
    asked: usize,
    gone: usize,
}

impl FacetTally {
    /// Returns the tally after testing some facets of a part, until the budget is exhausted.
    fn with(self, part: &Part, others: Others, budget: &mut Budget) -> FacetTally {
        let facets = Facets::of(&part.surface);
        let step = facets.places() / ASKED + 1;
        let mut tally = self;
        for number in 0..ASKED {
            let first = facets.first_from(step.wrapping_mul(number));
            let Some(tangent) = first.and_then(|f| facets.tangent(f)) else {
                break;
            };
            tally.asked = tally.asked.saturating_add(1);
            if !others.are_below(&tangent, budget) {
                tally.gone = tally.gone.saturating_add(1);
            }
        }
        tally
    }
}

/// Returns true if joining the hulls of parts is likely to pay: they have more than `few` corners, few facets are
/// removed, and testing a facet does not take long.
pub(crate) fn is_worth_above(few: usize, set: Divided) -> bool {
    let own = set.parts.iter().map(|part| part.own.len());
    if own.fold(set.shared.len(), |count, more| count.saturating_add(more)) <= few {
        return false;
    }
    let mut tally = FacetTally { asked: 0, gone: 0 };
    let mut budget = Budget::for_each(set.parts.len().saturating_mul(ASKED), LOOKED_FOR_EACH);
    for (number, part) in set.parts.iter().enumerate() {
        tally = tally.with(
            part,
            Others {
                parts: set.parts,
                number,
            },
            &mut budget,
        );
    }
    !budget.is_spent() && tally.gone <= tally.asked / GONE_SHARE
}

/// Returns true if joining the hulls of the parts of a set at their seams is likely to pay: they have many corners,
/// most of their facets are likely to stay, and a few blocks are enough to test a facet.
pub fn is_worth(set: Divided) -> bool {
    is_worth_above(FEW_CORNERS, set)
}
