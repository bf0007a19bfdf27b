//! The law that parts of a list of points may be joined in any tree.
//!
//! It serves those who compute the extreme points of parts on other machines and combine the results.
ghost use Rattle.qh_laws.specs.laws.TreeLaws.{AnyTreeOfUnions, HullOfAnyTree};

/// The parts of a list of points may be joined by any tree. The result is the extreme ids of the list, and a hull of
/// these points is the hull of all. A point may be in a part more than once, and in several parts; of equal points the
/// lowest id is kept. A tree determines which parts are joined and not when, so the order of the joins does not matter.
pub fn any_tree_of_unions()
    ensures extremes { AnyTreeOfUnions }
    ensures hull { HullOfAnyTree }
{}
