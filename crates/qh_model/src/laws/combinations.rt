//! The law of convex combinations.
ghost use Rattle.qh_model.specs.laws.CombinationLaws.{CombinationOrSeparator, NeverBoth};

/// A point either is a convex combination of four members of a set or lies strictly beyond the set along a direction,
/// never both. So a direction shows that a point is extreme.
pub fn combination_or_separator()
    ensures either { CombinationOrSeparator }
    ensures never_both { NeverBoth }
{}
