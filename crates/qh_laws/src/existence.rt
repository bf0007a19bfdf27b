//! The law that every list of points that is not empty has a hull and a text.
//!
//! The proof finds the polygons by the lemmas of `qh_polygon`. Together with `one_hull` of `qh_model`, each list has
//! exactly one hull and one text.
ghost use Rattle.qh_laws.specs.laws.ExistenceLaws.{EveryListHasAHull, EveryListHasAText};

/// Every list of points that is not empty has a hull, and a text for each list of outputs. So the definitions never
/// contradict each other, and the existence of a text is known before a hull is computed.
pub fn every_list_has_a_text()
    ensures hull { EveryListHasAHull }
    ensures text { EveryListHasAText }
{}
