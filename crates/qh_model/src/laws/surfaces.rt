//! The laws of surfaces of facets, which show that the steps of Quickhull are right.
ghost use Rattle.qh_model.specs.laws.SurfaceLaws.{RiseIsVol, SimplexBoundaryIsSound, SimplexIsSound, MiddleIsBelow};
ghost use Rattle.qh_model.specs.laws.SurfaceLaws.{WalkFindsAll, HorizonGoesOn, HorizonIsKnown, ReplaceKeeps};
ghost use Rattle.qh_model.specs.laws.SurfaceLaws.{CornersAreSettled, AddedIsSettled, SettledStayUnseen, DroppedStayUnseen};
ghost use Rattle.qh_model.specs.laws.LiveFacets.{LiveIsMarked, LiveIsListedOnce};

/// A facet sees a point exactly by the sign of their volume.
pub fn rise_is_vol()
    ensures { RiseIsVol }
{}

/// The four facets of a tetrahedron are a whole and sound surface around its middle, and that middle is strictly below
/// each supporting plane. So Quickhull can begin with them.
pub fn simplex_is_sound()
    ensures boundary { SimplexBoundaryIsSound }
    ensures simplex { SimplexIsSound }
    ensures middle { MiddleIsBelow }
{}

/// A walk over twins, from one facet that sees a point, finds every facet that sees it. So no search
/// through all facets is needed.
pub fn walk_finds_all()
    ensures { WalkFindsAll }
{}

/// At the end of each horizon side exactly one other side starts, and at its start exactly one ends. So a table of ids
/// finds the twins of the cone.
pub fn horizon_goes_round()
    ensures goes_on { HorizonGoesOn }
    ensures known { HorizonIsKnown }
{}

/// The surface stays whole and sound if a cone replaces the facets that see a point.
pub fn replace_keeps()
    ensures { ReplaceKeeps }
{}

/// After that step no facet sees the point, a corner, or a point that no facet saw before. No facet sees a point that
/// lost its facet and is above no facet of the cone. So no point is tested twice.
pub fn settled_stay_unseen()
    ensures corners { CornersAreSettled }
    ensures added { AddedIsSettled }
    ensures settled { SettledStayUnseen }
    ensures dropped { DroppedStayUnseen }
{}

/// The live facets of a stored surface are the places that are marked live, each listed once.
pub fn live_is_marked()
    ensures marked { LiveIsMarked }
    ensures once { LiveIsListedOnce }
{}
