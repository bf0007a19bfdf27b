//! The laws of closed surfaces of triangles.
ghost use Rattle.qh_model.specs.laws.ClosedSurfaceLaws.{VolumeIsConstant, NoneBelowAndBeyond, SoundIsClosed, SoundHasVolume};

/// The signed volume of a closed surface does not depend on the fourth point, and no point is strictly
/// below every triangle of it and strictly beyond all its corners. So a list of supporting triangles
/// that closes up leaves no side of the hull open, which a reader can check by counting edges.
pub fn closed_surface_encloses()
    ensures volume { VolumeIsConstant }
    ensures apart { NoneBelowAndBeyond }
{}

/// The live facets of a whole and sound surface, each listed once, are a closed surface whose signed volume is below 0.
/// So counting edges checks what Quickhull keeps, and no point sees every facet.
pub fn sound_surface_closes()
    ensures closed { SoundIsClosed }
    ensures volume { SoundHasVolume }
{}
