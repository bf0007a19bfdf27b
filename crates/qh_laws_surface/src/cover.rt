//! The laws of covering: a surface in pieces covers each face of the hull once, and pieces that cover each face once
//! are a surface.
ghost use Rattle.qh_laws_surface.specs.laws.CoverLaws.{PiecesLieInFaces, SpotsLieInFaces, FacesAreCovered, PiecesAreApart};
ghost use Rattle.qh_laws_surface.specs.laws.CoverLaws.{FacesAreCoveredOnce, CoveringIsSurface};

/// The pieces of a surface cover each face of the hull once. Each piece goes round corners of a face and has points of
/// the face alone, each point of a face lies in a piece, and no point lies strictly inside two pieces. So a point
/// strictly inside a face, on no line through two of its corners, lies strictly inside exactly one piece.
pub fn surface_covers_once()
    ensures inside { PiecesLieInFaces }
    ensures within { SpotsLieInFaces }
    ensures covered { FacesAreCovered }
    ensures apart { PiecesAreApart }
    ensures once { FacesAreCoveredOnce }
{}

/// Pieces of faces are a surface if they cover each face once, by the same points. So among lists of pieces of faces,
/// the check accepts exactly those that cover the hull once, however they are cut.
pub fn covering_is_surface()
    ensures { CoveringIsSurface }
{}
