//! The laws of surfaces in pieces. The polygons of a right hull are a surface. Each surface has the area and the volume
//! of the hull, and covers each of its faces once ([`cover`]).
//!
//! This crate is above `qh_check`, whose definition of a surface the laws use. No program depends on them.
#![tactic(auto)]

pub mod cover;

ghost use Rattle.qh_laws_surface.specs.laws.SurfaceLaws.{BodyIsSurface, FansAreSurface};
ghost use Rattle.qh_laws_surface.specs.laws.MeasureLaws.{AreasAddUp, VolumesAddUp};

/// The polygons of a right body are a surface of its hull, in every dimension. In a solid, their fans are a surface,
/// too. So the check of surfaces accepts each right hull.
pub fn hull_is_surface()
    ensures faces { BodyIsSurface }
    ensures fans { FansAreSurface }
{}

/// The areas of the pieces in the plane of a face add up to the area of the face, and the surface encloses the volume
/// of the hull.
pub fn surface_measures_hull()
    ensures areas { AreasAddUp }
    ensures volume { VolumesAddUp }
{}
