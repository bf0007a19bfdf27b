//! The laws of mapped points. Laws are empty functions; proofs cite their contracts by name.
ghost use Rattle.qh_lattice.specs.laws.MapLaws.{MovedVolume, MovedVolumeSign, MovedLine, MovedTurn};
ghost use Rattle.qh_lattice.specs.laws.MapLaws.{MovedExtreme, MovedDimension, MovedFaces, MovedBody};

/// A linear map multiplies each volume by its determinant, and a shift changes none. If the determinant is above 0,
/// volumes and turns keep their signs.
pub fn map_keeps_signs()
    ensures volume { MovedVolume }
    ensures sign { MovedVolumeSign }
    ensures line { MovedLine }
    ensures turn { MovedTurn }
{}

/// So the map keeps the hull: its dimension, its extreme ids and, if the set is not flat, its faces and edges.
pub fn map_keeps_hull()
    ensures extreme { MovedExtreme }
    ensures dimension { MovedDimension }
    ensures faces { MovedFaces }
    ensures body { MovedBody }
{}
