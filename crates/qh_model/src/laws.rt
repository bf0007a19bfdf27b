//! The laws of the definitions: each function's contract is a theorem over `specs/` alone.
//!
//! Laws are empty functions; proofs cite their contracts by name.

mod board;
mod closed_faces;
mod closed_surfaces;
mod combinations;
mod completeness;
mod cones;
mod cuts;
mod edges;
mod extremes;
mod fans;
mod hulls;
mod polygons;
mod reading;
mod round_trips;
mod surfaces;

pub use board::{board_core, spans_share_blocks};
pub use closed_faces::{closed_faces_are_hull, closed_triangles_miss_nothing};
pub use closed_surfaces::{closed_surface_encloses, sound_surface_closes};
pub use combinations::combination_or_separator;
pub use completeness::{finished_surface_is_hull, nothing_is_missed, planes_hang_together};
pub use cones::between_rays_is_unseen;
pub use cuts::{blocks_share_positions, right_values_rise};
pub use edges::edges_lie_in_two_faces;
pub use extremes::{
    extremes_of_faces, greatest_is_extreme, members_are_combinations, parts_with_extremes,
    planes_of_extremes, union_extremes,
};
pub use fans::{edges_are_counted, fan_triangles_support};
pub use hulls::{one_hull, one_value_each};
pub use polygons::{one_polygon, polygon_by_direction};
pub use reading::one_reading;
pub use round_trips::off_is_read_back;
pub use surfaces::{
    horizon_goes_round, live_is_marked, replace_keeps, rise_is_vol, settled_stay_unseen,
    simplex_is_sound, walk_finds_all,
};
