//! The hull for C: takes points, and writes the extreme ids and the faces to buffers of the caller, or the faces as
//! triangles with their normals.
//!
//! `given` converts the points, and `judging` refuses those that have no hull here. `flat_hull` and `fans` lay a hull
//! out in flat lists, which `given_hull` and `fan_lists` return. `buffers` and `fan_lists` fill the caller's buffers. `sets` and
//! `set_hulls` do so for many sets in one call. `cut_faces` converts the faces of a caller, which `checked` judges, and
//! `told` converts the result. `side_keys` sorts the sides of triangles, which `neighbors` joins. No function here starts a
//! thread or keeps anything between calls.
#![tactic(auto)]

/// The points with these coordinates, as `points_at![0 0 0, 1 0 0]`.
#[cfg(test)]
macro_rules! points_at {
    ($($x:literal $y:literal $z:literal),*) => { [$(crate::CPoint::new($x, $y, $z)),*] };
}

mod buffers;
#[cfg(test)]
mod check_tests;
mod checked;
mod code;
mod cut_faces;
mod exported;
mod fan_lists;
mod fans;
mod fault;
mod flat_hull;
mod given;
mod given_hull;
mod judging;
mod kind;
mod many;
mod neighbors;
mod set_answer;
mod set_hulls;
#[cfg(test)]
mod set_tests;
mod sets;
mod side_keys;
mod sizes;
#[cfg(test)]
mod tests;
mod told;
mod verdict;
mod version;
mod volumes;

pub use checked::qconvex_check;
pub use code::{DONE, MEMORY, NO_POINT, NONE, RANGE, ROOM, STARTS, TOO_MANY};
pub use exported::{qconvex_fans, qconvex_hull};
pub use given::CPoint;
pub use kind::{ABOVE, NO_PLANE, OPEN, OTHER_FACE, OTHERS, RIGHT, STRANGER, TWICE};
pub use many::qconvex_hulls;
pub use neighbors::qconvex_neighbors;
pub use set_answer::SetAnswer;
pub use sizes::Sizes;
pub use verdict::Verdict;
pub use version::{VERSION, qconvex_version};
pub use volumes::{Wide, qconvex_six_volumes};
