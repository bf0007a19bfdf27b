//! A set divided into parts, each with a finished mesh and its corners.
//!
//! A part (`parts`) has some ids of its own and ids that belong to every part. The kept ids of the set (`kept`) are the
//! corners of all parts and the shared ids; they include all extreme ids.
//!
//! A guess about a part (`guesses`) lists the facets that stay when the corners of the other parts are added, and a
//! witness for each of those corners. `qh_parts_guess` makes guesses, and `qh_parts::seam` checks them. [`join`] makes
//! the hull of the faces that stay and the faces that close the gap between them.
#![tactic(auto)]

mod guesses;
pub mod join;
mod kept;
mod parts;

pub use guesses::{Divided, Guess, Run};
pub use kept::{have_ids, kept_ids};
pub use parts::Part;
