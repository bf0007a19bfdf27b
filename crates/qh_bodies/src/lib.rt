//! The hull of a solid set from its faces.
//!
//! [`UnsortedFaces`] stores faces in little memory until all are found, most of them by the numbers of `face_keys`. It
//! lists their corners and counts their edges (`tallies`, `solid_edges`) and sorts them (`face_order`), and
//! [`body_of_faces`] makes the hull.
//!
//! The steps round polygons, from a corner to the next, decide if polygons close up ([`open_step`]). Two lists of
//! polygons have one border if the same steps keep them from closing up ([`have_one_border`]). Steps are compared by
//! their sorted keys. [`out_of_order`] checks that polygons are in lexicographic order.
#![tactic(auto)]

mod borders;
mod closed;
mod face_keys;
mod face_order;
mod order;
mod solid_edges;
mod tallies;
mod unsorted_faces;

pub use borders::have_one_border;
pub use closed::{Step, open_step, repeated_step};
pub use order::out_of_order;
pub use tallies::{Tally, body_of_faces};
pub use unsorted_faces::UnsortedFaces;
