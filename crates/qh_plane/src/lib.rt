//! The distinct points of a list: of equal points the one with the lowest id.
//!
//! Points are compared by whole numbers of their places, so no result is rounded. This crate also re-exports the
//! functions of `qh_polygon` for the shape of a set and the polygon of points in one plane.
#![tactic(auto)]

mod close_points;
mod distinct_points;
mod finders;
mod first_ids;
mod found_ids;
mod hash_groups;
mod hash_parts;
mod hashed_keys;
mod repeats;
mod shared_slots;
mod sorted_points;

pub use distinct_points::{distinct, distinct_alone, distinct_in_threads};
pub use qh_polygon::{Shape, polygon, rank};
