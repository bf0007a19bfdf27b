//! The interior filter, which drops points inside a large set before Quickhull sees them.
//!
//! [`cull_alone`] is the filter by the calling thread, [`cull_interior`] that by several threads. `cull_alone` first drops
//! what lies in a box between a few points of the set ([`CornerBox`](crate::regions::CornerBox)).
//!
//! Planes close under those of the hull of a small sample of the set (`sample`) cut each column of a grid into
//! cells. The few planes near a cell decide which of its points are strictly inside the hull of the sample. Those
//! points are not extreme, neither in the sample nor in the set. `regions` makes the cells and sorts the points
//! out, by one thread or by several.
//!
//! A first round leaves many points of a large set. A sample of these lies near the surface of the hull, so a
//! second round leaves few (`culling`). `rules` says when a round is taken, and when it pays.

mod culling;
mod rules;
mod sample;

pub use culling::{cull_alone, cull_interior};
