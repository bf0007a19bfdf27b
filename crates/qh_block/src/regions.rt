//! Regions of space inside the hull of a set, and the ids of the set whose points no region contains.
//!
//! A [`Region`] decides if it contains a point (`region`). There are two: the [`CornerBox`] between a few points
//! of a set, and [`Columns`] of cells between planes.
//!
//! Planes with short normals ([`CoarsePlane`]) lie close under those of a hull. They cut each column of a `grid` into
//! `cells`, which are boxes (`bounds`) between some `heights`, each with the few planes that come near it.
//!
//! [`ids_outside`] keeps the ids of an [`IdSet`] whose points a region doesn't contain. A [`Sieve`] makes the cells of
//! columns and removes the ids of the points that they contain, by the calling thread ([`Alone`]) or by several
//! ([`InThreads`]).

mod bounds;
mod cells;
mod coarse_planes;
mod columns;
mod corner_box;
mod grid;
mod heights;
mod id_set;
mod region;
mod sieves;

pub use coarse_planes::CoarsePlane;
pub use columns::Columns;
pub use corner_box::CornerBox;
pub use id_set::IdSet;
pub use region::Region;
pub use sieves::{Alone, InThreads, Sieve, ids_outside};
