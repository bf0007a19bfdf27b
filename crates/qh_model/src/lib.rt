//! Definitions that all of qconvex shares: points, ids, facet numbers, limits, point files and OFF files, the
//! predicates, extreme points and the hull.
//!
//! The definitions are in `specs/`, one idea a file. Contracts of most crates cite them, and the functions of [`laws`]
//! prove what follows from them alone.
#![tactic(auto)]

mod cut;
mod facet_no;
mod fan;
mod form;
mod hull;
pub mod keys;
pub mod laws;
mod limits;
mod memory;
mod out;
mod point;
mod polygon;
mod read_fault;
mod sides;

pub use cut::{Cut, CutError};
pub use facet_no::FacetNo;
pub use fan::Fan;
pub use form::Form;
pub use hull::{Body, Hull};
pub use limits::{BLOCK_LIMIT, BYTE_LIMIT, COORDINATE_LIMIT, POINT_LIMIT, WORKER_LIMIT};
pub use memory::Memory;
pub use out::Out;
pub use point::{Id, Point};
pub use polygon::Polygon;
pub use read_fault::ReadFault;
pub use sides::Sides;
