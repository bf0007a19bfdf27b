//! The exact geometric predicates: the volume of four points, the normal of three, whether three points lie in one
//! line, and the turn of three points seen from a side. A [`Plane`] keeps the values that the volumes over one triangle
//! share.
//!
//! Each predicate returns the value of its definition in `qh_model/specs/headline/Predicates.antt`; `left` returns the
//! sign, for points in a plane with its normal. The results are exact, since a [`qh_model::Point`] keeps the limit of
//! coordinates. No call allocates memory.
//!
//! [`least_of`] and [`greatest_of`] return corners of the box that two points span.
//!
//! Source: Barber, Dobkin and Huhdanpaa 1996 (a point is above a facet by the sign of a determinant).
#![tactic(auto)]

mod components;
mod corners;
mod normal;
mod plane;
mod positions;
mod predicates;

pub use corners::{greatest_of, least_of};
pub use normal::Normal;
pub use plane::Plane;
pub use positions::along;
pub use predicates::{cross, in_line, left, point_at, vol};
