//! Numbers by which ids are sorted: two numbers in one, so that a sort of pairs is a sort of numbers, and the number of a
//! cell in Morton order.

mod morton;
mod packed;

pub use morton::morton_number;
pub use packed::{HALF_ROOM, Packed};
