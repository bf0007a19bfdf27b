//! Guesses of the polygons that close the gap between the hulls of parts of a set, and of whether parts pay. The
//! results are checked where they are used (`qh_parts_join::join`), so a wrong guess only costs time.
//!
//! The polygons of the parts that stay leave a gap. An edge of a removed face is open if no removed face has it in the
//! opposite direction (`edges`). The hull of the corners beside the gap contains the polygons that close it: those that
//! have the open edges, and their neighbours across other edges (`flood`). A sample shows beforehand whether most
//! corners of a set would be beside the gap, or whether planes come near most of them (`nearness`), so that parts would
//! not pay (`trial`).

mod edges;
mod flood;
mod nearness;
mod trial;

pub use edges::{Border, border_of};
pub use flood::{bridge_over, indices_among};
pub use trial::{is_worth_parting, trial_sample};
