//! The order of ids along a curve through their points, by which a set is cut into parts.
//!
//! Neighbours in this order have points near each other, so consecutive ids make parts whose hulls meet others along
//! short borders. The curve runs through cells (`cells`), and the ids are sorted by the numbers of their cells
//! (`ranges`). Some ids belong to every part (`shared`). The functions guarantee neither the order nor the ids: their
//! results are checked where they are used.
//!
//! Sources: Morton 1966 (the order of cells along a Z-shaped curve), Hilbert 1891 (a curve whose successive cells
//! touch).

mod cells;
mod ranges;
mod shared;

pub use cells::CurveCell;
pub use ranges::along_curve;
pub use shared::shared_ids;
