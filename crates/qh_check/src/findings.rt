//! A fault found in a list of polygons.
use crate::fault::FaceFault;

/// A polygon that is no piece of a face, by its position, and its fault.
#[derive(Clone, Copy, Drop)]
pub(crate) struct Finding {
    pub position: usize,
    pub fault: FaceFault,
}
