//! The workers: they run in parallel, notify a gate, join results in the tree, and always produce the same text.

mod gated;
mod joins;
mod paraboloid;
mod stored_points;
mod told_blocks;
