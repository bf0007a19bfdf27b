//! A gate that takes the hull of a large set with several threads.
use qh_model::{Body, Id, Memory, Point};
use qh_parts::hull_in_parts;
use qh_run::Gate;
use std::alloc::Global;
use std::thread::Threads;

/// A gate that does nothing at blocks, and takes the hull by `qh_parts::hull_in_parts`, with at most `threads` threads
/// of a runtime.
#[derive(Clone, Copy, Debug, Drop)]
pub struct Threaded<'a, R> {
    pub rt: &'a R,
    pub threads: u32,
}

impl<R: Threads + Sync> Gate for Threaded<'_, R> {
    fn finish(&self, alloc: Global, pts: &[Point], ids: &[Id]) -> Result<Body, Memory> {
        hull_in_parts(self.rt, alloc, pts, ids, self.threads)
    }
}
