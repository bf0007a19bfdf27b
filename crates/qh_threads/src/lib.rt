//! Calls of one closure by threads.
//!
//! [`map_indices`] and [`map_chunks`] have the contracts of std's functions of these names. They need less of the
//! runtime: no thread starts another one, so the runtime is not shared with the threads. The first uses a thread for
//! each call. In the second, as in [`map_claimed`], a number of threads claim the calls one after the other. In
//! [`map_claimed_beside`] the calling thread and one of the threads make a call of their own first.
//!
//! The calling thread starts all threads and leaves the work to them. A thread that has to share a processor with the
//! one that started it begins late; here it begins when the calling thread waits.
#![tactic(auto)]

mod beside;
mod chunks;
mod claimed;
mod indices;

/// The number of parts for each thread into which a caller should divide its work. A slower thread claims fewer parts.
pub const PARTS_FOR_EACH: usize = 8;

pub use beside::{Calls, map_claimed_beside};
pub use chunks::map_chunks;
pub use claimed::map_claimed;
pub use indices::map_indices;
