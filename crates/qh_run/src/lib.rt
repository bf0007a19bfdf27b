//! The hull of a list of points, by workers that share the blocks of a cut, or by the calling thread alone.
//!
//! [`run_hull`] puts the blocks on a board of `qh_board`, a combining tree. Workers claim blocks and deliver their
//! extreme ids. The second pass that arrives at a node takes the extreme ids of the union of both children's lists: an
//! id that is not extreme in its part is not extreme in the whole. The calling thread takes the hull of the ids at the
//! root or, if a worker gave up, of all ids. So the hull is the same for every cut, every number of workers and every order
//! of their steps. [`run_body`] is the same for any set of ids, and [`work`] for a board of a [`Job`] that a caller makes.
//!
//! A [`Gate`] is notified of the blocks, and takes that hull; [`NoGate`] ignores the blocks. [`hull_alone`] starts no
//! thread and has no tree. [`hull_of_body`] is the last step of `run_hull` and `hull_alone`.
//!
//! Source: Preparata and Hong 1977 (the hull of a set from the hulls of its parts).
#![tactic(auto)]

mod alone;
mod blocks;
mod gate;
mod hulls;
mod job;
mod passes;
mod reduction;
mod root;
mod run;
mod worker;

pub use blocks::Extremes;
pub use gate::{Gate, NoGate};
pub use hulls::{hull_alone, hull_of_body};
pub use job::Job;
pub use run::{RunError, run_body, run_hull};
pub use worker::work;
