//! A gate that records the notifications: the passes that claimed and delivered each block.
use super::gated::{WATCHED, Watched, outcome_by};
use crate::tests::outcomes::OFF;
use qh_fixtures::Host;
use qh_fixtures::files::OCTAHEDRON_OFF;
use qh_run::Gate;
use std::alloc::{AllocError, Global};
use std::sync::atomic::{AtomicU64, Ordering};
use std::test::Fail;

/// The number of blocks of 3 points.
const BLOCKS: u32 = 6;

/// The state of a block before it is claimed.
const FREE: u64 = 0;

/// The state of a block after it is delivered.
const DELIVERED: u64 = 1000;

/// Returns the state of a claimed block: the pass that claimed it, plus 1.
fn claimed_by(pass: u32) -> u64 {
    u64::from(pass).wrapping_add(1)
}

/// A gate that records the state of each block.
#[derive(Drop)]
struct Keeper {
    passes: u32,
    blocks: Vec<AtomicU64>,
    /// The number of wrong notifications: of a pass or a block that does not exist, of a block that was claimed before,
    /// or of a block that another pass had claimed.
    wrong: AtomicU64,
}

impl Keeper {
    /// Creates a recording gate for a run of a number of passes.
    fn new(alloc: Global, passes: u32) -> Result<Keeper, AllocError> {
        Ok(Keeper {
            passes,
            blocks: (0..BLOCKS).map(|_| AtomicU64::new(FREE)).collect(alloc)?,
            wrong: AtomicU64::new(0),
        })
    }

    /// Records a step of a pass at a block, whose state should be `before`.
    fn keep(&self, pass: u32, block: u32, before: u64, after: u64) {
        let is_right = match self.blocks.get(block as usize) {
            Some(kept) if pass < self.passes => kept.swap(after, Ordering::SeqCst) == before,
            _ => false,
        };
        if !is_right {
            self.wrong.fetch_add(1, Ordering::SeqCst);
        }
    }

    /// Returns true if each block was claimed once and then delivered once, by the same pass.
    fn was_told_right(&self) -> bool {
        let mut blocks = self.blocks.iter();
        self.wrong.load(Ordering::SeqCst) == 0
            && blocks.all(|kept| kept.load(Ordering::SeqCst) == DELIVERED)
    }
}

impl Gate for Keeper {
    fn claimed(&self, pass: u32, block: u32) {
        self.keep(pass, block, FREE, claimed_by(pass));
    }

    fn delivered(&self, pass: u32, block: u32) {
        self.keep(pass, block, claimed_by(pass), DELIVERED);
    }
}

/// The numbers of workers, with the numbers of passes, which do not exceed the number of blocks.
const PASSES: [(u32, u32); 5] = [(1, 1), (2, 2), (5, 5), (6, 6), (64, 6)];

/// Asserts the notifications of a call, with a number of workers and of passes.
fn assert_told(rt: &impl Host, watched: Watched, workers: u32, passes: u32) -> Result<(), Fail> {
    let gate = Keeper::new(rt.alloc(), passes)?;
    let outcome = outcome_by(rt, watched, OFF.by(workers, 3), &gate)?;
    assert!(rt; gate.was_told_right(), "{watched:?}, {workers} workers");
    assert_eq!(rt; outcome.told(), (OCTAHEDRON_OFF, "", 0));
    Ok(())
}

#[test]
fn each_block_is_told_once_with_its_pass(rt: HostRuntime) -> Result<(), Fail> {
    for watched in WATCHED {
        for (workers, passes) in PASSES {
            assert_told(&rt, watched, workers, passes)?;
        }
    }
    Ok(())
}
