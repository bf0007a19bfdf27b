//! Runs in many small blocks: the tree joins the results of two blocks.
use super::paraboloid::{OUTPUTS, points};
use super::stored_points::STORED;
use crate::tests::outcomes::Asked;
use qh_fixtures::Host;
use qh_run::Gate;
use std::alloc::{AllocError, Global};
use std::sync::atomic::{AtomicU64, Ordering};
use std::test::Fail;

/// A gate that counts the nodes whose children are both delivered blocks: the second pass there joined them.
#[derive(Drop)]
pub struct Joins {
    blocks: u32,
    /// The number of delivered blocks of each node above the leaves.
    delivered: Vec<AtomicU64>,
    joins: AtomicU64,
}

impl Joins {
    /// Returns a gate for a board with `blocks` blocks.
    pub fn of(alloc: Global, blocks: u32) -> Result<Joins, AllocError> {
        Ok(Joins {
            blocks,
            delivered: (0..blocks).map(|_| AtomicU64::new(0)).collect(alloc)?,
            joins: AtomicU64::new(0),
        })
    }
}

impl Gate for Joins {
    fn delivered(&self, _pass: u32, block: u32) {
        let parent = self.blocks.saturating_add(block) / 2;
        if let Some(delivered) = self.delivered.get(parent as usize) {
            if delivered.fetch_add(1, Ordering::SeqCst) == 1 {
                self.joins.fetch_add(1, Ordering::SeqCst);
            }
        }
    }
}

/// Returns the number of nodes that joined the values of two blocks, in a run with an answer and this number of blocks.
fn joins_of(rt: &impl Host, asked: Asked, input: &[u8], blocks: u32) -> Result<u64, Fail> {
    let gate = Joins::of(rt.alloc(), blocks)?;
    if asked.answered(rt, input, &gate)?.status != 0 {
        return Err("the run answers".into());
    }
    Ok(gate.joins.load(Ordering::SeqCst))
}

#[test]
fn the_stored_run_joins_all_pairs(rt: HostRuntime) -> Result<(), Fail> {
    // 264 distinct points in blocks of 3 are 88 blocks, each of which has a sibling.
    let joins = joins_of(&rt, OUTPUTS.by(7, 3), STORED.as_bytes(), 88)?;
    assert_eq!(rt; joins, 44);
    Ok(())
}

#[test]
fn the_paraboloid_joins_until_a_pass_gives_up(rt: HostRuntime) -> Result<(), Fail> {
    // No pass gives up below a node of 256 blocks, which have 1,024 points.
    let input = points(rt.alloc(), 20000)?;
    let joins = joins_of(&rt, OUTPUTS.by(7, 4), input.as_bytes(), 5000)?;
    assert!(rt; joins >= 100, "{joins} joins");
    Ok(())
}
