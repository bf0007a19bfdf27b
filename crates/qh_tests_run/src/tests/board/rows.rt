//! The rows of boards: the events of their passes, the number of steps, and the values of the root.

use super::numbers::Numbers;
use super::passes::Met::{self, Block, Both, Over, Parked, Root};
use super::passes::{Join, first_gives_up, leave_at_once, run};
use super::runs::run_side_by_side;
use super::{Row, assert_joined, counted_root};
use qh_board::{Board, BoardError, Mark};
use qh_fixtures::{Host, table};
use std::test::Fail;

/// The events of the passes of a board of two blocks, and of one of seven, one pass after the other.
const TWO_BLOCKS: [Met; 6] = table![Block(0); Parked; Block(1); Both(1); Root; Over;];

const SEVEN_BLOCKS: [Met; 22] = table![
    Block(0); Parked; Block(1); Parked; Block(2); Both(4); Parked; Block(3); Parked; Block(4); Both(5);
    Both(2); Parked; Block(5); Parked; Block(6); Both(6); Both(3); Both(1); Root; Over; Over;
];

/// A node and the lists of its children.
type Lists = (u32, &'static [u32], &'static [u32]);

/// The lists that are joined over two blocks, and over seven, if one pass runs after the other.
const TWO_JOINED: [Lists; 1] = [(1, &[0], &[1])];

const SEVEN_JOINED: [Lists; 6] = table![
    (4, &[1], &[2]); (5, &[3], &[4]); (2, &[1, 2], &[3, 4]); (6, &[5], &[6]); (3, &[5, 6], &[0]);
    (1, &[1, 2, 3, 4], &[0, 5, 6]);
];

/// Returns true if these lists were joined, in this order.
fn are_joined(joins: &[Join], want: &[Lists]) -> bool {
    for (join, lists) in joins.iter().zip(want) {
        let (node, even, odd) = *lists;
        if join.node != node || join.even.as_slice() != even || join.odd.as_slice() != odd {
            return false;
        }
    }
    joins.len() == want.len()
}

/// Asserts that a board is joined as in a row, by these events and these joined lists, one after the other.
fn assert_met(rt: &impl Host, row: Row, want: &[Met], joined: &[Lists]) -> Result<(), BoardError> {
    let (blocks, passes, _, _) = row;
    let (closed, log) = run(rt.alloc(), blocks, passes)?;
    assert!(rt; log.met.as_slice() == want, "{blocks} blocks");
    assert!(rt; are_joined(&log.joins, joined), "{blocks} blocks");
    assert_joined(rt, closed, log.met.len(), row);
    Ok(())
}

#[test]
fn passes_join_all_blocks(rt: HostRuntime) -> Result<(), Fail> {
    // The pass that runs first gets the only block, and all passes find that it is claimed.
    let mut many = [Over; 66];
    many[0] = Block(0);
    many[1] = Root;
    assert_met(&rt, (2, 1, 3, 7), &TWO_BLOCKS, &TWO_JOINED)?;
    assert_met(&rt, (7, 2, 9, 24), &SEVEN_BLOCKS, &SEVEN_JOINED)?;
    assert_met(&rt, (1, 64, 65, 130), &many, &[])?;
    Ok(())
}

#[test]
fn two_threads_join_seven_blocks(rt: HostRuntime) -> Result<(), Fail> {
    let (closed, met) = run_side_by_side(&rt, rt.alloc(), 7, 2, None)?;
    assert_joined(&rt, closed, met.len(), (7, 2, 9, 24));
    Ok(())
}

#[test]
fn no_root_where_a_pass_gave_up(rt: HostRuntime) -> Result<(), Fail> {
    let (closed, told, log) = first_gives_up(rt.alloc())?.ok_or("no block")?;
    let (claims, blocks) = (closed.claims(), closed.spans().blocks);
    let marks = (closed.mark(0), closed.mark(1));
    let closed = (claims, blocks, marks, counted_root(closed));
    assert!(rt; closed == (3, 2, (Mark::GaveUp, Mark::Left), None));
    assert!(rt; told == (0, 1, false, 2, 0, 0) && log.joins.is_empty());
    assert!(rt; log.met.as_slice() == [Block(1), Parked, Over].as_slice());
    Ok(())
}

#[test]
fn no_root_where_nothing_is_claimed(rt: HostRuntime) -> Result<(), Fail> {
    let closed = leave_at_once(rt.alloc())?;
    let found = (closed.claims(), closed.mark(0), counted_root(closed));
    assert_eq!(rt; found, (0, Mark::Left, None));
    Ok(())
}

#[test]
fn numbers_out_of_range_are_refused(rt: HostRuntime) -> Result<(), Fail> {
    let rows = table![
        (0, 1, BoardError::BadBlocks); (65537, 1, BoardError::BadBlocks); (0, 0, BoardError::BadBlocks);
        (1, 0, BoardError::BadPasses); (1, 65, BoardError::BadPasses);
    ];
    for (blocks, passes, error) in rows {
        let board = Board::new(rt.alloc(), Numbers { blocks }, blocks, passes);
        assert_eq!(rt; board.err(), Some(error), "{blocks} blocks");
    }
    Ok(())
}
