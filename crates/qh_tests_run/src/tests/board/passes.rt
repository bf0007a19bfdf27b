//! Runs passes, and records their events.
ghost use Rattle.std.specs.Prelude.{◌≡◌, ◌+◌, ◌<◌, IfOk, IfSome, All, false, length};
ghost use Rattle.qh_model.specs.contract.BoardMachine.{InSpan};
ghost use Rattle.qh_board.specs.contract.{Closings.closed_setup, Tokens.IsOf, Tokens.task_node};
ghost use Rattle.qh_tests_run.specs.Rising.{IsRisingListOf};

use super::numbers::{Numbers, alone, merged};
use qh_board::{Board, BoardError, Claim, Closed, Delivered, Left, Pass, Task};
use std::alloc::{AllocError, Global};

/// An event of a pass.
#[derive(Clone, Copy, PartialEq, Eq, Drop)]
pub enum Met {
    Block(u32),
    Parked,
    /// The lists of both children of this node.
    Both(u32),
    Root,
    Over,
}

/// A node and the lists of its children, which a pass joined there.
#[derive(Drop)]
pub struct Join {
    pub node: u32,
    pub even: Vec<u32>,
    pub odd: Vec<u32>,
}

/// The events of passes, and the lists that they joined.
#[derive(Drop)]
pub struct Log {
    pub met: Vec<Met>,
    pub joins: Vec<Join>,
}

impl Log {
    /// Creates an empty log.
    pub fn new(alloc: Global) -> Log {
        let (met, joins) = (Vec::new(alloc), Vec::new(alloc));
        Log { met, joins }
    }

    /// Records the lists of both children of a node.
    fn note_both(&mut self, node: u32, even: &Vec<u32>, odd: &Vec<u32>) -> Result<(), AllocError> {
        self.met.push(Met::Both(node))?;
        let (even, odd) = (even.clone()?, odd.clone()?);
        self.joins.push(Join { node, even, odd })?;
        Ok(())
    }
}

/// Delivers a value, and then each combined value, as far up as possible.
fn climb(
    board: &Board<Numbers>,
    task: Task<Numbers>,
    list: Vec<u32>,
    log: &mut Log,
) -> Result<Pass<Numbers>, AllocError>
    requires board { IsOf board.now task }
    requires right { IsRisingListOf (InSpan board.now.setup.blocks (task_node task)) list.items }
    ensures board { IfOk result (IsOf board.now) }
    ensures going { IfOk result (λ p. p.pass.over ≡ task.pass.over) }
    ensures claims { IfOk result (λ p. p.pass.claims ≡ task.pass.claims) }
{
    match board.deliver(task, list) {
        Delivered::Parked(pass) => {
            log.met.push(Met::Parked)?;
            Ok(pass)
        }
        Delivered::Root(pass) => {
            log.met.push(Met::Root)?;
            Ok(pass)
        }
        Delivered::Both(parent, even, odd) => {
            log.note_both(parent.node(), &even, &odd)?;
            climb(board, parent, merged(even, odd)?, log)
        }
    }
}

/// Processes a claimed block, and climbs the tree.
fn take_turn(
    alloc: Global,
    board: &Board<Numbers>,
    task: Task<Numbers>,
    block: u32,
    log: &mut Log,
) -> Result<Pass<Numbers>, AllocError>
    requires board { IsOf board.now task }
    requires leaf { (block < board.now.setup.blocks) × (task_node task ≡ board.now.setup.blocks + block) }
    ensures board { IfOk result (IsOf board.now) }
    ensures going { IfOk result (λ p. p.pass.over ≡ task.pass.over) }
    ensures claims { IfOk result (λ p. p.pass.claims ≡ task.pass.claims) }
{
    climb(board, task, alone(alloc, block)?, log)
}

/// Claims all remaining blocks, and leaves; gives up at the excepted block. Each claim is later, so this ends.
pub fn work_but(
    alloc: Global,
    board: &Board<Numbers>,
    pass: Pass<Numbers>,
    gives_up_at: Option<u32>,
    log: &mut Log,
) -> Result<Left<Numbers>, AllocError>
    requires board { IsOf board.now pass }
    requires going { pass.pass.over ≡ false }
    requires blocks { board.now.setup.spans.blocks ≡ board.now.setup.blocks }
    ensures { IfOk result (IsOf board.now) }
{
    let mut pass = pass;
    loop {
        match board.claim(pass) {
            Claim::Over(over) => {
                log.met.push(Met::Over)?;
                return Ok(board.leave(over));
            }
            Claim::Block(task) => {
                let block = task.node() - board.spans().blocks;
                log.met.push(Met::Block(block))?;
                if gives_up_at == Some(block) {
                    return Ok(board.give_up(task));
                }
                pass = take_turn(alloc, board, task, block, log)?;
            }
        }
    }
}

/// Runs each pass to its end, the last pass first.
fn work_all(
    alloc: Global,
    board: &Board<Numbers>,
    passes: Vec<Pass<Numbers>>,
    log: &mut Log,
) -> Result<Vec<Left<Numbers>>, AllocError>
    requires board { All (IsOf board.now) passes.items }
    requires going { All (λ p. p.pass.over ≡ false) passes.items }
    requires blocks { board.now.setup.spans.blocks ≡ board.now.setup.blocks }
    ensures count { IfOk result (λ lefts. length lefts.items ≡ length passes.items) }
    ensures board { IfOk result (λ lefts. All (IsOf board.now) lefts.items) }
{
    let mut passes = passes;
    let mut lefts = Vec::new(alloc);
    while let Some(pass) = passes.pop() {
        lefts.push(work_but(alloc, board, pass, None, log)?)?;
    }
    Ok(lefts)
}

/// Returns a board all of whose passes were run to their ends, the last first, and their events.
pub fn run(alloc: Global, blocks: u32, passes: u32) -> Result<(Closed<Numbers>, Log), BoardError>
    ensures { IfOk result (λ r. (closed_setup r.0).passes ≡ passes) }
{
    let mut log = Log::new(alloc);
    let (board, all) = Board::new(alloc, Numbers { blocks }, blocks, passes)?;
    let lefts = work_all(alloc, &board, all, &mut log)?;
    Ok((board.close(lefts), log))
}

/// Returns a board of two blocks whose one pass leaves at once.
pub fn leave_at_once(alloc: Global) -> Result<Closed<Numbers>, BoardError>
    ensures { IfOk result (λ closed. (closed_setup closed).passes ≡ 1) }
{
    let (board, mut passes) = Board::new(alloc, Numbers { blocks: 2 }, 2, 1)?;
    let mut lefts = Vec::with_capacity(alloc, 1)?;
    if let Some(pass) = passes.pop() {
        lefts.push_reserved(board.leave(pass));
    }
    Ok(board.close(lefts))
}

/// The accessors of the tokens of two passes: the numbers of both, true if the first knew before its claim that all
/// blocks are claimed, the node of the first's task, and its number by that task and at its end.
type Told = (u32, u32, bool, u32, u32, u32);

/// Claims a block and gives up at it. Returns the node, and the number of the pass by its task.
fn give_up_at_once(board: &Board<Numbers>, pass: Pass<Numbers>) -> Option<(Left<Numbers>, u32, u32)>
    requires board { IsOf board.now pass }
    requires going { pass.pass.over ≡ false }
    ensures { IfSome result (λ r. IsOf board.now r.0) }
{
    match board.claim(pass) {
        Claim::Over(_) => None,
        Claim::Block(task) => {
            let (node, number) = (task.node(), task.pass());
            Some((board.give_up(task), node, number))
        }
    }
}

/// Returns a board of two blocks whose first pass gives up at its block before the second runs to its end, the results
/// of the tokens' accessors, and the events of the second; `None` if the first gets no block.
pub fn first_gives_up(alloc: Global) -> Result<Option<(Closed<Numbers>, Told, Log)>, BoardError>
    ensures { IfOk result (λ r. IfSome r (λ s. (closed_setup s.0).passes ≡ 2)) }
{
    let (board, mut passes) = Board::new(alloc, Numbers { blocks: 2 }, 2, 2)?;
    let mut lefts = Vec::with_capacity(alloc, 2)?;
    let Some(second) = passes.pop() else {
        unreachable!()
    };
    let Some(first) = passes.pop() else {
        unreachable!()
    };
    let (one, two, over) = (first.number(), second.number(), first.is_over());
    let Some((left, node, task)) = give_up_at_once(&board, first) else {
        return Ok(None);
    };
    let told = (one, two, over, node, task, left.number());
    lefts.push_reserved(left);
    let mut log = Log::new(alloc);
    lefts.push_reserved(work_but(alloc, &board, second, None, &mut log)?);
    Ok(Some((board.close(lefts), told, log)))
}
