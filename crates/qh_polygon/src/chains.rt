//! Chains of ids that turn left, in a plane that is seen from the side of a normal.
ghost use Rattle.std.specs.Prelude.{◌≡◌, ◌<◌, IfOk, reverse, length, []};
ghost use Rattle.qh_polygon.specs.steps.Chains.{turn_of, is_left, is_dropped, kept, chain};
ghost use Rattle.qh_model.specs.contract.IdSets.{AreIndices};

use qh_model::{Id, Point};
use qh_pred::{Normal, left, point_at};
use std::alloc::{AllocError, Global};

/// Returns true if the path from u over v to w turns left.
pub fn turns_left(pts: &[Point], normal: &Normal, u: Id, v: Id, w: Id) -> bool
    requires u_in { u < length pts.now }
    requires v_in { v < length pts.now }
    requires w_in { w < length pts.now }
    ensures { result ≡ is_left (turn_of pts.now normal.now u v w) }
{
    left(normal, point_at(pts, u), point_at(pts, v), point_at(pts, w)).is_gt()
}

/// Returns true if the top of the stack has to be dropped before the next id: the path over it does not turn left.
fn is_dropped(stack: &[Id], pts: &[Point], normal: &Normal, next: Id) -> bool
    requires stack_in { AreIndices pts.now stack.now }
    requires next_in { next < length pts.now }
    ensures { result ≡ is_dropped (turn_of pts.now normal.now) next (reverse stack.now) }
{
    let count = stack.len();
    count >= 2 && !turns_left(pts, normal, stack[count - 2], stack[count - 1], next)
}

/// Drops the top ids at which the path to the next id does not turn left.
fn drop_tops(stack: &mut Vec<Id>, pts: &[Point], normal: &Normal, next: Id)
    requires stack_in { AreIndices pts.now stack.old.items }
    requires next_in { next < length pts.now }
    ensures stack_in { AreIndices pts.now stack.new.items }
    ensures kept { reverse stack.new.items ≡ kept (turn_of pts.now normal.now) next (reverse stack.old.items) }
{
    while is_dropped(stack, pts, normal, next) {
        let _top = stack.pop();
    }
}

/// Returns the chain of the ids, in their order. If the ids are in order of place, it keeps the corners that have no
/// point to their right.
pub fn chain(
    alloc: Global,
    pts: &[Point],
    normal: &Normal,
    ids: &[Id],
) -> Result<Vec<Id>, AllocError>
    requires { AreIndices pts.now ids.now }
    ensures { IfOk result (λ v. reverse v.items ≡ chain (turn_of pts.now normal.now) [] ids.now) }
{
    let mut stack = Vec::with_capacity(alloc, ids.len())?;
    for next in ids {
        drop_tops(&mut stack, pts, normal, *next);
        stack.push(*next)?;
    }
    Ok(stack)
}
