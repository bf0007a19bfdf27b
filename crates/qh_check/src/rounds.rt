//! Checks if a walk round a polygon meets the ids of a list in order.
ghost use Rattle.std.specs.Prelude.{◌≡◌, ◌+◌, ◌++◌, ◌<◌, ◌≤◌, ◌↔◌, ℕ, List, IsTrue, drop, length, slice_index_or, take};
ghost use Rattle.qh_check.specs.contract.Pieces.{IsMetAlong, IsMetFrom, IsMetRound};
ghost use Rattle.qh_check.specs.steps.Rounds.{IsBehind, way_behind};

use qh_model::Id;

/// Returns true if a list has an id at a position.
fn is_at(ids: &[Id], position: usize, id: Id) -> bool
    ensures { IsTrue result ↔ ((position < length ids.now) × (slice_index_or ids.now position 0 ≡ id)) }
{
    if position >= ids.len() {
        return false;
    }
    ids[position] == id
}

/// Returns how many items of a list have been met after a walk along some ids, if `before` were met before it.
fn met(part: &[Id], before: usize, ids: &[Id]) -> usize
    requires { before ≤ length part.now }
    ensures bound { result ≤ length part.now }
    ensures on { (rest : List ℕ) → IsMetAlong (drop result part.now) rest ↔ IsMetAlong (drop before part.now) (ids.now ++ rest) }
{
    let mut next = before;
    for id in ids {
        if is_at(part, next, *id) {
            next += 1;
        }
    }
    next
}

/// Returns true if a walk round a polygon, from behind a position to the position before it, meets all items of a list
/// in order.
fn is_met_behind(part: &[Id], face: &[Id], position: usize) -> bool
    requires { position < length face.now }
    ensures { IsTrue result ↔ IsMetAlong part.now (drop (position + 1) face.now ++ take position face.now) }
{
    let behind = met(part, 0, &face[position + 1..]);
    let all = met(part, behind, &face[..position]);
    all == part.len()
}

/// Returns true if a polygon has an id at a position, and a walk round the polygon from there meets a list.
fn is_met_from(first: Id, rest: &[Id], face: &[Id], position: usize) -> bool
    requires { position < length face.now }
    ensures { IsTrue result ↔ IsMetFrom first rest.now face.now position }
{
    if !is_at(face, position, first) {
        return false;
    }
    is_met_behind(rest, face, position)
}

/// Returns true if a list goes round some corners of a polygon, in their order.
pub(crate) fn is_met_round(part: &[Id], face: &[Id]) -> bool
    ensures { IsTrue result ↔ IsMetRound part.now face.now }
{
    let [first, rest @ ..] = part else {
        return false;
    };
    for position in 0..face.len() {
        if is_met_from(*first, rest, face, position) {
            return true;
        }
    }
    false
}

/// Returns the number of corners between two corners on the way round a polygon: 0 if the second is next.
fn steps_behind(from: usize, to: usize, count: usize) -> usize
    requires from { from < count }
    requires to { to < count }
    ensures { IsBehind from to count result }
{
    if to > from {
        to - from - 1
    } else {
        to + (count - from) - 1
    }
}

/// Returns true if a list goes round the corners of a polygon at these positions. The time depends on the length of the
/// list alone, not on that of the polygon.
pub(crate) fn goes_round(part: &[Id], face: &[Id], positions: &[usize]) -> bool
    ensures { IsTrue result → IsMetRound part.now face.now }
{
    let [first, rest @ ..] = part else {
        return false;
    };
    let [begin, others @ ..] = positions else {
        return false;
    };
    if others.len() != rest.len() || !is_at(face, *begin, *first) {
        return false;
    }
    goes_on(rest, others, face, *begin)
}

/// Returns true if a walk round a polygon from behind a position meets a list at these positions of the polygon. The
/// last item is tested first, so that each position has to precede the one after it.
fn goes_on(rest: &[Id], positions: &[usize], face: &[Id], begin: usize) -> bool
    requires begin { begin < length face.now }
    requires same { length positions.now ≡ length rest.now }
    ensures { IsTrue result → IsMetAlong rest.now (way_behind face.now begin) }
{
    let mut before = face.len() - 1;
    for index in 0..rest.len() {
        let place = rest.len() - 1 - index;
        if !is_at(face, positions[place], rest[place]) {
            return false;
        }
        let steps = steps_behind(begin, positions[place], face.len());
        if steps >= before {
            return false;
        }
        before = steps;
    }
    true
}
