//! Calls of a closure at indices that threads claim one after the other.
ghost use Rattle.std.specs.Prelude.{◌≡◌, ◌<◌, ℕ, IfOk, IsNone, length};
ghost use Rattle.std.specs.{List.All, Fork.GivesEach, Thread.IsSend, Thread.IsSync};
ghost use Rattle.qh_threads.specs.steps.Answers.{IsAnswer, AreAnswers, ArePlaced};

use crate::indices::map_indices;
use std::alloc::{AllocError, Global};
use std::sync::atomic::{AtomicUsize, Ordering};
use std::thread::Threads;

/// What the call at an index returned.
#[derive(Drop)]
pub(crate) struct Answer<X> {
    index: usize,
    value: X,
}

/// Calls `f` at the indices that it claims from `next`, until no index below `count` remains.
pub(crate) fn claim<X: Send + Drop, F: Fn(usize) -> X + Sync>(
    alloc: Global,
    next: &AtomicUsize,
    count: usize,
    f: &F,
) -> Result<Vec<Answer<X>>, AllocError>
    requires { (i : ℕ) → i < count → F.pre f.now i }
    ensures { AreAnswers F.Fn f.now count result }
{
    let mut answers = Vec::new(alloc);
    for _ in 0..count {
        let index = next.fetch_add(1, Ordering::SeqCst);
        if index >= count {
            return Ok(answers);
        }
        answers.push(Answer {
            index,
            value: f(index),
        })?;
    }
    Ok(answers)
}

/// Returns the slots with each value in the slot of its index.
fn place<X: Send + Drop, F: Fn(usize) -> X + Sync>(
    answers: Vec<Answer<X>>,
    slots: Vec<Option<X>>,
    f: &F,
) -> Vec<Option<X>>
    requires answers { All (IsAnswer F.Fn f.now (length slots.items)) answers.items }
    requires placed { ArePlaced F.Fn f.now slots.items }
    ensures len { length result.items ≡ length slots.items }
    ensures placed { ArePlaced F.Fn f.now result.items }
{
    let mut slots = slots;
    for answer in answers {
        let Answer { index, value } = answer;
        if index < slots.len() {
            slots[index] = Some(value);
        }
    }
    slots
}

/// Returns an empty slot for each index below `count`.
fn empty_slots<X>(alloc: Global, count: usize) -> Result<Vec<Option<X>>, AllocError>
    ensures len { IfOk result (λ v. length v.items ≡ count) }
    ensures empty { IfOk result (λ v. All IsNone v.items) }
{
    let mut slots = Vec::with_capacity(alloc, count)?;
    for _ in 0..count {
        slots.push_reserved(None);
    }
    Ok(slots)
}

/// Removes the values from the slots and returns them in order. For an empty slot it makes the call here.
fn values<X: Send + Drop, F: Fn(usize) -> X + Sync>(
    alloc: Global,
    slots: Vec<Option<X>>,
    f: &F,
) -> Result<Vec<X>, AllocError>
    requires accepts { (i : ℕ) → i < length slots.items → F.pre f.now i }
    requires placed { ArePlaced F.Fn f.now slots.items }
    ensures len { IfOk result (λ v. length v.items ≡ length slots.items) }
    ensures each { IfOk result (λ v. GivesEach F.Fn f.now (length slots.items) v.items) }
{
    let mut slots = slots;
    let mut values = Vec::with_capacity(alloc, slots.len())?;
    for index in 0..slots.len() {
        let value = match slots[index].take() {
            Some(value) => value,
            None => f(index),
        };
        values.push(value)?;
    }
    Ok(values)
}

/// Returns the results of the calls in the order of their indices, given what each thread claimed. A call that no thread
/// made is made here.
pub(crate) fn in_order<X: Send + Drop, F: Fn(usize) -> X + Sync>(
    alloc: Global,
    claimed: Vec<Result<Vec<Answer<X>>, AllocError>>,
    count: usize,
    f: &F,
) -> Result<Vec<X>, AllocError>
    requires accepts { (i : ℕ) → i < count → F.pre f.now i }
    requires claimed { All (AreAnswers F.Fn f.now count) claimed.items }
    ensures len { IfOk result (λ v. length v.items ≡ count) }
    ensures each { IfOk result (λ v. GivesEach F.Fn f.now count v.items) }
{
    let mut slots = empty_slots(alloc, count)?;
    for answers in claimed {
        slots = place(answers?, slots, f);
    }
    values(alloc, slots, f)
}

/// Calls `f` at each index below `count`, by at most `threads` threads, and returns the results in order.
///
/// Each thread claims the next index until all are claimed, so that a slower thread makes fewer calls. The calling thread
/// waits for them. If `threads` is 0 or 1, no thread is started, and the calling thread makes all calls.
///
/// # Errors
///
/// `AllocError` if an allocation failed. The results are dropped then.
pub fn map_claimed<R: Threads, X: Send + Drop, F: Fn(usize) -> X + Sync>(
    rt: &R,
    alloc: Global,
    threads: usize,
    count: usize,
    f: &F,
) -> Result<Vec<X>, AllocError>
    requires { (i : ℕ) → i < count → F.pre f.now i }
    ensures len { IfOk result (λ v. length v.items ≡ count) }
    ensures each { IfOk result (λ v. GivesEach F.Fn f.now count v.items) }
{
    let next = AtomicUsize::new(0);
    let claimed = map_indices(
        rt,
        alloc,
        threads.clamp(1, count.max(1)),
        &|_thread: usize| -> Result<Vec<Answer<X>>, AllocError>
            requires { IsSync F.row × IsSend X.row × ((i : ℕ) → i < count → F.pre f.now i) }
            ensures { AreAnswers F.Fn f.entry.now count result }
        { claim(alloc, &next, count, f) },
    )?;
    in_order(alloc, claimed, count, f)
}
