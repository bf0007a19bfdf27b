//! Parallel calls of a closure at indices.
ghost use Rattle.std.specs.Prelude.{◌≡◌, ◌<◌, ◌+◌, ℕ, IfOk, length};
ghost use Rattle.std.specs.{Fn.FnReturns, Fork.GivesEach, Thread.IsSend, Thread.IsSync};

use std::alloc::{AllocError, Global};
use std::thread::{Threads, join_mut};

/// Calls `f` at each index below `count`, each in a thread of its own if one can be started, and `here` in the calling
/// thread. Returns the result of `here`, and the other results in order.
///
/// The calling thread starts all threads. A thread that a new thread starts would often wait for its processor.
#[cycle(calls)]
pub(crate) fn indices_beside<
    R: Threads,
    X: Send + Drop,
    F: Fn(usize) -> X + Sync,
    B,
    H: FnMut() -> B,
>(rt: &R, alloc: Global, count: usize, f: &F, here: &mut H) -> (B, Result<Vec<X>, AllocError>)
    requires accepts { (i : ℕ) → i < count → F.pre f.now i }
    requires here { H.pre here.old }
    ensures here { H.step here.old result.0 here.new }
    ensures len { IfOk result.1 (λ v. length v.items ≡ count) }
    ensures each { IfOk result.1 (λ v. GivesEach F.Fn f.now count v.items) }
{
    if count == 0 {
        return (here(), Ok(Vec::new(alloc)));
    }
    let last = count - 1;
    let mut own = || -> X
        requires { IsSync F.row × F.pre f.now last }
        ensures { FnReturns F.Fn f.entry.now (last, tt) result }
    { f(last) };
    let mut others = || -> (B, Result<Vec<X>, AllocError>)
        requires { IsSync F.row × IsSend X.row × H.pre here.now × ((i : ℕ) → i < last → F.pre f.now i) }
        ensures here { H.step here.entry.now result.0 here.exit.now }
        ensures len { IfOk result.1 (λ v. length v.items ≡ last) }
        ensures each { IfOk result.1 (λ v. GivesEach F.Fn f.entry.now last v.items) }
    { indices_beside(rt, alloc, last, f, here) };
    let (result, (answer, earlier)) = join_mut(rt, &mut own, &mut others);
    (answer, with_last(earlier, last, result, f))
}

/// Returns the results of the calls before `index` with that of the call at `index`.
fn with_last<X: Send + Drop, F: Fn(usize) -> X + Sync>(
    earlier: Result<Vec<X>, AllocError>,
    index: usize,
    last: X,
    f: &F,
) -> Result<Vec<X>, AllocError>
    requires len { IfOk earlier (λ v. length v.items ≡ index) }
    requires each { IfOk earlier (λ v. GivesEach F.Fn f.now index v.items) }
    requires last { FnReturns F.Fn f.now (index, tt) last }
    ensures len { IfOk result (λ v. length v.items ≡ index + 1) }
    ensures each { IfOk result (λ v. GivesEach F.Fn f.now (index + 1) v.items) }
{
    let mut results = earlier?;
    results.push(last)?;
    Ok(results)
}

/// Calls `f` at each index below `count` and returns the results in order.
///
/// Each call gets a thread of its own if one can be started, and the calling thread waits for them; it makes a single
/// call itself, and each that no thread can be started for. So `count` is a number of threads, and should be small.
///
/// # Errors
///
/// `AllocError` if an allocation failed. The results are dropped then; each call was made.
pub fn map_indices<R: Threads, X: Send + Drop, F: Fn(usize) -> X + Sync>(
    rt: &R,
    alloc: Global,
    count: usize,
    f: &F,
) -> Result<Vec<X>, AllocError>
    requires { (i : ℕ) → i < count → F.pre f.now i }
    ensures len { IfOk result (λ v. length v.items ≡ count) }
    ensures each { IfOk result (λ v. GivesEach F.Fn f.now count v.items) }
{
    if count == 1 {
        let mut one = Vec::new(alloc);
        one.push(f(0))?;
        return Ok(one);
    }
    let mut nothing = || {};
    let (_, results) = indices_beside(rt, alloc, count, f, &mut nothing);
    results
}
