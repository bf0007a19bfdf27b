//! Claimed calls of a closure beside two other calls.
ghost use Rattle.std.specs.Prelude.{◌≡◌, ◌<◌, ℕ, IfOk, length};
ghost use Rattle.std.specs.{List.All, Fork.GivesEach, Thread.IsSend, Thread.IsSync};
ghost use Rattle.qh_threads.specs.steps.Answers.{AreAnswers};

use crate::claimed::{Answer, claim, in_order};
use crate::indices::indices_beside;
use std::alloc::{AllocError, Global};
use std::sync::atomic::AtomicUsize;
use std::thread::{Threads, join_mut};

/// Calls of a closure at each index below `count`, by at most `threads` threads.
#[derive(Drop)]
pub struct Calls<'a, F> {
    pub threads: usize,
    pub count: usize,
    pub f: &'a F,
}

/// Makes the call `first`, and then the calls that this thread claims.
fn call_and_claim<X: Send + Drop, F: Fn(usize) -> X + Sync, A, T: FnMut() -> A>(
    alloc: Global,
    next: &AtomicUsize,
    calls: &Calls<'_, F>,
    first: &mut T,
) -> (A, Result<Vec<Answer<X>>, AllocError>)
    requires first { T.pre first.old }
    requires calls { (i : ℕ) → i < calls.now.count → F.pre calls.now.f.now i }
    ensures first { T.step first.old result.0 first.new }
    ensures answers { AreAnswers F.Fn calls.now.f.now calls.now.count result.1 }
{
    let answer = first();
    (answer, claim(alloc, next, calls.count, calls.f))
}

/// Makes the call `here` in this thread, and the call `there` in another one, which then claims calls.
fn call_both_and_claim<
    R: Threads,
    X: Send + Drop,
    F: Fn(usize) -> X + Sync,
    A: Send,
    B,
    T: FnMut() -> A + Send,
    H: FnMut() -> B,
>(
    rt: &R,
    alloc: Global,
    next: &AtomicUsize,
    calls: &Calls<'_, F>,
    there: &mut T,
    here: &mut H,
) -> ((A, Result<Vec<Answer<X>>, AllocError>), B)
    requires there { T.pre there.old }
    requires here { H.pre here.old }
    requires calls { (i : ℕ) → i < calls.now.count → F.pre calls.now.f.now i }
    ensures there { T.step there.old result.0.0 there.new }
    ensures here { H.step here.old result.1 here.new }
    ensures answers { AreAnswers F.Fn calls.now.f.now calls.now.count result.0.1 }
{
    let mut first = || -> (A, Result<Vec<Answer<X>>, AllocError>)
        requires { IsSync F.row × IsSend X.row × T.pre there.now × ((i : ℕ) → i < calls.now.count → F.pre calls.now.f.now i) }
        ensures first { T.step there.entry.now result.0 there.exit.now }
        ensures answers { AreAnswers F.Fn calls.entry.now.f.now calls.entry.now.count result.1 }
    { call_and_claim(alloc, next, calls, there) };
    join_mut(rt, &mut first, here)
}

/// Returns the results of the calls in order, given what the thread with a first call claimed, and the others.
fn all_in_order<X: Send + Drop, F: Fn(usize) -> X + Sync>(
    alloc: Global,
    others: Result<Vec<Result<Vec<Answer<X>>, AllocError>>, AllocError>,
    one: Result<Vec<Answer<X>>, AllocError>,
    calls: &Calls<'_, F>,
) -> Result<Vec<X>, AllocError>
    requires accepts { (i : ℕ) → i < calls.now.count → F.pre calls.now.f.now i }
    requires others { IfOk others (λ v. All (AreAnswers F.Fn calls.now.f.now calls.now.count) v.items) }
    requires one { AreAnswers F.Fn calls.now.f.now calls.now.count one }
    ensures len { IfOk result (λ v. length v.items ≡ calls.now.count) }
    ensures each { IfOk result (λ v. GivesEach F.Fn calls.now.f.now calls.now.count v.items) }
{
    let mut claimed = others?;
    claimed.push(one)?;
    in_order(alloc, claimed, calls.count, calls.f)
}

/// Makes the calls as [`map_claimed`](crate::map_claimed) does, beside two calls of other closures: `here` in the calling
/// thread, and `there` in another thread, which then claims, too. Returns the results of `there`, of `here`, and of the
/// calls.
///
/// At least one thread is started. What cannot be started is done by the calling thread.
///
/// # Errors
///
/// The last result is `AllocError` if an allocation failed; both closures were called.
pub fn map_claimed_beside<
    R: Threads,
    X: Send + Drop,
    F: Fn(usize) -> X + Sync,
    A: Send,
    B,
    T: FnMut() -> A + Send,
    H: FnMut() -> B,
>(
    rt: &R,
    alloc: Global,
    calls: &Calls<'_, F>,
    there: &mut T,
    here: &mut H,
) -> (A, B, Result<Vec<X>, AllocError>)
    requires there { T.pre there.old }
    requires here { H.pre here.old }
    requires calls { (i : ℕ) → i < calls.now.count → F.pre calls.now.f.now i }
    ensures there { T.step there.old result.0 there.new }
    ensures here { H.step here.old result.1 here.new }
    ensures len { IfOk result.2 (λ v. length v.items ≡ calls.now.count) }
    ensures each { IfOk result.2 (λ v. GivesEach F.Fn calls.now.f.now calls.now.count v.items) }
{
    let next = AtomicUsize::new(0);
    let mut both = || -> ((A, Result<Vec<Answer<X>>, AllocError>), B)
        requires { IsSync F.row × IsSend X.row × T.pre there.now × H.pre here.now × ((i : ℕ) → i < calls.now.count → F.pre calls.now.f.now i) }
        ensures there { T.step there.entry.now result.0.0 there.exit.now }
        ensures here { H.step here.entry.now result.1 here.exit.now }
        ensures answers { AreAnswers F.Fn calls.entry.now.f.now calls.entry.now.count result.0.1 }
    { call_both_and_claim(rt, alloc, &next, calls, there, here) };
    let claims = |_thread: usize| -> Result<Vec<Answer<X>>, AllocError>
        requires { IsSync F.row × IsSend X.row × ((i : ℕ) → i < calls.now.count → F.pre calls.now.f.now i) }
        ensures { AreAnswers F.Fn calls.entry.now.f.now calls.entry.now.count result }
    { claim(alloc, &next, calls.count, calls.f) };
    let others = calls.threads.saturating_sub(1);
    // The thread with a first call is started last: the first thread often waits for the calling thread's processor.
    let (((one, claimed), two), by_others) = indices_beside(rt, alloc, others, &claims, &mut both);
    (one, two, all_in_order(alloc, by_others, claimed, calls))
}
