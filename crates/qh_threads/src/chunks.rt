//! Parallel calls of a closure on the chunks of a slice.
ghost use Rattle.std.specs.Prelude.{◌≡◌, ◌+◌, ◌*◌, ◌/◌, ◌%◌, ◌<◌, ℕ, IfOk, length, min};
ghost use Rattle.std.specs.Fork.{AcceptsChunks, GivesChunk, GivesChunks, IsChunk};

use crate::claimed::map_claimed;
use std::alloc::{AllocError, Global};
use std::thread::Threads;

/// Returns the number of chunks of `size` elements in a slice of `len`. The last chunk may be shorter.
fn chunk_count(len: usize, size: usize) -> usize
    requires { 0 < size }
    ensures is { result ≡ len / size + min 1 (len % size) }
    ensures inside { (n : ℕ) → n < result → n * size < len }
{
    len.div_ceil(size)
}

/// Returns the chunk with a number.
fn chunk_at<T>(s: &[T], size: usize, number: usize) -> &[T]
    requires size { 0 < size }
    requires inside { number * size < length s.now }
    ensures { IsChunk s.now size (number * size) result.now }
{
    let (_, rest) = s.split_at(number * size);
    let (chunk, _) = rest.split_at(size.min(rest.len()));
    chunk
}

/// Calls `f` with each chunk of `size` elements and the index of its first element. At most `threads` threads make the
/// calls, as in [`map_claimed`].
///
/// # Errors
///
/// `AllocError` if an allocation failed. The results are dropped then.
pub fn map_chunks<R: Threads, T: Sync, X: Send + Drop, F: Fn(usize, &[T]) -> X + Sync>(
    rt: &R,
    alloc: Global,
    threads: usize,
    s: &[T],
    size: usize,
    f: &F,
) -> Result<Vec<X>, AllocError>
    requires size { 0 < size }
    requires accepts { AcceptsChunks F.Fn f.now size s.now }
    ensures len { IfOk result (λ v. length v.items ≡ length s.now / size + min 1 (length s.now % size)) }
    ensures each { IfOk result (λ v. GivesChunks F.Fn f.now size s.now v.items) }
{
    let part = move |number: usize| -> X
        requires { (0 < size) × (number * size < length s.now) × AcceptsChunks F.Fn f.now size s.now }
        ensures { GivesChunk F.Fn f.entry.now size s.entry.now number result }
    { f(number * size, chunk_at(s, size, number)) };
    map_claimed(rt, alloc, threads, chunk_count(s.len(), size), &part)
}
