//! The numbers of vertices.
ghost use Rattle.std.specs.{List.Sorted.IsStrictlyIncreasing, Prelude.◌≡◌, Prelude.◌<◌, Prelude.IfOk, Prelude.All, Prelude.replicate};
ghost use Rattle.qh_write.specs.steps.Numberings.{numbered, number_in, HasNumber, NumberExtremes};

use qh_model::Id;
use std::alloc::{AllocError, Global};

/// If there are at least this many points for each extreme id, searching for each vertex is faster than a table of all
/// ids.
const POINTS_FOR_SEARCH: usize = 128;

/// The numbers of vertices: the position of each extreme id among the extreme ids.
#[derive(Debug, Drop)]
pub enum VertexNumbers<'a> {
    /// A number at each extreme id, and 0 elsewhere.
    Table(Vec<u32>),
    /// The extreme ids, rising, which are searched for each vertex.
    Search(&'a [Id]),
}

impl VertexNumbers<'_> {
    /// Returns the number of a vertex.
    pub fn number(&self, id: Id) -> u64
        requires { HasNumber self.now id }
        ensures { result ≡ number_in self.now id }
    {
        match self {
            VertexNumbers::Table(numbers) => u64::from(numbers[id.index()]),
            VertexNumbers::Search(extremes) => match extremes.binary_search(&id) {
                Ok(position) => position as u64,
                Err(_) => unreachable!(),
            },
        }
    }
}

/// Returns a table that has, at each of the rising ids, its position among them, and 0 elsewhere.
fn number_table(alloc: Global, extremes: &[Id], count: usize) -> Result<Vec<u32>, AllocError>
    requires within { All (λ i. i < count) extremes.now }
    requires rising { IsStrictlyIncreasing extremes.now }
    ensures { IfOk result (λ v. v.items ≡ numbered (replicate count 0) 0 extremes.now) }
{
    let mut numbers = vec![in alloc; 0u32; count]?;
    for (number, id) in extremes.iter().enumerate() {
        // An id is at least its position among rising ids, so the position fits 32 bits, too.
        let vertex = id.number();
        numbers[vertex as usize] = number as u32;
    }
    Ok(numbers)
}

/// Returns the numbers of the extreme ids, which rise and are below a count.
pub fn vertex_numbers<'a>(
    alloc: Global,
    extremes: &'a [Id],
    count: usize,
) -> Result<VertexNumbers<'a>, AllocError>
    requires within { All (λ i. i < count) extremes.now }
    requires rising { IsStrictlyIncreasing extremes.now }
    ensures { IfOk result (NumberExtremes extremes.now) }
{
    if extremes.len() <= count / POINTS_FOR_SEARCH {
        Ok(VertexNumbers::Search(extremes))
    } else {
        Ok(VertexNumbers::Table(number_table(alloc, extremes, count)?))
    }
}
