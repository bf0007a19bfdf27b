//! Marks of the facets of a part that stay, with witnesses.
use crate::cut::cover::Cover;
use crate::cut::cutting::{Cutting, Others};
use crate::cut::facets::Facets;
use qh_mesh::FacetNo;
use qh_model::{Id, Memory, Point};
use qh_parts_join::{Divided, Part, Run};
use std::alloc::{AllocError, Global};

/// A guess of what stays of a part.
#[derive(Drop)]
pub struct Marks {
    /// For each place of the mesh, true if the facet there stays.
    pub stay: Vec<bool>,
    /// For each other part, witnesses for that part's own corners, in their order; empty for the part itself.
    pub runs: Vec<Vec<Run>>,
    /// The ids of the corners of the removed facets. An id may occur several times.
    pub seam: Vec<Id>,
}

impl Marks {
    /// Returns empty marks.
    fn none(alloc: Global) -> Marks {
        Marks {
            stay: Vec::new(alloc),
            runs: Vec::new(alloc),
            seam: Vec::new(alloc),
        }
    }
}

/// Returns the points of the first four shared ids. Their middle is inside every part.
fn four_of(set: Divided) -> Option<[Point; 4]> {
    let [i, j, k, l, ..] = set.shared else {
        return None;
    };
    let point_of = |id: &Id| set.pts.get(id.index()).copied();
    Some([point_of(i)?, point_of(j)?, point_of(k)?, point_of(l)?])
}

/// Removes the facets whose corners are all shared, since every part may have them. The shared ids are the last ones of
/// a part's mesh.
fn drop_shared(part: &Part, shared: &[Id], cutting: &mut Cutting) -> Result<(), AllocError> {
    let facets = Facets::of(&part.surface);
    let own = part.surface.ids.len().saturating_sub(shared.len());
    for place in 0..facets.places() {
        let f = FacetNo::new(place);
        if facets.is_past(f, own) {
            cutting.drop_facet(f)?;
        }
    }
    Ok(())
}

/// Returns witnesses for the corners of each other part.
fn all_witnesses(
    alloc: Global,
    facets: Facets,
    four: [Point; 4],
    others: Others,
    cutting: &mut Cutting,
) -> Result<Vec<Vec<Run>>, AllocError> {
    let mut runs = Vec::new(alloc);
    let Some(mut cover) = Cover::start(alloc, facets, four) else {
        return Ok(runs);
    };
    for (other, part) in others.parts.iter().enumerate() {
        let own = if other == others.number {
            Vec::new(alloc)
        } else {
            cover.witnesses(cutting, &part.places)?
        };
        runs.push(own)?;
    }
    Ok(runs)
}

/// Returns the ids of the corners of facets.
fn corners_of(alloc: Global, facets: Facets, listed: &[FacetNo]) -> Result<Vec<Id>, AllocError> {
    let mut ids = Vec::new(alloc);
    for f in listed {
        if let Some(corners) = facets.ids(*f) {
            ids.extend_from_slice(&corners)?;
        }
    }
    Ok(ids)
}

/// Guesses what stays of a part in the presence of the corners of the other parts, and gives up if the budget is
/// exhausted. The middle of the four points is inside the part.
fn marks_against<'a>(
    alloc: Global,
    part: &'a Part,
    shared: &[Id],
    four: [Point; 4],
    others: Others<'a>,
) -> Result<Marks, AllocError> {
    let facets = Facets::of(&part.surface);
    let mut cutting = Cutting::start(alloc, facets, others)?;
    drop_shared(part, shared, &mut cutting)?;
    let runs = all_witnesses(alloc, facets, four, others, &mut cutting)?;
    cutting.ask_waiting()?;
    if cutting.budget.is_spent() {
        return Ok(Marks::none(alloc));
    }
    Ok(Marks {
        stay: cutting.marks(alloc)?,
        runs,
        seam: corners_of(alloc, facets, &cutting.gone)?,
    })
}

/// Guesses what stays of the part with this number in the presence of the corners of the other parts. Returns empty marks
/// if too many tests would be needed.
///
/// # Errors
///
/// `Memory` if an allocation failed.
pub fn marks_of(alloc: Global, set: Divided, number: usize) -> Result<Marks, Memory> {
    let Some(part) = set.parts.get(number) else {
        return Ok(Marks::none(alloc));
    };
    let Some(four) = four_of(set) else {
        return Ok(Marks::none(alloc));
    };
    let others = Others {
        parts: set.parts,
        number,
    };
    Ok(marks_against(alloc, part, set.shared, four, others)?)
}
