//! The contributions of the parts of a set: their faces that stay and those that are removed. A thread for each part
//! checks that its guess is right.
ghost use Rattle.std.specs.Prelude.{All, ◌<◌, IfOk, IfSome};
ghost use Rattle.qh_parts_join.specs.contract.Parts.{IsPartOf};
ghost use Rattle.qh_parts.specs.steps.Given.{IsContribution, IsGiven};

use crate::seam::staying_faces;
use qh_bodies::UnsortedFaces;
use qh_model::{Id, Memory, Polygon};
use qh_parts_guess::gap::{Border, border_of};
use qh_parts_guess::marks_of;
use qh_parts_join::{Divided, Guess};
use qh_threads::map_indices;
use std::alloc::{AllocError, Global};
use std::thread::Threads;

/// The faces that a part contributes and those that are removed, and the input for the polygons between the parts: its
/// border, and the corners of its removed facets.
#[derive(Drop)]
pub(crate) struct Contribution {
    pub faces: UnsortedFaces,
    pub gone: Vec<Polygon>,
    pub border: Border,
    pub seam: Vec<Id>,
}

/// The contributions of all parts.
#[derive(Drop)]
pub(crate) struct Contributions {
    pub faces: UnsortedFaces,
    pub gone: Vec<Polygon>,
    pub borders: Vec<Border>,
    pub seam: Vec<Id>,
}

/// Returns the contribution of the part with this number, if its guess is verified.
fn given_by(alloc: Global, set: Divided, number: usize) -> Result<Option<Contribution>, Memory>
    requires { All (IsPartOf set.pts.now set.shared.now) set.parts.now }
    ensures { IfOk result (λ found. IfSome found (IsContribution set.entry.pts.now set.entry.shared.now set.entry.parts.now)) }
{
    if number >= set.parts.len() {
        return Ok(None);
    }
    let marks = marks_of(alloc, set, number)?;
    let guess = Guess {
        stay: &marks.stay,
        runs: &marks.runs,
    };
    let Some(faces) = staying_faces(alloc, set, number, guess)? else {
        return Ok(None);
    };
    let border = border_of(alloc, &marks.stay, &faces.others)?;
    Ok(Some(Contribution {
        faces: faces.chosen.as_run(),
        gone: faces.others,
        border,
        seam: marks.seam,
    }))
}

/// Returns the contributions of all parts together, if each part contributes something.
fn all_given(
    alloc: Global,
    set: Divided,
    mut made: Vec<Result<Option<Contribution>, Memory>>,
) -> Result<Option<Contributions>, Memory>
    requires { All (λ r. IfOk r (λ found. IfSome found (IsContribution set.pts.now set.shared.now set.parts.now))) made.items }
    ensures { IfOk result (λ found. IfSome found (IsGiven set.entry.pts.now set.entry.shared.now set.entry.parts.now)) }
{
    let mut faces = UnsortedFaces::none(alloc);
    let mut gone = Vec::new(alloc);
    let mut borders = Vec::new(alloc);
    let mut seam = Vec::new(alloc);
    while let Some(answer) = made.pop() {
        let found = answer?;
        let Some(mut part) = found else {
            return Ok(None);
        };
        seam.extend_from_slice(&part.seam)?;
        faces = faces.and(part.faces)?;
        gone.append(&mut part.gone)?;
        borders.push(part.border)?;
    }
    Ok(Some(Contributions {
        faces,
        gone,
        borders,
        seam,
    }))
}

/// Returns the contributions of the parts of a set, with a thread for each; `None` if the guess of one is not verified.
pub(crate) fn given_in_threads<R: Threads>(
    rt: &R,
    alloc: Global,
    set: Divided,
) -> Result<Option<Contributions>, Memory>
    requires { All (IsPartOf set.pts.now set.shared.now) set.parts.now }
    ensures { IfOk result (λ found. IfSome found (IsGiven set.entry.pts.now set.entry.shared.now set.entry.parts.now)) }
{
    let made = map_indices(
        rt,
        alloc,
        set.parts.len(),
        &move |number: usize| -> Result<Option<Contribution>, Memory>
            requires { All (IsPartOf set.pts.now set.shared.now) set.parts.now }
            ensures { IfOk result (λ found. IfSome found (IsContribution set.entry.pts.now set.entry.shared.now set.entry.parts.now)) }
        { given_by(alloc, set, number) },
    )?;
    all_given(alloc, set, made)
}
