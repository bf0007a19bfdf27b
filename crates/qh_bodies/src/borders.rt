//! Checks if two lists of polygons have the same border: the steps that are not taken as often as the step back.
ghost use Rattle.std.specs.Prelude.{◌≡◌, ◌↔◌, IfOk, IsTrue, map};
ghost use Rattle.std.specs.List.Sorted.{IsNonDecreasing};
ghost use Rattle.qh_model.specs.contract.Halves.{halves};
ghost use Rattle.qh_bodies.specs.{contract.Borders.HaveOneBorder, steps.StepKeys.back, steps.StepKeys.AreStepsAndBack};

use crate::closed::{other_key, step_keys};
use qh_model::keys::Packed;
use qh_model::{Memory, Polygon};
use std::alloc::{AllocError, Global};

/// Returns keys, each reversed.
fn keys_back(alloc: Global, keys: &[Packed]) -> Result<Vec<Packed>, AllocError>
    ensures { IfOk result (λ v. map halves v.items ≡ map back (map halves keys.now)) }
{
    let mut back = Vec::with_capacity(alloc, keys.len())?;
    for key in keys {
        back.push(key.swapped())?;
    }
    Ok(back)
}

/// Returns the keys of the steps round some polygons and of the reversed steps round others, sorted.
fn steps_and_back(
    alloc: Global,
    polygons: &[Polygon],
    others: &[Polygon],
) -> Result<Vec<Packed>, AllocError>
    ensures steps { IfOk result (λ v. AreStepsAndBack polygons.now others.now v.items) }
    ensures sorted { IfOk result (λ v. IsNonDecreasing v.items) }
{
    let mut keys = step_keys(alloc, polygons)?;
    let other_keys = step_keys(alloc, others)?;
    let mut back = keys_back(alloc, &other_keys)?;
    keys.append(&mut back)?;
    keys.sort_unstable();
    Ok(keys)
}

/// Returns true if, for each step, the count of the step minus that of the step back is the same for some polygons and
/// for others. So polygons that close up with the former close up with the latter.
///
/// # Errors
///
/// `Memory` if an allocation failed.
pub fn have_one_border(
    alloc: Global,
    polygons: &[Polygon],
    others: &[Polygon],
) -> Result<bool, Memory>
    ensures { IfOk result (λ yes. IsTrue yes ↔ HaveOneBorder polygons.now others.now) }
{
    let steps = steps_and_back(alloc, polygons, others)?;
    let other_steps = steps_and_back(alloc, others, polygons)?;
    Ok(other_key(&steps, &other_steps).is_none())
}
