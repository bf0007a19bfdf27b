//! The kept ids of a set: the corners of its parts. They include all extreme ids of the set.
ghost use Rattle.std.specs.Prelude.{◌≡◌, ◌↔◌, ℕ, List, IfOk, IfSome, IsTrue};
ghost use Rattle.std.specs.List.{All, flat_map, Sorted.IsStrictlyIncreasing};
ghost use Rattle.qh_model.specs.headline.{Predicates.place, Sets.In, Vector.Vector};
ghost use Rattle.qh_laws.specs.contract.Parts.{AreKept};
ghost use Rattle.qh_parts_join.specs.contract.Parts.{ids_in, own_in, KeepsCorners, IsPartOf};

use crate::parts::{Part, are_in};
use qh_model::{Id, Memory};
use qh_polygon::rising_ids;
use std::alloc::{AllocError, Global};

/// Returns the ids of all parts, part by part.
fn ids_of_parts(alloc: Global, parts: &[Part]) -> Result<Vec<Id>, AllocError>
    ensures { IfOk result (λ v. v.items ≡ flat_map ids_in parts.now) }
{
    let mut ids = Vec::new(alloc);
    for part in parts {
        ids.extend_from_slice(&part.ids)?;
    }
    Ok(ids)
}

/// Returns the corners of all parts, part by part.
fn corners_of_parts(alloc: Global, parts: &[Part]) -> Result<Vec<Id>, AllocError>
    ensures { IfOk result (λ v. v.items ≡ flat_map own_in parts.now) }
{
    let mut ids = Vec::new(alloc);
    for part in parts {
        ids.extend_from_slice(&part.own)?;
    }
    Ok(ids)
}

/// Returns true if two lists of ids are the same.
fn are_same(ids: &[Id], others: &[Id]) -> bool
    ensures { IsTrue result → ids.now ≡ others.now }
{
    ids == others
}

/// Returns true if parts have exactly the ids of a rising list.
fn have_all(alloc: Global, parts: &[Part], ids: &[Id]) -> Result<bool, Memory>
    ensures { IfOk result (λ all. IsTrue all → (l : ℕ) → In l (flat_map ids_in parts.now) ↔ In l ids.now) }
{
    let listed = ids_of_parts(alloc, parts)?;
    let rising = rising_ids(alloc, &listed)?;
    Ok(are_same(&rising, ids))
}

/// Returns the corners of all parts and the shared ids, rising.
fn corners_and_shared(alloc: Global, parts: &[Part], shared: &[Id]) -> Result<Vec<Id>, Memory>
    ensures rising { IfOk result (λ v. IsStrictlyIncreasing v.items) }
    ensures members { IfOk result (λ v. KeepsCorners parts.now shared.now v.items) }
{
    let mut listed = corners_of_parts(alloc, parts)?;
    listed.extend_from_slice(shared)?;
    rising_ids(alloc, &listed)
}

/// Returns true if parts have exactly the ids of a set, and the shared ids are among them. Then the corners of the parts
/// and the shared ids include all extreme ids of the set. The contract allows false in every case. `ids` rise.
///
/// # Errors
///
/// `Memory` if an allocation failed.
pub fn have_ids(alloc: Global, ids: &[Id], parts: &[Part], shared: &[Id]) -> Result<bool, Memory>
    ensures inside { IfOk result (λ yes. IsTrue yes → (l : ℕ) → In l (flat_map ids_in parts.now) → In l ids.now) }
    ensures kept { IfOk result (λ yes. IsTrue yes → (kept : List ℕ) → KeepsCorners parts.now shared.now kept
        → (pts : List Vector) → All (IsPartOf pts shared.now) parts.now → AreKept (place pts) ids.now kept) }
{
    if !are_in(shared, ids) {
        return Ok(false);
    }
    let all = have_all(alloc, parts, ids)?;
    Ok(all)
}

/// Returns the kept ids of a set, rising: the corners of its parts and the shared ids. Returns `None` if the ids of the
/// parts are not exactly those of the set, or a shared id is not in it; the contract allows it in every case. `ids`
/// rise.
///
/// # Errors
///
/// `Memory` if an allocation failed.
pub fn kept_ids(
    alloc: Global,
    ids: &[Id],
    parts: &[Part],
    shared: &[Id],
) -> Result<Option<Vec<Id>>, Memory>
    ensures rising { IfOk result (λ found. IfSome found (λ v. IsStrictlyIncreasing v.items)) }
    ensures members { IfOk result (λ found. IfSome found
        (λ v. KeepsCorners parts.now shared.now v.items)) }
    ensures inside { IfOk result (λ found. IfSome found (λ v. (l : ℕ) → In l (flat_map ids_in parts.now) → In l ids.now)) }
    ensures kept { IfOk result (λ found. IfSome found (λ v. (pts : List Vector) → All (IsPartOf pts shared.now) parts.now
        → AreKept (place pts) ids.now v.items)) }
{
    let all = have_ids(alloc, ids, parts, shared)?;
    if !all {
        return Ok(None);
    }
    let kept = corners_and_shared(alloc, parts, shared)?;
    Ok(Some(kept))
}
