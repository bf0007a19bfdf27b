//! The number of edges of fans. Each pair of neighbours is one number; the numbers are sorted, and equal ones are
//! counted once.
ghost use Rattle.std.specs.Prelude.{◌≡◌, IfOk, OnOk, [], ◌∷◌, min, max};
ghost use Rattle.qh_model.specs.headline.Fan.{fan, fans, pairs_round, edge_count};
ghost use Rattle.qh_write.specs.steps.EdgeKeys.{AddsPairs, pairs_of};

use qh_model::keys::Packed;
use qh_model::{Id, Polygon, Sides};
use std::alloc::{AllocError, Global};

/// Appends the number of two neighbours, unless they are equal.
fn push_pair(keys: &mut Vec<Packed>, u: Id, v: Id) -> Result<(), AllocError>
    ensures { OnOk result (AddsPairs ((min u v, max u v) ∷ []) keys.old.items keys.new.items) }
{
    let (u, v) = (u.number(), v.number());
    if u != v {
        keys.push(Packed::new(u.min(v), u.max(v)))?;
    }
    Ok(())
}

/// Appends the numbers of the pairs of neighbours around a face.
fn push_round(keys: &mut Vec<Packed>, face: &[Id]) -> Result<(), AllocError>
    ensures { OnOk result (AddsPairs (pairs_round face.now) keys.old.items keys.new.items) }
{
    for (from, to) in Sides::of(face) {
        push_pair(keys, from, to)?;
    }
    Ok(())
}

/// Appends the numbers of the pairs of neighbours in a fan.
fn push_fan(keys: &mut Vec<Packed>, face: &Polygon) -> Result<(), AllocError>
    ensures { OnOk result (AddsPairs (pairs_of (fan face.now)) keys.old.items keys.new.items) }
{
    if face.ids().len() < 3 {
        return push_round(keys, face.ids());
    }
    for triangle in face.fan() {
        push_round(keys, &triangle)?;
    }
    Ok(())
}

/// Returns the number of edges of the fans of faces; `count` is the number of faces of the fans, which determines the
/// memory.
pub fn fan_edges(alloc: Global, faces: &[Polygon], count: usize) -> Result<usize, AllocError>
    ensures { IfOk result (λ n. n ≡ edge_count (fans faces.now)) }
{
    let mut keys = Vec::with_capacity(alloc, count.saturating_mul(3))?;
    for face in faces {
        push_fan(&mut keys, face)?;
    }
    keys.sort_unstable();
    keys.dedup();
    Ok(keys.len())
}
