//! Checks if polygons are in lexicographic order.
ghost use Rattle.std.specs.Prelude.{◌↔◌, IsTrue, MatchOption};
ghost use Rattle.qh_model.specs.headline.Polygons.{ComesBefore, RiseStrictly};
ghost use Rattle.qh_bodies.specs.contract.Order.{IsOutOfOrder};

use qh_model::{Id, Polygon};

/// Returns true if a list comes before another in lexicographic order.
fn comes_before(p: &[Id], q: &[Id]) -> bool
    ensures { IsTrue result ↔ ComesBefore p.now q.now }
{
    for k in 0..p.len().min(q.len()) {
        if p[k] != q[k] {
            return p[k] < q[k];
        }
    }
    p.len() < q.len()
}

/// Returns the position of the first polygon that does not come before the next.
pub fn out_of_order(polygons: &[Polygon]) -> Option<usize>
    ensures { MatchOption result (RiseStrictly polygons.now) (IsOutOfOrder polygons.now) }
{
    for next in 1..polygons.len() {
        if !comes_before(polygons[next - 1].ids(), polygons[next].ids()) {
            return Some(next - 1);
        }
    }
    None
}
