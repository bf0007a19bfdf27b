//! The text of outputs that are all the rank.
//!
//! The rank consists of three numbers and needs no hull. The points have a hull with these numbers by the law
//! `qh_laws::existence::every_list_has_a_text`.
ghost use Rattle.std.specs.Prelude.{◌≡◌, ◌↔◌, ◌≤◌, ◌<◌, All, IfOk, IsTrue, length};
ghost use Rattle.qh_model.specs.declared.{limits.TheConstants.POINT_LIMIT, out.Out.TheVariants.Rank};
ghost use Rattle.qh_model.specs.headline.{DistinctIds.AreDistinctIds, Text.IsText};

use qh_model::{Body, Hull, Id, Memory, Point};
use qh_polygon::rank;
use qh_write::{Out, text};
use std::alloc::Global;

/// Returns true if each output is the rank.
pub(crate) fn are_all_ranks(outs: &[Out]) -> bool
    ensures { IsTrue result ↔ All (λ out. out ≡ Rank) outs.now }
{
    outs.iter().all(|out| *out == Out::Rank)
}

/// Returns the text of outputs that are all the rank, of points with these distinct ids.
pub(crate) fn rank_text(
    alloc: Global,
    pts: &[Point],
    ids: &[Id],
    outs: &[Out],
) -> Result<Vec<u8>, Memory>
    requires some { 0 < length pts.now }
    requires few { length pts.now ≤ POINT_LIMIT }
    requires distinct { AreDistinctIds pts.now ids.now }
    requires ranks { All (λ out. out ≡ Rank) outs.now }
    ensures { IfOk result (λ t. IsText pts.now outs.now t.items) }
{
    // The three numbers of the hull; its lists do not matter for the rank.
    let numbers = Hull {
        given: pts.len() as u32,
        distinct: ids.len() as u32,
        body: Body {
            dim: rank(pts, ids).dimension(),
            extremes: Vec::new(alloc),
            polygons: Vec::new(alloc),
            edges: 0,
        },
    };
    text(alloc, &numbers, pts, outs)
}
