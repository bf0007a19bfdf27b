//! The texts of `rank` and `s`.
ghost use Rattle.std.specs.Prelude.{◌≡◌, ◌++◌, OnOk, codes, decimal};
ghost use Rattle.qh_model.specs.headline.Text.{line, rank_text, given_text, found_text, summary_text};

use super::lines::{push_line_end, push_number, push_spaced};
use qh_model::{Body, Hull};
use std::alloc::AllocError;

/// Appends the line of `rank`.
pub fn push_rank(text: &mut Vec<u8>, hull: &Hull) -> Result<(), AllocError>
    ensures { OnOk result (text.new.items ≡ text.old.items ++ rank_text hull.now) }
{
    push_number(text, u64::from(hull.given))?;
    push_spaced(text, u64::from(hull.distinct))?;
    push_spaced(text, u64::from(hull.body.dim))?;
    push_line_end(text)
}

/// Appends a line with a label and a number.
fn push_labelled(text: &mut Vec<u8>, label: &[u8], number: u64) -> Result<(), AllocError>
    ensures { OnOk result (text.new.items ≡ text.old.items ++ line (label.now ++ decimal number)) }
{
    text.extend_from_slice(label)?;
    push_number(text, number)?;
    push_line_end(text)
}

/// Appends the first line of `s`.
#[tactic(auto, using(std::proofs::Common::append_assoc))]
fn push_title(text: &mut Vec<u8>, given: u32) -> Result<(), AllocError>
    ensures { OnOk result (text.new.items ≡ text.old.items ++ line (codes "Convex hull of " ++ decimal given ++ codes " points in 3-d:")) }
{
    text.extend_from_slice(b"Convex hull of ")?;
    push_number(text, u64::from(given))?;
    text.extend_from_slice(b" points in 3-d:")?;
    push_line_end(text)
}

/// Appends the lines about the input.
#[tactic(auto, using(std::proofs::Common::append_assoc))]
fn push_given(text: &mut Vec<u8>, hull: &Hull) -> Result<(), AllocError>
    ensures { OnOk result (text.new.items ≡ text.old.items ++ given_text hull.now) }
{
    push_title(text, hull.given)?;
    push_labelled(text, b"  dimension: ", u64::from(hull.body.dim))?;
    push_labelled(text, b"  distinct points: ", u64::from(hull.distinct))
}

/// Appends the lines about the hull.
#[tactic(auto, using(std::proofs::Common::append_assoc))]
fn push_found(text: &mut Vec<u8>, body: &Body) -> Result<(), AllocError>
    ensures { OnOk result (text.new.items ≡ text.old.items ++ found_text body.now) }
{
    push_labelled(text, b"  extreme points: ", body.extremes.len() as u64)?;
    push_labelled(text, b"  facets: ", body.polygons.len() as u64)?;
    push_labelled(text, b"  edges: ", body.edges)
}

/// Appends the six lines of `s`.
pub fn push_summary(text: &mut Vec<u8>, hull: &Hull) -> Result<(), AllocError>
    ensures { OnOk result (text.new.items ≡ text.old.items ++ summary_text hull.now) }
{
    push_given(text, hull)?;
    push_found(text, &hull.body)
}
