//! The judgement on the faces in a text, for the points of a source.
ghost use Rattle.std.specs.Prelude.{◌≤◌, ◌<◌, ◌-◌, ◌^◌, IfErr, IfOk, length};
ghost use Rattle.qh_model.specs.declared.limits.TheConstants.{POINT_LIMIT};
ghost use Rattle.qh_read.specs.headline.SourceBytes.{GivesAll};
ghost use Rattle.qh_check.specs.contract.Judging.{IsJudgement};
ghost use Rattle.hullcheck.specs.contract.{Checking.IsCheckFault, Judging.IsTold, Judging.named_points};

use crate::fault::Fault;
use qh_check::{Judgement, judge_faces};
use qh_model::{Form, Memory, Point};
use qh_read::faces::{Faces, Layout, Reading, read_faces};
use qh_read::{Source, read_form_threads};
use std::alloc::Global;
use std::thread::Threads;

/// Returns the judgement on faces, whose numbers name their vertices or the points of the set.
fn judge<R: Threads + Sync>(
    rt: &R,
    alloc: Global,
    pts: &[Point],
    faces: &Faces,
    layout: Layout,
    threads: u32,
) -> Result<Judgement, Memory>
    requires some { 0 < length pts.now }
    requires few { length pts.now ≤ POINT_LIMIT }
    ensures { IfOk result (IsJudgement pts.now (named_points layout pts.now faces.now.vertices.items) faces.now.polygons.items) }
{
    let named = match layout {
        Layout::Off => faces.vertices.as_slice(),
        Layout::Counted | Layout::Lines => pts,
    };
    judge_faces(rt, alloc, pts, named, &faces.polygons, threads)
}

/// Returns the judgement on the faces in a text, for the points of a source, with at most `threads` threads.
///
/// # Errors
///
/// `Points` or `Faces` with the first fault of that input, and `Memory` if an allocation failed.
pub fn check_streams<R: Threads + Sync, S: Source>(
    rt: &R,
    alloc: Global,
    points: &mut S,
    text: &[u8],
    reading: Reading,
    threads: u32,
) -> Result<Judgement, Fault>
    requires { S.failure_count points.old < 2 ^ 64 - 1 }
    ensures told { IfOk result (λ j. GivesAll (S.remaining points.old) (S.remaining points.new)
        (λ bytes. IsTold reading bytes text.now j)) }
    ensures fault { IfErr result (IsCheckFault reading (S.remaining points.old) (S.remaining points.new)
        (S.failure_count points.old < S.failure_count points.new) text.now) }
{
    let pts = read_form_threads(rt, alloc, threads as usize, Form::Qhull, points).map_err(
        Fault::Points,
    )?;
    let faces = read_faces(alloc, text, reading).map_err(Fault::Faces)?;
    let judgement = judge(rt, alloc, &pts, &faces, reading.layout, threads)?;
    Ok(judgement)
}
