//! Workers that are blocked until other workers have made a step, which succeeds only if they run in parallel.
//!
//! The points are those of an octahedron and the middles of its edges, in blocks of 3. The gates accept only the list
//! of the extreme ids for the hull.
ghost use Rattle.std.specs.Prelude.{◌≤◌, length};
ghost use Rattle.qh_model.specs.declared.limits.TheConstants.{POINT_LIMIT};

use crate::tests::outcomes::{Answered, Asked, OFF, Outcome};
use qh_command::Settings;
use qh_fixtures::Host;
use qh_fixtures::files::{OCTAHEDRON, OCTAHEDRON_OFF};
use qh_fixtures::ids::are;
use qh_fixtures::points::octahedron;
use qh_model::{Body, Cut, Id, Memory, Point};
use qh_plane::distinct;
use qh_read::ReadFault;
use qh_run::{Gate, NoGate, RunError, run_hull};
use qh_serve::Fault;
use qh_write::text;
use std::alloc::Global;
use std::sync::atomic::{AtomicU64, Ordering};
use std::test::Fail;

/// The greatest number of turns for which a worker is blocked.
const TURNS: u64 = 1000000000;

/// The extreme ids.
const EXTREMES: [u32; 6] = [0, 2, 3, 5, 6, 9];

/// The blocks that are held after they are claimed.
#[derive(Clone, Copy, Debug, Drop)]
enum Holds {
    /// Block 0, until block 1 was delivered.
    FirstUntilSecond,
    /// Blocks 0, 1 and 2, until all three were claimed.
    ThreeUntilAll,
}

/// A gate that holds blocks.
#[derive(Drop)]
struct Hold {
    holds: Holds,
    /// The number of awaited events that have happened.
    came: AtomicU64,
    /// The number of workers that continued before all events had happened.
    late: AtomicU64,
}

impl Hold {
    fn new(holds: Holds) -> Hold {
        let (came, late) = (AtomicU64::new(0), AtomicU64::new(0));
        Hold { holds, came, late }
    }

    /// Counts an event.
    fn tell(&self) {
        self.came.fetch_add(1, Ordering::SeqCst);
    }

    /// Waits until a number of events have happened, for at most `TURNS` turns.
    fn wait(&self, events: u64) {
        for _ in 0..TURNS {
            if self.came.load(Ordering::SeqCst) >= events {
                return;
            }
        }
        self.late.fetch_add(1, Ordering::SeqCst);
    }

    /// Returns true if the events happened before any worker continued.
    fn came_in_time(&self) -> bool {
        self.came.load(Ordering::SeqCst) > 0 && self.late.load(Ordering::SeqCst) == 0
    }
}

impl Gate for Hold {
    fn claimed(&self, _pass: u32, block: u32) {
        match self.holds {
            Holds::FirstUntilSecond if block == 0 => self.wait(1),
            Holds::ThreeUntilAll if block < 3 => {
                self.tell();
                self.wait(3);
            }
            _ => (),
        }
    }

    fn delivered(&self, _pass: u32, block: u32) {
        match self.holds {
            Holds::FirstUntilSecond if block == 1 => self.tell(),
            _ => (),
        }
    }

    fn finish(&self, alloc: Global, pts: &[Point], ids: &[Id]) -> Result<Body, Memory> {
        if !are(ids, &EXTREMES) {
            return Err(Memory);
        }
        NoGate.finish(alloc, pts, ids)
    }
}

/// A gate that returns no hull.
struct NoHull;

impl Gate for NoHull {
    fn finish(&self, _alloc: Global, _pts: &[Point], _ids: &[Id]) -> Result<Body, Memory> {
        Err(Memory)
    }
}

/// The calls that a gate observes.
#[derive(Clone, Copy, Debug, Drop)]
pub(super) enum Watched {
    RunHull,
    Answer,
    Serve,
}

/// All of these calls.
pub(super) const WATCHED: [Watched; 3] = [Watched::RunHull, Watched::Answer, Watched::Serve];

/// Returns the text of the hull that `run_hull` computes for the points, in blocks of 3.
fn text_by<G: Gate>(
    rt: &impl Host,
    alloc: Global,
    points: &[Point],
    settings: &Settings,
    gate: &G,
) -> Result<Vec<u8>, RunError>
    requires { length points.now ≤ POINT_LIMIT }
{
    let ids = distinct(rt, alloc, points)?;
    let bounds = Vec::from_slice(alloc, &[0, 3, 6, 9, 12, 15, 18]).map_err(|_| RunError::Memory)?;
    let cut = Cut::from_bounds(bounds).map_err(|_| RunError::Memory)?;
    if ids.len() != 18 {
        return Err(RunError::Memory);
    }
    let hull = run_hull(rt, alloc, points, &ids, &cut, settings.workers(), gate)?;
    Ok(text(alloc, &hull, points, settings.outs())?)
}

/// Returns the outcome of `run_hull`, observed by a gate.
fn hulled_by<G: Gate>(rt: &impl Host, asked: Asked, gate: &G) -> Answered {
    let alloc = rt.alloc();
    let settings = asked.settings(alloc)?;
    match text_by(rt, alloc, &octahedron(), &settings, gate) {
        Ok(text) => Ok(Outcome::of(alloc, Ok(&text))?),
        Err(RunError::Memory) => Ok(Outcome::of(alloc, Err(&Fault::Read(ReadFault::Memory)))?),
        Err(RunError::BadWorkers) => Err("the workers are in range".into()),
    }
}

/// Returns the outcome of a call on the points with settings, observed by a gate.
pub(super) fn outcome_by<G: Gate>(rt: &impl Host, by: Watched, asked: Asked, gate: &G) -> Answered {
    match by {
        Watched::RunHull => hulled_by(rt, asked, gate),
        Watched::Answer => asked.answered(rt, OCTAHEDRON.as_bytes(), gate),
        Watched::Serve => asked.served(rt, OCTAHEDRON.as_bytes(), gate),
    }
}

/// Asserts that no other worker waits for the blocks that a gate holds, and that the result is the same.
fn assert_held(rt: &impl Host, watched: Watched, asked: Asked, holds: Holds) -> Result<(), Fail> {
    let gate = Hold::new(holds);
    let outcome = outcome_by(rt, watched, asked, &gate)?;
    assert!(rt; gate.came_in_time(), "{watched:?}, {holds:?}");
    assert_eq!(rt; outcome.told(), (OCTAHEDRON_OFF, "", 0));
    Ok(())
}

#[test]
fn workers_run_at_once(rt: HostRuntime) -> Result<(), Fail> {
    for watched in WATCHED {
        for (workers, holds) in [(2, Holds::FirstUntilSecond), (3, Holds::ThreeUntilAll)] {
            assert_held(&rt, watched, OFF.by(workers, 3), holds)?;
        }
    }
    Ok(())
}

#[test]
fn the_gate_takes_the_hull(rt: HostRuntime) -> Result<(), Fail> {
    for watched in WATCHED {
        for asked in [OFF.by(1, 3), OFF.by(3, 3), OFF] {
            let outcome = outcome_by(&rt, watched, asked, &NoHull)?;
            let want = ("", "qconvex: 8: Memory", 3);
            assert_eq!(rt; outcome.told(), want, "{watched:?} at {asked:?}");
        }
    }
    Ok(())
}
