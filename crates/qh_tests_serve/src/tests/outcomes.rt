//! Calls of `answer` and `serve` with settings given by their parts, and the outcomes as texts, to be compared.

use qh_command::{Settings, SettingsError};
use qh_fixtures::Host;
use qh_model::Form;
use qh_read::MemSource;
use qh_run::Gate;
use qh_serve::{Fault, answer, serve};
use qh_write::{MemSink, Out};
use std::alloc::{AllocError, Global};
use std::test::Fail;

/// The parts of settings, from which [`Asked::settings`] creates them.
#[derive(Clone, Copy, Debug)]
pub struct Asked<'a> {
    /// The number of workers.
    pub workers: u32,
    /// The number of points of a block.
    pub block: u32,
    /// The outputs, in their order.
    pub outs: &'a [Out],
    /// The form of the input.
    pub form: Form,
}

/// The summary, with the default settings of the program's command line.
pub const SUMMARY: Asked<'static> = Asked {
    workers: 4,
    block: 4096,
    outs: &[Out::Summary],
    form: Form::Qhull,
};

/// The parts of [`SUMMARY`], with other outputs.
macro_rules! asked_for {
    ($($out:ident),*) => { Asked { outs: &[$(Out::$out),*], ..SUMMARY } };
}

pub const RANK: Asked<'static> = asked_for!(Rank);

pub const FX: Asked<'static> = asked_for!(Fx);

pub const OFF: Asked<'static> = asked_for!(Off);
/// The faces of an OFF file cut into fans of triangles.
pub const OFFT: Asked<'static> = asked_for!(OffTriangles);

impl Asked<'_> {
    /// Returns these parts with another number of workers and another size of blocks.
    pub fn by(self, workers: u32, block: u32) -> Self {
        Asked {
            workers,
            block,
            ..self
        }
    }

    /// Returns the settings of these parts.
    pub fn settings(&self, alloc: Global) -> Result<Settings, SettingsError> {
        Settings::new(alloc, self.workers, self.block, self.outs, self.form)
    }

    /// Returns the outcome of `answer` for an input. The gate observes the workers.
    pub fn answered<G: Gate>(&self, rt: &impl Host, input: &[u8], gate: &G) -> Answered {
        let settings = self.settings(rt.alloc())?;
        let text = answer(rt, rt.alloc(), input, &settings, gate);
        let text = text.as_ref().map(|text| text.as_slice());
        Ok(Outcome::of(rt.alloc(), text)?)
    }

    /// Returns the outcome of `serve` for an input, with devices in memory. The gate observes the workers.
    pub fn served<G: Gate>(&self, rt: &impl Host, input: &[u8], gate: &G) -> Answered {
        let settings = self.settings(rt.alloc())?;
        let (mut source, mut sink) = (MemSource::new(input), MemSink::new(rt.alloc()));
        let sent = serve(rt, rt.alloc(), &mut source, &mut sink, &settings, gate);
        let text = sent.as_ref().map(|_| sink.bytes());
        Ok(Outcome::of(rt.alloc(), text)?)
    }
}

/// A text, or the line of a fault with its exit status.
#[derive(Drop)]
pub struct Outcome {
    /// The text, empty after a fault.
    pub output: String,
    /// The line of the fault, empty without one.
    pub error: String,
    /// The exit status.
    pub status: u8,
}

/// The outcome of a call, unless the settings are refused.
pub type Answered = Result<Outcome, Fail>;

/// The expected values of an outcome: its output, its error and its status.
pub type Told<'a> = (&'a str, &'a str, u8);

impl Outcome {
    /// Returns the outcome of a call; bytes that are not a text are shown as `not text`.
    pub fn of(alloc: Global, told: Result<&[u8], &Fault>) -> Result<Outcome, AllocError> {
        Ok(match told {
            Ok(bytes) => Outcome {
                output: String::from_str(alloc, str::from_utf8(bytes).unwrap_or("not text"))?,
                error: String::new(alloc),
                status: 0,
            },
            Err(fault) => Outcome {
                output: String::new(alloc),
                error: fault.to_string(alloc)?,
                status: fault.status(),
            },
        })
    }

    /// Returns the outcome as texts and a number.
    pub fn told(&self) -> Told<'_> {
        (self.output.as_str(), self.error.as_str(), self.status)
    }
}

/// Appends a point to the text of a point file, as a line.
pub fn push_point(text: &mut String, alloc: Global, point: [i64; 3]) -> Result<(), AllocError> {
    for coordinate in point {
        text.push_str(coordinate.to_string(alloc)?.as_str())?;
        text.push_str(" ")?;
    }
    text.push_str("\n")
}
