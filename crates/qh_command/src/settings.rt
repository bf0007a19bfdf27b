//! The settings of a run, and their limits.
ghost use Rattle.std.specs.Prelude.{◌≡◌, ◌<◌, ◌↔◌, IfOk, IsErrOf};

use qh_model::{Form, Out, POINT_LIMIT, WORKER_LIMIT};
use std::alloc::Global;
use std::marker::Model;
use thiserror::Error;

/// The greatest block size: all points in one block.
pub const BLOCK_SIZE_LIMIT: u32 = POINT_LIMIT;

/// How the input is read, how the hull is computed, and which outputs are written.
///
/// A contract sees settings as their number of workers, block size, list of outputs and form of the input. The number
/// of threads changes no answer.
#[derive(Debug, Drop)]
pub struct Settings {
    workers: u32,
    threads: u32,
    block: u32,
    outs: Vec<Out>,
    form: Form,
}

impl Model for Settings {
    ghost use Rattle.qh_command.specs.headline.SettingsValue.{SettingsValue};
    ghost use Rattle.qh_command.specs.contract.Ranges.{IsInRange, IsWorkers};

    ghost Value = { SettingsValue };

    ghost view = { λ s. record { workers = s.workers; block = s.block; outs = s.outs.items; form = s.form } };

    ghost invariant = { λ s. IsInRange s.workers s.block × IsWorkers s.threads };
}

/// Why settings were refused.
#[derive(Clone, Copy, Debug, PartialEq, Eq, Drop, Error)]
pub enum SettingsError {
    /// The number of workers is not from 1 to `WORKER_LIMIT`.
    #[error("the number of workers is not from 1 to 64")]
    BadWorkers,
    /// The block size is not from 1 to `BLOCK_SIZE_LIMIT`.
    #[error("the block size is not from 1 to 1048576")]
    BadBlock,
    /// An allocation failed.
    #[error("out of memory")]
    Memory,
}

impl Settings {
    ghost use Rattle.qh_command.specs.contract.Ranges.{IsWorkers, IsBlockSize};

    /// Creates settings with these workers, block size and outputs, for an input of this form.
    ///
    /// If several errors apply, the first in the order of `SettingsError` is returned; the allocation is the last step.
    pub fn new(
        alloc: Global,
        workers: u32,
        block: u32,
        outs: &[Out],
        form: Form,
    ) -> Result<Settings, SettingsError>
        ensures ok { IfOk result (λ s. s ≡ record { workers = workers; block = block; outs = outs.now; form = form }) }
        ensures workers { IsErrOf result SettingsError.BadWorkers ↔ (¬ (IsWorkers workers)) }
        ensures block { IsErrOf result SettingsError.BadBlock ↔ (IsWorkers workers × ¬ (IsBlockSize block)) }
    {
        if workers < 1 || workers > WORKER_LIMIT {
            return Err(SettingsError::BadWorkers);
        }
        if block < 1 || block > BLOCK_SIZE_LIMIT {
            return Err(SettingsError::BadBlock);
        }
        let Ok(outs) = Vec::from_slice(alloc, outs) else {
            return Err(SettingsError::Memory);
        };
        Ok(Settings {
            workers,
            threads: workers,
            block,
            outs,
            form,
        })
    }

    /// Returns the same settings, limited to this number of processors: no phase starts more threads, except the passes
    /// of the workers.
    pub fn on_processors(self, processors: usize) -> Settings
        ensures { result ≡ self }
    {
        let threads = (self.workers as usize).min(processors).max(1) as u32;
        Settings { threads, ..self }
    }

    /// Returns the number of threads that share each phase except the workers', from 1 to `WORKER_LIMIT`.
    pub fn threads(&self) -> u32
        ensures { IsWorkers result }
    {
        self.threads
    }

    /// Returns the number of workers that compute the hull, from 1 to `WORKER_LIMIT`.
    pub fn workers(&self) -> u32
        ensures value { result ≡ self.now.workers }
        ensures range { IsWorkers result }
    {
        self.workers
    }

    /// Returns the number of points of a block, from 1 to `BLOCK_SIZE_LIMIT`.
    pub fn block(&self) -> u32
        ensures value { result ≡ self.now.block }
        ensures range { IsBlockSize result }
    {
        self.block
    }

    /// Returns the outputs, in their order.
    pub fn outs(&self) -> &[Out]
        ensures { result.now ≡ self.now.outs }
    {
        self.outs.as_slice()
    }

    /// Returns the form of the input.
    pub fn form(&self) -> Form
        ensures { result ≡ self.now.form }
    {
        self.form
    }
}
