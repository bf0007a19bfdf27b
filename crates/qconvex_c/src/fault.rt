//! The codes of the two calls.
ghost use Rattle.std.specs.Prelude.{◌≡◌};
ghost use Rattle.qconvex_c.specs.steps.Codes.{code_of};

use crate::code::{MEMORY, NO_POINT, RANGE, ROOM, TOO_MANY};
use qh_model::Memory;

/// Why a call fails.
#[derive(Clone, Copy, Debug, PartialEq, Eq, Drop)]
pub enum Fault {
    /// There is no point.
    NoPoint,
    /// There are more than `POINT_LIMIT` points.
    TooMany,
    /// A coordinate is out of range.
    Range,
    /// An allocation failed.
    Memory,
    /// A buffer is too short.
    Room,
}

impl Fault {
    /// Returns the code of this fault for C.
    pub fn code(self) -> u32
        ensures { result ≡ code_of self }
    {
        match self {
            Fault::NoPoint => NO_POINT,
            Fault::TooMany => TOO_MANY,
            Fault::Range => RANGE,
            Fault::Memory => MEMORY,
            Fault::Room => ROOM,
        }
    }
}

impl From<Memory> for Fault {
    ghost use Rattle.std.specs.Prelude.{◌≡◌};
    ghost use Rattle.qconvex_c.specs.declared.fault.Fault.TheVariants as faults;

    ghost from_gives = { λ _ f. f ≡ faults.Memory };

    fn from(_memory: Memory) -> Fault {
        Fault::Memory
    }
}
