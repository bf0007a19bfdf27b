//! The reasons why a piece is refused, and their conversion to faults of reading.
ghost use Rattle.std.specs.Prelude.{◌≡◌};
ghost use Rattle.qh_model.specs.declared.read_fault.ReadFault.TheVariants as faults;
ghost use Rattle.qh_read.specs.{contract.ReadFaults.read_fault, declared.fault.FeedFault.TheVariants.Memory};

use crate::source::DeviceFault;
use qh_model::ReadFault;
use std::alloc::AllocError;

/// Why a piece is refused.
#[derive(Clone, Copy, Debug, PartialEq, Eq)]
pub enum FeedFault {
    /// There would be more than `BYTE_LIMIT` bytes.
    Big,
    /// An allocation failed.
    Memory,
}

impl From<AllocError> for FeedFault {
    ghost from_gives = { λ _ e. e ≡ Memory };

    fn from(_: AllocError) -> FeedFault {
        FeedFault::Memory
    }
}

impl From<FeedFault> for ReadFault {
    ghost from_gives = { λ f e. e ≡ read_fault f };

    fn from(fault: FeedFault) -> ReadFault {
        match fault {
            FeedFault::Big => ReadFault::Big,
            FeedFault::Memory => ReadFault::Memory,
        }
    }
}

impl From<DeviceFault> for ReadFault {
    ghost from_gives = { λ _ e. e ≡ faults.Device };

    fn from(_: DeviceFault) -> ReadFault {
        ReadFault::Device
    }
}
