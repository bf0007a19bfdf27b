//! The faults of a file of points.
ghost use Rattle.std.specs.Prelude.{◌≡◌};
ghost use Rattle.qh_model.specs.declared.read_fault.ReadFault.TheVariants as faults;

use std::alloc::AllocError;

/// Why a point file or an OFF file could not be read. Lines are counted from 1, and a line ends at byte 10.
///
/// Each fault has the number of its place in this list, from 1, except `NotOff`, which has 14. The first seven and
/// `NotOff` are faults of the text; the first one in reading order is reported. `Big` has precedence over all of them.
#[derive(Clone, Copy, Debug, PartialEq, Eq)]
pub enum ReadFault {
    /// There are fewer than two data words; or an OFF file has no keyword, or fewer than three words after it.
    NoHeader,
    /// A word on this line is not a number where a number is required.
    BadNumber(u32),
    /// Neither number of the header is 3.
    NotThree,
    /// The count of points is not from 1 to `POINT_LIMIT`.
    Count,
    /// A coordinate on this line is past `COORDINATE_LIMIT`.
    Range(u32),
    /// This line has a data word after the last coordinate.
    Long(u32),
    /// The text ends before the last coordinate.
    Short,
    /// An allocation failed.
    Memory,
    /// The source of the bytes failed.
    Device,
    /// There are more than `BYTE_LIMIT` bytes.
    Big,
    /// The first word of an OFF file is not `OFF`.
    NotOff,
}

impl From<AllocError> for ReadFault {
    ghost from_gives = { λ _ e. e ≡ faults.Memory };

    fn from(_: AllocError) -> ReadFault {
        ReadFault::Memory
    }
}
