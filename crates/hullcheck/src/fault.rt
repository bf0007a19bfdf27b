//! The faults that keep the program from a verdict.
ghost use Rattle.std.specs.Prelude.{◌≡◌, Some};
ghost use Rattle.hullcheck.specs.contract.Statuses.{fault_status};
ghost use Rattle.hullcheck.specs.contract.FaultTexts.{fault_text, read_fault_text};
ghost use Rattle.hullcheck.specs.declared.fault.Fault.TheVariants.{Memory};

use qh_model::{Memory, ReadFault};
use std::fmt;

/// Why there is no verdict.
#[derive(Clone, Copy, Debug, PartialEq, Eq)]
pub enum Fault {
    /// The command line is invalid.
    Usage,
    /// An allocation failed.
    Memory,
    /// The judgement could not be written.
    Output,
    /// The points could not be read; with `Device`, also if their file could not be opened.
    Points(ReadFault),
    /// The faces could not be read; with `Device`, also if their file could not be opened.
    Faces(ReadFault),
}

impl Fault {
    /// Returns the exit status.
    pub fn status(self) -> u8
        ensures { result ≡ fault_status self }
    {
        match self {
            Fault::Usage => 2,
            Fault::Memory => 3,
            Fault::Output => 4,
            Fault::Points(fault) | Fault::Faces(fault) => match fault {
                ReadFault::Memory => 3,
                ReadFault::Device => 4,
                _ => 5,
            },
        }
    }
}

impl From<Memory> for Fault {
    ghost from_gives = { λ _ e. e ≡ Memory };

    fn from(_memory: Memory) -> Fault {
        Fault::Memory
    }
}

/// A fault of a file, displayed as its line on standard error.
#[derive(Drop)]
struct Words(ReadFault);

impl fmt::Display for Words {
    ghost output = { λ w. Some (read_fault_text w.0) };

    fn fmt<W: fmt::Write>(&self, f: &mut fmt::Formatter<W>) -> fmt::Result {
        match self.0 {
            ReadFault::NoHeader => write!(f, "NoHeader"),
            ReadFault::BadNumber(line) => write!(f, "BadNumber at line {line}"),
            ReadFault::NotThree => write!(f, "NotThree"),
            ReadFault::Count => write!(f, "Count"),
            ReadFault::Range(line) => write!(f, "Range at line {line}"),
            ReadFault::Long(line) => write!(f, "Long at line {line}"),
            ReadFault::Short => write!(f, "Short"),
            ReadFault::Memory => write!(f, "out of memory"),
            ReadFault::Device => write!(f, "the file could not be read"),
            ReadFault::Big => write!(f, "Big"),
            ReadFault::NotOff => write!(f, "NotOff"),
        }
    }
}

impl fmt::Display for Fault {
    ghost output = { λ f. Some (fault_text f) };

    fn fmt<W: fmt::Write>(&self, f: &mut fmt::Formatter<W>) -> fmt::Result {
        match self {
            Fault::Usage => write!(
                f,
                "usage: hullcheck [--workers N] [--indices | --counted] [--clockwise] POINTS [FACES]"
            ),
            Fault::Memory => write!(f, "hullcheck: out of memory"),
            Fault::Output => write!(f, "hullcheck: the judgement could not be written"),
            Fault::Points(fault) => write!(f, "hullcheck: the points: {}", Words(*fault)),
            Fault::Faces(fault) => write!(f, "hullcheck: the faces: {}", Words(*fault)),
        }
    }
}
