//! The faults of a run, and their exit statuses.
ghost use Rattle.std.specs.Prelude.{◌≡◌, Some};
ghost use Rattle.qh_serve.specs.contract.FaultLines.{fault_line, status_of};
ghost use Rattle.qh_serve.specs.declared.fault.Fault.TheVariants.{Read, Send};
ghost use Rattle.qh_model.specs.declared.read_fault.ReadFault.TheVariants as reads;

use qh_model::Memory;
use qh_read::ReadFault;
use qh_write::SendFault;
use std::fmt;

/// Why the program failed. The text of a fault is its line on standard error, without the line end.
#[derive(Clone, Copy, Debug, PartialEq, Eq)]
pub enum Fault {
    /// 1 to 10, and 14: the input could not be read, or an allocation failed.
    Read(ReadFault),
    /// 11: the output could not be sent.
    Send,
    /// 12: the command line is invalid.
    Usage,
}

impl Fault {
    /// Returns the exit status: 2 for the command line, 3 for memory, 4 for a device, else 1.
    pub fn status(&self) -> u8
        ensures { result ≡ status_of self.now }
    {
        match self {
            Fault::Usage => 2,
            Fault::Read(ReadFault::Memory) => 3,
            Fault::Read(ReadFault::Device) | Fault::Send => 4,
            _ => 1,
        }
    }
}

impl From<ReadFault> for Fault {
    ghost from_gives = { λ f e. e ≡ Read f };

    fn from(fault: ReadFault) -> Fault {
        Fault::Read(fault)
    }
}

impl From<Memory> for Fault {
    ghost from_gives = { λ _ e. e ≡ Read reads.Memory };

    fn from(_memory: Memory) -> Fault {
        Fault::Read(ReadFault::Memory)
    }
}

impl From<SendFault> for Fault {
    ghost from_gives = { λ _ e. e ≡ Send };

    fn from(_fault: SendFault) -> Fault {
        Fault::Send
    }
}

impl fmt::Display for Fault {
    ghost output = { λ f. Some (fault_line f) };

    fn fmt<W: fmt::Write>(&self, f: &mut fmt::Formatter<W>) -> fmt::Result {
        match self {
            Fault::Read(ReadFault::NoHeader) => write!(f, "qconvex: 1: NoHeader"),
            Fault::Read(ReadFault::BadNumber(line)) => {
                write!(f, "qconvex: 2: BadNumber at line {line}")
            }
            Fault::Read(ReadFault::NotThree) => write!(f, "qconvex: 3: NotThree"),
            Fault::Read(ReadFault::Count) => write!(f, "qconvex: 4: Count"),
            Fault::Read(ReadFault::Range(line)) => write!(f, "qconvex: 5: Range at line {line}"),
            Fault::Read(ReadFault::Long(line)) => write!(f, "qconvex: 6: Long at line {line}"),
            Fault::Read(ReadFault::Short) => write!(f, "qconvex: 7: Short"),
            Fault::Read(ReadFault::Memory) => write!(f, "qconvex: 8: Memory"),
            Fault::Read(ReadFault::Device) => write!(f, "qconvex: 9: Device"),
            Fault::Read(ReadFault::Big) => write!(f, "qconvex: 10: Big"),
            Fault::Read(ReadFault::NotOff) => write!(f, "qconvex: 14: NotOff"),
            Fault::Send => write!(f, "qconvex: 11: Send"),
            Fault::Usage => write!(f, "qconvex: 12: Usage"),
        }
    }
}
