ghost use Rattle.std.specs.Prelude.{◌≡◌, Some};
ghost use Rattle.script.specs.declared.fault.LineFault.TheVariants.{OutOfMemory};
ghost use Rattle.script.specs.Outcomes.{fault_text};

use std::alloc::{AllocError, AllocFailed};
use std::error::Error;
use std::fmt;

// What is wrong with a line that is no call.
#[derive(Clone, Copy, Debug, PartialEq, Eq)]
pub enum LineFault {
    UnknownCall,
    UnknownSystem,
    UnknownNumbers,
    WordCount,
    NotBytes,
    NotInRange { most: u32 },
    NotYet,
    OutOfMemory,
}

impl From<AllocError> for LineFault {
    ghost from_gives = { λ _ fault. fault ≡ OutOfMemory };

    fn from(_e: AllocError) -> LineFault {
        LineFault::OutOfMemory
    }
}

impl<T: Drop> From<AllocFailed<T>> for LineFault {
    ghost from_gives = { λ _ fault. fault ≡ OutOfMemory };

    fn from(_e: AllocFailed<T>) -> LineFault {
        LineFault::OutOfMemory
    }
}

impl fmt::Display for LineFault {
    ghost output = { λ e. Some (fault_text e) };

    fn fmt<W: fmt::Write>(&self, f: &mut fmt::Formatter<W>) -> fmt::Result {
        match *self {
            LineFault::UnknownCall => f.write_str("unknown call"),
            LineFault::UnknownSystem => f.write_str("unknown class system"),
            LineFault::UnknownNumbers => f.write_str("unknown numbers"),
            LineFault::WordCount => f.write_str("wrong number of words"),
            LineFault::NotBytes => f.write_str("not bytes in pairs of hexadecimal digits"),
            LineFault::NotInRange { most } => write!(f, "not a number from 0 to {most}"),
            LineFault::NotYet => f.write_str("not yet"),
            LineFault::OutOfMemory => f.write_str("out of memory"),
        }
    }
}

impl Error for LineFault {}
