// Why a file is refused.
ghost use Rattle.std.specs.Prelude.{◌≡◌, Some};
ghost use Rattle.checker.specs.declared.fault.FileFault.TheVariants.{Bytes, Run};
ghost use Rattle.checker.specs.Faults.{number_of, layer_of, refusal_of, refusal_text};

use model::Layer;
use record::{ByteFault, ByteRefusal};
use run::RunFault;
use std::error::Error;
use std::fmt;

#[derive(Clone, Copy, PartialEq, Eq, Debug)]
pub enum FileFault {
    // its bytes are no heading, no job number or no event, or too many
    Bytes(ByteFault),
    // the run refuses an event
    Run(RunFault),
}

impl From<ByteFault> for FileFault {
    ghost from_gives = { λ fault r. r ≡ Bytes fault };

    fn from(fault: ByteFault) -> FileFault {
        FileFault::Bytes(fault)
    }
}

impl From<RunFault> for FileFault {
    ghost from_gives = { λ fault r. r ≡ Run fault };

    fn from(fault: RunFault) -> FileFault {
        FileFault::Run(fault)
    }
}

impl FileFault {
    // The number by which the fault is known.
    pub fn number(self) -> u8
        ensures value { result ≡ number_of self }
    {
        match self {
            FileFault::Bytes(fault) => fault.number(),
            FileFault::Run(fault) => fault.number(),
        }
    }

    // The layer that it comes from.
    pub fn layer(self) -> Layer
        ensures value { result ≡ layer_of self }
    {
        match self {
            FileFault::Bytes(fault) => fault.layer(),
            FileFault::Run(fault) => fault.layer(),
        }
    }

    // The fault at its byte.
    pub fn at(self, byte: usize) -> FileRefusal
        ensures fault { result.fault ≡ self }
        ensures byte { result.byte ≡ byte }
    {
        FileRefusal { fault: self, byte }
    }
}

// A fault, and the first byte of what is refused: the heading, the job number, an event, or what is too much.
#[derive(Clone, Copy, PartialEq, Eq, Debug)]
pub struct FileRefusal {
    pub fault: FileFault,
    pub byte: usize,
}

impl From<ByteRefusal> for FileRefusal {
    ghost from_gives = { λ refusal r. r ≡ refusal_of refusal };

    fn from(refusal: ByteRefusal) -> FileRefusal {
        FileFault::from(refusal.fault).at(refusal.place)
    }
}

impl Error for FileRefusal {}

impl fmt::Display for FileRefusal {
    ghost output = { λ r. Some (refusal_text r) };

    fn fmt<W: fmt::Write>(&self, f: &mut fmt::Formatter<W>) -> fmt::Result {
        write!(
            f,
            "refused {} layer {} byte {}",
            self.fault.number(),
            self.fault.layer(),
            self.byte
        )
    }
}
