// Why a sample was not replayed to its end.
ghost use Rattle.std.specs.Prelude.{◌≡◌};

use std::{fmt, io};

#[derive(Debug, Clone, Copy, PartialEq, Eq)]
pub enum Fault {
    NotASample,
    Broken,
}

impl fmt::Display for Fault {
    fn fmt<W: fmt::Write>(&self, f: &mut fmt::Formatter<W>) -> fmt::Result {
        match self {
            Fault::NotASample => write!(f, "not a sample"),
            Fault::Broken => write!(f, "the sample is short, damaged or too long"),
        }
    }
}

// A read fails where the sample is short, and a trial says `InvalidData` of a part that cannot be.
impl From<io::Error> for Fault {
    ghost use Rattle.samples.specs.declared.fault.Fault.{Fault};

    ghost from_gives = { λ _ r. r ≡ Fault.Broken };

    fn from(_e: io::Error) -> Fault {
        Fault::Broken
    }
}
