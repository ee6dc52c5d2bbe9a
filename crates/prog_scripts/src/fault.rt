//! Why a text was not played.
ghost use Rattle.std.specs.Prelude.{◌≡◌};
ghost use Rattle.prog_scripts.specs.declared.fault.PlayFault.TheVariants.{NoMemory, Write as CannotWrite};

use roll_game::NoMemory as GameFault;
use roll_text::{ReadFault, WriteFault};
use std::alloc::{AllocError, AllocFailed};
use std::error::Error;
use std::fmt::{self, Display, Formatter};

/// Why a text was not played or certified to its end.
#[derive(Clone, Copy, Debug, PartialEq, Eq)]
pub enum PlayFault {
    /// The first line that can't be read, counted from 1; 0 where the text is too long.
    Unreadable(u64),
    /// A growth was refused. Nothing was written.
    NoMemory,
    /// The reader failed, if only because it was interrupted. Nothing was written.
    Read,
    /// The writer failed, if only because it was interrupted, or took nothing, with a part of the output unwritten.
    Write,
}

impl Display for PlayFault {
    ghost use Rattle.std.specs.Prelude.{Some};
    ghost use Rattle.prog_scripts.specs.PlayFaults.{fault_text};

    ghost output = { λ fault. Some (fault_text fault) };

    fn fmt<W: fmt::Write>(&self, f: &mut Formatter<W>) -> fmt::Result {
        match self {
            PlayFault::Unreadable(line) => write!(f, "unreadable: line {line}"),
            PlayFault::NoMemory => f.write_str("out of memory"),
            PlayFault::Read => f.write_str("cannot read"),
            PlayFault::Write => f.write_str("cannot write"),
        }
    }
}

impl Error for PlayFault {}

impl From<AllocError> for PlayFault {
    ghost from_gives = { λ _ fault. fault ≡ NoMemory };

    fn from(_error: AllocError) -> PlayFault {
        PlayFault::NoMemory
    }
}

impl<T: Drop> From<AllocFailed<T>> for PlayFault {
    ghost from_gives = { λ _ fault. fault ≡ NoMemory };

    fn from(_error: AllocFailed<T>) -> PlayFault {
        PlayFault::NoMemory
    }
}

impl From<GameFault> for PlayFault {
    ghost from_gives = { λ _ fault. fault ≡ NoMemory };

    fn from(_error: GameFault) -> PlayFault {
        PlayFault::NoMemory
    }
}

impl From<ReadFault> for PlayFault {
    ghost use Rattle.std.specs.Prelude.{◌≡◌};
    ghost use Rattle.prog_scripts.specs.PlayFaults.{fault_of_read};

    ghost from_gives = { λ error fault. fault ≡ fault_of_read error };

    fn from(error: ReadFault) -> PlayFault {
        match error {
            ReadFault::TooLong => PlayFault::Unreadable(0),
            ReadFault::NoMemory => PlayFault::NoMemory,
            ReadFault::Read => PlayFault::Read,
        }
    }
}

impl From<WriteFault> for PlayFault {
    ghost from_gives = { λ _ fault. fault ≡ CannotWrite };

    fn from(_error: WriteFault) -> PlayFault {
        PlayFault::Write
    }
}
