//! Why there is no reading, by the phase in which it stopped.

ghost use Rattle.std.specs.Prelude.{◌≡◌};
ghost use Rattle.view_ribbon.specs.Comparing.{of_one, of_others};
ghost use Rattle.view_ribbon.specs.Sources.{of_input, of_ribbon, of_sources};
ghost use Rattle.view_ribbon.specs.declared.fault.ComparisonFault.TheVariants as comparisons;
ghost use Rattle.view_ribbon.specs.declared.fault.ReadingFault.TheVariants as faults;

use desk_memory::NoMemory;
use feed_files::{FileRefusal, Kind};
use feed_stored::Unsent;
use script_answers::{Failure, Refusal};
use thiserror::Error;

// ---- the phases

/// Why the ribbon, the case and the wedge that are read for a reading give nothing.
#[derive(Clone, Copy, Debug, PartialEq, Eq)]
pub enum SourcesFault {
    /// The ribbon's file is not read, for another cause than memory: `MAX_FILE` bytes are the most.
    Ribbon(FileRefusal),
    /// The case or the wedge is not read, or is refused.
    Input(Refusal),
    NoMemory,
}

// ---- the calls

/// Why the file of a ribbon is not read or not drawn, by the phase in which it stopped.
#[derive(Clone, Copy, Debug, PartialEq, Eq, Error)]
pub enum ReadingFault {
    /// The ribbon's file is not read, for another cause than memory: `MAX_FILE` bytes are the most.
    #[error("file fault")]
    Ribbon(FileRefusal),
    /// The case or the wedge is not read, or is refused.
    #[error("input refused")]
    Input(Refusal),
    /// The writer failed, or took no byte.
    #[error("write fault")]
    Write,
    /// The picture was made, and a file of this kind stands under the target, which is left.
    #[error("not replaced")]
    Taken(Kind),
    /// The picture was made, and not stored, or what stands under the target was not read.
    #[error("file fault")]
    Unstored(FileRefusal),
    #[error("no memory")]
    NoMemory,
}

/// Why two ribbons are not compared, by the phase in which it stopped.
#[derive(Clone, Copy, Debug, PartialEq, Eq, Error)]
pub enum ComparisonFault {
    /// The first ribbon's file is not read, for another cause than memory: `MAX_FILE` bytes are the most.
    #[error("file fault")]
    One(FileRefusal),
    /// The first is, and the second is not, as there.
    #[error("file fault")]
    Other(FileRefusal),
    /// Both are, and the case or the wedge is not read, or is refused.
    #[error("input refused")]
    Input(Refusal),
    /// The writer failed, or took no byte.
    #[error("write fault")]
    Write,
    #[error("no memory")]
    NoMemory,
}

// ---- what the cause of a phase is

/// A ribbon's file that is not read.
impl From<FileRefusal> for SourcesFault {
    ghost from_gives = { λ why fault. fault ≡ of_ribbon why };

    fn from(why: FileRefusal) -> SourcesFault {
        match why {
            FileRefusal::NoMemory => SourcesFault::NoMemory,
            other => SourcesFault::Ribbon(other),
        }
    }
}

impl From<Failure> for SourcesFault {
    ghost from_gives = { λ end fault. fault ≡ of_input end };

    fn from(end: Failure) -> SourcesFault {
        match end {
            Failure::Refused(why) => SourcesFault::Input(why),
            Failure::NoMemory => SourcesFault::NoMemory,
        }
    }
}

// ---- what the phase of a call is

impl From<SourcesFault> for ReadingFault {
    ghost from_gives = { λ why fault. fault ≡ of_sources why };

    fn from(why: SourcesFault) -> ReadingFault {
        match why {
            SourcesFault::Ribbon(why) => ReadingFault::Ribbon(why),
            SourcesFault::Input(why) => ReadingFault::Input(why),
            SourcesFault::NoMemory => ReadingFault::NoMemory,
        }
    }
}

impl From<NoMemory> for ReadingFault {
    ghost from_gives = { λ _ fault. fault ≡ faults.NoMemory };

    fn from(_: NoMemory) -> ReadingFault {
        ReadingFault::NoMemory
    }
}

impl From<Unsent> for ReadingFault {
    ghost from_gives = { λ _ fault. fault ≡ faults.Write };

    fn from(_: Unsent) -> ReadingFault {
        ReadingFault::Write
    }
}

/// A first ribbon's file that is not read.
impl From<FileRefusal> for ComparisonFault {
    ghost from_gives = { λ why fault. fault ≡ of_one why };

    fn from(why: FileRefusal) -> ComparisonFault {
        match why {
            FileRefusal::NoMemory => ComparisonFault::NoMemory,
            other => ComparisonFault::One(other),
        }
    }
}

/// The sources behind it that give nothing.
impl From<SourcesFault> for ComparisonFault {
    ghost from_gives = { λ why fault. fault ≡ of_others why };

    fn from(why: SourcesFault) -> ComparisonFault {
        match why {
            SourcesFault::Ribbon(why) => ComparisonFault::Other(why),
            SourcesFault::Input(why) => ComparisonFault::Input(why),
            SourcesFault::NoMemory => ComparisonFault::NoMemory,
        }
    }
}

impl From<NoMemory> for ComparisonFault {
    ghost from_gives = { λ _ fault. fault ≡ comparisons.NoMemory };

    fn from(_: NoMemory) -> ComparisonFault {
        ComparisonFault::NoMemory
    }
}

impl From<Unsent> for ComparisonFault {
    ghost from_gives = { λ _ fault. fault ≡ comparisons.Write };

    fn from(_: Unsent) -> ComparisonFault {
        ComparisonFault::Write
    }
}
