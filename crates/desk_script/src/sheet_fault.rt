//! Why a sheet was not carried out.

ghost use Rattle.std.specs.Prelude.{◌≡◌};
ghost use Rattle.desk_script.specs.Fault.{of_file, of_letting};
ghost use Rattle.desk_script.specs.declared.sheet_fault.SheetFault.TheVariants as faults;

use crate::RunFault;
use feed_files::FileRefusal;
use feed_stored::LastFault;
use thiserror::Error;

/// Why a sheet was not carried out to its end.
#[derive(Clone, Copy, Debug, PartialEq, Eq, Error)]
pub enum SheetFault {
    /// The line of this number, counted from 1, was answered by a refusal or by `stopped`, and the run was strict.
    #[error("line {0} refused")]
    Line(u64),
    /// The stored feed holds less of the site than it has made in this room.
    #[error("older feed")]
    Older {
        /// The greatest counter that was stored here.
        made: u64,
        /// The greatest counter that the feed holds.
        held: u64,
    },
    /// The reader, the writer, a file or memory failed, or what was stored was not opened as a feed. `TooLong` says
    /// that the sheet has more than `MAX_SHEET` bytes.
    #[error("{0}")]
    Run(RunFault),
}

impl From<RunFault> for SheetFault {
    ghost from_gives = { λ why fault. fault ≡ faults.Run why };

    fn from(why: RunFault) -> SheetFault {
        SheetFault::Run(why)
    }
}

impl From<LastFault> for SheetFault {
    ghost from_gives = { λ why fault. fault ≡ of_letting why };

    fn from(why: LastFault) -> SheetFault {
        match why {
            LastFault::Older { made, held } => SheetFault::Older { made, held },
            LastFault::NoMemory => SheetFault::Run(RunFault::NoMemory),
        }
    }
}

impl From<FileRefusal> for SheetFault {
    ghost from_gives = { λ why fault. fault ≡ faults.Run (of_file why) };

    fn from(why: FileRefusal) -> SheetFault {
        SheetFault::Run(RunFault::from(why))
    }
}
