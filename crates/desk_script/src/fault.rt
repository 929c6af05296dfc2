//! Why a run of a script stopped.

ghost use Rattle.std.specs.Prelude.{◌≡◌};
ghost use Rattle.desk_script.specs.Fault.{of_file, of_opening, of_reader};
ghost use Rattle.desk_script.specs.declared.fault.RunFault.TheVariants as runs;

use desk_codec::FeedFault;
use desk_memory::NoMemory;
use desk_replica::Stopped;
use feed_files::{FileRefusal, ReaderFault};
use feed_stored::{OpenFault, Unsent};
use thiserror::Error;

/// Why a run stopped before its end.
#[derive(Clone, Copy, Debug, PartialEq, Eq, Error)]
pub enum RunFault {
    /// The reader failed.
    #[error("read fault")]
    Read,
    /// The writer failed, or took no byte.
    #[error("write fault")]
    Write,
    /// `MAX_READS` calls of `read` did not come to the end; or a sheet has more bytes than may be.
    #[error("too long")]
    TooLong,
    /// A line could not be kept, or a stored feed not be opened or stored. Memory that is refused to a command is an
    /// answer.
    #[error("no memory")]
    NoMemory,
    /// The stored bytes are no feed.
    #[error("feed refused")]
    Feed(FeedFault),
    /// The feed's name was not taken, or the stored feed was not read, or was not stored anew. Out of memory is
    /// `NoMemory`.
    #[error("file fault")]
    File(FileRefusal),
    /// The stored feed has more operations than a replica holds: the cause is always `Full`.
    #[error("not opened")]
    Opening(Stopped),
}

/// Why a run in a room stopped before its end.
#[derive(Clone, Copy, Debug, PartialEq, Eq, Error)]
pub enum RoomFault {
    /// The stored feed holds less of the site than it has made in this room.
    #[error("older feed")]
    Older {
        /// The greatest counter that was stored here.
        made: u64,
        /// The greatest counter that the feed holds.
        held: u64,
    },
    /// The run stopped as one on a feed.
    #[error("{0}")]
    Run(RunFault),
}

impl From<NoMemory> for RunFault {
    ghost from_gives = { λ _ fault. fault ≡ runs.NoMemory };

    fn from(_: NoMemory) -> RunFault {
        RunFault::NoMemory
    }
}

impl From<ReaderFault> for RunFault {
    ghost from_gives = { λ why fault. fault ≡ of_reader why };

    fn from(why: ReaderFault) -> RunFault {
        match why {
            ReaderFault::Failed => RunFault::Read,
            ReaderFault::TooLong => RunFault::TooLong,
            ReaderFault::NoMemory => RunFault::NoMemory,
        }
    }
}

impl From<Unsent> for RunFault {
    ghost from_gives = { λ _ fault. fault ≡ runs.Write };

    fn from(_: Unsent) -> RunFault {
        RunFault::Write
    }
}

impl From<OpenFault> for RunFault {
    ghost from_gives = { λ why fault. fault ≡ of_opening why };

    fn from(why: OpenFault) -> RunFault {
        match why {
            OpenFault::Feed(fault) => RunFault::Feed(fault),
            OpenFault::Opening(stop) => RunFault::Opening(stop),
            OpenFault::NoMemory => RunFault::NoMemory,
        }
    }
}

impl From<FileRefusal> for RunFault {
    ghost from_gives = { λ why fault. fault ≡ of_file why };

    fn from(why: FileRefusal) -> RunFault {
        match why {
            FileRefusal::NoMemory => RunFault::NoMemory,
            other => RunFault::File(other),
        }
    }
}
