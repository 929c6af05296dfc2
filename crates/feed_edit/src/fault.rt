//! Why what one asked for was not done, by the phase in which it stopped.

ghost use Rattle.std.specs.Prelude.{◌≡◌};
ghost use Rattle.feed_edit.specs.Fault.{of_adding, of_opening, of_reader, of_text};
ghost use Rattle.feed_edit.specs.declared.fault.FeedTrouble.TheVariants as troubles;
ghost use Rattle.feed_edit.specs.declared.fault.TakeFault.TheVariants as takes;
ghost use Rattle.feed_edit.specs.declared.fault.KeepFault.TheVariants as keeps;
ghost use Rattle.feed_edit.specs.declared.fault.RevisionFault.TheVariants as revisions;
ghost use Rattle.feed_edit.specs.declared.fault.ExportFault.TheVariants as exports;
ghost use Rattle.feed_edit.specs.declared.fault.MergeFault.TheVariants as merges;
ghost use Rattle.feed_edit.specs.declared.fault.ImportFault.TheVariants as imports;

use crate::stamps::SiteStamps;
use desk_codec::FeedFault;
use desk_held::AddRefusal;
use desk_memory::NoMemory;
use desk_replica::Stopped;
use feed_files::{FileRefusal, ReaderFault};
use feed_stored::{LastFault, OpenFault, Unsent};
use std::alloc::Allocator;
use text_copy::TextFault;
use thiserror::Error;

// ---- the phases

/// Why the feed of one file does not come in.
#[derive(Clone, Copy, Debug, PartialEq, Eq, Error)]
pub enum FeedTrouble {
    /// The file was not read.
    #[error("file fault")]
    File(FileRefusal),
    /// Its bytes are no feed.
    #[error("feed refused")]
    Feed(FeedFault),
    /// With its operations there would be more than a replica holds.
    #[error("full")]
    Full,
    /// Its bytes were read, and memory ran out then.
    #[error("no memory")]
    NoMemory,
}

/// Why a stored feed was not taken, so that it can be changed.
#[derive(Clone, Copy, Debug, PartialEq, Eq, Error)]
pub enum TakeFault {
    /// Its name was not taken.
    #[error("file fault")]
    Untaken(FileRefusal),
    /// Its name was taken, and it does not come in.
    #[error("{0}")]
    Feed(FeedTrouble),
}

/// Why no text was read.
#[derive(Clone, Copy, Debug, PartialEq, Eq, Error)]
pub enum InputFault {
    /// The reader failed.
    #[error("read fault")]
    Read,
    /// The reader has more than `MAX_TEXT` bytes.
    #[error("too long")]
    TooLong,
    /// Its bytes are no text of a copy: the first fault, by its line and its column. Out of memory is `NoMemory`.
    #[error("{0}")]
    Text(TextFault),
    /// Memory ran out while the text was read.
    #[error("no memory")]
    NoMemory,
}

/// Why a copy was not made a text: the first cause for which one of the edits was refused, after those before it were
/// made, or memory ran out.
#[derive(Clone, Copy, Debug, PartialEq, Eq, Error)]
pub enum RevisionFault {
    /// As many operations are held as a replica holds.
    #[error("as many operations are held as may be")]
    Full,
    /// No later counter is left.
    #[error("the greatest counter is held")]
    ClockFull,
    /// A symbol that was to be inserted is not lawful.
    #[error("the value is out of its range")]
    Value,
    /// Memory ran out: before any edit was made, or at one that would not have been refused.
    #[error("no memory")]
    NoMemory,
}

/// Why what was done was not written, or the feed not stored.
#[derive(Clone, Copy, Debug, PartialEq, Eq, Error)]
pub enum KeepFault {
    /// The writer failed, or took no byte. No file has changed.
    #[error("write fault")]
    Write,
    /// All was written, and the feed was not stored.
    #[error("file fault")]
    Unstored(FileRefusal),
    /// Memory ran out before anything was written. No file has changed.
    #[error("no memory")]
    NoMemory,
}

// ---- the calls

/// Why a feed was not written as text.
#[derive(Clone, Copy, Debug, PartialEq, Eq, Error)]
pub enum ExportFault {
    /// The feed does not come in. Nothing was written.
    #[error("{0}")]
    Feed(FeedTrouble),
    /// The writer failed, or took no byte.
    #[error("write fault")]
    Write,
    /// Memory ran out once the feed was opened. Nothing was written.
    #[error("no memory")]
    NoMemory,
}

/// Why feeds were not merged into a stored one.
#[derive(Drop, Error)]
#[derive_where(Debug, PartialEq, Eq)]
pub enum MergeFault<A: Allocator> {
    /// The stored feed was not taken.
    #[error("{0}")]
    Take(TakeFault),
    /// The feed of another file does not come in: that of a place among the names that were given, counted from 0.
    #[error("{why}")]
    Other { at: usize, why: FeedTrouble },
    /// Forks are not asked for, and the feed of another file adds some: that of a place among the names, counted from
    /// 0. Those
    /// are all stamps that are forked with it, and were not before.
    #[error("number used twice")]
    Forks { at: usize, stamps: SiteStamps<A> },
    /// All came in, and their lines were not written, or the union was not stored.
    #[error("{0}")]
    Keep(KeepFault),
}

/// Why the copy of a stored feed was not made a text that is read.
#[derive(Clone, Copy, Debug, PartialEq, Eq, Error)]
pub enum ImportFault {
    /// The stored feed was not taken.
    #[error("{0}")]
    Take(TakeFault),
    /// The feed was taken, and not let in: it is older than what this room stored there, or memory ran out for that.
    #[error("{0}")]
    Last(LastFault),
    /// The feed was let in, and no text was read.
    #[error("{0}")]
    Input(InputFault),
    /// The text was read, and the copy was not made it.
    #[error("{0}")]
    Revision(RevisionFault),
    /// The whole copy, or most of a longer one, would be deleted, and that is not asked for.
    #[error("{deleted} of {of} symbols would be deleted")]
    Wipes { deleted: usize, of: usize },
    /// The copy was made the text, and the line was not written, or the feed not stored.
    #[error("{0}")]
    Keep(KeepFault),
}

// ---- what the cause of a phase is

impl From<FileRefusal> for FeedTrouble {
    ghost from_gives = { λ why trouble. trouble ≡ troubles.File why };

    fn from(why: FileRefusal) -> FeedTrouble {
        FeedTrouble::File(why)
    }
}

impl From<OpenFault> for FeedTrouble {
    ghost from_gives = { λ why trouble. trouble ≡ of_opening why };

    fn from(why: OpenFault) -> FeedTrouble {
        match why {
            OpenFault::Feed(fault) => FeedTrouble::Feed(fault),
            OpenFault::Opening(_) => FeedTrouble::Full,
            OpenFault::NoMemory => FeedTrouble::NoMemory,
        }
    }
}

impl From<Stopped> for FeedTrouble {
    ghost from_gives = { λ stop trouble. trouble ≡ of_adding stop.why };

    fn from(stop: Stopped) -> FeedTrouble {
        match stop.why {
            AddRefusal::Full => FeedTrouble::Full,
            AddRefusal::NoMemory => FeedTrouble::NoMemory,
        }
    }
}

impl From<NoMemory> for FeedTrouble {
    ghost from_gives = { λ _ trouble. trouble ≡ troubles.NoMemory };

    fn from(_: NoMemory) -> FeedTrouble {
        FeedTrouble::NoMemory
    }
}

impl From<FeedTrouble> for TakeFault {
    ghost from_gives = { λ why fault. fault ≡ takes.Feed why };

    fn from(why: FeedTrouble) -> TakeFault {
        TakeFault::Feed(why)
    }
}

impl From<NoMemory> for TakeFault {
    ghost from_gives = { λ _ fault. fault ≡ takes.Feed troubles.NoMemory };

    fn from(_: NoMemory) -> TakeFault {
        TakeFault::Feed(FeedTrouble::NoMemory)
    }
}

impl From<ReaderFault> for InputFault {
    ghost from_gives = { λ why fault. fault ≡ of_reader why };

    fn from(why: ReaderFault) -> InputFault {
        match why {
            ReaderFault::Failed => InputFault::Read,
            ReaderFault::TooLong => InputFault::TooLong,
            ReaderFault::NoMemory => InputFault::NoMemory,
        }
    }
}

impl From<TextFault> for InputFault {
    ghost from_gives = { λ why fault. fault ≡ of_text why };

    fn from(why: TextFault) -> InputFault {
        match why {
            TextFault::At { .. } => InputFault::Text(why),
            TextFault::NoMemory => InputFault::NoMemory,
        }
    }
}

impl From<NoMemory> for RevisionFault {
    ghost from_gives = { λ _ fault. fault ≡ revisions.NoMemory };

    fn from(_: NoMemory) -> RevisionFault {
        RevisionFault::NoMemory
    }
}

impl From<NoMemory> for KeepFault {
    ghost from_gives = { λ _ fault. fault ≡ keeps.NoMemory };

    fn from(_: NoMemory) -> KeepFault {
        KeepFault::NoMemory
    }
}

impl From<Unsent> for KeepFault {
    ghost from_gives = { λ _ fault. fault ≡ keeps.Write };

    fn from(_: Unsent) -> KeepFault {
        KeepFault::Write
    }
}

impl From<FileRefusal> for KeepFault {
    ghost from_gives = { λ why fault. fault ≡ keeps.Unstored why };

    fn from(why: FileRefusal) -> KeepFault {
        KeepFault::Unstored(why)
    }
}

// ---- what the phase of a call is

impl From<FeedTrouble> for ExportFault {
    ghost from_gives = { λ why fault. fault ≡ exports.Feed why };

    fn from(why: FeedTrouble) -> ExportFault {
        ExportFault::Feed(why)
    }
}

impl From<NoMemory> for ExportFault {
    ghost from_gives = { λ _ fault. fault ≡ exports.NoMemory };

    fn from(_: NoMemory) -> ExportFault {
        ExportFault::NoMemory
    }
}

impl From<Unsent> for ExportFault {
    ghost from_gives = { λ _ fault. fault ≡ exports.Write };

    fn from(_: Unsent) -> ExportFault {
        ExportFault::Write
    }
}

impl<A: Allocator> From<TakeFault> for MergeFault<A> {
    ghost from_gives = { λ why fault. fault ≡ merges.Take why };

    fn from(why: TakeFault) -> MergeFault<A> {
        MergeFault::Take(why)
    }
}

impl<A: Allocator> From<NoMemory> for MergeFault<A> {
    ghost from_gives = { λ _ fault. fault ≡ merges.Keep keeps.NoMemory };

    fn from(_: NoMemory) -> MergeFault<A> {
        MergeFault::Keep(KeepFault::NoMemory)
    }
}

impl<A: Allocator> From<KeepFault> for MergeFault<A> {
    ghost from_gives = { λ why fault. fault ≡ merges.Keep why };

    fn from(why: KeepFault) -> MergeFault<A> {
        MergeFault::Keep(why)
    }
}

impl From<TakeFault> for ImportFault {
    ghost from_gives = { λ why fault. fault ≡ imports.Take why };

    fn from(why: TakeFault) -> ImportFault {
        ImportFault::Take(why)
    }
}

impl From<LastFault> for ImportFault {
    ghost from_gives = { λ why fault. fault ≡ imports.Last why };

    fn from(why: LastFault) -> ImportFault {
        ImportFault::Last(why)
    }
}

impl From<InputFault> for ImportFault {
    ghost from_gives = { λ why fault. fault ≡ imports.Input why };

    fn from(why: InputFault) -> ImportFault {
        ImportFault::Input(why)
    }
}

impl From<RevisionFault> for ImportFault {
    ghost from_gives = { λ why fault. fault ≡ imports.Revision why };

    fn from(why: RevisionFault) -> ImportFault {
        ImportFault::Revision(why)
    }
}

impl From<KeepFault> for ImportFault {
    ghost from_gives = { λ why fault. fault ≡ imports.Keep why };

    fn from(why: KeepFault) -> ImportFault {
        ImportFault::Keep(why)
    }
}
