//! Why a text was not made another, by the phase in which it stopped.

ghost use Rattle.std.specs.Prelude.{◌≡◌};
ghost use Rattle.feed_edit.specs.declared.replace_fault.PlaceFault.TheVariants as places;
ghost use Rattle.feed_edit.specs.declared.replace_fault.ReplaceFault.TheVariants as faults;

use crate::{KeepFault, RevisionFault, TakeFault};
use desk_memory::NoMemory;
use feed_stored::LastFault;
use text_copy::TextFault;
use thiserror::Error;

/// Why the two texts are not read. Nothing was begun.
#[derive(Clone, Copy, Debug, PartialEq, Eq, Error)]
pub enum ExchangeFault {
    /// The text that is to be replaced is none: its first fault, by its line and its column. Out of memory is
    /// `NoMemory`.
    #[error("OLD, {0}")]
    Old(TextFault),
    /// The text that is to take its place is none: its first fault. The other is read.
    #[error("NEW, {0}")]
    New(TextFault),
    /// Memory ran out while a text was read.
    #[error("no memory")]
    NoMemory,
}

/// Why no place of a text is taken in a copy, or that memory ran out. No file has changed.
#[derive(Clone, Copy, Debug, PartialEq, Eq, Error)]
pub enum PlaceFault {
    /// It stands nowhere in the copy, and that was written.
    #[error("no place")]
    NoPlace,
    /// It stands at so many places, and the one that was to be taken is not alone, or not one of them; a line for each
    /// of the first 100 was written, and how many more there are.
    #[error("{0} places")]
    ManyPlaces(usize),
    /// No place is taken, and the writer failed, or took no byte.
    #[error("write fault")]
    Write,
    /// Memory ran out before anything was written.
    #[error("no memory")]
    NoMemory,
}

/// Why nothing was replaced.
#[derive(Clone, Copy, Debug, PartialEq, Eq, Error)]
pub enum ReplaceFault {
    /// The two texts are not read.
    #[error("{0}")]
    Exchange(ExchangeFault),
    /// They are read, and the stored feed was not taken.
    #[error("{0}")]
    Take(TakeFault),
    /// The feed was taken, and holds less of the site than it has made in this room, or memory ran out while that was
    /// compared. No file has changed.
    #[error("{0}")]
    Last(LastFault),
    /// The feed was let in, and no place of the one text is taken in its copy, or memory ran out before one was.
    #[error("{0}")]
    Place(PlaceFault),
    /// One is, and the copy was not made that with the other text there.
    #[error("{0}")]
    Revision(RevisionFault),
    /// The copy was made that, and the line was not written, or the feed not stored.
    #[error("{0}")]
    Keep(KeepFault),
}

impl From<NoMemory> for PlaceFault {
    ghost from_gives = { λ _ fault. fault ≡ places.NoMemory };

    fn from(_: NoMemory) -> PlaceFault {
        PlaceFault::NoMemory
    }
}

impl From<ExchangeFault> for ReplaceFault {
    ghost from_gives = { λ why fault. fault ≡ faults.Exchange why };

    fn from(why: ExchangeFault) -> ReplaceFault {
        ReplaceFault::Exchange(why)
    }
}

impl From<TakeFault> for ReplaceFault {
    ghost from_gives = { λ why fault. fault ≡ faults.Take why };

    fn from(why: TakeFault) -> ReplaceFault {
        ReplaceFault::Take(why)
    }
}

impl From<LastFault> for ReplaceFault {
    ghost from_gives = { λ why fault. fault ≡ faults.Last why };

    fn from(why: LastFault) -> ReplaceFault {
        ReplaceFault::Last(why)
    }
}

impl From<PlaceFault> for ReplaceFault {
    ghost from_gives = { λ why fault. fault ≡ faults.Place why };

    fn from(why: PlaceFault) -> ReplaceFault {
        ReplaceFault::Place(why)
    }
}

impl From<RevisionFault> for ReplaceFault {
    ghost from_gives = { λ why fault. fault ≡ faults.Revision why };

    fn from(why: RevisionFault) -> ReplaceFault {
        ReplaceFault::Revision(why)
    }
}

impl From<KeepFault> for ReplaceFault {
    ghost from_gives = { λ why fault. fault ≡ faults.Keep why };

    fn from(why: KeepFault) -> ReplaceFault {
        ReplaceFault::Keep(why)
    }
}
