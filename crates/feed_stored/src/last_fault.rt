//! Why a run does not go on with a feed.

ghost use Rattle.std.specs.Prelude.{◌≡◌};
ghost use Rattle.feed_stored.specs.declared.last_fault.LastFault.TheVariants as faults;

use desk_memory::NoMemory;
use thiserror::Error;

/// Why a run does not go on with a feed.
#[derive(Clone, Copy, Debug, PartialEq, Eq, Error)]
pub enum LastFault {
    /// The feed holds less of the site than it has made in this room.
    #[error("older feed")]
    Older {
        /// The greatest counter that was stored here.
        made: u64,
        /// The greatest counter that the feed holds.
        held: u64,
    },
    /// Memory was refused, and nothing was compared.
    #[error("no memory")]
    NoMemory,
}

impl From<NoMemory> for LastFault {
    ghost from_gives = { λ _ fault. fault ≡ faults.NoMemory };

    fn from(_: NoMemory) -> LastFault {
        LastFault::NoMemory
    }
}
