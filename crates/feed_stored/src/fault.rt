//! Why a stored feed was not opened.

ghost use Rattle.std.specs.Prelude.{◌≡◌};
ghost use Rattle.feed_stored.specs.Fault.{of_stop};
ghost use Rattle.feed_stored.specs.declared.fault.OpenFault.TheVariants as openings;

use desk_codec::FeedFault;
use desk_held::AddRefusal;
use desk_memory::NoMemory;
use desk_replica::Stopped;
use thiserror::Error;

/// Why a stored feed that was read was not opened.
#[derive(Clone, Copy, Debug, PartialEq, Eq, Error)]
pub enum OpenFault {
    /// Its bytes are no feed.
    #[error("feed refused")]
    Feed(FeedFault),
    /// It has more operations than a replica holds.
    #[error("not opened")]
    Opening(Stopped),
    #[error("no memory")]
    NoMemory,
}

impl From<NoMemory> for OpenFault {
    ghost from_gives = { λ _ fault. fault ≡ openings.NoMemory };

    fn from(_: NoMemory) -> OpenFault {
        OpenFault::NoMemory
    }
}

impl From<Stopped> for OpenFault {
    ghost from_gives = { λ stop fault. fault ≡ of_stop stop stop.why };

    fn from(stop: Stopped) -> OpenFault {
        match stop.why {
            AddRefusal::Full => OpenFault::Opening(stop),
            AddRefusal::NoMemory => OpenFault::NoMemory,
        }
    }
}
