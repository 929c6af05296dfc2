//! Why a line of faults is not written.

ghost use Rattle.std.specs.Prelude.{◌≡◌};
ghost use Rattle.view_punch.specs.Making.{of_line};
ghost use Rattle.view_punch.specs.declared.fault.LineFault.TheVariants as lines;

use desk_memory::NoMemory;
use feed_stored::Unsent;
use view_preview::PreviewFault;

/// Why a line of faults is not written.
#[derive(Clone, Copy, Debug, PartialEq, Eq)]
pub enum LineFault {
    /// It was not kept.
    NoMemory,
    /// The writer failed, or took no byte.
    Write,
}

impl From<NoMemory> for LineFault {
    ghost from_gives = { λ _ fault. fault ≡ lines.NoMemory };

    fn from(_: NoMemory) -> LineFault {
        LineFault::NoMemory
    }
}

impl From<Unsent> for LineFault {
    ghost from_gives = { λ _ fault. fault ≡ lines.Write };

    fn from(_: Unsent) -> LineFault {
        LineFault::Write
    }
}

impl From<LineFault> for PreviewFault {
    ghost from_gives = { λ why fault. fault ≡ of_line why };

    fn from(why: LineFault) -> PreviewFault {
        match why {
            LineFault::NoMemory => PreviewFault::NoMemory,
            LineFault::Write => PreviewFault::Write,
        }
    }
}
