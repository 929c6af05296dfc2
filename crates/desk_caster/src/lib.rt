//! The caster: what a ribbon's bytes mean, and the lines that it casts.
//!
//! The Monotype caster reads a ribbon from its end, so it meets the wedge positions of a line before the line's
//! matrices. Which rows set and send out a line is this project's choice: Coarse starts a line, FineOut ends the one
//! before.
#![tactic(auto)]

mod caster;
pub mod laws;
mod line;
mod reading;

pub use caster::cast;
use desk_image::BadImage;
use desk_memory::NoMemory;
use desk_ops::Symbol;
use desk_signals::Cell;
use desk_units::Atoms;
pub use line::CastLine;
pub use reading::read_ribbon;
use std::alloc::AllocError;
use thiserror::Error;

/// A matrix that was cast.
#[derive(Clone, Copy, PartialEq, Eq, Debug)]
pub struct CastMatrix {
    pub cell: Cell,
    /// Whether it was cast with S, and so by the positions of the justification wedges.
    pub s: bool,
    /// What the case has there, if that is a symbol.
    pub symbol: Option<Symbol>,
    pub width: Atoms,
}

/// Why bytes are no ribbon: the first fault that holds, or out of memory.
#[derive(Clone, Copy, PartialEq, Eq, Debug, Error)]
pub enum RibbonFault {
    #[error("no ribbon begins so")]
    Magic,
    #[error("the ribbon has not as many rows as it says")]
    Count,
    /// The row at this place, from 0, has no meaning.
    #[error("row {0}: {1}")]
    Row(u32, BadImage),
    #[error("no memory")]
    NoMemory,
}

impl From<AllocError> for RibbonFault {
    ghost use Rattle.std.specs.Prelude.{◌≡◌};
    ghost use Rattle.desk_caster.specs.declared.RibbonFault.TheVariants as fault;

    ghost from_gives = { λ _ why. why ≡ fault.NoMemory };

    fn from(_: AllocError) -> RibbonFault {
        RibbonFault::NoMemory
    }
}

/// Why rows cast no lines: the first fault that the caster meets, with a row's place in punched order from 0, or out of
/// memory.
#[derive(Clone, Copy, PartialEq, Eq, Debug, Error)]
pub enum CastFault {
    /// The row met needs positions of the wedges that are not there.
    #[error("row {0} needs wedges that are not set")]
    NoWedges(u32),
    /// The case has nothing where the row met points.
    #[error("row {0}: the case has no matrix there")]
    NoMatrix(u32),
    /// The line that this Coarse row started was not sent out.
    #[error("the line that row {0} started was not sent out")]
    NotSentOut(u32),
    #[error("no memory")]
    NoMemory,
}

impl From<NoMemory> for CastFault {
    ghost use Rattle.std.specs.Prelude.{◌≡◌};
    ghost use Rattle.desk_caster.specs.declared.CastFault.TheVariants as fault;

    ghost from_gives = { λ _ why. why ≡ fault.NoMemory };

    fn from(_: NoMemory) -> CastFault {
        CastFault::NoMemory
    }
}
