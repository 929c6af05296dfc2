//! Commands, as lines spell them.

ghost use Rattle.std.specs.Prelude.{◌≡◌};
ghost use Rattle.script_answers.specs.declared.command.ParseError.TheVariants.{NoMemory};

use desk_ops::{Key, Symbol};
use std::alloc::{AllocError, AllocFailed, Allocator};
use thiserror::Error;

/// What a line says. Numbers are as they were written, in or out of range.
#[derive(Drop)]
pub enum Command<'a, A: Allocator + Copy> {
    /// Adds a site.
    Site(u32),
    /// Inserts symbols one after another.
    Insert {
        site: u32,
        place: u32,
        copy: Vec<Symbol, A>,
    },
    Delete {
        site: u32,
        place: u32,
    },
    Set {
        site: u32,
        key: Key,
        value: u32,
    },
    /// Takes a feed.
    Take {
        site: u32,
        feed: Vec<u8, A>,
    },
    /// Gives one site the operations of another, or those of a range of places.
    Send {
        from: u32,
        to: u32,
        range: Option<(u32, u32)>,
    },
    Merge {
        to: u32,
        from: u32,
    },
    Show(u32),
    Faults(u32),
    Settings(u32),
    Feed(u32),
    Ribbon {
        site: u32,
        case: &'a str,
        wedge: &'a str,
    },
    Cast {
        site: u32,
        case: &'a str,
        wedge: &'a str,
    },
    Restart(u32),
}

/// Why a line was not read.
#[derive(Clone, Copy, Debug, PartialEq, Eq, Error)]
pub enum ParseError {
    #[error("no memory")]
    NoMemory,
    /// It is of no command's form.
    #[error("no command")]
    Form,
}

impl From<AllocError> for ParseError {
    ghost from_gives = { λ _ e. e ≡ NoMemory };

    fn from(_error: AllocError) -> ParseError {
        ParseError::NoMemory
    }
}

impl<T: Drop> From<AllocFailed<T>> for ParseError {
    ghost from_gives = { λ _ e. e ≡ NoMemory };

    fn from(_error: AllocFailed<T>) -> ParseError {
        ParseError::NoMemory
    }
}
