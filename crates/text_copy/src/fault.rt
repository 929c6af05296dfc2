//! Why a text is no copy, and where.

ghost use Rattle.std.specs.Prelude.{◌≡◌};
ghost use Rattle.text_copy.specs.declared.fault.TextFault.TheVariants.{NoMemory};

use std::alloc::{AllocError, AllocFailed};
use thiserror::Error;

/// A place in a text: its line and its column, each from 1. Columns are counted in characters.
#[derive(Clone, Copy, Debug, PartialEq, Eq)]
pub struct Place {
    pub line: u64,
    pub column: u64,
}

/// What is wrong at a place.
#[derive(Clone, Copy, Debug, PartialEq, Eq, Error)]
pub enum Cause {
    /// A character that no copy may have.
    #[error("no symbol of a copy")]
    Symbol,
    /// Bytes that are no character in UTF-8.
    #[error("no UTF-8")]
    Encoding,
    /// A backslash that no mark and no backslash follows.
    #[error("a backslash that escapes nothing")]
    Escape,
    /// A mark inside the other style.
    #[error("a style mark inside the other style")]
    Inside,
    /// The end of a line inside a style.
    #[error("a style that is open at the end of the line")]
    Unclosed,
}

/// Why a text was not read as a copy: the first fault from the left, unless memory ran out.
#[derive(Clone, Copy, Debug, PartialEq, Eq, Error)]
pub enum TextFault {
    #[error("line {line}, column {column}: {cause}")]
    At {
        line: u64,
        column: u64,
        cause: Cause,
    },
    #[error("no memory")]
    NoMemory,
}

impl From<AllocError> for TextFault {
    ghost from_gives = { λ _ e. e ≡ NoMemory };

    fn from(_error: AllocError) -> TextFault {
        TextFault::NoMemory
    }
}

impl<T: Drop> From<AllocFailed<T>> for TextFault {
    ghost from_gives = { λ _ e. e ≡ NoMemory };

    fn from(_error: AllocFailed<T>) -> TextFault {
        TextFault::NoMemory
    }
}
