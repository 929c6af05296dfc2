//! Why a file that was made is not stored.

ghost use Rattle.std.specs.Prelude.{◌≡◌};
ghost use Rattle.feed_files.specs.declared.output_fault.OutputFault.TheVariants as faults;

use crate::FileRefusal;
use crate::kinds::Kind;
use thiserror::Error;

/// Why a file that was made is not stored under its name.
#[derive(Clone, Copy, Debug, PartialEq, Eq, Error)]
pub enum OutputFault {
    /// A file of this kind stands there, and not of the kind that was made.
    #[error("not replaced")]
    Taken(Kind),
    /// What stands there was not read, or what was made was not stored.
    #[error("file fault")]
    File(FileRefusal),
}

impl From<FileRefusal> for OutputFault {
    ghost from_gives = { λ why fault. fault ≡ faults.File why };

    fn from(why: FileRefusal) -> OutputFault {
        OutputFault::File(why)
    }
}
