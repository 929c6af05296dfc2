//! A reader, read to its end.

ghost use Rattle.std.specs.Prelude.{◌≡◌, ◌≤◌, IfErr, IfOk, length};
ghost use Rattle.std.specs.Io.KnownBytes.{Consumes, IsAtEnd};
ghost use Rattle.feed_files.specs.Input.{IsInput, IsNotWhole, IsReadTo};
ghost use Rattle.feed_files.specs.declared.input.ReaderFault.TheVariants as faults;

use std::alloc::{AllocError, Allocator};
use std::io::Read;
use thiserror::Error;

/// So much is read at a time.
const CHUNK: usize = 8192;

/// Why a reader was not read to its end.
#[derive(Clone, Copy, Debug, PartialEq, Eq, Error)]
pub enum ReaderFault {
    /// It failed.
    #[error("read fault")]
    Failed,
    /// It has more bytes than may be.
    #[error("too long")]
    TooLong,
    /// Its bytes were not kept.
    #[error("no memory")]
    NoMemory,
}

impl From<AllocError> for ReaderFault {
    ghost from_gives = { λ _ why. why ≡ faults.NoMemory };

    fn from(_error: AllocError) -> ReaderFault {
        ReaderFault::NoMemory
    }
}

/// All that a reader has left, `most` bytes at most. Where that is too long the rest is left unread.
pub fn read_whole<R: Read, A: Allocator + Copy>(
    alloc: A,
    reader: &mut R,
    most: usize,
) -> Result<Vec<u8, A>, ReaderFault>
    ensures ok { IfOk result (λ v. IsInput (R.remaining reader.old) v.items) }
    ensures within { IfOk result (λ v. length v.items ≤ most) }
    ensures end { IfOk result (λ _. IsAtEnd (R.remaining reader.new)) }
    ensures taken { IfOk result (λ v. Consumes (R.remaining reader.old) (R.remaining reader.new) v.items) }
    ensures err { IfErr result (IsNotWhole most (R.remaining reader.old)) }
    ensures left { IfErr result (IsReadTo most (R.remaining reader.old) (R.remaining reader.new)) }
{
    let mut bytes = Vec::new(alloc);
    let mut chunk = [0u8; CHUNK];
    'reads: loop {
        match reader.read(&mut chunk) {
            Ok(0) => return Ok(bytes),
            Ok(n) => {
                if n > most - bytes.len() {
                    return Err(ReaderFault::TooLong);
                }
                bytes.extend_from_slice(&chunk[..n])?;
            }
            Err(_) => return Err(ReaderFault::Failed),
        }
    }
}
