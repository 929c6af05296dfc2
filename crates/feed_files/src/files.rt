//! Files by name.

ghost use Rattle.std.specs.Prelude.{◌≢◌, ◌≤◌, ◌⊎◌, IfErr, IfOk, IsErrOf, ◌≡◌, length};
ghost use Rattle.feed_files.specs.Files.{CanBe, Counts, IsGone, IsNowHeld, IsNowhere, IsRenamed, IsWritten, Reads};
ghost use Rattle.feed_files.specs.Files.{Shelf, Spares, Stays, bytes_read, max_file, shelf, touched};
ghost use Rattle.feed_files.specs.declared.files.FileRefusal.TheVariants as refusals;

use std::alloc::{AllocError, AllocFailed, Allocator};
use thiserror::Error;

/// The most bytes of a file that is read.
pub const MAX_FILE: usize = 67_108_864;

/// Why a file was not read, written or renamed.
#[derive(Clone, Copy, Debug, PartialEq, Eq, Error)]
pub enum FileRefusal {
    /// The file, or the folder that it would stand in, is not there.
    #[error("missing")]
    Missing,
    /// The device failed, or would not do what it was asked: another run has the name, or there is no right to it.
    #[error("device")]
    Device,
    /// The file has more than 67,108,864 bytes.
    #[error("large")]
    Large,
    #[error("no memory")]
    NoMemory,
}

impl From<AllocError> for FileRefusal {
    ghost from_gives = { λ _ why. why ≡ refusals.NoMemory };

    fn from(_error: AllocError) -> FileRefusal {
        FileRefusal::NoMemory
    }
}

impl<T: Drop> From<AllocFailed<T>> for FileRefusal {
    ghost from_gives = { λ _ why. why ≡ refusals.NoMemory };

    fn from(_error: AllocFailed<T>) -> FileRefusal {
        FileRefusal::NoMemory
    }
}

/// Where files are kept.
pub trait Files {
    ghost use Rattle.feed_files.specs.declared.files.FileRefusal.{FileRefusal};

    /// What each name stands for, as far as that is known, how often the device has failed, and the name that is held,
    /// with whether this run has asked for a writing or a renaming since.
    ghost shelf: { Self → Shelf };

    /// How often the device has failed. It stays at its greatest value.
    fn failures(&self) -> u64
        ensures { result ≡ (shelf self.now).failures };

    /// Takes a name for this run alone, which must hold none yet: no other run takes it until these files end, and none
    /// but this run changes what stands under it and under `name.new`. Until now another run may have changed that.
    /// Where another run has the name, or it could not be written, the call is refused as `Device`, and no file
    /// changes. `Missing` comes only where no file can have the name, out of memory only where one can, `Device` as
    /// from `read`, and `Large` never.
    fn hold(&mut self, name: &str) -> Result<(), FileRefusal>
        ensures counted { Counts result (shelf self.old) (shelf self.new) }
        ensures small { IfErr result (λ e. e ≢ FileRefusal.Large) }
        ensures missing { IsErrOf result FileRefusal.Missing → IsNowhere ((shelf self.old).kept name.now) }
        ensures memory { IsErrOf result FileRefusal.NoMemory → CanBe ((shelf self.old).kept name.now) }
        ensures taken { IfOk result (λ _. IsNowHeld name.now (shelf self.old) (shelf self.new)) }
        ensures refused { IfErr result (λ _. Stays (shelf self.old) (shelf self.new)) };

    /// A file's bytes, `MAX_FILE` at most. No file changes. `Device` comes exactly where the device failed in this
    /// call, by the count while it can rise.
    fn read<A: Allocator + Copy>(&mut self, alloc: A, name: &str) -> Result<Vec<u8, A>, FileRefusal>
        ensures counted { Counts result (shelf self.old) (shelf self.new) }
        ensures kept { (shelf self.new).kept ≡ (shelf self.old).kept }
        ensures held { (shelf self.new).held ≡ (shelf self.old).held }
        ensures within { IfOk result (λ v. length v.items ≤ max_file) }
        ensures given { Reads ((shelf self.old).kept name.now) (bytes_read (λ v. v.items) result) };

    /// Writes a file anew, in place of one that had the name. A refused write may leave anything under the name.
    /// `Missing` comes only where no file can have the name, out of memory only where one can, `Device` as from `read`,
    /// and `Large` never.
    fn write_new(&mut self, name: &str, bytes: &[u8]) -> Result<(), FileRefusal>
        ensures counted { Counts result (shelf self.old) (shelf self.new) }
        ensures small { IfErr result (λ e. e ≢ FileRefusal.Large) }
        ensures missing { IsErrOf result FileRefusal.Missing → IsNowhere ((shelf self.old).kept name.now) }
        ensures memory { IsErrOf result FileRefusal.NoMemory → CanBe ((shelf self.old).kept name.now) }
        ensures written { IfOk result
            (λ _. IsWritten bytes.now ((shelf self.old).kept name.now) ((shelf self.new).kept name.now)) }
        ensures held { (shelf self.new).held ≡ touched (shelf self.old).held }
        ensures others { Spares name.now (shelf self.old).kept (shelf self.new).kept };

    /// Gives a file another name, in place of a file that had it. A refused call changes no file. `Missing` comes only
    /// where no file has the one name or none can have the other, out of memory only where a file can have each,
    /// `Device` as from `read`, and `Large` never.
    fn rename(&mut self, from: &str, to: &str) -> Result<(), FileRefusal>
        ensures counted { Counts result (shelf self.old) (shelf self.new) }
        ensures small { IfErr result (λ e. e ≢ FileRefusal.Large) }
        ensures missing { IsErrOf result FileRefusal.Missing
            → IsGone ((shelf self.old).kept from.now) ⊎ IsNowhere ((shelf self.old).kept to.now) }
        ensures memory { IsErrOf result FileRefusal.NoMemory
            → CanBe ((shelf self.old).kept from.now) × CanBe ((shelf self.old).kept to.now) }
        ensures renamed { IfOk result (λ _. IsRenamed from.now to.now (shelf self.old).kept (shelf self.new).kept) }
        ensures held { (shelf self.new).held ≡ touched (shelf self.old).held }
        ensures refused { IfErr result (λ _. (shelf self.new).kept ≡ (shelf self.old).kept) };
}

/// Files of which none is there, nor can be.
#[derive(Drop)]
pub struct NoFiles;

impl Files for NoFiles {
    ghost use Rattle.feed_files.specs.Files.{Free, Nowhere};

    ghost shelf = { λ _. shelf (λ _. Nowhere) 0 Free };

    fn failures(&self) -> u64 {
        0
    }

    fn hold(&mut self, _name: &str) -> Result<(), FileRefusal> {
        Err(FileRefusal::Missing)
    }

    fn read<A: Allocator + Copy>(
        &mut self,
        _alloc: A,
        _name: &str,
    ) -> Result<Vec<u8, A>, FileRefusal> {
        Err(FileRefusal::Missing)
    }

    fn write_new(&mut self, _name: &str, _bytes: &[u8]) -> Result<(), FileRefusal> {
        Err(FileRefusal::Missing)
    }

    fn rename(&mut self, _from: &str, _to: &str) -> Result<(), FileRefusal> {
        Err(FileRefusal::Missing)
    }
}
