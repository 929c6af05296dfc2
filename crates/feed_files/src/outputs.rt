//! A file that was made, stored over a file of its own kind alone.

ghost use Rattle.std.specs.Prelude.{◌≡◌, IfErr, IfOk, OnOk, false};
ghost use Rattle.feed_files.specs.Files.{HoldsOn, IsReplaced, touched};
ghost use Rattle.feed_files.specs.Kinds.{Stands};
ghost use Rattle.feed_files.specs.Outputs.{GivesWay, IsFree, IsNotPut, IsUnseen, destination};

use crate::kinds::{Kind, kind_of};
use crate::output_fault::OutputFault;
use crate::{FileRefusal, Files, store};
use std::alloc::Allocator;

/// Where a file that was made is stored.
#[derive(Clone, Copy)]
pub struct Target<'a> {
    pub name: &'a str,
    /// Whether it takes the place of whatever stands there.
    pub force: bool,
}

/// The kind of what stands under a name; none where no file is there, or an empty one. No file changes.
fn standing<F: Files, A: Allocator + Copy>(
    alloc: A,
    files: &mut F,
    name: &str,
) -> Result<Option<Kind>, FileRefusal>
    ensures ok { IfOk result (Stands ((F.shelf files.old).kept name.now)) }
    ensures same { OnOk result (F.shelf files.new ≡ F.shelf files.old) }
    ensures err { IfErr result (IsUnseen name.now (F.shelf files.old) (F.shelf files.new)) }
    ensures held { (F.shelf files.new).held ≡ (F.shelf files.old).held }
{
    match files.read(alloc, name) {
        Ok(bytes) => Ok(kind_of(&bytes)),
        Err(FileRefusal::Missing) => Ok(None),
        Err(FileRefusal::Large) => Ok(Some(Kind::Large)),
        Err(why) => Err(why),
    }
}

/// Refuses a name under which a file of another kind stands. No file changes.
fn leave_others<F: Files, A: Allocator + Copy>(
    alloc: A,
    files: &mut F,
    name: &str,
    kind: Kind,
) -> Result<(), OutputFault>
    ensures ok { OnOk result (IsFree kind ((F.shelf files.old).kept name.now)) }
    ensures same { OnOk result (F.shelf files.new ≡ F.shelf files.old) }
    ensures err { IfErr result (IsNotPut (destination name.now false) kind (F.shelf files.old) (F.shelf files.new)) }
    ensures held { (F.shelf files.new).held ≡ (F.shelf files.old).held }
{
    match standing(alloc, files, name)? {
        None => Ok(()),
        Some(other) if other == kind => Ok(()),
        Some(other) => Err(OutputFault::Taken(other)),
    }
}

/// Stores bytes of a kind under the name of a target, as `store` does, where no file stands there, or an empty one, or
/// one of that kind: else it is `Taken` by another, which is left. A target that is forced is not read, and what stands
/// there is replaced. `File` comes where what stands there is not read, and no file has changed then, or as from
/// `store`.
pub fn store_over<F: Files, A: Allocator + Copy>(
    alloc: A,
    files: &mut F,
    target: &Target<'_>,
    bytes: &[u8],
    kind: Kind,
) -> Result<(), OutputFault>
    ensures ok { OnOk result (IsReplaced target.now.name.now bytes.now (F.shelf files.old).kept
        (F.shelf files.new).kept) }
    ensures free { OnOk result (GivesWay (destination target.now.name.now target.now.force) kind
        (F.shelf files.old).kept) }
    ensures counted { OnOk result ((F.shelf files.new).failures ≡ (F.shelf files.old).failures) }
    ensures err { IfErr result (IsNotPut (destination target.now.name.now target.now.force) kind (F.shelf files.old)
        (F.shelf files.new)) }
    ensures held { HoldsOn (F.shelf files.old).held (F.shelf files.new).held }
    ensures touched { OnOk result ((F.shelf files.new).held ≡ touched (F.shelf files.old).held) }
{
    if !target.force {
        leave_others(alloc, files, target.name, kind)?;
    }
    store(alloc, files, target.name, bytes)?;
    Ok(())
}
