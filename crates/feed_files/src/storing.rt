//! A file that is replaced as a whole.

ghost use Rattle.std.specs.Prelude.{◌≡◌, ◌≢◌, ◌≤◌, IfErr, IfOk, IsErrOf, OnErr, OnOk, string_bytes};
ghost use Rattle.feed_files.specs.Files.{Counts, HasNoPlace, HoldsOn, IsReplaced, Spares, new_name, touched};

use crate::files::{FileRefusal, Files};
use std::alloc::{AllocError, Allocator};

/// The name under which a file is written before it takes its place.
fn new_name<A: Allocator + Copy>(alloc: A, name: &str) -> Result<String<A>, AllocError>
    ensures { IfOk result (λ s. string_bytes s ≡ new_name name.now) }
{
    let mut new = String::from_str(alloc, name)?;
    new.push_str(".new")?;
    Ok(new)
}

/// Stores bytes under a name: they are written as `name.new`, which then takes the name. So whatever fails, the file
/// has its old bytes or the new ones: after an `Err` the old ones, and what stands under `name.new` is open. No other
/// file changes. `Missing` comes only where no file can have the name or `name.new`, `Device` only where the device
/// failed in this call, by the count while it can rise, and `Large` never.
pub fn store<F: Files, A: Allocator + Copy>(
    alloc: A,
    files: &mut F,
    name: &str,
    bytes: &[u8],
) -> Result<(), FileRefusal>
    ensures small { IfErr result (λ e. e ≢ FileRefusal.Large) }
    ensures missing { IsErrOf result FileRefusal.Missing → HasNoPlace name.now (F.shelf files.old).kept }
    ensures counted { Counts result (F.shelf files.old) (F.shelf files.new) }
    ensures held { HoldsOn (F.shelf files.old).held (F.shelf files.new).held }
    ensures touched { OnOk result ((F.shelf files.new).held ≡ touched (F.shelf files.old).held) }
    ensures ok { OnOk result (IsReplaced name.now bytes.now (F.shelf files.old).kept (F.shelf files.new).kept) }
    ensures err { OnErr result (Spares (new_name name.now) (F.shelf files.old).kept (F.shelf files.new).kept) }
{
    let new = new_name(alloc, name)?;
    files.write_new(new.as_str(), bytes)?;
    files.rename(new.as_str(), name)
}
