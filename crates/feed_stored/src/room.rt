//! A stored feed that a room works on, which keeps how far its sites have come there.

ghost use Rattle.std.specs.Prelude.{◌≡◌, IfErr, OnOk};
ghost use Rattle.feed_files.specs.Files.{HoldsOn, Stays};
ghost use Rattle.feed_stored.specs.Stored.{was_read};
ghost use Rattle.feed_stored.specs.Room.{IsKeptOut, IsLetIn, IsMarked, is_compared};

use crate::last::{check_last, note_last};
use crate::last_fault::LastFault;
use desk_blocks::Blocks;
use desk_replica::Replica;
use feed_files::Files;
use std::alloc::Allocator;

/// Whether a feed is compared with FEED.last: one was read, and an older one is not wanted.
pub fn is_compared<A: Allocator + Copy>(old: &Option<Vec<u8, A>>, older: bool) -> bool
    ensures { result ≡ is_compared older (was_read old.now) }
{
    match old {
        Some(_) => !older,
        None => false,
    }
}

/// Refuses a feed that was opened as a replica, where it holds less of its site than FEED.last says that it made here.
/// A feed that was not there is let in, and any where an older one is wanted. No file changes.
pub fn let_in<F: Files, A: Allocator + Copy>(
    alloc: A,
    files: &mut F,
    name: &str,
    old: &Option<Vec<u8, A>>,
    replica: &Replica<Blocks<A>>,
    older: bool,
) -> Result<(), LastFault>
    ensures ok { OnOk result
        (IsLetIn name.now replica.now.site (is_compared older (was_read old.now)) replica.now.ops (F.shelf files.old)
        (F.shelf files.new)) }
    ensures err { IfErr result
        (IsKeptOut name.now replica.now.site (is_compared older (was_read old.now)) replica.now.ops (F.shelf files.old)
        (F.shelf files.new)) }
    ensures stays { Stays (F.shelf files.old) (F.shelf files.new) }
{
    if !is_compared(old, older) {
        return Ok(());
    }
    check_last(alloc, files, name, replica)
}

/// Puts the greatest counter of a replica's site into FEED.last, once its feed is stored. Where that fails the file is
/// as it was, and guards as before.
pub fn mark<F: Files, A: Allocator + Copy>(
    alloc: A,
    files: &mut F,
    name: &str,
    replica: &Replica<Blocks<A>>,
)
    ensures marked { IsMarked name.now replica.now.site replica.now.ops (F.shelf files.old) (F.shelf files.new) }
    ensures held { HoldsOn (F.shelf files.old).held (F.shelf files.new).held }
{
    let _ = note_last(alloc, files, name, replica);
}
