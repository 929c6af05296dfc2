//! The feed of a file, before and after a replica.

ghost use Rattle.std.specs.Prelude.{◌≡◌, ◌↔◌, ◌≤◌, All, IfErr, IfOk, IsTrue, OnOk, Some};
ghost use Rattle.desk_codec.specs.Runs.{set_feed};
ghost use Rattle.desk_ops.specs.Op.{IsLawful};
ghost use Rattle.desk_ops.specs.OpSet.{max_ops, size};
ghost use Rattle.feed_files.specs.Files.{Counts, HoldsOn, Reads, Stays};
ghost use Rattle.feed_stored.specs.Fault.{IsNotStored, IsUnopened, IsUnread};
ghost use Rattle.feed_stored.specs.Stored.{IsStoredAs, Opens, Stores, as_read, was_read};

use crate::fault::OpenFault;
use desk_blocks::Blocks;
use desk_codec::{ReadFault, read_feed};
use desk_held::put_in_turn;
use desk_ops::Op;
use desk_replica::Replica;
use feed_files::{FileRefusal, Files, store};
use std::alloc::Allocator;

/// The bytes of a stored feed, if a file is there. No file changes.
pub fn stored_bytes<F: Files, A: Allocator + Copy>(
    alloc: A,
    files: &mut F,
    name: &str,
) -> Result<Option<Vec<u8, A>>, FileRefusal>
    ensures ok { IfOk result (λ old. Reads ((F.shelf files.old).kept name.now) (as_read (was_read old))
        × Counts (as_read (was_read old)) (F.shelf files.old) (F.shelf files.new)) }
    ensures err { IfErr result (IsUnread name.now (F.shelf files.old) (F.shelf files.new)) }
    ensures stays { Stays (F.shelf files.old) (F.shelf files.new) }
{
    match files.read(alloc, name) {
        Ok(bytes) => Ok(Some(bytes)),
        Err(FileRefusal::Missing) => Ok(None),
        Err(why) => Err(why),
    }
}

/// The operations of what was stored; none where no file is there.
pub fn operations_in<A: Allocator + Copy>(
    alloc: A,
    old: &Option<Vec<u8, A>>,
) -> Result<Vec<Op, A>, OpenFault>
    ensures feed { IfOk result (λ ops. Stores (was_read old.now) ops.items) }
    ensures lawful { IfOk result (λ ops. All IsLawful ops.items) }
    ensures fault { IfErr result (IsUnopened (was_read old.now)) }
{
    let Some(bytes) = old else {
        return Ok(Vec::new(alloc));
    };
    match read_feed(alloc, bytes) {
        Ok(ops) => Ok(ops),
        Err(ReadFault::Fault(fault)) => Err(OpenFault::Feed(fault)),
        Err(ReadFault::NoMemory) => Err(OpenFault::NoMemory),
        Err(ReadFault::Failed) => unreachable!(),
    }
}

/// A replica of a site, which holds the operations of what was stored. `Opening` comes only where those are more than
/// 1,048,576 different ones.
pub fn open_replica<A: Allocator + Copy>(
    alloc: A,
    old: &Option<Vec<u8, A>>,
    site: u16,
) -> Result<Replica<Blocks<A>>, OpenFault>
    requires { 1 ≤ site }
    ensures site { IfOk result (λ r. r.site ≡ site) }
    ensures ok { IfOk result (λ r. Opens (was_read old.now) r.ops) }
    ensures limit { IfOk result (λ r. size r.ops ≤ max_ops) }
    ensures err { IfErr result (IsUnopened (was_read old.now)) }
{
    let mut ops = operations_in(alloc, old)?;
    put_in_turn(&mut ops);
    Ok(Replica::open(alloc, site, &ops)?)
}

/// Whether a feed is what was stored.
fn is_stored<A: Allocator + Copy>(old: &Option<Vec<u8, A>>, feed: &[u8]) -> bool
    ensures { IsTrue result ↔ was_read old.now ≡ Some feed.now }
{
    match old {
        Some(bytes) => bytes.as_slice() == feed,
        None => false,
    }
}

/// Stores the feed of a replica under a name, if it is not what was stored there. After an `Err` no file has changed
/// but
/// `name.new`.
pub fn keep_replica<F: Files, A: Allocator + Copy>(
    alloc: A,
    replica: &Replica<Blocks<A>>,
    files: &mut F,
    name: &str,
    old: &Option<Vec<u8, A>>,
) -> Result<(), FileRefusal>
    ensures ok { OnOk result
        (IsStoredAs name.now (set_feed replica.now.ops) (was_read old.now) (F.shelf files.old) (F.shelf files.new)) }
    ensures err { IfErr result (IsNotStored name.now (F.shelf files.old) (F.shelf files.new)) }
    ensures held { HoldsOn (F.shelf files.old).held (F.shelf files.new).held }
{
    let Ok(feed) = replica.write_feed() else {
        return Err(FileRefusal::NoMemory);
    };
    if is_stored(old, &feed) {
        return Ok(());
    }
    store(alloc, files, name, &feed)
}
