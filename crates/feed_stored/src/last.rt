//! FEED.last, read before a run and written after it.

ghost use Rattle.std.specs.Prelude.{◌≡◌, ◌↔◌, IfErr, IfOk, IsTrue, List, MatchOption, OnErr, OnOk, Some, ℕ};
ghost use Rattle.std.specs.Prelude.{string_bytes};
ghost use Rattle.feed_files.specs.Files.{HoldsOn, Spares, Stays, new_name};
ghost use Rattle.feed_stored.specs.Stored.{was_read};
ghost use Rattle.feed_stored.specs.Last.{HadStamps, IsHeldBack, IsNoted, IsNotOlder, SaysAll, SparesAll, last_name};
ghost use Rattle.feed_stored.specs.Last.{stamp_by};
ghost use Rattle.feed_stored.specs.Greatest.{greatest_of};
ghost use Rattle.feed_stored.specs.Text.{Records, last_text, with_stamp};
ghost use Rattle.desk_ops.specs.declared.op.Stamp.{Stamp};

use crate::greatest::greatest_in;
use crate::last_fault::LastFault;
use crate::stored_bytes;
use crate::text::{counter_of, stamps_in, text_with};
use desk_blocks::Blocks;
use desk_memory::NoMemory;
use desk_ops::Stamp;
use desk_replica::Replica;
use feed_files::{FileRefusal, Files, store};
use std::alloc::{AllocError, Allocator};

/// The name of the file beside a feed.
fn last_name<A: Allocator + Copy>(alloc: A, name: &str) -> Result<String<A>, AllocError>
    ensures { IfOk result (λ s. string_bytes s ≡ last_name name.now) }
{
    let mut last = String::from_str(alloc, name)?;
    last.push_str(".last")?;
    Ok(last)
}

/// What a text has for a site; none where it is no such text, or has nothing of the site.
pub fn recorded<A: Allocator + Copy>(
    alloc: A,
    bytes: &[u8],
    site: u16,
) -> Result<Option<u64>, NoMemory>
    ensures { IfOk result
        (λ o. MatchOption o ((made : ℕ) → Records bytes.now site made → ⊥) (λ made. Records bytes.now site made)) }
{
    match stamps_in(alloc, bytes)? {
        Some(stamps) => Ok(counter_of(&stamps, site)),
        None => Ok(None),
    }
}

/// What FEED.last has for a site; none also where it is missing, or is too large, or the device fails. No file changes.
fn made_here<F: Files, A: Allocator + Copy>(
    alloc: A,
    files: &mut F,
    name: &str,
    site: u16,
) -> Result<Option<u64>, NoMemory>
    ensures ok { IfOk result (λ o. SaysAll name.now site (F.shelf files.old) (F.shelf files.new) o) }
    ensures stays { Stays (F.shelf files.old) (F.shelf files.new) }
{
    let last = last_name(alloc, name)?;
    match files.read(alloc, last.as_str()) {
        Ok(bytes) => recorded(alloc, &bytes, site),
        Err(FileRefusal::NoMemory) => Err(NoMemory),
        Err(_) => Ok(None),
    }
}

/// Refuses a feed that holds less of a replica's site than FEED.last says that it made here. FEED.last refuses nothing
/// where it is missing, or is no such text, or the device fails. No file changes.
pub fn check_last<F: Files, A: Allocator + Copy>(
    alloc: A,
    files: &mut F,
    name: &str,
    replica: &Replica<Blocks<A>>,
) -> Result<(), LastFault>
    ensures ok { OnOk result
        (IsNotOlder name.now replica.now.site (greatest_of replica.now.ops replica.now.site) (F.shelf files.old)
        (F.shelf files.new)) }
    ensures err { IfErr result
        (IsHeldBack name.now replica.now.site (greatest_of replica.now.ops replica.now.site) (F.shelf files.old)) }
    ensures stays { Stays (F.shelf files.old) (F.shelf files.new) }
{
    let site = replica.site();
    let Some(made) = made_here(alloc, files, name, site)? else {
        return Ok(());
    };
    let held = greatest_in(replica, site)?;
    if held < made {
        return Err(LastFault::Older { made, held });
    }
    Ok(())
}

/// The stamps of what was read of FEED.last; none where it is no such text.
fn had_stamps<A: Allocator + Copy>(
    alloc: A,
    old: &Option<Vec<u8, A>>,
) -> Result<Vec<Stamp, A>, NoMemory>
    ensures { IfOk result (λ v. HadStamps (was_read old.now) v.items) }
{
    let Some(bytes) = old else {
        return Ok(Vec::new(alloc));
    };
    match stamps_in(alloc, bytes)? {
        Some(stamps) => Ok(stamps),
        None => Ok(Vec::new(alloc)),
    }
}

/// The text of what was read, with one stamp more in place of its site's.
fn noted_text<A: Allocator + Copy>(
    alloc: A,
    old: &Option<Vec<u8, A>>,
    stamp: Stamp,
) -> Result<String<A>, NoMemory>
    ensures { IfOk result (λ s. (stamps : List Stamp) × HadStamps (was_read old.now) stamps
        × (string_bytes s ≡ last_text (with_stamp stamps stamp))) }
{
    let stamps = had_stamps(alloc, old)?;
    text_with(alloc, &stamps, stamp)
}

/// Whether a text is what was read.
fn is_text<A: Allocator + Copy>(old: &Option<Vec<u8, A>>, text: &str) -> bool
    ensures { IsTrue result ↔ was_read old.now ≡ Some text.now }
{
    match old {
        Some(bytes) => bytes.as_slice() == text.as_bytes(),
        None => false,
    }
}

/// Puts a stamp into FEED.last, in place of its site's. After an `Err` that file is as it was.
fn note_stamp<F: Files, A: Allocator + Copy>(
    alloc: A,
    files: &mut F,
    name: &str,
    stamp: Stamp,
) -> Result<(), FileRefusal>
    ensures ok { OnOk result (IsNoted name.now stamp (F.shelf files.old) (F.shelf files.new)) }
    ensures err { OnErr result
        (Spares (new_name (last_name name.now)) (F.shelf files.old).kept (F.shelf files.new).kept) }
    ensures others { SparesAll name.now (F.shelf files.old).kept (F.shelf files.new).kept }
    ensures held { HoldsOn (F.shelf files.old).held (F.shelf files.new).held }
{
    let last = last_name(alloc, name)?;
    let old = stored_bytes(alloc, files, last.as_str())?;
    let Ok(text) = noted_text(alloc, &old, stamp) else {
        return Err(FileRefusal::NoMemory);
    };
    if is_text(&old, text.as_str()) {
        return Ok(());
    }
    store(alloc, files, last.as_str(), text.as_bytes())
}

/// Puts the greatest counter of a replica's site into FEED.last, once the feed was stored: in place of the site's,
/// greater or not, and beside those of other sites; a text that is none of these is replaced. After an `Err` FEED.last
/// is as it was, and guards as it did. Of all names only `FEED.last` and `FEED.last.new` may stand for something else.
pub fn note_last<F: Files, A: Allocator + Copy>(
    alloc: A,
    files: &mut F,
    name: &str,
    replica: &Replica<Blocks<A>>,
) -> Result<(), FileRefusal>
    ensures ok { OnOk result
        (IsNoted name.now (stamp_by replica.now.ops replica.now.site) (F.shelf files.old) (F.shelf files.new)) }
    ensures err { OnErr result
        (Spares (new_name (last_name name.now)) (F.shelf files.old).kept (F.shelf files.new).kept) }
    ensures others { SparesAll name.now (F.shelf files.old).kept (F.shelf files.new).kept }
    ensures held { HoldsOn (F.shelf files.old).held (F.shelf files.new).held }
{
    let site = replica.site();
    let Ok(counter) = greatest_in(replica, site) else {
        return Err(FileRefusal::NoMemory);
    };
    note_stamp(alloc, files, name, Stamp { counter, site })
}
