//! Ribbons one after the other, as one ribbon.

ghost use Rattle.std.specs.Prelude.{◌≡◌, ◌≤◌, ◌++◌, ◌-◌, ◌/◌, IfErr, OnOk, length, take, drop};
ghost use Rattle.std.specs.Int.{to_be_bytes, w32};
ghost use Rattle.feed_files.specs.Files.{max_file};
ghost use Rattle.view_punch.specs.Joining.{AreJoined, IsTooLong, IsUnjoined};

use desk_memory::NoMemory;
use feed_files::MAX_FILE;
use std::alloc::Allocator;
use view_preview::PreviewFault;

/// Refuses so many bytes where they are more than 67,108,864.
fn within(bytes: usize) -> Result<(), PreviewFault>
    ensures ok { OnOk result (bytes ≤ max_file) }
    ensures err { IfErr result (IsTooLong bytes) }
{
    if bytes <= MAX_FILE {
        Ok(())
    } else {
        Err(PreviewFault::TooLong)
    }
}

/// Refuses bytes that are more than 67,108,864.
pub fn fits(bytes: &[u8]) -> Result<(), PreviewFault>
    ensures ok { OnOk result (length bytes.now ≤ max_file) }
    ensures err { IfErr result (IsTooLong (length bytes.now)) }
{
    within(bytes.len())
}

/// Adds bytes at the end.
fn append<A: Allocator>(joined: &mut Vec<u8, A>, rows: &[u8]) -> Result<(), NoMemory>
    ensures { OnOk result (joined.new.items ≡ joined.old.items ++ rows.now) }
{
    Ok(joined.extend_from_slice(rows)?)
}

/// Counts the rows of a ribbon anew.
fn count_rows<A: Allocator>(joined: &mut Vec<u8, A>)
    requires head { 8 ≤ length joined.old.items }
    requires within { length joined.old.items ≤ max_file }
    ensures { joined.new.items ≡ take 4 joined.old.items
        ++ (to_be_bytes w32 ((length joined.old.items - 8) / 4) ++ drop 8 joined.old.items) }
{
    let rows = (joined.len() - 8) / 4;
    joined[4..8].copy_from_slice(&(rows as u32).to_be_bytes());
}

/// Adds the rows of a ribbon to those of another. A ribbon of more than 67,108,864 bytes is refused, and then nothing
/// has changed.
pub fn join<A: Allocator>(joined: &mut Vec<u8, A>, next: &[u8]) -> Result<(), PreviewFault>
    requires first { 8 ≤ length joined.old.items }
    requires next { 8 ≤ length next.now }
    ensures ok { OnOk result (AreJoined joined.old.items next.now joined.new.items) }
    ensures within { OnOk result (length joined.new.items ≤ max_file) }
    ensures err { IfErr result (IsUnjoined joined.old.items next.now) }
{
    let rows = &next[8..];
    within(joined.len() + rows.len())?;
    append(joined, rows)?;
    count_rows(joined);
    Ok(())
}
