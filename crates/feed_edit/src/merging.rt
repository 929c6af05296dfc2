//! The feeds of other files, merged into a stored feed.

ghost use Rattle.std.specs.Prelude.{◌≡◌, ◌≢◌, ◌+◌, ◌≤◌, ◌⊎◌, ◌++◌, ◌&&◌, All, IfErr, IfOk, List, OnOk, false, map};
ghost use Rattle.std.specs.Prelude.{string_bytes};
ghost use Rattle.std.specs.List.Sorted.{IsStrictlySortedBy};
ghost use Rattle.desk_ops.specs.Op.{IsLawful};
ghost use Rattle.desk_ops.specs.OpSet.{OpSet, size, with_all};
ghost use Rattle.desk_ops.specs.declared.op.Op.{Op};
ghost use Rattle.desk_replica.specs.State.{IsCounted};
ghost use Rattle.feed_files.specs.Files.{IsHeldAlone, Reads, Stays};
ghost use Rattle.feed_stored.specs.Stored.{Opens, as_read, was_read};
ghost use Rattle.feed_readings.specs.Before.{IsJoin};
ghost use Rattle.feed_edit.specs.Forks.{AreFound, IsAllowed, IsKnown};
ghost use Rattle.feed_edit.specs.Merging.{IsBarred, IsBarredBy, IsFeedOf, IsJoined, IsMerged, IsOpened, IsTaken};
ghost use Rattle.feed_edit.specs.Merging.{IsUnmerged, JoinsKnown, Refuses, StopsJoining, StoresNoNewFork, counted_line};
ghost use Rattle.feed_edit.specs.Merging.{faults_line, is_clean, line_of};
ghost use Rattle.feed_edit.specs.Stamps.{site_cmp};

use crate::fault::{FeedTrouble, MergeFault, TakeFault};
use crate::forks::{Known, forks_beside, known_in};
use crate::keeping::{Origin, write_and_keep};
use crate::stamps::{SiteStamp, SiteStamps};
use desk_blocks::Blocks;
use desk_codec::{ReadFault, read_feed};
use desk_memory::NoMemory;
use desk_ops::Op;
use desk_replica::{Count, Replica};
use feed_files::Files;
use feed_readings::{Before, before_of, report_after};
use feed_stored::{open_replica, stored_bytes};
use script_answers::{Reply, put};
use std::alloc::Allocator;
use std::io::Write;
use text_copy::put_plain;

/// A replica has a number, and where nothing is edited any will do.
pub const ANY_SITE: u16 = 1;

/// The operations of the feed of a file, which must be there.
pub fn operations_of<F: Files, A: Allocator + Copy>(
    alloc: A,
    files: &mut F,
    name: &str,
) -> Result<Vec<Op, A>, FeedTrouble>
    ensures ok { IfOk result (λ v. IsFeedOf ((F.shelf files.old).kept name.now) v.items
        × ((F.shelf files.new).failures ≡ (F.shelf files.old).failures)) }
    ensures lawful { IfOk result (λ v. All IsLawful v.items) }
    ensures err { IfErr result (λ e. (set : OpSet) → Refuses set name.now (F.shelf files.old) (F.shelf files.new) e) }
    ensures never_full { IfErr result (λ e. e ≢ FeedTrouble.Full) }
    ensures stays { Stays (F.shelf files.old) (F.shelf files.new) }
{
    let bytes = files.read(alloc, name)?;
    match read_feed(alloc, &bytes) {
        Ok(ops) => Ok(ops),
        Err(ReadFault::Fault(fault)) => Err(FeedTrouble::Feed(fault)),
        Err(ReadFault::NoMemory) => Err(FeedTrouble::NoMemory),
        Err(ReadFault::Failed) => unreachable!(),
    }
}

/// The line of a file.
fn counted_line<A: Allocator + Copy>(
    alloc: A,
    name: &str,
    count: Count,
) -> Result<String<A>, NoMemory>
    ensures { IfOk result (λ s. string_bytes s ≡ counted_line name.now count.new count.known) }
{
    let counted: Reply<A> = Reply::Counted {
        new: count.new,
        known: count.known,
    };
    let mut line = String::new(alloc);
    put_plain(&mut line, name)?;
    line.push_str(" ")?;
    put(&mut line, &counted)?;
    line.push_str("\n")?;
    Ok(line)
}

/// The line of a file and its open readings, and whether there are none: by what was kept of a replica, the operations
/// that were joined to it, and the replica that holds both.
fn lines_of<A: Allocator + Copy>(
    alloc: A,
    name: &str,
    count: Count,
    before: Before<A>,
    ops: Vec<Op, A>,
    both: &Replica<Blocks<A>>,
) -> Result<(Vec<u8, A>, bool), NoMemory>
    requires lawful { All IsLawful ops.items }
    requires joined { (set : OpSet) × IsJoin set ops.items before both.now.ops }
    ensures lines { (set : OpSet) → IsJoin set ops.items before both.now.ops
        → IsCounted set both.now.ops ops.items count → IfOk result (λ t. t.0.items ≡ line_of name.now set ops.items) }
    ensures clean { (set : OpSet) → IsJoin set ops.items before both.now.ops
        → IfOk result (λ t. t.1 ≡ is_clean set ops.items) }
{
    let line = counted_line(alloc, name, count)?;
    let (readings, open) = report_after(alloc, before, ops, both)?;
    let mut lines = Vec::new(alloc);
    lines.extend_from_slice(line.as_bytes())?;
    lines.extend_from_slice(&readings)?;
    Ok((lines, open == 0))
}

/// Writes lines at the end.
fn put_lines<A: Allocator + Copy>(out: &mut Vec<u8, A>, lines: &[u8]) -> Result<(), NoMemory>
    ensures { OnOk result (out.new.items ≡ out.old.items ++ lines.now) }
{
    Ok(out.extend_from_slice(lines)?)
}

/// The operations of a feed that were joined to a replica, what was kept of the replica before, and how many are new.
struct Taken<A: Allocator + Copy> {
    ops: Vec<Op, A>,
    before: Before<A>,
    count: Count,
}

/// Joins the feed of a file to what a replica holds.
fn take_file<F: Files, A: Allocator + Copy>(
    alloc: A,
    replica: &mut Replica<Blocks<A>>,
    files: &mut F,
    name: &str,
) -> Result<Taken<A>, FeedTrouble>
    ensures ok { IfOk result (IsTaken (F.shelf files.old).kept name.now replica.old.ops replica.new.ops) }
    ensures counted { OnOk result ((F.shelf files.new).failures ≡ (F.shelf files.old).failures) }
    ensures err { IfErr result (Refuses replica.old.ops name.now (F.shelf files.old) (F.shelf files.new)) }
    ensures stays { Stays (F.shelf files.old) (F.shelf files.new) }
{
    let ops = operations_of(alloc, files, name)?;
    let before = before_of(alloc, replica, &ops)?;
    let count = replica.take_all(&ops)?;
    Ok(Taken { ops, before, count })
}

/// The stamps that a replica forks and that are not known to be, unless forks are asked for or no operation is new.
fn forks_in<A: Allocator + Copy>(
    alloc: A,
    replica: &Replica<Blocks<A>>,
    known: &Known<A>,
    new: usize,
) -> Result<Vec<SiteStamp, A>, NoMemory>
    requires { IsStrictlySortedBy site_cmp known.now.stamps.items }
    ensures { (old : OpSet) (ops : List Op) → replica.now.ops ≡ with_all old ops → new + size old ≡ size replica.now.ops
        → IfOk result (λ v. AreFound known.now old replica.now.ops v.items) }
{
    if known.forks || new == 0 {
        return Ok(Vec::new(alloc));
    }
    forks_beside(alloc, replica, &known.stamps)
}

/// How the feed of a file was joined.
enum Joined<A: Allocator> {
    /// Its lines are written; and whether no reading is open.
    Written(bool),
    /// These stamps are forked then, and not known to be. No line is written.
    Forks(Vec<SiteStamp, A>),
}

/// Joins the feed of a file to what a replica holds, and writes its lines at the end, and whether no reading is open;
/// or the stamps that are forked then and not known to be, unless forks are asked for. Then no reading is looked for.
fn join_known<F: Files, A: Allocator + Copy>(
    alloc: A,
    replica: &mut Replica<Blocks<A>>,
    out: &mut Vec<u8, A>,
    files: &mut F,
    name: &str,
    known: &Known<A>,
) -> Result<Joined<A>, FeedTrouble>
    requires { IsStrictlySortedBy site_cmp known.now.stamps.items }
    ensures ok { IfOk result
        (JoinsKnown known.now
        (F.shelf files.old).kept name.now replica.old.ops replica.new.ops out.old.items out.new.items) }
    ensures counted { OnOk result ((F.shelf files.new).failures ≡ (F.shelf files.old).failures) }
    ensures err { IfErr result (Refuses replica.old.ops name.now (F.shelf files.old) (F.shelf files.new)) }
    ensures stays { Stays (F.shelf files.old) (F.shelf files.new) }
{
    let Taken { ops, before, count } = take_file(alloc, replica, files, name)?;
    let stamps = forks_in(alloc, replica, known, count.new)?;
    if !stamps.is_empty() {
        return Ok(Joined::Forks(stamps));
    }
    let (lines, clean) = lines_of(alloc, name, count, before, ops, replica)?;
    put_lines(out, &lines)?;
    Ok(Joined::Written(clean))
}

/// Whether both hold.
fn are_both(one: bool, other: bool) -> bool
    ensures { result ≡ (one && other) }
{
    one && other
}

/// Joins the feeds of files to what a replica holds, in their order: the lines of each and whether no reading was open,
/// or the place of the first that does not come in or that adds a fork, and why. Known are the stamps that the replica
/// forks.
fn join_files<F: Files, A: Allocator + Copy>(
    alloc: A,
    replica: &mut Replica<Blocks<A>>,
    files: &mut F,
    names: &[&str],
    known: &Known<A>,
) -> Result<(Vec<u8, A>, bool), MergeFault<A>>
    requires { IsKnown replica.old.ops known.now }
    ensures ok { IfOk result
        (λ t. IsJoined (F.shelf files.old).kept
        (map (λ n. n.now) names.now) replica.old.ops replica.new.ops t.0.items t.1) }
    ensures allowed { OnOk result (IsAllowed known.now.forks replica.old.ops replica.new.ops) }
    ensures counted { OnOk result ((F.shelf files.new).failures ≡ (F.shelf files.old).failures) }
    ensures err { IfErr result
        (StopsJoining (map (λ n. n.now) names.now) known.now.forks replica.old.ops (F.shelf files.old)
        (F.shelf files.new)) }
    ensures stays { Stays (F.shelf files.old) (F.shelf files.new) }
{
    let mut out = Vec::new(alloc);
    let mut clean = true;
    for at in 0..names.len() {
        let joined = match join_known(alloc, replica, &mut out, files, names[at], known) {
            Ok(joined) => joined,
            Err(why) => return Err(MergeFault::Other { at, why }),
        };
        match joined {
            Joined::Written(closed) => clean = are_both(clean, closed),
            Joined::Forks(stamps) => {
                let stamps = SiteStamps::from_vec(stamps);
                return Err(MergeFault::Forks { at, stamps });
            }
        }
    }
    Ok((out, clean))
}

/// Opens the feed that is stored under a name as a replica of a site; with it the bytes that were read. Where no file
/// is there it holds nothing.
fn open_stored<F: Files, A: Allocator + Copy>(
    alloc: A,
    files: &mut F,
    name: &str,
    site: u16,
) -> Result<(Option<Vec<u8, A>>, Replica<Blocks<A>>), FeedTrouble>
    requires { 1 ≤ site }
    ensures read { IfOk result (λ p. Reads ((F.shelf files.old).kept name.now) (as_read (was_read p.0))) }
    ensures ok { IfOk result (λ p. Opens (was_read p.0) p.1.ops) }
    ensures site { IfOk result (λ p. p.1.site ≡ site) }
    ensures same { OnOk result (F.shelf files.new ≡ F.shelf files.old) }
    ensures err { IfErr result (IsBarredBy name.now (F.shelf files.old) (F.shelf files.new)) }
    ensures stays { Stays (F.shelf files.old) (F.shelf files.new) }
{
    let old = stored_bytes(alloc, files, name)?;
    let replica = open_replica(alloc, &old, site)?;
    Ok((old, replica))
}

/// Takes a name for this run alone, and opens the feed that is stored under it as a replica of a site; with it the
/// bytes that were read. Where no file is there it holds nothing.
pub fn take_feed<F: Files, A: Allocator + Copy>(
    alloc: A,
    files: &mut F,
    name: &str,
    site: u16,
) -> Result<(Option<Vec<u8, A>>, Replica<Blocks<A>>), TakeFault>
    requires { 1 ≤ site }
    ensures ok { IfOk result (λ p. IsOpened name.now (F.shelf files.old) (F.shelf files.new) (was_read p.0) p.1.ops) }
    ensures site { IfOk result (λ p. p.1.site ≡ site) }
    ensures err { IfErr result (IsBarred name.now (F.shelf files.old) (F.shelf files.new)) }
    ensures held { IsHeldAlone name.now (F.shelf files.old) (F.shelf files.new)
        ⊎ Stays (F.shelf files.old) (F.shelf files.new) }
{
    files.hold(name).map_err(TakeFault::Untaken)?;
    Ok(open_stored(alloc, files, name, site)?)
}

/// Takes a name for this run alone, and opens the feed that is stored under it; with it the bytes that were read, and
/// the stamps that it forks, unless forks are asked for.
fn take_known<F: Files, A: Allocator + Copy>(
    alloc: A,
    files: &mut F,
    name: &str,
    forks: bool,
) -> Result<(Option<Vec<u8, A>>, Replica<Blocks<A>>, Known<A>), TakeFault>
    ensures ok { IfOk result (λ p. IsOpened name.now (F.shelf files.old) (F.shelf files.new) (was_read p.0) p.1.ops) }
    ensures known { IfOk result (λ p. IsKnown p.1.ops p.2) }
    ensures forks { IfOk result (λ p. p.2.forks ≡ forks) }
    ensures err { IfErr result (IsBarred name.now (F.shelf files.old) (F.shelf files.new)) }
    ensures held { IsHeldAlone name.now (F.shelf files.old) (F.shelf files.new)
        ⊎ Stays (F.shelf files.old) (F.shelf files.new) }
{
    let (old, replica) = take_feed(alloc, files, name, ANY_SITE)?;
    let known = known_in(alloc, &replica, forks)?;
    Ok((old, replica, known))
}

/// Writes the line of the copy's faults at the end.
fn put_faults<A: Allocator + Copy>(
    alloc: A,
    replica: &Replica<Blocks<A>>,
    out: &mut Vec<u8, A>,
) -> Result<(), NoMemory>
    ensures { OnOk result (out.new.items ≡ out.old.items ++ faults_line replica.now.ops) }
{
    let faults = Reply::Faults(replica.copy_faults()?);
    let mut line = String::new(alloc);
    put(&mut line, &faults)?;
    line.push_str("\n")?;
    put_lines(out, line.as_bytes())
}

/// Merges the feeds of files into a stored feed, whose name it takes first and for itself alone: a missing one holds
/// nothing. Each of the others must be there, and may be that feed itself. In their order each has a line, `NAME ok new
/// 45 known 29857`, and behind it the open readings of what was joined so far and of that feed, as `report_readings`
/// has them. At the end stand the faults of the copy, as the command `faults` has them. Once all that is written the
/// feed of the union is stored, unless the file has these bytes; the answer is whether no reading was open. Unless
/// forks are asked for, the first of the others with which a stamp is forked that the stored feed does not fork stops
/// all: `Forks` has all such stamps. Where it stops no file has changed but, once all was written, `name.new`.
pub fn merge_feeds<W: Write, F: Files, A: Allocator + Copy>(
    alloc: A,
    writer: &mut W,
    files: &mut F,
    name: &str,
    others: &[&str],
    forks: bool,
) -> Result<bool, MergeFault<A>>
    ensures ok { IfOk result
        (IsMerged name.now (map (λ n. n.now) others.now) forks (F.shelf files.old) (F.shelf files.new)
        (W.contents writer.old) (W.contents writer.new)) }
    ensures unforked { forks ≡ false → OnOk result (StoresNoNewFork name.now (F.shelf files.old) (F.shelf files.new)) }
    ensures err { IfErr result
        (IsUnmerged name.now (map (λ n. n.now) others.now) forks (F.shelf files.old) (F.shelf files.new)
        (W.contents writer.old) (W.contents writer.new)) }
    ensures held { IsHeldAlone name.now (F.shelf files.old) (F.shelf files.new)
        ⊎ ((writer.new ≡ writer.old) × Stays (F.shelf files.old) (F.shelf files.new)) }
{
    let (old, mut replica, known) = take_known(alloc, files, name, forks)?;
    let (mut out, clean) = join_files(alloc, &mut replica, files, others, &known)?;
    put_faults(alloc, &replica, &mut out)?;
    let origin = Origin { name, old: &old };
    write_and_keep(alloc, &replica, &out, writer, files, origin)?;
    Ok(clean)
}
