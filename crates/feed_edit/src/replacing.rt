//! A text in the copy of a stored feed, made another.

ghost use Rattle.std.specs.Prelude.{◌≡◌, ◌≢◌, ◌≤◌, ◌<◌, ◌+◌, ◌-◌, ◌*◌, ◌++◌, ◌⊎◌, [], length, take, drop};
ghost use Rattle.std.specs.Prelude.{IfErr, IfOk, OnOk};
ghost use Rattle.desk_ops.specs.OpSet.{max_ops};
ghost use Rattle.desk_ops.specs.Shown.{copy_of};
ghost use Rattle.feed_files.specs.Files.{IsHeldAlone, Stays};
ghost use Rattle.text_copy.specs.Laws.{AreLawful};
ghost use Rattle.feed_edit.specs.Replacing.{IsReplaced, IsUnreplaced, replaced_at};
ghost use Rattle.feed_edit.specs.Reporting.{AreApart, IsReported, taken};

use crate::fault::RevisionFault;
use crate::replace_fault::{PlaceFault, ReplaceFault};
use crate::reporting::places_taken;
use crate::texts::{Exchange, Where, read_both};
use crate::{Origin, Room, report_and_keep, revise, take_feed};
use desk_blocks::Blocks;
use desk_held::LIMIT;
use desk_memory::NoMemory;
use desk_ops::Symbol;
use desk_replica::Replica;
use feed_files::Files;
use feed_stored::{let_in, mark};
use std::alloc::Allocator;
use std::io::Write;

/// How many symbols a copy of so many has with a text in place of others at so many places, or some number that is
/// less, and more than a copy may have.
fn len_with(len: usize, places: usize, count: usize, new: usize) -> usize
    requires { places * count ≤ len }
    ensures { result + places * count ≤ len + places * new }
{
    (len - places * count).saturating_add(places.saturating_mul(new))
}

/// Adds the symbols of a copy from one place up to another, and a text.
fn add_turn<A: Allocator + Copy>(
    text: &mut Vec<Symbol, A>,
    copy: &[Symbol],
    from: usize,
    until: usize,
    new: &[Symbol],
) -> Result<(), NoMemory>
    requires order { from ≤ until }
    requires within { until ≤ length copy.now }
    ensures { OnOk result (text.new.items ≡ text.old.items ++ (take (until - from) (drop from copy.now) ++ new.now)) }
{
    text.extend_from_slice(&copy[from..until])?;
    text.extend_from_slice(new)?;
    Ok(())
}

/// A copy with a text in place of so many symbols at each of these places.
fn replaced<A: Allocator + Copy>(
    alloc: A,
    copy: &[Symbol],
    places: &[usize],
    count: usize,
    new: &[Symbol],
) -> Result<Vec<Symbol, A>, NoMemory>
    requires { AreApart count 0 (length copy.now) places.now }
    ensures { IfOk result (λ v. v.items ≡ replaced_at places.now count new.now copy.now) }
{
    let mut text = Vec::new(alloc);
    let mut from = 0;
    for place in places {
        add_turn(&mut text, copy, from, *place, new)?;
        from = *place + count;
    }
    text.extend_from_slice(&copy[from..])?;
    Ok(text)
}

/// A copy with a text in place of so many symbols at each of these places. It is refused where it is longer than any
/// copy, before it is made.
fn exchanged<A: Allocator + Copy>(
    alloc: A,
    copy: &[Symbol],
    places: &[usize],
    count: usize,
    new: &[Symbol],
) -> Result<Vec<Symbol, A>, RevisionFault>
    requires { AreApart count 0 (length copy.now) places.now }
    ensures ok { IfOk result (λ v. v.items ≡ replaced_at places.now count new.now copy.now) }
    ensures lawful { AreLawful new.now → AreLawful copy.now → IfOk result (λ v. AreLawful v.items) }
    ensures err { IfErr result
        (λ why. (why ≡ RevisionFault.NoMemory)
        ⊎ ((why ≡ RevisionFault.Full) × (max_ops < length (replaced_at places.now count new.now copy.now)))) }
{
    if len_with(copy.len(), places.len(), count, new.len()) > LIMIT {
        return Err(RevisionFault::Full);
    }
    Ok(replaced(alloc, copy, places, count, new)?)
}

/// The copy of a replica, and the places in it at which a text is exchanged. Where there are none, the places of the
/// text are reported.
fn taken_in<W: Write, A: Allocator + Copy>(
    alloc: A,
    replica: &Replica<Blocks<A>>,
    writer: &mut W,
    at: Where,
    old: &[Symbol],
) -> Result<(Vec<Symbol, A>, Vec<usize, A>), PlaceFault>
    ensures copy { IfOk result (λ t. t.0.items ≡ copy_of replica.now.ops) }
    ensures lawful { IfOk result (λ t. AreLawful t.0.items) }
    ensures taken { IfOk result (λ t. t.1.items ≡ taken at old.now (copy_of replica.now.ops)) }
    ensures some { IfOk result (λ t. t.1.items ≢ []) }
    ensures apart { IfOk result (λ t. AreApart (length old.now) 0 (length t.0.items) t.1.items) }
    ensures silent { OnOk result (writer.new ≡ writer.old) }
    ensures err { IfErr result
        (IsReported at old.now (copy_of replica.now.ops) (W.contents writer.old) (W.contents writer.new)) }
{
    let copy = replica.copy()?;
    let places = places_taken(alloc, writer, at, old, &copy)?;
    Ok((copy, places))
}

/// Makes a text another in the copy of a stored feed, by few inserts and deletes of the site; no other operation is
/// made, and nothing that the feed held is lost. It is exchanged at its one place, at the place that is asked for, or
/// at all places from the left, but those that overlap one exchanged before. Both texts are read as `text_copy` reads
/// them, with marks for their styles or plain, before anything is begun; `Exchange` is the first fault of one.
/// The name of the feed is then taken, for this run alone; a missing one holds nothing. `Last` comes unless an older
/// feed is wanted: the feed holds less of the site than FEED.last says that it made here. The line `ok inserted 4
/// deleted 4` is written, and the feed is stored, unless the file has these bytes.
///
/// Nothing is exchanged where the text has no place, where it has several and the only one is asked for, or where it
/// has not the place that is asked for. Nor is an empty text at all places, unless the copy is empty too. Then the line
/// `no place` is written, or a line for each of the first 100 places, as `place 17: by noon`, and nothing is stored.
/// Places that overlap count each, and an empty text is at each place. A copy of more than 1,048,576 symbols is refused
/// as `Full` before it is made.
///
/// Until the line is written no file has changed, and where the feed is not stored none but `name.new`. Once it is
/// stored FEED.last has the greatest counter of the site; where that cannot be written it stays.
pub fn replace_text<W: Write, F: Files, A: Allocator + Copy>(
    alloc: A,
    writer: &mut W,
    files: &mut F,
    room: Room<'_>,
    exchange: &Exchange<'_>,
) -> Result<(), ReplaceFault>
    requires { 1 ≤ room.site }
    ensures ok { OnOk result
        (IsReplaced room.entry exchange.now (F.shelf files.old) (F.shelf files.new) (W.contents writer.old)
        (W.contents writer.new)) }
    ensures err { IfErr result
        (IsUnreplaced room.entry exchange.now (F.shelf files.old) (F.shelf files.new) (W.contents writer.old)
        (W.contents writer.new)) }
    ensures held { IsHeldAlone room.entry.feed.now (F.shelf files.old) (F.shelf files.new)
        ⊎ ((writer.new ≡ writer.old) × Stays (F.shelf files.old) (F.shelf files.new)) }
{
    let (old, new) = read_both(alloc, exchange)?;
    let name = room.feed;
    let (stored, mut replica) = take_feed(alloc, files, name, room.site)?;
    let_in(alloc, files, name, &stored, &replica, room.older)?;
    let (copy, places) = taken_in(alloc, &replica, writer, exchange.at, &old)?;
    let text = exchanged(alloc, &copy, &places, old.len(), &new)?;
    let tally = revise(alloc, &mut replica, &text)?;
    let origin = Origin { name, old: &stored };
    report_and_keep(alloc, &replica, tally, writer, files, origin)?;
    mark(alloc, files, name, &replica);
    Ok(())
}
