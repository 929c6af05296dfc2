//! The rooms of a stored feed, as text: what each site made, and what the copy shows of it.

ghost use Rattle.std.specs.Prelude.{◌≡◌, ◌++◌, IfErr, IfOk, OnOk, map, string_bytes};
ghost use Rattle.desk_ops.specs.OpSet.{OpSet};
ghost use Rattle.feed_files.specs.Files.{Stays};
ghost use Rattle.feed_history.specs.Rooms.{IsNoRoomsOf, IsRoomsOf, copy_words, counts_words, fault_site, kinds_words};
ghost use Rattle.feed_history.specs.Rooms.{line_of, rooms_text, shown_words, site_lines, sites_shown, span_words};
ghost use Rattle.feed_history.specs.RoomsTables.{AreRooms, AreTimes, sites_in};

use crate::rooms_made::{Made, SITES, made_of, made_of_each, times_of_each};
use desk_blocks::Blocks;
use desk_memory::NoMemory;
use desk_ops::{CopyFault, Op, Stamp};
use desk_replica::Replica;
use desk_seq::Sequence;
use feed_edit::{ExportFault, open_feed};
use feed_files::Files;
use feed_stored::write_out;
use std::alloc::{AllocError, Allocator};
use std::io::Write;

/// Writes the number of a site, and the least and the greatest of its stamps.
fn put_span<A: Allocator + Copy>(
    out: &mut String<A>,
    site: u16,
    made: &Made,
) -> Result<(), AllocError>
    ensures { OnOk result (string_bytes out.new ≡ string_bytes out.old ++ span_words site made.now) }
{
    let from = Stamp {
        counter: made.least,
        site,
    };
    let to = Stamp {
        counter: made.greatest,
        site,
    };
    write!(out, "site {site} from {from} to {to}")?;
    if made.gaps {
        out.push_str(" with gaps")?;
    }
    Ok(())
}

/// Writes how many operations there are of each kind.
fn put_kinds<A: Allocator + Copy>(out: &mut String<A>, made: &Made) -> Result<(), AllocError>
    ensures { OnOk result (string_bytes out.new ≡ string_bytes out.old ++ kinds_words made.now) }
{
    let inserts = made.inserts;
    let deletes = made.deletes;
    let sets = made.sets;
    write!(out, ": inserts {inserts}, deletes {deletes}, sets {sets}")
}

/// Writes how many symbols are shown and how many faults there are, and ends the line.
fn put_shown<A: Allocator + Copy>(
    out: &mut String<A>,
    shown: usize,
    faults: usize,
) -> Result<(), AllocError>
    ensures { OnOk result (string_bytes out.new ≡ string_bytes out.old ++ shown_words shown faults) }
{
    write!(out, ", shown {shown}, faults {faults}\n")
}

/// Writes the counts of a line.
fn put_counts<A: Allocator + Copy>(
    out: &mut String<A>,
    made: &Made,
    shown: usize,
    faults: usize,
) -> Result<(), AllocError>
    ensures { OnOk result (string_bytes out.new ≡ string_bytes out.old ++ counts_words made.now shown faults) }
{
    put_kinds(out, made)?;
    put_shown(out, shown, faults)
}

/// Writes the line of a site, if it made an operation.
fn put_line<A: Allocator + Copy>(
    out: &mut String<A>,
    site: u16,
    made: &Made,
    shown: usize,
    faults: usize,
) -> Result<(), AllocError>
    ensures { OnOk result (string_bytes out.new ≡ string_bytes out.old ++ line_of site made.now shown faults) }
{
    if made.inserts == 0 && made.deletes == 0 && made.sets == 0 {
        return Ok(());
    }
    put_span(out, site, made)?;
    put_counts(out, made, shown, faults)
}

/// Writes the line of each site that made an operation, the sites rising.
fn put_lines<A: Allocator + Copy>(
    out: &mut String<A>,
    made: &[Made],
    shown: &[usize],
    faults: &[usize],
) -> Result<(), AllocError>
    requires { (set : OpSet) × AreRooms set made.now shown.now faults.now }
    ensures { OnOk result ((set : OpSet) → AreRooms set made.now shown.now faults.now
        → string_bytes out.new ≡ string_bytes out.old ++ site_lines set) }
{
    for site in 0..SITES {
        put_line(out, site as u16, &made[site], shown[site], faults[site])?;
    }
    Ok(())
}

/// Writes the line of the whole copy.
fn put_copy<A: Allocator + Copy>(
    out: &mut String<A>,
    ops: &[Op],
    shown: usize,
    faults: usize,
) -> Result<(), AllocError>
    ensures { OnOk result (string_bytes out.new ≡ string_bytes out.old ++ copy_words ops.now shown faults) }
{
    out.push_str("copy")?;
    put_counts(out, &made_of(ops), shown, faults)
}

/// The site of each symbol that a sequence shows.
fn sites_in<Q: Sequence>(alloc: Q::Memory, sequence: &Q) -> Result<Vec<u16, Q::Memory>, AllocError>
    ensures { IfOk result (λ v. v.items ≡ sites_in (Q.entries sequence.now)) }
{
    let mut sites = Vec::with_capacity(alloc, sequence.shown_len())?;
    for at in 0..sequence.len() {
        let entry = sequence.entry(at);
        if !entry.deleted {
            sites.push(entry.stamp.site)?;
        }
    }
    Ok(sites)
}

/// The site of each fault.
fn sites_at_fault<A: Allocator + Copy>(
    alloc: A,
    faults: &[CopyFault],
) -> Result<Vec<u16, A>, AllocError>
    ensures { IfOk result (λ v. v.items ≡ map fault_site faults.now) }
{
    let mut sites = Vec::with_capacity(alloc, faults.len())?;
    for fault in faults {
        sites.push(fault.stamp.site)?;
    }
    Ok(sites)
}

/// How many symbols of each site a replica shows.
fn shown_of_each<Q: Sequence>(
    alloc: Q::Memory,
    replica: &Replica<Q>,
) -> Result<Vec<usize, Q::Memory>, NoMemory>
    ensures { IfOk result (λ v. AreTimes (sites_shown replica.now.ops) v.items) }
{
    let sites = sites_in(alloc, replica.sequence())?;
    times_of_each(alloc, &sites)
}

/// How many faults each site has.
fn faults_of_each<A: Allocator + Copy>(
    alloc: A,
    faults: &[CopyFault],
) -> Result<Vec<usize, A>, NoMemory>
    ensures { IfOk result (λ v. AreTimes (map fault_site faults.now) v.items) }
{
    let sites = sites_at_fault(alloc, faults)?;
    times_of_each(alloc, &sites)
}

/// The rooms of a replica as text.
fn text_of<Q: Sequence>(
    alloc: Q::Memory,
    replica: &Replica<Q>,
) -> Result<String<Q::Memory>, NoMemory>
    ensures { IfOk result (λ t. string_bytes t ≡ rooms_text replica.now.ops) }
{
    let ops = replica.in_order()?;
    let faults = replica.copy_faults()?;
    let made = made_of_each(alloc, &ops)?;
    let shown = shown_of_each(alloc, replica)?;
    let failed = faults_of_each(alloc, &faults)?;
    let mut text = String::new(alloc);
    put_lines(&mut text, &made, &shown, &failed)?;
    put_copy(&mut text, &ops, replica.copy_len(), faults.len())?;
    Ok(text)
}

/// Writes what each site made of a stored feed, a line for each site with an operation, the sites rising: `site 1 from
/// 1.1 to 775.1 with gaps: inserts 700, deletes 70, sets 5, shown 640, faults 0`. These are the least and the greatest
/// of its stamps, whether it bears no operation at a counter between, its operations by kind, the symbols of the copy
/// that it inserted, and the copy faults at its stamps. The last line has the counts of all, `copy: inserts 706, ..`.
/// The file must be there. Its name is not taken, and no file changes. A refusal of the feed or of memory comes before
/// anything is written.
pub fn report_rooms<W: Write, F: Files, A: Allocator + Copy>(
    alloc: A,
    writer: &mut W,
    files: &mut F,
    name: &str,
) -> Result<(), ExportFault>
    ensures ok { OnOk result (IsRoomsOf name.now (F.shelf files.old) (W.contents writer.old) (W.contents writer.new)) }
    ensures counted { OnOk result ((F.shelf files.new).failures ≡ (F.shelf files.old).failures) }
    ensures err { IfErr result
        (IsNoRoomsOf name.now (F.shelf files.old) (F.shelf files.new) (W.contents writer.old)
        (W.contents writer.new)) }
    ensures stays { Stays (F.shelf files.old) (F.shelf files.new) }
{
    let replica = open_feed(alloc, files, name)?;
    let text = text_of(alloc, &replica)?;
    Ok(write_out(writer, text.as_bytes())?)
}
