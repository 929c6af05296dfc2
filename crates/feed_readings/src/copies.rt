//! The elements that two sets show, and what they have in common, by one walk of what both make.

ghost use Rattle.std.specs.Prelude.{◌≡◌, ◌++◌, ◌∷◌, [], if◌then◌else◌, IfOk, OnOk, map};
ghost use Rattle.std.specs.List.{filter};
ghost use Rattle.desk_seq.specs.Entries.{is_shown};
ghost use Rattle.feed_readings.specs.Merged.{entered, shown_entries};
ghost use Rattle.feed_readings.specs.Parts.{base_shows, one_shows, other_shows};

use crate::lines::Copies;
use crate::parts::Parts;
use crate::reading::Shown;
use desk_memory::NoMemory;
use desk_seq::{Entry, Sequence};
use std::alloc::{AllocError, Allocator};

/// Four lists with room for what is shown of some elements.
fn room_for<A: Allocator + Copy>(
    alloc: A,
    shown: usize,
    parts: &Parts<A>,
) -> Result<Copies<A>, NoMemory>
    ensures base { IfOk result (λ c. c.base.items ≡ []) }
    ensures one { IfOk result (λ c. c.one.items ≡ []) }
    ensures other { IfOk result (λ c. c.other.items ≡ []) }
    ensures both { IfOk result (λ c. c.both.items ≡ []) }
{
    let ones = shown.saturating_add(parts.one_more());
    let others = shown.saturating_add(parts.other_more());
    Ok(Copies {
        base: Vec::with_capacity(alloc, ones.saturating_add(parts.other_more()))?,
        one: Vec::with_capacity(alloc, ones)?,
        other: Vec::with_capacity(alloc, others)?,
        both: Vec::with_capacity(alloc, shown)?,
    })
}

/// Adds an element to a list that shows it.
fn put<A: Allocator + Copy>(
    list: &mut Vec<Shown, A>,
    entry: &Entry,
    shows: bool,
) -> Result<(), AllocError>
    ensures { OnOk result (list.new.items ≡ list.old.items ++ (if shows then entered entry.now ∷ [] else [])) }
{
    if shows {
        list.push(Shown {
            stamp: entry.stamp,
            symbol: entry.symbol,
        })?;
    }
    Ok(())
}

/// Adds an element of the walk of both to each of four lists that shows it.
fn put_each<A: Allocator + Copy>(
    copies: &mut Copies<A>,
    parts: &Parts<A>,
    entry: &Entry,
) -> Result<(), AllocError>
    ensures base { OnOk result
        (copies.new.base.items ≡ copies.old.base.items ++ (if base_shows parts.now entry.now then entered entry.now ∷ []
        else [])) }
    ensures one { OnOk result
        (copies.new.one.items ≡ copies.old.one.items ++ (if one_shows parts.now entry.now then entered entry.now ∷ []
        else [])) }
    ensures other { OnOk result
        (copies.new.other.items ≡ copies.old.other.items ++ (if other_shows parts.now entry.now
        then entered entry.now ∷ [] else [])) }
    ensures both { OnOk result
        (copies.new.both.items ≡ copies.old.both.items ++ (if is_shown entry.now then entered entry.now ∷ [] else [])) }
{
    put(&mut copies.base, entry, parts.base_shows(entry))?;
    put(&mut copies.one, entry, parts.one_shows(entry))?;
    put(&mut copies.other, entry, parts.other_shows(entry))?;
    put(&mut copies.both, entry, !entry.deleted)
}

/// The elements of four lists by one pass over the walk of both.
pub fn copies_in<Q: Sequence>(
    alloc: Q::Memory,
    parts: &Parts<Q::Memory>,
    sequence: &Q,
) -> Result<Copies<Q::Memory>, NoMemory>
    ensures base { IfOk result
        (λ c. c.base.items ≡ map entered (filter (base_shows parts.now) (Q.entries sequence.now))) }
    ensures one { IfOk result (λ c. c.one.items ≡ map entered (filter (one_shows parts.now) (Q.entries sequence.now))) }
    ensures other { IfOk result
        (λ c. c.other.items ≡ map entered (filter (other_shows parts.now) (Q.entries sequence.now))) }
    ensures both { IfOk result (λ c. c.both.items ≡ shown_entries (Q.entries sequence.now)) }
{
    let mut copies = room_for(alloc, sequence.shown_len(), parts)?;
    for at in 0..sequence.len() {
        let entry = sequence.entry(at);
        put_each(&mut copies, parts, &entry)?;
    }
    Ok(copies)
}
