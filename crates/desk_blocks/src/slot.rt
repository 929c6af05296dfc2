//! The entries of a sequence as they are kept, in 16 bytes each.
ghost use Rattle.std.specs.Prelude.{◌≡◌, ◌++◌, IfOk, OnOk};
ghost use Rattle.desk_seq.specs.Entries.{marked, shown_symbols};

use desk_ops::{Stamp, Style, Symbol};
use desk_seq::Entry;
use std::alloc::{AllocError, Allocator};
use std::marker::Model;

/// An entry. Its fields lie in the order that takes 16 bytes, where an [`Entry`] takes 32.
#[derive(Clone, Copy)]
pub struct Slot {
    counter: u64,
    ch: char,
    site: u16,
    style: Style,
    deleted: bool,
}

impl Model for Slot {
    ghost use Rattle.desk_seq.specs.contracts.Entry as entry;
    ghost use Rattle.desk_seq.specs.declared.Entry.{Entry};

    ghost Value = { Entry };

    ghost coded = { (entry.the_row).coded };

    ghost view = { λ s. record {
      stamp = record { counter = s.counter; site = s.site };
      symbol =
          record { style = s.style; ch = s.ch };
      deleted = s.deleted;
    } };

    ghost inverse = { λ e. record {
      counter = e.stamp.counter;
      ch = e.symbol.ch;
      site = e.stamp.site;
      style = e.symbol.style;
      deleted = e.deleted;
    } };
}

impl Slot {
    pub fn of(entry: Entry) -> Slot
        ensures { result ≡ entry }
    {
        let ch = entry.symbol.ch;
        Slot {
            counter: entry.stamp.counter,
            ch,
            site: entry.stamp.site,
            style: entry.symbol.style,
            deleted: entry.deleted,
        }
    }

    pub fn entry(self) -> Entry
        ensures { result ≡ self }
    {
        Entry {
            stamp: self.stamp(),
            symbol: Symbol {
                style: self.style,
                ch: self.ch,
            },
            deleted: self.deleted,
        }
    }

    pub fn stamp(self) -> Stamp
        ensures { result ≡ self.stamp }
    {
        Stamp {
            counter: self.counter,
            site: self.site,
        }
    }

    pub fn is_deleted(self) -> bool
        ensures { result ≡ self.deleted }
    {
        self.deleted
    }

    /// It with its mark.
    pub fn marked(self) -> Slot
        ensures { result ≡ marked self }
    {
        Slot {
            deleted: true,
            ..self
        }
    }
}

/// The entries in the form in which they are kept.
pub fn slots_of<A: Allocator + Copy>(alloc: A, list: &[Entry]) -> Result<Vec<Slot, A>, AllocError>
    ensures { IfOk result (λ slots. slots.items ≡ list.now) }
{
    let mut slots = Vec::with_capacity(alloc, list.len())?;
    for entry in list {
        slots.push(Slot::of(*entry))?;
    }
    Ok(slots)
}

/// Adds the symbols of the entries that are shown.
pub fn add_shown<A: Allocator>(
    symbols: &mut Vec<Symbol, A>,
    part: &[Slot],
) -> Result<(), AllocError>
    ensures { OnOk result (symbols.new.items ≡ symbols.old.items ++ shown_symbols part.now) }
{
    for slot in part {
        if !slot.is_deleted() {
            symbols.push(slot.entry().symbol)?;
        }
    }
    Ok(())
}
