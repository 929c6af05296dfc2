//! Which corrections are asked for, and their lines.

ghost use Rattle.std.specs.Prelude.{◌≡◌, ◌++◌, ◌<◌, ◌^◌, All, IfOk, OnOk, length, string_bytes};
ghost use Rattle.desk_ops.specs.Op.{IsLawful, stamp_of};
ghost use Rattle.feed_history.specs.Asked.{asked_line, asked_lines, has_text, is_of, is_since, lines_from};
ghost use Rattle.desk_replica.specs.Seats.{Rise, fault_stamp};
ghost use Rattle.feed_history.specs.Spots.{spot_stamp};
ghost use Rattle.feed_history.specs.Taken.{AreTold};

use crate::corrections::{correction_to, ends_of};
use crate::line_parts::{History, Near, Parts};
use crate::lines::put_correction;
use crate::spots::place_of;
use crate::texts::contains;
use desk_memory::NoMemory;
use desk_ops::{Stamp, Symbol};
use std::alloc::Allocator;

/// A line of a single operation has about so many bytes.
const LINE: usize = 32;

/// Which corrections are asked for: those of a site, those whose last counter is no smaller, and those that inserted or
/// deleted a text.
#[derive(Clone, Copy)]
pub struct Asked<'a> {
    pub site: Option<u16>,
    pub since: Option<u64>,
    pub text: Option<&'a [Symbol]>,
}

/// Whether a stamp is of the site that is asked for.
fn is_of(site: Option<u16>, last: Stamp) -> bool
    ensures { result ≡ is_of site last }
{
    match site {
        Some(site) => last.site == site,
        None => true,
    }
}

/// Whether a stamp's counter is none of those before what is asked for.
fn is_since(since: Option<u64>, last: Stamp) -> bool
    ensures { result ≡ is_since since last }
{
    match since {
        Some(since) => since <= last.counter,
        None => true,
    }
}

/// Whether one of two texts has the text that is asked for.
fn has_text<A: Allocator + Copy>(
    alloc: A,
    asked: &Asked<'_>,
    parts: &Parts<A>,
) -> Result<bool, NoMemory>
    ensures { IfOk result
        (λ found. found ≡ has_text asked.now.text parts.now.inserted.items parts.now.taken.symbols.items) }
{
    match asked.text {
        Some(text) => {
            if contains(alloc, text, &parts.inserted)? {
                return Ok(true);
            }
            contains(alloc, text, &parts.taken.symbols)
        }
        None => Ok(true),
    }
}

/// A log as far as it is written, and what the next line needs.
#[derive(Drop)]
struct Lines<A: Allocator> {
    out: String<A>,
    near: Near,
    parts: Parts<A>,
}

/// Writes the line of the correction that ends with a stamp at the end, if it is asked for.
fn put_asked_line<A: Allocator + Copy>(
    alloc: A,
    lines: &mut Lines<A>,
    history: &History<'_>,
    asked: &Asked<'_>,
    last: Stamp,
) -> Result<(), NoMemory>
    requires rising { Rise stamp_of history.now.ops.now }
    requires few { length history.now.ops.now < 2 ^ 63 }
    requires spots { Rise spot_stamp history.now.spots.now }
    requires few_spots { length history.now.spots.now < 2 ^ 63 }
    requires told { AreTold history.now.ops.now history.now.spots.now }
    requires faults { Rise fault_stamp history.now.faults.now }
    requires few_faults { length history.now.faults.now < 2 ^ 63 }
    requires last { last.counter < 2 ^ 63 }
    ensures { OnOk result (string_bytes lines.new.out
        ≡ string_bytes lines.old.out
        ++ asked_line history.now.ops.now history.now.spots.now history.now.faults.now asked.now last) }
{
    if !is_of(asked.site, last) || !is_since(asked.since, last) {
        return Ok(());
    }
    let correction = correction_to(history.ops, &mut lines.near.ops, last);
    lines.parts.take(history, &mut lines.near, correction)?;
    if !has_text(alloc, asked, &lines.parts)? {
        return Ok(());
    }
    let place = place_of(
        history.spots,
        &mut lines.near.spots,
        &lines.parts.ops,
        lines.parts.taken.place,
    );
    put_correction(alloc, &mut lines.out, correction, place, &lines.parts)
}

/// Writes the lines of the corrections that end with these stamps and are asked for at the end.
fn put_asked_lines<A: Allocator + Copy>(
    alloc: A,
    lines: &mut Lines<A>,
    history: &History<'_>,
    asked: &Asked<'_>,
    ends: &[Stamp],
) -> Result<(), NoMemory>
    requires rising { Rise stamp_of history.now.ops.now }
    requires few { length history.now.ops.now < 2 ^ 63 }
    requires spots { Rise spot_stamp history.now.spots.now }
    requires few_spots { length history.now.spots.now < 2 ^ 63 }
    requires told { AreTold history.now.ops.now history.now.spots.now }
    requires faults { Rise fault_stamp history.now.faults.now }
    requires few_faults { length history.now.faults.now < 2 ^ 63 }
    requires small { All (λ s. s.counter < 2 ^ 63) ends.now }
    ensures { OnOk result (string_bytes lines.new.out
        ≡ string_bytes lines.old.out
        ++ lines_from history.now.ops.now history.now.spots.now history.now.faults.now asked.now ends.now) }
{
    for end in ends {
        put_asked_line(alloc, lines, history, asked, *end)?;
    }
    Ok(())
}

/// The lines of the corrections that are asked for, by their last stamps.
pub fn asked_lines<A: Allocator + Copy>(
    alloc: A,
    history: &History<'_>,
    asked: &Asked<'_>,
) -> Result<Vec<u8, A>, NoMemory>
    requires rising { Rise stamp_of history.now.ops.now }
    requires lawful { All IsLawful history.now.ops.now }
    requires few { length history.now.ops.now < 2 ^ 63 }
    requires spots { Rise spot_stamp history.now.spots.now }
    requires few_spots { length history.now.spots.now < 2 ^ 63 }
    requires told { AreTold history.now.ops.now history.now.spots.now }
    requires faults { Rise fault_stamp history.now.faults.now }
    requires few_faults { length history.now.faults.now < 2 ^ 63 }
    ensures { IfOk result (λ v. v.items
        ≡ asked_lines history.now.ops.now history.now.spots.now history.now.faults.now asked.now) }
{
    let ends = ends_of(alloc, history.ops)?;
    let bytes = ends.len().saturating_mul(LINE);
    let mut lines = Lines {
        out: String::with_capacity(alloc, bytes)?,
        near: Near::default(),
        parts: Parts::new(alloc),
    };
    put_asked_lines(alloc, &mut lines, history, asked, &ends)?;
    Ok(lines.out.into_bytes())
}
