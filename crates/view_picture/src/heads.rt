//! What stands above the galley: the faults of the copy, the head, and the symbols that the case lacks.

ghost use Rattle.std.specs.Prelude.{◌≡◌, ◌+◌, ◌++◌, ◌≤◌, ◌<◌, ◌^◌, length, OnOk, Some, slice_get, string_bytes};
ghost use Rattle.view_picture.specs.Heads.{copy_fault, copy_faults, head, head_count, head_y, heads_text, lack};
ghost use Rattle.view_picture.specs.Heads.{lacking_at, lacking_of, lacks, name_if, name_text};

use crate::lines::put_text_at;
use desk_job::JobFault;
use desk_ops::{CopyFault, Symbol};
use std::alloc::{AllocError, Allocator};
use view_galley::{Galley, put_escaped, text_end};
use view_proof::{cause, meaning, put_code, put_head_words};

/// Where the head of a number stands, from 0.
pub fn head_y(number: u128) -> u128
    requires { number ≤ 2 ^ 80 }
    ensures value { result ≡ head_y number }
    ensures limit { result ≤ 2 ^ 96 }
{
    2_000 + 1_200 * number
}

/// Writes a fault of the copy.
fn put_copy_fault<A: Allocator + Copy>(
    out: &mut String<A>,
    y: u128,
    fault: CopyFault,
) -> Result<(), AllocError>
    ensures { OnOk result (string_bytes out.new ≡ string_bytes out.old ++ copy_fault y fault) }
{
    put_text_at(out, "c", 1_000, y)?;
    write!(out, "{fault}")?;
    out.push_str(meaning(fault.kind))?;
    out.push_str(text_end())
}

/// Writes the faults of a copy, one under the other.
pub fn put_copy_faults<A: Allocator + Copy>(
    out: &mut String<A>,
    faults: &[CopyFault],
) -> Result<(), AllocError>
    ensures { OnOk result (string_bytes out.new ≡ string_bytes out.old ++ copy_faults 0 faults.now) }
{
    for (number, fault) in faults.iter().enumerate() {
        put_copy_fault(out, head_y(number as u128), *fault)?;
    }
    Ok(())
}

fn put_head<'a, A: Allocator + Copy>(
    out: &mut String<A>,
    y: u128,
    galley: &Galley<'a, A>,
) -> Result<(), AllocError>
    ensures { OnOk result (string_bytes out.new ≡ string_bytes out.old ++ head y galley.now) }
{
    put_text_at(out, "h", 1_000, y)?;
    put_head_words(out, galley)?;
    out.push_str(text_end())
}

/// Writes a symbol by its style, its character and its code.
fn put_name<A: Allocator + Copy>(out: &mut String<A>, symbol: Symbol) -> Result<(), AllocError>
    ensures { OnOk result (string_bytes out.new ≡ string_bytes out.old ++ name_text symbol) }
{
    out.push_str(" for ")?;
    write!(out, "{}", symbol.style)?;
    out.push_str(" '")?;
    put_escaped(out, symbol.ch)?;
    out.push_str("' (")?;
    put_code(out, symbol.ch)?;
    out.push_str(")")
}

/// Writes the symbol at a place, if there is one.
fn put_name_if<A: Allocator + Copy>(
    out: &mut String<A>,
    copy: &[Symbol],
    place: usize,
) -> Result<(), AllocError>
    ensures { OnOk result (string_bytes out.new ≡ string_bytes out.old ++ name_if (slice_get copy.now place)) }
{
    if place >= copy.len() {
        return Ok(());
    }
    put_name(out, copy[place])
}

/// Writes the symbol at a place, and the place.
fn put_lacking_at<A: Allocator + Copy>(
    out: &mut String<A>,
    copy: &[Symbol],
    place: usize,
) -> Result<(), AllocError>
    ensures { OnOk result (string_bytes out.new ≡ string_bytes out.old ++ lacking_at copy.now place) }
{
    put_name_if(out, copy, place)?;
    write!(out, " at place {place}")
}

/// Writes the symbol that a fault is of, and its place, if it is of one.
pub fn put_lacking_of<A: Allocator + Copy>(
    out: &mut String<A>,
    copy: &[Symbol],
    fault: JobFault,
) -> Result<(), AllocError>
    ensures { OnOk result (string_bytes out.new ≡ string_bytes out.old ++ lacking_of copy.now fault) }
{
    match fault {
        JobFault::NoMatrix(place) => put_lacking_at(out, copy, place),
        JobFault::MissingSetting(_)
        | JobFault::OtherCase
        | JobFault::OtherWedge
        | JobFault::Crossed
        | JobFault::FillOrder
        | JobFault::SpaceVanishes
        | JobFault::TooWide(_)
        | JobFault::TooLoose(_)
        | JobFault::CannotFill(_) => Ok(()),
    }
}

/// Writes a symbol that the case lacks.
#[tactic(auto, unfolding(view_galley::specs::Svg::text_end))]
fn put_lack<A: Allocator + Copy>(
    out: &mut String<A>,
    copy: &[Symbol],
    y: u128,
    fault: JobFault,
) -> Result<(), AllocError>
    ensures { OnOk result (string_bytes out.new ≡ string_bytes out.old ++ lack copy.now y fault) }
{
    put_text_at(out, "c", 1_000, y)?;
    out.push_str(cause(fault))?;
    put_lacking_of(out, copy, fault)?;
    out.push_str(text_end())
}

/// Writes the symbols that the case lacks, one under the other, the first of which has this number.
fn put_lacks<A: Allocator + Copy>(
    out: &mut String<A>,
    copy: &[Symbol],
    first: u128,
    lacking: &[JobFault],
) -> Result<(), AllocError>
    requires { first ≤ 2 ^ 65 }
    ensures { OnOk result (string_bytes out.new ≡ string_bytes out.old ++ lacks copy.now first lacking.now) }
{
    let mut number = first;
    for fault in lacking {
        put_lack(out, copy, head_y(number), *fault)?;
        number += 1;
    }
    Ok(())
}

/// How many heads there are.
pub fn head_count<'a, A: Allocator>(faults: &[CopyFault], galley: &Galley<'a, A>) -> u128
    ensures value { result ≡ head_count faults.now galley.now }
    ensures limit { result ≤ 2 ^ 66 }
{
    faults.len() as u128 + 1 + galley.lacking().len() as u128
}

/// Writes the faults of the copy, the head, and the symbols that the case lacks.
pub fn put_heads<'a, A: Allocator + Copy>(
    out: &mut String<A>,
    copy: &[Symbol],
    faults: &[CopyFault],
    galley: &Galley<'a, A>,
) -> Result<(), AllocError>
    ensures { OnOk result (string_bytes out.new ≡ string_bytes out.old ++ heads_text copy.now faults.now galley.now) }
{
    let count = faults.len() as u128;
    put_copy_faults(out, faults)?;
    put_head(out, head_y(count), galley)?;
    put_lacks(out, copy, count + 1, galley.lacking())
}
