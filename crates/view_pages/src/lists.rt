//! The faults of a copy and the symbols that the case lacks, as lists.

ghost use Rattle.std.specs.Prelude.{◌≡◌, ◌++◌, OnOk, string_bytes};
ghost use Rattle.view_pages.specs.Lists.{fault_item, fault_items, faults_list, sort_item, sort_items, sorts_list};

use crate::tags::{faults_begin, item_end, list_end, sorts_begin};
use desk_job::JobFault;
use desk_ops::{CopyFault, Symbol};
use std::alloc::{AllocError, Allocator};
use view_picture::put_lacking_of;
use view_proof::{cause, meaning};

/// Writes a fault of a copy, and what it means.
#[tactic(auto, unfolding(crate::specs::Lists::fault_item))]
fn put_fault_item<A: Allocator + Copy>(
    out: &mut String<A>,
    fault: CopyFault,
) -> Result<(), AllocError>
    ensures { OnOk result (string_bytes out.new ≡ string_bytes out.old ++ fault_item fault) }
{
    out.push_str("<li>")?;
    write!(out, "{fault}")?;
    out.push_str(meaning(fault.kind))?;
    out.push_str(item_end())
}

fn put_fault_items<A: Allocator + Copy>(
    out: &mut String<A>,
    faults: &[CopyFault],
) -> Result<(), AllocError>
    ensures { OnOk result (string_bytes out.new ≡ string_bytes out.old ++ fault_items faults.now) }
{
    for fault in faults {
        put_fault_item(out, *fault)?;
    }
    Ok(())
}

/// Writes the faults of a copy, where it has any.
#[tactic(auto, unfolding(crate::specs::Lists::faults_list))]
pub fn put_faults_list<A: Allocator + Copy>(
    out: &mut String<A>,
    faults: &[CopyFault],
) -> Result<(), AllocError>
    ensures { OnOk result (string_bytes out.new ≡ string_bytes out.old ++ faults_list faults.now) }
{
    if faults.is_empty() {
        return Ok(());
    }
    out.push_str(faults_begin())?;
    put_fault_items(out, faults)?;
    out.push_str(list_end())
}

/// Writes a symbol that the case lacks, and its place.
#[tactic(auto, unfolding(crate::specs::Lists::sort_item))]
fn put_sort_item<A: Allocator + Copy>(
    out: &mut String<A>,
    copy: &[Symbol],
    fault: JobFault,
) -> Result<(), AllocError>
    ensures { OnOk result (string_bytes out.new ≡ string_bytes out.old ++ sort_item copy.now fault) }
{
    out.push_str("<li>")?;
    out.push_str(cause(fault))?;
    put_lacking_of(out, copy, fault)?;
    out.push_str(item_end())
}

fn put_sort_items<A: Allocator + Copy>(
    out: &mut String<A>,
    copy: &[Symbol],
    lacking: &[JobFault],
) -> Result<(), AllocError>
    ensures { OnOk result (string_bytes out.new ≡ string_bytes out.old ++ sort_items copy.now lacking.now) }
{
    for fault in lacking {
        put_sort_item(out, copy, *fault)?;
    }
    Ok(())
}

/// Writes the symbols that the case lacks, where it lacks any.
#[tactic(auto, unfolding(crate::specs::Lists::sorts_list))]
pub fn put_sorts_list<A: Allocator + Copy>(
    out: &mut String<A>,
    copy: &[Symbol],
    lacking: &[JobFault],
) -> Result<(), AllocError>
    ensures { OnOk result (string_bytes out.new ≡ string_bytes out.old ++ sorts_list copy.now lacking.now) }
{
    if lacking.is_empty() {
        return Ok(());
    }
    out.push_str(sorts_begin())?;
    put_sort_items(out, copy, lacking)?;
    out.push_str(list_end())
}
