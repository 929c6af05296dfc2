//! The lines at fault as a table: number and place, cause, and way out.

ghost use Rattle.std.specs.Prelude.{◌≡◌, ◌++◌, All, OnOk, string_bytes};
ghost use Rattle.view_proof.specs.Lines.{HasWords};
ghost use Rattle.view_preview.specs.Proofing.{are_set};
ghost use Rattle.view_pages.specs.Table.{cells_text, faulty_table, line_cells, link_text, row_if_any};
ghost use Rattle.view_pages.specs.Table.{rows_text, table_text};

use crate::tags::{cell_next, link_end, no_fault, row_begin, row_end, table_begin, table_end};
use crate::ways::put_escaped_way;
use desk_job::JobFault;
use desk_ops::Symbol;
use std::alloc::{AllocError, Allocator};
use view_galley::{Line, put_number};
use view_proof::{Scale, begin_of, put_cause};

/// Writes the number of a line, as a link to it.
#[tactic(auto, unfolding(crate::specs::Table::link_text))]
fn put_link<A: Allocator + Copy>(out: &mut String<A>, number: usize) -> Result<(), AllocError>
    ensures { OnOk result (string_bytes out.new ≡ string_bytes out.old ++ link_text number) }
{
    out.push_str(row_begin())?;
    put_number(out, number as u128)?;
    out.push_str("\">")?;
    put_number(out, number as u128)?;
    out.push_str(link_end())
}

/// Writes the number of a line, as a link to it, and its place.
#[tactic(auto, unfolding(crate::specs::Table::line_cells))]
fn put_line_cells<A: Allocator + Copy>(
    out: &mut String<A>,
    line: &Line<A>,
) -> Result<(), AllocError>
    ensures { OnOk result (string_bytes out.new ≡ string_bytes out.old ++ line_cells line.now) }
{
    put_link(out, line.number())?;
    put_number(out, begin_of(line.words()) as u128)?;
    out.push_str(cell_next())
}

/// Writes a line's fault and the way out.
#[tactic(auto, unfolding(crate::specs::Table::cells_text))]
fn put_cells<A: Allocator + Copy>(
    out: &mut String<A>,
    copy: &[Symbol],
    scale: Scale,
    line: &Line<A>,
    fault: JobFault,
) -> Result<(), AllocError>
    requires { HasWords copy.now line.now }
    ensures { OnOk result (string_bytes out.new ≡ string_bytes out.old ++ cells_text copy.now scale line.now fault) }
{
    put_cause(out, scale, line.wedge_sum(), fault)?;
    out.push_str(cell_next())?;
    put_escaped_way(out, copy, scale, line, fault)?;
    out.push_str(row_end())
}

/// Writes the row of a line, if it has a fault.
fn put_row<A: Allocator + Copy>(
    out: &mut String<A>,
    copy: &[Symbol],
    scale: Scale,
    line: &Line<A>,
) -> Result<(), AllocError>
    requires { HasWords copy.now line.now }
    ensures { OnOk result
        (string_bytes out.new ≡ string_bytes out.old ++ row_if_any copy.now scale line.now line.now.faults) }
{
    let Some(fault) = line.fault() else {
        return Ok(());
    };
    put_line_cells(out, line)?;
    put_cells(out, copy, scale, line, fault)
}

fn put_rows<A: Allocator + Copy>(
    out: &mut String<A>,
    copy: &[Symbol],
    scale: Scale,
    lines: &[Line<A>],
) -> Result<(), AllocError>
    requires { All (HasWords copy.now) lines.now }
    ensures { OnOk result (string_bytes out.new ≡ string_bytes out.old ++ rows_text copy.now scale lines.now) }
{
    for line in lines {
        put_row(out, copy, scale, line)?;
    }
    Ok(())
}

/// Whether none of the lines has a fault.
fn are_set<A: Allocator>(lines: &[Line<A>]) -> bool
    ensures { result ≡ are_set lines.now }
{
    for line in lines {
        if line.is_faulty() {
            return false;
        }
    }
    true
}

/// Writes the lines at fault.
#[tactic(auto, unfolding(crate::specs::Table::faulty_table))]
fn put_faulty<A: Allocator + Copy>(
    out: &mut String<A>,
    copy: &[Symbol],
    scale: Scale,
    lines: &[Line<A>],
) -> Result<(), AllocError>
    requires { All (HasWords copy.now) lines.now }
    ensures { OnOk result (string_bytes out.new ≡ string_bytes out.old ++ faulty_table copy.now scale lines.now) }
{
    out.push_str(table_begin())?;
    put_rows(out, copy, scale, lines)?;
    out.push_str(table_end())
}

/// Writes these, or that none is.
#[tactic(auto, unfolding(crate::specs::Table::table_text))]
pub fn put_table<A: Allocator + Copy>(
    out: &mut String<A>,
    copy: &[Symbol],
    scale: Scale,
    lines: &[Line<A>],
) -> Result<(), AllocError>
    requires { All (HasWords copy.now) lines.now }
    ensures { OnOk result (string_bytes out.new ≡ string_bytes out.old ++ table_text copy.now scale lines.now) }
{
    if are_set(lines) {
        out.push_str(no_fault())
    } else {
        put_faulty(out, copy, scale, lines)
    }
}
