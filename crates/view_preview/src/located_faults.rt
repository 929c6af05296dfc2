//! Faults where they are in a text, each on one line, as editors read it.

ghost use Rattle.std.specs.Prelude.{◌≡◌, ◌++◌, OnOk, Some, slice_get, string_bytes};
ghost use Rattle.view_preview.specs.LocatedFaults.{all_missing, line_if_any, line_text, lines_text, located_no_galley};
ghost use Rattle.view_preview.specs.LocatedFaults.{located_text, missing_of, missing_text, name_text};
ghost use Rattle.view_preview.specs.LocatedFaults.{named_fault, named_faults, position_of, position_text, symbol_text};

use desk_job::JobFault;
use desk_ops::{CopyFault, Symbol};
use std::alloc::{AllocError, Allocator};
use text_copy::{Place, put_plain};
use view_galley::{Galley, Line};
use view_proof::{
    NoGalley, Scale, begin_of, put_cause, put_no_galley, put_symbols, scale_of, style_word,
};

/// A text in which faults are reported: its name, where each symbol of the copy is in it, and where its end is.
#[derive(Clone, Copy)]
pub struct Located<'a> {
    pub name: &'a str,
    pub places: &'a [Place],
    pub end: Place,
}

/// Where the symbol at a place of the copy is; where there is none, the end.
fn position_of(at: &Located, place: usize) -> Place
    ensures { result ≡ position_of at.now place }
{
    if place < at.places.len() {
        at.places[place]
    } else {
        at.end
    }
}

/// Writes the name, line and column of a place of the copy.
pub fn put_position<A: Allocator + Copy>(
    out: &mut String<A>,
    at: &Located,
    place: usize,
) -> Result<(), AllocError>
    ensures { OnOk result (string_bytes out.new ≡ string_bytes out.old ++ position_text at.now place) }
{
    let position = position_of(at, place);
    put_plain(out, at.name)?;
    write!(out, ":{}:{}: ", position.line, position.column)
}

/// Writes the name that stands before what is of no place.
fn put_name<A: Allocator + Copy>(out: &mut String<A>, name: &str) -> Result<(), AllocError>
    ensures { OnOk result (string_bytes out.new ≡ string_bytes out.old ++ name_text name.now) }
{
    put_plain(out, name)?;
    out.push_str(": ")
}

/// Writes a fault of the copy.
fn put_named_fault<A: Allocator + Copy>(
    out: &mut String<A>,
    name: &str,
    fault: CopyFault,
) -> Result<(), AllocError>
    ensures { OnOk result (string_bytes out.new ≡ string_bytes out.old ++ named_fault name.now fault) }
{
    put_name(out, name)?;
    write!(out, "{fault}\n")
}

/// Writes the faults of the copy.
fn put_named_faults<A: Allocator + Copy>(
    out: &mut String<A>,
    name: &str,
    faults: &[CopyFault],
) -> Result<(), AllocError>
    ensures { OnOk result (string_bytes out.new ≡ string_bytes out.old ++ named_faults name.now faults.now) }
{
    for fault in faults {
        put_named_fault(out, name, *fault)?;
    }
    Ok(())
}

/// Writes a symbol by its style and its character as it is shown.
fn put_symbol<A: Allocator + Copy>(out: &mut String<A>, symbol: Symbol) -> Result<(), AllocError>
    ensures { OnOk result (string_bytes out.new ≡ string_bytes out.old ++ symbol_text symbol) }
{
    out.push_str(style_word(symbol.style))?;
    out.push_str(" ")?;
    put_symbols(out, &[symbol])
}

/// Writes that the case lacks a symbol, which is at a place.
fn put_missing_at<A: Allocator + Copy>(
    out: &mut String<A>,
    at: &Located,
    place: usize,
    symbol: Symbol,
) -> Result<(), AllocError>
    ensures { OnOk result (string_bytes out.new ≡ string_bytes out.old ++ missing_text at.now place (Some symbol)) }
{
    put_position(out, at, place)?;
    out.push_str("no matrix for ")?;
    put_symbol(out, symbol)?;
    out.push_str("\n")
}

/// Writes that the case lacks the symbol at a place.
fn put_missing<A: Allocator + Copy>(
    out: &mut String<A>,
    at: &Located,
    copy: &[Symbol],
    place: usize,
) -> Result<(), AllocError>
    ensures { OnOk result
        (string_bytes out.new ≡ string_bytes out.old ++ missing_text at.now place (slice_get copy.now place)) }
{
    if place >= copy.len() {
        return Ok(());
    }
    put_missing_at(out, at, place, copy[place])
}

/// Writes a symbol that the case lacks, if a fault is of one.
fn put_missing_of<A: Allocator + Copy>(
    out: &mut String<A>,
    at: &Located,
    copy: &[Symbol],
    fault: JobFault,
) -> Result<(), AllocError>
    ensures { OnOk result (string_bytes out.new ≡ string_bytes out.old ++ missing_of at.now copy.now fault) }
{
    match fault {
        JobFault::NoMatrix(place) => put_missing(out, at, copy, place),
        JobFault::MissingSetting(_)
        | JobFault::OtherCase
        | JobFault::OtherWedge
        | JobFault::Crossed
        | JobFault::FillOrder
        | JobFault::SpaceVanishes
        | JobFault::TooWide(_)
        | JobFault::TooLoose(_)
        | JobFault::CannotFill(_) => Ok(()),
    }
}

/// Writes the symbols that the case lacks, each at each of its places.
fn put_all_missing<A: Allocator + Copy>(
    out: &mut String<A>,
    at: &Located,
    copy: &[Symbol],
    lacking: &[JobFault],
) -> Result<(), AllocError>
    ensures { OnOk result (string_bytes out.new ≡ string_bytes out.old ++ all_missing at.now copy.now lacking.now) }
{
    for fault in lacking {
        put_missing_of(out, at, copy, *fault)?;
    }
    Ok(())
}

/// Writes the fault of a line, where its first word begins.
fn put_line<A: Allocator + Copy>(
    out: &mut String<A>,
    at: &Located,
    scale: Scale,
    line: &Line<A>,
    fault: JobFault,
) -> Result<(), AllocError>
    ensures { OnOk result (string_bytes out.new ≡ string_bytes out.old ++ line_text at.now scale line.now fault) }
{
    put_position(out, at, begin_of(line.words()))?;
    put_cause(out, scale, line.wedge_sum(), fault)?;
    out.push_str("\n")
}

/// Writes the fault of a line, if it has one.
fn put_line_if_any<A: Allocator + Copy>(
    out: &mut String<A>,
    at: &Located,
    scale: Scale,
    line: &Line<A>,
) -> Result<(), AllocError>
    ensures { OnOk result
        (string_bytes out.new ≡ string_bytes out.old ++ line_if_any at.now scale line.now (line.now).faults) }
{
    match line.fault() {
        Some(fault) => put_line(out, at, scale, line, fault),
        None => Ok(()),
    }
}

/// Writes the faults of lines.
fn put_lines<A: Allocator + Copy>(
    out: &mut String<A>,
    at: &Located,
    scale: Scale,
    lines: &[Line<A>],
) -> Result<(), AllocError>
    ensures { OnOk result (string_bytes out.new ≡ string_bytes out.old ++ lines_text at.now scale lines.now) }
{
    for line in lines {
        put_line_if_any(out, at, scale, line)?;
    }
    Ok(())
}

/// Writes the faults of a copy and of its galley at the end, one a line: the faults of the copy, by the name of the
/// text alone; each symbol that the case lacks, at each of its places; and the fault of each line, where its first
/// word begins. Where there is no fault it writes nothing. The name is written as `put_plain` writes it.
pub fn put_located<'a, A: Allocator + Copy>(
    out: &mut String<A>,
    at: &Located,
    copy: &[Symbol],
    faults: &[CopyFault],
    galley: &Galley<'a, A>,
) -> Result<(), AllocError>
    ensures { OnOk result
        (string_bytes out.new ≡ string_bytes out.old ++ located_text at.now copy.now faults.now galley.now) }
{
    put_named_faults(out, at.name, faults)?;
    put_all_missing(out, at, copy, galley.lacking())?;
    put_lines(out, at, scale_of(galley), galley.lines())
}

/// Writes the faults of a copy at the end, one a line, and why it has no galley, all by the name of the text.
pub fn put_located_no_galley<A: Allocator + Copy>(
    out: &mut String<A>,
    name: &str,
    faults: &[CopyFault],
    why: &NoGalley,
) -> Result<(), AllocError>
    ensures { OnOk result
        (string_bytes out.new ≡ string_bytes out.old ++ located_no_galley name.now faults.now why.now) }
{
    put_named_faults(out, name, faults)?;
    put_name(out, name)?;
    put_no_galley(out, &[], why)
}
