//! Symbols that the case lacks, at their text.

ghost use Rattle.std.specs.Prelude.{◌≡◌, ◌++◌, ◌<◌, length, OnOk, Some, slice_get, string_bytes};
ghost use Rattle.view_proof.specs.Faults.{around_text, at_text, code_text, lack_text, lack_title, lacking_fault_text};
ghost use Rattle.view_proof.specs.Faults.{lacking_text, name_text, style_text};

use crate::marked::put_marked;
use crate::parts::put_symbols;
use desk_job::JobFault;
use desk_ops::{Style, Symbol};
use std::alloc::{AllocError, Allocator};

/// The name of a style, as it stands before a symbol.
pub fn style_word(style: Style) -> &'static str
    ensures { result.now ≡ style_text style }
{
    match style {
        Style::Roman => "Roman",
        Style::Italic => "italic",
        Style::SmallCap => "small capital",
    }
}

/// Writes a character's code.
pub fn put_code<A: Allocator + Copy>(out: &mut String<A>, ch: char) -> Result<(), AllocError>
    ensures { OnOk result (string_bytes out.new ≡ string_bytes out.old ++ code_text ch) }
{
    let code = ch as u32;
    write!(out, "U+{code:04X}")
}

/// Writes a symbol by its style, its character as it is shown and its code.
pub fn put_name<A: Allocator + Copy>(out: &mut String<A>, symbol: Symbol) -> Result<(), AllocError>
    ensures { OnOk result (string_bytes out.new ≡ string_bytes out.old ++ name_text symbol) }
{
    out.push_str(style_word(symbol.style))?;
    out.push_str(" '")?;
    put_symbols(out, &[symbol])?;
    out.push_str("' (")?;
    put_code(out, symbol.ch)?;
    out.push_str(")")
}

/// Writes the symbol at a place and what surrounds it: up to 24 symbols before it, and up to 24 after it.
pub fn put_around<A: Allocator + Copy>(
    out: &mut String<A>,
    copy: &[Symbol],
    place: usize,
) -> Result<(), AllocError>
    requires { place < length copy.now }
    ensures { OnOk result (string_bytes out.new ≡ string_bytes out.old ++ around_text copy.now place) }
{
    let from = place.saturating_sub(24);
    let to = copy.len().min(place.saturating_add(25));
    put_marked(out, &copy[from..to])
}

fn put_at<A: Allocator + Copy>(out: &mut String<A>, place: usize) -> Result<(), AllocError>
    ensures { OnOk result (string_bytes out.new ≡ string_bytes out.old ++ at_text place) }
{
    write!(out, " at place {place}\n  | ")
}

/// Writes a symbol and its place.
fn put_lack_title<A: Allocator + Copy>(
    out: &mut String<A>,
    symbol: Symbol,
    place: usize,
) -> Result<(), AllocError>
    ensures { OnOk result (string_bytes out.new ≡ string_bytes out.old ++ lack_title symbol place) }
{
    out.push_str("\nno matrix for ")?;
    put_name(out, symbol)?;
    put_at(out, place)
}

/// Writes a symbol that stands at a place, and what surrounds it.
fn put_lack_at<A: Allocator + Copy>(
    out: &mut String<A>,
    copy: &[Symbol],
    place: usize,
    symbol: Symbol,
) -> Result<(), AllocError>
    requires { place < length copy.now }
    ensures { OnOk result (string_bytes out.new ≡ string_bytes out.old ++ lack_text copy.now place (Some symbol)) }
{
    put_lack_title(out, symbol, place)?;
    put_around(out, copy, place)?;
    out.push_str("\n")
}

/// Writes the symbol at a place, and what surrounds it.
fn put_lack<A: Allocator + Copy>(
    out: &mut String<A>,
    copy: &[Symbol],
    place: usize,
) -> Result<(), AllocError>
    ensures { OnOk result
        (string_bytes out.new ≡ string_bytes out.old ++ lack_text copy.now place (slice_get copy.now place)) }
{
    if place >= copy.len() {
        return Ok(());
    }
    put_lack_at(out, copy, place, copy[place])
}

/// Writes a symbol that the case lacks, if a fault is of one.
fn put_lacking_fault<A: Allocator + Copy>(
    out: &mut String<A>,
    copy: &[Symbol],
    fault: JobFault,
) -> Result<(), AllocError>
    ensures { OnOk result (string_bytes out.new ≡ string_bytes out.old ++ lacking_fault_text copy.now fault) }
{
    match fault {
        JobFault::NoMatrix(place) => put_lack(out, copy, place),
        JobFault::MissingSetting(_)
        | JobFault::OtherCase
        | JobFault::OtherWedge
        | JobFault::Crossed
        | JobFault::FillOrder
        | JobFault::SpaceVanishes
        | JobFault::TooWide(_)
        | JobFault::TooLoose(_)
        | JobFault::CannotFill(_) => Ok(()),
    }
}

/// Writes the symbols that the case lacks.
pub fn put_lacking<A: Allocator + Copy>(
    out: &mut String<A>,
    copy: &[Symbol],
    lacking: &[JobFault],
) -> Result<(), AllocError>
    ensures { OnOk result (string_bytes out.new ≡ string_bytes out.old ++ lacking_text copy.now lacking.now) }
{
    for fault in lacking {
        put_lacking_fault(out, copy, *fault)?;
    }
    Ok(())
}
