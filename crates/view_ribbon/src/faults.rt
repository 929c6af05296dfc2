//! The first fault of a ribbon, on one line.

ghost use Rattle.std.specs.Prelude.{◌≡◌, ◌≢◌, ◌++◌, OnOk, string_bytes};
ghost use Rattle.desk_caster.specs.declared.CastFault.TheVariants as casts;
ghost use Rattle.desk_caster.specs.declared.RibbonFault.TheVariants as ribbons;
ghost use Rattle.view_ribbon.specs.Faults.{cast_fault_text, cast_fault_words, ribbon_fault_text, ribbon_fault_words};
ghost use Rattle.view_ribbon.specs.Faults.{row_text};

use desk_caster::{CastFault, RibbonFault};
use std::alloc::{AllocError, Allocator};

/// Writes a row's place, and these words.
fn put_row<A: Allocator + Copy>(
    out: &mut String<A>,
    place: u32,
    words: &str,
) -> Result<(), AllocError>
    ensures { OnOk result (string_bytes out.new ≡ string_bytes out.old ++ (row_text place ++ words.now)) }
{
    write!(out, "row {place}: ")?;
    out.push_str(words)
}

/// Writes why bytes are no ribbon. Where the fault is that memory ran out, nothing is written, and that is returned.
fn put_ribbon_words<A: Allocator + Copy>(
    out: &mut String<A>,
    fault: RibbonFault,
) -> Result<(), AllocError>
    ensures text { OnOk result (string_bytes out.new ≡ string_bytes out.old ++ ribbon_fault_words fault) }
    ensures cause { OnOk result (fault ≢ ribbons.NoMemory) }
{
    match fault {
        RibbonFault::Magic => out.push_str("it does not begin with MRB1"),
        RibbonFault::Count => out.push_str("it has not as many rows as it says"),
        RibbonFault::Row(place, why) => put_row(out, place, why.words()),
        RibbonFault::NoMemory => Err(AllocError),
    }
}

/// Writes the line of the first fault of bytes that are no ribbon, as `no ribbon: row 12: two numbers`. The place of a
/// row counts from 0 in punched order. Where the fault is that memory ran out, there is no line, and that is returned.
pub fn put_ribbon_fault<A: Allocator + Copy>(
    out: &mut String<A>,
    fault: RibbonFault,
) -> Result<(), AllocError>
    ensures text { OnOk result (string_bytes out.new ≡ string_bytes out.old ++ ribbon_fault_text fault) }
    ensures cause { OnOk result (fault ≢ ribbons.NoMemory) }
{
    out.push_str("no ribbon: ")?;
    put_ribbon_words(out, fault)?;
    out.push_str("\n")
}

/// Writes why the caster stops at a row. Where the fault is that memory ran out, nothing is written, and that is
/// returned.
fn put_cast_words<A: Allocator + Copy>(
    out: &mut String<A>,
    fault: CastFault,
) -> Result<(), AllocError>
    ensures text { OnOk result (string_bytes out.new ≡ string_bytes out.old ++ cast_fault_words fault) }
    ensures cause { OnOk result (fault ≢ casts.NoMemory) }
{
    match fault {
        CastFault::NoWedges(place) => put_row(
            out,
            place,
            "no wedges: the caster meets it before the wedges of a line are set",
        ),
        CastFault::NoMatrix(place) => put_row(
            out,
            place,
            "no matrix: the case has neither a symbol, its space nor a fill there",
        ),
        CastFault::NotSentOut(place) => put_row(
            out,
            place,
            "not sent out: nothing sends out the line that this row starts",
        ),
        CastFault::NoMemory => Err(AllocError),
    }
}

/// Writes the line of the first fault that the caster meets, as `row 12: no matrix: ..`. The place of a row counts from
/// 0 in punched order, though the caster goes from the last row to the first. Where the fault is that memory ran out,
/// there is no line, and that is returned.
pub fn put_cast_fault<A: Allocator + Copy>(
    out: &mut String<A>,
    fault: CastFault,
) -> Result<(), AllocError>
    ensures text { OnOk result (string_bytes out.new ≡ string_bytes out.old ++ cast_fault_text fault) }
    ensures cause { OnOk result (fault ≢ casts.NoMemory) }
{
    put_cast_words(out, fault)?;
    out.push_str("\n")
}
