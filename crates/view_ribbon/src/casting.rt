//! What the caster makes of the bytes of a ribbon.

ghost use Rattle.std.specs.Prelude.{◌≡◌, ◌≢◌, ◌<◌, ◌^◌, IfOk, OnOk, length, string_bytes};
ghost use Rattle.desk_caster.specs.declared.CastFault.TheVariants as casts;
ghost use Rattle.desk_caster.specs.declared.RibbonFault.TheVariants as ribbons;
ghost use Rattle.view_ribbon.specs.Faults.{cast_fault_text, ribbon_fault_text};
ghost use Rattle.view_ribbon.specs.Casting.{IsOutcome, outcome_of, rows_outcome};

use crate::ends::ended_in;
use crate::faults::{put_cast_fault, put_ribbon_fault};
use desk_case::MatrixCase;
use desk_caster::{CastFault, CastLine, RibbonFault, cast, read_ribbon};
use desk_memory::NoMemory;
use desk_signals::RibbonRow;
use desk_wedge::Wedge;
use std::alloc::Allocator;

/// How many rows a ribbon has, how many lines each galley has that ends in them, and the lines that they cast, in
/// reading order.
#[derive(Drop)]
pub struct Casting<A: Allocator> {
    pub rows: usize,
    /// Of each galley but the last.
    pub ended: Vec<usize, A>,
    pub lines: Vec<CastLine<A>, A>,
}

/// The line of bytes that are no ribbon; out of memory where that is the fault.
fn no_ribbon<A: Allocator + Copy>(alloc: A, fault: RibbonFault) -> Result<String<A>, NoMemory>
    ensures text { IfOk result (λ s. string_bytes s ≡ ribbon_fault_text fault) }
    ensures cause { OnOk result (fault ≢ ribbons.NoMemory) }
{
    let mut out = String::new(alloc);
    put_ribbon_fault(&mut out, fault)?;
    Ok(out)
}

/// The line of rows that are not cast; out of memory where that is the fault.
fn not_cast<A: Allocator + Copy>(alloc: A, fault: CastFault) -> Result<String<A>, NoMemory>
    ensures text { IfOk result (λ s. string_bytes s ≡ cast_fault_text fault) }
    ensures cause { OnOk result (fault ≢ casts.NoMemory) }
{
    let mut out = String::new(alloc);
    put_cast_fault(&mut out, fault)?;
    Ok(out)
}

/// The lines that rows cast by a case and a wedge, or the line of their first fault.
fn rows_cast<A: Allocator + Copy>(
    alloc: A,
    rows: &[RibbonRow],
    case: &MatrixCase,
    wedge: &Wedge,
) -> Result<Result<Casting<A>, String<A>>, NoMemory>
    requires { length rows.now < 2 ^ 32 }
    ensures { IfOk result (λ o. outcome_of o ≡ rows_outcome case.now wedge.now rows.now) }
{
    match cast(alloc, rows, case, wedge) {
        Ok(lines) => Ok(Ok(Casting {
            rows: rows.len(),
            ended: ended_in(alloc, rows)?,
            lines,
        })),
        Err(fault) => Ok(Err(not_cast(alloc, fault)?)),
    }
}

/// The lines that bytes cast by a case and a wedge, or the line of their first fault: of the bytes, where they are no
/// ribbon, or of the rows.
pub fn cast_of<A: Allocator + Copy>(
    alloc: A,
    bytes: &[u8],
    case: &MatrixCase,
    wedge: &Wedge,
) -> Result<Result<Casting<A>, String<A>>, NoMemory>
    ensures { IfOk result (λ o. IsOutcome bytes.now case.now wedge.now (outcome_of o)) }
{
    match read_ribbon(alloc, bytes) {
        Ok(rows) => rows_cast(alloc, &rows, case, wedge),
        Err(fault) => Ok(Err(no_ribbon(alloc, fault)?)),
    }
}
