//! What is reported of the bytes of a ribbon.

ghost use Rattle.std.specs.Prelude.{◌≡◌, ◌++◌, IfOk, OnOk, string_bytes};
ghost use Rattle.view_ribbon.specs.Casting.{cast_in};
ghost use Rattle.view_ribbon.specs.Reported.{IsReported, extent_text};

use crate::casting::{Casting, cast_of};
use crate::extent::Extent;
use crate::figures::put_summary;
use crate::lines::put_ribbon;
use desk_case::MatrixCase;
use desk_memory::NoMemory;
use desk_units::Pica;
use desk_wedge::Wedge;
use std::alloc::{AllocError, Allocator};

/// Writes lines, or their figures.
fn put_extent<A: Allocator + Copy>(
    alloc: A,
    out: &mut String<A>,
    pica: Pica,
    extent: Extent,
    cast: &Casting<A>,
) -> Result<(), AllocError>
    ensures { OnOk result
        (string_bytes out.new ≡ string_bytes out.old ++ extent_text pica extent (cast_in cast.now)) }
{
    match extent {
        Extent::Lines(shown) => put_ribbon(alloc, out, pica, shown, cast),
        Extent::Figures(pitch) => put_summary(out, pica, pitch, cast.rows, &cast.lines),
    }
}

/// The text of them.
fn extent_text<A: Allocator + Copy>(
    alloc: A,
    pica: Pica,
    extent: Extent,
    cast: &Casting<A>,
) -> Result<String<A>, NoMemory>
    ensures { IfOk result (λ s. string_bytes s ≡ extent_text pica extent (cast_in cast.now)) }
{
    let mut out = String::new(alloc);
    put_extent(alloc, &mut out, pica, extent, cast)?;
    Ok(out)
}

/// What is reported of the bytes of a ribbon by a case and a wedge: the lines that it casts or their figures, or its
/// first fault on one line; and whether it is cast without a fault.
pub fn reported_of<A: Allocator + Copy>(
    alloc: A,
    bytes: &[u8],
    case: &MatrixCase,
    wedge: &Wedge,
    extent: Extent,
) -> Result<(String<A>, bool), NoMemory>
    ensures { IfOk result (λ t. IsReported bytes.now case.now wedge.now extent (string_bytes t.0) t.1) }
{
    match cast_of(alloc, bytes, case, wedge)? {
        Ok(cast) => Ok((extent_text(alloc, wedge.pica(), extent, &cast)?, true)),
        Err(line) => Ok((line, false)),
    }
}
