//! What is reported of a copy by a case.

ghost use Rattle.std.specs.Prelude.{◌≡◌, ◌++◌, IfOk, OnOk, string_bytes};
ghost use Rattle.view_punch.specs.Sorts.{AreSortsOf};
ghost use Rattle.view_punch.specs.Reported.{IsReportedOf, layout_text, reported_text};

use crate::layout::put_case;
use crate::listing::{missing_of, put_sorts};
use crate::sorts::{Sort, sorts_of};
use desk_case::MatrixCase;
use desk_memory::NoMemory;
use desk_ops::Symbol;
use std::alloc::{AllocError, Allocator};

/// Writes the table of the case, where it is wanted.
fn put_layout<A: Allocator + Copy>(
    out: &mut String<A>,
    case: &MatrixCase,
    layout: bool,
) -> Result<(), AllocError>
    ensures { OnOk result (string_bytes out.new ≡ string_bytes out.old ++ layout_text case.now layout) }
{
    if layout { put_case(out, case) } else { Ok(()) }
}

/// The list of the sorts of a copy, and the table of the case where it is wanted.
fn text_of<A: Allocator + Copy>(
    alloc: A,
    copy: &[Symbol],
    case: &MatrixCase,
    sorts: &[Sort],
    layout: bool,
) -> Result<String<A>, NoMemory>
    requires { AreSortsOf copy.now sorts.now }
    ensures { IfOk result (λ s. string_bytes s ≡ reported_text copy.now case.now sorts.now layout) }
{
    let mut out = String::new(alloc);
    put_sorts(alloc, &mut out, copy, case, sorts)?;
    put_layout(&mut out, case, layout)?;
    Ok(out)
}

/// What is reported of a copy by a case, and whether the case holds each of its sorts.
pub fn reported_of<A: Allocator + Copy>(
    alloc: A,
    copy: &[Symbol],
    case: &MatrixCase,
    layout: bool,
) -> Result<(String<A>, bool), NoMemory>
    ensures { IfOk result (λ t. IsReportedOf copy.now case.now layout (string_bytes t.0) t.1) }
{
    let sorts = sorts_of(alloc, copy)?;
    let text = text_of(alloc, copy, case, &sorts, layout)?;
    Ok((text, missing_of(case, &sorts) == 0))
}
