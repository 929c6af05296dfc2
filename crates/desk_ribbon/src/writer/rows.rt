//! Lines as rows in a vector.

ghost use Rattle.std.specs.Prelude.{◌≡◌, ◌++◌, OnOk, OnErr};
ghost use Rattle.desk_ribbon.specs.Ribbon.{line_rows};

use crate::PunchLine;
use crate::bytes::row_of;
use desk_memory::NoMemory;
use desk_signals::RibbonRow;
use std::alloc::Allocator;

/// Appends the rows of a line, all or none.
pub fn append<A: Allocator, B: Allocator>(
    rows: &mut Vec<RibbonRow, A>,
    line: &PunchLine<B>,
) -> Result<(), NoMemory>
    ensures ok { OnOk result (rows.new.items ≡ rows.old.items ++ line_rows line.now) }
    ensures err { OnErr result (rows.new.items ≡ rows.old.items) }
{
    let matrices = line.matrices.as_slice();
    rows.reserve(matrices.len() + 2)?;
    for &punch in matrices {
        rows.push_reserved(row_of(punch));
    }
    rows.push_reserved(RibbonRow::Coarse(line.coarse));
    rows.push_reserved(RibbonRow::FineOut(line.fine));
    Ok(())
}
