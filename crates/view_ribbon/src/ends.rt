//! Where galleys end in the rows of a ribbon.

ghost use Rattle.std.specs.Prelude.{◌≡◌, IfOk};
ghost use Rattle.view_ribbon.specs.Ends.{ended};

use desk_memory::NoMemory;
use desk_signals::RibbonRow;
use std::alloc::Allocator;

/// How many lines each galley has that ends in rows. It ends where a FineOut row directly follows another: the second
/// is the head row of the next galley. The last galley of a ribbon does not end so.
pub fn ended_in<A: Allocator>(alloc: A, rows: &[RibbonRow]) -> Result<Vec<usize, A>, NoMemory>
    ensures { IfOk result (λ v. v.items ≡ ended rows.now) }
{
    let mut galleys = Vec::new(alloc);
    let mut lines = 0;
    let mut is_out = false;
    for row in rows {
        match row {
            RibbonRow::FineOut(_) => {
                if is_out {
                    galleys.push(lines)?;
                    lines = 0;
                }
                is_out = true;
            }
            RibbonRow::Coarse(_) => {
                lines += 1;
                is_out = false;
            }
            RibbonRow::Cell { .. } => is_out = false,
        }
    }
    Ok(galleys)
}
