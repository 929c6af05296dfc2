//! The matrices of a line.

ghost use Rattle.std.specs.Prelude.{◌≡◌, ◌≤◌, All, IfErr, IfOk, length};
ghost use Rattle.desk_job.specs.Setting.{IsWord};
ghost use Rattle.view_galley.specs.Galley.{matrices_of};

use crate::line::Line;
use desk_case::MatrixCase;
use desk_job::punch::line_punches;
use desk_memory::NoMemory;
use desk_ops::Symbol;
use desk_ribbon::Punch;
use std::alloc::Allocator;

/// The matrices of a line of a copy: its words with a space between each two, the added space, and the fills. Of a
/// galley without a fault, with its case, these are the ones that are punched.
pub fn matrices<A: Allocator + Copy>(
    alloc: A,
    case: &MatrixCase,
    copy: &[Symbol],
    line: &Line<A>,
) -> Result<Vec<Punch, A>, NoMemory>
    requires words { All (IsWord copy.now) line.now.words }
    requires fills { length line.now.fills ≤ length case.now.fill }
    ensures ok { IfOk result (λ found. found.items ≡ matrices_of case.now copy.now line.now) }
    // No matrices take no memory.
    ensures memory { IfErr result (λ _. 1 ≤ length (matrices_of case.now copy.now line.now)) }
{
    line_punches(
        alloc,
        case,
        copy,
        line.words(),
        line.has_added(),
        line.fills(),
    )
}
