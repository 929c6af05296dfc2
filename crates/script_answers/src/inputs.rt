//! The case and the wedge of a command, read from their files.

ghost use Rattle.std.specs.Prelude.{◌≡◌, OnOk};
ghost use Rattle.desk_case.specs.File.{case_of};
ghost use Rattle.desk_wedge.specs.File.{wedge_of};
ghost use Rattle.script_answers.specs.Failure.{case_refused, wedge_refused};
ghost use Rattle.feed_files.specs.Files.{Stays};
ghost use Rattle.script_answers.specs.Inputs.{Answers, BothGive, BothLackMemory, FileGives, FileLacksMemory};

use crate::Failure;
use crate::memory::Memory;
use desk_case::MatrixCase;
use desk_wedge::Wedge;
use feed_files::Files;
use std::alloc::Allocator;

/// The case that a file gives, or the refusal of it. `toml` takes the global allocator alone.
pub fn case_in<F: Files, A: Allocator + Copy>(
    memory: Memory<A>,
    files: &mut F,
    name: &str,
) -> Result<MatrixCase, Failure>
    ensures given { Answers
        (λ given. FileGives case_of case_refused name.now (F.shelf files.old) given (F.shelf files.new))
        (FileLacksMemory name.now (F.shelf files.old) (F.shelf files.new)) result }
    ensures still { OnOk result (F.shelf files.new ≡ F.shelf files.old) }
    ensures stays { Stays (F.shelf files.old) (F.shelf files.new) }
{
    let bytes = files.read(memory.own, name)?;
    let case = MatrixCase::read(memory.global, &bytes)?;
    Ok(case)
}

/// The wedge that a file gives, or the refusal of it.
fn wedge_in<F: Files, A: Allocator + Copy>(
    memory: Memory<A>,
    files: &mut F,
    name: &str,
) -> Result<Wedge, Failure>
    ensures given { Answers
        (λ given. FileGives wedge_of wedge_refused name.now (F.shelf files.old) given (F.shelf files.new))
        (FileLacksMemory name.now (F.shelf files.old) (F.shelf files.new)) result }
    ensures still { OnOk result (F.shelf files.new ≡ F.shelf files.old) }
    ensures stays { Stays (F.shelf files.old) (F.shelf files.new) }
{
    let bytes = files.read(memory.own, name)?;
    let wedge = Wedge::read(memory.global, &bytes)?;
    Ok(wedge)
}

/// The case and the wedge that two files give, or the first refusal: where the case is refused the wedge is not read.
/// Where both are given no file has changed, and the device did not fail. Out of memory comes in place of no refusal of
/// a device, nor after one of the case.
pub fn both<F: Files, A: Allocator + Copy>(
    memory: Memory<A>,
    files: &mut F,
    case: &str,
    wedge: &str,
) -> Result<(MatrixCase, Wedge), Failure>
    ensures given { Answers (λ given. BothGive case.now wedge.now (F.shelf files.old) given (F.shelf files.new))
        (BothLackMemory case.now wedge.now (F.shelf files.old) (F.shelf files.new)) result }
    ensures still { OnOk result (F.shelf files.new ≡ F.shelf files.old) }
    ensures stays { Stays (F.shelf files.old) (F.shelf files.new) }
{
    let case = case_in(memory, files, case)?;
    let wedge = wedge_in(memory, files, wedge)?;
    Ok((case, wedge))
}
