//! The comparison of two ribbons by their files, written as text.

ghost use Rattle.std.specs.Prelude.{◌≡◌, ◌++◌, IfErr, IfOk, OnOk, false, string_bytes};
ghost use Rattle.feed_files.specs.Files.{Stays};
ghost use Rattle.view_ribbon.specs.Casting.{outcome_of};
ghost use Rattle.view_ribbon.specs.Comparing.{IsCompared, IsComparison, IsNoComparison, IsPairRefused, PairGives};
ghost use Rattle.view_ribbon.specs.Differences.{are_alike, comparison_text, fault_text};

use crate::casting::{Casting, cast_of};
use crate::differences::differences_of;
use crate::fault::ComparisonFault;
use crate::sources::{Sources, take_in};
use desk_case::MatrixCase;
use desk_memory::NoMemory;
use desk_units::Pica;
use desk_wedge::Wedge;
use feed_files::Files;
use feed_stored::write_out;
use script_answers::Memory;
use std::alloc::{AllocError, Allocator};
use std::io::Write;
use text_copy::put_plain;

/// What a comparison is made of: the names of two ribbons, of a case file and of a wedge file.
#[derive(Clone, Copy)]
pub struct Pair<'a> {
    pub one: &'a str,
    pub other: &'a str,
    pub case: &'a str,
    pub wedge: &'a str,
}

/// Reads the bytes of two ribbons, then a case and then a wedge.
fn take_both<F: Files, A: Allocator + Copy>(
    memory: Memory<A>,
    files: &mut F,
    pair: &Pair<'_>,
) -> Result<(Vec<u8, A>, Vec<u8, A>, MatrixCase, Wedge), ComparisonFault>
    ensures ok { IfOk result (λ t. PairGives pair.now (F.shelf files.old) t.0.items t.1.items t.2 t.3) }
    ensures still { OnOk result (F.shelf files.new ≡ F.shelf files.old) }
    ensures err { IfErr result (IsPairRefused pair.now (F.shelf files.old) (F.shelf files.new)) }
    ensures stays { Stays (F.shelf files.old) (F.shelf files.new) }
{
    let one = files.read(memory.own, pair.one)?;
    let others = Sources {
        ribbon: pair.other,
        case: pair.case,
        wedge: pair.wedge,
    };
    let (other, case, wedge) = take_in(memory, files, &others)?;
    Ok((one, other, case, wedge))
}

/// Writes the first fault of a ribbon that is not cast, behind its name.
fn put_fault<A: Allocator + Copy>(
    out: &mut String<A>,
    name: &str,
    outcome: &Result<Casting<A>, String<A>>,
) -> Result<(), AllocError>
    ensures { OnOk result
        (string_bytes out.new ≡ string_bytes out.old ++ fault_text name.now (outcome_of outcome.now)) }
{
    match outcome {
        Ok(_) => Ok(()),
        Err(line) => {
            put_plain(out, name)?;
            out.push_str(": ")?;
            out.push_str(line.as_str())
        }
    }
}

/// The first fault of each of two ribbons that is not cast.
fn faults_of<A: Allocator + Copy>(
    alloc: A,
    pair: &Pair<'_>,
    one: &Result<Casting<A>, String<A>>,
    other: &Result<Casting<A>, String<A>>,
) -> Result<String<A>, NoMemory>
    ensures { IfOk result (λ s. string_bytes s ≡ fault_text (pair.now).one.now (outcome_of one.now)
        ++ fault_text (pair.now).other.now (outcome_of other.now)) }
{
    let mut out = String::new(alloc);
    put_fault(&mut out, pair.one, one)?;
    put_fault(&mut out, pair.other, other)?;
    Ok(out)
}

/// What is written of two ribbons, and whether both are cast and no line differs.
fn outcomes_compared<A: Allocator + Copy>(
    alloc: A,
    pica: Pica,
    pair: &Pair<'_>,
    one: &Result<Casting<A>, String<A>>,
    other: &Result<Casting<A>, String<A>>,
) -> Result<(String<A>, bool), NoMemory>
    ensures text { IfOk result (λ t. string_bytes t.0
        ≡ comparison_text pica (pair.now).one.now (pair.now).other.now (outcome_of one.now) (outcome_of other.now)) }
    ensures alike { IfOk result (λ t. t.1 ≡ are_alike (outcome_of one.now) (outcome_of other.now)) }
{
    match (one, other) {
        (Ok(a), Ok(b)) => differences_of(alloc, pica, pair, &a.lines, &b.lines),
        _ => Ok((faults_of(alloc, pair, one, other)?, false)),
    }
}

/// The same of their bytes.
fn compared_of<A: Allocator + Copy>(
    alloc: A,
    pair: &Pair<'_>,
    one: &[u8],
    other: &[u8],
    case: &MatrixCase,
    wedge: &Wedge,
) -> Result<(String<A>, bool), NoMemory>
    ensures { IfOk result (λ t. IsCompared (pair.now).one.now (pair.now).other.now one.now other.now case.now wedge.now
        (string_bytes t.0) t.1) }
{
    let one = cast_of(alloc, one, case, wedge)?;
    let other = cast_of(alloc, other, case, wedge)?;
    outcomes_compared(alloc, wedge.pica(), pair, &one, &other)
}

/// Writes in what two ribbons differ by what the caster makes of them, line by line, the first line of the one with the
/// first of the other: how many lines each has and how many differ, behind the names of their files as `put_plain`
/// writes them; then each line that differs as `read_job` has it in a reading of its ribbon, that of the first ribbon
/// behind `- ` and that of the second behind `+ `. Two lines differ where the positions of the wedges do, or any
/// matrix, by its cell or by S; so does a line that only one ribbon has. Where either ribbon is not cast, only the
/// first fault of each that is not is written, behind its name. It is true exactly where both are cast and no line
/// differs. Both ribbons are in memory at once. No name is taken, and no file changes. A refusal of the files, in the
/// order of the pair, or of memory, comes before anything is written.
pub fn compare_ribbons<W: Write, F: Files, A: Allocator + Copy>(
    memory: Memory<A>,
    writer: &mut W,
    files: &mut F,
    pair: &Pair<'_>,
) -> Result<bool, ComparisonFault>
    ensures ok { IfOk result
        (IsComparison pair.now (F.shelf files.old) (W.contents writer.old) (W.contents writer.new)) }
    ensures counted { OnOk result ((F.shelf files.new).failures ≡ (F.shelf files.old).failures) }
    ensures err { IfErr result
        (IsNoComparison pair.now (F.shelf files.old) (F.shelf files.new) (W.contents writer.old)
        (W.contents writer.new)) }
    ensures stays { Stays (F.shelf files.old) (F.shelf files.new) }
{
    let (one, other, case, wedge) = take_both(memory, files, pair)?;
    let (text, alike) = compared_of(memory.own, pair, &one, &other, &case, &wedge)?;
    write_out(writer, text.as_bytes())?;
    Ok(alike)
}
