//! The matrices of a line, and the line as it is punched.

ghost use Rattle.std.specs.Prelude.{◌≡◌, ◌+◌, ◌-◌, ◌*◌, ◌≤◌, ◌<◌, ◌^◌, ◌++◌, ◌∷◌, [], length, replicate, All, OnOk};
ghost use Rattle.std.specs.Prelude.{IfOk, IfErr, if◌then◌else◌, true, false, vec_capacity, vec_len};
ghost use Rattle.std.specs.List.{zip};
ghost use Rattle.desk_job.specs.Job as job;
ghost use Rattle.desk_job.specs.Setting.{IsWord, set_rows, words_at};

use crate::setting::Setting;
use crate::terms::Terms;
use desk_case::MatrixCase;
use desk_lines::Word;
use desk_memory::NoMemory;
use desk_ops::Symbol;
use desk_ribbon::{Punch, PunchLine, Punches, RibbonWriter};
use desk_signals::Cell;
use std::alloc::Allocator;

/// Appends the matrices of a word.
fn add_word<A: Allocator>(
    punches: &mut Vec<Punch, A>,
    case: &MatrixCase,
    word: &[Symbol],
) -> Result<(), NoMemory>
    ensures ok { OnOk result (punches.new.items ≡ punches.old.items ++ job.word_punches case.now word.now) }
    // No matrices take no memory.
    ensures memory { IfErr result (λ _. 1 ≤ length (job.word_punches case.now word.now)) }
{
    for symbol in word {
        if let Some(cell) = case.cell_of(*symbol) {
            punches.push(Punch { cell, s: false })?;
        }
    }
    Ok(())
}

/// Appends a space that is justified.
fn add_space<A: Allocator>(punches: &mut Vec<Punch, A>, case: &MatrixCase) -> Result<(), NoMemory>
    ensures ok { OnOk result (punches.new.items ≡ punches.old.items ++ job.space_punch case.now ∷ []) }
    // Where there is room it takes no memory.
    ensures memory { IfErr result (λ _. vec_capacity punches.old ≤ vec_len punches.old) }
{
    punches.push(Punch {
        cell: case.space(),
        s: true,
    })?;
    Ok(())
}

/// Appends the matrices of words, with a space before each.
fn add_more_words<A: Allocator>(
    punches: &mut Vec<Punch, A>,
    case: &MatrixCase,
    copy: &[Symbol],
    words: &[Word],
) -> Result<(), NoMemory>
    requires { All (IsWord copy.now) words.now }
    ensures ok { OnOk result
        (punches.new.items ≡ punches.old.items ++ job.spaced_punches case.now (words_at copy.now words.now)) }
    // No words take no memory.
    ensures memory { IfErr result (λ _. 1 ≤ length words.now) }
{
    for word in words {
        add_space(punches, case)?;
        add_word(punches, case, &copy[word.from..word.to])?;
    }
    Ok(())
}

/// Appends the matrices of words, with a space between each two.
fn add_words<A: Allocator>(
    punches: &mut Vec<Punch, A>,
    case: &MatrixCase,
    copy: &[Symbol],
    words: &[Word],
) -> Result<(), NoMemory>
    requires { All (IsWord copy.now) words.now }
    ensures ok { OnOk result
        (punches.new.items ≡ punches.old.items ++ job.words_punches case.now (words_at copy.now words.now)) }
    // No matrices take no memory.
    ensures memory { IfErr result (λ _. 1 ≤ length (job.words_punches case.now (words_at copy.now words.now))) }
{
    let [first, more @ ..] = words else {
        return Ok(());
    };
    add_word(punches, case, &copy[first.from..first.to])?;
    add_more_words(punches, case, copy, more)
}

/// Appends a matrix so many times.
fn add_times<A: Allocator>(
    punches: &mut Vec<Punch, A>,
    punch: &Punch,
    count: u32,
) -> Result<(), NoMemory>
    ensures ok { OnOk result (punches.new.items ≡ punches.old.items ++ replicate count punch.now) }
    // No times take no memory.
    ensures memory { IfErr result (λ _. 1 ≤ count) }
{
    for _ in 0..count {
        punches.push(*punch)?;
    }
    Ok(())
}

/// Appends each fill as often as it is used.
fn add_fills<A: Allocator>(
    punches: &mut Vec<Punch, A>,
    counts: &[u32],
    cells: &[Cell],
) -> Result<(), NoMemory>
    requires { length counts.now ≤ length cells.now }
    ensures ok { OnOk result (punches.new.items ≡ punches.old.items ++ job.fill_punches (zip counts.now cells.now)) }
    // No matrices take no memory.
    ensures memory { IfErr result (λ _. 1 ≤ length (job.fill_punches (zip counts.now cells.now))) }
{
    for (i, count) in counts.iter().enumerate() {
        let punch = Punch {
            cell: cells[i],
            s: false,
        };
        add_times(punches, &punch, *count)?;
    }
    Ok(())
}

/// The matrices of words with a space between each two, of the space that may be added, and of the fills, each used so
/// often.
pub fn line_punches<A: Allocator + Copy>(
    alloc: A,
    case: &MatrixCase,
    copy: &[Symbol],
    words: &[Word],
    added: bool,
    counts: &[u32],
) -> Result<Vec<Punch, A>, NoMemory>
    requires words { All (IsWord copy.now) words.now }
    requires fills { length counts.now ≤ length case.now.fill }
    ensures ok { IfOk result
        (λ found. found.items ≡ job.line_punches case.now (words_at copy.now words.now) added counts.now) }
    // No matrices take no memory.
    ensures memory { IfErr result
        (λ _. 1 ≤ length (job.line_punches case.now (words_at copy.now words.now) added counts.now)) }
{
    let mut found = Vec::new(alloc);
    add_words(&mut found, case, copy, words)?;
    if added {
        add_space(&mut found, case)?;
    }
    add_fills(&mut found, counts, case.fill())?;
    Ok(found)
}

/// Punches a line of these words, as it is set.
pub fn punch<A: Allocator + Copy>(
    ribbon: &mut RibbonWriter<A>,
    alloc: A,
    terms: &Terms,
    copy: &[Symbol],
    words: &[Word],
    setting: &Setting,
) -> Result<(), NoMemory>
    requires words { All (IsWord copy.now) words.now }
    requires fills { length setting.now.fills.items ≤ length terms.now.case.fill }
    requires room { length ribbon.old + length (set_rows terms.now (words_at copy.now words.now) setting.now) + 1
        < 2 ^ 32 }
    ensures { OnOk result (ribbon.new ≡ ribbon.old ++ set_rows terms.now (words_at copy.now words.now) setting.now) }
{
    let (coarse, fine) = setting.sum.positions();
    let counts = setting.fills.as_slice();
    let punches = line_punches(alloc, terms.case(), copy, words, setting.added, counts)?;
    ribbon.push(&PunchLine {
        matrices: Punches::from_vec(punches),
        coarse,
        fine,
    })?;
    Ok(())
}
