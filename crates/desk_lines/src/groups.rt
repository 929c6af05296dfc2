//! The words of a paragraph in groups, each of which is set in one line.
//!
//! Each line takes as many words as fit, from the first line on, as an operator at the keyboard does: what follows
//! cannot change a line that is punched. So one pass over the words is enough.

ghost use Rattle.std.specs.Prelude.{◌≡◌, ◌≤◌, ◌^◌, pos, ◌+ℤ◌, ◌≤ℤ◌, ◌<ℤ◌, IfErr, IfOk, MatchBool, length};
ghost use Rattle.desk_lines.specs.Groups.{AreWidths, IsWidth, groups_of, widest_matrix};

use desk_memory::NoMemory;
use desk_units::Atoms;
use std::alloc::Allocator;

/// Words of a paragraph, by their places among its words: from `from` on, and before `to`.
#[derive(Clone, Copy, PartialEq, Eq, Debug)]
pub struct Group {
    pub from: usize,
    pub to: usize,
}

/// The width of a group with a space and a word more.
fn with_word(width: Atoms, space: Atoms, word: Atoms) -> Atoms
    requires width { IsWidth width }
    requires space_low { pos 1 ≤ℤ space }
    requires space_high { space ≤ℤ pos widest_matrix }
    requires word { IsWidth word }
    ensures { result ≡ (width +ℤ space) +ℤ word }
{
    Atoms::new(width.get() + space.get() + word.get())
}

/// Whether the width is no more than the measure.
fn fits(width: Atoms, measure: Atoms) -> bool
    ensures { MatchBool result (width ≤ℤ measure) (measure <ℤ width) }
{
    width.get() <= measure.get()
}

/// The groups of a paragraph's words, by their widths: each is the longest prefix of the words left that fits in the
/// measure with its inner spaces, or the first word alone where that does not fit.
///
/// Words and the measure are 0 to 2^40 atoms wide, a space 1 to 2^20, as no matrix is wider.
pub fn break_lines<A: Allocator>(
    alloc: A,
    words: &[Atoms],
    space: Atoms,
    measure: Atoms,
) -> Result<Vec<Group, A>, NoMemory>
    requires widths { AreWidths words.now }
    requires space_low { pos 1 ≤ℤ space }
    requires space_high { space ≤ℤ pos widest_matrix }
    requires measure_low { pos 0 ≤ℤ measure }
    requires measure_high { measure ≤ℤ pos (2 ^ 40) }
    ensures ok { IfOk result (λ groups. groups.items ≡ groups_of space measure words.now) }
    // No words take no memory.
    ensures memory { IfErr result (λ _. 1 ≤ length words.now) }
{
    let mut groups = Vec::new(alloc);
    let mut from = 0;
    let mut width = Atoms::new(0);
    for (i, word) in words.iter().enumerate() {
        let word = *word;
        if i == from {
            width = word;
        } else {
            let wider = with_word(width, space, word);
            if fits(wider, measure) {
                width = wider;
            } else {
                groups.push(Group { from, to: i })?;
                from = i;
                width = word;
            }
        }
    }
    if from < words.len() {
        groups.push(Group {
            from,
            to: words.len(),
        })?;
    }
    Ok(groups)
}
