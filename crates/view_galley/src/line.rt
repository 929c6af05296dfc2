//! A line as it is set, or as it fails.

ghost use Rattle.std.specs.Prelude.{◌≡◌, ◌+◌, ◌-◌, ◌*◌, ◌≤◌, ◌^◌, pos, ◌+ℤ◌, ◌-ℤ◌, ◌*ℤ◌, ◌≤ℤ◌, int_lt, length, drop};
ghost use Rattle.std.specs.Prelude.{option_and_then, IfOk};
ghost use Rattle.std.specs.Option.{option_to_list};
ghost use Rattle.desk_lines.specs.Groups.{AreWidths};
ghost use Rattle.desk_lines.specs.Words.{most_words};
ghost use Rattle.desk_justify.specs.Positions.{sum_of};
ghost use Rattle.desk_job.specs.Job as job;
ghost use Rattle.desk_job.specs.Setting.{words_at};
ghost use Rattle.desk_job.specs.Terms.{longest_measure, most_over};
ghost use Rattle.desk_job.specs.Making.{IsRange, group_words};
ghost use Rattle.view_galley.specs.Line.{next_at, sum_if, values_of};
ghost use Rattle.view_galley.specs.Galley.{is_faulty};
ghost use Rattle.desk_units.specs.WedgeSum.{greatest, least, pair_of};

use arrayvec::ArrayVec;
use desk_job::JobFault;
use desk_job::setting::{Measured, fills, has_added, left, rest, spaces, total};
use desk_job::terms::{Terms, whole};
use desk_lines::{Group, Word};
use desk_memory::NoMemory;
use desk_signals::Position;
use desk_units::{Atoms, WedgeSum, floor_steps};
use std::alloc::Allocator;
use std::marker::Model;

/// The word after a line in its paragraph.
#[derive(Clone, Copy, PartialEq, Eq, Debug)]
pub struct Next {
    pub word: Word,
    /// By how much it is too wide to join the line, with a space before it and all spaces at tight.
    pub over: Atoms,
    /// What is free for a part of it, with a space before it and all spaces at tight; less than 0 where not even the
    /// space has room.
    pub free: Atoms,
}

/// A line of a galley.
#[derive(Drop)]
pub struct Line<A: Allocator> {
    number: usize,
    words: Vec<Word, A>,
    filled: bool,
    added: bool,
    spaces: usize,
    width: u64,
    rest: Atoms,
    fills: ArrayVec<u32, 4>,
    wedge_sum: Option<i64>,
    fault: Option<JobFault>,
    next: Option<Next>,
}

impl<A: Allocator> Model for Line<A> {
    ghost use Rattle.std.specs.Option.{option_to_list};
    ghost use Rattle.view_galley.specs.Values.{LineValues};

    ghost Value = { LineValues };

    ghost view = { λ l. record {
      number = l.number;
      words = l.words.items;
      filled = l.filled;
      added = l.added;
      spaces = l.spaces;
      width = l.width;
      rest = l.rest;
      fills = l.fills.items;
      wedge_sum = l.wedge_sum;
      faults = option_to_list
          l.fault;
      next = l.next;
    } };
}

impl<A: Allocator> Line<A> {
    /// Its number in the copy, from 1.
    pub fn number(&self) -> usize
        ensures { result ≡ self.now.number }
    {
        self.number
    }

    /// Its words by their places in the copy, one at least. Words may be empty.
    pub fn words(&self) -> &[Word]
        ensures { result.now ≡ self.now.words }
    {
        self.words.as_slice()
    }

    /// Whether it is to be filled: the last of its paragraph, and each of one word.
    pub fn is_filled(&self) -> bool
        ensures { result ≡ self.now.filled }
    {
        self.filled
    }

    /// Whether one space is added after its words.
    pub fn has_added(&self) -> bool
        ensures { result ≡ self.now.added }
    {
        self.added
    }

    /// How many spaces it has, the added one too.
    pub fn spaces(&self) -> usize
        ensures { result ≡ self.now.spaces }
    {
        self.spaces
    }

    /// The atoms of its words and spaces, with the wedges at neutral and no fills.
    pub fn width(&self) -> u64
        ensures { result ≡ self.now.width }
    {
        self.width
    }

    /// The measure less that width.
    pub fn rest(&self) -> Atoms
        ensures { result ≡ self.now.rest }
    {
        self.rest
    }

    /// How often each fill is used, the widest first; none in a line that is not to be filled.
    pub fn fills(&self) -> &[u32]
        ensures { result.now ≡ self.now.fills }
    {
        self.fills.as_slice()
    }

    /// The wedge sum at which its spaces take up what is left, also where the wedges do not reach it; none where the
    /// line has no space.
    pub fn wedge_sum(&self) -> Option<i64>
        ensures { result ≡ self.now.wedge_sum }
    {
        self.wedge_sum
    }

    /// Why it can't be set, if so.
    pub fn fault(&self) -> Option<JobFault>
        ensures { option_to_list result ≡ self.now.faults }
    {
        self.fault
    }

    /// Whether it can't be set.
    pub fn is_faulty(&self) -> bool
        ensures { result ≡ is_faulty self.now }
    {
        matches!(self.fault, Some(_))
    }

    /// The positions of the coarse and the fine wedge at its wedge sum, where they reach it.
    pub fn positions(&self) -> Option<(Position, Position)>
        ensures { result ≡ option_and_then pair_of self.now.wedge_sum }
    {
        let sum = WedgeSum::new(u32::try_from(self.wedge_sum?).ok()?)?;
        Some(sum.positions())
    }

    /// The word after it in its paragraph, if there is one.
    pub fn next(&self) -> Option<Next>
        ensures { result ≡ self.now.next }
    {
        self.next
    }
}

/// The atoms of words and spaces, with the wedges at neutral.
fn neutral_width(terms: &Terms, words: u64, spaces: usize) -> u64
    requires spaces { spaces ≤ most_words }
    requires words { words ≤ 2 ^ 61 }
    ensures { result ≡ words + spaces * job.space_width terms.now }
{
    words + spaces as u64 * terms.space()
}

/// The number at which so many spaces take up what is left; it is a wedge sum where the wedges reach it.
fn sum_at(left: Atoms, spaces: usize) -> Option<i64>
    requires spaces { spaces ≤ 2 ^ 32 }
    requires limit { left ≤ℤ pos longest_measure }
    ensures { result ≡ sum_if spaces (sum_of left spaces) }
{
    if spaces == 0 {
        return None;
    }
    let steps = floor_steps(left, spaces as u64);
    Some(WedgeSum::NEUTRAL.get() as i64 + steps)
}

/// Whether a sum that is no less than a wedge sum is above what the wedges reach.
fn is_above(sum: i64) -> bool
    requires { pos least ≤ℤ sum }
    ensures { result ≡ int_lt (pos greatest) sum }
{
    WedgeSum::from_steps(sum - WedgeSum::NEUTRAL.get() as i64).is_none()
}

/// Why a line of so many spaces and with so much left for them can't be set, if so.
fn fault_at(
    terms: &Terms,
    number: usize,
    filled: bool,
    spaces: usize,
    left: Atoms,
) -> Option<JobFault>
    requires spaces { spaces ≤ 2 ^ 32 }
    requires limit { left ≤ℤ pos longest_measure }
    ensures { option_to_list result ≡ job.sum_fault terms.now number filled spaces (sum_of left spaces) }
{
    let Some(sum) = sum_at(left, spaces) else {
        return Some(JobFault::TooWide(number));
    };
    let tight = terms.tight().get() as i64;
    let loose = terms.loose().get() as i64;
    if filled {
        if sum < tight || is_above(sum) {
            return Some(JobFault::CannotFill(number));
        }
        return None;
    }
    if sum > loose {
        return Some(JobFault::TooLoose(number));
    }
    None
}

/// The measure less words of this width, with a space after each, at tight.
fn free(terms: &Terms, words: usize, width: u64) -> Atoms
    requires words { words ≤ most_words }
    requires width { width ≤ 2 ^ 61 }
    ensures value { result ≡ pos (job.measure terms.now) -ℤ (pos width +ℤ pos words *ℤ job.tight_space terms.now) }
    ensures high { result ≤ℤ pos longest_measure }
    ensures low { pos 0 ≤ℤ (result +ℤ pos most_over) }
{
    let taken = width + words as u64 * whole(terms.tight_space());
    Atoms::new(whole(terms.measure()) as i64 - taken as i64)
}

/// The first of the words after a line, where so much is free, and by how much it is wider.
fn next_word(free: Atoms, after: &[Word], widths: &[Atoms]) -> Option<Next>
    requires number { length after.now ≡ length widths.now }
    requires within { AreWidths widths.now }
    requires high { free ≤ℤ pos longest_measure }
    requires low { pos 0 ≤ℤ (free +ℤ pos most_over) }
    ensures { result ≡ next_at free after.now widths.now }
{
    let [word, ..] = after else {
        return None;
    };
    Some(Next {
        word: *word,
        over: Atoms::new(widths[0].get() - free.get()),
        free,
    })
}

/// What is known of the line of this number, of this group of a paragraph's words.
pub fn set_out<A: Allocator>(
    alloc: A,
    terms: &Terms,
    number: usize,
    all: Measured<'_>,
    group: &Group,
    filled: bool,
) -> Result<Line<A>, NoMemory>
    requires number { length all.words.now ≤ most_words }
    requires group { IsRange (length all.words.now) group.now }
    requires widths { all.widths.now ≡ job.widths terms.now (words_at all.copy.now all.words.now) }
    requires within { AreWidths all.widths.now }
    ensures { IfOk result
        (λ line. line ≡ values_of terms.now all.entry.copy.now number
        (record {
          words = group_words all.entry.words.now group.now;
          filled = filled;
          after = drop
              (group.now).to all.entry.words.now;
        })) }
{
    let these = &all.words[group.from..group.to];
    let width = total(&all.widths[group.from..group.to]);
    let added = has_added(terms, these.len(), width, filled);
    let spaces = spaces(these.len(), added);
    let rest = rest(terms, width, spaces);
    let fills = fills(terms, rest, filled);
    let left = left(terms, rest, fills.as_slice());
    let wedge_sum = sum_at(left, spaces);
    let fault = fault_at(terms, number, filled, spaces, left);
    let free = free(terms, these.len(), width);
    let next = next_word(free, &all.words[group.to..], &all.widths[group.to..]);
    Ok(Line {
        number,
        words: Vec::from_slice(alloc, these)?,
        filled,
        added,
        spaces,
        width: neutral_width(terms, width, spaces),
        rest,
        fills,
        wedge_sum,
        fault,
        next,
    })
}
