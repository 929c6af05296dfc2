//! What a line is set by: first the space that may be added, then the fills, then the wedge sum for what is left.
//!
//! A line that is to be filled is brought near the measure by fills, so that the wedges have little left to do; any
//! other line has only its spaces.

ghost use Rattle.std.specs.Prelude.{◌≡◌, ◌+◌, ◌-◌, ◌*◌, ◌≤◌, ◌^◌, [], false, pos, ◌+ℤ◌, ◌-ℤ◌, ◌*ℤ◌, ◌≤ℤ◌, int_le};
ghost use Rattle.std.specs.Prelude.{unsigned_abs, sum_by, length, All, if◌then◌else◌, ◌&&◌};
ghost use Rattle.desk_lines.specs.Groups.{AreWidths};
ghost use Rattle.desk_lines.specs.Words.{most_words};
ghost use Rattle.desk_justify.specs.Filled.{fills_of, taken};
ghost use Rattle.desk_justify.specs.Positions.{sum_of};
ghost use Rattle.desk_job.specs.Job as job;
ghost use Rattle.desk_job.specs.Terms.{IsSmall, longest_measure, most_over};
ghost use Rattle.desk_job.specs.Setting.{Fits, Sets, SetsAt, line_at, words_at};

use crate::JobFault;
use crate::terms::{Terms, whole};
use arrayvec::ArrayVec;
use desk_justify::{fill, wedge_sum};
use desk_lines::Word;
use desk_ops::Symbol;
use desk_units::{Atoms, WedgeSum};

/// Words of a copy, by their places there, and the width of each in atoms.
#[derive(Clone, Copy)]
pub struct Measured<'a> {
    pub copy: &'a [Symbol],
    pub words: &'a [Word],
    pub widths: &'a [Atoms],
}

/// What a line is set by: whether a space was added, how often each fill is used, and the wedge sum.
#[derive(Drop)]
pub struct Setting {
    pub added: bool,
    pub fills: ArrayVec<u32, 4>,
    pub sum: WedgeSum,
}

/// The sum of the widths of words.
pub fn total(widths: &[Atoms]) -> u64
    requires words { length widths.now ≤ most_words }
    requires widths { AreWidths widths.now }
    ensures value { result ≡ sum_by unsigned_abs widths.now }
    ensures limit { result ≤ length widths.now * 2 ^ 40 }
{
    let mut total = 0;
    for width in widths {
        total += whole(*width);
    }
    total
}

/// Whether so many words of this width, each with a space after it, fit at tight.
fn has_room(terms: &Terms, words: usize, width: u64) -> bool
    requires words { words ≤ most_words }
    requires width { width ≤ 2 ^ 61 }
    ensures { result ≡ int_le (pos width +ℤ pos words *ℤ job.tight_space terms.now) (pos (job.measure terms.now)) }
{
    let spaces = whole(terms.tight_space()) * words as u64;
    width + spaces <= whole(terms.measure())
}

/// The measure less words of this width and so many spaces at neutral.
pub fn rest(terms: &Terms, width: u64, spaces: usize) -> Atoms
    requires spaces { spaces ≤ most_words }
    requires width { width ≤ 2 ^ 61 }
    ensures value { result ≡ pos (job.measure terms.now) -ℤ pos (width + spaces * job.space_width terms.now) }
    ensures limit { result ≤ℤ pos longest_measure }
    ensures least { pos 0 ≤ℤ (result +ℤ pos most_over) }
{
    let taken = width + spaces as u64 * terms.space();
    Atoms::new(whole(terms.measure()) as i64 - taken as i64)
}

/// How often each fill is used: none in a line that is not to be filled.
pub fn fills(terms: &Terms, rest: Atoms, filled: bool) -> ArrayVec<u32, 4>
    requires { rest ≤ℤ pos longest_measure }
    ensures value { result.items ≡ (if filled then fills_of rest (job.fill_widths terms.now) else []) }
    ensures number { length result.items ≤ length (job.fill_widths terms.now) }
{
    if filled {
        fill(rest, terms.fill_widths())
    } else {
        ArrayVec::new()
    }
}

/// The atoms that fills take.
fn taken(counts: &[u32], widths: &[Atoms]) -> u64
    requires number { length counts.now ≤ length widths.now }
    requires four { length widths.now ≤ 4 }
    requires widths { All IsSmall widths.now }
    ensures value { result ≡ taken counts.now widths.now }
    ensures limit { result ≤ 2 ^ 54 }
{
    let mut total = 0;
    for (i, count) in counts.iter().enumerate() {
        total += *count as u64 * whole(widths[i]);
    }
    total
}

/// What the spaces are to take up: the rest, less the fills.
pub fn left(terms: &Terms, rest: Atoms, counts: &[u32]) -> Atoms
    requires number { length counts.now ≤ length (job.fill_widths terms.now) }
    requires limit { rest ≤ℤ pos longest_measure }
    requires least { pos 0 ≤ℤ (rest +ℤ pos most_over) }
    ensures { result ≡ rest -ℤ pos (taken counts.now (job.fill_widths terms.now)) }
{
    Atoms::new(rest.get() - taken(counts, terms.fill_widths()) as i64)
}

/// The wedge sum at which so many spaces take up what is left, or the line's fault. A line that is not to be filled
/// fits at tight, so its sum is not below that.
fn line_sum(
    terms: &Terms,
    n: usize,
    filled: bool,
    spaces: usize,
    left: Atoms,
) -> Result<WedgeSum, JobFault>
    requires some { 1 ≤ spaces }
    requires limit { spaces ≤ 2 ^ 32 }
    requires fits { filled ≡ false → pos terms.now.tight ≤ℤ sum_of left spaces }
    ensures { SetsAt terms.now n filled spaces (sum_of left spaces) result }
{
    let (tight, loose) = (terms.tight(), terms.loose());
    match wedge_sum(left, spaces as u64) {
        Some(sum) if filled && sum < tight => Err(JobFault::CannotFill(n)),
        Some(sum) if !filled && loose < sum => Err(JobFault::TooLoose(n)),
        Some(sum) => Ok(sum),
        None if filled => Err(JobFault::CannotFill(n)),
        None => Err(JobFault::TooLoose(n)),
    }
}

/// Whether one space is added after the words of a line.
pub fn has_added(terms: &Terms, words: usize, width: u64, filled: bool) -> bool
    requires words { words ≤ most_words }
    requires width { width ≤ 2 ^ 61 }
    ensures { result ≡ filled
        && int_le (pos width +ℤ pos words *ℤ job.tight_space terms.now) (pos (job.measure terms.now)) }
{
    filled && has_room(terms, words, width)
}

/// The spaces between words, and the one added.
pub fn spaces(words: usize, added: bool) -> usize
    requires { 1 ≤ words }
    ensures { result ≡ words - 1 + (if added then 1 else 0) }
{
    if added { words } else { words - 1 }
}

/// What a line is set by, or its fault: the line of this number, of these words of the copy.
pub fn set_line(
    terms: &Terms,
    n: usize,
    line: Measured<'_>,
    filled: bool,
) -> Result<Setting, JobFault>
    requires some { 1 ≤ length line.words.now }
    requires number { length line.words.now ≤ most_words }
    requires widths { line.widths.now ≡ job.widths terms.now (words_at line.copy.now line.words.now) }
    requires within { AreWidths line.widths.now }
    requires fits { Fits terms.now (line_at line.copy.now line.words.now filled) }
    ensures { Sets terms.now n (line_at line.entry.copy.now line.entry.words.now filled) result }
{
    let width = total(line.widths);
    let added = has_added(terms, line.words.len(), width, filled);
    let spaces = spaces(line.words.len(), added);
    if spaces == 0 {
        return Err(JobFault::TooWide(n));
    }
    let rest = rest(terms, width, spaces);
    let fills = fills(terms, rest, filled);
    let left = left(terms, rest, fills.as_slice());
    let sum = line_sum(terms, n, filled, spaces, left)?;
    Ok(Setting { added, fills, sum })
}
