//! The galley of a copy: all its lines, one by one.

ghost use Rattle.std.specs.Prelude.{◌≡◌, ◌+◌, ◌≤◌, ◌<◌, ◌∷◌, [], length, All, OnOk, IfOk, IfErr, IsErrOf};
ghost use Rattle.desk_lines.specs.Groups.{AreWidths};
ghost use Rattle.desk_lines.specs.Words.{joined, most_symbols, most_words};
ghost use Rattle.desk_job.specs.Answer.{AreValues, by_key};
ghost use Rattle.desk_job.specs.Job as job;
ghost use Rattle.desk_job.specs.Making.{AreWordsOf, IsRange};
ghost use Rattle.desk_job.specs.Setting.{IsWord, words_at};
ghost use Rattle.view_galley.specs.Answer.{IsOfTerms, IsRefused, no_terms, rows_of_galley};
ghost use Rattle.view_galley.specs.Galley.{IsGalley, Stands, all_placed, galley_faults, galley_of, placed_at};
ghost use Rattle.view_galley.specs.Galley.{placed_in, with_lines};
ghost use Rattle.desk_job.specs.declared.JobFault.TheVariants.{MissingSetting};
ghost use Rattle.view_galley.specs.declared.galley.GalleyRefusal.TheVariants as refusal;

use crate::line::{Line, set_out};
use desk_case::MatrixCase;
use desk_job::making::{is_filled, lacking, word_widths};
use desk_job::setting::Measured;
use desk_job::terms::{Terms, Values};
use desk_job::{JobFault, given};
use desk_lines::{Group, Paragraph, Word, break_lines, paragraphs};
use desk_memory::NoMemory;
use desk_ops::{Key, Symbol};
use desk_replica::Settings;
use desk_wedge::Wedge;
use std::alloc::Allocator;
use std::marker::Model;
use thiserror::Error;

/// The lines of a copy, what they are set by, and the symbols that the case lacks.
pub struct Galley<'a, A: Allocator> {
    wedge: &'a Wedge,
    values: Values,
    terms: Terms<'a>,
    lacking: Vec<JobFault, A>,
    lines: Vec<Line<A>, A>,
}

// Written out: what drops one calls this, and does not take it apart once more.
impl<'a, A: Allocator> Drop for Galley<'a, A> {
    fn drop(self) {
        let Galley {
            wedge: _,
            values: _,
            terms: _,
            lacking,
            lines,
        } = self;
        drop(lacking);
        drop(lines);
    }
}

impl<'a, A: Allocator> Model for Galley<'a, A> {
    ghost use Rattle.view_galley.specs.Values.{GalleyValues};

    ghost Value = { GalleyValues };

    ghost view = { λ g. record {
      wedge = g.wedge.now;
      values = g.values;
      terms = g.terms;
      lacking = g.lacking.items;
      lines =
          g.lines.items;
    } };
}

/// Why there is no galley: a setting has no value, what settings, case and wedge have against one another, or out of
/// memory.
#[derive(Clone, Copy, PartialEq, Eq, Debug, Error)]
pub enum GalleyRefusal {
    #[error("{0}")]
    Fault(JobFault),
    #[error("no memory")]
    NoMemory,
}

impl From<JobFault> for GalleyRefusal {
    ghost from_gives = { λ fault why. why ≡ refusal.Fault fault };

    fn from(fault: JobFault) -> GalleyRefusal {
        GalleyRefusal::Fault(fault)
    }
}

// The key of a setting that is missing.
impl From<Key> for GalleyRefusal {
    ghost from_gives = { λ key why. why ≡ refusal.Fault (MissingSetting key) };

    fn from(key: Key) -> GalleyRefusal {
        GalleyRefusal::Fault(JobFault::MissingSetting(key))
    }
}

impl From<NoMemory> for GalleyRefusal {
    ghost from_gives = { λ _ why. why ≡ refusal.NoMemory };

    fn from(_: NoMemory) -> GalleyRefusal {
        GalleyRefusal::NoMemory
    }
}

impl<'a, A: Allocator> Galley<'a, A> {
    /// The wedge.
    pub fn wedge(&self) -> &Wedge
        ensures { result.now ≡ self.now.wedge }
    {
        self.wedge
    }

    /// The values of the settings.
    pub fn values(&self) -> Values
        ensures { result ≡ self.now.values }
    {
        self.values
    }

    /// What the lines are set by.
    pub fn terms(&self) -> &Terms<'a>
        ensures { result.now ≡ self.now.terms }
    {
        &self.terms
    }

    /// The place of each symbol that the case lacks. Its matrix has no width in the lines.
    pub fn lacking(&self) -> &[JobFault]
        ensures { result.now ≡ self.now.lacking }
    {
        self.lacking.as_slice()
    }

    /// The lines, in their order.
    pub fn lines(&self) -> &[Line<A>]
        ensures { result.now ≡ self.now.lines }
    {
        self.lines.as_slice()
    }
}

/// Adds the lines of these groups of words, the last of which is the last of its paragraph.
fn add_groups<A: Allocator + Copy>(
    lines: &mut Vec<Line<A>, A>,
    alloc: A,
    terms: &Terms,
    all: Measured<'_>,
    groups: &[Group],
) -> Result<(), NoMemory>
    requires number { length all.words.now ≤ most_words }
    requires widths { all.widths.now ≡ job.widths terms.now (words_at all.copy.now all.words.now) }
    requires within { AreWidths all.widths.now }
    requires ranges { All (IsRange (length all.words.now)) groups.now }
    ensures ok { OnOk result
        (lines.new.items
        ≡ with_lines terms.now all.entry.copy.now lines.old.items (placed_at all.entry.words.now groups.now)) }
    // No groups take no memory.
    ensures memory { IfErr result (λ _. 1 ≤ length groups.now) }
{
    for (i, group) in groups.iter().enumerate() {
        let filled = is_filled(groups, i, group);
        let number = lines.len() + 1;
        let line = set_out(alloc, terms, number, all, group, filled)?;
        lines.push(line)?;
    }
    Ok(())
}

/// Adds the lines of a paragraph of these words.
fn add_paragraph<A: Allocator + Copy>(
    lines: &mut Vec<Line<A>, A>,
    alloc: A,
    terms: &Terms,
    copy: &[Symbol],
    words: &[Word],
) -> Result<(), NoMemory>
    requires copy { length copy.now ≤ most_symbols }
    requires number { length words.now ≤ most_words }
    requires words { All (IsWord copy.now) words.now }
    ensures ok { OnOk result
        (lines.new.items ≡ with_lines terms.now copy.now lines.old.items (placed_in terms.now copy.now words.now)) }
    // No words take no memory.
    ensures memory { IfErr result (λ _. 1 ≤ length words.now) }
{
    let widths = word_widths(alloc, terms, copy, words)?;
    let groups = break_lines(alloc, &widths, terms.tight_space(), terms.measure())?;
    let all = Measured {
        copy,
        words,
        widths: &widths,
    };
    add_groups(lines, alloc, terms, all, &groups)
}

/// Adds the lines of paragraphs.
fn add_paragraphs<A: Allocator + Copy>(
    lines: &mut Vec<Line<A>, A>,
    alloc: A,
    terms: &Terms,
    copy: &[Symbol],
    found: &[Paragraph<A>],
) -> Result<(), NoMemory>
    requires copy { length copy.now ≤ most_symbols }
    requires words { All (AreWordsOf copy.now) found.now }
    ensures ok { OnOk result
        (lines.new.items ≡ with_lines terms.now copy.now lines.old.items (all_placed terms.now copy.now found.now)) }
    // Paragraphs without a word take no memory.
    ensures memory { IfErr result (λ _. 1 ≤ length (joined found.now)) }
{
    for paragraph in found {
        add_paragraph(lines, alloc, terms, copy, paragraph.words())?;
    }
    Ok(())
}

/// The lines of a copy.
fn all_lines<A: Allocator + Copy>(
    alloc: A,
    terms: &Terms,
    copy: &[Symbol],
) -> Result<Vec<Line<A>, A>, NoMemory>
    requires { length copy.now ≤ most_symbols }
    ensures ok { IfOk result (λ lines. lines.items ≡ galley_of terms.now copy.now) }
    // No symbols take no memory.
    ensures memory { IfErr result (λ _. 1 ≤ length copy.now) }
{
    let found = paragraphs(alloc, copy)?;
    let mut lines = Vec::new(alloc);
    add_paragraphs(&mut lines, alloc, terms, copy, &found)?;
    Ok(lines)
}

/// The galley of a copy of at most 1,048,576 symbols: each line of the job as it is set, or as it fails, and the place
/// of each symbol that the case lacks. There is none where a setting has no value, or settings, case and wedge do not
/// go together, and for no other cause; out of memory comes only where they go together, and of a copy that is not
/// empty.
pub fn make_galley<'a, A: Allocator + Copy>(
    alloc: A,
    copy: &[Symbol],
    settings: &Settings,
    case: &'a MatrixCase,
    wedge: &'a Wedge,
) -> Result<Galley<'a, A>, GalleyRefusal>
    requires copy { length copy.now ≤ most_symbols }
    requires settings { AreValues settings.now }
    ensures ok { IfOk result (IsGalley copy.now (by_key settings.now) case.now wedge.now) }
    // The job has the faults of the galley, and where these are none the rows of its lines.
    ensures job { IfOk result
        (λ g. job.job copy.now (by_key settings.now) case.now wedge.now
        ≡ job.rows_or (rows_of_galley g copy.now) (galley_faults g)) }
    ensures stands { IfOk result (λ g. All (Stands copy.now case.now) g.lines) }
    ensures err { IfErr result (λ why. IsRefused why (job.job copy.now (by_key settings.now) case.now wedge.now)) }
    ensures terms { IfErr result
        (λ why. IsOfTerms why (no_terms case.now wedge.now (job.values_of (by_key settings.now)))) }
    // No symbols take no memory.
    ensures memory { IsErrOf result refusal.NoMemory → 1 ≤ length copy.now }
{
    let values = given(settings)?;
    let terms = Terms::new(case, wedge, values)?;
    let lacking = lacking(alloc, case, copy)?;
    let lines = all_lines(alloc, &terms, copy)?;
    Ok(Galley {
        wedge,
        values,
        terms,
        lacking,
        lines,
    })
}
