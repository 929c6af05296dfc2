//! The lines of a copy: their faults, or their rows.
//!
//! Each line is set once, for its fault or for its rows; after the first fault no more rows are punched.

ghost use Rattle.std.specs.Prelude.{◌≡◌, ◌+◌, ◌≤◌, ◌<◌, ◌∷◌, [], ◌-◌, ◌||◌, ◌==◌, length, drop, All, Err, OnOk, IfOk};
ghost use Rattle.std.specs.Prelude.{IfErr};
ghost use Rattle.desk_ribbon.specs.Ribbon.{head_row, ribbon};
ghost use Rattle.desk_job.specs.Answer.{IsMade, IsRefused, HasFaults, set_copy};
ghost use Rattle.desk_lines.specs.Groups.{AreWidths};
ghost use Rattle.desk_lines.specs.Words.{joined, most_symbols, most_words};
ghost use Rattle.desk_job.specs.Job as job;
ghost use Rattle.desk_job.specs.declared.JobRefusal.TheVariants as refusal;
ghost use Rattle.desk_job.specs.Terms.{IsUsable};
ghost use Rattle.desk_job.specs.Setting.{IsWord, line_at, words_at};
ghost use Rattle.desk_job.specs.Making.{Adds, AreWordsOf, CanAdd, IsRange, all_lines, lines_at, paragraph_lines};

use crate::punch::punch;
use crate::setting::{Measured, set_line};
use crate::terms::Terms;
use crate::{JobFault, JobFaults, JobRefusal};
use desk_case::MatrixCase;
use desk_lines::{Group, Paragraph, Word, break_lines, paragraphs};
use desk_memory::NoMemory;
use desk_ops::Symbol;
use desk_ribbon::RibbonWriter;
use desk_units::Atoms;
use std::alloc::Allocator;
use std::marker::Model;

/// What is found of a copy, line by line: the faults, and the ribbon as long as there is none.
#[derive(Drop)]
pub struct Making<A: Allocator + Copy> {
    next: usize,
    faults: Vec<JobFault, A>,
    ribbon: RibbonWriter<A>,
}

impl<A: Allocator + Copy> Model for Making<A> {
    ghost use Rattle.desk_job.specs.Making.{Found};

    ghost Value = { Found };

    ghost view = { λ m. record { next = m.next; faults = m.faults.items; rows = m.ribbon } };
}

/// The widths of words.
pub fn word_widths<A: Allocator>(
    alloc: A,
    terms: &Terms,
    copy: &[Symbol],
    words: &[Word],
) -> Result<Vec<Atoms, A>, NoMemory>
    requires copy { length copy.now ≤ most_symbols }
    requires words { All (IsWord copy.now) words.now }
    ensures value { IfOk result (λ widths. widths.items ≡ job.widths terms.now (words_at copy.now words.now)) }
    ensures within { IfOk result (λ widths. AreWidths widths.items) }
    // No words take no memory.
    ensures memory { IfErr result (λ _. 1 ≤ length words.now) }
{
    let mut widths = Vec::with_capacity(alloc, words.len())?;
    for word in words {
        widths.push(terms.symbols_width(&copy[word.from..word.to]))?;
    }
    Ok(widths)
}

/// Whether the line of this group, at this place, is to be filled: the last one, and each of one word.
pub fn is_filled(groups: &[Group], i: usize, group: &Group) -> bool
    requires place { i < length groups.now }
    requires order { (group.now).from < (group.now).to }
    ensures { result ≡ (length (drop (i + 1) groups.now) == 0) || ((group.now).to - (group.now).from == 1) }
{
    i + 1 == groups.len() || group.to - group.from == 1
}

impl<A: Allocator + Copy> Making<A> {
    /// Nothing yet.
    fn new(alloc: A) -> Making<A>
        ensures { result ≡ record { next = 1; faults = []; rows = [] } }
    {
        Making {
            next: 1,
            faults: Vec::new(alloc),
            ribbon: RibbonWriter::new(alloc),
        }
    }

    /// Adds a line of these words.
    fn add_line(
        &mut self,
        alloc: A,
        terms: &Terms,
        line: Measured<'_>,
        filled: bool,
    ) -> Result<(), NoMemory>
        requires some { 1 ≤ length line.words.now }
        requires number { length line.words.now ≤ most_words }
        requires words { All (IsWord line.copy.now) line.words.now }
        requires widths { line.widths.now ≡ job.widths terms.now (words_at line.copy.now line.words.now) }
        requires within { AreWidths line.widths.now }
        requires can_add { CanAdd terms.now (line_at line.copy.now line.words.now filled ∷ []) self.old }
        ensures ok { OnOk result
            (Adds terms.now (line_at line.entry.copy.now line.entry.words.now filled ∷ []) self.old self.new) }
        // After a fault a line without one takes no memory.
        ensures memory { IfErr result
            (λ _. job.line_fault terms.now self.old.next (line_at line.entry.copy.now line.entry.words.now filled) ≡ []
            → self.old.faults ≡ []) }
    {
        match set_line(terms, self.next, line, filled) {
            Err(fault) => self.faults.push(fault)?,
            Ok(setting) => {
                if self.faults.is_empty() {
                    punch(
                        &mut self.ribbon,
                        alloc,
                        terms,
                        line.copy,
                        line.words,
                        &setting,
                    )?;
                }
            }
        }
        self.next += 1;
        Ok(())
    }

    /// Adds the lines of these groups of words, the last of which is the last of its paragraph.
    fn add_groups(
        &mut self,
        alloc: A,
        terms: &Terms,
        all: Measured<'_>,
        groups: &[Group],
    ) -> Result<(), NoMemory>
        requires number { length all.words.now ≤ most_words }
        requires words { All (IsWord all.copy.now) all.words.now }
        requires widths { all.widths.now ≡ job.widths terms.now (words_at all.copy.now all.words.now) }
        requires within { AreWidths all.widths.now }
        requires ranges { All (IsRange (length all.words.now)) groups.now }
        requires can_add { CanAdd terms.now (lines_at all.copy.now all.words.now groups.now) self.old }
        ensures ok { OnOk result
            (Adds terms.now (lines_at all.entry.copy.now all.entry.words.now groups.now) self.old self.new) }
        // No groups take no memory.
        ensures memory { IfErr result (λ _. 1 ≤ length groups.now) }
    {
        for (i, group) in groups.iter().enumerate() {
            let filled = is_filled(groups, i, group);
            let line = Measured {
                copy: all.copy,
                words: &all.words[group.from..group.to],
                widths: &all.widths[group.from..group.to],
            };
            self.add_line(alloc, terms, line, filled)?;
        }
        Ok(())
    }

    /// Adds the lines of a paragraph of these words.
    fn add_paragraph(
        &mut self,
        alloc: A,
        terms: &Terms,
        copy: &[Symbol],
        words: &[Word],
    ) -> Result<(), NoMemory>
        requires copy { length copy.now ≤ most_symbols }
        requires number { length words.now ≤ most_words }
        requires words { All (IsWord copy.now) words.now }
        requires can_add { CanAdd terms.now (paragraph_lines terms.now copy.now words.now) self.old }
        ensures ok { OnOk result (Adds terms.now (paragraph_lines terms.now copy.now words.now) self.old self.new) }
        // No words take no memory.
        ensures memory { IfErr result (λ _. 1 ≤ length words.now) }
    {
        let widths = word_widths(alloc, terms, copy, words)?;
        let groups = break_lines(alloc, &widths, terms.tight_space(), terms.measure())?;
        let all = Measured {
            copy,
            words,
            widths: &widths,
        };
        self.add_groups(alloc, terms, all, &groups)
    }

    /// Adds the lines of paragraphs.
    fn add_paragraphs(
        &mut self,
        alloc: A,
        terms: &Terms,
        copy: &[Symbol],
        found: &[Paragraph<A>],
    ) -> Result<(), NoMemory>
        requires copy { length copy.now ≤ most_symbols }
        requires words { All (AreWordsOf copy.now) found.now }
        requires can_add { CanAdd terms.now (all_lines terms.now copy.now found.now) self.old }
        ensures ok { OnOk result (Adds terms.now (all_lines terms.now copy.now found.now) self.old self.new) }
        // Paragraphs without a word take no memory.
        ensures memory { IfErr result (λ _. 1 ≤ length (joined found.now)) }
    {
        for paragraph in found {
            self.add_paragraph(alloc, terms, copy, paragraph.words())?;
        }
        Ok(())
    }

    /// The ribbon, or the faults found. Out of memory comes only where there is no fault.
    fn finish(self) -> Result<Vec<u8, A>, JobRefusal<A>>
        ensures ok { IfOk result (λ bytes. (self.faults ≡ []) × (bytes.items ≡ ribbon (head_row ∷ self.rows))) }
        ensures err { IfErr result (λ refusal. HasFaults refusal self.faults) }
        ensures memory { result ≡ Err refusal.NoMemory → self.faults ≡ [] }
    {
        let Making { faults, ribbon, .. } = self;
        if faults.is_empty() {
            Ok(ribbon.finish()?)
        } else {
            Err(JobRefusal::Faults(JobFaults::from_vec(faults)))
        }
    }
}

/// Whether the case lacks the symbol, which is no separator.
fn is_lacking(case: &MatrixCase, symbol: Symbol) -> bool
    ensures { result ≡ job.is_lacking case.now symbol }
{
    !(symbol.is_space() || symbol.is_line_feed() || case.cell_of(symbol).is_some())
}

/// The place of each symbol that the case lacks.
pub fn lacking<A: Allocator>(
    alloc: A,
    case: &MatrixCase,
    copy: &[Symbol],
) -> Result<Vec<JobFault, A>, NoMemory>
    ensures ok { IfOk result (λ faults. faults.items ≡ job.lacking case.now 0 copy.now) }
    // Where no symbol is lacking it takes no memory.
    ensures memory { IfErr result (λ _. 1 ≤ length (job.lacking case.now 0 copy.now)) }
{
    let mut faults = Vec::new(alloc);
    for (i, symbol) in copy.iter().enumerate() {
        if is_lacking(case, *symbol) {
            faults.push(JobFault::NoMatrix(i))?;
        }
    }
    Ok(faults)
}

/// What is found of all lines of a copy.
fn make_lines<A: Allocator + Copy>(
    alloc: A,
    terms: &Terms,
    copy: &[Symbol],
) -> Result<Making<A>, NoMemory>
    requires usable { IsUsable terms.now }
    requires copy { length copy.now ≤ most_symbols }
    ensures ok { IfOk result
        (λ making. Adds terms.now (job.lines terms.now copy.now) (record { next = 1; faults = []; rows = [] }) making) }
    // No symbols take no memory.
    ensures memory { IfErr result (λ _. 1 ≤ length copy.now) }
{
    let found = paragraphs(alloc, copy)?;
    let mut making = Making::new(alloc);
    making.add_paragraphs(alloc, terms, copy, &found)?;
    Ok(making)
}

/// The ribbon of a copy, or the symbols that the case lacks, or else the faults of its lines.
pub fn set_copy<A: Allocator + Copy>(
    alloc: A,
    terms: &Terms,
    copy: &[Symbol],
) -> Result<Vec<u8, A>, JobRefusal<A>>
    requires { length copy.now ≤ most_symbols }
    ensures ok { IfOk result (λ bytes. IsMade bytes.items (set_copy terms.now copy.now)) }
    ensures err { IfErr result (λ refusal. IsRefused refusal (set_copy terms.now copy.now)) }
{
    let lacking = lacking(alloc, terms.case(), copy)?;
    if !lacking.is_empty() {
        return Err(JobRefusal::Faults(JobFaults::from_vec(lacking)));
    }
    make_lines(alloc, terms, copy)?.finish()
}
