//! The paragraphs of a copy and their words.
//!
//! Words may be empty, so that two spaces, one after the other, are two spaces of the line. A space of another style
//! than Roman parts no words; no copy has one.

ghost use Rattle.std.specs.Prelude.{◌≡◌, ◌≤◌, IfErr, IfOk, length};
ghost use Rattle.desk_lines.specs.Words.{words_of};

use desk_memory::NoMemory;
use desk_ops::Symbol;
use std::alloc::Allocator;
use std::marker::Model;

/// A word by its places in the copy: from `from` on, and before `to`.
#[derive(Clone, Copy, PartialEq, Eq, Debug)]
pub struct Word {
    pub from: usize,
    pub to: usize,
}

/// The words of a paragraph, in their order.
#[derive(Drop)]
pub struct Paragraph<A: Allocator> {
    words: Vec<Word, A>,
}

impl<A: Allocator> Model for Paragraph<A> {
    ghost use Rattle.std.specs.Prelude.{List};
    ghost use Rattle.desk_lines.specs.declared.words.Word.{Word};

    ghost Value = { List Word };

    ghost view = { λ p. p.words.items };
}

impl<A: Allocator> Paragraph<A> {
    /// The paragraph of these words, in their order.
    pub fn from_words(words: Vec<Word, A>) -> Paragraph<A>
        ensures { result ≡ words.items }
    {
        Self { words }
    }

    /// The words, from first to last; words may be empty.
    pub fn words(&self) -> &[Word]
        ensures { result.now ≡ self.now }
    {
        self.words.as_slice()
    }
}

/// The words of each paragraph of a copy, by their places in the copy. The copy is split at each line feed and one
/// empty last paragraph is dropped; a paragraph is split at each Roman space, and its words may be empty.
pub fn paragraphs<A: Allocator + Copy>(
    alloc: A,
    copy: &[Symbol],
) -> Result<Vec<Paragraph<A>, A>, NoMemory>
    ensures ok { IfOk result (λ found. found.items ≡ words_of copy.now) }
    // No symbols take no memory.
    ensures memory { IfErr result (λ _. 1 ≤ length copy.now) }
{
    let mut found = Vec::new(alloc);
    let mut words = Vec::new(alloc);
    let mut from = 0;
    for (i, symbol) in copy.iter().enumerate() {
        let symbol = *symbol;
        if symbol.is_line_feed() {
            words.push(Word { from, to: i })?;
            found.push(Paragraph::from_words(words))?;
            words = Vec::new(alloc);
            from = i + 1;
        } else if symbol.is_space() {
            words.push(Word { from, to: i })?;
            from = i + 1;
        }
    }
    if from < copy.len() || !words.is_empty() {
        words.push(Word {
            from,
            to: copy.len(),
        })?;
        found.push(Paragraph::from_words(words))?;
    }
    Ok(found)
}
