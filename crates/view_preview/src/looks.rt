//! Second looks: what is no fault of a copy or its galley, and yet seldom meant.

ghost use Rattle.std.specs.Prelude.{◌≡◌, ◌++◌, ◌<◌, length, IfOk, OnOk};
ghost use Rattle.std.specs.List.{prefix_len};
ghost use Rattle.desk_ops.specs.Op.{is_space};
ghost use Rattle.desk_lines.specs.Words.{spelled};
ghost use Rattle.view_preview.specs.Looks.{at_places, before_point_at, begins_spaces, has_char, has_space, look_if};
ghost use Rattle.view_preview.specs.Looks.{quote_at, spaces_at};
ghost use Rattle.view_preview.specs.Looks.{again_at, alike_ends, hyphen_at, hyphens, hyphens_of, is_again, last_word};
ghost use Rattle.view_preview.specs.Looks.{looks_of, repeated, repeated_of, third_at};

use desk_lines::{Word, paragraphs};
use desk_memory::NoMemory;
use desk_ops::Symbol;
use std::alloc::Allocator;
use view_galley::Line;

/// What a second look is for.
#[derive(Clone, Copy)]
pub enum LookKind {
    /// A word that is not the last of its line ends with a hyphen.
    HyphenInside,
    /// Two spaces or more in a row.
    TwoSpaces,
    SpaceBeforePoint,
    SpaceBeforeComma,
    /// A quote that neither opens nor closes.
    StraightQuote,
    /// A word that is once more the word before it.
    WordRepeated,
    /// A line that ends with the word that the two lines before it end with.
    LinesEndAlike,
}

/// A second look at so many symbols of the copy, from a place on.
#[derive(Clone, Copy)]
pub struct Look {
    pub kind: LookKind,
    pub place: usize,
    pub len: usize,
}

/// Whether a space is at a place.
fn has_space(copy: &[Symbol], place: usize) -> bool
    ensures { result ≡ has_space copy.now place }
{
    place < copy.len() && copy[place].is_space()
}

/// Whether a character is at a place, of any style.
fn has_char(copy: &[Symbol], place: usize, ch: char) -> bool
    ensures { result ≡ has_char copy.now place ch }
{
    place < copy.len() && copy[place].ch == ch
}

/// With how many spaces symbols begin.
fn leading_spaces(symbols: &[Symbol]) -> usize
    ensures { result ≡ prefix_len is_space symbols.now }
{
    symbols
        .iter()
        .take_while(|symbol| symbol.is_space())
        .count()
}

/// Adds a look, where the test passed.
fn add_if<A: Allocator>(
    looks: &mut Vec<Look, A>,
    test: bool,
    kind: LookKind,
    place: usize,
    len: usize,
) -> Result<(), NoMemory>
    ensures { OnOk result (looks.new.items ≡ looks.old.items ++ look_if test kind place len) }
{
    if test {
        looks.push(Look { kind, place, len })?;
    }
    Ok(())
}

/// Whether a row of two spaces or more begins at a place.
fn begins_spaces(copy: &[Symbol], place: usize) -> bool
    ensures { result ≡ begins_spaces copy.now place }
{
    has_space(copy, place)
        && !(place > 0 && has_space(copy, place - 1))
        && has_space(copy, place.saturating_add(1))
}

/// Adds the row of spaces that begins at a place.
fn add_spaces_at<A: Allocator>(
    looks: &mut Vec<Look, A>,
    copy: &[Symbol],
    place: usize,
) -> Result<(), NoMemory>
    requires { place < length copy.now }
    ensures { OnOk result (looks.new.items ≡ looks.old.items ++ spaces_at copy.now place) }
{
    // The row is counted only where it begins.
    if !begins_spaces(copy, place) {
        return Ok(());
    }
    add_if(
        looks,
        true,
        LookKind::TwoSpaces,
        place,
        leading_spaces(&copy[place..]),
    )
}

/// Adds the space before a point or a comma that is at a place.
fn add_point_at<A: Allocator>(
    looks: &mut Vec<Look, A>,
    copy: &[Symbol],
    place: usize,
) -> Result<(), NoMemory>
    requires { place < length copy.now }
    ensures { OnOk result (looks.new.items ≡ looks.old.items ++ before_point_at copy.now place) }
{
    let space = has_space(copy, place);
    let point = space && has_char(copy, place + 1, '.');
    let comma = space && has_char(copy, place + 1, ',');
    add_if(looks, point, LookKind::SpaceBeforePoint, place, 2)?;
    add_if(looks, comma, LookKind::SpaceBeforeComma, place, 2)
}

/// Adds the straight quote that is at a place.
fn add_quote_at<A: Allocator>(
    looks: &mut Vec<Look, A>,
    copy: &[Symbol],
    place: usize,
) -> Result<(), NoMemory>
    ensures { OnOk result (looks.new.items ≡ looks.old.items ++ quote_at copy.now place) }
{
    let quote = has_char(copy, place, '\'') || has_char(copy, place, '"');
    add_if(looks, quote, LookKind::StraightQuote, place, 1)
}

/// Adds the rows of two spaces or more.
fn add_spaces<A: Allocator>(looks: &mut Vec<Look, A>, copy: &[Symbol]) -> Result<(), NoMemory>
    ensures { OnOk result (looks.new.items ≡ looks.old.items ++ at_places spaces_at copy.now) }
{
    for place in 0..copy.len() {
        add_spaces_at(looks, copy, place)?;
    }
    Ok(())
}

/// Adds the spaces before a point or a comma.
fn add_points<A: Allocator>(looks: &mut Vec<Look, A>, copy: &[Symbol]) -> Result<(), NoMemory>
    ensures { OnOk result (looks.new.items ≡ looks.old.items ++ at_places before_point_at copy.now) }
{
    for place in 0..copy.len() {
        add_point_at(looks, copy, place)?;
    }
    Ok(())
}

/// Adds the straight quotes.
fn add_quotes<A: Allocator>(looks: &mut Vec<Look, A>, copy: &[Symbol]) -> Result<(), NoMemory>
    ensures { OnOk result (looks.new.items ≡ looks.old.items ++ at_places quote_at copy.now) }
{
    for place in 0..copy.len() {
        add_quote_at(looks, copy, place)?;
    }
    Ok(())
}

/// The symbols of a word, as far as the copy has them.
fn spelled(copy: &[Symbol], word: Word) -> &[Symbol]
    ensures { result.now ≡ spelled copy.now word }
{
    let behind = &copy[word.from.min(copy.len())..];
    &behind[..word.to.saturating_sub(word.from).min(behind.len())]
}

/// Whether two words of the copy are one word twice.
fn is_again(copy: &[Symbol], word: Word, other: Word) -> bool
    ensures { result ≡ is_again copy.now word other }
{
    spelled(copy, word) == spelled(copy, other)
}

/// Adds the hyphen that a word ends with.
fn add_hyphen_at<A: Allocator>(
    looks: &mut Vec<Look, A>,
    copy: &[Symbol],
    word: Word,
) -> Result<(), NoMemory>
    ensures { OnOk result (looks.new.items ≡ looks.old.items ++ hyphen_at copy.now word) }
{
    let last = word.to.saturating_sub(1);
    let hyphen = word.to.saturating_sub(word.from) >= 2 && has_char(copy, last, '-');
    add_if(looks, hyphen, LookKind::HyphenInside, last, 2)
}

/// Adds the hyphens that words of a line end with, but for its last.
fn add_hyphens_of<A: Allocator>(
    looks: &mut Vec<Look, A>,
    copy: &[Symbol],
    words: &[Word],
) -> Result<(), NoMemory>
    ensures { OnOk result (looks.new.items ≡ looks.old.items ++ hyphens_of copy.now words.now) }
{
    for word in &words[..words.len().saturating_sub(1)] {
        add_hyphen_at(looks, copy, *word)?;
    }
    Ok(())
}

/// Adds a word that is once more the word before it.
fn add_again_at<A: Allocator>(
    looks: &mut Vec<Look, A>,
    copy: &[Symbol],
    before: Word,
    word: Word,
) -> Result<(), NoMemory>
    ensures { OnOk result (looks.new.items ≡ looks.old.items ++ again_at copy.now (before, word)) }
{
    let again = word.from < word.to && is_again(copy, before, word);
    let len = word.to.saturating_sub(word.from);
    add_if(looks, again, LookKind::WordRepeated, word.from, len)
}

/// Adds the words of a paragraph that are once more the word before them.
fn add_repeated_of<A: Allocator>(
    looks: &mut Vec<Look, A>,
    copy: &[Symbol],
    words: &[Word],
) -> Result<(), NoMemory>
    ensures { OnOk result (looks.new.items ≡ looks.old.items ++ repeated_of copy.now words.now) }
{
    let [first, more @ ..] = words else {
        return Ok(());
    };
    let mut before = *first;
    for word in more {
        add_again_at(looks, copy, before, *word)?;
        before = *word;
    }
    Ok(())
}

/// Adds the hyphens inside lines.
fn add_hyphens<A: Allocator>(
    looks: &mut Vec<Look, A>,
    copy: &[Symbol],
    lines: &[Line<A>],
) -> Result<(), NoMemory>
    ensures { OnOk result (looks.new.items ≡ looks.old.items ++ hyphens copy.now lines.now) }
{
    for line in lines {
        add_hyphens_of(looks, copy, line.words())?;
    }
    Ok(())
}

/// Adds the words of the copy that are once more the word before them.
fn add_repeated<A: Allocator + Copy>(
    looks: &mut Vec<Look, A>,
    alloc: A,
    copy: &[Symbol],
) -> Result<(), NoMemory>
    ensures { OnOk result (looks.new.items ≡ looks.old.items ++ repeated copy.now) }
{
    let found = paragraphs(alloc, copy)?;
    for paragraph in &found {
        add_repeated_of(looks, copy, paragraph.words())?;
    }
    Ok(())
}

/// The last of words; of none, a word without symbols.
fn last_word(words: &[Word]) -> Word
    ensures { result ≡ last_word words.now }
{
    match words {
        [.., last] => *last,
        [] => Word { from: 0, to: 0 },
    }
}

/// Adds the last word of a line, where the two lines before it end with it too.
fn add_third<A: Allocator>(
    looks: &mut Vec<Look, A>,
    copy: &[Symbol],
    first: Word,
    second: Word,
    third: Word,
) -> Result<(), NoMemory>
    ensures { OnOk result (looks.new.items ≡ looks.old.items ++ third_at copy.now ((first, second), third)) }
{
    let alike = third.from < third.to
        && is_again(copy, first, third)
        && is_again(copy, second, third);
    let len = third.to.saturating_sub(third.from);
    add_if(looks, alike, LookKind::LinesEndAlike, third.from, len)
}

/// Adds the last words of lines that the two lines before them end with too.
fn add_alike_ends<A: Allocator>(
    looks: &mut Vec<Look, A>,
    copy: &[Symbol],
    lines: &[Line<A>],
) -> Result<(), NoMemory>
    ensures { OnOk result (looks.new.items ≡ looks.old.items ++ alike_ends copy.now lines.now) }
{
    let [one, other, more @ ..] = lines else {
        return Ok(());
    };
    let mut first = last_word(one.words());
    let mut second = last_word(other.words());
    for line in more {
        let third = last_word(line.words());
        add_third(looks, copy, first, second, third)?;
        first = second;
        second = third;
    }
    Ok(())
}

/// The second looks at a copy and the lines of its galley, kind by kind, and those of a kind by place.
pub fn looks_of<A: Allocator + Copy>(
    alloc: A,
    copy: &[Symbol],
    lines: &[Line<A>],
) -> Result<Vec<Look, A>, NoMemory>
    ensures { IfOk result (λ looks. looks.items ≡ looks_of copy.now lines.now) }
{
    let mut looks = Vec::new(alloc);
    add_hyphens(&mut looks, copy, lines)?;
    add_spaces(&mut looks, copy)?;
    add_points(&mut looks, copy)?;
    add_quotes(&mut looks, copy)?;
    add_repeated(&mut looks, alloc, copy)?;
    add_alike_ends(&mut looks, copy, lines)?;
    Ok(looks)
}
