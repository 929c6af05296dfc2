//! The words of a line: each character where its matrix stands.

ghost use Rattle.std.specs.Prelude.{◌≡◌, ◌+◌, ◌++◌, ◌≤◌, ◌^◌, length, All, IfOk, OnOk, string_bytes};
ghost use Rattle.desk_lines.specs.Groups.{widest_matrix};
ghost use Rattle.desk_lines.specs.Words.{most_symbols};
ghost use Rattle.desk_job.specs.Setting.{IsWord};
ghost use Rattle.view_picture.specs.Places.{after_word};
ghost use Rattle.view_picture.specs.Words.{after_words, word_text, words_text};

use crate::letters::put_word_letters;
use crate::places::put_word_places;
use desk_job::terms::Terms;
use desk_lines::Word;
use desk_ops::Symbol;
use desk_units::Pica;
use std::alloc::{AllocError, Allocator};

/// Writes a word that begins here and a space after it, and returns where the word ends.
fn put_word<A: Allocator + Copy>(
    out: &mut String<A>,
    terms: &Terms,
    pica: Pica,
    here: u128,
    word: &[Symbol],
) -> Result<u128, AllocError>
    requires here { here ≤ 2 ^ 110 }
    requires short { length word.now ≤ most_symbols }
    ensures text { OnOk result (string_bytes out.new ≡ string_bytes out.old ++ word_text terms.now pica here word.now) }
    ensures end { IfOk result (λ end. end ≡ after_word terms.now here word.now) }
    ensures limit { IfOk result (λ end. end ≤ here + 2 ^ 40) }
{
    out.push_str("<tspan x=\"")?;
    let end = put_word_places(out, terms, pica, here, word)?;
    out.push_str("\">")?;
    put_word_letters(out, terms.case(), word)?;
    out.push_str(" </tspan>")?;
    Ok(end)
}

/// Writes words from the edge of the frame on, with a space of this width after each, and returns where the last space
/// ends.
pub fn put_words<A: Allocator + Copy>(
    out: &mut String<A>,
    terms: &Terms,
    copy: &[Symbol],
    pica: Pica,
    space: u64,
    words: &[Word],
) -> Result<u128, AllocError>
    requires copy { length copy.now ≤ most_symbols }
    requires words { All (IsWord copy.now) words.now }
    requires space { space ≤ widest_matrix }
    ensures text { OnOk result
        (string_bytes out.new ≡ string_bytes out.old ++ words_text terms.now copy.now pica space 0 words.now) }
    ensures end { IfOk result (λ end. end ≡ after_words terms.now copy.now space 0 words.now) }
    ensures limit { IfOk result (λ end. end ≤ 2 ^ 106) }
{
    let mut here = 0;
    for word in words {
        let end = put_word(out, terms, pica, here, &copy[word.from..word.to])?;
        here = end + space as u128;
    }
    Ok(here)
}
