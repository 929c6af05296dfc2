//! Symbols with the marks of their styles.

ghost use Rattle.std.specs.Prelude.{◌≡◌, ◌==◌, ◌||◌, ◌++◌, ◌-◌, ◌≤◌, length, take, drop, All, OnOk, string_bytes};
ghost use Rattle.std.specs.Str.{encode_utf8_all};
ghost use Rattle.desk_job.specs.Setting.{IsWord};
ghost use Rattle.view_proof.specs.Parts.{marked_text, shown_quoted, word_text, words_text};

use crate::parts::{begin_of, end_of};
use desk_lines::Word;
use desk_ops::{Style, Symbol};
use std::alloc::{AllocError, Allocator};
use text_copy::{is_directional, put_directional_name, put_quoted, put_turn};

/// Whether it is shown as a space.
fn is_gap(ch: char) -> bool
    ensures { result ≡ ((ch == 32) || (ch == 10)) }
{
    matches!(ch, ' ' | '\n')
}

/// Writes a character as it is shown: a directional mark by its name.
fn put_shown<A: Allocator + Copy>(out: &mut String<A>, ch: char) -> Result<(), AllocError>
    ensures { OnOk result (string_bytes out.new ≡ string_bytes out.old ++ encode_utf8_all (shown_quoted ch)) }
{
    if is_directional(ch) {
        put_directional_name(out, ch)
    } else {
        put_quoted(out, ch)
    }
}

/// Writes symbols with the marks of their styles, as they are shown: a line feed as a space, a directional mark by its
/// name.
pub fn put_marked<A: Allocator + Copy>(
    out: &mut String<A>,
    symbols: &[Symbol],
) -> Result<(), AllocError>
    ensures { OnOk result (string_bytes out.new ≡ string_bytes out.old ++ marked_text symbols.now) }
{
    let mut run = Style::Roman;
    let mut count: u64 = 0;
    for symbol in symbols {
        if is_gap(symbol.ch) {
            count += 1;
            continue;
        }
        put_turn(out, run, count, symbol.style)?;
        put_shown(out, symbol.ch)?;
        run = symbol.style;
        count = 0;
    }
    put_turn(out, run, count, Style::Roman)
}

/// Writes what stands in a copy from one place to before another.
fn put_part<A: Allocator + Copy>(
    out: &mut String<A>,
    copy: &[Symbol],
    from: usize,
    to: usize,
) -> Result<(), AllocError>
    requires order { from ≤ to }
    requires within { to ≤ length copy.now }
    ensures { OnOk result
        (string_bytes out.new ≡ string_bytes out.old ++ marked_text (take (to - from) (drop from copy.now))) }
{
    put_marked(out, &copy[from..to])
}

/// Writes a word of a copy.
pub fn put_word<A: Allocator + Copy>(
    out: &mut String<A>,
    copy: &[Symbol],
    word: Word,
) -> Result<(), AllocError>
    requires { IsWord copy.now word }
    ensures { OnOk result (string_bytes out.new ≡ string_bytes out.old ++ word_text copy.now word) }
{
    put_part(out, copy, word.from, word.to)
}

/// Writes what stands in a copy from the first of words to behind the last.
pub fn put_words<A: Allocator + Copy>(
    out: &mut String<A>,
    copy: &[Symbol],
    words: &[Word],
) -> Result<(), AllocError>
    requires { All (IsWord copy.now) words.now }
    ensures { OnOk result (string_bytes out.new ≡ string_bytes out.old ++ words_text copy.now words.now) }
{
    let from = begin_of(words);
    let to = end_of(words);
    if from >= to {
        return Ok(());
    }
    put_part(out, copy, from, to)
}
