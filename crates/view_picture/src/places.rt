//! Where the characters of a line stand: each where its matrix begins, one matrix after the other.

ghost use Rattle.std.specs.Prelude.{◌≡◌, ◌+◌, ◌++◌, ◌≤◌, ◌^◌, length, IfOk, OnOk, string_bytes};
ghost use Rattle.desk_lines.specs.Words.{most_symbols};
ghost use Rattle.view_picture.specs.Places.{after_word, next_place, place_text, symbol_places, word_places};

use crate::paper::across;
use desk_job::terms::Terms;
use desk_ops::Symbol;
use desk_units::Pica;
use std::alloc::{AllocError, Allocator};
use view_galley::put_hundredths;

/// Writes the place of a matrix that begins here.
fn put_place<A: Allocator + Copy>(
    out: &mut String<A>,
    pica: Pica,
    here: u128,
) -> Result<(), AllocError>
    requires { here ≤ 2 ^ 112 }
    ensures { OnOk result (string_bytes out.new ≡ string_bytes out.old ++ place_text pica here) }
{
    put_hundredths(out, across(pica, here))
}

/// Writes the place of one matrix of more.
fn put_next_place<A: Allocator + Copy>(
    out: &mut String<A>,
    pica: Pica,
    here: u128,
) -> Result<(), AllocError>
    requires { here ≤ 2 ^ 112 }
    ensures { OnOk result (string_bytes out.new ≡ string_bytes out.old ++ next_place pica here) }
{
    put_place(out, pica, here)?;
    out.push_str(" ")
}

/// Writes the places of the symbols of a word that begins here, and returns where it ends.
fn put_symbol_places<A: Allocator + Copy>(
    out: &mut String<A>,
    terms: &Terms,
    pica: Pica,
    here: u128,
    word: &[Symbol],
) -> Result<u128, AllocError>
    requires here { here ≤ 2 ^ 110 }
    requires short { length word.now ≤ most_symbols }
    ensures text { OnOk result
        (string_bytes out.new ≡ string_bytes out.old ++ symbol_places terms.now pica here word.now) }
    ensures end { IfOk result (λ end. end ≡ after_word terms.now here word.now) }
    ensures limit { IfOk result (λ end. end ≤ here + 2 ^ 40) }
{
    let mut end = here;
    for symbol in word {
        put_next_place(out, pica, end)?;
        end += terms.symbol_width(*symbol) as u128;
    }
    Ok(end)
}

/// Writes the places of a word that begins here and of the space after it, and returns where the word ends.
pub fn put_word_places<A: Allocator + Copy>(
    out: &mut String<A>,
    terms: &Terms,
    pica: Pica,
    here: u128,
    word: &[Symbol],
) -> Result<u128, AllocError>
    requires here { here ≤ 2 ^ 110 }
    requires short { length word.now ≤ most_symbols }
    ensures text { OnOk result
        (string_bytes out.new ≡ string_bytes out.old ++ word_places terms.now pica here word.now) }
    ensures end { IfOk result (λ end. end ≡ after_word terms.now here word.now) }
    ensures limit { IfOk result (λ end. end ≤ here + 2 ^ 40) }
{
    let end = put_symbol_places(out, terms, pica, here, word)?;
    put_place(out, pica, end)?;
    Ok(end)
}
