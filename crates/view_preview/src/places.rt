//! The places of the symbols of a text.

ghost use Rattle.std.specs.Prelude.{◌≡◌, ◌-◌, ◌<◌, ◌^◌, false, IfOk, take};
ghost use Rattle.std.specs.Str.{chars};
ghost use Rattle.std.specs.Str.Lossy.{utf8_valid_len};
ghost use Rattle.text_copy.specs.Reading.{after, start};
ghost use Rattle.view_preview.specs.Places.{behind, end_in, ends_symbol, escapes, places_from, places_in};

use std::alloc::{AllocError, Allocator};
use text_copy::Place;

/// Whether a character of a text ends a symbol, where it is escaped or not.
fn ends_symbol(plain: bool, escaped: bool, c: char) -> bool
    ensures { result ≡ ends_symbol plain escaped c }
{
    escaped || (c != '\r' && (plain || !matches!(c, '\\' | '^' | '_')))
}

/// Whether a character escapes the next.
fn escapes(plain: bool, escaped: bool, c: char) -> bool
    ensures { result ≡ escapes plain escaped c }
{
    !plain && !escaped && c == '\\'
}

/// The place behind a character.
fn after(here: Place, c: char) -> Place
    requires line { here.line < 2 ^ 64 - 1 }
    requires column { here.column < 2 ^ 64 - 1 }
    ensures { result ≡ after here c }
{
    if c == '\n' {
        Place {
            line: here.line + 1,
            column: 1,
        }
    } else {
        Place {
            line: here.line,
            column: here.column + 1,
        }
    }
}

/// The longest prefix of bytes that is UTF-8.
fn prefix_of(bytes: &[u8]) -> &str
    ensures { result.now ≡ take (utf8_valid_len bytes.now) bytes.now }
{
    match std::str::from_utf8(bytes) {
        Ok(text) => text,
        Err(error) => match std::str::from_utf8(&bytes[..error.valid_up_to()]) {
            Ok(text) => text,
            Err(_) => unreachable!(),
        },
    }
}

/// The places of the symbols that characters are, and the place behind them.
fn places_of<A: Allocator + Copy>(
    alloc: A,
    text: &str,
    plain: bool,
) -> Result<(Vec<Place, A>, Place), AllocError>
    ensures places { IfOk result (λ t. t.0.items ≡ places_from plain false start (chars text.now)) }
    ensures end { IfOk result (λ t. t.1 ≡ behind start (chars text.now)) }
{
    let mut places = Vec::new(alloc);
    let mut escaped = false;
    let mut here = Place { line: 1, column: 1 };
    for c in text.chars() {
        if ends_symbol(plain, escaped, c) {
            places.push(here)?;
        }
        escaped = escapes(plain, escaped, c);
        here = after(here, c);
    }
    Ok((places, here))
}

/// The place of each symbol of a text that was read, and the place behind its last character. A symbol is at the
/// character that ends it: an escaped one behind its backslash, the end of a line at its line feed. Lines and columns
/// count from 1, columns in characters.
pub fn places_in<A: Allocator + Copy>(
    alloc: A,
    bytes: &[u8],
    plain: bool,
) -> Result<(Vec<Place, A>, Place), AllocError>
    ensures places { IfOk result (λ t. t.0.items ≡ places_in plain bytes.now) }
    ensures end { IfOk result (λ t. t.1 ≡ end_in bytes.now) }
{
    places_of(alloc, prefix_of(bytes), plain)
}
