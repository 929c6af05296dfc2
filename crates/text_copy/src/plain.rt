//! Text for people, in which no character is left that a terminal obeys or that turns a line round.

ghost use Rattle.std.specs.Prelude.{◌≡◌, ◌++◌, IfOk, OnOk, map, string_bytes};
ghost use Rattle.std.specs.Str.{encode_utf8_all};
ghost use Rattle.text_copy.specs.Plain.{all_shown, capital, control_name, digit, directional_name, in_style};
ghost use Rattle.text_copy.specs.Plain.{is_control, is_directional, plain_text, shown, written_out};

use desk_ops::{Style, Symbol};
use std::alloc::{AllocError, Allocator};

/// The hexadecimal digits, in lower case.
const DIGITS: &[u8; 16] = b"0123456789abcdef";

/// The same with capitals.
const CAPITALS: &[u8; 16] = b"0123456789ABCDEF";

/// Whether a terminal may obey it.
fn is_control(c: char) -> bool
    ensures { result ≡ is_control c }
{
    matches!(c, '\0'..='\u{1F}' | '\u{7F}'..='\u{9F}')
}

/// Whether it sets the direction of the text around it.
pub fn is_directional(c: char) -> bool
    ensures { result ≡ is_directional c }
{
    matches!(
        c,
        '\u{61C}'
            | '\u{200E}'
            | '\u{200F}'
            | '\u{202A}'..='\u{202E}'
            | '\u{2066}'..='\u{2069}'
    )
}

/// The last hexadecimal digit of a number, in lower case.
fn digit(n: u32) -> u8
    ensures { result ≡ digit n }
{
    DIGITS[(n % 16) as usize]
}

/// The same as a capital.
fn capital(n: u32) -> u8
    ensures { result ≡ capital n }
{
    CAPITALS[(n % 16) as usize]
}

/// The name of a control character, as `\x1b`.
fn control_name(c: char) -> [u8; 4]
    ensures { result ≡ control_name c }
{
    let code = c as u32;
    [b'\\', b'x', digit(code / 16), digit(code)]
}

/// The name of a directional mark, as `<U+202E>`.
fn directional_name(c: char) -> [u8; 8]
    ensures { result ≡ directional_name c }
{
    let code = c as u32;
    [
        b'<',
        b'U',
        b'+',
        capital(code / 4096),
        capital(code / 256),
        capital(code / 16),
        capital(code),
        b'>',
    ]
}

fn put_name<A: Allocator + Copy>(out: &mut String<A>, name: &[u8]) -> Result<(), AllocError>
    ensures { OnOk result (string_bytes out.new ≡ string_bytes out.old ++ encode_utf8_all name.now) }
{
    for letter in name {
        out.push(char::from(*letter))?;
    }
    Ok(())
}

/// Writes the name of a directional mark at the end.
pub fn put_directional_name<A: Allocator + Copy>(
    out: &mut String<A>,
    c: char,
) -> Result<(), AllocError>
    ensures { OnOk result (string_bytes out.new ≡ string_bytes out.old ++ encode_utf8_all (directional_name c)) }
{
    put_name(out, &directional_name(c))
}

/// Writes a character at the end, or its name where it is a control character or a directional mark.
#[tactic(auto, unfolding(crate::specs::Plain::written_out))]
fn put_written_out<A: Allocator + Copy>(out: &mut String<A>, c: char) -> Result<(), AllocError>
    ensures { OnOk result (string_bytes out.new ≡ string_bytes out.old ++ encode_utf8_all (written_out c)) }
{
    if is_control(c) {
        put_name(out, &control_name(c))
    } else if is_directional(c) {
        put_directional_name(out, c)
    } else {
        out.push(c)
    }
}

/// Writes a text at the end, as the name of a file: each control character in it as `\x1b`, each directional mark as
/// `<U+202E>`.
pub fn put_plain<A: Allocator + Copy>(out: &mut String<A>, text: &str) -> Result<(), AllocError>
    ensures { OnOk result (string_bytes out.new ≡ string_bytes out.old ++ plain_text text.now) }
{
    for c in text.chars() {
        put_written_out(out, c)?;
    }
    Ok(())
}

fn push_name<A: Allocator + Copy>(
    symbols: &mut Vec<Symbol, A>,
    style: Style,
    name: &[u8],
) -> Result<(), AllocError>
    ensures { OnOk result (symbols.new.items ≡ symbols.old.items ++ map (in_style style) name.now) }
{
    for letter in name {
        let ch = char::from(*letter);
        symbols.push(Symbol { style, ch })?;
    }
    Ok(())
}

#[tactic(auto, unfolding(crate::specs::Plain::shown))]
fn push_shown<A: Allocator + Copy>(
    symbols: &mut Vec<Symbol, A>,
    symbol: Symbol,
) -> Result<(), AllocError>
    ensures { OnOk result (symbols.new.items ≡ symbols.old.items ++ shown symbol) }
{
    if symbol.ch == '\n' {
        symbols.push(Symbol::SPACE)?;
    } else if is_directional(symbol.ch) {
        push_name(symbols, symbol.style, &directional_name(symbol.ch))?;
    } else {
        symbols.push(symbol)?;
    }
    Ok(())
}

/// Symbols as they are shown to a person: the end of a line as a space, a directional mark by its name in its style,
/// and any other symbol as it is.
pub fn all_shown<A: Allocator + Copy>(
    alloc: A,
    symbols: &[Symbol],
) -> Result<Vec<Symbol, A>, AllocError>
    ensures { IfOk result (λ v. v.items ≡ all_shown symbols.now) }
{
    let mut all = Vec::with_capacity(alloc, symbols.len())?;
    for symbol in symbols {
        push_shown(&mut all, *symbol)?;
    }
    Ok(all)
}
