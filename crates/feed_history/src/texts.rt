//! The texts that a correction inserted and deleted.

ghost use Rattle.std.specs.Prelude.{◌≡◌, ◌++◌, IfOk, OnOk, string_bytes};
ghost use Rattle.std.specs.List.{list_all};
ghost use Rattle.feed_history.specs.Texts.{contains, inserted, is_kept, own_symbols, shortened, shown_text};
ghost use Rattle.text_copy.specs.Writing.{text_bytes};

use desk_memory::NoMemory;
use desk_ops::{Op, Style, Symbol};
use std::alloc::{AllocError, Allocator};
use text_copy::{all_shown, is_directional, places_of, put_quoted, put_turn};

/// So many symbols of a text are shown.
const MOST: usize = 40;

/// So many at its start and at its end, where it has more.
const END: usize = 18;

/// What is shown between them.
const GAP: [Symbol; 4] = [Symbol::SPACE, POINT, POINT, Symbol::SPACE];

const POINT: Symbol = Symbol {
    style: Style::Roman,
    ch: '.',
};

/// Adds the symbol of an operation, if it is an insert.
pub fn add_own<A: Allocator + Copy>(symbols: &mut Vec<Symbol, A>, op: &Op) -> Result<(), AllocError>
    ensures { OnOk result (symbols.new.items ≡ symbols.old.items ++ own_symbols op.now) }
{
    if let Op::Insert { symbol, .. } = op {
        symbols.push(*symbol)?;
    }
    Ok(())
}

/// Adds the symbols that operations insert, in their order.
pub fn add_inserted<A: Allocator + Copy>(
    symbols: &mut Vec<Symbol, A>,
    ops: &[Op],
) -> Result<(), AllocError>
    ensures { OnOk result (symbols.new.items ≡ symbols.old.items ++ inserted ops.now) }
{
    for op in ops {
        add_own(symbols, op)?;
    }
    Ok(())
}

/// Whether a text stands somewhere in symbols.
pub fn contains<A: Allocator + Copy>(
    alloc: A,
    text: &[Symbol],
    symbols: &[Symbol],
) -> Result<bool, NoMemory>
    ensures { IfOk result (λ found. found ≡ contains text.now symbols.now) }
{
    let places = places_of(alloc, text, symbols)?;
    Ok(!places.is_empty())
}

/// A text of at most 40 symbols: of a longer one the first 18 and the last.
fn shortened<A: Allocator + Copy>(
    alloc: A,
    symbols: &[Symbol],
) -> Result<Vec<Symbol, A>, AllocError>
    ensures { IfOk result (λ v. v.items ≡ shortened symbols.now) }
{
    let mut text = Vec::new(alloc);
    if symbols.len() <= MOST {
        text.extend_from_slice(symbols)?;
        return Ok(text);
    }
    text.extend_from_slice(&symbols[..END])?;
    text.extend_from_slice(&GAP)?;
    text.extend_from_slice(&symbols[symbols.len() - END..])?;
    Ok(text)
}

/// Whether each symbol is shown as it is.
fn are_kept(symbols: &[Symbol]) -> bool
    ensures { result ≡ list_all is_kept symbols.now }
{
    symbols
        .iter()
        .all(|symbol| symbol.ch != '\n' && !is_directional(symbol.ch))
}

/// Writes symbols as text at the end, each style between its marks.
fn put_symbols<A: Allocator + Copy>(out: &mut String<A>, copy: &[Symbol]) -> Result<(), AllocError>
    ensures { OnOk result (string_bytes out.new ≡ string_bytes out.old ++ text_bytes copy.now) }
{
    let mut run = Style::Roman;
    let mut count: u64 = 0;
    for symbol in copy {
        if symbol.ch == ' ' {
            count += 1;
            continue;
        }
        put_turn(out, run, count, symbol.style)?;
        put_quoted(out, symbol.ch)?;
        run = symbol.style;
        count = 0;
    }
    put_turn(out, run, count, Style::Roman)
}

/// Writes a text at the end as it is shown: shortened, with marks for its styles, the end of a line as a space, and a
/// directional mark by its name.
#[tactic(auto, using(crate::proofs::Shown::kept_text))]
pub fn put_shown_text<A: Allocator + Copy>(
    alloc: A,
    out: &mut String<A>,
    symbols: &[Symbol],
) -> Result<(), NoMemory>
    ensures { OnOk result (string_bytes out.new ≡ string_bytes out.old ++ shown_text symbols.now) }
{
    if symbols.len() <= MOST && are_kept(symbols) {
        return Ok(put_symbols(out, symbols)?);
    }
    let text = shortened(alloc, symbols)?;
    let shown = all_shown(alloc, &text)?;
    Ok(put_symbols(out, &shown)?)
}
