//! The parts of a picture in the form SVG that any text needs: characters as XML has them, numbers, whole and with two
//! decimals, and the end of a text.
//!
//! A reader of XML takes a carriage return in a text for a line feed, and a tab or line feed in an attribute for a
//! space.

ghost use Rattle.std.specs.Prelude.{◌≡◌, ◌++◌, OnOk, string_bytes};
ghost use Rattle.std.specs.Fmt.{decimal};
ghost use Rattle.std.specs.Io.{StartsWith};
ghost use Rattle.view_galley.specs.Svg.{allowed, attribute_text, escaped_char, hundredths_text, is_allowed, text_end};

use itoa::Buffer;
use std::alloc::{AllocError, Allocator};

/// Whether XML 1.0 allows a character.
fn is_allowed(ch: char) -> bool
    ensures { result ≡ is_allowed ch }
{
    let code = ch as u32;
    code == 9 || code == 10 || code == 13 || (code >= 32 && code != 0xFFFE && code != 0xFFFF)
}

/// A character, or U+FFFD in place of one that XML 1.0 does not allow.
fn allowed(ch: char) -> char
    ensures { result ≡ allowed ch }
{
    if is_allowed(ch) { ch } else { '\u{FFFD}' }
}

/// Writes a character at the end as it stands in a text of XML, or between the quotes of an attribute: `&`, `<`, `>`
/// and `"` by their names, and U+FFFD in place of a character that XML 1.0 does not allow. It fails only where memory
/// runs out.
#[tactic(auto, using(crate::proofs::Prefixes::prefixes))]
pub fn put_escaped<A: Allocator + Copy>(out: &mut String<A>, ch: char) -> Result<(), AllocError>
    ensures text { OnOk result (string_bytes out.new ≡ string_bytes out.old ++ escaped_char ch) }
    ensures prefix { StartsWith (string_bytes out.new) (string_bytes out.old) }
{
    match ch {
        '&' => out.push_str("&amp;"),
        '<' => out.push_str("&lt;"),
        '>' => out.push_str("&gt;"),
        '"' => out.push_str("&quot;"),
        ch => out.push(allowed(ch)),
    }
}

/// Writes a number at the end, in decimal. It fails only where memory runs out, and what stood before stays also then.
#[tactic(auto, using(crate::proofs::Prefixes::prefixes))]
pub fn put_number<A: Allocator + Copy>(out: &mut String<A>, n: u128) -> Result<(), AllocError>
    ensures text { OnOk result (string_bytes out.new ≡ string_bytes out.old ++ decimal n) }
    ensures prefix { StartsWith (string_bytes out.new) (string_bytes out.old) }
{
    let mut digits = Buffer::new();
    out.push_str(digits.format(n))
}

/// Writes so many hundredths at the end, as `12.34`. It fails only where memory runs out.
#[tactic(auto, using(crate::proofs::Prefixes::prefixes))]
pub fn put_hundredths<A: Allocator + Copy>(out: &mut String<A>, n: u128) -> Result<(), AllocError>
    ensures text { OnOk result (string_bytes out.new ≡ string_bytes out.old ++ hundredths_text n) }
    ensures prefix { StartsWith (string_bytes out.new) (string_bytes out.old) }
{
    put_number(out, n / 100)?;
    out.push_str(".")?;
    put_number(out, n / 10 % 10)?;
    put_number(out, n % 10)
}

/// Writes an attribute of this name at the end, whose value is so many hundredths, behind a space: ` x="12.34"`. It
/// fails only where memory runs out.
#[tactic(auto, using(crate::proofs::Prefixes::prefixes))]
pub fn put_attribute<A: Allocator + Copy>(
    out: &mut String<A>,
    name: &str,
    n: u128,
) -> Result<(), AllocError>
    ensures text { OnOk result (string_bytes out.new ≡ string_bytes out.old ++ attribute_text name.now n) }
    ensures prefix { StartsWith (string_bytes out.new) (string_bytes out.old) }
{
    out.push_str(" ")?;
    out.push_str(name)?;
    out.push_str("=\"")?;
    put_hundredths(out, n)?;
    out.push_str("\"")
}

/// What ends a text and its line.
#[tactic(auto, unfolding(crate::specs::Svg::text_end))]
pub fn text_end() -> &'static str
    ensures { result.now ≡ text_end }
{
    "</text>\n"
}
