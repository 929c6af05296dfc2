//! The text of FEED.last, read and written.

ghost use Rattle.std.specs.Prelude.{◌≡◌, ◌<◌, ◌^◌, ◌++◌, ◌∷◌, IfOk, List, MatchOption, OnOk, ℕ, string_bytes};
ghost use Rattle.std.specs.Fmt.{decimal};
ghost use Rattle.std.specs.List.{filter};
ghost use Rattle.desk_ops.specs.declared.op.Stamp.{Stamp};
ghost use Rattle.feed_stored.specs.Text.{IsNumbered, IsTextOf, Lacks, counter_of, is_above, is_below, last_text};
ghost use Rattle.feed_stored.specs.Text.{stamp_line, with_stamp};

use desk_memory::NoMemory;
use desk_ops::Stamp;
use itoa::Buffer;
use std::alloc::{AllocError, Allocator};

/// The number that a word is the decimal form of, with no zero before it.
fn number_of(word: &str) -> Option<u64>
    ensures { MatchOption result ((n : ℕ) → n < 2 ^ 64 → word.now ≡ decimal n → ⊥) (λ n. word.now ≡ decimal n) }
{
    let Ok(n) = word.parse::<u64>() else {
        return None;
    };
    let mut digits = Buffer::new();
    if digits.format(n) == word {
        Some(n)
    } else {
        None
    }
}

/// The numbers of a line: the site and the counter.
fn stamp_of(site: &str, counter: &str) -> Option<Stamp>
    ensures { MatchOption result ((s : Stamp) → IsNumbered s → site.now ≡ decimal s.site
        → counter.now ≡ decimal s.counter → ⊥) (λ s. IsNumbered s × (site.now ≡ decimal s.site)
        × (counter.now ≡ decimal s.counter)) }
{
    let site = number_of(site)?;
    let counter = number_of(counter)?;
    if site > 65_535 {
        return None;
    }
    Some(Stamp {
        counter,
        site: site as u16,
    })
}

/// What stands before the first such byte, and what stands behind it.
fn cut_at(text: &str, end: char) -> Option<(&str, &str)>
    requires { end < 128 }
    ensures { MatchOption result (Lacks end text.now) (λ p. (text.now ≡ p.0.now ++ end ∷ p.1.now) × Lacks end p.0.now) }
{
    text.split_once(end)
}

/// The stamp of the first line, and what follows that line.
fn first_stamp(text: &str) -> Option<(Stamp, &str)>
    ensures { MatchOption result ((s : Stamp) (more : List ℕ) → IsNumbered s → text.now ≡ stamp_line s ++ more
        → ⊥) (λ p. IsNumbered p.0 × (text.now ≡ stamp_line p.0 ++ p.1.now)) }
{
    let Some((word, numbers)) = cut_at(text, ' ') else {
        return None;
    };
    let Some((site, rest)) = cut_at(numbers, ' ') else {
        return None;
    };
    let Some((counter, more)) = cut_at(rest, '\n') else {
        return None;
    };
    if word != "site" {
        return None;
    }
    match stamp_of(site, counter) {
        Some(stamp) => Some((stamp, more)),
        None => None,
    }
}

/// The stamps that a text has; none where it is not such a text.
pub fn stamps_in<A: Allocator + Copy>(
    alloc: A,
    bytes: &[u8],
) -> Result<Option<Vec<Stamp, A>>, NoMemory>
    ensures { IfOk result
        (λ o. MatchOption o ((stamps : List Stamp) → IsTextOf bytes.now stamps → ⊥) (λ v. IsTextOf bytes.now v.items)) }
{
    let Ok(text) = std::str::from_utf8(bytes) else {
        return Ok(None);
    };
    let mut stamps = Vec::new(alloc);
    let mut low = 0u32;
    let mut rest = text;
    'lines: while !rest.is_empty() {
        let Some((stamp, more)) = first_stamp(rest) else {
            return Ok(None);
        };
        if u32::from(stamp.site) < low {
            return Ok(None);
        }
        stamps.push(stamp)?;
        low = u32::from(stamp.site) + 1;
        rest = more;
    }
    Ok(Some(stamps))
}

/// The counter of a site's stamp.
pub fn counter_of(stamps: &[Stamp], site: u16) -> Option<u64>
    ensures { result ≡ counter_of stamps.now site }
{
    for stamp in stamps {
        if stamp.site == site {
            return Some(stamp.counter);
        }
    }
    None
}

/// Writes the line of a stamp at the end.
fn put_stamp<A: Allocator + Copy>(out: &mut String<A>, stamp: Stamp) -> Result<(), AllocError>
    ensures { OnOk result (string_bytes out.new ≡ string_bytes out.old ++ stamp_line stamp) }
{
    out.push_str("site ")?;
    write!(out, "{} {}\n", stamp.site, stamp.counter)
}

/// Writes the lines of the stamps of the sites below one.
fn put_below<A: Allocator + Copy>(
    out: &mut String<A>,
    stamps: &[Stamp],
    site: u16,
) -> Result<(), AllocError>
    ensures { OnOk result
        (string_bytes out.new ≡ string_bytes out.old ++ last_text (filter (is_below site) stamps.now)) }
{
    for stamp in stamps {
        if stamp.site < site {
            put_stamp(out, *stamp)?;
        }
    }
    Ok(())
}

/// Writes the lines of the stamps of the sites above one.
fn put_above<A: Allocator + Copy>(
    out: &mut String<A>,
    stamps: &[Stamp],
    site: u16,
) -> Result<(), AllocError>
    ensures { OnOk result
        (string_bytes out.new ≡ string_bytes out.old ++ last_text (filter (is_above site) stamps.now)) }
{
    for stamp in stamps {
        if site < stamp.site {
            put_stamp(out, *stamp)?;
        }
    }
    Ok(())
}

/// The text of stamps, with one more in place of its site's.
pub fn text_with<A: Allocator + Copy>(
    alloc: A,
    stamps: &[Stamp],
    new: Stamp,
) -> Result<String<A>, NoMemory>
    ensures { IfOk result (λ s. string_bytes s ≡ last_text (with_stamp stamps.now new)) }
{
    let mut out = String::new(alloc);
    put_below(&mut out, stamps, new.site)?;
    put_stamp(&mut out, new)?;
    put_above(&mut out, stamps, new.site)?;
    Ok(out)
}
