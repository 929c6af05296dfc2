//! What is said of bytes of no kind.

ghost use Rattle.std.specs.Prelude.{◌≡◌, ◌≤◌, ◌++◌, IfOk, MatchOption, OnOk, false, length, string_bytes};
ghost use Rattle.feed_check.specs.Strange.{IsDocument, IsNone, SaysStrange, line_at, line_feeds, line_words};
ghost use Rattle.feed_check.specs.Strange.{strange_words};

use crate::reported::Reported;
use desk_memory::NoMemory;
use std::alloc::{AllocError, Allocator, Global};

/// What is said of bytes of no kind, before the line where they are no document.
const STRANGE: &str = "neither a feed, a ribbon, a case nor a wedge";

/// How many line feeds bytes have.
fn line_feeds(bytes: &[u8]) -> usize
    ensures value { result ≡ line_feeds bytes.now }
    ensures bound { result ≤ length bytes.now }
{
    let mut count: usize = 0;
    for byte in bytes {
        if *byte == b'\n' {
            count += 1;
        }
    }
    count
}

/// Where bytes are no document, if they are none.
fn fault_place(global: Global, bytes: &[u8]) -> Result<Option<usize>, NoMemory>
    ensures { IfOk result (λ o. MatchOption o (IsDocument bytes.now) (IsNone bytes.now)) }
{
    match toml::table_from_slice(global, bytes) {
        Ok(_) => Ok(None),
        Err(error) => match error.span() {
            Some(span) => Ok(Some(span.start)),
            None => Err(NoMemory),
        },
    }
}

/// The line of a place, from 1.
pub fn line_at(bytes: &[u8], place: usize) -> usize
    requires { place ≤ length bytes.now }
    ensures { result ≡ line_at bytes.now place }
{
    line_feeds(&bytes[..place]) + 1
}

/// Writes the line where bytes are no document.
fn put_line<A: Allocator + Copy>(out: &mut String<A>, line: usize) -> Result<(), AllocError>
    ensures { OnOk result (string_bytes out.new ≡ string_bytes out.old ++ line_words line) }
{
    write!(out, ": no TOML at line {line}")
}

/// That bytes are of no kind.
fn no_kind_reported<A: Allocator + Copy>(alloc: A) -> Result<Reported<A>, NoMemory>
    ensures text { IfOk result (λ t. string_bytes t.text ≡ strange_words) }
    ensures well { IfOk result (λ t. t.well ≡ false) }
{
    let text = String::from_str(alloc, STRANGE)?;
    Ok(Reported { text, well: false })
}

/// That bytes are of no kind, and the line where they are no document.
fn no_document_reported<A: Allocator + Copy>(alloc: A, line: usize) -> Result<Reported<A>, NoMemory>
    ensures text { IfOk result (λ t. string_bytes t.text ≡ strange_words ++ line_words line) }
    ensures well { IfOk result (λ t. t.well ≡ false) }
{
    let mut text = String::from_str(alloc, STRANGE)?;
    put_line(&mut text, line)?;
    Ok(Reported { text, well: false })
}

/// What is said of bytes of no kind.
pub fn strange_reported<A: Allocator + Copy>(
    alloc: A,
    global: Global,
    bytes: &[u8],
) -> Result<Reported<A>, NoMemory>
    ensures text { IfOk result (λ t. SaysStrange bytes.now (string_bytes t.text)) }
    ensures well { IfOk result (λ t. t.well ≡ false) }
{
    match fault_place(global, bytes)? {
        Some(place) => no_document_reported(alloc, line_at(bytes, place)),
        None => no_kind_reported(alloc),
    }
}
