//! What a file is, by its first bytes.

ghost use Rattle.std.specs.Prelude.{◌≡◌};
ghost use Rattle.feed_files.specs.Kinds.{begins, document_head, kind_of};

use thiserror::Error;

/// What a file is, by its first bytes. Displayed it says what stands there.
#[derive(Clone, Copy, Debug, PartialEq, Eq, Error)]
pub enum Kind {
    /// They are `MFD1` or `MFD2`.
    #[error("a feed stands there")]
    Feed,
    /// They are `MRB1`.
    #[error("a ribbon stands there")]
    Ribbon,
    /// They are `<svg`.
    #[error("a picture stands there")]
    Picture,
    /// They are the first lines of a document that this program wrote: those of `document_head`.
    #[error("a document stands there")]
    Document,
    /// They are none of these.
    #[error("another file stands there")]
    Other,
    /// It has more than 67,108,864 bytes, and none of them is read.
    #[error("a file of more than 67,108,864 bytes stands there")]
    Large,
}

/// What a document begins with: that it is HTML, and that this program wrote it. Another page in HTML begins with other
/// bytes.
#[tactic(auto, unfolding(crate::specs::Kinds::document_head))]
pub fn document_head() -> &'static str
    ensures { result.now ≡ document_head }
{
    "<!DOCTYPE html>\n<html xmlns=\"http://www.w3.org/1999/xhtml\" lang=\"en\">\n<head>\n<meta charset=\"utf-8\"/>\n\
    <meta name=\"generator\" content=\"copydesk\"/>\n"
}

/// Whether bytes begin with a prefix.
fn begins(bytes: &[u8], prefix: &[u8]) -> bool
    ensures { result ≡ begins bytes.now prefix.now }
{
    bytes.starts_with(prefix)
}

/// The kind of a file with these bytes, by the first of them; none of an empty one.
pub fn kind_of(bytes: &[u8]) -> Option<Kind>
    ensures { result ≡ kind_of bytes.now }
{
    if bytes.is_empty() {
        None
    } else if begins(bytes, b"MFD1") || begins(bytes, b"MFD2") {
        Some(Kind::Feed)
    } else if begins(bytes, b"MRB1") {
        Some(Kind::Ribbon)
    } else if begins(bytes, b"<svg") {
        Some(Kind::Picture)
    } else if begins(bytes, document_head().as_bytes()) {
        Some(Kind::Document)
    } else {
        Some(Kind::Other)
    }
}
