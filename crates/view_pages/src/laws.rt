//! What holds of documents and of their pages.

ghost use Rattle.view_pages.specs.Laws.{DocumentsAreKnown, PagesAreFull, PagesFit, PagesHaveAllLines, RefusalsAreKnown};

/// A document that was stored is known by its first bytes, so the next one takes its place.
pub fn documents_are_known()
    ensures galleys { DocumentsAreKnown }
    ensures refusals { RefusalsAreKnown }
{}

/// The lines of the pages one after the other are those of the galley, each once; each page but the last has as many as
/// each other.
pub fn pages_have_all_lines()
    ensures all { PagesHaveAllLines }
    ensures full { PagesAreFull }
{}

/// No page is higher than what was asked for, where that is enough for one line; and the frame of its lines is on it.
pub fn pages_fit()
    ensures { PagesFit }
{}
