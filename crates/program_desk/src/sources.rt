//! What galleys, ribbons and readings are made of, as the words ask for them.

ghost use Rattle.std.specs.Prelude.{◌≡◌, ◌≤◌, length};
ghost use Rattle.program_desk.specs.Wanted.{AreGalleys, extent_of, form_of, preview_of, reading_of, source_of};

use crate::previews::Preview;
use crate::readings::Reading;
use feed_edit::Version;
use program_words as words;
use view_preview::{Form, Job, Manner, Source};
use view_punch::Galleys;
use view_ribbon::{Extent, Lines, Pitch};

/// Stored feeds, and the files of a case and a wedge.
pub fn galleys_of<'a>(feeds: &'a [&'a str], case: &'a str, wedge: &'a str) -> Galleys<'a>
    requires { 1 ≤ length feeds.now }
    ensures { AreGalleys result feeds.now case.entry wedge.entry }
{
    Galleys {
        first: feeds[0],
        others: &feeds[1..],
        case,
        wedge,
    }
}

/// What a galley is of.
fn source_of<'a>(source: words::Source<'a>) -> Source<'a>
    ensures { result ≡ source_of source.entry }
{
    match source {
        words::Source::Feed { name, until } => Source::Feed(Version { feed: name, until }),
        words::Source::Text { name, plain } => Source::Text { name, plain },
    }
}

/// How it is written.
fn form_of(form: words::Form) -> Form
    ensures { result ≡ form_of form }
{
    match form {
        words::Form::Whole => Form::Whole,
        words::Form::Faults => Form::Faults,
        words::Form::Located => Form::Located,
    }
}

/// A galley, with the files that it is drawn in.
pub fn preview_of<'a>(galley: &words::Galley<'a>, drawings: words::Drawings<'a>) -> Preview<'a>
    ensures { result ≡ preview_of galley.now drawings.entry }
{
    Preview {
        job: Job {
            source: source_of(galley.source),
            case: galley.case,
            wedge: galley.wedge,
        },
        manner: Manner {
            form: form_of(galley.form),
            looks: galley.looks,
        },
        drawings,
    }
}

/// How much is written of a ribbon.
fn extent_of(extent: words::Extent) -> Extent
    ensures { result ≡ extent_of extent }
{
    match extent {
        words::Extent::Whole => Extent::Lines(None),
        words::Extent::Lines { first, last } => Extent::Lines(Some(Lines { first, last })),
        words::Extent::Figures { over, under } => Extent::Figures(Pitch { over, under }),
    }
}

/// A reading of a ribbon, with its picture.
pub fn reading_of<'a>(
    from: &words::Ribbon<'a>,
    extent: words::Extent,
    picture: Option<&'a str>,
    force: bool,
) -> Reading<'a>
    ensures { result ≡ reading_of from.now extent picture.entry force }
{
    Reading {
        from: view_ribbon::Sources {
            ribbon: from.ribbon,
            case: from.case,
            wedge: from.wedge,
        },
        extent: extent_of(extent),
        picture,
        force,
    }
}
