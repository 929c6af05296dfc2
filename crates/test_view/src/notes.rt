//! The tests of view_preview.

ghost use Rattle.std.specs.Prelude.{◌≤◌, length};
ghost use Rattle.desk_lines.specs.Words.{most_symbols};

use crate::metal::{ROWS, WEDGE, case_with};
use desk_case::MatrixCase;
use desk_ops::{CopyFault, FaultKind, Stamp, Style, Symbol};
use desk_replica::Settings;
use desk_wedge::Wedge;
use std::alloc::Global;
use std::test::Fail;
use text_copy::{Place, read_text};
use view_galley::make_galley;
use view_preview::{Located, put_located, put_located_looks, put_located_no_galley, put_looks};
use view_proof::NoGalley;

/// What is written of a copy and its galley.
#[derive(Drop)]
struct Written {
    looks: String<Global>,
    faults: String<Global>,
    warnings: String<Global>,
}

/// What is written in a measure of 120 points, with tight at 38 and loose at 60.
fn written_of(
    alloc: Global,
    at: &Located,
    copy: &[Symbol],
    faults: &[CopyFault],
) -> Result<Written, Fail>
    requires { length copy.now ≤ most_symbols }
{
    let wedge = Wedge::read(alloc, WEDGE)?;
    let text = case_with(alloc, ROWS)?;
    let case = MatrixCase::read(alloc, &text)?;
    let settings = Settings {
        measure: Some(120),
        tight: Some(38),
        loose: Some(60),
        case: Some(1),
        wedge: Some(5),
    };
    let mut written = Written {
        looks: String::new(alloc),
        faults: String::new(alloc),
        warnings: String::new(alloc),
    };
    match make_galley(alloc, copy, &settings, &case, &wedge) {
        Ok(galley) => {
            put_looks(&mut written.looks, copy, &galley)?;
            put_located(&mut written.faults, at, copy, faults, &galley)?;
            put_located_looks(&mut written.warnings, at, copy, &galley)?;
        }
        Err(_) => return Err(Fail::new("no galley")),
    }
    Ok(written)
}

/// The places of the symbols of a text without marks, and of its end.
fn places_in(alloc: Global, copy: &[Symbol]) -> Result<(Vec<Place>, Place), Fail> {
    let mut places = Vec::new(alloc);
    let mut here = Place { line: 1, column: 1 };
    for symbol in copy {
        places.push(here)?;
        here = if symbol.is_line_feed() {
            Place {
                line: here.line.saturating_add(1),
                column: 1,
            }
        } else {
            Place {
                line: here.line,
                column: here.column.saturating_add(1),
            }
        };
    }
    Ok((places, here))
}

/// The same of a text, whose name is `f`, and of a copy with these faults.
fn notes_of(alloc: Global, text: &str, faults: &[CopyFault]) -> Result<Written, Fail> {
    let copy = read_text(alloc, text.as_bytes(), false)?;
    let (places, end) = places_in(alloc, &copy)?;
    if copy.len() > 99 {
        return Err(Fail::new("too long a text"));
    }
    let at = Located {
        name: "f",
        places: &places,
        end,
    };
    written_of(alloc, &at, &copy, faults)
}

/// Whether these are the looks at a text.
fn looks(alloc: Global, text: &str, expected: &str) -> Result<bool, Fail> {
    let written = notes_of(alloc, text, &[])?;
    Ok(written.looks.as_str() == expected)
}

/// A row of spaces is one look, of all of them: at the start, of three, and at the end; one space at the start or the
/// end of a paragraph is none.
#[test]
fn rows_of_spaces(rt: HostRuntime) -> Result<(), Fail> {
    let expected = "\nlook at 0: two spaces: \"  n   m   t  \"\n\
look at 3: two spaces: \"  n   m   t  \"\n\
look at 11: two spaces: \"  n   m   t  \"\n";
    assert!(rt; looks(rt.alloc(), "  n   m \n t  ", expected)?);
    assert!(rt; looks(rt.alloc(), " n \n m ", "")?);
    assert!(rt; looks(rt.alloc(), "", "")?);
    Ok(())
}

/// Up to 20 symbols are shown on each side.
#[test]
fn looks_at_20_symbols_around(rt: HostRuntime) -> Result<(), Fail> {
    let text = "nnnnnnnnnnnnnnnnnnnnnnnnn  mmmmmmmmmmmmmmmmmmmmmmmmm";
    let expected = "\nlook at 25: two spaces: \"nnnnnnnnnnnnnnnnnnnn  mmmmmmmmmmmmmmmmmmmm\"\n";
    assert!(rt; looks(rt.alloc(), text, expected)?);
    Ok(())
}

/// A point in italic is one, and so is a comma at the end of the copy.
#[test]
fn spaces_before_points(rt: HostRuntime) -> Result<(), Fail> {
    let expected = "\nlook at 1: space before a point: \"n _._ t , n ,\"\n\
look at 5: space before a comma: \"n _._ t , n ,\"\n\
look at 9: space before a comma: \"n _._ t , n ,\"\n";
    assert!(rt; looks(rt.alloc(), "n _._\nt , n ,", expected)?);
    assert!(rt; looks(rt.alloc(), ". n, t.", "")?);
    Ok(())
}

#[test]
fn straight_quotes(rt: HostRuntime) -> Result<(), Fail> {
    let expected = "\nlook at 0: straight quote: \"'n_'_ t\"\"\n\
look at 2: straight quote: \"'n_'_ t\"\"\n\
look at 5: straight quote: \"'n_'_ t\"\"\n";
    assert!(rt; looks(rt.alloc(), "'n_'_ t\"", expected)?);
    Ok(())
}

/// A hyphen alone is no word with a hyphen, and neither is the last word of a line looked at.
#[test]
fn hyphens_inside_lines(rt: HostRuntime) -> Result<(), Fail> {
    let expected = "\nlook at 1: hyphen inside a line: \"t- n_-_ m - n n t-\"\n\
look at 4: hyphen inside a line: \"t- n_-_ m - n n t-\"\n";
    assert!(rt; looks(rt.alloc(), "t- n_-_ m\n- n\nn t-", expected)?);
    Ok(())
}

/// Three words alike are two looks; none is over two spaces, over the end of a line or in another style.
#[test]
fn words_repeated(rt: HostRuntime) -> Result<(), Fail> {
    let expected = "\nlook at 2: word repeated: \"m m m\"\nlook at 4: word repeated: \"m m m\"\n";
    assert!(rt; looks(rt.alloc(), "m m m", expected)?);
    let spaces = "\nlook at 1: two spaces: \"t  t\"\n";
    assert!(rt; looks(rt.alloc(), "t  t", spaces)?);
    assert!(rt; looks(rt.alloc(), "n\nn", "")?);
    assert!(rt; looks(rt.alloc(), "a _a_ a", "")?);
    Ok(())
}

/// The last words of the lines of a galley are compared over paragraphs; a line without words parts them.
#[test]
fn lines_that_end_alike(rt: HostRuntime) -> Result<(), Fail> {
    let expected = "\nlook at 10: three lines end alike: \"a n m n t n m\"\n";
    assert!(rt; looks(rt.alloc(), "a n\nm n\nt n\nm", expected)?);
    let four =
        "\nlook at 4: three lines end alike: \"n n n n\"\nlook at 6: three lines end alike: \"n n n n\"\n";
    assert!(rt; looks(rt.alloc(), "n\nn\nn\nn", four)?);
    assert!(rt; looks(rt.alloc(), "n\nn\n\nn\nn", "")?);
    assert!(rt; looks(rt.alloc(), "\n\n\n", "")?);
    assert!(rt; looks(rt.alloc(), "n\n_n_\nn", "")?);
    Ok(())
}

/// Kinds follow one another in their order, and those of a kind by place.
#[test]
fn looks_by_kind(rt: HostRuntime) -> Result<(), Fail> {
    let expected = "f:4:2: warning: hyphen inside a line\n\
f:2:3: warning: two spaces\n\
f:2:8: warning: two spaces\n\
f:2:4: warning: space before a comma\n\
f:2:9: warning: space before a point\n\
f:3:1: warning: straight quote\n\
f:1:3: warning: word repeated\n\
f:6:1: warning: three lines end alike\n";
    let text = "n n\nmt  , n  .\n'\nt- n\nn\nn\n";
    let written = notes_of(rt.alloc(), text, &[])?;
    assert!(rt; written.warnings.as_str() == expected);
    Ok(())
}

/// Two faults of a copy.
fn two_faults() -> [CopyFault; 2] {
    let forked = CopyFault {
        stamp: Stamp {
            counter: 3,
            site: 1,
        },
        kind: FaultKind::Forked,
    };
    let waiting = CopyFault {
        stamp: Stamp {
            counter: 5,
            site: 2,
        },
        kind: FaultKind::Waiting,
    };
    [forked, waiting]
}

/// Faults of the copy, then each missing sort at each of its places, and then the faults of lines.
#[test]
fn faults_are_located(rt: HostRuntime) -> Result<(), Fail> {
    let text = "qn\nnnn nnn nnn nnn nnn nnn\nnq\nnnnnnnnnnnnnnnnnnt";
    let expected = "f: forked 3.1\nf: waiting 5.2\n\
f:1:1: no matrix for Roman q\n\
f:3:2: no matrix for Roman q\n\
f:2:1: too loose (wedge sum 99, limit 60)\n\
f:4:1: too wide\n";
    let written = notes_of(rt.alloc(), text, &two_faults())?;
    assert!(rt; written.faults.as_str() == expected);
    let clean = notes_of(rt.alloc(), "n  n", &[])?;
    assert!(rt; clean.faults.is_empty());
    Ok(())
}

/// Names and symbols are written as they are shown; what is behind the places is at the end.
#[test]
fn names_and_ends_of_texts(rt: HostRuntime) -> Result<(), Fail> {
    let copy = [
        Symbol {
            style: Style::Italic,
            ch: '\u{202e}',
        },
        Symbol::SPACE,
        Symbol::SPACE,
    ];
    let at = Located {
        name: "a\u{1b}",
        places: &[Place { line: 9, column: 4 }],
        end: Place { line: 9, column: 7 },
    };
    let written = written_of(rt.alloc(), &at, &copy, &[])?;
    assert!(rt; written.faults.as_str() == "a\\x1b:9:4: no matrix for italic <U+202E>\n");
    assert!(rt; written.warnings.as_str() == "a\\x1b:9:7: warning: two spaces\n");
    Ok(())
}

/// Without a galley the faults of the copy and the reason are written by the name.
#[test]
fn no_galley_is_reported(rt: HostRuntime) -> Result<(), Fail> {
    let settings = Settings {
        measure: None,
        tight: None,
        loose: Some(60),
        case: Some(1),
        wedge: Some(5),
    };
    let mut out = String::new(rt.alloc());
    put_located_no_galley(&mut out, "f", &two_faults(), &NoGalley::Missing(settings))?;
    let expected = "f: forked 3.1\nf: waiting 5.2\n\
f: no galley: the settings measure and tight have no value\n";
    assert!(rt; out.as_str() == expected);
    Ok(())
}
