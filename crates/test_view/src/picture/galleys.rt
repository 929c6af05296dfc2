//! The galleys of the tests, and their pictures.

ghost use Rattle.std.specs.Prelude.{◌≤◌, length};
ghost use Rattle.desk_lines.specs.Words.{most_symbols};

use desk_case::MatrixCase;
use desk_ops::{CopyFault, Style, Symbol};
use desk_replica::Settings;
use desk_wedge::Wedge;
use std::alloc::Global;
use std::test::Fail;
use view_galley::make_galley;
use view_picture::put_picture;

pub const WEDGE: &str =
    "wedge = 5\nset_q = 48\npica = \"sixth\"\nunits = [5, 6, 7, 8, 9, 9, 9, 10, 10, 11, 12, 13, 14, 15, 18]\n";

/// The text of a case, by its first three columns, the others blank.
pub fn case_text(alloc: Global) -> Result<String, Fail> {
    let mut text = String::from_str(
        alloc,
        "case = 1\nspace = 'G1'\nfill = ['O15', 'A5']\nrows = [\n",
    )?;
    for cells in [
        "'.','',''",
        "'','',''",
        "'','',''",
        "'t','',''",
        "'','a','i:a'",
        "'','',''",
        "'','',''",
        "'n','',''",
        "'','',''",
        "'','',''",
        "'','',''",
        "'','',''",
        "'','',''",
        "'m','—',''",
        "'M','s:M','&'",
    ] {
        text.push_str("[")?;
        text.push_str(cells)?;
        text.push_str(",'','','','','','','','','','','',''],\n")?;
    }
    text.push_str("]\n")?;
    Ok(text)
}

/// A symbol of a style.
pub fn styled(style: Style, ch: char) -> Symbol {
    Symbol { style, ch }
}

/// A Roman symbol.
pub fn roman(ch: char) -> Symbol {
    styled(Style::Roman, ch)
}

/// The picture of a copy with faults, in a measure of 120 points, with tight at 38 and loose as it is given.
pub fn drawn(
    alloc: Global,
    copy: &[Symbol],
    faults: &[CopyFault],
    loose: u32,
) -> Result<String, Fail>
    requires copy { length copy.now ≤ most_symbols }
    requires low { 16 ≤ loose }
    requires high { loose ≤ 240 }
{
    let wedge = Wedge::read(alloc, WEDGE.as_bytes())?;
    let text = case_text(alloc)?;
    let case = MatrixCase::read(alloc, text.as_bytes())?;
    let settings = Settings {
        measure: Some(120),
        tight: Some(38),
        loose: Some(loose),
        case: Some(1),
        wedge: Some(5),
    };
    let mut out = String::new(alloc);
    match make_galley(alloc, copy, &settings, &case, &wedge) {
        Ok(galley) => put_picture(&mut out, copy, faults, &galley)?,
        Err(_) => return Err(Fail::new("no galley")),
    }
    Ok(out)
}
