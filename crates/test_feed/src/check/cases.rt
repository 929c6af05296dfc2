use crate::check::rooms::says;
use std::alloc::Global;
use std::test::Fail;

/// Texts of cells, each with its row and column, counted from 0.
pub type Texts<'a> = &'a [(usize, usize, &'a str)];

/// The text of a cell, which is blank where there is none.
fn text_at<'a>(texts: Texts<'a>, row: usize, column: usize) -> &'a str {
    for (r, c, text) in texts {
        if *r == row && *c == column {
            return text;
        }
    }
    ""
}

/// A case file of so many columns, with these texts in its cells.
pub fn file_of(alloc: Global, columns: usize, texts: Texts<'_>) -> Result<String, Fail> {
    let head = "case = 21\nspace = \"G1\"\nfill = [\"O15\", \"A5\"]\nrows = [\n";
    let mut file = String::from_str(alloc, head)?;
    for row in 0..15usize {
        file.push_str(" [")?;
        for column in 0..columns {
            file.push_str("\"")?;
            file.push_str(text_at(texts, row, column))?;
            file.push_str("\",")?;
        }
        file.push_str("],\n")?;
    }
    file.push_str("]\n")?;
    Ok(file)
}

/// Whether a case file with these texts has this line.
fn says_of(
    alloc: Global,
    columns: usize,
    texts: Texts<'_>,
    line: &str,
    well: bool,
) -> Result<bool, Fail> {
    let file = file_of(alloc, columns, texts)?;
    says(alloc, file.as_bytes(), line, well)
}

#[test]
fn cases_in_order(rt: HostRuntime) -> Result<(), Fail> {
    let texts: Texts<'_> = &[(0, 0, "."), (3, 0, "t"), (4, 1, "i:a"), (14, 1, "s:M")];
    assert!(rt;
        says_of(
            rt.alloc(),
            15,
            texts,
            "f ok: case 21, 225 cells, 4 sorts\n",
            true
        )?
    );
    let wide: Texts<'_> = &[(0, 0, "."), (3, 15, "t"), (4, 16, "i:a")];
    assert!(rt;
        says_of(
            rt.alloc(),
            17,
            wide,
            "f ok: case 21, 255 cells, 3 sorts\n",
            true
        )?
    );
    Ok(())
}

#[test]
fn cases_with_a_fault(rt: HostRuntime) -> Result<(), Fail> {
    let missing = "f case refused: `case` is missing\n";
    assert!(rt; says(rt.alloc(), b"rows = 5", missing, false)?);
    let no_rows = "f case refused: `rows` is missing\n";
    assert!(rt; says(rt.alloc(), b"wedge = 5\ncase = 1", no_rows, false)?);
    let shape = "f case refused: `case` is of another type, number, length or name\n";
    assert!(rt; says(rt.alloc(), b"case = 0", shape, false)?);
    Ok(())
}

/// A case file whose rows have these numbers of blank texts.
fn file_of_rows(alloc: Global, rows: &[usize]) -> Result<String, Fail> {
    let mut file = String::from_str(alloc, "case = 21\nrows = [\n")?;
    for texts in rows {
        file.push_str(" [")?;
        for _ in 0..*texts {
            file.push_str("\"\",")?;
        }
        file.push_str("],\n")?;
    }
    file.push_str("]\n")?;
    Ok(file)
}

/// What is said of the rows of a case file whose rows have these numbers of texts.
fn says_of_rows(alloc: Global, rows: &[usize], said: &str) -> Result<bool, Fail> {
    let file = file_of_rows(alloc, rows)?;
    let line = format!(in alloc; "f case refused: `rows`{said}\n")?;
    says(alloc, file.as_bytes(), line.as_str(), false)
}

#[test]
fn rows_of_another_number(rt: HostRuntime) -> Result<(), Fail> {
    let alloc = rt.alloc();
    let mut rows = [15usize; 15];
    rows[0] = 14;
    let first = ": row 1 has 14 texts, and 15 are wanted";
    assert!(rt; says_of_rows(alloc, &rows, first)?);
    let mut rows = [17usize; 15];
    rows[14] = 15;
    let last = ": row 15 has 15 texts, and 17 are wanted";
    assert!(rt; says_of_rows(alloc, &rows, last)?);
    let mut rows = [15usize; 15];
    rows[2] = 1;
    rows[3] = 16;
    let short = ": row 3 has 1 text, and 15 are wanted";
    assert!(rt; says_of_rows(alloc, &rows, short)?);
    let few = ": 14 rows, and 15 are wanted";
    assert!(rt; says_of_rows(alloc, &[15; 14], few)?);
    let one = ": 1 row, and 15 are wanted";
    assert!(rt; says_of_rows(alloc, &[15], one)?);
    Ok(())
}

/// Where a row is no array of texts, no number is named.
#[test]
fn rows_of_another_type(rt: HostRuntime) -> Result<(), Fail> {
    let shape = "f case refused: `rows` is of another type, number, length or name\n";
    assert!(rt; says(rt.alloc(), b"case = 1\nrows = 'x'", shape, false)?);
    let numbers = b"case = 1\nrows = [1,2,3,4,5,6,7,8,9,10,11,12,13,14,15]";
    assert!(rt; says(rt.alloc(), numbers, shape, false)?);
    let mixed = b"case = 1\nrows = [['a',1],['a'],[],[],[],[],[],[],[],[],[],[],[],[],[]]";
    assert!(rt; says(rt.alloc(), mixed, shape, false)?);
    Ok(())
}

#[test]
fn cells_with_a_fault(rt: HostRuntime) -> Result<(), Fail> {
    let rows: &[(Texts<'_>, &str)] = &[
        (
            &[(0, 1, "ab")],
            "f case refused: cell B1 has a text that is no symbol\n",
        ),
        (
            &[(14, 15, "ab")],
            "f case refused: cell NI15 has a text that is no symbol\n",
        ),
        (
            &[(1, 0, "x"), (1, 1, "x")],
            "f case refused: cell B2 holds roman x, which stands in A2 too\n",
        ),
        (
            &[(1, 0, "i:x"), (1, 1, "x"), (9, 9, "i:x")],
            "f case refused: cell J10 holds italic x, which stands in A2 too\n",
        ),
        (
            &[(1, 0, "s:x"), (1, 1, "x"), (9, 9, "s:x")],
            "f case refused: cell J10 holds small capital x, which stands in A2 too\n",
        ),
        // A directional mark is shown by its name.
        (
            &[(1, 0, "\u{202e}"), (1, 1, "\u{202e}")],
            "f case refused: cell B2 holds roman <U+202E>, which stands in A2 too\n",
        ),
        (
            &[(0, 6, "x")],
            "f case refused: cell G1, the space or a fill, holds a symbol\n",
        ),
    ];
    for (texts, line) in rows {
        assert!(rt; says_of(rt.alloc(), 17, texts, line, false)?, "{line}");
    }
    Ok(())
}
