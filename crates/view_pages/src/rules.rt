//! Thin rules of a line: at the left edge of each matrix of a word but its first, and in place of each dash that the
//! case has, as wide as its matrix but for a gap at each end. The dash of the reader's font may be wider than its
//! matrix, and would touch the next letter.

ghost use Rattle.std.specs.Prelude.{◌≡◌, ◌+◌, ◌++◌, ◌≤◌, ◌^◌, length, All, IfOk, OnOk, string_bytes, false};
ghost use Rattle.desk_lines.specs.Words.{most_symbols};
ghost use Rattle.desk_job.specs.Setting.{IsWord};
ghost use Rattle.view_picture.specs.Places.{after_word};
ghost use Rattle.view_pages.specs.Rules.{dash_text, edge_text, line_rules, one_path, path_begin, path_of};
ghost use Rattle.view_pages.specs.Rules.{rules_text, symbol_rule, symbol_rules};

use crate::tags::path_end;
use desk_job::terms::Terms;
use desk_ops::Symbol;
use std::alloc::{AllocError, Allocator};
use view_galley::{Line, put_hundredths};
use view_picture::paper::{Paper, across};
use view_picture::{Dress, drawn_space, dress_of};

/// How far the rule of a dash is from the edges of its matrix, in hundredths of a point.
const GAP: u128 = 40;

/// Which rules of a line are written.
#[derive(Clone, Copy, PartialEq, Eq, Debug)]
pub enum Kind {
    /// Those between the matrices of a word.
    Edge,
    /// Those in place of dashes.
    Dash,
}

/// What rules are written by.
#[derive(Clone, Copy, PartialEq, Eq, Debug)]
pub struct Pen {
    pub kind: Kind,
    pub paper: Paper,
    /// Where the letters of the line stand, in hundredths of a point from the top.
    pub y: u128,
}

/// Writes a rule so many atoms from the edge of the frame, as high as the set.
#[tactic(auto, unfolding(crate::specs::Rules::edge_text))]
fn put_edge<A: Allocator + Copy>(
    out: &mut String<A>,
    pen: Pen,
    here: u128,
) -> Result<(), AllocError>
    requires { here ≤ 2 ^ 112 }
    ensures { OnOk result (string_bytes out.new ≡ string_bytes out.old ++ edge_text pen here) }
{
    out.push_str("M")?;
    put_hundredths(out, across(pen.paper.scale.pica, here))?;
    out.push_str(" ")?;
    put_hundredths(out, pen.y.saturating_sub(pen.paper.set as u128))?;
    out.push_str("V")?;
    put_hundredths(out, pen.y)
}

/// Writes a rule from one place of the frame to another.
#[tactic(auto, unfolding(crate::specs::Rules::dash_text))]
fn put_dash<A: Allocator + Copy>(
    out: &mut String<A>,
    pen: Pen,
    here: u128,
    end: u128,
) -> Result<(), AllocError>
    requires here { here ≤ 2 ^ 111 }
    requires end { end ≤ 2 ^ 112 }
    ensures { OnOk result (string_bytes out.new ≡ string_bytes out.old ++ dash_text pen here end) }
{
    out.push_str("M")?;
    put_hundredths(out, across(pen.paper.scale.pica, here) + GAP)?;
    out.push_str(" ")?;
    put_hundredths(out, pen.y.saturating_sub(pen.paper.set as u128 / 4))?;
    out.push_str("H")?;
    put_hundredths(out, across(pen.paper.scale.pica, end).saturating_sub(GAP))
}

/// Writes the rule of a symbol that begins here, if it has one: at the edge of one that is not the first of its word,
/// or in place of a dash.
fn put_symbol_rule<A: Allocator + Copy>(
    out: &mut String<A>,
    pen: Pen,
    terms: &Terms,
    here: u128,
    inner: bool,
    symbol: Symbol,
) -> Result<(), AllocError>
    requires { here ≤ 2 ^ 111 }
    ensures { OnOk result
        (string_bytes out.new ≡ string_bytes out.old ++ symbol_rule pen.kind pen terms.now here inner symbol) }
{
    match pen.kind {
        Kind::Edge => {
            if inner {
                return put_edge(out, pen, here);
            }
            Ok(())
        }
        Kind::Dash => {
            if dress_of(terms.case(), symbol) != Dress::Rule {
                return Ok(());
            }
            put_dash(out, pen, here, here + terms.symbol_width(symbol) as u128)
        }
    }
}

/// Writes those of a word that begins here, and returns where it ends.
fn put_word_rules<A: Allocator + Copy>(
    out: &mut String<A>,
    pen: Pen,
    terms: &Terms,
    here: u128,
    word: &[Symbol],
) -> Result<u128, AllocError>
    requires here { here ≤ 2 ^ 110 }
    requires short { length word.now ≤ most_symbols }
    ensures text { OnOk result
        (string_bytes out.new ≡ string_bytes out.old ++ symbol_rules pen terms.now here false word.now) }
    ensures end { IfOk result (λ end. end ≡ after_word terms.now here word.now) }
    ensures limit { IfOk result (λ end. end ≤ here + 2 ^ 40) }
{
    let mut end = here;
    let mut inner = false;
    for symbol in word {
        put_symbol_rule(out, pen, terms, end, inner, *symbol)?;
        end += terms.symbol_width(*symbol) as u128;
        inner = true;
    }
    Ok(end)
}

/// Writes those of the words of a line.
fn put_line_rules<A: Allocator + Copy>(
    out: &mut String<A>,
    pen: Pen,
    terms: &Terms,
    copy: &[Symbol],
    line: &Line<A>,
) -> Result<(), AllocError>
    requires copy { length copy.now ≤ most_symbols }
    requires words { All (IsWord copy.now) line.now.words }
    ensures { OnOk result
        (string_bytes out.new ≡ string_bytes out.old ++ line_rules pen terms.now copy.now line.now) }
{
    let space = drawn_space(terms, line);
    let mut here = 0;
    for word in line.words() {
        let end = put_word_rules(out, pen, terms, here, &copy[word.from..word.to])?;
        here = end + space as u128;
    }
    Ok(())
}

/// What begins the rules of a line, those of the dashes of a line with a fault apart.
fn path_begin(kind: Kind, faulty: bool) -> &'static str
    ensures { result.now ≡ path_begin kind faulty }
{
    match kind {
        Kind::Edge => "<path class=\"r\" d=\"",
        Kind::Dash => {
            if faulty {
                "<path class=\"d f\" d=\""
            } else {
                "<path class=\"d\" d=\""
            }
        }
    }
}

/// Writes rules as one path, where there are any.
fn put_one_path<A: Allocator + Copy>(
    out: &mut String<A>,
    kind: Kind,
    faulty: bool,
    rules: &str,
) -> Result<(), AllocError>
    ensures { OnOk result (string_bytes out.new ≡ string_bytes out.old ++ one_path kind faulty rules.now) }
{
    if rules.is_empty() {
        return Ok(());
    }
    out.push_str(path_begin(kind, faulty))?;
    out.push_str(rules)?;
    out.push_str(path_end())
}

/// Writes the rules of a line that this pen draws.
fn put_path<A: Allocator + Copy>(
    out: &mut String<A>,
    pen: Pen,
    terms: &Terms,
    copy: &[Symbol],
    line: &Line<A>,
) -> Result<(), AllocError>
    requires copy { length copy.now ≤ most_symbols }
    requires words { All (IsWord copy.now) line.now.words }
    ensures { OnOk result
        (string_bytes out.new ≡ string_bytes out.old ++ path_of pen terms.now copy.now line.now) }
{
    let mut rules = String::new(*out.allocator());
    put_line_rules(&mut rules, pen, terms, copy, line)?;
    put_one_path(out, pen.kind, line.is_faulty(), rules.as_str())
}

/// Writes the rules between the matrices of a line, and those of its dashes.
#[tactic(auto, unfolding(crate::specs::Rules::rules_text))]
pub fn put_rules<A: Allocator + Copy>(
    out: &mut String<A>,
    terms: &Terms,
    copy: &[Symbol],
    paper: Paper,
    y: u128,
    line: &Line<A>,
) -> Result<(), AllocError>
    requires copy { length copy.now ≤ most_symbols }
    requires words { All (IsWord copy.now) line.now.words }
    ensures { OnOk result
        (string_bytes out.new ≡ string_bytes out.old ++ rules_text terms.now copy.now paper y line.now) }
{
    let edges = Pen {
        kind: Kind::Edge,
        paper,
        y,
    };
    let dashes = Pen {
        kind: Kind::Dash,
        ..edges
    };
    put_path(out, edges, terms, copy, line)?;
    put_path(out, dashes, terms, copy, line)
}
