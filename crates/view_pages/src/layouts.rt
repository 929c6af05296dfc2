//! How the pages of a galley are laid out.

ghost use Rattle.std.specs.Prelude.{◌≡◌, ◌+◌, ◌*◌, ◌≤◌, ◌<◌, ◌^◌, length, All};
ghost use Rattle.view_pages.specs.Layouts.{fitting, height_of, layout_of, layout_on, lines_a_page, lines_on, page_height};

use std::alloc::Allocator;
use view_galley::{Galley, Line};
use view_picture::paper::{Paper, leading};
use view_picture::{frame_height, page_width, paper_of};

/// The pages of a galley: where things stand on each, how large it is, how many lines stand on it, and how many pages
/// there are.
#[derive(Clone, Copy, PartialEq, Eq, Debug)]
pub struct Layout {
    pub paper: Paper,
    /// In hundredths of a point.
    pub width: u128,
    /// In hundredths of a point.
    pub height: u128,
    /// The last page may have fewer.
    pub lines: usize,
    pub pages: usize,
}

/// How high a page of so many lines is, with 10 points below the frame.
fn height_of(paper: Paper, lines: usize) -> u128
    requires { paper.top ≤ 2 ^ 100 }
    ensures { result ≡ height_of paper lines }
{
    paper.top + (frame_height(paper, lines) + 1_000)
}

/// How many lines fit on a page of so many points.
fn fitting(paper: Paper, height: u16) -> u128
    requires { paper.top ≤ 2 ^ 100 }
    ensures value { result ≡ fitting paper height }
    ensures limit { result ≤ 2 ^ 24 }
{
    let room = (height as u128 * 100).saturating_sub(height_of(paper, 0));
    room / leading(paper)
}

/// How many lines stand on a page: as many as fit, and one at least.
fn lines_a_page(paper: Paper, height: u16) -> usize
    requires { paper.top ≤ 2 ^ 100 }
    ensures { result ≡ lines_a_page paper height }
{
    (fitting(paper, height) as usize).max(1)
}

/// How high a page is: so many points, or as high as one line needs.
fn page_height(paper: Paper, height: u16) -> u128
    requires { paper.top ≤ 2 ^ 100 }
    ensures { result ≡ page_height paper height }
{
    (height as u128 * 100).max(height_of(paper, 1))
}

/// The pages of a galley on this paper.
fn layout_on<'a, A: Allocator>(paper: Paper, galley: &Galley<'a, A>, height: u16) -> Layout
    requires { paper.top ≤ 2 ^ 100 }
    ensures { result ≡ layout_on paper galley.now height }
{
    let lines = lines_a_page(paper, height);
    Layout {
        paper,
        width: page_width(paper, galley) + 5_000,
        height: page_height(paper, height),
        lines,
        pages: galley.lines().len().div_ceil(lines),
    }
}

/// The pages of a galley, each of so many points and below two heads.
pub fn layout_of<'a, A: Allocator>(galley: &Galley<'a, A>, height: u16) -> Layout
    ensures value { result ≡ layout_of galley.now height }
    ensures limit { result.paper.top ≤ 2 ^ 100 }
{
    layout_on(paper_of(galley, 2), galley, height)
}

/// The lines on a page of so many, by its number from 0.
pub fn lines_on<A: Allocator>(lines: &[Line<A>], count: usize, number: usize) -> &[Line<A>]
    requires { number * count ≤ length lines.now }
    ensures { result.now ≡ lines_on count number lines.now }
{
    let rest = &lines[number * count..];
    &rest[..count.min(rest.len())]
}
