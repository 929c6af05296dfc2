//! How a document looks on a screen and on paper.

ghost use Rattle.std.specs.Prelude.{◌≡◌, ◌++◌, OnOk, string_bytes};
ghost use Rattle.view_pages.specs.Screen.{page_looks, size_rule, size_rule_alone};

use crate::tags::{page_size, page_size_alone, page_size_end};
use std::alloc::{AllocError, Allocator};
use view_galley::{put_hundredths, put_number};

/// How what is no picture looks, and pages on a screen, light and dark.
#[tactic(auto, unfolding(crate::specs::Screen::page_looks))]
pub fn page_looks() -> &'static str
    ensures { result.now ≡ page_looks }
{
    "body{margin:0;font-family:sans-serif;color:#111;background:#fbf9f2}main{padding:10pt;font-size:9pt}\
    h1{font-size:13pt}h2{font-size:11pt}table{border-collapse:collapse}\
    td,th{text-align:left;padding:1pt 6pt;border:1px solid #999}\
    svg{display:block;break-after:page;max-width:100%;height:auto}main{break-after:page}.paper{fill:#fbf9f2}\
    .r{stroke:#fff;stroke-width:.3;fill:none}.e{fill:none}.d{stroke:#111;stroke-width:.6;fill:none}\
    .d.f{stroke:#b00;fill:none}.y{fill:#b00;font-family:sans-serif;font-size:6px}\
    a{color:#00c}p.c{color:#b00}@page m{margin:24pt 10pt}@media print{svg{max-width:none}main{page:m;padding:0}}\
    @media screen and (prefers-color-scheme:dark){body{color:#ddd;background:#16181b}.paper{fill:#1d2024}\
    .frame{fill:#23272c;stroke:#666}text{fill:#ddd}.r{stroke:#23272c}.b{fill:#39414a;stroke:#667}.n{fill:#999}\
    .f,.c,.m,.y,p.c{fill:#ff8a80;color:#ff8a80}a{color:#8ab4f8}.d{stroke:#ddd}.d.f{fill:none;stroke:#ff8a80}}"
}

/// Writes the size of a page on paper: so many hundredths of a point wide, and so many points high.
#[tactic(auto, unfolding(crate::specs::Screen::size_rule))]
pub fn put_size_rule<A: Allocator + Copy>(
    out: &mut String<A>,
    width: u128,
    height: u16,
) -> Result<(), AllocError>
    ensures { OnOk result (string_bytes out.new ≡ string_bytes out.old ++ size_rule width height) }
{
    out.push_str(page_size())?;
    put_hundredths(out, width)?;
    out.push_str("pt ")?;
    put_number(out, height as u128)?;
    out.push_str(page_size_end())
}

/// Writes that of a document without a galley.
#[tactic(auto, unfolding(crate::specs::Screen::size_rule_alone))]
pub fn put_size_rule_alone<A: Allocator + Copy>(
    out: &mut String<A>,
    height: u16,
) -> Result<(), AllocError>
    ensures { OnOk result (string_bytes out.new ≡ string_bytes out.old ++ size_rule_alone height) }
{
    out.push_str(page_size_alone())?;
    put_number(out, height as u128)?;
    out.push_str(page_size_end())
}
