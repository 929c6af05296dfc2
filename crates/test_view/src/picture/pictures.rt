ghost use Rattle.std.specs.Prelude.{◌≤◌, length};
ghost use Rattle.desk_lines.specs.Words.{most_symbols};

use crate::picture::galleys::{drawn, roman, styled};
use desk_ops::{CopyFault, FaultKind, Stamp, Style, Symbol};
use std::alloc::Global;
use std::test::Fail;
use view_picture::put_no_galley_picture;
use view_proof::{NoGalley, OtherNumber};

/// What the picture of one line of two words begins with: the measure and 370 points wide, and 64 points high.
const BEGIN: &str =
    "<svg xmlns=\"http://www.w3.org/2000/svg\" xml:space=\"preserve\" viewBox=\"0 0 490.00 64.00\" width=\"490.00pt\" height=\"64.00pt\">\n<style>";

/// A unit is two thirds of a point, so `n` with its 10 units is 6.67 points wide. The line is filled: 7 fills of 12
/// points and one of 6 leave 3.33 points, which 46 steps for each of its two spaces take up, and these are 3.33 points
/// and 46 of 0.036, which are 89,808 atoms. The line ends 336 atoms before the frame.
pub const LINE: &str =
    "<rect class=\"frame\" x=\"100.00\" y=\"32.00\" width=\"120.00\" height=\"22.00\"/>\n\
<g font-size=\"12.00\">\n\
<text class=\"n\" x=\"40.00\" y=\"48.00\">1</text>\n\
<text class=\"n\" x=\"88.00\" y=\"48.00\">0</text>\n\
<text class=\"w\" y=\"48.00\"><tspan x=\"100.00 106.66 113.33\">nn </tspan><tspan x=\"118.32 124.98\">n </tspan></text>\n\
<rect class=\"b\" x=\"129.97\" width=\"12.00\" y=\"40.00\" height=\"8.00\"/>\n\
<rect class=\"b\" x=\"141.97\" width=\"12.00\" y=\"40.00\" height=\"8.00\"/>\n\
<rect class=\"b\" x=\"153.97\" width=\"12.00\" y=\"40.00\" height=\"8.00\"/>\n\
<rect class=\"b\" x=\"165.97\" width=\"12.00\" y=\"40.00\" height=\"8.00\"/>\n\
<rect class=\"b\" x=\"177.97\" width=\"12.00\" y=\"40.00\" height=\"8.00\"/>\n\
<rect class=\"b\" x=\"189.97\" width=\"12.00\" y=\"40.00\" height=\"8.00\"/>\n\
<rect class=\"b\" x=\"201.97\" width=\"12.00\" y=\"40.00\" height=\"8.00\"/>\n\
<rect class=\"b\" x=\"213.97\" width=\"6.00\" y=\"40.00\" height=\"8.00\"/>\n\
</g>\n</svg>\n";

const HEAD: &str =
    "<text class=\"h\" x=\"10.00\" y=\"20.00\">1 lines, 0 at fault, measure 120 points, tight 38, loose 150</text>\n";

/// Whether the picture of a copy holds a text.
fn shows(
    alloc: Global,
    copy: &[Symbol],
    faults: &[CopyFault],
    loose: u32,
    text: &str,
) -> Result<bool, Fail>
    requires copy { length copy.now ≤ most_symbols }
    requires low { 16 ≤ loose }
    requires high { loose ≤ 240 }
{
    let picture = drawn(alloc, copy, faults, loose)?;
    Ok(picture.as_str().contains(text))
}

#[test]
fn line_with_its_fills(rt: HostRuntime) -> Result<(), Fail> {
    let copy = [roman('n'), roman('n'), roman(' '), roman('n')];
    let picture = drawn(rt.alloc(), &copy, &[], 150)?;
    assert!(rt; picture.as_str().starts_with(BEGIN));
    assert!(rt; picture.as_str().contains(HEAD));
    assert!(rt; picture.as_str().ends_with(LINE));
    Ok(())
}

/// Italic and small capitals stand in spans, one for each run; a symbol that the case lacks stands in one of its own,
/// has no width, and is reported above, where `<` is escaped.
#[test]
fn styles_and_escapes(rt: HostRuntime) -> Result<(), Fail> {
    let copy = [
        styled(Style::Italic, 'a'),
        styled(Style::Italic, 'a'),
        roman('&'),
        styled(Style::SmallCap, 'M'),
        roman('<'),
    ];
    let alloc = rt.alloc();
    let letters =
        "\"><tspan class=\"i\">aa</tspan>&amp;<tspan class=\"s\">M</tspan><tspan class=\"m\">&lt;</tspan> </tspan></text>\n";
    assert!(rt; shows(alloc, &copy, &[], 150, letters)?);
    let lacking =
        "<text class=\"c\" x=\"10.00\" y=\"32.00\">no matrix for roman '&lt;' (U+003C) at place 4</text>\n";
    assert!(rt; shows(alloc, &copy, &[], 150, lacking)?);
    Ok(())
}

/// Five words of `nnn` and a sixth: the first line is of five, its wedge sum is 99, and its four spaces are 89,808
/// atoms each.
#[test]
fn faulty_line_and_its_cause(rt: HostRuntime) -> Result<(), Fail> {
    let alloc = rt.alloc();
    let mut copy = Vec::new(alloc);
    for n in 0..23u32 {
        copy.push(roman(if n % 4 == 3 { ' ' } else { 'n' }))?;
    }
    if copy.len() > 23 {
        return Err(Fail::new("too long a copy"));
    }
    let cause =
        "<text class=\"c\" x=\"226.00\" y=\"48.00\">too loose (wedge sum 99, limit 60)</text>\n";
    assert!(rt; shows(alloc, &copy, &[], 60, cause)?);
    let faulty =
        "<text class=\"w f\" y=\"48.00\"><tspan x=\"100.00 106.66 113.33 120.00\">nnn </tspan><tspan x=\"124.98 ";
    assert!(rt; shows(alloc, &copy, &[], 60, faulty)?);
    let second =
        "<text class=\"n\" x=\"40.00\" y=\"64.00\">2</text>\n<text class=\"n\" x=\"88.00\" y=\"64.00\">20</text>\n<text class=\"w\" ";
    assert!(rt; shows(alloc, &copy, &[], 60, second)?);
    Ok(())
}

#[test]
fn faults_of_the_copy_stand_above(rt: HostRuntime) -> Result<(), Fail> {
    let alloc = rt.alloc();
    let faults = [CopyFault {
        stamp: Stamp {
            counter: 7,
            site: 2,
        },
        kind: FaultKind::Forked,
    }];
    let above =
        "<text class=\"c\" x=\"10.00\" y=\"20.00\">forked 7.2: more than one operation has this stamp</text>\n<text class=\"h\" x=\"10.00\" y=\"32.00\">";
    assert!(rt; shows(alloc, &[roman('n')], &faults, 150, above)?);
    let mut none = String::new(alloc);
    let case = OtherNumber::Case { set: 7, number: 12 };
    put_no_galley_picture(&mut none, &faults, &NoGalley::Other(case))?;
    let why =
        "<text class=\"c\" x=\"10.00\" y=\"32.00\">no galley: the setting case is 7, and the case has the number 12</text>\n</svg>\n";
    assert!(rt; none.as_str().ends_with(why));
    assert!(rt; none.as_str().contains("viewBox=\"0 0 500.00 44.00\""));
    Ok(())
}
