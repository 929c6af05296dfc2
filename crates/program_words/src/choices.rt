//! What options choose together: the lines or the figures of a ribbon, a feed or a text, how faults are written, and
//! how high pages are.

ghost use Rattle.std.specs.Prelude.{◌≡◌, option_map};
ghost use Rattle.program_words.specs.Choices.{AreFigures, AreLines, ArePoints, IsChosen, IsHeightIn, IsNumberIn};
ghost use Rattle.program_words.specs.Choices.{IsPageIn, IsPaged, IsPitchIn, IsRangeIn, IsRising, IsShown, IsWritten};
ghost use Rattle.program_words.specs.Choices.{parts_at};

/// What is written of a ribbon.
#[derive(Clone, Copy, Debug, PartialEq, Eq)]
pub enum Extent {
    /// All lines.
    Whole,
    /// The lines from one to another, both included, counted from 1.
    Lines { first: u64, last: u64 },
    /// Its figures, with the way of a row in parts of an inch.
    Figures { over: u16, under: u16 },
}

/// What a galley is of.
#[derive(Clone, Copy, Debug, PartialEq, Eq)]
pub enum Source<'a> {
    /// A stored feed, as it was at a counter, where one is given.
    Feed { name: &'a str, until: Option<u64> },
    /// A text in a file, and whether all of it is Roman.
    Text { name: &'a str, plain: bool },
}

/// How a galley is written.
#[derive(Clone, Copy, Debug, PartialEq, Eq)]
pub enum Form {
    /// Each line, and then the faults.
    Whole,
    /// The faults.
    Faults,
    /// The faults, each on one line with its place in a text.
    Located,
}

/// The number of 64 bits that a text is.
fn long_in(text: &str) -> Option<u64>
    ensures { IsNumberIn 18446744073709551616 text.now result }
{
    match text.parse::<u64>() {
        Ok(number) => Some(number),
        Err(_) => None,
    }
}

/// The number of 16 bits that a text is.
fn short_in(text: &str) -> Option<u16>
    ensures { IsNumberIn 65536 text.now result }
{
    match text.parse::<u16>() {
        Ok(number) => Some(number),
        Err(_) => None,
    }
}

/// What is before the first point of a text, and what is behind it.
#[tactic(auto, unfolding(crate::specs::Choices::parts_at))]
fn at_point(text: &str) -> Option<(&str, &str)>
    ensures { option_map (λ p. (p.0.now, p.1.now)) result ≡ parts_at 46 text.now }
{
    text.split_once('.')
}

/// What is before the first slash of a text, and what is behind it.
#[tactic(auto, unfolding(crate::specs::Choices::parts_at))]
fn at_slash(text: &str) -> Option<(&str, &str)>
    ensures { option_map (λ p. (p.0.now, p.1.now)) result ≡ parts_at 47 text.now }
{
    text.split_once('/')
}

/// The numbers of two texts, the first from 1 on, the second no smaller.
fn rising(one: &str, other: &str) -> Option<(u64, u64)>
    ensures { IsRising one.now other.now result }
{
    let (Some(first), Some(last)) = (long_in(one), long_in(other)) else {
        return None;
    };
    if first == 0 || last < first {
        return None;
    }
    Some((first, last))
}

/// The lines that a text as `2..4` names.
fn range_in(text: &str) -> Option<(u64, u64)>
    ensures { IsRangeIn text.now result }
{
    let Some((one, behind)) = at_point(text) else {
        return None;
    };
    match behind.strip_prefix('.') {
        Some(other) => rising(one, other),
        None => None,
    }
}

/// The way of a row that a text as `1/8` gives.
fn pitch_in(text: &str) -> Option<(u16, u16)>
    ensures { IsPitchIn text.now result }
{
    let Some((one, other)) = at_slash(text) else {
        return None;
    };
    let (Some(over), Some(under)) = (short_in(one), short_in(other)) else {
        return None;
    };
    if over == 0 || under == 0 {
        return None;
    }
    Some((over, under))
}

/// The points from 200 to 14400 that a text is.
fn points_in(text: &str) -> Option<u16>
    ensures { ArePoints text.now result }
{
    match short_in(text) {
        Some(points) => {
            if points < 200 || points > 14400 {
                return None;
            }
            Some(points)
        }
        None => None,
    }
}

/// The height in points that a text as `a4`, `letter` or `600` gives.
fn height_in(text: &str) -> Option<u16>
    ensures { IsHeightIn text.now result }
{
    match text {
        "a4" => Some(842),
        "letter" => Some(792),
        _ => points_in(text),
    }
}

/// The lines that a text names, as what is written.
fn lines_in(text: &str) -> Option<Extent>
    ensures { AreLines text.now result }
{
    match range_in(text) {
        Some((first, last)) => Some(Extent::Lines { first, last }),
        None => None,
    }
}

/// The figures by a way of a row.
fn figures_by(pitch: Option<&str>) -> Option<Extent>
    ensures { AreFigures (option_map (λ t. t.now) pitch.entry) result }
{
    let Some(text) = pitch else {
        return Some(Extent::Figures { over: 1, under: 8 });
    };
    match pitch_in(text) {
        Some((over, under)) => Some(Extent::Figures { over, under }),
        None => None,
    }
}

/// What is written of a ribbon, by the texts of `--lines` and `--pitch` and the flag `--stats`.
pub fn extent_by(lines: Option<&str>, stats: bool, pitch: Option<&str>) -> Option<Extent>
    ensures { IsShown (option_map (λ t. t.now) lines.entry) stats (option_map (λ t. t.now) pitch.entry) result }
{
    match (lines, stats, pitch) {
        (None, false, None) => Some(Extent::Whole),
        (None, true, _) => figures_by(pitch),
        (Some(text), false, None) => lines_in(text),
        _ => None,
    }
}

/// What a galley is of, by the names of a feed and of a text, a counter, and the flag `--plain`.
pub fn source_by<'a>(
    feed: Option<&'a str>,
    text: Option<&'a str>,
    until: Option<u64>,
    plain: bool,
) -> Option<Source<'a>>
    ensures { IsChosen (option_map (λ t. t.now) feed.entry) (option_map (λ t. t.now) text.entry) until plain result }
{
    match (feed, text, until, plain) {
        (Some(name), None, until, false) => Some(Source::Feed { name, until }),
        (None, Some(name), None, plain) => Some(Source::Text { name, plain }),
        _ => None,
    }
}

/// How a galley is written, by the text of `--format` and the flag `--faults`.
pub fn form_by(format: Option<&str>, faults: bool) -> Option<Form>
    ensures { IsWritten (option_map (λ t. t.now) format.entry) faults result }
{
    match format {
        None => {
            if faults {
                Some(Form::Faults)
            } else {
                Some(Form::Whole)
            }
        }
        Some("gcc") => Some(Form::Located),
        Some(_) => None,
    }
}

/// The height that a text gives, as what is given.
fn page_in(text: &str) -> Option<Option<u16>>
    ensures { IsPageIn text.now result }
{
    match height_in(text) {
        Some(height) => Some(Some(height)),
        None => None,
    }
}

/// The height of pages in points, if one is given, by the text of `--page` and the names of a picture and of a
/// document. A text that is no height, and one beside neither name, give nothing.
pub fn page_by(
    page: Option<&str>,
    picture: Option<&str>,
    document: Option<&str>,
) -> Option<Option<u16>>
    ensures { IsPaged (option_map (λ t. t.now) page.entry) (option_map (λ t. t.now) picture.entry)
        (option_map (λ t. t.now) document.entry) result }
{
    match (page, picture, document) {
        (None, _, _) => Some(None),
        (Some(text), Some(_), _) => page_in(text),
        (Some(text), None, Some(_)) => page_in(text),
        (Some(_), None, None) => None,
    }
}
