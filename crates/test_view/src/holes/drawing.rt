use crate::holes::rooms::{FROM, OLD, TARGET, memory, rooms};
use feed_files::trial::TrialFiles;
use feed_files::{FileRefusal, Kind, Target};
use linked_list_allocator::LocalHeap;
use script_answers::{Memory, Refusal};
use std::alloc::Global;
use std::test::Fail;
use view_ribbon::{ReadingFault, Sources, draw_ribbon};

/// Eight rows at 13 each: the picture is 174 high, its paper 110, and that ends at 160.
const FRONT: &[u8] =
    b"<svg xmlns=\"http://www.w3.org/2000/svg\" width=\"640\" height=\"174\" font-family=\"sans-serif\" font-size=\"9\">\n\
<style>.n{text-anchor:end;fill:#777}.m{font-size:11px}</style>\n\
<rect width=\"100%\" height=\"100%\" fill=\"#fff\"/>\n\
<text x=\"60\" y=\"16\" font-size=\"12\">Ribbon of 8 rows, as the caster meets them</text>\n\
<rect x=\"54\" y=\"50\" width=\"415\" height=\"110\" fill=\"#f1e6cc\" stroke=\"#b9a97f\"/>\n\
<path d=\"M66 50V160\" stroke=\"#d9ccab\"/><text transform=\"translate(69,46) rotate(-60)\">A</text>\n\
<path d=\"M79 50V160\" stroke=\"#d9ccab\"/><text transform=\"translate(82,46) rotate(-60)\">B</text>\n";

/// The channels 0005, 0075 and S are the 29th to the 31st. A1 has the holes of A and 1, at 66 and 248, and so on.
const BACK: &[u8] =
    b"<path d=\"M430 50V160\" stroke=\"#d9ccab\"/><text transform=\"translate(433,46) rotate(-60)\">0005</text>\n\
<path d=\"M443 50V160\" stroke=\"#d9ccab\"/><text transform=\"translate(446,46) rotate(-60)\">0075</text>\n\
<path d=\"M456 50V160\" stroke=\"#d9ccab\"/><text transform=\"translate(459,46) rotate(-60)\">S</text>\n\
<text class=\"n\" x=\"48\" y=\"61\">7</text><circle cx=\"365\" cy=\"58\" r=\"4\"/><circle cx=\"430\" cy=\"58\" r=\"4\"/><circle cx=\"443\" cy=\"58\" r=\"4\"/><text class=\"m\" x=\"477\" y=\"61\">line out; 0005 at 10</text>\n\
<text class=\"n\" x=\"48\" y=\"74\">6</text><circle cx=\"274\" cy=\"71\" r=\"4\"/><circle cx=\"443\" cy=\"71\" r=\"4\"/><text class=\"m\" x=\"477\" y=\"74\">0075 at 3</text>\n\
<text class=\"n\" x=\"48\" y=\"87\">5</text><circle cx=\"79\" cy=\"84\" r=\"4\"/><circle cx=\"248\" cy=\"84\" r=\"4\"/><text class=\"m\" x=\"477\" y=\"87\">no matrix</text>\n\
<text class=\"n\" x=\"48\" y=\"100\">4</text><text class=\"m\" x=\"477\" y=\"100\">fill</text>\n\
<text class=\"n\" x=\"48\" y=\"113\">3</text><circle cx=\"144\" cy=\"110\" r=\"4\"/><circle cx=\"248\" cy=\"110\" r=\"4\"/><circle cx=\"456\" cy=\"110\" r=\"4\"/><text class=\"m\" x=\"477\" y=\"113\">space S</text>\n\
<text class=\"n\" x=\"48\" y=\"126\">2</text><circle cx=\"92\" cy=\"123\" r=\"4\"/><circle cx=\"300\" cy=\"123\" r=\"4\"/><text class=\"m\" x=\"477\" y=\"126\">a italic</text>\n\
<text class=\"n\" x=\"48\" y=\"139\">1</text><circle cx=\"66\" cy=\"136\" r=\"4\"/><circle cx=\"248\" cy=\"136\" r=\"4\"/><text class=\"m\" x=\"477\" y=\"139\">&lt;</text>\n\
<text class=\"n\" x=\"48\" y=\"152\">0</text><circle cx=\"339\" cy=\"149\" r=\"4\"/><circle cx=\"430\" cy=\"149\" r=\"4\"/><circle cx=\"443\" cy=\"149\" r=\"4\"/><text class=\"m\" x=\"477\" y=\"152\">line out; 0005 at 8</text>\n\
</svg>\n";

/// Whether the target has the picture of the ribbon.
fn is_drawn(files: &TrialFiles<Global>) -> bool {
    match files.bytes_of("a.svg") {
        Some(kept) => kept.starts_with(FRONT) && kept.ends_with(BACK),
        None => false,
    }
}

/// How a drawing ends.
#[derive(Clone, Copy, Debug, PartialEq, Eq)]
enum End {
    Drawn,
    NoRibbon,
    Fault(ReadingFault),
}

/// Draws a ribbon, after which the target has the picture where it is drawn, and else what it had.
fn drawn(alloc: Global, k: u64, names: (&str, &str, &str)) -> Result<End, Fail> {
    let (ribbon, case, wedge) = names;
    let from = Sources {
        ribbon,
        case,
        wedge,
    };
    let mut files = rooms(alloc, k)?;
    let end = match draw_ribbon(memory(alloc), &mut files, &from, None, &TARGET) {
        Ok(true) => End::Drawn,
        Ok(false) => End::NoRibbon,
        Err(fault) => End::Fault(fault),
    };
    let kept = match end {
        End::Drawn => is_drawn(&files) && files.bytes_of("a.svg.new").is_none(),
        _ => files.holds("a.svg", OLD),
    };
    if !kept {
        return Err(Fail::new("another target"));
    }
    Ok(end)
}

#[test]
fn picture_is_drawn(rt: HostRuntime) -> Result<(), Fail> {
    assert_eq!(rt; drawn(rt.alloc(), 0, ("ribbon", "c", "w"))?, End::Drawn);
    Ok(())
}

#[test]
fn no_ribbon_is_not_drawn(rt: HostRuntime) -> Result<(), Fail> {
    assert_eq!(rt; drawn(rt.alloc(), 0, ("cut", "c", "w"))?, End::NoRibbon);
    Ok(())
}

#[test]
fn files_that_fail_under_a_drawing(rt: HostRuntime) -> Result<(), Fail> {
    let names = ("ribbon", "c", "w");
    let missing = ReadingFault::Ribbon(FileRefusal::Missing);
    assert_eq!(rt;
        drawn(rt.alloc(), 0, ("none", "c", "w"))?,
        End::Fault(missing)
    );
    let no_case = ReadingFault::Input(Refusal::FileMissing);
    assert_eq!(rt;
        drawn(rt.alloc(), 0, ("ribbon", "d", "w"))?,
        End::Fault(no_case)
    );
    let device = ReadingFault::Ribbon(FileRefusal::Device);
    assert_eq!(rt; drawn(rt.alloc(), 1, names)?, End::Fault(device));
    for k in 2..4u64 {
        let input = ReadingFault::Input(Refusal::FileDevice);
        assert_eq!(rt; drawn(rt.alloc(), k, names)?, End::Fault(input));
    }
    for k in 4..7u64 {
        let unstored = ReadingFault::Unstored(FileRefusal::Device);
        assert_eq!(rt; drawn(rt.alloc(), k, names)?, End::Fault(unstored));
    }
    Ok(())
}

/// Draws the ribbon over a file, which is replaced or left.
fn drawn_over(alloc: Global, old: &[u8], force: bool) -> Result<End, Fail> {
    let mut files = rooms(alloc, 0)?;
    files.put("a.svg", old)?;
    let target = Target {
        name: "a.svg",
        force,
    };
    let end = match draw_ribbon(memory(alloc), &mut files, &FROM, None, &target) {
        Ok(stored) if stored && is_drawn(&files) => End::Drawn,
        Ok(_) => return Err(Fail::new("no picture")),
        Err(fault) if files.holds("a.svg", old) => End::Fault(fault),
        Err(_) => return Err(Fail::new("another target")),
    };
    Ok(end)
}

#[test]
fn holes_over_other_files(rt: HostRuntime) -> Result<(), Fail> {
    let alloc = rt.alloc();
    assert_eq!(rt; drawn_over(alloc, b"", false)?, End::Drawn);
    let feed = End::Fault(ReadingFault::Taken(Kind::Feed));
    assert_eq!(rt; drawn_over(alloc, b"MFD1", false)?, feed);
    let other = End::Fault(ReadingFault::Taken(Kind::Other));
    assert_eq!(rt; drawn_over(alloc, b"<sv", false)?, other);
    assert_eq!(rt; drawn_over(alloc, b"MFD1", true)?, End::Drawn);
    Ok(())
}

/// The bytes of the heap of the next test.
const HEAP: usize = 65_536;

/// Whether a fault is of memory.
fn is_of_memory(fault: ReadingFault) -> bool {
    match fault {
        ReadingFault::NoMemory => true,
        ReadingFault::Unstored(why) => why == FileRefusal::NoMemory,
        _ => false,
    }
}

/// Whether a drawing in a cut heap is out of memory, and the target then as it was.
fn is_refused(alloc: Global, cut: usize) -> Result<bool, Fail> {
    let heap = LocalHeap::new(alloc, HEAP)?;
    let kept = HEAP.saturating_sub(cut.saturating_mul(256));
    let ballast: Option<Vec<u8, &LocalHeap>> = Vec::with_capacity(&heap, kept).ok();
    let mut files = rooms(alloc, 0)?;
    let cut_memory = Memory {
        own: &heap,
        global: alloc,
    };
    let ended = draw_ribbon(cut_memory, &mut files, &FROM, None, &TARGET);
    drop(ballast);
    match ended {
        Ok(true) if is_drawn(&files) => Ok(false),
        Err(fault) if is_of_memory(fault) && files.holds("a.svg", OLD) => Ok(true),
        _ => Err(Fail::new("another end")),
    }
}

#[test]
fn growths_of_a_drawing_refused(rt: HostRuntime) -> Result<(), Fail> {
    let mut refused = 0u32;
    for cut in 0..256usize {
        refused = refused.saturating_add(u32::from(is_refused(rt.alloc(), cut)?));
    }
    assert!(rt; 6 <= refused && refused <= 250, "refused {refused} times");
    Ok(())
}
