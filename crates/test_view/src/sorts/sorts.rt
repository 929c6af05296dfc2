use desk_ops::{Style, Symbol};
use linked_list_allocator::LocalHeap;
use std::alloc::Global;
use std::test::Fail;
use view_punch::{Sort, sorts_of};

/// An italic `b`, and Roman `b`, `a`, a line feed, `b`.
const COPY: &[Symbol] = &[
    Symbol {
        style: Style::Italic,
        ch: 'b',
    },
    Symbol {
        style: Style::Roman,
        ch: 'b',
    },
    Symbol {
        style: Style::Roman,
        ch: 'a',
    },
    Symbol::LINE_FEED,
    Symbol {
        style: Style::Roman,
        ch: 'b',
    },
];

/// A sort of a style.
fn sort(style: Style, ch: char, wanted: usize, first: usize) -> Sort {
    Sort {
        symbol: Symbol { style, ch },
        wanted,
        first,
    }
}

#[test]
fn sorts_ascend_with_their_places(rt: HostRuntime) -> Result<(), Fail> {
    let sorts = sorts_of(rt.alloc(), COPY)?;
    let wanted = [
        sort(Style::Roman, 'a', 1, 2),
        sort(Style::Roman, 'b', 2, 1),
        sort(Style::Italic, 'b', 1, 0),
    ];
    assert!(rt; sorts.as_slice() == wanted.as_slice());
    Ok(())
}

/// Whether the sorts of the copy are out of memory in a cut heap.
fn is_refused(alloc: Global, cut: usize) -> Result<bool, Fail> {
    let heap = LocalHeap::new(alloc, 65536)?;
    let kept = 65536usize.saturating_sub(cut.saturating_mul(64));
    let ballast: Option<Vec<u8, &LocalHeap>> = Vec::with_capacity(&heap, kept).ok();
    let refused = match sorts_of(&heap, COPY) {
        Ok(sorts) if sorts.len() != 3 => return Err(Fail::new("other sorts")),
        Ok(_) => false,
        Err(_) => true,
    };
    drop(ballast);
    Ok(refused)
}

#[test]
fn growths_of_sorts_refused(rt: HostRuntime) -> Result<(), Fail> {
    let mut refused = 0u32;
    for cut in 0..128usize {
        refused = refused.saturating_add(u32::from(is_refused(rt.alloc(), cut)?));
    }
    assert!(rt; 2 <= refused && refused <= 126, "refused {refused} times");
    Ok(())
}
