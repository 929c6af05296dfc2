use desk_memory::NoMemory;
use desk_ops::op::MAX_COUNTER;
use desk_ops::{CopyFault, FaultKind, Key, Op, Stamp, Style, Symbol, Unlawful};
use std::alloc::Global;
use std::cmp::Ordering;
use std::fmt::Display;
use std::test::Fail;

/// The stamp of this counter and site.
pub fn at(counter: u64, site: u16) -> Stamp {
    Stamp { counter, site }
}

/// The insert of a Roman character.
pub fn typed(stamp: Stamp, parent: Stamp, ch: char) -> Op {
    Op::Insert {
        stamp,
        parent,
        symbol: Symbol {
            style: Style::Roman,
            ch,
        },
    }
}

fn set(stamp: Stamp, key: Key, value: u32) -> Op {
    Op::Set { stamp, key, value }
}

fn delete(stamp: Stamp, target: Stamp) -> Op {
    Op::Delete { stamp, target }
}

/// Whether an operation is refused for this cause.
fn is_refused(op: Op, why: Unlawful) -> bool {
    op.check() == Err(why)
}

/// Inserts of a tab: each stamp, its parent, and the first cause.
const TABS: [(u64, u16, u64, u16, Unlawful); 4] = [
    (0, 0, 1, 1, Unlawful::Counter),
    (2, 0, 2, 1, Unlawful::Site),
    (2, 1, 2, 2, Unlawful::Target),
    (2, 1, 1, 2, Unlawful::Symbol),
];

/// Whether an insert of a tab is refused for this cause.
fn is_tab_refused(stamp: Stamp, parent: Stamp, why: Unlawful) -> bool {
    is_refused(typed(stamp, parent, '\t'), why)
}

/// Of several causes the first in their order is reported.
#[test]
fn first_cause_is_reported(rt: HostRuntime) {
    let last = typed(at(MAX_COUNTER, 65535), at(1, 1), '\n');
    assert!(rt; last.check().is_ok());
    for &(counter, site, before, other, why) in &TABS {
        assert!(rt;
            is_tab_refused(at(counter, site), at(before, other), why),
            "{why:?}"
        );
    }
    let of_head = delete(at(2, 1), Stamp::HEAD);
    assert!(rt; is_refused(of_head, Unlawful::Target));
    let small = set(at(2, 1), Key::Measure, 11);
    assert!(rt; is_refused(small, Unlawful::Value));
    let late = set(at(MAX_COUNTER + 1, 1), Key::Wedge, 65536);
    assert!(rt; is_refused(late, Unlawful::Counter));
}

/// Symbols, each by its style and its character, and whether it is lawful.
const BLANKS: [(Style, char, bool); 7] = [
    (Style::Roman, ' ', true),
    (Style::Roman, '\n', true),
    (Style::Italic, ' ', false),
    (Style::Italic, '\n', false),
    (Style::SmallCap, ' ', false),
    (Style::SmallCap, '\n', false),
    (Style::SmallCap, 'a', true),
];

/// Whether a character has a symbol of this style.
fn has_style(style: Style, ch: char) -> bool {
    Symbol { style, ch }.check().is_ok()
}

/// A space and a line feed have no style but Roman.
#[test]
fn blanks_are_roman(rt: HostRuntime) {
    assert!(rt; Symbol::SPACE.ch == ' ' && Symbol::LINE_FEED.ch == '\n');
    for &(style, ch, lawful) in &BLANKS {
        assert!(rt; has_style(style, ch) == lawful, "{ch:?} in {style:?}");
    }
}

/// Whether two operations compare so.
fn compare_so(one: &Op, other: &Op, want: Ordering) -> bool {
    one.cmp(other) == want && one.partial_cmp(other) == Some(want)
}

/// Whether each of the operations is less than the next.
fn rise(ops: &[Op]) -> bool {
    for (place, op) in ops.iter().enumerate() {
        for (other_place, other) in ops.iter().enumerate() {
            if !compare_so(op, other, place.cmp(&other_place)) {
                return false;
            }
        }
    }
    true
}

/// By counter, then by site, then by kind and fields.
#[test]
fn operations_stand_in_order(rt: HostRuntime) {
    let rising = [
        typed(at(1, 9), Stamp::HEAD, 'b'),
        typed(at(2, 1), Stamp::HEAD, 'b'),
        typed(at(2, 1), at(1, 2), 'a'),
        typed(at(2, 1), at(1, 2), 'b'),
        delete(at(2, 1), at(1, 1)),
        set(at(2, 1), Key::Measure, 144),
        set(at(2, 1), Key::Measure, 145),
        typed(at(2, 2), at(1, 1), 'a'),
    ];
    assert!(rt; rise(&rising));
}

/// Whether an operation has this stamp and this target.
fn has(op: Op, stamp: Stamp, target: Option<Stamp>) -> bool {
    op.stamp() == stamp && op.target() == target
}

/// Whether a stamp is the head, and whether it is lawful.
fn is_stamp(stamp: Stamp, head: bool, lawful: bool) -> bool {
    stamp.is_head() == head && stamp.is_lawful() == lawful
}

/// Whether a stamp comes before another, and is the same where it equals it.
fn comes(one: Stamp, other: Stamp, before: bool) -> bool {
    one.is_before(other) == before && one.is_same(other) == (one == other)
}

/// Two stamps, and whether the first comes before the second.
const BEFORE: [(u64, u16, u64, u16, bool); 4] = [
    (1, 2, 2, 1, true),
    (1, 1, 1, 2, true),
    (1, 1, 1, 1, false),
    (2, 1, 1, 2, false),
];

#[test]
fn stamps_and_targets(rt: HostRuntime) {
    let (one, two, three) = (at(1, 1), at(2, 1), at(3, 1));
    assert!(rt; has(typed(two, Stamp::HEAD, 'a'), two, Some(Stamp::HEAD)));
    assert!(rt; has(delete(three, two), three, Some(two)));
    assert!(rt; has(set(three, Key::Case, 1), three, None));
    assert!(rt; is_stamp(Stamp::HEAD, true, false) && is_stamp(one, false, true));
    assert!(rt; is_stamp(at(0, 1), false, false) && is_stamp(at(1, 0), false, false));
    for &(counter, site, other, other_site, before) in &BEFORE {
        assert!(rt;
            comes(at(counter, site), at(other, other_site), before),
            "{counter}.{site} and {other}.{other_site}"
        );
    }
    for &(value, takes) in &[(15, false), (16, true), (240, true), (241, false)] {
        assert!(rt; Key::Loose.takes(value) == takes, "{value}");
    }
}

/// Whether a value is written in these words.
pub fn is_written<T: Display>(alloc: Global, value: &T, text: &str) -> Result<bool, Fail> {
    Ok(format!(in alloc; "{value}")?.as_str() == text)
}

/// Whether 10.1 and the last stamp of all are written so.
fn are_stamps_written(alloc: Global, text: &str) -> Result<bool, Fail> {
    let (most, first) = (at(MAX_COUNTER, 65535), at(10, 1));
    Ok(format!(in alloc; "{first} {most}")?.as_str() == text)
}

/// Whether a symbol is written so, and its style by its name.
fn is_symbol_written(alloc: Global, symbol: Symbol, text: &str) -> Result<bool, Fail> {
    let style = symbol.style;
    Ok(is_written(alloc, &symbol, text)? && is_written(alloc, &style, style.name())?)
}

/// Whether the name of a key is this, and is written.
fn is_key_written(alloc: Global, key: Key, text: &str) -> Result<bool, Fail> {
    Ok(key.name() == text && is_written(alloc, &key, text)?)
}

/// Whether a fault of 10.1 is written so, and begins with the name of its kind.
fn is_fault_written(alloc: Global, kind: FaultKind, text: &str) -> Result<bool, Fail> {
    let stamp = at(10, 1);
    let fault = CopyFault { stamp, kind };
    Ok(is_written(alloc, &fault, text)? && text.starts_with(kind.name()))
}

/// Symbols, each by its style and its character, in words.
const SYMBOLS: [(Style, char, &str); 3] = [
    (Style::Roman, 'a', "roman a"),
    (Style::Italic, '\u{e9}', "italic \u{e9}"),
    (Style::SmallCap, 'Z', "small capital Z"),
];

const KEYS: [(Key, &str); 5] = [
    (Key::Measure, "measure"),
    (Key::Tight, "tight"),
    (Key::Loose, "loose"),
    (Key::Case, "case"),
    (Key::Wedge, "wedge"),
];

const FAULTS: [(FaultKind, &str); 3] = [
    (FaultKind::Forked, "forked 10.1"),
    (FaultKind::Void, "void 10.1"),
    (FaultKind::Waiting, "waiting 10.1"),
];

/// Stamps, styles, symbols, settings and faults of the copy, in words.
#[test]
fn values_in_words(rt: HostRuntime) -> Result<(), Fail> {
    assert!(rt; are_stamps_written(rt.alloc(), "10.1 4611686018427387904.65535")?);
    for &(style, ch, text) in &SYMBOLS {
        assert!(rt;
            is_symbol_written(rt.alloc(), Symbol { style, ch }, text)?,
            "{text}"
        );
    }
    for &(key, text) in &KEYS {
        assert!(rt; is_key_written(rt.alloc(), key, text)?, "{text}");
    }
    for &(kind, text) in &FAULTS {
        assert!(rt; is_fault_written(rt.alloc(), kind, text)?, "{text}");
    }
    Ok(())
}

const CAUSES: [(Unlawful, &str); 6] = [
    (Unlawful::Counter, "the counter is out of range"),
    (Unlawful::Site, "no site has the number 0"),
    (Unlawful::Target, "the target is not an earlier stamp"),
    (Unlawful::Symbol, "no such symbol"),
    (Unlawful::Key, "no such key"),
    (Unlawful::Value, "the value is out of the key's range"),
];

#[test]
fn names_its_faults(rt: HostRuntime) -> Result<(), Fail> {
    for &(fault, text) in &CAUSES {
        assert!(rt; is_written(rt.alloc(), &fault, text)?, "{text}");
    }
    let no_memory = NoMemory::from(std::alloc::AllocError);
    assert!(rt; is_written(rt.alloc(), &no_memory, "no memory")?);
    Ok(())
}
