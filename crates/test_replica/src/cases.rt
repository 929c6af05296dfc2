//! Operations and copy faults, and what a replica is to answer.
ghost use Rattle.std.specs.Prelude.{◌≡◌, true, All};
ghost use Rattle.desk_ops.specs.Op.{IsLawful};

use desk_memory::NoMemory;
use desk_ops::{CopyFault, FaultKind, Key, Op, Stamp, Style, Symbol};
use desk_replica::{Replica, Settings};
use desk_seq::Sequence;
use std::alloc::Allocator;

pub fn at(counter: u64, site: u16) -> Stamp {
    Stamp { counter, site }
}

pub fn roman(ch: char) -> Symbol {
    let style = Style::Roman;
    Symbol { style, ch }
}

/// Inserts a Roman character.
pub fn typed(stamp: Stamp, parent: Stamp, ch: char) -> Op {
    let symbol = roman(ch);
    Op::Insert {
        stamp,
        parent,
        symbol,
    }
}

pub fn deleted(stamp: Stamp, target: Stamp) -> Op {
    Op::Delete { stamp, target }
}

/// Sets the measure.
pub fn measure(stamp: Stamp, value: u32) -> Op {
    let key = Key::Measure;
    Op::Set { stamp, key, value }
}

/// The settings where the measure alone may have a value.
pub fn measured(measure: Option<u32>) -> Settings {
    Settings {
        measure,
        tight: None,
        loose: None,
        case: None,
        wedge: None,
    }
}

pub fn forked(stamp: Stamp) -> CopyFault {
    let kind = FaultKind::Forked;
    CopyFault { stamp, kind }
}

pub fn void(stamp: Stamp) -> CopyFault {
    let kind = FaultKind::Void;
    CopyFault { stamp, kind }
}

pub fn waiting(stamp: Stamp) -> CopyFault {
    let kind = FaultKind::Waiting;
    CopyFault { stamp, kind }
}

/// Five inserts that arrive in an order of their own, and show `zaceb`.
pub fn arrivals() -> [Op; 5] {
    [
        typed(at(1, 1), Stamp::HEAD, 'a'),
        typed(at(2, 2), at(1, 1), 'c'),
        typed(at(3, 2), at(2, 2), 'e'),
        typed(at(2, 1), at(1, 1), 'b'),
        typed(at(4, 3), Stamp::HEAD, 'z'),
    ]
}

/// Whether each operation is lawful.
pub fn are_lawful(ops: &[Op]) -> bool
    ensures { result ≡ true → All IsLawful ops.now }
{
    ops.iter().all(|op| op.check().is_ok())
}

/// What a replica is to answer: the copy, all Roman, the copy faults, how many operations wait, and the measure, the
/// only setting.
#[derive(Clone, Copy)]
pub struct Want<'a> {
    pub copy: &'a str,
    pub faults: &'a [CopyFault],
    pub waiting: usize,
    pub measure: Option<u32>,
}

/// A copy with no fault, nothing that waits and no setting.
pub fn plain(copy: &str) -> Want<'_> {
    Want {
        copy,
        faults: &[],
        waiting: 0,
        measure: None,
    }
}

/// Whether the symbols are the text in Roman.
fn spell(symbols: &[Symbol], text: &str) -> bool {
    let mut chars = text.chars();
    for symbol in symbols {
        match chars.next() {
            Some(ch) if *symbol == roman(ch) => {}
            _ => return false,
        }
    }
    chars.next().is_none()
}

/// Whether a list was made, and is this.
pub fn is_list<T: PartialEq + Drop, A: Allocator>(
    list: Result<Vec<T, A>, NoMemory>,
    want: &[T],
) -> bool {
    match list {
        Ok(list) => list.as_slice() == want,
        Err(NoMemory) => false,
    }
}

/// Whether a replica shows the text in Roman.
pub fn shows<Q: Sequence>(replica: &Replica<Q>, text: &str) -> bool {
    match replica.copy() {
        Ok(copy) => spell(copy.as_slice(), text),
        Err(NoMemory) => false,
    }
}

/// Whether a replica answers so.
pub fn answers<Q: Sequence>(replica: &Replica<Q>, want: Want<'_>) -> bool {
    shows(replica, want.copy)
        && is_list(replica.copy_faults(), want.faults)
        && replica.room().len() == want.waiting
        && replica.settings() == measured(want.measure)
}

/// Whether two sequences have the same entries.
fn have_same_entries<P: Sequence, Q: Sequence>(one: &P, two: &Q) -> bool {
    if one.len() != two.len() {
        return false;
    }
    for place in 0..one.len() {
        if one.entry(place) != two.entry(place) {
            return false;
        }
    }
    true
}

/// Whether the second holds what the first does, and in the same order.
fn have_same_order<P: Sequence, Q: Sequence>(one: &Replica<P>, two: &Replica<Q>) -> bool {
    match two.in_order() {
        Ok(ops) => is_list(one.in_order(), ops.as_slice()),
        Err(NoMemory) => false,
    }
}

fn have_same_feed<P: Sequence, Q: Sequence>(one: &Replica<P>, two: &Replica<Q>) -> bool {
    match two.write_feed() {
        Ok(bytes) => is_list(one.write_feed(), bytes.as_slice()),
        Err(NoMemory) => false,
    }
}

fn have_same_copy<P: Sequence, Q: Sequence>(one: &Replica<P>, two: &Replica<Q>) -> bool {
    match two.copy() {
        Ok(symbols) => is_list(one.copy(), symbols.as_slice()),
        Err(NoMemory) => false,
    }
}

fn have_same_faults<P: Sequence, Q: Sequence>(one: &Replica<P>, two: &Replica<Q>) -> bool {
    match two.copy_faults() {
        Ok(faults) => is_list(one.copy_faults(), faults.as_slice()),
        Err(NoMemory) => false,
    }
}

/// Whether two replicas give the same answers, of whatever kind their sequences are.
pub fn are_alike<P: Sequence, Q: Sequence>(one: &Replica<P>, two: &Replica<Q>) -> bool {
    have_same_order(one, two)
        && have_same_feed(one, two)
        && have_same_copy(one, two)
        && have_same_faults(one, two)
        && one.settings() == two.settings()
        && one.copy_len() == two.copy_len()
        && one.len() == two.len()
        && one.room().len() == two.room().len()
        && have_same_entries(one.sequence(), two.sequence())
}
