//! Operations as they are kept in pages.

use desk_held::{Slot, append, slots_of};
use desk_ops::{Key, Op, Stamp, Style, Symbol};
use std::test::Fail;

fn at(counter: u64, site: u16) -> Stamp {
    Stamp { counter, site }
}

/// Operations of each kind, one of them with the greatest numbers.
const OPS: [Op; 4] = [
    Op::Insert {
        stamp: Stamp {
            counter: 2,
            site: 1,
        },
        parent: Stamp {
            counter: 1,
            site: 3,
        },
        symbol: Symbol {
            style: Style::Italic,
            ch: 'é',
        },
    },
    Op::Delete {
        stamp: Stamp {
            counter: 5,
            site: 2,
        },
        target: Stamp {
            counter: 2,
            site: 1,
        },
    },
    Op::Set {
        stamp: Stamp {
            counter: 7,
            site: 4,
        },
        key: Key::Wedge,
        value: 5,
    },
    Op::Insert {
        stamp: Stamp {
            counter: u64::MAX,
            site: u16::MAX,
        },
        parent: Stamp {
            counter: u64::MAX - 1,
            site: u16::MAX,
        },
        symbol: Symbol {
            style: Style::SmallCap,
            ch: char::MAX,
        },
    },
];

/// What was kept is what is read: its stamp, its parent or target, and the rest.
#[test]
fn slots_are_their_operations(rt: HostRuntime) -> Result<(), Fail> {
    for op in &OPS {
        let slot = Slot::of(*op);
        assert!(rt; slot.op() == *op);
        assert!(rt; slot.stamp() == op.stamp());
    }
    assert!(rt; Slot::of(OPS[0]).stamp() == at(2, 1));
    let slots = slots_of(rt.alloc(), &OPS)?;
    let mut list = Vec::new(rt.alloc());
    append(&mut list, &slots)?;
    assert!(rt; list.as_slice() == OPS.as_slice());
    Ok(())
}
