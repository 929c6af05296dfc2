//! Whether the stamps of held operations rise: then no stamp is borne by two.
ghost use Rattle.std.specs.Prelude.{◌≡◌, true, false, IfSome, IsNone};
ghost use Rattle.desk_ops.specs.Stamp.{head};
ghost use Rattle.desk_held.specs.Rising.{rise_from, last_from};

use crate::Slot;
use desk_ops::Stamp;
use list_pages::Pages;
use std::alloc::Allocator;

/// The last stamp of a stretch, where its stamps rise, the first from the one given.
fn rise(from: Stamp, part: &[Slot]) -> Option<Stamp>
    ensures some { IfSome result (λ last. (rise_from from part.now ≡ true) × (last ≡ last_from from part.now)) }
    ensures none { IsNone result → rise_from from part.now ≡ false }
{
    let mut last = from;
    for slot in part {
        let stamp = slot.stamp();
        if !last.is_before(stamp) {
            return None;
        }
        last = stamp;
    }
    Some(last)
}

/// Whether all of them rise: one look at each.
pub fn all_rise<A: Allocator + Copy>(ops: &Pages<Slot, (), A>) -> bool
    ensures { result ≡ rise_from head ops.now.entries }
{
    let len = ops.len();
    let mut last = Stamp::HEAD;
    let mut at = 0;
    while at < len {
        let part = ops.stretch(at);
        let Some(next) = rise(last, part) else {
            return false;
        };
        last = next;
        at += part.len();
    }
    true
}
