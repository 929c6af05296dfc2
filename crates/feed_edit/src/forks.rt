//! The stamps that are forked, and not known to be.

ghost use Rattle.std.specs.Prelude.{◌≡◌, ◌++◌, [], IfOk, IsOk, OnOk, string_bytes};
ghost use Rattle.std.specs.List.{list_any};
ghost use Rattle.std.specs.List.Sorted.{IsStrictlySortedBy};
ghost use Rattle.desk_ops.specs.Faults.{faults_of};
ghost use Rattle.feed_edit.specs.Forks.{AreForkedBeside, AreFreshForks, IsKnown, forks_line, fresh_fork, fresh_forks};
ghost use Rattle.feed_edit.specs.Forks.{is_fork};
ghost use Rattle.feed_edit.specs.Stamps.{same_stamp, site_cmp};

use crate::counters::{Naming, put_counters};
use crate::stamps::{SiteStamp, SiteStamps};
use desk_blocks::Blocks;
use desk_memory::NoMemory;
use desk_ops::{CopyFault, FaultKind};
use desk_replica::Replica;
use std::alloc::{AllocError, Allocator};
use text_copy::put_plain;

/// The stamps that a set forks, by site and then by counter; none where forks are asked for.
#[derive(Drop)]
pub struct Known<A: Allocator> {
    pub forks: bool,
    pub stamps: Vec<SiteStamp, A>,
}

/// Whether stamps that rise have this one among them.
fn is_known(known: &[SiteStamp], stamp: SiteStamp) -> bool
    requires { IsStrictlySortedBy site_cmp known.now }
    ensures { result ≡ list_any (same_stamp stamp) known.now }
{
    known.binary_search(&stamp).is_ok()
}

/// Whether a fault is a fork.
fn is_fork(kind: FaultKind) -> bool
    ensures { result ≡ is_fork kind }
{
    match kind {
        FaultKind::Forked => true,
        FaultKind::Void | FaultKind::Waiting => false,
    }
}

/// Writes the stamp of a fault at the end, if that is a fork and not known.
fn put_fork<A: Allocator + Copy>(
    stamps: &mut Vec<SiteStamp, A>,
    known: &[SiteStamp],
    fault: &CopyFault,
) -> Result<(), AllocError>
    requires { IsStrictlySortedBy site_cmp known.now }
    ensures { OnOk result (stamps.new.items ≡ stamps.old.items ++ fresh_fork known.now fault.now) }
{
    let stamp = SiteStamp::of(fault.stamp);
    if is_fork(fault.kind) && !is_known(known, stamp) {
        stamps.push(stamp)?;
    }
    Ok(())
}

/// The stamps of the forks among faults that are not known, in the order of the faults.
fn fresh_forks<A: Allocator + Copy>(
    alloc: A,
    known: &[SiteStamp],
    faults: &[CopyFault],
) -> Result<Vec<SiteStamp, A>, NoMemory>
    requires { IsStrictlySortedBy site_cmp known.now }
    ensures stamps { IfOk result (λ v. v.items ≡ fresh_forks known.now faults.now) }
    ensures none { faults.now ≡ [] → IsOk result }
{
    let mut stamps = Vec::new(alloc);
    for fault in faults {
        put_fork(&mut stamps, known, fault)?;
    }
    Ok(stamps)
}

/// The stamps of the forks among faults that are not known, by site and then by counter. Those that are known rise.
fn forks_among<A: Allocator + Copy>(
    alloc: A,
    known: &[SiteStamp],
    faults: &[CopyFault],
) -> Result<Vec<SiteStamp, A>, NoMemory>
    requires { IsStrictlySortedBy site_cmp known.now }
    ensures stamps { IfOk result (λ v. AreFreshForks known.now faults.now v.items) }
    ensures none { faults.now ≡ [] → IsOk result }
{
    let mut stamps = fresh_forks(alloc, known, faults)?;
    stamps.sort_unstable();
    stamps.dedup();
    Ok(stamps)
}

/// The stamps that a replica forks and that are not among others, which rise. Where its copy has no fault it is never
/// out of memory.
pub fn forks_beside<A: Allocator + Copy>(
    alloc: A,
    replica: &Replica<Blocks<A>>,
    known: &[SiteStamp],
) -> Result<Vec<SiteStamp, A>, NoMemory>
    requires { IsStrictlySortedBy site_cmp known.now }
    ensures forks { IfOk result (λ v. AreForkedBeside known.now replica.now.ops v.items) }
    ensures none { faults_of replica.now.ops ≡ [] → IsOk result }
{
    let _ = replica.len();
    let faults = replica.copy_faults()?;
    forks_among(alloc, known, &faults)
}

/// The stamps that a replica forks, unless forks are asked for.
pub fn known_in<A: Allocator + Copy>(
    alloc: A,
    replica: &Replica<Blocks<A>>,
    forks: bool,
) -> Result<Known<A>, NoMemory>
    ensures known { IfOk result (λ k. IsKnown replica.now.ops k) }
    ensures forks { IfOk result (λ k. k.forks ≡ forks) }
    ensures none { faults_of replica.now.ops ≡ [] → IsOk result }
{
    if forks {
        let stamps = Vec::new(alloc);
        return Ok(Known { forks, stamps });
    }
    let stamps = forks_beside(alloc, replica, &[])?;
    Ok(Known { forks, stamps })
}

/// The line of a feed with which a stored one shares numbers that both used: `two.feed: site 1 made 775..791 805, site
/// 3 made 7 here and there`.
pub fn forks_line<A: Allocator + Copy>(
    alloc: A,
    name: &str,
    stamps: &SiteStamps<A>,
) -> Result<String<A>, NoMemory>
    ensures { IfOk result (λ s. string_bytes s ≡ forks_line name.now stamps.now) }
{
    let mut out = String::new(alloc);
    put_plain(&mut out, name)?;
    out.push_str(":")?;
    put_counters(&mut out, Naming::Long, stamps.as_slice())?;
    out.push_str(" here and there")?;
    out.push_str("\n")?;
    Ok(out)
}
