//! The copy and the settings of a replica, made anew by one site.

ghost use Rattle.std.specs.Prelude.{◌≡◌, ◌+◌, ◌≤◌, ◌<◌, ◌++◌, ◌∷◌, [], IfOk, IfSome, OnOk, None, length};
ghost use Rattle.desk_ops.specs.declared.op.Key.{Key};
ghost use Rattle.desk_ops.specs.Op.{IsSymbol, IsValue};
ghost use Rattle.desk_ops.specs.OpSet.{max_ops, size};
ghost use Rattle.desk_ops.specs.Shown.{copy_of};
ghost use Rattle.desk_ops.specs.Settings.{setting_of};
ghost use Rattle.desk_replica.specs.JobSettings.{settings_of};
ghost use Rattle.text_copy.specs.Laws.{AreLawful};
ghost use Rattle.feed_sites.specs.Anew.{AreInRange, HasNone, IsAnew, IsOwn, one_if, values_in, with_value};

use desk_blocks::Blocks;
use desk_held::LIMIT;
use desk_memory::NoMemory;
use desk_ops::{Key, Symbol};
use desk_replica::{Refusal, Replica, Settings};
use std::alloc::Allocator;

/// How many settings there are.
const SETTINGS: usize = 5;

/// A refusal that is out of memory.
fn memory_of(why: Refusal) -> NoMemory
    requires { why ≡ Refusal.NoMemory }
{
    let _why = why;
    NoMemory
}

/// Gives a setting its value, where it has one.
fn give<A: Allocator + Copy>(
    replica: &mut Replica<Blocks<A>>,
    key: Key,
    value: Option<u32>,
) -> Result<(), NoMemory>
    requires own { IsOwn replica.old.site replica.old.ops }
    requires room { size replica.old.ops < max_ops }
    requires value { IfSome value (IsValue key) }
    ensures site { replica.new.site ≡ replica.old.site }
    ensures own { OnOk result (IsOwn replica.old.site replica.new.ops) }
    ensures count { OnOk result (size replica.new.ops ≡ size replica.old.ops + one_if value) }
    ensures copy { OnOk result (copy_of replica.new.ops ≡ copy_of replica.old.ops) }
    ensures settings { OnOk result ((k : Key)
        → setting_of replica.new.ops k ≡ with_value (setting_of replica.old.ops) key value k) }
{
    if let Some(value) = value {
        replica.set(key, value).map_err(memory_of)?;
    }
    Ok(())
}

/// Gives all settings that have a value theirs, in the order of the keys.
fn give_all<A: Allocator + Copy>(
    replica: &mut Replica<Blocks<A>>,
    settings: Settings,
) -> Result<(), NoMemory>
    requires own { IsOwn replica.old.site replica.old.ops }
    requires none { size replica.old.ops ≡ 0 }
    requires unset { HasNone replica.old.ops }
    requires values { AreInRange settings }
    ensures site { replica.new.site ≡ replica.old.site }
    ensures own { OnOk result (IsOwn replica.old.site replica.new.ops) }
    ensures count { OnOk result (size replica.new.ops ≡ values_in settings) }
    ensures copy { OnOk result (copy_of replica.new.ops ≡ copy_of replica.old.ops) }
    ensures settings { OnOk result (settings_of replica.new.ops ≡ settings) }
{
    give(replica, Key::Measure, settings.measure)?;
    give(replica, Key::Tight, settings.tight)?;
    give(replica, Key::Loose, settings.loose)?;
    give(replica, Key::Case, settings.case)?;
    give(replica, Key::Wedge, settings.wedge)
}

/// Inserts a symbol at the end of the copy.
fn put_last<A: Allocator + Copy>(
    replica: &mut Replica<Blocks<A>>,
    symbol: Symbol,
) -> Result<(), NoMemory>
    requires own { IsOwn replica.old.site replica.old.ops }
    requires room { size replica.old.ops < max_ops }
    requires lawful { IsSymbol symbol }
    ensures site { replica.new.site ≡ replica.old.site }
    ensures own { OnOk result (IsOwn replica.old.site replica.new.ops) }
    ensures count { OnOk result (size replica.new.ops ≡ size replica.old.ops + 1) }
    ensures copy { OnOk result (copy_of replica.new.ops ≡ copy_of replica.old.ops ++ symbol ∷ []) }
    ensures settings { OnOk result ((k : Key) → setting_of replica.new.ops k ≡ setting_of replica.old.ops k) }
{
    let place = replica.copy_len();
    replica.insert_at(place, symbol).map_err(memory_of)?;
    Ok(())
}

/// Inserts a copy from front to back.
fn put_all<A: Allocator + Copy>(
    replica: &mut Replica<Blocks<A>>,
    copy: &[Symbol],
) -> Result<(), NoMemory>
    requires own { IsOwn replica.old.site replica.old.ops }
    requires none { copy_of replica.old.ops ≡ [] }
    requires room { size replica.old.ops + length copy.now ≤ max_ops }
    requires lawful { AreLawful copy.now }
    ensures site { replica.new.site ≡ replica.old.site }
    ensures own { OnOk result (IsOwn replica.old.site replica.new.ops) }
    ensures count { OnOk result (size replica.new.ops ≡ size replica.old.ops + length copy.now) }
    ensures copy { OnOk result (copy_of replica.new.ops ≡ copy.now) }
    ensures settings { OnOk result ((k : Key) → setting_of replica.new.ops k ≡ setting_of replica.old.ops k) }
{
    for symbol in copy {
        put_last(replica, *symbol)?;
    }
    Ok(())
}

/// The copy and the settings of a replica, made anew by a site. No edit is refused but for memory.
pub fn made_anew<A: Allocator + Copy>(
    alloc: A,
    old: &Replica<Blocks<A>>,
    site: u16,
) -> Result<Replica<Blocks<A>>, NoMemory>
    requires { 1 ≤ site }
    ensures { IfOk result (λ r. IsAnew site old.now.ops r.ops) }
{
    let copy = old.copy()?;
    let mut replica = Replica::new(alloc, site);
    replica.reserve((copy.len() + SETTINGS).min(LIMIT))?;
    give_all(&mut replica, old.settings())?;
    put_all(&mut replica, &copy)?;
    Ok(replica)
}
