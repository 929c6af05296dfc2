//! A world of sites, and the events that change it.

ghost use Rattle.std.specs.Prelude.{◌≡◌, true, All, Err, IfOk, IfSome, MatchOption, None, OnErr, option_map, map};
ghost use Rattle.std.specs.Prelude.{nat_eq};
ghost use Rattle.std.specs.FinMap as fin;
ghost use Rattle.std.specs.List.{list_all, list_any};
ghost use Rattle.std.specs.Map.{lookup};
ghost use Rattle.desk_ops.specs.Op.{IsLawful};
ghost use Rattle.desk_ops.specs.OpSet.{has_op};
ghost use Rattle.desk_replica.specs.State.{State};
ghost use Rattle.script_world.specs.Sites.{no_sites, is_held, all_held, sites_of, IsUpdated};
ghost use Rattle.script_world.specs.World.{Steps, event_values, IsSound, Edits, EditsSite, Gains, Brings, taken};
ghost use Rattle.script_world.specs.World.{IsReopened};
ghost use Rattle.script_world.specs.Plays.{Plays};
ghost use Rattle.script_world.specs.Honest.{IsHonest, StandsIn};
ghost use Rattle.script_world.specs.World as world;

use desk_blocks::Blocks;
use desk_held::{AddRefusal, LIMIT};
use desk_memory::NoMemory;
use desk_ops::{Key, Op, Symbol};
use desk_replica::{Count, Replica, Stopped};
use indexmap::IndexMap;
use std::alloc::{AllocFailed, Allocator};
use std::hash::{BuildHasherDefault, FoldHasher};
use std::marker::Model;
use thiserror::Error;

/// A world has no more sites.
pub const MAX_SITES: usize = 16;

/// What happens in a world.
#[derive(Clone, Copy)]
pub enum Event<'a> {
    /// A site is added. It holds nothing.
    Site(u16),
    /// A symbol is inserted at a place of a site's copy.
    Insert {
        site: u16,
        place: usize,
        symbol: Symbol,
    },
    /// The symbol at a place of a site's copy is deleted.
    Delete {
        site: u16,
        place: usize,
    },
    /// A setting of the job is set at a site.
    Set {
        site: u16,
        key: Key,
        value: u32,
    },
    /// A site is given operations that some site holds.
    Give {
        to: u16,
        ops: &'a [Op],
    },
    /// A site is opened again from the operations that it holds.
    Restart(u16),
}

/// A local edit.
#[derive(Clone, Copy)]
pub enum LocalEdit {
    Insert { place: usize, symbol: Symbol },
    Delete { place: usize },
    Set { key: Key, value: u32 },
}

/// What an event has done.
#[derive(Clone, Copy, Debug, PartialEq, Eq)]
pub enum Answer {
    /// The operation was made.
    Made(Op),
    /// So many of the operations were new to the site, and so many known.
    Taken(Count),
    Done,
}

/// Why an event was refused: the first cause that holds. Nothing has changed then, but for `Halted`.
#[derive(Clone, Copy, Debug, PartialEq, Eq, Error)]
pub enum StepRefusal {
    #[error("no site has the number 0")]
    Number,
    #[error("the site is there already")]
    KnownSite,
    #[error("as many sites are there as may be")]
    TooManySites,
    #[error("there is no such site")]
    NoSite,
    #[error("no site holds an operation that was given")]
    Strange,
    #[error("the edit was refused: {0}")]
    Edit(desk_replica::Refusal),
    /// The first `taken` operations were taken.
    #[error("{0}")]
    Halted(Stopped),
    #[error("no memory")]
    NoMemory,
}

impl From<desk_replica::Refusal> for StepRefusal {
    ghost use Rattle.std.specs.Prelude.{◌≡◌};
    ghost use Rattle.script_world.specs.declared.world.StepRefusal.TheVariants as refusals;

    ghost from_gives = { λ why refusal. refusal ≡ refusals.Edit why };

    fn from(why: desk_replica::Refusal) -> StepRefusal {
        StepRefusal::Edit(why)
    }
}

impl From<Stopped> for StepRefusal {
    ghost use Rattle.std.specs.Prelude.{◌≡◌};
    ghost use Rattle.script_world.specs.declared.world.StepRefusal.TheVariants as refusals;

    ghost from_gives = { λ stop refusal. refusal ≡ refusals.Halted stop };

    fn from(stop: Stopped) -> StepRefusal {
        StepRefusal::Halted(stop)
    }
}

impl<T: Drop> From<AllocFailed<T>> for StepRefusal {
    ghost use Rattle.std.specs.Prelude.{◌≡◌};
    ghost use Rattle.script_world.specs.declared.world.StepRefusal.TheVariants as refusals;

    ghost from_gives = { λ _ refusal. refusal ≡ refusals.NoMemory };

    fn from(_error: AllocFailed<T>) -> StepRefusal {
        StepRefusal::NoMemory
    }
}

type SiteMap<A> = IndexMap<u16, Replica<Blocks<A>>, BuildHasherDefault<FoldHasher>, A>;

/// Sites by their numbers, each with a replica.
pub struct World<A: Allocator + Copy> {
    alloc: A,
    sites: SiteMap<A>,
}

// Written out: what drops one calls this, and does not take it apart once more.
impl<A: Allocator + Copy> Drop for World<A> {
    fn drop(self) {
        let World { alloc: _, sites } = self;
        drop(sites);
    }
}

impl<A: Allocator + Copy> Model for World<A> {
    ghost use Rattle.script_world.specs.Sites.{Sites, sites_code, sites_of, IsKept};

    ghost Value = { Sites };

    ghost coded = { sites_code };

    ghost view = { λ w. sites_of w.sites.entries };

    ghost invariant = { λ w. IsKept w.sites.entries };
}

/// Gives a replica operations.
fn gain<A: Allocator + Copy>(
    replica: &mut Replica<Blocks<A>>,
    ops: &[Op],
) -> Result<Count, StepRefusal>
    requires { All IsLawful ops.now }
    ensures site { replica.new.site ≡ replica.old.site }
    ensures ops { Gains replica.old.ops ops.now result replica.new.ops }
{
    let given = replica.take_all(ops);
    let held = replica.len();
    prove!(held <= LIMIT);
    Ok(given?)
}

/// Gives a site operations. The others stay.
fn gain_at<A: Allocator + Copy>(
    sites: &mut SiteMap<A>,
    to: u16,
    ops: &[Op],
) -> Result<Count, StepRefusal>
    requires { All IsLawful ops.now }
    ensures { MatchOption (lookup (nat_eq to) sites.old.entries) ((result ≡ Err StepRefusal.NoSite)
        × (sites.new.entries ≡ sites.old.entries))
        (λ s. (t : State) × IsUpdated sites.old.entries sites.new.entries to s t × Gains s.ops ops.now result t.ops) }
{
    let Some(replica) = sites.get_mut(&to) else {
        return Err(StepRefusal::NoSite);
    };
    gain(replica, ops)
}

fn taken(given: Result<Count, StepRefusal>) -> Result<Answer, StepRefusal>
    ensures { result ≡ taken given }
{
    Ok(Answer::Taken(given?))
}

/// Edits a replica.
fn edit<A: Allocator + Copy>(
    replica: &mut Replica<Blocks<A>>,
    change: LocalEdit,
) -> Result<Answer, StepRefusal>
    ensures site { replica.new.site ≡ replica.old.site }
    ensures ops { Edits replica.old change result replica.new }
{
    let made = match change {
        LocalEdit::Insert { place, symbol } => replica.insert_at(place, symbol)?,
        LocalEdit::Delete { place } => replica.delete_at(place)?,
        LocalEdit::Set { key, value } => replica.set(key, value)?,
    };
    Ok(Answer::Made(made))
}

/// Edits a site. The others stay.
fn edit_at<A: Allocator + Copy>(
    sites: &mut SiteMap<A>,
    site: u16,
    change: LocalEdit,
) -> Result<Answer, StepRefusal>
    ensures { MatchOption (lookup (nat_eq site) sites.old.entries) ((result ≡ Err StepRefusal.NoSite)
        × (sites.new.entries ≡ sites.old.entries))
        (λ s. (t : State) × IsUpdated sites.old.entries sites.new.entries site s t × Edits s change result t) }
{
    let Some(replica) = sites.get_mut(&site) else {
        return Err(StepRefusal::NoSite);
    };
    edit(replica, change)
}

/// Opens a replica again from the operations that it holds.
fn reopen<A: Allocator + Copy>(
    alloc: A,
    replica: &mut Replica<Blocks<A>>,
) -> Result<Answer, StepRefusal>
    ensures site { replica.new.site ≡ replica.old.site }
    ensures ops { replica.new.ops ≡ replica.old.ops }
    ensures answer { IsReopened replica.old.ops result }
{
    let Ok(ops) = replica.in_order() else {
        return Err(StepRefusal::Halted(Stopped {
            taken: 0,
            why: AddRefusal::NoMemory,
        }));
    };
    let anew = Replica::open(alloc, replica.site(), &ops)?;
    *replica = anew;
    Ok(Answer::Done)
}

/// Opens a site again. The others stay.
fn reopen_at<A: Allocator + Copy>(
    alloc: A,
    sites: &mut SiteMap<A>,
    site: u16,
) -> Result<Answer, StepRefusal>
    ensures { MatchOption (lookup (nat_eq site) sites.old.entries) ((result ≡ Err StepRefusal.NoSite)
        × (sites.new.entries ≡ sites.old.entries))
        (λ s. (t : State) × IsUpdated sites.old.entries sites.new.entries site s t × (t.ops ≡ s.ops)
        × IsReopened s.ops result) }
{
    let Some(replica) = sites.get_mut(&site) else {
        return Err(StepRefusal::NoSite);
    };
    reopen(alloc, replica)
}

/// Whether some site holds the operation.
fn any_holds<A: Allocator + Copy>(sites: &SiteMap<A>, op: &Op) -> bool
    ensures { result ≡ list_any (λ s. has_op s.ops op.now) (map (λ e. e.1) sites.now.entries) }
{
    sites.values().any(|replica| replica.has(op))
}

/// Whether some site holds all of the operations.
fn any_holds_all<A: Allocator + Copy>(sites: &SiteMap<A>, ops: &[Op]) -> bool
    ensures { result ≡ list_any (λ s. list_all (has_op s.ops) ops.now) (map (λ e. e.1) sites.now.entries) }
{
    sites.values().any(|replica| replica.has_all(ops))
}

impl<A: Allocator + Copy> World<A> {
    /// A world with no site, which is honest.
    pub fn new(alloc: A) -> World<A>
        ensures sites { result ≡ no_sites }
        ensures honest { IsHonest result }
    {
        World {
            alloc,
            sites: IndexMap::new(alloc),
        }
    }

    /// A world of one site, with its replica.
    pub fn with_site(alloc: A, replica: Replica<Blocks<A>>) -> Result<World<A>, NoMemory>
        ensures { IfOk result (λ w. w ≡ fin.insert no_sites replica.site replica.ops) }
    {
        let mut sites = IndexMap::new(alloc);
        sites.insert(replica.site(), replica)?;
        Ok(World { alloc, sites })
    }

    /// The replica of a site, if it is there. In an honest world it has no forked and no void fault, and none at all
    /// where it holds all that the sites hold; what it shows stands in the one order of all of that; and a site that
    /// holds the same operations answers the same.
    pub fn replica(&self, site: u16) -> Option<&Replica<Blocks<A>>>
        ensures ops { option_map (λ r. r.now.ops) result ≡ fin.get self.now site }
        ensures number { IfSome result (λ r. r.now.site ≡ site) }
        ensures honest { IsHonest self.now → IfSome result (λ r. StandsIn self.now r.now.ops) }
    {
        self.sites.get(&site)
    }

    /// Whether some site holds the operation.
    fn is_held(&self, op: &Op) -> bool
        ensures { result ≡ is_held self.now op.now }
    {
        any_holds(&self.sites, op)
    }

    /// Whether the site of this number is there and holds the operation.
    fn holds_at(&self, site: u16, op: &Op) -> bool
        ensures { result ≡ true → is_held self.now op.now ≡ true }
    {
        match self.replica(site) {
            Some(replica) => replica.has(op),
            None => false,
        }
    }

    /// The number of the first site that holds the operation; 0, which no site has, where none does.
    fn holder_of(&self, op: &Op) -> u16 {
        for (site, replica) in &self.sites {
            if replica.has(op) {
                return *site;
            }
        }
        0
    }

    /// Whether one site holds all of the operations.
    fn one_holds_all(&self, ops: &[Op]) -> bool
        ensures { result ≡ true → all_held self.now ops.now ≡ true }
    {
        any_holds_all(&self.sites, ops)
    }

    /// Whether some site holds each of the operations. What is given comes mostly from one site, so each is asked for
    /// all of it first; and where none has all, an operation is asked of the site that had the one before it.
    fn all_held(&self, ops: &[Op]) -> bool
        ensures { result ≡ all_held self.now ops.now }
    {
        if self.one_holds_all(ops) {
            return true;
        }
        let mut near = 0;
        for op in ops {
            if self.holds_at(near, op) {
                continue;
            }
            if !self.is_held(op) {
                return false;
            }
            near = self.holder_of(op);
        }
        true
    }

    fn add_site(&mut self, site: u16) -> Result<Answer, StepRefusal>
        ensures { Steps self.old (world.Site site) result self.new }
    {
        if site == 0 {
            return Err(StepRefusal::Number);
        }
        if self.sites.contains_key(&site) {
            return Err(StepRefusal::KnownSite);
        }
        if self.sites.len() >= MAX_SITES {
            return Err(StepRefusal::TooManySites);
        }
        self.sites.insert(site, Replica::new(self.alloc, site))?;
        Ok(Answer::Done)
    }

    /// Gives a site operations that may come from outside the world: `NoSite`, or `Halted` after the first `taken`. No
    /// other site changes. An honest world stays honest where some site holds each of them; else it need not.
    pub fn bring(&mut self, site: u16, ops: &[Op]) -> Result<Count, StepRefusal>
        requires { All IsLawful ops.now }
        ensures gained { Brings self.old site ops.now result self.new }
        ensures honest { all_held self.old ops.now ≡ true → IsHonest self.old → IsHonest self.new }
    {
        gain_at(&mut self.sites, site, ops)
    }

    fn give(&mut self, to: u16, ops: &[Op]) -> Result<Answer, StepRefusal>
        requires { All IsLawful ops.now }
        ensures { Steps self.old (world.Give to ops.now) result self.new }
    {
        if !self.sites.contains_key(&to) {
            return Err(StepRefusal::NoSite);
        }
        if !self.all_held(ops) {
            return Err(StepRefusal::Strange);
        }
        let given = self.bring(to, ops);
        taken(given)
    }

    fn edit(&mut self, site: u16, change: LocalEdit) -> Result<Answer, StepRefusal>
        ensures { EditsSite self.old site change result self.new }
    {
        edit_at(&mut self.sites, site, change)
    }

    fn restart(&mut self, site: u16) -> Result<Answer, StepRefusal>
        ensures { Steps self.old (world.Restart site) result self.new }
    {
        reopen_at(self.alloc, &mut self.sites, site)
    }

    /// Lets an event happen. It changes the named site alone, and `Give` asks for lawful operations. An honest world
    /// stays honest, after a refusal too.
    pub fn step(&mut self, event: &Event<'_>) -> Result<Answer, StepRefusal>
        requires { IsSound (event_values event.now) }
        ensures steps { Steps self.old (event_values event.now) result self.new }
        ensures honest { IsHonest self.old → IsHonest self.new }
    {
        let _ = &self.sites;
        match *event {
            Event::Site(site) => self.add_site(site),
            Event::Insert {
                site,
                place,
                symbol,
            } => self.edit(site, LocalEdit::Insert { place, symbol }),
            Event::Delete { site, place } => self.edit(site, LocalEdit::Delete { place }),
            Event::Set { site, key, value } => self.edit(site, LocalEdit::Set { key, value }),
            Event::Give { to, ops } => self.give(to, ops),
            Event::Restart(site) => self.restart(site),
        }
    }
    /// Lets the events of a list happen, one after the other, and returns what `step` returns of each, in their order.
    /// A refused event changes nothing but what `Halted` says was taken, and those after it still happen. Out of memory
    /// comes only where the list of answers finds no room; no event has happened then. An honest world stays honest.
    pub fn play(
        &mut self,
        events: &[Event<'_>],
    ) -> Result<Vec<Result<Answer, StepRefusal>, A>, NoMemory>
        requires { All (λ event. IsSound (event_values event)) events.now }
        ensures plays { IfOk result (λ answers. Plays self.old (map event_values events.now) answers.items self.new) }
        ensures none { OnErr result (self.new ≡ self.old) }
        ensures honest { IsHonest self.old → IsHonest self.new }
    {
        let mut answers = Vec::with_capacity(self.alloc, events.len())?;
        for event in events {
            answers.push_reserved(self.step(event));
        }
        Ok(answers)
    }
}
