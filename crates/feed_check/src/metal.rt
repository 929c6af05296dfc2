//! The case and the wedge among files that are checked: where there is one of each, they are compared.

ghost use Rattle.std.specs.Prelude.{◌≡◌, ◌∷◌, [], ◌++◌, ℕ, List, IfOk, OnErr, Some, option_map, string_bytes};
ghost use Rattle.feed_check.specs.Metal.{AreSeen, IsMetal, pair_line, unfit_line, unfit_of};
ghost use Rattle.feed_check.specs.declared.metal.Found.{Found};

use desk_case::MatrixCase;
use desk_memory::NoMemory;
use desk_wedge::Wedge;
use std::alloc::Allocator;
use text_copy::put_plain;

/// What a file gives for a cast.
#[derive(Drop)]
pub enum Found {
    Case(MatrixCase),
    Wedge(Wedge),
    /// Neither a case nor a wedge.
    Neither,
}

/// The files of one kind so far: none, one by its name, or several.
#[derive(Drop)]
pub enum Seen<'n, T: Drop> {
    Nothing,
    One(&'n str, T),
    Several,
}

impl<'n, T: Drop> Seen<'n, T> {
    /// These and one more.
    fn with(self, name: &'n str, value: T) -> Seen<'n, T>
        ensures { (found : List (List ℕ × T)) → AreSeen self.entry found
            → AreSeen result (found ++ (name.now, value) ∷ []) }
    {
        match self {
            Seen::Nothing => Seen::One(name, value),
            Seen::One(_, _) | Seen::Several => Seen::Several,
        }
    }
}

/// The cases and the wedges among the files so far. Of each kind at most one is kept.
#[derive(Drop)]
pub struct Metal<'n> {
    cases: Seen<'n, MatrixCase>,
    wedges: Seen<'n, Wedge>,
}

impl<'n> Metal<'n> {
    /// Of no file.
    pub fn new() -> Metal<'n>
        ensures { IsMetal result [] }
    {
        Metal {
            cases: Seen::Nothing,
            wedges: Seen::Nothing,
        }
    }

    /// Of the files so far and one more, by its name.
    pub fn with(self, name: &'n str, found: Found) -> Metal<'n>
        ensures { (files : List (List ℕ × Found)) → IsMetal self.entry files
            → IsMetal result (files ++ (name.now, found) ∷ []) }
    {
        let Metal { cases, wedges } = self;
        match found {
            Found::Case(case) => Metal {
                cases: cases.with(name, case),
                wedges,
            },
            Found::Wedge(wedge) => Metal {
                cases,
                wedges: wedges.with(name, wedge),
            },
            Found::Neither => Metal { cases, wedges },
        }
    }
}

/// The line of a case and a wedge that do not go together.
fn unfit_line<A: Allocator + Copy>(alloc: A, case: &str, wedge: &str) -> Result<String<A>, NoMemory>
    ensures { IfOk result (λ s. string_bytes s ≡ unfit_line case.now wedge.now) }
{
    let mut line = String::new(alloc);
    put_plain(&mut line, case)?;
    line.push_str(" with ")?;
    put_plain(&mut line, wedge)?;
    line.push_str(": the units of the fills do not descend\n")?;
    Ok(line)
}

/// The line of a case and a wedge, by their names, where they do not go together.
fn pair_line<A: Allocator + Copy>(
    alloc: A,
    case_name: &str,
    case: &MatrixCase,
    wedge_name: &str,
    wedge: &Wedge,
) -> Result<Option<String<A>>, NoMemory>
    ensures ok { IfOk result
        (λ o. option_map (λ s. string_bytes s) o ≡ pair_line (case_name.now, case.now) (wedge_name.now, wedge.now)) }
    ensures err { OnErr result ((line : List ℕ)
        × (pair_line (case_name.now, case.now) (wedge_name.now, wedge.now) ≡ Some line)) }
{
    if case.check(wedge).is_ok() {
        return Ok(None);
    }
    let line = unfit_line(alloc, case_name, wedge_name)?;
    Ok(Some(line))
}

/// The line of the only case and the only wedge, where they do not go together.
pub fn unfit<A: Allocator + Copy>(
    alloc: A,
    metal: &Metal<'_>,
) -> Result<Option<String<A>>, NoMemory>
    ensures ok { IfOk result (λ o. option_map (λ s. string_bytes s) o ≡ unfit_of metal.now) }
    ensures err { OnErr result ((line : List ℕ) × (unfit_of metal.now ≡ Some line)) }
{
    let Seen::One(case_name, case) = &metal.cases else {
        return Ok(None);
    };
    let Seen::One(wedge_name, wedge) = &metal.wedges else {
        return Ok(None);
    };
    pair_line(alloc, case_name, case, wedge_name, wedge)
}
