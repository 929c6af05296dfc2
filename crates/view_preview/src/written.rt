//! A galley of a matter as text, in each form.

ghost use Rattle.std.specs.Prelude.{◌≡◌, ◌++◌, All, IfOk, OnOk, string_bytes};
ghost use Rattle.view_proof.specs.Lines.{HasWords};
ghost use Rattle.view_preview.specs.Written.{IsWritten, located_in, none_text, shown_text};

use crate::located_faults::{Located, put_located, put_located_no_galley};
use crate::look_lines::{put_located_looks, put_looks};
use crate::manner::{Form, Manner};
use crate::matter::Matter;
use crate::places::places_in;
use desk_memory::NoMemory;
use desk_ops::CopyFault;
use std::alloc::Allocator;
use view_galley::Galley;
use view_proof::{Extent, NoGalley, put_no_galley, put_proof};

/// A galley of a matter as a proof, and its second looks where these are wanted.
fn shown_of<'a, A: Allocator + Copy>(
    alloc: A,
    matter: &Matter<A>,
    galley: &Galley<'a, A>,
    extent: Extent,
    looks: bool,
) -> Result<String<A>, NoMemory>
    requires { All (HasWords (matter.now).copy) (galley.now).lines }
    ensures { IfOk result (λ s. string_bytes s ≡ shown_text matter.now galley.now extent looks) }
{
    let mut out = String::new(alloc);
    put_proof(&mut out, matter.copy(), matter.faults(), galley, extent)?;
    if looks {
        put_looks(&mut out, matter.copy(), galley)?;
    }
    Ok(out)
}

/// The faults of a galley of a matter where they are in a text, and its second looks where these are wanted.
fn located_of<'a, A: Allocator + Copy>(
    alloc: A,
    at: &Located,
    matter: &Matter<A>,
    galley: &Galley<'a, A>,
    looks: bool,
) -> Result<String<A>, NoMemory>
    ensures { IfOk result (λ s. string_bytes s ≡ located_in at.now matter.now galley.now looks) }
{
    let mut out = String::new(alloc);
    put_located(&mut out, at, matter.copy(), matter.faults(), galley)?;
    if looks {
        put_located_looks(&mut out, at, matter.copy(), galley)?;
    }
    Ok(out)
}

/// A galley of a matter in a manner. In lines with places the text has this name.
pub fn written_of<'a, A: Allocator + Copy>(
    alloc: A,
    name: &str,
    matter: &Matter<A>,
    galley: &Galley<'a, A>,
    manner: Manner,
) -> Result<String<A>, NoMemory>
    requires { All (HasWords (matter.now).copy) (galley.now).lines }
    ensures { IfOk result
        (λ s. IsWritten name.now matter.now galley.now manner.form manner.looks (string_bytes s)) }
{
    match manner.form {
        Form::Whole => shown_of(alloc, matter, galley, Extent::Whole, manner.looks),
        Form::Faults => shown_of(alloc, matter, galley, Extent::Faults, manner.looks),
        Form::Located => {
            let (places, end) = places_in(alloc, matter.text(), matter.is_plain())?;
            let at = Located {
                name,
                places: &places,
                end,
            };
            located_of(alloc, &at, matter, galley, manner.looks)
        }
    }
}

/// Why there is no galley, in a form.
pub fn none_of<A: Allocator + Copy>(
    alloc: A,
    name: &str,
    faults: &[CopyFault],
    why: &NoGalley,
    form: Form,
) -> Result<String<A>, NoMemory>
    ensures { IfOk result (λ s. string_bytes s ≡ none_text name.now faults.now why.now form) }
{
    let mut out = String::new(alloc);
    match form {
        Form::Whole | Form::Faults => put_no_galley(&mut out, faults, why)?,
        Form::Located => put_located_no_galley(&mut out, name, faults, why)?,
    }
    Ok(out)
}
