//! The variables of a coroutine.
ghost use Rattle.std.specs.Prelude.{◌≡◌, ◌++◌, [], ◌∷◌, IfOk, OnOk};
ghost use Rattle.std.specs.Rc.{rc_str_bytes};
ghost use Rattle.model_says.specs.Variables.{variables_of, with_name};
ghost use Rattle.aio_flat.specs.Known.{Knows};

use crate::bound::push_all;
use crate::name::Name;
use aio_base::Memory;
use aio_program::Coroutine;
use std::alloc::Global;
use std::collections::BTreeSet;
use std::rc::RcStr;

/// The parameters, and then the other names that the body binds, each once.
pub fn variables_of(alloc: Global, coroutine: &Coroutine) -> Result<Vec<Name>, Memory>
    ensures { IfOk result (λ names. names.items ≡ variables_of coroutine.now) }
{
    let mut bound = Vec::new(alloc);
    push_all(&mut bound, coroutine.body().items())?;
    let mut names = Vec::new(alloc);
    let mut known = BTreeSet::new(alloc);
    for parameter in coroutine.parameters() {
        add_parameter(&mut names, &mut known, parameter)?;
    }
    for name in &bound {
        add_name(&mut names, &mut known, name)?;
    }
    Ok(names)
}

fn add_parameter<'a>(
    names: &mut Vec<Name>,
    known: &mut BTreeSet<&'a str>,
    name: &'a RcStr,
) -> Result<(), Memory>
    ensures names { OnOk result (names.new.items ≡ names.old.items ++ rc_str_bytes name.now ∷ []) }
    ensures known { OnOk result
        (Knows known.old names.old.items → Knows known.new names.new.items) }
{
    known.insert(name.as_str())?;
    names.push(Name::of(name.clone()?))?;
    Ok(())
}

/// One name more, unless it is known.
fn add_name<'a>(
    names: &mut Vec<Name>,
    known: &mut BTreeSet<&'a str>,
    name: &'a Name,
) -> Result<(), Memory>
    ensures names { OnOk result
        (Knows known.old names.old.items → names.new.items ≡ with_name names.old.items name.now) }
    ensures known { OnOk result
        (Knows known.old names.old.items → Knows known.new names.new.items) }
{
    if known.contains(name.as_str()) {
        return Ok(());
    }
    known.insert(name.as_str())?;
    names.push(name.clone()?)?;
    Ok(())
}
