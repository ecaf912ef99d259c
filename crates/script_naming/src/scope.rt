//! What names mean in a coroutine.
ghost use Rattle.std.specs.Prelude.{◌≡◌, ◌++◌, [], ◌∷◌, List, IfOk, OnOk, option_map, option_to_list};
ghost use Rattle.std.specs.Option.{option_copied};
ghost use Rattle.std.specs.Rc.{rc_str_bytes};
ghost use Rattle.model_tree.specs.Syntax.{Name};
ghost use Rattle.model_text.specs.Naming.{is_variable, callee_of};
ghost use Rattle.model_text.specs.SecondPass.{bound_by, variables_in};
ghost use Rattle.script_term.specs.Spelled.{plain_spelled};
ghost use Rattle.script_naming.specs.Parts.{plain_part};
ghost use Rattle.script_naming.specs.Scope.{Holds, with_arity};

use crate::callees::Callees;
use crate::known::is_taken;
use crate::part::Part;
use script_term::Spelled;
use std::alloc::{AllocError, Global};
use std::collections::BTreeSet;
use std::marker::Model;
use std::rc::RcStr;

/// What names mean in a coroutine. Contracts see it as the plain scope.
#[derive(Drop)]
pub struct Scope<'a, 'f> {
    callees: &'a Callees<'a, 'f>,
    part: &'a Part<'f>,
    bound: BTreeSet<&'f str>,
}

impl<'a, 'f> Model for Scope<'a, 'f> {
    ghost use Rattle.model_text.specs.Naming as plain;

    ghost Value = { plain.Scope };

    ghost use Rattle.model_text.specs.SecondPass.{variables_in};
    ghost use Rattle.script_naming.specs.Parts.{plain_part};
    ghost use Rattle.script_naming.specs.Scope.{Holds};

    ghost view = { λ a. record { callees = a.callees.now; variables = variables_in (plain_part a.part.now) } };

    ghost invariant = { λ a. Holds a.bound (variables_in (plain_part a.part.now)) };
}

impl<'a, 'f> Scope<'a, 'f> {
    /// What names mean in one coroutine.
    pub fn new(
        alloc: Global,
        callees: &'a Callees<'a, 'f>,
        part: &'a Part<'f>,
    ) -> Result<Self, AllocError>
        ensures { IfOk result (λ scope. scope
            ≡ record { callees = callees.now; variables = variables_in (plain_part part.now) }) }
    {
        Ok(Scope {
            callees,
            part,
            bound: names_bound(alloc, part)?,
        })
    }

    /// Whether the coroutine has a variable of this name.
    pub fn is_variable(&self, name: &str) -> bool
        ensures { result ≡ is_variable self.now name.now }
    {
        self.bound.contains(name) && !is_taken(name)
    }

    /// How many parameters the first coroutine of this name has.
    pub fn callee_of(&self, name: &str) -> Option<usize>
        ensures { callee_of self.now name.now ≡ option_map (with_arity name.now) result }
    {
        if is_taken(name) {
            None
        } else {
            self.callees.arity_of(name)
        }
    }
}

/// The name that a line binds.
fn bound_by(form: &Spelled) -> Option<&RcStr>
    ensures { option_to_list (option_map rc_str_bytes (option_copied result))
        ≡ bound_by (plain_spelled form.now) }
{
    match form {
        Spelled::Assign(name, _) | Spelled::WithGroup(name) | Spelled::WithTimeout(_, name) => {
            Some(name)
        }
        Spelled::YieldFrom(into, _) => into.as_ref(),
        Spelled::Except(_, name) => name.as_ref(),
        _ => None,
    }
}

/// One name more.
pub fn bind<'a>(bound: &mut BTreeSet<&'a str>, name: &'a RcStr) -> Result<(), AllocError>
    ensures { OnOk result ((names : List Name) → Holds bound.old names
        → Holds bound.new (names ++ rc_str_bytes name.now ∷ [])) }
{
    bound.insert(name.as_str())?;
    Ok(())
}

/// The name that a line binds, if it binds one.
fn bind_in<'a>(bound: &mut BTreeSet<&'a str>, form: &'a Spelled) -> Result<(), AllocError>
    ensures { OnOk result ((names : List Name) → Holds bound.old names
        → Holds bound.new (names ++ bound_by (plain_spelled form.now))) }
{
    match bound_by(form) {
        Some(name) => bind(bound, name),
        None => Ok(()),
    }
}

fn names_bound<'a>(alloc: Global, part: &Part<'a>) -> Result<BTreeSet<&'a str>, AllocError>
    ensures { IfOk result (λ bound. Holds bound (variables_in (plain_part part.now))) }
{
    let Part {
        parameters,
        lines,
        ..
    } = *part;
    let mut bound = BTreeSet::new(alloc);
    for parameter in parameters {
        bind(&mut bound, parameter)?;
    }
    for line in lines {
        bind_in(&mut bound, &line.form)?;
    }
    Ok(bound)
}
