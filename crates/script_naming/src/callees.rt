//! The coroutines of a script, by what a call must know of them.
ghost use Rattle.std.specs.Prelude.{◌≡◌, IfOk, map, find, option_map};
ghost use Rattle.std.specs.Str.{bytes_eq};
ghost use Rattle.model_text.specs.SecondPass.{callee};
ghost use Rattle.script_naming.specs.Parts.{plain_parts};
ghost use Rattle.script_naming.specs.Scope.{FindsFirst, with_arity};

use crate::part::Part;
use std::alloc::{AllocError, Global};
use std::collections::BTreeMap;
use std::marker::Model;

/// The coroutines of a script. Contracts see them in order; the first of a name counts.
#[derive(Drop)]
pub struct Callees<'a, 'f> {
    parts: &'a [Part<'f>],
    /// How many parameters the first of a name has.
    arities: BTreeMap<&'f str, usize>,
}

impl<'a, 'f> Model for Callees<'a, 'f> {
    ghost use Rattle.std.specs.Prelude.{List, map};
    ghost use Rattle.model_text.specs.Naming.{Callee};

    ghost Value = { List Callee };

    ghost use Rattle.model_text.specs.SecondPass.{callee};
    ghost use Rattle.script_naming.specs.Parts.{plain_parts};
    ghost use Rattle.script_naming.specs.Scope.{FindsFirst};

    ghost view = { λ a. map callee (plain_parts a.parts.now) };

    ghost invariant = { λ a. FindsFirst a.arities (map callee (plain_parts a.parts.now)) };
}

impl<'a, 'f> Callees<'a, 'f> {
    /// The coroutines that a script has, by name.
    pub fn new(alloc: Global, parts: &'a [Part<'f>]) -> Result<Self, AllocError>
        ensures { IfOk result (λ callees. callees ≡ map callee (plain_parts parts.now)) }
    {
        Ok(Callees {
            parts,
            arities: arities_of(alloc, parts)?,
        })
    }

    /// How many parameters the first coroutine of this name has.
    pub fn arity_of(&self, name: &str) -> Option<usize>
        ensures { find (λ callee. bytes_eq callee.name name.now) self.now
            ≡ option_map (with_arity name.now) result }
    {
        self.arities.get(name).copied()
    }
}

fn arities_of<'f>(alloc: Global, parts: &[Part<'f>]) -> Result<BTreeMap<&'f str, usize>, AllocError>
    ensures { IfOk result (λ arities. FindsFirst arities (map callee (plain_parts parts.now))) }
{
    let mut arities = BTreeMap::new(alloc);
    let mut at = parts.len();
    while at > 0 {
        at -= 1;
        let part = &parts[at];
        arities.insert(part.name.as_str(), part.parameters.len())?;
    }
    Ok(arities)
}
