//! The heads of coroutines.
ghost use Rattle.std.specs.Prelude.{◌≡◌, ◌&&◌, ◌∷◌, List, map, IfOk, OnOk};
ghost use Rattle.std.specs.Rc.{rc_str_bytes};
ghost use Rattle.model_tree.specs.Syntax.{Name};
ghost use Rattle.model_text.specs.SecondPass.{are_fresh, head_meant};
ghost use Rattle.script_naming.specs.Gives.{Gives};
ghost use Rattle.script_naming.specs.Parts.{plain_part};
ghost use Rattle.script_naming.specs.Scope.{Holds, is_free};

use crate::known::is_taken;
use crate::part::Part;
use crate::scope::bind;
use model_text::Cause;
use script_fault::LineFault;
use std::alloc::{AllocError, Global};
use std::collections::BTreeSet;
use std::rc::RcStr;

/// The greatest number of parameters.
const MOST_PARAMETERS: usize = 16;

/// Whether a head may stand behind coroutines of these names, or the least cause why not.
pub fn head_meant(alloc: Global, earlier: &BTreeSet<&str>, part: &Part<'_>) -> Result<(), LineFault>
    ensures { (names : List Name) → Holds earlier.now names
        → Gives (λ _. rc_str_bytes part.now.name.now)
        (head_meant names (plain_part part.now)) result }
{
    if !is_new(alloc, earlier, part)? {
        return Err(LineFault::Refused(Cause::Name));
    }
    if part.parameters.len() > MOST_PARAMETERS {
        return Err(LineFault::Refused(Cause::Arity));
    }
    Ok(())
}

fn is_new(alloc: Global, earlier: &BTreeSet<&str>, part: &Part<'_>) -> Result<bool, AllocError>
    ensures { IfOk result (λ is. (names : List Name) → Holds earlier.now names
        → is ≡ (is_free names (rc_str_bytes part.now.name.now)
        && are_fresh (map rc_str_bytes part.now.parameters.now))) }
{
    let are_fresh = are_fresh(alloc, part.parameters)?;
    Ok(is_free(earlier, part.name) && are_fresh)
}

fn is_free(earlier: &BTreeSet<&str>, name: &RcStr) -> bool
    ensures { (names : List Name) → Holds earlier.now names → result
        ≡ is_free names (rc_str_bytes name.now) }
{
    let is_earlier = earlier.contains(name.as_str());
    !is_taken(name.as_str()) && !is_earlier
}

/// Whether each name stands once, and none of them is the language's own.
fn are_fresh(alloc: Global, names: &[RcStr]) -> Result<bool, AllocError>
    ensures { IfOk result (λ fresh. fresh ≡ are_fresh (map rc_str_bytes names.now)) }
{
    let mut later = BTreeSet::new(alloc);
    let mut at = names.len();
    while at > 0 {
        at -= 1;
        if !adds(&mut later, &names[at])? {
            return Ok(false);
        }
    }
    Ok(true)
}

/// Adds a name, and answers whether it was not there and is none of the language's own.
fn adds<'a>(later: &mut BTreeSet<&'a str>, name: &'a RcStr) -> Result<bool, AllocError>
    ensures free { IfOk result (λ free. (names : List Name) → Holds later.old names
        → free ≡ is_free names (rc_str_bytes name.now)) }
    ensures holds { OnOk result ((names : List Name) → Holds later.old names
        → Holds later.new (rc_str_bytes name.now ∷ names)) }
{
    let is_free = is_free(later, name);
    bind(later, name)?;
    Ok(is_free)
}
