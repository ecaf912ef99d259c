//! The lines of each coroutine.
ghost use Rattle.std.specs.Prelude.{◌≡◌, [], ◌∷◌, List, map, IfOk, IfSome, IfNone};
ghost use Rattle.model_text.specs.Forms.{Spelled as PlainSpelled};
ghost use Rattle.model_text.specs.FirstPass.{Numbered};
ghost use Rattle.model_text.specs.SecondPass.{Part as PlainPart, ScriptParts, before_parts, parts_of};
ghost use Rattle.model_text.specs.Scripts.{profile_in};
ghost use Rattle.script_term.specs.Spelled.{plain_spelled, plain_numbered};
ghost use Rattle.script_naming.specs.Parts.{plain_part, plain_parts, lines_before};

use script_term::{NumberedForm, Spelled};
use std::alloc::{AllocError, Global};
use std::rc::RcStr;

/// A coroutine: its head, and the lines behind it up to the next head.
#[derive(Clone, Copy)]
pub struct Part<'a> {
    pub line: u64,
    pub name: &'a RcStr,
    pub parameters: &'a [RcStr],
    pub lines: &'a [NumberedForm],
}

/// The coroutines of a script, each with its lines. Lines before the first `def` belong to none.
pub fn parts_of(alloc: Global, forms: &[NumberedForm]) -> Result<Vec<Part<'_>>, AllocError>
    ensures { IfOk result (λ parts. plain_parts parts.items
        ≡ (parts_of (map plain_numbered forms.now)).coroutines) }
{
    let mut parts = Vec::new(alloc);
    let mut end = forms.len();
    let mut at = forms.len();
    while at > 0 {
        at -= 1;
        let Some(part) = headed_by(&forms[at], &forms[at + 1..end]) else {
            continue;
        };
        parts.push(part)?;
        end = at;
    }
    parts.reverse();
    Ok(parts)
}

/// The coroutine that begins with this line, with the lines behind it.
fn headed_by<'a>(head: &'a NumberedForm, lines: &'a [NumberedForm]) -> Option<Part<'a>>
    ensures part { IfSome result (λ part. (others : List (PlainPart (Numbered PlainSpelled)))
        → before_parts (plain_spelled head.now.form) (plain_numbered head.now)
        (lines_before (map plain_numbered lines.now) others)
        ≡ lines_before [] (plain_part part ∷ others)) }
    ensures none { IfNone result ((parts : ScriptParts (Numbered PlainSpelled))
        → before_parts (plain_spelled head.now.form) (plain_numbered head.now) parts
        ≡ lines_before (plain_numbered head.now ∷ parts.front) parts.coroutines) }
{
    match &head.form {
        Spelled::Def(name, parameters) => Some(Part {
            line: head.line,
            name,
            parameters: parameters.as_slice(),
            lines,
        }),
        _ => None,
    }
}

/// The profile that the lines before the coroutines name, 1 where they name none.
pub fn profile_of(forms: &[NumberedForm]) -> u64
    ensures { result ≡ profile_in (parts_of (map plain_numbered forms.now)).front }
{
    for line in forms {
        match line.form {
            Spelled::Profile(number) => return number,
            Spelled::Def(..) => return 1,
            _ => {}
        }
    }
    1
}
