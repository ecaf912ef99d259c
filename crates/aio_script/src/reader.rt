//! From a text to the program that it spells.
ghost use Rattle.std.specs.Prelude.{◌≡◌, Ok, IfOk, IfErr, map};
ghost use Rattle.model_text.specs.Scripts.{coroutine, script_of, script_of_parts};
ghost use Rattle.model_text.specs.SecondPass.{parts_of};
ghost use Rattle.script_term.specs.Spelled.{plain_numbered};
ghost use Rattle.script_fault.specs.Faults.{IsFaultOf};
ghost use Rattle.aio_program.specs.Line.{plain_part};

use crate::lines::line_count;
use aio_program::{Coroutine, NamedPart, Program, body_of};
use model_text::Cause;
use script_fault::{ScriptFault, cause_number};
use script_form::first_pass;
use script_naming::{profile_of, second_pass};
use script_term::NumberedForm;
use std::alloc::{AllocError, Global};

/// The longest text of a script, in bytes.
const LONGEST: usize = 1_048_576;

#[tactic(auto, unfolding(model_text::specs::Scripts::script_of))]
/// The program that a text spells, or the text's first fault. A first pass reads the form of each
/// line and where it stands, a second what names mean; docs/LANGUAGE.md tells both. Source: the
/// language reference, "Top-level components".
pub fn read(alloc: Global, text: &[u8]) -> Result<Program, ScriptFault>
    ensures program { IfOk result (λ program. script_of text.now ≡ Ok program) }
    ensures fault { IfErr result (IsFaultOf (script_of text.now)) }
{
    if text.len() > LONGEST {
        return Err(ScriptFault::Refused {
            line: 1,
            cause: cause_number(Cause::TooLong),
        });
    }
    let forms = first_pass(alloc, text)?;
    program_of(alloc, forms.as_slice(), line_count(text) + 1)
}

/// The program of lines that have their forms. The line after the last has the number `last`.
fn program_of(alloc: Global, forms: &[NumberedForm], last: u64) -> Result<Program, ScriptFault>
    ensures program { IfOk result
        (λ program. script_of_parts last (parts_of (map plain_numbered forms.now)) ≡ Ok program) }
    ensures fault { IfErr result
        (IsFaultOf (script_of_parts last (parts_of (map plain_numbered forms.now)))) }
{
    let parts = second_pass(alloc, forms, last)?;
    Ok(Program::new(profile_of(forms), coroutines_of(alloc, parts)?))
}

fn coroutines_of(alloc: Global, parts: Vec<NamedPart>) -> Result<Vec<Coroutine>, AllocError>
    ensures { IfOk result
        (λ coroutines. coroutines.items ≡ map (λ part. coroutine (plain_part part)) parts.items) }
{
    let mut coroutines = Vec::new(alloc);
    for part in parts {
        coroutines.push(coroutine_of(alloc, part)?)?;
    }
    Ok(coroutines)
}

fn coroutine_of(alloc: Global, part: NamedPart) -> Result<Coroutine, AllocError>
    ensures { IfOk result (λ it. it ≡ coroutine (plain_part part)) }
{
    let body = body_of(alloc, part.lines)?;
    Ok(Coroutine::new(part.name, part.parameters, body))
}
