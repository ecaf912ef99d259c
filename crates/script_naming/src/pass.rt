//! The second pass: what the names of a script mean.
ghost use Rattle.std.specs.Prelude.{◌≡◌, [], List, map, find};
ghost use Rattle.std.specs.Str.{bytes_eq};
ghost use Rattle.model_tree.specs.Syntax.{Name};
ghost use Rattle.model_text.specs.SecondPass.{parts_of, is_main, main_text, lines_judged, part_judged, parts_judged, second_pass};
ghost use Rattle.script_term.specs.Spelled.{plain_numbered};
ghost use Rattle.aio_program.specs.Line.{plain_line, plain_part as plain_named_part};
ghost use Rattle.script_naming.specs.Judges.{Judges, found_at};
ghost use Rattle.script_naming.specs.Parts.{plain_part, plain_parts};
ghost use Rattle.script_naming.specs.Scope.{Holds};

use crate::callees::Callees;
use crate::head::head_meant;
use crate::line::{line_meant, shared_names};
use crate::part::{Part, parts_of};
use crate::scope::{Scope, bind};
use aio_program::{Line, NamedPart};
use model_text::Cause;
use script_fault::{LineFault, ScriptFault};
use script_term::NumberedForm;
use std::alloc::Global;
use std::collections::BTreeSet;

/// The coroutines of a script with the meanings of their lines, or the first fault. The line after
/// the last has the number `last`.
pub fn second_pass(
    alloc: Global,
    forms: &[NumberedForm],
    last: u64,
) -> Result<Vec<NamedPart>, ScriptFault>
    ensures { Judges (λ named. map plain_named_part named.items)
        (second_pass last (parts_of (map plain_numbered forms.now)).coroutines) result }
{
    let parts = parts_of(alloc, forms)?;
    let callees = Callees::new(alloc, parts.as_slice())?;
    let named = parts_judged(alloc, &callees, parts.as_slice())?;
    if has_main(&callees) {
        Ok(named)
    } else {
        Err(LineFault::Refused(Cause::NoMain).at(last))
    }
}

/// Whether there is a `main` without parameters.
fn has_main(callees: &Callees<'_, '_>) -> bool
    ensures { result ≡ is_main (find (λ callee. bytes_eq callee.name main_text) callees.now) }
{
    match callees.arity_of("main") {
        Some(parameters) => parameters == 0,
        None => false,
    }
}

fn parts_judged<'a, 'f>(
    alloc: Global,
    callees: &'a Callees<'a, 'f>,
    parts: &'a [Part<'f>],
) -> Result<Vec<NamedPart>, ScriptFault>
    ensures { Judges (λ named. map plain_named_part named.items)
        (parts_judged callees.now [] (plain_parts parts.now)) result }
{
    let mut named = Vec::new(alloc);
    let mut earlier = BTreeSet::new(alloc);
    for part in parts {
        named.push(part_judged(alloc, callees, &earlier, part)?)?;
        bind(&mut earlier, part.name)?;
    }
    Ok(named)
}

fn part_judged<'a, 'f>(
    alloc: Global,
    callees: &'a Callees<'a, 'f>,
    earlier: &BTreeSet<&str>,
    part: &'a Part<'f>,
) -> Result<NamedPart, ScriptFault>
    ensures { (names : List Name) → Holds earlier.now names
        → Judges plain_named_part (part_judged callees.now names (plain_part part.now)) result }
{
    judged_at(part.line, head_meant(alloc, earlier, part))?;
    let scope = Scope::new(alloc, callees, part)?;
    let lines = lines_judged(alloc, &scope, part.lines)?;
    Ok(NamedPart {
        line: part.line,
        name: part.name.clone()?,
        parameters: shared_names(alloc, part.parameters)?,
        lines,
    })
}

fn lines_judged(
    alloc: Global,
    scope: &Scope<'_, '_>,
    lines: &[NumberedForm],
) -> Result<Vec<Line>, ScriptFault>
    ensures { Judges (λ meant. map plain_line meant.items)
        (lines_judged scope.now (map plain_numbered lines.now)) result }
{
    let mut meant = Vec::new(alloc);
    for line in lines {
        meant.push(judged_at(line.line, line_meant(alloc, scope, &line.form))?)?;
    }
    Ok(meant)
}

/// A meaning of a line, or the line's fault.
fn judged_at<T: Drop>(line: u64, meant: Result<T, LineFault>) -> Result<T, ScriptFault>
    ensures { result ≡ found_at line meant }
{
    match meant {
        Ok(meaning) => Ok(meaning),
        Err(fault) => Err(fault.at(line)),
    }
}
