//! Reading an expression.
ghost use Rattle.std.specs.Prelude.{◌≡◌, IfOk, map, option_map, reverse};
ghost use Rattle.model_text.specs.Levels.{term_of};
ghost use Rattle.algorithm_reading.specs.Operands.{capped};
ghost use Rattle.algorithm_reading.specs.Feeding.{finished};
ghost use Rattle.script_term.specs.Lexeme.{plain_lexeme};
ghost use Rattle.script_term.specs.Operand.{plain_operand};

use crate::ends::ended;
use crate::feeding::fed;
use crate::reader::{Open, Position, TermProgress, at};
use script_term::{Lexeme, Operand};
use std::alloc::{AllocError, Global};

/// The expression that the lexemes spell, or that it is too high; `None` where they spell none.
/// Each lexeme is looked at once, and brackets within brackets take memory and no stack.
pub fn read_term(alloc: Global, lexemes: &[Lexeme]) -> Result<Option<Operand>, AllocError>
    ensures { IfOk result
        (λ read. option_map plain_operand read
        ≡ option_map capped (term_of (map plain_lexeme lexemes.now))) }
{
    let mut progress = at(Position::Start);
    let mut opened = Vec::new(alloc);
    for lexeme in lexemes {
        match fed(alloc, progress, &mut opened, lexeme)? {
            Some(reached) => progress = reached,
            None => return Ok(None),
        }
    }
    finished(alloc, progress, opened)
}

/// The end, where no bracket may be open.
fn finished(
    alloc: Global,
    progress: TermProgress,
    opened: Vec<Open>,
) -> Result<Option<Operand>, AllocError>
    ensures { IfOk result
        (λ operand. option_map plain_operand operand ≡ finished progress (reverse opened.items)) }
{
    if opened.is_empty() {
        ended(alloc, progress)
    } else {
        Ok(None)
    }
}
