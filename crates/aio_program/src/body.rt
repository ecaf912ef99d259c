//! The statements that the lines of a coroutine spell.
ghost use Rattle.std.specs.Prelude.{◌≡◌, [], ◌∷◌, List, Option, IfOk, map};
ghost use Rattle.model_tree.specs.Syntax.{statements};
ghost use Rattle.model_text.specs.Forms.{End};
ghost use Rattle.model_text.specs.SecondPass as plain;
ghost use Rattle.model_text.specs.Places.{role_of, Stands};
ghost use Rattle.model_text.specs.Bodies.{body_in, simple};
ghost use Rattle.aio_program.specs.Line.{plain_line};
ghost use Rattle.aio_program.specs.Sorted.{plain_head, plain_begin};
ghost use Rattle.aio_program.specs.Body.{body_with, step_with, IsStep};

use crate::block::UnendedBlock;
use crate::line::Line;
use crate::sorted::{Begin, Head, Sorted, sort_out};
use crate::statement::{Statement, StatementList};
use std::alloc::{AllocError, Global};

/// What was read of a body.
#[derive(Drop)]
struct OpenBody {
    /// The blocks that are open, the innermost at the end.
    blocks: Vec<UnendedBlock>,
    /// The statements so far of the innermost block's last section.
    so_far: Vec<Statement>,
}

/// What a line makes of a body.
#[derive(Drop)]
enum BodyStep {
    More(OpenBody),
    /// The line ends the body.
    Over(Vec<Statement>),
}

/// The statements of a coroutine, by the lines behind its head. What stands behind
/// its `end` is nothing.
pub fn body_of(alloc: Global, lines: Vec<Line>) -> Result<StatementList, AllocError>
    ensures { IfOk result (λ body. statements body ≡ body_in (map plain_line lines.items)) }
{
    let mut begun = OpenBody {
        blocks: Vec::new(alloc),
        so_far: Vec::new(alloc),
    };
    for line in lines {
        match begun.with(alloc, line)? {
            BodyStep::More(next) => begun = next,
            BodyStep::Over(body) => return Ok(StatementList::of(body)),
        }
    }
    begun.ended(alloc)
}

impl OpenBody {
    /// What a line makes of it.
    fn with(self, alloc: Global, line: Line) -> Result<BodyStep, AllocError>
        ensures { IfOk result (IsStep self (plain_line line)) }
    {
        match sort_out(line) {
            Sorted::Opens(head) => self.with_head(alloc, head),
            Sorted::Begins(begin) => self.with_section(alloc, begin),
            Sorted::Closes => self.with_end(alloc),
            Sorted::Stands(statement) => self.with_statement(statement),
        }
    }

    fn with_head(self, alloc: Global, head: Head) -> Result<BodyStep, AllocError>
        ensures { IfOk result (IsStep self (plain_head head)) }
    {
        let OpenBody { mut blocks, so_far } = self;
        blocks.push(UnendedBlock::new(so_far, head))?;
        let so_far = Vec::new(alloc);
        Ok(BodyStep::More(OpenBody { blocks, so_far }))
    }

    fn with_section(self, alloc: Global, begin: Begin) -> Result<BodyStep, AllocError>
        ensures { IfOk result (IsStep self (plain_begin begin)) }
    {
        let OpenBody { mut blocks, so_far } = self;
        let Some(block) = blocks.pop() else {
            return Ok(BodyStep::Over(so_far));
        };
        blocks.push(block.with_section(alloc, begin, so_far)?)?;
        let so_far = Vec::new(alloc);
        Ok(BodyStep::More(OpenBody { blocks, so_far }))
    }

    fn with_end(self, alloc: Global) -> Result<BodyStep, AllocError>
        ensures { IfOk result (IsStep self End) }
    {
        let OpenBody { mut blocks, so_far } = self;
        let Some(block) = blocks.pop() else {
            return Ok(BodyStep::Over(so_far));
        };
        let so_far = block.ended(alloc, so_far)?;
        Ok(BodyStep::More(OpenBody { blocks, so_far }))
    }

    /// What a line makes of it that opens, begins and closes nothing.
    fn with_statement(self, statement: Option<Statement>) -> Result<BodyStep, AllocError>
        ensures { IfOk result (λ step. (line : plain.Line) (lines : List plain.Line)
            → role_of line ≡ Stands → simple line ≡ statement
            → step_with step lines ≡ body_with self (line ∷ lines)) }
    {
        let OpenBody { blocks, mut so_far } = self;
        if let Some(statement) = statement {
            so_far.push(statement)?;
        }
        Ok(BodyStep::More(OpenBody { blocks, so_far }))
    }

    /// The body, where no line is left. Blocks without an `end` end there.
    fn ended(self, alloc: Global) -> Result<StatementList, AllocError>
        ensures { IfOk result (λ body. statements body ≡ body_with self []) }
    {
        let OpenBody {
            mut blocks,
            mut so_far,
        } = self;
        while let Some(block) = blocks.pop() {
            so_far = block.ended(alloc, so_far)?;
        }
        Ok(StatementList::of(so_far))
    }
}
