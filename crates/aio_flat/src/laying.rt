//! Statements as flat code. Each call lays it at the end of what was laid; on `Memory` a front of
//! it may stand there.
ghost use Rattle.std.specs.Prelude.{◌≡◌, IfOk, OnOk, option_copied};
ghost use Rattle.model_tree.specs.Syntax.{If, While, Try, With, statements, handlers};
ghost use Rattle.algorithm_flat.specs.Laid.{Laid, LaidAll, LaidBranch, LaidHandlers};
ghost use Rattle.algorithm_locals.specs.Numbered.{numbered_statement, numbered_statements, numbered_branch, numbered_handlers};
ghost use Rattle.aio_program.specs.Target.{plain_branch, plain_manager};
ghost use Rattle.std.specs.Rc.{rc_str_bytes};
ghost use Rattle.aio_flat.specs.Built.{built, Lays, LaidElse, LaidClause, single_op, numbered_handler};
ghost use Rattle.aio_flat.specs.Grows.{Grows};

use crate::body::{Clause, ClauseList, Op, Range};
use crate::builder::BodyBuilder;
use crate::exprs::flat_expr;
use crate::numbers::Numbers;
use crate::places::CoroutinePlaces;
use crate::single::{enter_op, exit_op, single_op};
use crate::target::local_in;
use aio_base::Memory;
use aio_program::{Handler, Manager, Statement, StatementCase, StatementList};
use aio_syntax::Expr;
use std::alloc::Global;
use std::rc::RcStr;

/// Statements in order.
#[cycle(lay)]
pub fn lay_all(
    alloc: Global,
    places: &CoroutinePlaces,
    numbers: &Numbers,
    items: &[Statement],
    builder: &mut BodyBuilder,
) -> Result<(), Memory>
    ensures { OnOk result (Lays builder.old builder.new (λ code.
        LaidAll places.now code (numbered_statements numbers.now (statements items.now)))) }
{
    for item in items {
        lay(alloc, places, numbers, item, builder)?;
    }
    Ok(())
}

#[cycle(lay)]
fn lay(
    alloc: Global,
    places: &CoroutinePlaces,
    numbers: &Numbers,
    statement: &Statement,
    builder: &mut BodyBuilder,
) -> Result<(), Memory>
    ensures { OnOk result (Lays builder.old builder.new (λ code.
        Laid places.now code (numbered_statement numbers.now statement.now))) }
{
    match single_op(alloc, places, numbers, statement)? {
        Some(op) => builder.push_op(op),
        None => lay_block(alloc, places, numbers, statement, builder),
    }
}

#[cycle(lay)]
fn lay_block(
    alloc: Global,
    places: &CoroutinePlaces,
    numbers: &Numbers,
    statement: &Statement,
    builder: &mut BodyBuilder,
) -> Result<(), Memory>
    requires { single_op places.now (numbered_statement numbers.now statement.now) ≡ None }
    ensures { OnOk result (Lays builder.old builder.new (λ code.
        Laid places.now code (numbered_statement numbers.now statement.now))) }
{
    match statement.case() {
        StatementCase::If(test, body, otherwise) => {
            lay_if(alloc, places, numbers, test, body, otherwise, builder)
        }
        StatementCase::While(test, body) => lay_while(alloc, places, numbers, test, body, builder),
        StatementCase::Try(body, clauses, finally) => {
            lay_try(alloc, places, numbers, body, clauses, finally, builder)
        }
        StatementCase::With(manager, name, body) => {
            lay_with(alloc, places, numbers, manager, name, body, builder)
        }
        StatementCase::Assign(_, _)
        | StatementCase::Yield
        | StatementCase::YieldFrom(_, _)
        | StatementCase::Print(_)
        | StatementCase::Raise(_)
        | StatementCase::Return(_)
        | StatementCase::Pass => Ok(()),
    }
}

#[cycle(lay)]
fn lay_if(
    alloc: Global,
    places: &CoroutinePlaces,
    numbers: &Numbers,
    test: &Expr,
    body: &StatementList,
    otherwise: Option<&StatementList>,
    builder: &mut BodyBuilder,
) -> Result<(), Memory>
    ensures { OnOk result (Lays builder.old builder.new (λ code. Laid places.now code
        (numbered_statement numbers.now
        (If test.now (statements body.now) (plain_branch (option_copied otherwise.entry)))))) }
{
    let from = builder.next_place();
    builder.push_op(Op::Pass)?;
    lay_all(alloc, places, numbers, body.items(), builder)?;
    let place = builder.next_place() + 1;
    lay_else(alloc, places, numbers, otherwise, builder)?;
    let test = flat_expr(alloc, numbers, test)?;
    builder.put_op(
        from,
        Op::Test {
            test,
            otherwise: place,
        },
    );
    Ok(())
}

/// A jump past an `else`, and the `else`.
#[cycle(lay)]
fn lay_else(
    alloc: Global,
    places: &CoroutinePlaces,
    numbers: &Numbers,
    otherwise: Option<&StatementList>,
    builder: &mut BodyBuilder,
) -> Result<(), Memory>
    ensures { OnOk result (Lays builder.old builder.new (λ code. LaidElse places.now code
        (numbered_branch numbers.now (plain_branch (option_copied otherwise.entry))))) }
{
    let from = builder.next_place();
    builder.push_op(Op::Pass)?;
    lay_branch(alloc, places, numbers, otherwise, builder)?;
    let to = builder.next_place();
    builder.put_op(from, Op::Jump(to));
    Ok(())
}

#[cycle(lay)]
fn lay_while(
    alloc: Global,
    places: &CoroutinePlaces,
    numbers: &Numbers,
    test: &Expr,
    body: &StatementList,
    builder: &mut BodyBuilder,
) -> Result<(), Memory>
    ensures { OnOk result (Lays builder.old builder.new (λ code. Laid places.now code
        (numbered_statement numbers.now (While test.now (statements body.now))))) }
{
    let from = builder.next_place();
    builder.push_op(Op::Pass)?;
    lay_all(alloc, places, numbers, body.items(), builder)?;
    let last = builder.next_place();
    let test = flat_expr(alloc, numbers, test)?;
    builder.push_op(Op::Repeat {
        test,
        body: from + 1,
    })?;
    builder.put_op(from, Op::Jump(last));
    Ok(())
}

#[cycle(lay)]
fn lay_try(
    alloc: Global,
    places: &CoroutinePlaces,
    numbers: &Numbers,
    body: &StatementList,
    clauses: &[Handler],
    finally: Option<&StatementList>,
    builder: &mut BodyBuilder,
) -> Result<(), Memory>
    ensures { OnOk result (Lays builder.old builder.new (λ code. Laid places.now code
        (numbered_statement numbers.now
        (Try (statements body.now) (handlers clauses.now)
        (plain_branch (option_copied finally.entry)))))) }
{
    let from = builder.next_place();
    builder.push_op(Op::Pass)?;
    lay_all(alloc, places, numbers, body.items(), builder)?;
    builder.push_op(Op::Leave)?;
    let list = lay_handlers(alloc, places, numbers, clauses, builder)?;
    let place = builder.next_place();
    lay_branch(alloc, places, numbers, finally, builder)?;
    builder.push_op(Op::Resume)?;
    let number = builder.push_range(Range {
        clauses: ClauseList::of(list),
        finally: place,
    })?;
    builder.put_op(from, Op::Guard(number));
    Ok(())
}

#[cycle(lay)]
fn lay_with(
    alloc: Global,
    places: &CoroutinePlaces,
    numbers: &Numbers,
    manager: &Manager,
    name: &RcStr,
    body: &StatementList,
    builder: &mut BodyBuilder,
) -> Result<(), Memory>
    ensures { OnOk result (Lays builder.old builder.new (λ code. Laid places.now code
        (numbered_statement numbers.now
        (With (plain_manager manager.now) (rc_str_bytes name.now) (statements body.now))))) }
{
    let from = builder.next_place();
    builder.push_op(Op::Pass)?;
    lay_all(alloc, places, numbers, body.items(), builder)?;
    builder.push_op(Op::Leave)?;
    let place = builder.next_place();
    builder.push_op(exit_op(manager))?;
    builder.push_op(Op::Resume)?;
    let number = builder.push_range(Range {
        clauses: ClauseList::of(Vec::new(alloc)),
        finally: place,
    })?;
    let name = numbers.local_of(name.as_str());
    let enter = enter_op(alloc, numbers, manager, name, number)?;
    builder.put_op(from, enter);
    Ok(())
}

#[cycle(lay)]
fn lay_branch(
    alloc: Global,
    places: &CoroutinePlaces,
    numbers: &Numbers,
    branch: Option<&StatementList>,
    builder: &mut BodyBuilder,
) -> Result<(), Memory>
    ensures { OnOk result (Lays builder.old builder.new (λ code. LaidBranch places.now code
        (numbered_branch numbers.now (plain_branch (option_copied branch.entry))))) }
{
    match branch {
        Some(body) => lay_all(alloc, places, numbers, body.items(), builder),
        None => Ok(()),
    }
}

/// The clauses of a `try`, whose bodies stand one after another.
#[cycle(lay)]
fn lay_handlers(
    alloc: Global,
    places: &CoroutinePlaces,
    numbers: &Numbers,
    clauses: &[Handler],
    builder: &mut BodyBuilder,
) -> Result<Vec<Clause>, Memory>
    ensures { IfOk result (λ list. Grows (built builder.old) (built builder.new)
        (λ code. LaidHandlers places.now code list.items
        (numbered_handlers numbers.now (handlers clauses.now)))) }
{
    let mut list = Vec::new(alloc);
    for clause in clauses {
        list.push(lay_clause(alloc, places, numbers, clause, builder)?)?;
    }
    Ok(list)
}

#[cycle(lay)]
fn lay_clause(
    alloc: Global,
    places: &CoroutinePlaces,
    numbers: &Numbers,
    handler: &Handler,
    builder: &mut BodyBuilder,
) -> Result<Clause, Memory>
    ensures { IfOk result (λ clause. Grows (built builder.old) (built builder.new)
        (λ code. LaidClause places.now code clause (numbered_handler numbers.now handler.now))) }
{
    let at = builder.next_place();
    let name = local_in(numbers, handler.name());
    lay_all(alloc, places, numbers, handler.body().items(), builder)?;
    builder.push_op(Op::Leave)?;
    Ok(Clause {
        kind: handler.kind(),
        name,
        at,
    })
}
