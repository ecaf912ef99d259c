//! Statements that are a single operation, and the operations of a `with`.
ghost use Rattle.std.specs.Prelude.{◌≡◌, IfOk};
ghost use Rattle.algorithm_flat.specs.Laid.{enter_op, exit_op};
ghost use Rattle.algorithm_locals.specs.Numbered.{numbered_statement, numbered_manager};
ghost use Rattle.aio_program.specs.Target.{plain_manager};
ghost use Rattle.aio_flat.specs.Built.{single_op};

use crate::body::Op;
use crate::exprs::{flat_expr, flat_exprs};
use crate::numbers::Numbers;
use crate::places::CoroutinePlaces;
use crate::target::{local_in, target_op};
use aio_base::Memory;
use aio_expr::Local;
use aio_program::{Manager, Statement, StatementCase};
use std::alloc::Global;

/// The operation of a statement that is a single one.
#[tactic(auto, using(crate::proofs::Rows::numbered_list))]
pub fn single_op(
    alloc: Global,
    places: &CoroutinePlaces,
    numbers: &Numbers,
    statement: &Statement,
) -> Result<Option<Op>, Memory>
    ensures { IfOk result (λ op.
        op ≡ single_op places.now (numbered_statement numbers.now statement.now)) }
{
    match statement.case() {
        StatementCase::Assign(name, value) => Ok(Some(Op::Assign {
            name: numbers.local_of(name.as_str()),
            value: flat_expr(alloc, numbers, value)?,
        })),
        StatementCase::Yield => Ok(Some(Op::Pause)),
        StatementCase::YieldFrom(into, target) => {
            let into = local_in(numbers, into);
            Ok(Some(target_op(alloc, places, numbers, into, target)?))
        }
        StatementCase::Print(items) => {
            let items = flat_exprs(alloc, numbers, items.items())?;
            Ok(Some(Op::Print(items)))
        }
        StatementCase::Raise(fault) => Ok(Some(Op::Raise(flat_expr(alloc, numbers, fault)?))),
        StatementCase::Return(None) => Ok(Some(Op::Return(None))),
        StatementCase::Return(Some(value)) => {
            let value = flat_expr(alloc, numbers, value)?;
            Ok(Some(Op::Return(Some(value))))
        }
        StatementCase::Pass => Ok(Some(Op::Pass)),
        StatementCase::If(_, _, _)
        | StatementCase::While(_, _)
        | StatementCase::Try(_, _, _)
        | StatementCase::With(_, _, _) => Ok(None),
    }
}

/// The operation that enters a `with`, whose body a range covers.
pub fn enter_op(
    alloc: Global,
    numbers: &Numbers,
    manager: &Manager,
    name: Local,
    range: usize,
) -> Result<Op, Memory>
    ensures { IfOk result (λ op.
        op ≡ enter_op (numbered_manager numbers.now (plain_manager manager.now)) name range) }
{
    match manager {
        Manager::Group => Ok(Op::EnterGroup { name, range }),
        Manager::Timeout(delay) => Ok(Op::EnterTimeout {
            delay: flat_expr(alloc, numbers, delay)?,
            name,
            range,
        }),
    }
}

/// The operation at the exit of a `with`.
pub fn exit_op(manager: &Manager) -> Op
    ensures { result ≡ exit_op (plain_manager manager.now) }
{
    match manager {
        Manager::Group => Op::ExitGroup,
        Manager::Timeout(_) => Op::ExitTimeout,
    }
}
