//! The values of expressions, or the exceptions that stand in their place.
ghost use Rattle.std.specs.Prelude.{◌≡◌, IfOk};
ghost use Rattle.model_tree.specs.Syntax.{exprs};
ghost use Rattle.model_says.specs.Expressions.{value_of, values_of};

use aio_base::{Exc, Memory, Value, ValueList};
use aio_expr::{Env, ExprFault, FlatExpr};
use std::alloc::Global;

/// The value of an expression, or the exception that it raises.
pub fn value_of(alloc: Global, expr: &FlatExpr, env: &Env) -> Result<Result<Value, Exc>, Memory>
    ensures { IfOk result (λ given. given ≡ value_of expr.now env.now) }
{
    match aio_expr::value_of(alloc, expr, env) {
        Ok(value) => Ok(Ok(value)),
        Err(ExprFault::Raised(fault)) => Ok(Err(fault)),
        Err(ExprFault::Memory) => Err(Memory),
    }
}

/// The values of expressions in order, or the first exception.
pub fn values_of(
    alloc: Global,
    items: &[FlatExpr],
    env: &Env,
) -> Result<Result<ValueList, Exc>, Memory>
    ensures { IfOk result (λ given. given ≡ values_of (exprs items.now) env.now) }
{
    let mut found = Vec::new(alloc);
    for item in items {
        match value_of(alloc, item, env)? {
            Ok(value) => found.push(value)?,
            Err(fault) => return Ok(Err(fault)),
        }
    }
    Ok(Ok(ValueList::of(found)))
}
