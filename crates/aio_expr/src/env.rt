//! The variables of a coroutine.
ghost use Rattle.std.specs.Prelude.{◌≡◌, IfOk, IfSome, slice_set};
ghost use Rattle.model_value.specs.Value.{Int};
ghost use Rattle.model_says.specs.Variables.{held, assigned};
ghost use Rattle.algorithm_locals.specs.Numbered.{holding};
ghost use Rattle.aio_expr.specs.Values.{value_in};

use crate::local::Local;
use aio_base::{Value, ValueCase};
use std::alloc::AllocError;
use std::marker::Model;

/// The variables of a coroutine with their values, by their numbers. One that nothing was assigned
/// to yet holds None. Contracts see them as a list.
#[derive(Drop)]
pub struct Env {
    values: Vec<Value>,
}

impl Model for Env {
    ghost use Rattle.std.specs.Prelude.{List};
    ghost use Rattle.model_says.specs.Variables as variables;
    ghost use Rattle.aio_expr.specs.BindingCode.{coded_env};
    ghost use Rattle.algorithm_locals.specs.Numbered.{holding};

    ghost Value = { List variables.Binding };

    ghost coded = { coded_env };

    ghost view = { λ a. holding 0 a.values.items };
}

impl Env {
    /// Variables with these values, numbered in order.
    pub fn of(values: Vec<Value>) -> Env
        ensures { result ≡ holding 0 values.items }
    {
        Env { values }
    }

    /// What a variable holds, or None where there is none.
    pub fn held(&self, local: Local) -> Result<Value, AllocError>
        ensures { IfOk result (λ value. value ≡ held self.now local) }
    {
        held_in(self.values.as_slice(), local)
    }

    /// The number that a variable holds; None where it holds anything else.
    pub fn number(&self, local: Local) -> Option<i64>
        ensures { IfSome result (λ number. held self.now local ≡ Int number) }
    {
        number_held_in(self.values.as_slice(), local)
    }

    /// A variable holds the value from now on. Where there is none, nothing changes.
    pub fn assign(&mut self, local: Local, value: Value)
        ensures { self.new ≡ assigned local value self.old }
    {
        assign_in(self.values.as_mut_slice(), local, value);
    }
}

fn held_in(values: &[Value], local: Local) -> Result<Value, AllocError>
    ensures { IfOk result (λ value. value ≡ held (holding 0 values.now) local) }
{
    value_in(values, local.number())
}

fn value_in(values: &[Value], number: usize) -> Result<Value, AllocError>
    ensures { IfOk result (λ value. value ≡ value_in values.now number) }
{
    match values.get(number) {
        Some(value) => Ok(value.clone()?),
        None => Ok(Value::nothing()),
    }
}

fn number_held_in(values: &[Value], local: Local) -> Option<i64>
    ensures { IfSome result (λ number. held (holding 0 values.now) local ≡ Int number) }
{
    number_in(values, local.number())
}

fn number_in(values: &[Value], number: usize) -> Option<i64>
    ensures { IfSome result (λ found. value_in values.now number ≡ Int found) }
{
    match values.get(number) {
        Some(value) => number_of(value),
        None => None,
    }
}

fn number_of(value: &Value) -> Option<i64>
    ensures { IfSome result (λ number. value.now ≡ Int number) }
{
    match value.case() {
        ValueCase::Int(number) => Some(number),
        _ => None,
    }
}

fn assign_in(values: &mut [Value], local: Local, value: Value)
    ensures { holding 0 values.new ≡ assigned local value (holding 0 values.old) }
{
    set_in(values, local.number(), value);
}

fn set_in(values: &mut [Value], number: usize, value: Value)
    ensures { values.new ≡ slice_set values.old number value }
{
    if number < values.len() {
        values[number] = value;
    }
}
