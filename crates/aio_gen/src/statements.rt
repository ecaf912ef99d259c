//! Statements that were counted, and the exit of a `with`.
ghost use Rattle.std.specs.Prelude.{◌≡◌, ◌+◌, ◌<◌, ◌^◌, ℕ, IfOk, OnOk, ◌∷◌};
ghost use Rattle.algorithm_flat.specs.declared.op.Op.TheVariants as flat;
ghost use Rattle.algorithm_flat.specs.Ops.{CoroutineCode};
ghost use Rattle.algorithm_flat.specs.Moves.{by_test, raise_value, ask_exit, after_statement, at_next, with_handlers};
ghost use Rattle.algorithm_flat.specs.declared.open_handler.OpenHandler.TheVariants.{AtExit, InFinally};
ghost use Rattle.algorithm_flat.specs.Rests.{fault_of};
ghost use Rattle.model_says.specs.Operations.{bad_operand};
ghost use Rattle.aio_gen.specs.Plain.{plain_frames, plain_move, exit_request};

use crate::evaluate::{value_of, values_of};
use crate::frames::Frames;
use crate::types::{AnswerUse, Move, OpenHandler, Way};
use aio_base::{Exc, Kind, Memory, Request, Value, ValueCase, exception};
use aio_expr::{FlatExpr, FlatExprList, Local};
use std::alloc::Global;

impl Frames {
    /// `name = value`.
    #[inline(never)]
    pub fn assign(&mut self, alloc: Global, name: &Local, value: &FlatExpr) -> Result<Move, Memory>
        requires { self.old.frame.place + 1 < 2 ^ 64 }
        ensures { IfOk result (λ moving. (codes : ℕ → CoroutineCode) →
            plain_move moving self.new
            ≡ after_statement codes (flat.Assign name.now value.now) (plain_frames self.old)) }
    {
        match value_of(alloc, value, &self.frame.env)? {
            Ok(value) => {
                self.frame.env.assign(*name, value);
                self.frame.place += 1;
                Ok(Move::Goes(Way::Passing))
            }
            Err(fault) => Ok(Move::Goes(Way::Raising(fault))),
        }
    }

    /// `print items`: asks for it with the items' values.
    #[inline(never)]
    pub fn print(&mut self, alloc: Global, items: &FlatExprList) -> Result<Move, Memory>
        requires { self.old.frame.place + 1 < 2 ^ 64 }
        ensures { IfOk result (λ moving. (codes : ℕ → CoroutineCode) →
            plain_move moving self.new
            ≡ after_statement codes (flat.Print items.now) (plain_frames self.old)) }
    {
        match values_of(alloc, items.items(), &self.frame.env)? {
            Ok(values) => {
                self.frame.place += 1;
                Ok(Move::Asks(Request::Print(values), AnswerUse::Ignored))
            }
            Err(fault) => Ok(Move::Goes(Way::Raising(fault))),
        }
    }

    /// `raise fault`; TypeError where the value is no exception.
    #[inline(never)]
    pub fn raise(&mut self, alloc: Global, fault: &FlatExpr) -> Result<Move, Memory>
        ensures { IfOk result (λ moving. (codes : ℕ → CoroutineCode) →
            plain_move moving self.new
            ≡ after_statement codes (flat.Raise fault.now) (plain_frames self.old)) }
    {
        match value_of(alloc, fault, &self.frame.env)? {
            Ok(value) => self.raise_value(alloc, &value),
            Err(fault) => Ok(Move::Goes(Way::Raising(fault))),
        }
    }

    /// An exception is raised, and in the place of any other value a bad operand.
    fn raise_value(&self, alloc: Global, value: &Value) -> Result<Move, Memory>
        ensures { IfOk result
            (λ moving. plain_move moving self.now ≡ raise_value value.now (plain_frames self.now)) }
    {
        match value.case() {
            ValueCase::Exc(fault) => Ok(Move::Goes(Way::Raising(fault.clone()?))),
            _ => Ok(Move::Goes(Way::Raising(bad_operand(alloc)?))),
        }
    }

    /// `return value`, or `return`: on the way out `finally` parts and exits come first.
    #[inline(never)]
    pub fn return_value(&mut self, alloc: Global, value: &Option<FlatExpr>) -> Result<Move, Memory>
        ensures { IfOk result (λ moving. (codes : ℕ → CoroutineCode) →
            plain_move moving self.new
            ≡ after_statement codes (flat.Return value.now) (plain_frames self.old)) }
    {
        match value {
            Some(value) => match value_of(alloc, value, &self.frame.env)? {
                Ok(value) => Ok(Move::Goes(Way::Returning(value))),
                Err(fault) => Ok(Move::Goes(Way::Raising(fault))),
            },
            None => Ok(Move::Goes(Way::Returning(Value::nothing()))),
        }
    }

    /// The test of an `if`: where it is False, on at `otherwise`. TypeError where it is no Bool.
    #[inline(never)]
    pub fn test(&mut self, alloc: Global, test: &FlatExpr, otherwise: usize) -> Result<Move, Memory>
        requires { self.old.frame.place + 1 < 2 ^ 64 }
        ensures { IfOk result (λ moving. (codes : ℕ → CoroutineCode) →
            plain_move moving self.new
            ≡ after_statement codes (flat.Test test.now otherwise) (plain_frames self.old)) }
    {
        match value_of(alloc, test, &self.frame.env)? {
            Ok(value) => self.by_test(alloc, self.frame.place + 1, otherwise, &value),
            Err(fault) => Ok(Move::Goes(Way::Raising(fault))),
        }
    }

    /// The test of a `while`: where it is True, on at `body`. TypeError where it is no Bool.
    #[inline(never)]
    pub fn repeat(&mut self, alloc: Global, test: &FlatExpr, body: usize) -> Result<Move, Memory>
        requires { self.old.frame.place + 1 < 2 ^ 64 }
        ensures { IfOk result (λ moving. (codes : ℕ → CoroutineCode) →
            plain_move moving self.new
            ≡ after_statement codes (flat.Repeat test.now body) (plain_frames self.old)) }
    {
        match value_of(alloc, test, &self.frame.env)? {
            Ok(value) => self.by_test(alloc, body, self.frame.place + 1, &value),
            Err(fault) => Ok(Move::Goes(Way::Raising(fault))),
        }
    }

    /// To one place where a value is True, and to the other where it is False.
    fn by_test(
        &mut self,
        alloc: Global,
        on: usize,
        off: usize,
        value: &Value,
    ) -> Result<Move, Memory>
        ensures { IfOk result
            (λ moving. plain_move moving self.new
            ≡ by_test on off value.now (plain_frames self.old)) }
    {
        match value.case() {
            ValueCase::Bool(true) => {
                self.frame.place = on;
                Ok(Move::Goes(Way::Passing))
            }
            ValueCase::Bool(false) => {
                self.frame.place = off;
                Ok(Move::Goes(Way::Passing))
            }
            _ => Ok(Move::Goes(Way::Raising(bad_operand(alloc)?))),
        }
    }

    /// A `try` begins: its handlers are open from here.
    #[inline(never)]
    pub fn guard(&mut self, number: usize) -> Result<Move, Memory>
        requires { self.old.frame.place + 1 < 2 ^ 64 }
        ensures { IfOk result (λ moving. (codes : ℕ → CoroutineCode) →
            plain_move moving self.new
            ≡ after_statement codes (flat.Guard number) (plain_frames self.old)) }
    {
        self.frame.handlers.push(OpenHandler::InTry(number))?;
        self.frame.place += 1;
        Ok(Move::Goes(Way::Passing))
    }

    /// Asks to enter a `with group`.
    #[inline(never)]
    pub fn enter_group(&mut self, name: &Local, range: usize) -> Result<Move, Memory>
        requires { self.old.frame.place + 1 < 2 ^ 64 }
        ensures { IfOk result (λ moving. (codes : ℕ → CoroutineCode) →
            plain_move moving self.new
            ≡ after_statement codes (flat.EnterGroup name.now range) (plain_frames self.old)) }
    {
        let name = *name;
        self.frame.place += 1;
        Ok(Move::Asks(Request::GroupEnter, AnswerUse::Entered { name, range }))
    }

    /// Asks to enter a `with timeout(delay)`, with the delay's value.
    #[inline(never)]
    pub fn enter_timeout(
        &mut self,
        alloc: Global,
        delay: &FlatExpr,
        name: &Local,
        range: usize,
    ) -> Result<Move, Memory>
        requires { self.old.frame.place + 1 < 2 ^ 64 }
        ensures { IfOk result (λ moving. (codes : ℕ → CoroutineCode) → plain_move moving self.new
            ≡ after_statement codes (flat.EnterTimeout delay.now name.now range)
            (plain_frames self.old)) }
    {
        match value_of(alloc, delay, &self.frame.env)? {
            Ok(delay) => {
                let name = *name;
                self.frame.place += 1;
                Ok(Move::Asks(
                    Request::TimeoutEnter(delay),
                    AnswerUse::Entered { name, range },
                ))
            }
            Err(fault) => Ok(Move::Goes(Way::Raising(fault))),
        }
    }

    /// The request of an exit, after which the way out is taken as after a `finally`.
    #[inline(never)]
    pub fn ask_exit(&mut self, of_group: bool) -> Result<Move, Memory>
        requires { self.old.frame.place + 1 < 2 ^ 64 }
        ensures { IfOk result (λ moving. plain_move moving self.new
            ≡ ask_exit (exit_request of_group) (plain_frames self.old).frame.handlers
            (plain_frames self.old)) }
    {
        match self.frame.handlers.pop() {
            Some(handler) => self.ask_exit_of(of_group, handler),
            None => Ok(Move::Runaway),
        }
    }

    // The same, of the handler that was the innermost one.
    fn ask_exit_of(&mut self, of_group: bool, handler: OpenHandler) -> Result<Move, Memory>
        requires { self.old.frame.place + 1 < 2 ^ 64 }
        ensures { IfOk result (λ moving. plain_move moving self.new
            ≡ ask_exit (exit_request of_group) (handler ∷ (plain_frames self.old).frame.handlers)
            (plain_frames self.old)) }
    {
        match handler {
            OpenHandler::AtExit(entered, way) => self.leave(of_group, entered, way),
            OpenHandler::InTry(_)
            | OpenHandler::InClause(_)
            | OpenHandler::InFinally(_)
            | OpenHandler::InWith(_, _) => Ok(Move::Runaway),
        }
    }

    fn leave(&mut self, of_group: bool, entered: Value, way: Way) -> Result<Move, Memory>
        requires { self.old.frame.place + 1 < 2 ^ 64 }
        ensures { IfOk result (λ moving. plain_move moving self.new
            ≡ ask_exit (exit_request of_group)
            (AtExit entered way ∷ (plain_frames self.old).frame.handlers) (plain_frames self.old)) }
    {
        let fault = self.keep_way(way)?;
        let request = exit_request(of_group, entered, fault);
        Ok(Move::Asks(request, AnswerUse::Ignored))
    }

    // The next statement, with the way that is taken after it; and the exception of that way.
    fn keep_way(&mut self, way: Way) -> Result<Option<Exc>, Memory>
        requires { self.old.frame.place + 1 < 2 ^ 64 }
        ensures fault { IfOk result (λ fault. fault ≡ fault_of way) }
        ensures after { OnOk result (plain_frames self.new ≡ at_next (with_handlers
            (InFinally way ∷ (plain_frames self.old).frame.handlers) (plain_frames self.old))) }
    {
        let fault = fault_of(&way)?;
        self.push_way(way)?;
        Ok(fault)
    }

    fn push_way(&mut self, way: Way) -> Result<(), Memory>
        requires { self.old.frame.place + 1 < 2 ^ 64 }
        ensures { OnOk result (plain_frames self.new ≡ at_next (with_handlers
            (InFinally way ∷ (plain_frames self.old).frame.handlers) (plain_frames self.old))) }
    {
        self.frame.handlers.push(OpenHandler::InFinally(way))?;
        self.frame.place += 1;
        Ok(())
    }
}

/// The request of an exit, with the exception that leaves the body.
fn exit_request(of_group: bool, entered: Value, fault: Option<Exc>) -> Request
    ensures { result ≡ exit_request of_group entered fault }
{
    if of_group {
        Request::GroupExit {
            group: entered,
            fault,
        }
    } else {
        Request::TimeoutExit {
            timeout: entered,
            fault,
        }
    }
}

fn fault_of(way: &Way) -> Result<Option<Exc>, Memory>
    ensures { IfOk result (λ fault. fault ≡ fault_of way.now) }
{
    match way {
        Way::Raising(fault) => Ok(Some(fault.clone()?)),
        Way::Passing | Way::Returning(_) => Ok(None),
    }
}

fn bad_operand(alloc: Global) -> Result<Exc, Memory>
    ensures { IfOk result (λ exc. exc ≡ bad_operand) }
{
    exception(alloc, Kind::TypeError, "bad operand")
}
