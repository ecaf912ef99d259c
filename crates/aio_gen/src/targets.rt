//! `yield from`, but for calls.
ghost use Rattle.std.specs.Prelude.{◌≡◌, ◌+◌, ◌<◌, ◌^◌, ℕ, IfOk};
ghost use Rattle.algorithm_flat.specs.declared.op.Op.TheVariants as flat;
ghost use Rattle.algorithm_flat.specs.Ops.{CoroutineCode};
ghost use Rattle.algorithm_flat.specs.Moves.{ask_into, after_statement};
ghost use Rattle.aio_gen.specs.Plain.{plain_frames, plain_move};

use crate::evaluate::{value_of, values_of};
use crate::frames::Frames;
use crate::requests::requested;
use crate::types::{AnswerUse, Move, Way};
use aio_base::{Memory, Request, ValueList};
use aio_expr::{FlatExpr, FlatExprList, Local};
use aio_syntax::RequestName;
use std::alloc::Global;

impl Frames {
    /// A request whose answer a variable holds, where there is one.
    fn ask_into(&mut self, into: &Option<Local>, request: Request) -> Result<Move, Memory>
        requires { self.old.frame.place + 1 < 2 ^ 64 }
        ensures { IfOk result
            (λ moving. plain_move moving self.new
            ≡ ask_into into.now request (plain_frames self.old)) }
    {
        let into = *into;
        self.frame.place += 1;
        Ok(Move::Asks(request, AnswerUse::AssignedTo(into)))
    }

    /// A bare `yield`.
    pub fn pause(&mut self) -> Move
        requires { self.old.frame.place + 1 < 2 ^ 64 }
        ensures { (codes : ℕ → CoroutineCode) → plain_move result self.new
            ≡ after_statement codes flat.Pause (plain_frames self.old) }
    {
        self.frame.place += 1;
        Move::Asks(Request::Pause, AnswerUse::Ignored)
    }

    /// What a variable holds is awaited.
    #[inline(never)]
    pub fn await_name(&mut self, into: &Option<Local>, name: &Local) -> Result<Move, Memory>
        requires { self.old.frame.place + 1 < 2 ^ 64 }
        ensures { IfOk result (λ moving. (codes : ℕ → CoroutineCode) →
            plain_move moving self.new
            ≡ after_statement codes (flat.Await into.now name.now) (plain_frames self.old)) }
    {
        let awaited = self.frame.env.held(*name)?;
        self.ask_into(into, Request::Await(awaited))
    }

    /// Asks a request whose arguments are all values, once they are evaluated.
    #[inline(never)]
    pub fn ask(
        &mut self,
        alloc: Global,
        into: &Option<Local>,
        request: RequestName,
        arguments: &FlatExprList,
    ) -> Result<Move, Memory>
        requires { self.old.frame.place + 1 < 2 ^ 64 }
        ensures { IfOk result (λ moving. (codes : ℕ → CoroutineCode) → plain_move moving self.new
            ≡ after_statement codes (flat.Ask into.now request arguments.now)
            (plain_frames self.old)) }
    {
        match values_of(alloc, arguments.items(), &self.frame.env)? {
            Ok(values) => match requested(alloc, request, values.items())? {
                Ok(request) => self.ask_into(into, request),
                Err(fault) => Ok(Move::Goes(Way::Raising(fault))),
            },
            Err(fault) => Ok(Move::Goes(Way::Raising(fault))),
        }
    }

    /// Asks for a task of a coroutine, with the values of its arguments.
    #[inline(never)]
    pub fn spawn(
        &mut self,
        alloc: Global,
        into: &Option<Local>,
        coroutine: u32,
        arguments: &FlatExprList,
    ) -> Result<Move, Memory>
        requires { self.old.frame.place + 1 < 2 ^ 64 }
        ensures { IfOk result (λ moving. (codes : ℕ → CoroutineCode) → plain_move moving self.new
            ≡ after_statement codes (flat.Spawn into.now coroutine arguments.now)
            (plain_frames self.old)) }
    {
        match values_of(alloc, arguments.items(), &self.frame.env)? {
            Ok(arguments) => self.ask_into(
                into,
                Request::Spawn {
                    coroutine,
                    arguments,
                },
            ),
            Err(fault) => Ok(Move::Goes(Way::Raising(fault))),
        }
    }

    /// Asks for a task of a group, with the values of its arguments.
    #[inline(never)]
    pub fn create(
        &mut self,
        alloc: Global,
        into: &Option<Local>,
        group: &FlatExpr,
        coroutine: u32,
        arguments: &FlatExprList,
    ) -> Result<Move, Memory>
        requires { self.old.frame.place + 1 < 2 ^ 64 }
        ensures { IfOk result (λ moving. (codes : ℕ → CoroutineCode) → plain_move moving self.new
            ≡ after_statement codes (flat.Create into.now group.now coroutine arguments.now)
            (plain_frames self.old)) }
    {
        match value_of(alloc, group, &self.frame.env)? {
            Ok(group) => match values_of(alloc, arguments.items(), &self.frame.env)? {
                Ok(arguments) => self.ask_into(
                    into,
                    Request::Create {
                        group,
                        coroutine,
                        arguments,
                    },
                ),
                Err(fault) => Ok(Move::Goes(Way::Raising(fault))),
            },
            Err(fault) => Ok(Move::Goes(Way::Raising(fault))),
        }
    }

    /// Asks for a listener on a port, with its handler.
    #[inline(never)]
    pub fn listen(
        &mut self,
        alloc: Global,
        into: &Option<Local>,
        port: &FlatExpr,
        coroutine: u32,
    ) -> Result<Move, Memory>
        requires { self.old.frame.place + 1 < 2 ^ 64 }
        ensures { IfOk result (λ moving. (codes : ℕ → CoroutineCode) → plain_move moving self.new
            ≡ after_statement codes (flat.Listen into.now port.now coroutine)
            (plain_frames self.old)) }
    {
        match value_of(alloc, port, &self.frame.env)? {
            Ok(port) => self.ask_into(into, Request::Listen { port, coroutine }),
            Err(fault) => Ok(Move::Goes(Way::Raising(fault))),
        }
    }
}
