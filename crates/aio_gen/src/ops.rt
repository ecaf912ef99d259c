//! Operations.
ghost use Rattle.std.specs.Prelude.{◌≡◌, ℕ, ◌+◌, ◌-◌, ◌<◌, ◌^◌, true, false, Some, IfOk};
ghost use Rattle.algorithm_flat.specs.Moves.{Goes, at_place, counted, after_statement, after_op, move_of};
ghost use Rattle.algorithm_flat.specs.Ops.{CoroutineCode};
ghost use Rattle.algorithm_flat.specs.declared.way.Way.TheVariants.{Passing};
ghost use Rattle.aio_flat.specs.Code.{codes_of, plain_body};
ghost use Rattle.aio_gen.specs.Plain.{plain_frames, plain_move};

use crate::frames::Frames;
use crate::types::{Move, Way};
use aio_base::{Memory, Value};
use aio_expr::{number_of, truth_of};
use aio_flat::{Code, FlatBody, Op};
use std::alloc::Global;

impl Frames {
    /// A statement that was counted.
    fn after_statement(&mut self, alloc: Global, code: &Code, op: &Op) -> Result<Move, Memory>
        requires { self.old.frame.place + 1 < 2 ^ 64 }
        ensures { IfOk result (λ moving. plain_move moving self.new
            ≡ after_statement (codes_of code.now) op.now (plain_frames self.old)) }
    {
        match op {
            Op::Assign { name, value } => self.assign(alloc, name, value),
            Op::Print(items) => self.print(alloc, items),
            Op::Raise(fault) => self.raise(alloc, fault),
            Op::Return(value) => self.return_value(alloc, value),
            Op::Pass => {
                self.frame.place += 1;
                Ok(Move::Goes(Way::Passing))
            }
            Op::Pause => Ok(self.pause()),
            Op::Await { into, name } => self.await_name(into, name),
            Op::Ask {
                into,
                request,
                arguments,
            } => self.ask(alloc, into, *request, arguments),
            Op::Spawn {
                into,
                coroutine,
                arguments,
            } => self.spawn(alloc, into, *coroutine, arguments),
            Op::Create {
                into,
                group,
                coroutine,
                arguments,
            } => self.create(alloc, into, group, *coroutine, arguments),
            Op::Listen {
                into,
                port,
                coroutine,
            } => self.listen(alloc, into, port, *coroutine),
            Op::Call {
                into,
                coroutine,
                arguments,
            } => self.call(alloc, code, into, *coroutine, arguments),
            Op::Test { test, otherwise } => self.test(alloc, test, *otherwise),
            Op::Repeat { test, body } => self.repeat(alloc, test, *body),
            Op::Guard(number) => self.guard(*number),
            Op::EnterGroup { name, range } => self.enter_group(name, *range),
            Op::EnterTimeout { delay, name, range } => {
                self.enter_timeout(alloc, delay, name, *range)
            }
            Op::Jump(_) | Op::ExitGroup | Op::ExitTimeout | Op::Leave | Op::Resume => {
                Ok(Move::Runaway)
            }
        }
    }

    /// A statement begins, if the step may have one more.
    fn counted(&mut self, alloc: Global, code: &Code, op: &Op) -> Result<Move, Memory>
        requires { self.old.frame.place + 1 < 2 ^ 64 }
        ensures { IfOk result (λ moving. plain_move moving self.new
            ≡ counted (plain_frames self.old).left (after_statement (codes_of code.now) op.now)
            (plain_frames self.old)) }
    {
        if self.left == 0 {
            return Ok(Move::Runaway);
        }
        self.left -= 1;
        self.after_statement(alloc, code, op)
    }

    #[inline(never)]
    fn after_op(
        &mut self,
        alloc: Global,
        code: &Code,
        body: &FlatBody,
        op: &Op,
    ) -> Result<Move, Memory>
        requires { self.old.frame.place + 1 < 2 ^ 64 }
        ensures { IfOk result (λ moving. plain_move moving self.new
            ≡ after_op (codes_of code.now) (plain_body body.now) (Some op.now)
            (plain_frames self.old)) }
    {
        match op {
            Op::Jump(to) => {
                self.frame.place = *to;
                Ok(Move::Goes(Way::Passing))
            }
            Op::Leave => self.way_out(body, Way::Passing),
            Op::Resume => Ok(self.after_finally()),
            Op::ExitGroup => self.ask_exit(true),
            Op::ExitTimeout => self.ask_exit(false),
            _ => self.counted(alloc, code, op),
        }
    }

    /// Does a statement of numbers alone, and tells whether it did. Where it did not, nothing
    /// changed. So most moves answer no more than a truth.
    #[inline(never)]
    fn does_plainly(&mut self, op: &Op) -> bool
        requires { self.old.frame.place + 1 < 2 ^ 64 }
        ensures done { result ≡ true → (codes : ℕ → CoroutineCode) (body : CoroutineCode) →
            after_op codes body (Some op.now) (plain_frames self.old)
            ≡ Goes Passing (plain_frames self.new) }
        ensures left { result ≡ false → self.new ≡ self.old }
    {
        if self.left == 0 {
            return false;
        }
        match op {
            Op::Assign { name, value } => match number_of(value, &self.frame.env) {
                Some(number) => {
                    self.frame.env.assign(*name, Value::int(number));
                    self.counted_to(self.frame.place + 1);
                    true
                }
                None => false,
            },
            Op::Test { test, otherwise } => match truth_of(test, &self.frame.env) {
                Some(on) => {
                    self.counted_to(if on { self.frame.place + 1 } else { *otherwise });
                    true
                }
                None => false,
            },
            Op::Repeat { test, body } => match truth_of(test, &self.frame.env) {
                Some(on) => {
                    self.counted_to(if on { *body } else { self.frame.place + 1 });
                    true
                }
                None => false,
            },
            _ => false,
        }
    }

    /// A statement was counted, and it goes on at a place.
    fn counted_to(&mut self, place: usize)
        requires { 0 < self.old.left }
        ensures { plain_frames self.new
            ≡ record (at_place place (plain_frames self.old)) { left = self.old.left - 1 } }
    {
        self.left -= 1;
        self.frame.place = place;
    }

    /// One move: an operation, or one open handler less.
    pub fn step(
        &mut self,
        alloc: Global,
        code: &Code,
        body: &FlatBody,
        way: Way,
    ) -> Result<Move, Memory>
        ensures { IfOk result (λ moving. plain_move moving self.new
            ≡ move_of (codes_of code.now) (plain_body body.now) way (plain_frames self.old)) }
    {
        match way {
            Way::Passing => match body.ops.get(self.frame.place) {
                Some(op) => {
                    if self.does_plainly(op) {
                        Ok(Move::Goes(Way::Passing))
                    } else {
                        self.after_op(alloc, code, body, op)
                    }
                }
                None => self.way_out(body, Way::Passing),
            },
            Way::Returning(value) => self.way_out(body, Way::Returning(value)),
            Way::Raising(fault) => self.way_out(body, Way::Raising(fault)),
        }
    }
}
