//! Ways out, through the innermost open handler or out of the frame.
ghost use Rattle.std.specs.Prelude.{◌≡◌, ◌+◌, ◌<◌, ◌^◌, Some, slice_get, IfOk, option_copied};
ghost use Rattle.algorithm_flat.specs.Moves.{with_variable, out_of_frame, clause_for, clauses_in, into_finally, into_clause, to_exit, way_out, after_finally};
ghost use Rattle.aio_flat.specs.Code.{plain_body};
ghost use Rattle.aio_gen.specs.Plain.{plain_frames, plain_move};

use crate::frames::Frames;
use crate::types::{Move, OpenHandler, Way};
use aio_base::{Exc, Memory, Value, kind_matches};
use aio_expr::Local;
use aio_flat::{Clause, FlatBody, Range};
use std::mem;

impl Frames {
    /// A variable holds the value, where there is one.
    pub fn set_variable(&mut self, name: &Option<Local>, value: Value)
        ensures { plain_frames self.new ≡ with_variable name.now value (plain_frames self.old) }
    {
        if let Some(name) = name {
            self.frame.env.assign(*name, value);
        }
    }

    /// Out of the frame, which is let go.
    fn out_of_frame(&mut self, way: Way) -> Move
        ensures { plain_move result self.new ≡ out_of_frame way (plain_frames self.old) }
    {
        match self.callers.pop() {
            Some(caller) => {
                let callee = mem::replace(&mut self.frame, caller);
                match way {
                    Way::Passing => {
                        self.set_variable(&callee.into, Value::nothing());
                        Move::Goes(Way::Passing)
                    }
                    Way::Returning(value) => {
                        self.set_variable(&callee.into, value);
                        Move::Goes(Way::Passing)
                    }
                    Way::Raising(fault) => Move::Goes(Way::Raising(fault)),
                }
            }
            None => match way {
                Way::Passing => Move::Returns(Value::nothing()),
                Way::Returning(value) => Move::Returns(value),
                Way::Raising(fault) => Move::Raises(fault),
            },
        }
    }

    /// Into the `finally` of a range, which keeps the way out.
    fn into_finally(&mut self, body: &FlatBody, way: Way, number: usize) -> Result<Move, Memory>
        ensures { IfOk result (λ moving. plain_move moving self.new
            ≡ into_finally way (plain_frames self.old).frame.handlers
            (slice_get (plain_body body.now).ranges number) (plain_frames self.old)) }
    {
        match range_at(body.ranges.as_slice(), number) {
            Some(range) => {
                self.frame.handlers.push(OpenHandler::InFinally(way))?;
                self.frame.place = range.finally;
                Ok(Move::Goes(Way::Passing))
            }
            None => Ok(Move::Runaway),
        }
    }

    /// To the exit of a `with`, which keeps the way out.
    fn to_exit(
        &mut self,
        body: &FlatBody,
        way: Way,
        entered: Value,
        number: usize,
    ) -> Result<Move, Memory>
        ensures { IfOk result (λ moving. plain_move moving self.new
            ≡ to_exit way entered (plain_frames self.old).frame.handlers
            (slice_get (plain_body body.now).ranges number) (plain_frames self.old)) }
    {
        match range_at(body.ranges.as_slice(), number) {
            Some(range) => {
                self.frame.handlers.push(OpenHandler::AtExit(entered, way))?;
                self.frame.place = range.finally;
                Ok(Move::Goes(Way::Passing))
            }
            None => Ok(Move::Runaway),
        }
    }

    /// Into the first clause of a range that takes the exception, or past all of them.
    fn into_clause(&mut self, body: &FlatBody, fault: Exc, number: usize) -> Result<Move, Memory>
        ensures { IfOk result (λ moving. plain_move moving self.new
            ≡ into_clause fault number (plain_frames self.old).frame.handlers
            (clause_for fault (clauses_in (slice_get (plain_body body.now).ranges number)))
            (plain_frames self.old)) }
    {
        self.frame.handlers.push(OpenHandler::InClause(number))?;
        match clause_in(range_at(body.ranges.as_slice(), number), &fault) {
            Some(clause) => {
                self.frame.place = clause.at;
                self.set_variable(&clause.name, Value::exc(fault));
                Ok(Move::Goes(Way::Passing))
            }
            None => Ok(Move::Goes(Way::Raising(fault))),
        }
    }

    /// Out through the innermost open handler, or out of the frame.
    #[inline(never)]
    pub fn way_out(&mut self, body: &FlatBody, way: Way) -> Result<Move, Memory>
        ensures { IfOk result (λ moving. plain_move moving self.new
            ≡ way_out (plain_body body.now) way (plain_frames self.old).frame.handlers
            (plain_frames self.old)) }
    {
        match self.frame.handlers.pop() {
            None => Ok(self.out_of_frame(way)),
            Some(OpenHandler::InTry(number)) => match way {
                Way::Raising(fault) => self.into_clause(body, fault, number),
                Way::Returning(value) => self.into_finally(body, Way::Returning(value), number),
                Way::Passing => self.into_finally(body, Way::Passing, number),
            },
            Some(OpenHandler::InClause(number)) => self.into_finally(body, way, number),
            Some(OpenHandler::InFinally(_)) => Ok(Move::Goes(way)),
            Some(OpenHandler::InWith(number, entered)) => {
                self.to_exit(body, way, entered, number)
            }
            Some(OpenHandler::AtExit(_, _)) => Ok(Move::Goes(way)),
        }
    }

    /// The way out that a `finally` kept.
    pub fn after_finally(&mut self) -> Move
        requires { self.old.frame.place + 1 < 2 ^ 64 }
        ensures { plain_move result self.new
            ≡ after_finally (plain_frames self.old).frame.handlers (plain_frames self.old) }
    {
        match self.frame.handlers.pop() {
            Some(OpenHandler::InFinally(way)) => {
                self.frame.place += 1;
                Move::Goes(way)
            }
            _ => Move::Runaway,
        }
    }
}

fn range_at(ranges: &[Range], number: usize) -> Option<&Range>
    ensures { option_copied result ≡ slice_get ranges.now number }
{
    ranges.get(number)
}

/// The first clause of a range that takes the exception.
fn clause_in<'a>(range: Option<&'a Range>, fault: &Exc) -> Option<&'a Clause>
    ensures { option_copied result ≡ clause_for fault.now (clauses_in (option_copied range.entry)) }
{
    match range {
        Some(range) => clause_for(range.clauses.items(), fault),
        None => None,
    }
}

fn clause_for<'a>(clauses: &'a [Clause], fault: &Exc) -> Option<&'a Clause>
    ensures { option_copied result ≡ clause_for fault.now clauses.now }
{
    for clause in clauses {
        if kind_matches(clause.kind, fault) {
            return Some(clause);
        }
    }
    None
}
