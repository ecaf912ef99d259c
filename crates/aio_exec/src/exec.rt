//! Jobs beside the loop: as they are asked for, as the outside answers, as they come to something,
//! and as their tasks go on.
ghost use Rattle.std.specs.Prelude.{◌≡◌, ◌<◌, ◌∷◌, [], None, true, IfOk, OnOk, bytes_eq, length};
ghost use Rattle.std.specs.Fmt.{decimal};
ghost use Rattle.std.specs.Option.{option_map};
ghost use Rattle.std.specs.Rc.{rc_slice_items};
ghost use Rattle.model_machine.specs.Extra.{MakesPlain, Waits};
ghost use Rattle.model_reach.specs.Part.{key_at, no_key};
ghost use Rattle.model_exec.specs.Execed as execed;
ghost use Rattle.model_exec.specs.Execed.{exec_part, none_execed, standing_at};
ghost use Rattle.model_exec.specs.Serving as serving;
ghost use Rattle.model_fields.specs.Fields.{numbered as plain_numbered};
ghost use Rattle.aio_task.specs.View.{View, parts as parts_of};
ghost use Rattle.aio_exec.specs.Keeps.{came_in};
ghost use Rattle.aio_exec.specs.Seen.{CallsSeen, Says, SaysSeen, are_free, kept_of, own_of};
ghost use Rattle.aio_exec.specs.Wants.{wanted_as};

use crate::jobs::Jobs;
use crate::requests::{Found, Requests};
use crate::said::{bad_argument, no_job, out_of_range, passed, strange_answer, unknown};
use crate::wanted::{JOB, Wanted, is_job, is_job_code, job_text, shaped};
use aio_base::{Input, Memory, Outcome, Value, ValueCase};
use aio_extra::Asked;
use aio_fields::numbered;
use aio_task::{FutureId, Parts};
use std::alloc::Global;
use std::rc::RcSlice;

/// What serves jobs beside the loop.
#[derive(Drop)]
pub struct Exec {
    pub requests: Requests,
    pub jobs: Jobs,
}

// Whether these bytes are a number in decimal.
fn is_decimal(alloc: Global, number: u64, bytes: &[u8]) -> Result<bool, Memory>
    ensures { IfOk result (λ same. same ≡ bytes_eq bytes.now (decimal number)) }
{
    let text = format!(in alloc; "{number}")?;
    let same = text.as_bytes() == bytes;
    drop(text);
    Ok(same)
}

// What came is the answer.
fn came_as(alloc: Global, came: Option<RcSlice<u8>>) -> Result<Asked, Memory>
    ensures { IfOk result (λ asked. Says asked
        (serving.came_as (option_map rc_slice_items came))) }
{
    match came {
        Some(bytes) => Ok(Asked::Answer(Value::bytes(bytes))),
        None => strange_answer(alloc),
    }
}

fn forget(_came: Option<RcSlice<u8>>) {}

impl Exec {
    /// Nothing was asked.
    pub fn new(alloc: Global) -> Exec
        ensures { kept_of result ≡ none_execed }
    {
        Exec {
            requests: Requests::new(alloc),
            jobs: Jobs::new(alloc),
        }
    }

    // The outside is asked, unless it is no job.
    fn ask_to(&mut self, alloc: Global, it: &Wanted<'_>) -> Result<Asked, Memory>
        requires room { key_at exec_part self.old.requests.drawn < no_key }
        ensures { IfOk result (λ asked. (v : View) → SaysSeen (kept_of self.new) v v asked
            (serving.asked_to (wanted_as it.now) (kept_of self.old))) }
    {
        if !is_job(it) {
            let raised = no_job(alloc)?;
            self.requests.draw();
            return Ok(raised);
        }
        let bytes = job_text(alloc, it)?;
        match self.requests.ask() {
            Ok(key) => Ok(Asked::Outside {
                code: JOB,
                bytes,
                key,
            }),
            Err(refused) => {
                drop(bytes);
                Err(refused)
            }
        }
    }

    /// A task's request.
    pub fn ask_for(&mut self, alloc: Global, code: i64, items: &[Value]) -> Result<Asked, Memory>
        ensures { IfOk result (λ asked. (v : View) → SaysSeen (kept_of self.new) v v asked
            (serving.asked code items.now (kept_of self.old))) }
    {
        if !is_job_code(code) {
            return unknown(alloc, code);
        }
        let Some(it) = shaped(items) else {
            return bad_argument(alloc);
        };
        if !self.requests.can_draw() {
            return out_of_range(alloc);
        }
        self.ask_to(alloc, &it)
    }

    // Whether the outside answered the number of the next job.
    fn is_next(&self, alloc: Global, value: &Value) -> Result<bool, Memory>
        ensures { IfOk result (λ is. is ≡ serving.is_next (kept_of self.now) value.now) }
    {
        match value.case() {
            ValueCase::Bytes(bytes) => is_decimal(alloc, self.jobs.accepted(), bytes.as_slice()),
            _ => Ok(false),
        }
    }

    // The outside did: the task waits on a future of its own.
    fn accepted(
        &mut self,
        alloc: Global,
        key: u64,
        place: u64,
        parts: &mut Parts,
    ) -> Result<Asked, Memory>
        requires idle { parts.old.called ≡ None }
        ensures { IfOk result (λ asked. SaysSeen (kept_of self.new) parts.old parts.new asked
            (execed.says (execed.accept place (execed.stand_on place
            (execed.Waiting (length parts.old.futures) None) (kept_of self.old)))
            (MakesPlain ∷ []) (Waits (length parts.old.futures) key))) }
    {
        let on = parts.new_plain(alloc)?;
        self.jobs.accept(place)?;
        self.requests.wait(place, on);
        Ok(Asked::Wait { on, key })
    }

    // What the outside answered.
    fn answered(
        &mut self,
        alloc: Global,
        key: u64,
        place: u64,
        input: Input,
        parts: &mut Parts,
    ) -> Result<Asked, Memory>
        requires idle { parts.old.called ≡ None }
        ensures { IfOk result (λ asked. SaysSeen (kept_of self.new) parts.old parts.new asked
            (serving.answered key place input (parts_of parts.old) (kept_of self.old))) }
    {
        match input {
            Input::Send(value) => {
                let next = self.is_next(alloc, &value);
                drop(value);
                if next? {
                    return self.accepted(alloc, key, place, parts);
                }
                forget(self.requests.end(place));
                strange_answer(alloc)
            }
            Input::Throw(refusal) => {
                forget(self.requests.end(place));
                Ok(Asked::Raise(refusal))
            }
        }
    }

    // The task goes on.
    fn waited(&mut self, alloc: Global, place: u64, input: Input) -> Result<Asked, Memory>
        ensures { IfOk result (λ asked. (v : View) → SaysSeen (kept_of self.new) v v asked
            (serving.waited place (came_in (standing_at place (kept_of self.old))) input
            (kept_of self.old))) }
    {
        let came = self.requests.end(place);
        match input {
            Input::Send(value) => {
                drop(value);
                came_as(alloc, came)
            }
            Input::Throw(fault) => {
                forget(came);
                Ok(Asked::Raise(fault))
            }
        }
    }

    /// What the wait of the request under the key at this place came to, or what the outside
    /// answered.
    pub fn woken(
        &mut self,
        alloc: Global,
        key: u64,
        place: u64,
        input: Input,
        parts: &mut Parts,
    ) -> Result<Asked, Memory>
        requires idle { parts.old.called ≡ None }
        ensures { IfOk result (λ asked. SaysSeen (kept_of self.new) parts.old parts.new asked
            (serving.woken (standing_at place (kept_of self.old)) key place input
            (parts_of parts.old) (kept_of self.old))) }
    {
        match self.requests.find(place) {
            Found::Nothing => Ok(passed(input)),
            Found::Asking => self.answered(alloc, key, place, input, parts),
            Found::Waiting => self.waited(alloc, place, input),
        }
    }

    // A request is given what its job came to, and its task is woken.
    fn give(&mut self, place: u64, came: RcSlice<u8>, parts: &mut Parts)
        requires idle { parts.old.called ≡ None }
        requires free { are_free parts.old.futures (own_of self.old) ≡ true }
        ensures { CallsSeen (kept_of self.new) parts.old parts.new
            (serving.given_to (standing_at place (kept_of self.old)) place (rc_slice_items came)
            (kept_of self.old)) }
    {
        if let Some(on) = self.requests.give(place, came) {
            let _was_pending = parts.resolve(on, Outcome::Value(Value::nothing()));
        }
    }

    /// News of a job. What is no number and a result, or names no job that goes on, is passed over.
    pub fn told(&mut self, alloc: Global, bytes: &[u8], parts: &mut Parts) -> Result<(), Memory>
        requires idle { parts.old.called ≡ None }
        requires free { are_free parts.old.futures (own_of self.old) ≡ true }
        ensures { OnOk result (CallsSeen (kept_of self.new) parts.old parts.new
            (serving.told (plain_numbered bytes.now) (kept_of self.old))) }
    {
        let Some((number, told)) = numbered(bytes) else {
            return Ok(());
        };
        let Some(place) = self.jobs.end(number) else {
            return Ok(());
        };
        let came = RcSlice::from_slice(alloc, told)?;
        self.give(place, came, parts);
        Ok(())
    }
}
