//! Four parts that serve requests: which of them serves one, by its code, and by the key that a
//! part drew.
ghost use Rattle.std.specs.Prelude.{◌≡◌, true, None, IfOk, OnOk, is_some};
ghost use Rattle.model_loop.specs.Parts as plain;
ghost use Rattle.model_machine.specs.Extra.{unknown_code};
ghost use Rattle.model_reach.specs.Reach.{part_of_code, part_of_hundred};
ghost use Rattle.aio_task.specs.Keeps.{NameMap};
ghost use Rattle.aio_extra.specs.Called.{MayAsk, MayServe};
ghost use Rattle.aio_reach.specs.Called.{Acts, Asks, Hears, Wakes};
ghost use Rattle.aio_reach.specs.Fours.{AreKeyed, FourKept, four_added};

use aio_base::{Input, Kind, Memory, Value, exception};
use aio_extra::{Asked, Extra};
use aio_task::{FutureId, Parts};
use std::alloc::Global;

/// Four parts: 100 to 199 wait for several futures, 200 to 299 are locks, events and queues, 300 to
/// 399 jobs beside the loop, and 400 to 499 datagrams. Each draws each fourth key.
#[derive(Drop)]
pub struct Four<A, B, C, D> {
    pub gather: A,
    pub sync: B,
    pub exec: C,
    pub dgram: D,
}

fn hundred_of(code: i64) -> u64
    ensures { part_of_code code ≡ part_of_hundred result }
{
    if code < 0 {
        return 0;
    }
    code as u64 / 100
}

fn unknown(alloc: Global, code: i64) -> Result<Asked, Memory>
    ensures { IfOk result (λ asked. asked ≡ Asked.Raise (unknown_code code)) }
{
    let text = format!(in alloc; "extra {code}")?;
    let fault = exception(alloc, Kind::NameError, text.as_str());
    drop(text);
    Ok(Asked::Raise(fault?))
}

impl<A: Extra, B: Extra, C: Extra, D: Extra> Four<A, B, C, D> {
    /// A task's request goes to the part of its code. What is no part's code raises NameError.
    pub(crate) fn ask_part(
        &mut self,
        alloc: Global,
        task: u32,
        code: i64,
        arguments: &Value,
        futures: &[FutureId],
        parts: &mut Parts,
    ) -> Result<Asked, Memory>
        requires { (keyed : AreKeyed A.added B.added C.added D.added)
            × MayAsk (four_added A.added B.added C.added D.added keyed) task futures.now
            arguments.now self.old parts.old }
        ensures { (keyed : AreKeyed A.added B.added C.added D.added)
            → IfOk result (λ asked. Asks (four_added A.added B.added C.added D.added keyed)
            self.old self.new parts.old parts.new task code futures.now arguments.now asked) }
    {
        let hundred = hundred_of(code);
        if hundred == 1 {
            return self
                .gather
                .ask(alloc, task, code, arguments, futures, parts);
        }
        if hundred == 2 {
            return self.sync.ask(alloc, task, code, arguments, futures, parts);
        }
        if hundred == 3 {
            return self.exec.ask(alloc, task, code, arguments, futures, parts);
        }
        if hundred == 4 {
            return self.dgram.ask(alloc, task, code, arguments, futures, parts);
        }
        unknown(alloc, code)
    }

    /// What a wait came to goes to the part that drew its key.
    pub(crate) fn wake_part(
        &mut self,
        alloc: Global,
        key: u64,
        input: Input,
        parts: &mut Parts,
    ) -> Result<Asked, Memory>
        requires runs { is_some parts.old.running ≡ true }
        requires serves { (keyed : AreKeyed A.added B.added C.added D.added)
            × MayServe (four_added A.added B.added C.added D.added keyed) parts.old.running
            self.old parts.old }
        ensures { (keyed : AreKeyed A.added B.added C.added D.added)
            → IfOk result (λ asked. Wakes (four_added A.added B.added C.added D.added keyed)
            self.old self.new parts.old parts.new key input asked) }
    {
        let part = key % 4;
        if part == 0 {
            return self.gather.wake(alloc, key, input, parts);
        }
        if part == 1 {
            return self.sync.wake(alloc, key, input, parts);
        }
        if part == 2 {
            return self.exec.wake(alloc, key, input, parts);
        }
        self.dgram.wake(alloc, key, input, parts)
    }

    /// A handle runs in the part that drew its key.
    pub(crate) fn act_part(
        &mut self,
        alloc: Global,
        key: u64,
        parts: &mut Parts,
    ) -> Result<(), Memory>
        requires { (keyed : AreKeyed A.added B.added C.added D.added)
            × MayServe (four_added A.added B.added C.added D.added keyed) None self.old
            parts.old }
        ensures { (keyed : AreKeyed A.added B.added C.added D.added)
            → OnOk result (Acts (four_added A.added B.added C.added D.added keyed)
            self.old self.new parts.old parts.new key) }
    {
        let part = key % 4;
        if part == 0 {
            return self.gather.act(alloc, key, parts);
        }
        if part == 1 {
            return self.sync.act(alloc, key, parts);
        }
        if part == 2 {
            return self.exec.act(alloc, key, parts);
        }
        self.dgram.act(alloc, key, parts)
    }

    /// News of the outside goes to the part of its code. What is no part's code is let go.
    pub(crate) fn hear_part(
        &mut self,
        alloc: Global,
        code: i64,
        bytes: &[u8],
        parts: &mut Parts,
    ) -> Result<(), Memory>
        requires { (keyed : AreKeyed A.added B.added C.added D.added)
            × MayServe (four_added A.added B.added C.added D.added keyed) None self.old
            parts.old }
        ensures { (keyed : AreKeyed A.added B.added C.added D.added)
            → OnOk result (Hears (four_added A.added B.added C.added D.added keyed)
            self.old self.new parts.old parts.new code bytes.now) }
    {
        let hundred = hundred_of(code);
        if hundred == 1 {
            return self.gather.item(alloc, code, bytes, parts);
        }
        if hundred == 2 {
            return self.sync.item(alloc, code, bytes, parts);
        }
        if hundred == 3 {
            return self.exec.item(alloc, code, bytes, parts);
        }
        if hundred == 4 {
            return self.dgram.item(alloc, code, bytes, parts);
        }
        Ok(())
    }

    /// Whether a part waits for news of the outside.
    pub(crate) fn watches_any(&self) -> bool
        ensures { (keyed : AreKeyed A.added B.added C.added D.added) (t : NameMap)
            (p : plain.Parts) (kept : FourKept A.added B.added C.added D.added)
            → (four_added A.added B.added C.added D.added keyed).stands t p self.now kept
            → result ≡ (four_added A.added B.added C.added D.added keyed).meaning.watches kept }
    {
        self.gather.watches() || self.sync.watches() || self.exec.watches() || self.dgram.watches()
    }
}
