//! Locks, events and queues serve requests.
ghost use Rattle.std.specs.Prelude.{◌≡◌, ◌<◌, List, None, Some, true, IfOk, is_some};
ghost use Rattle.model_value.specs.Value.{Value as AnyValue};
ghost use Rattle.model_machine.specs.Arguments.{as_list};
ghost use Rattle.model_reach.specs.Part.{drawing, key_at, no_key};
ghost use Rattle.model_sync.specs.Synced.{sync_part};
ghost use Rattle.model_sync.specs.Serving.{asked_for, served, wanted_of};
ghost use Rattle.aio_task.specs.View.{parts as parts_of};
ghost use Rattle.aio_sync.specs.Seen.{SaysSeen, kept_of, own_of};
ghost use Rattle.aio_sync.specs.Wants.{numbered_as, wanted_as};
ghost use Rattle.aio_sync.specs.Woken.{are_free};

use crate::number::{bad_argument, out_of_range, place_of, unknown};
use crate::requests::Sync;
use crate::wanted::{Numbered, Wanted, shape_of, shaped};
use aio_base::{Input, Memory, Value, ValueCase};
use aio_extra::{Asked, Extra};
use aio_task::{FutureId, Parts};
use std::alloc::Global;

fn items_in(list: &Value) -> &[Value]
    requires { is_some (as_list list.now) ≡ true }
    ensures { as_list list.now ≡ Some result.now }
{
    match list.case() {
        ValueCase::List(items) => items.items(),
        _ => &[],
    }
}

fn forget(_wanted: Wanted) {}

impl Sync {
    fn serve_numbered(
        &mut self,
        alloc: Global,
        wanted: Numbered,
        number: i64,
        parts: &mut Parts,
    ) -> Result<Asked, Memory>
        requires idle { parts.old.called ≡ None }
        requires free { are_free parts.old.futures (own_of self.old) ≡ true }
        requires room { key_at sync_part self.old.keys.drawn < no_key }
        ensures { IfOk result (λ asked. SaysSeen (kept_of self.new) parts.old parts.new asked
            (served (numbered_as wanted number) (parts_of parts.old) (kept_of self.old))) }
    {
        match wanted {
            Numbered::Acquire => self.acquire(alloc, number, parts),
            Numbered::Release => self.release(alloc, number, parts),
            Numbered::IsLocked => self.is_locked(alloc, number, parts),
            Numbered::Set => self.set(alloc, number, parts),
            Numbered::Clear => self.clear(alloc, number, parts),
            Numbered::IsSet => self.is_set(alloc, number, parts),
            Numbered::Wait => self.wait(alloc, number, parts),
            Numbered::MakesQueue => self.make_queue(alloc, number, parts),
            Numbered::Get => self.get(alloc, number, parts),
            Numbered::Size => self.size(alloc, number, parts),
        }
    }

    fn serve(&mut self, alloc: Global, wanted: Wanted, parts: &mut Parts) -> Result<Asked, Memory>
        requires idle { parts.old.called ≡ None }
        requires free { are_free parts.old.futures (own_of self.old) ≡ true }
        requires room { key_at sync_part self.old.keys.drawn < no_key }
        ensures { IfOk result (λ asked. SaysSeen (kept_of self.new) parts.old parts.new asked
            (served (wanted_as wanted) (parts_of parts.old) (kept_of self.old))) }
    {
        match wanted {
            Wanted::MakesLock => self.make_lock(alloc, parts),
            Wanted::MakesEvent => self.make_event(alloc, parts),
            Wanted::Put(number, value) => self.put(alloc, number, value, parts),
            Wanted::Of(numbered, number) => self.serve_numbered(alloc, numbered, number, parts),
        }
    }

    // It is served where a key can be drawn.
    fn serve_if_room(
        &mut self,
        alloc: Global,
        wanted: Wanted,
        parts: &mut Parts,
    ) -> Result<Asked, Memory>
        requires idle { parts.old.called ≡ None }
        requires free { are_free parts.old.futures (own_of self.old) ≡ true }
        ensures { IfOk result (λ asked. SaysSeen (kept_of self.new) parts.old parts.new asked
            (drawing sync_part self.old.keys.drawn 1 (served (wanted_as wanted)
            (parts_of parts.old) (kept_of self.old)) (kept_of self.old))) }
    {
        if self.keys.can_draw() {
            return self.serve(alloc, wanted, parts);
        }
        forget(wanted);
        out_of_range(alloc)
    }

    // What a code and its list ask for.
    fn ask_for(
        &mut self,
        alloc: Global,
        code: i64,
        items: &[Value],
        parts: &mut Parts,
    ) -> Result<Asked, Memory>
        requires idle { parts.old.called ≡ None }
        requires free { are_free parts.old.futures (own_of self.old) ≡ true }
        ensures { IfOk result (λ asked. SaysSeen (kept_of self.new) parts.old parts.new asked
            (asked_for code (wanted_of code items.now) (parts_of parts.old)
            (kept_of self.old))) }
    {
        let Some(shape) = shape_of(code) else {
            return unknown(alloc, code);
        };
        let wanted = shaped(shape, items)?;
        match wanted {
            Some(wanted) => self.serve_if_room(alloc, wanted, parts),
            None => bad_argument(alloc),
        }
    }
}

impl Extra for Sync {
    ghost use Rattle.aio_sync.specs.Added.{sync_added};

    ghost added = { sync_added };

    fn ask(
        &mut self,
        alloc: Global,
        _task: u32,
        code: i64,
        arguments: &Value,
        _futures: &[FutureId],
        parts: &mut Parts,
    ) -> Result<Asked, Memory> {
        self.ask_for(alloc, code, items_in(arguments), parts)
    }

    fn wake(
        &mut self,
        alloc: Global,
        key: u64,
        input: Input,
        parts: &mut Parts,
    ) -> Result<Asked, Memory> {
        self.woken(alloc, key, place_of(key), input, parts)
    }

    fn act(&mut self, _alloc: Global, _key: u64, _parts: &mut Parts) -> Result<(), Memory> {
        Ok(())
    }

    fn item(
        &mut self,
        _alloc: Global,
        _code: i64,
        _bytes: &[u8],
        _parts: &mut Parts,
    ) -> Result<(), Memory> {
        Ok(())
    }

    fn watches(&self) -> bool {
        false
    }
}
