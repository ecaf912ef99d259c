//! What is added: a request that is answered at once, one that waits until the next turn, one that
//! does so again and again, and one that waits for a future which stands for another.
ghost use Rattle.std.specs.Prelude.{◌≡◌, ◌+◌, ◌++◌, ◌∷◌, [], false, None, IfOk, OnOk, length, slice_set};
ghost use Rattle.model_value.specs.declared.action.Action.TheVariants.{Extra as Acts};
ghost use Rattle.model_loop.specs.Parts.{Many, Plain};
ghost use Rattle.model_machine.specs.Extra.{unknown_code};
ghost use Rattle.aio_ready.specs.Queue as queue;
ghost use Rattle.try_loop.specs.NextTurn.{HearsAs};
ghost use Rattle.try_loop.specs.Wanted.{left_at, wanted_by, told};

use aio_base::{Action, Input, Kind, Memory, Outcome, Value, ValueCase, exception};
use aio_extra::{Asked, Extra};
use aio_task::{FutureId, Parts};
use std::alloc::Global;

/// How often a request waits again that waits five hundred times.
const AGAIN: u64 = 499;

/// What a code asks for.
#[derive(Clone, Copy)]
pub enum Wanted {
    /// 1: the number 7.
    Seven,
    /// 2: the number of the wait, in the next turn.
    Wait,
    /// 10: the same, after five hundred waits under one key.
    Waits,
    /// 11: the same, from a future that stands for another one.
    Several,
    /// There is no such request.
    Nothing,
}

/// The futures that are waited for, each under the key that is its place, and how often each request
/// waits again. The handle of a key resolves its future.
#[derive(Drop)]
pub struct NextTurn {
    made: Vec<FutureId>,
    left: Vec<u64>,
}

impl NextTurn {
    ghost use Rattle.aio_extra.specs.Added.{KeepsNothing};
    ghost use Rattle.try_loop.specs.NextTurn.{first_waiting, next_turn};

    /// Nothing was waited for.
    pub fn new(alloc: Global) -> NextTurn
        ensures { KeepsNothing next_turn result first_waiting }
    {
        NextTurn {
            made: Vec::new(alloc),
            left: Vec::new(alloc),
        }
    }

    /// A future of its own, and the handle that resolves it in the next turn. So it goes so many
    /// times more.
    fn wait(&mut self, alloc: Global, again: u64, parts: &mut Parts) -> Result<Asked, Memory>
        requires { parts.old.called ≡ None }
        ensures asked { IfOk result
            (λ asked. asked ≡ Asked.Wait (length parts.old.futures) (length self.old.made.items)) }
        ensures made { OnOk result
            (self.new.made.items ≡ self.old.made.items ++ length parts.old.futures ∷ []) }
        ensures left { OnOk result (self.new.left.items ≡ self.old.left.items ++ again ∷ []) }
        ensures parts { OnOk result (parts.new ≡ record parts.old {
          futures = parts.old.futures ++ record { kind = Plain; outcome = None; callbacks = [] }
              ∷ [];
          queue = queue.soon (Acts (length self.old.made.items)) parts.old.queue;
        }) }
    {
        let key = self.made.len() as u64;
        let on = parts.new_plain(alloc)?;
        self.made.push(on)?;
        self.left.push(again)?;
        soon(alloc, key, parts)?;
        Ok(Asked::Wait { on, key })
    }

    /// The same, of a future that stands for another one, which nobody settles.
    fn wait_for_several(&mut self, alloc: Global, parts: &mut Parts) -> Result<Asked, Memory>
        requires { parts.old.called ≡ None }
        ensures asked { IfOk result (λ asked. asked
            ≡ Asked.Wait (length parts.old.futures + 1) (length self.old.made.items)) }
        ensures made { OnOk result
            (self.new.made.items ≡ self.old.made.items ++ (length parts.old.futures + 1) ∷ []) }
        ensures left { OnOk result (self.new.left.items ≡ self.old.left.items ++ 0 ∷ []) }
        ensures parts { OnOk result (parts.new ≡ record parts.old {
          futures = (parts.old.futures ++ record { kind = Plain; outcome = None; callbacks = [] }
              ∷ []) ++ record {
                kind = Many (length parts.old.futures ∷ []) false;
                outcome = None;
                callbacks = [];
              } ∷ [];
          queue = queue.soon (Acts (length self.old.made.items)) parts.old.queue;
        }) }
    {
        let key = self.made.len() as u64;
        let member = parts.new_plain(alloc)?;
        let on = parts.new_many(alloc, vec![in alloc; member]?)?;
        self.made.push(on)?;
        self.left.push(0)?;
        soon(alloc, key, parts)?;
        Ok(Asked::Wait { on, key })
    }

    // It waits again under its key, or goes on with what its future was resolved with.
    fn hear(
        &mut self,
        alloc: Global,
        key: u64,
        value: &Value,
        parts: &mut Parts,
    ) -> Result<Asked, Memory>
        requires { parts.old.called ≡ None }
        ensures { IfOk result (λ asked. HearsAs (left_at self.old.left.items key) key value.now asked
            self.old self.new parts.old parts.new) }
    {
        if let Some(left) = self.left.get_mut(key as usize) {
            if *left > 0 {
                *left -= 1;
                return self.wait_again(alloc, key, parts);
            }
        }
        Ok(Asked::Answer(number_in(value)))
    }

    // A new future stands in the place of the one that is done.
    fn wait_again(&mut self, alloc: Global, key: u64, parts: &mut Parts) -> Result<Asked, Memory>
        requires { parts.old.called ≡ None }
        ensures asked { IfOk result (λ asked. asked ≡ Asked.Wait (length parts.old.futures) key) }
        ensures made { OnOk result
            (self.new.made.items ≡ slice_set self.old.made.items key (length parts.old.futures)) }
        ensures left { self.new.left ≡ self.old.left }
        ensures parts { OnOk result (parts.new ≡ record parts.old {
          futures = parts.old.futures ++ record { kind = Plain; outcome = None; callbacks = [] }
              ∷ [];
          queue = queue.soon (Acts key) parts.old.queue;
        }) }
    {
        let on = parts.new_plain(alloc)?;
        if let Some(made) = self.made.get_mut(key as usize) {
            *made = on;
        }
        soon(alloc, key, parts)?;
        Ok(Asked::Wait { on, key })
    }
}

impl Extra for NextTurn {
    ghost use Rattle.try_loop.specs.NextTurn.{next_turn};

    ghost added = { next_turn };

    fn ask(
        &mut self,
        alloc: Global,
        _task: u32,
        code: i64,
        _arguments: &Value,
        _futures: &[FutureId],
        parts: &mut Parts,
    ) -> Result<Asked, Memory> {
        match wanted_of(code) {
            Wanted::Seven => Ok(Asked::Answer(Value::int(7))),
            Wanted::Wait => self.wait(alloc, 0, parts),
            Wanted::Waits => self.wait(alloc, AGAIN, parts),
            Wanted::Several => self.wait_for_several(alloc, parts),
            Wanted::Nothing => unknown(alloc, code),
        }
    }

    fn wake(
        &mut self,
        alloc: Global,
        key: u64,
        input: Input,
        parts: &mut Parts,
    ) -> Result<Asked, Memory> {
        match input {
            Input::Send(value) => {
                let heard = self.hear(alloc, key, &value, parts);
                drop(value);
                heard
            }
            Input::Throw(fault) => Ok(Asked::Raise(fault)),
        }
    }

    // No run waits more often than an Int counts.
    fn act(&mut self, _alloc: Global, key: u64, parts: &mut Parts) -> Result<(), Memory> {
        let Ok(number) = i64::try_from(key) else {
            return Err(Memory);
        };
        if let Some(id) = self.made.get(key as usize) {
            let _resolved = parts.resolve(*id, Outcome::Value(Value::int(number)));
        }
        Ok(())
    }

    fn item(
        &mut self,
        _alloc: Global,
        _code: i64,
        _bytes: &[u8],
        _parts: &mut Parts,
    ) -> Result<(), Memory> {
        Ok(())
    }

    fn watches(&self) -> bool {
        false
    }
}

// The handle of a key is called in the next turn. It is the last that may lack memory, so that
// nothing is to be let go then.
fn soon(alloc: Global, key: u64, parts: &mut Parts) -> Result<(), Memory>
    requires { parts.old.called ≡ None }
    ensures { OnOk result
        (parts.new ≡ record parts.old { queue = queue.soon (Acts key) parts.old.queue }) }
{
    let ticket = parts.ticket(alloc)?;
    let _handle = parts.soon(ticket, Action::Extra(key));
    Ok(())
}

fn wanted_of(code: i64) -> Wanted
    ensures { result ≡ wanted_by code }
{
    if code == 1 {
        return Wanted::Seven;
    }
    if code == 2 {
        return Wanted::Wait;
    }
    if code == 10 {
        return Wanted::Waits;
    }
    if code == 11 {
        return Wanted::Several;
    }
    Wanted::Nothing
}

fn unknown(alloc: Global, code: i64) -> Result<Asked, Memory>
    ensures { IfOk result (λ asked. asked ≡ Asked.Raise (unknown_code code)) }
{
    let text = format!(in alloc; "extra {code}")?;
    let fault = exception(alloc, Kind::NameError, text.as_str());
    drop(text);
    Ok(Asked::Raise(fault?))
}

/// An Int, or None in the place of any other value.
fn number_in(value: &Value) -> Value
    ensures { result ≡ told value.now }
{
    match value.case() {
        ValueCase::Int(number) => Value::int(number),
        _ => Value::nothing(),
    }
}
