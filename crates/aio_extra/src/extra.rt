//! What serves requests that are added to the loop's own.
ghost use Rattle.std.specs.Prelude.{◌≡◌, true, List, None, Some, IfOk, OnOk, is_some};
ghost use Rattle.model_value.specs.Value.{Value as AnyValue};
ghost use Rattle.model_loop.specs.Parts as plain;
ghost use Rattle.model_machine.specs.Sound.{ids_of, sends_made};
ghost use Rattle.model_machine.specs.State.{State};
ghost use Rattle.aio_task.specs.Keeps.{NameMap};
ghost use Rattle.aio_extra.specs.Added.{Added};
ghost use Rattle.aio_extra.specs.Called.{CallsAs, IsAskedOf, IsServed, MayAsk, MayServe, SaysAs};

use crate::asked::Asked;
use aio_base::{Input, Memory, Value};
use aio_task::{FutureId, Parts};
use std::alloc::Global;

/// What serves requests that are added to the loop's own: `extra(code, list)`. It changes the
/// loop's parts by the steps alone that its meaning says, and keeps what it made of them by number
/// and by name. After want of memory the loop makes no call.
pub trait Extra {
    /// What the machine keeps of it, what its calls mean, what of the loop it keeps, when it stands
    /// for what the machine keeps, and what holds of these.
    ghost added: { Added Self };

    /// A task's request, with a list of arguments, and the futures of scripts by their numbers.
    fn ask(
        &mut self,
        alloc: Global,
        task: u32,
        code: i64,
        arguments: &Value,
        futures: &[FutureId],
        parts: &mut Parts,
    ) -> Result<Asked, Memory>
        requires { MayAsk added task futures.now arguments.now self.old parts.old }
        ensures { IfOk result (λ asked. (t : NameMap) (s : State added.Kept) (items : List AnyValue)
            → IsAskedOf added task t s futures.now arguments.now items self.old parts.old
            → SaysAs added t s parts.old parts.new self.new asked
            (added.meaning.ask task code items s)) };

    /// What the wait of the request under this key came to, as the task goes on. Where it is to be
    /// woken again it stays under its key.
    fn wake(
        &mut self,
        alloc: Global,
        key: u64,
        input: Input,
        parts: &mut Parts,
    ) -> Result<Asked, Memory>
        requires runs { is_some parts.old.running ≡ true }
        requires serves { MayServe added parts.old.running self.old parts.old }
        ensures { IfOk result (λ asked. (t : NameMap) (s : State added.Kept)
            → IsServed added parts.old.running t s self.old parts.old
            → (added.meaning.keeps s.extra).has_key key ≡ true
            → sends_made (ids_of s) input ≡ true
            → SaysAs added t s parts.old parts.new self.new asked
            (added.meaning.wake key input s)) };

    /// A handle of its own runs, that of this key.
    fn act(&mut self, alloc: Global, key: u64, parts: &mut Parts) -> Result<(), Memory>
        requires serves { MayServe added None self.old parts.old }
        ensures { OnOk result ((t : NameMap) (s : State added.Kept)
            → IsServed added None t s self.old parts.old
            → CallsAs added t s parts.old parts.new self.new (added.meaning.act key s)) };

    /// News of the outside.
    fn item(
        &mut self,
        alloc: Global,
        code: i64,
        bytes: &[u8],
        parts: &mut Parts,
    ) -> Result<(), Memory>
        requires serves { MayServe added None self.old parts.old }
        ensures { OnOk result ((t : NameMap) (s : State added.Kept)
            → IsServed added None t s self.old parts.old
            → CallsAs added t s parts.old parts.new self.new
            (added.meaning.item code bytes.now s)) };

    /// Whether it waits for news of the outside.
    fn watches(&self) -> bool
        ensures { (t : NameMap) (p : plain.Parts) (kept : added.Kept)
            → added.stands t p self.now kept
            → result ≡ added.meaning.watches kept };
}
