//! Laws of what values name. Each function has no body: its clauses are the laws.
ghost use Rattle.std.specs.Prelude.{◌≡◌, ℕ, Option, Some, false};
ghost use Rattle.model_value.specs.Value.{Value};
ghost use Rattle.model_loop.specs.Owning.{OwnsFutures};
ghost use Rattle.model_machine.specs.Arguments.{as_awaited, as_future};
ghost use Rattle.model_machine.specs.State.{State};
ghost use Rattle.aio_task.specs.View.{parts};
ghost use Rattle.aio_body.specs.Named.{awaited_in, future_in};
ghost use Rattle.aio_body.specs.Stands.{Context, Stands};
ghost use Rattle.aio_body.specs.declared.run_state.RunState.{RunState};

use aio_extra::Extra;

/// A value names the same future in code as in the machine, and one that wasn't released.
pub fn values_name_the_same<X: Extra>()
    ensures future { (out : Option ℕ) (c : Context X.added) (body : RunState X)
        (s : State X.added.Kept)
        → Stands out c body s
        → (x : Value) → future_in body.futures.items x ≡ as_future s x }
    ensures awaited { (out : Option ℕ) (c : Context X.added) (body : RunState X)
        (s : State X.added.Kept) → Stands out c body s
        → (x : Value) → awaited_in body.futures.items (parts body.parts) x ≡ as_awaited s x }
    ensures there { (out : Option ℕ) (c : Context X.added) (body : RunState X)
        (s : State X.added.Kept)
        → (h : Stands out c body s)
        → OwnsFutures s.loop.parts → (x : Value) (on : ℕ) → as_awaited s x ≡ Some on
        → h.name_map.gone on ≡ false }
{}
