//! What the calls of queues keep, in users' words. There is no code.
#![tactic(auto)]

ghost use Rattle.std.specs.Prelude.{ℕ, ℤ, List};
ghost use Rattle.model_value.specs.Input.{Input};
ghost use Rattle.model_value.specs.Value.{Value};
ghost use Rattle.model_machine.specs.State.{State};
ghost use Rattle.model_sync.specs.Synced.{Synced};
ghost use Rattle.model_sync.specs.Serving.{sync_means};
ghost use Rattle.law_queues.specs.Kept.{KeepsToSizes};

/// A queue with a size never holds more values: no request and no task that goes on makes one hold
/// more than it may.
pub fn queues_keep()
    ensures asked { (task : ℕ) (code : ℤ) (arguments : List Value) (s : State Synced)
        → KeepsToSizes s.extra
        → KeepsToSizes (sync_means.ask task code arguments s).call.state }
    ensures woken { (key : ℕ) (input : Input) (s : State Synced) → KeepsToSizes s.extra
        → KeepsToSizes (sync_means.wake key input s).call.state }
{}
