//! That locks, events and queues make allowed steps alone, and that what they keep stays right.
//! There is no code.
#![tactic(auto)]

ghost use Rattle.model_machine.specs.Extra.{KeepsKeys, WakesFall};
ghost use Rattle.law_runs.specs.Allowed.{MakesAllowedSteps};
ghost use Rattle.law_parted.specs.Keys.{HasKeysOf};
ghost use Rattle.model_reach.specs.Reach.{OfSync};
ghost use Rattle.model_sync.specs.Serving.{sync_means};

/// So they keep states sound, and what they keep right.
pub fn sync_makes_allowed_steps()
    ensures allowed { MakesAllowedSteps sync_means }
    ensures falls { WakesFall sync_means }
    ensures keys { KeepsKeys sync_means }
    ensures part { HasKeysOf OfSync sync_means }
{}
