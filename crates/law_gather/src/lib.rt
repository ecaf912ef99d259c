//! That `gather`, `wait`, `shield` and `wait_for` make allowed steps alone, and that what they keep
//! stays right. There is no code.
#![tactic(auto)]

ghost use Rattle.model_machine.specs.Extra.{KeepsKeys, WakesFall, no_extra};
ghost use Rattle.law_runs.specs.Allowed.{MakesAllowedSteps};
ghost use Rattle.model_reach.specs.Reach.{OfGather, reach};
ghost use Rattle.model_gather.specs.Serving.{gather_means};
ghost use Rattle.law_parted.specs.Keys.{HasKeysOf};

/// So they keep states sound, and what they keep right.
pub fn gather_makes_allowed_steps()
    ensures allowed { MakesAllowedSteps gather_means }
    ensures falls { WakesFall gather_means }
    ensures keys { KeepsKeys gather_means }
    ensures part { HasKeysOf OfGather gather_means }
    ensures routed { MakesAllowedSteps (reach gather_means no_extra no_extra no_extra) }
{}
