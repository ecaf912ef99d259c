//! That jobs beside the loop make allowed steps alone, and that what they keep stays right. There
//! is no code.
#![tactic(auto)]

ghost use Rattle.model_machine.specs.Extra.{KeepsKeys, WakesFall};
ghost use Rattle.law_runs.specs.Allowed.{MakesAllowedSteps};
ghost use Rattle.law_parted.specs.Keys.{HasKeysOf};
ghost use Rattle.model_reach.specs.Reach.{OfExec};
ghost use Rattle.model_exec.specs.Serving.{exec_means};

/// So they keep states sound, and what they keep right.
pub fn exec_makes_allowed_steps()
    ensures allowed { MakesAllowedSteps exec_means }
    ensures falls { WakesFall exec_means }
    ensures keys { KeepsKeys exec_means }
    ensures part { HasKeysOf OfExec exec_means }
{}
