//! That datagram endpoints make allowed steps alone, and that what they keep stays right. There is no
//! code.
#![tactic(auto)]

ghost use Rattle.model_machine.specs.Extra.{KeepsKeys, WakesFall};
ghost use Rattle.law_runs.specs.Allowed.{MakesAllowedSteps};
ghost use Rattle.law_parted.specs.Keys.{HasKeysOf};
ghost use Rattle.model_reach.specs.Reach.{OfDgram};
ghost use Rattle.model_dgram.specs.Serving.{dgram_means};

/// So they keep states sound, and what they keep right.
pub fn datagrams_make_allowed_steps()
    ensures allowed { MakesAllowedSteps dgram_means }
    ensures falls { WakesFall dgram_means }
    ensures keys { KeepsKeys dgram_means }
    ensures part { HasKeysOf OfDgram dgram_means }
{}
