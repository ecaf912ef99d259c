//! What routes requests to four parts makes allowed steps alone where the parts do, and keeps to its
//! count where they do. Each function has no body: its clauses are the laws.
#![tactic(auto)]

ghost use Rattle.model_machine.specs.Extra.{Extra, KeepsKeys, WakesFall, no_extra};
ghost use Rattle.model_reach.specs.Reach.{OfGather, OfSync, OfExec, OfDgram, Part, reach};
ghost use Rattle.law_runs.specs.Allowed.{MakesAllowedSteps};
ghost use Rattle.law_parted.specs.Keys.{HasKeysOf};

/// Where each part makes allowed steps alone, and has keys of its own number alone, so does what
/// routes to them.
pub fn the_router_makes_allowed_steps<A, B, C, D>()
    ensures { (gather : Extra A) (sync : Extra B) (exec : Extra C) (dgram : Extra D)
        → HasKeysOf OfGather gather → HasKeysOf OfSync sync → HasKeysOf OfExec exec
        → HasKeysOf OfDgram dgram
        → MakesAllowedSteps gather → MakesAllowedSteps sync → MakesAllowedSteps exec
        → MakesAllowedSteps dgram → MakesAllowedSteps (reach gather sync exec dgram) }
{}

/// Where each part's requests stay under their keys as they are woken, and their wakes fall, so do
/// those of what routes to them.
pub fn the_routers_wakes_fall<A, B, C, D>()
    ensures falls { (gather : Extra A) (sync : Extra B) (exec : Extra C) (dgram : Extra D)
        → WakesFall gather → WakesFall sync → WakesFall exec → WakesFall dgram
        → KeepsKeys gather → KeepsKeys sync → KeepsKeys exec → KeepsKeys dgram
        → WakesFall (reach gather sync exec dgram) }
    ensures keys { (gather : Extra A) (sync : Extra B) (exec : Extra C) (dgram : Extra D)
        → KeepsKeys gather → KeepsKeys sync → KeepsKeys exec → KeepsKeys dgram
        → KeepsKeys (reach gather sync exec dgram) }
{}

/// A part that isn't there makes no steps, knows no keys, and is never woken again.
pub fn a_missing_part_does_nothing()
    ensures allowed { MakesAllowedSteps no_extra }
    ensures part { (part : Part) → HasKeysOf part no_extra }
    ensures falls { WakesFall no_extra }
    ensures keys { KeepsKeys no_extra }
{}
