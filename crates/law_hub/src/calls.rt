//! Every call.
ghost use Rattle.std.specs.Prelude.{◌≡◌, ◌≤◌, true};
ghost use Rattle.model_wire.specs.Call.{Call, Answer};
ghost use Rattle.model_wire.specs.Fits.{fits};
ghost use Rattle.model_wire.specs.Told.{Rose};
ghost use Rattle.model_hub.specs.Others.{Got, Failed};
ghost use Rattle.model_hub.specs.Asked.{HubSeen, Asks, faults_of};

/// Whatever the others do, an answer fits its call.
pub fn every_answer_fits()
    ensures { (asks : Call) (old new : HubSeen) (given : Answer)
        → Asks asks old new (Got given) → fits asks given ≡ true }
{}

/// A hub fails only where its count rose: the poller's did, or a Fault post was taken.
pub fn failures_are_counted()
    ensures { (asks : Call) (old new : HubSeen)
        → Asks asks old new Failed → old.poller.faults ≤ new.poller.faults
        → Rose (faults_of old.poller old.hub) new.faults }
{}
