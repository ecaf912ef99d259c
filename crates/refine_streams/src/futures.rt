//! Laws of the futures that streams keep. Each function has no body: its clauses are the laws.
ghost use Rattle.std.specs.Prelude.{◌≡◌, true};
ghost use Rattle.model_loop.specs.Owning.{is_plain};
ghost use Rattle.model_loop.specs.Parts.{Parts};
ghost use Rattle.model_stream.specs.Kept.{StreamsKeep};
ghost use Rattle.model_stream.specs.Streams.{Streams};
ghost use Rattle.aio_task.specs.Keeps.{Keeps, NameMap};
ghost use Rattle.aio_task.specs.View.{View};
ghost use Rattle.aio_transports.specs.Kept.{Kept as AllKept};
ghost use Rattle.aio_transports.specs.Owned.{OwnsTransports};
ghost use Rattle.aio_transports.specs.Standing.{TransportsStandFor as AreTransports};

/// Where each future that streams keep is a plain one, no future that code keeps for them is a
/// task's.
pub fn transports_own_their_futures()
    ensures { (t : NameMap) (v : View) (p : Parts) (kept : AllKept) (s : Streams) → Keeps t v p
        → AreTransports kept s → StreamsKeep (λ future. is_plain p future ≡ true) s
        → OwnsTransports v kept }
{}
