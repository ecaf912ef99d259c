//! Selects.
ghost use Rattle.std.specs.Prelude.{◌≡◌, ◌++◌, ℕ, List, true};
ghost use Rattle.model_wire.specs.Call.{Item};
ghost use Rattle.model_wire.specs.declared.watch.Watch.{Watch};
ghost use Rattle.model_wire.specs.Fits.{turn_fits};
ghost use Rattle.model_hub.specs.declared.pump.Pump.{Pump};
ghost use Rattle.model_pump.specs.Posts.{Post};
ghost use Rattle.model_hub.specs.Hub.{Hub};
ghost use Rattle.model_hub.specs.Gathering.{begin, gather, is_halted};
ghost use Rattle.model_hub.specs.Select.{kept_at_end, polled_watch};
ghost use Rattle.law_hub.specs.Seats.{is_teller, items_of, told_all};

/// Whatever was kept and whatever the pumps post: where the poller's answer fits what was polled, the
/// select's answer fits its call.
pub fn answers_fit()
    ensures { (watched : List Watch) (hub : Hub) (now : ℕ) (sockets : List Item) (posts : List Post)
        → turn_fits (polled_watch watched) now sockets ≡ true
        → turn_fits watched now (gather watched (begin watched hub sockets) posts).items ≡ true }
{}

/// For each child and each of its seats, what the answer tells and then what is kept is what was
/// kept, and then what the posts of that seat told, in order: each such post becomes one item, once.
pub fn nothing_is_lost()
    ensures { (from : Pump) (child : ℕ) → is_teller from ≡ true
        → (watched : List Watch) (hub : Hub) (now : ℕ) (sockets : List Item) (posts : List Post)
        → turn_fits (polled_watch watched) now sockets ≡ true
        → items_of from child (gather watched (begin watched hub sockets) posts).items
        ++ items_of from child (gather watched (begin watched hub sockets) posts).kept
        ≡ items_of from child (hub.kept ++ told_all hub.children posts) }
{}

/// A select that a Fault or a Starved post ends gives no answer and keeps all of it.
pub fn failures_keep_all()
    ensures { (from : Pump) (child : ℕ) → is_teller from ≡ true
        → (watched : List Watch) (hub : Hub) (now : ℕ) (sockets : List Item) (posts : List Post)
        → turn_fits (polled_watch watched) now sockets ≡ true
        → is_halted (gather watched (begin watched hub sockets) posts).halt ≡ true
        → items_of from child (kept_at_end (gather watched (begin watched hub sockets) posts))
        ≡ items_of from child (hub.kept ++ told_all hub.children posts) }
{}
