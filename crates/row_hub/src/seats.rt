//! Seats, and the close.
ghost use Rattle.std.specs.Prelude.{◌≡◌, [], ◌∷◌, true};
ghost use Rattle.model_wire.specs.declared.answer.Answer.TheVariants as answer;
ghost use Rattle.model_hub.specs.declared.child.Stay.TheVariants.{Running, Holding, Gone};
ghost use Rattle.model_hub.specs.declared.pump.Pump.TheVariants as pump;
ghost use Rattle.model_hub.specs.Others.{Got, Memory, Started, NotStarted, NoMemory};
ghost use Rattle.model_hub.specs.Closing.{to_kill, to_stop, ends};
ghost use Rattle.row_hub.specs.Made.{four, exit};
ghost use Rattle.row_hub.specs.Calls.{stays, back, ends_so, launch_from, at_close, twice};

/// A child's last post: it is taken in, and its seats may be lent again where all four posters are
/// home.
pub fn seats_come_back()
    ensures home { ends_so (exit 0 ∷ []) (back 0 1 ∷ back 1 1 ∷ back 2 1 ∷ back 3 1 ∷ [])
        ≡ (Gone ∷ [], four 0 ∷ []) }
    ensures in_any_order { ends_so (exit 0 ∷ []) (back 3 1 ∷ back 0 1 ∷ back 2 1 ∷ back 1 1 ∷ [])
        ≡ (Gone ∷ [], four 0 ∷ []) }
    ensures a_post_left { ends_so (exit 0 ∷ []) (back 0 1 ∷ back 1 2 ∷ back 2 1 ∷ back 3 1 ∷ [])
        ≡ (Holding ∷ [], []) }
    ensures another_seat { ends_so (exit 0 ∷ []) (back 0 1 ∷ back 9 0 ∷ back 2 1 ∷ back 3 1 ∷ [])
        ≡ (Holding ∷ [], []) }
    ensures one_seat_twice { ends_so (exit 0 ∷ []) (back 0 1 ∷ back 0 1 ∷ back 2 1 ∷ back 3 1 ∷ [])
        ≡ (Holding ∷ [], []) }
    ensures not_yet { ends_so [] (back 0 1 ∷ back 1 1 ∷ back 2 1 ∷ back 3 0 ∷ [])
        ≡ (Running ∷ [], []) }
{}

/// A launch takes four seats, also where the child was not started.
pub fn launches()
    ensures started { (launch_from Started (four 0 ∷ four 1 ∷ [])).1 ≡ Got answer.Child }
    ensures its_seats { stays (launch_from Started (four 0 ∷ four 1 ∷ []))
        ≡ (Running ∷ [], four 1 ∷ []) }
    ensures not_started { (launch_from NotStarted (four 0 ∷ [])).1 ≡ Got answer.Refused }
    ensures not_lent_again { stays (launch_from NotStarted (four 0 ∷ [])) ≡ ([], []) }
    ensures no_seats { (launch_from Started []).1 ≡ Got answer.Refused }
    ensures no_memory { (launch_from NoMemory (four 0 ∷ [])).1 ≡ Memory }
    ensures then_starved { (launch_from NoMemory (four 0 ∷ [])).0.starved ≡ true }
{}

/// The close kills who runs and whose exit wasn't taken, stops each lane that wasn't closed, and
/// tells the ends of those that run.
pub fn closing()
    ensures kills { to_kill at_close ≡ 0 ∷ [] }
    ensures stops { to_stop at_close
        ≡ (0, pump.Stdin) ∷ (0, pump.Out) ∷ (0, pump.Errs) ∷ (1, pump.Out) ∷ (1, pump.Errs) ∷ [] }
    ensures tells { ends twice at_close ≡ 0 ∷ 0 ∷ 1 ∷ 1 ∷ [] }
{}
