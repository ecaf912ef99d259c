//! How calls, answers and events are written, but for their numbers, which are printed by the library.
ghost use Rattle.std.specs.Prelude.{◌≡◌, ◌++◌, [], ◌∷◌, codes, None, true, false};
ghost use Rattle.std.specs.Fmt.{decimal};
ghost use Rattle.model_value.specs.declared.action.Action.TheVariants as action;
ghost use Rattle.model_wire.specs.declared.answer.Answer.TheVariants as answer;
ghost use Rattle.model_wire.specs.declared.call.Call.TheVariants as call;
ghost use Rattle.model_wire.specs.declared.event.Event.TheVariants as event;
ghost use Rattle.model_wire.specs.declared.watch.Watch.TheVariants as watch;
ghost use Rattle.model_wire.specs.Call.{written_call, written};
ghost use Rattle.model_wire.specs.Trace.{line_of, lines_of_events};

/// Calls, answers and the lines of events.
pub fn lines_are_written()
    ensures select { written_call (call.Select None []) ≡ codes "select none" }
    ensures watched { written_call
        (call.Select None (watch.Conn 0 true true ∷ watch.Conn 1 false false ∷ watch.Extra ∷ []))
        ≡ codes "select none"
        ++ ((codes " C" ++ decimal 0 ++ codes " " ++ codes "rw") ++ codes " X") }
    ensures child { written_call (call.Select None (watch.Child 7 true true true true true ∷ []))
        ≡ codes "select none" ++ ((codes " P" ++ decimal 7 ++ codes " " ++ codes "wboex") ++ []) }
    ensures some_letters { written_call
        (call.Select None (watch.Child 7 false false true true false ∷ []))
        ≡ codes "select none" ++ ((codes " P" ++ decimal 7 ++ codes " " ++ codes "oe") ++ []) }
    ensures launch { written_call
        (call.Launch (codes "cat" ∷ codes "x\"y" ∷ [])) ≡ codes "launch [\"cat\", \"x\\\"y\"]" }
    ensures bytes { written (answer.Data (97 ∷ 10 ∷ 255 ∷ [])) ≡ codes "data b\"a\\n\\xff\"" }
    ensures done { written answer.Done ≡ codes "ok" }
    ensures traced { line_of true (event.Got answer.Eof) ≡ codes "< eof\n" }
    ensures ran { line_of true (event.Ran action.MainDone) ≡ codes ". maindone\n" }
    ensures untraced { lines_of_events false
        (event.Called (call.Select None []) ∷ event.Got answer.Eof ∷ event.Ran action.MainDone ∷ [])
        ≡ [] }
{}
