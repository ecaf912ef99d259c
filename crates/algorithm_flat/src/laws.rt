//! Laws of flat code. Each function has no body: its clause is the law.
ghost use Rattle.std.specs.Prelude.{◌≡◌, ℕ, ◌<◌, ◌≤◌, List, [], ◌∷◌, ◌++◌, length};
ghost use Rattle.model_value.specs.declared.request.Request.TheVariants.{Pause};
ghost use Rattle.model_value.specs.Request.{Request};
ghost use Rattle.model_value.specs.Value.{Value};
ghost use Rattle.model_tree.specs.Syntax.{Program};
ghost use Rattle.model_says.specs.Endings.{Asks};
ghost use Rattle.model_says.specs.Tape.{Resumed, Tape};
ghost use Rattle.algorithm_flat.specs.Ops.{CoroutineCode};
ghost use Rattle.algorithm_flat.specs.Rests.{Way};
ghost use Rattle.algorithm_flat.specs.Moves.{Frames, Goes, move_of};
ghost use Rattle.algorithm_flat.specs.Stands.{AllLaidOut};
ghost use Rattle.algorithm_flat.specs.Tapes.{Waiting, unbegun_waiting, way_of, after_input, renewed_by, said, MovesFor, WaitsFor, ComesTo};
ghost use Rattle.algorithm_flat.specs.Nearer.{JumpsForward, distance};

/// Before any input the frames wait as the coroutine does: as after a bare `yield`.
pub fn frames_begin_as_the_coroutine()
    ensures { (limit : ℕ) (program : Program) (codes : ℕ → CoroutineCode) (coroutine : ℕ)
        (arguments : List Value) →
        AllLaidOut program codes →
        WaitsFor limit program codes coroutine arguments [] Pause
        (unbegun_waiting limit codes coroutine arguments) }
{}

/// What frames wait for is what the coroutine asks.
pub fn what_waits_is_asked()
    ensures { (limit : ℕ) (program : Program) (codes : ℕ → CoroutineCode) (coroutine : ℕ)
        (arguments : List Value) →
        (tape : Tape) (request : Request) (waiting : Waiting) →
        WaitsFor limit program codes coroutine arguments tape request waiting →
        said limit program codes coroutine arguments tape ≡ Asks request }
{}

/// Frames that waited go on after an input as the coroutine does after the longer tape.
pub fn an_input_lengthens_the_tape()
    ensures { (limit : ℕ) (program : Program) (codes : ℕ → CoroutineCode) (coroutine : ℕ)
        (arguments : List Value) →
        (tape : Tape) (request : Request) (waiting : Waiting) (entry : Resumed) →
        WaitsFor limit program codes coroutine arguments tape request waiting →
        MovesFor limit program codes coroutine arguments (tape ++ entry ∷ []) (way_of entry.input)
        (after_input entry.input waiting.use_of (renewed_by limit entry waiting.frames)) }
{}

/// A move comes to what the coroutine does: it goes on, asks the same, or says the same.
pub fn a_move_comes_to_what_the_coroutine_does()
    ensures { (limit : ℕ) (program : Program) (codes : ℕ → CoroutineCode) (coroutine : ℕ)
        (arguments : List Value) →
        AllLaidOut program codes →
        (tape : Tape) (way : Way) (frames : Frames) →
        MovesFor limit program codes coroutine arguments tape way frames →
        ComesTo limit program codes coroutine arguments tape
        (move_of codes (codes frames.frame.coroutine) way frames) }
{}

/// Moves come to an end: where a move goes on, the end is nearer.
pub fn moves_come_to_an_end()
    ensures { (codes : ℕ → CoroutineCode) (code : CoroutineCode) (size : ℕ) →
        JumpsForward code → length code.ops ≤ size →
        (way next : Way) (frames after : Frames) →
        move_of codes code way frames ≡ Goes next after →
        distance size after < distance size frames }
{}
