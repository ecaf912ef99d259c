//! What users of datagrams rely on, over every run. Each function has no body: its clauses are the
//! law. `A`, `B` and `C` are what the other parts of what is added keep, whatever these are.
#![tactic(auto)]

ghost use Rattle.std.specs.Prelude.{◌≡◌, ℕ, ℤ, List, Some};
ghost use Rattle.model_value.specs.Input.{Input};
ghost use Rattle.model_value.specs.Value.{Value};
ghost use Rattle.model_tree.specs.Syntax.{Program};
ghost use Rattle.model_wire.specs.Journal.{Entry};
ghost use Rattle.model_machine.specs.Extra.{Extra};
ghost use Rattle.model_machine.specs.State.{State, start};
ghost use Rattle.model_reach.specs.Reach.{OfDgram, Parted, part_of_code, part_of_key, reach};
ghost use Rattle.model_dgram.specs.Endpoints.{Endpoints, none_opened};
ghost use Rattle.model_dgram.specs.Serving.{dgram_means, told};
ghost use Rattle.law_calls.specs.Tells.{IsRunIn};
ghost use Rattle.law_datagrams.specs.Notes.{DatagramsKeep};
ghost use Rattle.law_datagrams.specs.Runs.{ComesByTries, called_in, served_in};
ghost use Rattle.law_datagrams.specs.Tries.{Try, asked_at, kept_after, notes, woken_at};

/// Each request is served as its definition says, whatever else is added and keeps: as a task asks
/// it, as the outside answers, and as its task goes on; and so are news. What the other parts keep
/// stays.
pub fn requests_answer_by_their_definition<A, B, C>()
    ensures asked { (gather : Extra A) (sync : Extra B) (exec : Extra C) (task : ℕ) (code : ℤ)
        (arguments : List Value) (s : State (Parted A B C Endpoints))
        → part_of_code code ≡ Some OfDgram
        → (reach gather sync exec dgram_means).ask task code arguments s
        ≡ served_in (asked_at code arguments s.loop.parts s.extra.dgram) s.extra }
    ensures goes_on { (gather : Extra A) (sync : Extra B) (exec : Extra C) (key : ℕ) (input : Input)
        (s : State (Parted A B C Endpoints)) → part_of_key key ≡ OfDgram
        → (reach gather sync exec dgram_means).wake key input s
        ≡ served_in (woken_at key input s.loop.parts s.extra.dgram) s.extra }
    ensures news { (gather : Extra A) (sync : Extra B) (exec : Extra C) (code : ℤ) (bytes : List ℕ)
        (s : State (Parted A B C Endpoints)) → part_of_code code ≡ Some OfDgram
        → (reach gather sync exec dgram_means).item code bytes s
        ≡ called_in (told code bytes s.extra.dgram) s.extra }
{}

/// Of each endpoint, the datagrams for which the outside answered `sent` are those whose sends
/// answered None and that weren't empty, each whole and once, in order of asking. What receives
/// gave, followed by what is held, is part of what came, in order, each at most once. So it is
/// whatever is asked and told (`tries`); and in each state of each run, of what happens of datagrams
/// in it (`runs`).
pub fn datagrams_keep_their_promise<A, B, C>()
    ensures tries { (all : List Try)
        → DatagramsKeep (notes all none_opened) (kept_after all none_opened) }
    ensures runs { (limit : ℕ) (gather : Extra A) (sync : Extra B) (exec : Extra C)
        (first : Parted A B C Endpoints) → first.dgram ≡ none_opened → (most : ℕ)
        (program : Program) (answers : List Entry) (turns : ℕ)
        → IsRunIn (ComesByTries limit gather sync exec first DatagramsKeep) limit
        (reach gather sync exec dgram_means) turns (start most first program answers) }
{}
