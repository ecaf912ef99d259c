//! Laws of answers among events, over every run, whatever is open and whatever the outside answers.
//! Each function has no body: its clauses are the laws. `S` is the state of what is added to the
//! loop's own requests, whatever that is.
ghost use Rattle.std.specs.Prelude.{◌≡◌, ℕ, List, None};
ghost use Rattle.model_tree.specs.Syntax.{Program};
ghost use Rattle.model_wire.specs.declared.event.Handed.{Handed};
ghost use Rattle.model_wire.specs.Event.{Event, handed_in};
ghost use Rattle.model_wire.specs.Journal.{Entry};
ghost use Rattle.model_stream.specs.History.{handed};
ghost use Rattle.model_machine.specs.Extra.{Extra};
ghost use Rattle.model_machine.specs.Run.{run_on};
ghost use Rattle.model_machine.specs.State.{State};
ghost use Rattle.model_program.specs.Runs.{run, run_over};
ghost use Rattle.law_reach.specs.Reaches.{InRun};
ghost use Rattle.law_handed.specs.Following.{AnswersFollow};

/// Each answer among the events of a run comes right after its call: so it is of every program,
/// however the run ends (`run`), of each run that goes on from a state of which it is so (`any`),
/// and after each row of changes, as requests, callbacks and turns are (`row`).
pub fn each_answer_comes_right_after_its_call<S>()
    ensures run { (extra : Extra S) (first : S) (program : Program) (answers : List Entry)
        (turns : ℕ) → AnswersFollow (run_over extra first program answers turns).events }
    ensures any { (limit : ℕ) (extra : Extra S) (allowed left : ℕ) (s : State S)
        → AnswersFollow s.events → AnswersFollow (run_on limit extra allowed left s).events }
    ensures row { (s t : State S) → InRun s t → AnswersFollow s.events → AnswersFollow t.events }
{}

/// So what the events of a run hand to a connection or a child is the same where an answer is that
/// of the last call before it, as the theorem has it of a wire, and where it is that of a call
/// right before it which has none yet, as the laws of connections and children have it.
pub fn what_is_handed_is_said_alike<S>()
    ensures run { (extra : Extra S) (first : S) (program : Program) (answers : List Entry)
        (turns : ℕ) (whom : Handed)
        → handed whom (run_over extra first program answers turns).events
        ≡ handed_in (run_over extra first program answers turns).events None whom }
    ensures program { (program : Program) (answers : List Entry) (turns : ℕ) (whom : Handed)
        → handed whom (run program answers turns).events
        ≡ handed_in (run program answers turns).events None whom }
    ensures events { (events : List Event) → AnswersFollow events → (whom : Handed)
        → handed whom events ≡ handed_in events None whom }
{}
