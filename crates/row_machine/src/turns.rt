//! Turns: which handle runs when, and how long is waited.
#![tactic(auto, unfolding(model_text::specs::Tokens::tokens_of, model_text::specs::Pieces::piece_at, model_text::specs::Tokens::piece_tokens, model_text::specs::Levels::term_of, model_text::specs::Forms::form_of, model_text::specs::FirstPass::forms_from, model_text::specs::SecondPass::second_pass, model_text::specs::Bodies::statements_in, model_text::specs::Scripts::script_of, model_says::specs::Says::course, model_machine::specs::Replies::reply, model_machine::specs::Step::serve, model_machine::specs::Step::step, model_machine::specs::Turn::effect, model_machine::specs::Turn::run_below, model_machine::specs::Turn::turn, model_machine::specs::Run::run_on))]

ghost use Rattle.std.specs.Prelude.{◌≡◌, [], ◌∷◌, ◌++◌, Some};
ghost use Rattle.model_value.specs.Value.{Nothing};
ghost use Rattle.model_wire.specs.Journal.{Refused};
ghost use Rattle.model_wire.specs.declared.event.End.TheVariants.{JournalRefused, Over, Returned, Turns};
ghost use Rattle.model_machine.specs.Outside.{select};
ghost use Rattle.model_program.specs.Runs.{run};
ghost use Rattle.row_machine.specs.Reading.{at, program_of, seen, seen_of};
ghost use Rattle.row_machine.specs.Turns.{first_come_first_run_text, first_come_first_run_seen, equal_deadlines_text, equal_deadlines_seen, stalled_text, stalled_seen, hello_text, hello_until};

/// Two tasks take turns: what is appended while handles run waits for the next turn.
pub fn first_come_first_run()
    ensures { seen first_come_first_run_text (0 ∷ 0 ∷ 0 ∷ 0 ∷ 0 ∷ 0 ∷ 0 ∷ [])
        ≡ first_come_first_run_seen }
{}

/// Timers fall due by deadline, and equal deadlines in order of scheduling.
pub fn equal_deadlines()
    ensures { seen equal_deadlines_text (0 ∷ 0 ∷ 10 ∷ 20 ∷ 20 ∷ 20 ∷ 20 ∷ [])
        ≡ equal_deadlines_seen }
{}

/// Main waits for what nobody sets.
pub fn stalled()
    ensures { seen stalled_text (0 ∷ []) ≡ stalled_seen }
{}

/// A run without an answer left, one whose answer's line is none, and one that may make no further
/// turn.
pub fn short_runs()
    ensures over { seen hello_text (0 ∷ [])
        ≡ hello_until (Over (select (Some 0) [])) (Some 0 ∷ Some 0 ∷ []) }
    ensures bad { seen_of (run (program_of hello_text) (at (0 ∷ []) ++ Refused 2 1 ∷ []) 1000)
        ≡ hello_until (JournalRefused 2 1) (Some 0 ∷ Some 0 ∷ []) }
    ensures turns { seen_of (run (program_of hello_text) (at (0 ∷ 0 ∷ [])) 1)
        ≡ hello_until (Turns 1) (Some 0 ∷ []) }
    ensures whole { seen hello_text (0 ∷ 0 ∷ [])
        ≡ hello_until (Returned Nothing) (Some 0 ∷ Some 0 ∷ []) }
{}
