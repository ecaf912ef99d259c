//! A request that is added to the loop's own, and waits.
#![tactic(auto, unfolding(model_text::specs::Tokens::tokens_of, model_text::specs::Pieces::piece_at, model_text::specs::Tokens::piece_tokens, model_text::specs::Levels::term_of, model_text::specs::Forms::form_of, model_text::specs::FirstPass::forms_from, model_text::specs::SecondPass::second_pass, model_text::specs::Bodies::statements_in, model_text::specs::Scripts::script_of, model_says::specs::Says::course, model_machine::specs::Replies::reply, model_machine::specs::Step::serve, model_machine::specs::Step::step, model_machine::specs::Turn::effect, model_machine::specs::Turn::run_below, model_machine::specs::Turn::turn, model_machine::specs::Run::run_on))]

ghost use Rattle.std.specs.Prelude.{◌≡◌, [], ◌∷◌, ◌++◌, Some};
ghost use Rattle.model_value.specs.Value.{Nothing};
ghost use Rattle.model_wire.specs.declared.call.Call.TheVariants.{Select};
ghost use Rattle.model_wire.specs.declared.event.End.TheVariants.{Mismatch, Returned};
ghost use Rattle.model_program.specs.Runs.{run};
ghost use Rattle.row_machine.specs.Reading.{at, program_of};
ghost use Rattle.row_machine.specs.Added.{run_with_bell, news, news_events, seen_with_alarm, waits_text, waits_seen, cancelled_text, cancelled_seen};

/// The request waits for a future of its own, which its own handle resolves.
pub fn waits_for_its_timer()
    ensures { seen_with_alarm waits_text (0 ∷ 5 ∷ 5 ∷ 5 ∷ []) ≡ waits_seen }
{}

/// A cancel of the task reaches what the request waits for.
pub fn is_cancelled()
    ensures { seen_with_alarm cancelled_text (0 ∷ 0 ∷ 0 ∷ 0 ∷ 0 ∷ []) ≡ cancelled_seen }
{}

/// News of the outside for the request run before the next turn's handles, and wake the task.
pub fn waits_for_news()
    ensures { run_with_bell waits_text (at (0 ∷ []) ++ news ∷ at (4 ∷ 4 ∷ []))
        ≡ record { events = news_events; end = Returned Nothing } }
{}

/// The same news don't fit where nothing watches for them: the run ends at its first answer.
pub fn news_that_nobody_watches()
    ensures { (run (program_of waits_text) (news ∷ []) 1000).end ≡ Mismatch 1 (Select (Some 0) []) }
{}
