//! Cancel requests, and waiting in a cycle.
#![tactic(auto, unfolding(model_text::specs::Tokens::tokens_of, model_text::specs::Pieces::piece_at, model_text::specs::Tokens::piece_tokens, model_text::specs::Levels::term_of, model_text::specs::Forms::form_of, model_text::specs::FirstPass::forms_from, model_text::specs::SecondPass::second_pass, model_text::specs::Bodies::statements_in, model_text::specs::Scripts::script_of, model_says::specs::Says::course, model_machine::specs::Replies::reply, model_machine::specs::Step::serve, model_machine::specs::Step::step, model_machine::specs::Turn::effect, model_machine::specs::Turn::run_below, model_machine::specs::Turn::turn, model_machine::specs::Run::run_on))]

ghost use Rattle.std.specs.Prelude.{◌≡◌, [], ◌∷◌};
ghost use Rattle.row_machine.specs.Reading.{seen};
ghost use Rattle.row_machine.specs.Cancels.{goes_down_the_chain_text, goes_down_the_chain_seen, taken_back_text, taken_back_seen, two_before_one_step_text, two_before_one_step_seen, await_each_other_text, await_each_other_seen, left_behind_text, left_behind_seen, done_text, done_seen, returning_text, returning_seen};

/// Of a task that awaits a task that sleeps, the sleep is cancelled, and both count the cancel.
pub fn goes_down_the_chain()
    ensures { seen goes_down_the_chain_text (0 ∷ 0 ∷ 0 ∷ 10 ∷ 10 ∷ 10 ∷ 10 ∷ 10 ∷ 10 ∷ [])
        ≡ goes_down_the_chain_seen }
{}

/// A task cancels itself and takes it back: must_cancel stays, and is thrown at its next step.
pub fn taken_back()
    ensures { seen taken_back_text (0 ∷ 0 ∷ 0 ∷ []) ≡ taken_back_seen }
{}

/// Two cancels come before the task goes on: one ends its sleep, the other sets must_cancel of it,
/// and one throw uses both up.
pub fn two_before_one_step()
    ensures { seen two_before_one_step_text (0 ∷ 0 ∷ 0 ∷ 0 ∷ 0 ∷ 0 ∷ [])
        ≡ two_before_one_step_seen }
{}

/// Two tasks would await each other: the second await is refused by a throw.
pub fn await_each_other()
    ensures { seen await_each_other_text (0 ∷ 0 ∷ 0 ∷ 0 ∷ 0 ∷ 0 ∷ []) ≡ await_each_other_seen }
{}

/// Main ends while another task sleeps: that is cancelled after the turn in which main's callback
/// ran, and the run ends with its end.
pub fn left_behind()
    ensures { seen left_behind_text (0 ∷ 0 ∷ 0 ∷ 0 ∷ 0 ∷ []) ≡ left_behind_seen }
{}

/// What is done is awaited at once, whatever must_cancel says: must_cancel is used up at the next
/// `yield`.
pub fn done_is_awaited_at_once()
    ensures { seen done_text (0 ∷ 0 ∷ 0 ∷ []) ≡ done_seen }
{}

/// A task that must cancel and returns ends cancelled.
pub fn returns_while_marked()
    ensures { seen returning_text (0 ∷ 0 ∷ []) ≡ returning_seen }
{}
