//! Coroutines and their requests.
#![tactic(auto, unfolding(model_text::specs::Tokens::tokens_of, model_text::specs::Pieces::piece_at, model_text::specs::Tokens::piece_tokens, model_text::specs::Levels::term_of, model_text::specs::Forms::form_of, model_text::specs::FirstPass::forms_from, model_text::specs::SecondPass::second_pass, model_text::specs::Bodies::statements_in, model_text::specs::Scripts::script_of, model_says::specs::Says::course, model_machine::specs::Replies::reply, model_machine::specs::Step::serve, model_machine::specs::Step::step, model_machine::specs::Turn::effect, model_machine::specs::Turn::run_below, model_machine::specs::Turn::turn, model_machine::specs::Run::run_on))]

ghost use Rattle.std.specs.Prelude.{◌≡◌, [], ◌∷◌, codes};
ghost use Rattle.row_machine.specs.Reading.{seen, seen_within};
ghost use Rattle.row_machine.specs.Coroutines.{frames_overflow_text, frames_overflow_seen, finally_on_the_way_out_text, finally_on_the_way_out_seen, extra_unknown_text, extra_unknown_seen, futures_text, futures_seen, counting, counted_to_the_limit, ran_away, three_blocks, returned_at_once};

/// The 65th frame is refused.
pub fn frames_overflow()
    ensures { seen frames_overflow_text (0 ∷ 0 ∷ []) ≡ frames_overflow_seen }
{}

/// `finally` runs on the way out of a coroutine that raises.
pub fn finally_on_the_way_out()
    ensures { seen finally_on_the_way_out_text (0 ∷ 0 ∷ 0 ∷ []) ≡ finally_on_the_way_out_seen }
{}

/// Nothing is added to the loop's own requests, so no code is known. Kinds of arguments are tested
/// before that.
pub fn extra_unknown()
    ensures { seen extra_unknown_text (0 ∷ 0 ∷ []) ≡ extra_unknown_seen }
{}

/// A future is set once; a CancelledError is nothing to fail with; what is pending has no result.
pub fn futures()
    ensures { seen futures_text (0 ∷ 0 ∷ []) ≡ futures_seen }
{}

/// A step that begins as many statements as it may, and one that would begin one more; here a step
/// may begin 6.
pub fn long_step()
    ensures at_the_limit { seen_within 6 (counting (codes "  print i" ∷ [])) (0 ∷ 0 ∷ [])
        ≡ counted_to_the_limit }
    ensures beyond { seen_within 6 (counting (codes "  pass" ∷ codes "  pass" ∷ [])) (0 ∷ 0 ∷ [])
        ≡ ran_away }
{}

/// A step answers more requests than it begins statements: each `with` asks twice.
pub fn more_answers_than_statements()
    ensures { seen_within 3 three_blocks (0 ∷ 0 ∷ []) ≡ returned_at_once }
{}
