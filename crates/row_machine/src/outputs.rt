//! Whole runs from the texts of a script and a journal, and what is written of them.
#![tactic(auto, unfolding(model_text::specs::Tokens::tokens_of, model_text::specs::Pieces::piece_at, model_text::specs::Tokens::piece_tokens, model_text::specs::Levels::term_of, model_text::specs::Forms::form_of, model_text::specs::FirstPass::forms_from, model_text::specs::SecondPass::second_pass, model_text::specs::Bodies::statements_in, model_text::specs::Scripts::script_of, model_says::specs::Says::course, model_machine::specs::Replies::reply, model_machine::specs::Step::serve, model_machine::specs::Step::step, model_machine::specs::Turn::effect, model_machine::specs::Turn::run_below, model_machine::specs::Turn::turn, model_machine::specs::Run::run_on))]

ghost use Rattle.std.specs.Prelude.{◌≡◌, [], ◌∷◌, ◌++◌, codes, true, false};
ghost use Rattle.model_wire.specs.Trace.{line, lines_of_events};
ghost use Rattle.model_program.specs.Program.{faulted, output_of};
ghost use Rattle.model_words.specs.Words.{most_turns};
ghost use Rattle.row_machine.specs.Outputs.{asks_deep_inside, at_refused, hello_over, listened, listening_refused, listens, misfit, never_asked, out_of_answers, out_of_turns, over, whole};

/// All events of a run: to its end, of one turn, over a journal that ends, with a line that is
/// none, and with an answer that doesn't fit.
pub fn hello_over_journals()
    ensures whole { hello_over (codes "turn 0" ∷ codes "turn 0" ∷ []) most_turns ≡ whole }
    ensures turns { hello_over (codes "turn 0" ∷ codes "turn 0" ∷ []) 1 ≡ out_of_turns }
    ensures over { hello_over (codes "turn 0" ∷ []) most_turns ≡ out_of_answers }
    ensures refused { hello_over (codes "turn 0" ∷ codes "turm 0" ∷ []) most_turns ≡ at_refused }
    ensures misfit { hello_over (codes "turn 0" ∷ codes "eof" ∷ []) most_turns ≡ misfit }
{}

/// Statuses, and that without the trace only what was printed has a line.
pub fn outputs()
    ensures whole { output_of true whole
        ≡ record {
          text = lines_of_events true whole.events ++ line (codes "= returned None");
          status = 0;
        } }
    ensures refused { (output_of false at_refused).status ≡ 4 }
    ensures misfit { (output_of false misfit).status ≡ 5 }
    ensures over { (output_of false out_of_answers).status ≡ 6 }
    ensures turns { (output_of false out_of_turns).status ≡ 10 }
    ensures fault { faulted false out_of_answers
        ≡ record {
          text = lines_of_events false out_of_answers.events
              ++ line (codes "! fault shelf");
          status = 9;
        } }
{}

/// Scripts that ask for a connection or a listener run like all others: one whose request is never
/// reached, and one that listens, over a journal in which it may and over one in which it may not.
pub fn scripts_of_connections()
    ensures deep { over asks_deep_inside (codes "turn 0" ∷ codes "turn 0" ∷ []) ≡ never_asked }
    ensures listens { over listens (codes "turn 0" ∷ codes "ok" ∷ codes "turn 0" ∷ [])
        ≡ listened }
    ensures refused { over listens (codes "turn 0" ∷ codes "refused" ∷ codes "turn 0" ∷ [])
        ≡ listening_refused }
{}
