//! Connections and children.
#![tactic(auto, unfolding(model_text::specs::Tokens::tokens_of, model_text::specs::Pieces::piece_at, model_text::specs::Tokens::piece_tokens, model_text::specs::Levels::term_of, model_text::specs::Forms::form_of, model_text::specs::FirstPass::forms_from, model_text::specs::SecondPass::second_pass, model_text::specs::Bodies::statements_in, model_text::specs::Scripts::script_of, model_says::specs::Says::course, model_machine::specs::Replies::reply, model_machine::specs::Step::serve, model_machine::specs::Step::step, model_machine::specs::Turn::effect, model_machine::specs::Turn::run_below, model_machine::specs::Turn::turn, model_machine::specs::Run::run_on))]

ghost use Rattle.std.specs.Prelude.{◌≡◌};
ghost use Rattle.row_machine.specs.Children.{exit_first_text, exit_first_answers, exit_first_seen, broken_stdin_text, broken_stdin_answers, broken_stdin_seen};
ghost use Rattle.row_machine.specs.Streams.{over, over_few, listener_text, listener_answers, listener_seen, write_after_eof_text, write_after_eof_answers, write_after_eof_seen, refused_text, refused_answers, refused_seen, failing_handler_text, failing_handler_answers, failing_handler_seen, dropped_text, dropped_answers, dropped_seen, given_up_text, given_up_answers, given_up_seen, numbered_text, numbered_answers, numbered_seen, drained_text, drained_answers, drained_seen};

/// A listener accepts a connection, whose handler reads a line and closes it; then the listener is closed.
pub fn listener()
    ensures { over listener_text listener_answers ≡ listener_seen }
{}

/// Writing the end passes it on at once where nothing is unsent; no write follows it, not even of nothing.
pub fn write_after_eof()
    ensures { over write_after_eof_text write_after_eof_answers ≡ write_after_eof_seen }
{}

/// A connect is refused, and so is a listen; a port is a number from 1 to 65,535.
pub fn refused()
    ensures { over refused_text refused_answers ≡ refused_seen }
{}

/// A child exits before its pipes end: the wait goes on at once, and the read of all goes on to the end of the pipe.
pub fn exit_first()
    ensures { over exit_first_text exit_first_answers ≡ exit_first_seen }
{}

/// A handler that fails closes its connection.
pub fn failing_handler()
    ensures { over failing_handler_text failing_handler_answers ≡ failing_handler_seen }
{}

/// A connect that is cancelled while its connection is being made closes it.
pub fn dropped()
    ensures { over dropped_text dropped_answers ≡ dropped_seen }
{}

/// A read that is given up leaves its place: the next read waits in its stead.
pub fn given_up()
    ensures { over given_up_text given_up_answers ≡ given_up_seen }
{}

/// Where no more can be numbered, as a fourth of three, the outside is not asked.
pub fn numbered()
    ensures { over_few 3 numbered_text numbered_answers ≡ numbered_seen }
{}

/// A standard input that breaks with bytes unsent is lost with an exception, which who waits for its close is thrown.
pub fn broken_stdin()
    ensures { over broken_stdin_text broken_stdin_answers ≡ broken_stdin_seen }
{}

/// Over its high mark a writer is paused, and a drain waits until at most the low mark is unsent.
pub fn drained()
    ensures { over drained_text drained_answers ≡ drained_seen }
{}
