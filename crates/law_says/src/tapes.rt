//! Laws of what coroutines say. Each function has no body: its clause is the law.
ghost use Rattle.std.specs.Prelude.{◌≡◌, ℕ, ◌+◌, ◌*◌, ◌≤◌, List, [], ◌∷◌, ◌++◌, length};
ghost use Rattle.model_value.specs.Request.{Request};
ghost use Rattle.model_value.specs.Value.{Value};
ghost use Rattle.model_tree.specs.Syntax.{Expr, Program, Statements, While, If, no_branch, statements, statements_of};
ghost use Rattle.model_says.specs.Asked.{IsFront, asked, waiting, answers_of, inputs_of};
ghost use Rattle.model_says.specs.Endings.{Asks, Progress, saying_of, progress_of};
ghost use Rattle.model_says.specs.Says.{course, call_within, run};
ghost use Rattle.model_says.specs.Tape.{Tape};
ghost use Rattle.law_says.specs.Steps.{steps_in};

/// What a coroutine asks along a tape it asks first along any longer one: more inputs change
/// nothing of what was asked.
pub fn longer_tapes_ask_the_same_first()
    ensures { (limit : ℕ) (program : Program) (place : ℕ) (arguments : List Value)
        (tape more : Tape) →
        IsFront (asked (course limit program place arguments tape))
        (asked (course limit program place arguments (tape ++ more))) }
{}

/// A coroutine that returned, raised or ran away says the same after more inputs.
pub fn what_is_over_stays_over()
    ensures { (limit : ℕ) (program : Program) (place : ℕ) (arguments : List Value)
        (tape more : Tape) →
        waiting (saying_of (course limit program place arguments tape)) ≡ [] →
        saying_of (course limit program place arguments (tape ++ more))
        ≡ saying_of (course limit program place arguments tape) }
{}

/// Requests are answered by the inputs in order, and one waits only after all inputs were taken.
pub fn requests_take_the_inputs_in_order()
    ensures in_order { (limit : ℕ) (program : Program) (place : ℕ) (arguments : List Value)
        (tape : Tape) →
        let ending = course limit program place arguments tape in
        answers_of (progress_of ending).exchanges ++ inputs_of (progress_of ending).tape
        ≡ inputs_of tape }
    ensures all { (limit : ℕ) (program : Program) (place : ℕ) (arguments : List Value)
        (tape : Tape) (request : Request) →
        let ending = course limit program place arguments tape in
        saying_of ending ≡ Asks request →
        answers_of (progress_of ending).exchanges ≡ inputs_of tape }
{}

/// Each statement asks twice at most, as a `with` does. So a request that waits has no more answers
/// before it than twice the statements that the steps so far may have begun, and one for the
/// beginning.
pub fn requests_are_bounded()
    ensures { (limit : ℕ) (program : Program) (place : ℕ) (arguments : List Value)
        (tape : Tape) (request : Request) →
        saying_of (course limit program place arguments tape) ≡ Asks request →
        length tape ≤ 1 + 2 * (limit * (steps_in tape + 1)) }
{}

/// A loop is its test, and where that is True its body and then the loop: that its turns have a
/// bound decides nothing.
pub fn a_loop_is_its_body_and_then_the_loop()
    ensures { (limit : ℕ) (program : Program) (frames : ℕ) (test : Expr) (body : Statements)
        (now : Progress) →
        let call = call_within limit program frames in
        run limit program call (While test body) now ≡
        run limit program call
        (If test (statements (statements_of body ++ While test body ∷ [])) no_branch) now }
{}
