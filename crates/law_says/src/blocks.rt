//! Laws of blocks and of values. Each function has no body: its clauses are the laws.
ghost use Rattle.std.specs.Prelude.{◌≡◌, ℕ, Bool, List, [], ◌∷◌, ◌++◌, map};
ghost use Rattle.model_value.specs.Request.{Request};
ghost use Rattle.model_value.specs.Value.{Value, Exc};
ghost use Rattle.model_tree.specs.Syntax.{Program};
ghost use Rattle.model_says.specs.Blocks.{open_blocks};
ghost use Rattle.model_says.specs.Endings.{Asks, Returns, Raises, saying_of};
ghost use Rattle.model_says.specs.Says.{course, step_limit};
ghost use Rattle.model_says.specs.Tape.{Resumed, Tape};
ghost use Rattle.law_says.specs.Given.{AllOf, IsIn, IsClosed, InTape, InSaying};
ghost use Rattle.law_says.specs.Opened.{entered_as, opened_with, answered, opened, LeavesBlocks};

/// An exit is asked only of the block that is open innermost, with what its entry was answered, and
/// it is the exit that belongs to that entry.
pub fn exits_are_of_the_innermost_block()
    ensures { (limit : ℕ) (program : Program) (place : ℕ) (arguments : List Value) (tape : Tape)
        (asked : Request)
        → saying_of (course limit program place arguments tape) ≡ Asks asked
        → LeavesBlocks asked (opened limit program place arguments tape) }
{}

/// An input answers the request that waited. So a block is open from the value that its entry is
/// answered until its exit is answered, in whatever way, and no other answer opens or closes one.
/// These are the open blocks of the definitions.
pub fn answers_open_and_close_blocks()
    ensures answers { (limit : ℕ) (program : Program) (place : ℕ) (arguments : List Value)
        (tape : Tape) (asked : Request)
        (entry : Resumed)
        → saying_of (course limit program place arguments tape) ≡ Asks asked
        → answered limit program place arguments (tape ++ entry ∷ [])
        ≡ answered limit program place arguments tape
        ++ record { request = asked; answer = entry.input } ∷ [] }
    ensures blocks { (limit : ℕ) (program : Program) (place : ℕ) (arguments : List Value)
        (tape : Tape) (asked : Request)
        (entry : Resumed)
        → saying_of (course limit program place arguments tape) ≡ Asks asked
        → opened limit program place arguments (tape ++ entry ∷ [])
        ≡ opened_with (opened limit program place arguments tape) asked entry.input }
    ensures defined { (program : Program) (place : ℕ) (arguments : List Value) (tape : Tape)
        → map entered_as (opened step_limit program place arguments tape)
        ≡ open_blocks program place arguments tape }
{}

/// A coroutine that returned or raised has left all its blocks.
pub fn what_is_over_left_its_blocks()
    ensures returned { (limit : ℕ) (program : Program) (place : ℕ) (arguments : List Value)
        (tape : Tape) (value : Value)
        → saying_of (course limit program place arguments tape) ≡ Returns value
        → opened limit program place arguments tape ≡ [] }
    ensures raised { (limit : ℕ) (program : Program) (place : ℕ) (arguments : List Value)
        (tape : Tape) (fault : Exc)
        → saying_of (course limit program place arguments tape) ≡ Raises fault
        → opened limit program place arguments tape ≡ [] }
{}

/// What a coroutine hands on was given to it. Where its arguments and all that was sent to it are
/// in a closed kind, so is what it asks with, and what it returns.
pub fn what_is_handed_on_was_given()
    ensures { (test : Value → Bool) → IsClosed (IsIn test)
        → (limit : ℕ) (program : Program) (place : ℕ) (arguments : List Value) (tape : Tape)
        → AllOf (IsIn test) arguments → InTape (IsIn test) tape
        → InSaying (IsIn test) (saying_of (course limit program place arguments tape)) }
{}
