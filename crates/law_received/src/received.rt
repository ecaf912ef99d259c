//! Laws of turns and runs, whatever is open and whatever the outside answers. Each function has no
//! body: its clauses are the laws. `S` is the state of what is added to the loop's own requests,
//! whatever that is.
ghost use Rattle.std.specs.Prelude.{◌≡◌, ◌++◌, ℕ, true, false, List, [], Some, drop, length, take};
ghost use Rattle.model_tree.specs.Syntax.{Program};
ghost use Rattle.model_value.specs.Value.{Exc};
ghost use Rattle.model_wire.specs.Journal.{Entry};
ghost use Rattle.model_stream.specs.Reading.{Reading, ReadOp, take_read};
ghost use Rattle.model_stream.specs.Requests.{StreamReader};
ghost use Rattle.model_machine.specs.Extra.{Extra};
ghost use Rattle.model_machine.specs.Replies.{reads, reads_all, waits_no_more};
ghost use Rattle.model_machine.specs.State.{State, start};
ghost use Rattle.model_machine.specs.Turn.{turn};
ghost use Rattle.law_stream.specs.ReaderSteps.{RaisesAlone};
ghost use Rattle.law_received.specs.Readers.{held_of, is_failed, received};
ghost use Rattle.law_walk.specs.Walks.{In, IsRunIn, LeavesTo};
ghost use Rattle.law_received.specs.Gives.{GivesAll, GivesNext};
ghost use Rattle.law_received.specs.Received.{AreOver, AreReadInOrder, HaveRead, IsBetween, IsRead, read_of};

/// In each state of each run of every program, over whatever the outside answers, what reads took
/// of a connection or of a pipe of a child is a front of what was received, in order; behind it comes
/// what was let go as the reader failed, and then what is held. One that didn't fail let nothing go:
/// nothing is lost, and nothing comes twice. So it is between two turns, between any two callbacks of
/// a turn, and where the run ends, but where a call has no answer that fits.
pub fn what_reads_took_is_a_front<S>()
    ensures of_a_run { (limit : ℕ) (added : Extra S) (most : ℕ) (state : S) (program : Program)
        (answers : List Entry) (turns : ℕ)
        → IsRunIn AreReadInOrder limit added turns (start most state program answers) }
    ensures from_any { (limit : ℕ) (added : Extra S) (turns : ℕ) (s : State S) → In IsBetween s
        → IsRunIn AreReadInOrder limit added turns s }
    ensures turn { (limit : ℕ) (added : Extra S) (s : State S) → In IsBetween s
        → LeavesTo AreReadInOrder IsBetween (turn limit added s) }
    ensures begins { (most : ℕ) (state : S) (program : Program) (answers : List Entry)
        → In IsBetween (start most state program answers) }
    ensures front { (s : State S) (from : StreamReader) (read let_go : List ℕ)
        → IsRead from read let_go s.streams s.events
        → read ≡ take (length read) (received from s.events) }
    ensures behind { (s : State S) (from : StreamReader) (read let_go : List ℕ)
        → IsRead from read let_go s.streams s.events
        → let_go ++ held_of from s.streams ≡ drop (length read) (received from s.events) }
    ensures one { (s : State S) (from : StreamReader) (read let_go : List ℕ)
        → IsRead from read let_go s.streams s.events → is_failed from s.streams ≡ false
        → read ≡ read_of from s.streams s.events }
    ensures rest { (s : State S) (from : StreamReader) (read let_go : List ℕ)
        → IsRead from read let_go s.streams s.events → is_failed from s.streams ≡ false
        → held_of from s.streams ≡ drop (length read) (received from s.events) }
{}

/// What was read once stays read: in every state of the run from there on it is a front of what
/// reads took. So no byte is given twice. What is let go is what a reader holds as it fails, and
/// nothing that is read (`Since`); once it failed, no more is read of it, and no more is let go.
pub fn what_was_read_stays<S>()
    ensures reads { (limit : ℕ) (added : Extra S) (turns : ℕ) (s : State S) (from : StreamReader)
        (read let_go : List ℕ) → In IsBetween s → IsRead from read let_go s.streams s.events
        → IsRunIn (HaveRead from read let_go s.streams s.events) limit added turns s }
    ensures over { (limit : ℕ) (added : Extra S) (turns : ℕ) (s : State S) (from : StreamReader)
        (read let_go : List ℕ) → In IsBetween s → IsRead from read let_go s.streams s.events
        → is_failed from s.streams ≡ true
        → IsRunIn (AreOver from read let_go) limit added turns s }
{}

/// A read, at its start and at each waking, gives the bytes that come next: those that are received
/// behind what reads took before. With an exception it removes such, perhaps none; and where it
/// waits, none. A read with a negative count takes at each look what comes next, and gives in the
/// end what its looks took. As its task is resumed, what was read stays as it was.
pub fn a_read_gives_what_comes_next<S>()
    ensures reads { (task : ℕ) (op : ReadOp) (from : StreamReader) (s : State S)
        → GivesNext from s (reads task op from s) }
    ensures all { (task : ℕ) (from : StreamReader) (taken : List ℕ) (s : State S)
        → GivesAll from task taken s (reads_all task from taken s) }
    ensures resumed { (on : ℕ) (from : StreamReader) (s : State S) (other : StreamReader)
        (read let_go : List ℕ) → IsRead other read let_go s.streams s.events
        → IsRead other read let_go (waits_no_more on from s).streams
        (waits_no_more on from s).events }
{}

/// A reader that failed holds nothing, in each state of each run, and each read of it raises and
/// leaves it as it is.
pub fn a_failed_reader_holds_nothing<S>()
    ensures empty { (s : State S) → In AreReadInOrder s → (from : StreamReader)
        → is_failed from s.streams ≡ true → held_of from s.streams ≡ [] }
    ensures raises { (op : ReadOp) (r : Reading) (fault : Exc) → r.failed ≡ Some fault
        → RaisesAlone (take_read op r) r }
{}
