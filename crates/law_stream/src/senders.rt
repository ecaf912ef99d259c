//! The sending side of a connection, and a child's standard input: what each operation keeps, and
//! what holds after any row of them.
ghost use Rattle.std.specs.Prelude.{◌≡◌, ◌+◌, Bool, true, false, List, [], ℕ, ℤ, Option, length, take, drop};
ghost use Rattle.model_wire.specs.declared.event.Handed.{Handed};
ghost use Rattle.model_stream.specs.declared.answers.Wrote.{Wrote};
ghost use Rattle.model_stream.specs.declared.put.Limited.{Limited};
ghost use Rattle.model_stream.specs.Senders.{Sender, Drain, has_unsent, is_lost, new_sender, with_writer, write, send_more, close_sender, fail_sender, lose_sender, drain_sender, limits_sender};
ghost use Rattle.model_stream.specs.Sending.{put_answer, set_eof, written_of};
ghost use Rattle.law_stream.specs.SenderSteps.{Comes};
ghost use Rattle.law_stream.specs.SoundSenders.{Answering, IsInOrder, IsSoundSender, KeepsSender, MayLose, is_broken, is_losing, outlet_of};
ghost use Rattle.law_stream.specs.Ways.{Always, Move, closes, handed_in, losses, one_if};

/// A new sender is sound. Whatever answers come, each operation of a sound one leaves it sound and
/// its bytes in order; it schedules a loss, and asks the outside to close, exactly where it comes to
/// that; and it offers nothing once loss is scheduled.
pub fn operations_keep_senders()
    ensures begins { (whole : Bool) (closed_future : ℕ)
        → IsSoundSender (new_sender whole closed_future) }
    ensures writes { (whom : Handed) (piece : List ℕ) (s : Sender) → IsSoundSender s
        → Always
        (Answering {R = Wrote} (KeepsSender whom 0 (written_of (put_answer piece s.writer) piece) s))
        (write (outlet_of whom) piece s) }
    ensures sends { (whom : Handed) (s : Sender) → IsSoundSender s → has_unsent s ≡ true
        → Always (KeepsSender whom 0 [] s) (send_more (outlet_of whom) s) }
    ensures closes { (whom : Handed) (s : Sender) → IsSoundSender s
        → Always (KeepsSender whom 0 [] s) (close_sender (outlet_of whom) s) }
    ensures fails { (whom : Handed) (s : Sender) → IsSoundSender s
        → Always (KeepsSender whom 0 [] s) (fail_sender (outlet_of whom) s) }
    ensures loses { (whom : Handed) (ran : ℕ) (broken : Bool) (s : Sender) → IsSoundSender s
        → MayLose ran broken s
        → Always (KeepsSender whom ran [] s) (lose_sender (outlet_of whom) broken s) }
    ensures drains { (whom : Handed) (yielded : Bool) (next : ℕ) (s : Sender) → IsSoundSender s
        → Always (Answering {R = Drain} (KeepsSender whom 0 [] s)) (drain_sender yielded next s) }
    ensures limits { (whom : Handed) (high low : Option ℤ) (s : Sender) → IsSoundSender s
        → Always (Answering {R = Limited} (KeepsSender whom 0 [] s)) (limits_sender high low s) }
    ensures ends { (whom : Handed) (s : Sender) → IsSoundSender s
        → KeepsSender whom 0 [] s [] (with_writer (set_eof s.writer) s) }
{}

/// After any row of operations, whichever answers come: what was handed on is a front of what was
/// written, in order, and what is unsent is the rest, unless a loss dropped it. Losses that were
/// scheduled are those that ran, and one that is pending exactly where it is scheduled and not
/// done. The outside was asked to close once where the loss is done, and else never.
pub fn senders_keep_order()
    ensures keeps { (whom : Handed) (s : Sender) (ran : ℕ) (written : List ℕ) (moves : List Move)
        (after : Sender) → IsSoundSender s → Comes whom s ran written moves after
        → KeepsSender whom ran written s moves after }
    ensures unsent { (whom : Handed) (whole : Bool) (closed_future ran : ℕ) (written : List ℕ)
        (moves : List Move) (after : Sender)
        → Comes whom (new_sender whole closed_future) ran written moves after
        → is_broken after ≡ false
        → after.writer.unsent ≡ drop (length (handed_in whom moves)) written }
    ensures dropped { (whom : Handed) (whole : Bool) (closed_future ran : ℕ) (written : List ℕ)
        (moves : List Move) (after : Sender)
        → Comes whom (new_sender whole closed_future) ran written moves after
        → is_broken after ≡ true
        → after.writer.unsent ≡ [] }
    ensures handed { (whom : Handed) (whole : Bool) (closed_future ran : ℕ) (written : List ℕ)
        (moves : List Move) (after : Sender)
        → Comes whom (new_sender whole closed_future) ran written moves after
        → handed_in whom moves ≡ take (length (handed_in whom moves)) written }
    ensures losses { (whom : Handed) (whole : Bool) (closed_future ran : ℕ) (written : List ℕ)
        (moves : List Move) (after : Sender)
        → Comes whom (new_sender whole closed_future) ran written moves after
        → losses whom moves ≡ ran + one_if (is_losing after) }
    ensures closes { (whom : Handed) (whole : Bool) (closed_future ran : ℕ) (written : List ℕ)
        (moves : List Move) (after : Sender)
        → Comes whom (new_sender whole closed_future) ran written moves after
        → closes whom moves ≡ one_if (is_lost after) }
{}
