//! Readers with those who wait for them: the receiving side of a connection, and each pipe of a
//! child.
ghost use Rattle.std.specs.Prelude.{◌≡◌, ◌+◌, ◌++◌, ◌≤◌, List, [], None, true, false, ℕ};
ghost use Rattle.model_stream.specs.Receivers.{Receiver};
ghost use Rattle.law_stream.specs.Ways.{Always, Move};
ghost use Rattle.law_stream.specs.ReceiverOrder.{InOrder, ReceiverGives, gives_in, has_failed, let_go_in, received_in};
ghost use Rattle.law_stream.specs.SoundReceivers.{KeepsReceiver, ReceiverComes, ReceiverStep, began_in, done, many_of, told, waits_on};

/// A read waits only for a reader that takes more, and neither ended nor failed, and each operation
/// leaves it so. A future is told at most as often as reads began to wait on it. So after any row of
/// operations.
pub fn operations_keep_receivers()
    ensures one { (step : ReceiverStep) (r : Receiver)
        → Always (KeepsReceiver (began_in step) r) (done step r) }
    ensures row { (r : Receiver) (began : List ℕ) (moves : List Move) (after : Receiver)
        → ReceiverComes r began moves after → KeepsReceiver began r moves after }
{}

/// So the future of a read, which is made for it, is told once at most; and where it is held still,
/// it was told never.
pub fn a_waiter_is_woken_once()
    ensures { (future : ℕ) (r : Receiver) (began : List ℕ) (moves : List Move) (after : Receiver)
        → ReceiverComes r began moves after → r.waiter ≡ None → many_of future began ≤ 1
        → told future moves + waits_on future after.waiter ≤ 1 }
{}

/// What was held and what was received since is what went, then what was let go as it failed, and
/// then what is held now. What goes with a read's answer is its bytes, and with an exception what that
/// removed: so reads give what was received, in order, once. One that failed gives nothing more, and
/// one that didn't let nothing go.
pub fn receivers_give_in_order()
    ensures one { (step : ReceiverStep) (r : Receiver)
        → Always (InOrder (received_in step) (let_go_in step r) r) (gives_in step r) }
    ensures row { (r : Receiver) (received gave let_go : List ℕ) (after : Receiver)
        → ReceiverGives r received gave let_go after
        → r.reader.held ++ received ≡ gave ++ (let_go ++ after.reader.held) }
    ensures none { (r : Receiver) (received gave let_go : List ℕ) (after : Receiver)
        → ReceiverGives r received gave let_go after → has_failed r ≡ true → gave ≡ [] }
    ensures kept { (r : Receiver) (received gave let_go : List ℕ) (after : Receiver)
        → ReceiverGives r received gave let_go after → has_failed after ≡ false
        → let_go ≡ [] }
{}
