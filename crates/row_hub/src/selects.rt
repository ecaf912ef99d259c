//! Selects.
ghost use Rattle.std.specs.Prelude.{◌≡◌, [], ◌∷◌, true, false, Some, None, codes};
ghost use Rattle.model_wire.specs.declared.item.Item.TheVariants as item;
ghost use Rattle.model_wire.specs.declared.watch.Watch.TheVariants as watch;
ghost use Rattle.model_pump.specs.declared.post.PostKind.TheVariants as post;
ghost use Rattle.model_pump.specs.declared.stream.Stream.TheVariants as stream;
ghost use Rattle.model_hub.specs.Others.{PollFailed, PollStarved, Failed, Memory};
ghost use Rattle.model_hub.specs.Select.{polled_wait, polled_watch};
ghost use Rattle.row_hub.specs.Made.{boex, every_letter, all_one, both, all_five, errs_exit, one, two, five, hub_of, with_kept, with_writes, broken_child, say, out, out_end, errs_end, exit, broken, turn_of, out_item, out_over, errs_over, exit_item, broken_item};
ghost use Rattle.row_hub.specs.Selects.{select_seen, poll_seen, takes, wait_of, whole, whole_item, three_pieces, four_pieces, long_extra, full_kept, too_long};

/// A child ends while its reader is paused: what it wrote is kept, and then told, one item of a
/// letter in a select.
pub fn ends_with_bytes_left()
    ensures ends { select_seen errs_exit []
        (out 0 (codes "ab") ∷ out_end 0 ∷ exit 0 ∷ errs_end 0 ∷ []) one
        ≡ (turn_of (exit_item 0 ∷ errs_over 0 ∷ []), out_item 0 (codes "ab") ∷ out_over 0 ∷ []) }
    ensures reads { select_seen all_one [] []
        (with_kept (out_item 0 (codes "ab") ∷ out_over 0 ∷ []) one)
        ≡ (turn_of (out_item 0 (codes "ab") ∷ []), out_over 0 ∷ []) }
    ensures ends_then { select_seen all_one [] [] (with_kept (out_over 0 ∷ []) one)
        ≡ (turn_of (out_over 0 ∷ []), []) }
{}

/// An item that finds too few bytes left is kept, and so is the end behind it, which would fit;
/// another child's item goes in. No post is taken, since no piece may come. One that is too long for
/// any answer is kept for ever.
pub fn one_behind_it()
    ensures waits { select_seen both (long_extra ∷ []) [] full_kept
        ≡ (turn_of (long_extra ∷ out_over 1 ∷ []), whole_item 0 ∷ out_over 0 ∷ []) }
    ensures unfit { select_seen all_one [] [] (with_kept too_long one) ≡ (turn_of [], too_long) }
    ensures unfit_waits { polled_wait all_one (with_kept too_long one) (Some 9) ≡ Some 9 }
{}

/// A post on a seat of another pump tells nothing, and neither does one on a seat that nobody holds.
pub fn other_seats()
    ensures errs_seat { select_seen all_one [] (say 2 (post.Piece stream.Out 0 (codes "ab")) ∷ [])
        one ≡ (turn_of [], []) }
    ensures no_seat { select_seen all_one [] (out 7 (codes "ab") ∷ out_end 7 ∷ []) one
        ≡ (turn_of [], []) }
    ensures break_of_another_pump { select_seen all_one [] (say 3 post.Broken ∷ []) one
        ≡ (turn_of (broken_item 0 ∷ []), []) }
{}

/// An answer that fills up: the fifth post is left in the inbox. Posts are taken until there is
/// enough, or until the inbox has none, and no longer.
pub fn fills_up()
    ensures four { takes all_five [] four_pieces false five ≡ true }
    ensures three { takes all_five [] three_pieces false five ≡ false }
    ensures three_and_none { takes all_five [] three_pieces true five ≡ true }
    ensures four_and_none { takes all_five [] four_pieces true five ≡ false }
    ensures a_fifth { takes all_five [] (whole 0 ∷ whole 1 ∷ whole 2 ∷ whole 3 ∷ whole 4 ∷ [])
        false five ≡ false }
    ensures no_room { takes both (long_extra ∷ []) [] false two ≡ true }
    ensures no_room_yet { takes both (long_extra ∷ []) (out_end 0 ∷ []) false two ≡ false }
{}

/// A Fault in the middle: nothing is told, and all is kept. It is the last post that is taken.
pub fn a_fault()
    ensures keeps { select_seen all_one [] (out 0 (codes "cd") ∷ say 2 post.Fault ∷ [])
        (with_kept (out_item 0 (codes "ab") ∷ []) one)
        ≡ (Failed, out_item 0 (codes "ab") ∷ out_item 0 (codes "cd") ∷ []) }
    ensures keeps_no_more { select_seen (watch.Server 3 ∷ every_letter 0 ∷ [])
        (item.ReadableServer 3 ∷ []) (exit 0 ∷ say 2 post.Fault ∷ []) (hub_of (broken_child ∷ []))
        ≡ (Failed, exit_item 0 ∷ []) }
    ensures is_last { takes all_one [] (out 0 (codes "cd") ∷ say 2 post.Fault ∷ []) false one
        ≡ true }
    ensures none_behind { takes all_one [] (say 2 post.Fault ∷ out 0 (codes "cd") ∷ []) false one
        ≡ false }
    ensures starves { select_seen all_one [] (out 0 (codes "ab") ∷ say 2 post.Starved ∷ []) one
        ≡ (Memory, out_item 0 (codes "ab") ∷ []) }
{}

/// A poll that fails, or that memory is refused to, leaves what is kept.
pub fn poll_fails()
    ensures fails { poll_seen all_one PollFailed (with_kept (out_over 0 ∷ []) one)
        ≡ (Failed, out_over 0 ∷ []) }
    ensures starves { poll_seen all_one PollStarved (with_kept (out_over 0 ∷ []) one)
        ≡ (Memory, out_over 0 ∷ []) }
{}

/// When a poll waits, and what it watches.
pub fn waits()
    ensures its_own { polled_wait all_one one (Some 7) ≡ Some 7 }
    ensures without_end { polled_wait all_one one None ≡ None }
    ensures kept { polled_wait all_one (with_kept (out_over 0 ∷ []) one) None ≡ Some 0 }
    ensures kept_unwatched { polled_wait errs_exit (with_kept (out_over 0 ∷ []) one) None ≡ None }
    ensures writable { wait_of (every_letter 0 ∷ []) (with_writes 6) ≡ Some 0 }
    ensures full { wait_of (every_letter 0 ∷ []) (with_writes 7) ≡ None }
    ensures broken { wait_of all_one broken_child ≡ Some 0 }
    ensures broken_unwatched { wait_of errs_exit broken_child ≡ None }
    ensures watch { polled_watch (watch.Server 3 ∷ boex 0 ∷ watch.Extra ∷ [])
        ≡ watch.Server 3 ∷ watch.Extra ∷ [] }
{}

/// The poller's items come first, then what was kept, then what is so of the standard input, then
/// the posts' items. A break is told once.
pub fn in_this_order()
    ensures order { select_seen (watch.Server 3 ∷ every_letter 0 ∷ []) (item.ReadableServer 3 ∷ [])
        (exit 0 ∷ broken 0 ∷ broken 0 ∷ []) (with_kept (out_over 0 ∷ []) one)
        ≡ (turn_of (item.ReadableServer 3 ∷ out_over 0 ∷ item.WritableChild 0 ∷ exit_item 0 ∷ broken_item 0 ∷ []), []) }
    ensures broken_before { select_seen all_one [] (broken 0 ∷ []) (hub_of (broken_child ∷ []))
        ≡ (turn_of (broken_item 0 ∷ []), []) }
    ensures unwatched { select_seen errs_exit [] (broken 0 ∷ []) one ≡ (turn_of [], []) }
{}
