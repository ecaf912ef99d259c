//! Lanes, feeding, and the calls that the hub passes on.
ghost use Rattle.std.specs.Prelude.{◌≡◌, [], ◌∷◌, true, Some, None, pos, negsuc, codes};
ghost use Rattle.model_wire.specs.declared.answer.Answer.TheVariants as answer;
ghost use Rattle.model_wire.specs.declared.call.Call.TheVariants as call;
ghost use Rattle.model_pump.specs.declared.command.Command.TheVariants as command;
ghost use Rattle.model_hub.specs.declared.child.Closing.TheVariants.{Open, Owed, Closed, Unclosable};
ghost use Rattle.model_hub.specs.declared.child.Stay.TheVariants.{Gone};
ghost use Rattle.model_hub.specs.declared.pump.Pump.TheVariants as pump;
ghost use Rattle.model_hub.specs.Others.{Got, Failed, Memory};
ghost use Rattle.model_hub.specs.Calls.{ask};
ghost use Rattle.model_hub.specs.Asked.{polls_of, answers_of, kills_after, launches_after, faults_in};
ghost use Rattle.model_wire.specs.declared.watch.Watch.TheVariants as watch;
ghost use Rattle.model_pump.specs.declared.post.PostKind.TheVariants as post;
ghost use Rattle.row_hub.specs.Made.{child, open_flow, over_flow, owing_flow, with_out, with_closing, with_writes, broken_child, hub_of, one, all_one, out_alone, all_given, all_full, all_spent, with_posts, with_lanes, out, broken, broken_item, turn_of, two, both, say, out_item, with_kept, no_kills, no_launches};
ghost use Rattle.row_hub.specs.Calls.{select_of, out_after, errs_after, out_with, close_after, to_lane, feed_said, writes_after, extra_said};

/// A stream gets one Go for each piece, while it is watched and until its End was taken. What finds
/// its lane full is given at the next call, whatever that is and whatever it watches.
pub fn gos()
    ensures first { out_after (select_of out_alone) all_given (child 0) ≡ open_flow 1 0 ∷ [] }
    ensures unwatched { errs_after (select_of out_alone) all_given (child 0) ≡ open_flow 0 0 ∷ [] }
    ensures not_again { out_after (select_of out_alone) all_given (with_out (open_flow 1 0))
        ≡ open_flow 1 0 ∷ [] }
    ensures after_piece { out_with (out 0 (codes "a")) (with_out (open_flow 1 0))
        ≡ open_flow 1 1 ∷ [] }
    ensures second { out_after (select_of out_alone) all_given (with_out (open_flow 1 1))
        ≡ open_flow 2 1 ∷ [] }
    ensures over { out_after (select_of out_alone) all_given (with_out (over_flow 1 1))
        ≡ over_flow 1 1 ∷ [] }
    ensures full { out_after (select_of out_alone) all_full (child 0) ≡ owing_flow 0 0 ∷ [] }
    ensures still_full { out_after (call.Kill 9) all_full (with_out (owing_flow 0 0))
        ≡ owing_flow 0 0 ∷ [] }
    ensures then_given { out_after (call.Kill 9) all_given (with_out (owing_flow 0 0))
        ≡ open_flow 1 0 ∷ [] }
    ensures one_go { out_after (select_of out_alone) all_given (with_out (owing_flow 0 0))
        ≡ open_flow 1 0 ∷ [] }
    ensures spent { out_after (select_of out_alone) all_spent (child 0) ≡ open_flow 0 0 ∷ [] }
    ensures no_longer_owed { out_after (call.Kill 9) all_spent (with_out (owing_flow 0 0))
        ≡ open_flow 0 0 ∷ [] }
{}

/// An `end` gives one Close. One that finds its lane full is given at the next call, and one that
/// finds it spent never.
pub fn closes()
    ensures given { close_after (call.End 0) all_given (child 0) ≡ Closed ∷ [] }
    ensures another { close_after (call.End 1) all_given (child 0) ≡ Open ∷ [] }
    ensures full { close_after (call.End 0) all_full (child 0) ≡ Owed ∷ [] }
    ensures still_full { close_after (call.Accept 3) all_full (with_closing Owed) ≡ Owed ∷ [] }
    ensures then_given { close_after (call.Accept 3) all_given (with_closing Owed) ≡ Closed ∷ [] }
    ensures once { close_after (call.End 0) all_full (with_closing Closed) ≡ Closed ∷ [] }
    ensures spent { close_after (call.End 0) all_spent (child 0) ≡ Unclosable ∷ [] }
    ensures never_again { close_after (call.End 0) all_given (with_closing Unclosable)
        ≡ Unclosable ∷ [] }
{}

/// What a call gives to the lanes of a child.
pub fn commands()
    ensures go { to_lane (select_of out_alone) all_given (child 0) pump.Out ≡ command.Go ∷ [] }
    ensures unwatched { to_lane (select_of out_alone) all_given (child 0) pump.Errs ≡ [] }
    ensures full { to_lane (select_of out_alone) all_full (child 0) pump.Out ≡ [] }
    ensures write { to_lane (call.Feed 0 (codes "ab")) all_given (child 0) pump.Stdin
        ≡ command.Write (codes "ab") ∷ [] }
    ensures close { to_lane (call.End 0) all_given (child 0) pump.Stdin ≡ command.Close ∷ [] }
    ensures owed { to_lane (call.End 0) all_given (with_closing Owed) pump.Stdin
        ≡ command.Close ∷ [] }
    ensures close_first { to_lane (call.Feed 0 (codes "ab")) all_given
        (with_closing Owed) pump.Stdin
        ≡ command.Close ∷ command.Write (codes "ab") ∷ [] }
    ensures none_behind_it { to_lane (call.Feed 0 (codes "ab")) all_full
        (with_closing Owed) pump.Stdin ≡ [] }
{}

/// A feed takes all its bytes or none, and each cause of `again`.
pub fn feeds()
    ensures took { feed_said all_given (codes "abc") (child 0) ≡ Got (answer.Took 3) }
    ensures one_write { writes_after all_given (codes "abc") (child 0) ≡ 1 ∷ [] }
    ensures six { feed_said all_given (codes "abc") (with_writes 6) ≡ Got (answer.Took 3) }
    ensures seven { feed_said all_given (codes "abc") (with_writes 7) ≡ Got answer.Again }
    ensures none_written { writes_after all_given (codes "abc") (with_writes 7) ≡ 7 ∷ [] }
    ensures full { feed_said all_full (codes "abc") (child 0) ≡ Got answer.Again }
    ensures spent { feed_said all_spent (codes "abc") (child 0) ≡ Got answer.Again }
    ensures no_bytes { feed_said all_given [] (child 0) ≡ Got answer.Again }
    ensures no_child { (ask (call.Feed 1 (codes "abc")) (with_lanes all_given) one).1
        ≡ Got answer.Again }
    ensures gone { feed_said all_given (codes "abc") (record (child 0) { stay = Gone })
        ≡ Got answer.Again }
    ensures close_owed { feed_said all_full (codes "abc") (with_closing Owed) ≡ Got answer.Again }
    ensures close_given { feed_said all_given (codes "abc") (with_closing Closed)
        ≡ Got (answer.Took 3) }
{}

/// A break is no answer of a feed before its post was taken, and is one ever after, whatever else
/// would make it `again`. A select tells it.
pub fn breaks()
    ensures before { feed_said all_given (codes "abc") (child 0) ≡ Got (answer.Took 3) }
    ensures tells { (ask (select_of all_one) (with_posts [] (broken 0 ∷ [])) one).1
        ≡ turn_of (broken_item 0 ∷ []) }
    ensures after { (ask (call.Feed 0 (codes "abc")) (with_lanes all_given)
        (ask (select_of all_one) (with_posts [] (broken 0 ∷ [])) one).0).1
        ≡ Got answer.Broken }
    ensures untold { (ask (call.Feed 0 (codes "abc")) (with_lanes all_given)
        (ask (select_of []) (with_posts [] (broken 0 ∷ [])) one).0).1
        ≡ Got answer.Broken }
    ensures seven { feed_said all_given (codes "abc") (record broken_child { writes = 7 })
        ≡ Got answer.Broken }
    ensures full { feed_said all_full (codes "abc") broken_child ≡ Got answer.Broken }
    ensures no_bytes_and_gone { feed_said all_given [] (record broken_child { stay = Gone })
        ≡ Got answer.Broken }
{}

/// A call on a socket is answered as the poller answers it. Once memory was refused it is so for
/// ever.
pub fn others_answer()
    ensures socket { (ask (call.Accept 3) (record (with_lanes all_given) { net = Got answer.Conn })
        one).1 ≡ Got answer.Conn }
    ensures fails { (ask (call.Accept 3) (with_lanes all_given) one).1 ≡ Failed }
    ensures kill { (ask (call.Kill 7) (with_lanes all_given) one).1 ≡ Got answer.Done }
    ensures no_memory { (ask (call.Accept 3) (record (with_lanes all_given) { net = Memory })
        one).0.starved ≡ true }
    ensures for_ever { (ask (call.Kill 0) (with_lanes all_given) (record one { starved = true })).1
        ≡ Memory }
{}

/// An added request on datagrams, of a code from 400 to 403, is answered as the poller answers it;
/// any other is refused, and the poller isn't asked.
pub fn added_requests_answer()
    ensures opens { extra_said (pos 400) (Got (answer.Extra (codes "0")))
        ≡ Got (answer.Extra (codes "0")) }
    ensures not_opened { extra_said (pos 400) (Got answer.Refused) ≡ Got answer.Refused }
    ensures fails { extra_said (pos 400) Failed ≡ Failed }
    ensures sends { extra_said (pos 401) (Got (answer.Extra (codes "sent")))
        ≡ Got (answer.Extra (codes "sent")) }
    ensures third { extra_said (pos 402) (Got (answer.Extra [])) ≡ Got (answer.Extra []) }
    ensures closes { extra_said (pos 403) (Got (answer.Extra [])) ≡ Got (answer.Extra []) }
    ensures below { extra_said (pos 399) (Got (answer.Extra [])) ≡ Got answer.Refused }
    ensures above { extra_said (pos 404) (Got (answer.Extra [])) ≡ Got answer.Refused }
    ensures negative { extra_said (negsuc 399) (Got (answer.Extra [])) ≡ Got answer.Refused }
    ensures no_memory { (ask (call.Extra (pos 401) (codes "a"))
        (record (with_lanes all_given) { net = Memory }) one).0.starved ≡ true }
    ensures asked { polls_of (call.Extra (pos 401) (codes "a")) all_given one
        ≡ call.Extra (pos 401) (codes "a") ∷ [] }
    ensures unasked { polls_of (call.Extra (pos 404) (codes "a")) all_given one ≡ [] }
    ensures told { answers_of (call.Extra (pos 403) [])
        (record (with_lanes all_given) { net = Got (answer.Extra []) })
        ≡ answer.Extra [] ∷ [] }
    ensures untold { answers_of (call.Extra (pos 404) [])
        (record (with_lanes all_given) { net = Got (answer.Extra []) }) ≡ [] }
{}

/// What a call asks of the poller and of the launcher, and which posts are failures.
pub fn asks_outside()
    ensures accept { polls_of (call.Accept 3) all_given one ≡ call.Accept 3 ∷ [] }
    ensures feed { polls_of (call.Feed 0 (codes "a")) all_given one ≡ [] }
    ensures sockets_alone { polls_of (call.Select (Some 9) both) all_given two
        ≡ call.Select (Some 9) (watch.Extra ∷ []) ∷ [] }
    ensures no_wait { polls_of (call.Select None all_one) all_given
        (with_kept (out_item 0 (codes "a") ∷ []) one)
        ≡ call.Select (Some 0) [] ∷ [] }
    ensures kill { kills_after (call.Kill 7) (Some no_kills)
        ≡ Some (record { count = 1; child = 7 }) }
    ensures no_kill { kills_after (call.End 7) (Some no_kills) ≡ Some no_kills }
    ensures started { launches_after (call.Launch (codes "cat" ∷ [])) (Got answer.Child) 2
        (Some no_launches)
        ≡ Some (record { count = 1; words = codes "cat" ∷ []; child = 2 }) }
    ensures refused { launches_after (call.Launch (codes "cat" ∷ [])) (Got answer.Refused) 2
        (Some no_launches) ≡ Some no_launches }
    ensures faults { faults_in (say 0 post.Fault ∷ say 1 post.Starved ∷ say 2 post.Fault ∷ []) ≡ 2 }
{}
