//! A launch.
ghost use Rattle.std.specs.Prelude.{◌≡◌, ◌≤◌, ◌<◌, ◌-◌, ◌^◌, ◌++◌, ◌∷◌, [], true, length, Some, slice_set, IfOk, OnErr};
ghost use Rattle.model_wire.specs.declared.call.Call.TheVariants as call;
ghost use Rattle.model_hub.specs.declared.child.Seats.{Seats};
ghost use Rattle.model_hub.specs.Children.{new_child};
ghost use Rattle.model_hub.specs.Others.{Got};
ghost use Rattle.aio_postbox.specs.Fours.{seats_of};
ghost use Rattle.aio_roster.specs.Rosters.{Numbered};
ghost use Rattle.aio_roster.specs.Changes.{MayBeLent, AreApart};
ghost use Rattle.aio_live.specs.Launching.{kit_seats, lanes_with, LaunchesNext, LaunchTold, AsksLauncher};

use crate::opening::{Ends, Heads, open};
use crate::pumped::Pumped;
use crate::state::State;
use aio_base::Memory;
use aio_hub::{Launched, Launcher, PumpKit};
use aio_inbox::{Inbox, InboxName, Poster};
use aio_lane::Head;
use aio_lanes::{ChildLanes, Lanes};
use aio_postbox::Four;
use aio_serving::Command;
use aio_wire::{Answer, WordList};
use model_hub::Seats;
use std::alloc::Global;
use std::collections::VecDeque;
use std::sync::{Arc, Wait};

/// How many children a hub launches at most.
const MOST: usize = u32::MAX as usize;

// The first of the fours that are free.
fn first<N: InboxName>(free: &mut VecDeque<Four<N>>) -> Four<N>
    requires { 0 < length free.old.items }
    ensures { free.old.items ≡ result ∷ free.new.items }
{
    free.pop_front().unwrap()
}

// What a launch is given for the pumps of a child, and the heads of their lanes.
fn kit_of<N: InboxName>(
    child: u32,
    inbox: Arc<Inbox<N>, Global>,
    ends: Ends,
    four: Four<N>,
) -> (Heads, PumpKit<Inbox<N>, Poster<N>>)
    ensures heads { result.0 ≡ ends.heads }
    ensures child { result.1.child ≡ child }
    ensures tails { (result.1.stdin ≡ ends.stdin) × (result.1.out ≡ ends.out)
        × (result.1.errs ≡ ends.errs) }
    ensures seats { kit_seats result.1 ≡ seats_of four }
{
    let Ends {
        heads,
        stdin,
        out,
        errs,
    } = ends;
    let Four {
        stdin: stdin_seat,
        out: out_seat,
        errs: errs_seat,
        exit: exit_seat,
    } = four;
    let kit = PumpKit {
        child,
        inbox,
        stdin,
        out,
        errs,
        stdin_seat,
        out_seat,
        errs_seat,
        exit_seat,
    };
    (heads, kit)
}

// The lanes of a child that runs.
fn with_run<Run>(heads: Heads, run: Run) -> ChildLanes<Run>
    ensures { result ≡ lanes_with heads run }
{
    let Heads { stdin, out, errs } = heads;
    ChildLanes {
        stdin,
        out,
        errs,
        run,
    }
}

// Gives Stop to a lane whose tail was given up, and lets it go.
fn stop<R: Wait>(rt: &R, head: Head) {
    let mut own = head;
    let _told = own.give(rt, Command::Stop);
}

// Gives Stop to the lanes of a child that wasn't launched, and lets them go.
fn stop_all<R: Wait>(rt: &R, heads: Heads) {
    let Heads { stdin, out, errs } = heads;
    stop(rt, stdin);
    stop(rt, out);
    stop(rt, errs);
}

// A child runs: it has the next number, these seats and these lanes.
fn admit<N: InboxName, Run: Drop>(
    pumped: &mut Pumped<N>,
    lanes: &mut Lanes<Run>,
    seats: Seats,
    number: u32,
    own: ChildLanes<Run>,
)
    requires room { pumped.old.roster.room ≡ true }
    requires last { number ≡ length pumped.old.roster.children }
    requires few { number < 2 ^ 32 - 1 }
    requires lent { MayBeLent pumped.old.roster.children seats }
    requires placed { number < length lanes.old }
    ensures added { pumped.new.roster.children
        ≡ pumped.old.roster.children ++ new_child number seats ∷ [] }
    ensures lent { (other : Seats) → AreApart other seats
        → MayBeLent pumped.old.roster.children other → MayBeLent pumped.new.roster.children other }
    ensures numbered { Numbered pumped.new.roster.children }
    ensures postbox { pumped.new.postbox ≡ pumped.old.postbox }
    ensures lanes { lanes.new ≡ slice_set lanes.old number (Some own) }
{
    pumped.roster.admit(seats);
    lanes.put(number, own);
}

impl<N: InboxName, Run: Drop> State<N, Run> {
    // A launch, where four seats are free and a number is left.
    fn launch_one<R: Wait, L: Launcher<Inbox<N>, Poster<N>, Run = Run>>(
        &mut self,
        rt: &R,
        alloc: Global,
        launcher: &mut L,
        words: &WordList,
        number: u32,
    ) -> Result<Answer, Memory>
        requires free { 0 < length self.old.hub.free }
        requires last { number ≡ length self.old.hub.children }
        requires few { number < 2 ^ 32 - 1 }
        ensures launches { IfOk result (λ answer. LaunchesNext self.old self.new (Got answer)) }
        ensures told { IfOk result (λ answer. LaunchTold words.now self.old.hub answer
            (L.seen launcher.old) (L.seen launcher.new)) }
        ensures posts { self.new.hub.taken ≡ self.old.hub.taken }
        ensures monotone { (L.seen launcher.old).faults ≤ (L.seen launcher.new).faults }
        ensures err { OnErr result (self.new.hub.starved ≡ true) }
    {
        let Ok((inbox, ends)) = open(alloc, &mut self.pumped, &mut self.lanes, number) else {
            self.starved = true;
            return Err(Memory);
        };
        let four = first(&mut self.free);
        let seats = four.seats();
        let (heads, kit) = kit_of(number, inbox, ends, four);
        match launcher.launch(alloc, words, kit) {
            Ok(Launched::Running(run)) => {
                let own = with_run(heads, run);
                admit(&mut self.pumped, &mut self.lanes, seats, number, own);
                Ok(Answer::Child)
            }
            Ok(Launched::Refused) => {
                stop_all(rt, heads);
                Ok(Answer::Refused)
            }
            Err(Memory) => {
                stop_all(rt, heads);
                self.starved = true;
                Err(Memory)
            }
        }
    }

    // A launch, after what goes before it.
    fn launch_next<R: Wait, L: Launcher<Inbox<N>, Poster<N>, Run = Run>>(
        &mut self,
        rt: &R,
        alloc: Global,
        launcher: &mut L,
        words: &WordList,
    ) -> Result<Answer, Memory>
        ensures launches { IfOk result (λ answer. LaunchesNext self.old self.new (Got answer)) }
        ensures told { IfOk result (λ answer. LaunchTold words.now self.old.hub answer
            (L.seen launcher.old) (L.seen launcher.new)) }
        ensures posts { self.new.hub.taken ≡ self.old.hub.taken }
        ensures monotone { (L.seen launcher.old).faults ≤ (L.seen launcher.new).faults }
        ensures err { OnErr result (self.new.hub.starved ≡ true) }
    {
        let number = self.pumped.roster.count();
        if number >= MOST {
            return Ok(Answer::Refused);
        }
        if self.free.is_empty() {
            return Ok(Answer::Refused);
        }
        self.launch_one(rt, alloc, launcher, words, number as u32)
    }

    /// A launch: `child` where the launcher started one, with four seats that are lent to it; `refused`
    /// where no four are free, no number is left, or the launcher refused it. Where it did, the four are
    /// never lent again.
    pub fn launch<R: Wait, L: Launcher<Inbox<N>, Poster<N>, Run = Run>>(
        &mut self,
        rt: &R,
        alloc: Global,
        launcher: &mut L,
        words: &WordList,
    ) -> Result<Answer, Memory>
        ensures asks { IfOk result (λ answer. AsksLauncher (call.Launch words.now) (Got answer)
            (L.seen launcher.old) (L.seen launcher.new) self.old self.new) }
        ensures posts { self.new.hub.taken ≡ self.old.hub.taken }
        ensures monotone { (L.seen launcher.old).faults ≤ (L.seen launcher.new).faults }
        ensures err { OnErr result (self.new.hub.starved ≡ true) }
    {
        self.serve(rt, &[]);
        self.launch_next(rt, alloc, launcher, words)
    }
}
