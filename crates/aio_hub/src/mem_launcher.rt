//! A launcher in memory.
ghost use Rattle.std.specs.Prelude.{◌≡◌, ◌≤◌, IfOk, OnErr};
ghost use Rattle.model_hub.specs.Told.{one_more};
ghost use Rattle.aio_hub.specs.MemLaunches.{new_launcher, next_posts, later_posts, after_kill, AnswersLaunch};

use crate::kit::{PumpKit, PumpReports};
use crate::launch::Launch;
use crate::launcher::{Launched, Launcher};
use crate::plan::CallPlan;
use crate::play::play_all;
use aio_base::Memory;
use aio_inbox::{Inbox, InboxName, Poster};
use aio_wire::{WordList, copy_of_words};
use std::alloc::Global;
use std::collections::VecDeque;
use std::marker::Model;
use std::sync::Wait;

/// A launcher whose children's pumps post, at the launch, what the next of these launches says, and
/// nothing past the list. The launches with the listed numbers are refused, counted from 1, and take
/// nothing of the list. It tells what it launched and what it killed, up to 2^64 - 1 of each.
#[derive(Drop)]
pub struct MemLauncher<R> {
    rt: R,
    children: VecDeque<Launch>,
    plan: CallPlan,
    launched: u64,
    words: WordList,
    child: u32,
    killed: u64,
    killed_child: u32,
}

impl<R> Model for MemLauncher<R> {
    ghost use Rattle.aio_hub.specs.MemLaunches.{LauncherState};

    ghost Value = { LauncherState };

    ghost view = { λ launcher. record {
      left = launcher.children.items;
      plan = launcher.plan;
      launches = record { count = launcher.launched; words = launcher.words; child = launcher.child };
      kills = record { count = launcher.killed; child = launcher.killed_child };
    } };
}

impl<R> MemLauncher<R> {
    /// It keeps the runtime, by which it posts.
    pub fn new(alloc: Global, rt: R, launches: Vec<Launch>, failing: Vec<u64>) -> MemLauncher<R>
        ensures { result ≡ new_launcher launches.items failing.items }
    {
        MemLauncher {
            rt,
            children: VecDeque::from(launches),
            plan: CallPlan::new(failing),
            launched: 0,
            words: WordList::of(Vec::new(alloc)),
            child: 0,
            killed: 0,
            killed_child: 0,
        }
    }

    /// How many children it launched, up to 2^64 - 1.
    pub fn launched(&self) -> u64
        ensures { result ≡ self.now.launches.count }
    {
        self.launched
    }

    /// The words of the child that it launched last, none before the first.
    pub fn words(&self) -> &WordList
        ensures { result.now ≡ self.now.launches.words }
    {
        &self.words
    }

    /// The number of the child that it launched last, 0 before the first.
    pub fn child(&self) -> u32
        ensures { result ≡ self.now.launches.child }
    {
        self.child
    }

    /// How often it killed, up to 2^64 - 1.
    pub fn killed(&self) -> u64
        ensures { result ≡ self.now.kills.count }
    {
        self.killed
    }

    /// The number of the child that it killed last, 0 before the first.
    pub fn killed_child(&self) -> u32
        ensures { result ≡ self.now.kills.child }
    {
        self.killed_child
    }

    // What the next child's pumps are to post.
    fn next_launch(&mut self, alloc: Global) -> Launch
        ensures next { result ≡ next_posts self.old.left }
        ensures left { self.new ≡ record self.old { left = later_posts self.old.left } }
    {
        match self.children.pop_front() {
            Some(next) => next,
            None => Launch::silent(alloc),
        }
    }

    // Notes a child that was started.
    fn note(&mut self, words: WordList, child: u32)
        ensures { self.new ≡ record self.old {
          launches = record { count = one_more self.old.launches.count; words = words; child = child };
        } }
    {
        self.launched = self.launched.saturating_add(1);
        self.words = words;
        self.child = child;
    }
}

impl<N: InboxName, R: Wait> Launcher<Inbox<N>, Poster<N>> for MemLauncher<R> {
    ghost use Rattle.std.specs.Prelude.{Some};

    /// The pumps of a child are over as soon as it is launched.
    type Run = PumpReports<Poster<N>>;

    ghost seen = { λ launcher. record {
      launches = Some launcher.launches;
      kills = Some launcher.kills;
      faults = launcher.plan.faults;
    } };

    fn launch(
        &mut self,
        alloc: Global,
        words: &WordList,
        kit: PumpKit<Inbox<N>, Poster<N>>,
    ) -> Result<Launched<PumpReports<Poster<N>>>, Memory>
        ensures launched { IfOk result (AnswersLaunch words.now kit self.old self.new) }
        ensures none { OnErr result (self.new ≡ self.old) }
        ensures monotone { self.old.plan.faults ≤ self.new.plan.faults }
    {
        let Ok(own) = copy_of_words(alloc, words) else {
            return Err(Memory);
        };
        if self.plan.fails() {
            return Ok(Launched::Refused);
        }
        let launch = self.next_launch(alloc);
        self.note(own, kit.child);
        Ok(Launched::Running(play_all(&self.rt, kit, launch)))
    }

    fn kill(&mut self, child: u32)
        ensures killed { self.new ≡ after_kill child self.old }
        ensures monotone { self.old.plan.faults ≤ self.new.plan.faults }
    {
        self.killed = self.killed.saturating_add(1);
        self.killed_child = child;
    }

    fn take_in(&mut self, run: PumpReports<Poster<N>>) -> PumpReports<Poster<N>>
        ensures reports { result ≡ run }
        ensures none { self.new ≡ self.old }
        ensures monotone { self.old.plan.faults ≤ self.new.plan.faults }
    {
        run
    }
}
