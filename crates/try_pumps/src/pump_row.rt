//! A pump of a child, run over what is in memory.

use crate::narrow::Narrow;
use crate::pumped::pumped;
use crate::shown::{Shown, Told, comes, give, told_of};
use aio_base::Blob;
use aio_inbox::{Inbox, InboxName, Poster, Taker};
use aio_lane::{Command, Head, Tail, lane};
use aio_memwire::FailAt;
use aio_pump::{MemBell, MemExit, pump_exit, pump_in};
use aio_wire::{MemSink, MemSource};
use std::alloc::Global;
use std::sync::Wait;
use std::time::Clock;
use try_row::{blob_of, numbers_of};

/// A pump, and what it is run over. The calls on that with the listed numbers fail, counted from 1.
#[derive(Clone, Copy)]
pub enum Pump {
    /// Of the output, over a source of so many sevens and then these bytes.
    Out {
        sevens: usize,
        bytes: &'static [u8],
        failing: &'static [u64],
    },
    /// Of the input, over a sink that takes so many bytes a write, and takes these in all. A look at the sink, while no command
    /// comes, is a write of no bytes.
    In {
        width: usize,
        failing: &'static [u64],
        taken: &'static [u8],
    },
    /// Of the exit, whose code is 3.
    Exit {
        failing: &'static [u64],
    },
}

/// A command.
#[derive(Clone, Copy)]
pub enum Gives {
    Go,
    Write(&'static [u8]),
    Close,
    Stop,
}

/// A pump, the commands that stand in its lane before it begins, and what must come: what it tells, and what it posts.
pub struct PumpRow {
    pub pump: Pump,
    pub gives: &'static [Gives],
    pub told: Told,
    pub posts: &'static [Shown],
}

fn command_of(alloc: Global, gives: Gives) -> Command {
    match gives {
        Gives::Go => Command::Go,
        Gives::Write(bytes) => Command::Write(blob_of(alloc, bytes)),
        Gives::Close => Command::Close,
        Gives::Stop => Command::Stop,
    }
}

fn give_all<R: Wait>(rt: &R, alloc: Global, head: Head, gives: &[Gives]) {
    let mut own = head;
    for one in gives {
        give(rt, &mut own, command_of(alloc, *one));
    }
    drop(own);
}

fn source_of(alloc: Global, sevens: usize, bytes: &[u8], failing: &[u64]) -> FailAt<MemSource> {
    let mut held = match vec![in alloc; 7u8; sevens] {
        Ok(held) => held,
        Err(_) => Vec::new(alloc),
    };
    let _pushed = held.extend_from_slice(bytes);
    FailAt::new(
        MemSource::new(alloc, Blob::of(held)),
        numbers_of(alloc, failing),
    )
}

/// What the pump of a child's exit tells, of which these waits fail.
pub fn exited<N: InboxName, R: Wait>(
    rt: &R,
    alloc: Global,
    failing: &[u64],
    inbox: &Inbox<N>,
    poster: Poster<N>,
) -> Told {
    let mut exit = MemExit::new(3, numbers_of(alloc, failing));
    let mut bell = MemBell::new();
    let report = pump_exit(rt, alloc, &mut exit, inbox, poster, &mut bell);
    drop(exit);
    told_of(report, &bell)
}

// What the pump of a child's input tells, if the sink took these bytes.
fn written<N: InboxName, R: Wait + Clock>(
    rt: &R,
    alloc: Global,
    tail: Tail,
    sink: &mut FailAt<Narrow>,
    inbox: &Inbox<N>,
    poster: Poster<N>,
    taken: &[u8],
) -> Option<Told> {
    let mut bell = MemBell::new();
    let report = pump_in(rt, alloc, tail, sink, inbox, poster, &mut bell);
    let told = told_of(report, &bell);
    if sink.inner.inner.taken() == taken {
        Some(told)
    } else {
        None
    }
}

impl PumpRow {
    /// Whether it comes out as it must. Where memory is refused it does not.
    pub fn is_right<N: InboxName, R: Wait + Clock>(
        &self,
        rt: &R,
        alloc: Global,
        inbox: &Inbox<N>,
        taker: &mut Taker<N>,
        poster: Poster<N>,
    ) -> bool {
        match lane(alloc) {
            Ok((head, tail)) => {
                give_all(rt, alloc, head, self.gives);
                self.tells(rt, alloc, tail, inbox, poster) && comes(rt, inbox, taker, self.posts)
            }
            Err(_) => {
                drop(poster);
                false
            }
        }
    }

    // Whether the pump tells what it must.
    fn tells<N: InboxName, R: Wait + Clock>(
        &self,
        rt: &R,
        alloc: Global,
        tail: Tail,
        inbox: &Inbox<N>,
        poster: Poster<N>,
    ) -> bool {
        match self.pump {
            Pump::Out {
                sevens,
                bytes,
                failing,
            } => {
                let mut source = source_of(alloc, sevens, bytes, failing);
                let told = pumped(rt, alloc, tail, &mut source, inbox, poster);
                drop(source);
                told == self.told
            }
            Pump::In {
                width,
                failing,
                taken,
            } => {
                let inner = MemSink::new(alloc);
                let mut sink = FailAt::new(Narrow { inner, width }, numbers_of(alloc, failing));
                let told = written(rt, alloc, tail, &mut sink, inbox, poster, taken);
                drop(sink);
                told == Some(self.told)
            }
            Pump::Exit { failing } => {
                drop(tail);
                exited(rt, alloc, failing, inbox, poster) == self.told
            }
        }
    }
}
