//! The four pumps of a child, each on a thread of its own. A pump gives back what it did in a slot, where whoever takes the
//! child in waits for it.
use crate::reports::Reports;
use crate::shares::{Share, Shares};
use aio_hub::PumpKit;
use aio_inbox::{Inbox, InboxName, Poster};
use aio_lane::Tail;
use aio_poller::PollerBell;
use aio_process::{ChildExit, PipeSink, PipeSource, Process};
use aio_pump::{pump_exit, pump_in, pump_out};
use model_pump::Stream;
use std::alloc::Global;
use std::io::Read;
use std::os::fd::AsRawFd;
use std::process::{ChildStderr, ChildStdin, ChildStdout};
use std::sync::{Arc, Wait};
use std::thread::{JoinHandle, Threads};
use std::time::Clock;
use std::{io, thread};

/// The pipes of a child.
#[derive(Drop)]
pub struct Pipes {
    pub stdin: ChildStdin,
    pub out: ChildStdout,
    pub errs: ChildStderr,
}

/// The threads of a child.
#[derive(Drop)]
pub struct Running {
    pub child: u32,
    pub stdin: JoinHandle<()>,
    pub out: JoinHandle<()>,
    pub errs: JoinHandle<()>,
    pub exit: JoinHandle<()>,
}

/// What a pump of a pipe is started with.
#[derive(Drop)]
struct Job<N: InboxName, P> {
    tail: Tail,
    pipe: P,
    seat: Poster<N>,
    share: Share<N>,
}

/// What the pump of the exit is started with.
#[derive(Drop)]
struct ExitJob<N: InboxName> {
    seat: Poster<N>,
    share: Share<N>,
}

/// What the four pumps of a child are started with.
#[derive(Drop)]
struct Jobs<N: InboxName> {
    stdin: Job<N, ChildStdin>,
    out: Job<N, ChildStdout>,
    errs: Job<N, ChildStderr>,
    exit: ExitJob<N>,
}

impl Running {
    /// Waits for the threads, which end once the pumps have.
    pub fn join<R: Threads>(self, rt: &R) {
        let Running {
            child: _,
            stdin,
            out,
            errs,
            exit,
        } = self;
        stdin.join(rt);
        out.join(rt);
        errs.join(rt);
        exit.join(rt);
    }
}

/// Starts the pumps.
pub fn start<R, N: InboxName + Send + Sync + 'static>(
    rt: R,
    alloc: Global,
    bell: &PollerBell,
    kit: PumpKit<Inbox<N>, Poster<N>>,
    process: &Arc<Process, Global>,
    pipes: Pipes,
    reports: &Arc<Reports<N>, Global>,
) -> io::Result<Running>
where
    R: Threads + Wait + Clock + Copy + Send + 'static,
{
    match Shares::of(bell, &kit.inbox, process, reports) {
        Ok(shares) => start_all(rt, alloc, kit.child, jobs_of(kit, pipes, shares)),
        Err(error) => {
            drop(kit);
            drop(pipes);
            Err(io::Error::from(error))
        }
    }
}

fn jobs_of<N: InboxName>(
    kit: PumpKit<Inbox<N>, Poster<N>>,
    pipes: Pipes,
    shares: Shares<N>,
) -> Jobs<N> {
    let PumpKit {
        child: _,
        inbox,
        stdin: stdin_tail,
        out: out_tail,
        errs: errs_tail,
        stdin_seat,
        out_seat,
        errs_seat,
        exit_seat,
    } = kit;
    drop(inbox);
    let Pipes { stdin, out, errs } = pipes;
    let Shares {
        stdin: stdin_share,
        out: out_share,
        errs: errs_share,
        exit: exit_share,
    } = shares;
    Jobs {
        stdin: Job {
            tail: stdin_tail,
            pipe: stdin,
            seat: stdin_seat,
            share: stdin_share,
        },
        out: Job {
            tail: out_tail,
            pipe: out,
            seat: out_seat,
            share: out_share,
        },
        errs: Job {
            tail: errs_tail,
            pipe: errs,
            seat: errs_seat,
            share: errs_share,
        },
        exit: ExitJob {
            seat: exit_seat,
            share: exit_share,
        },
    }
}

fn start_all<R, N: InboxName + Send + Sync + 'static>(
    rt: R,
    alloc: Global,
    child: u32,
    jobs: Jobs<N>,
) -> io::Result<Running>
where
    R: Threads + Wait + Clock + Copy + Send + 'static,
{
    let Jobs {
        stdin,
        out,
        errs,
        exit,
    } = jobs;
    let stdin = match start_in(rt, alloc, stdin) {
        Ok(thread) => thread,
        Err(error) => {
            drop(out);
            drop(errs);
            drop(exit);
            return Err(error);
        }
    };
    let out = match start_out(rt, alloc, Stream::Out, out) {
        Ok(thread) => thread,
        Err(error) => {
            drop(stdin);
            drop(errs);
            drop(exit);
            return Err(error);
        }
    };
    let errs = match start_out(rt, alloc, Stream::Errs, errs) {
        Ok(thread) => thread,
        Err(error) => {
            drop(stdin);
            drop(out);
            drop(exit);
            return Err(error);
        }
    };
    match start_exit(rt, alloc, exit) {
        Ok(exit) => Ok(Running {
            child,
            stdin,
            out,
            errs,
            exit,
        }),
        Err(error) => {
            drop(stdin);
            drop(out);
            drop(errs);
            Err(error)
        }
    }
}

fn start_in<R, N: InboxName + Send + Sync + 'static>(
    rt: R,
    alloc: Global,
    job: Job<N, ChildStdin>,
) -> io::Result<JoinHandle<()>>
where
    R: Threads + Wait + Clock + Copy + Send + 'static,
{
    Ok(thread::spawn(&rt, move || run_in(rt, alloc, job))?)
}

fn run_in<R: Wait + Clock + Copy, N: InboxName>(rt: R, alloc: Global, job: Job<N, ChildStdin>) {
    let Job {
        tail,
        pipe,
        seat,
        share,
    } = job;
    let Share {
        inbox,
        mut bell,
        process,
        reports,
    } = share;
    let mut sink = PipeSink::make(pipe, process);
    let report = pump_in(&rt, alloc, tail, &mut sink, &inbox, seat, &mut bell);
    drop(sink);
    reports.stdin.put(&rt, report);
}

fn start_out<R, N: InboxName + Send + Sync + 'static, P>(
    rt: R,
    alloc: Global,
    stream: Stream,
    job: Job<N, P>,
) -> io::Result<JoinHandle<()>>
where
    R: Threads + Wait + Clock + Copy + Send + 'static,
    P: Read + AsRawFd + Drop + Send + 'static,
{
    Ok(thread::spawn(&rt, move || run_out(rt, alloc, stream, job))?)
}

fn run_out<R: Wait + Copy, N: InboxName, P: Read + AsRawFd + Drop>(
    rt: R,
    alloc: Global,
    stream: Stream,
    job: Job<N, P>,
) {
    let Job {
        tail,
        pipe,
        seat,
        share,
    } = job;
    let Share {
        inbox,
        mut bell,
        process,
        reports,
    } = share;
    let mut source = PipeSource::make(pipe, process);
    let report = pump_out(
        &rt,
        alloc,
        tail,
        &mut source,
        &inbox,
        seat,
        stream,
        &mut bell,
    );
    source.close();
    reports.of(stream).put(&rt, report);
}

fn start_exit<R, N: InboxName + Send + Sync + 'static>(
    rt: R,
    alloc: Global,
    job: ExitJob<N>,
) -> io::Result<JoinHandle<()>>
where
    R: Threads + Wait + Clock + Copy + Send + 'static,
{
    Ok(thread::spawn(&rt, move || run_exit(rt, alloc, job))?)
}

fn run_exit<R: Wait + Clock + Copy, N: InboxName>(rt: R, alloc: Global, job: ExitJob<N>) {
    let ExitJob { seat, share } = job;
    let Share {
        inbox,
        mut bell,
        process,
        reports,
    } = share;
    let mut source = ChildExit::make(rt, process);
    let report = pump_exit(&rt, alloc, &mut source, &inbox, seat, &mut bell);
    drop(source);
    reports.exit.put(&rt, report);
}
