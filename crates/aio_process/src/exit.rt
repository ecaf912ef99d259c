//! The exit of a child.
ghost use Rattle.std.specs.Prelude.{◌≡◌, None, IfSome, pos};
ghost use Rattle.aio_pump.specs.Exits.{ExitAnswers};
ghost use Rattle.aio_process.specs.Codes.{code_of};
ghost use Rattle.aio_process.specs.Counts.{unwaited};

use crate::ended::{Ended, Forgotten};
use crate::process::Process;
use aio_pump::{ExitSource, Exited};
use std::alloc::Global;
use std::io;
use std::sync::{Arc, Wait};
use std::time::Clock;

/// The exit of a child of the system. It tells nothing of the code before it is there.
#[derive(Drop)]
pub struct ChildExit<R> {
    rt: R,
    process: Arc<Process, Global>,
    ended: Option<Ended>,
    forgotten: Option<Forgotten>,
    faults: u64,
}

impl<R> ChildExit<R> {
    /// The exit of a process that runs: it wasn't waited for yet.
    pub fn make(rt: R, process: Arc<Process, Global>) -> ChildExit<R> {
        ChildExit {
            rt,
            process,
            ended: None,
            forgotten: None,
            faults: 0,
        }
    }

    // What is answered where the wait failed so: 255 of a child that the system forgot, and else that it failed.
    fn without_end(&mut self, error: io::Error) -> Exited
        requires { self.old.ended ≡ None }
        ensures answers { ExitAnswers (unwaited self.old.faults) result (unwaited self.new.faults) }
        ensures none { self.new.ended ≡ None }
        ensures forgotten { IfSome self.new.forgotten (λ _. result ≡ Exited.Code (pos 255)) }
        ensures failed { self.new.forgotten ≡ None → result ≡ Exited.Failed }
    {
        match Forgotten::of(error) {
            Ok(forgotten) => {
                let told = forgotten.code();
                self.forgotten = Some(forgotten);
                Exited::Code(told)
            }
            Err(_) => {
                self.forgotten = None;
                self.faults = self.faults.saturating_add(1);
                Exited::Failed
            }
        }
    }
}

impl<R: Wait + Clock> ExitSource for ChildExit<R> {
    ghost seen = { λ exit. unwaited exit.faults };

    /// Waits for the child: its code, or minus the signal that ended it; 255 where the system forgot it.
    fn wait(&mut self) -> Exited
        ensures answers { ExitAnswers (unwaited self.old.faults) result (unwaited self.new.faults) }
        ensures ended { IfSome self.new.ended
            (λ ended. result ≡ Exited.Code (code_of ended.status)) }
        ensures forgotten { self.new.ended ≡ None → IfSome self.new.forgotten
            (λ _. result ≡ Exited.Code (pos 255)) }
        ensures failed { self.new.ended ≡ None → self.new.forgotten ≡ None
            → result ≡ Exited.Failed }
    {
        match self.process.wait(&self.rt) {
            Ok(ended) => {
                let code = ended.code();
                self.ended = Some(ended);
                Exited::Code(code)
            }
            Err(error) => {
                self.ended = None;
                self.without_end(error)
            }
        }
    }
}
