//! A child's process, which one thread waits for while others may kill it.
use crate::ended::Ended;
use std::io;
use std::io::ErrorKind;
use std::process::Child;
use std::sync::atomic::{AtomicBool, Ordering};
use std::sync::{Condvar, Mutex, Wait};
use std::time::{Clock, Duration};

/// The longest pause between two looks, in milliseconds.
const LONGEST_PAUSE: u64 = 64;

/// How long a child that was left is waited for, in milliseconds: one that a kill doesn't end may not end at all.
const LAST_WAIT: u64 = 5_000;

/// A place for a child, and the child once it was started. Its lock is held for a moment at a time, so whoever kills it never
/// waits for its end.
/// Source: `subprocess.py`, `Popen._try_wait` and `Popen.send_signal`.
#[derive(Drop)]
pub struct Process {
    child: Mutex<Option<Child>>,
    stirred: Condvar,
    is_left: AtomicBool,
}

impl Process {
    /// A place for a child that is to be started. It is there first, so that no child is lost for want of memory.
    pub fn vacant() -> Process {
        Process {
            child: Mutex::new(None),
            stirred: Condvar::new(),
            is_left: AtomicBool::new(false),
        }
    }

    /// The child that was just started.
    pub fn begin<R: Wait>(&self, rt: &R, child: Child) {
        *self.child.lock(rt) = Some(child);
    }

    /// Nobody wants what goes through its pipes any more: whoever waits to read or write one is to give up.
    pub fn leave(&self) {
        self.is_left.store(true, Ordering::SeqCst);
    }

    /// Whether it was left.
    pub fn is_left(&self) -> bool {
        self.is_left.load(Ordering::SeqCst)
    }

    /// Kills the child, unless it was waited for.
    pub fn kill<R: Wait>(&self, rt: &R) -> io::Result<()> {
        let killed = match &mut *self.child.lock(rt) {
            Some(child) => child.kill(),
            None => Ok(()),
        };
        self.stirred.notify_all();
        killed
    }

    /// Has the waiting thread look again now: the child may have ended.
    pub fn stir(&self) {
        self.stirred.notify_all();
    }

    /// How the child ended. It looks at once, then after a pause that doubles, and right after each stir. Once the child was
    /// left it is waited for 5 seconds more, and then it is an error.
    pub fn wait<R: Wait + Clock>(&self, rt: &R) -> io::Result<Ended> {
        let mut pause = 1;
        let mut left = LAST_WAIT;
        let mut child = self.child.lock(rt);
        for _ in rt.forever() {
            if let Some(ended) = look(&mut *child)? {
                return Ok(ended);
            }
            if left == 0 {
                break;
            }
            let (again, waited) = self
                .stirred
                .wait_timeout(rt, child, Duration::from_millis(pause));
            child = again;
            if waited.timed_out() {
                left = self.left_after(left, pause);
                pause = longer(pause);
            } else {
                pause = 1;
            }
        }
        Err(io::Error::from(ErrorKind::TimedOut))
    }

    /// How long the child is waited for after a pause: less only once it was left.
    fn left_after(&self, left: u64, pause: u64) -> u64 {
        if self.is_left() {
            left.saturating_sub(pause)
        } else {
            left
        }
    }
}

/// How the child ended, where it was started and has.
fn look(child: &mut Option<Child>) -> io::Result<Option<Ended>> {
    match child {
        Some(child) => Ended::look(child),
        None => Err(io::Error::from(ErrorKind::NotFound)),
    }
}

fn longer(pause: u64) -> u64 {
    pause.saturating_mul(2).min(LONGEST_PAUSE)
}
