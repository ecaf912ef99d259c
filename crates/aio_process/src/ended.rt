//! How a child ended.
ghost use Rattle.std.specs.Prelude.{◌≡◌, Some, pos, IfErr};
ghost use Rattle.std.specs.IoError.{raw_os_error};
ghost use Rattle.std.specs.Process.{child_status};
ghost use Rattle.aio_process.specs.Codes.{code_of};

use std::io;
use std::os::unix::process::ExitStatusExt;
use std::process::{Child, ExitStatus};
use std::snapshot::Snapshot;

/// What is told of a child that neither ended by itself nor by a signal.
const UNKNOWN: i32 = -128;

/// How a child ended. Only a look at a child that has ended makes one.
#[derive(Drop)]
pub struct Ended {
    status: ExitStatus,
    child: Snapshot<Child>,
    ghost told: { child_status child.value ≡ Some status },
}

impl Ended {
    /// Looks at a child: how it ended, where it has.
    pub(crate) fn look(child: &mut Child) -> io::Result<Option<Ended>> {
        match child.try_wait()? {
            Some(status) => Ok(Some(Ended {
                status,
                child: Snapshot::of(child),
            })),
            None => Ok(None),
        }
    }

    /// Its code, or minus the signal that ended it.
    /// Source: the library reference, `subprocess.Popen.returncode`.
    #[tactic(auto, using(crate::proofs::Signals::negated))]
    pub fn code(&self) -> i32
        ensures { result ≡ code_of self.now.status }
    {
        match (self.status.code(), self.status.signal()) {
            (Some(code), _) => code,
            (None, Some(signal)) => 0i32.saturating_sub(signal),
            (None, None) => UNKNOWN,
        }
    }
}

/// The system keeps no such child. Source: errno(3), ECHILD.
const NO_CHILD: i32 = 10;

/// A child that has ended, and of which the system kept no code: whoever started this program has it forget them, by
/// ignoring SIGCHLD. Only a look that was answered so makes one.
#[derive(Drop)]
pub struct Forgotten {
    error: io::Error,
    ghost told: { raw_os_error error ≡ Some (pos 10) },
}

impl Forgotten {
    /// What is told of such a child.
    /// Source: `unix_events.py`, `_PidfdChildWatcher._do_wait`.
    pub fn code(&self) -> i32
        ensures { result ≡ pos 255 }
    {
        255
    }

    /// Whether a look failed since the child was forgotten. Else it is the error.
    pub(crate) fn of(error: io::Error) -> io::Result<Forgotten>
        ensures { IfErr result (λ same. same ≡ error) }
    {
        if error.raw_os_error() == Some(NO_CHILD) {
            Ok(Forgotten { error })
        } else {
            Err(error)
        }
    }
}
