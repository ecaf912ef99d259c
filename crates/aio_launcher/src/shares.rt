//! What the four pumps of a child have alike.
use crate::reports::Reports;
use aio_inbox::{Inbox, InboxName};
use aio_poller::PollerBell;
use aio_process::Process;
use std::alloc::{AllocError, Global};
use std::sync::Arc;

/// What a pump has beside its lane, its seat and its pipe: where it posts, what it rings, its child's process, and where it
/// puts what it did.
#[derive(Drop)]
pub struct Share<N: InboxName> {
    pub inbox: Arc<Inbox<N>, Global>,
    pub bell: PollerBell,
    pub process: Arc<Process, Global>,
    pub reports: Arc<Reports<N>, Global>,
}

/// A share for each of the four pumps.
#[derive(Drop)]
pub struct Shares<N: InboxName> {
    pub stdin: Share<N>,
    pub out: Share<N>,
    pub errs: Share<N>,
    pub exit: Share<N>,
}

impl<N: InboxName> Share<N> {
    fn of(
        bell: &PollerBell,
        inbox: &Arc<Inbox<N>, Global>,
        process: &Arc<Process, Global>,
        reports: &Arc<Reports<N>, Global>,
    ) -> Result<Share<N>, AllocError> {
        let bell = bell.again()?;
        let process = match Arc::try_clone(process) {
            Ok(process) => process,
            Err(error) => {
                drop(bell);
                return Err(error);
            }
        };
        let inbox = match Arc::try_clone(inbox) {
            Ok(inbox) => inbox,
            Err(error) => {
                drop(bell);
                drop(process);
                return Err(error);
            }
        };
        match Arc::try_clone(reports) {
            Ok(reports) => Ok(Share {
                inbox,
                bell,
                process,
                reports,
            }),
            Err(error) => {
                drop(bell);
                drop(process);
                drop(inbox);
                Err(error)
            }
        }
    }

    // Another share of the same.
    fn again(&self) -> Result<Share<N>, AllocError> {
        Share::of(&self.bell, &self.inbox, &self.process, &self.reports)
    }
}

impl<N: InboxName> Shares<N> {
    /// Shares of these, each with a bell of its own.
    pub fn of(
        bell: &PollerBell,
        inbox: &Arc<Inbox<N>, Global>,
        process: &Arc<Process, Global>,
        reports: &Arc<Reports<N>, Global>,
    ) -> Result<Shares<N>, AllocError> {
        let stdin = Share::of(bell, inbox, process, reports)?;
        let out = match stdin.again() {
            Ok(share) => share,
            Err(error) => {
                drop(stdin);
                return Err(error);
            }
        };
        let errs = match stdin.again() {
            Ok(share) => share,
            Err(error) => {
                drop(stdin);
                drop(out);
                return Err(error);
            }
        };
        match stdin.again() {
            Ok(exit) => Ok(Shares {
                stdin,
                out,
                errs,
                exit,
            }),
            Err(error) => {
                drop(stdin);
                drop(out);
                drop(errs);
                Err(error)
            }
        }
    }
}
