//! Runs to which memory may be refused.
use crate::faults::fault::NONE;
use crate::faults::running::Running;
use crate::faults::script::Script;
use std::alloc::Global;
use try_row::RowsStopped;

/// Runs a script of which no call fails. Whether it came to all that it must, or by status 11 to a
/// front of that.
pub fn is_all_or_front(alloc: Global, script: &Script) -> Result<bool, RowsStopped> {
    let mut ran = Running::new(alloc, script, NONE);
    ran.run_script(alloc, false)?;
    Ok(if ran.status == 11 {
        is_front(&ran.written, &script.transcript) && is_front(&ran.recorded, &script.journal)
    } else {
        ran.written.as_slice() == script.transcript.as_slice()
            && ran.recorded.as_slice() == script.journal.as_slice()
    })
}

/// Whether a text has the first lines of another.
fn is_front(front: &[u8], text: &[u8]) -> bool {
    text.starts_with(front) && (front.is_empty() || front.ends_with(b"\n"))
}
