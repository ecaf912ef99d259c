//! Cancels through futures that stand for others.
use crate::still::Still;
use aio_base::Memory;
use std::alloc::Global;

/// A future that stands for a done one and a pending one is cancelled by the pending one; one that
/// stands for done ones answers false.
pub fn many_with_done_member(alloc: Global, still: &mut Still) -> Result<bool, Memory> {
    let done = still.plain(alloc)?;
    let pending = still.plain(alloc)?;
    let both = still.many(alloc, done, pending)?;
    let spent = still.many(alloc, done, done)?;
    let ended = still.cancel(done);
    let reached = still.cancel(both);
    let nothing = still.cancel(spent);
    let asked = still.parts().asked(both) && !still.parts().asked(spent);
    Ok(ended && reached && !nothing && asked && !still.parts().is_pending(pending))
}

/// Each future stands for the one before twice, and a cancel goes through each once.
pub fn many_of_manys(alloc: Global, count: u32, still: &mut Still) -> Result<bool, Memory> {
    let end = still.plain(alloc)?;
    let mut top = end;
    for _ in 0..count {
        top = still.many(alloc, top, top)?;
    }
    let reached = still.cancel(top);
    Ok(reached && !still.parts().is_pending(end) && still.parts().asked(top))
}
