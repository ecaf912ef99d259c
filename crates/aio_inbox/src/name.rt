//! The name of an inbox.
use std::marker::Brand;

/// Names one inbox: the table of its queue. It is chosen where the queue is at hand, at a call with
/// `Brand` for the name, and all above is generic in it.
pub trait InboxName {
    ghost use Rattle.atomic_table.specs.Seated.{TableId};

    ghost table: { TableId };
}

impl InboxName for Brand {
    ghost use Rattle.aio_inbox.specs.Names.{no_table};

    ghost table = { no_table };
}
