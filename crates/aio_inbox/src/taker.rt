//! Who takes from an inbox.
ghost use Rattle.std.specs.Prelude.{◌≡◌};
ghost use Rattle.crossbeam_queue.specs.Passes.{view};
ghost use Rattle.aio_inbox.specs.declared.view.InboxView.TheVariants.{Takes};
ghost use Rattle.aio_inbox.specs.Names.{IsPassAt};

use crate::delivery::InboxPass;
use crate::name::InboxName;
use std::marker::{Model, PhantomData};

/// Takes from the inbox that `N` names. Contracts see what its pass knows: what was taken, which
/// seats were settled, and how many takes found nothing.
#[derive(Drop)]
pub struct Taker<N: InboxName> {
    pub(crate) pass: InboxPass,
    pub(crate) of: PhantomData<N>,
}

impl<N: InboxName> Model for Taker<N> {
    ghost use Rattle.aio_inbox.specs.declared.view.TakerView.{TakerView};
    ghost use Rattle.aio_inbox.specs.Names.{IsPassAt};
    ghost use Rattle.aio_inbox.specs.Views.{known_of, taker_of};
    ghost use Rattle.aio_inbox.specs.Ends.{IsTaker};

    ghost Value = { TakerView };

    ghost view = { λ t. taker_of (known_of t.pass) };

    ghost invariant = { λ t. IsPassAt N.table t.pass × IsTaker (known_of t.pass) };
}

impl<N: InboxName> Taker<N> {
    /// Its pass on the queue.
    pub fn pass(&self) -> &InboxPass
        ensures known { view result.now ≡ Takes self.now }
        ensures named { IsPassAt N.table result.now }
    {
        &self.pass
    }
}
