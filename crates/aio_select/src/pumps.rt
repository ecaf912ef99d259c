//! What a select needs of the pumps.
ghost use Rattle.std.specs.Prelude.{◌≡◌, ℕ, List, nat_lt};
ghost use Rattle.model_pump.specs.Posts.{Post as PlainPost};
ghost use Rattle.model_hub.specs.declared.child.Child.{Child};
ghost use Rattle.model_hub.specs.Hub.{waiting_of, is_broken};
ghost use Rattle.model_hub.specs.Gathering.{most_waiting};
ghost use Rattle.aio_select.specs.Takes.{Takes};

use aio_wire::Item;
use model_hub::Halt;
use std::sync::Wait;

/// A post that was taken: whether it ends the select, and the item that it tells.
#[derive(Drop)]
pub struct Noted {
    pub halt: Halt,
    pub item: Option<Item>,
}

/// The pumps of all children: the posts that they made, one after the other, and what is kept of
/// their children.
pub trait Pumps {
    ghost children: { Self → List Child };

    /// The posts that were taken, in order.
    ghost taken: { Self → List PlainPost };

    /// How many takes found no post.
    ghost nones: { Self → ℕ };

    /// Fewer than seven Writes to it wait.
    fn can_be_fed(&self, child: u32) -> bool
        ensures { result ≡ nat_lt (waiting_of child (children self.now)) most_waiting };

    /// A Broken post of it was taken.
    fn is_broken(&self, child: u32) -> bool
        ensures { result ≡ is_broken child (children self.now) };

    /// Takes a post, which its child notes. It may wait, but for no post.
    fn take<R: Wait>(&mut self, rt: &R) -> Option<Noted>
        ensures { Takes result (children self.old) (taken self.old) (nones self.old)
            (children self.new) (taken self.new) (nones self.new) };
}
