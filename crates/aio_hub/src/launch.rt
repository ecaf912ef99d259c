//! What the pumps of a child in memory post.
ghost use Rattle.std.specs.Prelude.{◌≡◌};
ghost use Rattle.aio_hub.specs.Plays.{no_posts};

use aio_inbox::PostKind;
use std::alloc::Global;
use std::marker::Model;

/// What each of the four pumps of a child posts, in order.
#[derive(Drop)]
pub struct Launch {
    pub stdin: Vec<PostKind>,
    pub out: Vec<PostKind>,
    pub errs: Vec<PostKind>,
    pub exit: Vec<PostKind>,
}

impl Model for Launch {
    ghost use Rattle.aio_hub.specs.Plays.{ChildPosts};

    ghost Value = { ChildPosts };

    ghost view = { λ launch. record {
      stdin = launch.stdin.items;
      out = launch.out.items;
      errs = launch.errs.items;
      exit = launch.exit.items;
    } };
}

impl Launch {
    /// A child whose pumps post nothing.
    pub fn silent(alloc: Global) -> Launch
        ensures { result ≡ no_posts }
    {
        Launch {
            stdin: Vec::new(alloc),
            out: Vec::new(alloc),
            errs: Vec::new(alloc),
            exit: Vec::new(alloc),
        }
    }
}
