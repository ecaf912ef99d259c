//! Posters by fours.
ghost use Rattle.std.specs.Prelude.{◌≡◌, ◌<◌, ◌∷◌, length, IfOk};
ghost use Rattle.aio_postbox.specs.Fours.{seats_of, AllPosters, AllFours};

use aio_base::Memory;
use aio_inbox::{InboxName, Poster};
use model_hub::Seats;
use std::alloc::Global;
use std::collections::VecDeque;

/// How many fours of seats an inbox has.
const FOURS: u32 = 256;

/// The posters of the four pumps of a child.
#[derive(Drop)]
pub struct Four<N: InboxName> {
    pub stdin: Poster<N>,
    pub out: Poster<N>,
    pub errs: Poster<N>,
    pub exit: Poster<N>,
}

impl<N: InboxName> Four<N> {
    /// The seats on which they post.
    pub fn seats(&self) -> Seats
        ensures { result ≡ seats_of self.now }
    {
        Seats {
            stdin: self.stdin.seat(),
            out: self.out.seat(),
            errs: self.errs.seat(),
            exit: self.exit.seat(),
        }
    }
}

// The first of the posters that are left.
fn first<N: InboxName>(left: &mut VecDeque<Poster<N>>) -> Poster<N>
    requires { 0 < length left.old.items }
    ensures { left.old.items ≡ result ∷ left.new.items }
{
    left.pop_front().unwrap()
}

/// The posters of an inbox's 1,024 seats, by fours from seat 0 on.
pub fn in_fours<N: InboxName>(
    alloc: Global,
    posters: Vec<Poster<N>>,
) -> Result<VecDeque<Four<N>>, Memory>
    requires { AllPosters posters.items }
    ensures { IfOk result (λ fours. AllFours fours.items) }
{
    let mut left = VecDeque::from(posters);
    let mut fours = VecDeque::new(alloc);
    for _n in 0..FOURS {
        let stdin = first(&mut left);
        let out = first(&mut left);
        let errs = first(&mut left);
        let exit = first(&mut left);
        fours.push_back(Four {
            stdin,
            out,
            errs,
            exit,
        })?;
    }
    Ok(fours)
}
