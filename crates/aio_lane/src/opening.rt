//! How a lane is made.
ghost use Rattle.std.specs.Prelude.{◌≡◌, [], IfOk};

use crate::between::Between;
use crate::head::Head;
use crate::parker::Parker;
use crate::tail::Tail;
use crate::track::{CommandQueue, Ends};
use aio_base::Memory;
use std::alloc::Global;
use std::sync::Arc;

/// How many commands stand in a lane at most.
const ROOM: usize = 8;

/// A lane in which nothing stands, by its two ends.
pub fn lane(alloc: Global) -> Result<(Head, Tail), Memory>
    ensures lane { IfOk result (λ ends. ends.1.lane ≡ ends.0.lane) }
    ensures given { IfOk result (λ ends. (ends.0.given ≡ []) × (ends.0.fulls ≡ 0)) }
    ensures taken { IfOk result (λ ends. ends.1.taken ≡ []) }
{
    let Ok((queue, mut pass)) = CommandQueue::ruled(alloc, ROOM) else {
        return Err(Memory);
    };
    let other = queue.another::<Ends>(&mut pass);
    let Ok(between) = Arc::new(
        alloc,
        Between {
            queue,
            parker: Parker::new(),
        },
    ) else {
        return Err(Memory);
    };
    let Ok(theirs) = Arc::try_clone(&between) else {
        return Err(Memory);
    };
    let head = Head {
        between,
        pass,
        gave: 0,
    };
    let tail = Tail {
        between: theirs,
        pass: other,
    };
    Ok((head, tail))
}
