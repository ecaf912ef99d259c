//! What routes added requests to the four parts.
use crate::four::Four;
use aio_base::{Input, Memory, Value};
use aio_dgram::Dgram;
use aio_exec::Exec;
use aio_extra::{Asked, Extra};
use aio_gather::Gather;
use aio_sync::Sync;
use aio_task::{FutureId, Parts};
use std::alloc::Global;

/// The four parts.
pub type Reach = Four<Gather, Sync, Exec, Dgram>;

impl Four<Gather, Sync, Exec, Dgram> {
    ghost use Rattle.aio_extra.specs.Added.{KeepsNothing};
    ghost use Rattle.aio_reach.specs.Routed.{first_reached, routed};

    /// Nothing was asked.
    pub fn new(alloc: Global) -> Reach
        ensures { KeepsNothing routed result first_reached }
    {
        Four {
            gather: Gather::new(alloc),
            sync: Sync::new(alloc),
            exec: Exec::new(alloc),
            dgram: Dgram::new(alloc),
        }
    }
}

impl Extra for Four<Gather, Sync, Exec, Dgram> {
    ghost use Rattle.aio_reach.specs.Routed.{routed};

    ghost added = { routed };

    fn ask(
        &mut self,
        alloc: Global,
        task: u32,
        code: i64,
        arguments: &Value,
        futures: &[FutureId],
        parts: &mut Parts,
    ) -> Result<Asked, Memory> {
        self.ask_part(alloc, task, code, arguments, futures, parts)
    }

    fn wake(
        &mut self,
        alloc: Global,
        key: u64,
        input: Input,
        parts: &mut Parts,
    ) -> Result<Asked, Memory> {
        self.wake_part(alloc, key, input, parts)
    }

    fn act(&mut self, alloc: Global, key: u64, parts: &mut Parts) -> Result<(), Memory> {
        self.act_part(alloc, key, parts)
    }

    fn item(
        &mut self,
        alloc: Global,
        code: i64,
        bytes: &[u8],
        parts: &mut Parts,
    ) -> Result<(), Memory> {
        self.hear_part(alloc, code, bytes, parts)
    }

    fn watches(&self) -> bool {
        self.watches_any()
    }
}
