//! Jobs serve requests.
ghost use Rattle.std.specs.Prelude.{◌≡◌, Some, true, is_some};
ghost use Rattle.model_machine.specs.Arguments.{as_list};

use crate::exec::Exec;
use crate::said::place_of;
use crate::wanted::is_job_code;
use aio_base::{Input, Memory, Value, ValueCase};
use aio_extra::{Asked, Extra};
use aio_task::{FutureId, Parts};
use std::alloc::Global;

fn items_in(list: &Value) -> &[Value]
    requires { is_some (as_list list.now) ≡ true }
    ensures { as_list list.now ≡ Some result.now }
{
    match list.case() {
        ValueCase::List(items) => items.items(),
        _ => &[],
    }
}

impl Extra for Exec {
    ghost use Rattle.aio_exec.specs.Added.{exec_added};

    ghost added = { exec_added };

    fn ask(
        &mut self,
        alloc: Global,
        _task: u32,
        code: i64,
        arguments: &Value,
        _futures: &[FutureId],
        _parts: &mut Parts,
    ) -> Result<Asked, Memory> {
        self.ask_for(alloc, code, items_in(arguments))
    }

    fn wake(
        &mut self,
        alloc: Global,
        key: u64,
        input: Input,
        parts: &mut Parts,
    ) -> Result<Asked, Memory> {
        self.woken(alloc, key, place_of(key), input, parts)
    }

    fn act(&mut self, _alloc: Global, _key: u64, _parts: &mut Parts) -> Result<(), Memory> {
        Ok(())
    }

    fn item(
        &mut self,
        alloc: Global,
        code: i64,
        bytes: &[u8],
        parts: &mut Parts,
    ) -> Result<(), Memory> {
        if !is_job_code(code) {
            return Ok(());
        }
        self.told(alloc, bytes, parts)
    }

    fn watches(&self) -> bool {
        self.jobs.go_on()
    }
}
