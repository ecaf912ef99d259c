//! Nothing is added.
ghost use Rattle.std.specs.Prelude.{◌≡◌, pos, IfOk};
ghost use Rattle.model_machine.specs.Extra.{unknown_code};

use crate::asked::Asked;
use crate::extra::Extra;
use aio_base::{Input, Kind, Memory, Value, exception};
use aio_task::{FutureId, Parts};
use std::alloc::Global;

/// Nothing is added: each code is unknown.
#[derive(Clone, Copy)]
pub struct NoExtra;

impl Extra for NoExtra {
    ghost use Rattle.aio_extra.specs.Nothing.{nothing_added};

    ghost added = { nothing_added };

    fn ask(
        &mut self,
        alloc: Global,
        _task: u32,
        code: i64,
        _arguments: &Value,
        _futures: &[FutureId],
        _parts: &mut Parts,
    ) -> Result<Asked, Memory> {
        unknown(alloc, code)
    }

    fn wake(
        &mut self,
        alloc: Global,
        key: u64,
        _input: Input,
        _parts: &mut Parts,
    ) -> Result<Asked, Memory> {
        unknown_key(alloc, key)
    }

    fn act(&mut self, _alloc: Global, _key: u64, _parts: &mut Parts) -> Result<(), Memory> {
        Ok(())
    }

    fn item(
        &mut self,
        _alloc: Global,
        _code: i64,
        _bytes: &[u8],
        _parts: &mut Parts,
    ) -> Result<(), Memory> {
        Ok(())
    }

    fn watches(&self) -> bool {
        false
    }
}

fn unknown(alloc: Global, code: i64) -> Result<Asked, Memory>
    ensures { IfOk result (λ asked. asked ≡ Asked.Raise (unknown_code code)) }
{
    let text = format!(in alloc; "extra {code}")?;
    Ok(Asked::Raise(exception(alloc, Kind::NameError, text.as_str())?))
}

fn unknown_key(alloc: Global, key: u64) -> Result<Asked, Memory>
    ensures { IfOk result (λ asked. asked ≡ Asked.Raise (unknown_code (pos key))) }
{
    let text = format!(in alloc; "extra {key}")?;
    Ok(Asked::Raise(exception(alloc, Kind::NameError, text.as_str())?))
}
