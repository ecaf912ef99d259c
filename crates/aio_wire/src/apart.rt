//! Whether no two items of a turn take up the same.
ghost use Rattle.std.specs.Prelude.{◌≡◌, IfOk};
ghost use Rattle.model_wire.specs.Fits.{stand_apart};

use crate::fitting::interest_of;
use crate::lists::Item;
use aio_base::Memory;
use indexmap::IndexSet;
use std::alloc::Global;

/// Whether no item takes up the same as another. It looks at each once.
pub fn stand_apart(alloc: Global, items: &[Item]) -> Result<bool, Memory>
    ensures { IfOk result (λ apart. apart ≡ stand_apart items.now) }
{
    let mut taken = IndexSet::new(alloc);
    for item in items {
        if let Some(interest) = interest_of(item) {
            if !taken.insert(interest)? {
                return Ok(false);
            }
        }
    }
    Ok(true)
}
