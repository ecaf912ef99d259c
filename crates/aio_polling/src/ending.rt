//! What a select comes to, and what it keeps.
ghost use Rattle.std.specs.Prelude.{◌≡◌, ◌++◌, IfOk};
ghost use Rattle.std.specs.List.{filter};
ghost use Rattle.model_hub.specs.Select.{is_childs};
ghost use Rattle.aio_polling.specs.Selects.{selected_at, kept_at};

use aio_base::{ChildItem, Memory};
use aio_select::Answering;
use aio_wire::{Item, ItemList};
use model_hub::Halt;

/// What a select came to.
#[derive(Drop)]
pub enum Selected {
    /// The time in milliseconds, and what came.
    Turn { now: u64, items: ItemList },
    /// A pump's source or exit failed, as a post told.
    Faulted,
    /// Memory was refused to a pump, as a post told.
    Starved,
    /// The poller failed.
    Unpolled,
}

/// What a select came to, and the items that are kept for the next.
#[derive(Drop)]
pub struct Ended {
    pub said: Selected,
    pub kept: Vec<Item>,
}

// The items of children that posts told.
fn is_childs(item: &Item) -> bool
    ensures { result ≡ is_childs item.now }
{
    match item {
        Item::Child { item, .. } => match item {
            ChildItem::Broken => false,
            ChildItem::Out(_)
            | ChildItem::OutEnd
            | ChildItem::Errs(_)
            | ChildItem::ErrsEnd
            | ChildItem::Exit(_) => true,
        },
        Item::ReadableServer(_)
        | Item::Ready { .. }
        | Item::Up(_)
        | Item::Down(_)
        | Item::WritableChild(_)
        | Item::Extra { .. } => false,
    }
}

// The children's items of an answer that isn't given, before what is kept behind them.
fn keep_all(items: Vec<Item>, kept: Vec<Item>) -> Result<Vec<Item>, Memory>
    ensures { IfOk result (λ all. all.items ≡ filter is_childs items.items ++ kept.items) }
{
    let mut all = items;
    all.retain(|item| is_childs(item));
    let mut behind = kept;
    all.append(&mut behind)?;
    Ok(all)
}

/// Gives the answer; where a failure ended the select, it is kept.
pub(crate) fn end(now: u64, halt: Halt, answering: Answering) -> Result<Ended, Memory>
    ensures said { IfOk result (λ ended. ended.said ≡ selected_at halt now answering.items.items) }
    ensures kept { IfOk result (λ ended. ended.kept.items ≡ kept_at halt answering.items.items
        answering.kept.items) }
{
    let Answering {
        items,
        bytes: _,
        kept,
        taken: _taken,
        behind: _behind,
    } = answering;
    match halt {
        Halt::Going => Ok(Ended {
            said: Selected::Turn {
                now,
                items: ItemList::of(items),
            },
            kept,
        }),
        Halt::Faulted => Ok(Ended {
            said: Selected::Faulted,
            kept: keep_all(items, kept)?,
        }),
        Halt::Starving => Ok(Ended {
            said: Selected::Starved,
            kept: keep_all(items, kept)?,
        }),
    }
}
