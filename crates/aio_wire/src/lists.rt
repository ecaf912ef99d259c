//! Lists of items, of watch entries and of words.
ghost use Rattle.std.specs.Prelude.{◌≡◌, map};
ghost use Rattle.std.specs.Rc.{rc_str_bytes};

use aio_base::Blob;
pub use model_wire::Watch;
use std::marker::Model;
use std::rc::RcStr;

/// What came while a select waited.
pub type Item = model_wire::Item<Blob>;

/// The items of a turn. Contracts see them as a list.
#[derive(Drop)]
pub struct ItemList {
    items: Vec<Item>,
}

impl Model for ItemList {
    ghost use Rattle.std.specs.Prelude.{List};
    ghost use Rattle.model_wire.specs.Call.{Item as PlainItem};

    ghost Value = { List PlainItem };

    ghost view = { λ list. list.items.items };
}

impl ItemList {
    /// The items of a vector; nothing is copied.
    pub fn of(items: Vec<Item>) -> ItemList
        ensures { result ≡ items.items }
    {
        ItemList { items }
    }

    /// The items in order.
    pub fn items(&self) -> &[Item]
        ensures { result.now ≡ self.now }
    {
        self.items.as_slice()
    }
}

/// What a select watches, in order of opening. Contracts see it as a list.
#[derive(Drop)]
pub struct WatchList {
    items: Vec<Watch>,
}

impl Model for WatchList {
    ghost use Rattle.std.specs.Prelude.{List};
    ghost use Rattle.model_wire.specs.declared.watch.Watch.{Watch as PlainWatch};

    ghost Value = { List PlainWatch };

    ghost view = { λ list. list.items.items };
}

impl WatchList {
    /// The entries of a vector; nothing is copied.
    pub fn of(items: Vec<Watch>) -> WatchList
        ensures { result ≡ items.items }
    {
        WatchList { items }
    }

    /// The entries in order of opening.
    pub fn items(&self) -> &[Watch]
        ensures { result.now ≡ self.now }
    {
        self.items.as_slice()
    }
}

/// The words of a launch: a program and its arguments. Contracts see them as a list of texts.
#[derive(Drop)]
pub struct WordList {
    items: Vec<RcStr>,
}

impl Model for WordList {
    ghost use Rattle.std.specs.Prelude.{List, ℕ, map};
    ghost use Rattle.std.specs.Rc.{rc_str_bytes};

    ghost Value = { List (List ℕ) };

    ghost view = { λ list. map rc_str_bytes list.items.items };
}

impl WordList {
    /// The words of a vector; nothing is copied.
    pub fn of(items: Vec<RcStr>) -> WordList
        ensures { result ≡ map rc_str_bytes items.items }
    {
        WordList { items }
    }

    /// The words in order, the program's name first.
    pub fn items(&self) -> &[RcStr]
        ensures { map rc_str_bytes result.now ≡ self.now }
    {
        self.items.as_slice()
    }
}
