//! The values of scripts.
ghost use Rattle.std.specs.Prelude.{◌≡◌, ◌++◌, ◌-◌, ◌^◌, min, IfOk, OnOk};
ghost use Rattle.std.specs.Rc.{rc_str_bytes, rc_slice_items};
ghost use Rattle.model_value.specs.Value.{Nothing, Truth, Int, Text, Bytes, Items, Fut, Task, Group, Timeout, Conn, Server, Child, Errs, Exception, values};
ghost use Rattle.model_value.specs.Weight.{items_weight};
ghost use Rattle.model_value.specs.Depth.{items_depth};
ghost use Rattle.aio_base.specs.ValueCase.{value_of_case};

use crate::exc::Exc;
use crate::memory::Memory;
use crate::nesting::depth_of_all;
use crate::weigh::weight_of_all;
use std::alloc::{AllocError, Global};
use std::marker::Model;
use std::mem::size_of;
use std::rc::{Rc, RcSlice, RcStr};

/// From so many values on a list is long: some 96 KiB. A power of two.
const A_LONG_LIST: usize = 4_096;

/// A value of a script. Contracts see it as plain data.
#[cycle(value)]
#[derive(Drop)]
pub struct Value {
    node: ValueNode,
}

#[cycle(value)]
#[derive(Drop)]
enum ValueNode {
    Nothing,
    Bool(bool),
    Int(i64),
    Text(RcStr),
    Bytes(RcSlice<u8>),
    List(Rc<ValueList>),
    Fut(u32),
    Task(u32),
    Group(u32),
    Timeout(u32),
    Conn(u32),
    Server(u32),
    Child(u32),
    Errs(u32),
    Exc(Exc),
}

// A value is three words, whichever its case.
const _: () = prove!(size_of::<Value>() == 24);

/// A list of values.
#[cycle(value)]
#[derive(Drop)]
pub struct ValueList {
    items: Vec<Value>,
    // what the items weigh together, and how deep the deepest is
    weight: u64,
    depth: u64,
}

impl Model for Value {
    ghost use Rattle.model_value.specs.Value as plain;
    ghost use Rattle.aio_base.specs.Code.{coded_value};

    ghost Value = { plain.Value };

    ghost coded = { coded_value };

    ghost use Rattle.aio_base.specs.Size.{value_size};
    ghost use Rattle.aio_base.specs.Value.{value_of};

    ghost view = { λ a. value_of a.node };

    ghost size = { value_size };

    ghost use Rattle.aio_base.specs.ValueFalls.{node_falls};

    ghost size_decreases = { λ a h. node_falls a.node };
}

impl Model for ValueList {
    ghost use Rattle.std.specs.Prelude.{List};
    ghost use Rattle.std.specs.Coded.{coded_list};
    ghost use Rattle.model_value.specs.Value as plain;
    ghost use Rattle.aio_base.specs.Code.{coded_value};

    ghost Value = { List plain.Value };

    ghost coded = { coded_list coded_value };

    ghost use Rattle.aio_base.specs.Size.{list_size};
    ghost use Rattle.aio_base.specs.Counted.{IsCounted};

    ghost view = { λ a. a.items.items };

    ghost invariant = { λ a. IsCounted a.items.items a.weight a.depth };

    ghost size = { list_size };

    ghost use Rattle.aio_base.specs.ValueFalls.{items_fall};

    ghost size_decreases = { λ a h. items_fall a.items.items };
}

/// The cases of a value, with what they hold lent.
#[derive(Clone, Copy)]
pub enum ValueCase<'a> {
    Nothing,
    Bool(bool),
    Int(i64),
    Text(&'a RcStr),
    Bytes(&'a RcSlice<u8>),
    List(&'a Rc<ValueList>),
    Fut(u32),
    Task(u32),
    Group(u32),
    Timeout(u32),
    Conn(u32),
    Server(u32),
    Child(u32),
    Errs(u32),
    Exc(&'a Exc),
}

impl Value {
    /// None.
    pub fn nothing() -> Value
        ensures { result ≡ Nothing }
    {
        Value {
            node: ValueNode::Nothing,
        }
    }

    /// A Bool.
    pub fn bool(truth: bool) -> Value
        ensures { result ≡ Truth truth }
    {
        Value {
            node: ValueNode::Bool(truth),
        }
    }

    /// An Int.
    pub fn int(number: i64) -> Value
        ensures { result ≡ Int number }
    {
        Value {
            node: ValueNode::Int(number),
        }
    }

    /// A Text, which shares the bytes of `text`.
    pub fn text(text: RcStr) -> Value
        ensures { result ≡ Text (rc_str_bytes text) }
    {
        Value {
            node: ValueNode::Text(text),
        }
    }

    /// Bytes, which are shared.
    pub fn bytes(bytes: RcSlice<u8>) -> Value
        ensures { result ≡ Bytes (rc_slice_items bytes) }
    {
        Value {
            node: ValueNode::Bytes(bytes),
        }
    }

    /// A List, which shares its items.
    pub fn list(list: Rc<ValueList>) -> Value
        ensures { result ≡ Items (values list.value) }
    {
        Value {
            node: ValueNode::List(list),
        }
    }

    /// A text that nothing else shares.
    pub fn text_from(alloc: Global, text: &str) -> Result<Value, Memory>
        ensures { IfOk result (λ value. value ≡ Text text.now) }
    {
        Ok(Value::text(RcStr::from_str(alloc, text)?))
    }

    /// Bytes that nothing else shares.
    pub fn bytes_from(alloc: Global, bytes: &[u8]) -> Result<Value, Memory>
        ensures { IfOk result (λ value. value ≡ Bytes bytes.now) }
    {
        Ok(Value::bytes(RcSlice::from_slice(alloc, bytes)?))
    }

    /// A list that nothing else shares.
    pub fn list_from(alloc: Global, items: Vec<Value>) -> Result<Value, Memory>
        ensures { IfOk result (λ value. value ≡ Items (values items.items)) }
    {
        Ok(Value::list(Rc::new(alloc, ValueList::of(items))?))
    }

    /// A list of the values of both, those of the first before the others. Nothing else shares it.
    pub fn list_joined(alloc: Global, front: &ValueList, back: &ValueList) -> Result<Value, Memory>
        ensures { IfOk result (λ value. value ≡ Items (values (front.now ++ back.now))) }
    {
        let joined = ValueList::joined(alloc, front, back)?;
        Ok(Value::list(Rc::new(alloc, joined)?))
    }

    /// A future that a script made. Each kind of thing has ids of its own, from 0 in order of making.
    pub fn fut(id: u32) -> Value
        ensures { result ≡ Fut id }
    {
        Value {
            node: ValueNode::Fut(id),
        }
    }

    /// A task by its number, from 0.
    pub fn task(id: u32) -> Value
        ensures { result ≡ Task id }
    {
        Value {
            node: ValueNode::Task(id),
        }
    }

    /// A group by its number, from 0.
    pub fn group(id: u32) -> Value
        ensures { result ≡ Group id }
    {
        Value {
            node: ValueNode::Group(id),
        }
    }

    /// A timeout by its number, from 0.
    pub fn timeout(id: u32) -> Value
        ensures { result ≡ Timeout id }
    {
        Value {
            node: ValueNode::Timeout(id),
        }
    }

    /// A connection.
    pub fn conn(id: u32) -> Value
        ensures { result ≡ Conn id }
    {
        Value {
            node: ValueNode::Conn(id),
        }
    }

    /// A listener.
    pub fn server(id: u32) -> Value
        ensures { result ≡ Server id }
    {
        Value {
            node: ValueNode::Server(id),
        }
    }

    /// A child process.
    pub fn child(id: u32) -> Value
        ensures { result ≡ Child id }
    {
        Value {
            node: ValueNode::Child(id),
        }
    }

    /// The standard error of the child with this id.
    pub fn errs(id: u32) -> Value
        ensures { result ≡ Errs id }
    {
        Value {
            node: ValueNode::Errs(id),
        }
    }

    /// An exception as a value.
    pub fn exc(exc: Exc) -> Value
        ensures { result ≡ Exception exc }
    {
        Value {
            node: ValueNode::Exc(exc),
        }
    }

    /// The value's case, with what it holds lent.
    pub fn case(&self) -> ValueCase<'_>
        ensures { value_of_case result ≡ self.now }
    {
        match &self.node {
            ValueNode::Nothing => ValueCase::Nothing,
            ValueNode::Bool(truth) => ValueCase::Bool(*truth),
            ValueNode::Int(number) => ValueCase::Int(*number),
            ValueNode::Text(text) => ValueCase::Text(text),
            ValueNode::Bytes(bytes) => ValueCase::Bytes(bytes),
            ValueNode::List(list) => ValueCase::List(list),
            ValueNode::Fut(id) => ValueCase::Fut(*id),
            ValueNode::Task(id) => ValueCase::Task(*id),
            ValueNode::Group(id) => ValueCase::Group(*id),
            ValueNode::Timeout(id) => ValueCase::Timeout(*id),
            ValueNode::Conn(id) => ValueCase::Conn(*id),
            ValueNode::Server(id) => ValueCase::Server(*id),
            ValueNode::Child(id) => ValueCase::Child(*id),
            ValueNode::Errs(id) => ValueCase::Errs(*id),
            ValueNode::Exc(exc) => ValueCase::Exc(exc),
        }
    }
}

impl Clone for Value {
    ghost is_clone = { λ value copy. copy ≡ value };

    fn clone(&self) -> Result<Value, AllocError> {
        match &self.node {
            ValueNode::Nothing => Ok(Value::nothing()),
            ValueNode::Bool(truth) => Ok(Value::bool(*truth)),
            ValueNode::Int(number) => Ok(Value::int(*number)),
            ValueNode::Text(text) => Ok(Value::text(text.clone()?)),
            ValueNode::Bytes(bytes) => Ok(Value::bytes(bytes.clone()?)),
            ValueNode::List(list) => Ok(Value::list(list.clone()?)),
            ValueNode::Fut(id) => Ok(Value::fut(*id)),
            ValueNode::Task(id) => Ok(Value::task(*id)),
            ValueNode::Group(id) => Ok(Value::group(*id)),
            ValueNode::Timeout(id) => Ok(Value::timeout(*id)),
            ValueNode::Conn(id) => Ok(Value::conn(*id)),
            ValueNode::Server(id) => Ok(Value::server(*id)),
            ValueNode::Child(id) => Ok(Value::child(*id)),
            ValueNode::Errs(id) => Ok(Value::errs(*id)),
            ValueNode::Exc(exc) => Ok(Value::exc(exc.clone()?)),
        }
    }
}

impl ValueList {
    /// The values of a vector; nothing is copied. Their weights and depths are counted.
    pub fn of(items: Vec<Value>) -> ValueList
        ensures { result ≡ items.items }
    {
        let weight = weight_of_all(items.as_slice());
        let depth = depth_of_all(items.as_slice());
        ValueList {
            items,
            weight,
            depth,
        }
    }

    /// What the items weigh together, or 18,446,744,073,709,551,615 where it is more.
    pub fn weight(&self) -> u64
        ensures { result ≡ min (items_weight (values self.now)) (2 ^ 64 - 1) }
    {
        self.weight
    }

    /// The depth of the deepest item, or 18,446,744,073,709,551,615 where it is more.
    pub fn depth(&self) -> u64
        ensures { result ≡ min (items_depth (values self.now)) (2 ^ 64 - 1) }
    {
        self.depth
    }

    // The values of both. What they weigh together and how deep they are is read of the two lists.
    fn joined(alloc: Global, front: &ValueList, back: &ValueList) -> Result<ValueList, AllocError>
        ensures { IfOk result (λ list. list ≡ front.now ++ back.now) }
    {
        let count = front.items.len().saturating_add(back.items.len());
        let mut items = Vec::with_capacity(alloc, room_for(count))?;
        push_copies(&mut items, front.items.as_slice())?;
        push_copies(&mut items, back.items.as_slice())?;
        Ok(ValueList {
            items,
            weight: front.weight.saturating_add(back.weight),
            depth: front.depth.max(back.depth),
        })
    }

    /// The values in order.
    pub fn items(&self) -> &[Value]
        ensures { result.now ≡ self.now }
    {
        self.items.as_slice()
    }
}

// The room of a list of so many values. A long one gets a little more, so that a list that is joined to one that is hardly shorter
// takes memory of the size that was let go last: the system gives and takes back other sizes page by page.
fn room_for(count: usize) -> usize {
    if count < A_LONG_LIST {
        count
    } else {
        count | (A_LONG_LIST - 1)
    }
}

fn push_copies(items: &mut Vec<Value>, from: &[Value]) -> Result<(), AllocError>
    ensures { OnOk result (items.new.items ≡ items.old.items ++ from.now) }
{
    for item in from {
        match &item.node {
            // a number is copied at once
            ValueNode::Int(number) => items.push(Value::int(*number))?,
            _ => items.push(item.clone()?)?,
        }
    }
    Ok(())
}
