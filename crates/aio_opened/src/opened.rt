//! What the arguments of requests name among listeners, connections and children. `X` serves further
//! requests: it tells which state of the machine a clause speaks of.
ghost use Rattle.std.specs.Prelude.{◌≡◌};
ghost use Rattle.std.specs.Option.{option_map};
ghost use Rattle.std.specs.Rc.{rc_slice_items};
ghost use Rattle.model_value.specs.Value.{Child, Conn, Server};
ghost use Rattle.model_stream.specs.Requests.{OfChild, OfConn};
ghost use Rattle.model_wire.specs.declared.event.Handed.TheVariants as to;
ghost use Rattle.model_machine.specs.Arguments.{AWriter, as_bytes as bytes_of, as_child as child_of, as_conn as conn_of};
ghost use Rattle.model_machine.specs.Arguments.{as_closable as closable_of, as_reader as reader_of, as_writer as writer_of};
ghost use Rattle.model_machine.specs.State.{State};
ghost use Rattle.aio_transports.specs.Readers.{reader_as};
ghost use Rattle.aio_transports.specs.Standing.{TransportsStandFor};
ghost use Rattle.aio_opened.specs.Closing.{closable_as};

use aio_base::{Value, ValueCase};
use aio_extra::Extra;
use aio_transports::{StreamReader, Transports};
use model_pump::Stream;
use model_wire::Handed;
use std::rc::RcSlice;

/// What may be closed: a listener, or whom something is written to.
#[derive(Clone, Copy)]
pub enum Closable {
    Server(u32),
    Writer(Handed),
}

/// A connection that was made.
pub fn as_conn<X: Extra>(transports: &Transports, value: &Value) -> Option<u32>
    ensures { (s : State X.added.Kept) → TransportsStandFor transports.now s.streams
        → result ≡ conn_of s value.now }
{
    match value.case() {
        ValueCase::Conn(id) => conn::<X>(transports, id),
        _ => None,
    }
}

/// A child that was launched.
pub fn as_child<X: Extra>(transports: &Transports, value: &Value) -> Option<u32>
    ensures { (s : State X.added.Kept) → TransportsStandFor transports.now s.streams
        → result ≡ child_of s value.now }
{
    match value.case() {
        ValueCase::Child(id) => child::<X>(transports, id),
        _ => None,
    }
}

/// What is written: a connection, or a child's standard input.
pub fn as_writer<X: Extra>(transports: &Transports, value: &Value) -> Option<Handed>
    ensures { (s : State X.added.Kept) → TransportsStandFor transports.now s.streams
        → result ≡ writer_of s value.now }
{
    match value.case() {
        ValueCase::Conn(id) => to_conn(conn::<X>(transports, id)),
        ValueCase::Child(id) => to_child(child::<X>(transports, id)),
        _ => None,
    }
}

/// What is read: a connection, or one of the pipes that a child writes.
pub fn as_reader<X: Extra>(transports: &Transports, value: &Value) -> Option<StreamReader>
    ensures { (s : State X.added.Kept) → TransportsStandFor transports.now s.streams
        → option_map reader_as result ≡ reader_of s value.now }
{
    match value.case() {
        ValueCase::Conn(id) => of_conn(conn::<X>(transports, id)),
        ValueCase::Child(id) => of_child(Stream::Out, child::<X>(transports, id)),
        ValueCase::Errs(id) => of_child(Stream::Errs, child::<X>(transports, id)),
        _ => None,
    }
}

/// What may be closed.
pub fn as_closable<X: Extra>(transports: &Transports, value: &Value) -> Option<Closable>
    ensures { (s : State X.added.Kept) → TransportsStandFor transports.now s.streams
        → option_map closable_as result ≡ closable_of s value.now }
{
    match value.case() {
        ValueCase::Server(id) => server::<X>(transports, id),
        ValueCase::Conn(id) => writer(to_conn(conn::<X>(transports, id))),
        ValueCase::Child(id) => writer(to_child(child::<X>(transports, id))),
        _ => None,
    }
}

/// The bytes that a value holds, which are shared; None for any other kind.
pub fn as_bytes(value: &Value) -> Option<&RcSlice<u8>>
    ensures { option_map (λ bytes. rc_slice_items bytes.now) result ≡ bytes_of value.now }
{
    match value.case() {
        ValueCase::Bytes(bytes) => Some(bytes),
        _ => None,
    }
}

// The connection of this number, if it was made.
fn conn<X: Extra>(transports: &Transports, id: u32) -> Option<u32>
    ensures { (s : State X.added.Kept) → TransportsStandFor transports.now s.streams
        → result ≡ conn_of s (Conn id) }
{
    if transports.has_conn(id) {
        Some(id)
    } else {
        None
    }
}

// The child of this number, if it was launched.
fn child<X: Extra>(transports: &Transports, id: u32) -> Option<u32>
    ensures { (s : State X.added.Kept) → TransportsStandFor transports.now s.streams
        → result ≡ child_of s (Child id) }
{
    if transports.has_child(id) {
        Some(id)
    } else {
        None
    }
}

// The listener of this number, if it was made.
fn server<X: Extra>(transports: &Transports, id: u32) -> Option<Closable>
    ensures { (s : State X.added.Kept) → TransportsStandFor transports.now s.streams
        → option_map closable_as result ≡ closable_of s (Server id) }
{
    if transports.has_server(id) {
        Some(Closable::Server(id))
    } else {
        None
    }
}

fn to_conn(id: Option<u32>) -> Option<Handed>
    ensures { result ≡ option_map to.Conn id }
{
    match id {
        Some(id) => Some(Handed::Conn(id)),
        None => None,
    }
}

fn to_child(id: Option<u32>) -> Option<Handed>
    ensures { result ≡ option_map to.Child id }
{
    match id {
        Some(id) => Some(Handed::Child(id)),
        None => None,
    }
}

fn of_conn(id: Option<u32>) -> Option<StreamReader>
    ensures { option_map reader_as result ≡ option_map OfConn id }
{
    match id {
        Some(id) => Some(StreamReader::Conn(id)),
        None => None,
    }
}

fn of_child(pipe: Stream, id: Option<u32>) -> Option<StreamReader>
    ensures { option_map reader_as result ≡ option_map (OfChild pipe) id }
{
    match id {
        Some(id) => Some(StreamReader::Child { pipe, id }),
        None => None,
    }
}

fn writer(whom: Option<Handed>) -> Option<Closable>
    ensures { option_map closable_as result ≡ option_map AWriter whom }
{
    match whom {
        Some(whom) => Some(Closable::Writer(whom)),
        None => None,
    }
}
