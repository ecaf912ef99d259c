//! What each call gives to the lanes of a child before anything else: Gos of streams that are newly wanted, and what
//! found its lane full before.
ghost use Rattle.std.specs.Prelude.{◌≡◌, ◌+◌, ◌<◌, ◌^◌, true};
ghost use Rattle.model_hub.specs.Others.{OfGo};
ghost use Rattle.model_hub.specs.Children.{flow_of};
ghost use Rattle.model_hub.specs.Lanes.{is_wanted, is_idle, offers_go, after_go, after_close};
ghost use Rattle.model_hub.specs.Asked.{lane_of};
ghost use Rattle.aio_serving.specs.Heads.{has_lane};
ghost use Rattle.aio_serving.specs.Served.{IsModest, GivesGo, GivesClose, Serves};

use crate::heads::{Command, Heads};
use crate::record::{flow_of, is_owed, runs, with_flow};
use aio_base::ChildItem;
use aio_wire::{Item, Watch, is_awaited};
use model_hub::{Child, Closing, Flow, Giving, Pump};
use model_pump::Stream;
use std::sync::Wait;

fn is_wanted(watch: &[Watch], stream: Stream, child: &Child) -> bool
    ensures { result ≡ is_wanted watch.now stream child.now }
{
    let item = match stream {
        Stream::Out => ChildItem::OutEnd,
        Stream::Errs => ChildItem::ErrsEnd,
    };
    is_awaited(
        watch,
        &Item::Child {
            child: child.number,
            item,
        },
    )
}

fn is_idle(flow: Flow) -> bool
    ensures { result ≡ is_idle flow }
{
    !flow.ended && flow.pieces == flow.gos
}

fn offers_go(watch: &[Watch], stream: Stream, child: &Child) -> bool
    ensures { result ≡ offers_go watch.now stream child.now }
{
    let flow = flow_of(stream, child);
    runs(child.stay) && (flow.owes || is_wanted(watch, stream, child) && is_idle(flow))
}

fn after_go(giving: Giving, flow: Flow) -> Flow
    requires { flow.gos + 1 < 2 ^ 64 }
    ensures { result ≡ after_go giving flow }
{
    let mut new = flow;
    match giving {
        Giving::Given => {
            new.gos += 1;
            new.owes = false;
        }
        Giving::Full => new.owes = true,
        Giving::Spent => new.owes = false,
    }
    new
}

pub(crate) fn after_close(giving: Giving) -> Closing
    ensures { result ≡ after_close giving }
{
    match giving {
        Giving::Given => Closing::Closed,
        Giving::Full => Closing::Owed,
        Giving::Spent => Closing::Unclosable,
    }
}

fn lane_of(stream: Stream) -> Pump
    ensures is { result ≡ lane_of (OfGo stream) }
    ensures lane { has_lane result ≡ true }
{
    match stream {
        Stream::Out => Pump::Out,
        Stream::Errs => Pump::Errs,
    }
}

// Offers a Go for a stream that is newly wanted, or to which one is owed.
fn with_go<R: Wait, H: Heads>(
    rt: &R,
    heads: &mut H,
    watch: &[Watch],
    stream: Stream,
    child: Child,
) -> Child
    requires has { (H.seen heads.old).has child.number ≡ true }
    requires room { (flow_of stream child).gos + 1 < 2 ^ 64 }
    ensures { GivesGo watch.now stream child result (H.seen heads.old) (H.seen heads.new) }
{
    if !offers_go(watch, stream, &child) {
        return child;
    }
    let giving = heads.give(rt, child.number, lane_of(stream), Command::Go);
    with_flow(stream, after_go(giving, flow_of(stream, &child)), child)
}

// Offers a Close that is owed.
fn with_close<R: Wait, H: Heads>(rt: &R, heads: &mut H, child: Child) -> Child
    requires { (H.seen heads.old).has child.number ≡ true }
    ensures { GivesClose child result (H.seen heads.old) (H.seen heads.new) }
{
    if !(runs(child.stay) && is_owed(child.closing)) {
        return child;
    }
    let giving = heads.give(rt, child.number, Pump::Stdin, Command::Close);
    let mut new = child;
    new.closing = after_close(giving);
    new
}

/// Gives a child a Go for each stream that is newly wanted, and again what found its lane full. A call
/// that is no select watches nothing. It waits for no pump.
pub fn serve_child<R: Wait, H: Heads>(rt: &R, heads: &mut H, watch: &[Watch], child: Child) -> Child
    requires has { (H.seen heads.old).has child.number ≡ true }
    requires modest { IsModest child }
    requires short { (child.out.pieces < 2 ^ 63) × (child.errs.pieces < 2 ^ 63) }
    ensures { Serves watch.now child result (H.seen heads.old) (H.seen heads.new) }
{
    let child = with_go(rt, heads, watch, Stream::Out, child);
    let child = with_go(rt, heads, watch, Stream::Errs, child);
    with_close(rt, heads, child)
}
