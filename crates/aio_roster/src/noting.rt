//! What a child notes of a post, and what the post tells.
ghost use Rattle.std.specs.Prelude.{◌≡◌, ℕ, ◌<◌, ◌^◌, ◌+◌, ◌-◌};
ghost use Rattle.model_hub.specs.Gathering.{halt_at};
ghost use Rattle.model_hub.specs.Posts.{told_by, note_from, items_of};
ghost use Rattle.aio_select.specs.Takes.{list_of};
ghost use Rattle.aio_serving.specs.Served.{IsModest};
ghost use Rattle.aio_roster.specs.Rosters.{IsShort, IsSameChild};

use crate::PostKind;
use aio_base::ChildItem;
use aio_wire::Item;
use model_hub::{Child, Flow, Halt, Pump};
use model_pump::Stream;

/// Whether a post ends a select.
pub(crate) fn halt_at(kind: &PostKind) -> Halt
    ensures { result ≡ halt_at kind.now }
{
    match kind {
        PostKind::Fault => Halt::Faulted,
        PostKind::Starved => Halt::Starving,
        PostKind::Piece { .. }
        | PostKind::End(_)
        | PostKind::Room
        | PostKind::Broken
        | PostKind::Exit(_) => Halt::Going,
    }
}

fn with_piece(flow: Flow) -> Flow
    requires { flow.pieces < 2 ^ 62 }
    ensures { result ≡ record flow { pieces = flow.pieces + 1 } }
{
    Flow {
        gos: flow.gos,
        pieces: flow.pieces + 1,
        ended: flow.ended,
        owes: flow.owes,
    }
}

/// A child after a post on the seat of this pump.
pub(crate) fn note_from(pump: Pump, kind: &PostKind, child: Child) -> Child
    requires { IsShort (2 ^ 62 - 1) child }
    ensures is { result ≡ note_from pump kind.now child }
    ensures same { IsSameChild child result }
    ensures short { (most : ℕ) → IsShort most child → IsShort (most + 1) result }
    ensures modest { IsModest child → IsModest result }
{
    let mut new = child;
    match (pump, kind) {
        (
            Pump::Out,
            PostKind::Piece {
                stream: Stream::Out,
                ..
            },
        ) => new.out = with_piece(child.out),
        (Pump::Out, PostKind::End(Stream::Out)) => new.out.ended = true,
        (
            Pump::Errs,
            PostKind::Piece {
                stream: Stream::Errs,
                ..
            },
        ) => new.errs = with_piece(child.errs),
        (Pump::Errs, PostKind::End(Stream::Errs)) => new.errs.ended = true,
        (Pump::Exit, PostKind::Exit(_)) => new.exited = true,
        (_, PostKind::Room) => new.rooms += 1,
        (_, PostKind::Broken) => new.broken = true,
        _ => {}
    }
    new
}

/// What a post on the seat of this pump tells of its child.
pub(crate) fn told_by(pump: Pump, kind: PostKind) -> Option<ChildItem>
    ensures { result ≡ told_by pump kind }
{
    match (pump, kind) {
        (
            Pump::Out,
            PostKind::Piece {
                stream: Stream::Out,
                bytes,
                ..
            },
        ) => Some(ChildItem::Out(bytes)),
        (Pump::Out, PostKind::End(Stream::Out)) => Some(ChildItem::OutEnd),
        (
            Pump::Errs,
            PostKind::Piece {
                stream: Stream::Errs,
                bytes,
                ..
            },
        ) => Some(ChildItem::Errs(bytes)),
        (Pump::Errs, PostKind::End(Stream::Errs)) => Some(ChildItem::ErrsEnd),
        (Pump::Exit, PostKind::Exit(code)) => Some(ChildItem::Exit(code as i64)),
        (_, PostKind::Broken) => Some(ChildItem::Broken),
        _ => None,
    }
}

/// The item of what a child's post tells.
pub(crate) fn item_of(child: u32, told: Option<ChildItem>) -> Option<Item>
    ensures { list_of result ≡ items_of child told }
{
    match told {
        Some(item) => Some(Item::Child { child, item }),
        None => None,
    }
}
