//! The exceptions of scripts.
ghost use Rattle.std.specs.Prelude.{◌≡◌, [], ◌-◌, ◌^◌, min, IfOk};
ghost use Rattle.std.specs.Rc.{rc_slice_items};
ghost use Rattle.model_value.specs.Value.{exc, kind_of, text_of, bytes_of, members_of, excs, excs_of, with_bytes, with_members, exception_of};
ghost use Rattle.model_value.specs.Weight.{members_weight};
ghost use Rattle.model_value.specs.Depth.{members_depth};
ghost use Rattle.aio_base.specs.Held.{bytes_held, members_held};

use crate::memory::Memory;
use crate::nesting::depth_of_members;
use crate::weigh::weight_of_members;
use model_value::Kind;
use std::alloc::{AllocError, Global};
use std::marker::Model;
use std::mem::size_of;
use std::rc::{Rc, RcSlice};

/// An exception: its kind, its text, its bytes and the members of a group. Contracts see it as plain data, in which
/// `None` and an empty text, byte value or list are the same. One that has a kind alone takes no memory; what another has
/// stands behind one pointer, which its copies share.
#[cycle(exc)]
#[derive(Drop)]
pub struct Exc {
    node: ExcNode,
}

#[cycle(exc)]
#[derive(Drop)]
enum ExcNode {
    Bare(Kind),
    Full(Rc<ExcParts>),
}

// All that an exception has.
#[cycle(exc)]
#[derive(Drop)]
struct ExcParts {
    kind: Kind,
    text: String,
    bytes: Option<RcSlice<u8>>,
    members: Option<Rc<ExcList>>,
}

// An exception is two words, so that a value is three.
const _: () = prove!(size_of::<Exc>() == 16);

/// Exceptions in order. Contracts see them as a list.
#[cycle(exc)]
#[derive(Drop)]
pub struct ExcList {
    items: Vec<Exc>,
    // what they weigh together, and how deep the deepest is
    weight: u64,
    depth: u64,
}

impl Model for Exc {
    ghost use Rattle.model_value.specs.Value as plain;
    ghost use Rattle.aio_base.specs.Code.{coded_exc};

    ghost Value = { plain.Exc };

    ghost coded = { coded_exc };

    ghost use Rattle.aio_base.specs.Size.{exc_size};
    ghost use Rattle.aio_base.specs.Exc.{exc_of};

    ghost view = { λ a. exc_of a.node };

    ghost size = { exc_size };

    ghost use Rattle.aio_base.specs.ExcFalls.{members_fall};

    ghost size_decreases = { λ a h. members_fall a.node };
}

impl Model for ExcList {
    ghost use Rattle.std.specs.Prelude.{List};
    ghost use Rattle.std.specs.Coded.{coded_list};
    ghost use Rattle.model_value.specs.Value as plain;
    ghost use Rattle.aio_base.specs.Code.{coded_exc};

    ghost Value = { List plain.Exc };

    ghost coded = { coded_list coded_exc };

    ghost use Rattle.aio_base.specs.Size.{excs_size};
    ghost use Rattle.aio_base.specs.Counted.{AreCounted};

    ghost view = { λ a. a.items.items };

    ghost invariant = { λ a. AreCounted a.items.items a.weight a.depth };

    ghost size = { excs_size };

    ghost use Rattle.aio_base.specs.ExcFalls.{excs_fall};

    ghost size_decreases = { λ a h. excs_fall a.items.items };
}

impl Exc {
    /// An exception of this kind with an empty text. It takes no memory.
    pub fn bare(kind: Kind) -> Exc
        ensures { result ≡ exception_of kind [] }
    {
        Exc {
            node: ExcNode::Bare(kind),
        }
    }

    /// The kind.
    pub fn kind(&self) -> Kind
        ensures { result ≡ kind_of self.now }
    {
        match &self.node {
            ExcNode::Bare(kind) => *kind,
            ExcNode::Full(parts) => parts.as_ref().kind,
        }
    }

    /// The text; empty where it has none.
    pub fn text(&self) -> &str
        ensures { result.now ≡ text_of self.now }
    {
        match &self.node {
            ExcNode::Bare(_) => "",
            ExcNode::Full(parts) => parts.as_ref().text.as_str(),
        }
    }

    /// The bytes that came before an IncompleteReadError; else empty.
    pub fn bytes(&self) -> &[u8]
        ensures { result.now ≡ bytes_of self.now }
    {
        match &self.node {
            ExcNode::Bare(_) => &[],
            ExcNode::Full(parts) => parts.as_ref().bytes(),
        }
    }

    /// The members of an ExceptionGroup in order; else empty.
    pub fn members(&self) -> &[Exc]
        ensures { result.now ≡ members_of self.now }
    {
        match &self.node {
            ExcNode::Bare(_) => &[],
            ExcNode::Full(parts) => parts.as_ref().members(),
        }
    }

    /// What the members weigh together, or 18,446,744,073,709,551,615 where it is more.
    #[tactic(auto, using(law_value::proofs::Rows::rows))]
    pub fn members_weight(&self) -> u64
        ensures { result ≡ min (members_weight (excs (members_of self.now))) (2 ^ 64 - 1) }
    {
        match &self.node {
            ExcNode::Bare(_) => 0,
            ExcNode::Full(parts) => parts.as_ref().members_weight(),
        }
    }

    /// The depth of the deepest member, or 18,446,744,073,709,551,615 where it is more; else 0.
    #[tactic(auto, using(law_value::proofs::Rows::rows))]
    pub fn members_depth(&self) -> u64
        ensures { result ≡ min (members_depth (excs (members_of self.now))) (2 ^ 64 - 1) }
    {
        match &self.node {
            ExcNode::Bare(_) => 0,
            ExcNode::Full(parts) => parts.as_ref().members_depth(),
        }
    }
}

impl Exc {
    /// The exception with these bytes in the place of its own.
    pub fn with_bytes(self, alloc: Global, bytes: RcSlice<u8>) -> Result<Exc, Memory>
        ensures { IfOk result (λ exc. exc ≡ with_bytes self (rc_slice_items bytes)) }
    {
        match &self.node {
            ExcNode::Bare(kind) => full(alloc, *kind, "", Some(bytes), None),
            ExcNode::Full(parts) => {
                let parts = parts.as_ref();
                let members = parts.members.clone()?;
                full(alloc, parts.kind, parts.text.as_str(), Some(bytes), members)
            }
        }
    }

    /// The exception with these members in the place of its own.
    pub fn with_members(self, alloc: Global, members: Rc<ExcList>) -> Result<Exc, Memory>
        ensures { IfOk result (λ exc. exc ≡ with_members self members.value) }
    {
        match &self.node {
            ExcNode::Bare(kind) => full(alloc, *kind, "", None, Some(members)),
            ExcNode::Full(parts) => {
                let parts = parts.as_ref();
                let bytes = parts.bytes.clone()?;
                full(alloc, parts.kind, parts.text.as_str(), bytes, Some(members))
            }
        }
    }
}

impl Clone for Exc {
    ghost is_clone = { λ exc copy. copy ≡ exc };

    fn clone(&self) -> Result<Exc, AllocError> {
        match &self.node {
            ExcNode::Bare(kind) => Ok(Exc::bare(*kind)),
            ExcNode::Full(parts) => Ok(Exc {
                node: ExcNode::Full(parts.clone()?),
            }),
        }
    }
}

impl ExcParts {
    fn bytes(&self) -> &[u8]
        ensures { result.now ≡ bytes_held self.now.bytes }
    {
        match &self.bytes {
            Some(bytes) => bytes.as_slice(),
            None => &[],
        }
    }

    #[tactic(auto, using(law_value::proofs::Rows::rows))]
    fn members(&self) -> &[Exc]
        ensures { result.now ≡ excs_of (members_held self.now.members) }
    {
        match &self.members {
            Some(members) => members.as_ref().items(),
            None => &[],
        }
    }

    fn members_weight(&self) -> u64
        ensures { result ≡ min (members_weight (members_held self.now.members)) (2 ^ 64 - 1) }
    {
        match &self.members {
            Some(members) => members.as_ref().weight(),
            None => 0,
        }
    }

    fn members_depth(&self) -> u64
        ensures { result ≡ min (members_depth (members_held self.now.members)) (2 ^ 64 - 1) }
    {
        match &self.members {
            Some(members) => members.as_ref().depth(),
            None => 0,
        }
    }
}

impl ExcList {
    /// The exceptions of a vector; nothing is copied. Their weights and depths are counted.
    pub fn of(items: Vec<Exc>) -> ExcList
        ensures { result ≡ items.items }
    {
        let weight = weight_of_members(items.as_slice());
        let depth = depth_of_members(items.as_slice());
        ExcList {
            items,
            weight,
            depth,
        }
    }

    /// What they weigh together, or 18,446,744,073,709,551,615 where it is more.
    pub fn weight(&self) -> u64
        ensures { result ≡ min (members_weight (excs self.now)) (2 ^ 64 - 1) }
    {
        self.weight
    }

    /// The depth of the deepest, or 18,446,744,073,709,551,615 where it is more.
    pub fn depth(&self) -> u64
        ensures { result ≡ min (members_depth (excs self.now)) (2 ^ 64 - 1) }
    {
        self.depth
    }

    /// The exceptions in order.
    pub fn items(&self) -> &[Exc]
        ensures { result.now ≡ self.now }
    {
        self.items.as_slice()
    }
}

/// An exception of this kind with this text, no bytes and no members.
pub fn exception(alloc: Global, kind: Kind, text: &str) -> Result<Exc, Memory>
    ensures ok { IfOk result (λ exc. exc ≡ exception_of kind text.now) }
{
    if text.is_empty() {
        return Ok(Exc::bare(kind));
    }
    full(alloc, kind, text, None, None)
}

// An exception of these parts.
fn full(
    alloc: Global,
    kind: Kind,
    text: &str,
    bytes: Option<RcSlice<u8>>,
    members: Option<Rc<ExcList>>,
) -> Result<Exc, Memory>
    ensures { IfOk result (λ made.
        made ≡ exc kind text.now (bytes_held bytes) (members_held members)) }
{
    let text = String::from_str(alloc, text)?;
    let parts = ExcParts {
        kind,
        text,
        bytes,
        members,
    };
    Ok(Exc {
        node: ExcNode::Full(Rc::new(alloc, parts)?),
    })
}
