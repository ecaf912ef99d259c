//! The nodes of a chain, which lie in blocks of their own. Nothing else has a pointer.
ghost use Rattle.std.specs.Prelude.{◌≡◌, true, false, List, length, [], ◌∷◌, ◌++◌};
ghost use Rattle.aio_chain.specs.Links.{Link, links_of, is_empty, IsChained};
ghost use Rattle.aio_chain.specs.Ownership.{nodes_own};

use std::alloc::Allocator;
use std::marker::Model;
use std_alloc::room::Vacant;

/// `last` is true in the last node alone, whose `next` means nothing.
pub struct Node<T, A> {
    next: *const Node<T, A>,
    last: bool,
    elem: T,
    alloc: A,
}

/// `blocks` says of each node where it lies, its `next` and its `last`, and its handle. With no
/// node, `head` and `tail` mean nothing. There is no `Drop`: `end` alone lets nodes go, and they
/// own nothing then.
pub struct Nodes<T, A: Allocator> {
    head: *const Node<T, A>,
    tail: *const Node<T, A>,
    ghost items: { List T },
    ghost blocks: { List (Link × A) },
    ghost ok: { length blocks ≡ length items },
    ghost chained: { ∥ IsChained head tail (links_of blocks) ∥₁ },
}

impl<T, A: Allocator> Model for Nodes<T, A> {
    ghost also_owns = { λ n. nodes_own T.row A.row A.dealloc_token n.blocks n.items };
}

impl<T, A: Allocator> Nodes<T, A> {
    /// No nodes. Both pointers dangle.
    pub fn new() -> Nodes<T, A>
        ensures { result.items ≡ [] }
    {
        let none: [u8; 0] = [];
        let nowhere = &raw const none as *const Node<T, A>;
        Nodes {
            head: nowhere,
            tail: nowhere,
        }
    }

    /// The first node, where there is none.
    pub fn link_first(&mut self, room: Vacant<Node<T, A>, A>, elem: T)
        requires { is_empty self.old.items ≡ true }
        ensures { self.new.items ≡ elem ∷ [] }
    {
        let Vacant { ptr, alloc } = room;
        unsafe {
            ptr.write(Node {
                next: ptr,
                last: true,
                elem,
                alloc,
            });
        }
        self.head = ptr;
        self.tail = ptr;
    }

    /// A node after the last.
    pub fn link_back(&mut self, room: Vacant<Node<T, A>, A>, elem: T)
        requires { is_empty self.old.items ≡ false }
        ensures { self.new.items ≡ self.old.items ++ elem ∷ [] }
    {
        let Vacant { ptr, alloc } = room;
        let tail = self.tail.cast_mut();
        unsafe {
            ptr.write(Node {
                next: ptr,
                last: true,
                elem,
                alloc,
            });
            (*tail).next = ptr;
            (*tail).last = false;
        }
        self.tail = ptr;
    }

    /// Takes the first node out. The answer begins with whether it was the last.
    pub fn unlink_front(&mut self) -> (bool, (T, Vacant<Node<T, A>, A>))
        requires { is_empty self.old.items ≡ false }
        ensures { (self.old.items ≡ result.1.0 ∷ self.new.items)
            × (result.0 ≡ is_empty self.new.items) }
    {
        let ptr = self.head.cast_mut();
        unsafe {
            self.head = (*ptr).next;
            let last = (*ptr).last;
            let elem = (&raw const (*ptr).elem).read();
            let alloc = (&raw const (*ptr).alloc).read();
            (last, (elem, Vacant { ptr, alloc }))
        }
    }

    /// Links all nodes of another chain in after the last.
    pub fn join(&mut self, other: &mut Nodes<T, A>)
        requires { (is_empty self.old.items ≡ false) × (is_empty other.old.items ≡ false) }
        ensures { (self.new.items ≡ self.old.items ++ other.old.items) × (other.new.items ≡ []) }
    {
        let tail = self.tail.cast_mut();
        unsafe {
            (*tail).next = other.head;
            (*tail).last = false;
        }
        self.tail = other.tail;
    }

    /// Lets the pointers go, once no node is left.
    pub fn end(self)
        requires { self.items ≡ [] }
    {
        let Nodes { head: _, tail: _ } = self;
    }
}
