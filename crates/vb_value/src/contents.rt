//! What an instance of a predicate contains, as a finite tree.

ghost use Rattle.std.specs.Prelude.{◌≡◌, ◌↔◌, ◌+◌, ◌-◌, ◌<◌, ◌≤◌, min, IsTrue, SomeIff, IfOk, Err};
ghost use Rattle.std.specs.Cmp.{partial_equiv_from_equiv};
ghost use Rattle.std.specs.Ordering.{on};
ghost use Rattle.vb_base.specs.Limits.{max_content_nodes};
ghost use Rattle.vb_value.specs.Equality.{same_content_equiv};
ghost use Rattle.vb_value.specs.Content as tree;
ghost use Rattle.vb_value.specs.Content.{nodes, same_content};
ghost use Rattle.vb_value.specs.View.{content_of};

use crate::Memory;
use crate::values::Value;
use std::alloc::{AllocError, Global};
use std::rc::Rc;
use vb_base::limits::MAX_CONTENT_NODES;

/// Why two contents were not made a pair.
#[derive(Clone, Copy, Debug, PartialEq, Eq)]
pub enum PairFault {
    /// There was no memory.
    Memory,
    /// The pair would have more than `MAX_CONTENT_NODES` nodes.
    Over,
}

/// What an instance contains, seen as its tree: nothing, the value of a place, or two contents.
///
/// Contents share their parts, since a state keeps what an instance contained beside a content that it is a part of.
#[derive(Debug, Drop)]
pub enum Content {
    Unit,
    Leaf(Value),
    Pair(Rc<Content>, Rc<Content>),
}

impl Content {
    /// Whether the two trees are equal.
    pub fn same(&self, other: &Content) -> bool
        ensures exact { IsTrue result ↔ (content_of self.now ≡ content_of other.now) }
        ensures value { result ≡ same_content (content_of self.now) (content_of other.now) }
    {
        match self {
            Content::Unit => match other {
                Content::Unit => true,
                _ => false,
            },
            Content::Leaf(value) => match other {
                Content::Leaf(other_value) => *value == *other_value,
                _ => false,
            },
            Content::Pair(left, right) => match other {
                Content::Pair(other_left, other_right) => {
                    left.same(other_left) && right.same(other_right)
                }
                _ => false,
            },
        }
    }

    /// How many nodes there are, or `MAX_CONTENT_NODES + 1` where there are more. It visits no more nodes
    /// than that.
    pub fn nodes(&self) -> u32
        ensures { result ≡ min (nodes (content_of self.now)) (max_content_nodes + 1) }
    {
        match self.room_after(MAX_CONTENT_NODES) {
            Some(left) => MAX_CONTENT_NODES - left,
            None => MAX_CONTENT_NODES + 1,
        }
    }

    /// What is left of room for so many nodes, if the content fits in it.
    fn room_after(&self, room: u32) -> Option<u32>
        ensures { SomeIff result (nodes (content_of self.now) ≤ room) (room - nodes (content_of self.now)) }
    {
        let room = room.checked_sub(1)?;
        match self {
            Content::Pair(left, right) => right.room_after(left.room_after(room)?),
            _ => Some(room),
        }
    }

    /// An equal content, which shares its parts and so takes nothing from `alloc`. `Memory` where a part is shared so often that one
    /// more cannot be counted.
    pub fn copy(&self, alloc: Global) -> Result<Content, Memory>
        ensures { IfOk result (λ c. content_of c ≡ content_of self.now) }
    {
        Ok(self.clone()?)
    }

    /// The pair of two contents. `Over` exactly where it would have more than `MAX_CONTENT_NODES` nodes. `Memory` where there is no
    /// memory to share its parts.
    pub fn pair(alloc: Global, left: Content, right: Content) -> Result<Content, PairFault>
        ensures over { (result ≡ Err PairFault.Over) ↔ (max_content_nodes < nodes (tree.Pair (content_of left) (content_of right))) }
        ensures value { IfOk result (λ c. content_of c ≡ tree.Pair (content_of left) (content_of right)) }
        ensures small { IfOk result (λ c. nodes (content_of c) ≤ max_content_nodes) }
    {
        let Some(room) = left.room_after(MAX_CONTENT_NODES - 1) else {
            return Err(PairFault::Over);
        };
        if right.room_after(room).is_none() {
            return Err(PairFault::Over);
        }
        match (counted(alloc, left), counted(alloc, right)) {
            (Ok(left), Ok(right)) => Ok(Content::Pair(left, right)),
            _ => Err(PairFault::Memory),
        }
    }
}

impl PartialEq for Content {
    ghost eq = { on content_of same_content };

    ghost laws = { partial_equiv_from_equiv same_content_equiv };

    fn eq(&self, other: &Content) -> bool {
        self.same(other)
    }
}

impl Eq for Content {
    ghost laws = { same_content_equiv };
}

impl Clone for Content {
    ghost is_clone = { λ x y. content_of y ≡ content_of x };

    fn clone(&self) -> Result<Content, AllocError> {
        match self {
            Content::Unit => Ok(Content::Unit),
            Content::Leaf(value) => Ok(Content::Leaf(*value)),
            Content::Pair(left, right) => Ok(Content::Pair(left.clone()?, right.clone()?)),
        }
    }
}

/// The content behind a counted pointer.
fn counted(alloc: Global, content: Content) -> Result<Rc<Content>, Memory>
    ensures { IfOk result (λ r. r.value ≡ content) }
{
    Ok(Rc::new(alloc, content)?)
}
