// Heaps, masks, amounts and contents.
ghost use Rattle.viper_state.specs.Greatest.{AreWithin};
ghost use Rattle.viper_state.specs.Loose.{KnowsLoose};

use crate::known::Known;
use sparse::Sparse;
use vb_value::{Content, Frac, Key, Value};

/// A heap and the contents of all instances.
#[derive(Drop)]
pub struct Memo {
    /// For each field the value at each reference.
    pub heap: Vec<Sparse<u64, Value>>,
    /// For each predicate what each instance contains.
    pub content: Vec<Sparse<Key, Content>>,
}

/// A state: a heap and contents, with the permission that is held.
#[derive(Drop)]
pub struct State {
    /// For each field the value at each reference.
    pub heap: Vec<Sparse<u64, Value>>,
    /// For each predicate what each instance contains.
    pub content: Vec<Sparse<Key, Content>>,
    /// For each field the permission to it at each reference.
    pub mask: Vec<Sparse<u64, Frac>>,
    /// For each predicate how much of each instance is held.
    pub amount: Vec<Sparse<Key, Frac>>,
    /// Where values may stand although nothing is held, and how great references are.
    pub(crate) known: Known,
    ghost knows_loose: { KnowsLoose heap.items content.items mask.items amount.items known },
    ghost knows_greatest: { AreWithin known.greatest heap.items },
}
