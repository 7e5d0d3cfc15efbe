// Where a part reads its state.
use vb_base::Pos;

/// The local variables of a state: their numbers in the list of the locals.
#[derive(Drop)]
pub struct Maps {
    /// For each field the variable of its heap.
    pub heap: Vec<usize>,
    /// For each field the variable of its mask.
    pub mask: Vec<usize>,
    /// For each predicate the variable of its amounts.
    pub amount: Vec<usize>,
    /// For each predicate the variable of its contents.
    pub content: Vec<usize>,
}

/// Where a part of a program is read.
#[derive(Drop)]
pub struct Place {
    /// The local of each variable that the part can name.
    pub vars: Vec<usize>,
    /// The present state.
    pub now: Maps,
    /// The old state.
    pub old: Maps,
    /// The step that is running, for the labels of its checks.
    pub at: Pos,
}
