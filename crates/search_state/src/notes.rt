// What a search notes of terms.
use search_base::{SignedTerm, StepId, TermId};
use std::alloc::Global;
use std::collections::BTreeSet;

/// A choice between numbers: its term, its condition and values, and the steps for the two sides.
#[derive(Clone, Copy)]
pub struct Conditional {
    pub term: TermId,
    pub condition: SignedTerm,
    pub values: [SignedTerm; 2],
    pub cases: [StepId; 2],
}

/// What a `forall` says at keys, and the step for that.
#[derive(Clone, Copy)]
pub struct Instance {
    pub body: SignedTerm,
    pub step: StepId,
}

/// A step that says that a literal follows at a place, where these are true too, each of which was decided.
#[derive(Drop)]
pub struct Said {
    pub step: StepId,
    pub assumed: Vec<SignedTerm>,
}

/// A product, and how much was said of it: nothing (0), that it was multiplied out (1), how its factors compare with 1 (2), and with
/// those of other products (3).
#[derive(Clone, Copy)]
pub struct Factor {
    pub product: TermId,
    pub stage: u8,
}

/// What is noted of products.
#[derive(Drop)]
pub struct ProductNotes {
    /// The products of what is not known, as they came.
    pub factors: Vec<Factor>,
    /// What products need to be looked at for each goal.
    pub extra: Vec<TermId>,
    /// The products that were made of sums of others.
    pub factored: BTreeSet<TermId>,
    /// Products, places of factors in them, and the sums that were put there.
    pub swaps: BTreeSet<(TermId, usize, SignedTerm)>,
    /// Whether remainders were looked at.
    pub has_rests: bool,
}

impl ProductNotes {
    /// Nothing is noted.
    pub fn new(alloc: Global) -> ProductNotes {
        ProductNotes {
            factors: Vec::new(alloc),
            extra: Vec::new(alloc),
            factored: BTreeSet::new(alloc),
            swaps: BTreeSet::new(alloc),
            has_rests: false,
        }
    }
}
