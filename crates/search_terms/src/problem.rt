// What is to be shown of a procedure.
use crate::foralls::Forall;
use search_base::{SignedTerm, TermId};
use std::alloc::Global;

/// The conditions of a procedure, by number from 0 on: the term of each variable, and the literal or term of each definition; the
/// definitions that are a `forall`; and for each assertion the literal that says that it fails.
#[derive(Drop)]
pub struct Problem {
    pub variables: Vec<TermId>,
    pub definitions: Vec<SignedTerm>,
    pub foralls: Vec<Forall>,
    pub goals: Vec<SignedTerm>,
}

impl Problem {
    /// No conditions.
    pub fn new(alloc: Global) -> Problem {
        Problem {
            variables: Vec::new(alloc),
            definitions: Vec::new(alloc),
            foralls: Vec::new(alloc),
            goals: Vec::new(alloc),
        }
    }
}
