// Classes of terms that are equal.
use crate::grounds::{Clash, Link, News, Touched, Union};
use crate::undoing::Undo;
use search_base::{Intern, SearchStop, SignedTerm, TermId, get, list_at};
use std::alloc::Global;
use std::collections::VecDeque;

/// Two arguments and constants, pairwise equal, by which a term equals a constant.
type Fold = Vec<(SignedTerm, SignedTerm)>;

/// Classes of terms that are equal by what is assigned. They go back with the search. A class has the name of one of its terms; a
/// truth value and its negation are two terms.
#[derive(Drop)]
pub struct Classes {
    /// By literal, the name of its class; none of what has no class.
    pub(crate) names: Vec<SignedTerm>,
    /// By the name of a class: its terms, what is applied to them, a constant, a content that a constructor makes, and the equations
    /// about them that are false.
    pub(crate) members: Vec<Vec<SignedTerm>>,
    pub(crate) uses: Vec<Vec<SignedTerm>>,
    pub(crate) constants: Vec<SignedTerm>,
    pub(crate) contents: Vec<SignedTerm>,
    pub(crate) differ: Vec<Vec<TermId>>,
    /// By literal, the way to the root of the tree of its class.
    pub(crate) links: Vec<Link>,
    pub(crate) folds: Vec<Fold>,
    pub(crate) signatures: Intern,
    /// By the number of a signature, the term that has it.
    pub(crate) signers: Vec<SignedTerm>,
    /// The words of the signature that is looked for.
    pub(crate) spelled: Vec<i64>,
    /// All terms that have a class, as they came.
    pub(crate) entered: Vec<SignedTerm>,
    /// The unions of classes of numbers, by the two terms that were found to be equal.
    pub(crate) merges: Vec<(SignedTerm, SignedTerm)>,
    /// Whether contents came to be equal since it was looked whether one is inside of itself.
    pub contents_joined: bool,
    pub(crate) undo: Vec<Undo>,
    pub(crate) marks: Vec<usize>,
    pub(crate) pending: VecDeque<Union>,
    pub(crate) clash: Option<Clash>,
    pub(crate) news: VecDeque<News>,
    pub(crate) touched: Vec<Touched>,
    pub(crate) alloc: Global,
}

impl Classes {
    /// No classes. `Memory` where there is no memory.
    pub fn new(alloc: Global) -> Result<Classes, SearchStop> {
        Ok(Classes {
            names: Vec::new(alloc),
            members: Vec::new(alloc),
            uses: Vec::new(alloc),
            constants: Vec::new(alloc),
            contents: Vec::new(alloc),
            differ: Vec::new(alloc),
            links: Vec::new(alloc),
            folds: Vec::new(alloc),
            signatures: Intern::new(alloc)?,
            signers: Vec::new(alloc),
            spelled: Vec::new(alloc),
            entered: Vec::new(alloc),
            merges: Vec::new(alloc),
            contents_joined: false,
            undo: Vec::new(alloc),
            marks: Vec::new(alloc),
            pending: VecDeque::new(alloc),
            clash: None,
            news: VecDeque::new(alloc),
            touched: Vec::new(alloc),
            alloc,
        })
    }

    /// The name of the class of a term, or none.
    pub fn name(&self, it: SignedTerm) -> SignedTerm {
        get(&self.names, it.place())
    }

    /// Whether a term has a class.
    pub fn has(&self, it: SignedTerm) -> bool {
        !self.name(it).is_none()
    }

    /// Whether two terms are in one class, or both in none.
    pub fn are_same(&self, a: SignedTerm, b: SignedTerm) -> bool {
        self.name(a) == self.name(b)
    }

    /// The constant that a term equals.
    pub fn constant(&self, it: SignedTerm) -> Option<SignedTerm> {
        let found = self.constant_of(it);
        if found.is_none() { None } else { Some(found) }
    }

    /// The constant in the class of a term, or none.
    pub(crate) fn constant_of(&self, it: SignedTerm) -> SignedTerm {
        get(&self.constants, self.name(it).place())
    }

    /// The content that a term equals, as a constructor makes it.
    pub fn content(&self, it: SignedTerm) -> Option<SignedTerm> {
        let found = get(&self.contents, self.name(it).place());
        if found.is_none() { None } else { Some(found) }
    }

    /// The terms of the class of a term.
    pub fn members(&self, it: SignedTerm) -> &[SignedTerm] {
        list_at(&self.members, self.name(it).place())
    }

    /// The equations that are false about the class of a term.
    pub fn different(&self, it: SignedTerm) -> &[TermId] {
        list_at(&self.differ, self.name(it).place())
    }

    /// The way from a term to the root of the tree of its class.
    pub fn link(&self, it: SignedTerm) -> Link {
        get(&self.links, it.place())
    }

    /// The pairs of arguments and constants of a fold.
    pub fn fold(&self, number: u32) -> &[(SignedTerm, SignedTerm)] {
        list_at(&self.folds, number as usize)
    }

    /// All terms that have a class, as they came.
    pub fn entered(&self) -> &[SignedTerm] {
        &self.entered
    }

    /// The unions of classes of numbers, by the two terms that were found to be equal, as they came.
    pub fn merges(&self) -> &[(SignedTerm, SignedTerm)] {
        &self.merges
    }

    /// Whether classes are still to be brought together, or there is a clash.
    pub fn is_open(&self) -> bool {
        !self.pending.is_empty() || self.clash.is_some()
    }

    /// The clash, where there is one; it is forgotten with all that was to be done.
    pub fn take_clash(&mut self) -> Option<Clash> {
        let found = self.clash.take();
        if found.is_some() {
            self.pending.clear();
            self.news.clear();
        }
        found
    }

    /// The next piece of news.
    pub fn next_news(&mut self) -> Option<News> {
        self.news.pop_front()
    }

    /// What happened to classes since this was last asked.
    pub fn take_touched(&mut self) -> Vec<Touched> {
        std::mem::replace(&mut self.touched, Vec::new(self.alloc))
    }
}
