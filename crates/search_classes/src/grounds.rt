// Why terms are in one class, and what comes of it.
use search_base::{SignedTerm, TermId};

/// Why two terms are in one class.
#[derive(Clone, Copy, PartialEq, Eq, Default)]
pub enum Why {
    /// They are not.
    #[default]
    Nothing,
    /// A literal that is true is their equation.
    Is(SignedTerm),
    /// Their parts are equal.
    Same,
    /// One is made of constants, and the other one is the constant that it is: the fold of this number.
    Fold(u32),
}

/// The next term on the way from a term to the root of the tree of its class, and why the two are equal. None at the root.
#[derive(Clone, Copy, Default)]
pub struct Link {
    pub next: SignedTerm,
    pub why: Why,
}

/// A contradiction in what is assigned.
#[derive(Clone, Copy)]
pub enum Clash {
    /// An equation is false, and its sides are in one class.
    Differ(TermId),
    /// Two constants that differ are in one class.
    Constants(SignedTerm, SignedTerm),
    /// Two contents of two constructors are in one class.
    Apart(SignedTerm, SignedTerm),
}

/// What follows from a union.
#[derive(Clone, Copy)]
pub enum News {
    /// Two truth values are the same.
    Truths(SignedTerm, SignedTerm),
    /// The parts of two contents are the same.
    Parts(SignedTerm, SignedTerm),
}

/// What happened to classes, by one term of each.
#[derive(Clone, Copy)]
pub enum Touched {
    /// The old one is a part of the new one now, of which perhaps more is known.
    Joined {
        old: SignedTerm,
        new: SignedTerm,
        is_known: bool,
    },
    /// The two are known to differ.
    Parted(SignedTerm, SignedTerm),
}

/// Two terms that are to be brought into one class.
#[derive(Clone, Copy)]
pub(crate) struct Union {
    pub(crate) a: SignedTerm,
    pub(crate) b: SignedTerm,
    pub(crate) why: Why,
}
