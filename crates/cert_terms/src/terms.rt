// Terms and literals.
ghost use Rattle.std.specs.Prelude.{◌≡◌, false};
ghost use Rattle.cert_terms.specs.Literals.{turned};

use boogie_tree::{BOp, BType};

/// A name, or the negation of one that is a truth value. A name is a number in a single numbering: the variables of the
/// conditions, their definitions, and then the terms of the certificate.
#[derive(Clone, Copy, PartialEq, Eq)]
pub struct ClauseLiteral {
    pub name: usize,
    pub negated: bool,
}

impl ClauseLiteral {
    /// The name itself.
    pub fn of(name: usize) -> ClauseLiteral
        ensures { result ≡ record { name = name; negated = false } }
    {
        ClauseLiteral {
            name,
            negated: false,
        }
    }

    /// The negation.
    pub fn turned(self) -> ClauseLiteral
        ensures { result ≡ turned self }
    {
        ClauseLiteral {
            name: self.name,
            negated: !self.negated,
        }
    }
}

/// What a name of the certificate is. Its parts are names that stand before it.
#[derive(Drop)]
pub enum CertificateTerm {
    /// A variable or a definition of the conditions, of which nothing is said here.
    Given,
    /// The same as another name.
    Same(usize),
    Bool(bool),
    /// The reference `null`.
    Null,
    /// The content `sUnit`.
    Unit,
    /// A literal, from 0 to 2^127 - 1.
    Int(i128),
    /// A real literal: the digits before its `.0`.
    Real(i128),
    /// `(- a)`
    Neg(ClauseLiteral),
    Bin(BOp, ClauseLiteral, ClauseLiteral),
    /// `(if a then b else c)`, where b and c may be maps.
    If(ClauseLiteral, ClauseLiteral, ClauseLiteral),
    /// `real(a)`
    ToReal(ClauseLiteral),
    /// `sInt(a)`
    SInt(ClauseLiteral),
    /// `sBool(a)`
    SBool(ClauseLiteral),
    /// `sRef(a)`
    SRef(ClauseLiteral),
    /// `sPerm(a)`
    SPerm(ClauseLiteral),
    /// `sPair(a, b)`
    Pair(ClauseLiteral, ClauseLiteral),
    /// The map of this name at these keys.
    At(usize, Vec<ClauseLiteral>),
    /// The map of this name but for the value at these keys.
    Put(usize, Vec<ClauseLiteral>, ClauseLiteral),
}

/// What a name is, and its type.
#[derive(Drop)]
pub struct TypedTerm {
    pub term: CertificateTerm,
    pub ty: BType,
}
