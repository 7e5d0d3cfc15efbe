// Terms as an operator or a constructor over parts.
ghost use Rattle.cert_terms.specs.Lawful.{terms_of};
ghost use Rattle.std.specs.Prelude.{◌≡◌, IfOk, IsTrue};
ghost use Rattle.cert_rules.specs.Heads.{head_of, parts_of, IsMade};

use crate::reading::named;
use boogie_tree::BOp;
use cert_terms::{CertificateTerm, ClauseLiteral, LineFault, LineRefusal, TermTable};
use std::alloc::Global;

/// What a term is but for its parts.
#[derive(Clone, Copy)]
pub(crate) enum TermHead {
    Neg,
    ToReal,
    Bin(BOp),
    /// The map of this name.
    At(usize),
    Unit,
    SInt,
    SBool,
    SRef,
    SPerm,
    Pair,
}

/// What the term is but for its parts, where it is no map and no choice.
pub(crate) fn head_in(term: &CertificateTerm) -> Option<TermHead>
    ensures { result ≡ head_of term.now }
{
    match term {
        CertificateTerm::Neg(_) => Some(TermHead::Neg),
        CertificateTerm::ToReal(_) => Some(TermHead::ToReal),
        CertificateTerm::Bin(operator, _, _) => Some(TermHead::Bin(*operator)),
        CertificateTerm::At(map, _) => Some(TermHead::At(*map)),
        CertificateTerm::Unit => Some(TermHead::Unit),
        CertificateTerm::SInt(_) => Some(TermHead::SInt),
        CertificateTerm::SBool(_) => Some(TermHead::SBool),
        CertificateTerm::SRef(_) => Some(TermHead::SRef),
        CertificateTerm::SPerm(_) => Some(TermHead::SPerm),
        CertificateTerm::Pair(_, _) => Some(TermHead::Pair),
        _ => None,
    }
}

/// Whether these are one operator or constructor.
pub(crate) fn is_same(a: TermHead, b: TermHead) -> bool
    ensures { IsTrue result → a ≡ b }
{
    match (a, b) {
        (TermHead::Neg, TermHead::Neg) => true,
        (TermHead::ToReal, TermHead::ToReal) => true,
        (TermHead::Bin(operator), TermHead::Bin(other)) => operator == other,
        (TermHead::At(map), TermHead::At(other)) => map == other,
        (TermHead::Unit, TermHead::Unit) => true,
        (TermHead::SInt, TermHead::SInt) => true,
        (TermHead::SBool, TermHead::SBool) => true,
        (TermHead::SRef, TermHead::SRef) => true,
        (TermHead::SPerm, TermHead::SPerm) => true,
        (TermHead::Pair, TermHead::Pair) => true,
        _ => false,
    }
}

/// The parts of a term, from left to right, where it is no map and no choice.
pub(crate) fn parts(alloc: Global, term: &CertificateTerm) -> Result<Vec<ClauseLiteral>, LineFault>
    ensures { IfOk result (λ ps. ps.items ≡ parts_of term.now) }
{
    let mut parts = Vec::new(alloc);
    match term {
        CertificateTerm::At(_, keys) => parts.extend_from_slice(keys)?,
        CertificateTerm::Bin(_, left, right) | CertificateTerm::Pair(left, right) => {
            parts.push(*left)?;
            parts.push(*right)?;
        }
        CertificateTerm::Neg(part)
        | CertificateTerm::ToReal(part)
        | CertificateTerm::SInt(part)
        | CertificateTerm::SBool(part)
        | CertificateTerm::SRef(part)
        | CertificateTerm::SPerm(part) => parts.push(*part)?,
        _ => {}
    }
    Ok(parts)
}

/// An operator or a constructor, and the parts that it stands over.
#[derive(Drop)]
pub(crate) struct MadeTerm {
    pub(crate) head: TermHead,
    pub(crate) parts: Vec<ClauseLiteral>,
}

/// What the literal is made of.
pub(crate) fn made_of(
    alloc: Global,
    table: &TermTable,
    literal: ClauseLiteral,
) -> Result<MadeTerm, LineFault>
    ensures { IfOk result (λ m. IsMade (terms_of table.now) literal m.head m.parts.items) }
{
    let term = named(table, literal)?;
    match head_in(term) {
        Some(head) => Ok(MadeTerm {
            head,
            parts: parts(alloc, term)?,
        }),
        None => Err(LineFault::Refused(LineRefusal::Shape)),
    }
}
