// The types of names, and of terms by those of their parts.
ghost use Rattle.std.specs.Prelude.{◌≡◌, slice_get};
ghost use Rattle.boogie_formula.specs.Formula as f;
ghost use Rattle.boogie_formula.specs.Types.{fbase, fbases};
ghost use Rattle.cert_terms.specs.Kinds.{plain_kind};
ghost use Rattle.boogie_types.specs.Typed.{are_bases, indexed_by};
ghost use Rattle.cert_terms.specs.Lawful.{types_of};
ghost use Rattle.cert_terms.specs.Terms.{operand, operands};

use crate::table::TermTable;
use crate::terms::{CertificateTerm, ClauseLiteral};
use boogie_tree::BBase;
use boogie_types::{answer, given, is_index, negated, pair};

impl TermTable {
    /// The type of a name that is no map.
    fn plain(&self, name: usize) -> Option<BBase>
        ensures { result ≡ fbase (types_of self.now) (f.Var name) }
    {
        let named = self.names.get(name)?;
        if named.ty.keys.is_empty() {
            Some(named.ty.base)
        } else {
            None
        }
    }

    /// The type of an operand, if it has one and is no map.
    pub fn base(&self, literal: ClauseLiteral) -> Option<BBase>
        ensures { result ≡ fbase (types_of self.now) (operand literal) }
    {
        let found = self.plain(literal.name);
        if literal.negated {
            given(BBase::Bool, BBase::Bool, found)
        } else {
            found
        }
    }

    /// Whether keys have these types.
    pub fn are_of(&self, keys: &[ClauseLiteral], wanted: &[BBase]) -> bool
        ensures { result ≡ are_bases (fbases (types_of self.now) (operands keys.now)) wanted.now }
    {
        let mut count = 0;
        for key in keys {
            let Some(base) = wanted.get(count) else {
                return false;
            };
            if !is_index(self.base(*key), *base) {
                return false;
            }
            count += 1;
        }
        count == wanted.len()
    }

    /// The type of a map's values at keys.
    pub(crate) fn at(&self, map: usize, keys: &[ClauseLiteral]) -> Option<BBase>
        ensures { result ≡ indexed_by (slice_get (types_of self.now) map) (fbases (types_of self.now) (operands keys.now)) }
    {
        let named = self.names.get(map)?;
        if !named.ty.keys.is_empty() && self.are_of(keys, &named.ty.keys) {
            Some(named.ty.base)
        } else {
            None
        }
    }

    /// The type of a term that is never a map, if its parts have the types that it needs.
    pub(crate) fn plain_kind(&self, term: &CertificateTerm) -> Option<BBase>
        ensures { result ≡ plain_kind (types_of self.now) term.now }
    {
        match term {
            CertificateTerm::Given
            | CertificateTerm::Same(_)
            | CertificateTerm::If(_, _, _)
            | CertificateTerm::Put(_, _, _) => None,
            CertificateTerm::Bool(_) => Some(BBase::Bool),
            CertificateTerm::Null => Some(BBase::Ref),
            CertificateTerm::Unit => Some(BBase::Snap),
            CertificateTerm::Int(_) => Some(BBase::Int),
            CertificateTerm::Real(_) => Some(BBase::Real),
            CertificateTerm::Neg(a) => negated(self.base(*a)),
            CertificateTerm::Bin(op, a, b) => answer(*op, self.base(*a), self.base(*b)),
            CertificateTerm::ToReal(a) => given(BBase::Int, BBase::Real, self.base(*a)),
            CertificateTerm::SInt(a) => given(BBase::Int, BBase::Snap, self.base(*a)),
            CertificateTerm::SBool(a) => given(BBase::Bool, BBase::Snap, self.base(*a)),
            CertificateTerm::SRef(a) => given(BBase::Ref, BBase::Snap, self.base(*a)),
            CertificateTerm::SPerm(a) => given(BBase::Real, BBase::Snap, self.base(*a)),
            CertificateTerm::Pair(a, b) => pair(self.base(*a), self.base(*b)),
            CertificateTerm::At(map, keys) => self.at(*map, keys),
        }
    }
}
