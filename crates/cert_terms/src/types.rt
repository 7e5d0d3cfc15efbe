// The types of terms, which may be maps.
ghost use Rattle.std.specs.Prelude.{◌≡◌, slice_get, Some, IfOk};
ghost use Rattle.boogie_tree.specs.Values.{plain_type};
ghost use Rattle.boogie_tree.specs.Whole.{type_of};
ghost use Rattle.boogie_formula.specs.Formula as f;
ghost use Rattle.boogie_formula.specs.Types.{whole_type};
ghost use Rattle.cert_terms.specs.Kinds.{HasKind};
ghost use Rattle.cert_terms.specs.Lawful.{types_of};
ghost use Rattle.cert_terms.specs.Terms.{operand, operands};

use crate::faults::{LineFault, LineRefusal};
use crate::table::TermTable;
use crate::terms::{CertificateTerm, ClauseLiteral};
use boogie_tree::{BBase, BType, same_base};
use boogie_types::same_type;
use std::alloc::Global;

/// The most keys of a map that a term is, so that a table takes no more than a constant for each word of its lines.
const MOST_KEYS: usize = 1000;

/// The type of what is no map.
fn plain_type(alloc: Global, base: BBase) -> BType
    ensures { type_of result ≡ plain_type base }
{
    BType {
        keys: Vec::new(alloc),
        base,
    }
}

/// The same type again. Refused (`Long`) where it has more than 1,000 keys; `Memory` where there is no memory.
pub fn copy_type(alloc: Global, ty: &BType) -> Result<BType, LineFault>
    ensures { IfOk result (λ x. type_of x ≡ type_of ty.now) }
{
    if ty.keys.len() > MOST_KEYS {
        return Err(LineFault::Refused(LineRefusal::Long));
    }
    let mut keys = Vec::new(alloc);
    keys.extend_from_slice(&ty.keys)?;
    Ok(BType {
        keys,
        base: ty.base,
    })
}

impl TermTable {
    /// The type of an operand, which may be a map.
    fn whole(&self, alloc: Global, literal: ClauseLiteral) -> Result<BType, LineFault>
        ensures { IfOk result (λ ty. whole_type (types_of self.now) (operand literal) ≡ Some (type_of ty)) }
    {
        if literal.negated {
            let base = self.kind(literal)?;
            return Ok(plain_type(alloc, base));
        }
        let ty = self.ty(literal.name)?;
        copy_type(alloc, ty)
    }

    /// The type of a choice between two operands.
    fn choice(
        &self,
        alloc: Global,
        condition: ClauseLiteral,
        then: ClauseLiteral,
        other: ClauseLiteral,
    ) -> Result<BType, LineFault>
        ensures { IfOk result (λ ty. whole_type (types_of self.now) (f.If (operand condition) (operand then) (operand other)) ≡ Some (type_of ty)) }
    {
        self.truth(condition)?;
        let second = self.whole(alloc, other)?;
        let first = self.whole(alloc, then)?;
        if same_type(&first, &second) {
            Ok(first)
        } else {
            Err(LineFault::Refused(LineRefusal::Type))
        }
    }

    /// The type of a map with another value at keys.
    fn put(
        &self,
        alloc: Global,
        map: usize,
        keys: &[ClauseLiteral],
        value: ClauseLiteral,
    ) -> Result<BType, LineFault>
        ensures { IfOk result (λ ty. whole_type (types_of self.now) (f.With (f.Var map) (operands keys.now) (operand value)) ≡ Some (type_of ty)) }
    {
        match (self.at(map, keys), self.base(value)) {
            (Some(has), Some(base)) if same_base(has, base) => {
                let ty = self.ty(map)?;
                copy_type(alloc, ty)
            }
            _ => Err(LineFault::Refused(LineRefusal::Type)),
        }
    }

    /// The type of a term that is never a map.
    fn plain_type_of(&self, alloc: Global, term: &CertificateTerm) -> Result<BType, LineFault>
        ensures { IfOk result (λ ty. HasKind (types_of self.now) term.now (type_of ty)) }
    {
        match self.plain_kind(term) {
            Some(base) => Ok(plain_type(alloc, base)),
            None => Err(LineFault::Refused(LineRefusal::Type)),
        }
    }

    /// The type of a term, if its parts have the types that it needs.
    pub(crate) fn type_of(&self, alloc: Global, term: &CertificateTerm) -> Result<BType, LineFault>
        ensures { IfOk result (λ ty. HasKind (types_of self.now) term.now (type_of ty)) }
    {
        match term {
            CertificateTerm::Same(name) => {
                let ty = self.ty(*name)?;
                copy_type(alloc, ty)
            }
            CertificateTerm::If(condition, then, other) => self.choice(
                alloc, *condition, *then, *other,
            ),
            CertificateTerm::Put(map, keys, value) => self.put(alloc, *map, keys, *value),
            _ => self.plain_type_of(alloc, term),
        }
    }
}
