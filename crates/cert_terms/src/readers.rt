// What rules read of a table.
ghost use Rattle.std.specs.Prelude.{◌≡◌, slice_get, Some, false, IfOk, OnOk, IsTrue};
ghost use Rattle.boogie_tree.specs.Whole.{type_of};
ghost use Rattle.boogie_formula.specs.Types.{fbase};
ghost use Rattle.cert_terms.specs.declared.terms.CertificateTerm.TheVariants as term;
ghost use Rattle.cert_terms.specs.Lawful.{terms_of, types_of};
ghost use Rattle.cert_terms.specs.Terms.{operand, IsTruth};

use crate::faults::{LineFault, LineRefusal};
use crate::table::TermTable;
use crate::terms::{CertificateTerm, ClauseLiteral};
use boogie_tree::{BBase, BOp, BType};

impl ClauseLiteral {
    /// The name of a literal that is no negation.
    pub fn plain(self) -> Result<usize, LineFault>
        ensures { IfOk result (λ name. self ≡ record { name = name; negated = false }) }
    {
        if self.negated {
            Err(LineFault::Refused(LineRefusal::Shape))
        } else {
            Ok(self.name)
        }
    }
}

impl TermTable {
    /// What a name is.
    pub fn term(&self, name: usize) -> Result<&CertificateTerm, LineFault>
        ensures { IfOk result (λ x. slice_get (terms_of self.now) name ≡ Some x.now) }
    {
        match self.names.get(name) {
            Some(named) => Ok(&named.term),
            None => Err(LineFault::Refused(LineRefusal::Name)),
        }
    }

    /// The type of a name.
    pub fn ty(&self, name: usize) -> Result<&BType, LineFault>
        ensures { IfOk result (λ u. slice_get (types_of self.now) name ≡ Some (type_of u.now)) }
    {
        match self.names.get(name) {
            Some(named) => Ok(&named.ty),
            None => Err(LineFault::Refused(LineRefusal::Name)),
        }
    }

    /// The type of an operand that is no map.
    pub fn kind(&self, literal: ClauseLiteral) -> Result<BBase, LineFault>
        ensures { IfOk result (λ u. fbase (types_of self.now) (operand literal) ≡ Some u) }
    {
        match self.base(literal) {
            Some(base) => Ok(base),
            None => Err(LineFault::Refused(LineRefusal::Type)),
        }
    }

    /// Whether a literal is a truth value.
    pub fn is_truth(&self, literal: ClauseLiteral) -> bool
        ensures { IsTrue result → IsTruth (types_of self.now) literal }
    {
        match self.base(literal) {
            Some(BBase::Bool) => true,
            _ => false,
        }
    }

    /// Refuses what is no truth value.
    pub fn truth(&self, literal: ClauseLiteral) -> Result<(), LineFault>
        ensures { OnOk result (IsTruth (types_of self.now) literal) }
    {
        match self.base(literal) {
            Some(BBase::Bool) => Ok(()),
            _ => Err(LineFault::Refused(LineRefusal::Type)),
        }
    }

    /// The operator and the operands of a name.
    pub fn bin(&self, name: usize) -> Result<(BOp, ClauseLiteral, ClauseLiteral), LineFault>
        ensures { IfOk result (λ x. slice_get (terms_of self.now) name ≡ Some (term.Bin x.0 x.1 x.2)) }
    {
        match self.term(name)? {
            CertificateTerm::Bin(op, a, b) => Ok((*op, *a, *b)),
            _ => Err(LineFault::Refused(LineRefusal::Shape)),
        }
    }

    /// The operands of a name that has this operator.
    pub fn operands(
        &self,
        name: usize,
        op: BOp,
    ) -> Result<(ClauseLiteral, ClauseLiteral), LineFault>
        ensures { IfOk result (λ x. slice_get (terms_of self.now) name ≡ Some (term.Bin op x.0 x.1)) }
    {
        let (found, a, b) = self.bin(name)?;
        if found == op {
            Ok((a, b))
        } else {
            Err(LineFault::Refused(LineRefusal::Shape))
        }
    }

    /// The condition and the sides of a name that is a choice.
    pub fn choice_of(
        &self,
        name: usize,
    ) -> Result<(ClauseLiteral, ClauseLiteral, ClauseLiteral), LineFault>
        ensures { IfOk result (λ x. slice_get (terms_of self.now) name ≡ Some (term.If x.0 x.1 x.2)) }
    {
        match self.term(name)? {
            CertificateTerm::If(c, a, b) => Ok((*c, *a, *b)),
            _ => Err(LineFault::Refused(LineRefusal::Shape)),
        }
    }
}
