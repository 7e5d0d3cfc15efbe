// A table of names, as it grows.
ghost use Rattle.std.specs.Prelude.{◌≡◌, ◌++◌, List, [], ◌∷◌, map, length, IfOk, OnOk};
ghost use Rattle.boogie_tree.specs.Program as p;
ghost use Rattle.boogie_tree.specs.Whole.{type_of};
ghost use Rattle.cert_terms.specs.declared.terms.CertificateTerm.TheVariants as term;
ghost use Rattle.cert_terms.specs.Kinds.{HasKind};
ghost use Rattle.cert_terms.specs.Lawful.{terms_of, types_of};
ghost use Rattle.cert_terms.specs.Tables.{Adds, givens};

use crate::faults::LineFault;
use crate::table::TermTable;
use crate::terms::{CertificateTerm, TypedTerm};
use boogie_tree::BType;
use std::alloc::Global;

impl TermTable {
    /// The table without names.
    pub fn new(alloc: Global) -> TermTable
        ensures terms { terms_of result ≡ [] }
        ensures types { types_of result ≡ [] }
    {
        TermTable {
            names: Vec::new(alloc),
        }
    }

    /// One more name of the conditions, of this type.
    pub fn declare(&mut self, ty: BType) -> Result<(), LineFault>
        ensures { OnOk result (Adds (terms_of self.old) (types_of self.old) term.Given (type_of ty) (terms_of self.new) (types_of self.new)) }
    {
        self.names.push(TypedTerm {
            term: CertificateTerm::Given,
            ty,
        })?;
        Ok(())
    }

    /// The table of the conditions' names, of these types.
    pub fn begin(alloc: Global, types: Vec<BType>) -> Result<TermTable, LineFault>
        ensures terms { IfOk result (λ table. terms_of table ≡ givens (map type_of types.items)) }
        ensures types { IfOk result (λ table. types_of table ≡ map type_of types.items) }
    {
        let mut table = TermTable::new(alloc);
        for ty in types {
            table.declare(ty)?;
        }
        Ok(table)
    }

    /// One more term, whose parts are names so far, of the types that it needs. What is given back is its name.
    pub fn add(&mut self, alloc: Global, term: CertificateTerm) -> Result<usize, LineFault>
        ensures name { IfOk result (λ name. name ≡ length (terms_of self.old)) }
        ensures grows { OnOk result ((u : p.BType) × Adds (terms_of self.old) (types_of self.old) term u (terms_of self.new) (types_of self.new) × HasKind (types_of self.old) term u) }
    {
        let ty = self.type_of(alloc, &term)?;
        let name = self.names.len();
        self.names.push(TypedTerm { term, ty })?;
        Ok(name)
    }
}
