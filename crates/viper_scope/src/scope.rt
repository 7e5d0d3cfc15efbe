// The variables that a term sees.
ghost use Rattle.std.specs.Prelude.{◌≡◌, ◌++◌, ◌∷◌, [], None, OnOk, length, take};
ghost use Rattle.viper_scope.specs.Context.{find};
ghost use Rattle.viper_scope.specs.Scope.{ref_variables};

use crate::context::Variable;
use crate::names::DeclaredNames;
use std::alloc::Global;
use std::marker::Model;
use symbol_table::NameKey;
use vb_base::{Ident, Memory};
use vb_value::Ty;

/// The variables that a term sees, with their names, in the order in which they were declared. Contracts see the list of both.
#[derive(Drop)]
pub struct VariableScope {
    names: DeclaredNames<Variable>,
    /// The numbers of the Ref variables, so that a `new` need not look for them.
    refs: Vec<u32>,
}

/// How far a scope reaches.
#[derive(Clone, Copy)]
pub struct Extent {
    pub variables: usize,
    pub refs: usize,
}

impl Model for VariableScope {
    ghost use Rattle.std.specs.Prelude.{◌≡◌, ℕ, List};
    ghost use Rattle.viper_scope.specs.declared.context.Variable.{Variable};

    ghost Value = { List (List ℕ × Variable) };

    ghost use Rattle.viper_scope.specs.Scope.{ref_variables};

    ghost view = { λ s. s.names };

    ghost invariant = { λ s. s.refs.items ≡ ref_variables s.names };
}

impl VariableScope {
    /// No variables. Their names are hashed by this key.
    pub fn new(alloc: Global, key: NameKey) -> VariableScope
        ensures { result ≡ [] }
    {
        VariableScope {
            names: DeclaredNames::new(alloc, key),
            refs: Vec::new(alloc),
        }
    }

    /// How far the scope reaches.
    pub fn extent(&self) -> Extent
        ensures variables { result.variables ≡ length self.now }
        ensures refs { result.refs ≡ length (ref_variables self.now) }
    {
        Extent {
            variables: self.names.len(),
            refs: self.refs.len(),
        }
    }

    /// The variable of this name.
    pub fn find(&self, name: &Ident) -> Option<Variable>
        ensures { result ≡ find self.now name.now }
    {
        self.names.find(name)
    }

    /// The numbers of the Ref variables, in order.
    pub fn ref_variables(&self) -> &[u32]
        ensures { result.now ≡ ref_variables self.now }
    {
        &self.refs
    }

    /// Adds a variable of a new name.
    pub fn declare(&mut self, name: &Ident, variable: Variable) -> Result<(), Memory>
        requires { find self.old name.now ≡ None }
        ensures { OnOk result (self.new ≡ self.old ++ (name.now, variable) ∷ []) }
    {
        self.refs.reserve(1)?;
        self.names.declare(name, variable)?;
        if variable.ty == Ty::Ref {
            self.refs.push_reserved(variable.number);
        }
        Ok(())
    }

    /// Forgets all variables beyond an earlier extent.
    pub fn truncate(&mut self, to: Extent)
        requires { to.refs ≡ length (ref_variables (take to.variables self.old)) }
        ensures { self.new ≡ take to.variables self.old }
    {
        self.names.truncate(to.variables);
        self.refs.truncate(to.refs);
    }
}
