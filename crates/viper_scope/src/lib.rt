//! What the names of a Viper file stand for, and what the typing of each part asks of them: declarations, variables in scope, loop
//! targets, clauses and arguments.
#![tactic(auto)]

mod arguments;
mod clauses;
mod context;
mod keys;
mod loops;
mod names;
mod rules;
mod scope;
mod types;
mod world;

pub use arguments::{as_many, exprs_in, fitted, misfit, start};
pub use clauses::seen;
pub use context::{Context, MethodTypes, PredicateSignature, Role, UnitPart, Variable, World};
pub use loops::targets;
pub use names::DeclaredNames;
pub use rules::{Rule, RuleFault};
pub use scope::{Extent, VariableScope};
pub use types::{declared_type, type_of};
pub use world::{naming, next_number, types_in};
