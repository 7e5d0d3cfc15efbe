// Programs and their declarations.
use crate::{Assertion, Stmt};
use vb_base::{Ident, Pos};
use vb_value::{Layout, Ty};

/// A predicate.
#[derive(Drop)]
pub struct Predicate {
    pub name: Ident,
    /// The place of the word `predicate`.
    pub at: Pos,
    /// The names of the parameters.
    pub names: Vec<Ident>,
    /// The types of the parameters.
    pub params: Vec<Ty>,
    pub body: Option<Assertion>,
}

/// A method. Its variables are numbered: parameters, returns, then locals in the order of their declarations.
#[derive(Drop)]
pub struct Method {
    pub name: Ident,
    /// The place of the word `method`.
    pub at: Pos,
    /// The place of its name.
    pub name_at: Pos,
    /// The names of the parameters and then of the returns.
    pub names: Vec<Ident>,
    /// How many parameters it has.
    pub params: u32,
    /// How many returns it has.
    pub returns: u32,
    /// The types of its variables.
    pub vars: Vec<Ty>,
    /// The `requires` clauses in order.
    pub preconditions: Vec<Assertion>,
    /// The `ensures` clauses in order.
    pub postconditions: Vec<Assertion>,
    pub body: Option<Body>,
}

/// The body of a method.
#[derive(Drop)]
pub struct Body {
    /// The place of its `{`.
    pub turn: Pos,
    pub stmts: Vec<Stmt>,
}

/// What is run and translated by itself: a method, or a predicate with a body, by its number.
#[derive(Clone, Copy, Debug, PartialEq, Eq)]
pub enum Unit {
    Method(u32),
    Predicate(u32),
}

/// A program.
#[derive(Drop)]
pub struct Program {
    /// The names of the fields.
    pub fields: Vec<Ident>,
    /// The types of the fields, and of the parameters of each predicate.
    pub layout: Layout,
    pub predicates: Vec<Predicate>,
    pub methods: Vec<Method>,
    /// The units in the order of the file.
    pub units: Vec<Unit>,
}
