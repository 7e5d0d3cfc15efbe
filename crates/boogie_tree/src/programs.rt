// Programs.
use crate::exprs::BBase;
use crate::stmts::BStmt;
use vb_base::Ident;

/// A type: a map with these types of keys, each Int, Bool or Ref, or, where there are none, the base type itself.
#[derive(Drop)]
pub struct BType {
    pub keys: Vec<BBase>,
    pub base: BBase,
}

/// A local variable.
#[derive(Drop)]
pub struct Local {
    pub name: Ident,
    pub ty: BType,
}

/// A procedure.
#[derive(Drop)]
pub struct Proc {
    pub name: Ident,
    pub locals: Vec<Local>,
    pub body: Vec<BStmt>,
}

/// A program: what follows the prelude.
#[derive(Drop)]
pub struct BProgram {
    pub procs: Vec<Proc>,
}
