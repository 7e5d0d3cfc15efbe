// The types of the names of conditions.
ghost use Rattle.std.specs.Prelude.{◌≡◌, Some, map, slice_get, List, IfOk, OnOk};
ghost use Rattle.boogie_tree.specs.Whole.{type_of};
ghost use Rattle.boogie_tree.specs.Program as p;
ghost use Rattle.boogie_tree.specs.declared.exprs.BBase.{BBase as Base};
ghost use Rattle.boogie_formula.specs.Types.{fbase, whole_type, defined_types};
ghost use Rattle.boogie_formula.specs.View.{fexpr_of, conditions_of};
ghost use Rattle.cert_check.specs.Kinds.{answered, kind_type};

use boogie_formula::{Conditions, FExpr};
use boogie_tree::{BBase, BOp, BType};
use cert_terms::{LineFault, LineRefusal, copy_type};
use std::alloc::Global;

/// The type of a definition: that of a name before it, or one that is no map.
#[derive(Clone, Copy)]
pub(crate) enum DefinitionType {
    Like(usize),
    Plain(BBase),
}

/// The type of an operator's value, where both operands have this type.
fn answer_of(op: BOp, operand: BBase) -> BBase
    ensures { result ≡ answered op operand }
{
    match op {
        BOp::Add | BOp::Sub | BOp::Mul | BOp::Divide | BOp::IntDiv | BOp::IntMod => operand,
        _ => BBase::Bool,
    }
}

/// The base of the type of a name.
fn base_at(types: &[BType], name: usize) -> BBase
    ensures { (l : p.BType) → slice_get (map type_of types.now) name ≡ Some l → result ≡ l.base }
{
    match types.get(name) {
        Some(ty) => ty.base,
        None => BBase::Bool,
    }
}

/// The type of a well-typed expression that is no map.
#[cycle(kinds)]
fn base_of(types: &[BType], e: &FExpr) -> BBase
    ensures { (u : Base) → fbase (map type_of types.now) (fexpr_of e.now) ≡ Some u → result ≡ u }
{
    match e {
        FExpr::Var(name) | FExpr::At(name, _) => base_at(types, *name),
        FExpr::Int(_) => BBase::Int,
        FExpr::Real(_) | FExpr::ToReal(_) => BBase::Real,
        FExpr::Null => BBase::Ref,
        FExpr::Unit
        | FExpr::SInt(_)
        | FExpr::SBool(_)
        | FExpr::SRef(_)
        | FExpr::SPerm(_)
        | FExpr::Pair(_, _) => BBase::Snap,
        FExpr::Neg(part) | FExpr::If(_, part, _) => base_of(types, part),
        FExpr::Bin(op, left, _) => answer_of(*op, base_of(types, left)),
        FExpr::Bool(_)
        | FExpr::Not(_)
        | FExpr::Forall(_, _)
        | FExpr::AtBound(_)
        | FExpr::With(_, _, _) => BBase::Bool,
    }
}

/// The type of a well-typed definition.
#[cycle(whole_kinds)]
fn kind_of(types: &[BType], e: &FExpr) -> DefinitionType
    ensures { (u : p.BType) → whole_type (map type_of types.now) (fexpr_of e.now) ≡ Some u → kind_type (map type_of types.now) result ≡ Some u }
{
    match e {
        FExpr::Var(name) => DefinitionType::Like(*name),
        FExpr::If(_, part, _) | FExpr::With(part, _, _) => kind_of(types, part),
        FExpr::At(_, _) => DefinitionType::Plain(base_of(types, e)),
        FExpr::Neg(_) => DefinitionType::Plain(base_of(types, e)),
        FExpr::Bin(_, _, _) => DefinitionType::Plain(base_of(types, e)),
        FExpr::Int(_) => DefinitionType::Plain(BBase::Int),
        FExpr::Real(_) | FExpr::ToReal(_) => DefinitionType::Plain(BBase::Real),
        FExpr::Null => DefinitionType::Plain(BBase::Ref),
        FExpr::Unit
        | FExpr::SInt(_)
        | FExpr::SBool(_)
        | FExpr::SRef(_)
        | FExpr::SPerm(_)
        | FExpr::Pair(_, _) => DefinitionType::Plain(BBase::Snap),
        FExpr::Bool(_) | FExpr::Not(_) | FExpr::Forall(_, _) | FExpr::AtBound(_) => {
            DefinitionType::Plain(BBase::Bool)
        }
    }
}

/// The type that is meant, where it is that of a name so far.
fn type_in(alloc: Global, types: &[BType], kind: DefinitionType) -> Result<BType, LineFault>
    ensures { IfOk result (λ u. (w : p.BType) → kind_type (map type_of types.now) kind ≡ Some w → type_of u ≡ w) }
{
    match kind {
        DefinitionType::Like(name) => match types.get(name) {
            Some(ty) => copy_type(alloc, ty),
            None => Err(LineFault::Refused(LineRefusal::Name)),
        },
        DefinitionType::Plain(base) => Ok(BType {
            keys: Vec::new(alloc),
            base,
        }),
    }
}

/// The types of these, one by one.
fn copy_types(alloc: Global, types: &[BType]) -> Result<Vec<BType>, LineFault>
    ensures { IfOk result (λ copies. map type_of copies.items ≡ map type_of types.now) }
{
    let mut copies = Vec::with_capacity(alloc, types.len())?;
    for ty in types {
        copies.push(copy_type(alloc, ty)?)?;
    }
    Ok(copies)
}

/// The types of the names of well-typed conditions: of the variables, and behind them of the definitions.
pub(crate) fn types_of(alloc: Global, conditions: &Conditions) -> Result<Vec<BType>, LineFault>
    ensures { IfOk result (λ types. (all : List p.BType) → defined_types (conditions_of conditions.now).lets (conditions_of conditions.now).vars ≡ Some all → map type_of types.items ≡ all) }
{
    let mut types = copy_types(alloc, &conditions.vars)?;
    for e in &conditions.lets {
        let ty = type_in(alloc, &types, kind_of(&types, e))?;
        types.push(ty)?;
    }
    Ok(types)
}
