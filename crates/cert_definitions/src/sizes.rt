// How large a text is.
use boogie_formula::FExpr;

/// What is left of a count behind an expression and its parts, if it suffices.
#[cycle(sizes)]
pub(crate) fn behind(left: usize, e: &FExpr) -> Option<usize> {
    let left = left.checked_sub(1)?;
    match e {
        FExpr::Neg(a)
        | FExpr::Not(a)
        | FExpr::ToReal(a)
        | FExpr::SInt(a)
        | FExpr::SBool(a)
        | FExpr::SRef(a)
        | FExpr::SPerm(a)
        | FExpr::Forall(_, a) => behind(left, a),
        FExpr::Bin(_, a, b) | FExpr::Pair(a, b) => behind(behind(left, a)?, b),
        FExpr::If(c, a, b) => behind(behind(behind(left, c)?, a)?, b),
        FExpr::At(_, es) => behind_all(left, es),
        FExpr::With(map, es, value) => behind(behind_all(behind(left, map)?, es)?, value),
        _ => Some(left),
    }
}

#[cycle(sizes)]
fn behind_all(left: usize, es: &[FExpr]) -> Option<usize> {
    let mut left = left;
    for e in es {
        left = behind(left, e)?;
    }
    Some(left)
}
