// The forms of terms that the reasons look for.
ghost use Rattle.std.specs.Prelude.{◌≡◌, IfOk, OnOk};
ghost use Rattle.boogie_tree.specs.declared.exprs.BOp.TheVariants as op;
ghost use Rattle.cert_terms.specs.declared.terms.CertificateTerm.TheVariants as term;
ghost use Rattle.cert_terms.specs.Lawful.{terms_of};
ghost use Rattle.cert_rules.specs.Shapes.{IsTerm, IsBin, IsZero, IsDivision, IsAdditive, IsOfProducts};

use boogie_tree::BOp;
use cert_terms::{CertificateTerm, ClauseLiteral, LineFault, LineRefusal, TermTable};

/// The two sides of an operator.
#[derive(Clone, Copy)]
pub(crate) struct Operands {
    pub(crate) left: ClauseLiteral,
    pub(crate) right: ClauseLiteral,
}

/// A sum or a difference.
#[derive(Clone, Copy)]
pub(crate) struct Additive {
    pub(crate) operator: BOp,
    pub(crate) left: ClauseLiteral,
    pub(crate) right: ClauseLiteral,
}

/// A quotient or a remainder.
#[derive(Clone, Copy)]
pub(crate) struct Division {
    pub(crate) operator: BOp,
    pub(crate) dividend: ClauseLiteral,
}

/// What the literal is, which has to be a name as it is, and not its negation.
pub(crate) fn term_of(
    table: &TermTable,
    literal: ClauseLiteral,
) -> Result<&CertificateTerm, LineFault>
    ensures { IfOk result (λ t. IsTerm (terms_of table.now) literal t.now) }
{
    if literal.negated {
        return Err(LineFault::Refused(LineRefusal::Shape));
    }
    table.term(literal.name)
}

/// The two sides of the literal, which has to be this operator.
pub(crate) fn operands_of(
    table: &TermTable,
    literal: ClauseLiteral,
    operator: BOp,
) -> Result<Operands, LineFault>
    ensures { IfOk result (λ r. IsBin (terms_of table.now) literal operator r.left r.right) }
{
    match term_of(table, literal)? {
        CertificateTerm::Bin(found, left, right) if *found == operator => Ok(Operands {
            left: *left,
            right: *right,
        }),
        _ => Err(LineFault::Refused(LineRefusal::Shape)),
    }
}

/// Refuses what is not this operator between these two.
pub(crate) fn check_bin(
    table: &TermTable,
    literal: ClauseLiteral,
    operator: BOp,
    sides: Operands,
) -> Result<(), LineFault>
    ensures { OnOk result (IsBin (terms_of table.now) literal operator sides.left sides.right) }
{
    let found = operands_of(table, literal, operator)?;
    if found.left == sides.left && found.right == sides.right {
        Ok(())
    } else {
        Err(LineFault::Refused(LineRefusal::Shape))
    }
}

/// The left side of the literal, which has to be this operator with this right side.
pub(crate) fn left_of(
    table: &TermTable,
    literal: ClauseLiteral,
    operator: BOp,
    right: ClauseLiteral,
) -> Result<ClauseLiteral, LineFault>
    ensures { IfOk result (λ left. IsBin (terms_of table.now) literal operator left right) }
{
    let found = operands_of(table, literal, operator)?;
    if found.right == right {
        Ok(found.left)
    } else {
        Err(LineFault::Refused(LineRefusal::Shape))
    }
}

/// The right side of the literal, which has to be this operator with this left side.
pub(crate) fn right_of(
    table: &TermTable,
    literal: ClauseLiteral,
    operator: BOp,
    left: ClauseLiteral,
) -> Result<ClauseLiteral, LineFault>
    ensures { IfOk result (λ right. IsBin (terms_of table.now) literal operator left right) }
{
    let found = operands_of(table, literal, operator)?;
    if found.left == left {
        Ok(found.right)
    } else {
        Err(LineFault::Refused(LineRefusal::Shape))
    }
}

/// Refuses what is not this operator between two products.
pub(crate) fn check_products(
    table: &TermTable,
    literal: ClauseLiteral,
    operator: BOp,
    first: Operands,
    second: Operands,
) -> Result<(), LineFault>
    ensures { OnOk result (IsOfProducts (terms_of table.now) literal operator first.left first.right second.left second.right) }
{
    let products = operands_of(table, literal, operator)?;
    check_bin(table, products.left, BOp::Mul, first)?;
    check_bin(table, products.right, BOp::Mul, second)?;
    Ok(())
}

/// The quotient or remainder by this that the literal is.
pub(crate) fn division_by(
    table: &TermTable,
    literal: ClauseLiteral,
    divisor: ClauseLiteral,
) -> Result<Division, LineFault>
    ensures is_division { IfOk result (λ d. IsDivision d.operator) }
    ensures is_there { IfOk result (λ d. IsBin (terms_of table.now) literal d.operator d.dividend divisor) }
{
    match term_of(table, literal)? {
        CertificateTerm::Bin(operator @ (BOp::Divide | BOp::IntDiv | BOp::IntMod), left, right)
            if *right == divisor => {
            Ok(Division {
                operator: *operator,
                dividend: *left,
            })
        }
        _ => Err(LineFault::Refused(LineRefusal::Shape)),
    }
}

/// The sum or the difference that the literal is.
pub(crate) fn additive_of(table: &TermTable, literal: ClauseLiteral) -> Result<Additive, LineFault>
    ensures is_additive { IfOk result (λ d. IsAdditive d.operator) }
    ensures is_there { IfOk result (λ d. IsBin (terms_of table.now) literal d.operator d.left d.right) }
{
    match term_of(table, literal)? {
        CertificateTerm::Bin(operator @ (BOp::Add | BOp::Sub), left, right) => Ok(Additive {
            operator: *operator,
            left: *left,
            right: *right,
        }),
        _ => Err(LineFault::Refused(LineRefusal::Shape)),
    }
}

/// Refuses what is not `- a`.
pub(crate) fn check_negation(
    table: &TermTable,
    literal: ClauseLiteral,
    part: ClauseLiteral,
) -> Result<(), LineFault>
    ensures { OnOk result (IsTerm (terms_of table.now) literal (term.Neg part)) }
{
    match term_of(table, literal)? {
        CertificateTerm::Neg(found) if *found == part => Ok(()),
        _ => Err(LineFault::Refused(LineRefusal::Shape)),
    }
}

/// Refuses what is not the literal 0.
pub(crate) fn check_zero(table: &TermTable, literal: ClauseLiteral) -> Result<(), LineFault>
    ensures { OnOk result (IsZero (terms_of table.now) literal) }
{
    match term_of(table, literal)? {
        CertificateTerm::Int(0) | CertificateTerm::Real(0) => Ok(()),
        _ => Err(LineFault::Refused(LineRefusal::Shape)),
    }
}
