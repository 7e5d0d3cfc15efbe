// Connectives and comparisons by `&&`, `==`, `<=` and the sign of a literal.
ghost use Rattle.std.specs.Prelude.{◌≡◌};
ghost use Rattle.cert_definitions.specs.Texts.{core, is_turned, left_of, right_of};

use boogie_tree::BOp;
use cert_terms::ClauseLiteral;

/// The operator by which another one is put.
pub(crate) fn core(op: BOp) -> BOp
    ensures { result ≡ core op }
{
    match op {
        BOp::Or | BOp::Implies => BOp::And,
        BOp::Ne | BOp::Iff => BOp::Eq,
        BOp::Lt | BOp::Gt | BOp::Ge => BOp::Le,
        _ => op,
    }
}

/// Whether it is put by a negation.
pub(crate) fn is_turned(op: BOp) -> bool
    ensures { result ≡ is_turned op }
{
    matches!(op, BOp::Or | BOp::Implies | BOp::Ne | BOp::Lt | BOp::Gt)
}

/// The left side, by the sides of the term.
pub(crate) fn left_of(op: BOp, left: ClauseLiteral, right: ClauseLiteral) -> ClauseLiteral
    ensures { result ≡ left_of op left right }
{
    match op {
        BOp::Or => left.turned(),
        BOp::Lt | BOp::Ge => right,
        _ => left,
    }
}

/// The right side, by the sides of the term.
pub(crate) fn right_of(op: BOp, left: ClauseLiteral, right: ClauseLiteral) -> ClauseLiteral
    ensures { result ≡ right_of op left right }
{
    match op {
        BOp::Or | BOp::Implies => right.turned(),
        BOp::Lt | BOp::Ge => left,
        _ => right,
    }
}
