// Terms without parts.
ghost use Rattle.std.specs.Prelude.{◌≡◌, not, slice_get, Some, None, [], MatchOption, if◌then◌else◌};
ghost use Rattle.boogie_formula.specs.View.{fexpr_of};
ghost use Rattle.cert_terms.specs.Lawful.{terms_of};
ghost use Rattle.cert_definitions.specs.Texts.{is_int, is_real, is_truth, is_null, is_unit, leaf_text};
ghost use Rattle.cert_definitions.specs.View.{own_of, told_of};

use boogie_formula::FExpr;
use cert_terms::{CertificateTerm, ClauseLiteral, TermTable};

/// The term that a literal is, if it is no negation.
pub(crate) fn own(table: &TermTable, literal: ClauseLiteral) -> Option<&CertificateTerm>
    ensures { MatchOption result (own_of table.now literal ≡ None) (λ x. own_of table.now literal ≡ Some x.now) }
{
    if literal.negated {
        return None;
    }
    match table.names.get(literal.name) {
        Some(named) => Some(&named.term),
        None => None,
    }
}

/// Whether a literal is this int.
fn is_int(table: &TermTable, number: i128, literal: ClauseLiteral) -> bool
    ensures { result ≡ is_int number (own_of table.now literal) }
{
    match own(table, literal) {
        Some(term) => match term {
            CertificateTerm::Int(found) => *found == number,
            _ => false,
        },
        None => false,
    }
}

/// Whether a literal is this real number.
fn is_real(table: &TermTable, number: i128, literal: ClauseLiteral) -> bool
    ensures { result ≡ is_real number (own_of table.now literal) }
{
    match own(table, literal) {
        Some(term) => match term {
            CertificateTerm::Real(found) => *found == number,
            _ => false,
        },
        None => false,
    }
}

/// Whether a literal is `null`.
fn is_null(table: &TermTable, literal: ClauseLiteral) -> bool
    ensures { result ≡ is_null (own_of table.now literal) }
{
    match own(table, literal) {
        Some(term) => match term {
            CertificateTerm::Null => true,
            _ => false,
        },
        None => false,
    }
}

/// Whether a literal is `sUnit`.
fn is_unit(table: &TermTable, literal: ClauseLiteral) -> bool
    ensures { result ≡ is_unit (own_of table.now literal) }
{
    match own(table, literal) {
        Some(term) => match term {
            CertificateTerm::Unit => true,
            _ => false,
        },
        None => false,
    }
}

/// Whether a literal is this truth value, or the negation of the other one.
fn is_truth(table: &TermTable, truth: bool, literal: ClauseLiteral) -> bool
    ensures { result ≡ is_truth (if literal.negated then not truth else truth) (slice_get (terms_of table.now) literal.name) }
{
    let wanted = if literal.negated { !truth } else { truth };
    match table.names.get(literal.name) {
        Some(named) => match &named.term {
            CertificateTerm::Bool(found) => *found == wanted,
            _ => false,
        },
        None => false,
    }
}

/// Whether a literal is what the text of an expression without parts says.
pub(crate) fn leaf_text(table: &TermTable, e: &FExpr, literal: ClauseLiteral) -> bool
    ensures { result ≡ leaf_text (told_of table.now [] None) (fexpr_of e.now) literal }
{
    match e {
        FExpr::Int(number) => is_int(table, *number, literal),
        FExpr::Real(number) => is_real(table, *number, literal),
        FExpr::Bool(truth) => is_truth(table, *truth, literal),
        FExpr::Null => is_null(table, literal),
        FExpr::Unit => is_unit(table, literal),
        _ => false,
    }
}
