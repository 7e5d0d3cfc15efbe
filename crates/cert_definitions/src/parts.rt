// Parts of terms.
ghost use Rattle.std.specs.Prelude.{◌≡◌, Bool as Truth, ◌&&◌, slice_get, None, MatchOption, []};
ghost use Rattle.std.specs.Bool.{beq};
ghost use Rattle.cert_terms.specs.Lawful.{terms_of};
ghost use Rattle.cert_terms.specs.Literals.{turned};
ghost use Rattle.cert_terms.specs.declared.terms.ClauseLiteral as l;
ghost use Rattle.cert_definitions.specs.Texts as t;
ghost use Rattle.cert_definitions.specs.View.{told_of, own_of, two_text, three_text};

use crate::leaves::own;
use crate::operators::{core, is_turned, left_of, right_of};
use boogie_tree::{BBase, BOp};
use cert_terms::{CertificateTerm, ClauseLiteral, TermTable};

/// Two parts.
#[derive(Clone, Copy)]
pub(crate) struct TwoParts {
    pub(crate) left: ClauseLiteral,
    pub(crate) right: ClauseLiteral,
}

/// The parts of a choice.
#[derive(Clone, Copy)]
pub(crate) struct ChoiceParts {
    pub(crate) condition: ClauseLiteral,
    pub(crate) then: ClauseLiteral,
    pub(crate) other: ClauseLiteral,
}

pub(crate) fn neg_of(table: &TermTable, literal: ClauseLiteral) -> Option<ClauseLiteral>
    ensures { result ≡ t.of_neg (own_of table.now literal) }
{
    match own(table, literal)? {
        CertificateTerm::Neg(part) => Some(*part),
        _ => None,
    }
}

pub(crate) fn real_of(table: &TermTable, literal: ClauseLiteral) -> Option<ClauseLiteral>
    ensures { result ≡ t.of_real (own_of table.now literal) }
{
    match own(table, literal)? {
        CertificateTerm::ToReal(part) => Some(*part),
        _ => None,
    }
}

pub(crate) fn s_int_of(table: &TermTable, literal: ClauseLiteral) -> Option<ClauseLiteral>
    ensures { result ≡ t.of_s_int (own_of table.now literal) }
{
    match own(table, literal)? {
        CertificateTerm::SInt(part) => Some(*part),
        _ => None,
    }
}

pub(crate) fn s_bool_of(table: &TermTable, literal: ClauseLiteral) -> Option<ClauseLiteral>
    ensures { result ≡ t.of_s_bool (own_of table.now literal) }
{
    match own(table, literal)? {
        CertificateTerm::SBool(part) => Some(*part),
        _ => None,
    }
}

pub(crate) fn s_ref_of(table: &TermTable, literal: ClauseLiteral) -> Option<ClauseLiteral>
    ensures { result ≡ t.of_s_ref (own_of table.now literal) }
{
    match own(table, literal)? {
        CertificateTerm::SRef(part) => Some(*part),
        _ => None,
    }
}

pub(crate) fn s_perm_of(table: &TermTable, literal: ClauseLiteral) -> Option<ClauseLiteral>
    ensures { result ≡ t.of_s_perm (own_of table.now literal) }
{
    match own(table, literal)? {
        CertificateTerm::SPerm(part) => Some(*part),
        _ => None,
    }
}

/// The parts of a pair.
pub(crate) fn pair_of(table: &TermTable, literal: ClauseLiteral) -> Option<TwoParts>
    ensures { (go : l.ClauseLiteral → l.ClauseLiteral → Truth) → two_text result go ≡ t.pair_text (own_of table.now literal) go }
{
    match own(table, literal)? {
        CertificateTerm::Pair(left, right) => Some(TwoParts {
            left: *left,
            right: *right,
        }),
        _ => None,
    }
}

/// The parts of a choice.
pub(crate) fn choice_of(table: &TermTable, literal: ClauseLiteral) -> Option<ChoiceParts>
    ensures { (go : l.ClauseLiteral → l.ClauseLiteral → l.ClauseLiteral → Truth) → three_text result go ≡ t.if_text (own_of table.now literal) go }
{
    match own(table, literal)? {
        CertificateTerm::If(condition, then, other) => Some(ChoiceParts {
            condition: *condition,
            then: *then,
            other: *other,
        }),
        _ => None,
    }
}

/// Whether two operators are the same.
fn same_op(left: BOp, right: BOp) -> bool
    ensures { result ≡ t.same_op left right }
{
    left == right
}

/// Whether a literal is a truth value.
fn is_bool(table: &TermTable, literal: ClauseLiteral) -> bool
    ensures { result ≡ t.is_bool (told_of table.now [] None) literal }
{
    match table.base(literal) {
        Some(base) => match base {
            BBase::Bool => true,
            _ => false,
        },
        None => false,
    }
}

/// The negation of a literal that is a truth value.
pub(crate) fn not_of(table: &TermTable, literal: ClauseLiteral) -> Option<ClauseLiteral>
    ensures { (go : l.ClauseLiteral → Truth) → t.one_text result go ≡ (t.is_bool (told_of table.now [] None) literal && go (turned literal)) }
{
    if is_bool(table, literal) {
        Some(literal.turned())
    } else {
        None
    }
}

/// Whether an operand is one that the operator takes.
fn suits(table: &TermTable, op: BOp, literal: ClauseLiteral) -> bool
    ensures { result ≡ t.suits (told_of table.now [] None) op literal }
{
    match op {
        BOp::Iff => is_bool(table, literal),
        _ => true,
    }
}

/// The sides of what an operator is put by.
fn put_by(table: &TermTable, op: BOp, term: &CertificateTerm) -> Option<TwoParts>
    ensures { (go : l.ClauseLiteral → l.ClauseLiteral → Truth) → two_text result go ≡
        t.bin_text (t.core op) (Some term.now) (λ x y. t.suits (told_of table.now [] None) op x && go (t.left_of op x y) (t.right_of op x y)) }
{
    match term {
        CertificateTerm::Bin(found, left, right) => {
            if !same_op(*found, core(op)) || !suits(table, op, *left) {
                return None;
            }
            Some(TwoParts {
                left: left_of(op, *left, *right),
                right: right_of(op, *left, *right),
            })
        }
        _ => None,
    }
}

/// Whether a literal has the sign with which an operator is put.
fn is_signed(op: BOp, literal: ClauseLiteral) -> bool
    ensures { result ≡ beq literal.negated (t.is_turned op) }
{
    literal.negated == is_turned(op)
}

/// The term of a name.
fn term_at(table: &TermTable, name: usize) -> Option<&CertificateTerm>
    ensures { MatchOption result (slice_get (terms_of table.now) name ≡ None) (λ x. slice_get (terms_of table.now) name ≡ Some x.now) }
{
    match table.names.get(name) {
        Some(named) => Some(&named.term),
        None => None,
    }
}

/// The sides of an operator, where a literal is what it is put by.
pub(crate) fn sides_of(table: &TermTable, op: BOp, literal: ClauseLiteral) -> Option<TwoParts>
    ensures { (go : l.ClauseLiteral → l.ClauseLiteral → Truth) → two_text result go ≡ (beq literal.negated (t.is_turned op)
        && t.bin_text (t.core op) (slice_get (terms_of table.now) literal.name) (λ x y. t.suits (told_of table.now [] None) op x && go (t.left_of op x y) (t.right_of op x y))) }
{
    if !is_signed(op, literal) {
        return None;
    }
    match term_at(table, literal.name) {
        Some(term) => put_by(table, op, term),
        None => None,
    }
}
