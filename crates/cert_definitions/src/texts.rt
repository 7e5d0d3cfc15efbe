// Whether a literal is what a text says.
ghost use Rattle.std.specs.Prelude.{◌≡◌, ◌&&◌, None};
ghost use Rattle.boogie_formula.specs.View.{fexpr_of, fexprs_of};
ghost use Rattle.cert_definitions.specs.Texts as t;
ghost use Rattle.cert_definitions.specs.View.{told_of, keys_of, own_of, two_text};

use crate::leaves::{leaf_text, own};
use crate::names::{is_name, same_literal};
use crate::parts::{
    TwoParts, choice_of, neg_of, not_of, pair_of, real_of, s_bool_of, s_int_of, s_perm_of,
    s_ref_of, sides_of,
};
use boogie_formula::FExpr;
use cert_terms::{CertificateTerm, ClauseLiteral, TermTable};

/// Whether two lists of literals are the same.
fn same_literals(left: &[ClauseLiteral], right: &[ClauseLiteral]) -> bool
    ensures { result ≡ t.same_literals left.now right.now }
{
    let mut count = 0;
    for literal in left {
        let Some(other) = right.get(count) else {
            return false;
        };
        if !same_literal(*literal, *other) {
            return false;
        }
        count += 1;
    }
    count == right.len()
}

/// Whether a literal is a map at the keys of the `forall`.
fn bound_text(
    table: &TermTable,
    aliases: &[Option<ClauseLiteral>],
    inside: bool,
    keys: &[ClauseLiteral],
    map: usize,
    literal: ClauseLiteral,
) -> bool
    ensures { result ≡ t.at_text (own_of table.now literal) (λ n ks. t.is_name (told_of table.now aliases.now None) map (t.plainly n) && t.same_keys (keys_of inside keys.now) ks) }
{
    match own(table, literal) {
        Some(term) => match term {
            CertificateTerm::At(name, found) => {
                is_name(table, aliases, map, ClauseLiteral::of(*name))
                    && inside
                    && same_literals(keys, found)
            }
            _ => false,
        },
        None => false,
    }
}

/// Whether a literal is what the text of an expression that is no map says.
#[cycle(texts)]
pub(crate) fn is_text(
    table: &TermTable,
    aliases: &[Option<ClauseLiteral>],
    inside: bool,
    keys: &[ClauseLiteral],
    e: &FExpr,
    literal: ClauseLiteral,
) -> bool
    ensures { result ≡ t.is_text (told_of table.now aliases.now (keys_of inside keys.now)) (fexpr_of e.now) literal }
{
    match e {
        FExpr::Var(name) => is_name(table, aliases, *name, literal),
        FExpr::Neg(a) => one_text(table, aliases, inside, keys, a, neg_of(table, literal)),
        FExpr::Not(a) => one_text(table, aliases, inside, keys, a, not_of(table, literal)),
        FExpr::Bin(op, a, b) => {
            let sides = sides_of(table, *op, literal);
            two_texts(table, aliases, inside, keys, a, b, sides)
        }
        FExpr::If(c, a, b) => match choice_of(table, literal) {
            Some(found) => {
                is_text(table, aliases, inside, keys, c, found.condition)
                    && is_text(table, aliases, inside, keys, a, found.then)
                    && is_text(table, aliases, inside, keys, b, found.other)
            }
            None => false,
        },
        FExpr::ToReal(a) => one_text(table, aliases, inside, keys, a, real_of(table, literal)),
        FExpr::SInt(a) => one_text(table, aliases, inside, keys, a, s_int_of(table, literal)),
        FExpr::SBool(a) => one_text(table, aliases, inside, keys, a, s_bool_of(table, literal)),
        FExpr::SRef(a) => one_text(table, aliases, inside, keys, a, s_ref_of(table, literal)),
        FExpr::SPerm(a) => one_text(table, aliases, inside, keys, a, s_perm_of(table, literal)),
        FExpr::Pair(a, b) => {
            two_texts(table, aliases, inside, keys, a, b, pair_of(table, literal))
        }
        FExpr::At(map, es) => at_text(table, aliases, inside, keys, *map, es, literal),
        FExpr::AtBound(map) => bound_text(table, aliases, inside, keys, *map, literal),
        _ => leaf_text(table, e, literal),
    }
}

/// Whether a part is what the text says, if there is one.
#[cycle(texts)]
fn one_text(
    table: &TermTable,
    aliases: &[Option<ClauseLiteral>],
    inside: bool,
    keys: &[ClauseLiteral],
    e: &FExpr,
    part: Option<ClauseLiteral>,
) -> bool
    ensures { result ≡ t.one_text part (λ x. t.is_text (told_of table.now aliases.now (keys_of inside keys.now)) (fexpr_of e.now) x) }
{
    match part {
        Some(found) => is_text(table, aliases, inside, keys, e, found),
        None => false,
    }
}

/// Whether two parts are what the texts say, if there are any.
#[cycle(texts)]
fn two_texts(
    table: &TermTable,
    aliases: &[Option<ClauseLiteral>],
    inside: bool,
    keys: &[ClauseLiteral],
    a: &FExpr,
    b: &FExpr,
    parts: Option<TwoParts>,
) -> bool
    ensures { result ≡ two_text parts (λ x y. t.is_text (told_of table.now aliases.now (keys_of inside keys.now)) (fexpr_of a.now) x
        && t.is_text (told_of table.now aliases.now (keys_of inside keys.now)) (fexpr_of b.now) y) }
{
    match parts {
        Some(found) => {
            is_text(table, aliases, inside, keys, a, found.left)
                && is_text(table, aliases, inside, keys, b, found.right)
        }
        None => false,
    }
}

/// Whether a literal is a map at what the texts of keys say.
#[cycle(texts)]
fn at_text(
    table: &TermTable,
    aliases: &[Option<ClauseLiteral>],
    inside: bool,
    keys: &[ClauseLiteral],
    map: usize,
    es: &[FExpr],
    literal: ClauseLiteral,
) -> bool
    ensures { result ≡ t.at_text (own_of table.now literal) (λ n ks. t.is_name (told_of table.now aliases.now None) map (t.plainly n)
        && t.are_texts (told_of table.now aliases.now (keys_of inside keys.now)) (fexprs_of es.now) ks) }
{
    match own(table, literal) {
        Some(term) => match term {
            CertificateTerm::At(name, found) => {
                is_name(table, aliases, map, ClauseLiteral::of(*name))
                    && are_texts(table, aliases, inside, keys, es, found)
            }
            _ => false,
        },
        None => false,
    }
}

/// Whether literals are what the texts say, one after the other.
#[cycle(texts)]
pub(crate) fn are_texts(
    table: &TermTable,
    aliases: &[Option<ClauseLiteral>],
    inside: bool,
    keys: &[ClauseLiteral],
    es: &[FExpr],
    literals: &[ClauseLiteral],
) -> bool
    ensures { result ≡ t.are_texts (told_of table.now aliases.now (keys_of inside keys.now)) (fexprs_of es.now) literals.now }
{
    let mut count = 0;
    for e in es {
        let Some(literal) = literals.get(count) else {
            return false;
        };
        if !is_text(table, aliases, inside, keys, e, *literal) {
            return false;
        }
        count += 1;
    }
    count == literals.len()
}
