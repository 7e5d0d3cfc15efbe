// Whether a literal is what a definition says, which may be a map.
ghost use Rattle.std.specs.Prelude.{◌≡◌, ◌&&◌, None};
ghost use Rattle.boogie_formula.specs.View.{fexpr_of, fexprs_of};
ghost use Rattle.cert_definitions.specs.Texts as t;
ghost use Rattle.cert_definitions.specs.View.{told_of, own_of};

use crate::leaves::own;
use crate::names::is_name;
use crate::parts::choice_of;
use crate::texts::{are_texts, is_text};
use boogie_formula::FExpr;
use cert_terms::{CertificateTerm, ClauseLiteral, TermTable};

/// Whether a literal is what the text of a definition says.
#[cycle(wholes)]
fn is_whole(
    table: &TermTable,
    aliases: &[Option<ClauseLiteral>],
    definition: &FExpr,
    literal: ClauseLiteral,
) -> bool
    ensures { result ≡ t.is_whole (told_of table.now aliases.now None) (fexpr_of definition.now) literal }
{
    match definition {
        FExpr::Var(name) => is_name(table, aliases, *name, literal),
        FExpr::If(c, a, b) => match choice_of(table, literal) {
            Some(found) => {
                is_text(table, aliases, false, &[], c, found.condition)
                    && is_whole(table, aliases, a, found.then)
                    && is_whole(table, aliases, b, found.other)
            }
            None => false,
        },
        FExpr::With(map, es, e) => put_text(table, aliases, map, es, e, literal),
        _ => is_text(table, aliases, false, &[], definition, literal),
    }
}

/// Whether a literal is a map with another value at what the texts of keys say.
#[cycle(wholes)]
fn put_text(
    table: &TermTable,
    aliases: &[Option<ClauseLiteral>],
    map: &FExpr,
    es: &[FExpr],
    e: &FExpr,
    literal: ClauseLiteral,
) -> bool
    ensures { result ≡ t.put_text (own_of table.now literal) (λ n ks x. t.is_whole (told_of table.now aliases.now None) (fexpr_of map.now) (t.plainly n)
        && (t.are_texts (told_of table.now aliases.now None) (fexprs_of es.now) ks && t.is_text (told_of table.now aliases.now None) (fexpr_of e.now) x)) }
{
    match own(table, literal) {
        Some(term) => match term {
            CertificateTerm::Put(name, keys, value) => {
                is_whole(table, aliases, map, ClauseLiteral::of(*name))
                    && are_texts(table, aliases, false, &[], es, keys)
                    && is_text(table, aliases, false, &[], e, *value)
            }
            _ => false,
        },
        None => false,
    }
}

/// Whether a literal is the definition of this name. One that is a `forall` is just its name.
pub(crate) fn is_told(
    table: &TermTable,
    aliases: &[Option<ClauseLiteral>],
    definition: &FExpr,
    name: usize,
    literal: ClauseLiteral,
) -> bool
    ensures { result ≡ t.is_told (told_of table.now aliases.now None) name (fexpr_of definition.now) literal }
{
    match definition {
        FExpr::Forall(_, _) => is_name(table, aliases, name, literal),
        _ => is_whole(table, aliases, definition, literal),
    }
}
