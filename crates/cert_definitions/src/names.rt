// What names of the conditions are told to be.
ghost use Rattle.std.specs.Prelude.{◌≡◌, None, slice_get};
ghost use Rattle.cert_terms.specs.Lawful.{terms_of};
ghost use Rattle.cert_definitions.specs.Texts.{same_literal, is_same, is_alias, is_name};
ghost use Rattle.cert_definitions.specs.View.{told_of};

use cert_terms::{CertificateTerm, ClauseLiteral, TermTable};

/// Whether two literals are the same.
pub(crate) fn same_literal(a: ClauseLiteral, b: ClauseLiteral) -> bool
    ensures { result ≡ same_literal a b }
{
    a.name == b.name && a.negated == b.negated
}

/// Whether a name is a term that is the same as another name.
fn is_same(table: &TermTable, name: usize, found: usize) -> bool
    ensures { result ≡ is_same name (slice_get (terms_of table.now) found) }
{
    match table.names.get(found) {
        Some(named) => match &named.term {
            CertificateTerm::Same(other) => *other == name,
            _ => false,
        },
        None => false,
    }
}

/// Whether a name is told to be this literal.
fn is_alias(aliases: &[Option<ClauseLiteral>], name: usize, literal: ClauseLiteral) -> bool
    ensures { result ≡ is_alias (slice_get aliases.now name) literal }
{
    match aliases.get(name) {
        Some(Some(alias)) => same_literal(*alias, literal),
        _ => false,
    }
}

/// Whether the literal is the name, a term that is the same, or what the name is told to be.
pub(crate) fn is_name(
    table: &TermTable,
    aliases: &[Option<ClauseLiteral>],
    name: usize,
    literal: ClauseLiteral,
) -> bool
    ensures { result ≡ is_name (told_of table.now aliases.now None) name literal }
{
    if !literal.negated && (literal.name == name || is_same(table, name, literal.name)) {
        return true;
    }
    is_alias(aliases, name, literal)
}
