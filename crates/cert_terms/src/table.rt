// The names of a certificate, with what each is and its type.
ghost use Rattle.cert_terms.specs.Tables.{IsTable};
ghost use Rattle.cert_terms.specs.View.{terms_in, types_in};

use crate::terms::TypedTerm;

/// The names so far: the variables and definitions of the conditions, and then the terms of the certificate. Each term has the type of
/// what it means over the names before it.
#[derive(Drop)]
pub struct TermTable {
    pub names: Vec<TypedTerm>,
    pub ghost is_table: { IsTable (terms_in names.items) (types_in names.items) },
}
