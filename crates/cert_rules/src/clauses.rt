// Clauses of a few literals.
ghost use Rattle.std.specs.Prelude.{◌≡◌, [], ◌∷◌, IfOk};

use cert_terms::{ClauseLiteral, LineFault};
use std::alloc::Global;

/// The clause of this literal.
pub(crate) fn one(alloc: Global, a: ClauseLiteral) -> Result<Vec<ClauseLiteral>, LineFault>
    ensures { IfOk result (λ c. c.items ≡ a ∷ []) }
{
    Ok(vec![in alloc; a]?)
}

/// The clause of these two.
pub(crate) fn two(
    alloc: Global,
    a: ClauseLiteral,
    b: ClauseLiteral,
) -> Result<Vec<ClauseLiteral>, LineFault>
    ensures { IfOk result (λ c. c.items ≡ a ∷ b ∷ []) }
{
    Ok(vec![in alloc; a, b]?)
}

/// The clause of these three.
pub(crate) fn three(
    alloc: Global,
    a: ClauseLiteral,
    b: ClauseLiteral,
    c: ClauseLiteral,
) -> Result<Vec<ClauseLiteral>, LineFault>
    ensures { IfOk result (λ r. r.items ≡ a ∷ b ∷ c ∷ []) }
{
    Ok(vec![in alloc; a, b, c]?)
}
