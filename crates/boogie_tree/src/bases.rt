// The types of values and keys.
ghost use Rattle.std.specs.Prelude.{◌≡◌};
ghost use Rattle.boogie_tree.specs.Values.{same_base, same_bases, is_key, are_keys, base_of_scalar, default_of, base_of_part, fits_key};
ghost use Rattle.boogie_tree.specs.Whole.{scalar_of};

use crate::exprs::BBase;
use crate::values::BScalar;
use vb_value::{Content, Frac, KeyPart};

/// Whether two types are the same.
pub fn same_base(a: BBase, b: BBase) -> bool
    ensures { result ≡ same_base a b }
{
    a == b
}

/// Whether two lists of types are the same.
pub fn same_bases(left: &[BBase], right: &[BBase]) -> bool
    ensures { result ≡ same_bases left.now right.now }
{
    let mut count = 0;
    for base in left {
        let Some(other) = right.get(count) else {
            return false;
        };
        if !same_base(*base, *other) {
            return false;
        }
        count += 1;
    }
    count == right.len()
}

/// Whether the indices of a map may have this type.
pub fn is_key(base: BBase) -> bool
    ensures { result ≡ is_key base }
{
    matches!(base, BBase::Int | BBase::Bool | BBase::Ref)
}

/// Whether they may have these types.
pub fn are_keys(bases: &[BBase]) -> bool
    ensures { result ≡ are_keys bases.now }
{
    bases.iter().all(|base| is_key(*base))
}

/// The type of a value that is no map.
pub fn base_of_scalar(value: &BScalar) -> BBase
    ensures { result ≡ base_of_scalar (scalar_of value.now) }
{
    match value {
        BScalar::Int(_) => BBase::Int,
        BScalar::Bool(_) => BBase::Bool,
        BScalar::Ref(_) => BBase::Ref,
        BScalar::Real(_) => BBase::Real,
        BScalar::Snap(_) => BBase::Snap,
    }
}

/// The default of a type: 0, false, null, 0 or the content of nothing.
pub fn default_of(base: BBase) -> BScalar
    ensures { scalar_of result ≡ default_of base }
{
    match base {
        BBase::Int => BScalar::Int(0),
        BBase::Bool => BScalar::Bool(false),
        BBase::Ref => BScalar::Ref(0),
        BBase::Real => BScalar::Real(Frac::none()),
        BBase::Snap => BScalar::Snap(Content::Unit),
    }
}

/// The type of an index.
pub fn base_of_part(part: KeyPart) -> BBase
    ensures { result ≡ base_of_part part }
{
    match part {
        KeyPart::Int(_) => BBase::Int,
        KeyPart::Bool(_) => BBase::Bool,
        KeyPart::Ref(_) => BBase::Ref,
    }
}

/// Whether a key has as many parts, each of its type.
pub fn fits_key(bases: &[BBase], parts: &[KeyPart]) -> bool
    ensures { result ≡ fits_key bases.now parts.now }
{
    let mut count = 0;
    for base in bases {
        let Some(part) = parts.get(count) else {
            return false;
        };
        if !same_base(base_of_part(*part), *base) {
            return false;
        }
        count += 1;
    }
    count == parts.len()
}
