// The types that words name.
ghost use Rattle.std.specs.Prelude.{◌≡◌};
ghost use Rattle.viper_scope.specs.Types as t;

use vb_value::Ty;
use viper_syntax::{Formal, Word};

/// The type of a word.
pub fn type_of(word: Word) -> Option<Ty>
    ensures { result ≡ t.type_of word }
{
    match word {
        Word::Int => Some(Ty::Int),
        Word::Bool => Some(Ty::Bool),
        Word::Ref => Some(Ty::Ref),
        Word::Perm => Some(Ty::Perm),
        _ => None,
    }
}

/// The type of a formal, and Int where its word is no type.
pub fn declared_type(formal: &Formal) -> Ty
    ensures { result ≡ t.declared_type formal.now }
{
    type_of(formal.ty).unwrap_or(Ty::Int)
}
