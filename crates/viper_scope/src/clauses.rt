// What a clause of a method sees.
ghost use Rattle.std.specs.Prelude.{◌≡◌};
ghost use Rattle.std.specs.Option.{option_map};
ghost use Rattle.viper_scope.specs.Answers.{seen_of};
ghost use Rattle.viper_scope.specs.Clause as c;

use crate::context::UnitPart;
use crate::scope::VariableScope;
use viper_syntax::Word;

/// The part that a clause stands in, and the scope that it sees: a `requires` the parameters alone, an `ensures` all variables.
pub fn seen<'a>(
    word: Word,
    params: &'a VariableScope,
    all: &'a VariableScope,
) -> Option<(UnitPart, &'a VariableScope)>
    ensures { option_map seen_of result ≡ c.seen word params.now all.now }
{
    match word {
        Word::Requires => Some((UnitPart::Precondition, params)),
        Word::Ensures => Some((UnitPart::Elsewhere, all)),
        _ => None,
    }
}
