// A `havoc` and its variable.
ghost use Rattle.std.specs.Prelude.{◌<◌, length, IfOk, IfSome};
ghost use Rattle.boogie_text.specs.StmtView.{EatsHavoc};

use boogie_grammar::eating::eat_word;
use boogie_grammar::leaves::eat_variable;
use boogie_grammar::scopes::BoogieNames;
use boogie_grammar::{BoogieWord, PlacedLexeme};
use grammar::Stop;

/// The variable after `havoc`, if the word is next; then a variable must follow it.
pub fn eat_havoc<'a>(
    locals: &BoogieNames,
    tokens: &'a [PlacedLexeme],
) -> Result<Option<(usize, &'a [PlacedLexeme])>, Stop<'a, PlacedLexeme>>
    ensures shorter { IfOk result (λ o. IfSome o (λ r. length r.1.now < length tokens.now)) }
    ensures eats { EatsHavoc locals.now tokens.now result }
{
    let Some(rest) = eat_word(BoogieWord::Havoc, tokens) else {
        return Ok(None);
    };
    if let Some(eaten) = eat_variable(locals, rest) {
        return Ok(Some(eaten));
    }
    if locals.some_free() {
        return Err(Stop::Before(rest));
    }
    Err(Stop::Before(tokens))
}
