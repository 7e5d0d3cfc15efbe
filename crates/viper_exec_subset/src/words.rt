// The words for which a whole execution may fail where no unit does.
ghost use Rattle.std.specs.Prelude.{◌≡◌};
ghost use Rattle.viper_exec_subset.specs.Unframed as unframed;

use vb_base::Pos;
use viper_syntax::{Tok, Token, Word};

/// Whether a token is one of these words.
fn is_unframed(tok: &Tok) -> bool
    ensures { result ≡ unframed.is_unframed tok.now }
{
    matches!(tok, Tok::Word(Word::Wildcard | Word::Inhale | Word::Assume))
}

/// The place of the first token that is `wildcard`, `inhale` or `assume`. None exactly where there is none.
pub fn first_unframed(tokens: &Vec<Token>) -> Option<Pos>
    ensures { result ≡ unframed.first_unframed tokens.now.items }
{
    for token in tokens {
        if is_unframed(&token.tok) {
            return Some(token.pos);
        }
    }
    None
}
