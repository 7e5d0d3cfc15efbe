// How many brackets are unclosed at once.
ghost use Rattle.std.specs.Prelude.{◌≡◌, ◌<◌, ◌^◌, MatchOption};
ghost use Rattle.boogie_grammar.specs.Depth.{IsShallow, IsTooDeep, unclosed_with};

use crate::{BSign, Lexeme, PlacedLexeme};
use vb_base::Pos;
use vb_base::limits::MAX_UNCLOSED_BRACKETS;

/// The place of the first `(`, `[` or `{` with which more than `MAX_UNCLOSED_BRACKETS` are unclosed, if there is one.
pub fn first_too_deep(tokens: &[PlacedLexeme]) -> Option<Pos>
    ensures { MatchOption result (IsShallow tokens.now) (IsTooDeep tokens.now) }
{
    let mut count: usize = 0;
    for token in tokens {
        count = unclosed_with(count, &token.tok);
        if count > MAX_UNCLOSED_BRACKETS {
            return Some(token.pos);
        }
    }
    None
}

/// How many are unclosed after one more token.
pub(crate) fn unclosed_with(count: usize, tok: &Lexeme) -> usize
    requires { count < 2 ^ 32 }
    ensures { result ≡ unclosed_with count tok.now }
{
    match tok {
        Lexeme::Sign(BSign::OpenParen | BSign::OpenBracket | BSign::OpenBrace) => count + 1,
        Lexeme::Sign(BSign::CloseParen | BSign::CloseBracket | BSign::CloseBrace) => {
            count.saturating_sub(1)
        }
        _ => count,
    }
}
