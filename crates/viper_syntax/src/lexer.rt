// The tokens of a text.
ghost use Rattle.std.specs.Prelude.{◌≤◌, List, [], MatchResult, IfOk, IfErr, length};
ghost use Rattle.vb_base.specs.Limits.{max_viper_bytes};
ghost use Rattle.viper_syntax.specs.declared.tokens.LexFault.{LexFault};
ghost use Rattle.viper_syntax.specs.declared.tokens.Token.{Token};
ghost use Rattle.viper_syntax.specs.Cut.{IsCut, Meets};
ghost use Rattle.viper_syntax.specs.Step.{UnlessMemory};
ghost use Rattle.viper_syntax.specs.Lexed.{IsLexed, HasFault, IsWellFormed, GivesTokens, GivesFault};

use crate::limits::broken_limit;
use crate::pieces::{is_blank, piece};
use crate::{LexFault, Token};
use std::alloc::Global;
use vb_base::{Pos, advance};

/// The tokens of a text that is not too long.
///
/// Where the cut of the bytes meets a fault, it is the answer. Else the limits on braces and on groups and the
/// refused words are tried in this order, each over the whole list of tokens. `Memory` where there is no memory.
pub fn lex(alloc: Global, bytes: &[u8]) -> Result<Vec<Token>, LexFault>
    requires { length bytes.now ≤ max_viper_bytes }
    ensures tokens { IfOk result (λ v. IsLexed bytes.now v.items) }
    ensures fault { IfErr result (UnlessMemory (HasFault bytes.now)) }

    // and so no other list of tokens, and no other fault
    ensures only_tokens { (ts : List Token) → IsLexed bytes.now ts → GivesTokens ts result }
    ensures only_fault { (fault : LexFault) → HasFault bytes.now fault → GivesFault fault result }

    // what a parser may rely on
    ensures well_formed { IfOk result (λ v. IsWellFormed v.items) }
{
    let tokens = cut(alloc, bytes)?;
    match broken_limit(&tokens) {
        Some(fault) => Err(fault),
        None => Ok(tokens),
    }
}

/// The tokens of the cut, with no regard to the limits.
fn cut(alloc: Global, bytes: &[u8]) -> Result<Vec<Token>, LexFault>
    requires { length bytes.now ≤ max_viper_bytes }
    ensures { MatchResult result (λ v. IsCut [] bytes.now v.items) (UnlessMemory (Meets [] bytes.now)) }
{
    let mut tokens = Vec::new(alloc);
    let mut at = Pos { line: 1, col: 1 };
    let mut rest = bytes;
    while !rest.is_empty() {
        // A piece too, but most pieces are blanks, and what `piece` answers takes time to move.
        if is_blank(rest[0]) {
            let (blank, after) = rest.split_at(1);
            at = advance(at, blank);
            rest = after;
            continue;
        }
        let (tok, len) = piece(alloc, rest, at)?;
        if let Some(tok) = tok {
            tokens.push(Token { tok, pos: at })?;
        }
        let (front, after) = rest.split_at(len);
        at = advance(at, front);
        rest = after;
    }
    Ok(tokens)
}
