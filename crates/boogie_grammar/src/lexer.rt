// The tokens of a text.
ghost use Rattle.std.specs.Prelude.{◌≡◌, ◌≤◌, ◌++◌, OnOk, length};
ghost use Rattle.std.specs.Result.{result_map_both};
ghost use Rattle.vb_base.specs.Limits.{max_boogie_bytes};
ghost use Rattle.boogie_grammar.specs.Step.{Cuts, one_at};

use crate::pieces::piece;
use crate::{BoogieFault, Lexeme, PlacedLexeme};
use std::alloc::Global;
use vb_base::{Memory, Pos, advance, place_after};

/// The tokens of a text that stands after these bytes, or the place of the first byte at which none begins.
pub fn cut(alloc: Global, before: &[u8], bytes: &[u8]) -> Result<Vec<PlacedLexeme>, BoogieFault>
    requires before { length before.now ≤ max_boogie_bytes }
    requires bytes { length bytes.now ≤ max_boogie_bytes }
    ensures { Cuts before.now bytes.now (result_map_both (λ v. v.items) (λ e. e) result) }
{
    let mut tokens = Vec::new(alloc);
    let mut at = place_after(before);
    let mut rest = bytes;
    while !rest.is_empty() {
        let Some((tok, len)) = piece(alloc, rest)? else {
            return Err(BoogieFault::Syntax(at));
        };
        push_at(&mut tokens, tok, at)?;
        let (front, after) = rest.split_at(len);
        at = advance(at, front);
        rest = after;
    }
    Ok(tokens)
}

/// One token more, if there is one.
fn push_at(tokens: &mut Vec<PlacedLexeme>, tok: Option<Lexeme>, pos: Pos) -> Result<(), Memory>
    ensures { OnOk result (tokens.new.items ≡ tokens.old.items ++ one_at tok pos) }
{
    if let Some(tok) = tok {
        tokens.push(PlacedLexeme { tok, pos })?;
    }
    Ok(())
}
