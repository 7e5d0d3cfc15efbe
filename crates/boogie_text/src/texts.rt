// The tokens of a text.
ghost use Rattle.std.specs.Prelude.{◌≡◌, ◌≤◌, ◌++◌, MatchResult, length};
ghost use Rattle.vb_base.specs.Limits.{max_boogie_bytes};
ghost use Rattle.boogie_tree.specs.Text.{prelude};
ghost use Rattle.boogie_text.specs.Answers.{UnlessMemory};
ghost use Rattle.boogie_text.specs.PublicTokens.{IsTokenFault};
ghost use Rattle.boogie_text.specs.Texts.{HasTokens};

use boogie_grammar::{BoogieFault, PlacedLexeme, after_prelude, cut, first_too_deep};
use boogie_tree::PRELUDE;
use std::alloc::Global;

/// The tokens after the prelude, or the first reason for which there are none, in the order of `tokens_after`.
pub fn placed_tokens(alloc: Global, bytes: &[u8]) -> Result<Vec<PlacedLexeme>, BoogieFault>
    requires { length bytes.now ≤ max_boogie_bytes }
    ensures { MatchResult result (λ v. HasTokens bytes.now v.items) (UnlessMemory (IsTokenFault bytes.now)) }
{
    match after_prelude(bytes) {
        Ok(rest) => rest_tokens(alloc, bytes, rest),
        Err(at) => Err(BoogieFault::Prelude(at)),
    }
}

/// The tokens of the bytes after the prelude.
fn rest_tokens(alloc: Global, bytes: &[u8], rest: &[u8]) -> Result<Vec<PlacedLexeme>, BoogieFault>
    requires whole { bytes.now ≡ prelude ++ rest.now }
    requires few { length rest.now ≤ max_boogie_bytes }
    ensures { MatchResult result (λ v. HasTokens bytes.now v.items) (UnlessMemory (IsTokenFault bytes.now)) }
{
    let tokens = cut(alloc, PRELUDE, rest)?;
    if let Some(at) = first_too_deep(&tokens) {
        return Err(BoogieFault::Deep(at));
    }
    Ok(tokens)
}
