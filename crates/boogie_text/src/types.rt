// Types and what a `forall` binds.
ghost use Rattle.std.specs.Prelude.{◌<◌, ◌∷◌, [], length, IfOk};
ghost use Rattle.boogie_tree.specs.Whole.{type_of};
ghost use Rattle.boogie_grammar.specs.Grammar as g;
ghost use Rattle.boogie_grammar.specs.Greedy.{Parses};
ghost use Rattle.boogie_grammar.specs.ReadView.{bases_of};

use boogie_grammar::eating::{BoogieRead, eat_sign, need_base, need_key, need_sign};
use boogie_grammar::{BSign, PlacedLexeme};
use boogie_tree::{BBase, BType};
use std::alloc::Global;
use vb_base::pushed;

/// The type of a variable.
pub fn type_of(alloc: Global, tokens: &[PlacedLexeme]) -> BoogieRead<'_, BType>
    ensures shorter { IfOk result (λ r. length r.1.now < length tokens.now) }
    ensures reads { Parses type_of (g.rule g.TypeOf) tokens.now result }
{
    let Some(rest) = eat_sign(BSign::OpenBracket, tokens) else {
        let (base, rest) = need_base(tokens)?;
        let keys = Vec::new(alloc);
        return Ok((BType { keys, base }, rest));
    };
    let (first, rest) = need_key(rest)?;
    let (keys, rest) = more_keys(alloc, first, rest)?;
    let (base, rest) = need_base(rest)?;
    Ok((BType { keys, base }, rest))
}

/// What continues a list of one type of keys, and the `]` after them.
fn more_keys(alloc: Global, first: BBase, tokens: &[PlacedLexeme]) -> BoogieRead<'_, Vec<BBase>>
    ensures shorter { IfOk result (λ r. length r.1.now < length tokens.now) }
    ensures reads { Parses bases_of (g.rule (g.MoreKeys (first ∷ []))) tokens.now result }
{
    let mut all = pushed(Vec::new(alloc), first)?;
    let mut rest = tokens;
    while let Some(after) = eat_sign(BSign::Comma, rest) {
        let (next, after) = need_key(after)?;
        all = pushed(all, next)?;
        rest = after;
    }
    let (_, after) = need_sign(BSign::CloseBracket, rest)?;
    Ok((all, after))
}
