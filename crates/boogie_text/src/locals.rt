// The locals of a procedure.
ghost use Rattle.std.specs.Prelude.{◌≡◌, ◌<◌, ◌≤◌, [], length, IfOk};
ghost use Rattle.boogie_tree.specs.Whole.{locals_of};
ghost use Rattle.boogie_grammar.specs.Grammar as g;
ghost use Rattle.boogie_grammar.specs.Grammar.{local_names};
ghost use Rattle.boogie_grammar.specs.Greedy.{Parses};
ghost use Rattle.boogie_grammar.specs.ReadView.{all_locals_of};

use crate::types::type_of;
use boogie_grammar::eating::{BoogieRead, eat_word, need_sign};
use boogie_grammar::new_names::new_name;
use boogie_grammar::scopes::BoogieNames;
use boogie_grammar::{BSign, BoogieWord, PlacedLexeme};
use boogie_tree::Local;
use std::alloc::Global;
use vb_base::pushed;

/// The locals with which a procedure begins, whose names differ. Their names come into the table.
pub(crate) fn locals<'a>(
    alloc: Global,
    names: &mut BoogieNames,
    tokens: &'a [PlacedLexeme],
) -> BoogieRead<'a, Vec<Local>>
    requires { names.now ≡ [] }
    ensures shorter { IfOk result (λ r. length r.1.now ≤ length tokens.now) }
    ensures names { IfOk result (λ r. names.new ≡ local_names (locals_of r.0.items)) }
    ensures reads { Parses all_locals_of (g.rule (g.Locals [])) tokens.now result }
{
    let mut all = Vec::new(alloc);
    let mut rest = tokens;
    while let Some(after) = eat_word(BoogieWord::Var, rest) {
        let (name, after) = new_name(names, after)?;
        let (_, after) = need_sign(BSign::Colon, after)?;
        let (ty, after) = type_of(alloc, after)?;
        let (_, after) = need_sign(BSign::Semicolon, after)?;
        names.add(name.copy()?)?;
        all = pushed(all, Local { name, ty })?;
        rest = after;
    }
    Ok((all, rest))
}
