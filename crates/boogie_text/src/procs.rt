// Procedures, and a program from its tokens.
ghost use Rattle.std.specs.Prelude.{◌≡◌, ◌<◌, [], length, false, IfOk};
ghost use Rattle.boogie_tree.specs.Whole.{proc_of};
ghost use Rattle.boogie_grammar.specs.Grammar as g;
ghost use Rattle.boogie_grammar.specs.Greedy.{Parses};
ghost use Rattle.boogie_grammar.specs.Words.{is_among};
ghost use Rattle.boogie_text.specs.StmtView.{all_procs_of};

use crate::locals::locals;
use crate::stmts::statements;
use boogie_grammar::eating::{BoogieRead, eat_word, need_sign};
use boogie_grammar::new_names::new_name;
use boogie_grammar::scopes::BoogieNames;
use boogie_grammar::{BSign, BoogieWord, PlacedLexeme, key_of};
use boogie_tree::Proc;
use std::alloc::Global;
use vb_base::pushed;

/// A procedure after its word, whose name is none of these.
pub(crate) fn procedure<'a>(
    alloc: Global,
    taken: &BoogieNames,
    tokens: &'a [PlacedLexeme],
) -> BoogieRead<'a, Proc>
    ensures shorter { IfOk result (λ r. length r.1.now < length tokens.now) }
    ensures new { IfOk result (λ r. is_among r.0.name taken.now ≡ false) }
    ensures reads { Parses proc_of (g.rule (g.Procedure taken.now)) tokens.now result }
{
    let (name, rest) = new_name(taken, tokens)?;
    let (_, rest) = need_sign(BSign::OpenParen, rest)?;
    let (_, rest) = need_sign(BSign::CloseParen, rest)?;
    let (_, rest) = need_sign(BSign::OpenBrace, rest)?;
    let mut names = BoogieNames::new(alloc, taken.key());
    let (vars, rest) = locals(alloc, &mut names, rest)?;
    let (body, rest) = statements(alloc, &names, rest)?;
    Ok((
        Proc {
            name,
            locals: vars,
            body,
        },
        rest,
    ))
}

/// The procedures of a program, whose names differ, and the tokens after them.
pub(crate) fn procedures<'a>(alloc: Global, tokens: &'a [PlacedLexeme]) -> BoogieRead<'a, Vec<Proc>>
    ensures reads { Parses all_procs_of (g.rule (g.Program [])) tokens.now result }
{
    let mut names = BoogieNames::new(alloc, key_of(tokens));
    let mut all = Vec::new(alloc);
    let mut rest = tokens;
    while let Some(after) = eat_word(BoogieWord::Procedure, rest) {
        let (next, after) = procedure(alloc, &names, after)?;
        names.add(next.name.copy()?)?;
        all = pushed(all, next)?;
        rest = after;
    }
    Ok((all, rest))
}
