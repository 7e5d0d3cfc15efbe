// Procedures.
ghost use Rattle.std.specs.Prelude.{◌≡◌, ◌<◌, ◌≤◌, [], length, false, ℕ, List, IfOk};
ghost use Rattle.boogie_tree.specs.Program as p;
ghost use Rattle.boogie_tree.specs.Whole.{locals_of};
ghost use Rattle.boogie_grammar.specs.Words.{is_among};
ghost use Rattle.boogie_loops.specs.View.{wproc_of};
ghost use Rattle.boogie_loops_grammar.specs.Grammar as g;
ghost use Rattle.boogie_loops_text.specs.Greedy.{Parses};
ghost use Rattle.boogie_loops_text.specs.Heads.{AreNames};
ghost use Rattle.boogie_loops_text.specs.Procedures.{contents_of};
ghost use Rattle.boogie_loops_text.specs.View.{all_wprocs_of};

use crate::bound::{Clauses, read_clauses};
use crate::heads::{read_head, vars};
use crate::reserved::{Reserved, Within, new_name};
use crate::stmts::statements;
use boogie_grammar::eating::{BoogieRead, eat_sign, eat_word, need_sign};
use boogie_grammar::scopes::BoogieNames;
use boogie_grammar::{BSign, BoogieWord, PlacedLexeme, key_of};
use boogie_loops::{WProc, WStmt};
use boogie_tree::Local;
use std::alloc::Global;
use vb_base::pushed;

/// What follows the head of a procedure.
#[derive(Drop)]
struct Contents {
    /// The parameters, the returns and the further locals.
    locals: Vec<Local>,
    contract: Clauses,
    body: Option<Vec<WStmt>>,
}

/// `";" { clause }`, or clauses and `"{" { "var" name ":" btype ";" } { wstmt } "}"`, where these are the parameters and returns.
fn read_contents<'a>(
    alloc: Global,
    names: &mut BoogieNames,
    words: &Reserved,
    head: Vec<Local>,
    tokens: &'a [PlacedLexeme],
) -> BoogieRead<'a, Contents>
    requires { AreNames names.now (locals_of head.items) }
    ensures shorter { IfOk result (λ r. length r.1.now ≤ length tokens.now) }
    ensures reads { (x : List ℕ) (params : List p.Local) → Parses (contents_of x params (locals_of head.items)) (g.rest_of x params (locals_of head.items)) tokens.now result }
{
    let mut bound = Vec::new(alloc);
    if let Some(rest) = eat_sign(BSign::Semicolon, tokens) {
        let within = Within {
            alloc,
            locals: names,
            words,
        };
        let (contract, rest) = read_clauses(within, &mut bound, rest)?;
        return Ok((
            Contents {
                locals: head,
                contract,
                body: None,
            },
            rest,
        ));
    }
    let within = Within {
        alloc,
        locals: names,
        words,
    };
    let (contract, rest) = read_clauses(within, &mut bound, tokens)?;
    let (_, rest) = need_sign(BSign::OpenBrace, rest)?;
    let (locals, rest) = vars(alloc, names, words, &bound, head, rest)?;
    let within = Within {
        alloc,
        locals: names,
        words,
    };
    let (body, rest) = statements(within, rest)?;
    Ok((
        Contents {
            locals,
            contract,
            body: Some(body),
        },
        rest,
    ))
}

/// A procedure after its word, whose name is none of these.
fn procedure<'a>(
    alloc: Global,
    taken: &BoogieNames,
    words: &Reserved,
    tokens: &'a [PlacedLexeme],
) -> BoogieRead<'a, WProc>
    ensures shorter { IfOk result (λ r. length r.1.now < length tokens.now) }
    ensures new { IfOk result (λ r. is_among r.0.name taken.now ≡ false) }
    ensures reads { Parses wproc_of (g.rule (g.Procedure taken.now)) tokens.now result }
{
    let (name, rest) = new_name(alloc, taken, words, tokens)?;
    let mut names = BoogieNames::new(alloc, taken.key());
    let (front, rest) = read_head(alloc, &mut names, words, rest)?;
    let (whole, rest) = read_contents(alloc, &mut names, words, front.locals, rest)?;
    Ok((
        WProc {
            name,
            params: front.params,
            returns: front.returns,
            locals: whole.locals,
            preconditions: whole.contract.preconditions,
            postconditions: whole.contract.postconditions,
            body: whole.body,
        },
        rest,
    ))
}

/// The procedures of a program, whose names differ, and the tokens after them.
pub(crate) fn procedures<'a>(
    alloc: Global,
    tokens: &'a [PlacedLexeme],
) -> BoogieRead<'a, Vec<WProc>>
    ensures reads { Parses all_wprocs_of (g.rule (g.Programs [])) tokens.now result }
{
    let mut names = BoogieNames::new(alloc, key_of(tokens));
    let words = Reserved::new(alloc, &names)?;
    let mut all = Vec::new(alloc);
    let mut rest = tokens;
    while let Some(after) = eat_word(BoogieWord::Procedure, rest) {
        let (next, after) = procedure(alloc, &names, &words, after)?;
        names.add(next.name.copy()?)?;
        all = pushed(all, next)?;
        rest = after;
    }
    Ok((all, rest))
}
