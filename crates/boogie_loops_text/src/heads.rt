// The parameters, returns and further locals of a procedure.
ghost use Rattle.std.specs.Prelude.{◌≡◌, ◌<◌, ◌≤◌, ◌++◌, ◌∷◌, [], ℕ, List, length, IfOk, OnOk};
ghost use Rattle.boogie_tree.specs.Whole.{locals_of};
ghost use Rattle.boogie_grammar.specs.ReadView.{all_locals_of};
ghost use Rattle.boogie_grammar.specs.Words.{is_among};
ghost use Rattle.boogie_loops_grammar.specs.Grammar as g;
ghost use Rattle.boogie_loops_text.specs.Greedy.{Parses};
ghost use Rattle.boogie_loops_text.specs.Heads.{AreNames, ReadsHead};

use crate::reserved::{Reserved, new_name, newer_name};
use crate::words::{WideWord, eat_wide};
use boogie_grammar::eating::{BoogieRead, eat_sign, eat_word, need_base, need_sign};
use boogie_grammar::scopes::BoogieNames;
use boogie_grammar::{BSign, BoogieWord, PlacedLexeme};
use boogie_text::type_of;
use boogie_tree::{BType, Local};
use std::alloc::Global;
use vb_base::{Ident, Memory, pushed};

/// The parameters and returns of a procedure, of which there are so many, in one list.
#[derive(Drop)]
pub(crate) struct ProcedureHead {
    pub(crate) params: usize,
    pub(crate) returns: usize,
    pub(crate) locals: Vec<Local>,
}

/// One name more, unless it is there.
fn add_once(all: &mut BoogieNames, name: &Ident) -> Result<(), Memory>
    ensures { OnOk result ((x : List ℕ) → is_among x all.new ≡ is_among x (all.old ++ (name.now ∷ []))) }
{
    if all.has(name) {
        return Ok(());
    }
    all.add(name.copy()?)?;
    Ok(())
}

/// These names as a table, hashed as others. A name may stand twice among them.
fn table(alloc: Global, names: &[Ident], others: &BoogieNames) -> Result<BoogieNames, Memory>
    ensures { IfOk result (λ all. (x : List ℕ) → is_among x all ≡ is_among x names.now) }
{
    let mut all = BoogieNames::new(alloc, others.key());
    let mut left = names;
    while let Some((first, rest)) = left.split_first() {
        add_once(&mut all, first)?;
        left = rest;
    }
    Ok(all)
}

/// `name ":" base { "," name ":" base } ")"` behind these locals. Their names come into the table.
fn more_params<'a>(
    alloc: Global,
    names: &mut BoogieNames,
    words: &Reserved,
    before: Vec<Local>,
    tokens: &'a [PlacedLexeme],
) -> BoogieRead<'a, Vec<Local>>
    requires { AreNames names.now (locals_of before.items) }
    ensures shorter { IfOk result (λ r. length r.1.now < length tokens.now) }
    ensures longer { IfOk result (λ r. length before.items ≤ length r.0.items) }
    ensures names { IfOk result (λ r. AreNames names.new (locals_of r.0.items)) }
    ensures reads { Parses all_locals_of (g.rule (g.Params (locals_of before.items))) tokens.now result }
{
    let mut all = before;
    let mut rest = tokens;
    loop {
        let (name, after) = new_name(alloc, names, words, rest)?;
        let (_, after) = need_sign(BSign::Colon, after)?;
        let (base, after) = need_base(after)?;
        names.add(name.copy()?)?;
        let keys = Vec::new(alloc);
        let ty = BType { keys, base };
        all = pushed(all, Local { name, ty })?;
        let Some(more) = eat_sign(BSign::Comma, after) else {
            let (_, end) = need_sign(BSign::CloseParen, after)?;
            return Ok((all, end));
        };
        rest = more;
    }
}

/// `[ params ] ")"`. Their names come into the empty table.
fn parameters<'a>(
    alloc: Global,
    names: &mut BoogieNames,
    words: &Reserved,
    tokens: &'a [PlacedLexeme],
) -> BoogieRead<'a, Vec<Local>>
    requires { names.now ≡ [] }
    ensures shorter { IfOk result (λ r. length r.1.now < length tokens.now) }
    ensures names { IfOk result (λ r. AreNames names.new (locals_of r.0.items)) }
    ensures reads { Parses all_locals_of (g.rule g.Parameters) tokens.now result }
{
    let none = Vec::new(alloc);
    if let Some(rest) = eat_sign(BSign::CloseParen, tokens) {
        return Ok((none, rest));
    }
    more_params(alloc, names, words, none, tokens)
}

/// `"(" [ params ] ")" [ "returns" "(" params ")" ]`. Their names come into the empty table.
pub(crate) fn read_head<'a>(
    alloc: Global,
    names: &mut BoogieNames,
    words: &Reserved,
    tokens: &'a [PlacedLexeme],
) -> BoogieRead<'a, ProcedureHead>
    requires { names.now ≡ [] }
    ensures shorter { IfOk result (λ r. length r.1.now < length tokens.now) }
    ensures names { IfOk result (λ r. AreNames names.new (locals_of r.0.locals.items)) }
    ensures reads { ReadsHead tokens.now result }
{
    let (_, rest) = need_sign(BSign::OpenParen, tokens)?;
    let (locals, rest) = parameters(alloc, names, words, rest)?;
    let params = locals.len();
    let Some(after) = eat_wide(WideWord::Returns, rest) else {
        return Ok((
            ProcedureHead {
                params,
                returns: 0,
                locals,
            },
            rest,
        ));
    };
    let (_, after) = need_sign(BSign::OpenParen, after)?;
    let (all, rest) = more_params(alloc, names, words, locals, after)?;
    Ok((
        ProcedureHead {
            params,
            returns: all.len() - params,
            locals: all,
        },
        rest,
    ))
}

/// `{ "var" name ":" btype ";" }` behind these locals, where no name is one of those that the clauses bind. Their names
/// come into the table.
pub(crate) fn vars<'a>(
    alloc: Global,
    names: &mut BoogieNames,
    words: &Reserved,
    bound: &[Ident],
    before: Vec<Local>,
    tokens: &'a [PlacedLexeme],
) -> BoogieRead<'a, Vec<Local>>
    requires { AreNames names.now (locals_of before.items) }
    ensures shorter { IfOk result (λ r. length r.1.now ≤ length tokens.now) }
    ensures names { IfOk result (λ r. AreNames names.new (locals_of r.0.items)) }
    ensures reads { Parses all_locals_of (g.rule (g.Vars bound.now (locals_of before.items))) tokens.now result }
{
    let others = table(alloc, bound, names)?;
    let mut all = before;
    let mut rest = tokens;
    while let Some(after) = eat_word(BoogieWord::Var, rest) {
        let (name, after) = newer_name(names, &others, words, after)?;
        let (_, after) = need_sign(BSign::Colon, after)?;
        let (ty, after) = type_of(alloc, after)?;
        let (_, after) = need_sign(BSign::Semicolon, after)?;
        names.add(name.copy()?)?;
        all = pushed(all, Local { name, ty })?;
        rest = after;
    }
    Ok((all, rest))
}
