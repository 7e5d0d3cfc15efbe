// A procedure that is read part by part: its locals.
ghost use Rattle.std.specs.Prelude.{IfOk, IfSome};
ghost use Rattle.boogie_tree.specs.Whole.{proc_of};
ghost use Rattle.tool_procedure.specs.Parts.{Begins};

use boogie_grammar::PlacedLexeme;
use boogie_grammar::scopes::BoogieNames;
use boogie_run::have_keys;
use boogie_text::next_local;
use boogie_tree::Proc;
use std::alloc::Global;
use symbol_table::NameKey;
use vb_base::{Ident, Memory, pushed};

/// A procedure of which no statement is read yet.
#[derive(Drop)]
pub(crate) struct Begun<'a> {
    /// Its name and its locals, and no statements.
    pub(crate) proc: Proc,
    /// The names of its locals.
    pub(crate) names: BoogieNames,
    /// The text behind its locals.
    pub(crate) rest: &'a [u8],
}

/// The procedure whose head has this name, and behind whose head this text stands, if the types of its locals are types. Their
/// names are hashed by this key.
pub(crate) fn begun_of<'a>(
    alloc: Global,
    key: NameKey,
    name: Ident,
    text: &'a [u8],
    tokens: &mut Vec<PlacedLexeme>,
) -> Result<Option<Begun<'a>>, Memory>
    ensures { IfOk result (λ o. IfSome o (λ f. Begins name text.now (proc_of f.proc) f.names f.rest.now)) }
{
    let mut names = BoogieNames::new(alloc, key);
    let mut locals = Vec::new(alloc);
    let mut rest = text;
    while let Some((local, after)) = next_local(alloc, &names, rest, tokens)? {
        names.add(local.name.copy()?)?;
        locals = pushed(locals, local)?;
        rest = after;
    }
    if !have_keys(&locals) {
        return Ok(None);
    }
    let proc = Proc {
        name,
        locals,
        body: Vec::new(alloc),
    };
    Ok(Some(Begun { proc, names, rest }))
}
