// What names are written.
ghost use Rattle.std.specs.Prelude.{◌≡◌, ◌++◌, [], IfOk, filter};
ghost use Rattle.boogie_tree.specs.Whole as b;
ghost use Rattle.boogie_grammar.specs.Grammar.{local_names};
ghost use Rattle.boogie_grammar.specs.Printed as text;
ghost use Rattle.boogie_grammar.specs.Words.{is_among};

use boogie_tree::{BBase, Local};
use std::alloc::Global;
use vb_base::{Ident, Memory};

/// What names are written.
#[derive(Clone, Copy)]
pub struct Naming<'a> {
    /// The first locals of the procedure.
    pub locals: &'a [Local],
    /// How many temporaries stand behind these. The name of each is `t$` and its number among all locals.
    pub temporaries: usize,
    /// The names of those that a bound variable might have.
    pub taken: &'a [Ident],
    /// What the `forall` around binds.
    pub bound: &'a [Ident],
}

/// The names of the locals that a bound variable might have.
pub fn taken_names(alloc: Global, locals: &[Local]) -> Result<Vec<Ident>, Memory>
    ensures { IfOk result (λ names. names.items ≡ filter text.is_q (local_names (b.locals_of locals.now))) }
{
    let mut names = Vec::new(alloc);
    for local in locals {
        if begins_with_q(&local.name) {
            names.push(local.name.copy()?)?;
        }
    }
    Ok(names)
}

fn begins_with_q(name: &Ident) -> bool
    ensures { result ≡ text.is_q name.now }
{
    match name.bytes().first() {
        Some(byte) => *byte == b'q',
        None => false,
    }
}

/// A name for each of these types.
pub fn bound_names(alloc: Global, taken: &[Ident], types: &[BBase]) -> Result<Vec<Ident>, Memory>
    ensures { IfOk result (λ names. names.items ≡ text.bound_names taken.now [] types.now) }
{
    let mut chosen = Vec::new(alloc);
    for _ in types {
        let name = free_name(alloc, taken, &chosen)?;
        chosen.push(name)?;
    }
    Ok(chosen)
}

/// The first name of a bound variable that is none of these.
fn free_name(alloc: Global, taken: &[Ident], chosen: &[Ident]) -> Result<Ident, Memory>
    ensures { IfOk result (λ name. name ≡ text.free_name (taken.now ++ chosen.now)) }
{
    let limit = taken.len() + chosen.len();
    for n in 0..limit {
        let name = bound_name(alloc, n)?;
        if !is_either(&name, taken, chosen) {
            return Ok(name);
        }
    }
    bound_name(alloc, limit)
}

/// `q` and a number.
fn bound_name(alloc: Global, n: usize) -> Result<Ident, Memory>
    ensures { IfOk result (λ name. name ≡ text.bound_name n) }
{
    let digits = format!(in alloc; "{n}")?;
    Ident::joined(alloc, b"q", digits.as_bytes())
}

/// Whether a name is among either of these.
fn is_either(name: &Ident, taken: &[Ident], chosen: &[Ident]) -> bool
    ensures { result ≡ is_among name.now (taken.now ++ chosen.now) }
{
    is_among(name, taken) || is_among(name, chosen)
}

fn is_among(name: &Ident, names: &[Ident]) -> bool
    ensures { result ≡ is_among name.now names.now }
{
    names.iter().any(|other| name == other)
}
