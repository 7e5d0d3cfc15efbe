// Names of further locals.
ghost use Rattle.std.specs.Prelude.{◌≡◌, ◌+◌, ◌++◌, ◌∷◌, [], length, IfOk, OnOk};
ghost use Rattle.boogie_tree.specs.Whole.{local_of, locals_of, type_of};
ghost use Rattle.boogie_cut.specs.Fresh.{free_number, fresh_locals, is_a, is_among, numbered};
ghost use Rattle.boogie_cut.specs.View.{AreNoted, IsNoted, a_names, types_of_all};

use crate::copies::bases;
use crate::pieces::behind;
use boogie_tree::{BType, Local};
use indexmap::IndexSet;
use std::alloc::Global;
use symbol_table::{Digest, NameKey};
use vb_base::{Ident, Memory};

/// Whether a name begins with an `a`, as numbered ones do.
fn is_a(name: &Ident) -> bool
    ensures { result ≡ is_a name.now }
{
    match name.bytes().first() {
        Some(byte) => *byte == b'a',
        None => false,
    }
}

/// A key that comes of the names of all these.
fn key_of(locals: &[Local]) -> NameKey {
    let mut digest = Digest::new();
    for local in locals {
        digest.add(local.name.bytes());
    }
    digest.key()
}

/// Those of the locals' names that begin with an `a`.
#[derive(Drop)]
struct Taken<'a> {
    locals: &'a [Local],
    names: IndexSet<Ident, NameKey>,
    /// How many locals have them.
    many: usize,
    ghost are_noted: { AreNoted names.keys many (a_names locals.now) },
}

/// Notes the name where it begins with an `a`. What is given back is how many were noted.
fn note(name: &Ident, names: &mut IndexSet<Ident, NameKey>) -> Result<usize, Memory>
    ensures { IfOk result (λ n. IsNoted name.now names.old.keys names.new.keys n) }
{
    if !is_a(name) {
        return Ok(0);
    }
    names.insert(name.copy()?)?;
    Ok(1)
}

impl<'a> Taken<'a> {
    /// The names of these locals.
    fn of(alloc: Global, locals: &'a [Local]) -> Result<Taken<'a>, Memory>
        ensures { IfOk result (λ taken. taken.locals.now ≡ locals.now) }
    {
        let mut names = IndexSet::with_hasher(alloc, key_of(locals));
        let mut many = 0;
        for local in locals {
            let new = note(&local.name, &mut names)?;
            many = behind(many, new)?;
        }
        Ok(Taken {
            locals,
            names,
            many,
        })
    }

    fn len(&self) -> usize
        ensures { result ≡ length (a_names self.now.locals.now) }
    {
        self.many
    }

    fn has(&self, name: &Ident) -> bool
        ensures { result ≡ is_among name.now (a_names self.now.locals.now) }
    {
        self.names.contains(name)
    }
}

/// `a` and a number.
fn numbered(alloc: Global, number: usize) -> Result<Ident, Memory>
    ensures { IfOk result (λ name. name ≡ numbered number) }
{
    let digits = format!(in alloc; "{number}")?;
    Ident::joined(alloc, b"a", digits.as_bytes())
}

/// Whether the name of this number is taken.
fn is_taken(alloc: Global, taken: &Taken<'_>, number: usize) -> Result<bool, Memory>
    ensures { IfOk result (λ b. b ≡ is_among (numbered number) (a_names taken.now.locals.now)) }
{
    let name = numbered(alloc, number)?;
    Ok(taken.has(&name))
}

/// The first number from this one on whose name is not taken.
fn free_number(alloc: Global, taken: &Taken<'_>, first: usize) -> Result<usize, Memory>
    ensures { IfOk result (λ n. n ≡ free_number (length (a_names taken.now.locals.now)) first (a_names taken.now.locals.now)) }
{
    let mut number = first;
    for _ in 0..taken.len() {
        if !is_taken(alloc, taken, number)? {
            return Ok(number);
        }
        number = behind(number, 1)?;
    }
    Ok(number)
}

/// One more local, of this type, with the first name from this number on that is not taken. What is given back is the number behind.
fn add_fresh(
    alloc: Global,
    taken: &Taken<'_>,
    first: usize,
    ty: BType,
    locals: &mut Vec<Local>,
) -> Result<usize, Memory>
    ensures next { IfOk result (λ n. n ≡ free_number (length (a_names taken.now.locals.now)) first (a_names taken.now.locals.now) + 1) }
    ensures local { OnOk result (locals_of locals.new.items ≡ locals_of locals.old.items
        ++ record { name = numbered (free_number (length (a_names taken.now.locals.now)) first (a_names taken.now.locals.now)); ty = type_of ty } ∷ []) }
{
    let number = free_number(alloc, taken, first)?;
    let next = behind(number, 1)?;
    let name = numbered(alloc, number)?;
    locals.push(Local { name, ty })?;
    Ok(next)
}

fn copy_local(alloc: Global, local: &Local) -> Result<Local, Memory>
    ensures { IfOk result (λ l. local_of l ≡ local_of local.now) }
{
    let name = local.name.copy()?;
    let keys = bases(alloc, &local.ty.keys)?;
    let base = local.ty.base;
    Ok(Local {
        name,
        ty: BType { keys, base },
    })
}

fn copy_locals(alloc: Global, locals: &[Local]) -> Result<Vec<Local>, Memory>
    ensures { IfOk result (λ ls. locals_of ls.items ≡ locals_of locals.now) }
{
    let mut copies = Vec::with_capacity(alloc, locals.len())?;
    for local in locals {
        copies.push(copy_local(alloc, local)?)?;
    }
    Ok(copies)
}

/// A procedure's own locals, and behind them one of each of these types, under names that are none of theirs.
pub(crate) fn with_fresh(
    alloc: Global,
    own: &[Local],
    types: Vec<BType>,
) -> Result<Vec<Local>, Memory>
    ensures { IfOk result (λ ls. locals_of ls.items ≡ locals_of own.now ++ fresh_locals (a_names own.now) 0 (types_of_all types.items)) }
{
    let taken = Taken::of(alloc, own)?;
    let mut locals = copy_locals(alloc, own)?;
    let mut next = 0;
    for ty in types {
        next = add_fresh(alloc, &taken, next, ty, &mut locals)?;
    }
    Ok(locals)
}
