// Procedures by their names.
ghost use Rattle.std.specs.Prelude.{◌≡◌, map, IfOk};
ghost use Rattle.std.specs.Option.{option_map, ForSome};
ghost use Rattle.std.specs.Str.{bytes_eq};
ghost use Rattle.boogie_loops.specs.Numbers.{HaveNumbers, first_named};
ghost use Rattle.boogie_loops.specs.Procedures.{proc_named};
ghost use Rattle.boogie_loops.specs.View.{wproc_of};

use crate::wide::WProc;
use indexmap::IndexMap;
use std::alloc::Global;
use symbol_table::{Digest, NameKey};
use vb_base::{Ident, Memory};

/// The procedures of a program, each found by its name.
#[derive(Drop)]
pub struct Procs<'a> {
    pub all: &'a [WProc],
    /// The number of the first one of each name. Where there is no table, a name is searched for.
    numbers: Option<IndexMap<Ident, usize, NameKey>>,
    ghost have_numbers: { ForSome numbers (λ table. HaveNumbers table.entries all.now) },
}

impl<'a> Procs<'a> {
    /// These procedures, with a table. `Memory` where there is no memory for it.
    pub fn of(alloc: Global, all: &'a [WProc]) -> Result<Procs<'a>, Memory>
        ensures { IfOk result (λ procs. procs.all.now ≡ all.now) }
    {
        let numbers = Some(numbers_of(alloc, all)?);
        Ok(Procs { all, numbers })
    }

    /// These procedures, without a table, which takes no memory.
    pub fn without_table(all: &'a [WProc]) -> Procs<'a>
        ensures { result.all.now ≡ all.now }
    {
        Procs { all, numbers: None }
    }

    /// The first procedure of this name.
    pub fn named(&self, name: &Ident) -> Option<&WProc>
        ensures { option_map (λ d. wproc_of d.now) result ≡ proc_named (map wproc_of self.now.all.now) name.now }
    {
        match &self.numbers {
            Some(table) => numbered(table, self.all, name),
            None => searched(self.all, name),
        }
    }
}

/// A key that comes of the names of all these.
fn key_of(all: &[WProc]) -> NameKey {
    let mut digest = Digest::new();
    for proc in all {
        digest.add(proc.name.bytes());
    }
    digest.key()
}

/// The number of the first procedure of each name.
fn numbers_of(alloc: Global, all: &[WProc]) -> Result<IndexMap<Ident, usize, NameKey>, Memory>
    ensures { IfOk result (λ table. HaveNumbers table.entries all.now) }
{
    let mut numbers = IndexMap::with_hasher(alloc, key_of(all));
    // The last one first, so that the first one of a name stays.
    for later in 0..all.len() {
        let number = all.len() - 1 - later;
        numbers.insert(all[number].name.copy()?, number)?;
    }
    Ok(numbers)
}

fn numbered<'a>(
    table: &IndexMap<Ident, usize, NameKey>,
    all: &'a [WProc],
    name: &Ident,
) -> Option<&'a WProc>
    requires { HaveNumbers table.now.entries all.now }
    ensures { option_map (λ d. d.now) result ≡ first_named all.now name.now }
{
    let number = table.get(name)?;
    all.get(*number)
}

fn is_named(proc: &WProc, name: &Ident) -> bool
    ensures { result ≡ bytes_eq (wproc_of proc.now).name name.now }
{
    proc.name.bytes() == name.bytes()
}

fn searched<'a>(all: &'a [WProc], name: &Ident) -> Option<&'a WProc>
    ensures { option_map (λ d. d.now) result ≡ first_named all.now name.now }
{
    all.iter().find(|proc| is_named(proc, name))
}
