// The names of the locals, which a branch changes, and which the other one begins with again.
ghost use Rattle.std.specs.Prelude.{◌≡◌, ◌++◌, ℕ, [], map, slice_set, IfOk, OnOk, Contains};
ghost use Rattle.std.specs.List.Sorted.{IsStrictlyIncreasing};
ghost use Rattle.boogie_wp.specs.Changes.{begun, changed, choice_of, end_of, local_of, Chosen};

use crate::lift::name_of;
use std::alloc::Global;
use std::mem;
use vb_base::Memory;

/// A local, and the name that it had before a change, or that it has behind it.
#[derive(Clone, Copy)]
pub(crate) struct LocalChange {
    pub(crate) local: usize,
    pub(crate) name: usize,
}

/// A local that a branch changes, and the names with which the two branches end.
#[derive(Clone, Copy)]
pub(crate) struct BranchedLocal {
    pub(crate) local: usize,
    pub(crate) first: usize,
    pub(crate) second: usize,
}

/// The names of the locals, and how they were when the branch began.
#[derive(Drop)]
pub(crate) struct LocalVersions {
    /// The name that holds each local's value.
    pub(crate) versions: Vec<usize>,
    /// The changes since the branch began, each with the name before it.
    pub(crate) changes: Vec<LocalChange>,
}

/// Adds the locals of the changes.
fn add_locals(changes: &[LocalChange], locals: &mut Vec<usize>) -> Result<(), Memory>
    ensures { OnOk result (locals.new.items ≡ locals.old.items ++ map local_of changes.now) }
{
    for change in changes {
        locals.push(change.local)?;
    }
    Ok(())
}

/// Puts the numbers in order, each once.
fn sort_unique(numbers: &mut Vec<usize>)
    ensures rises { IsStrictlyIncreasing numbers.new.items }
    ensures keeps { (x : ℕ) → Contains numbers.old.items x → Contains numbers.new.items x }
{
    numbers.sort_unstable();
    numbers.dedup();
}

/// The locals of both, in ascending order, each once.
fn locals_of(
    alloc: Global,
    first: &[LocalChange],
    second: &[LocalChange],
) -> Result<Vec<usize>, Memory>
    ensures rises { IfOk result (λ locals. IsStrictlyIncreasing locals.items) }
    ensures keeps { (x : ℕ) → Contains (map local_of first.now ++ map local_of second.now) x → IfOk result (λ locals. Contains locals.items x) }
{
    let mut locals = Vec::with_capacity(alloc, first.len())?;
    add_locals(first, &mut locals)?;
    add_locals(second, &mut locals)?;
    sort_unique(&mut locals);
    Ok(locals)
}

/// Another name holds the value of the local. The one that did is added to `back`.
fn exchange(
    versions: &mut Vec<usize>,
    change: LocalChange,
    back: &mut Vec<LocalChange>,
) -> Result<(), Memory>
    ensures named { OnOk result (versions.new.items ≡ slice_set versions.old.items change.local change.name) }
    ensures back { OnOk result (changed back.new.items versions.new.items ≡ changed back.old.items versions.old.items) }
{
    if let Some(version) = versions.get_mut(change.local) {
        let name = mem::replace(version, change.name);
        back.push(LocalChange {
            local: change.local,
            name,
        })?;
    }
    Ok(())
}

impl LocalVersions {
    /// Another name holds the value of the local.
    pub(crate) fn rename(&mut self, local: usize, name: usize) -> Result<(), Memory>
        ensures named { OnOk result (self.new.versions.items ≡ slice_set self.old.versions.items local name) }
        ensures begun { OnOk result (begun self.new ≡ begun self.old) }
    {
        exchange(
            &mut self.versions,
            LocalChange { local, name },
            &mut self.changes,
        )
    }

    /// The names with which the branch began are back. What is given back are the names with which it ended, the last change first.
    pub(crate) fn undo(&mut self, alloc: Global) -> Result<Vec<LocalChange>, Memory>
        ensures ends { IfOk result (λ ends. changed ends.items (begun self.old) ≡ self.old.versions.items) }
        ensures back { OnOk result (self.new.versions.items ≡ begun self.old) }
        ensures no_change { OnOk result (self.new.changes.items ≡ []) }
    {
        let mut ends = Vec::with_capacity(alloc, self.changes.len())?;
        while let Some(change) = self.changes.pop() {
            exchange(&mut self.versions, change, &mut ends)?;
        }
        Ok(ends)
    }

    /// The names with which a branch ended are there again.
    fn redo(&mut self, mut ends: Vec<LocalChange>) -> Result<(), Memory>
        ensures named { OnOk result (self.new.versions.items ≡ changed ends.items self.old.versions.items) }
        ensures begun { OnOk result (begun self.new ≡ begun self.old) }
    {
        while let Some(end) = ends.pop() {
            self.rename(end.local, end.name)?;
        }
        Ok(())
    }

    /// The names of these locals.
    fn ends(&self, alloc: Global, locals: &[usize]) -> Result<Vec<LocalChange>, Memory>
        ensures { IfOk result (λ ends. ends.items ≡ map (end_of self.now.versions.items) locals.now) }
    {
        let mut ends = Vec::with_capacity(alloc, locals.len())?;
        for local in locals {
            let name = name_of(&self.versions, *local);
            ends.push(LocalChange {
                local: *local,
                name,
            })?;
        }
        Ok(ends)
    }

    /// The names of the locals, each beside that with which the second branch ends.
    fn beside(&self, alloc: Global, seconds: &[LocalChange]) -> Result<Vec<BranchedLocal>, Memory>
        ensures { IfOk result (λ choices. choices.items ≡ map (choice_of self.now.versions.items) seconds.now) }
    {
        let mut choices = Vec::with_capacity(alloc, seconds.len())?;
        for second in seconds {
            let first = name_of(&self.versions, second.local);
            choices.push(BranchedLocal {
                local: second.local,
                first,
                second: second.name,
            })?;
        }
        Ok(choices)
    }

    /// Both branches have ended, the first one with these names. The names with which they began are back. What is given back are the
    /// names with which the two ended, of the locals that one of them changed, in the order of the locals.
    pub(crate) fn choices(
        &mut self,
        alloc: Global,
        first: Vec<LocalChange>,
    ) -> Result<Vec<BranchedLocal>, Memory>
        ensures chosen { IfOk result (λ choices. Chosen (begun self.old) (changed first.items (begun self.old)) self.old.versions.items 0 choices.items) }
        ensures back { OnOk result (self.new.versions.items ≡ begun self.old) }
    {
        let locals = locals_of(alloc, &first, &self.changes)?;
        let seconds = self.ends(alloc, &locals)?;
        self.undo(alloc)?;
        self.redo(first)?;
        let choices = self.beside(alloc, &seconds)?;
        self.undo(alloc)?;
        Ok(choices)
    }
}
