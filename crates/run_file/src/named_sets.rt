// What lines have named.
ghost use Rattle.std.specs.Prelude.{◌≡◌, [], IfOk, OnOk, get_or, map, not};
ghost use Rattle.std.specs.BTreeSet.{insert_key};
ghost use Rattle.run_file_words.specs.Machine.{among};
ghost use Rattle.run_file.specs.NamedOrder.{named_cmp};
ghost use Rattle.run_file.specs.NamedView.{named_of, keys_of, with_key};

use crate::lines::LineTarget;
use sorted_set::Rising;
use std::alloc::Global;
use vb_base::Memory;
use vb_value::Key;

/// What the lines that fill the same heap and contents have named. The places of a field, and the instances of a predicate, are
/// a set of their own, since a run may name those of several in turn, ascending in each.
#[derive(Drop)]
pub(crate) struct NamedSets {
    variables: Rising<usize>,
    /// Of each field the references, up to the last field of which there are some.
    places: Vec<Rising<u64>>,
    /// Of each predicate the keys, likewise.
    instances: Vec<Rising<Key>>,
}

impl NamedSets {
    /// Nothing was named.
    pub(crate) fn nothing(alloc: Global) -> NamedSets
        ensures { named_of result ≡ [] }
    {
        NamedSets {
            variables: Rising::new(alloc),
            places: Vec::new(alloc),
            instances: Vec::new(alloc),
        }
    }

    /// Adds a name, and tells whether it is new.
    pub(crate) fn insert(&mut self, alloc: Global, named: LineTarget) -> Result<bool, Memory>
        ensures added { IfOk result (λ added. added ≡ not (among named_cmp (named_of self.old) named)) }
        ensures names { OnOk result (named_of self.new ≡ insert_key named_cmp (named_of self.old) named) }
    {
        match named {
            LineTarget::Variable(number) => Ok(self.variables.insert(number)?),
            LineTarget::Place(field, reference) => insert_at(
                alloc,
                &mut self.places,
                field,
                reference,
            ),
            LineTarget::Instance(predicate, key) => insert_at(
                alloc,
                &mut self.instances,
                predicate,
                key,
            ),
        }
    }

    /// Forgets all names.
    pub(crate) fn clear(&mut self)
        ensures { named_of self.new ≡ [] }
    {
        self.variables.clear();
        self.places.clear();
        self.instances.clear();
    }
}

/// Adds a key to the set of this number, and tells whether it is new there. Sets that are not there yet are empty.
fn insert_at<K: Ord + Drop>(
    alloc: Global,
    sets: &mut Vec<Rising<K>>,
    number: usize,
    key: K,
) -> Result<bool, Memory>
    ensures added { IfOk result (λ added. added ≡ not (among K.cmp (get_or (map keys_of sets.old.items) number []) key)) }
    ensures keys { OnOk result (map keys_of sets.new.items ≡ with_key K.cmp (map keys_of sets.old.items) number key) }
{
    while sets.len() <= number {
        sets.push(Rising::new(alloc))?;
    }
    Ok(sets[number].insert(key)?)
}
