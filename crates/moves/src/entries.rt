// The entries of heaps and contents as those of maps of Boogie.
ghost use Rattle.std.specs.Prelude.{◌≡◌, map, IfOk};
ghost use Rattle.viper_state.specs.View.{contents_of};
ghost use Rattle.boogie_tree.specs.Value as b;
ghost use Rattle.boogie_tree.specs.Whole.{entry_of, scalar_of};
ghost use Rattle.moves.specs.Maps as k;
ghost use Rattle.moves.specs.Moves as m;
ghost use Rattle.moves.specs.Scalars as s;

use boogie_tree::{BScalar, Entry};
use sparse::Sparse;
use std::alloc::Global;
use vb_base::Memory;
use vb_value::{Content, Key, KeyPart, Value};

/// A value as one of Boogie, where a fraction is a real.
pub fn scalar(value: Value) -> BScalar
    ensures { scalar_of result ≡ s.scalar value }
{
    match value {
        Value::Int(number) => BScalar::Int(number),
        Value::Bool(truth) => BScalar::Bool(truth),
        Value::Ref(reference) => BScalar::Ref(reference),
        Value::Perm(fraction) => BScalar::Real(fraction),
    }
}

/// A reference as a key of a heap.
pub fn place_key(reference: u64) -> Key
    ensures { result ≡ k.place_key reference }
{
    Key::of_one(KeyPart::Ref(reference))
}

/// The arguments of an instance as a key of contents: 0 where there are none.
pub fn instance_key(arguments: &Key) -> Result<Key, Memory>
    ensures { IfOk result (λ key. key ≡ k.instance_key arguments.now) }
{
    if arguments.parts().is_empty() {
        return Ok(Key::of_one(KeyPart::Int(0)));
    }
    Ok(arguments.clone()?)
}

/// The values of a heap other than its default.
pub(crate) fn heap_entries(alloc: Global, heap: &Sparse<u64, Value>) -> Result<Vec<Entry>, Memory>
    ensures { IfOk result (λ entries. b.Entries (map entry_of entries.items) ≡ m.heap_choice heap.now) }
{
    let mut entries = Vec::with_capacity(alloc, heap.len())?;
    for i in 0..heap.len() {
        let reference = *heap.key_at(i);
        entries.push(Entry {
            key: place_key(reference),
            value: scalar(*heap.get(&reference)),
        })?;
    }
    Ok(entries)
}

/// The contents of instances other than the default.
pub(crate) fn content_entries(
    alloc: Global,
    contents: &Sparse<Key, Content>,
) -> Result<Vec<Entry>, Memory>
    ensures { IfOk result (λ entries. b.Entries (map entry_of entries.items) ≡ m.content_choice (contents_of contents.now)) }
{
    let mut entries = Vec::with_capacity(alloc, contents.len())?;
    for i in 0..contents.len() {
        let arguments = contents.key_at(i);
        entries.push(Entry {
            key: instance_key(arguments)?,
            value: BScalar::Snap(contents.get(arguments).clone()?),
        })?;
    }
    Ok(entries)
}
