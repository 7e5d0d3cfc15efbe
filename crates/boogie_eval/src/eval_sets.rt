// Sets of keys.
ghost use Rattle.std.specs.Prelude.{◌≡◌, ◌∷◌, IfOk, OnOk};
ghost use Rattle.sparse.specs.Map.{borrowed, keys};
ghost use Rattle.boogie_tree.specs.Value as v;
ghost use Rattle.boogie_meaning.specs.Decided as d;
ghost use Rattle.boogie_eval.specs.Searched.{IsSet};

use sparse::Sparse;
use std::alloc::Global;
use vb_base::Memory;
use vb_value::Key;

/// A set of keys: the map is true at each of them, and false elsewhere.
pub(crate) type KeySet = Sparse<Key, bool>;

/// Whether a key is in the set.
pub(crate) fn has(set: &KeySet, key: &Key) -> bool
    requires { IsSet set.now }
    ensures { result ≡ d.is_listed (keys set.now) key.now }
{
    *set.get(key)
}

/// Adds a key.
fn add(set: &mut KeySet, key: &Key) -> Result<(), Memory>
    requires { IsSet set.old }
    ensures stays { OnOk result (IsSet set.new) }
    ensures added { OnOk result ((k : v.Key) → d.is_listed (keys set.new) k ≡ d.is_listed (key.now ∷ keys set.old) k) }
{
    set.set(key.clone()?, true)
}

/// The set of these keys.
pub(crate) fn set_of(alloc: Global, list: &[&Key]) -> Result<KeySet, Memory>
    ensures is_set { IfOk result IsSet }
    ensures same { IfOk result (λ set. (k : v.Key) → d.is_listed (keys set) k ≡ d.is_listed (borrowed list.now) k) }
{
    let mut set = Sparse::make(alloc, false)?;
    for key in list {
        add(&mut set, key)?;
    }
    Ok(set)
}
