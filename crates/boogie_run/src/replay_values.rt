// The values of variables, and their changes.
#![tactic(auto, using(boogie_eval::specs::Answers::is, boogie_eval::specs::Answers::over, boogie_eval::specs::Answers::wrong, boogie_eval::specs::Answers::no_memory))]

ghost use Rattle.std.specs.Prelude.{◌≡◌, slice_get, slice_set, IfOk, OnOk};
ghost use Rattle.sparse.specs.Map.{set};
ghost use Rattle.vb_value.specs.Key.{key_cmp};
ghost use Rattle.boogie_tree.specs.Value.{same_scalar};
ghost use Rattle.boogie_tree.specs.Whole.{scalar_of, value_of};
ghost use Rattle.boogie_meaning.specs.Ends.{Is, found};
ghost use Rattle.boogie_eval.specs.Answers.{Answers};
ghost use Rattle.boogie_eval.specs.View.{map_of, values_of};
ghost use Rattle.boogie_run.specs.View.{environment_of};

use boogie_eval::Miss;
use boogie_tree::{BScalar, BValue};
use sparse::{Builder, Sparse};
use vb_base::Memory;
use vb_value::Key;

/// The values of the variables.
#[derive(Drop)]
pub(crate) struct Environment {
    pub(crate) values: Vec<BValue>,
}

impl Environment {
    /// Gives a variable a value.
    pub(crate) fn set(&mut self, number: usize, value: BValue)
        ensures { environment_of self.new ≡ slice_set (environment_of self.old) number (value_of value) }
    {
        if let Some(slot) = self.values.get_mut(number) {
            *slot = value;
        }
    }
}

/// An equal map of its own, which shares its entries.
pub(crate) fn copied_map(map: &Sparse<Key, BScalar>) -> Result<Sparse<Key, BScalar>, Memory>
    ensures { IfOk result (λ n. map_of n ≡ map_of map.now) }
{
    map.copy()
}

/// An equal value of its own, which may be a map.
pub(crate) fn copied_value(value: &BValue) -> Result<BValue, Memory>
    ensures { IfOk result (λ w. value_of w ≡ value_of value.now) }
{
    match value {
        BValue::One(value) => Ok(BValue::One(value.clone()?)),
        BValue::Map(map) => Ok(BValue::Map(copied_map(map)?)),
    }
}

fn whole_value(value: &BValue) -> Result<BValue, Miss>
    ensures { Answers value_of (Is (value_of value.now)) result }
{
    Ok(copied_value(value)?)
}

/// The value of a variable, which may be a map.
pub(crate) fn whole(env: &[BValue], number: usize) -> Result<BValue, Miss>
    ensures { Answers value_of (found (slice_get (values_of env.now) number)) result }
{
    match env.get(number) {
        Some(value) => whole_value(value),
        None => Err(Miss::Wrong),
    }
}

/// Gives a map a value at a key.
pub(crate) fn set_at(map: &mut Sparse<Key, BScalar>, key: Key, value: BScalar) -> Result<(), Memory>
    ensures { OnOk result (map_of map.new ≡ set key_cmp same_scalar (map_of map.old) key (scalar_of value)) }
{
    map.set(key, value)
}

/// The same of a map that is being filled.
pub(crate) fn fill_at(
    map: &mut Builder<Key, BScalar>,
    key: Key,
    value: BScalar,
) -> Result<(), Memory>
    ensures { OnOk result (map_of map.new ≡ set key_cmp same_scalar (map_of map.old) key (scalar_of value)) }
{
    map.set(key, value)
}
