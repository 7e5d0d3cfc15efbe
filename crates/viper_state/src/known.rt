// What a state knows of itself, so that a step need not go through all of it.
ghost use Rattle.std.specs.Prelude.{◌≡◌, ◌≤◌};
ghost use Rattle.viper_state.specs.Greatest as s;

use vb_value::{Key, Value};

/// Where values may stand although nothing is held: all such places are among these. And how great the references are that
/// stand in heaps as values.
#[derive(Drop)]
pub struct Known {
    /// For each field some references, in whatever order. Where the list is missing, nothing is known of the field.
    pub references: Vec<Vec<u64>>,
    /// For each predicate some keys of instances, likewise.
    pub keys: Vec<Vec<Key>>,
    /// No value of a heap is a greater reference.
    pub greatest: u64,
}

/// The reference that a value is, and 0 of any other value.
fn reference_in(value: &Value) -> u64
    ensures { result ≡ s.reference_in value.now }
{
    match value {
        Value::Ref(reference) => *reference,
        _ => 0,
    }
}

/// Raises a number to the reference that a value is, if that is greater.
pub(crate) fn raise(greatest: &mut u64, value: &Value)
    ensures within { s.IsAtMost greatest.new value.now }
    ensures least { greatest.old ≤ greatest.new }
{
    *greatest = (*greatest).max(reference_in(value));
}
