// Where a run stands, and what stays the same while a method runs.
ghost use Rattle.std.specs.Prelude.{◌≡◌, slice_set};
ghost use Rattle.viper_state.specs.View.{state_of};
ghost use Rattle.viper_meaning.specs.Statements as m;
ghost use Rattle.viper_eval.specs.View.{lent};

use vb_base::Pos;
use vb_value::{Ty, Value};
use viper_core::Program;
use viper_eval::SceneRef;
use viper_state::State;

/// The values of the variables.
#[derive(Drop)]
pub struct Store {
    pub values: Vec<Value>,
}

impl Store {
    /// Gives a variable a value.
    pub fn set(&mut self, variable: u32, value: Value)
        ensures { self.new.values.items ≡ slice_set self.old.values.items variable value }
    {
        if let Some(slot) = self.values.get_mut(variable as usize) {
            *slot = value;
        }
    }

    /// Gives variables these values, in their order.
    pub fn set_all(&mut self, variables: &[u32], values: &[Value])
        ensures { self.new.values.items ≡ m.stored self.old.values.items variables.now values.now }
    {
        for i in 0..variables.len().min(values.len()) {
            self.set(variables[i], values[i]);
        }
    }
}

/// The values of the variables, and the state.
#[derive(Drop)]
pub struct Configuration {
    pub store: Store,
    pub state: State,
}

/// The program, the types of the method's variables, and its old state.
#[derive(Clone, Copy)]
pub struct Activation<'a> {
    pub program: &'a Program,
    pub vars: &'a [Ty],
    pub old: &'a State,
}

impl<'a> Activation<'a> {
    /// The scene of the step at this place.
    pub fn scene(self, store: &'a Store, at: Pos) -> SceneRef<'a>
        ensures { lent result ≡ record { store = store.entry.now.values.items; old = state_of self.entry.old.now; at = at } }
    {
        SceneRef {
            store: &store.values,
            old: self.old,
            at,
        }
    }
}
