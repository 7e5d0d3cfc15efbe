// What an expression is read in besides the state, as a reading borrows it.
ghost use Rattle.std.specs.Prelude.{◌≡◌};
ghost use Rattle.viper_state.specs.Run.{with_variables};
ghost use Rattle.viper_state.specs.View.{scene_of};
ghost use Rattle.viper_eval.specs.View.{lent};

use vb_base::Pos;
use vb_value::Value;
use viper_state::{Scene, State};

/// The parts of a scene, which are borrowed: other variables can take their place without a copy of the old state.
#[derive(Clone, Copy)]
pub struct SceneRef<'a> {
    /// The values of the variables.
    pub store: &'a [Value],
    /// The old state.
    pub old: &'a State,
    /// The place of the step that is running.
    pub at: Pos,
}

impl<'a> SceneRef<'a> {
    /// The parts of a scene.
    pub fn of(scene: &'a Scene) -> SceneRef<'a>
        ensures { lent result ≡ scene_of scene.entry.now }
    {
        SceneRef {
            store: &scene.store,
            old: &scene.old,
            at: scene.at,
        }
    }

    /// The same with these values of other variables.
    pub fn with_variables(self, store: &'a [Value]) -> SceneRef<'a>
        ensures { lent result ≡ with_variables store.entry.now (lent self.entry) }
    {
        SceneRef { store, ..self }
    }
}
