// Runs.
ghost use Rattle.std.specs.Prelude.{◌≡◌, ◌+◌, OnOk, vec_len};
ghost use Rattle.run_file.specs.Progress.{has_room};

use vb_base::Memory;
use viper_state::{Choice, Opening};

/// Where a run of a unit begins, and the choices that it takes.
#[derive(Drop)]
pub struct ViperRun {
    pub opening: Opening,
    pub choices: Vec<Choice>,
}

/// The prefix of a run: the first of its choices, and how many more there are.
#[derive(Drop)]
pub struct ViperFront {
    pub run: ViperRun,
    pub more: usize,
}

impl ViperFront {
    /// Whether the next choice is within the prefix of so many.
    pub(crate) fn has_room(&self, many: usize) -> bool
        ensures { result ≡ has_room many self.now.more (vec_len self.now.run.choices) }
    {
        self.more == 0 && self.run.choices.len() < many
    }

    /// Counts a choice behind the prefix. `Memory` where it is too far behind to be counted.
    pub(crate) fn count(&mut self) -> Result<(), Memory>
        ensures { OnOk result (self.new ≡ record { run = self.old.run; more = self.old.more + 1 }) }
    {
        match self.more.checked_add(1) {
            Some(more) => {
                self.more = more;
                Ok(())
            }
            None => Err(Memory),
        }
    }
}
