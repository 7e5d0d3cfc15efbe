// How many choices of a run file are built.
ghost use Rattle.std.specs.Prelude.{◌≤◌, ◌<◌, IfOk};

use vb_base::Memory;
use viper_core::Program;

/// The choices of the first prefix have about so many maps.
const FRONT_MAPS: usize = 262_144;

/// A prefix has at least so many choices, if the file has them.
const LEAST_FRONT: usize = 64;

/// How many choices are built at first.
pub fn first_front(program: &Program) -> usize
    ensures { 1 ≤ result }
{
    let maps = program
        .fields
        .len()
        .saturating_add(program.predicates.len());
    (FRONT_MAPS / maps.saturating_add(1)).max(LEAST_FRONT)
}

/// Twice as many. `Memory` where that is no number of choices.
pub fn twice(many: usize) -> Result<usize, Memory>
    requires { 1 ≤ many }
    ensures { IfOk result (λ more. many < more) }
{
    match many.checked_mul(2) {
        Some(more) => Ok(more),
        None => Err(Memory),
    }
}
