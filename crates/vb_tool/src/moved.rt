// The run of Boogie that a run of a unit turns into.
ghost use Rattle.std.specs.Prelude.{◌≡◌, All, IfOk, map};
ghost use Rattle.viper_core.specs.View.{program_of};
ghost use Rattle.viper_meaning.specs.Units.{Opens};
ghost use Rattle.viper_state.specs.View.{event_of, opening_of};
ghost use Rattle.moves.specs.Moves.{moves};
ghost use Rattle.moves.specs.Printable.{IsNamedMove};
ghost use Rattle.enc_locals.specs.Opened.{start_settings, IsNamedSetting};
ghost use Rattle.vb_tool.specs.Moved.{moved_text};

use enc_locals::{front_procedure, start_env};
use run_file::print_moved_run;
use std::alloc::Global;
use vb_base::Memory;
use viper_core::{Program, Unit};
use viper_state::{Event, Opening};

/// The text of the run of Boogie that a run of a unit turns into, which began with this opening and recorded these events.
pub fn moved_text(
    alloc: Global,
    program: &Program,
    number: u32,
    unit: Unit,
    opening: &Opening,
    events: &Vec<Event>,
) -> Result<Vec<u8>, Memory>
    requires { Opens (program_of program.now) number (opening_of opening.now) }
    ensures text { IfOk result (λ text. text.items ≡ moved_text (program_of program.now) unit (opening_of opening.now) (map event_of events.now.items)) }

    // each reference of the code is below 2^64
    ensures moves { IfOk result (λ text. All IsNamedMove (moves (map event_of events.now.items))) }
    ensures settings { IfOk result (λ text. All IsNamedSetting (start_settings (opening_of opening.now))) }
{
    let procedure = front_procedure(alloc, program, unit)?;
    let settings = start_env(alloc, program, number, opening)?;
    print_moved_run(alloc, &procedure, &settings, events)
}
