// What the steps of a unit are written by.
ghost use Rattle.std.specs.Prelude.{◌≡◌, length, IfOk};
ghost use Rattle.viper_core.specs.View.{program_of};
ghost use Rattle.enc_expr.specs.Emits.{emit_of, Emits};
ghost use Rattle.enc_units.specs.Steps.{unit_step};
ghost use Rattle.enc_units.specs.Units as u;
ghost use Rattle.enc_units.specs.View.{bracket_of, coder_of, step_of};
ghost use Rattle.enc_block.specs.View.{home_of};
ghost use Rattle.enc_units.specs.Written.{IsStep};

use crate::stepping::step_code;
use crate::steps::{Bracket, RowStep};
use enc_block::{Home, Setting};
use enc_expr::{Emit, Kinds};
use enc_locals::unit_vars;
use std::alloc::Global;
use vb_base::Memory;
use viper_core::{Program, Unit};

/// A unit of a program, the types of its variables, and the locals that hold them.
#[derive(Clone, Copy)]
pub struct Writer<'a> {
    pub program: &'a Program,
    pub unit: Unit,
    pub setting: Setting<'a>,
}

impl<'a> Writer<'a> {
    /// Writes the code of a step, and tells what stands behind it.
    #[tactic(auto, unfolding(crate::specs::View::coder_of))]
    pub fn code(self, alloc: Global, step: &RowStep<'_>, out: &mut Emit) -> Result<Bracket, Memory>
        requires { IsStep (step_of step.now) }
        ensures { IfOk result (λ b. Emits (coder_of self.entry (step_of step.now) (length (emit_of out.old).locals))
            (emit_of out.old) (emit_of out.new) (bracket_of b)) }
    {
        step_code(alloc, self.program, self.unit, self.setting, step, out)
    }
}

/// That of a unit, over the layout of its locals.
#[tactic(auto, unfolding(crate::specs::View::coder_of))]
pub fn unit_writer<'a>(program: &'a Program, unit: Unit, home: &'a Home) -> Writer<'a>
    requires { home_of home.now ≡ u.home_of (program_of program.now) unit }
    ensures code { coder_of result ≡ unit_step (program_of program.now) unit }
    ensures program { result.program.now ≡ program.now }
    ensures unit { result.unit ≡ unit }
{
    let layout = &program.layout;
    let vars = unit_vars(program, unit);
    let kinds = Kinds { vars, layout };
    let setting = Setting { kinds, home };
    Writer {
        program,
        unit,
        setting,
    }
}
