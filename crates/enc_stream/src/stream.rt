// The text of a program's translation, sent as it is written.
ghost use Rattle.std.specs.Prelude.{◌≡◌, ◌<◌, ◌≤◌, ◌-◌, ◌^◌, min, Some, length, slice_get, IfOk, OnOk, OnErr, IsErrOf};
ghost use Rattle.vb_outer.specs.Faults.{HasCause, Rose};
ghost use Rattle.vb_outer.specs.Sink.{Appends, AppendsPrefix};
ghost use Rattle.viper_core.specs.Formed.{IsFormed};
ghost use Rattle.viper_core.specs.View.{program_of};
ghost use Rattle.viper_core.specs.declared.programs.Unit.{Unit};
ghost use Rattle.boogie_grammar.specs.Printed.{procs_text};
ghost use Rattle.boogie_print.specs.Asserts.{asserts_in_procs, asserts_in_program};
ghost use Rattle.boogie_print.specs.declared.pieces.EmitFault.TheVariants as fault;
ghost use Rattle.boogie_tree.specs.Text.{prelude};
ghost use Rattle.boogie_tree.specs.Whole.{locals_of};
ghost use Rattle.enc_stream.specs.Counts.{counts};
ghost use Rattle.enc_units.specs.Translates.{program_code, text_of, Translates};
ghost use Rattle.enc_units.specs.Units.{unit_procedure};

use crate::counts::Written;
use crate::procedures::{locals_of_unit, write_text, write_unit};
use boogie_print::EmitFault;
use boogie_tree::{Local, PRELUDE};
use enc_locals::unit_at;
use std::alloc::Global;
use vb_base::Memory;
use vb_outer::{Failed, Sink};
use viper_core::Program;

#[tactic(auto, unfolding(boogie_tree::specs::Text::prelude))]
fn write_prelude<S: Sink>(written: &mut Written, sink: &mut S) -> Result<(), Failed>
    ensures ok { OnOk result (Appends (S.written sink.old) (S.written sink.new) prelude) }
    ensures counts { OnOk result (written.new ≡ counts written.old (length prelude) 0) }
    ensures front { OnErr result (AppendsPrefix (S.written sink.old) (S.written sink.new) prelude) }
    ensures cause { HasCause (S.faults sink.old) (S.faults sink.new) result }
{
    write_text(PRELUDE, written, sink)
}

/// Writes the procedures of all units, in their order.
fn write_units<S: Sink>(
    alloc: Global,
    program: &Program,
    written: &mut Written,
    sink: &mut S,
) -> Result<(), EmitFault>
    requires { IsFormed (program_of program.now) }
    ensures ok { OnOk result (Appends (S.written sink.old) (S.written sink.new) (procs_text (program_code (program_of program.now)).procs)) }
    ensures counts { OnOk result (written.new ≡ counts written.old (length (procs_text (program_code (program_of program.now)).procs))
        (asserts_in_procs (program_code (program_of program.now)).procs)) }
    ensures front { OnErr result (AppendsPrefix (S.written sink.old) (S.written sink.new) (procs_text (program_code (program_of program.now)).procs)) }
    ensures failed { IsErrOf result fault.Failed → Rose (S.faults sink.old) (S.faults sink.new) }
    ensures later { S.faults sink.old ≤ S.faults sink.new }
{
    let _start = *written;
    for number in 0..program.units.len() {
        let unit = unit_at(&program.units, number);
        write_unit(alloc, program, unit, written, sink)?;
    }
    Ok(())
}

/// The locals of the procedure of the unit with this number. `Memory` where there is no memory.
pub fn unit_locals(alloc: Global, program: &Program, unit: u32) -> Result<Vec<Local>, Memory>
    requires formed { IsFormed (program_of program.now) }
    requires exists { unit < length (program_of program.now).units }
    ensures { (x : Unit) → slice_get (program_of program.now).units unit ≡ Some x
        → IfOk result (λ locals. locals_of locals.items ≡ (unit_procedure (program_of program.now) x).locals) }
{
    let of = unit_at(&program.units, unit as usize);
    locals_of_unit(alloc, program, of)
}

/// Writes the translation of a program to a sink, statement after statement. What is held at once is the program, the
/// code of one step, the fixed locals of one procedure, an empty place for each of its other locals, and of its lines and
/// text the first 4 MiB and what one more step writes.
///
/// At Ok it has appended all of the text, and tells how much that was. At Err it has appended a prefix of it, which may be nothing:
/// there was no memory for more, or the sink failed.
pub fn encode_to<S: Sink>(
    alloc: Global,
    program: &Program,
    sink: &mut S,
) -> Result<Written, EmitFault>
    requires { IsFormed (program_of program.now) }
    ensures text { OnOk result (Appends (S.written sink.old) (S.written sink.new) (text_of (program_of program.now))) }
    ensures counts { IfOk result (λ written. (written.bytes ≡ min (length (text_of (program_of program.now))) (2 ^ 64 - 1))
        × (written.asserts ≡ min (asserts_in_program (program_code (program_of program.now))) (2 ^ 64 - 1))) }
    ensures translates { IfOk result (λ written. Translates (program_of program.now) (text_of (program_of program.now))) }
    ensures front { OnErr result (AppendsPrefix (S.written sink.old) (S.written sink.new) (text_of (program_of program.now))) }
    ensures failed { IsErrOf result fault.Failed → Rose (S.faults sink.old) (S.faults sink.new) }
    ensures later { S.faults sink.old ≤ S.faults sink.new }
{
    let mut written = Written {
        bytes: 0,
        asserts: 0,
    };
    write_prelude(&mut written, sink)?;
    write_units(alloc, program, &mut written, sink)?;
    Ok(written)
}
