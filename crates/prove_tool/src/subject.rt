// What a file is the text of, and what there is to show of its units.
ghost use Rattle.std.specs.Prelude.{◌≡◌, ◌<◌, ◌≤◌, ◌↔◌, IfOk, IsErrOf};
ghost use Rattle.vb_base.specs.declared.labels.Label.{Label};
ghost use Rattle.vb_outer.specs.Faults.{Rose};
ghost use Rattle.boogie_print.specs.Printable.{IsFreeName};
ghost use Rattle.boogie_formula.specs.Printable.{IsPrintableConditions};
ghost use Rattle.boogie_formula.specs.Types.{IsTypedConditions};
ghost use Rattle.boogie_formula.specs.Value.{CanFail};
ghost use Rattle.boogie_formula.specs.View.{conditions_of};
ghost use Rattle.unit_proof.specs.declared.faults.CertificateFault.TheVariants as fault;
ghost use Rattle.prove_tool.specs.Parts.{AreAnswers, IsSound, subject_of};
ghost use Rattle.prove_tool.specs.Subject.{AreBuilt, IsProcedureName, UnitFails, count_of};

use boogie_proof::{procedure_answers, procedure_conditions};
use boogie_tree::BProgram;
use std::alloc::Global;
use unit_proof::{CertificateFault, Certificates, UnitAnswer, UnitConditions};
use vb_base::Memory;
use vb_outer::Shelf;
use viper_core::Program;
use viper_proof::{unit_answers, unit_conditions};

/// The program of a file, in its language.
#[derive(Drop)]
pub enum Subject {
    Viper(Program),
    Boogie(BProgram),
}

impl Subject {
    /// How many units it has.
    pub fn count(&self) -> usize
        ensures { result ≡ count_of (subject_of self.now) }
    {
        match self {
            Subject::Viper(program) => program.units.len(),
            Subject::Boogie(program) => program.procs.len(),
        }
    }

    /// The conditions of the unit of this number, from 0 on: an assertion of them with a label can fail exactly where some run of the
    /// unit fails at the label. They can be printed. `Memory` where there is no memory.
    pub fn conditions(&self, alloc: Global, number: usize) -> Result<UnitConditions, Memory>
        requires sound { IsSound (subject_of self.now) }
        requires exists { number < count_of (subject_of self.now) }
        ensures named { IfOk result (λ made. IsProcedureName (subject_of self.now) number made.name) }
        ensures built { IfOk result (λ made. AreBuilt (subject_of self.now) number (conditions_of made.conditions)) }
        ensures typed { IfOk result (λ made. IsTypedConditions (conditions_of made.conditions)) }
        ensures free { IfOk result (λ made. IsFreeName made.name) }
        ensures printable { IfOk result (λ made. IsPrintableConditions (conditions_of made.conditions)) }
        ensures exact { IfOk result (λ made. (label : Label) → UnitFails (subject_of self.now) number label ↔ CanFail (conditions_of made.conditions) label) }
    {
        match self {
            Subject::Viper(program) => {
                let unit = number as u32;
                unit_conditions(alloc, program, unit)
            }
            Subject::Boogie(program) => procedure_conditions(alloc, program, number),
        }
    }

    /// What certificates show of the units, an answer for each, in order: no run of a unit that is proved fails, at any label.
    ///
    /// `Read` only where the shelf failed, and `Memory` where there is no memory.
    pub fn answers<H: Shelf, C: Certificates>(
        &self,
        alloc: Global,
        shelf: &mut H,
        certificates: &mut C,
    ) -> Result<Vec<UnitAnswer>, CertificateFault>
        requires { IsSound (subject_of self.now) }
        ensures answered { IfOk result (λ answers. AreAnswers (subject_of self.now) answers.items) }
        ensures read { IsErrOf result fault.Read → Rose (H.faults shelf.old) (H.faults shelf.new) }
        ensures later { H.faults shelf.old ≤ H.faults shelf.new }
        ensures files { H.files shelf.new ≡ H.files shelf.old }
    {
        match self {
            Subject::Viper(program) => unit_answers(alloc, program, shelf, certificates),
            Subject::Boogie(program) => procedure_answers(alloc, program, shelf, certificates),
        }
    }
}
