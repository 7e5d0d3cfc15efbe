// What the certificates of another file show of the units of a file.
ghost use Rattle.std.specs.Prelude.{◌≡◌, ◌≤◌, IfErr, IfOk};
ghost use Rattle.vb_outer.specs.Shelf.{IsWhole};
ghost use Rattle.prove_tool.specs.Call.{StopsAtCheck};
ghost use Rattle.prove_tool.specs.Parts.{AreAnswers, IsSound, StopsAtCertificates, StopsAtSections, subject_of};
ghost use Rattle.prove_tool.specs.Written.{AreAnswersOf, IsThere};

use crate::language::Language;
use crate::reading::program_of_file;
use crate::refusal::ProveRefusal;
use crate::status::{ProveStatus, of_certificates};
use crate::subject::Subject;
use std::alloc::Global;
use unit_proof::{Rest, Sections, UnitAnswer};
use vb_outer::Shelf;

/// Each section was taken by a unit.
fn all_taken<H: Shelf>(
    alloc: Global,
    shelf: &mut H,
    sections: &mut Sections,
) -> Result<(), ProveStatus>
    ensures stops { IfErr result (StopsAtSections (H.faults shelf.old) (H.faults shelf.new)) }
    ensures later { H.faults shelf.old ≤ H.faults shelf.new }
    ensures files { H.files shelf.new ≡ H.files shelf.old }
{
    match sections.rest(alloc, shelf) {
        Ok(Rest::Nothing) => Ok(()),
        Ok(Rest::Untaken(line)) => Err(ProveStatus::Refused(ProveRefusal::Certificate(line))),
        Ok(Rest::Long) => Err(ProveStatus::Refused(ProveRefusal::CertificateSize)),
        Err(fault) => Err(of_certificates(fault)),
    }
}

/// What the certificates of the file that is begun show of the units of a program.
fn answers_by_sections<H: Shelf>(
    alloc: Global,
    shelf: &mut H,
    program: &Subject,
) -> Result<Vec<UnitAnswer>, ProveStatus>
    requires { IsSound (subject_of program.now) }
    ensures answered { IfOk result (λ answers. AreAnswers (subject_of program.now) answers.items) }
    ensures stops { IfErr result (StopsAtSections (H.faults shelf.old) (H.faults shelf.new)) }
    ensures later { H.faults shelf.old ≤ H.faults shelf.new }
    ensures files { H.files shelf.new ≡ H.files shelf.old }
{
    let mut sections = Sections::new(alloc);
    match program.answers(alloc, shelf, &mut sections) {
        Ok(answers) => match all_taken(alloc, shelf, &mut sections) {
            Ok(()) => Ok(answers),
            Err(status) => Err(status),
        },
        Err(fault) => Err(of_certificates(fault)),
    }
}

/// Reads a file of certificates, and tells what these show of the units of a program.
fn answers_by_file<H: Shelf>(
    alloc: Global,
    shelf: &mut H,
    program: &Subject,
    certificates: &str,
) -> Result<Vec<UnitAnswer>, ProveStatus>
    requires { IsSound (subject_of program.now) }
    ensures answered { IfOk result (λ answers. AreAnswers (subject_of program.now) answers.items × IsThere (IsWhole (H.files shelf.old)) certificates.now) }
    ensures stops { IfErr result (StopsAtCertificates (H.files shelf.old) certificates.now (H.faults shelf.old) (H.faults shelf.new)) }
    ensures later { H.faults shelf.old ≤ H.faults shelf.new }
    ensures files { H.files shelf.new ≡ H.files shelf.old }
{
    match shelf.begin(certificates) {
        Ok(()) => answers_by_sections(alloc, shelf, program),
        Err(_) => Err(ProveStatus::ReadFault),
    }
}

/// Reads a file of the language and one of certificates, and tells what these show of its units.
pub fn checked<H: Shelf>(
    alloc: Global,
    shelf: &mut H,
    language: Language,
    file: &str,
    certificates: &str,
) -> Result<Vec<UnitAnswer>, ProveStatus>
    ensures answered { IfOk result (λ answers. AreAnswersOf (IsWhole (H.files shelf.old)) language file.now answers.items × IsThere (IsWhole (H.files shelf.old)) certificates.now) }
    ensures stops { IfErr result (StopsAtCheck (H.files shelf.old) language file.now certificates.now (H.faults shelf.old) (H.faults shelf.new)) }
    ensures files { H.files shelf.new ≡ H.files shelf.old }
{
    match program_of_file(alloc, shelf, language, file) {
        Ok(program) => answers_by_file(alloc, shelf, &program, certificates),
        Err(status) => Err(status),
    }
}
