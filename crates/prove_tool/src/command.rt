// From the words of a call to what it writes and the status it ends with.
ghost use Rattle.std.specs.Prelude.{⊤, ◌≡◌, ◌⊎◌, ℕ, Bool, List, None, Some, map, MatchResult};
ghost use Rattle.std.specs.String.{string_bytes};
ghost use Rattle.vb_outer.specs.Faults.{Rose};
ghost use Rattle.vb_outer.specs.Shelf.{IsFile, IsMissing, IsWhole};
ghost use Rattle.tool_common.specs.Written.{Reports};
ghost use Rattle.prove_tool.specs.Call.{IsCause, Refuses};
ghost use Rattle.prove_tool.specs.Command.{Command, Prove, Certificates, Certify, Conditions, Values, IsProof, command_for, file_of, language_of};
ghost use Rattle.prove_tool.specs.Ends.{Answers, AreCertificates, AreConditions, AreLines, AreValues, CarriesOut, Causes, Ends, EndsAs, ErrAfter, OutAfter};
ghost use Rattle.prove_tool.specs.Parts.{IsSound, command_of, subject_of};
ghost use Rattle.prove_tool.specs.Status.{kind_of, line_of};
ghost use Rattle.prove_tool.specs.Written.{Accepts, AreFirst, AreFound, NothingFailsIn, Tells};

use crate::checking::checked;
use crate::language::Language;
use crate::lines::lines;
use crate::reading::program_of_file;
use crate::refusal::ProveRefusal;
use crate::searching::{Search, searched};
use crate::status::{ProveStatus, line};
use crate::streams::{write_certificates, write_conditions, write_values};
use crate::subject::Subject;
use crate::words::{ProveCommand, command_of};
use std::alloc::Global;
use tool_common::{deliver, report};
use unit_proof::{UnitAnswer, are_all_proved};
use vb_outer::{Shelf, Sink};

/// Carries out the command that the words ask for, and answers how it ended. The words leave out the program's own name.
///
/// `prove FILE [STEPS]` writes a line for each unit of a file of Viper: that it is proved, or that it is open and why. `certificates FILE
/// [STEPS]` writes the certificates that the search finds, and `certify FILE CERTIFICATES` the lines that these give, without a search.
/// `conditions FILE` writes the conditions of the units, and `values FILE [STEPS]` the values that the search finds, at which they fail.
/// Each with `-boogie` behind its first word does the same of a text of Boogie and its procedures. Where the words are those of no command,
/// or a file is refused or cannot be read, one line goes to `err`, and nothing to `out`.
pub fn tool<H: Shelf, O: Sink, E: Sink>(
    alloc: Global,
    words: &Vec<String>,
    shelf: &mut H,
    out: &mut O,
    err: &mut E,
) -> ProveStatus
    // Where the call is done, nothing of the file fails: of a text of Boogie, that no procedure has a failing run.
    ensures nothing_fails { (c : Command) → command_for (map string_bytes words.now.items) ≡ Some c → IsProof c
        → result ≡ ProveStatus.Done → NothingFailsIn (IsWhole (H.files shelf.old)) (language_of c) (file_of c) }

    // Each status has its cause.
    ensures causes { Causes (map string_bytes words.now.items) (H.files shelf.old) (H.faults shelf.old) (H.faults shelf.new)
        (Rose (O.faults out.old) (O.faults out.new) ⊎ Rose (E.faults err.old) (E.faults err.new)) result }

    // And where a cause stands, its status comes, unless memory was refused or a device failed.
    ensures usage { command_for (map string_bytes words.now.items) ≡ None → EndsAs ProveStatus.Usage result }
    ensures missing { (c : Command) → command_for (map string_bytes words.now.items) ≡ Some c
        → IsMissing (H.files shelf.old) (file_of c) → EndsAs ProveStatus.ReadFault result }
    ensures refused { (c : Command) (r : ProveRefusal) → command_for (map string_bytes words.now.items) ≡ Some c
        → Refuses (IsFile (H.files shelf.old)) (language_of c) (file_of c) r → EndsAs (ProveStatus.Refused r) result }
    ensures uncertified { (l : Language) (file certificates : List ℕ) → command_for (map string_bytes words.now.items) ≡ Some (Certify l file certificates)
        → Accepts (IsFile (H.files shelf.old)) l file → IsMissing (H.files shelf.old) certificates → EndsAs ProveStatus.ReadFault result }

    // What stands afterwards.
    ensures out { OutAfter (O.written out.old) (O.written out.new) (map string_bytes words.now.items) (H.files shelf.old) result }
    ensures err { ErrAfter (E.written err.old) (E.written err.new)
        (IsCause (map string_bytes words.now.items) (H.files shelf.old) (H.faults shelf.old) (H.faults shelf.new)) result }
    ensures files { H.files shelf.new ≡ H.files shelf.old }
{
    let answer = answered(alloc, words, shelf, out);
    ended(alloc, answer, err)
}

/// Carries out the command that the words ask for, or answers the status that tells why it is not.
fn answered<H: Shelf, O: Sink>(
    alloc: Global,
    words: &[String],
    shelf: &mut H,
    out: &mut O,
) -> Result<ProveStatus, ProveStatus>
    ensures answers { Answers (map string_bytes words.now) (H.files shelf.old) (H.faults shelf.old) (H.faults shelf.new)
        (O.written out.old) (O.written out.new) (O.faults out.old) (O.faults out.new) result }
    ensures files { H.files shelf.new ≡ H.files shelf.old }
{
    match command_of(words) {
        Some(command) => carried_out(alloc, command, shelf, out),
        None => Err(ProveStatus::Usage),
    }
}

/// Writes the line of a status that tells why a command is not carried out.
fn ended<E: Sink>(
    alloc: Global,
    answer: Result<ProveStatus, ProveStatus>,
    err: &mut E,
) -> ProveStatus
    ensures { MatchResult answer (λ s. (result ≡ s) × (E.written err.new ≡ E.written err.old))
        (λ s. Reports kind_of (E.written err.old) (E.written err.new) (E.faults err.old) (E.faults err.new) (line_of s) s result) }
{
    match answer {
        Ok(status) => status,
        Err(status) => report(err, line(alloc, status), status),
    }
}

/// Carries out a command.
fn carried_out<H: Shelf, O: Sink>(
    alloc: Global,
    command: ProveCommand,
    shelf: &mut H,
    out: &mut O,
) -> Result<ProveStatus, ProveStatus>
    ensures carries_out { CarriesOut (H.files shelf.old) (command_of command.entry) (H.faults shelf.old) (H.faults shelf.new)
        (O.written out.old) (O.written out.new) (O.faults out.old) (O.faults out.new) result }
    ensures files { H.files shelf.new ≡ H.files shelf.old }
{
    match command {
        ProveCommand::Prove(language, file, steps) => {
            prove(alloc, shelf, language, file, steps, out)
        }
        ProveCommand::Certificates(language, file, steps) => {
            certificates(alloc, shelf, language, file, steps, out)
        }
        ProveCommand::Certify(language, file, certificates) => {
            certify(alloc, shelf, language, file, certificates, out)
        }
        ProveCommand::Conditions(language, file) => conditions(alloc, shelf, language, file, out),
        ProveCommand::Values(language, file, steps) => {
            values(alloc, shelf, language, file, steps, out)
        }
    }
}

/// Carries out `prove FILE [STEPS]`, of a file of the language.
fn prove<H: Shelf, O: Sink>(
    alloc: Global,
    shelf: &mut H,
    language: Language,
    file: &str,
    steps: Option<u64>,
    out: &mut O,
) -> Result<ProveStatus, ProveStatus>
    ensures carries_out { CarriesOut (H.files shelf.old) (Prove language file.now steps) (H.faults shelf.old) (H.faults shelf.new)
        (O.written out.old) (O.written out.new) (O.faults out.old) (O.faults out.new) result }
    ensures files { H.files shelf.new ≡ H.files shelf.old }
{
    match searched(alloc, shelf, language, file, Search::within(steps)) {
        Ok(answers) => Ok(told(alloc, &answers, out)),
        Err(status) => Err(status),
    }
}

/// Carries out `certify FILE CERTIFICATES`, of a file of the language.
fn certify<H: Shelf, O: Sink>(
    alloc: Global,
    shelf: &mut H,
    language: Language,
    file: &str,
    certificates: &str,
    out: &mut O,
) -> Result<ProveStatus, ProveStatus>
    ensures carries_out { CarriesOut (H.files shelf.old) (Certify language file.now certificates.now) (H.faults shelf.old) (H.faults shelf.new)
        (O.written out.old) (O.written out.new) (O.faults out.old) (O.faults out.new) result }
    ensures files { H.files shelf.new ≡ H.files shelf.old }
{
    match checked(alloc, shelf, language, file, certificates) {
        Ok(answers) => Ok(told(alloc, &answers, out)),
        Err(status) => Err(status),
    }
}

/// Carries out `certificates FILE [STEPS]`, of a file of the language.
fn certificates<H: Shelf, O: Sink>(
    alloc: Global,
    shelf: &mut H,
    language: Language,
    file: &str,
    steps: Option<u64>,
    out: &mut O,
) -> Result<ProveStatus, ProveStatus>
    ensures carries_out { CarriesOut (H.files shelf.old) (Certificates language file.now steps) (H.faults shelf.old) (H.faults shelf.new)
        (O.written out.old) (O.written out.new) (O.faults out.old) (O.faults out.new) result }
    ensures files { H.files shelf.new ≡ H.files shelf.old }
{
    match program_of_file(alloc, shelf, language, file) {
        Ok(program) => Ok(certificates_of(alloc, &program, Search::within(steps), out)),
        Err(status) => Err(status),
    }
}

/// Carries out `conditions FILE`, of a file of the language.
fn conditions<H: Shelf, O: Sink>(
    alloc: Global,
    shelf: &mut H,
    language: Language,
    file: &str,
    out: &mut O,
) -> Result<ProveStatus, ProveStatus>
    ensures carries_out { CarriesOut (H.files shelf.old) (Conditions language file.now) (H.faults shelf.old) (H.faults shelf.new)
        (O.written out.old) (O.written out.new) (O.faults out.old) (O.faults out.new) result }
    ensures files { H.files shelf.new ≡ H.files shelf.old }
{
    match program_of_file(alloc, shelf, language, file) {
        Ok(program) => Ok(conditions_of(alloc, &program, out)),
        Err(status) => Err(status),
    }
}

/// Carries out `values FILE [STEPS]`, of a file of the language.
fn values<H: Shelf, O: Sink>(
    alloc: Global,
    shelf: &mut H,
    language: Language,
    file: &str,
    steps: Option<u64>,
    out: &mut O,
) -> Result<ProveStatus, ProveStatus>
    ensures carries_out { CarriesOut (H.files shelf.old) (Values language file.now steps) (H.faults shelf.old) (H.faults shelf.new)
        (O.written out.old) (O.written out.new) (O.faults out.old) (O.faults out.new) result }
    ensures files { H.files shelf.new ≡ H.files shelf.old }
{
    match program_of_file(alloc, shelf, language, file) {
        Ok(program) => Ok(values_of(alloc, &program, Search::within(steps), out)),
        Err(status) => Err(status),
    }
}

/// The status that tells of these answers.
fn status_of(answers: &[UnitAnswer]) -> ProveStatus
    ensures { Tells answers.now result }
{
    if are_all_proved(answers) {
        ProveStatus::Done
    } else {
        ProveStatus::Open
    }
}

/// Writes the lines of answers.
fn told<O: Sink>(alloc: Global, answers: &[UnitAnswer], out: &mut O) -> ProveStatus
    ensures { Ends (AreLines answers.now) (λ text. (s : ProveStatus) × AreLines answers.now s text)
        (O.written out.old) (O.written out.new) (O.faults out.old) (O.faults out.new) result }
{
    match lines(alloc, answers) {
        Ok(text) => deliver(out, &text, status_of(answers)),
        Err(_) => ProveStatus::NoMemory,
    }
}

/// Writes the certificates that a search finds of the units of a program.
fn certificates_of<O: Sink>(
    alloc: Global,
    program: &Subject,
    search: Search,
    out: &mut O,
) -> ProveStatus
    requires { IsSound (subject_of program.now) }
    ensures { Ends (AreCertificates (subject_of program.now)) (λ text. (n : ℕ) × (all : Bool) × AreFound (subject_of program.now) n all text)
        (O.written out.old) (O.written out.new) (O.faults out.old) (O.faults out.new) result }
{
    match write_certificates(alloc, program, search, out) {
        Ok(true) => ProveStatus::Done,
        Ok(false) => ProveStatus::Open,
        Err(status) => status,
    }
}

/// Writes the conditions of the units of a program.
fn conditions_of<O: Sink>(alloc: Global, program: &Subject, out: &mut O) -> ProveStatus
    requires { IsSound (subject_of program.now) }
    ensures { Ends (AreConditions (subject_of program.now)) (λ text. (n : ℕ) × AreFirst (subject_of program.now) n text)
        (O.written out.old) (O.written out.new) (O.faults out.old) (O.faults out.new) result }
{
    match write_conditions(alloc, program, out) {
        Ok(()) => ProveStatus::Done,
        Err(status) => status,
    }
}

/// Writes what a search finds of the labels of the units of a program.
fn values_of<O: Sink>(alloc: Global, program: &Subject, search: Search, out: &mut O) -> ProveStatus
    requires { IsSound (subject_of program.now) }
    ensures { Ends AreValues (λ _. ⊤) (O.written out.old) (O.written out.new) (O.faults out.old) (O.faults out.new) result }
{
    match write_values(alloc, program, search, out) {
        Ok(()) => ProveStatus::Done,
        Err(status) => status,
    }
}
