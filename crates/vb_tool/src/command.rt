// The tool: from the words of a command line to what it writes and the status it ends with.
ghost use Rattle.std.specs.Prelude.{◌≡◌, ◌⊎◌, ℕ, List, map, IfOk, IsErrOf, MatchResult};
ghost use Rattle.std.specs.String.{string_bytes};
ghost use Rattle.vb_base.specs.declared.labels.Label.{Label};
ghost use Rattle.vb_outer.specs.Faults.{Rose};
ghost use Rattle.vb_outer.specs.Shelf.{IsFile, IsWhole};
ghost use Rattle.vb_outer.specs.Sink.{Appends};
ghost use Rattle.viper_core.specs.Formed.{IsFormed};
ghost use Rattle.viper_core.specs.Program as p;
ghost use Rattle.viper_core.specs.View.{program_of};
ghost use Rattle.boogie_grammar.specs.Spells.{BSpells};
ghost use Rattle.boogie_tree.specs.Program.{BProgram};
ghost use Rattle.tool_common.specs.Ends.{Stops};
ghost use Rattle.tool_common.specs.Written.{Reports};
ghost use Rattle.enc_units.specs.Translates.{text_of};
ghost use Rattle.viper_file.specs.Accepted.{IsAccepted};
ghost use Rattle.vb_tool.specs.Command.{Command as CommandOf, Translate, Run, Execute, Cut, Condition, Asks, IsNoCommand};
ghost use Rattle.vb_tool.specs.Conditions.{IsStatement};
ghost use Rattle.vb_tool.specs.Cuts.{IsCutOfFile};
ghost use Rattle.vb_tool.specs.Call.{Misses, Refuses, Does, HasDone, IsCause, Causes, EndsAs, EndsWith, OutAfter, ErrAfter};
ghost use Rattle.vb_tool.specs.Parts.{CanBeWritten, Delivers, work_status, work_text};
ghost use Rattle.vb_tool.specs.Status.{kind_of, line_of};
ghost use Rattle.vb_tool.specs.Transfer.{IsTransfer};
ghost use Rattle.vb_tool.specs.Translated.{IsTranslationOfFile, IsVerifiedByText};
ghost use Rattle.vb_tool.specs.Verified.{NoProcedureFails};

use crate::outcome::Work;
use crate::status::{Refusal, Status, line};
use crate::words::command_of;
use crate::works::work;
use boogie_text::EmitFault;
use enc_stream::encode_to;
use std::alloc::Global;
use tool_common::{deliver, report};
use vb_outer::{Shelf, Sink};
use viper_core::Program;

/// Does what the words ask for, and answers how it ended. The words leave out the program's own name.
///
/// `translate FILE` reads the file from the shelf and writes its Boogie program to `out`. `run FILE UNIT RUNFILE` runs a
/// method or a predicate of the file, from the state and on the choices of the run file, and writes the outcome to `out`: how
/// the run ended, and how many choices it left over; and of a run that failed the run of Boogie that it turns into.
/// `replay BPL BRUN` runs a procedure of a program of Boogie, as the run file says, and writes how that ended. `make N` generates
/// a program of N methods, translates it, and writes how much that comes to. `exec FILE METHOD RUNFILE N` executes a method of
/// the file, with the bodies that it calls and the turns of its loops, of which at most N may begin, and writes how that ended,
/// and how many choices it left over. `cut BPL` writes a program of Boogie without loops and calls for one with them, which
/// fails wherever a run of the loops does. `vc BPL PROC AT PART KIND` writes a formula that is valid exactly where no run of
/// that procedure fails at the label that the last three words are.
/// Where the words are no command, or a file is refused or cannot be read, or N is out of range, one line goes to `err`, and
/// nothing to `out`.
pub fn tool<H: Shelf, O: Sink, E: Sink>(
    alloc: Global,
    words: &Vec<String>,
    shelf: &mut H,
    out: &mut O,
    err: &mut E,
) -> Status
    // Each status has its cause.
    ensures causes { Causes (map string_bytes words.now.items) (H.files shelf.old) (H.faults shelf.old) (H.faults shelf.new)
        (Rose (O.faults out.old) (O.faults out.new) ⊎ Rose (E.faults err.old) (E.faults err.new)) result }

    // And where a cause stands, its status comes, unless memory was refused or a device failed.
    ensures usage { IsNoCommand (map string_bytes words.now.items) → EndsAs Status.Usage result }
    ensures missing { (command : CommandOf) → Asks (map string_bytes words.now.items) command
        → Misses (H.files shelf.old) command → EndsAs Status.ReadFault result }
    ensures refused { (command : CommandOf) (r : Refusal) → Asks (map string_bytes words.now.items) command
        → Refuses (IsFile (H.files shelf.old)) command r → EndsAs (Status.Refused r) result }

    // What a command does that is accepted: its status, and the text that it writes.
    ensures does { (command : CommandOf) (status : Status) (text : List ℕ) → Asks (map string_bytes words.now.items) command
        → Does (IsFile (H.files shelf.old)) command status text → EndsWith (O.written out.old) (O.written out.new) status text result }

    // What `translate` writes is a translation of the program of the file.
    ensures translates { (file : List ℕ) → Asks (map string_bytes words.now.items) (Translate file) → result ≡ Status.Done
        → (text : List ℕ) × IsTranslationOfFile (IsWhole (H.files shelf.old)) file text × Appends (O.written out.old) (O.written out.new) text }

    // Where no procedure of it has a failing run, no run of a method or a predicate of the file fails, from any opening; and no method
    // fails from a state that satisfies its precondition.
    ensures verified { (file : List ℕ) → Asks (map string_bytes words.now.items) (Translate file) → result ≡ Status.Done
        → (text : List ℕ) × IsVerifiedByText (IsWhole (H.files shelf.old)) file text × Appends (O.written out.old) (O.written out.new) text }

    // And then `exec` does not fail either, whatever the method, the run file and the budget.
    ensures frames { (file method run_file bytes : List ℕ) (n : ℕ) (program : p.Program) (boogie : BProgram) (label : Label)
        → Asks (map string_bytes words.now.items) (Execute file method run_file n) → IsFile (H.files shelf.old) file bytes → IsAccepted bytes program
        → BSpells (text_of program) boogie → NoProcedureFails boogie → result ≡ Status.Failed label → ⊥ }

    // What `run` writes of a run that failed ends with a run of Boogie, which fails at the same label on any translation of the file.
    ensures transfers { (file unit run_file : List ℕ) (label : Label) → Asks (map string_bytes words.now.items) (Run file unit run_file)
        → result ≡ Status.Failed label
        → (text : List ℕ) × IsTransfer (IsWhole (H.files shelf.old)) file unit run_file label text × Appends (O.written out.old) (O.written out.new) text }

    // What `cut` writes spells just one program, whose procedures end as the modular runs do, and fail wherever the turning runs do.
    ensures cuts { (file : List ℕ) → Asks (map string_bytes words.now.items) (Cut file) → result ≡ Status.Done
        → (text : List ℕ) × IsCutOfFile (IsWhole (H.files shelf.old)) file text × Appends (O.written out.old) (O.written out.new) text }

    // What `vc` writes spells just one formula, which is valid exactly where no run of the procedure of that name fails at the label.
    ensures states { (file procedure : List ℕ) (label : Label) → Asks (map string_bytes words.now.items) (Condition file procedure label)
        → result ≡ Status.Done
        → (text : List ℕ) × IsStatement (IsWhole (H.files shelf.old)) file procedure label text × Appends (O.written out.old) (O.written out.new) text }

    // What stands afterwards.
    ensures out { OutAfter (O.written out.old) (O.written out.new) (HasDone (map string_bytes words.now.items) (H.files shelf.old)) result }
    ensures err { ErrAfter (E.written err.old) (E.written err.new)
        (IsCause (map string_bytes words.now.items) (H.files shelf.old) (H.faults shelf.old) (H.faults shelf.new)) result }
    ensures files { H.files shelf.new ≡ H.files shelf.old }
{
    let answer = done(alloc, words, shelf);
    ended(alloc, answer, out, err)
}

/// What the words ask for is done, but for writing it, or the status that tells why it is not.
fn done<H: Shelf>(alloc: Global, words: &[String], shelf: &mut H) -> Result<Work, Status>
    ensures done { IfOk result (λ w. HasDone (map string_bytes words.now) (H.files shelf.old) (work_status w) (work_text w)) }
    ensures can_be_written { IfOk result (λ w. CanBeWritten w) }
    ensures stops { (s : Status) → IsErrOf result s
        → Stops kind_of (IsCause (map string_bytes words.now) (H.files shelf.old) (H.faults shelf.old) (H.faults shelf.new)) s }
    ensures files { H.files shelf.new ≡ H.files shelf.old }
{
    let command = match command_of(alloc, words) {
        Ok(Some(command)) => command,
        Ok(None) => return Err(Status::Usage),
        Err(_) => return Err(Status::NoMemory),
    };
    let work = work(alloc, shelf, command)?;
    Ok(work)
}

/// Writes the text of what was done, or the line that says why nothing was.
fn ended<O: Sink, E: Sink>(
    alloc: Global,
    done: Result<Work, Status>,
    out: &mut O,
    err: &mut E,
) -> Status
    requires { IfOk done (λ w. CanBeWritten w) }
    ensures { MatchResult done
        (λ w. Delivers (O.written out.old) (O.written out.new) (O.faults out.old) (O.faults out.new) (work_text w) (work_status w) result
        × (E.written err.new ≡ E.written err.old))
        (λ s. Reports kind_of (E.written err.old) (E.written err.new) (E.faults err.old) (E.faults err.new) (line_of s) s result
        × (O.written out.new ≡ O.written out.old)) }
{
    match done {
        Ok(work) => deliver_work(alloc, out, &work),
        Err(status) => report(err, line(alloc, status), status),
    }
}

/// Writes the text of a work, whose status is then the answer.
fn deliver_work<O: Sink>(alloc: Global, out: &mut O, work: &Work) -> Status
    requires { CanBeWritten work.now }
    ensures { Delivers (O.written out.old) (O.written out.new) (O.faults out.old) (O.faults out.new) (work_text work.now) (work_status work.now) result }
{
    match work {
        Work::Translate(program) => deliver_translation(alloc, out, program),
        Work::Tell(told) => deliver(out, &told.text, told.status),
    }
}

/// Writes the translation of a program, piece by piece.
fn deliver_translation<O: Sink>(alloc: Global, out: &mut O, program: &Program) -> Status
    requires { IsFormed (program_of program.now) }
    ensures { Delivers (O.written out.old) (O.written out.new) (O.faults out.old) (O.faults out.new) (text_of (program_of program.now)) Status.Done result }
{
    match encode_to(alloc, program, out) {
        Ok(_) => Status::Done,
        Err(EmitFault::Memory) => Status::NoMemory,
        Err(EmitFault::Failed) => Status::WriteFault,
    }
}
