// What `make` does: a generated program is translated, and how much that comes to is told.
ghost use Rattle.std.specs.Prelude.{◌≡◌, ◌++◌, IfOk, OnOk, IsErrOf, None, length};
ghost use Rattle.boogie_print.specs.Asserts.{asserts_in_program};
ghost use Rattle.enc_units.specs.Translates.{program_code, text_of};
ghost use Rattle.vb_gen.specs.Generated.{IsOutOfRange, program_text};
ghost use Rattle.viper_core.specs.Formed.{IsFormed};
ghost use Rattle.viper_core.specs.View.{program_of};
ghost use Rattle.viper_file.specs.Accepted.{IsAccepted};
ghost use Rattle.vb_tool.specs.Parts.{SummaryOf};
ghost use Rattle.vb_tool.specs.Summary.{count_line, counted, summary_text};
ghost use Rattle.vb_tool.specs.declared.status.Refusal.TheVariants as refusal;

use crate::outcome::Ending;
use crate::stages::typed_program;
use crate::status::{Refusal, Status};
use crate::trouble::Trouble;
use enc_stream::{Written, encode_to};
use std::alloc::{AllocError, Global};
use vb_base::Memory;
use vb_gen::make_program;
use vb_outer::{Failed, Sink};
use viper_core::{Program, weight};

/// Drops what is written to it, and never fails.
#[derive(Drop)]
struct Nowhere;

impl Sink for Nowhere {
    ghost written = { λ _. None };

    ghost faults = { λ _. 0 };

    fn write(&mut self, bytes: &[u8]) -> Result<usize, Failed> {
        Ok(bytes.len())
    }
}

/// Generates a program of so many methods, translates it, and tells how much that comes to.
pub fn summary(alloc: Global, count: u32) -> Result<Ending, Trouble>
    ensures told { IfOk result (λ t. SummaryOf count t.status t.text.items) }
    ensures refused { (r : Refusal) → IsErrOf result (Trouble.Refused r) → (refusal.Range ≡ r) × IsOutOfRange count }
    ensures read { IsErrOf result Trouble.Read → ⊥ }
{
    let program = generated(alloc, count)?;
    let written = translated(alloc, &program)?;
    Ok(told(alloc, count, weight(&program), written)?)
}

/// The typed program of so many methods. It is refused for their number alone.
fn generated(alloc: Global, count: u32) -> Result<Program, Trouble>
    ensures range { IfOk result (λ _. IsOutOfRange count → ⊥) }
    ensures accepted { IfOk result (λ p. IsAccepted (program_text count) (program_of p)) }
    ensures formed { IfOk result (λ p. IsFormed (program_of p)) }
    ensures refused { (r : Refusal) → IsErrOf result (Trouble.Refused r) → (refusal.Range ≡ r) × IsOutOfRange count }
    ensures read { IsErrOf result Trouble.Read → ⊥ }
{
    let text = make_program(alloc, count)?;
    typed_program(alloc, &text)
}

/// How much the translation of a program comes to. Nothing that is written to nowhere fails, so only memory may be wanting.
fn translated(alloc: Global, program: &Program) -> Result<Written, Memory>
    requires { IsFormed (program_of program.now) }
    ensures bytes { IfOk result (λ w. w.bytes ≡ counted (length (text_of (program_of program.now)))) }
    ensures asserts { IfOk result (λ w. w.asserts ≡ counted (asserts_in_program (program_code (program_of program.now)))) }
{
    match encode_to(alloc, program, &mut Nowhere) {
        Ok(written) => Ok(written),
        Err(_) => Err(Memory),
    }
}

/// What is told of a program of so many methods and this weight, whose translation is so long.
fn told(alloc: Global, methods: u32, weight: u64, written: Written) -> Result<Ending, Memory>
    ensures status { IfOk result (λ t. t.status ≡ Status.Done) }
    ensures text { IfOk result (λ t. t.text.items ≡ summary_text methods weight written.bytes written.asserts) }
{
    let mut text = Vec::new(alloc);
    put_line(alloc, &mut text, "methods", methods as u64)?;
    put_line(alloc, &mut text, "weight", weight)?;
    put_line(alloc, &mut text, "bytes", written.bytes)?;
    put_line(alloc, &mut text, "asserts", written.asserts)?;
    Ok(Ending {
        status: Status::Done,
        text,
    })
}

/// A word, and how much there is of it, on a line.
fn put_line(alloc: Global, out: &mut Vec<u8>, word: &str, count: u64) -> Result<(), AllocError>
    ensures { OnOk result (out.new.items ≡ out.old.items ++ count_line word.now count) }
{
    let line = format!(in alloc; "{word} {count}\n")?;
    out.extend_from_slice(line.as_bytes())
}
