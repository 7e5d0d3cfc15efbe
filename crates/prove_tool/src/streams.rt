// What is written unit by unit.
ghost use Rattle.std.specs.Prelude.{◌≡◌, ◌<◌, ◌≤◌, ◌&&◌, ℕ, Bool, true, List, IfErr, IfOk, IsSome, OnErr, OnOk};
ghost use Rattle.vb_outer.specs.Sink.{Appends};
ghost use Rattle.unit_proof.specs.Shown.{NeverFails};
ghost use Rattle.tool_common.specs.Ends.{FrontWritten};
ghost use Rattle.prove_tool.specs.Parts.{IsSound, StopsAtSink, subject_of};
ghost use Rattle.prove_tool.specs.Subject.{UnitFails, count_of};
ghost use Rattle.prove_tool.specs.Written.{AreConditionsOf, AreFirst, AreFound, IsFound};

use crate::searching::Search;
use crate::status::ProveStatus;
use crate::subject::Subject;
use boogie_formula_text::print_conditions;
use std::alloc::Global;
use unit_proof::{Offer, UnitVerdict, verdict};
use vb_base::Memory;
use vb_outer::{Sink, write_all};

/// The certificate that a search finds of the unit of this number, if it is accepted.
fn certificate(
    alloc: Global,
    program: &Subject,
    unit: usize,
    search: Search,
) -> Result<Option<Vec<u8>>, Memory>
    requires sound { IsSound (subject_of program.now) }
    requires exists { unit < count_of (subject_of program.now) }
    ensures { IfOk result (λ found. IsSome found → NeverFails (UnitFails (subject_of program.now)) unit) }
{
    let of = program.conditions(alloc, unit)?;
    let Offer::Certificate(text) = search.offer(alloc, &of)? else {
        return Ok(None);
    };
    match verdict(alloc, &of, &text)? {
        UnitVerdict::Proved => Ok(Some(text)),
        UnitVerdict::Uncertified(_) | UnitVerdict::Refused(_, _) => Ok(None),
    }
}

/// Writes the certificate that a search finds of the unit of this number, if it is accepted, and answers whether it is.
fn write_certificate<O: Sink>(
    alloc: Global,
    program: &Subject,
    unit: usize,
    search: Search,
    out: &mut O,
) -> Result<bool, ProveStatus>
    requires sound { IsSound (subject_of program.now) }
    requires exists { unit < count_of (subject_of program.now) }
    ensures whole { IfOk result (λ found. (text : List ℕ) × IsFound (subject_of program.now) unit found text
        × Appends (O.written out.old) (O.written out.new) text) }
    ensures front { OnErr result (FrontWritten (O.written out.old) (O.written out.new) (IsFound (subject_of program.now) unit true)) }
    ensures stops { IfErr result (StopsAtSink (O.faults out.old) (O.faults out.new)) }
    ensures later { O.faults out.old ≤ O.faults out.new }
{
    match certificate(alloc, program, unit, search) {
        Ok(Some(text)) => match write_all(out, &text) {
            Ok(()) => Ok(true),
            Err(_) => Err(ProveStatus::WriteFault),
        },
        Ok(None) => Ok(false),
        Err(_) => Err(ProveStatus::NoMemory),
    }
}

fn both(first: bool, second: bool) -> bool
    ensures { result ≡ (first && second) }
{
    first && second
}

/// Writes the certificates that a search finds, each once it is accepted, and answers whether one is of each unit. Of a unit that is
/// left open nothing is written.
pub fn write_certificates<O: Sink>(
    alloc: Global,
    program: &Subject,
    search: Search,
    out: &mut O,
) -> Result<bool, ProveStatus>
    requires { IsSound (subject_of program.now) }
    ensures whole { IfOk result (λ all. (text : List ℕ) × AreFound (subject_of program.now) (count_of (subject_of program.now)) all text
        × Appends (O.written out.old) (O.written out.new) text) }
    ensures front { OnErr result (FrontWritten (O.written out.old) (O.written out.new)
        (λ text. (n : ℕ) × (all : Bool) × AreFound (subject_of program.now) n all text)) }
    ensures stops { IfErr result (StopsAtSink (O.faults out.old) (O.faults out.new)) }
    ensures later { O.faults out.old ≤ O.faults out.new }
{
    let mut all = true;
    for unit in 0..program.count() {
        match write_certificate(alloc, program, unit, search, out) {
            Ok(found) => all = both(all, found),
            Err(status) => return Err(status),
        }
    }
    Ok(all)
}

/// The text of the conditions of the unit of this number.
fn conditions_text(alloc: Global, program: &Subject, unit: usize) -> Result<Vec<u8>, Memory>
    requires sound { IsSound (subject_of program.now) }
    requires exists { unit < count_of (subject_of program.now) }
    ensures { IfOk result (λ text. AreConditionsOf (subject_of program.now) unit text.items) }
{
    let of = program.conditions(alloc, unit)?;
    print_conditions(alloc, &of.name, &of.conditions)
}

/// Writes the conditions of the unit of this number.
fn write_unit<O: Sink>(
    alloc: Global,
    program: &Subject,
    unit: usize,
    out: &mut O,
) -> Result<(), ProveStatus>
    requires sound { IsSound (subject_of program.now) }
    requires exists { unit < count_of (subject_of program.now) }
    ensures whole { OnOk result ((text : List ℕ) × AreConditionsOf (subject_of program.now) unit text × Appends (O.written out.old) (O.written out.new) text) }
    ensures front { OnErr result (FrontWritten (O.written out.old) (O.written out.new) (AreConditionsOf (subject_of program.now) unit)) }
    ensures stops { IfErr result (StopsAtSink (O.faults out.old) (O.faults out.new)) }
    ensures later { O.faults out.old ≤ O.faults out.new }
{
    match conditions_text(alloc, program, unit) {
        Ok(text) => match write_all(out, &text) {
            Ok(()) => Ok(()),
            Err(_) => Err(ProveStatus::WriteFault),
        },
        Err(_) => Err(ProveStatus::NoMemory),
    }
}

/// Writes the conditions of all units, one behind the other.
pub fn write_conditions<O: Sink>(
    alloc: Global,
    program: &Subject,
    out: &mut O,
) -> Result<(), ProveStatus>
    requires { IsSound (subject_of program.now) }
    ensures whole { OnOk result ((text : List ℕ) × AreFirst (subject_of program.now) (count_of (subject_of program.now)) text
        × Appends (O.written out.old) (O.written out.new) text) }
    ensures front { OnErr result (FrontWritten (O.written out.old) (O.written out.new) (λ text. (n : ℕ) × AreFirst (subject_of program.now) n text)) }
    ensures stops { IfErr result (StopsAtSink (O.faults out.old) (O.faults out.new)) }
    ensures later { O.faults out.old ≤ O.faults out.new }
{
    for unit in 0..program.count() {
        match write_unit(alloc, program, unit, out) {
            Ok(()) => {}
            Err(status) => return Err(status),
        }
    }
    Ok(())
}

/// The text of what a search finds of the labels of the unit of this number.
fn values_text(
    alloc: Global,
    program: &Subject,
    unit: usize,
    search: Search,
) -> Result<Vec<u8>, Memory>
    requires sound { IsSound (subject_of program.now) }
    requires exists { unit < count_of (subject_of program.now) }
{
    let of = program.conditions(alloc, unit)?;
    search.values(alloc, &of)
}

/// Writes what a search finds of the labels of the unit of this number.
fn write_labels<O: Sink>(
    alloc: Global,
    program: &Subject,
    unit: usize,
    search: Search,
    out: &mut O,
) -> Result<(), ProveStatus>
    requires sound { IsSound (subject_of program.now) }
    requires exists { unit < count_of (subject_of program.now) }
    ensures written { (text : List ℕ) × Appends (O.written out.old) (O.written out.new) text }
    ensures stops { IfErr result (StopsAtSink (O.faults out.old) (O.faults out.new)) }
    ensures later { O.faults out.old ≤ O.faults out.new }
{
    match values_text(alloc, program, unit, search) {
        Ok(text) => match write_all(out, &text) {
            Ok(()) => Ok(()),
            Err(_) => Err(ProveStatus::WriteFault),
        },
        Err(_) => Err(ProveStatus::NoMemory),
    }
}

/// Writes what a search finds of the labels of all units, one unit behind the other.
pub fn write_values<O: Sink>(
    alloc: Global,
    program: &Subject,
    search: Search,
    out: &mut O,
) -> Result<(), ProveStatus>
    requires { IsSound (subject_of program.now) }
    ensures written { (text : List ℕ) × Appends (O.written out.old) (O.written out.new) text }
    ensures stops { IfErr result (StopsAtSink (O.faults out.old) (O.faults out.new)) }
    ensures later { O.faults out.old ≤ O.faults out.new }
{
    for unit in 0..program.count() {
        match write_labels(alloc, program, unit, search, out) {
            Ok(()) => {}
            Err(status) => return Err(status),
        }
    }
    Ok(())
}
