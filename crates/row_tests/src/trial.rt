// Runs a row, and tells where it ends otherwise than it says.
ghost use Rattle.std.specs.Prelude.{◌≡◌, map, IsTrue, is_some};
ghost use Rattle.vb_outer.specs.MemShelf.{file_named, names_differ};
ghost use Rattle.vb_outer.specs.Place.{held};

use crate::again::{FAILED, ends_otherwise, file_of_run};
use crate::turns::all_turns_fail;
use row_tables::{Call, End, Fault, Row, copies_of, files_of};
use std::alloc::Global;
use std::{io, mem};
use vb_outer::{MemFile, MemShelf, MemSink};

/// How a call ended: its status, and what stands in the sinks.
#[derive(Drop)]
pub struct Ended {
    pub status: u8,
    pub out: MemSink,
    pub err: MemSink,
}

/// How a row ended, and how its run ended as one of Boogie, where that is otherwise.
#[derive(Drop)]
struct Tried {
    ended: Ended,
    again: Option<Ended>,
}

/// Runs a row, and prints what came where it ends otherwise than it says. A run that failed is translated and replayed as well,
/// and where each call of a device is to fail in turn, so it does.
pub fn ends_as_said(rt: &impl Print, alloc: Global, row: Row) -> io::Result<bool> {
    let Row { name, call, end } = row;
    match with_all_files(alloc, call) {
        Ok(call) => call_ends_as_said(rt, alloc, name.as_str(), &call, &end),
        Err(fault) => {
            println!(rt; "{name}: {fault}")?;
            Ok(false)
        }
    }
}

fn call_ends_as_said(
    rt: &impl Print,
    alloc: Global,
    name: &str,
    call: &Call,
    end: &End,
) -> io::Result<bool> {
    match attempted(alloc, call) {
        Ok(Tried { ended, again }) => {
            let as_said = told(rt, name, end, &ended)?;
            let fails_again = told_again(rt, name, again)?;
            Ok(all_turns_fail(rt, alloc, name, call, &ended)? && fails_again && as_said)
        }
        Err(fault) => {
            println!(rt; "{name}: {fault}")?;
            Ok(false)
        }
    }
}

fn attempted(alloc: Global, call: &Call) -> Result<Tried, Fault> {
    let ended = end_of(alloc, call.copy(alloc)?)?;
    let again = match file_of_run(alloc, call)? {
        Some(file) if ended.status == FAILED => ends_otherwise(alloc, file, ended.out.written())?,
        _ => None,
    };
    Ok(Tried { ended, again })
}

/// Runs a call over its files, without those that are written.
pub fn end_of(alloc: Global, call: Call) -> Result<Ended, Fault> {
    let Call {
        words,
        files,
        written: _,
        shelf,
        out,
        err,
    } = call;
    if !are_named_apart(&files) {
        return Err(Fault::Files);
    }
    let mut shelf = MemShelf::make(files, shelf.failing, shelf.most.max(1));
    let mut out = MemSink::make(alloc, out.failing, out.most.max(1))?;
    let mut err = MemSink::make(alloc, err.failing, err.most.max(1))?;
    let status = status_of(alloc, &words, &mut shelf, &mut out, &mut err)?;
    Ok(Ended { status, out, err })
}

/// Makes the call of the program that the words are for, and answers its status: the commands of `prove`, and else those of the tool.
fn status_of(
    alloc: Global,
    words: &Vec<String>,
    shelf: &mut MemShelf,
    out: &mut MemSink,
    err: &mut MemSink,
) -> Result<u8, Fault> {
    match words.as_slice() {
        [command, ..] if is_of_prove(command.as_str()) => {
            Ok(prove_tool::tool(alloc, words, shelf, out, err).number())
        }
        _ => Ok(vb_tool::tool(alloc, words, shelf, out, err).number()),
    }
}

/// Whether a command is one of the program `prove`, of a file of Viper or of a text of Boogie.
fn is_of_prove(command: &str) -> bool {
    let of_viper = command.strip_suffix("-boogie").unwrap_or(command);
    of_viper == "prove"
        || of_viper == "certificates"
        || of_viper == "certify"
        || of_viper == "conditions"
        || of_viper == "values"
}

/// The call over all its files, of which those that are written are written one after another.
fn with_all_files(alloc: Global, mut call: Call) -> Result<Call, Fault> {
    let written = mem::replace(&mut call.written, Vec::new(alloc));
    for each in &written {
        let bytes = bytes_written(alloc, &call.files, &each.words)?;
        let name = each.name.to_vec(alloc)?;
        call.files.push(MemFile { name, bytes })?;
    }
    Ok(call)
}

/// What a command writes over these files.
fn bytes_written(alloc: Global, files: &[MemFile], words: &[String]) -> Result<Vec<u8>, Fault> {
    let words = copies_of(alloc, words)?;
    let files = files_of(alloc, files)?;
    let ended = end_of(alloc, Call::of(alloc, words, files))?;
    Ok(ended.out.written().to_vec(alloc)?)
}

/// Whether no two files have one name.
fn are_named_apart(files: &[MemFile]) -> bool
    ensures { result ≡ names_differ (map held files.now) }
{
    match files {
        [] => true,
        [first, rest @ ..] => !has_name(rest, &first.name) && are_named_apart(rest),
    }
}

/// Whether a file has this name.
fn has_name(files: &[MemFile], name: &[u8]) -> bool
    ensures { result ≡ is_some (file_named (map held files.now) name.now) }
{
    match files {
        [] => false,
        [first, rest @ ..] => first.name.as_slice() == name || has_name(rest, name),
    }
}

/// Prints each part that differs, and what came.
fn told(rt: &impl Print, name: &str, end: &End, ended: &Ended) -> io::Result<bool> {
    let mut as_said = true;
    if end.status != Some(ended.status) {
        println!(rt; "{name}: the status is {}", ended.status)?;
        as_said = false;
    }
    if end.err.as_slice() != ended.err.written() {
        println!(rt; "{name}: on err stands {}", shown(ended.err.written()))?;
        as_said = false;
    }
    if !is_out_as_said(end, ended.out.written()) {
        println!(rt; "{name}: on out stands {}", shown(ended.out.written()))?;
        as_said = false;
    }
    Ok(as_said)
}

/// Prints what came where a run that failed does not fail again.
fn told_again(rt: &impl Print, name: &str, again: Option<Ended>) -> io::Result<bool> {
    let Some(replayed) = again else {
        return Ok(true);
    };
    println!(rt; "{name}: replayed, the status is {}", replayed.status)?;
    println!(rt;
        "{name}: replayed, on out stands {}",
        shown(replayed.out.written())
    )?;
    println!(rt;
        "{name}: replayed, on err stands {}",
        shown(replayed.err.written())
    )?;
    Ok(false)
}

fn is_out_as_said(end: &End, out: &[u8]) -> bool {
    let is_begun = if end.is_whole {
        out == end.out.as_slice()
    } else {
        out.starts_with(&end.out)
    };
    is_begun
        && has_lines(out, &end.has)
        && !end.lacks.iter().any(|line| has_line(out, line.as_bytes()))
}

/// Whether the lines stand in the text, in this order.
fn has_lines(text: &[u8], lines: &[String]) -> bool {
    let mut left = lines;
    for each in text.split(|byte| *byte == b'\n') {
        if let [first, rest @ ..] = left {
            if first.as_bytes() == each {
                left = rest;
            }
        }
    }
    left.is_empty()
}

fn has_line(text: &[u8], line: &[u8]) -> bool {
    text.split(|byte| *byte == b'\n').any(|each| each == line)
}

/// The first lines of a text.
pub fn shown(text: &[u8]) -> &str {
    let most = text.len().min(4_000);
    str::from_utf8(&text[..most]).unwrap_or("bytes that are no text")
}
