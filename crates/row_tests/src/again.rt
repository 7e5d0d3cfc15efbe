// A run that failed, once more: as the run of Boogie that stands behind its two lines, on the translation of the same file.

use crate::trial::{Ended, end_of};
use row_tables::{Call, Fault};
use std::alloc::Global;
use vb_outer::MemFile;

/// The status of a run that failed.
pub const FAILED: u8 = 10;

/// The file of a call that runs a unit.
pub fn file_of_run(alloc: Global, call: &Call) -> Result<Option<MemFile>, Fault> {
    match call.words.as_slice() {
        [command, name, _, _] if command.as_str() == "run" => copied(alloc, call, name.as_bytes()),
        _ => Ok(None),
    }
}

fn copied(alloc: Global, call: &Call, name: &[u8]) -> Result<Option<MemFile>, Fault> {
    let Some(file) = call.files.iter().find(|file| file.name.as_slice() == name) else {
        return Ok(None);
    };
    Ok(Some(MemFile {
        name: b"a.vpr".to_vec(alloc)?,
        bytes: file.bytes.to_vec(alloc)?,
    }))
}

/// Translates the file, and replays what was written of the run. Answers how that ended where it failed otherwise.
pub fn ends_otherwise(
    alloc: Global,
    file: MemFile,
    written: &[u8],
) -> Result<Option<Ended>, Fault> {
    let translated = end_of(
        alloc,
        Call::new(alloc, "translate a.vpr", vec![in alloc; file]?)?,
    )?;
    let (first, run) = divided(written);
    let program = MemFile {
        name: b"a.bpl".to_vec(alloc)?,
        bytes: translated.out.written().to_vec(alloc)?,
    };
    let run = MemFile {
        name: b"a.brun".to_vec(alloc)?,
        bytes: run.to_vec(alloc)?,
    };
    let files = vec![in alloc; program, run]?;
    let replayed = end_of(alloc, Call::new(alloc, "replay a.bpl a.brun", files)?)?;
    if replayed.status == FAILED && replayed.out.written() == first {
        return Ok(None);
    }
    Ok(Some(replayed))
}

/// The first line, and what stands behind the second.
fn divided(text: &[u8]) -> (&[u8], &[u8]) {
    let (first, rest) = behind_line(text);
    (first, behind_line(rest).1)
}

/// The first line with its end, and the rest.
fn behind_line(text: &[u8]) -> (&[u8], &[u8]) {
    match text.iter().position(|byte| *byte == b'\n') {
        Some(end) => text.split_at(end.saturating_add(1).min(text.len())),
        None => (text, b""),
    }
}
