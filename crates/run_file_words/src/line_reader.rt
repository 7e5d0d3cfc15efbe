// Files that are read line by line.
ghost use Rattle.std.specs.Prelude.{◌≡◌, ◌≤◌, true, false, IfOk, OnOk, MatchResult, length};
ghost use Rattle.std.specs.Option.{option_map};
ghost use Rattle.vb_base.specs.Limits.{max_boogie_bytes};
ghost use Rattle.run_file_words.specs.Answers.{UnlessMemory};
ghost use Rattle.run_file_words.specs.Machine.{FileKind, IsReadBy, StopsBy, Steps, line_read, machine_of};
ghost use Rattle.run_file_words.specs.Text.{lines_of, words_of};

use crate::faults::RunFileFault;
use crate::texts::{is_skipped, next_line};
use std::alloc::Global;
use vb_base::{Memory, Pos};

/// A reader of run files of one kind, which takes their lines one after the other: a header, and the lines behind it.
pub trait LineReader: Drop {
    /// What a whole file says.
    type Run;

    /// What a line behind the header says.
    type ReadLine: Drop;

    /// How far a file is read.
    ghost State: { Type 0 };

    /// What contracts see of a line.
    ghost Said: { Type 0 };

    /// What contracts see of a run.
    ghost Plain: { Type 0 };

    /// How lines are read.
    ghost kind: { Self → FileKind State Said Plain };

    ghost state: { Self → State };

    ghost said: { Self.ReadLine → Said };

    ghost plain: { Self.Run → Plain };

    /// Whether the header was read.
    fn is_headed(&self) -> bool
        ensures { result ≡ (kind self.now).is_headed (state self.now) };

    /// Reads the header, which is not read yet. False where the words are none.
    fn read_header(&mut self, words: &[u8]) -> bool
        requires { (kind self.old).is_headed (state self.old) ≡ false }
        ensures same { kind self.new ≡ kind self.old }
        ensures steps { Steps result ((kind self.old).header_read (state self.old) (words_of words.now)) (state self.new) };

    /// The line that words are behind the header, if they are one.
    fn line_of(&self, alloc: Global, words: &[u8]) -> Result<Option<Self::ReadLine>, Memory>
        ensures { IfOk result (λ l. option_map said l ≡ (kind self.now).line_of (words_of words.now)) };

    /// Takes in what a line says. False where the line may not stand.
    fn follow(&mut self, alloc: Global, line: Self::ReadLine) -> Result<bool, Memory>
        ensures same { OnOk result (kind self.new ≡ kind self.old) }
        ensures steps { IfOk result (λ ok. Steps ok ((kind self.old).followed (state self.old) (said line)) (state self.new)) };

    /// The run that was read.
    fn finish(self, alloc: Global) -> Result<Self::Run, Memory>
        ensures { IfOk result (λ run. plain run ≡ (kind self).run (state self)) };
}

/// Reads a line. False where it may not stand.
fn read_line<R: LineReader>(alloc: Global, reader: &mut R, text: &[u8]) -> Result<bool, Memory>
    ensures same { OnOk result (R.kind reader.new ≡ R.kind reader.old) }
    ensures steps { IfOk result (λ ok. Steps ok (line_read (R.kind reader.old) (R.state reader.old) text.now) (R.state reader.new)) }
{
    if is_skipped(text) {
        return Ok(true);
    }
    if !reader.is_headed() {
        return Ok(reader.read_header(text));
    }
    match reader.line_of(alloc, text)? {
        Some(line) => reader.follow(alloc, line),
        None => Ok(false),
    }
}

/// The run that the lines of a text are, or where it goes wrong: at the first line that may not stand there, or at the last
/// where the header is missing.
pub fn read_lines<R: LineReader>(
    alloc: Global,
    mut reader: R,
    bytes: &[u8],
) -> Result<R::Run, RunFileFault>
    requires few { length bytes.now ≤ max_boogie_bytes }
    requires begun { R.state reader ≡ (R.kind reader).begun }
    ensures { MatchResult result (λ run. IsReadBy (machine_of (R.kind reader)) (lines_of bytes.now) (R.plain run))
        (UnlessMemory (StopsBy (machine_of (R.kind reader)) (lines_of bytes.now))) }
{
    let mut rest = Some(bytes);
    let mut line = 0;
    while let Some(text) = rest {
        let (text, after) = next_line(text);
        line += 1;
        if !read_line(alloc, &mut reader, text)? {
            return Err(RunFileFault::Syntax(Pos { line, col: 1 }));
        }
        rest = after;
    }
    if reader.is_headed() {
        Ok(reader.finish(alloc)?)
    } else {
        Err(RunFileFault::Syntax(Pos { line, col: 1 }))
    }
}
