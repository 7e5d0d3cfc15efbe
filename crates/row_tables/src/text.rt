// A text that is written line by line.

use crate::fault::Fault;
use std::alloc::Global;

/// Lines are joined by one line end, and none stands after the last one.
#[derive(Drop)]
pub struct Text {
    bytes: Vec<u8>,
    begun: bool,
}

impl Text {
    /// A text with no line.
    pub fn new(alloc: Global) -> Text {
        Text {
            bytes: Vec::new(alloc),
            begun: false,
        }
    }

    /// The bytes of the text.
    pub fn into_bytes(self) -> Vec<u8> {
        let Text { bytes, begun: _ } = self;
        bytes
    }

    /// Begins a new line, with these bytes.
    pub fn add_line(&mut self, line: &[u8]) -> Result<(), Fault> {
        if self.begun {
            self.bytes.push(b'\n')?;
        }
        self.begun = true;
        self.bytes.extend_from_slice(line)?;
        Ok(())
    }

    /// Takes a line of a table that begins with `|`: a new line, or so many.
    pub fn take_lines(&mut self, rest: &str) -> Result<(), Fault> {
        let (count, line) = counted(rest)?;
        for _ in 0..count {
            self.add_line(line.as_bytes())?;
        }
        Ok(())
    }

    /// Takes a line of a table that begins with `~`: more of the present line.
    pub fn take_more(&mut self, rest: &str) -> Result<(), Fault> {
        self.begun = true;
        if let Some(byte) = rest.strip_prefix("byte ") {
            return self.take_byte(byte);
        }
        let (count, piece) = counted(rest)?;
        for _ in 0..count {
            self.bytes.extend_from_slice(piece.as_bytes())?;
        }
        Ok(())
    }

    /// Takes a byte by its number, and how often it comes.
    fn take_byte(&mut self, text: &str) -> Result<(), Fault> {
        let (number, count) = text.split_once(' ').unwrap_or((text, "1"));
        let byte = number.parse()?;
        let count: u32 = count.parse()?;
        for _ in 0..count {
            self.bytes.push(byte)?;
        }
        Ok(())
    }
}

/// How often a piece of text comes, and the piece, which stands behind one blank.
fn counted(rest: &str) -> Result<(u32, &str), Fault> {
    let (count, piece) = rest.split_once(' ').unwrap_or((rest, ""));
    if count.is_empty() {
        return Ok((1, piece));
    }
    Ok((count.parse()?, piece))
}
