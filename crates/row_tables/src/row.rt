// A row of a table: a call of a program, and how it has to end.

use crate::fault::Fault;
use std::alloc::{AllocError, Global};
use vb_outer::MemFile;

/// How many bytes a call of a device moves at most, where the row does not say it.
const MOST: usize = 65_536;

/// What a text of a table is.
#[derive(Clone, Copy, Debug, PartialEq, Eq)]
pub(crate) enum Place {
    /// No text is expected.
    Nowhere,
    /// A text that later rows use by its name.
    Shared,
    /// The last file of the row.
    File,
    Out,
    Err,
}

/// A call of a program, and how it has to end.
#[derive(Drop)]
pub struct Row {
    /// In plain words.
    pub name: String,
    pub call: Call,
    pub end: End,
}

/// A call: its words, the files, and the devices.
#[derive(Drop)]
pub struct Call {
    pub words: Vec<String>,
    pub files: Vec<MemFile>,
    /// Further files, each with what a command writes over the files and over those that stand before it.
    pub written: Vec<Written>,
    pub shelf: Device,
    pub out: Device,
    pub err: Device,
}

/// A file with what a command writes.
#[derive(Drop)]
pub struct Written {
    /// The bytes of the file's name.
    pub name: Vec<u8>,
    /// The words of the command.
    pub words: Vec<String>,
}

/// A device: the numbers of the calls that fail, from 1 on, and how many bytes a call moves at most.
#[derive(Drop)]
pub struct Device {
    pub failing: Vec<u64>,
    pub most: usize,
    /// Where each call is to fail in turn, how many there are at least.
    pub in_turn: Option<u64>,
}

/// How a call ends.
#[derive(Drop)]
pub struct End {
    /// A row that says no status ends otherwise than it says.
    pub status: Option<u8>,
    /// What stands in the output, or how that begins.
    pub out: Vec<u8>,
    pub is_whole: bool,
    /// Lines of the output, and lines that it has not.
    pub has: Vec<String>,
    pub lacks: Vec<String>,
    pub err: Vec<u8>,
}

impl Row {
    /// A row of this name that translates the file `file.vpr`, which is missing, and writes nothing.
    pub fn new(alloc: Global, name: &str) -> Result<Row, AllocError> {
        Ok(Row {
            name: name.to_string(alloc)?,
            call: Call::new(alloc, "translate file.vpr", Vec::new(alloc))?,
            end: End::new(alloc),
        })
    }

    /// Puts a text in its place.
    pub(crate) fn put(&mut self, place: Place, text: Vec<u8>) {
        match place {
            Place::Nowhere | Place::Shared => {}
            Place::File => {
                if let Some(file) = self.call.files.last_mut() {
                    file.bytes = text;
                }
            }
            Place::Out => self.end.out = text,
            Place::Err => self.end.err = text,
        }
    }
}

impl Call {
    /// A call of these words over these files, whose devices do not fail.
    pub fn of(alloc: Global, words: Vec<String>, files: Vec<MemFile>) -> Call {
        Call {
            words,
            files,
            written: Vec::new(alloc),
            shelf: Device::new(alloc),
            out: Device::new(alloc),
            err: Device::new(alloc),
        }
    }

    /// The same, of the words of a text.
    pub fn new(alloc: Global, words: &str, files: Vec<MemFile>) -> Result<Call, AllocError> {
        Ok(Call::of(alloc, words_of(alloc, words)?, files))
    }

    /// The same call over its files, without those that are written.
    pub fn copy(&self, alloc: Global) -> Result<Call, AllocError> {
        let words = copies_of(alloc, &self.words)?;
        let files = files_of(alloc, &self.files)?;
        Ok(Call {
            words,
            files,
            written: Vec::new(alloc),
            shelf: self.shelf.copy(alloc)?,
            out: self.out.copy(alloc)?,
            err: self.err.copy(alloc)?,
        })
    }

    /// Takes what a line says of a further file: its name, and then the words of the command that writes it.
    pub(crate) fn take_written(&mut self, alloc: Global, text: &str) -> Result<(), Fault> {
        let Some((name, words)) = text.split_once(' ') else {
            return Err(Fault::Line);
        };
        let name = name.as_bytes().to_vec(alloc)?;
        let words = words_of(alloc, words)?;
        self.written.push(Written { name, words })?;
        Ok(())
    }

    /// Takes what a line says of a device: which calls fail, or how many bytes a call moves.
    pub(crate) fn take(&mut self, device: &str, what: &str, rest: &str) -> Result<(), Fault> {
        match device {
            "shelf" => self.shelf.take(what, rest),
            "out" => self.out.take(what, rest),
            "err" => self.err.take(what, rest),
            _ => Err(Fault::Line),
        }
    }
}

impl Device {
    fn new(alloc: Global) -> Device {
        Device {
            failing: Vec::new(alloc),
            most: MOST,
            in_turn: None,
        }
    }

    fn copy(&self, alloc: Global) -> Result<Device, AllocError> {
        Ok(Device {
            failing: self.failing.to_vec(alloc)?,
            most: self.most,
            in_turn: self.in_turn,
        })
    }

    fn take(&mut self, word: &str, rest: &str) -> Result<(), Fault> {
        match word {
            "fails" => {
                for number in rest.split_whitespace() {
                    self.failing.push(number.parse()?)?;
                }
                Ok(())
            }
            "fails-each" => {
                self.in_turn = Some(rest.parse()?);
                Ok(())
            }
            "moves" => {
                self.most = rest.parse()?;
                Ok(())
            }
            _ => Err(Fault::Line),
        }
    }
}

impl End {
    fn new(alloc: Global) -> End {
        End {
            status: None,
            out: Vec::new(alloc),
            is_whole: true,
            has: Vec::new(alloc),
            lacks: Vec::new(alloc),
            err: Vec::new(alloc),
        }
    }

    /// Takes what a line says of the end. A text may follow on `out`, `out-begins` and `err`.
    pub(crate) fn take(&mut self, alloc: Global, word: &str, rest: &str) -> Result<(), Fault> {
        match word {
            "status" => self.status = Some(rest.parse()?),
            "err" | "out" => {}
            "err-is" => {
                self.err.extend_from_slice(rest.as_bytes())?;
                self.err.push(b'\n')?;
            }
            "out-begins" => self.is_whole = false,
            "out-has" => {
                self.is_whole = false;
                self.has.push(rest.to_string(alloc)?)?;
            }
            "out-lacks" => {
                self.is_whole = false;
                self.lacks.push(rest.to_string(alloc)?)?;
            }
            _ => return Err(Fault::Line),
        }
        Ok(())
    }
}

/// The same files.
pub fn files_of(alloc: Global, files: &[MemFile]) -> Result<Vec<MemFile>, AllocError> {
    let mut copies = Vec::new(alloc);
    for file in files {
        copies.push(MemFile {
            name: file.name.to_vec(alloc)?,
            bytes: file.bytes.to_vec(alloc)?,
        })?;
    }
    Ok(copies)
}

/// The same words.
pub fn copies_of(alloc: Global, words: &[String]) -> Result<Vec<String>, AllocError> {
    let mut copies = Vec::new(alloc);
    for word in words {
        copies.push(word.as_str().to_string(alloc)?)?;
    }
    Ok(copies)
}

/// The words of a text, divided by blanks.
pub fn words_of(alloc: Global, text: &str) -> Result<Vec<String>, AllocError> {
    let mut words = Vec::new(alloc);
    for word in text.split_whitespace() {
        words.push(word.to_string(alloc)?)?;
    }
    Ok(words)
}
