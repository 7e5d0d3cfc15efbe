// Reads a table, line by line. Blocks are divided by empty lines; each is a row, or a text that later rows use.

use crate::fault::Fault;
use crate::row::{Place, Row, words_of};
use crate::text::Text;
use boogie_tree::PRELUDE;
use std::alloc::{AllocError, Global};
use std::mem;
use vb_outer::MemFile;

/// What was read of a table so far: its rows, the texts that rows use by name, and where the next line belongs.
#[derive(Drop)]
pub struct Table {
    rows: Vec<Row>,
    shared: Vec<MemFile>,
    /// Whether lines of the last row may follow.
    in_row: bool,
    place: Place,
    text: Text,
}

impl Table {
    /// An empty table. It has the text `prelude`, what each translation begins with.
    pub fn new(alloc: Global) -> Result<Table, AllocError> {
        let prelude = MemFile {
            name: b"prelude".to_vec(alloc)?,
            bytes: PRELUDE
                .strip_suffix(b"\n")
                .unwrap_or(PRELUDE)
                .to_vec(alloc)?,
        };
        Ok(Table {
            rows: Vec::new(alloc),
            shared: vec![in alloc; prelude]?,
            in_row: false,
            place: Place::Nowhere,
            text: Text::new(alloc),
        })
    }

    /// The rows, where no more lines come.
    pub fn into_rows(mut self, alloc: Global) -> Vec<Row> {
        self.end_text(alloc);
        let Table {
            rows,
            shared: _,
            in_row: _,
            place: _,
            text: _,
        } = self;
        rows
    }

    /// Takes the next line.
    pub fn take(&mut self, alloc: Global, line: &str) -> Result<(), Fault> {
        if line.is_empty() {
            self.end_text(alloc);
            self.in_row = false;
            return Ok(());
        }
        if let Some(rest) = line.strip_prefix('|') {
            self.expect_text()?;
            return self.text.take_lines(rest);
        }
        if let Some(rest) = line.strip_prefix('~') {
            self.expect_text()?;
            return self.text.take_more(rest);
        }
        let (word, rest) = line.split_once(' ').unwrap_or((line, ""));
        self.take_words(alloc, word, rest)
    }

    fn expect_text(&self) -> Result<(), Fault> {
        match self.place {
            Place::Nowhere => Err(Fault::Line),
            _ => Ok(()),
        }
    }

    /// Takes a line by its first word and the rest.
    fn take_words(&mut self, alloc: Global, word: &str, rest: &str) -> Result<(), Fault> {
        match word {
            "#" => Ok(()),
            "lines" => {
                self.expect_text()?;
                self.take_shared(rest)
            }
            "row" => {
                self.begin_block()?;
                self.rows.push(Row::new(alloc, rest)?)?;
                self.in_row = true;
                Ok(())
            }
            "text" => {
                self.begin_block()?;
                self.shared.push(file_of(alloc, rest)?)?;
                self.place = Place::Shared;
                Ok(())
            }
            _ => {
                self.end_text(alloc);
                self.take_of_row(alloc, word, rest)
            }
        }
    }

    /// Adds the lines of the shared text of this name.
    fn take_shared(&mut self, name: &str) -> Result<(), Fault> {
        for shared in &self.shared {
            if shared.name.as_slice() == name.as_bytes() {
                return self.text.add_line(&shared.bytes);
            }
        }
        Err(Fault::Line)
    }

    /// A block begins only behind an empty line, or at the beginning of the table.
    fn begin_block(&self) -> Result<(), Fault> {
        if self.in_row || self.place != Place::Nowhere {
            return Err(Fault::Line);
        }
        Ok(())
    }

    /// Takes a line of the last row.
    fn take_of_row(&mut self, alloc: Global, word: &str, rest: &str) -> Result<(), Fault> {
        let Some(row) = self.rows.last_mut() else {
            return Err(Fault::Line);
        };
        if !self.in_row {
            return Err(Fault::Line);
        }
        self.place = place_of(word);
        match word {
            "words" => row.call.words = words_of(alloc, rest)?,
            "file" => row.call.files.push(file_of(alloc, rest)?)?,
            "written" => row.call.take_written(alloc, rest)?,
            _ => match word.split_once('-') {
                Some((device, what)) if is_of_device(what) => row.call.take(device, what, rest)?,
                _ => row.end.take(alloc, word, rest)?,
            },
        }
        Ok(())
    }

    /// Puts the text in the making where it belongs.
    fn end_text(&mut self, alloc: Global) {
        let text = mem::replace(&mut self.text, Text::new(alloc)).into_bytes();
        let place = mem::replace(&mut self.place, Place::Nowhere);
        if place == Place::Shared {
            if let Some(shared) = self.shared.last_mut() {
                shared.bytes = text;
            }
        } else if let Some(row) = self.rows.last_mut() {
            row.put(place, text);
        }
    }
}

/// Whether a line whose first word ends so says something of a device.
fn is_of_device(what: &str) -> bool {
    what == "fails" || what == "fails-each" || what == "moves"
}

/// What a text after this word is.
fn place_of(word: &str) -> Place {
    match word {
        "file" => Place::File,
        "out" | "out-begins" => Place::Out,
        "err" => Place::Err,
        _ => Place::Nowhere,
    }
}

/// A file of this name, which is empty; with no name it is `file.vpr`.
fn file_of(alloc: Global, name: &str) -> Result<MemFile, AllocError> {
    let name = if name.is_empty() { "file.vpr" } else { name };
    Ok(MemFile {
        name: name.as_bytes().to_vec(alloc)?,
        bytes: Vec::new(alloc),
    })
}
