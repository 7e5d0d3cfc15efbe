//! A shelf in memory.
ghost use Rattle.std.specs.Prelude.{◌≡◌, ◌⊎◌, ◌++◌, ◌≤◌, ◌<◌, [], length, take, drop, map, not, IsTrue, is_ok, is_some, None, Some, IfOk, OnOk, OnErr, IsErr, MatchOption};
ghost use Rattle.std.specs.List.{AllByRecursion};
ghost use Rattle.vb_outer.specs.Calls.{fails_next};
ghost use Rattle.vb_outer.specs.Faults.{HasCause, Rose};
ghost use Rattle.vb_outer.specs.MemShelf.{file_named, names_differ, begun_file, after_begin, read_count, after_read};
ghost use Rattle.vb_outer.specs.Place.{held, bytes_at, rest_at};
ghost use Rattle.vb_outer.specs.Shelf.{IsMissing, IsFile, IsClosed, IsBegun, Reads};

use crate::calls::Schedule;
use crate::{Failed, Shelf};
use std::marker::Model;

/// A file in memory.
#[derive(Drop)]
pub struct MemFile {
    pub name: Vec<u8>,
    pub bytes: Vec<u8>,
}

/// A place in a file: the file's index, and how many of its bytes lie before.
#[derive(Clone, Copy)]
struct FilePlace {
    file: usize,
    at: usize,
}

/// Holds its files, gives a fixed number of bytes a call, and fails the calls that it is told to fail.
#[derive(Drop)]
pub struct MemShelf {
    files: Vec<MemFile>,
    begun: Option<FilePlace>,
    most: usize,
    schedule: Schedule,
}

impl Model for MemShelf {
    ghost use Rattle.std.specs.Prelude.{◌<◌, map};
    ghost use Rattle.vb_outer.specs.MemShelf.{ShelfState};

    ghost Value = { ShelfState };

    ghost use Rattle.vb_outer.specs.Place.{held, rest_at};

    ghost view = { λ s. record {
      files = map held s.files.items;
      left = rest_at s.files.items s.begun;
      most = s.most;
      calls = s.schedule;
    } };

    ghost invariant = { λ s. 0 < s.most };
}

impl MemShelf {
    ghost use Rattle.vb_outer.specs.Place.{held};

    /// A shelf with these files that gives at most `most` bytes a call and fails the calls whose numbers, counted
    /// from 1 over both methods, stand in `failing`.
    pub fn make(files: Vec<MemFile>, failing: Vec<u64>, most: usize) -> MemShelf
        requires most { 1 ≤ most }
        requires differ { IsTrue (names_differ (map held files.items)) }
        ensures made { result ≡ record {
          files = map held files.items;
          left = [];
          most = most;
          calls = record { failing = failing.items; made = 0; faults = 0 };
        } }

        // Each file is told under its own name.
        ensures told { AllByRecursion
            (λ file. IsFile (Some (file_named result.files)) file.0 file.1) result.files }
    {
        MemShelf {
            files,
            begun: None,
            most,
            schedule: Schedule::new(failing),
        }
    }
}

/// The index of the file of that name.
fn find_file(files: &[MemFile], name: &[u8]) -> Option<usize>
    ensures { MatchOption result (file_named (map held files.now) name.now ≡ None)
        (λ index. (index < length files.now)
        × (file_named (map held files.now) name.now ≡ Some (bytes_at files.now index))) }
{
    for (index, file) in files.iter().enumerate() {
        if file.name.as_slice() == name {
            return Some(index);
        }
    }
    None
}

/// The bytes from a place on.
fn rest(files: &[MemFile], place: Option<FilePlace>) -> &[u8]
    ensures { result.now ≡ rest_at files.now place }
{
    let Some(place) = place else { return &[] };
    let Some(file) = files.get(place.file) else {
        return &[]
    };
    if place.at < file.bytes.len() {
        &file.bytes[place.at..]
    } else {
        &[]
    }
}

impl Shelf for MemShelf {
    ghost files = { λ s. Some (file_named s.files) };

    ghost left = { λ s. Some s.left };

    ghost faults = { λ s. s.calls.faults };

    /// It fails at a missing name, without a fault, and else at the listed calls alone.
    fn begin(&mut self, name: &str) -> Result<(), Failed>
        ensures begun { OnOk result
            (IsBegun (Some (file_named self.old.files)) name.now (Some self.new.left)) }
        ensures closed { OnErr result (IsClosed (Some self.new.left)) }
        ensures missing { IsMissing (Some (file_named self.old.files)) name.now
            → IsErr result × (self.new.calls.faults ≡ self.old.calls.faults) }
        ensures cause { OnErr result (IsMissing (Some (file_named self.old.files)) name.now
            ⊎ Rose self.old.calls.faults self.new.calls.faults) }
        ensures later { self.old.calls.faults ≤ self.new.calls.faults }
        ensures same { Some (file_named self.new.files) ≡ Some (file_named self.old.files) }

        ensures answer { is_ok result ≡ is_some (begun_file self.old name.now) }
        ensures after { self.new ≡ after_begin self.old name.now }
    {
        let fails = self.schedule.call();
        self.begun = None;
        let Some(file) = find_file(&self.files, name.as_bytes()) else {
            return Err(Failed);
        };
        if fails {
            return Err(self.schedule.fault());
        }
        self.begun = Some(FilePlace { file, at: 0 });
        Ok(())
    }

    /// Gives as many bytes as the smallest of `most`, the buffer's length and what is left of the begun file. It
    /// fails the listed calls alone.
    fn read(&mut self, buf: &mut [u8]) -> Result<usize, Failed>
        ensures bound { IfOk result (λ count. count ≤ length buf.new) }
        ensures bytes { Reads (Some self.old.left) (Some self.new.left) result buf.new }
        ensures cause { HasCause self.old.calls.faults self.new.calls.faults result }
        ensures same { Some (file_named self.new.files) ≡ Some (file_named self.old.files) }

        ensures answer { is_ok result ≡ not (fails_next self.old.calls) }
        ensures count { IfOk result (λ count. count ≡ read_count self.old (length buf.old)) }
        ensures buffer { IfOk result (λ count. buf.new ≡ take count self.old.left ++ drop count buf.old) }
        ensures after { self.new ≡ after_read self.old (length buf.old) }
    {
        if self.schedule.call() {
            return Err(self.schedule.fault());
        }
        let rest = rest(&self.files, self.begun);
        let count = self.most.min(buf.len()).min(rest.len());
        buf[..count].copy_from_slice(&rest[..count]);
        if let Some(place) = &mut self.begun {
            place.at += count;
        }
        Ok(count)
    }
}
