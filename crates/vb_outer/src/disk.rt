//! The files of the system as a shelf.
ghost use Rattle.std.specs.Prelude.{◌≡◌, [], None, Some};
ghost use Rattle.vb_outer.specs.Shelf.{IsClosed};

use crate::{Failed, Shelf, count_fault};
use std::fs;
use std::io::Read;
use std::rt::Files;

/// The files of the system, by their paths. It tells nothing of them, and counts each error as a fault.
#[derive(Drop)]
pub struct DiskShelf<R: Files> {
    rt: R,
    begun: Option<R::File>,
    faults: u64,
}

impl<R: Files> DiskShelf<R> {
    /// The files that the runtime reaches.
    pub fn make(rt: R) -> Self
        ensures closed { IsClosed (⟦<DiskShelf<R> as Shelf>⟧.left result) }
        ensures faults { ⟦<DiskShelf<R> as Shelf>⟧.faults result ≡ 0 }
    {
        DiskShelf {
            rt,
            begun: None,
            faults: 0,
        }
    }
}

impl<R: Files> Shelf for DiskShelf<R> {
    ghost files = { λ _. None };

    ghost left = { λ s. elim s.begun [ None ↦ Some [] | Some _ ↦ None ] };

    ghost faults = { λ s. s.faults };

    fn begin(&mut self, name: &str) -> Result<(), Failed> {
        self.begun = None;
        match fs::open(&self.rt, name) {
            Ok(file) => {
                self.begun = Some(file);
                Ok(())
            }
            Err(_) => Err(count_fault(&mut self.faults)),
        }
    }

    fn read(&mut self, buf: &mut [u8]) -> Result<usize, Failed> {
        let Some(file) = &mut self.begun else {
            return Ok(0);
        };
        match file.read(buf) {
            Ok(count) => Ok(count),
            Err(_) => Err(count_fault(&mut self.faults)),
        }
    }
}
