// The process of a program: its words, its files and its streams.
use std::env;
use std::io::{ErrorKind, Stderr, Stdout};
use vb_base::Memory;
use vb_outer::{DiskShelf, StdSink};

/// What a program connects a tool to.
#[derive(Drop)]
pub struct Process {
    /// The words after the program's own name; none, where one of them is no UTF-8.
    pub words: Vec<String>,
    /// The files of the system.
    pub disk: DiskShelf<HostRuntime>,
    /// The standard output.
    pub out: StdSink<Stdout>,
    /// The standard stream of errors.
    pub err: StdSink<Stderr>,
}

impl Process {
    /// The process that the runtime stands for. `Memory` where there is no memory for its words.
    pub fn of(rt: HostRuntime) -> Result<Process, Memory> {
        let words = words(&rt)?;
        Ok(Process {
            words,
            out: StdSink::make(rt.stdout()),
            err: StdSink::make(rt.stderr()),
            disk: DiskShelf::make(rt),
        })
    }
}

/// The words after the program's own name; none, where one of them is no UTF-8.
fn words(rt: &HostRuntime) -> Result<Vec<String>, Memory> {
    let alloc = rt.alloc();
    match env::args(rt) {
        Ok(arguments) => Ok(arguments.skip(1).collect(alloc)?),
        Err(error) if error.kind() == ErrorKind::OutOfMemory => Err(Memory),
        Err(_) => Ok(Vec::new(alloc)),
    }
}
