//! The outside of the tool: a shelf of files to read and sinks to write to, each with a count of its faults, so that
//! a caller that answers a fault can be asked for its cause.
#![tactic(auto)]

mod calls;
mod disk;
mod fault;
mod mem_shelf;
mod mem_sink;
mod shelf;
mod sink;
mod standard;

pub use disk::DiskShelf;
use fault::count_fault;
pub use fault::{Failed, FileFault};
pub use mem_shelf::{MemFile, MemShelf};
pub use mem_sink::MemSink;
pub use memory::Memory;
pub use shelf::{Shelf, closed_gives_nothing, read_file};
pub use sink::{Sink, write_all, written_in_turn};
pub use standard::StdSink;
