//! What nearly every crate of the front end speaks of: places in a text, names, numbers, limits, the labels of failures, and the
//! lack of memory.
#![tactic(auto)]

mod bytes;
mod labels;
pub mod limits;
mod literals;
mod names;
mod owned;
mod places;
mod texts;

pub use bytes::{put, same_bytes};
pub use labels::{Kind, Label, label_text, one_label, read_label, same_label};
pub use literals::Literal;
pub use memory::Memory;
pub use names::Ident;
pub use owned::{boxed, boxed_pair, kept, pushed};
pub use places::Pos;
pub use texts::{advance, place_after};
