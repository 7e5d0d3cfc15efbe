//! Exact 128-bit numbers, reduced fractions, values, keys and contents.
//!
//! Every operation answers its exact value, or `Over` where a number of its computation is beyond
//! `MAX` in magnitude.
#![tactic(auto)]

mod contents;
mod fractions;
mod keys;
pub mod laws;
mod numbers;
mod values;

pub use contents::{Content, PairFault};
pub use fractions::Frac;
pub use keys::{Key, KeyPart};
pub use numbers::{MAX, Over, int_add, int_div, int_mod, int_mul, int_sub};
pub use values::{Layout, Ty, Value};
pub use vb_base::Memory;
