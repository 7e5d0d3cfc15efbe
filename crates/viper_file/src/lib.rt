//! A file of Viper, from its bytes to its typed program, or why it is refused; and that nothing of the program fails where none of its
//! units does.
#![tactic(auto)]

mod accepting;
mod fault;
pub mod laws;

pub use accepting::{program_and_word, typed_program};
pub use fault::{ViperFault, ViperRefusal};
