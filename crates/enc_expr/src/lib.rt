//! Expressions of Viper as code of Boogie, which fails, continues and stops just as the expression does.
//!
//! `specs/` says what is written for each form (`Encoding`), how a state of Viper stands in the variables of Boogie
//! (`Coupling`), and when a run of the code is alike (`Alike`).
#![tactic(auto)]

mod blocks;
pub mod call_laws;
mod calls;
mod codes;
mod copying;
mod emits;
mod fillings;
pub mod laws;
mod openings;
mod operands;
mod operators;
mod own_kinds;
mod places;
mod plains;
mod readings;
mod terms;
pub mod worked;

pub use blocks::{add, add_all};
pub use calls::checked;
pub use codes::{check, check_all, check_amount, fill};
pub use copying::copied;
pub use emits::Emit;
pub use fillings::{Source, add_to, check_nonnegative, if_positive, set_value};
pub use openings::{
    InstanceAmount, check_positive, copies, copy_state, fresh_indexed, fresh_masks, fresh_state,
    heap_of, indexed_map_of, taking,
};
pub use operands::{Atom, HeldAtom, Located, Operand, atomic, in_locals};
pub use operators::sides;
pub use own_kinds::OwnKinds;
pub use places::{Maps, Place};
pub use plains::{content_of, plain};
pub use readings::{Kinds, Reading, base_for, local_at, number};
pub use terms::{Index, at, binary, scaled};
