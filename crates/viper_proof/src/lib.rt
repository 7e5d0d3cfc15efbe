//! The proof that nothing of a file of Viper fails, as one call: from the bytes of the file and from certificates to what is shown of
//! each of its units.
//!
//! The contract of `proved` speaks of Viper alone. It does not depend on where certificates come from, nor on how they are made or cut
//! out of a file, since each is checked against the conditions of its unit.
#![tactic(auto)]

mod conditions;
mod faults;
mod proving;
mod units;

pub use conditions::unit_conditions;
pub use faults::Unproved;
pub use proving::proved;
pub use units::unit_answers;
