//! What certificates show of the units of a program, in whatever language it is: the conditions of a unit, where certificates come from,
//! what one shows, and the answers for all units.
//!
//! No contract depends on where certificates come from, nor on how they are made or cut out of a file, since each is checked against the
//! conditions of its unit.
#![tactic(auto)]

mod answers;
mod certificates;
mod conditions;
mod faults;
mod sections;
mod verdicts;

pub use answers::{Unfound, UnitAnswer, UnitVerdict, are_all_proved};
pub use certificates::{Certificates, Offer};
pub use conditions::UnitConditions;
pub use faults::CertificateFault;
pub use sections::{Rest, Sections};
pub use verdicts::{verdict, verdict_of_offer};
