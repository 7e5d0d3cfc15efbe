//! Linear arithmetic: contradictions among the comparisons that are assigned, and the steps that say them.
#![tactic(auto)]

mod checking;
mod comparing;
mod splits;
mod sums;
mod values;

pub use checking::check_numbers;
pub use comparing::{add_number, comparison, difference};
pub use splits::{against, compared, halves, split};
pub use sums::{refuted, sum_up};
pub use values::{all_values, close_ones};
