//! Tests of public calls of Viper's side, for what no clause and no row of `row_tests` says: tokens, and what assertions do to a
//! state, with the events of a run. A table is one string, a row a line.
#![tactic(auto)]

#[cfg(test)]
mod assertions;
#[cfg(test)]
mod tokens;
#[cfg(test)]
mod told;
