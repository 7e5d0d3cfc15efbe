//! Tests of public calls of the lowest crates, for what no clause and no row of `row_tests` says: each call once with values worked
//! out by hand. A table is one string, a row a line.
#![tactic(auto)]

#[cfg(test)]
mod devices;
#[cfg(test)]
mod generated;
#[cfg(test)]
mod maps;
#[cfg(test)]
mod rows;
#[cfg(test)]
mod states;
