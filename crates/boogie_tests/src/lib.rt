//! Tests of public calls of Boogie's side, for what no clause and no row of `row_tests` says: expressions that are read from tokens,
//! procedures that are sent piece by piece, and the types of programs with loops and calls. A table is one string, a row a line.
#![tactic(auto)]

#[cfg(test)]
mod bexprs;
#[cfg(test)]
mod sent;
#[cfg(test)]
mod sizes;
#[cfg(test)]
mod wides;
