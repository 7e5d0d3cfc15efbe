//! Tests of public calls that join Viper and Boogie, for what no clause and no row of `row_tests` says: the code that is written, typed,
//! printed and read back, run files of both, and how runs and executions end. A table is one string, a row a line.
#![tactic(auto)]

#[cfg(test)]
mod codes;
#[cfg(test)]
mod emitted;
#[cfg(test)]
mod executions;
#[cfg(test)]
mod moved;
#[cfg(test)]
mod programs;
#[cfg(test)]
mod rows;
#[cfg(test)]
mod runs;
#[cfg(test)]
mod trees;
