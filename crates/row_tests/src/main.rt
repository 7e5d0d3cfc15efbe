//! `row_tests TABLE..` runs the rows of tables through the tool and through `prove`, over files and sinks in memory.
//!
//! It prints each row that ends otherwise than it says, and the number of rows of each table. `docs/rows.md` says how a
//! table is written.
#![tactic(auto)]

mod again;
mod trial;
mod turns;

use row_tables::Table;
use std::alloc::Global;
use std::process::ExitCode;
use std::{env, fs, io};
use trial::ends_as_said;

/// The status where the tables cannot be read, or the lines not be written.
const FAILED: u8 = 2;

fn main(rt: HostRuntime) -> ExitCode {
    match run_tables(&rt) {
        Ok(true) => ExitCode::SUCCESS,
        Ok(false) => ExitCode::FAILURE,
        Err(_) => ExitCode::from(FAILED),
    }
}

/// Runs the tables that the words name, and answers whether all their rows end as they say.
fn run_tables(rt: &HostRuntime) -> io::Result<bool> {
    let mut all = true;
    for name in env::args(rt)?.skip(1) {
        let text = fs::read_to_string(rt, name.as_str())?;
        all &= run_table(rt, rt.alloc(), name.as_str(), text.as_str())?;
    }
    Ok(all)
}

/// Runs the rows of a table in order. Where a line may not stand in a table it is told, and no row runs.
fn run_table(rt: &impl Print, alloc: Global, name: &str, text: &str) -> io::Result<bool> {
    let mut table = Table::new(alloc)?;
    for (before, line) in text.lines().enumerate() {
        if let Err(fault) = table.take(alloc, line) {
            let number = before.saturating_add(1);
            println!(rt; "{name}: line {number}: {fault}")?;
            return Ok(false);
        }
    }
    let rows = table.into_rows(alloc);
    let count = rows.len();
    let mut all = true;
    for row in rows {
        all &= ends_as_said(rt, alloc, row)?;
    }
    println!(rt; "{name}: {count} rows")?;
    Ok(all)
}
