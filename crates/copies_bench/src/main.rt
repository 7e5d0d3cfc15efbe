//! `copies_bench ENTRIES COPIES` makes a state of so many places, and copies it so many times. Each copy gets another value at one
//! place, and is then freed. `bench/copies.sh` takes its time.
#![tactic(auto)]

use sparse::Sparse;
use std::alloc::Global;
use std::process::ExitCode;
use std::{env, io};
use vb_base::Memory;
use vb_value::{Layout, Ty, Value};
use viper_state::{Memo, State, copy_state, empty_state};

fn main(rt: HostRuntime) -> ExitCode {
    match run(&rt) {
        Ok(true) => ExitCode::SUCCESS,
        Ok(false) => ExitCode::FAILURE,
        Err(_) => ExitCode::from(2),
    }
}

/// Copies as the first two words say, where one that is missing or no number counts as 0. Answers whether there are two
/// words, and there was memory.
fn run(rt: &HostRuntime) -> io::Result<bool> {
    let mut numbers = [0u64; 2];
    let mut i = 0usize;
    for word in env::args(rt)?.skip(1) {
        if let Some(slot) = numbers.get_mut(i) {
            *slot = word.as_str().parse::<u64>().ok().unwrap_or(0);
        }
        i = i.saturating_add(1);
    }
    let [entries, copies] = numbers;
    match copied(rt.alloc(), entries, copies) {
        Ok(()) => {
            println!(rt; "{entries} entries, {copies} copies")?;
            Ok(i == 2)
        }
        Err(_) => Ok(false),
    }
}

/// Copies a state of so many places so many times, and changes each copy.
fn copied(alloc: Global, entries: u64, copies: u64) -> Result<(), Memory> {
    let state = state(alloc, entries)?;
    for i in 0..copies {
        let mut copy = copy_state(alloc, &state)?;
        copy.set_value(0, i, Value::Int(-1))?;
    }
    Ok(())
}

/// A state of one field, which is 1 at so many references.
fn state(alloc: Global, entries: u64) -> Result<State, Memory> {
    let mut values = Sparse::make(alloc, Value::Int(0))?;
    for reference in 0..entries {
        values.set(reference, Value::Int(1))?;
    }
    let layout = Layout {
        fields: vec![in alloc; Ty::Int]?,
        keys: Vec::new(alloc),
    };
    let memo = Memo {
        heap: vec![in alloc; values]?,
        content: Vec::new(alloc),
    };
    empty_state(alloc, &layout, &memo)
}
