// The search for values at which assertions fail.
use crate::labels::key_of;
use crate::standings::{Standings, try_all};
use boogie_formula::Conditions;
use search_base::{Fuel, SearchStop, get};
use std::alloc::Global;
use std::collections::BTreeSet;
use vb_base::{Label, Memory, label_text};

/// Searches values of the variables at which assertions fail, in at most `steps` steps for refuting them, and a fixed number for values.
///
/// The text has a line for each label of the conditions, in their order: `refuted LABEL`, where each assertion with this label was
/// refuted; `values LABEL`, where there are values at which one of them fails, as far as the search knows; or `open LABEL`. Behind
/// `values` stand lines `vN := VALUE`, and `vN[KEY, ..] := VALUE` for a map at keys, N the number of a variable from 1 on. Values are
/// spelled as in files of runs, and what is not named has the default of its type.
///
/// Nothing is promised of it: that a label is refuted is shown by a certificate alone, and that one fails by a run.
pub fn search_values(
    alloc: Global,
    conditions: &Conditions,
    steps: u64,
) -> Result<Vec<u8>, Memory> {
    let mut found = Standings::new(alloc);
    let mut fuel = Fuel::new(steps);
    let ended = try_all(alloc, conditions, &mut found, &mut fuel);
    let Fuel { left: _ } = fuel;
    if let Err(SearchStop::Memory) = ended {
        return Err(Memory);
    }
    text_of(alloc, conditions, &found)
}

/// The text of what is found: each label once.
fn text_of(alloc: Global, conditions: &Conditions, found: &Standings) -> Result<Vec<u8>, Memory> {
    let mut open = BTreeSet::new(alloc);
    for place in 0..conditions.fails.len() {
        if let Some(fail) = conditions.fails.get(place) {
            if !get(&found.refuted, place) {
                open.insert(key_of(fail.label))?;
            }
        }
    }
    let mut told = BTreeSet::new(alloc);
    let mut text = Vec::new(alloc);
    for fail in &conditions.fails {
        let label = key_of(fail.label);
        if told.insert(label)? {
            let values: Option<&[u8]> = match found.values.get(&label) {
                Some(it) => Some(it),
                None => None,
            };
            put_label(alloc, &mut text, fail.label, values, open.contains(&label))?;
        }
    }
    Ok(text)
}

/// Puts the line of a label, and behind it values, where there are some.
fn put_label(
    alloc: Global,
    text: &mut Vec<u8>,
    label: Label,
    values: Option<&[u8]>,
    is_open: bool,
) -> Result<(), Memory> {
    let word: &[u8] = match values {
        Some(_) => b"values ",
        None if is_open => b"open ",
        None => b"refuted ",
    };
    text.extend_from_slice(word)?;
    text.extend_from_slice(&label_text(alloc, &label)?)?;
    text.push(b'\n')?;
    text.extend_from_slice(values.unwrap_or(&[]))?;
    Ok(())
}
