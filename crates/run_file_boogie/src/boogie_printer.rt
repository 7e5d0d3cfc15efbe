// The text of a run of Boogie.
ghost use Rattle.std.specs.Prelude.{◌≡◌, ◌++◌, All, None, IfOk, OnOk, length, map, replicate, slice_get, slice_set, Some};
ghost use Rattle.std.specs.Option.{option_map};
ghost use Rattle.boogie_tree.specs.Value as v;
ghost use Rattle.boogie_tree.specs.Whole.{choice_of, entry_of, locals_of, local_of, proc_of, run_of, scalar_of, setting_of, value_of};
ghost use Rattle.moves.specs.Printable.{IsNamedEntry, IsNamedKey, IsNamedMove, IsNamedScalar};
ghost use Rattle.run_file_boogie.specs.BoogieLines.{known};
ghost use Rattle.run_file_boogie.specs.BoogiePrintable.{FitsWithin, KeepsNames};
ghost use Rattle.run_file_boogie.specs.BoogiePrinted as text;
ghost use Rattle.run_file_boogie.specs.BoogieRun.{entries_of, SpellsBoogieRun};
ghost use Rattle.run_file_boogie.specs.BoogieView.{filling_of, found_value, found_values};
ghost use Rattle.run_file_words.specs.Printed.{named_text, numbered_text};

use crate::boogie_values::is_default;
use crate::named::named_settings;
use boogie_tree::{BChoice, BRun, BScalar, BSetting, BValue, Entry, Local, Proc};
use run_file_words::{put_content, put_fraction, put_key, put_number, put_reference, truth_text};
use sparse::Sparse;
use std::alloc::Global;
use vb_base::{Ident, Memory, put};
use vb_value::Key;

/// The text of a run of a procedure: the header, the variables other than their default in order of declaration, and the
/// choices in order. Where settings name a variable twice, the last counts. `Memory` where there is no memory.
pub fn print_boogie_run(alloc: Global, proc: &Proc, run: &BRun) -> Result<Vec<u8>, Memory>
    ensures bytes { IfOk result (λ out. out.items ≡ text.run_text (proc_of proc.now) (run_of run.now)) }

    // and so they spell the run, where its settings give variables values of their types, and all is within the bound
    ensures spells { IfOk result (λ out. KeepsNames (proc_of proc.now) → FitsWithin (proc_of proc.now) (run_of run.now) →
        SpellsBoogieRun out.items (proc_of proc.now) (run_of run.now)) }

    // each reference of the code is below 2^64, so that of what is printable this need not be asked of the choices
    ensures named { IfOk result (λ out. All IsNamedMove (run_of run.now).choices) }
{
    let mut out = Vec::new(alloc);
    put_beginning(alloc, &mut out, proc, &run.settings)?;
    put_choices(&mut out, &run.choices)?;
    named_settings(&run.settings);
    Ok(out)
}

/// What stands before the choices: the header, and the variables.
pub(crate) fn put_beginning(
    alloc: Global,
    out: &mut Vec<u8>,
    proc: &Proc,
    settings: &[BSetting],
) -> Result<(), Memory>
    ensures { OnOk result (out.new.items ≡ out.old.items ++ text.beginning_text (proc_of proc.now) (map setting_of settings.now)) }
{
    put(out, b"boogie run ")?;
    put(out, proc.name.bytes())?;
    put(out, b"\n")?;
    put_variables(alloc, out, &proc.locals, settings)
}

/// The variables other than their default.
fn put_variables(
    alloc: Global,
    out: &mut Vec<u8>,
    locals: &[Local],
    settings: &[BSetting],
) -> Result<(), Memory>
    ensures { OnOk result (out.new.items ≡ out.old.items
        ++ numbered_text text.given_text (known (locals_of locals.now)).names 0 (text.given (length (locals_of locals.now)) (map setting_of settings.now))) }
{
    let places = last_places(alloc, locals.len(), settings)?;
    put_settings(out, locals, settings, &places)
}

/// For each of so many variables, where the last of its settings stands.
fn last_places(
    alloc: Global,
    count: usize,
    settings: &[BSetting],
) -> Result<Vec<Option<usize>>, Memory>
    ensures { IfOk result (λ v. found_values settings.now v.items ≡ text.given count (map setting_of settings.now)) }
{
    let mut places = no_places(alloc, count)?;
    for (i, setting) in settings.iter().enumerate() {
        set_place(&mut places, setting.var, i);
    }
    Ok(places)
}

fn no_places(alloc: Global, count: usize) -> Result<Vec<Option<usize>>, Memory>
    ensures { IfOk result (λ v. v.items ≡ replicate count None) }
{
    let mut places = Vec::with_capacity(alloc, count)?;
    for _ in 0..count {
        places.push(None)?;
    }
    Ok(places)
}

fn set_place(places: &mut Vec<Option<usize>>, var: usize, place: usize)
    ensures { places.new.items ≡ slice_set places.old.items var (Some place) }
{
    if let Some(slot) = places.get_mut(var) {
        *slot = Some(place);
    }
}

fn put_settings(
    out: &mut Vec<u8>,
    locals: &[Local],
    settings: &[BSetting],
    places: &[Option<usize>],
) -> Result<(), Memory>
    ensures { OnOk result (out.new.items ≡ out.old.items ++ numbered_text text.given_text (known (locals_of locals.now)).names 0 (found_values settings.now places.now)) }
{
    for (i, place) in places.iter().enumerate() {
        put_placed(out, locals.get(i), settings, *place)?;
    }
    Ok(())
}

/// What the setting at a place gives a variable.
fn put_placed(
    out: &mut Vec<u8>,
    local: Option<&Local>,
    settings: &[BSetting],
    place: Option<usize>,
) -> Result<(), Memory>
    ensures { OnOk result (out.new.items ≡ out.old.items ++ named_text text.given_text (option_map (λ x. (local_of x.now).name) local.entry) (found_value settings.now place)) }
{
    match place {
        Some(place) => put_given(out, local, settings.get(place)),
        None => Ok(()),
    }
}

fn put_given(
    out: &mut Vec<u8>,
    local: Option<&Local>,
    setting: Option<&BSetting>,
) -> Result<(), Memory>
    ensures { OnOk result (out.new.items ≡ out.old.items
        ++ named_text text.given_text (option_map (λ x. (local_of x.now).name) local.entry) (option_map (λ x. (setting_of x.now).value) setting.entry)) }
{
    let Some(local) = local else {
        return Ok(());
    };
    match setting {
        Some(setting) => put_value(out, &local.name, &setting.value),
        None => Ok(()),
    }
}

/// A variable, unless it has its default.
fn put_value(out: &mut Vec<u8>, name: &Ident, value: &BValue) -> Result<(), Memory>
    ensures { OnOk result (out.new.items ≡ out.old.items ++ text.value_text name.now (value_of value.now)) }
{
    match value {
        BValue::One(value) => put_one(out, name, value),
        BValue::Map(map) => put_map(out, name, map),
    }
}

fn put_one(out: &mut Vec<u8>, name: &Ident, value: &BScalar) -> Result<(), Memory>
    ensures { OnOk result (out.new.items ≡ out.old.items ++ text.value_text name.now (v.One (scalar_of value.now))) }
{
    if is_default(value) {
        return Ok(());
    }
    put(out, b"var ")?;
    put(out, name.bytes())?;
    put(out, b" ")?;
    put_scalar(out, value)?;
    put(out, b"\n")
}

fn put_map(out: &mut Vec<u8>, name: &Ident, filled: &Sparse<Key, BScalar>) -> Result<(), Memory>
    ensures { OnOk result (out.new.items ≡ out.old.items ++ text.value_text name.now (v.Many (filling_of filled.now))) }
{
    if filled.len() == 0 {
        return Ok(());
    }
    put(out, b"entries ")?;
    put(out, name.bytes())?;
    put(out, b"\n")?;
    put_filled(out, filled)
}

/// The places of a map, in ascending order of the keys.
fn put_filled(out: &mut Vec<u8>, filled: &Sparse<Key, BScalar>) -> Result<(), Memory>
    ensures { OnOk result (out.new.items ≡ out.old.items ++ text.entries_text (entries_of (filling_of filled.now))) }
{
    for i in 0..filled.len() {
        let key = filled.key_at(i);
        put_place(out, key, filled.get(key))?;
    }
    Ok(())
}

fn put_entries(out: &mut Vec<u8>, entries: &[Entry]) -> Result<(), Memory>
    ensures text { OnOk result (out.new.items ≡ out.old.items ++ text.entries_text (map entry_of entries.now)) }
    ensures named { OnOk result (All IsNamedEntry (map entry_of entries.now)) }
{
    for entry in entries {
        put_place(out, &entry.key, &entry.value)?;
    }
    Ok(())
}

pub(crate) fn put_place(out: &mut Vec<u8>, key: &Key, value: &BScalar) -> Result<(), Memory>
    ensures text { OnOk result (out.new.items ≡ out.old.items ++ text.entry_text (record { key = key.now; value = scalar_of value.now })) }
    ensures named { OnOk result (IsNamedKey key.now × IsNamedScalar (scalar_of value.now)) }
{
    put(out, b"at ")?;
    put_key(out, key.parts())?;
    put_scalar(out, value)?;
    put(out, b"\n")
}

fn put_scalar(out: &mut Vec<u8>, value: &BScalar) -> Result<(), Memory>
    ensures text { OnOk result (out.new.items ≡ out.old.items ++ text.scalar_text (scalar_of value.now)) }
    ensures named { OnOk result (IsNamedScalar (scalar_of value.now)) }
{
    match value {
        BScalar::Int(number) => put_number(out, *number),
        BScalar::Bool(truth) => put(out, truth_text(*truth)),
        BScalar::Ref(reference) => put_reference(out, *reference),
        BScalar::Real(fraction) => put_fraction(out, *fraction),
        BScalar::Snap(content) => put_content(out, content),
    }
}

fn put_choices(out: &mut Vec<u8>, choices: &[BChoice]) -> Result<(), Memory>
    ensures text { OnOk result (out.new.items ≡ out.old.items ++ text.choices_text (map choice_of choices.now)) }
    ensures named { OnOk result (All IsNamedMove (map choice_of choices.now)) }
{
    for choice in choices {
        put_choice(out, choice)?;
    }
    Ok(())
}

fn put_choice(out: &mut Vec<u8>, choice: &BChoice) -> Result<(), Memory>
    ensures text { OnOk result (out.new.items ≡ out.old.items ++ text.choice_text (choice_of choice.now)) }
    ensures named { OnOk result (IsNamedMove (choice_of choice.now)) }
{
    match choice {
        BChoice::Pick(way) => put_pick(out, *way),
        BChoice::Value(value) => put_chosen(out, value),
        BChoice::Entries(entries) => {
            put(out, b"entries\n")?;
            put_entries(out, entries)
        }
    }
}

pub(crate) fn put_pick(out: &mut Vec<u8>, way: bool) -> Result<(), Memory>
    ensures { OnOk result (out.new.items ≡ out.old.items ++ text.choice_text (v.Pick way)) }
{
    put(out, b"pick ")?;
    put(out, truth_text(way))?;
    put(out, b"\n")
}

pub(crate) fn put_chosen(out: &mut Vec<u8>, value: &BScalar) -> Result<(), Memory>
    ensures text { OnOk result (out.new.items ≡ out.old.items ++ text.choice_text (v.Value (scalar_of value.now))) }
    ensures named { OnOk result (IsNamedScalar (scalar_of value.now)) }
{
    put(out, b"value ")?;
    put_scalar(out, value)?;
    put(out, b"\n")
}
