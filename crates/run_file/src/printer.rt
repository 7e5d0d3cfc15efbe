// The text of a run.
ghost use Rattle.std.specs.Prelude.{◌≡◌, ◌++◌, IfOk, OnOk, map};
ghost use Rattle.std.specs.Option.{option_copied, option_map};
ghost use Rattle.vb_value.specs.View.{content_of};
ghost use Rattle.viper_core.specs.Formed.{IsFormed};
ghost use Rattle.viper_core.specs.Program as p;
ghost use Rattle.viper_core.specs.View.{predicate_of, program_of};
ghost use Rattle.viper_state.specs.View.{choice_of, contents_of, memo_of};
ghost use Rattle.run_file_words.specs.Printed.{named_text, numbered_text};
ghost use Rattle.run_file.specs.Printable.{FitsWithin};
ghost use Rattle.run_file.specs.Printed as text;
ghost use Rattle.run_file.specs.Run.{SpellsViperRun};
ghost use Rattle.run_file.specs.View.{run_of};

use crate::named::named_run;
use crate::names::variables_of;
use crate::runs::ViperRun;
use run_file_words::{put_content, put_fraction, put_key, put_reference, put_value, truth_text};
use sparse::Sparse;
use std::alloc::Global;
use vb_base::{Ident, Memory, put};
use vb_value::{Content, Key, Value};
use viper_core::{Predicate, Program};
use viper_state::{Choice, Memo};

/// The text of a run of a unit: the header, the variables other than their default, heap and contents, and the choices. `Memory` where there is no memory.
pub fn print_viper_run(
    alloc: Global,
    program: &Program,
    unit: u32,
    run: &ViperRun,
) -> Result<Vec<u8>, Memory>
    ensures bytes { IfOk result (λ out. out.items ≡ text.run_text (program_of program.now) unit (run_of run.now)) }

    // and so they spell the run, where its opening fits the unit, its choices fit the program, and all is within the bound
    ensures spells { IfOk result (λ out. IsFormed (program_of program.now) → FitsWithin (program_of program.now) unit (run_of run.now) →
        SpellsViperRun out.items (program_of program.now) unit (run_of run.now)) }
{
    let (names, _) = variables_of(program, unit);
    let mut out = Vec::new(alloc);
    put(&mut out, b"viper run\n")?;
    put_variables(&mut out, names, &run.opening.store)?;
    put_memo(&mut out, program, &run.opening.memo)?;
    put_choices(&mut out, program, &run.choices)?;
    named_run(run);
    Ok(out)
}

fn put_variables(out: &mut Vec<u8>, names: &[Ident], values: &[Value]) -> Result<(), Memory>
    ensures { OnOk result (out.new.items ≡ out.old.items ++ numbered_text text.var_text names.now 0 values.now) }
{
    for (i, value) in values.iter().enumerate() {
        put_variable(out, names.get(i), *value)?;
    }
    Ok(())
}

/// A variable, unless it has its default.
fn put_variable(out: &mut Vec<u8>, name: Option<&Ident>, value: Value) -> Result<(), Memory>
    ensures { OnOk result (out.new.items ≡ out.old.items ++ named_text text.var_text (option_copied name.entry) value) }
{
    let Some(name) = name else {
        return Ok(());
    };
    if value == Value::default_of(value.ty()) {
        return Ok(());
    }
    put(out, b"var ")?;
    put(out, name.bytes())?;
    put(out, b" ")?;
    put_value(out, value)?;
    put(out, b"\n")
}

fn put_memo(out: &mut Vec<u8>, program: &Program, memo: &Memo) -> Result<(), Memory>
    ensures { OnOk result (out.new.items ≡ out.old.items ++ text.memo_text (program_of program.now) (memo_of memo.now)) }
{
    put_heaps(out, &program.fields, &memo.heap)?;
    put_contents(out, &program.predicates, &memo.content)
}

fn put_heaps(
    out: &mut Vec<u8>,
    fields: &[Ident],
    heaps: &[Sparse<u64, Value>],
) -> Result<(), Memory>
    ensures { OnOk result (out.new.items ≡ out.old.items ++ numbered_text text.heap_text fields.now 0 heaps.now) }
{
    for (i, heap) in heaps.iter().enumerate() {
        put_heap(out, fields.get(i), heap)?;
    }
    Ok(())
}

fn put_heap(
    out: &mut Vec<u8>,
    name: Option<&Ident>,
    heap: &Sparse<u64, Value>,
) -> Result<(), Memory>
    ensures { OnOk result (out.new.items ≡ out.old.items ++ named_text text.heap_text (option_copied name.entry) heap.now) }
{
    match name {
        Some(name) => put_places(out, name, heap),
        None => Ok(()),
    }
}

fn put_places(out: &mut Vec<u8>, name: &Ident, heap: &Sparse<u64, Value>) -> Result<(), Memory>
    ensures { OnOk result (out.new.items ≡ out.old.items ++ text.heap_text name.now heap.now) }
{
    for i in 0..heap.len() {
        let reference = *heap.key_at(i);
        put_place(out, name, reference, *heap.get(&reference))?;
    }
    Ok(())
}

fn put_place(out: &mut Vec<u8>, name: &Ident, reference: u64, value: Value) -> Result<(), Memory>
    ensures { OnOk result (out.new.items ≡ out.old.items ++ text.place_text name.now reference value) }
{
    put(out, b"heap ")?;
    put(out, name.bytes())?;
    put(out, b" ")?;
    put_reference(out, reference)?;
    put(out, b" ")?;
    put_value(out, value)?;
    put(out, b"\n")
}

fn put_contents(
    out: &mut Vec<u8>,
    predicates: &[Predicate],
    contents: &[Sparse<Key, Content>],
) -> Result<(), Memory>
    ensures { OnOk result (out.new.items ≡ out.old.items
        ++ numbered_text text.contents_text (map (λ (d : p.Predicate). d.name) (map predicate_of predicates.now)) 0 (map contents_of contents.now)) }
{
    for (i, map) in contents.iter().enumerate() {
        put_predicate(out, predicates.get(i), map)?;
    }
    Ok(())
}

fn put_predicate(
    out: &mut Vec<u8>,
    predicate: Option<&Predicate>,
    contents: &Sparse<Key, Content>,
) -> Result<(), Memory>
    ensures { OnOk result (out.new.items ≡ out.old.items
        ++ named_text text.contents_text (option_map (λ d. (predicate_of d).name) (option_copied predicate.entry)) (contents_of contents.now)) }
{
    match predicate {
        Some(predicate) => put_instances(out, &predicate.name, contents),
        None => Ok(()),
    }
}

fn put_instances(
    out: &mut Vec<u8>,
    name: &Ident,
    contents: &Sparse<Key, Content>,
) -> Result<(), Memory>
    ensures { OnOk result (out.new.items ≡ out.old.items ++ text.contents_text name.now (contents_of contents.now)) }
{
    for i in 0..contents.len() {
        let key = contents.key_at(i);
        put_instance(out, name, key, contents.get(key))?;
    }
    Ok(())
}

fn put_instance(out: &mut Vec<u8>, name: &Ident, key: &Key, content: &Content) -> Result<(), Memory>
    ensures { OnOk result (out.new.items ≡ out.old.items ++ text.instance_text name.now key.now (content_of content.now)) }
{
    put(out, b"content ")?;
    put(out, name.bytes())?;
    put(out, b" ")?;
    put_key(out, key.parts())?;
    put_content(out, content)?;
    put(out, b"\n")
}

fn put_choices(out: &mut Vec<u8>, program: &Program, choices: &[Choice]) -> Result<(), Memory>
    ensures { OnOk result (out.new.items ≡ out.old.items ++ text.choices_text (program_of program.now) (map choice_of choices.now)) }
{
    for choice in choices {
        put_choice(out, program, choice)?;
    }
    Ok(())
}

fn put_choice(out: &mut Vec<u8>, program: &Program, choice: &Choice) -> Result<(), Memory>
    ensures { OnOk result (out.new.items ≡ out.old.items ++ text.choice_text (program_of program.now) (choice_of choice.now)) }
{
    match choice {
        Choice::Branch(way) => {
            put(out, b"pick ")?;
            put(out, truth_text(*way))?;
            put(out, b"\n")
        }
        Choice::Took(value) => {
            put(out, b"value ")?;
            put_value(out, *value)?;
            put(out, b"\n")
        }
        Choice::Amount(amount) => {
            put(out, b"amount ")?;
            put_fraction(out, *amount)?;
            put(out, b"\n")
        }
        Choice::Fresh(reference) => {
            put(out, b"fresh ")?;
            put_reference(out, *reference)?;
            put(out, b"\n")
        }
        Choice::Memo(memo) => {
            put(out, b"state\n")?;
            put_memo(out, program, memo)
        }
    }
}
