// The text of the run of Boogie that the events of a run of Viper turn into. It is written event by event: the choices of
// large heaps, all at once, would take many times the memory of their text.
ghost use Rattle.std.specs.Prelude.{◌≡◌, ◌++◌, All, IfOk, OnOk, map};
ghost use Rattle.sparse.specs.Map.{borrowed};
ghost use Rattle.vb_value.specs.View.{content_of};
ghost use Rattle.viper_state.specs.View.{contents_of, event_of, memo_of};
ghost use Rattle.boogie_tree.specs.Value as v;
ghost use Rattle.boogie_tree.specs.Whole.{proc_of, setting_of};
ghost use Rattle.moves.specs.Moves as m;
ghost use Rattle.moves.specs.Moves.{moves};
ghost use Rattle.moves.specs.Maps.{instance_key};
ghost use Rattle.moves.specs.Printable.{IsNamedEntry, IsNamedKey, IsNamedMove};
ghost use Rattle.run_file_boogie.specs.BoogiePrinted as text;
ghost use Rattle.run_file_boogie.specs.MovedView.{instance_entry, place_entry};
ghost use Rattle.run_file_words.specs.Printed.{key_text};

use crate::boogie_printer::{put_beginning, put_chosen, put_pick, put_place};
use boogie_tree::{BScalar, BSetting, Proc};
use moves::scalar;
use run_file_words::{put_content, put_key};
use sparse::Sparse;
use std::alloc::Global;
use vb_base::{Memory, put};
use vb_value::{Content, Key, KeyPart, Value};
use viper_state::{Event, Memo};

/// The text of the run of a procedure that begins with these settings, and takes the choices that the events turn into. `Memory`
/// where there is no memory for it.
pub fn print_moved_run(
    alloc: Global,
    proc: &Proc,
    settings: &[BSetting],
    events: &[Event],
) -> Result<Vec<u8>, Memory>
    ensures bytes { IfOk result (λ out. out.items ≡ text.run_text (proc_of proc.now)
        (record { settings = map setting_of settings.now; choices = moves (map event_of events.now) })) }

    // each reference of the code is below 2^64, so that of what is printable this need not be asked of the moves
    ensures named { IfOk result (λ out. All IsNamedMove (moves (map event_of events.now))) }
{
    let mut out = Vec::new(alloc);
    put_beginning(alloc, &mut out, proc, settings)?;
    put_events(&mut out, events)?;
    Ok(out)
}

fn put_events(out: &mut Vec<u8>, events: &[Event]) -> Result<(), Memory>
    ensures text { OnOk result (out.new.items ≡ out.old.items ++ text.choices_text (moves (map event_of events.now))) }
    ensures named { OnOk result (All IsNamedMove (moves (map event_of events.now))) }
{
    for event in events {
        put_event(out, event)?;
    }
    Ok(())
}

fn put_event(out: &mut Vec<u8>, event: &Event) -> Result<(), Memory>
    ensures text { OnOk result (out.new.items ≡ out.old.items ++ text.choices_text (m.moves_of (event_of event.now))) }
    ensures named { OnOk result (All IsNamedMove (m.moves_of (event_of event.now))) }
{
    match event {
        Event::Branch(way) => put_pick(out, *way),
        Event::Took(value) => put_chosen(out, &scalar(*value)),
        Event::Wild(amount) => put_chosen(out, &BScalar::Real(*amount)),
        Event::Fresh(reference) => put_chosen(out, &BScalar::Ref(*reference)),
        Event::Whole(memo) => put_memo(out, memo),
        Event::Split(left, right) => {
            put_part(out, left)?;
            put_part(out, right)
        }
        Event::Leaf(value) => put_chosen(out, &scalar(*value)),
    }
}

fn put_part(out: &mut Vec<u8>, part: &Content) -> Result<(), Memory>
    ensures text { OnOk result (out.new.items ≡ out.old.items ++ text.choice_text (v.Value (v.Snap (content_of part.now)))) }
    ensures named { OnOk result (IsNamedMove (v.Value (v.Snap (content_of part.now)))) }
{
    put(out, b"value ")?;
    put_content(out, part)?;
    put(out, b"\n")
}

fn put_memo(out: &mut Vec<u8>, memo: &Memo) -> Result<(), Memory>
    ensures text { OnOk result (out.new.items ≡ out.old.items ++ text.choices_text (m.memo_choices (memo_of memo.now))) }
    ensures named { OnOk result (All IsNamedMove (m.memo_choices (memo_of memo.now))) }
{
    put_heaps(out, &memo.heap)?;
    put_contents(out, &memo.content)
}

fn put_heaps(out: &mut Vec<u8>, heaps: &[Sparse<u64, Value>]) -> Result<(), Memory>
    ensures text { OnOk result (out.new.items ≡ out.old.items ++ text.choices_text (map m.heap_choice heaps.now)) }
    ensures named { OnOk result (All IsNamedMove (map m.heap_choice heaps.now)) }
{
    for heap in heaps {
        put_heap(out, heap)?;
    }
    Ok(())
}

/// The values of a heap other than its default.
fn put_heap(out: &mut Vec<u8>, heap: &Sparse<u64, Value>) -> Result<(), Memory>
    ensures text { OnOk result (out.new.items ≡ out.old.items ++ text.choice_text (m.heap_choice heap.now)) }
    ensures named { OnOk result (IsNamedMove (m.heap_choice heap.now)) }
{
    put(out, b"entries\n")?;
    let entries = heap.entries()?;
    put_places(out, &entries)
}

fn put_places(out: &mut Vec<u8>, places: &[&(u64, Value)]) -> Result<(), Memory>
    ensures text { OnOk result (out.new.items ≡ out.old.items ++ text.entries_text (map place_entry (borrowed places.now))) }
    ensures named { OnOk result (All IsNamedEntry (map place_entry (borrowed places.now))) }
{
    for place in places {
        put_place(out, &Key::of_one(KeyPart::Ref(place.0)), &scalar(place.1))?;
    }
    Ok(())
}

fn put_contents(out: &mut Vec<u8>, contents: &[Sparse<Key, Content>]) -> Result<(), Memory>
    ensures text { OnOk result (out.new.items ≡ out.old.items ++ text.choices_text (map m.content_choice (map contents_of contents.now))) }
    ensures named { OnOk result (All IsNamedMove (map m.content_choice (map contents_of contents.now))) }
{
    for map in contents {
        put_predicate(out, map)?;
    }
    Ok(())
}

/// The contents of the instances of a predicate other than the default.
fn put_predicate(out: &mut Vec<u8>, contents: &Sparse<Key, Content>) -> Result<(), Memory>
    ensures text { OnOk result (out.new.items ≡ out.old.items ++ text.choice_text (m.content_choice (contents_of contents.now))) }
    ensures named { OnOk result (IsNamedMove (m.content_choice (contents_of contents.now))) }
{
    put(out, b"entries\n")?;
    let entries = contents.entries()?;
    put_instances(out, &entries)
}

fn put_instances(out: &mut Vec<u8>, instances: &[&(Key, Content)]) -> Result<(), Memory>
    ensures text { OnOk result (out.new.items ≡ out.old.items ++ text.entries_text (map instance_entry (borrowed instances.now))) }
    ensures named { OnOk result (All IsNamedEntry (map instance_entry (borrowed instances.now))) }
{
    for instance in instances {
        put_instance(out, &instance.0, &instance.1)?;
    }
    Ok(())
}

fn put_instance(out: &mut Vec<u8>, arguments: &Key, content: &Content) -> Result<(), Memory>
    ensures text { OnOk result (out.new.items ≡ out.old.items ++ text.entry_text (instance_entry (arguments.now, content.now))) }
    ensures named { OnOk result (IsNamedEntry (instance_entry (arguments.now, content.now))) }
{
    put(out, b"at ")?;
    put_arguments(out, arguments)?;
    put_content(out, content)?;
    put(out, b"\n")
}

/// The arguments of an instance as a key of contents: 0 where there are none.
fn put_arguments(out: &mut Vec<u8>, arguments: &Key) -> Result<(), Memory>
    ensures text { OnOk result (out.new.items ≡ out.old.items ++ key_text (instance_key arguments.now)) }
    ensures named { OnOk result (IsNamedKey (instance_key arguments.now)) }
{
    match arguments.parts() {
        [] => put_key(out, &[KeyPart::Int(0)]),
        parts => put_key(out, parts),
    }
}
