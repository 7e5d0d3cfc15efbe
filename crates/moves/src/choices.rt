// The choices of Boogie that the events of a run turn into.
ghost use Rattle.std.specs.Prelude.{◌≡◌, [], ◌∷◌, ◌++◌, map, All, IfOk, OnOk};
ghost use Rattle.vb_value.specs.View.{content_of};
ghost use Rattle.viper_state.specs.View.{contents_of, event_of, memo_of};
ghost use Rattle.boogie_tree.specs.Value as b;
ghost use Rattle.boogie_tree.specs.Whole.{choice_of, scalar_of};
ghost use Rattle.moves.specs.Moves as m;
ghost use Rattle.moves.specs.Printable.{IsNamedMove};

use crate::entries::{content_entries, heap_entries, scalar};
use crate::named::named_moves;
use boogie_tree::{BChoice, BScalar};
use sparse::Sparse;
use std::alloc::Global;
use vb_base::Memory;
use vb_value::{Content, Key, Value};
use viper_core::Program;
use viper_state::{Event, Memo};

/// The choices of Boogie that the events of a run of a program turn into, in order. `Memory` where there is no memory.
pub fn moves(alloc: Global, events: &Vec<Event>, program: &Program) -> Result<Vec<BChoice>, Memory>
    ensures moves { IfOk result (λ choices. map choice_of choices.items ≡ m.moves (map event_of events.now.items)) }

    // each reference of the code is below 2^64, so that of what is printable this need not be asked of the moves
    ensures named { IfOk result (λ choices. All IsNamedMove (map choice_of choices.items)) }
{
    // The events hold all that is asked of the program.
    let _ = program;
    let mut choices = Vec::with_capacity(alloc, events.len())?;
    for event in events.as_slice() {
        add_moves(alloc, event, &mut choices)?;
    }
    named_moves(&choices);
    Ok(choices)
}

fn add_moves(alloc: Global, event: &Event, choices: &mut Vec<BChoice>) -> Result<(), Memory>
    ensures { OnOk result (map choice_of choices.new.items ≡ map choice_of choices.old.items ++ m.moves_of (event_of event.now)) }
{
    match event {
        Event::Branch(way) => add(choices, BChoice::Pick(*way)),
        Event::Took(value) => add_value(choices, scalar(*value)),
        Event::Wild(amount) => add_value(choices, BScalar::Real(*amount)),
        Event::Fresh(reference) => add_value(choices, BScalar::Ref(*reference)),
        Event::Whole(memo) => add_memo(alloc, memo, choices),
        Event::Split(left, right) => add_parts(left, right, choices),
        Event::Leaf(value) => add_value(choices, scalar(*value)),
    }
}

fn add(choices: &mut Vec<BChoice>, choice: BChoice) -> Result<(), Memory>
    ensures { OnOk result (map choice_of choices.new.items ≡ map choice_of choices.old.items ++ choice_of choice ∷ []) }
{
    choices.push(choice)?;
    Ok(())
}

fn add_value(choices: &mut Vec<BChoice>, value: BScalar) -> Result<(), Memory>
    ensures { OnOk result (map choice_of choices.new.items ≡ map choice_of choices.old.items ++ b.Value (scalar_of value) ∷ []) }
{
    add(choices, BChoice::Value(value))
}

/// The two parts of a content, which are shared.
fn add_parts(left: &Content, right: &Content, choices: &mut Vec<BChoice>) -> Result<(), Memory>
    ensures { OnOk result (map choice_of choices.new.items ≡ map choice_of choices.old.items
        ++ b.Value (b.Snap (content_of left.now)) ∷ b.Value (b.Snap (content_of right.now)) ∷ []) }
{
    add_value(choices, BScalar::Snap(left.clone()?))?;
    add_value(choices, BScalar::Snap(right.clone()?))
}

fn add_memo(alloc: Global, memo: &Memo, choices: &mut Vec<BChoice>) -> Result<(), Memory>
    ensures { OnOk result (map choice_of choices.new.items ≡ map choice_of choices.old.items ++ m.memo_choices (memo_of memo.now)) }
{
    add_heaps(alloc, &memo.heap, choices)?;
    add_contents(alloc, &memo.content, choices)
}

fn add_heaps(
    alloc: Global,
    heaps: &[Sparse<u64, Value>],
    choices: &mut Vec<BChoice>,
) -> Result<(), Memory>
    ensures { OnOk result (map choice_of choices.new.items ≡ map choice_of choices.old.items ++ map m.heap_choice heaps.now) }
{
    for heap in heaps {
        let entries = heap_entries(alloc, heap)?;
        add(choices, BChoice::Entries(entries))?;
    }
    Ok(())
}

fn add_contents(
    alloc: Global,
    contents: &[Sparse<Key, Content>],
    choices: &mut Vec<BChoice>,
) -> Result<(), Memory>
    ensures { OnOk result (map choice_of choices.new.items ≡ map choice_of choices.old.items
        ++ map m.content_choice (map contents_of contents.now)) }
{
    for map in contents {
        let entries = content_entries(alloc, map)?;
        add(choices, BChoice::Entries(entries))?;
    }
    Ok(())
}
