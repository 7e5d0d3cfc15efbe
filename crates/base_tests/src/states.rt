// What a state knows of its references, which no clause says.
use crate::rows::{Rows, boxed, check, halves};
use sparse::Sparse;
use std::alloc::Global;
use vb_value::{Layout, Ty, Value};
use viper_state::{Memo, State, copy_state, empty_state};

/// References that a place gets one after another, and the greatest that is known then.
const GREATEST: &str = "\
5 -> 5
5 3 -> 5
3 9 4 -> 9";

fn layout(alloc: Global) -> Option<Layout> {
    let fields = vec![in alloc; Ty::Ref].ok()?;
    let keys = Vec::new(alloc);
    Some(Layout { fields, keys })
}

/// The heap of the field, which is null everywhere.
fn memo(alloc: Global) -> Option<Memo> {
    let heap = vec![in alloc; Sparse::make(alloc, Value::Ref(0)).ok()?].ok()?;
    let content = Vec::new(alloc);
    Some(Memo { heap, content })
}

/// A state over one field of references.
fn state(alloc: Global) -> Option<Box<State>> {
    let layout = boxed(alloc, layout(alloc))?;
    let memo = boxed(alloc, memo(alloc))?;
    boxed(alloc, empty_state(alloc, &layout, &memo).ok())
}

/// Gives the place at 2 these references.
fn refer(state: &mut State, references: &str) -> Option<()> {
    for word in references.split(' ') {
        let reference = word.parse::<u64>().ok()?;
        state.set_value(0, 2, Value::Ref(reference)).ok()??;
    }
    Some(())
}

/// Whether the state and a copy of it know the greatest reference that a place was given.
pub(crate) fn greatest_row(alloc: Global, row: &str) -> Option<bool> {
    let (references, greatest) = halves(row, " -> ")?;
    let greatest = greatest.parse::<u64>().ok()?;
    let mut state = state(alloc)?;
    refer(&mut state, references)?;
    let copy = boxed(alloc, copy_state(alloc, &state).ok())?;
    Some(state.greatest() == greatest && copy.greatest() == greatest)
}

#[test]
fn a_copy_knows_the_greatest_reference(rt: HostRuntime) {
    check(&rt, rt.alloc(), Rows::Greatest, GREATEST);
}
