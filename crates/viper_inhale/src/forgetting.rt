// Forgetting: where nothing is held, the heap and contents of a choice take the place of the state's own.
ghost use Rattle.std.specs.Prelude.{◌≡◌, All, IfErr, IfOk, IfSome, OnOk, map};
ghost use Rattle.std.specs.Ordering.{nat_cmp};
ghost use Rattle.std.specs.Option.{option_map};
ghost use Rattle.sparse.specs.Map.{borrowed, keys};
ghost use Rattle.vb_value.specs.Content.{same_content};
ghost use Rattle.vb_value.specs.Key.{key_cmp};
ghost use Rattle.vb_value.specs.Value.{value_eq};
ghost use Rattle.viper_state.specs.Loose.{AreLooseAmong, IsLooseAmong, lists_of};
ghost use Rattle.viper_state.specs.Fits.{FitsMemo, HasMaps, FitsChoice};
ghost use Rattle.viper_state.specs.View.{contents_of, memo_of, choice_of, state_of, feed_of};
ghost use Rattle.vb_value.specs.Layout.{Layout};
ghost use Rattle.viper_meaning.specs.Forgotten.{kept_at, forgotten, with_memo};
ghost use Rattle.viper_meaning.specs.Forgotten as m;
ghost use Rattle.viper_meaning.specs.Run as run;
ghost use Rattle.viper_state.specs.Event as event;
ghost use Rattle.viper_inhale.specs.Answers.{Does};
ghost use Rattle.viper_inhale.specs.Kept.{kept_maps, kept_memo};
ghost use Rattle.viper_inhale.specs.View.{filled_in};
ghost use Rattle.viper_inhale.specs.declared.answers.StepHalt.TheVariants as halt;

use crate::answers::{StepHalt, StepStop};
use crate::free_keys::{all_keys, free_keys, list_of, loose_keys};
use sparse::Sparse;
use std::alloc::Global;
use vb_value::{Content, Frac, Key, Value};
use viper_state::{Choice, Event, Feed, Memo, State, copy_memo, keys_known};

/// About how many keys are gone through where a map is changed and not begun from the choice.
fn most_free<K: Ord + Clone + Drop, V: Eq + Clone + Drop>(
    new: &Sparse<K, V>,
    own: &Sparse<K, V>,
    loose: Option<&Vec<K>>,
) -> usize {
    match loose {
        Some(list) => list.len().saturating_add(new.len()),
        None => own.len() / 2,
    }
}

/// A heap of a field after forgetting: the own values where something is held, and elsewhere those of the new heap. It begins
/// as a copy of the own heap, which shares its entries, so it costs little more than what changes.
fn changed_values(
    alloc: Global,
    new: &Sparse<u64, Value>,
    own: &Sparse<u64, Value>,
    held: &Sparse<u64, Frac>,
    loose: Option<&Vec<u64>>,
) -> Result<Sparse<u64, Value>, StepHalt>
    requires same { new.now.default ≡ own.now.default }
    requires known { IfSome loose (λ list. IsLooseAmong nat_cmp own.now held.now list.now.items) }
    ensures kept { IfOk result (λ m. m ≡ kept_at nat_cmp value_eq new.now own.now (keys held.now)) }
    ensures memory { IfErr result (λ h. h ≡ halt.Memory) }
{
    let mut kept = own.copy()?;
    take_values(&mut kept, new, &loose_keys(alloc, own, held, loose)?)?;
    take_values(&mut kept, new, &free_keys(alloc, new, held)?)?;
    Ok(kept)
}

/// Gives a heap of a field the value of another at some references.
fn take_values(
    heap: &mut Sparse<u64, Value>,
    other: &Sparse<u64, Value>,
    references: &[&u64],
) -> Result<(), StepHalt>
    ensures taken { OnOk result (heap.new ≡ kept_at nat_cmp value_eq heap.old other.now (borrowed references.now)) }
    ensures memory { IfErr result (λ h. h ≡ halt.Memory) }
{
    for reference in references {
        heap.set(**reference, *other.get(*reference))?;
    }
    Ok(())
}

/// Gives a new heap of a field the own value at each reference to which something is held.
fn keep_values(
    alloc: Global,
    new: &mut Sparse<u64, Value>,
    own: &Sparse<u64, Value>,
    held: &Sparse<u64, Frac>,
    loose: Option<&Vec<u64>>,
) -> Result<(), StepHalt>
    requires { IfSome loose (λ list. IsLooseAmong nat_cmp own.now held.now list.now.items) }
    ensures kept { OnOk result (new.new ≡ kept_at nat_cmp value_eq new.old own.now (keys held.now)) }
    ensures memory { IfErr result (λ h. h ≡ halt.Memory) }
{
    let free = most_free(new, own, loose);
    if held.len() < free || *new.default() != *own.default() {
        return take_values(new, own, &all_keys(alloc, held)?);
    }
    *new = changed_values(alloc, new, own, held, loose)?;
    Ok(())
}

/// The contents of a predicate after forgetting, as a heap's values.
fn changed_contents(
    alloc: Global,
    new: &Sparse<Key, Content>,
    own: &Sparse<Key, Content>,
    held: &Sparse<Key, Frac>,
    loose: Option<&Vec<Key>>,
) -> Result<Sparse<Key, Content>, StepHalt>
    requires known { IfSome loose (λ list. IsLooseAmong key_cmp own.now held.now list.now.items) }
    requires same { (contents_of new.now).default ≡ (contents_of own.now).default }
    ensures kept { IfOk result (λ m. contents_of m ≡ kept_at key_cmp same_content (contents_of new.now) (contents_of own.now) (keys held.now)) }
    ensures memory { IfErr result (λ h. h ≡ halt.Memory) }
{
    let mut kept = own.copy()?;
    let free = loose_keys(alloc, own, held, loose)?;
    take_contents(alloc, &mut kept, new, &free)?;
    take_contents(alloc, &mut kept, new, &free_keys(alloc, new, held)?)?;
    Ok(kept)
}

/// Gives contents of a predicate that of others for some instances.
fn take_contents(
    alloc: Global,
    contents: &mut Sparse<Key, Content>,
    other: &Sparse<Key, Content>,
    instances: &[&Key],
) -> Result<(), StepHalt>
    ensures taken { OnOk result (contents_of contents.new ≡ kept_at key_cmp same_content (contents_of contents.old) (contents_of other.now) (borrowed instances.now)) }
    ensures memory { IfErr result (λ h. h ≡ halt.Memory) }
{
    for key in instances {
        let content = other.get(*key).copy(alloc)?;
        contents.set((*key).clone()?, content)?;
    }
    Ok(())
}

/// Gives new contents of a predicate the own content of each instance of which something is held.
fn keep_contents(
    alloc: Global,
    new: &mut Sparse<Key, Content>,
    own: &Sparse<Key, Content>,
    held: &Sparse<Key, Frac>,
    loose: Option<&Vec<Key>>,
) -> Result<(), StepHalt>
    requires { IfSome loose (λ list. IsLooseAmong key_cmp own.now held.now list.now.items) }
    ensures kept { OnOk result (contents_of new.new ≡ kept_at key_cmp same_content (contents_of new.old) (contents_of own.now) (keys held.now)) }
    ensures memory { IfErr result (λ h. h ≡ halt.Memory) }
{
    let free = most_free(new, own, loose);
    if held.len() < free || *new.default() != *own.default() {
        return take_contents(alloc, new, own, &all_keys(alloc, held)?);
    }
    *new = changed_contents(alloc, new, own, held, loose)?;
    Ok(())
}

/// The same for the heaps of all fields.
fn keep_heap(
    alloc: Global,
    news: &mut Vec<Sparse<u64, Value>>,
    owns: &[Sparse<u64, Value>],
    helds: &[Sparse<u64, Frac>],
    lists: &[Vec<u64>],
) -> Result<(), StepHalt>
    requires { AreLooseAmong nat_cmp owns.now helds.now (lists_of lists.now) }
    ensures kept { OnOk result (news.new.items ≡ kept_maps nat_cmp value_eq news.old.items owns.now helds.now) }
    ensures memory { IfErr result (λ h. h ≡ halt.Memory) }
{
    for field in 0..news.len().min(owns.len()).min(helds.len()) {
        let list = list_of(lists, field);
        keep_values(alloc, &mut news[field], &owns[field], &helds[field], list)?;
    }
    Ok(())
}

/// The same for the contents of all predicates.
fn keep_all_contents(
    alloc: Global,
    news: &mut Vec<Sparse<Key, Content>>,
    owns: &[Sparse<Key, Content>],
    helds: &[Sparse<Key, Frac>],
    lists: &[Vec<Key>],
) -> Result<(), StepHalt>
    requires { AreLooseAmong key_cmp owns.now helds.now (lists_of lists.now) }
    ensures kept { OnOk result (map contents_of news.new.items
        ≡ kept_maps key_cmp same_content (map contents_of news.old.items) (map contents_of owns.now) helds.now) }
    ensures memory { IfErr result (λ h. h ≡ halt.Memory) }
{
    for predicate in 0..news.len().min(owns.len()).min(helds.len()) {
        let list = list_of(lists, predicate);
        keep_contents(
            alloc,
            &mut news[predicate],
            &owns[predicate],
            &helds[predicate],
            list,
        )?;
    }
    Ok(())
}

/// The heap and contents that a choice is, if it is some.
fn memo_in(choice: Choice) -> Option<Memo>
    ensures { option_map memo_of result ≡ filled_in (choice_of choice) }
{
    match choice {
        Choice::Memo(memo) => Some(memo),
        _ => None,
    }
}

/// A heap and contents with what the state keeps of its own.
fn kept_memo(alloc: Global, memo: Memo, state: &State) -> Result<Memo, StepHalt>
    ensures kept { IfOk result (λ m. memo_of m ≡ kept_memo (state_of state.now) (memo_of memo)) }
    ensures memory { IfErr result (λ h. h ≡ halt.Memory) }
{
    let Memo {
        mut heap,
        mut content,
    } = memo;
    let lists = state.loose_references();
    keep_heap(alloc, &mut heap, &state.heap, &state.mask, lists)?;
    let lists = state.loose_keys();
    keep_all_contents(alloc, &mut content, &state.content, &state.amount, lists)?;
    Ok(Memo { heap, content })
}

/// Forgets by a heap and contents, and records what stands from then on.
fn forget_by(alloc: Global, memo: Memo, state: &mut State, feed: &mut Feed) -> Result<(), StepHalt>
    ensures { (l : Layout) → HasMaps l (state_of state.old) → FitsMemo l (memo_of memo)
        → Does (λ _. state_of state.new) (feed_of feed.old)
        (run.noting (event.Whole (forgotten (state_of state.old) (memo_of memo))) (run.goes (with_memo (state_of state.old) (forgotten (state_of state.old) (memo_of memo)))))
        (feed_of feed.new) result }
{
    let known = keys_known(alloc, &memo, state.greatest())?;
    let memo = kept_memo(alloc, memo, state)?;
    feed.record(Event::Whole(copy_memo(alloc, &memo)?))?;
    state.take_memo(memo, known);
    Ok(())
}

/// Forgets what is not held, by the next choice, which has to be a heap and contents.
pub fn forget_in(alloc: Global, state: &mut State, feed: &mut Feed) -> Result<(), StepHalt>
    ensures { (l : Layout) → HasMaps l (state_of state.old) → All (FitsChoice l) (feed_of feed.old).left
        → Does (λ _. state_of state.new) (feed_of feed.old) (m.forget l (state_of state.old)) (feed_of feed.new) result }
{
    match feed.take() {
        Some(choice) => match memo_in(choice) {
            Some(memo) => forget_by(alloc, memo, state, feed),
            None => Err(StepHalt::Stops(StepStop::Blocked)),
        },
        None => Err(StepHalt::Stops(StepStop::Short)),
    }
}
