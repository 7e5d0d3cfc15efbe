// What a run takes from outside.
#![tactic(auto, using(crate::specs::Runs::goes, crate::specs::Runs::done, crate::specs::Runs::stops, crate::specs::Runs::no_memory))]

ghost use Rattle.std.specs.Prelude.{◌≡◌, ◌&&◌, ◌∷◌, [], map, IfOk, OnOk, MatchOption, None};
ghost use Rattle.std.specs.Option.{option_map};
ghost use Rattle.sparse.specs.Map.{empty, set};
ghost use Rattle.vb_value.specs.Key.{key_cmp};
ghost use Rattle.boogie_tree.specs.Value.{same_scalar};
ghost use Rattle.boogie_run.specs.Chosen.{chosen_entries, chosen_scalar};
ghost use Rattle.boogie_tree.specs.Whole.{choice_of, entry_of, scalar_of, type_of, value_of};
ghost use Rattle.boogie_meaning.specs.Run as m;
ghost use Rattle.boogie_tree.specs.Values.{default_of, fits_key, same_base, base_of_scalar};
ghost use Rattle.boogie_run.specs.Runs.{Takes};
ghost use Rattle.boogie_eval.specs.View.{map_of};
ghost use Rattle.boogie_run.specs.View.{left_in};

use crate::replay_ends::{ReplayHalt, ReplayStop};
use crate::replay_values::fill_at;
use boogie_tree::{
    BBase, BChoice, BScalar, BType, BValue, Entry, base_of_scalar, default_of, fits_key, same_base,
};
use sparse::{Builder, Sparse};
use std::alloc::Global;
use vb_base::Memory;
use vb_value::Key;

/// The choices of a run.
#[derive(Clone, Copy)]
pub(crate) struct BoogieFeed<'a> {
    pub(crate) choices: &'a [BChoice],
    /// How many of them were taken.
    pub(crate) next: usize,
}

impl<'a> BoogieFeed<'a> {
    /// Takes the next choice. None exactly where all were taken.
    fn take(&mut self) -> Option<&'a BChoice>
        ensures next { MatchOption result ((left_in self.old ≡ []) × (left_in self.new ≡ [])) (λ choice. left_in self.old ≡ choice_of choice.now ∷ left_in self.new) }
    {
        let choice = self.choices.get(self.next)?;
        self.next += 1;
        Some(choice)
    }
}

/// The branch that a choice is, if it is one.
fn picked(choice: &BChoice) -> Option<bool>
    ensures { result ≡ m.picked (choice_of choice.now) }
{
    match choice {
        BChoice::Pick(branch) => Some(*branch),
        _ => None,
    }
}

/// Takes the next choice, which has to be a branch.
pub(crate) fn take_branch(feed: &mut BoogieFeed) -> Result<bool, ReplayHalt>
    ensures { Takes (λ p. p) (left_in feed.old) (left_in feed.new) (λ go. m.with_choice (left_in feed.old) m.picked go) result }
{
    match feed.take() {
        Some(choice) => match picked(choice) {
            Some(branch) => Ok(branch),
            None => Err(ReplayHalt::Stops(ReplayStop::Blocked)),
        },
        None => Err(ReplayHalt::Stops(ReplayStop::Short)),
    }
}

/// Whether an entry is of a map of this type.
fn fits_entry(keys: &[BBase], base: BBase, entry: &Entry) -> bool
    ensures { result ≡ (fits_key keys.now (entry_of entry.now).key && same_base (base_of_scalar (entry_of entry.now).value) base) }
{
    fits_key(keys, entry.key.parts()) && same_base(base_of_scalar(&entry.value), base)
}

/// Whether each entry is.
fn fits_entries(keys: &[BBase], base: BBase, entries: &[Entry]) -> bool
    ensures { result ≡ m.fits_entries keys.now base (map entry_of entries.now) }
{
    for entry in entries {
        if !fits_entry(keys, base, entry) {
            return false;
        }
    }
    true
}

/// Puts an entry into a map that is being filled.
fn put_entry(map: &mut Builder<Key, BScalar>, entry: &Entry) -> Result<(), Memory>
    ensures { OnOk result (map_of map.new ≡ set key_cmp same_scalar (map_of map.old) (entry_of entry.now).key (entry_of entry.now).value) }
{
    let key = entry.key.clone()?;
    let value = entry.value.clone()?;
    fill_at(map, key, value)
}

/// The map with these entries, one after the other, and the default of its type elsewhere.
fn filled(alloc: Global, base: BBase, entries: &[Entry]) -> Result<Sparse<Key, BScalar>, Memory>
    ensures { IfOk result (λ n. map_of n ≡ m.filled (empty (default_of base)) (map entry_of entries.now)) }
{
    let mut map = Builder::make(alloc, default_of(base));
    for entry in entries {
        put_entry(&mut map, entry)?;
    }
    map.finish()
}

/// The map that has the default of this type at each key.
pub(crate) fn empty_map(alloc: Global, base: BBase) -> Result<Sparse<Key, BScalar>, Memory>
    ensures { IfOk result (λ n. map_of n ≡ empty (default_of base)) }
{
    Sparse::make(alloc, default_of(base))
}

/// The map that entries give, if they are of its type.
fn chosen_map(
    alloc: Global,
    keys: &[BBase],
    base: BBase,
    entries: &[Entry],
) -> Result<Option<BValue>, Memory>
    ensures { IfOk result (λ w. option_map value_of w ≡ chosen_entries keys.now base (map entry_of entries.now)) }
{
    if !fits_entries(keys, base, entries) {
        return Ok(None);
    }
    Ok(Some(BValue::Map(filled(alloc, base, entries)?)))
}

/// The value of a variable that is no map, if it is of this type.
fn chosen_value(base: BBase, value: &BScalar) -> Result<Option<BValue>, Memory>
    ensures { IfOk result (λ w. option_map value_of w ≡ chosen_scalar base (scalar_of value.now)) }
{
    if !same_base(base_of_scalar(value), base) {
        return Ok(None);
    }
    Ok(Some(BValue::One(value.clone()?)))
}

/// The value that a choice gives a variable of this type.
fn chosen(alloc: Global, ty: &BType, choice: &BChoice) -> Result<Option<BValue>, Memory>
    ensures { IfOk result (λ w. option_map value_of w ≡ m.chosen (type_of ty.now) (choice_of choice.now)) }
{
    match choice {
        BChoice::Pick(_) => Ok(None),
        BChoice::Value(value) => {
            if ty.keys.is_empty() {
                chosen_value(ty.base, value)
            } else {
                Ok(None)
            }
        }
        BChoice::Entries(entries) => {
            if ty.keys.is_empty() {
                Ok(None)
            } else {
                chosen_map(alloc, &ty.keys, ty.base, entries)
            }
        }
    }
}

/// Takes the next choice, which has to give a variable of this type a value.
pub(crate) fn take_value(
    alloc: Global,
    ty: &BType,
    feed: &mut BoogieFeed,
) -> Result<BValue, ReplayHalt>
    ensures { Takes value_of (left_in feed.old) (left_in feed.new) (λ go. m.with_choice (left_in feed.old) (m.chosen (type_of ty.now)) go) result }
{
    match feed.take() {
        Some(choice) => match chosen(alloc, ty, choice)? {
            Some(value) => Ok(value),
            None => Err(ReplayHalt::Stops(ReplayStop::Blocked)),
        },
        None => Err(ReplayHalt::Stops(ReplayStop::Short)),
    }
}
