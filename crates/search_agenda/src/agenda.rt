// What the search looks at.
ghost use Rattle.std.specs.Prelude.{◌≤◌};

use crate::items::{Item, Note};
use search_base::{
    Fuel, SearchStop, SignedTerm, TermId, get, insert_sorted, list_at, number, put_list, set,
    take_list,
};
use search_values::Values;
use std::alloc::Global;
use std::collections::{BTreeMap, BTreeSet};

/// An item to look at: the level of the search at which it came, and whether it was seen before.
#[derive(Clone, Copy)]
pub(crate) struct Task {
    pub(crate) level: u32,
    pub(crate) item: Item,
    pub(crate) before: bool,
}

/// What was done, so that it can be taken back.
#[derive(Clone, Copy)]
pub(crate) enum Entry {
    /// An item was looked at, and whether that was seen before.
    Seen(Item, bool),
    /// Something was done once.
    Noted(TermId, Note),
}

/// By rank, then by the level of the search at which the item came, then the first one last: the greatest is decided first. So what a
/// goal asks for goes before what is asked on the way to it.
type Order = (u32, u32, u32);

/// The literal that an item wants decided, and its place in the order of those.
#[derive(Clone, Copy, Default)]
struct Want {
    literal: SignedTerm,
    order: Order,
}

/// What the search looks at: each item once, and again when something that it waits for has changed. It goes back with the search.
#[derive(Drop)]
pub struct Agenda {
    /// By item, whether it was looked at, and whether it is to be looked at again.
    pub(crate) seen: Vec<bool>,
    pub(crate) woken: Vec<bool>,
    /// By item, the level of the search at which it was first looked at.
    born: Vec<u32>,
    /// By term, what was done once.
    opened: Vec<bool>,
    peeked: Vec<bool>,
    pub(crate) todo: Vec<Task>,
    pub(crate) log: Vec<Entry>,
    pub(crate) marks: Vec<usize>,
    /// The items to look at again, by a term that gets a value and by a class of terms.
    by_value: Vec<Vec<Item>>,
    by_class: Vec<Vec<Item>>,
    /// What items want, by item and in order; and how many wants there were.
    wants: Vec<Want>,
    wanted: BTreeMap<Order, SignedTerm>,
    came: u32,
    /// The items that are choices of numbers.
    choices: BTreeSet<Item>,
    pub(crate) alloc: Global,
}

impl Agenda {
    /// There is nothing to look at.
    pub fn new(alloc: Global) -> Agenda {
        Agenda {
            seen: Vec::new(alloc),
            woken: Vec::new(alloc),
            born: Vec::new(alloc),
            opened: Vec::new(alloc),
            peeked: Vec::new(alloc),
            todo: Vec::new(alloc),
            log: Vec::new(alloc),
            marks: Vec::new(alloc),
            by_value: Vec::new(alloc),
            by_class: Vec::new(alloc),
            wants: Vec::new(alloc),
            wanted: BTreeMap::new(alloc),
            came: 0,
            choices: BTreeSet::new(alloc),
            alloc,
        }
    }

    /// Whether an item was looked at.
    pub fn is_seen(&self, item: Item) -> bool {
        get(&self.seen, item.place())
    }

    /// Puts an item on the agenda, unless it was looked at.
    pub fn add(&mut self, item: Item) -> Result<(), SearchStop> {
        if self.is_seen(item) {
            Ok(())
        } else {
            self.put(item, false)
        }
    }

    fn put(&mut self, item: Item, before: bool) -> Result<(), SearchStop> {
        let level = number(self.marks.len())?;
        self.todo.push(Task {
            level,
            item,
            before,
        })?;
        Ok(())
    }

    /// Puts an item on the agenda again, as one that was not looked at.
    pub fn again(&mut self, item: Item) -> Result<(), SearchStop> {
        set(&mut self.seen, item.place(), false)?;
        self.put(item, false)
    }

    /// The next item to look at.
    pub fn next(&mut self, fuel: &mut Fuel) -> Result<Option<Item>, SearchStop>
        ensures { fuel.new.left ≤ fuel.old.left }
    {
        while let Some(task) = self.todo.pop() {
            fuel.take(1)?;
            if task.before {
                set(&mut self.woken, task.item.place(), false)?;
            }
            if task.before == self.is_seen(task.item) {
                self.see(task)?;
                return Ok(Some(task.item));
            }
        }
        Ok(None)
    }

    fn see(&mut self, task: Task) -> Result<(), SearchStop> {
        self.log.push(Entry::Seen(task.item, task.before))?;
        set(&mut self.seen, task.item.place(), true)?;
        if !task.before {
            let level = number(self.marks.len())?;
            set(&mut self.born, task.item.place(), level)?;
        }
        self.forget(task.item)
    }

    /// An item was not looked at to its end.
    pub fn stopped(&mut self, item: Item) -> Result<(), SearchStop> {
        set(&mut self.seen, item.place(), true)?;
        self.wake(item)
    }

    /// Whether something was done once of a term.
    pub fn is_noted(&self, n: TermId, note: Note) -> bool {
        match note {
            Note::Opened => get(&self.opened, n.place()),
            Note::Peeked => get(&self.peeked, n.place()),
        }
    }

    /// Notes that something is done; whether it was not done yet.
    pub fn note(&mut self, n: TermId, note: Note) -> Result<bool, SearchStop> {
        if self.is_noted(n, note) {
            return Ok(false);
        }
        self.set_noted(n, note, true)?;
        self.log.push(Entry::Noted(n, note))?;
        Ok(true)
    }

    pub(crate) fn set_noted(
        &mut self,
        n: TermId,
        note: Note,
        is_done: bool,
    ) -> Result<(), SearchStop> {
        match note {
            Note::Opened => set(&mut self.opened, n.place(), is_done),
            Note::Peeked => set(&mut self.peeked, n.place(), is_done),
        }
    }

    /// Looks at an item again where a term gets a value.
    pub fn wait_for_value(&mut self, item: Item, n: TermId) -> Result<(), SearchStop> {
        wait_at(self.alloc, &mut self.by_value, n.place(), item)
    }

    /// Looks at an item again where more is known of the class of this name.
    pub fn wait_for_class(&mut self, item: Item, class: SignedTerm) -> Result<(), SearchStop> {
        wait_at(self.alloc, &mut self.by_class, class.place(), item)
    }

    pub(crate) fn wake(&mut self, item: Item) -> Result<(), SearchStop> {
        if get(&self.woken, item.place()) {
            return Ok(());
        }
        set(&mut self.woken, item.place(), true)?;
        self.put(item, true)
    }

    /// Wakes items: those that came last are looked at first.
    fn wake_these(&mut self, items: Vec<Item>) -> Result<(), SearchStop> {
        let mut items = items;
        items.sort_by_key(|it| get(&self.born, it.place()))?;
        for item in &items {
            self.wake(*item)?;
        }
        Ok(())
    }

    /// Looks at all again that was looked at.
    pub fn wake_all(&mut self) -> Result<(), SearchStop> {
        for place in 0..number(self.seen.len())? {
            let item = Item::at(place);
            if self.is_seen(item) {
                self.wake(item)?;
            }
        }
        Ok(())
    }

    /// A term has a value now.
    pub fn changed(&mut self, n: TermId) -> Result<(), SearchStop> {
        let items = take_list(self.alloc, &mut self.by_value, n.place());
        self.wake_these(items)
    }

    /// The old one of two classes is a part of the new one now, of which perhaps more is known.
    pub fn joined(
        &mut self,
        old: SignedTerm,
        new: SignedTerm,
        is_known: bool,
    ) -> Result<(), SearchStop> {
        let items = take_list(self.alloc, &mut self.by_class, old.place());
        self.wake_these(items)?;
        if is_known {
            let items = take_list(self.alloc, &mut self.by_class, new.place());
            self.wake_these(items)?;
        }
        Ok(())
    }

    /// Two classes are known to differ: what waits for both is looked at again.
    pub fn parted(&mut self, one: SignedTerm, other: SignedTerm) -> Result<(), SearchStop> {
        if one == other {
            return Ok(());
        }
        let (first, second) = (
            list_at(&self.by_class, one.place()),
            list_at(&self.by_class, other.place()),
        );
        let both = shared(self.alloc, first, second)?;
        self.wake_these(both)
    }

    /// Wants a literal decided for an item.
    pub fn want(&mut self, item: Item, literal: SignedTerm, rank: u32) -> Result<(), SearchStop> {
        self.unwant(item)?;
        self.came = self.came.saturating_add(1);
        let order = (rank, get(&self.born, item.place()), u32::MAX - self.came);
        set(&mut self.wants, item.place(), Want { literal, order })?;
        self.wanted.insert(order, literal)?;
        Ok(())
    }

    fn unwant(&mut self, item: Item) -> Result<(), SearchStop> {
        let want = get(&self.wants, item.place());
        if !want.literal.is_none() {
            self.wanted.remove(&want.order);
            set(&mut self.wants, item.place(), Want::default())?;
        }
        Ok(())
    }

    pub(crate) fn forget(&mut self, item: Item) -> Result<(), SearchStop> {
        self.unwant(item)?;
        self.choices.remove(&item);
        Ok(())
    }

    /// The literal to decide, of those without a value: the first of the highest rank, and there of the last level.
    pub fn next_wanted(&self, values: &Values) -> Option<SignedTerm> {
        for (_, literal) in self.wanted.iter().rev() {
            if values.is_open(*literal) {
                return Some(*literal);
            }
        }
        None
    }

    /// Notes that an item is a choice of numbers.
    pub fn add_choice(&mut self, item: Item) -> Result<(), SearchStop> {
        self.choices.insert(item)?;
        Ok(())
    }

    /// The items that are choices of numbers.
    pub fn choices(&self) -> Result<Vec<Item>, SearchStop> {
        Ok(self.choices.iter().copied().collect(self.alloc)?)
    }
}

/// Puts an item among those that wait at a place.
fn wait_at(
    alloc: Global,
    lists: &mut Vec<Vec<Item>>,
    at: usize,
    item: Item,
) -> Result<(), SearchStop> {
    let mut list = take_list(alloc, lists, at);
    insert_sorted(&mut list, item)?;
    put_list(alloc, lists, at, list)
}

/// What stands in both of two sorted lists.
fn shared(alloc: Global, one: &[Item], two: &[Item]) -> Result<Vec<Item>, SearchStop> {
    let (short, long) = if one.len() <= two.len() {
        (one, two)
    } else {
        (two, one)
    };
    let mut found = Vec::new(alloc);
    for it in short {
        if long.binary_search(it).is_ok() {
            found.push(*it)?;
        }
    }
    Ok(found)
}
