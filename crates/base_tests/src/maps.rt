// Maps with the default 7.
use crate::rows::{Rows, boxed, check, halves};
use sparse::{Builder, Sparse};
use std::alloc::Global;

/// Changes of keys in turn while a map is filled, and the entries that are there then.
const FILLED: &str = "\
nothing -> nothing
100=7 -> nothing
5=50 -> 5=50
2=20 4=40 6=60 -> 2=20 4=40 6=60
1=10 2=20 3=30 4=40 5=50 6=60 8=80 9=90 -> 1=10 2=20 3=30 4=40 5=50 6=60 8=80 9=90
2=20 4=7 6=60 -> 2=20 6=60
4=40 6=60 2=20 -> 2=20 4=40 6=60
4=40 6=60 6=61 -> 4=40 6=61
4=40 6=60 6=7 -> 4=40
4=40 6=60 4=7 8=80 -> 6=60 8=80
4=40 3=30 9=90 9=91 5=50 -> 3=30 4=40 5=50 9=91
0=0 18446744073709551615=1 -> 0=0 18446744073709551615=1";

fn entry(text: &str) -> Option<(u64, u64)> {
    let (key, value) = halves(text, "=")?;
    Some((key.parse::<u64>().ok()?, value.parse::<u64>().ok()?))
}

/// Whether the entry stands there.
fn has_entry(map: &Sparse<u64, u64>, index: usize, text: &str) -> Option<bool> {
    let (key, value) = entry(text)?;
    Some(index < map.len() && *map.key_at(index) == key && *map.get(&key) == value)
}

/// Whether the map has so many entries, and the default 7.
fn has_no_others(map: &Sparse<u64, u64>, count: usize) -> bool {
    count == map.len() && *map.get(&100) == 7 && *map.default() == 7
}

/// The entries that a row tells, apart by spaces.
fn told(entries: &str) -> &str {
    if entries == "nothing" { "" } else { entries }
}

/// Whether the map has these entries and no others.
fn has(map: &Sparse<u64, u64>, entries: &str) -> Option<bool> {
    let mut count = 0usize;
    for text in told(entries).split_whitespace() {
        if !has_entry(map, count, text)? {
            return Some(false);
        }
        count = count.wrapping_add(1);
    }
    Some(has_no_others(map, count))
}

/// A map without entries.
fn empty(alloc: Global) -> Option<Box<Sparse<u64, u64>>> {
    boxed(alloc, Sparse::make(alloc, 7).ok())
}

/// What is filled by the changes.
fn filled(alloc: Global, changes: &str) -> Option<Box<Builder<u64, u64>>> {
    let mut builder = boxed(alloc, Some(Builder::make(alloc, 7)))?;
    for text in told(changes).split_whitespace() {
        let (key, value) = entry(text)?;
        builder.set(key, value).ok()?;
    }
    Some(builder)
}

/// Whether the changes give the entries, as a map and as a list.
pub(crate) fn filled_row(alloc: Global, row: &str) -> Option<bool> {
    let (changes, entries) = halves(row, " -> ")?;
    let builder = Box::into_inner(filled(alloc, changes)?);
    let map = boxed(alloc, builder.finish().ok())?;
    let builder = Box::into_inner(filled(alloc, changes)?);
    let list = builder.into_entries().ok()?;
    Some(has(&map, entries)? && has_entries(&map, &list))
}

#[test]
fn maps_are_filled(rt: HostRuntime) {
    check(&rt, rt.alloc(), Rows::Filled, FILLED);
}

/// A map with the keys from 1 to `most`, each with ten times itself.
fn tens(alloc: Global, most: u64) -> Option<Box<Sparse<u64, u64>>> {
    let mut map = empty(alloc)?;
    for before in 0..most {
        let key = before.wrapping_add(1);
        map.set(key, key.wrapping_mul(10)).ok()?;
    }
    Some(map)
}

/// A copy of the map, with 1 at the key.
fn changed_copy(map: &Sparse<u64, u64>, key: u64) -> Option<Sparse<u64, u64>> {
    let mut copy = map.copy().ok()?;
    copy.set(key, 1).ok()?;
    Some(copy)
}

/// A copy of the map for each key, each with 1 at its own key.
fn copies(alloc: Global, map: &Sparse<u64, u64>, most: u64) -> Option<Vec<Sparse<u64, u64>>> {
    let mut kept = Vec::new(alloc);
    for before in 0..most {
        kept.push(changed_copy(map, before.wrapping_add(1))?).ok()?;
    }
    Some(kept)
}

/// Whether the map has its own values, and each copy has 1 at its own key and the map's value at the next.
fn stand_apart(map: &Sparse<u64, u64>, kept: &[Sparse<u64, u64>]) -> bool {
    let mut key = 0u64;
    for copy in kept {
        key = key.wrapping_add(1);
        let next = key.wrapping_add(1);
        let is_old = *map.get(&key) == key.wrapping_mul(10);
        if !is_old || *copy.get(&key) != 1 || *copy.get(&next) != *map.get(&next) {
            return false;
        }
    }
    true
}

// Without shared parts the copies would have 2,500,000,000 entries.
fn shares(alloc: Global, most: u64) -> Option<bool> {
    let map = tens(alloc, most)?;
    let kept = copies(alloc, &map, most)?;
    Some(stand_apart(&map, &kept) && (kept.len() as u64, map.len() as u64) == (most, most))
}

#[test]
fn copies_share_their_entries(rt: HostRuntime) {
    assert!(rt; shares(rt.alloc(), 50_000) == Some(true));
}

/// Changes a map as a plain list of entries in order is changed, one key after another, and whether both have the same
/// entries each time.
fn changes_as_a_list(alloc: Global, rounds: u64) -> Option<bool> {
    let mut map = empty(alloc)?;
    let mut list = Vec::new(alloc);
    let mut seed = 1u64;
    for _ in 0..rounds {
        seed = seed
            .wrapping_mul(6364136223846793005)
            .wrapping_add(1442695040888963407);
        let key = (seed >> 33) % 64;
        let value = (seed >> 40) % 9;
        if !changes_both(&mut map, &mut list, key, value)? {
            return Some(false);
        }
    }
    Some(true)
}

/// Changes the map and the list alike, and answers whether they have the same entries then.
fn changes_both(
    map: &mut Sparse<u64, u64>,
    list: &mut Vec<(u64, u64)>,
    key: u64,
    value: u64,
) -> Option<bool> {
    map.set(key, value).ok()?;
    set_in_list(list, key, value)?;
    Some(has_entries(map, list))
}

/// The plain program: the entries in one list, in the order of their keys.
fn set_in_list(list: &mut Vec<(u64, u64)>, key: u64, value: u64) -> Option<()> {
    match list.binary_search_by(|entry| entry.0.cmp(&key)) {
        Ok(index) if value == 7 => {
            list.remove(index);
        }
        Ok(index) => list[index].1 = value,
        Err(index) if value != 7 => list.insert(index, (key, value)).ok()?,
        Err(_) => {}
    }
    Some(())
}

fn has_entries(map: &Sparse<u64, u64>, list: &[(u64, u64)]) -> bool {
    if map.len() != list.len() {
        return false;
    }
    for i in 0..list.len() {
        let (key, value) = list[i];
        if i >= map.len() || *map.key_at(i) != key || *map.get(&key) != value {
            return false;
        }
    }
    true
}

#[test]
fn maps_change_as_a_list_of_entries_does(rt: HostRuntime) {
    assert!(rt; changes_as_a_list(rt.alloc(), 4_000) == Some(true));
}
