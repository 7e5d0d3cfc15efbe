// Lists that are read and written by place: past their end stands a default, and a write makes them long enough.
ghost use Rattle.std.specs.Prelude.{◌<◌, ◌^◌, IfOk};

use crate::names::SignedTerm;
use crate::stop::SearchStop;
use std::alloc::Global;
use std::collections::BTreeSet;

/// Numbers are below this one.
const END: usize = 1 << 30;

/// Where a list is no longer, a value is looked for in it by going through it.
const SHORT: usize = 16;

/// The length of a list, as the number of what comes next in it. `Overflow` from 2^30 on.
pub fn number(length: usize) -> Result<u32, SearchStop>
    ensures { IfOk result (λ n. n < 2 ^ 30) }
{
    if length < END {
        Ok(length as u32)
    } else {
        Err(SearchStop::Overflow)
    }
}

/// What stands at a place.
pub fn get<T: Copy + Default>(list: &[T], at: usize) -> T {
    match list.get(at) {
        Some(it) => *it,
        None => T::default(),
    }
}

/// Puts a value at a place.
pub fn set<T: Copy + Default + Drop>(
    list: &mut Vec<T>,
    at: usize,
    value: T,
) -> Result<(), SearchStop> {
    if at >= list.len() {
        list.resize(at.saturating_add(1), T::default())?;
    }
    if let Some(it) = list.get_mut(at) {
        *it = value;
    }
    Ok(())
}

/// The list at a place, empty past the end.
pub fn list_at<T>(lists: &[Vec<T>], at: usize) -> &[T] {
    match lists.get(at) {
        Some(it) => it,
        None => &[],
    }
}

/// Makes lists enough that one stands at a place.
fn reach<T: Drop>(alloc: Global, lists: &mut Vec<Vec<T>>, at: usize) -> Result<(), SearchStop> {
    for _ in lists.len()..at.saturating_add(1) {
        lists.push(Vec::new(alloc))?;
    }
    Ok(())
}

/// Puts a value behind the list at a place.
pub fn push_to<T: Drop>(
    alloc: Global,
    lists: &mut Vec<Vec<T>>,
    at: usize,
    value: T,
) -> Result<(), SearchStop> {
    reach(alloc, lists, at)?;
    if let Some(it) = lists.get_mut(at) {
        it.push(value)?;
    }
    Ok(())
}

/// Puts values behind the list at a place.
pub fn extend_at<T: Copy + Drop>(
    alloc: Global,
    lists: &mut Vec<Vec<T>>,
    at: usize,
    values: &[T],
) -> Result<(), SearchStop> {
    if values.is_empty() {
        return Ok(());
    }
    reach(alloc, lists, at)?;
    if let Some(it) = lists.get_mut(at) {
        it.extend_from_slice(values)?;
    }
    Ok(())
}

/// Puts a list at a place, in place of the one that stands there.
pub fn put_list<T: Drop>(
    alloc: Global,
    lists: &mut Vec<Vec<T>>,
    at: usize,
    list: Vec<T>,
) -> Result<(), SearchStop> {
    reach(alloc, lists, at)?;
    if let Some(it) = lists.get_mut(at) {
        *it = list;
    }
    Ok(())
}

/// Takes the list at a place, and leaves an empty one.
pub fn take_list<T: Drop>(alloc: Global, lists: &mut [Vec<T>], at: usize) -> Vec<T> {
    let empty = Vec::new(alloc);
    match lists.get_mut(at) {
        Some(it) => std::mem::replace(it, empty),
        None => empty,
    }
}

/// Takes the last value off the list at a place.
pub fn pop_from<T: Copy + Drop>(lists: &mut [Vec<T>], at: usize) {
    if let Some(it) = lists.get_mut(at) {
        let _ = it.pop();
    }
}

/// Cuts the list at a place short.
pub fn cut_to<T: Drop>(lists: &mut [Vec<T>], at: usize, length: usize) {
    if let Some(it) = lists.get_mut(at) {
        it.truncate(length);
    }
}

/// Puts a value into a rising list that has each once.
pub fn insert_sorted<T: Copy + Ord + Drop>(list: &mut Vec<T>, value: T) -> Result<(), SearchStop> {
    let is_last = match list.last() {
        Some(last) => *last < value,
        None => true,
    };
    if is_last {
        list.push(value)?;
    } else if let Err(at) = list.binary_search(&value) {
        list.insert(at, value)?;
    }
    Ok(())
}

/// The values of a list, as a list of its own.
pub fn copied<T: Copy + Drop>(alloc: Global, list: &[T]) -> Result<Vec<T>, SearchStop> {
    let mut found = Vec::with_capacity(alloc, list.len())?;
    found.extend_from_slice(list)?;
    Ok(found)
}

/// The literals, each once, in the order in which they come first.
pub fn distinct(alloc: Global, literals: &[SignedTerm]) -> Result<Vec<SignedTerm>, SearchStop> {
    let mut found = Vec::with_capacity(alloc, literals.len())?;
    if literals.len() <= SHORT {
        for it in literals {
            if !found.contains(it) {
                found.push(*it)?;
            }
        }
        return Ok(found);
    }
    let mut seen = BTreeSet::new(alloc);
    for it in literals {
        if seen.insert(*it)? {
            found.push(*it)?;
        }
    }
    Ok(found)
}
