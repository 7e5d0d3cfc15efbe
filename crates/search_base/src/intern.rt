// Sequences of words by number.
use crate::lists::{get, number};
use crate::stop::SearchStop;
use std::alloc::Global;

/// How many places the table has at first.
const FIRST_PLACES: usize = 64;

/// Gives each sequence of words a number, from 0 on: the same number where it comes again. Nothing is removed.
#[derive(Drop)]
pub struct Intern {
    words: Vec<i64>,
    /// Where each sequence begins in `words`, and behind the last one the end.
    starts: Vec<usize>,
    /// A table with open places, at least half of them free: a number plus 1, or 0.
    places: Vec<u32>,
    alloc: Global,
}

impl Intern {
    /// No sequences. `Memory` where there is no memory.
    pub fn new(alloc: Global) -> Result<Intern, SearchStop> {
        Ok(Intern {
            words: Vec::new(alloc),
            starts: vec![in alloc; 0]?,
            places: vec![in alloc; 0; FIRST_PLACES]?,
            alloc,
        })
    }

    /// How many sequences there are.
    pub fn count(&self) -> usize {
        self.starts.len().saturating_sub(1)
    }

    /// The sequence of a number, empty where there is none.
    pub fn get(&self, id: u32) -> &[i64] {
        let n = id as usize;
        match (self.starts.get(n), self.starts.get(n + 1)) {
            (Some(start), Some(end)) => self.words.get(*start..*end).unwrap_or(&[]),
            _ => &[],
        }
    }

    /// The number of a sequence that has one.
    pub fn find(&self, key: &[i64]) -> Option<u32> {
        get(&self.places, self.place(key)).checked_sub(1)
    }

    /// The number of a sequence, and whether it is new. `Overflow` where there are 2^30, `Memory` where there is no memory.
    pub fn add(&mut self, key: &[i64]) -> Result<(u32, bool), SearchStop> {
        let place = self.place(key);
        if let Some(found) = get(&self.places, place).checked_sub(1) {
            return Ok((found, false));
        }
        let id = number(self.count())?;
        self.words.extend_from_slice(key)?;
        self.starts.push(self.words.len())?;
        if let Some(it) = self.places.get_mut(place) {
            *it = id + 1;
        }
        if self.count() > self.places.len() / 2 {
            self.grow()?;
        }
        Ok((id, true))
    }

    /// The place in the table where a sequence stands, or a free one where it would.
    fn place(&self, key: &[i64]) -> usize {
        let mask = self.places.len().saturating_sub(1);
        let mut at = (hash(key) as usize) & mask;
        for _ in 0..self.places.len() {
            match get(&self.places, at).checked_sub(1) {
                None => return at,
                Some(found) if self.get(found) == key => return at,
                Some(_) => at = at.wrapping_add(1) & mask,
            }
        }
        at
    }

    fn grow(&mut self) -> Result<(), SearchStop> {
        let length = self.places.len().saturating_mul(2);
        self.places = vec![in self.alloc; 0; length]?;
        for id in 0..number(self.count())? {
            let place = self.place(self.get(id));
            if let Some(it) = self.places.get_mut(place) {
                *it = id + 1;
            }
        }
        Ok(())
    }
}

fn hash(key: &[i64]) -> u64 {
    let mut found: u64 = 0x9e37_79b9_7f4a_7c15;
    for it in key {
        found = (found ^ it.cast_unsigned()).wrapping_mul(0xff51_afd7_ed55_8ccd);
        found ^= found >> 32;
    }
    found
}
