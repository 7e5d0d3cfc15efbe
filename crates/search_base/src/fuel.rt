// What a search may do.
ghost use Rattle.std.specs.Prelude.{◌<◌, ◌≤◌, OnOk};

use crate::stop::SearchStop;

/// How much a search may still do. It counts rounds of loops and what they go through, so a search ends in the same way on every
/// machine.
pub struct Fuel {
    pub left: u64,
}

impl Fuel {
    /// So much fuel.
    pub fn new(left: u64) -> Fuel {
        Fuel { left }
    }

    /// Pays for a round that goes through so many things: the number of them, but at least 1. `Budget` where that is not left, and
    /// then nothing is.
    pub fn take(&mut self, cost: usize) -> Result<(), SearchStop>
        ensures never_more { self.new.left ≤ self.old.left }
        ensures less { OnOk result (self.new.left < self.old.left) }
    {
        let cost = if cost == 0 { 1 } else { cost as u64 };
        if self.left < cost {
            self.left = 0;
            return Err(SearchStop::Budget);
        }
        self.left -= cost;
        Ok(())
    }
}
