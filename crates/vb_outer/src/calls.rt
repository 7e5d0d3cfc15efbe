//! The calls of a device in memory.
ghost use Rattle.std.specs.Prelude.{◌≡◌, ◌<◌, ◌^◌};
ghost use Rattle.std.specs.List.{AllByRecursion};
ghost use Rattle.vb_outer.specs.Calls.{Calls, fails_next, called};
ghost use Rattle.vb_outer.specs.Faults.{one_more};

use crate::{Failed, count_fault};
use std::marker::Model;

/// Counts calls and faults, and knows the numbers of the calls that are to fail.
#[derive(Drop)]
pub(crate) struct Schedule {
    failing: Vec<u64>,
    made: u64,
    faults: u64,
}

impl Model for Schedule {
    ghost Value = { Calls };

    ghost view = { λ s. record { failing = s.failing.items; made = s.made; faults = s.faults } };

    ghost invariant = { λ s. AllByRecursion (λ number. number < 2 ^ 64) s.failing.items };
}

impl Schedule {
    pub(crate) fn new(failing: Vec<u64>) -> Self
        ensures { result ≡ record { failing = failing.items; made = 0; faults = 0 } }
    {
        Schedule {
            failing,
            made: 0,
            faults: 0,
        }
    }

    /// Counts a call, and answers whether it is to fail.
    pub(crate) fn call(&mut self) -> bool
        ensures fails { result ≡ fails_next self.old }
        ensures counted { self.new ≡ called self.old }
        ensures fits { self.old.faults < 2 ^ 64 }
    {
        let made = self.made;
        self.made = made.saturating_add(1);
        // Past the greatest u64 no call has a number that could have been given.
        made < u64::MAX && self.failing.contains(&self.made)
    }

    /// Counts a fault of the call that was counted last.
    pub(crate) fn fault(&mut self) -> Failed
        ensures { self.new ≡ record self.old { faults = one_more self.old.faults } }
    {
        count_fault(&mut self.faults)
    }
}
