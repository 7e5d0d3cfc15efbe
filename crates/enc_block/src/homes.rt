// Where the statements of a unit find what they read and change.
ghost use Rattle.std.specs.Prelude.{◌≡◌, None};
ghost use Rattle.enc_expr.specs.View.{kinds_of, place_in};
ghost use Rattle.enc_block.specs.Home.{place};
ghost use Rattle.enc_block.specs.View.{home_of};

use enc_expr::{Kinds, Maps, Reading};
use vb_base::Pos;

/// Locals that stay the same from the first statement of a unit to the last.
#[derive(Drop)]
pub struct Home {
    /// The local of each variable.
    pub vars: Vec<usize>,
    /// The present state.
    pub now: Maps,
    /// The old state.
    pub old: Maps,
    /// Masks and amounts in which nothing is held. Its heaps and contents are never looked at.
    pub nothing: Maps,
}

/// The types that code is written by, and the locals that hold what they are the types of.
#[derive(Clone, Copy)]
pub struct Setting<'a> {
    pub kinds: Kinds<'a>,
    pub home: &'a Home,
}

impl<'a> Setting<'a> {
    /// In the present state, at the step that is running.
    pub fn reading(self, at: Pos) -> Reading<'a>
        ensures kinds { kinds_of result.kinds ≡ kinds_of self.entry.kinds }
        ensures place { place_in result ≡ place (home_of self.entry.home.now) at }
        ensures guard { result.guard ≡ None }
    {
        let home = self.home;
        Reading {
            kinds: self.kinds,
            vars: &home.vars,
            now: &home.now,
            old: &home.old,
            at,
            guard: None,
        }
    }
}
