// Following clauses. Each is looked at only where one of two of its literals, which it watches, is false.
ghost use Rattle.std.specs.Prelude.{◌≤◌};

use crate::values::Values;
use search_base::{
    Found, Fuel, SearchStop, SignedTerm, StepId, copied, get, list_at, number, push_to, put_list,
    set, take_list,
};
use search_steps::Steps;
use std::cmp::Reverse;

/// The rank of a literal that has no value, and of one that is true; that of one that is false is its level.
const OPEN_RANK: u64 = 1 << 32;

const TRUE_RANK: u64 = 1 << 33;

/// What becomes of a clause whose watched literal is false.
enum Visit {
    /// It watches another literal.
    Moved,
    /// It is true, or left a literal that was assigned.
    Kept,
    /// All its literals are false.
    False,
}

impl Values {
    /// Whether a step is among the clauses.
    pub fn has(&self, step: StepId) -> bool {
        get(&self.starts, step.place()) != 0
    }

    /// Puts a step among the clauses, and gives it back where it is false now.
    pub fn attach(&mut self, step: StepId, steps: &Steps) -> Found {
        if !self.has(step) {
            self.watch(step, steps)?;
        }
        self.touch(step, steps)
    }

    /// Puts a step among the clauses. The literals that are watched are true, or open, or false of the last level.
    fn watch(&mut self, step: StepId, steps: &Steps) -> Result<(), SearchStop> {
        let mut literals = copied(self.alloc, steps.literals(step))?;
        literals.sort_by_key(|it| Reverse(self.rank(*it)))?;
        let start = number(self.arena.len())?;
        set(&mut self.starts, step.place(), start)?;
        self.arena.extend_from_slice(&literals)?;
        if literals.len() == 1 {
            self.units.push(step)?;
            return Ok(());
        }
        for it in literals.iter().take(2) {
            push_to(self.alloc, &mut self.watched, it.place(), step)?;
        }
        Ok(())
    }

    fn rank(&self, literal: SignedTerm) -> u64 {
        match self.value(literal) {
            Some(true) => TRUE_RANK,
            None => OPEN_RANK,
            Some(false) => u64::from(self.level(literal)),
        }
    }

    /// Assigns what follows by the clauses alone, and gives back a step that is false.
    pub fn follow_all(&mut self, steps: &Steps, fuel: &mut Fuel) -> Found
        ensures { fuel.new.left ≤ fuel.old.left }
    {
        while self.head < self.trail.len() && !self.is_done() {
            let literal = get(&self.trail, self.head).negated();
            fuel.take(list_at(&self.watched, literal.place()).len())?;
            self.head = self.head.saturating_add(1);
            let conflict = self.follow(literal, steps)?;
            if conflict.is_some() {
                return Ok(conflict);
            }
        }
        Ok(None)
    }

    /// Looks at the clauses that watch a literal, which is false now.
    fn follow(&mut self, literal: SignedTerm, steps: &Steps) -> Found {
        let watching = take_list(self.alloc, &mut self.watched, literal.place());
        if watching.is_empty() {
            return Ok(None);
        }
        let mut kept = Vec::with_capacity(self.alloc, watching.len())?;
        let mut conflict = None;
        for step in &watching {
            if conflict.is_some() {
                kept.push(*step)?;
                continue;
            }
            match self.visit(*step, literal, steps)? {
                Visit::Moved => {}
                Visit::Kept => kept.push(*step)?,
                Visit::False => {
                    kept.push(*step)?;
                    conflict = Some(*step);
                }
            }
        }
        // Nothing else was put there meanwhile: a clause moves to a literal that is not false.
        put_list(self.alloc, &mut self.watched, literal.place(), kept)?;
        Ok(conflict)
    }

    fn visit(
        &mut self,
        step: StepId,
        literal: SignedTerm,
        steps: &Steps,
    ) -> Result<Visit, SearchStop> {
        let first = self.front(step, literal);
        let value = self.value(first);
        if value == Some(true) {
            return Ok(Visit::Kept);
        }
        if self.moves(step, literal, steps.literals(step).len())? {
            return Ok(Visit::Moved);
        }
        if value == Some(false) {
            return Ok(Visit::False);
        }
        let level = number(self.limits.len())?;
        self.assign(first, step, level)?;
        Ok(Visit::Kept)
    }

    /// Puts the watched literal that is not this one at the beginning, and gives it.
    fn front(&mut self, step: StepId, literal: SignedTerm) -> SignedTerm {
        let start = get(&self.starts, step.place()) as usize;
        if get(&self.arena, start) == literal && start + 1 < self.arena.len() {
            self.arena.swap(start, start + 1);
        }
        get(&self.arena, start)
    }

    /// Whether a clause of so many literals that watched one has another one to watch, which is not false.
    fn moves(
        &mut self,
        step: StepId,
        literal: SignedTerm,
        length: usize,
    ) -> Result<bool, SearchStop> {
        let start = get(&self.starts, step.place()) as usize;
        for k in start + 2..start.saturating_add(length) {
            let other = get(&self.arena, k);
            if !self.is_false(other) {
                set(&mut self.arena, start + 1, other)?;
                set(&mut self.arena, k, literal)?;
                push_to(self.alloc, &mut self.watched, other.place(), step)?;
                return Ok(true);
            }
        }
        Ok(false)
    }
}
