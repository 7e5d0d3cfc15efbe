// Numbers as sums of terms that are no sums.
ghost use Rattle.std.specs.Prelude.{◌≤◌};

use crate::ops::TermOp;
use crate::terms::{Form, Terms};
use search_base::{Fuel, SearchStop, TermId, get, list_at, put_list, set};
use search_rational::{Rational, added};

/// What a number is the sum of: terms with factors, and a constant. `own` where it is no sum, but a term of its own.
#[derive(Clone, Copy)]
pub struct Meaning {
    pub parts: [Option<(TermId, Rational)>; 2],
    pub constant: Rational,
    pub own: bool,
}

impl Meaning {
    fn sum(first: Option<(TermId, Rational)>, second: Option<(TermId, Rational)>) -> Meaning {
        Meaning {
            parts: [first, second],
            constant: Rational::ZERO,
            own: false,
        }
    }

    fn constant(constant: Rational) -> Meaning {
        Meaning {
            parts: [None, None],
            constant,
            own: false,
        }
    }

    fn own() -> Meaning {
        Meaning {
            parts: [None, None],
            constant: Rational::ZERO,
            own: true,
        }
    }
}

impl Terms {
    /// What a number is the sum of.
    pub fn meaning(&self, n: TermId) -> Meaning {
        let (a, b) = (self.part(n, 0).term(), self.part(n, 1).term());
        match self.op(n) {
            TermOp::Int | TermOp::Real => Meaning::constant(Rational::whole(self.written(n))),
            TermOp::Add => Meaning::sum(Some((a, Rational::ONE)), Some((b, Rational::ONE))),
            TermOp::Sub => Meaning::sum(Some((a, Rational::ONE)), Some((b, Rational::MINUS_ONE))),
            TermOp::Neg => Meaning::sum(Some((a, Rational::MINUS_ONE)), None),
            TermOp::ToReal => Meaning::sum(Some((a, Rational::ONE)), None),
            TermOp::Mul => match (self.value(a), self.value(b)) {
                (Some(by), _) => Meaning::sum(Some((b, by)), None),
                (None, Some(by)) => Meaning::sum(Some((a, by)), None),
                (None, None) => Meaning::own(),
            },
            TermOp::Div => match self.value(b) {
                Some(by) => quotient(a, by),
                None => Meaning::own(),
            },
            _ => Meaning::own(),
        }
    }

    /// Whether a number is no sum, but a term of its own.
    pub fn is_own(&self, n: TermId) -> bool {
        self.meaning(n).own
    }

    /// A number as a sum, made once.
    pub fn form(&mut self, n: TermId, fuel: &mut Fuel) -> Result<&[(TermId, Rational)], SearchStop>
        ensures { fuel.new.left ≤ fuel.old.left }
    {
        if !get(&self.formed, n.place()) {
            self.make_form(n, fuel)?;
        }
        Ok(list_at(&self.forms, n.place()))
    }

    /// Makes the form of a number, and before it those of its parts.
    fn make_form(&mut self, n: TermId, fuel: &mut Fuel) -> Result<(), SearchStop>
        ensures { fuel.new.left ≤ fuel.old.left }
    {
        let mut todo = vec![in self.alloc; n]?;
        while let Some(it) = todo.last().copied() {
            let meaning = self.meaning(it);
            fuel.take(self.cost_of(&meaning))?;
            let before = todo.len();
            self.put_missing(it, &meaning, &mut todo)?;
            if todo.len() == before {
                let _ = todo.pop();
                self.put_form(it, &meaning)?;
            }
        }
        Ok(())
    }

    /// Puts the parts of a number to do whose forms are not made.
    fn put_missing(
        &self,
        n: TermId,
        meaning: &Meaning,
        todo: &mut Vec<TermId>,
    ) -> Result<(), SearchStop> {
        for (part, _) in meaning.parts.iter().flatten() {
            if *part < n && !get(&self.formed, part.place()) {
                todo.push(*part)?;
            }
        }
        Ok(())
    }

    fn put_form(&mut self, n: TermId, meaning: &Meaning) -> Result<(), SearchStop> {
        if !get(&self.formed, n.place()) {
            let form = self.sum_of(n, meaning)?;
            set(&mut self.formed, n.place(), true)?;
            put_list(self.alloc, &mut self.forms, n.place(), form)?;
        }
        Ok(())
    }

    /// How many terms the forms of the parts have.
    fn cost_of(&self, meaning: &Meaning) -> usize {
        let mut cost: usize = 1;
        for (part, _) in meaning.parts.iter().flatten() {
            cost = cost.saturating_add(list_at(&self.forms, part.place()).len());
        }
        cost
    }

    fn sum_of(&self, n: TermId, meaning: &Meaning) -> Result<Form, SearchStop> {
        if meaning.own {
            return Ok(vec![in self.alloc; (n, Rational::ONE)]?);
        }
        let mut found = Vec::new(self.alloc);
        if !meaning.constant.is_zero() {
            found.push((TermId::NONE, meaning.constant))?;
        }
        for (part, by) in meaning.parts.iter().flatten() {
            found = added(self.alloc, &found, list_at(&self.forms, part.place()), *by)?;
        }
        Ok(found)
    }
}

/// What a number over a constant is; over 0 it is 0.
fn quotient(a: TermId, by: Rational) -> Meaning {
    if by.is_zero() {
        return Meaning::constant(Rational::ZERO);
    }
    match Rational::ONE.over(by) {
        Ok(by) => Meaning::sum(Some((a, by)), None),
        Err(_) => Meaning::own(),
    }
}
