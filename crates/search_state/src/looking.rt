// What is to be looked at, and what that waits for.
ghost use Rattle.std.specs.Prelude.{◌≤◌};

use crate::prover::Prover;
use search_agenda::Item;
use search_base::{Fuel, SearchStop, SignedTerm, TermId};

impl Prover {
    /// Gives a term a class, and its arguments before it.
    pub fn register(&mut self, it: SignedTerm, fuel: &mut Fuel) -> Result<(), SearchStop>
        ensures { fuel.new.left ≤ fuel.old.left }
    {
        self.classes.register(it, &mut self.terms, fuel)
    }

    /// Looks at the term of a literal, unless it was looked at.
    pub fn look_at(&mut self, literal: SignedTerm) -> Result<(), SearchStop> {
        self.agenda.add(Item::of(literal.term()))
    }

    /// Looks at the parts of a term, the last one first.
    pub fn look_at_parts(&mut self, n: TermId) -> Result<(), SearchStop> {
        for k in 0..self.terms.arity(n) {
            let part = self.terms.part(n, k);
            self.look_at(part)?;
        }
        Ok(())
    }

    /// Looks at a term once more, behind others that are put on the agenda next.
    pub fn look_again(&mut self, n: TermId) -> Result<(), SearchStop> {
        self.agenda.again(Item::of(n))
    }

    /// The item is looked at again where a literal gets a value.
    pub fn wait_for(&mut self, literal: SignedTerm) -> Result<(), SearchStop> {
        self.agenda.wait_for_value(self.item, literal.term())
    }

    /// The item is looked at again where more is known of the classes of these terms, or of two of them together.
    pub fn wait_for_classes(&mut self, terms: &[SignedTerm]) -> Result<(), SearchStop> {
        for it in terms {
            let class = self.classes.name(*it);
            if !class.is_none() {
                self.agenda.wait_for_class(self.item, class)?;
            }
        }
        Ok(())
    }

    /// The item is looked at again where more is known of the classes of the sides of a comparison.
    pub fn wait_for_sides(&mut self, n: TermId) -> Result<(), SearchStop> {
        let sides = [self.terms.part(n, 0), self.terms.part(n, 1)];
        self.wait_for_classes(&sides)
    }

    /// The item wants a literal decided: of a higher rank first one of a definition, and then which way a run came.
    pub fn want(&mut self, literal: SignedTerm, rank: u32) -> Result<(), SearchStop> {
        self.wait_for(literal)?;
        self.probe_later(literal)?;
        self.agenda.want(self.item, literal, rank)
    }

    /// Has a comparison of numbers looked at before anything is decided.
    pub fn probe_later(&mut self, literal: SignedTerm) -> Result<(), SearchStop> {
        if self.terms.is_number_comparison(literal.term()) {
            self.probes.insert(literal.term())?;
        }
        Ok(())
    }
}
