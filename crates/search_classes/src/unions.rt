// Bringing two classes of terms together.
ghost use Rattle.std.specs.Prelude.{◌≤◌};

use crate::classes::Classes;
use crate::grounds::{Clash, Link, News, Touched, Union, Why};
use crate::undoing::{Merge, Undo};
use search_base::{
    Fuel, SearchStop, SignedTerm, TermId, copied, extend_at, get, list_at, push_to, set,
};
use search_terms::{TermKind, TermOp, Terms};

impl Classes {
    /// Takes a literal that is true now.
    pub fn assigned(
        &mut self,
        literal: SignedTerm,
        terms: &mut Terms,
        fuel: &mut Fuel,
    ) -> Result<(), SearchStop>
        ensures { fuel.new.left ≤ fuel.old.left }
    {
        let n = literal.term();
        if terms.op(n) == TermOp::Eq {
            let (a, b) = (terms.part(n, 0), terms.part(n, 1));
            if literal.is_plain() || terms.kind(a) != TermKind::Bool {
                self.register(a, terms, fuel)?;
                self.register(b, terms, fuel)?;
                self.equate(literal, a, b)?;
            }
        }
        self.close(terms, fuel)
    }

    /// Takes an equation of terms that have a class, or that it is false.
    fn equate(
        &mut self,
        literal: SignedTerm,
        a: SignedTerm,
        b: SignedTerm,
    ) -> Result<(), SearchStop> {
        if literal.is_plain() {
            self.pending.push_back(Union {
                a,
                b,
                why: Why::Is(literal),
            })?;
            Ok(())
        } else {
            self.separate(literal.term(), a, b)
        }
    }

    fn separate(
        &mut self,
        equation: TermId,
        a: SignedTerm,
        b: SignedTerm,
    ) -> Result<(), SearchStop> {
        let (a, b) = (self.name(a), self.name(b));
        push_to(self.alloc, &mut self.differ, a.place(), equation)?;
        push_to(self.alloc, &mut self.differ, b.place(), equation)?;
        self.undo.push(Undo::Separate(a, b))?;
        self.touched.push(Touched::Parted(a, b))?;
        if a == b && self.clash.is_none() {
            self.clash = Some(Clash::Differ(equation));
        }
        Ok(())
    }

    /// Brings classes together until nothing is left to do, or there is a clash.
    pub fn close(&mut self, terms: &mut Terms, fuel: &mut Fuel) -> Result<(), SearchStop>
        ensures { fuel.new.left ≤ fuel.old.left }
    {
        while self.clash.is_none() {
            let Some(union) = self.pending.pop_front() else {
                break;
            };
            fuel.take(1)?;
            if !self.are_same(union.a, union.b) {
                self.merge(union, terms, fuel)?;
            }
        }
        Ok(())
    }

    /// How much has to be gone through where the class of a term becomes a part of another one.
    fn weight(&self, it: SignedTerm) -> usize {
        let uses = list_at(&self.uses, self.name(it).place());
        self.members(it).len().saturating_add(uses.len())
    }

    /// Brings the classes of two terms together: the lighter one becomes a part of the other one.
    fn merge(&mut self, union: Union, terms: &mut Terms, fuel: &mut Fuel) -> Result<(), SearchStop>
        ensures { fuel.new.left ≤ fuel.old.left }
    {
        let is_turned = self.weight(union.a) > self.weight(union.b);
        let (a, b) = if is_turned {
            (union.b, union.a)
        } else {
            (union.a, union.b)
        };
        let (old, new) = (self.name(a), self.name(b));
        fuel.take(self.weight(a))?;
        self.bind(a, b, union.why, terms)?;
        self.rename(old, new)?;
        let differing = copied(self.alloc, list_at(&self.differ, old.place()))?;
        self.find_clash(&differing, terms);
        let moved = copied(self.alloc, list_at(&self.uses, old.place()))?;
        let stayed = copied(self.alloc, list_at(&self.uses, new.place()))?;
        extend_at(self.alloc, &mut self.uses, new.place(), &moved)?;
        extend_at(self.alloc, &mut self.differ, new.place(), &differing)?;
        for it in &moved {
            self.sign(*it, terms)?;
        }
        if union.why == Why::Same && terms.kind(a) == TermKind::Bool {
            self.news.push_back(News::Truths(a, b))?;
        }
        let is_known = self.join(old, new, &moved, &stayed, terms, fuel)?;
        self.touched.push(Touched::Joined { old, new, is_known })?;
        self.tell_parted(&differing, new, terms)
    }

    /// Notes that two terms are equal, in the trees of reasons and for going back.
    fn bind(
        &mut self,
        a: SignedTerm,
        b: SignedTerm,
        why: Why,
        terms: &Terms,
    ) -> Result<(), SearchStop> {
        let (old, new) = (self.name(a), self.name(b));
        let is_number = terms.is_number(a.term());
        self.turn(a)?;
        set(&mut self.links, a.place(), Link { next: b, why })?;
        let at = new.place();
        self.undo.push(Undo::Merge(Merge {
            a,
            b,
            old,
            new,
            members: list_at(&self.members, at).len(),
            uses: list_at(&self.uses, at).len(),
            differ: list_at(&self.differ, at).len(),
            constant: get(&self.constants, at),
            content: get(&self.contents, at),
            is_number,
        }))?;
        if is_number {
            self.merges.push((a, b))?;
        }
        if terms.kind(a) == TermKind::Snap {
            self.contents_joined = true;
        }
        Ok(())
    }

    /// Makes a term the root of its tree of reasons, which has no more terms than have a class.
    fn turn(&mut self, a: SignedTerm) -> Result<(), SearchStop> {
        let (mut before, mut it) = (
            Link {
                next: SignedTerm::NONE,
                why: Why::Nothing,
            },
            a,
        );
        for _ in 0..self.entered.len().saturating_add(1) {
            if it.is_none() {
                break;
            }
            let after = self.link(it);
            set(&mut self.links, it.place(), before)?;
            before = Link {
                next: it,
                why: after.why,
            };
            it = after.next;
        }
        Ok(())
    }

    /// Gives the terms of a class another name.
    fn rename(&mut self, old: SignedTerm, new: SignedTerm) -> Result<(), SearchStop> {
        let members = copied(self.alloc, list_at(&self.members, old.place()))?;
        for it in &members {
            set(&mut self.names, it.place(), new)?;
        }
        extend_at(self.alloc, &mut self.members, new.place(), &members)
    }

    fn find_clash(&mut self, differing: &[TermId], terms: &Terms) {
        for equation in differing {
            if self.are_same(terms.part(*equation, 0), terms.part(*equation, 1)) {
                self.clash = Some(Clash::Differ(*equation));
            }
        }
    }

    fn tell_parted(
        &mut self,
        differing: &[TermId],
        new: SignedTerm,
        terms: &Terms,
    ) -> Result<(), SearchStop> {
        for equation in differing {
            for k in 0..2 {
                let other = self.name(terms.part(*equation, k));
                self.touched.push(Touched::Parted(other, new))?;
            }
        }
        Ok(())
    }

    /// The constant and the content of two classes that are one now. Whether more is known of the new one than before.
    fn join(
        &mut self,
        old: SignedTerm,
        new: SignedTerm,
        moved: &[SignedTerm],
        stayed: &[SignedTerm],
        terms: &mut Terms,
        fuel: &mut Fuel,
    ) -> Result<bool, SearchStop>
        ensures { fuel.new.left ≤ fuel.old.left }
    {
        let (one, two) = (
            get(&self.constants, old.place()),
            get(&self.constants, new.place()),
        );
        self.join_constants(one, two, new, terms)?;
        if one.is_none() != two.is_none() {
            self.fold_all(if two.is_none() { stayed } else { moved }, terms, fuel)?;
        }
        let is_content = self.join_contents(old, new, terms)?;
        Ok(is_content || (two.is_none() && !one.is_none()))
    }

    fn join_constants(
        &mut self,
        one: SignedTerm,
        two: SignedTerm,
        new: SignedTerm,
        terms: &Terms,
    ) -> Result<(), SearchStop> {
        let are_two = !one.is_none() && !two.is_none();
        if are_two && terms.value(one.term()) != terms.value(two.term()) && self.clash.is_none() {
            self.clash = Some(Clash::Constants(one, two));
        }
        set(
            &mut self.constants,
            new.place(),
            if two.is_none() { one } else { two },
        )
    }

    fn fold_all(
        &mut self,
        uses: &[SignedTerm],
        terms: &mut Terms,
        fuel: &mut Fuel,
    ) -> Result<(), SearchStop>
        ensures { fuel.new.left ≤ fuel.old.left }
    {
        for it in uses {
            if terms.op(it.term()).is_folded() {
                self.fold_up(*it, terms, fuel)?;
            }
        }
        Ok(())
    }

    /// Whether the new class has a content that it had not.
    fn join_contents(
        &mut self,
        old: SignedTerm,
        new: SignedTerm,
        terms: &Terms,
    ) -> Result<bool, SearchStop> {
        let (one, two) = (
            get(&self.contents, old.place()),
            get(&self.contents, new.place()),
        );
        if !one.is_none() && !two.is_none() && one != two {
            if terms.op(one.term()) != terms.op(two.term()) && self.clash.is_none() {
                self.clash = Some(Clash::Apart(one, two));
            }
            self.news.push_back(News::Parts(one, two))?;
        }
        set(
            &mut self.contents,
            new.place(),
            if two.is_none() { one } else { two },
        )?;
        Ok(two.is_none() && !one.is_none())
    }
}
