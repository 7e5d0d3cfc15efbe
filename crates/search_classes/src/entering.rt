// Terms that get a class, and what is made of constants.
ghost use Rattle.std.specs.Prelude.{◌≤◌};

use crate::applied::{arguments, arguments_at};
use crate::classes::Classes;
use crate::grounds::{Link, Union, Why};
use crate::undoing::Undo;
use search_base::{Fuel, SearchStop, SignedTerm, cut_to, get, number, push_to, set};
use search_rational::Rational;
use search_terms::{TermOp, Terms};

impl Classes {
    /// Gives a term a class, and its arguments before it.
    #[cycle(entering)]
    pub fn register(
        &mut self,
        term: SignedTerm,
        terms: &mut Terms,
        fuel: &mut Fuel,
    ) -> Result<(), SearchStop>
        ensures { fuel.new.left ≤ fuel.old.left }
    {
        if self.has(term) {
            return Ok(());
        }
        let mut todo = vec![in self.alloc; term]?;
        while let Some(it) = todo.last().copied() {
            fuel.take(1)?;
            if self.has(it) {
                let _ = todo.pop();
                continue;
            }
            let before = todo.len();
            self.put_arguments(it, terms, &mut todo)?;
            if todo.len() == before {
                let _ = todo.pop();
                self.enter(it, terms, fuel)?;
            }
        }
        Ok(())
    }

    /// Puts the arguments of a term to do that have no class.
    fn put_arguments(
        &self,
        it: SignedTerm,
        terms: &Terms,
        todo: &mut Vec<SignedTerm>,
    ) -> Result<(), SearchStop> {
        for k in arguments_at(terms, it) {
            let part = terms.part(it.term(), k);
            if !self.has(part) {
                todo.push(part)?;
            }
        }
        Ok(())
    }

    /// Gives a term a class of its own, whose arguments have theirs.
    #[cycle(entering)]
    fn enter(
        &mut self,
        it: SignedTerm,
        terms: &mut Terms,
        fuel: &mut Fuel,
    ) -> Result<(), SearchStop>
        ensures { fuel.new.left ≤ fuel.old.left }
    {
        fuel.take(1)?;
        self.begin(it, terms)?;
        self.use_arguments(it, terms)?;
        if arguments_at(terms, it).start < arguments_at(terms, it).end {
            self.sign(it, terms)?;
            if terms.op(it.term()).is_folded() {
                self.fold_up(it, terms, fuel)?;
            }
        }
        Ok(())
    }

    fn begin(&mut self, it: SignedTerm, terms: &Terms) -> Result<(), SearchStop> {
        let (at, op) = (it.place(), terms.op(it.term()));
        let is_constant = it.is_plain() && terms.value(it.term()).is_some();
        let is_content = it.is_plain() && (op.is_content() || op == TermOp::Unit);
        set(&mut self.names, at, it)?;
        cut_to(&mut self.members, at, 0);
        push_to(self.alloc, &mut self.members, at, it)?;
        cut_to(&mut self.uses, at, 0);
        cut_to(&mut self.differ, at, 0);
        set(
            &mut self.constants,
            at,
            if is_constant { it } else { SignedTerm::NONE },
        )?;
        set(
            &mut self.contents,
            at,
            if is_content { it } else { SignedTerm::NONE },
        )?;
        set(
            &mut self.links,
            at,
            Link {
                next: SignedTerm::NONE,
                why: Why::Nothing,
            },
        )?;
        self.entered.push(it)?;
        self.undo.push(Undo::Enter(it))?;
        Ok(())
    }

    fn use_arguments(&mut self, it: SignedTerm, terms: &Terms) -> Result<(), SearchStop> {
        for k in arguments_at(terms, it) {
            let class = self.name(terms.part(it.term(), k));
            push_to(self.alloc, &mut self.uses, class.place(), it)?;
        }
        Ok(())
    }

    /// Notes a term by its operator and the classes of its parts, and that it equals the one that is so noted already.
    pub(crate) fn sign(&mut self, term: SignedTerm, terms: &Terms) -> Result<(), SearchStop> {
        let n = term.term();
        let op = terms.op(n);
        self.spelled.clear();
        self.spelled.push(op.code())?;
        self.spelled.push(if op == TermOp::At {
            terms.part(n, 0).word()
        } else {
            0
        })?;
        for k in arguments_at(terms, term) {
            let class = self.name(terms.part(n, k));
            self.spelled.push(class.word())?;
        }
        let (id, _) = self.signatures.add(&self.spelled)?;
        let other = get(&self.signers, id as usize);
        if other.is_none() {
            set(&mut self.signers, id as usize, term)?;
            self.undo.push(Undo::RowSign(id))?;
        } else if !self.are_same(other, term) {
            self.pending.push_back(Union {
                a: term,
                b: other,
                why: Why::Same,
            })?;
        }
        Ok(())
    }

    /// Notes that a term equals the constant that it is made to, where its parts equal constants.
    #[cycle(entering)]
    pub(crate) fn fold_up(
        &mut self,
        it: SignedTerm,
        terms: &mut Terms,
        fuel: &mut Fuel,
    ) -> Result<(), SearchStop>
        ensures { fuel.new.left ≤ fuel.old.left }
    {
        fuel.take(1)?;
        let op = terms.op(it.term());
        let own = terms.is_own(it.term());
        if own && (op == TermOp::Mul || op == TermOp::Div) {
            self.fold_product(it, op, terms, fuel)?;
        }
        if own || self.constant(it).is_some() {
            return Ok(());
        }
        let Some(value) = self.folded(it, terms)? else {
            return Ok(());
        };
        let kind = terms.kind(it);
        let found = terms.number(value, kind)?.literal();
        self.register(found, terms, fuel)?;
        self.note_fold(it, found, terms)
    }

    fn note_fold(
        &mut self,
        it: SignedTerm,
        found: SignedTerm,
        terms: &Terms,
    ) -> Result<(), SearchStop> {
        let why = Why::Fold(number(self.folds.len())?);
        let mut pairs = Vec::new(self.alloc);
        for part in &arguments(self.alloc, terms, it)? {
            pairs.push((*part, self.constant_of(*part)))?;
        }
        self.folds.push(pairs)?;
        self.pending.push_back(Union {
            a: it,
            b: found,
            why,
        })?;
        Ok(())
    }

    /// What a term is made to by the constants that its parts equal; None where one equals none.
    fn folded(&self, it: SignedTerm, terms: &Terms) -> Result<Option<Rational>, SearchStop> {
        for k in arguments_at(terms, it) {
            if self.constant(terms.part(it.term(), k)).is_none() {
                return Ok(None);
            }
        }
        let a = self.value_at(it, 0, terms);
        let b = self.value_at(it, 1, terms);
        let value = match terms.op(it.term()) {
            TermOp::Add => a.plus(b)?,
            TermOp::Sub => a.minus(b)?,
            TermOp::Neg => a.negated()?,
            TermOp::Mul => a.times(b)?,
            TermOp::Div if b.is_zero() => b,
            TermOp::Div => a.over(b)?,
            _ => a,
        };
        Ok(Some(value))
    }

    /// The value that part k of a term equals.
    fn value_at(&self, it: SignedTerm, k: usize, terms: &Terms) -> Rational {
        let constant = self.constant_of(terms.part(it.term(), k));
        terms.value(constant.term()).unwrap_or_default()
    }

    /// The parts of a product or quotient with a constant in place of the first one that equals one and may be replaced.
    fn with_constant(&self, op: TermOp, a: SignedTerm, b: SignedTerm) -> Option<[SignedTerm; 2]> {
        if op == TermOp::Mul {
            if let Some(constant) = self.constant(a) {
                return Some([constant, b]);
            }
        }
        let constant = self.constant(b)?;
        Some([a, constant])
    }

    /// A product with a factor that equals a constant, and a quotient by one, is given a term that has the constant in it.
    #[cycle(entering)]
    fn fold_product(
        &mut self,
        it: SignedTerm,
        op: TermOp,
        terms: &mut Terms,
        fuel: &mut Fuel,
    ) -> Result<(), SearchStop>
        ensures { fuel.new.left ≤ fuel.old.left }
    {
        fuel.take(1)?;
        let (a, b) = (terms.part(it.term(), 0), terms.part(it.term(), 1));
        let Some(parts) = self.with_constant(op, a, b) else {
            return Ok(());
        };
        let made = terms.make(op, &parts)?.literal();
        self.register(made, terms, fuel)
    }
}
