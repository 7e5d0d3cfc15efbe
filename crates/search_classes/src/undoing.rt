// Going back.
use crate::applied::arguments_at;
use crate::classes::Classes;
use crate::grounds::{Link, Why};
use search_base::{SearchStop, SignedTerm, cut_to, get, list_at, pop_from, set};
use search_terms::Terms;

/// What was changed, so that it can be taken back.
#[derive(Clone, Copy)]
pub(crate) enum Undo {
    /// A term got a class.
    Enter(SignedTerm),
    /// A term got the signature of this number.
    RowSign(u32),
    /// Two classes were brought together.
    Merge(Merge),
    /// Two classes are known to differ.
    Separate(SignedTerm, SignedTerm),
}

/// A union of two classes by two terms of them, and what the new one had before.
#[derive(Clone, Copy)]
pub(crate) struct Merge {
    pub(crate) a: SignedTerm,
    pub(crate) b: SignedTerm,
    pub(crate) old: SignedTerm,
    pub(crate) new: SignedTerm,
    pub(crate) members: usize,
    pub(crate) uses: usize,
    pub(crate) differ: usize,
    pub(crate) constant: SignedTerm,
    pub(crate) content: SignedTerm,
    pub(crate) is_number: bool,
}

impl Classes {
    /// Begins a level.
    pub fn mark(&mut self) -> Result<(), SearchStop> {
        self.marks.push(self.undo.len())?;
        Ok(())
    }

    /// Goes back to a level. What was to be done is forgotten.
    pub fn back(&mut self, level: usize, terms: &Terms) -> Result<(), SearchStop> {
        let mark = get(&self.marks, level);
        self.marks.truncate(level);
        for _ in mark..self.undo.len() {
            match self.undo.pop() {
                Some(Undo::Enter(it)) => self.leave(it, terms)?,
                Some(Undo::RowSign(id)) => set(&mut self.signers, id as usize, SignedTerm::NONE)?,
                Some(Undo::Merge(merge)) => self.part(&merge)?,
                Some(Undo::Separate(a, b)) => self.unseparate(a, b),
                None => {}
            }
        }
        self.pending.clear();
        self.clash = None;
        self.news.clear();
        Ok(())
    }

    fn leave(&mut self, it: SignedTerm, terms: &Terms) -> Result<(), SearchStop> {
        for k in arguments_at(terms, it) {
            let class = self.name(terms.part(it.term(), k));
            pop_from(&mut self.uses, class.place());
        }
        set(&mut self.names, it.place(), SignedTerm::NONE)?;
        let _ = self.entered.pop();
        Ok(())
    }

    fn part(&mut self, merge: &Merge) -> Result<(), SearchStop> {
        let at = merge.new.place();
        for member in list_at(&self.members, merge.old.place()) {
            set(&mut self.names, member.place(), merge.old)?;
        }
        cut_to(&mut self.members, at, merge.members);
        cut_to(&mut self.uses, at, merge.uses);
        cut_to(&mut self.differ, at, merge.differ);
        set(&mut self.constants, at, merge.constant)?;
        set(&mut self.contents, at, merge.content)?;
        if merge.is_number {
            let _ = self.merges.pop();
        }
        let is_first = self.link(merge.a).next == merge.b;
        let end = if is_first { merge.a } else { merge.b };
        set(
            &mut self.links,
            end.place(),
            Link {
                next: SignedTerm::NONE,
                why: Why::Nothing,
            },
        )
    }

    fn unseparate(&mut self, a: SignedTerm, b: SignedTerm) {
        pop_from(&mut self.differ, b.place());
        pop_from(&mut self.differ, a.place());
    }
}
