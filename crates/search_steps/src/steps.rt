// The steps so far.
use crate::rules::StepRule;
use search_base::{Intern, SearchStop, SignedTerm, StepId, distinct, get};
use std::alloc::Global;

/// What stands first in the words of step 0, which is none.
const NO_RULE: i64 = -1;

/// The steps so far, each once, by number from 1 on: the literals of each, its reason, and the words behind that.
#[derive(Drop)]
pub struct Steps {
    /// The code of the reason of each step, and its words.
    words: Intern,
    literals: Vec<SignedTerm>,
    /// Where the literals of each step begin, and behind the last one the end.
    starts: Vec<usize>,
    /// The words of the step that is made.
    spelled: Vec<i64>,
    alloc: Global,
}

impl Steps {
    /// No steps. `Memory` where there is no memory.
    pub fn new(alloc: Global) -> Result<Steps, SearchStop> {
        let mut words = Intern::new(alloc)?;
        words.add(&[NO_RULE])?;
        Ok(Steps {
            words,
            literals: Vec::new(alloc),
            starts: vec![in alloc; 0; 2]?,
            spelled: Vec::new(alloc),
            alloc,
        })
    }

    /// One more than the number of the last step.
    pub fn end(&self) -> usize {
        self.words.count()
    }

    /// The literals of a step, of which one is true.
    pub fn literals(&self, step: StepId) -> &[SignedTerm] {
        let n = step.place();
        match (self.starts.get(n), self.starts.get(n.saturating_add(1))) {
            (Some(start), Some(end)) => self.literals.get(*start..*end).unwrap_or(&[]),
            _ => &[],
        }
    }

    /// The reason of a step.
    pub fn rule(&self, step: StepId) -> StepRule {
        StepRule::of_code(get(self.words.get(step.number()), 0))
    }

    /// The words behind the reason of a step.
    pub fn words(&self, step: StepId) -> &[i64] {
        self.words.get(step.number()).get(1..).unwrap_or(&[])
    }

    /// The step of these words, made once. `Overflow` where there are 2^30.
    pub fn add_words(
        &mut self,
        literals: &[SignedTerm],
        rule: StepRule,
        words: &[i64],
    ) -> Result<StepId, SearchStop> {
        self.spelled.clear();
        self.spelled.push(rule.code())?;
        self.spelled.extend_from_slice(words)?;
        self.take_spelled(literals)
    }

    /// A step whose words are terms and literals.
    pub fn add(
        &mut self,
        literals: &[SignedTerm],
        rule: StepRule,
        words: &[SignedTerm],
    ) -> Result<StepId, SearchStop> {
        self.spelled.clear();
        self.spelled.push(rule.code())?;
        for it in words {
            self.spelled.push(it.word())?;
        }
        self.take_spelled(literals)
    }

    /// A step that follows from others by propagation, in this order.
    pub fn implied(
        &mut self,
        literals: &[SignedTerm],
        hints: &[StepId],
    ) -> Result<StepId, SearchStop> {
        self.spelled.clear();
        self.spelled.push(StepRule::Rup.code())?;
        for it in literals {
            self.spelled.push(it.word())?;
        }
        self.spelled.push(0)?;
        for it in hints {
            self.spelled.push(it.word())?;
        }
        self.take_spelled(literals)
    }

    /// The step whose words are spelled.
    fn take_spelled(&mut self, literals: &[SignedTerm]) -> Result<StepId, SearchStop> {
        let (id, is_new) = self.words.add(&self.spelled)?;
        if is_new {
            let literals = distinct(self.alloc, literals)?;
            self.literals.extend_from_slice(&literals)?;
            self.starts.push(self.literals.len())?;
        }
        Ok(StepId::of(id))
    }

    /// The words of the steps from which one follows by propagation.
    pub fn hints(&self, step: StepId) -> &[i64] {
        if self.rule(step) != StepRule::Rup {
            return &[];
        }
        let words = self.words(step);
        match words.iter().position(|it| *it == 0) {
            Some(end) => words.get(end..).and_then(|it| it.get(1..)).unwrap_or(&[]),
            None => &[],
        }
    }
}
