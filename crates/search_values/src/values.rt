// Values of literals, and how they came.
use search_base::{Found, SearchStop, SignedTerm, StepId, TermId, copied, get, number, set};
use search_steps::Steps;
use std::alloc::Global;

/// Values of literals, by decisions and by clauses, each a step, of which all literals but one are false.
#[derive(Drop)]
pub struct Values {
    /// By literal, whether it is true.
    values: Vec<Option<bool>>,
    /// By term, the number of decisions that its value stands on, the step that it follows from, which is none where it was decided,
    /// and its place in the trail.
    levels: Vec<u32>,
    reasons: Vec<StepId>,
    places: Vec<u32>,
    /// The literals that are true, as they came.
    pub(crate) trail: Vec<SignedTerm>,
    /// Where each level begins in the trail.
    pub(crate) limits: Vec<usize>,
    /// How much of the trail was followed by clauses, and how much was told.
    pub(crate) head: usize,
    told: usize,
    /// The literals of the clauses, those two that are watched first, and by step where its clause begins; 0 where it is none.
    pub(crate) arena: Vec<SignedTerm>,
    pub(crate) starts: Vec<u32>,
    /// By literal, the clauses that watch it.
    pub(crate) watched: Vec<Vec<StepId>>,
    pub(crate) units: Vec<StepId>,
    /// By term, the step that says alone what it is whatever is decided.
    pub(crate) unit_steps: Vec<StepId>,
    /// The literal that is to be false: nothing more follows from what is assigned once it is.
    pub goal: SignedTerm,
    pub(crate) alloc: Global,
}

impl Values {
    /// Nothing has a value. `Memory` where there is no memory.
    pub fn new(alloc: Global) -> Result<Values, SearchStop> {
        Ok(Values {
            values: Vec::new(alloc),
            levels: Vec::new(alloc),
            reasons: Vec::new(alloc),
            places: Vec::new(alloc),
            trail: Vec::new(alloc),
            limits: Vec::new(alloc),
            head: 0,
            told: 0,
            arena: vec![in alloc; SignedTerm::NONE]?,
            starts: Vec::new(alloc),
            watched: Vec::new(alloc),
            units: Vec::new(alloc),
            unit_steps: Vec::new(alloc),
            goal: SignedTerm::NONE,
            alloc,
        })
    }

    /// Whether a literal is true, where it has a value.
    pub fn value(&self, literal: SignedTerm) -> Option<bool> {
        get(&self.values, literal.place())
    }

    /// Whether a literal is true.
    pub fn is_true(&self, literal: SignedTerm) -> bool {
        self.value(literal) == Some(true)
    }

    /// Whether a literal is false.
    pub fn is_false(&self, literal: SignedTerm) -> bool {
        self.value(literal) == Some(false)
    }

    /// Whether a literal has no value.
    pub fn is_open(&self, literal: SignedTerm) -> bool {
        self.value(literal).is_none()
    }

    /// The number of decisions that the value of a literal stands on.
    pub fn level(&self, literal: SignedTerm) -> u32 {
        get(&self.levels, literal.term().place())
    }

    /// The step that the value of a literal follows from. None where it was decided.
    pub fn reason(&self, literal: SignedTerm) -> Option<StepId> {
        self.reason_of(literal.term()).found()
    }

    /// The step that the value of a term follows from, or none.
    pub(crate) fn reason_of(&self, n: TermId) -> StepId {
        get(&self.reasons, n.place())
    }

    /// The place of a literal among those that have a value.
    pub fn place(&self, literal: SignedTerm) -> u32 {
        get(&self.places, literal.term().place())
    }

    /// Whether a literal is true since that was decided.
    pub fn is_decided(&self, literal: SignedTerm) -> bool {
        self.is_true(literal) && self.reason_of(literal.term()).is_none()
    }

    /// Whether the goal is false.
    pub fn is_done(&self) -> bool {
        self.is_false(self.goal)
    }

    /// How many literals were decided.
    pub fn levels(&self) -> usize {
        self.limits.len()
    }

    /// How many terms have a value.
    pub fn count(&self) -> usize {
        self.trail.len()
    }

    /// The next literal that is true and was not told. It is told with that.
    pub fn tell(&mut self) -> Option<SignedTerm> {
        let found = self.trail.get(self.told).copied()?;
        self.told = self.told.saturating_add(1);
        Some(found)
    }

    /// Whether all literals that are true were told.
    pub fn is_told(&self) -> bool {
        self.told >= self.trail.len()
    }

    /// Begins a level with a literal that is decided.
    pub fn decide(&mut self, literal: SignedTerm) -> Result<(), SearchStop> {
        self.limits.push(self.trail.len())?;
        let level = number(self.limits.len())?;
        self.assign(literal, StepId::NONE, level)
    }

    /// Makes a literal true.
    pub(crate) fn assign(
        &mut self,
        literal: SignedTerm,
        reason: StepId,
        level: u32,
    ) -> Result<(), SearchStop> {
        let place = number(self.trail.len())?;
        let n = literal.term().place();
        set(&mut self.values, literal.place(), Some(true))?;
        set(&mut self.values, literal.negated().place(), Some(false))?;
        set(&mut self.levels, n, level)?;
        set(&mut self.reasons, n, reason)?;
        set(&mut self.places, n, place)?;
        self.trail.push(literal)?;
        Ok(())
    }

    /// Takes the value of a literal away.
    fn forget(&mut self, literal: SignedTerm) -> Result<(), SearchStop> {
        set(&mut self.values, literal.place(), None)?;
        set(&mut self.values, literal.negated().place(), None)
    }

    /// Assigns what a clause leaves, and gives it back where it is false.
    pub fn touch(&mut self, step: StepId, steps: &Steps) -> Found {
        let (mut left, mut level) = (SignedTerm::NONE, 0);
        for it in steps.literals(step) {
            match self.value(*it) {
                Some(true) => return Ok(None),
                Some(false) => level = level.max(self.level(*it)),
                None if left.is_none() => left = *it,
                None => return Ok(None),
            }
        }
        if left.is_none() {
            return Ok(Some(step));
        }
        self.assign(left, step, level)?;
        Ok(None)
    }

    /// Goes back to a level. What was assigned above it, and stands on no decision above it, is assigned again.
    pub fn back(&mut self, level: usize, steps: &Steps) -> Result<(), SearchStop> {
        let Some(limit) = self.limits.get(level).copied() else {
            return Ok(());
        };
        let mut early = copied(self.alloc, &self.units)?;
        for at in limit..self.trail.len() {
            let literal = get(&self.trail, at);
            if self.level(literal) as usize <= level {
                early.push(self.reason_of(literal.term()))?;
            }
            self.forget(literal)?;
        }
        self.trail.truncate(limit);
        self.limits.truncate(level);
        self.head = limit;
        self.told = limit;
        for step in &early {
            self.touch(*step, steps)?;
        }
        Ok(())
    }
}
